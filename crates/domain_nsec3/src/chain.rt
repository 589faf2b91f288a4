//! The names over the owners of a chain, and a chain before its records are made.
ghost use Rattle.std.specs.Prelude.{◌≡◌, ◌+◌, ◌<◌, ◌++◌, Some, true, false, length, map};
ghost use Rattle.std.specs.Prelude.{slice_index_or, All, IfOk, IfErr, OnOk, OnErr, IsPermutation};
ghost use Rattle.std.specs.List.{list_any, Sorted.{IsSortedByKey, IsStrictlySortedBy}};
ghost use Rattle.std.specs.{Ordering.nat_cmp, Cmp.Lexicographic.slice_cmp};
ghost use Rattle.domain_names.specs.Name.{is_at_or_below, same_name, canonical_cmp};
ghost use Rattle.domain_groups.specs.InOrder.{IsInOrder};
ghost use Rattle.domain_hasher.specs.declared.error.Nsec3HashError.TheVariants as hash_error;
ghost use Rattle.domain_zone.specs.Zone.{chain_ttl, soa_of, zone_of};
ghost use Rattle.domain_nsec3.specs.{Chain.{IsHashedChain, IsHashedFaultless, IsFirstHashedFault}, Steps.AreOrderedHashes};
ghost use Rattle.domain_nsec3.specs.Steps.{AreUsable, AreWithEmpty, HasAlikeNeighbours, IsHashingFault};
ghost use Rattle.domain_nsec3.specs.Steps.{above_with_more, is_over, IsListOf, common_of, hashed_links_in};
ghost use Rattle.domain_nsec3.specs.View.{config_of, hash_by, parameters_of};
ghost use Rattle.domain_nsec3.specs.declared.hash.Hashed.{Hashed};

use crate::GenerateNsec3Config;
use crate::hash::{Hashed, MAX_NAMES, hash_into};
use domain_base::{ParsedName, ToName};
use domain_bitmap::RtypeBitmaps;
use domain_chain_rdata::Nsec3param;
use domain_groups::{RecordsIter, SigningError, Sorter};
use domain_hasher::{Nsec3HashError, Nsec3Hasher};
use domain_octets::{Octets, OutOfMemory, TryClone};
use domain_record::ZoneData;
use domain_zone::{ApexSoa, ListedOwners, list_owners};
use std::alloc::Global;

/// Adds the names above a name that have more than `shared` labels, the shortest first. A list in
/// canonical order, with no name after `name`, stays in order.
fn push_ancestors<'a>(
    names: &mut Vec<ParsedName<'a>>,
    name: &ParsedName<'a>,
    count: usize,
    shared: usize,
) -> Result<(), OutOfMemory>
    requires { length name.now ≡ count }
    ensures { OnOk result (names.new.items
        ≡ names.old.items ++ above_with_more shared name.now) }
{
    let above_count = count.saturating_sub(1);
    if above_count <= shared {
        return Ok(());
    }
    let Some((_, above)) = name.split_first() else {
        unreachable!();
    };
    push_ancestors(names, &above, above_count, shared)?;
    names.push(above)?;
    Ok(())
}

/// Returns the empty non-terminals over these owners, each once, in canonical order: the names at
/// or below the apex that are above an owner and are not owners themselves (RFC 5155, section 1.3).
/// If `with_owners` is true, returns the owners among them. The names borrow the octets of the
/// owners.
///
/// Each owner adds the names above it that it does not share with the previous owner. The owners
/// are in order, so these names are not owners, and come after all names that were added before.
/// Takes only the memory of the list.
pub fn names_over<'a>(
    alloc: Global,
    apex: &ParsedName<'a>,
    owners: &[ParsedName<'a>],
    with_owners: bool,
) -> Result<Vec<ParsedName<'a>>, OutOfMemory>
    requires ascend { IsStrictlySortedBy canonical_cmp owners.now }
    requires in_zone { All (λ n. is_at_or_below n apex.now ≡ true) owners.now }
    requires begins { list_any (λ n. same_name n apex.now) owners.now ≡ true }
    ensures { IfOk result (λ names.
        IsListOf (is_over with_owners owners.now apex.now) names.items) }
{
    let mut names = Vec::new(alloc);
    let mut previous = apex;
    for owner in owners {
        let shared = owner.common_labels(previous);
        push_ancestors(&mut names, owner, owner.count_labels(), shared)?;
        if with_owners {
            names.push(owner.try_clone()?)?;
        }
        previous = owner;
    }
    Ok(names)
}

/// A chain before its records are made: the hashes of its names, and the types of the names that
/// own records. These names are the first of the names as they were hashed. The others have no
/// types.
#[derive(Drop)]
pub(crate) struct HashedChain {
    pub(crate) hashed: Vec<Hashed>,
    pub(crate) types: RtypeBitmaps,
}

/// Sorts hashes. An error leaves the list as it was.
pub(crate) fn sort_by_hash<S: Sorter>(hashed: &mut Vec<Hashed>) -> Result<(), OutOfMemory>
    ensures permutation { IsPermutation hashed.old.items hashed.new.items }
    ensures sorted { OnOk result
        (IsSortedByKey (λ h. h.hash) (slice_cmp nat_cmp) hashed.new.items) }
    ensures err { OnErr result (hashed.new.items ≡ hashed.old.items) }
{
    S::sort_by(hashed, |a, b| a.hash.compare(&b.hash))
}

/// Returns the hash after the one at a place, or the first one after the last.
pub(crate) fn hash_after(hashed: &[Hashed], at: usize) -> &[u8]
    requires { at < length hashed.now }
    ensures { (d : Hashed) → result.now
        ≡ (slice_index_or hashed.now (at + 1) (slice_index_or hashed.now 0 d)).hash }
{
    if at + 1 < hashed.len() {
        return hashed[at + 1].hash.as_slice();
    }
    hashed[0].hash.as_slice()
}

/// Returns the chain of these hashes if no two of them are equal. Takes no memory.
///
/// # Errors
///
/// `CollisionDetected` if two neighbours are equal.
fn without_collision(
    hashed: Vec<Hashed>,
    types: RtypeBitmaps,
) -> Result<HashedChain, Nsec3HashError>
    requires { IsSortedByKey (λ h. h.hash) (slice_cmp nat_cmp) hashed.items }
    ensures ok { IfOk result (λ chain. (chain.hashed.items ≡ hashed.items)
        × (chain.types ≡ types)) }
    ensures apart { OnOk result
        (IsStrictlySortedBy (slice_cmp nat_cmp) (map (λ h. h.hash) hashed.items)) }
    ensures err { IfErr result (λ e. (e ≡ hash_error.CollisionDetected)
        × HasAlikeNeighbours hashed.items) }
{
    if !hashed.is_sorted_by(|x, y| x.hash.compare(&y.hash).is_lt()) {
        return Err(Nsec3HashError::CollisionDetected);
    }
    Ok(HashedChain { hashed, types })
}

/// Returns a chain over these names, the first of which own records and have these types. Hashes
/// the names in the order of the list, and then sorts the hashes. More than `MAX_NAMES` names count
/// as out of memory.
fn hash_chain<S: Sorter, H: Nsec3Hasher, O: Octets>(
    alloc: Global,
    hasher: &H,
    params: &Nsec3param<O>,
    apex: &ParsedName<'_>,
    names: Vec<ParsedName<'_>>,
    types: RtypeBitmaps,
) -> Result<HashedChain, Nsec3HashError>
    ensures chain { IfOk result (λ chain. AreOrderedHashes apex.now
        (hash_by (H.answer hasher.now) (parameters_of params.now)) names.entry.items
        chain.hashed.items) }
    ensures types { IfOk result (λ chain. chain.types ≡ types) }
    ensures fault { IfErr result (IsHashingFault apex.now
        (hash_by (H.answer hasher.now) (parameters_of params.now)) names.entry.items) }
{
    if names.len() > MAX_NAMES {
        return Err(Nsec3HashError::OutOfMemory);
    }
    let room = Vec::with_capacity(alloc, names.len())?;
    let mut hashed = hash_into(alloc, hasher, params, apex, names.as_slice(), room)?;
    drop(names);
    sort_by_hash::<S>(&mut hashed)?;
    Ok(without_collision(hashed, types)?)
}

/// Returns the names of a chain: these owners, in canonical order from the apex on, and then their
/// empty non-terminals.
fn with_empty<'a>(
    alloc: Global,
    apex: &ParsedName<'a>,
    mut names: Vec<ParsedName<'a>>,
) -> Result<Vec<ParsedName<'a>>, OutOfMemory>
    requires ascend { IsStrictlySortedBy canonical_cmp names.items }
    requires in_zone { All (λ n. is_at_or_below n apex.now ≡ true) names.items }
    requires begins { list_any (λ n. same_name n apex.now) names.items ≡ true }
    ensures { IfOk result (λ all. AreWithEmpty apex.now names.entry.items all.items) }
{
    let mut empty = names_over(alloc, apex, names.as_slice(), false)?;
    names.append(&mut empty)?;
    Ok(names)
}

/// Returns the chain of a zone whose SOA record is known.
pub(crate) fn chain_of_zone<S: Sorter, H: Nsec3Hasher, O: Octets, N: ToName, D: ZoneData>(
    alloc: Global,
    apex: &N,
    records: RecordsIter<'_, N, D>,
    config: &GenerateNsec3Config<O, S>,
    hasher: &H,
    soa: &ApexSoa,
) -> Result<HashedChain, SigningError>
    requires in_order { IsInOrder N.labels D.rtype records }
    requires soa { soa_of (zone_of N.labels D.rtype D.minimum records) (N.labels apex.now)
        ≡ Some soa.now }
    ensures chain { IfOk result (λ chain. IsHashedChain
        (zone_of N.labels D.rtype D.minimum records.entry) (N.labels apex.now)
        (config_of (H.answer hasher.now) config.now)
        (hashed_links_in (N.labels apex.now) chain (common_of config.now.params
        (chain_ttl soa.now)))) }
    ensures sound { IfOk result (λ chain. AreUsable (N.labels apex.now) chain) }
    ensures faultless { OnOk result (IsHashedFaultless (zone_of N.labels D.rtype D.minimum
        records.entry) (N.labels apex.now) (config_of (H.answer hasher.now) config.now)) }
    ensures fault { IfErr result (IsFirstHashedFault (zone_of N.labels D.rtype D.minimum
        records.entry) (N.labels apex.now) (config_of (H.answer hasher.now) config.now)) }
{
    let without_unsigned = config.params.opt_out_flag()
        & config.opt_out_exclude_owner_names_of_unsigned_delegations;
    let below_dname = config.occlude_below_dname;
    let owners = list_owners(alloc, apex, records, without_unsigned, below_dname, config)?;
    let ListedOwners { names, types, .. } = owners;
    let apex = apex.as_parsed();
    let names = with_empty(alloc, &apex, names)?;
    Ok(hash_chain::<S, H, O>(alloc, hasher, &config.params, &apex, names, types)?)
}
