//! Names of a chain that have the same hash.
ghost use Rattle.std.specs.Prelude.{◌≡◌, ◌++◌, ◌∷◌, [], List, Ok, IfErr, IfOk, OnOk, map, option_map};
ghost use Rattle.domain_names.specs.Name.{Name};
ghost use Rattle.domain_nsec3.specs.{Chain.{Hash, hash_name}, View.config_of};
ghost use Rattle.domain_records.specs.Order.{IsInOrder};
ghost use Rattle.domain_borrowed.specs.Data.{zone_of_raw};
ghost use Rattle.domain_alike.specs.Alike.{pair_of, AreAlike, AreHashed, IsFirstPair, IsFirstChainRefusal, IsRefusedBy};
ghost use Rattle.domain_alike.specs.Alike.{first_with, AreFirstNames};

use crate::chain_names::chain_names;
use domain_base::{MAX_NAME, ParsedName, ToName};
use domain_borrowed::BorrowedRecord;
use domain_hasher::{Nsec3HashError, Nsec3Hasher};
use domain_nsec3::{GenerateNsec3Config, hash_wire};
use domain_octets::{Octets, OutOfMemory, TryClone};
use std::alloc::Global;
use std::collections::BTreeMap;

/// A name, and the first other name in canonical order that has the same hash.
#[derive(Drop)]
pub struct Alike<'a> {
    /// The name.
    pub later: ParsedName<'a>,
    /// The first name in canonical order that has its hash.
    pub first: ParsedName<'a>,
}

/// Returns the first name that was added with this hash. If there is none, adds this name.
fn first_of_hash<'a>(
    firsts: &mut BTreeMap<Vec<u8>, ParsedName<'a>>,
    hash: Vec<u8>,
    name: &ParsedName<'a>,
) -> Result<Option<ParsedName<'a>>, OutOfMemory>
    ensures { IfOk result (λ first. (h : Hash) (names : List Name)
        → hash_name h name.now ≡ Ok hash.items → AreFirstNames h names firsts.old
        → (first ≡ first_with h names (Ok hash.items))
        × AreFirstNames h (names ++ name.now ∷ []) firsts.new) }
{
    if let Some(first) = firsts.get(&hash) {
        return Ok(Some(first.try_clone()?));
    }
    firsts.insert(hash, name.try_clone()?)?;
    Ok(None)
}

/// Returns each name of the NSEC3 chain of sorted records that has the hash of an earlier one in
/// canonical order, with the first name that has it. The result is in canonical order. Other
/// reasons why the zone has no chain, such as no SOA record, are not checked.
///
/// Takes memory for each name, in a map of hashes.
///
/// # Errors
///
/// `Hasher` with the number of the hasher's error for the first name that has one, and
/// `OutOfMemory` if there is no memory.
pub fn alike_names<'a, O: Octets, S, H: Nsec3Hasher>(
    alloc: Global,
    apex: &ParsedName<'a>,
    sorted: &[BorrowedRecord<'a>],
    config: &GenerateNsec3Config<O, S>,
    hasher: &H,
) -> Result<Vec<Alike<'a>>, Nsec3HashError>
    requires { IsInOrder (λ n. n) (λ d. d.rtype) sorted.now }
    ensures ok { IfOk result (λ pairs. AreAlike (zone_of_raw sorted.now) apex.now (config_of
        (H.answer hasher.now) config.now) (map pair_of pairs.items)) }
    ensures hashed { OnOk result (AreHashed (zone_of_raw sorted.now) apex.now (config_of
        (H.answer hasher.now) config.now)) }
    ensures err { IfErr result (IsRefusedBy (IsFirstChainRefusal (zone_of_raw sorted.now) apex.now
        (config_of (H.answer hasher.now) config.now))) }
{
    let without_unsigned = config.params.opt_out_flag()
        & config.opt_out_exclude_owner_names_of_unsigned_delegations;
    let below_dname = config.occlude_below_dname;
    let names = chain_names(alloc, apex, sorted, without_unsigned, below_dname)?;
    let mut firsts = BTreeMap::new(alloc);
    let mut pairs = Vec::new(alloc);
    for name in &names {
        let mut buffer = [0; MAX_NAME];
        let lowered = name.lower_wire(&mut buffer);
        let hash = hash_wire(alloc, hasher, &config.params, lowered)?;
        if let Some(first) = first_of_hash(&mut firsts, hash, name)? {
            let later = name.try_clone()?;
            pairs.push(Alike { later, first })?;
        }
    }
    Ok(pairs)
}

/// Returns the first name, in canonical order, of the NSEC3 chain of sorted records that has the
/// hash of an earlier one, with the first name that has it. Returns `None` if no two names have the
/// same hash.
///
/// Takes memory as [`alike_names`] does.
///
/// # Errors
///
/// Those of [`alike_names`].
pub fn first_alike<'a, O: Octets, S, H: Nsec3Hasher>(
    alloc: Global,
    apex: &ParsedName<'a>,
    sorted: &[BorrowedRecord<'a>],
    config: &GenerateNsec3Config<O, S>,
    hasher: &H,
) -> Result<Option<Alike<'a>>, Nsec3HashError>
    requires { IsInOrder (λ n. n) (λ d. d.rtype) sorted.now }
    ensures ok { IfOk result (λ alike. IsFirstPair (zone_of_raw sorted.now) apex.now (config_of
        (H.answer hasher.now) config.now) (option_map pair_of alike)) }
    ensures hashed { OnOk result (AreHashed (zone_of_raw sorted.now) apex.now (config_of
        (H.answer hasher.now) config.now)) }
    ensures err { IfErr result (IsRefusedBy (IsFirstChainRefusal (zone_of_raw sorted.now) apex.now
        (config_of (H.answer hasher.now) config.now))) }
{
    let pairs = alike_names(alloc, apex, sorted, config, hasher)?;
    Ok(pairs.into_iter().next())
}
