//! An index of NSEC3 records that are read once, to look up the hashes of many names.
ghost use Rattle.std.specs.{Option.option_map, Prelude.{◌≡◌, ◌⊎◌, ◌<◌, ℕ, Ok, Some, None, Err, IfErr, IfOk, IfSome}};
ghost use Rattle.std.specs.Prelude.{◌∷◌, [], IsErrOf, IsPermutation, IsTrue, length, map, false};
ghost use Rattle.domain_names.specs.Name.{is_at_or_below, lowered, wire_of};
ghost use Rattle.domain_zone.specs.Covering.{covers, matches_or_covers};
ghost use Rattle.domain_nsec3.specs.{Chain.{hash_name, IsNoHash}, Meaning.octets_before};
ghost use Rattle.domain_nsec3.specs.View.{hash_by, hashed_links_of, parameters_of};
ghost use Rattle.domain_checker.specs.HashedIndex.{ends_before, ends_ring, hash_after, indexed_by};
ghost use Rattle.domain_checker.specs.HashedIndex.{is_placed_cover, is_placed_match, placed_links, placed_of};
ghost use Rattle.domain_checker.specs.HashedIndex.{search_of, AreApart, IsFoundAmong, IsIndexOf, IsInGapOf};
ghost use Rattle.domain_checker.specs.HashedIndex.{IsSearched};
ghost use Rattle.domain_checker.specs.HashedReading.{encloser_of, found_hash_cover, found_hash_match, IsHashFound};
ghost use Rattle.domain_checker.specs.HashedReading.{IsFoundEncloser, IsHashedChecked, IsLookedUp};
ghost use Rattle.domain_checker.specs.HashedVerdict.{links, parameters, IsFirstRefusal};
ghost use Rattle.domain_checker.specs.declared.index.Nsec3Search.TheVariants as search;
ghost use Rattle.domain_hasher.specs.declared.error.Nsec3HashError.TheVariants as hash_error;

use crate::Verdict;
use crate::laws::walks_are_proved;
use crate::nsec3::{
    Nsec3Encloser, Nsec3Found, Nsec3Rr, found_verdict, hash_of_owner, lies_between,
};
use domain_base::{MAX_NAME, ParsedName, Rtype, ToName};
use domain_hasher::{Nsec3HashError, Nsec3Hasher};
use domain_nsec3::{Nsec3Records, hash_wire};
use domain_octets::{Octets, OutOfMemory, SmallOctets};
use std::alloc::Global;
use std::marker::Model;

/// Up to this many records are compared one by one, which takes no longer than a search.
const FEW: usize = 8;

/// An NSEC3 record that is not ignored, and the hash that its owner encodes.
#[derive(Drop)]
pub(crate) struct Placed<'a, O: Octets, N: ToName> {
    hash: SmallOctets,
    nsec3: &'a Nsec3Rr<O, N>,
}

impl<'a, O: Octets, N: ToName> Placed<'a, O, N> {
    /// Returns whether the record matches the hash.
    #[tactic(auto, using(crate::proofs::HashedVerdictLemmas::tied_is))]
    fn is_match(&self, hash: &[u8]) -> bool
        ensures { result ≡ is_placed_match hash.now (placed_of N.labels self.now) }
    {
        self.hash.as_slice().cmp(hash).is_eq()
    }

    /// Returns whether the record covers the hash.
    fn is_cover(&self, hash: &[u8]) -> bool
        ensures { result ≡ is_placed_cover hash.now (placed_of N.labels self.now) }
    {
        lies_between(
            self.hash.as_slice(),
            self.nsec3.data().next_owner().as_slice(),
            hash,
        )
    }
}

/// Returns the records that are not ignored, in their order, each with its hash. Decodes each owner
/// once.
fn placed_of<'a, O: Octets, N: ToName>(
    alloc: Global,
    apex: &ParsedName<'a>,
    records: &'a Nsec3Records<N, O>,
) -> Result<Vec<Placed<'a, O, N>>, OutOfMemory>
    ensures { IfOk result (λ placed. map (placed_of N.labels) placed.items
        ≡ placed_links apex.now (parameters records.now) (links N.labels records.now)) }
{
    let mut placed = Vec::new(alloc);
    let mut buffer = [0; 63];
    let param = records.nsec3param.data();
    let nsec3s = records.nsec3s.as_slice();
    for nsec3 in nsec3s {
        let Some(hash) = hash_of_owner(apex, param, nsec3, &mut buffer) else {
            continue;
        };
        let hash = SmallOctets::from_slice(alloc, hash)?;
        placed.push(Placed { hash, nsec3 })?;
    }
    Ok(placed)
}

/// Sorts records by their hashes.
fn sort_by_hash<'a, O: Octets, N: ToName>(placed: &mut Vec<Placed<'a, O, N>>)
    ensures { IsPermutation placed.old.items placed.new.items }
{
    placed.sort_unstable_by(|a, b| a.hash.as_slice().cmp(b.hash.as_slice()));
}

/// Returns whether a record's next hash is after its own, and not after the hash of the record that
/// follows.
fn ends_before<O: Octets, N: ToName>(placed: &Placed<'_, O, N>, after: &Placed<'_, O, N>) -> bool
    ensures { result ≡ ends_before (placed_of N.labels placed.now) (placed_of N.labels after.now) }
{
    let next = placed.nsec3.data().next_owner().as_slice();
    let after = after.hash.as_slice();
    placed.hash.as_slice().cmp(next).is_lt() & !after.cmp(next).is_lt()
}

/// Returns whether the last record is not before the first, and covers no hash between the two.
fn ends_ring<O: Octets, N: ToName>(last: &Placed<'_, O, N>, first: &Placed<'_, O, N>) -> bool
    ensures { result ≡ ends_ring (placed_of N.labels last.now) (placed_of N.labels first.now) }
{
    let next = last.nsec3.data().next_owner().as_slice();
    let (own, first) = (last.hash.as_slice(), first.hash.as_slice());
    !own.cmp(first).is_lt() & (own.cmp(next).is_lt() | !first.cmp(next).is_lt())
}

/// Returns true only if records are sorted by their hashes, and no two of them match or cover the
/// same hash.
fn are_apart<O: Octets, N: ToName>(placed: &[Placed<'_, O, N>]) -> bool
    ensures { IsTrue result → AreApart (map (placed_of N.labels) placed.now) }
{
    let (Some(first), Some(last)) = (placed.first(), placed.last()) else {
        return false;
    };
    if !ends_ring(last, first) {
        return false;
    }
    placed.is_sorted_by(|a, b| ends_before(a, b))
}

/// Returns the records that are not ignored, and whether they are sorted by hash and apart. If not,
/// they are in their own order. The owners of records that overlap are decoded twice.
fn place_all<'a, O: Octets, N: ToName>(
    alloc: Global,
    apex: &ParsedName<'a>,
    records: &'a Nsec3Records<N, O>,
) -> Result<(Vec<Placed<'a, O, N>>, bool), OutOfMemory>
    ensures { IfOk result (λ made. IsIndexOf
        (placed_links apex.now (parameters records.now) (links N.labels records.now))
        (map (placed_of N.labels) made.0.items) made.1) }
{
    let mut placed = placed_of(alloc, apex, records)?;
    if placed.len() <= FEW {
        return Ok((placed, false));
    }
    sort_by_hash(&mut placed);
    if are_apart(&placed) {
        return Ok((placed, true));
    }
    Ok((placed_of(alloc, apex, records)?, false))
}

/// Returns the first record that matches the hash or, if none does, the first that covers it. Reads
/// the records once.
fn walk<'a, O: Octets, N: ToName>(placed: &[Placed<'a, O, N>], hash: &[u8]) -> Nsec3Found<'a, O, N>
    ensures { IsFoundAmong (map (placed_of N.labels) placed.now) hash.now
        (found_hash_match N.labels result) (found_hash_cover N.labels result) }
{
    let mut cover = None;
    for one in placed {
        if one.is_match(hash) {
            return Nsec3Found::Match(one.nsec3);
        }
        if cover.is_some() {
            continue;
        }
        cover = one.is_cover(hash).then_some(one.nsec3);
    }
    Nsec3Found::NoMatch(cover)
}

/// Returns the hash of the record after `at`, or that of the first record if `at` is the last.
fn hash_after<'s, O: Octets, N: ToName>(placed: &'s [Placed<'_, O, N>], at: usize) -> &'s [u8]
    requires { at < length placed.now }
    ensures { result.now ≡ hash_after (map (placed_of N.labels) placed.now) at }
{
    if at + 1 < placed.len() {
        return placed[at + 1].hash.as_slice();
    }
    placed[0].hash.as_slice()
}

/// Returns the only record that may match or cover the hash: the one in whose gap the hash lies. A
/// search guesses it; None if the guess is wrong.
fn only_of<'s, 'a, O: Octets, N: ToName>(
    placed: &'s [Placed<'a, O, N>],
    hash: &[u8],
) -> Option<&'s Placed<'a, O, N>>
    ensures { IfSome result (λ one. IsInGapOf (map (placed_of N.labels) placed.now) hash.now
        (placed_of N.labels one.now)) }
{
    let count = placed.partition_point(|one| one.hash.as_slice().cmp(hash).is_le());
    let at = count
        .checked_sub(1)
        .unwrap_or(placed.len().saturating_sub(1));
    let one = placed.get(at)?;
    let in_gap = one.is_match(hash)
        | lies_between(one.hash.as_slice(), hash_after(placed, at), hash);
    in_gap.then_some(one)
}

/// Returns what one record says of a hash that no other record matches or covers.
fn told_by<'a, O: Octets, N: ToName>(one: &Placed<'a, O, N>, hash: &[u8]) -> Nsec3Found<'a, O, N>
    ensures { IsFoundAmong (placed_of N.labels one.now ∷ []) hash.now
        (found_hash_match N.labels result) (found_hash_cover N.labels result) }
{
    if one.is_match(hash) {
        return Nsec3Found::Match(one.nsec3);
    }
    Nsec3Found::NoMatch(one.is_cover(hash).then_some(one.nsec3))
}

/// Returns what records that are apart say of a hash.
fn search<'a, O: Octets, N: ToName>(
    placed: &[Placed<'a, O, N>],
    hash: &[u8],
) -> Nsec3Found<'a, O, N>
    requires { AreApart (map (placed_of N.labels) placed.now) }
    ensures { IsFoundAmong (map (placed_of N.labels) placed.now) hash.now
        (found_hash_match N.labels result) (found_hash_cover N.labels result) }
{
    match only_of(placed, hash) {
        Some(one) => told_by(one, hash),
        None => walk(placed, hash),
    }
}

/// The result of searching from a name towards the apex.
#[derive(Drop)]
pub enum Nsec3Search<'a, O: Octets, N: ToName> {
    /// The first name that a record matches (RFC 5155, section 8.3).
    Found(Nsec3Encloser<'a, O, N>),
    /// No record matches a name up to the apex, or the name is not at or below the apex.
    Unmatched,
    /// No record matches any of the names that the limit allows to hash, and the apex is not among
    /// these.
    TooManyNames,
}

/// An index of NSEC3 records, which are read once to look up many hashes. Contracts see the
/// records, the apex and the parameters of the NSEC3PARAM record. It borrows all of them, and holds
/// about 64 octets for each record that is not ignored.
#[derive(Drop)]
pub struct Nsec3Index<'a, O: Octets, N: ToName> {
    apex: ParsedName<'a>,
    records: &'a Nsec3Records<N, O>,
    placed: Vec<Placed<'a, O, N>>,
    /// Whether these are sorted by hash, and apart.
    apart: bool,
}

impl<'a, O: Octets, N: ToName> Model for Nsec3Index<'a, O, N> {
    ghost use Rattle.std.specs.Prelude.{map};
    ghost use Rattle.domain_checker.specs.HashedIndex.{placed_links, placed_of, IndexedRecords, IsIndexOf};
    ghost use Rattle.domain_checker.specs.HashedVerdict.{links, parameters};

    ghost Value = { IndexedRecords };

    ghost view = { λ i. record {
      links = links N.labels i.records.now;
      apex = i.apex;
      parameters = parameters i.records.now;
    } };

    ghost invariant = { λ i. IsIndexOf
        (placed_links i.apex (parameters i.records.now) (links N.labels i.records.now))
        (map (placed_of N.labels) i.placed.items) i.apart };
}

impl<'a, O: Octets, N: ToName> Nsec3Index<'a, O, N> {
    /// Reads the owner of each record once (RFC 5155, section 3). A record is ignored if it differs
    /// from the NSEC3PARAM record in algorithm, iterations or salt. It is also ignored if its owner
    /// is not one label in Base 32 hex before the apex. Classes, TTLs and flags are not compared.
    ///
    /// If no two records match or cover the same hash, as in a chain, they are sorted, and each
    /// hash is found by a search. Otherwise they are compared one by one, in their order.
    ///
    /// # Errors
    ///
    /// `OutOfMemory` if there is no memory.
    pub fn new<A: ToName>(
        alloc: Global,
        apex: &'a A,
        records: &'a Nsec3Records<N, O>,
    ) -> Result<Self, OutOfMemory>
        ensures { IfOk result (λ index. index ≡ record {
          links = links N.labels records.now;
          apex = A.labels apex.now;
          parameters = parameters records.now;
        }) }
    {
        let apex = apex.as_parsed();
        let (placed, apart) = place_all(alloc, &apex, records)?;
        Ok(Nsec3Index {
            apex,
            records,
            placed,
            apart,
        })
    }

    /// Returns the apex.
    pub fn apex(&self) -> &ParsedName<'a>
        ensures { result.now ≡ self.now.apex }
    {
        &self.apex
    }

    /// Returns the iterations of the NSEC3PARAM record.
    pub fn iterations(&self) -> u16
        ensures { result ≡ self.now.parameters.iterations }
    {
        self.records.nsec3param.data().iterations()
    }

    /// Returns what the records say of a hash: the first that matches it or, if none does, the
    /// first that covers it.
    pub fn find(&self, hash: &[u8]) -> Nsec3Found<'a, O, N>
        ensures { IsHashFound self.now.apex self.now.parameters self.now.links hash.now
            (found_hash_match N.labels result) (found_hash_cover N.labels result) }
    {
        if self.apart {
            search(&self.placed, hash)
        } else {
            walk(&self.placed, hash)
        }
    }

    /// Returns what the records say of the name with this wire form in lower case.
    fn look_up<H: Nsec3Hasher>(
        &self,
        alloc: Global,
        wire: &[u8],
        hasher: &H,
    ) -> Result<Nsec3Found<'a, O, N>, Nsec3HashError>
        ensures ok { IfOk result (λ found. IsLookedUp (indexed_by (H.answer hasher.now) self.now)
            wire.now (found_hash_match N.labels found) (found_hash_cover N.labels found)) }
        ensures err { IfErr result (IsNoHash
            (λ n. hash_by (H.answer hasher.now) self.now.parameters wire.now ≡ Err n)
            (H.takes_memory hasher.now)) }
    {
        let param = self.records.nsec3param.data();
        let hash = hash_wire(alloc, hasher, param, wire)?;
        Ok(self.find(hash.as_slice()))
    }

    /// Returns what the records say of one name, as `find_nsec3` does. Hashes the name, and no
    /// other. Allocates nothing but the hasher's digest.
    ///
    /// # Errors
    ///
    /// `Hasher` with the number of the hasher's error, and `OutOfMemory` if the hasher has no
    /// memory.
    pub fn find_name<M: ToName, H: Nsec3Hasher>(
        &self,
        alloc: Global,
        name: &M,
        hasher: &H,
    ) -> Result<Nsec3Found<'a, O, N>, Nsec3HashError>
        ensures found { IfOk result (λ found. IsLookedUp (indexed_by (H.answer hasher.now) self.now)
            (wire_of (lowered (M.labels name.now)))
            (found_hash_match N.labels found) (found_hash_cover N.labels found)) }
        ensures err { IfErr result (IsNoHash (λ n.
            hash_name (hash_by (H.answer hasher.now) self.now.parameters) (M.labels name.now)
            ≡ Err n) (H.takes_memory hasher.now)) }
    {
        let mut buffer = [0; MAX_NAME];
        let lowered = name.lower_wire(&mut buffer);
        Ok(self.look_up(alloc, lowered, hasher)?)
    }

    /// Returns what the records say of the closest encloser of a name, as `find_nsec3_encloser`
    /// does. A name has at most 127 labels, so at most 128 names are hashed, the root included.
    /// Allocates nothing but the hasher's digests, one at a time.
    ///
    /// # Errors
    ///
    /// `Hasher` with the number of the first error among the hashes that are computed, and
    /// `OutOfMemory` if the hasher has no memory.
    pub fn find_encloser<M: ToName, H: Nsec3Hasher>(
        &self,
        alloc: Global,
        name: &M,
        hasher: &H,
    ) -> Result<Option<Nsec3Encloser<'a, O, N>>, Nsec3HashError>
        ensures outside { is_at_or_below (M.labels name.now) self.now.apex ≡ false
            → result ≡ Ok None }
        ensures found { IfOk result (λ found. IsFoundEncloser
            (indexed_by (H.answer hasher.now) self.now) (M.labels name.now)
            (option_map (encloser_of N.labels) found)) }
        ensures refusal { (n : ℕ) → IsErrOf result (hash_error.Hasher n)
            → IsFirstRefusal (indexed_by (H.answer hasher.now) self.now) (M.labels name.now) n }
        ensures errors { IfErr result (λ e. (e ≡ hash_error.OutOfMemory)
            ⊎ ((n : ℕ) × (e ≡ hash_error.Hasher n))) }
        ensures memory { IsErrOf result hash_error.OutOfMemory → H.takes_memory hasher.now }
    {
        let _count = name.count_labels();
        match self.find_encloser_within(alloc, name, MAX_NAME, hasher)? {
            Nsec3Search::Found(encloser) => Ok(Some(encloser)),
            Nsec3Search::Unmatched => Ok(None),
            Nsec3Search::TooManyNames => unreachable!(),
        }
    }

    /// Returns what the records say of the closest encloser of a name, as `find_nsec3_encloser`
    /// does, and hashes at most `names` names. Returns `TooManyNames` if that is too few to reach
    /// the closest encloser or, if no record matches, the apex (CVE-2023-50868): no record matches
    /// any of the names that were hashed. Allocates nothing but the hasher's digests, one at a
    /// time.
    ///
    /// # Errors
    ///
    /// `Hasher` with the number of the first error among the hashes that are computed, and
    /// `OutOfMemory` if the hasher has no memory.
    pub fn find_encloser_within<M: ToName, H: Nsec3Hasher>(
        &self,
        alloc: Global,
        name: &M,
        names: usize,
        hasher: &H,
    ) -> Result<Nsec3Search<'a, O, N>, Nsec3HashError>
        ensures outside { is_at_or_below (M.labels name.now) self.now.apex ≡ false
            → result ≡ Ok search.Unmatched }
        ensures found { IfOk result (λ found. IsSearched (indexed_by (H.answer hasher.now) self.now)
            (M.labels name.now) names (search_of N.labels found)) }

        // An error is the first of the hasher, or out of memory.
        ensures refusal { (n : ℕ) → IsErrOf result (hash_error.Hasher n)
            → IsFirstRefusal (indexed_by (H.answer hasher.now) self.now) (M.labels name.now) n }
        ensures errors { IfErr result (λ e. (e ≡ hash_error.OutOfMemory)
            ⊎ ((n : ℕ) × (e ≡ hash_error.Hasher n))) }
        ensures memory { IsErrOf result hash_error.OutOfMemory → H.takes_memory hasher.now }
    {
        let mut left = name.as_parsed();
        if !name.ends_with(&self.apex) {
            return Ok(Nsec3Search::Unmatched);
        }
        let mut buffer = [0; MAX_NAME];
        let mut octets = name.lower_wire(&mut buffer);
        let mut cover = None;
        let mut allowed = names;
        'names: loop {
            if allowed == 0 {
                return Ok(Nsec3Search::TooManyNames);
            }
            allowed -= 1;
            cover = match self.look_up(alloc, octets, hasher)? {
                Nsec3Found::Match(matching) => {
                    return Ok(Nsec3Search::Found(Nsec3Encloser {
                        count: left.count_labels(),
                        matching,
                        cover,
                    }));
                }
                Nsec3Found::NoMatch(next) => next,
            };
            if left.name_eq(&self.apex) {
                return Ok(Nsec3Search::Unmatched);
            }
            let Some((label, above)) = left.split_first() else {
                unreachable!();
            };
            octets = &octets[label.len() + 1..];
            left = above;
        }
    }
}

/// Returns what NSEC3 records of an index prove about a name and a type, as `check_nsec3` does.
/// Allocates nothing but the hasher's digests, one at a time.
///
/// # Errors
///
/// `Hasher` with the number of the first error among the hashes that are computed, and
/// `OutOfMemory` if the hasher has no memory.
pub fn check_nsec3_index<O: Octets, N: ToName, M: ToName, H: Nsec3Hasher>(
    alloc: Global,
    index: &Nsec3Index<'_, O, N>,
    name: &M,
    rtype: Rtype,
    hasher: &H,
) -> Result<Verdict, Nsec3HashError>
    ensures checked { IsHashedChecked (indexed_by (H.answer hasher.now) index.now)
        (M.labels name.now) rtype result }
    ensures memory { IsErrOf result hash_error.OutOfMemory → H.takes_memory hasher.now }
{
    let apex = index.apex();
    if !name.ends_with(apex) {
        return Ok(Verdict::OutsideZone);
    }
    walks_are_proved();
    let _number = rtype.to_int();
    let found = index.find_encloser(alloc, name, hasher)?;
    Ok(found_verdict(apex, found, name.count_labels(), rtype))
}
