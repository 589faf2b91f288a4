//! What records of an NSEC3 chain say of hashes and of closest enclosers, and what they prove.
ghost use Rattle.std.specs.{Option.{is_some, option_map}, List.list_all};
ghost use Rattle.std.specs.Prelude.{◌≡◌, ◌≤◌, ◌⊎◌, ℕ, Ok, Err, None, false, IfOk, IfErr, IsErrOf, length};
ghost use Rattle.domain_codecs.specs.Codec.{is_digit};
ghost use Rattle.domain_names.specs.Name.{is_at_or_below, lowered, wire_of};
ghost use Rattle.domain_zone.specs.Covering.{covers};
ghost use Rattle.domain_nsec3.specs.{Chain.{hash_name, IsNoHash}, Meaning.octets_before};
ghost use Rattle.domain_nsec3.specs.View.{as_hashed_link, hashed_links_of, parameters_of};
ghost use Rattle.domain_checker.specs.HashedReading.{encloser_is_cut, encloser_of, found_hash_cover, found_hash_match};
ghost use Rattle.domain_checker.specs.HashedReading.{found_verdict, hash_cover_verdict, IsHashFound};
ghost use Rattle.domain_checker.specs.HashedReading.{IsFoundEncloser, IsHashedChecked, IsLookedUp};
ghost use Rattle.domain_checker.specs.HashedVerdict.{hash_in, hash_with, hashed_records, is_spelling, owner_hash};
ghost use Rattle.domain_checker.specs.HashedVerdict.{read_label, IsFirstRefusal};
ghost use Rattle.domain_hasher.specs.declared.error.Nsec3HashError.TheVariants as hash_error;

use crate::Verdict;
use crate::laws::walks_are_proved;
use domain_base::{MAX_NAME, Rtype, ToName};
use domain_chain_rdata::{Nsec3, Nsec3param};
use domain_codecs::Codec;
use domain_codecs::base32::{digit_or_zero, digit_value};
use domain_hasher::{Nsec3HashError, Nsec3Hasher};
use domain_nsec3::{Nsec3Records, hash_wire};
use domain_octets::Octets;
use domain_record::Record;
use std::alloc::Global;

/// Returns whether all octets are digits of Base 32 hex.
fn are_digits(label: &[u8]) -> bool
    ensures { result ≡ list_all (is_digit Codec.Base32Hex) label.now }
{
    label.iter().all(|c| digit_value(*c).is_some())
}

/// Returns whether the label is Base 32 hex, in either case.
fn is_spelling(label: &[u8]) -> bool
    ensures { result ≡ is_spelling label.now }
{
    let over = label.len() % 8;
    are_digits(label) & !((over == 1) | (over == 3) | (over == 6))
}

/// Decodes the Base 32 hex digits of a label into a buffer. An octet that is not a digit counts as
/// 0, and bits after the last whole octet are ignored. Does not allocate.
#[tactic(auto, using(domain_codecs::proofs::CodecLemmas::digits_steps, domain_codecs::proofs::CodecLemmas::digits_end))]
fn read_label<'b>(label: &[u8], buffer: &'b mut [u8; 63]) -> &'b [u8]
    requires { length label.now ≤ 63 }
    ensures { result.now ≡ read_label label.now }
{
    let mut count = 0;
    let mut scale: u32 = 1;
    let mut rest: u32 = 0;
    for c in label {
        let wider = 32 * scale;
        let value = 32 * rest + digit_or_zero(*c);
        if wider < 256 {
            scale = wider;
            rest = value;
            continue;
        }
        scale = wider / 256;
        rest = value % scale;
        buffer[count] = (value / scale) as u8;
        count += 1;
    }
    &buffer[..count]
}

/// Returns whether an owner is one label in Base 32 hex right before the apex. The owners of the
/// NSEC3 records of a zone are (RFC 5155, section 3).
#[tactic(auto, using(std::proofs::lemmas::Grind::common_steps))]
pub fn is_hash_owner<A: ToName, N: ToName>(apex: &A, owner: &N) -> bool
    ensures { result ≡ is_some (hash_in (A.labels apex.now) (N.labels owner.now)) }
{
    let owner = owner.as_parsed();
    let Some((label, above)) = owner.split_first() else {
        return false;
    };
    above.name_eq(apex) & is_spelling(label)
}

/// An NSEC3 record (RFC 5155, section 3).
pub type Nsec3Rr<O, N> = Record<N, Nsec3<O>>;

/// What NSEC3 records say of a hash (RFC 5155, section 1.3).
#[derive(Drop)]
pub enum Nsec3Found<'a, O: Octets, N: ToName> {
    /// The first record that matches the hash.
    Match(&'a Record<N, Nsec3<O>>),
    /// No record matches the hash; this is the first that covers it, if one does.
    NoMatch(Option<&'a Record<N, Nsec3<O>>>),
}

/// Decodes the hash of a record's owner into a buffer. None if the record has other parameters, or
/// an owner of another form.
#[tactic(auto, using(std::proofs::lemmas::Grind::common_steps, crate::proofs::HashedVerdictLemmas::label_short))]
pub(crate) fn hash_of_owner<'b, A: ToName, O: Octets, N: ToName>(
    apex: &A,
    param: &Nsec3param<O>,
    listed: &Nsec3Rr<O, N>,
    buffer: &'b mut [u8; 63],
) -> Option<&'b [u8]>
    ensures { option_map (λ h. h.now) result
        ≡ owner_hash (A.labels apex.now) (parameters_of param.now)
        (as_hashed_link N.labels listed.now) }
{
    let owner = listed.owner().as_parsed();
    // A label of a name has at most 63 octets.
    let _wire = owner.as_wire();
    let Some((label, above)) = owner.split_first() else {
        return None;
    };
    let nsec3 = listed.data();
    let same = (nsec3.hash_algorithm() == param.hash_algorithm())
        & (nsec3.iterations() == param.iterations())
        & (nsec3.salt().as_slice() == param.salt().as_slice());
    if !same {
        return None;
    }
    if !(above.name_eq(apex) & is_spelling(label)) {
        return None;
    }
    Some(read_label(label, buffer))
}

/// Returns whether a hash lies between the hashes of a record's owner and next owner. If the next
/// one is not after the first, returns whether the hash lies on either side of the two.
#[tactic(auto, using(crate::proofs::HashedVerdictLemmas::tied_is))]
pub(crate) fn lies_between(owner: &[u8], next: &[u8], hash: &[u8]) -> bool
    ensures { result ≡ covers octets_before owner.now next.now hash.now }
{
    let order = owner.cmp(hash);
    let ahead = hash.cmp(next).is_lt();
    let between = if owner.cmp(next).is_lt() {
        order.is_lt() & ahead
    } else {
        order.is_lt() | ahead
    };
    !order.is_eq() & between
}

/// Returns the first record that matches the hash or, if none does, the first that covers it. Reads
/// the records once.
#[tactic(auto, using(crate::proofs::HashedVerdictLemmas::tied_is))]
fn find_hash<'a, A: ToName, O: Octets, N: ToName>(
    apex: &A,
    param: &Nsec3param<O>,
    nsec3s: &'a [Nsec3Rr<O, N>],
    hash: &[u8],
) -> Nsec3Found<'a, O, N>
    ensures { IsHashFound (A.labels apex.now) (parameters_of param.now)
        (hashed_links_of N.labels nsec3s.now) hash.now
        (found_hash_match N.labels result) (found_hash_cover N.labels result) }
{
    let mut cover = None;
    let mut buffer = [0; 63];
    for listed in nsec3s {
        let Some(owner) = hash_of_owner(apex, param, listed, &mut buffer) else {
            continue;
        };
        if owner.cmp(hash).is_eq() {
            return Nsec3Found::Match(listed);
        }
        if cover.is_some() {
            continue;
        }
        let next = listed.data().next_owner().as_slice();
        cover = lies_between(owner, next, hash).then_some(listed);
    }
    Nsec3Found::NoMatch(cover)
}

/// What NSEC3 records say of the closest encloser of a name (RFC 5155, section 8.3): the first of
/// the name and its ancestors at or below the apex that a record matches.
#[derive(Drop)]
pub struct Nsec3Encloser<'a, O: Octets, N: ToName> {
    /// The number of labels of that name, without the root: it is the last `count` labels of the
    /// name that was looked up.
    pub count: usize,
    /// The first record that matches that name.
    pub matching: &'a Record<N, Nsec3<O>>,
    /// The first record that covers the next closer name, which is one label longer. None if no
    /// record does, or if the name that was looked up is itself matched.
    pub cover: Option<&'a Record<N, Nsec3<O>>>,
}

impl<'a, O: Octets, N: ToName> Nsec3Encloser<'a, O, N> {
    /// Returns whether the matched name is a zone cut: its record lists NS, and it is not the apex.
    pub fn is_zone_cut<A: ToName>(&self, apex: &A) -> bool
        ensures { result ≡ encloser_is_cut (A.labels apex.now) (encloser_of N.labels self.now) }
    {
        (self.count != apex.count_labels()) & self.matching.data().types().contains(Rtype::NS)
    }
}

/// Returns what the records say of the name with this wire form in lower case. Hashes the name, and
/// reads the records once.
fn look_up<'a, A: ToName, O: Octets, N: ToName, H: Nsec3Hasher>(
    alloc: Global,
    apex: &A,
    records: &'a Nsec3Records<N, O>,
    wire: &[u8],
    hasher: &H,
) -> Result<Nsec3Found<'a, O, N>, Nsec3HashError>
    ensures ok { IfOk result (λ found. IsLookedUp
        (hashed_records (A.labels apex.now) N.labels (H.answer hasher.now) records.now) wire.now
        (found_hash_match N.labels found) (found_hash_cover N.labels found)) }
    ensures err { IfErr result (IsNoHash (λ n.
        hash_with (H.answer hasher.now) records.now wire.now ≡ Err n) (H.takes_memory hasher.now)) }
{
    let param = records.nsec3param.data();
    let hash = hash_wire(alloc, hasher, param, wire)?;
    Ok(find_hash(apex, param, records.nsec3s.as_slice(), hash.as_slice()))
}

/// Returns what NSEC3 records say of the closest encloser of a name (RFC 5155, section 8.3). None
/// if they match neither the name nor an ancestor at or below the apex, or if the name is not at or
/// below the apex.
///
/// The records may be any, in any order, with repeats. A record is ignored if it differs from the
/// NSEC3PARAM record in algorithm, iterations or salt. It is also ignored if its owner is not one
/// label in Base 32 hex before the apex. Classes, TTLs and flags are not compared.
///
/// Names are hashed with the parameters of the NSEC3PARAM record, from the name towards the apex,
/// up to the first that a record matches. No name is hashed twice. A name that is not at or below
/// the apex is not hashed. For each name that is hashed, the records are read once. Allocates
/// nothing but the hasher's digests, one at a time.
///
/// # Errors
///
/// `Hasher` with the number of the first error among the hashes that are computed, and
/// `OutOfMemory` if the hasher has no memory.
pub fn find_nsec3_encloser<'a, A: ToName, O: Octets, N: ToName, M: ToName, H: Nsec3Hasher>(
    alloc: Global,
    apex: &A,
    records: &'a Nsec3Records<N, O>,
    name: &M,
    hasher: &H,
) -> Result<Option<Nsec3Encloser<'a, O, N>>, Nsec3HashError>
    ensures outside { is_at_or_below (M.labels name.now) (A.labels apex.now) ≡ false
        → result ≡ Ok None }
    ensures found { IfOk result (λ found. IsFoundEncloser
        (hashed_records (A.labels apex.now) N.labels (H.answer hasher.now) records.now)
        (M.labels name.now) (option_map (encloser_of N.labels) found)) }

    // An error is the first of the hasher, or out of memory.
    ensures refusal { (n : ℕ) → IsErrOf result (hash_error.Hasher n)
        → IsFirstRefusal
        (hashed_records (A.labels apex.now) N.labels (H.answer hasher.now) records.now)
        (M.labels name.now) n }
    ensures errors { IfErr result (λ e. (e ≡ hash_error.OutOfMemory)
        ⊎ ((n : ℕ) × (e ≡ hash_error.Hasher n))) }
    ensures memory { IsErrOf result hash_error.OutOfMemory → H.takes_memory hasher.now }
{
    let mut left = name.as_parsed();
    if !name.ends_with(apex) {
        return Ok(None);
    }
    // The wire form of each name above is a suffix of this one. For a name that no record matches,
    // the first cover is kept for the name above it, and not the hash.
    let mut buffer = [0; MAX_NAME];
    let mut octets = name.lower_wire(&mut buffer);
    let mut cover = None;
    'names: loop {
        cover = match look_up(alloc, apex, records, octets, hasher)? {
            Nsec3Found::Match(matching) => {
                return Ok(Some(Nsec3Encloser {
                    count: left.count_labels(),
                    matching,
                    cover,
                }));
            }
            Nsec3Found::NoMatch(next) => next,
        };
        if left.name_eq(apex) {
            return Ok(None);
        }
        let Some((label, above)) = left.split_first() else {
            unreachable!();
        };
        octets = &octets[label.len() + 1..];
        left = above;
    }
}

/// Returns what NSEC3 records say of one name: the first that matches its hash or, if none does,
/// the first that covers it. Ignores records and hashes the name as `find_nsec3_encloser` does, and
/// hashes no other name. Allocates nothing but the hasher's digest.
///
/// # Errors
///
/// `Hasher` with the number of the hasher's error, and `OutOfMemory` if the hasher has no memory.
pub fn find_nsec3<'a, A: ToName, O: Octets, N: ToName, M: ToName, H: Nsec3Hasher>(
    alloc: Global,
    apex: &A,
    records: &'a Nsec3Records<N, O>,
    name: &M,
    hasher: &H,
) -> Result<Nsec3Found<'a, O, N>, Nsec3HashError>
    ensures found { IfOk result (λ found. IsLookedUp
        (hashed_records (A.labels apex.now) N.labels (H.answer hasher.now) records.now)
        (wire_of (lowered (M.labels name.now)))
        (found_hash_match N.labels found) (found_hash_cover N.labels found)) }
    ensures err { IfErr result (IsNoHash (λ n.
        hash_name (hash_with (H.answer hasher.now) records.now) (M.labels name.now) ≡ Err n)
        (H.takes_memory hasher.now)) }
{
    let mut buffer = [0; MAX_NAME];
    let lowered = name.lower_wire(&mut buffer);
    Ok(look_up(alloc, apex, records, lowered, hasher)?)
}

/// Returns what the first cover of the next closer name says of a name. `count` is the number of
/// labels of its closest encloser.
fn cover_verdict<O: Octets, N: ToName>(cover: Option<&Nsec3Rr<O, N>>, count: usize) -> Verdict
    ensures { result ≡ hash_cover_verdict count
        (option_map (λ k. as_hashed_link N.labels k.now) cover.entry) }
{
    let Some(listed) = cover else {
        return Verdict::NotProven;
    };
    if listed.data().opt_out() {
        Verdict::OptOut(count)
    } else {
        Verdict::NoName(count)
    }
}

/// Returns what the records say of a name with `count` labels, given what they say of its closest
/// encloser.
pub(crate) fn found_verdict<A: ToName, O: Octets, N: ToName>(
    apex: &A,
    found: Option<Nsec3Encloser<'_, O, N>>,
    count: usize,
    rtype: Rtype,
) -> Verdict
    ensures { result ≡ found_verdict (A.labels apex.now)
        (option_map (encloser_of N.labels) found.entry) count rtype }
{
    match found {
        Some(encloser) => {
            if encloser.count != count {
                if encloser.is_zone_cut(apex) {
                    return Verdict::BelowDelegation;
                }
                return cover_verdict(encloser.cover, encloser.count);
            }
            let types = encloser.matching.data().types();
            if types.contains(rtype) {
                return Verdict::Has;
            }
            if encloser.is_zone_cut(apex) && rtype != Rtype::DS {
                return Verdict::BelowDelegation;
            }
            if types.is_empty() {
                return Verdict::EmptyName;
            }
            Verdict::NoType
        }
        None => Verdict::NotProven,
    }
}

/// Returns what records of an NSEC3 chain prove about a name and a type (RFC 5155, section 8).
///
/// The records may be any of the zone's chain, in any order, with repeats. A record is ignored if
/// it differs from the NSEC3PARAM record in algorithm, iterations or salt. It is also ignored if
/// its owner is not one label in Base 32 hex before the apex. Classes, TTLs and flags are not
/// compared.
///
/// Names are hashed with the parameters of the NSEC3PARAM record, from the name towards the apex,
/// up to the first that a record matches. No name is hashed twice. A name that is not at or below
/// the apex is not hashed. For each name that is hashed, the records are read once.
///
/// If no name is matched, the verdict is `NotProven`. If the matched name is neither the one
/// checked nor a zone cut by its record, a record must cover the next closer name, which is one
/// label longer: else the verdict is `NotProven` too. The first match and the first cover in the
/// list count, and the opt-out flag is the cover's. Allocates nothing but the hasher's digests, one
/// at a time.
///
/// As with `check_nsec`, some verdicts alone are no denial (RFC 6840, sections 4.1 and 4.3):
///
/// - `NoType` is none if the name owns a CNAME record: check CNAME too.
/// - `NoName` and `EmptyName` are none if a name above it owns a DNAME record: check DNAME at the
///   closest encloser and at each name between it and the apex.
///
/// # Errors
///
/// `Hasher` with the number of the first error among the hashes that are computed, and
/// `OutOfMemory` if the hasher has no memory.
pub fn check_nsec3<A: ToName, O: Octets, N: ToName, M: ToName, H: Nsec3Hasher>(
    alloc: Global,
    apex: &A,
    records: &Nsec3Records<N, O>,
    name: &M,
    rtype: Rtype,
    hasher: &H,
) -> Result<Verdict, Nsec3HashError>
    ensures checked { IsHashedChecked
        (hashed_records (A.labels apex.now) N.labels (H.answer hasher.now) records.now)
        (M.labels name.now) rtype result }
    ensures memory { IsErrOf result hash_error.OutOfMemory → H.takes_memory hasher.now }
{
    if !name.ends_with(apex) {
        return Ok(Verdict::OutsideZone);
    }
    walks_are_proved();
    let _number = rtype.to_int();
    let found = find_nsec3_encloser(alloc, apex, records, name, hasher)?;
    Ok(found_verdict(apex, found, name.count_labels(), rtype))
}
