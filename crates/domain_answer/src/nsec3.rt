//! What records of an NSEC3 chain answer.
ghost use Rattle.std.specs.{Option.option_map, Prelude.{◌≡◌, ◌<◌, Err, length, IfErr, IfOk, IsErrOf}};
ghost use Rattle.domain_names.specs.Name.{last_labels};
ghost use Rattle.domain_nsec3.specs.{Chain.{hash_name, IsNoHash}, View.as_hashed_link};
ghost use Rattle.domain_checker.specs.HashedReading.{encloser_of, found_hash_cover, found_hash_match};
ghost use Rattle.domain_checker.specs.HashedVerdict.{hash_with, hashed_records};
ghost use Rattle.domain_answer.specs.{HashedReading.{answer_by, flag_of, found_answer, next_by, wildcard_told, IsWildcardRead}, Judged.IsHashedJudged};
ghost use Rattle.domain_answer.specs.ZoneAnswer.{wildcard_below};
ghost use Rattle.domain_hasher.specs.declared.error.Nsec3HashError.TheVariants as hash_error;

use crate::Answer;
use crate::nsec::is_at_parent;
use crate::of_types::{is_meta_type, types_answer, wildcard_types_answer};
use crate::wildcard::wildcard_below;
use domain_base::{MAX_NAME, Rtype, ToName};
use domain_bitmap::RtypeBitmap;
use domain_checker::laws::hashed_chains_are_known;
use domain_checker::{Nsec3Encloser, Nsec3Found, Nsec3Rr, find_nsec3, find_nsec3_encloser};
use domain_hasher::{Nsec3HashError, Nsec3Hasher};
use domain_nsec3::Nsec3Records;
use domain_octets::Octets;
use std::alloc::Global;

/// Returns what the first cover of the next closer name says, if the closest encloser has `count`
/// labels. `cover` says whether the cover has the opt-out flag, or is None without a cover.
pub(crate) fn next_answer(count: usize, cover: Option<bool>) -> Answer
    ensures { result ≡ next_by count cover }
{
    match cover {
        Some(true) => Answer::MayBeUnsigned(count),
        Some(false) => Answer::NoCloserName(count),
        None => Answer::NotProven,
    }
}

/// Returns what the record of the closest encloser, which has `count` labels, and the cover of the
/// next closer name say of a name with `labels` labels. No wildcard is looked up for a name that
/// does not exist. `types` are the types of the encloser's record, and `at_cut` says whether its
/// name is a zone cut.
pub fn encloser_answer<O: Octets>(
    types: &RtypeBitmap<O>,
    at_cut: bool,
    count: usize,
    cover: Option<bool>,
    labels: usize,
    rtype: Rtype,
) -> Answer
    ensures { result ≡ answer_by at_cut types.now count cover labels rtype }
{
    if count == labels {
        return types_answer(types, at_cut, count, rtype);
    }
    if at_cut {
        return Answer::Referral(count);
    }
    if types.contains(Rtype::DNAME) {
        return Answer::Redirected(count);
    }
    next_answer(count, cover)
}

/// Returns whether a record that covers a name has the opt-out flag, or None without a record.
pub(crate) fn opt_out_of<O: Octets, N: ToName>(cover: Option<&Nsec3Rr<O, N>>) -> Option<bool>
    ensures { result ≡ flag_of (option_map (λ k. as_hashed_link N.labels k.now) cover.entry) }
{
    Some(cover?.data().opt_out())
}

/// Returns what the records say of a name with `labels` labels, given what they say of its closest
/// encloser.
pub(crate) fn found_answer<A: ToName, O: Octets, N: ToName>(
    apex: &A,
    found: &Option<Nsec3Encloser<'_, O, N>>,
    labels: usize,
    rtype: Rtype,
) -> Answer
    ensures { result ≡ found_answer (A.labels apex.now)
        (option_map (encloser_of N.labels) found.now) labels rtype }
{
    let Some(encloser) = found else {
        return Answer::NotProven;
    };
    let types = encloser.matching.data().types();
    let at_cut = encloser.is_zone_cut(apex);
    let cover = opt_out_of(encloser.cover);
    encloser_answer(types, at_cut, encloser.count, cover, labels, rtype)
}

/// Returns what the records say of a name that does not exist, given what they say of the wildcard
/// below its closest encloser, which has `count` labels.
pub(crate) fn wildcard_told<O: Octets, N: ToName>(
    count: usize,
    rtype: Rtype,
    found: &Nsec3Found<'_, O, N>,
) -> Answer
    ensures { result ≡ wildcard_told count rtype (found_hash_match N.labels found.now)
        (found_hash_cover N.labels found.now) }
{
    match found {
        Nsec3Found::Match(listed) => {
            let types = listed.data().types();
            wildcard_types_answer(types, types.contains(Rtype::NS), count, rtype)
        }
        Nsec3Found::NoMatch(Some(cover)) => {
            if cover.data().opt_out() {
                return Answer::MayBeUnsigned(count);
            }
            Answer::NameError(count)
        }
        Nsec3Found::NoMatch(None) => Answer::NoCloserName(count),
    }
}

/// Returns what the records say of a name that does not exist, whose closest encloser has `count`
/// labels. Hashes the wildcard below the closest encloser, and no other name.
fn read_wildcard<A: ToName, O: Octets, N: ToName, M: ToName, H: Nsec3Hasher>(
    alloc: Global,
    apex: &A,
    records: &Nsec3Records<N, O>,
    name: &M,
    rtype: Rtype,
    count: usize,
    hasher: &H,
) -> Result<Answer, Nsec3HashError>
    requires { count < length (M.labels name.now) }
    ensures ok { IfOk result (IsWildcardRead
        (hashed_records (A.labels apex.now) N.labels (H.answer hasher.now) records.now)
        (M.labels name.now) rtype count) }
    ensures err { IfErr result (IsNoHash (λ n.
        hash_name (hash_with (H.answer hasher.now) records.now)
        (wildcard_below (last_labels count (M.labels name.now))) ≡ Err n)
        (H.takes_memory hasher.now)) }
{
    let mut buffer = [0; MAX_NAME];
    let wildcard = wildcard_below(&mut buffer, name, count);
    let found = find_nsec3(alloc, apex, records, &wildcard, hasher)?;
    Ok(wildcard_told(count, rtype, &found))
}

/// Returns what records of an NSEC3 chain answer to a question about a name and a type (RFC 5155,
/// section 8; RFC 6840, sections 4.1, 4.3 and 4.4).
///
/// The records may be any of the zone's chain, in any order, with repeats. A record is ignored if
/// it differs from the NSEC3PARAM record in algorithm, iterations or salt. It is also ignored if
/// its owner is not one label in Base 32 hex before the apex. Classes, TTLs and flags are not
/// compared.
///
/// If the NSEC3PARAM record has more iterations than the limit, nothing is hashed, and the answer
/// is `TooManyIterations` (RFC 9276, section 3.2). Otherwise names are hashed from the name towards
/// the apex, up to the first that a record matches, which is the closest encloser. If a record
/// without the opt-out flag covers the name one label longer, the wildcard below the closest
/// encloser is hashed too; without a record of it the answer is `NoCloserName`. The first record
/// that matches or covers a name counts.
///
/// If nothing is matched, or a cover is needed and missing, the answer is `NotProven`. It is
/// `NotProven` too if the record of the name is at a zone cut and lists SOA, as that of a child's
/// apex does (RFC 5155, section 8.9), and for a type that no record of a zone has (`is_meta_type`).
/// For such a type nothing is hashed. No name is hashed twice, except the wildcard if it is the
/// next closer name itself. For each hash the records are read once. Allocates nothing but the
/// hasher's digests, one at a time.
///
/// The chain must leave out the names below an owner of a DNAME record, or the zone must have none:
/// such names are no names of the zone (RFC 6672, section 2.4). Signatures are not verified. An
/// answer that was expanded from a wildcard comes with no record of the closest encloser: use
/// `judge_nsec3_expansion` for that.
///
/// # Errors
///
/// `Hasher` with the number of the first error among the hashes that are computed, and
/// `OutOfMemory` if the hasher has no memory.
pub fn judge_nsec3<A: ToName, O: Octets, N: ToName, M: ToName, H: Nsec3Hasher>(
    alloc: Global,
    apex: &A,
    records: &Nsec3Records<N, O>,
    name: &M,
    rtype: Rtype,
    limit: u16,
    hasher: &H,
) -> Result<Answer, Nsec3HashError>
    ensures judged { IsHashedJudged
        (hashed_records (A.labels apex.now) N.labels (H.answer hasher.now) records.now)
        (M.labels name.now) rtype limit result }
    ensures memory { IsErrOf result hash_error.OutOfMemory → H.takes_memory hasher.now }
{
    if !name.ends_with(apex) {
        return Ok(Answer::OutsideZone);
    }
    if is_at_parent(apex, name, rtype) {
        return Ok(Answer::AtParent);
    }
    if is_meta_type(rtype) {
        return Ok(Answer::NotProven);
    }
    if records.nsec3param.data().iterations() > limit {
        return Ok(Answer::TooManyIterations);
    }
    // By this law what the records say is what they prove, for a type of 16 bits.
    hashed_chains_are_known();
    let _number = rtype.to_int();
    let found = find_nsec3_encloser(alloc, apex, records, name, hasher)?;
    match found_answer(apex, &found, name.count_labels(), rtype) {
        Answer::NoCloserName(count) => {
            Ok(read_wildcard(alloc, apex, records, name, rtype, count, hasher)?)
        }
        answer => Ok(answer),
    }
}
