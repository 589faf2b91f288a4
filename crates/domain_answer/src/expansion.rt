//! What NSEC3 records prove about a name whose records were expanded from a wildcard.
ghost use Rattle.std.specs.Prelude.{◌≡◌, IsErrOf};
ghost use Rattle.domain_hasher.specs.declared.error.Nsec3HashError.TheVariants as hash_error;
ghost use Rattle.domain_checker.specs.{HashedReading.{found_hash_cover, found_hash_match}, HashedVerdict.hashed_records};
ghost use Rattle.domain_answer.specs.{HashedReading.{closer_answer, is_expanded}, Judged.IsExpansionJudged};

use crate::Answer;
use crate::nsec3::{next_answer, opt_out_of};
use domain_base::ToName;
use domain_checker::laws::hashed_chains_are_known;
use domain_checker::{Nsec3Found, find_nsec3};
use domain_hasher::{Nsec3HashError, Nsec3Hasher};
use domain_nsec3::Nsec3Records;
use domain_octets::Octets;
use std::alloc::Global;

/// Returns whether the name is at or below the apex, has more than `labels` labels, and the apex
/// has no more than `labels`.
pub(crate) fn is_expanded<A: ToName, M: ToName>(apex: &A, name: &M, labels: usize) -> bool
    ensures { result ≡ is_expanded (A.labels apex.now) (M.labels name.now) labels }
{
    name.ends_with(apex) && apex.count_labels() <= labels && labels < name.count_labels()
}

/// Returns what the record that was found for the next closer name says of a name that was expanded
/// from the wildcard right below its last `labels` labels.
pub(crate) fn closer_answer<O: Octets, N: ToName>(
    labels: usize,
    found: &Nsec3Found<'_, O, N>,
) -> Answer
    ensures { result ≡ closer_answer labels (found_hash_match N.labels found.now)
        (found_hash_cover N.labels found.now) }
{
    match found {
        Nsec3Found::Match(_) => Answer::NotProven,
        Nsec3Found::NoMatch(cover) => next_answer(labels, opt_out_of(*cover)),
    }
}

/// Returns what NSEC3 records prove about a name whose records were expanded from a wildcard (RFC
/// 5155, section 8.8; RFC 4035, section 5.3.4). Pass the Labels field of their signatures as
/// `labels`: the number of labels of the closest encloser, right below which the wildcard is. The
/// answer comes with no record of the closest encloser, but with one that covers the next closer
/// name, which is one label longer.
///
/// The records may be any; `judge_nsec3` says which are ignored. The first that matches or covers
/// the next closer name counts:
///
/// - `NoCloserName` with these labels, if a record covers it and none matches: the next closer name
///   does not exist. So the name does not exist either, and the wildcard is the one right below its
///   closest encloser.
/// - `MayBeUnsigned`, if that record has the opt-out flag: the next closer name may be an unsigned
///   delegation.
/// - `NotProven`, if no record covers it, or one matches it. Also if `labels` is less than the apex
///   has, or not less than the name has.
/// - `TooManyIterations`, if the NSEC3PARAM record has more iterations than the limit (RFC 9276,
///   section 3.2).
/// - `OutsideZone`, for a name outside the zone.
///
/// Hashes only the next closer name, and reads the records once. The last two answers, and
/// `NotProven` because of `labels`, need no hash. Allocates nothing but the hasher's digest.
/// Signatures are not verified, neither of these records nor of the wildcard's.
///
/// # Errors
///
/// `Hasher` with the number of the hasher's error, and `OutOfMemory` if the hasher has no memory.
pub fn judge_nsec3_expansion<A: ToName, O: Octets, N: ToName, M: ToName, H: Nsec3Hasher>(
    alloc: Global,
    apex: &A,
    records: &Nsec3Records<N, O>,
    name: &M,
    labels: usize,
    limit: u16,
    hasher: &H,
) -> Result<Answer, Nsec3HashError>
    ensures judged { IsExpansionJudged
        (hashed_records (A.labels apex.now) N.labels (H.answer hasher.now) records.now)
        (M.labels name.now) labels limit result }
    ensures memory { IsErrOf result hash_error.OutOfMemory → H.takes_memory hasher.now }
{
    if !name.ends_with(apex) {
        return Ok(Answer::OutsideZone);
    }
    if !is_expanded(apex, name, labels) {
        return Ok(Answer::NotProven);
    }
    if records.nsec3param.data().iterations() > limit {
        return Ok(Answer::TooManyIterations);
    }
    // By this law what the records say is what they prove.
    hashed_chains_are_known();
    // The count of labels is a usize, and a smaller number plus one is too.
    let _count = name.count_labels();
    let closer = name.last_labels(labels + 1);
    Ok(closer_answer(labels, &find_nsec3(alloc, apex, records, &closer, hasher)?))
}
