//! What NSEC3 records of an index answer to questions, within limits.
ghost use Rattle.std.specs.{Option.option_map, Prelude.{◌≡◌, ◌<◌, None, Err, length, IfErr, IfOk, IsErrOf}};
ghost use Rattle.domain_names.specs.Name.{last_labels};
ghost use Rattle.domain_nsec3.specs.{Chain.{hash_name, IsNoHash}, View.hash_by};
ghost use Rattle.domain_checker.specs.{HashedIndex.{indexed_by, search_of}, HashedReading.encloser_of};
ghost use Rattle.domain_answer.specs.HashedReading.{hashed_finding_of as finding_of, AreLookedUp};
ghost use Rattle.domain_answer.specs.Judged.{answer_in, expansion_answer_in, HasWitnesses};
ghost use Rattle.domain_answer.specs.Judged.{IsExpansionJudged, IsExpansionWitness};
ghost use Rattle.domain_answer.specs.Judged.{IsHashedJudged, IsJudgedWithin};
ghost use Rattle.domain_answer.specs.ZoneAnswer.{wildcard_below};
ghost use Rattle.domain_hasher.specs.declared.error.Nsec3HashError.TheVariants as hash_error;

use crate::expansion::{closer_answer, is_expanded};
use crate::nsec::is_at_parent;
use crate::nsec3::{found_answer, wildcard_told};
use crate::of_types::is_meta_type;
use crate::wildcard::wildcard_below;
use crate::{Answer, Nsec3Limits};
use domain_base::{MAX_NAME, Rtype, ToName};
use domain_checker::laws::hashed_chains_are_known;
use domain_checker::{Nsec3Encloser, Nsec3Found, Nsec3Index, Nsec3Search};
use domain_hasher::{Nsec3HashError, Nsec3Hasher};
use domain_octets::Octets;
use std::alloc::Global;

/// An answer of NSEC3 records, with what was found for the names that were looked up.
#[derive(Drop)]
pub struct Nsec3Judgement<'a, O: Octets, N: ToName> {
    /// The answer.
    pub answer: Answer,
    /// What was found for the closest encloser of the name and the next closer name. None if no
    /// record matches the name or one above it, or if no name was looked up.
    pub encloser: Option<Nsec3Encloser<'a, O, N>>,
    /// What was found for the wildcard below the closest encloser, if it was looked up: a record
    /// without the opt-out flag covers the next closer name.
    pub wildcard: Option<Nsec3Found<'a, O, N>>,
}

/// Returns an answer for which no name was looked up.
fn without_records<'a, O: Octets, N: ToName>(answer: Answer) -> Nsec3Judgement<'a, O, N>
    ensures { result ≡ record { answer = answer; encloser = None; wildcard = None } }
{
    Nsec3Judgement {
        answer,
        encloser: None,
        wildcard: None,
    }
}

/// Returns what was found for the closest encloser of a name, or None if more names would have to
/// be hashed.
fn encloser_in<'a, O: Octets, N: ToName>(
    found: Nsec3Search<'a, O, N>,
) -> Option<Option<Nsec3Encloser<'a, O, N>>>
    ensures { option_map (option_map (encloser_of N.labels)) result
        ≡ search_of N.labels found.entry }
{
    match found {
        Nsec3Search::Found(encloser) => Some(Some(encloser)),
        Nsec3Search::Unmatched => Some(None),
        Nsec3Search::TooManyNames => None,
    }
}

/// Returns what the records say of the wildcard below the closest encloser of a name, which has
/// `count` labels. Hashes the wildcard, and no other name.
fn find_wildcard<'a, O: Octets, N: ToName, M: ToName, H: Nsec3Hasher>(
    alloc: Global,
    index: &Nsec3Index<'a, O, N>,
    name: &M,
    count: usize,
    hasher: &H,
) -> Result<Nsec3Found<'a, O, N>, Nsec3HashError>
    requires { count < length (M.labels name.now) }
    ensures ok { IfOk result (λ found. AreLookedUp (indexed_by (H.answer hasher.now) index.now)
        (wildcard_below (last_labels count (M.labels name.now))) (finding_of N.labels found)) }
    ensures err { IfErr result (IsNoHash (λ n.
        hash_name (hash_by (H.answer hasher.now) index.now.parameters)
        (wildcard_below (last_labels count (M.labels name.now))) ≡ Err n)
        (H.takes_memory hasher.now)) }
{
    let mut buffer = [0; MAX_NAME];
    let wildcard = wildcard_below(&mut buffer, name, count);
    Ok(index.find_name(alloc, &wildcard, hasher)?)
}

/// Returns what NSEC3 records of an index answer to a question about a name and a type, as
/// `judge_nsec3` does, and the records that the answer rests on, if that takes no more work than
/// the limits allow.
///
/// Returns None if more names than the limit would have to be hashed to reach the closest encloser
/// (CVE-2023-50868): no record matches any of the names that may be hashed, from the name up, and
/// the apex is not among them. A resolver must answer SERVFAIL then, as for `NotProven`, and must
/// never treat the name as insecure: the client chooses how many labels a name has.
///
/// Each name is hashed at most once, and the wildcard in addition. Its hash is found by a search
/// or, if records overlap, by comparing it with each of them. Allocates nothing but the hasher's
/// digests, one at a time.
///
/// # Errors
///
/// `Hasher` with the number of the first error among the hashes that are computed, and
/// `OutOfMemory` if the hasher has no memory.
pub fn judge_nsec3_with_witnesses<'a, O: Octets, N: ToName, M: ToName, H: Nsec3Hasher>(
    alloc: Global,
    index: &Nsec3Index<'a, O, N>,
    name: &M,
    rtype: Rtype,
    limits: &Nsec3Limits,
    hasher: &H,
) -> Result<Option<Nsec3Judgement<'a, O, N>>, Nsec3HashError>
    ensures judged { IsJudgedWithin (indexed_by (H.answer hasher.now) index.now)
        (M.labels name.now) rtype limits.now (answer_in result) }
    ensures witnesses { HasWitnesses N.labels (indexed_by (H.answer hasher.now) index.now)
        (M.labels name.now) rtype limits.now.iterations result }
    ensures memory { IsErrOf result hash_error.OutOfMemory → H.takes_memory hasher.now }
{
    let apex = index.apex();
    if !name.ends_with(apex) {
        return Ok(Some(without_records(Answer::OutsideZone)));
    }
    if is_at_parent(apex, name, rtype) {
        return Ok(Some(without_records(Answer::AtParent)));
    }
    if is_meta_type(rtype) {
        return Ok(Some(without_records(Answer::NotProven)));
    }
    if index.iterations() > limits.iterations {
        return Ok(Some(without_records(Answer::TooManyIterations)));
    }
    // By this law what the records say is what they prove, for a type of 16 bits.
    hashed_chains_are_known();
    let _number = rtype.to_int();
    let found = index.find_encloser_within(alloc, name, limits.names, hasher)?;
    let Some(encloser) = encloser_in(found) else {
        return Ok(None);
    };
    let first = found_answer(apex, &encloser, name.count_labels(), rtype);
    let Answer::NoCloserName(count) = first else {
        return Ok(Some(Nsec3Judgement {
            answer: first,
            encloser,
            wildcard: None,
        }));
    };
    let found = find_wildcard(alloc, index, name, count, hasher)?;
    Ok(Some(Nsec3Judgement {
        answer: wildcard_told(count, rtype, &found),
        encloser,
        wildcard: Some(found),
    }))
}

/// Returns what NSEC3 records of an index answer to a question about a name and a type, as
/// `judge_nsec3` does, if that takes no more work than the limits allow. Returns None as
/// `judge_nsec3_with_witnesses` does. Allocates nothing but the hasher's digests, one at a time.
///
/// # Errors
///
/// `Hasher` with the number of the first error among the hashes that are computed, and
/// `OutOfMemory` if the hasher has no memory.
pub fn judge_nsec3_within<O: Octets, N: ToName, M: ToName, H: Nsec3Hasher>(
    alloc: Global,
    index: &Nsec3Index<'_, O, N>,
    name: &M,
    rtype: Rtype,
    limits: &Nsec3Limits,
    hasher: &H,
) -> Result<Option<Answer>, Nsec3HashError>
    ensures judged { IsJudgedWithin (indexed_by (H.answer hasher.now) index.now)
        (M.labels name.now) rtype limits.now result }
    ensures memory { IsErrOf result hash_error.OutOfMemory → H.takes_memory hasher.now }
{
    match judge_nsec3_with_witnesses(alloc, index, name, rtype, limits, hasher) {
        Ok(Some(judged)) => Ok(Some(judged.answer)),
        Ok(None) => Ok(None),
        Err(e) => Err(e),
    }
}

/// Returns what NSEC3 records of an index answer to a question about a name and a type, as
/// `judge_nsec3` does. Hashes at most 128 names, and the wildcard. Allocates nothing but the
/// hasher's digests, one at a time.
///
/// # Errors
///
/// `Hasher` with the number of the first error among the hashes that are computed, and
/// `OutOfMemory` if the hasher has no memory.
pub fn judge_nsec3_index<O: Octets, N: ToName, M: ToName, H: Nsec3Hasher>(
    alloc: Global,
    index: &Nsec3Index<'_, O, N>,
    name: &M,
    rtype: Rtype,
    limit: u16,
    hasher: &H,
) -> Result<Answer, Nsec3HashError>
    ensures judged { IsHashedJudged (indexed_by (H.answer hasher.now) index.now)
        (M.labels name.now) rtype limit result }
    ensures memory { IsErrOf result hash_error.OutOfMemory → H.takes_memory hasher.now }
{
    // A name has at most 127 labels.
    let _count = name.count_labels();
    let limits = Nsec3Limits {
        iterations: limit,
        names: MAX_NAME,
    };
    match judge_nsec3_within(alloc, index, name, rtype, &limits, hasher) {
        Ok(Some(answer)) => Ok(answer),
        Ok(None) => unreachable!(),
        Err(e) => Err(e),
    }
}

/// An answer of NSEC3 records about a name whose records were expanded from a wildcard, with what
/// was found for the next closer name.
#[derive(Drop)]
pub struct Nsec3Expansion<'a, O: Octets, N: ToName> {
    /// The answer.
    pub answer: Answer,
    /// What was found for the next closer name, if it was looked up.
    pub of_next_closer: Option<Nsec3Found<'a, O, N>>,
}

/// Returns an answer for which the next closer name was not looked up.
fn without_witness<'a, O: Octets, N: ToName>(answer: Answer) -> Nsec3Expansion<'a, O, N>
    ensures { result ≡ record { answer = answer; of_next_closer = None } }
{
    Nsec3Expansion {
        answer,
        of_next_closer: None,
    }
}

/// Returns what NSEC3 records of an index prove about a name whose records were expanded from a
/// wildcard, as `judge_nsec3_expansion` does, and what was found for the next closer name. Hashes
/// at most that name.
///
/// # Errors
///
/// `Hasher` with the number of the hasher's error, and `OutOfMemory` if the hasher has no memory.
pub fn judge_nsec3_expansion_with_witness<'a, O: Octets, N: ToName, M: ToName, H: Nsec3Hasher>(
    alloc: Global,
    index: &Nsec3Index<'a, O, N>,
    name: &M,
    labels: usize,
    limit: u16,
    hasher: &H,
) -> Result<Nsec3Expansion<'a, O, N>, Nsec3HashError>
    ensures judged { IsExpansionJudged (indexed_by (H.answer hasher.now) index.now)
        (M.labels name.now) labels limit (expansion_answer_in result) }
    ensures witness { IfOk result (λ made. IsExpansionWitness
        (indexed_by (H.answer hasher.now) index.now) (M.labels name.now) labels limit
        (option_map (finding_of N.labels) made.of_next_closer)) }
    ensures memory { IsErrOf result hash_error.OutOfMemory → H.takes_memory hasher.now }
{
    let apex = index.apex();
    if !name.ends_with(apex) {
        return Ok(without_witness(Answer::OutsideZone));
    }
    if !is_expanded(apex, name, labels) {
        return Ok(without_witness(Answer::NotProven));
    }
    if index.iterations() > limit {
        return Ok(without_witness(Answer::TooManyIterations));
    }
    // By this law what the records say is what they prove.
    hashed_chains_are_known();
    // The count of labels is a usize, and a smaller number plus one is too.
    let _count = name.count_labels();
    let closer = name.last_labels(labels + 1);
    let found = index.find_name(alloc, &closer, hasher)?;
    Ok(Nsec3Expansion {
        answer: closer_answer(labels, &found),
        of_next_closer: Some(found),
    })
}

/// Returns what NSEC3 records of an index prove about a name whose records were expanded from a
/// wildcard, as `judge_nsec3_expansion` does. Hashes at most one name.
///
/// # Errors
///
/// `Hasher` with the number of the hasher's error, and `OutOfMemory` if the hasher has no memory.
pub fn judge_nsec3_index_expansion<O: Octets, N: ToName, M: ToName, H: Nsec3Hasher>(
    alloc: Global,
    index: &Nsec3Index<'_, O, N>,
    name: &M,
    labels: usize,
    limit: u16,
    hasher: &H,
) -> Result<Answer, Nsec3HashError>
    ensures judged { IsExpansionJudged (indexed_by (H.answer hasher.now) index.now)
        (M.labels name.now) labels limit result }
    ensures memory { IsErrOf result hash_error.OutOfMemory → H.takes_memory hasher.now }
{
    match judge_nsec3_expansion_with_witness(alloc, index, name, labels, limit, hasher) {
        Ok(made) => Ok(made.answer),
        Err(e) => Err(e),
    }
}
