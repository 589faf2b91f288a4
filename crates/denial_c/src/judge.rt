//! What the NSEC or NSEC3 records in octets answer to a question as a whole.
ghost use Rattle.denial_c.specs.Result.{source_of, IsExpansionAnswer, IsNsecAnswer, IsNsec3Answer};

use crate::among::records_among;
use crate::fault::{Fault, told_or_fault};
use crate::nsec::read_name;
use crate::nsec3::Telling;
use crate::question::{Question, read_question};
use domain_answer::{Answer, judge_nsec, judge_nsec3_expansion, judge_nsec3_index};
use domain_base::{Class, Rtype};
use domain_borrowed::ReadNsec;
use domain_checker::Nsec3Index;
use domain_sha1::Sha1Hasher;
use std::alloc::Global;

/// Returns what the NSEC records of the class in `records` answer for the name and the type.
#[tactic(auto, using(std::proofs::lemmas::Grind::common_steps, crate::proofs::AmongLemmas::nsecs_fault, std::proofs::lemmas::Result::err_from_is_err_and))]
pub(crate) fn nsec_answer(
    alloc: Global,
    apex: &[u8],
    name: &[u8],
    rtype: u16,
    class: u16,
    records: &[u8],
) -> Result<Answer, Fault>
    ensures { IsNsecAnswer apex.now name.now rtype class records.now result }
{
    let apex = read_name(apex, Fault::Apex)?;
    let name = read_name(name, Fault::Name)?;
    let nsecs: Vec<ReadNsec<'_>> = records_among(alloc, &apex, Class::from_int(class), records)?;
    Ok(judge_nsec(&apex, &nsecs, &name, Rtype::from_int(rtype)))
}

/// Returns what the NSEC3 records of the class in `records` answer for the name and the type, with
/// at most `limit` iterations.
#[tactic(auto, using(std::proofs::lemmas::Grind::common_steps, crate::proofs::AmongLemmas::answer_returned, crate::proofs::AmongLemmas::answer_refused))]
pub(crate) fn nsec3_answer(
    alloc: Global,
    telling: Telling,
    apex: &[u8],
    name: &[u8],
    rtype: u16,
    class: u16,
    limit: u16,
    records: &[u8],
) -> Result<Answer, Fault>
    ensures { IsNsec3Answer (source_of telling class records.now) apex.now name.now rtype limit
        result }
{
    let Question { apex, name, chain } = read_question(alloc, telling, apex, name, class, records)?;
    let rtype = Rtype::from_int(rtype);
    let index = Nsec3Index::new(alloc, &apex, &chain)?;
    told_or_fault(judge_nsec3_index(alloc, &index, &name, rtype, limit, &Sha1Hasher))
}

/// Returns what the NSEC3 records of the class in `records` answer for a name whose records were
/// expanded from a wildcard, with at most `limit` iterations. `rrsig_labels` is the Labels field of
/// their signatures.
#[tactic(auto, using(std::proofs::lemmas::Grind::common_steps, crate::proofs::AmongLemmas::expansion_returned, crate::proofs::AmongLemmas::expansion_refused))]
pub(crate) fn expansion_answer(
    alloc: Global,
    telling: Telling,
    apex: &[u8],
    name: &[u8],
    rrsig_labels: u8,
    class: u16,
    limit: u16,
    records: &[u8],
) -> Result<Answer, Fault>
    ensures { IsExpansionAnswer (source_of telling class records.now) apex.now name.now rrsig_labels
        limit result }
{
    let Question { apex, name, chain } = read_question(alloc, telling, apex, name, class, records)?;
    let labels = usize::from(rrsig_labels);
    told_or_fault(judge_nsec3_expansion(alloc, &apex, &chain, &name, labels, limit, &Sha1Hasher))
}
