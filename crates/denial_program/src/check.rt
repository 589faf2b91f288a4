//! What a chain that was read proves about a name and a type.
ghost use Rattle.std.specs.Prelude.{◌≡◌, ◌⊎◌, [], ◌∷◌, IfErr, IfOk};
ghost use Rattle.domain_nsec3.specs.View.{as_param_record, hashed_links_of};
ghost use Rattle.denial_program.specs.Check.{AreNsec3s, AreParams, HasNoNsec3Verdict, HasNoParam, IsNsec3Verdict, IsNsecVerdict};
ghost use Rattle.denial_program.specs.declared.fault.DenialFault.TheVariants.{OutOfMemory as Memory};

use crate::among::records_among;
use crate::answer::Reply;
use crate::command::Question;
use crate::fault::DenialFault;
use crate::line::ZoneName;
use domain_base::ParsedName;
use domain_borrowed::{BorrowedRecord, ReadAs, ReadNsec, ReadNsec3param};
use domain_checker::{check_nsec, check_nsec3};
use domain_hasher::Nsec3Hasher;
use domain_nsec3::Nsec3Records;
use domain_octets::OutOfMemory;
use std::alloc::Global;

/// Returns what the NSEC records among these prove.
#[tactic(auto, using(std::proofs::lemmas::Grind::common_steps))]
pub fn nsec_reply<'s, 'a>(
    alloc: Global,
    question: Question,
    records: Vec<BorrowedRecord<'a>>,
) -> Result<Reply<'s, 'a>, OutOfMemory>
    ensures { IfOk result (IsNsecVerdict records.entry.items question) }
{
    let Question { apex, name, rtype } = question;
    let nsecs: Vec<ReadNsec<'a>> = records_among(alloc, &apex, &records)?;
    let verdict = check_nsec(&apex, &nsecs, &name, rtype);
    Ok(Reply::Verdict(name, verdict))
}

/// Returns the NSEC3 records among these, with the one NSEC3PARAM record of the apex.
///
/// # Errors
///
/// `Param` if the apex has no such record, or several, and `OutOfMemory` if there is no memory.
pub fn chain_of<'a>(
    alloc: Global,
    apex: &ZoneName,
    records: Vec<BorrowedRecord<'a>>,
) -> Result<Nsec3Records<ParsedName<'a>, &'a [u8]>, DenialFault>
    ensures param { IfOk result (λ chain. AreParams apex.now records.entry.items
        (as_param_record (λ n. n) chain.nsec3param ∷ [])) }
    ensures nsec3s { IfOk result (λ chain.
        AreNsec3s records.entry.items (hashed_links_of (λ n. n) chain.nsec3s.items)) }
    ensures err { IfErr result (λ e. ((e ≡ DenialFault.Param)
        × HasNoParam apex.now records.entry.items) ⊎ (e ≡ Memory)) }
{
    let mut params: Vec<ReadNsec3param<'a>> = records_among(alloc, apex, &records)?;
    let Some(param) = params.pop() else {
        return Err(DenialFault::Param);
    };
    if !params.is_empty() {
        return Err(DenialFault::Param);
    }
    Ok(Nsec3Records::new(records_among(alloc, apex, &records)?, param))
}

/// Returns what the NSEC3 records among these prove.
#[tactic(auto, using(std::proofs::lemmas::Grind::common_steps))]
pub fn nsec3_reply<'s, 'a, H: Nsec3Hasher>(
    alloc: Global,
    question: Question,
    records: Vec<BorrowedRecord<'a>>,
    hasher: &H,
) -> Result<Reply<'s, 'a>, DenialFault>
    ensures ok { IfOk result (IsNsec3Verdict (H.answer hasher.now) records.entry.items question) }
    ensures err { IfErr result
        (HasNoNsec3Verdict (H.answer hasher.now) records.entry.items question) }
{
    let Question { apex, name, rtype } = question;
    let chain = chain_of(alloc, &apex, records)?;
    let verdict = check_nsec3(alloc, &apex, &chain, &name, rtype, hasher)?;
    Ok(Reply::Verdict(name, verdict))
}
