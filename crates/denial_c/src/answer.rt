//! Verdicts, whole answers, chains and faults as C gets them.
ghost use Rattle.std.specs.Prelude.{◌≡◌};
ghost use Rattle.denial_c.specs.Numbers.{answer_told, chain_told, told_by, verdict_told};

use crate::fault::{Fault, fault_number, fault_told};
use domain_answer::Answer;
use domain_checker::Verdict;

/// Returns the number of a verdict or a fault, and the number of labels of the closest encloser, or
/// 0 if there is none.
pub(crate) fn verdict_told(verdict: Result<Verdict, Fault>) -> (u32, usize)
    ensures { result ≡ told_by verdict_told verdict }
{
    match verdict {
        Ok(Verdict::NotProven) => (0, 0),
        Ok(Verdict::OutsideZone) => (1, 0),
        Ok(Verdict::BelowDelegation) => (2, 0),
        Ok(Verdict::Has) => (3, 0),
        Ok(Verdict::NoType) => (4, 0),
        Ok(Verdict::EmptyName) => (5, 0),
        Ok(Verdict::OptOut(count)) => (6, count),
        Ok(Verdict::NoName(count)) => (7, count),
        Err(fault) => (fault_number(fault), 0),
    }
}

/// Returns the number of a whole answer or a fault, and a number of labels, or 0 if there is none.
/// The labels are those of the zone cut, the owner of the DNAME record or the closest encloser.
pub(crate) fn answer_told(answer: Result<Answer, Fault>) -> (u32, usize)
    ensures { result ≡ told_by answer_told answer }
{
    match answer {
        Ok(Answer::NotProven) => (32, 0),
        Ok(Answer::OutsideZone) => (33, 0),
        Ok(Answer::AtParent) => (34, 0),
        Ok(Answer::Referral(count)) => (35, count),
        Ok(Answer::Redirected(count)) => (36, count),
        Ok(Answer::Has) => (37, 0),
        Ok(Answer::NoDs) => (38, 0),
        Ok(Answer::Alias) => (39, 0),
        Ok(Answer::NoData) => (40, 0),
        Ok(Answer::Wildcard(count)) => (41, count),
        Ok(Answer::WildcardAlias(count)) => (42, count),
        Ok(Answer::WildcardNoData(count)) => (43, count),
        Ok(Answer::NameError(count)) => (44, count),
        Ok(Answer::MayBeUnsigned(count)) => (45, count),
        Ok(Answer::NoCloserName(count)) => (46, count),
        Ok(Answer::TooManyIterations) => (47, 0),
        Ok(Answer::NxName) => (50, 0),
        Err(fault) => (fault_number(fault), 0),
    }
}

/// Returns the number of a chain or a fault, and the number of octets of the chain or what the
/// fault counts.
pub(crate) fn chain_told(chain: Result<usize, Fault>) -> (u32, usize)
    ensures { result ≡ chain_told chain }
{
    match chain {
        Ok(octets) => (48, octets),
        Err(fault) => fault_told(fault),
    }
}

/// Writes the count, and returns the number.
pub(crate) fn tell(told: (u32, usize), count: &mut usize) -> u32
    ensures { (result, count.new) ≡ told }
{
    *count = told.1;
    told.0
}
