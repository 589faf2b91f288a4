//! The faults of records as a zone, for which `denial nsec` rejects them.
ghost use Rattle.std.specs.Prelude.{◌≡◌, false, true, List, IfErr, IfOk};
ghost use Rattle.domain_borrowed.specs.Data.{zone_of_raw, RawRecord};
ghost use Rattle.domain_records.specs.Order.{IsInOrder, IsOneClass};
ghost use Rattle.domain_zone.specs.Zone.{covered_names, has_unequal_ttls};
ghost use Rattle.denial_program.specs.Answer.{SortsRaw};
ghost use Rattle.denial_program.specs.declared.fault.DenialFault.TheVariants.{OutOfMemory as Memory};
ghost use Rattle.lint_program.specs.Faults.{are_any, fails, AreFaultsOf};

use crate::looks::Reason;
use denial_program::DenialFault;
use domain_base::ParsedName;
use domain_borrowed::BorrowedRecord;
use domain_nsec::GenerateNsecConfig;
use domain_records::{RecordsIter, SigningError};
use domain_zone::{find_soa, list_owners};
use std::alloc::Global;

/// The faults of records as a zone. Records of several classes are no zone, so which other faults
/// they have is open, and all are set.
#[derive(Clone, Copy)]
pub struct ZoneFaults {
    /// The records are of several classes.
    pub classes: bool,
    /// The apex does not own exactly one SOA record.
    pub soa: bool,
    /// Two records of one owner in the NSEC chain and of one type differ in TTL.
    pub ttls: bool,
}

impl ZoneFaults {
    /// Returns the faults of records of several classes.
    pub fn of_mixed_classes() -> ZoneFaults
        ensures classes { result.classes ≡ true }
        ensures soa { result.soa ≡ true }
        ensures ttls { result.ttls ≡ true }
    {
        ZoneFaults {
            classes: true,
            soa: true,
            ttls: true,
        }
    }

    /// Returns whether there is a fault.
    pub fn are_any(&self) -> bool
        ensures { result ≡ are_any self.now }
    {
        self.classes | self.soa | self.ttls
    }

    /// Returns whether a reason is one of these faults.
    pub fn fail(&self, reason: Reason) -> bool
        ensures { result ≡ fails self.now reason }
    {
        match reason {
            Reason::NoSoa | Reason::SecondSoa => self.soa,
            Reason::OtherClass => self.classes,
            Reason::OtherTtl => self.ttls,
            _ => false,
        }
    }
}

/// Returns whether two records of one owner in the NSEC chain and of one type, other than RRSIG,
/// differ in TTL (RFC 2181, section 5.2).
///
/// # Errors
///
/// `OutOfMemory` if there is no memory.
fn has_unequal_ttls<'a>(
    alloc: Global,
    apex: &ParsedName<'a>,
    sorted: &[BorrowedRecord<'a>],
) -> Result<bool, DenialFault>
    requires { IsInOrder (λ n. n) (λ d. d.rtype) sorted.now }
    ensures ok { IfOk result (λ is. is ≡ has_unequal_ttls (zone_of_raw sorted.now)
        (covered_names false false (zone_of_raw sorted.now) apex.now)) }
    ensures err { IfErr result (λ e. e ≡ Memory) }
{
    let records = RecordsIter::new_from_owned(sorted);
    let config = GenerateNsecConfig::new();
    match list_owners(alloc, apex, records, false, false, &config) {
        Ok(_owners) => Ok(false),
        Err(SigningError::MultipleTtlValues) => Ok(true),
        Err(_error) => Err(DenialFault::OutOfMemory),
    }
}

/// Returns the faults of sorted records of one class.
///
/// # Errors
///
/// `OutOfMemory` if there is no memory.
#[tactic(auto, using(std::proofs::lemmas::Grind::common_steps, crate::proofs::FaultLemmas::faults_found))]
pub fn faults_of<'a>(
    alloc: Global,
    apex: &ParsedName<'a>,
    sorted: &[BorrowedRecord<'a>],
) -> Result<ZoneFaults, DenialFault>
    requires one_class { IsOneClass sorted.now }
    requires in_order { IsInOrder (λ n. n) (λ d. d.rtype) sorted.now }
    ensures ok { IfOk result (λ faults. (given : List RawRecord) → SortsRaw given sorted.now
        → AreFaultsOf given apex.now faults) }
    ensures err { IfErr result (λ e. e ≡ Memory) }
{
    let records = RecordsIter::new_from_owned(sorted);
    let lacks_soa = find_soa(apex, records.records()).is_none();
    let ttls = has_unequal_ttls(alloc, apex, sorted)?;
    Ok(ZoneFaults {
        classes: false,
        soa: lacks_soa,
        ttls,
    })
}
