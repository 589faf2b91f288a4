//! The faults of records for which `denial nsec3` rejects them.
ghost use Rattle.std.specs.Prelude.{◌≡◌, ◌⊎◌, ℕ, [], List, None, Some, IfErr, IfOk, map};
ghost use Rattle.domain_alike.specs.Alike.{pair_of};
ghost use Rattle.domain_borrowed.specs.Data.{RawRecord};
ghost use Rattle.domain_hasher.specs.declared.error.Nsec3HashError.TheVariants as hash_error;
ghost use Rattle.domain_records.specs.Order.{IsInOrder, IsOneClass};
ghost use Rattle.domain_groups.specs.declared.error.SigningError.TheVariants as signing_error;
ghost use Rattle.denial_program.specs.Answer.{SortsRaw};
ghost use Rattle.denial_program.specs.declared.fault.DenialFault.TheVariants.{OutOfMemory as Memory, Signing};
ghost use Rattle.lint_program.specs.Alike.{AreTold, IsRefusalBy};
ghost use Rattle.lint_program.specs.Hashed.{hash_fault_line, nsec3_fault_text, IsNsec3Rejection};

use crate::alike::alike_of;
use denial_program::{DenialFault, Nsec3Params, ZoneOctets};
use domain_alike::Alike;
use domain_base::ParsedName;
use domain_borrowed::BorrowedRecord;
use domain_hasher::{Nsec3HashError, Nsec3Hasher};
use domain_nsec3::{GenerateNsec3Config, Nsec3Chain};
use domain_records::{InPlaceSorter, RecordsIter, SigningError};
use std::alloc::Global;

/// The faults of an NSEC3 chain.
#[derive(Drop)]
pub struct Hashed<'a> {
    /// The fault for which `denial nsec3` rejects the records, or `None`.
    pub fault: Option<SigningError>,
    /// Each name of the chain that has the hash of an earlier name, with the first that has it.
    pub pairs: Vec<Alike<'a>>,
}

impl<'a> Hashed<'a> {
    /// Returns no faults. Takes no memory.
    pub fn none(alloc: Global) -> Self
        ensures fault { result.fault ≡ None }
        ensures pairs { result.pairs.items ≡ [] }
    {
        Hashed {
            fault: None,
            pairs: Vec::new(alloc),
        }
    }
}

/// Returns the fault for which `denial nsec3` rejects sorted records with these parameters, if any,
/// and the names of their NSEC3 chain that have the same hash. Names of records with a fault are
/// hashed once more, to find all of these.
fn hashed_with<'a, H: Nsec3Hasher>(
    alloc: Global,
    apex: &ParsedName<'a>,
    sorted: &[BorrowedRecord<'a>],
    parameters: Nsec3Params,
    hasher: &H,
) -> Result<Hashed<'a>, DenialFault>
    requires one_class { IsOneClass sorted.now }
    requires in_order { IsInOrder (λ n. n) (λ d. d.rtype) sorted.now }
    ensures fault { IfOk result (λ hashed. (given : List RawRecord) → SortsRaw given sorted.now
        → IsNsec3Rejection (H.answer hasher.now) given apex.now (Some parameters) hashed.fault) }
    ensures alike { IfOk result (λ hashed. (given : List RawRecord) → SortsRaw given sorted.now
        → AreTold (H.answer hasher.now) given apex.now (Some parameters)
        (map pair_of hashed.pairs.items)) }
    ensures err { IfErr result (λ e. (e ≡ Memory) ⊎ ((n : ℕ)
        × (e ≡ Signing (signing_error.Nsec3HashingError (hash_error.Hasher n)))
        × ((given : List RawRecord) → SortsRaw given sorted.now
        → IsRefusalBy (H.answer hasher.now) given apex.now (Some parameters) n))) }
{
    let config: GenerateNsec3Config<ZoneOctets, InPlaceSorter> = GenerateNsec3Config::new(
        parameters,
    );
    let records = RecordsIter::new_from_owned(sorted);
    match Nsec3Chain::generate(alloc, apex, records, &config, hasher) {
        Ok(_chain) => Ok(Hashed::none(alloc)),
        Err(SigningError::OutOfMemory) => Err(DenialFault::OutOfMemory),
        Err(fault) => {
            let pairs = alike_of(alloc, apex, sorted, &config, hasher)?;
            Ok(Hashed {
                fault: Some(fault),
                pairs,
            })
        }
    }
}

/// Returns the fault for which `denial nsec3` rejects sorted records with these parameters, if any,
/// and the names of their NSEC3 chain that have the same hash. Without parameters there is nothing.
///
/// # Errors
///
/// `Signing` with the hasher's error for the first name for which it fails, and `OutOfMemory` if
/// there is no memory.
pub fn hashed_of<'a, H: Nsec3Hasher>(
    alloc: Global,
    apex: &ParsedName<'a>,
    sorted: &[BorrowedRecord<'a>],
    parameters: Option<Nsec3Params>,
    hasher: &H,
) -> Result<Hashed<'a>, DenialFault>
    requires one_class { IsOneClass sorted.now }
    requires in_order { IsInOrder (λ n. n) (λ d. d.rtype) sorted.now }
    ensures fault { IfOk result (λ hashed. (given : List RawRecord) → SortsRaw given sorted.now
        → IsNsec3Rejection (H.answer hasher.now) given apex.now parameters hashed.fault) }
    ensures alike { IfOk result (λ hashed. (given : List RawRecord) → SortsRaw given sorted.now
        → AreTold (H.answer hasher.now) given apex.now parameters
        (map pair_of hashed.pairs.items)) }
    ensures err { IfErr result (λ e. (e ≡ Memory) ⊎ ((n : ℕ)
        × (e ≡ Signing (signing_error.Nsec3HashingError (hash_error.Hasher n)))
        × ((given : List RawRecord) → SortsRaw given sorted.now
        → IsRefusalBy (H.answer hasher.now) given apex.now parameters n))) }
{
    match parameters {
        None => Ok(Hashed::none(alloc)),
        Some(parameters) => hashed_with(alloc, apex, sorted, parameters, hasher),
    }
}

/// Returns the line about a fault of hashing.
fn hash_fault_line(fault: Nsec3HashError) -> &'static str
    ensures { result.now ≡ hash_fault_line fault }
{
    match fault {
        Nsec3HashError::OwnerHashError => {
            "zone: a hash cannot be a label: it has no octets, or more than 39\n"
        }
        Nsec3HashError::Nsec3NameTooLong => {
            "zone: the hashed owner names are too long: \
             the label of a hash and the apex take over 255 octets\n"
        }
        Nsec3HashError::Hasher(_)
        | Nsec3HashError::AppendError
        | Nsec3HashError::CollisionDetected
        | Nsec3HashError::OutOfMemory => "",
    }
}

/// Returns the line about the fault of an NSEC3 chain, or no octets for a fault that has other
/// lines.
pub fn nsec3_fault_text(fault: Option<SigningError>) -> &'static str
    ensures { result.now ≡ nsec3_fault_text fault }
{
    match fault {
        Some(SigningError::Nsec3HashingError(error)) => hash_fault_line(error),
        _ => "",
    }
}
