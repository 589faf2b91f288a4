//! Names of a zone that have the same hash.
ghost use Rattle.std.specs.Prelude.{◌≡◌, ◌⊎◌, ℕ, IfErr, IfOk, map};
ghost use Rattle.domain_alike.specs.Alike.{pair_of, AreAlike, IsFirstChainRefusal};
ghost use Rattle.domain_borrowed.specs.Data.{zone_of_raw};
ghost use Rattle.domain_hasher.specs.declared.error.Nsec3HashError.TheVariants as hash_error;
ghost use Rattle.domain_nsec3.specs.View.{config_of};
ghost use Rattle.domain_records.specs.Order.{IsInOrder};
ghost use Rattle.domain_groups.specs.declared.error.SigningError.TheVariants as signing_error;
ghost use Rattle.denial_program.specs.declared.fault.DenialFault.TheVariants.{OutOfMemory as Memory, Signing};

use denial_program::{DenialFault, ZoneOctets};
use domain_alike::{Alike, alike_names};
use domain_base::ParsedName;
use domain_borrowed::BorrowedRecord;
use domain_hasher::{Nsec3HashError, Nsec3Hasher};
use domain_nsec3::GenerateNsec3Config;
use domain_records::{InPlaceSorter, SigningError};
use std::alloc::Global;

/// Returns each name of the NSEC3 chain of sorted records that has the hash of an earlier name in
/// canonical order, with the first name that has it.
///
/// Allocates memory for each name, since hashes are looked up in a map.
///
/// # Errors
///
/// `Signing` with the hasher's error for the first name for which it fails, and `OutOfMemory` if
/// there is no memory.
pub fn alike_of<'a, H: Nsec3Hasher>(
    alloc: Global,
    apex: &ParsedName<'a>,
    sorted: &[BorrowedRecord<'a>],
    config: &GenerateNsec3Config<ZoneOctets, InPlaceSorter>,
    hasher: &H,
) -> Result<Vec<Alike<'a>>, DenialFault>
    requires { IsInOrder (λ n. n) (λ d. d.rtype) sorted.now }
    ensures ok { IfOk result (λ pairs. AreAlike (zone_of_raw sorted.now) apex.now (config_of
        (H.answer hasher.now) config.now) (map pair_of pairs.items)) }
    ensures err { IfErr result (λ e. (e ≡ Memory) ⊎ ((n : ℕ)
        × (e ≡ Signing (signing_error.Nsec3HashingError (hash_error.Hasher n)))
        × IsFirstChainRefusal (zone_of_raw sorted.now) apex.now
        (config_of (H.answer hasher.now) config.now) n)) }
{
    match alike_names(alloc, apex, sorted, config, hasher) {
        Ok(pairs) => Ok(pairs),
        Err(Nsec3HashError::OutOfMemory) => Err(DenialFault::OutOfMemory),
        Err(error) => Err(DenialFault::Signing(SigningError::Nsec3HashingError(error))),
    }
}
