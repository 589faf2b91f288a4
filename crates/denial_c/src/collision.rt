//! Two names of the NSEC3 chain of a zone, given as octets, that have the same hash.
ghost use Rattle.std.specs.Prelude.{◌≡◌};
ghost use Rattle.denial_c.specs.{Numbers.collision_number, Chains.{config_by, IsCollisionResult}};

use crate::fault::{Fault, fault_number};
use crate::nsec::read_name;
use crate::nsec3_chain::{Hashing, config_with};
use crate::zone::sorted_zone;
use domain_alike::{first_alike, write_lowered};
use domain_base::{Class, MAX_NAME};
use domain_hasher::Nsec3HashError;
use domain_sha1::Sha1Hasher;
use std::alloc::Global;

/// Returns whether two names of the NSEC3 chain of the records of the class in `records` have the
/// same hash. If so, writes the first name in canonical order that has the hash of an earlier one
/// to `later`, and the first name that has its hash to `earlier`. Both are in lower case.
///
/// # Errors
///
/// The first that applies: `Apex`; `LongSalt`; `NoRecord` or `Class`, whichever comes first in the
/// octets; and `OutOfMemory`. Other faults of the zone are not checked. If no names are written,
/// both buffers stay as they were.
#[tactic(auto, using(std::proofs::lemmas::Grind::common_steps, crate::proofs::AmongLemmas::pair_found))]
pub(crate) fn collision(
    alloc: Global,
    apex: &[u8],
    class: u16,
    hashing: Hashing<'_>,
    records: &[u8],
    earlier: &mut [u8; MAX_NAME],
    later: &mut [u8; MAX_NAME],
) -> Result<bool, Fault>
    ensures { IsCollisionResult apex.now class (config_by hashing.entry) records.now result
        (record { old = earlier.old; new = earlier.new })
        (record { old = later.old; new = later.new }) }
{
    let apex = read_name(apex, Fault::Apex)?;
    let config = config_with(hashing)?;
    let class = Class::from_int(class);
    let sorted = sorted_zone(alloc, class, records)?;
    let found = match first_alike(alloc, &apex, &sorted, &config, &Sha1Hasher) {
        Ok(found) => found,
        Err(Nsec3HashError::OutOfMemory) => return Err(Fault::OutOfMemory),
        // SHA-1 fails for no name, so there is no other error.
        Err(_) => unreachable!(),
    };
    let Some(alike) = found else {
        return Ok(false);
    };
    write_lowered(&alike.first, earlier);
    write_lowered(&alike.later, later);
    Ok(true)
}

/// Returns the number of an answer.
pub(crate) fn collision_number(answer: Result<bool, Fault>) -> u32
    ensures { result ≡ collision_number answer }
{
    match answer {
        Ok(true) => fault_number(Fault::Collision),
        Ok(false) => 49,
        Err(fault) => fault_number(fault),
    }
}
