//! Makes the NSEC3 chain of records in octets.
ghost use Rattle.std.specs.Prelude.{◌≡◌, ◌≤◌, ◌<◌, length, IfErr, IfOk};
ghost use Rattle.domain_nsec3.specs.View.{config_of};
ghost use Rattle.domain_nsec3.specs.declared.config.Nsec3ParamTtlMode.TheVariants.{Soa};
ghost use Rattle.domain_sha1.specs.Iterated.{sha1_answer};
ghost use Rattle.denial_c.specs.Chains.{config_by, hashing_fault, nsec3_making, AreSorted, IsChainResult, IsSortedFault};
ghost use Rattle.denial_c.specs.declared.fault.Fault.TheVariants as fault;

use crate::fault::Fault;
use crate::nsec::read_name;
use crate::nsec_chain::write_octets;
use crate::uneven::uneven_at;
use crate::zone::sorted_zone;
use domain_base::{Class, Nsec3HashAlgorithm, ParsedName};
use domain_bitmap::Nsec3Salt;
use domain_borrowed::BorrowedRecord;
use domain_chain_rdata::Nsec3param;
use domain_dnssec::compose_nsec3s;
use domain_hasher::Nsec3HashError;
use domain_nsec3::{GenerateNsec3Config, Nsec3Chain};
use domain_records::{InPlaceSorter, RecordsIter, SigningError};
use domain_sha1::Sha1Hasher;
use std::alloc::Global;

/// How a chain is made, with names hashed by SHA-1.
#[derive(Clone, Copy)]
pub(crate) struct Hashing<'a> {
    /// The number of additional iterations of the hash (RFC 5155, section 3.1.3).
    pub iterations: u16,
    /// The salt, which is hashed after a name (RFC 5155, section 3.1.5).
    pub salt: &'a [u8],
    /// Whether unsigned delegations are left out, and the records have the opt-out flag (RFC 5155,
    /// section 6).
    pub opt_out: bool,
    /// Whether the apex will have DNSKEY records.
    pub assume_dnskey: bool,
    /// Whether names below the owner of a DNAME record are left out.
    pub occlude_below_dname: bool,
}

/// Returns the configuration of a chain.
///
/// # Errors
///
/// `LongSalt` if and only if the salt has over 255 octets.
pub(crate) fn config_with<'a>(
    hashing: Hashing<'a>,
) -> Result<GenerateNsec3Config<&'a [u8], InPlaceSorter>, Fault>
    ensures ok { IfOk result (λ config. config_of sha1_answer config
        ≡ config_by hashing.entry) }
    ensures mode { IfOk result (λ config. config.nsec3param_ttl_mode ≡ Soa) }
    ensures fits { IfOk result (λ _. length hashing.entry.salt.now ≤ 255) }
    ensures err { IfErr result (λ e. (e ≡ fault.LongSalt) × (255 < length hashing.entry.salt.now)) }
{
    let Ok(salt) = Nsec3Salt::from_octets(hashing.salt) else {
        return Err(Fault::LongSalt);
    };
    let flags = if hashing.opt_out { 1 } else { 0 };
    let params = Nsec3param::new(Nsec3HashAlgorithm::SHA1, flags, hashing.iterations, salt);
    let mut config = GenerateNsec3Config::new(params);
    config.assume_dnskeys_will_be_added = hashing.assume_dnskey;
    config.occlude_below_dname = hashing.occlude_below_dname;
    Ok(config)
}

/// Converts an error of hashing. SHA-1 fails for no name, and its hashes have 20 octets, so there
/// are only these two.
fn hashing_fault(error: Nsec3HashError) -> Fault
    ensures { result ≡ hashing_fault error }
{
    match error {
        Nsec3HashError::CollisionDetected => Fault::Collision,
        _ => Fault::LongOwner,
    }
}

/// Makes the NSEC3 chain of the zone with these sorted records of one class, and returns its
/// octets. `octets` encode the same records in any order.
///
/// # Errors
///
/// The first fault of the zone: `Soa`, `Ttls`, `LongOwner` or `Collision`; and `OutOfMemory`, only
/// if the zone has neither of the first two.
#[tactic(auto, using(std::proofs::lemmas::Grind::common_steps))]
fn sorted_nsec3s(
    alloc: Global,
    apex: &ParsedName<'_>,
    class: Class,
    octets: &[u8],
    sorted: &[BorrowedRecord<'_>],
    config: &GenerateNsec3Config<&[u8], InPlaceSorter>,
) -> Result<Vec<u8>, Fault>
    requires are { AreSorted class octets.now sorted.now }
    requires sha1 { config.now.params.hash_algorithm ≡ 1 }
    ensures ok { IfOk result (λ octets. (nsec3_making config.now.nsec3param_ttl_mode
        (config_of sha1_answer config.now)).is_chain apex.now sorted.now octets.items) }
    ensures err { IfErr result (IsSortedFault (nsec3_making config.now.nsec3param_ttl_mode
        (config_of sha1_answer config.now)) class octets.now apex.now sorted.now) }
{
    let records = RecordsIter::new_from_owned(sorted);
    let chain = match Nsec3Chain::generate(alloc, apex, records, config, &Sha1Hasher) {
        Ok(chain) => chain,
        Err(SigningError::MultipleTtlValues) => {
            let excludes = config.params.opt_out_flag()
                & config.opt_out_exclude_owner_names_of_unsigned_delegations;
            let below_dname = config.occlude_below_dname;
            let offset = uneven_at(apex, class, octets, sorted, excludes, below_dname);
            return Err(Fault::Ttls(offset));
        }
        Err(SigningError::OutOfMemory) => return Err(Fault::OutOfMemory),
        Err(SigningError::Nsec3HashingError(error)) => return Err(hashing_fault(error)),
        Err(_) => return Err(Fault::Soa),
    };
    let mut octets = Vec::new(alloc);
    match compose_nsec3s(alloc, &chain, &mut octets) {
        Ok(()) => Ok(octets),
        // No record of a zone's chain has data of over 65,535 octets.
        Err(_) => Err(Fault::OutOfMemory),
    }
}

/// Writes the NSEC3 chain of the records of the class in `records`, and its NSEC3PARAM record, into
/// the buffer, and returns the number of their octets.
///
/// # Errors
///
/// The first that applies: `Apex`; `LongSalt`; `NoRecord` or `Class`, whichever comes first in the
/// octets; `Soa`, `Ttls`, `LongOwner` or `Collision`, the first fault of the zone; `OutOfMemory`,
/// which may hide the last four; and `ShortBuffer`. The buffer then stays as it was.
#[tactic(auto, using(std::proofs::lemmas::Grind::common_steps, crate::proofs::AmongLemmas::chain_fault, crate::proofs::AmongLemmas::chain_result))]
pub(crate) fn nsec3_chain(
    alloc: Global,
    apex: &[u8],
    class: u16,
    hashing: Hashing<'_>,
    records: &[u8],
    buffer: &mut [u8],
) -> Result<usize, Fault>
    ensures { IsChainResult (nsec3_making Soa (config_by hashing.entry)) apex.now class records.now
        result buffer.old buffer.new }
{
    let apex = read_name(apex, Fault::Apex)?;
    let config = config_with(hashing)?;
    let class = Class::from_int(class);
    let sorted = sorted_zone(alloc, class, records)?;
    let octets = sorted_nsec3s(alloc, &apex, class, records, &sorted, &config)?;
    write_octets(&octets, buffer)
}
