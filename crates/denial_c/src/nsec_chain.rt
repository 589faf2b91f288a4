//! Makes the NSEC chain of records in octets.
ghost use Rattle.std.specs.Prelude.{◌≡◌, ◌<◌, length, IfErr, IfOk};
ghost use Rattle.denial_c.specs.Chains.{nsec_making, AreSorted, IsChainResult, IsSortedFault, IsWrittenToBuffer};
ghost use Rattle.denial_c.specs.declared.fault.Fault.TheVariants as fault;

use crate::fault::Fault;
use crate::nsec::read_name;
use crate::uneven::uneven_at;
use crate::zone::sorted_zone;
use domain_base::{Class, ParsedName};
use domain_borrowed::BorrowedRecord;
use domain_dnssec::compose_nsecs;
use domain_nsec::{GenerateNsecConfig, NsecChain};
use domain_records::{RecordsIter, SigningError};
use std::alloc::Global;

/// Makes the NSEC chain of the zone with these sorted records of one class, and returns its octets.
/// `octets` encode the same records in any order.
///
/// # Errors
///
/// `Soa` or `Ttls`, the first fault of the zone; and `OutOfMemory`, only if it has none.
#[tactic(auto, using(domain_zone::proofs::GivenLemmas::none_left_out))]
fn sorted_nsecs(
    alloc: Global,
    apex: &ParsedName<'_>,
    class: Class,
    octets: &[u8],
    sorted: &[BorrowedRecord<'_>],
    config: &GenerateNsecConfig,
) -> Result<Vec<u8>, Fault>
    requires { AreSorted class octets.now sorted.now }
    ensures ok { IfOk result (λ octets.
        (nsec_making config.now).is_chain apex.now sorted.now octets.items) }
    ensures err { IfErr result (IsSortedFault (nsec_making config.now) class octets.now apex.now
        sorted.now) }
{
    let records = RecordsIter::new_from_owned(sorted);
    let chain = match NsecChain::generate(alloc, apex, records, config) {
        Ok(chain) => chain,
        Err(SigningError::MultipleTtlValues) => {
            let below_dname = config.occlude_below_dname;
            let offset = uneven_at(apex, class, octets, sorted, false, below_dname);
            return Err(Fault::Ttls(offset));
        }
        Err(SigningError::OutOfMemory) => return Err(Fault::OutOfMemory),
        Err(_) => return Err(Fault::Soa),
    };
    let mut octets = Vec::new(alloc);
    match compose_nsecs(&chain, &mut octets) {
        Ok(()) => Ok(octets),
        // No record of a zone's chain has data of over 65,535 octets.
        Err(_) => Err(Fault::OutOfMemory),
    }
}

/// Writes octets to the beginning of the buffer, and returns their number.
///
/// # Errors
///
/// `ShortBuffer` with their number if and only if the buffer has no room for them; the buffer stays
/// as it was.
pub(crate) fn write_octets(octets: &[u8], buffer: &mut [u8]) -> Result<usize, Fault>
    ensures ok { IfOk result (IsWrittenToBuffer octets.now buffer.old buffer.new) }
    ensures err { IfErr result (λ e. (e ≡ fault.ShortBuffer (length octets.now))
        × (length buffer.old < length octets.now) × (buffer.new ≡ buffer.old)) }
{
    let count = octets.len();
    if count > buffer.len() {
        return Err(Fault::ShortBuffer(count));
    }
    let room = &mut buffer[..count];
    room.copy_from_slice(octets);
    Ok(count)
}

/// Writes the NSEC chain of the records of the class in `records` into the buffer, and returns the
/// number of its octets.
///
/// # Errors
///
/// The first that applies: `Apex`; `NoRecord` or `Class`, whichever comes first in the octets;
/// `Soa` or `Ttls`, the first fault of the zone; `OutOfMemory`, which may hide the last two; and
/// `ShortBuffer`. The buffer then stays as it was.
#[tactic(auto, using(std::proofs::lemmas::Grind::common_steps, crate::proofs::AmongLemmas::chain_fault, crate::proofs::AmongLemmas::chain_result))]
pub(crate) fn nsec_chain(
    alloc: Global,
    apex: &[u8],
    class: u16,
    config: &GenerateNsecConfig,
    records: &[u8],
    buffer: &mut [u8],
) -> Result<usize, Fault>
    ensures { IsChainResult (nsec_making config.now) apex.now class records.now result buffer.old
        buffer.new }
{
    let apex = read_name(apex, Fault::Apex)?;
    let class = Class::from_int(class);
    let sorted = sorted_zone(alloc, class, records)?;
    let octets = sorted_nsecs(alloc, &apex, class, records, &sorted, config)?;
    write_octets(&octets, buffer)
}
