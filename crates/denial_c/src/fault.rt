//! The reasons why there is no answer, no verdict or no chain, and their numbers.
ghost use Rattle.std.specs.Prelude.{◌≡◌};
ghost use Rattle.denial_c.specs.{Numbers.{fault_number, fault_told}, Result.told_or_fault};
ghost use Rattle.denial_c.specs.declared.fault.Fault.TheVariants.{OutOfMemory as memory};

use domain_hasher::Nsec3HashError;
use domain_octets::OutOfMemory;

/// The reason why there is no answer, no verdict or no chain.
#[derive(Clone, Copy, Debug, PartialEq, Eq)]
pub(crate) enum Fault {
    /// The octets of the apex do not encode a name.
    Apex,
    /// The octets of the name do not encode a name.
    Name,
    /// The octets of the records do not encode records, or a record that counts has data that do
    /// not encode its type.
    Records,
    /// The octets from this offset on do not encode a record.
    NoRecord(usize),
    /// The apex has not exactly one NSEC3PARAM record.
    Param,
    /// The hasher fails for a name.
    Hasher,
    /// There is not enough memory.
    OutOfMemory,
    /// The record at this offset is of another class.
    Class(usize),
    /// The apex does not own exactly one SOA record.
    Soa,
    /// Records of one owner and one type differ in their TTLs; the one at this offset has another
    /// TTL than those before it.
    Ttls(usize),
    /// The chain has this number of octets, and the buffer has no room for it.
    ShortBuffer(usize),
    /// The salt has over 255 octets.
    LongSalt,
    /// The owner name that a hash makes would be longer than a name may be.
    LongOwner,
    /// Two names have the same hash.
    Collision,
}

/// Returns what a check returns. Its only errors are out of memory, and names for which the hasher
/// fails.
pub(crate) fn told_or_fault<V>(told: Result<V, Nsec3HashError>) -> Result<V, Fault>
    ensures { result ≡ told_or_fault told }
{
    match told {
        Ok(told) => Ok(told),
        Err(Nsec3HashError::OutOfMemory) => Err(Fault::OutOfMemory),
        Err(_) => Err(Fault::Hasher),
    }
}

impl From<OutOfMemory> for Fault {
    ghost from_gives = { λ _ fault. fault ≡ memory };

    fn from(_error: OutOfMemory) -> Fault {
        Fault::OutOfMemory
    }
}

/// Returns the number of a fault, and what it counts: the offset of the record, or the number of
/// octets that do not fit. 0 if it counts nothing.
pub(crate) fn fault_told(fault: Fault) -> (u32, usize)
    ensures { result ≡ fault_told fault }
{
    match fault {
        Fault::Apex => (16, 0),
        Fault::Name => (17, 0),
        Fault::Records => (18, 0),
        Fault::NoRecord(offset) => (18, offset),
        Fault::Param => (19, 0),
        Fault::Hasher => (20, 0),
        Fault::OutOfMemory => (21, 0),
        Fault::Class(offset) => (22, offset),
        Fault::Soa => (23, 0),
        Fault::Ttls(offset) => (24, offset),
        Fault::ShortBuffer(count) => (25, count),
        Fault::LongSalt => (26, 0),
        Fault::LongOwner => (27, 0),
        Fault::Collision => (28, 0),
    }
}

/// Returns the number of a fault.
pub(crate) fn fault_number(fault: Fault) -> u32
    ensures { result ≡ fault_number fault }
{
    fault_told(fault).0
}
