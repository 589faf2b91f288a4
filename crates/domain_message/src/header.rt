//! The fields before the data of a record in a message.
ghost use Rattle.std.specs.Prelude.{◌≡◌, ◌+◌, ◌<◌, ◌≤◌, length, IfOk, IfErr};
ghost use Rattle.domain_names.specs.Name.{wire_of, Name};
ghost use Rattle.domain_octets.specs.Octets.{Octets};
ghost use Rattle.domain_fields.specs.Layout.{Begins};
ghost use Rattle.domain_message.specs.Record.{numbers, HeaderAt, HeaderFault};

use crate::NameFault;
use crate::name::{NameOctets, name_at};
use domain_base::{Class, Rtype, Ttl};
use domain_fields::ReadFields;
use domain_octets::Parser;

/// The fields before the data of a record.
#[derive(Drop)]
pub(crate) struct Header {
    /// The octets of the owner, without compression.
    pub owner: NameOctets,
    /// The type of the data.
    pub rtype: Rtype,
    /// The class.
    pub class: Class,
    /// How long the record may be cached, in seconds.
    pub ttl: Ttl,
    /// The number of octets of the data.
    pub count: usize,
    /// The place of the data.
    pub place: usize,
}

/// The type, the class, the TTL and the length of the data.
type Numbers = (u16, (u16, (u32, u16)));

/// Returns the numbers at the front of the octets. Returns an error if and only if there are fewer
/// than ten octets.
#[tactic(auto, using(crate::proofs::RecordLemmas::begins_count, crate::proofs::RecordLemmas::numbers_cut))]
fn read_numbers(octets: &[u8]) -> Result<Numbers, NameFault>
    ensures ok { IfOk result (λ n. (behind : Octets) × Begins numbers octets.now n behind) }
    ensures whole { IfOk result (λ n. 10 ≤ length octets.now) }
    ensures err { IfErr result (λ e. (e ≡ NameFault.ShortInput) × (length octets.now < 10)) }
{
    let mut parser = Parser::new(octets);
    match <Numbers as ReadFields>::read(&mut parser) {
        Ok(numbers) => Ok(numbers),
        Err(_) => Err(NameFault::ShortInput),
    }
}

/// Returns the fields before the data of the record at a place of a message.
pub(crate) fn header_at(message: &[u8], at: usize) -> Result<Header, NameFault>
    ensures ok { IfOk result (λ h. (owner : Name) × HeaderAt message.now at owner
        (h.rtype, (h.class, (h.ttl, h.count))) h.place × (h.owner ≡ wire_of owner)) }
    ensures inside { IfOk result (λ h. h.place ≤ length message.now) }
    ensures short { IfOk result (λ h. h.count < 65536) }
    ensures err { IfErr result (HeaderFault message.now at) }
{
    let (owner, end) = name_at(message, at)?;
    let (rtype, (class, (ttl, count))) = read_numbers(&message[end..])?;
    Ok(Header {
        owner,
        rtype: Rtype::from_int(rtype),
        class: Class::from_int(class),
        ttl: Ttl::from_secs(ttl),
        count: usize::from(count),
        place: end + 10,
    })
}
