//! The parts of data whose names may be compressed.
ghost use Rattle.std.specs.Prelude.{◌≡◌, ◌≤◌, ◌+◌, ◌++◌, ◌↔◌, length, Some, None, IsTrue, IfOk, IfErr, IfSome, IfNone};
ghost use Rattle.domain_octets.specs.Octets.{Octets};
ghost use Rattle.domain_message.specs.Data.{compressed_parts, parts_room, part_room, has_rest, text_count};
ghost use Rattle.domain_message.specs.Data.{OctetsAt, PartAt, PartsAt, EndsWithin, PartFault, PartsFault, MayEnd};

use crate::NameFault;
use crate::name::name_at;
use domain_base::Rtype;
use domain_octets::{ArrayBuilder, Octets, OctetsBuilder};

/// The greatest length of the parts of data without compression, in octets. It is that of NAPTR
/// data: four octets, three character-strings and a name.
const ROOM: usize = 1027;

/// The octets of the parts of data without compression.
pub(crate) type PartsOctets = ArrayBuilder<ROOM>;

/// A part of data.
#[derive(Clone, Copy)]
pub(crate) enum Part {
    /// This many octets, as they are.
    Plain(usize),
    /// A character-string: a length octet and that many octets (RFC 1035, section 3.3).
    Text,
    /// A name.
    Name,
}

/// Returns the parts of the data of a type, without the rest if there is one, or `None` for a type
/// whose data have no compressed names.
pub(crate) fn compressed_parts(rtype: Rtype) -> Option<&'static [Part]>
    ensures some { IfSome result (λ parts. compressed_parts rtype ≡ Some parts.now) }
    ensures none { IfNone result (compressed_parts rtype ≡ None) }
    ensures room { IfSome result (λ parts. parts_room parts.now ≤ 1027) }
{
    match rtype.to_int() {
        // NS, MD, MF, CNAME, MB, MG, MR, PTR, NXT
        2 | 3 | 4 | 5 | 7 | 8 | 9 | 12 | 30 => Some(&[Part::Name]),
        // MINFO, RP
        14 | 17 => Some(&[Part::Name, Part::Name]),
        // SOA
        6 => Some(&[Part::Name, Part::Name, Part::Plain(20)]),
        // MX, AFSDB, RT
        15 | 18 | 21 => Some(&[Part::Plain(2), Part::Name]),
        // PX
        26 => Some(&[Part::Plain(2), Part::Name, Part::Name]),
        // SRV
        33 => Some(&[Part::Plain(6), Part::Name]),
        // NAPTR
        35 => Some(&[
            Part::Plain(4),
            Part::Text,
            Part::Text,
            Part::Text,
            Part::Name,
        ]),
        // SIG
        24 => Some(&[Part::Plain(18), Part::Name]),
        _ => None,
    }
}

/// Returns whether the data of a type have octets after their parts: the signature of a SIG record,
/// or the types of an NXT record.
fn has_rest(rtype: Rtype) -> bool
    ensures { result ≡ has_rest rtype }
{
    let number = rtype.to_int();
    number == 24 || number == 30
}

/// Returns whether the parts may end at place `end` of data of a type that end at place `stop`.
pub(crate) fn may_end(rtype: Rtype, end: usize, stop: usize) -> bool
    ensures value { IsTrue result ↔ MayEnd (has_rest rtype) end stop }
    ensures before { IsTrue result → end ≤ stop }
{
    if has_rest(rtype) {
        end <= stop
    } else {
        end == stop
    }
}

/// Returns the number of octets of the character-string at a place.
fn text_count(message: &[u8], at: usize) -> usize
    requires { at ≤ length message.now }
    ensures value { result ≡ text_count message.now at }
    ensures room { result ≤ 256 }
{
    match &message[at..] {
        [len, ..] => 1 + usize::from(*len),
        [] => 1,
    }
}

/// Appends the `count` octets at a place, and returns the place after them.
fn append_octets(
    message: &[u8],
    at: usize,
    count: usize,
    target: &mut PartsOctets,
) -> Result<usize, NameFault>
    requires place { at ≤ length message.now }
    requires room { length target.old + count ≤ 1027 }
    ensures ok { IfOk result (λ end. (octets : Octets) × OctetsAt message.now at count octets end
        × (target.new ≡ target.old ++ octets)) }
    ensures inside { IfOk result (λ end. end ≤ length message.now) }
    ensures err { IfErr result (EndsWithin message.now at count) }
{
    if count > message.len() - at {
        return Err(NameFault::ShortInput);
    }
    if target.append_slice(&message[at..at + count]).is_err() {
        unreachable!();
    }
    Ok(at + count)
}

/// Appends the octets of the part at a place, without compression, and returns the place after it.
fn expand_part(
    message: &[u8],
    part: Part,
    at: usize,
    target: &mut PartsOctets,
) -> Result<usize, NameFault>
    requires place { at ≤ length message.now }
    requires room { length target.old + part_room part ≤ 1027 }
    ensures ok { IfOk result (λ end. (octets : Octets) × PartAt message.now part at octets end
        × (target.new ≡ target.old ++ octets)) }
    ensures inside { IfOk result (λ end. end ≤ length message.now) }
    ensures err { IfErr result (PartFault message.now part at) }
{
    match part {
        Part::Plain(count) => append_octets(message, at, count, target),
        Part::Text => append_octets(message, at, text_count(message, at), target),
        Part::Name => {
            let (wire, end) = name_at(message, at)?;
            if target.append_slice(wire.as_slice()).is_err() {
                unreachable!();
            }
            Ok(end)
        }
    }
}

/// Appends the octets of the parts at a place, without compression, and returns the place after
/// them.
pub(crate) fn expand(
    message: &[u8],
    parts: &[Part],
    at: usize,
    target: &mut PartsOctets,
) -> Result<usize, NameFault>
    requires place { at ≤ length message.now }
    requires room { length target.old + parts_room parts.now ≤ 1027 }
    ensures ok { IfOk result (λ end. (octets : Octets) × PartsAt message.now parts.now at octets end
        × (target.new ≡ target.old ++ octets)) }
    ensures inside { IfOk result (λ end. end ≤ length message.now) }
    ensures err { IfErr result (PartsFault message.now parts.now at) }
{
    let [part, others @ ..] = parts else {
        return Ok(at);
    };
    let between = expand_part(message, *part, at, target)?;
    expand(message, others, between, target)
}
