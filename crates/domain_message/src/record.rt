//! Records in a message.
ghost use Rattle.std.specs.Prelude.{◌≡◌, ◌≤◌, ◌<◌, ◌+◌, ◌++◌, ◌↔◌, ℕ, Option, Some, length, IfOk, IfErr, IsTrue};
ghost use Rattle.domain_octets.specs.Octets.{Octets};
ghost use Rattle.domain_names.specs.Text.{scan_fault_of};
ghost use Rattle.domain_rdata.specs.{Zone.{Kind, kind_of}, Scan.{AreData, CopiedFault}};
ghost use Rattle.domain_message.specs.{Data.{compressed_parts, parts_room, OctetsAt}, Record.IsDataAt};
ghost use Rattle.domain_message.specs.Record.{RecordAt, OctetsRefusal, RefusesRecordData, RefusesRecord};

use crate::MessageError;
use crate::header::header_at;
use crate::parts::{Part, compressed_parts, expand, may_end};
use domain_base::{MakeName, Rtype, ScanError};
use domain_octets::{ArrayBuilder, FromBuilder, Octets, OutOfMemory};
use domain_rdata::ZoneRecordData;
use domain_record::Record;
use std::alloc::Global;

/// The greatest number of octets of data.
const MAX_DATA_LEN: usize = 65_535;

/// Returns the error of a message for an error of parsing octets as data.
#[tactic(auto, using(crate::proofs::RecordLemmas::copied_ends, crate::proofs::RecordLemmas::copied_illegal, crate::proofs::RecordLemmas::copied_short, crate::proofs::RecordLemmas::copied_memory))]
fn refusal(error: ScanError) -> MessageError
    ensures { (limit : Option ℕ) (known : Option Kind) (wire : Octets)
        → CopiedFault limit known wire (scan_fault_of error)
        → OctetsRefusal limit known wire result }
{
    match error {
        ScanError::ShortBuf => MessageError::ShortBuf,
        ScanError::OutOfMemory => MessageError::OutOfMemory,
        ScanError::Custom(_) => MessageError::IllegalData,
        ScanError::EndOfEntry => MessageError::IllegalData,
    }
}

/// Returns the data of a type with these octets.
fn data_of<O: FromBuilder + Drop, N: MakeName + Drop>(
    alloc: Global,
    rtype: Rtype,
    octets: &[u8],
) -> Result<ZoneRecordData<O, N>, MessageError>
    requires { length octets.now ≤ 65535 }
    ensures ok { IfOk result (AreData O.octets N.labels rtype octets.now) }
    ensures err { IfErr result (OctetsRefusal O.Builder.limit (kind_of rtype) octets.now) }
{
    match ZoneRecordData::copy_from(alloc, rtype, octets) {
        Ok(data) => Ok(data),
        Err(error) => Err(refusal(error)),
    }
}

/// Returns whether octets are those of the message from place `at` up to place `end`.
fn are_octets_at(message: &[u8], at: usize, end: usize, octets: &[u8]) -> bool
    requires { at ≤ length message.now }
    ensures { IsTrue result ↔ OctetsAt message.now at (length octets.now) octets.now end }
{
    end == at + octets.len() && message[at..].starts_with(octets)
}

/// Returns the octets of both slices, one after the other.
fn joined(alloc: Global, front: &[u8], rest: &[u8]) -> Result<Vec<u8>, OutOfMemory>
    ensures { IfOk result (λ v. v.items ≡ front.now ++ rest.now) }
{
    let mut whole = Vec::with_capacity(alloc, front.len() + rest.len())?;
    whole.extend_from_slice(front)?;
    whole.extend_from_slice(rest)?;
    Ok(whole)
}

/// Returns the data of a type at a place that consist of parts and perhaps a rest. Gathers their
/// octets in memory of their own only if a part is compressed and a rest follows.
fn whole_at<O: FromBuilder + Drop, N: MakeName + Drop>(
    alloc: Global,
    message: &[u8],
    rtype: Rtype,
    parts: &[Part],
    place: usize,
    count: usize,
) -> Result<ZoneRecordData<O, N>, MessageError>
    requires inside { place + count ≤ length message.now }
    requires short { count < 65536 }
    requires some { compressed_parts rtype ≡ Some parts.now }
    requires room { parts_room parts.now ≤ 1027 }
    ensures ok { IfOk result (IsDataAt O.octets N.labels message.now rtype place count) }
    ensures err { IfErr result (RefusesRecordData O.Builder.limit message.now rtype place count) }
{
    let mut expanded = ArrayBuilder::new();
    let end = expand(message, parts, place, &mut expanded)?;
    let stop = place + count;
    if !may_end(rtype, end, stop) {
        return Err(MessageError::DataLength);
    }
    let front = expanded.as_slice();
    let rest = &message[end..stop];
    if front.len() + rest.len() > MAX_DATA_LEN {
        return Err(MessageError::IllegalData);
    }
    if rest.is_empty() {
        return data_of(alloc, rtype, front);
    }
    if are_octets_at(message, place, end, front) {
        return data_of(alloc, rtype, &message[place..stop]);
    }
    data_of(alloc, rtype, joined(alloc, front, rest)?.as_slice())
}

/// Returns the data of a type at a place, whose octets the message has.
fn data_within<O: FromBuilder + Drop, N: MakeName + Drop>(
    alloc: Global,
    message: &[u8],
    rtype: Rtype,
    place: usize,
    count: usize,
) -> Result<ZoneRecordData<O, N>, MessageError>
    requires inside { place + count ≤ length message.now }
    requires short { count < 65536 }
    ensures ok { IfOk result (IsDataAt O.octets N.labels message.now rtype place count) }
    ensures err { IfErr result (RefusesRecordData O.Builder.limit message.now rtype place count) }
{
    match compressed_parts(rtype) {
        Some(parts) => whole_at(alloc, message, rtype, parts, place, count),
        None => data_of(alloc, rtype, &message[place..place + count]),
    }
}

/// Returns the data of a type at a place, which have `count` octets.
fn data_at<O: FromBuilder + Drop, N: MakeName + Drop>(
    alloc: Global,
    message: &[u8],
    rtype: Rtype,
    place: usize,
    count: usize,
) -> Result<ZoneRecordData<O, N>, MessageError>
    requires inside { place ≤ length message.now }
    requires short { count < 65536 }
    ensures ok { IfOk result (IsDataAt O.octets N.labels message.now rtype place count) }
    ensures err { IfErr result (RefusesRecordData O.Builder.limit message.now rtype place count) }
{
    if count > message.len() - place {
        return Err(MessageError::ShortInput);
    }
    data_within(alloc, message, rtype, place, count)
}

/// Returns the record at a place of a message (RFC 1035, section 4.1.3), in octets of its own, and
/// the place after it. It follows pointers in the owner, and in names in the data of the types that
/// RFC 3597, section 4, lists. These are NS, SOA, MX, and, held as octets, MD, MF, CNAME, MB, MG,
/// MR, PTR, MINFO, RP, AFSDB, RT, SIG, PX, NXT, NAPTR and SRV. It takes the octets of data of other
/// types unchanged.
///
/// # Errors
///
/// The first fault in wire order:
///
/// - Those of `read_name`, for the owner and for names in data that may be compressed.
/// - `ShortInput` if the message ends within the record.
/// - `DataLength` if data that may be compressed end elsewhere than their length says. Data of SIG
///   and NXT may continue after the name.
/// - `IllegalData` if the octets are not data of the type, or are more than 65,535 without
///   compression.
/// - `ShortBuf` if a part that data of a known type hold in octets of its own, or the octets of
///   other data, have no room in their builder.
///
/// `OutOfMemory` if there is no memory. The record then has none of these faults, except perhaps
/// `ShortBuf`.
#[tactic(auto, using(std::proofs::lemmas::Grind::common_steps, crate::proofs::NameLemmas::wire_steps))]
pub fn read_record<O: FromBuilder + Drop, N: MakeName + Drop>(
    alloc: Global,
    message: &[u8],
    at: usize,
) -> Result<(Record<N, ZoneRecordData<O, N>>, usize), MessageError>
    ensures ok { IfOk result (λ r. RecordAt O.octets N.labels message.now at r.0 r.1) }
    ensures inside { IfOk result (λ r. r.1 ≤ length message.now) }
    ensures err { IfErr result (RefusesRecord O.Builder.limit message.now at) }
{
    let header = header_at(message, at)?;
    let data = data_at(alloc, message, header.rtype, header.place, header.count)?;
    let owner = N::make(alloc, header.owner.as_slice())?;
    Ok((
        Record::new(owner, header.class, header.ttl, data),
        header.place + header.count,
    ))
}
