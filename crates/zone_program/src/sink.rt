//! The sink that makes lines of records.
ghost use Rattle.std.specs.Prelude.{◌≡◌, ◌≤◌, ◌++◌, [], length, Option, OnOk, string_bytes};
ghost use Rattle.domain_zonefile.specs.Records.{record_with};
ghost use Rattle.zone_program.specs.{Lines.{has_line, is_of_signer, zone_line}, Sink.TakesZoneLine};

use crate::places::ZoneLines;
use domain_base::{Class, ParsedName, Rtype, ToName, Ttl};
use domain_includes::RecordSink;
use domain_octets::OutOfMemory;
use domain_plain::UnknownRecordData;
use domain_record::Record;
use domain_zonefile::{Place, RecordFields};
use std::alloc::Global;

/// Returns whether a signer adds records of a type.
fn is_of_signer(rtype: Rtype) -> bool
    ensures { result ≡ is_of_signer rtype }
{
    rtype == Rtype::RRSIG
        || rtype == Rtype::NSEC
        || rtype == Rtype::NSEC3
        || rtype == Rtype::NSEC3PARAM
}

/// Returns whether a record of a type has a line.
fn has_line(is_unsigned: bool, rtype: Rtype) -> bool
    ensures { result ≡ has_line is_unsigned rtype }
{
    !(is_unsigned && is_of_signer(rtype))
}

/// Appends the line of a record.
fn put_line(
    text: &mut String,
    owner: &ParsedName<'_>,
    fields: RecordFields,
    octets: &[u8],
) -> Result<(), OutOfMemory>
    requires { length octets.now ≤ 65535 }
    ensures { OnOk result (string_bytes text.new ≡ string_bytes text.old
        ++ zone_line (record_with owner.now fields octets.now)) }
{
    let Ok(data) = UnknownRecordData::from_octets(fields.rtype, octets) else {
        unreachable!();
    };
    let (class, ttl) = (Class::from_int(fields.class), Ttl::from_secs(fields.ttl));
    Ok(text.writeln(Record::new(owner.as_parsed(), class, ttl, data))?)
}

/// Makes lines of records.
#[derive(Drop)]
pub(crate) struct LineSink {
    alloc: Global,
    is_unsigned: bool,
    lines: ZoneLines,
}

impl LineSink {
    /// Returns a sink that has no lines.
    pub(crate) fn new(alloc: Global, is_unsigned: bool) -> Self
        ensures unsigned { result.is_unsigned ≡ is_unsigned }
        ensures text { string_bytes result.lines.text ≡ [] }
        ensures places { result.lines.places.items ≡ [] }
    {
        LineSink {
            alloc,
            is_unsigned,
            lines: ZoneLines::new(alloc),
        }
    }

    /// Returns the lines.
    pub(crate) fn into_lines(self) -> ZoneLines
        ensures { result ≡ self.lines }
    {
        self.lines
    }
}

impl RecordSink for LineSink {
    ghost takes = { TakesZoneLine };

    fn take(
        &mut self,
        path: &[u8],
        place: Place,
        owner: &ParsedName<'_>,
        fields: RecordFields,
        octets: &[u8],
    ) -> Result<(), OutOfMemory> {
        if !has_line(self.is_unsigned, fields.rtype) {
            return Ok(());
        }
        put_line(&mut self.lines.text, owner, fields, octets)?;
        self.lines.put_place(self.alloc, path, place.line)?;
        Ok(())
    }
}
