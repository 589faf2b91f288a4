//! Reads records from a message, and from a line.
ghost use Rattle.std.specs.Prelude.{IfOk};
ghost use Rattle.domain_dnssec.specs.{Entry.EntryLineText, Record.RecordAt};

use domain_dnssec::{Error, LineError, MessageError, OwnedRecord, read_record, scan_record};
use std::alloc::Global;
use std::fmt::Write;

/// An answer about F.ISI.ARPA with three records from offset 28 on. As in RFC 1035, section 4.1.4,
/// FOO.F.ISI.ARPA is a label and a pointer, ARPA a pointer, and the root itself.
const MESSAGE: [u8; 96] = [
    0, 1, 132, 0, 0, 1, 0, 3, 0, 0, 0, 0, 1, 70, 3, 73, 83, 73, 4, 65, 82, 80, 65, 0, 0, 255, 0, 1,
    3, 70, 79, 79, 192, 12, 0, 15, 0, 1, 0, 0, 14, 16, 0, 4, 0, 10, 192, 12, 192, 18, 0, 6, 0, 1,
    0, 0, 3, 132, 0, 23, 192, 28, 0, 0, 0, 0, 1, 0, 0, 0, 2, 0, 0, 0, 3, 0, 0, 0, 4, 0, 0, 0, 5, 0,
    0, 2, 0, 1, 0, 0, 0, 0, 0, 2, 192, 12,
];

/// After two octets a pointer to itself, a pointer forward, and a pointer back to that one.
const POINTERS: [[u8; 6]; 3] = [
    [0, 0, 192, 2, 0, 0],
    [0, 0, 192, 4, 0, 0],
    [192, 2, 192, 0, 0, 0],
];

/// Lines, the second of which is a comment and the third too short.
const LINES: [&str; 3] = [
    "foo.f.isi.arpa.  3600 IN MX   10 F.ISI.ARPA",
    "; no record",
    "foo.f.isi.arpa. 3600 IN MX 10",
];

/// Returns the record at an offset of a message, and the offset after it.
fn read(alloc: Global, message: &[u8], at: usize) -> Result<(OwnedRecord, usize), MessageError>
    ensures ok { IfOk result (λ r. RecordAt (λ o. o.items) (λ n. n) message.now at r.0 r.1) }
{
    read_record(alloc, message, at)
}

/// Returns the record that a line spells.
fn scan(alloc: Global, line: &str) -> Result<OwnedRecord, LineError>
    ensures ok { IfOk result (EntryLineText (λ o. o.items) (λ n. n) line.now) }
{
    scan_record(alloc, line)
}

/// Prints the records of the message, one after another.
fn show_records(alloc: Global, text: &mut String) -> Result<(), Error> {
    let mut at = 28;
    for _ in 0..3 {
        match read(alloc, &MESSAGE, at) {
            Ok((record, end)) => {
                writeln!(text, "{record}")?;
                at = end;
            }
            Err(error) => writeln!(text, "{error}")?,
        }
    }
    Ok(())
}

/// Prints how many prefixes of the message do not hold its first record.
fn show_beginnings(alloc: Global, text: &mut String) -> Result<(), Error> {
    let mut short: usize = 0;
    for len in 0..MESSAGE.len() {
        if read(alloc, &MESSAGE[..len], 28).is_err() {
            short = short.saturating_add(1);
        }
    }
    writeln!(text, "too short: {short} of {}", MESSAGE.len())?;
    Ok(())
}

/// Prints the record that a line spells, or why it spells none.
fn show_line(alloc: Global, line: &str, text: &mut String) -> Result<(), Error> {
    match scan(alloc, line) {
        Ok(record) => writeln!(text, "{record}")?,
        Err(error) => writeln!(text, "{error}")?,
    }
    Ok(())
}

/// Prints the records of the message, how many of its prefixes are too short for the first record,
/// why pointers are rejected, and what lines spell.
pub fn show(alloc: Global, text: &mut String) -> Result<(), Error> {
    show_records(alloc, text)?;
    show_beginnings(alloc, text)?;
    for octets in &POINTERS {
        match read(alloc, octets, 2) {
            Ok((record, _)) => writeln!(text, "{record}")?,
            Err(error) => writeln!(text, "{error}")?,
        }
    }
    for line in LINES {
        show_line(alloc, line, text)?;
    }
    Ok(())
}
