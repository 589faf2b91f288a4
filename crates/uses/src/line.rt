//! Reads a record from the words of a line, and prints it.
ghost use Rattle.std.specs.Prelude.{◌≡◌};

use crate::zone::{Data, OwnedRecord, ZoneName};
use domain_dnssec::{Class, Error, FromToken, IterScanner, Record, Rtype, Scanner, Ttl};
use std::alloc::Global;
use std::fmt::Write;

/// The words of a record of a type without a presentation format of its own here.
const UNKNOWN: [&str; 7] = ["example.", "3600", "IN", "TYPE65400", "\\#", "2", "abcd"];

/// The words of an NSEC record.
const NSEC: [&str; 7] = ["example.", "300", "IN", "NSEC", "b.example.", "NS", "SOA"];

/// Returns the value that the next token spells.
fn field<F: FromToken, S: Scanner>(scanner: &mut S) -> Result<F, Error> {
    match F::scan(scanner) {
        Ok(value) => Ok(value),
        Err(error) => Err(Error::from(error)),
    }
}

/// Returns the record that tokens spell: owner, TTL, class, type and data.
fn scan<S: Scanner<Name = ZoneName, Octets = Vec<u8>>>(
    alloc: Global,
    scanner: &mut S,
) -> Result<OwnedRecord, Error> {
    let owner = scanner.scan_name(alloc)?;
    let ttl = field::<Ttl, S>(scanner)?;
    let class = field::<Class, S>(scanner)?;
    let rtype = field::<Rtype, S>(scanner)?;
    let data = Data::scan_rdata(alloc, rtype, scanner)?;
    Ok(Record::new(owner, class, ttl, data))
}

/// Returns the record that the words of a line spell.
fn read<'a>(alloc: Global, words: &'a [&'a str]) -> Result<OwnedRecord, Error> {
    let mut scanner = IterScanner::<Vec<u8>>::new(words);
    scan(alloc, &mut scanner)
}

/// Returns the record with a TTL of at most `most`.
fn limited(given: OwnedRecord, most: Ttl) -> OwnedRecord
    ensures { result ≡ record {
      owner = given.owner;
      class = given.class;
      ttl = result.ttl;
      «data» = given.«data»;
    } }
{
    let mut limited = given;
    let ttl = limited.ttl().min(most);
    limited.set_ttl(ttl);
    limited
}

/// Prints two records as lines.
pub fn show(alloc: Global, text: &mut String) -> Result<(), Error> {
    for words in [&UNKNOWN, &NSEC] {
        let record = limited(read(alloc, words)?, Ttl::from_mins(30));
        writeln!(text, "{record}")?;
    }
    Ok(())
}
