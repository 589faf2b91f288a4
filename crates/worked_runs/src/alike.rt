//! Names with the same hash: those that `denial lint` reports, and the first two, as they are
//! reported to C.
use crate::outcome::{show, text_of};
use denial_program::sort_zone;
use domain_alike::{first_alike, write_lowered};
use domain_base::{IterScanner, Name, ParsedName, Scanner, ToName};
use domain_borrowed::{BorrowedRecord, read_record};
use domain_codecs::Codec;
use domain_hasher::Nsec3Hasher;
use domain_nsec3::GenerateNsec3Config;
use domain_octets::Parser;
use domain_records::InPlaceSorter;
use lint_program::run_lint;
use std::alloc::Global;
use std::io;
use std::io::ErrorKind;

/// Prints what `denial lint` says about a text, and how it ends.
pub fn lint<H: Nsec3Hasher>(
    rt: &HostRuntime,
    hasher: &H,
    words: &[String],
    text: &str,
) -> io::Result<()> {
    let mut output = Vec::new(rt.alloc());
    match run_lint(rt.alloc(), words, hasher, &mut text.as_bytes(), &mut output) {
        Ok(outcome) => {
            show(rt, text_of(output)?.as_str())?;
            println!(rt; "  {outcome:?}")
        }
        Err(fault) => println!(rt; "  {fault}"),
    }
}

/// Returns the octets that a text spells in Base 16.
fn octets_of(alloc: Global, text: &str) -> io::Result<Vec<u8>> {
    let words: Vec<&str> = text.split_whitespace().collect(alloc)?;
    let mut scanner = IterScanner::<Vec<u8>>::new(words.as_slice());
    match scanner.convert_entry(alloc, Codec::Base16) {
        Ok(octets) => Ok(octets),
        Err(_) => Err(io::Error::from(ErrorKind::InvalidInput)),
    }
}

/// Returns the records that octets encode as in a message, one after another.
fn records_in(alloc: Global, octets: &[u8]) -> io::Result<Vec<BorrowedRecord<'_>>> {
    let mut parser = Parser::new(octets);
    let mut records = Vec::new(alloc);
    for _place in octets {
        match read_record(&mut parser) {
            Some(record) => records.push(record)?,
            None => return Ok(records),
        }
    }
    Ok(records)
}

/// Returns whether `wanted` is among the words.
fn has(words: &[String], wanted: &str) -> bool {
    words.iter().any(|word| word.as_str() == wanted)
}

/// Returns the configuration of a chain, with opt-out and without names below a DNAME if the words
/// ask for these.
fn config_of(alloc: Global, words: &[String]) -> GenerateNsec3Config<Vec<u8>, InPlaceSorter> {
    let mut config = GenerateNsec3Config::default(alloc);
    config.occlude_below_dname = has(words, "below-dname");
    if has(words, "optout") {
        config.params.set_opt_out_flag();
    }
    config
}

/// Prints a name in the form that is hashed, with the octet after it in the buffer.
fn show_name(rt: &HostRuntime, label: &str, name: &ParsedName<'_>) -> io::Result<()> {
    let mut buffer = [0xee; 255];
    write_lowered(name, &mut buffer);
    print!(rt; "  {label}: ")?;
    for octet in buffer.iter().take(name.as_wire().len().saturating_add(1)) {
        print!(rt; "{octet:02x}")?;
    }
    println!(rt; "")
}

/// Prints the first two names of the chain at `A.` that have the same hash, the earlier one first.
/// The text spells the octets of the records.
pub fn first<H: Nsec3Hasher>(
    rt: &HostRuntime,
    hasher: &H,
    words: &[String],
    text: &str,
) -> io::Result<()> {
    let alloc = rt.alloc();
    let octets = octets_of(alloc, text)?;
    let records = records_in(alloc, octets.as_slice())?;
    let config = config_of(alloc, words);
    let (Ok(sorted), Ok(apex)) = (sort_zone(records), ParsedName::from_slice(b"\x01A\0")) else {
        return Err(io::Error::from(ErrorKind::InvalidInput));
    };
    match first_alike(alloc, &apex, &sorted, &config, hasher) {
        Ok(Some(alike)) => {
            show_name(rt, "first", &alike.first)?;
            show_name(rt, "later", &alike.later)
        }
        Ok(None) => println!(rt; "  none"),
        Err(_) => println!(rt; "  refused"),
    }
}
