//! Worked values of zone files and of the data of all types. The input is one zone file. For each
//! entry the program prints its place, its owner, TTL and class as they are given, its type, and
//! its data in Base 16, with their canonical form where that differs; or why the entry is none.
#![tactic(auto)]

mod data;

use domain_octets::OutOfMemory;
use domain_types::{mnemonic, rtype_of};
use domain_zonefile::{EntryReader, Found, Place, Prefix, SyntaxFault, Token, read_prefix};
use std::alloc::Global;
use std::fmt::Write;
use std::io;

/// Appends the octets of a token as text.
fn show_octets(text: &mut String, octets: &[u8]) -> Result<(), OutOfMemory> {
    Ok(text.push_str(str::from_utf8(octets).unwrap_or("?"))?)
}

/// Appends the TTL and the class, where they are given.
fn show_prefix(text: &mut String, prefix: &Prefix) -> Result<(), OutOfMemory> {
    if let Some(ttl) = prefix.ttl {
        write!(text, " {ttl}")?;
    }
    if let Some(class) = prefix.class {
        write!(text, " CLASS{class}")?;
    }
    Ok(())
}

/// Appends the type and the data of an entry, or why they are none.
fn show_typed(alloc: Global, text: &mut String, tokens: &[Token<'_>]) -> Result<(), OutOfMemory> {
    let Some((first, data)) = tokens.split_first() else {
        return Ok(text.push_str(" no type")?);
    };
    let Some(rtype) = rtype_of(first.octets) else {
        text.push_str(" no type: ")?;
        return show_octets(text, first.octets);
    };
    match mnemonic(rtype) {
        Some(name) => write!(text, " {name}")?,
        None => write!(text, " TYPE{}", rtype.to_int())?,
    }
    data::show(alloc, text, rtype, data)
}

/// Appends an entry: its owner, unless it is indented, and its fields.
fn show_entry(
    alloc: Global,
    text: &mut String,
    is_indented: bool,
    tokens: &[Token<'_>],
) -> Result<(), OutOfMemory> {
    let owners = if is_indented { 0 } else { 1 };
    let rest = tokens.get(owners..).unwrap_or(&[]);
    if let (false, Some(owner)) = (is_indented, tokens.first()) {
        text.push_str(" ")?;
        show_octets(text, owner.octets)?;
    }
    match read_prefix(rest) {
        Ok(prefix) => {
            show_prefix(text, &prefix)?;
            show_typed(alloc, text, rest.get(prefix.count..).unwrap_or(&[]))
        }
        Err(large) => Ok(write!(text, " {large}, token {}", large.token)?),
    }
}

/// Appends a place and a colon.
fn show_place(text: &mut String, place: Place) -> Result<(), OutOfMemory> {
    write!(text, "{}:{}:", place.line, place.column)?;
    Ok(())
}

/// Appends the entry that was read last.
fn show_read(
    alloc: Global,
    text: &mut String,
    reader: &mut EntryReader<'_>,
    is_indented: bool,
) -> Result<(), OutOfMemory> {
    let at = reader.places().first().copied().unwrap_or(0);
    show_place(text, reader.place_of(at))?;
    show_entry(alloc, text, is_indented, reader.tokens())
}

/// Appends a fault with its place.
fn show_fault(
    text: &mut String,
    reader: &mut EntryReader<'_>,
    fault: SyntaxFault,
) -> Result<(), OutOfMemory> {
    show_place(text, reader.place_of(fault.at))?;
    write!(text, " {}", fault.error)?;
    Ok(())
}

/// Appends a line for what was found.
fn show_found(
    alloc: Global,
    text: &mut String,
    reader: &mut EntryReader<'_>,
    found: Found,
) -> Result<(), OutOfMemory> {
    match found {
        Found::Entry(is_indented) => show_read(alloc, text, reader, is_indented)?,
        Found::Fault(fault) => show_fault(text, reader, fault)?,
    }
    Ok(text.push_str("\n")?)
}

/// Returns what is read from a zone file, one line for each entry and each fault.
fn report(alloc: Global, file: &[u8]) -> Result<String, OutOfMemory> {
    let mut text = String::new(alloc);
    let mut reader = EntryReader::new(alloc, file);
    for _ in 0..=file.len() {
        let Some(found) = reader.next_entry()? else {
            break;
        };
        show_found(alloc, &mut text, &mut reader, found)?;
    }
    Ok(text)
}

fn main(rt: HostRuntime) -> io::Result<()> {
    let input = io::read_to_string(rt.alloc(), rt.reader())?;
    match report(rt.alloc(), input.as_bytes()) {
        Ok(text) => print!(rt; "{text}"),
        Err(_) => Err(io::Error::from(io::ErrorKind::OutOfMemory)),
    }
}
