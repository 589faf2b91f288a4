//! The data of an entry.
use domain_base::{ParsedName, Rtype};
use domain_octets::OutOfMemory;
use domain_types::{is_data, put_canonical, read_data};
use domain_zonefile::Token;
use std::alloc::Global;
use std::fmt::Write;

/// The wire form of the origin, `example.`.
const ORIGIN: &[u8] = b"\x07example\x00";

/// Appends octets in Base 16.
fn show_octets(text: &mut String, octets: &[u8]) -> Result<(), OutOfMemory> {
    for octet in octets {
        write!(text, "{octet:02x}")?;
    }
    Ok(())
}

/// Appends the data that tokens spell in Base 16, and their canonical form where it differs; or the
/// fault, with the place of its token.
pub fn show(
    alloc: Global,
    text: &mut String,
    rtype: Rtype,
    tokens: &[Token<'_>],
) -> Result<(), OutOfMemory> {
    let Ok(origin) = ParsedName::from_slice(ORIGIN) else {
        return Ok(text.push_str(" no origin")?);
    };
    let mut data = Vec::new(alloc);
    if let Err(fault) = read_data(alloc, rtype, tokens, &origin, &mut data) {
        write!(
            text,
            " fault at data token {}: {:?}",
            fault.token, fault.kind
        )?;
        return Ok(());
    }
    text.push_str(" ")?;
    show_octets(text, &data)?;
    if !is_data(rtype, &data) {
        text.push_str(" is no data of the type")?;
    }
    let mut canonical = Vec::new(alloc);
    put_canonical(rtype, &data, &mut canonical)?;
    if canonical.as_slice() != data.as_slice() {
        text.push_str(" / ")?;
        show_octets(text, &canonical)?;
    }
    Ok(())
}
