//! Patterns with a value in place of their dollars, and the faults of patterns.
ghost use Rattle.std.specs.Prelude.{◌≡◌, ◌++◌, OnOk};
ghost use Rattle.domain_generate.specs.Ranges.{IsRange, last_value};
ghost use Rattle.domain_generate.specs.Patterns.{pattern_parts, part_text, substituted, offset_fault, part_fault, pattern_fault};

use crate::cut::LARGEST_NUMBER;
use crate::fault::GenerateFaultKind;
use crate::number::push_value;
use crate::pattern::{Offset, Part, part_len, pattern_part};
use domain_octets::OutOfMemory;

/// Appends an escape. In a token that was quoted, an escaped quote becomes a quote.
fn push_escape(line: &mut Vec<u8>, is_quoted: bool, octet: u8) -> Result<(), OutOfMemory>
    ensures { OnOk result (line.new.items ≡ line.old.items
        ++ part_text is_quoted 0 (Part.Escape octet)) }
{
    if is_quoted & (octet == b'"') {
        return Ok(line.push(octet)?);
    }
    Ok(line.extend_from_slice(&[b'\\', octet])?)
}

/// Appends the text of a part for a value.
fn push_part(line: &mut Vec<u8>, is_quoted: bool, value: u32, part: Part) -> Result<(), OutOfMemory>
    ensures { OnOk result (line.new.items ≡ line.old.items ++ part_text is_quoted value part) }
{
    match part {
        Part::Octet(octet) => Ok(line.push(octet)?),
        Part::Escape(octet) => push_escape(line, is_quoted, octet),
        Part::Dollar => Ok(line.extend_from_slice(b"\\$")?),
        Part::Value(format, _) => push_value(line, format, value),
        Part::Malformed => Ok(line.push(b'$')?),
    }
}

/// Appends a pattern with a value in place of its dollars. Of one that was quoted, escaped quotes
/// become quotes.
pub(crate) fn push_substituted(
    line: &mut Vec<u8>,
    is_quoted: bool,
    value: u32,
    pattern: &[u8],
) -> Result<(), OutOfMemory>
    ensures { OnOk result (line.new.items ≡ line.old.items
        ++ substituted is_quoted value pattern.now) }
{
    let mut at = 0;
    'parts: while at < pattern.len() {
        let part = pattern_part(pattern[at], &pattern[at + 1..]);
        push_part(line, is_quoted, value, part)?;
        at += part_len(part);
    }
    Ok(())
}

/// Returns the fault of an offset, if a number is negative or too large with it.
fn offset_fault(first: u32, last: u32, offset: Offset) -> Option<GenerateFaultKind>
    ensures { result ≡ offset_fault first last offset }
{
    match offset {
        Offset::Minus(number) if first < number => Some(GenerateFaultKind::NegativeNumber),
        Offset::Plus(number) if u64::from(last) + u64::from(number) > u64::from(LARGEST_NUMBER) => {
            Some(GenerateFaultKind::LargeNumber)
        }
        _ => None,
    }
}

/// Returns the fault of a part.
fn part_fault(first: u32, last: u32, part: Part) -> Option<GenerateFaultKind>
    ensures { result ≡ part_fault first last part }
{
    match part {
        Part::Value(format, _) => offset_fault(first, last, format.offset),
        Part::Malformed => Some(GenerateFaultKind::NotFormat),
        _ => None,
    }
}

/// Returns the first fault of a pattern, for values from the first to the last.
pub(crate) fn pattern_fault(first: u32, last: u32, pattern: &[u8]) -> Option<GenerateFaultKind>
    ensures { result ≡ pattern_fault first last (pattern_parts pattern.now) }
{
    let mut at = 0;
    'parts: while at < pattern.len() {
        let part = pattern_part(pattern[at], &pattern[at + 1..]);
        match part_fault(first, last, part) {
            Some(kind) => return Some(kind),
            None => at += part_len(part),
        }
    }
    None
}
