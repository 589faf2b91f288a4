//! Numbers as text, in the bases of `$GENERATE`.
ghost use Rattle.std.specs.Prelude.{◌≡◌, ◌≤◌, ◌<◌, ◌++◌, drop, length, max, ◌*◌, ◌-◌, OnOk, true, false, Bool, ℕ};
ghost use Rattle.std.specs.Fmt.{digit_glyph, digits};
ghost use Rattle.domain_generate.specs.Patterns.{based_text, nibbles_text, value_text, shifted, zero_padded};

use crate::pattern::{NumberBase, NumberFormat, Offset};
use domain_octets::OutOfMemory;

/// Returns a digit, or a letter for 10 and above.
fn digit_glyph(digit: u64, upper: bool) -> u8
    requires { digit < 16 }
    ensures { result ≡ digit_glyph upper digit }
{
    let digit = digit as u8;
    if digit < 10 {
        return b'0' + digit;
    }
    if upper {
        return b'A' - 10 + digit;
    }
    b'a' - 10 + digit
}

/// Writes the digits of a number to the end of `out`, and returns where they begin.
fn write_digits(number: u64, base: u64, upper: bool, out: &mut [u8; 64]) -> usize
    requires low { 2 ≤ base }
    requires high { base ≤ 16 }
    ensures within { result < 64 }
    ensures value { drop result out.new ≡ digits base upper number }
{
    let mut at = 64;
    let mut rest = number;
    'digits: while at > 0 {
        at -= 1;
        out[at] = digit_glyph(rest % base, upper);
        rest /= base;
        if rest == 0 {
            break 'digits;
        }
    }
    at
}

/// Appends digits, with zeros before them up to a width.
fn push_padded(line: &mut Vec<u8>, width: u32, digits: &[u8]) -> Result<(), OutOfMemory>
    ensures { OnOk result (line.new.items ≡ line.old.items ++ zero_padded width digits.now) }
{
    let missing = (width as usize).saturating_sub(digits.len());
    'zeros: for _ in 0..missing {
        line.push(b'0')?;
    }
    Ok(line.extend_from_slice(digits)?)
}

/// Appends a number in a base, with zeros before it up to a width.
fn push_digits(
    line: &mut Vec<u8>,
    base: u64,
    upper: bool,
    width: u32,
    number: u64,
) -> Result<(), OutOfMemory>
    requires low { 2 ≤ base }
    requires high { base ≤ 16 }
    ensures { OnOk result (line.new.items ≡ line.old.items
        ++ zero_padded width (digits base upper number)) }
{
    let mut out = [0u8; 64];
    let at = write_digits(number, base, upper, &mut out);
    push_padded(line, width, &out[at..])
}

/// Returns the number of octets of a number's nibbles with dots between them.
fn nibbles_len(number: u64) -> usize
    ensures { result ≡ 2 * length (digits 16 false number) - 1 }
{
    let mut out = [0u8; 64];
    let at = write_digits(number, 16, false, &mut out);
    2 * (64 - at) - 1
}

/// Appends nibbles with dots between them, the last nibble first: this many octets.
#[tactic(auto, using(crate::proofs::NumberLemmas::nibble_steps))]
fn push_nibbles(line: &mut Vec<u8>, upper: bool, len: usize, number: u64) -> Result<(), OutOfMemory>
    ensures { OnOk result (line.new.items ≡ line.old.items
        ++ nibbles_text false upper len number) }
{
    let mut rest = number;
    let mut is_dot = false;
    'nibbles: for _ in 0..len {
        if is_dot {
            line.push(b'.')?;
        } else {
            line.push(digit_glyph(rest % 16, upper))?;
            rest /= 16;
        }
        is_dot = !is_dot;
    }
    Ok(())
}

/// Appends a number in a base.
fn push_based(line: &mut Vec<u8>, format: NumberFormat, number: u64) -> Result<(), OutOfMemory>
    ensures { OnOk result (line.new.items ≡ line.old.items
        ++ based_text format.base format.width number) }
{
    let width = format.width;
    match format.base {
        NumberBase::Decimal => push_digits(line, 10, false, width, number),
        NumberBase::Octal => push_digits(line, 8, false, width, number),
        NumberBase::Hex => push_digits(line, 16, false, width, number),
        NumberBase::UpperHex => push_digits(line, 16, true, width, number),
        NumberBase::Nibbles => {
            push_nibbles(line, false, nibbles_len(number).max(width as usize), number)
        }
        NumberBase::UpperNibbles => {
            push_nibbles(line, true, nibbles_len(number).max(width as usize), number)
        }
    }
}

/// Returns the number that is written for a value.
fn shifted(offset: Offset, value: u32) -> u64
    ensures { result ≡ shifted offset value }
{
    match offset {
        Offset::Plus(number) => u64::from(value) + u64::from(number),
        Offset::Minus(number) => u64::from(value).saturating_sub(u64::from(number)),
    }
}

/// Appends the number that a format gives for a value.
pub(crate) fn push_value(
    line: &mut Vec<u8>,
    format: NumberFormat,
    value: u32,
) -> Result<(), OutOfMemory>
    ensures { OnOk result (line.new.items ≡ line.old.items ++ value_text format value) }
{
    push_based(line, format, shifted(format.offset, value))
}

/// Appends a number in decimal digits.
pub(crate) fn push_decimal(line: &mut Vec<u8>, number: u32) -> Result<(), OutOfMemory>
    ensures { OnOk result (line.new.items ≡ line.old.items ++ digits 10 false number) }
{
    push_digits(line, 10, false, 0, u64::from(number))
}
