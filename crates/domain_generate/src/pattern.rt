//! The owner and the data of `$GENERATE`: texts with numbers in them.
ghost use Rattle.std.specs.Prelude.{◌≡◌, ◌≤◌, ◌<◌, ◌+◌, ◌^◌, length, option_copied};
ghost use Rattle.domain_generate.specs.Patterns.{base_of_letter, base_of, offset_of, width_of, format_of, with_width, with_base, plain_format};
ghost use Rattle.domain_generate.specs.Patterns.{escape_part, dollar_part, braced_part, named_number, pattern_part, part_len};

use crate::cut::{cut, len_before, read_number};

/// The greatest width of a number, as in BIND.
const MAX_WIDTH: u32 = 127;

/// What is added to a value.
#[derive(Clone, Copy, Debug, PartialEq, Eq)]
pub enum Offset {
    /// This number is added.
    Plus(u32),
    /// This number is subtracted.
    Minus(u32),
}

/// How the digits of a number are written.
#[derive(Clone, Copy, Debug, PartialEq, Eq)]
pub enum NumberBase {
    /// `d`: decimal digits.
    Decimal,
    /// `o`: octal digits.
    Octal,
    /// `x`: hexadecimal digits in lower case.
    Hex,
    /// `X`: hexadecimal digits in upper case.
    UpperHex,
    /// `n`: hexadecimal digits in lower case, the last one first, with dots between them.
    Nibbles,
    /// `N`: the same in upper case.
    UpperNibbles,
}

/// How a value is written: `${OFFSET,WIDTH,BASE}`.
#[derive(Clone, Copy, Debug, PartialEq, Eq)]
pub struct NumberFormat {
    /// What is added to the value.
    pub offset: Offset,
    /// The least number of octets.
    pub width: u32,
    /// The digits.
    pub base: NumberBase,
}

/// A part of a pattern.
#[derive(Clone, Copy, Debug, PartialEq, Eq)]
pub enum Part {
    /// An octet that stays.
    Octet(u8),
    /// A backslash and the octet that it takes.
    Escape(u8),
    /// `$$`: a dollar.
    Dollar,
    /// A value is written here. It is this many octets of the pattern.
    Value(NumberFormat, usize),
    /// `${` begins no format.
    Malformed,
}

/// Returns the format of a bare `$`: decimal digits.
fn plain_format() -> NumberFormat
    ensures { result ≡ plain_format }
{
    NumberFormat {
        offset: Offset::Plus(0),
        width: 0,
        base: NumberBase::Decimal,
    }
}

/// Returns the base of a letter.
fn base_of_letter(letter: u8) -> Option<NumberBase>
    ensures { result ≡ base_of_letter letter }
{
    match letter {
        b'd' => Some(NumberBase::Decimal),
        b'o' => Some(NumberBase::Octal),
        b'x' => Some(NumberBase::Hex),
        b'X' => Some(NumberBase::UpperHex),
        b'n' => Some(NumberBase::Nibbles),
        b'N' => Some(NumberBase::UpperNibbles),
        _ => None,
    }
}

/// Returns the base that a text names, and decimal digits if it is left out.
fn base_of(text: Option<&[u8]>) -> Option<NumberBase>
    ensures { result ≡ base_of (option_copied text.entry) }
{
    match text {
        Some([letter]) => base_of_letter(*letter),
        Some(_) => None,
        None => Some(NumberBase::Decimal),
    }
}

/// Returns the offset that a text spells: a number with or without a sign.
fn offset_of(text: &[u8]) -> Option<Offset>
    ensures { result ≡ offset_of text.now }
{
    match text {
        [b'-', digits @ ..] => Some(Offset::Minus(read_number(digits)?)),
        [b'+', digits @ ..] => Some(Offset::Plus(read_number(digits)?)),
        digits => Some(Offset::Plus(read_number(digits)?)),
    }
}

/// Returns the width that a text spells.
fn width_of(text: &[u8]) -> Option<u32>
    ensures { result ≡ width_of text.now }
{
    let width = read_number(text)?;
    if width > MAX_WIDTH {
        return None;
    }
    Some(width)
}

/// Returns the format with this width, and the base that a text names.
fn with_base(offset: Offset, width: u32, base: Option<&[u8]>) -> Option<NumberFormat>
    ensures { result ≡ with_base offset width (option_copied base.entry) }
{
    let base = base_of(base)?;
    Some(NumberFormat {
        offset,
        width,
        base,
    })
}

/// Returns the format with this offset, and the width and base that a text spells.
fn with_width(offset: Offset, text: Option<&[u8]>) -> Option<NumberFormat>
    ensures { result ≡ with_width offset (option_copied text.entry) }
{
    match text {
        Some(text) => {
            let (width, base) = cut(text, b',');
            with_base(offset, width_of(width)?, base)
        }
        None => with_base(offset, 0, None),
    }
}

/// Returns the format that the text between braces spells.
fn format_of(text: &[u8]) -> Option<NumberFormat>
    ensures { result ≡ format_of text.now }
{
    let (offset, rest) = cut(text, b',');
    with_width(offset_of(offset)?, rest)
}

/// Returns the part of a format of so many octets, or of none.
fn named_number(format: Option<NumberFormat>, len: usize) -> Part
    ensures { result ≡ named_number format len }
{
    match format {
        Some(format) => Part::Value(format, len),
        None => Part::Malformed,
    }
}

/// Returns the part that `${` begins. `text` holds the octets behind it.
fn braced_part(text: &[u8]) -> Part
    requires { length text.now + 3 < 2 ^ 64 }
    ensures value { result ≡ braced_part text.now }
    ensures within { part_len result ≤ length text.now + 2 }
    ensures some { 1 ≤ part_len result }
{
    let len = len_before(text, b'}');
    if len < text.len() {
        return named_number(format_of(&text[..len]), len + 3);
    }
    Part::Malformed
}

/// Returns the part that a dollar begins. `text` holds the octets behind it.
fn dollar_part(text: &[u8]) -> Part
    ensures value { result ≡ dollar_part text.now }
    ensures within { part_len result ≤ length text.now + 1 }
    ensures some { 1 ≤ part_len result }
{
    match text {
        [b'$', ..] => Part::Dollar,
        [b'{', rest @ ..] => braced_part(rest),
        _ => Part::Value(plain_format(), 1),
    }
}

/// Returns the part that a backslash begins. `text` holds the octets behind it.
fn escape_part(text: &[u8]) -> Part
    ensures { result ≡ escape_part text.now }
{
    match text {
        [octet, ..] => Part::Escape(*octet),
        [] => Part::Octet(b'\\'),
    }
}

/// Returns the part that an octet begins. `text` holds the octets behind it.
pub(crate) fn pattern_part(octet: u8, text: &[u8]) -> Part
    ensures value { result ≡ pattern_part octet text.now }
    ensures within { part_len result ≤ length text.now + 1 }
    ensures some { 1 ≤ part_len result }
{
    match octet {
        b'$' => dollar_part(text),
        b'\\' => escape_part(text),
        _ => Part::Octet(octet),
    }
}

/// Returns the number of octets of a part in its pattern.
pub(crate) fn part_len(part: Part) -> usize
    ensures { result ≡ part_len part }
{
    match part {
        Part::Octet(_) | Part::Malformed => 1,
        Part::Escape(_) | Part::Dollar => 2,
        Part::Value(_, len) => len,
    }
}
