//! Base 32 with the extended hex alphabet, without padding (RFC 4648, section 7).
ghost use Rattle.std.specs.Prelude.{◌≡◌, ◌+◌, ◌*◌, ◌/◌, ◌<◌, ◌≤◌, ◌∷◌, ◌++◌, [], map, length, slice_index, take, drop, IfOk, IfErr, IfSome, IfNone, IsErrOf, ◌↔◌, string_bytes, unwrap_or};
ghost use Rattle.std.specs.Fmt.{WritesOnOk};
ghost use Rattle.domain_codecs.specs.Base32.{AreDigits, eight_digits, base32_from, base32_upper, base32_lower, upper_digit, lower_digit};
ghost use Rattle.domain_codecs.specs.declared.codec.Codec.TheVariants as codec;
ghost use Rattle.domain_codecs.specs.Codec.{base32_value, Decodes, DecodeFault, HasNoRoom};
ghost use Rattle.domain_octets.specs.Octets.{Octets};

use crate::joined::put;
use crate::{Codec, DecodeError};
use domain_octets::{EmptyBuilder, FromBuilder, OutOfMemory};
use std::alloc::Global;
use std::fmt;
use std::marker::Model;

/// Decodes digits in either case. Ignores bits after the last whole octet.
///
/// # Errors
///
/// `IllegalChar` with the first character that is not a digit, padding included, or else
/// `ShortInput` if no octets have this number of digits.
pub fn decode_hex<O: FromBuilder>(alloc: Global, text: &str) -> Result<O, DecodeError>
where
    O::Builder: EmptyBuilder + Drop,
    ensures ok { IfOk result (λ octets. Decodes codec.Base32Hex text.now (O.octets octets)) }
    ensures err { IfErr result (DecodeFault codec.Base32Hex O.Builder.limit text.now) }
    ensures room { IsErrOf result DecodeError.ShortBuf
        ↔ HasNoRoom codec.Base32Hex O.Builder.limit text.now }
{
    Codec::Base32Hex.decode(alloc, text)
}

/// Returns the value of a digit in either case, or None for any other character.
pub fn digit_value(c: u8) -> Option<u8>
    ensures value { result ≡ base32_value c }
    ensures small { IfSome result (λ digit. digit < 32) }
{
    if c >= b'0' && c <= b'9' {
        Some(c - b'0')
    } else if c >= b'A' && c <= b'V' {
        Some(c - b'A' + 10)
    } else if c >= b'a' && c <= b'v' {
        Some(c - b'a' + 10)
    } else {
        None
    }
}

/// Returns the value of a digit in either case, or 0 for any other character.
pub fn digit_or_zero(c: u8) -> u32
    ensures value { result ≡ unwrap_or (base32_value c) 0 }
    ensures small { result < 32 }
{
    match digit_value(c) {
        Some(digit) => u32::from(digit),
        None => 0,
    }
}

/// The digits in lower case.
const LOWER: &[u8; 32] = b"0123456789abcdefghijklmnopqrstuv";

/// The digits in upper case.
const UPPER: &[u8; 32] = b"0123456789ABCDEFGHIJKLMNOPQRSTUV";

/// Returns five octets as one number in big-endian order.
fn number_of(five: &[u8; 5]) -> u64
    ensures { eight_digits result ≡ base32_from 1 0 five.now }
{
    let [a, b, c, d, e] = *five;
    let high = (u64::from(a) << 32) + (u64::from(b) << 24) + (u64::from(c) << 16);
    high + (u64::from(d) << 8) + u64::from(e)
}

/// Returns the eight digits of a number of 40 bits, as characters of an alphabet.
fn spell(alphabet: &[u8; 32], number: u64) -> [u8; 8]
    ensures { result ≡ map (slice_index alphabet.now) (eight_digits number) }
{
    [
        alphabet[((number >> 35) % 32) as usize],
        alphabet[((number >> 30) % 32) as usize],
        alphabet[((number >> 25) % 32) as usize],
        alphabet[((number >> 20) % 32) as usize],
        alphabet[((number >> 15) % 32) as usize],
        alphabet[((number >> 10) % 32) as usize],
        alphabet[((number >> 5) % 32) as usize],
        alphabet[(number % 32) as usize],
    ]
}

/// The digits of octets that are left to be read, each a number below 32. Does not allocate.
#[derive(Drop)]
pub struct Digits<'a> {
    octets: &'a [u8],
}

impl<'a> Model for Digits<'a> {
    ghost use Rattle.domain_codecs.specs.Base32.{base32_from};
    ghost use Rattle.domain_octets.specs.Octets.{Octets};

    ghost Value = { Octets };

    ghost view = { λ d. base32_from 1 0 d.octets.now };
}

impl<'a> Digits<'a> {
    /// Returns the digits of these octets.
    pub fn new(octets: &'a [u8]) -> Self
        ensures { result ≡ base32_from 1 0 octets.now }
    {
        Digits { octets }
    }

    /// Reads the next five octets, or those that are left, with zeros after them. Returns them as a
    /// number, with the count of their digits, or None if no octets are left.
    #[tactic(auto, using(std::proofs::lemmas::Grind::common_steps, crate::proofs::Base32Lemmas::next_number_steps))]
    fn next_number(&mut self) -> Option<(u64, usize)>
        ensures some { IfSome result (λ next.
            self.old ≡ take next.1 (eight_digits next.0) ++ self.new) }
        ensures count { IfSome result (λ next. (0 < next.1) × (next.1 ≤ 8)) }
        ensures none { IfNone result ((self.old ≡ []) × (self.new ≡ [])) }
    {
        if let Some((five, after)) = self.octets.split_first_chunk::<5>() {
            self.octets = after;
            return Some((number_of(five), 8));
        }
        if self.octets.is_empty() {
            return None;
        }
        let mut five = [0; 5];
        five[..self.octets.len()].copy_from_slice(self.octets);
        let count = (8 * self.octets.len() + 4) / 5;
        self.octets = &[];
        Some((number_of(&five), count))
    }

    /// Writes the next digits to the front of a buffer, as characters of an alphabet, while the
    /// buffer has room for eight more. Returns the end of what was written.
    fn put(&mut self, alphabet: &[u8; 32], buffer: &mut [u8]) -> usize
        ensures written { (digits : Octets) × AreDigits digits × (self.old ≡ digits ++ self.new)
            × (take result buffer.new ≡ map (slice_index alphabet.now) digits) }
        ensures all { result + 8 ≤ length buffer.new → self.new ≡ [] }
        ensures end { result ≤ length buffer.new }
        ensures room { length buffer.new ≡ length buffer.old }
    {
        let mut end = 0;
        while buffer.len() - end >= 8 {
            let Some((number, count)) = self.next_number() else {
                return end;
            };
            put(buffer, end, &spell(alphabet, number));
            end += count;
        }
        end
    }

    /// Writes the next digits to the front of a buffer, in lower case, while the buffer has room
    /// for eight more. Returns the end of what was written.
    pub fn put_lower(&mut self, buffer: &mut [u8]) -> usize
        ensures written { (digits : Octets) × (self.old ≡ digits ++ self.new)
            × (take result buffer.new ≡ map lower_digit digits) }
        ensures all { result + 8 ≤ length buffer.new → self.new ≡ [] }
        ensures end { result ≤ length buffer.new }
        ensures room { length buffer.new ≡ length buffer.old }
    {
        self.put(LOWER, buffer)
    }

    /// Writes the next digits to a buffer, in upper case, as many as fit. Returns them as text, or
    /// None if no digits are left.
    fn next_upper<'b>(&mut self, buffer: &'b mut [u8]) -> Option<&'b str>
        requires { 8 ≤ length buffer.old }
        ensures some { IfSome result (λ text. (digits : Octets) × (self.old ≡ digits ++ self.new)
            × (text.now ≡ map upper_digit digits) × (0 < length digits)) }
        ensures none { IfNone result ((self.old ≡ []) × (self.new ≡ [])) }
    {
        let end = self.put(UPPER, buffer);
        if end == 0 {
            return None;
        }
        Some(unsafe { str::from_utf8_unchecked(&buffer[..end]) })
    }
}

/// The number of digits that are written at a time.
const ROOM: usize = 64;

/// Encodes octets as text in lower case, and returns the octets of the text. The first label of an
/// NSEC3 owner is such a text (RFC 5155, section 3).
pub fn encode_hex_lower(alloc: Global, octets: &[u8]) -> Result<Vec<u8>, OutOfMemory>
    ensures { IfOk result (λ text. text.items ≡ base32_lower octets.now) }
{
    let mut text = vec![in alloc; 0; octets.len() / 5 * 8 + 16]?;
    let end = Digits::new(octets).put_lower(&mut text);
    text.truncate(end);
    Ok(text)
}

/// Encodes octets as text in upper case.
pub fn encode_string(alloc: Global, octets: &[u8]) -> Result<String, OutOfMemory>
    ensures { IfOk result (λ text. string_bytes text ≡ base32_upper octets.now) }
{
    let mut text = String::new(alloc);
    let mut digits = Digits::new(octets);
    let mut buffer = [0; ROOM];
    while let Some(part) = digits.next_upper(&mut buffer) {
        text.push_str(part)?;
    }
    Ok(text)
}

/// Writes octets as text in upper case.
pub fn display<W: fmt::Write>(octets: &[u8], f: &mut fmt::Formatter<W>) -> fmt::Result
    ensures { WritesOnOk W.write_str_gives f.old result (base32_upper octets.now) f.new }
{
    let mut digits = Digits::new(octets);
    let mut buffer = [0; ROOM];
    while let Some(part) = digits.next_upper(&mut buffer) {
        f.write_str(part)?;
    }
    Ok(())
}
