//! Base 16 (RFC 4648, section 8).
ghost use Rattle.std.specs.Prelude.{◌≡◌, ◌≤◌, IfOk, IfErr, IsErrOf, ◌↔◌, length, string_bytes};
ghost use Rattle.std.specs.{Fmt.WritesOnOk, Str.IsAscii};
ghost use Rattle.hex.specs.Hex.{encode_with, encode_lower, encode_upper};
ghost use Rattle.domain_codecs.specs.declared.codec.Codec.TheVariants as codec;
ghost use Rattle.domain_codecs.specs.Codec.{Decodes, DecodeFault, HasNoRoom};

use crate::{Codec, DecodeError};
use domain_octets::{EmptyBuilder, FromBuilder, OutOfMemory};
use std::alloc::Global;
use std::fmt;

/// Decodes digits in either case.
///
/// # Errors
///
/// `ShortInput` if the number of digits is odd, or else `IllegalChar` with the first character that
/// is not a digit.
pub fn decode<O: FromBuilder>(alloc: Global, text: &str) -> Result<O, DecodeError>
where
    O::Builder: EmptyBuilder + Drop,
    ensures ok { IfOk result (λ octets. Decodes codec.Base16 text.now (O.octets octets)) }
    ensures err { IfErr result (DecodeFault codec.Base16 O.Builder.limit text.now) }
    ensures room { IsErrOf result DecodeError.ShortBuf
        ↔ HasNoRoom codec.Base16 O.Builder.limit text.now }
{
    Codec::Base16.decode(alloc, text)
}

/// Encodes octets as text in upper case.
pub fn encode_string(alloc: Global, octets: &[u8]) -> Result<String, OutOfMemory>
    ensures { IfOk result (λ text. string_bytes text ≡ encode_upper octets.now) }
{
    Ok(hex::encode_upper(alloc, octets)?)
}

/// The digits in lower case.
const LOWER: &[u8; 16] = b"0123456789abcdef";

/// The digits in upper case.
const UPPER: &[u8; 16] = b"0123456789ABCDEF";

/// The number of octets that are written at a time.
const GROUP: usize = 32;

/// Writes the digits of octets to a buffer, in the case of the alphabet, and returns them as text.
fn spell<'a>(alphabet: &[u8; 16], octets: &[u8], buffer: &'a mut [u8; 64]) -> &'a str
    requires alphabet { IsAscii alphabet.now }
    requires few { length octets.now ≤ 32 }
    ensures { result.now ≡ encode_with alphabet.now octets.now }
{
    for i in 0..octets.len() {
        buffer[2 * i] = alphabet[usize::from(octets[i] / 16)];
        buffer[2 * i + 1] = alphabet[usize::from(octets[i] % 16)];
    }
    unsafe { str::from_utf8_unchecked(&buffer[..2 * octets.len()]) }
}

/// Writes the digits of octets, in the case of the alphabet.
fn write<W: fmt::Write>(
    alphabet: &[u8; 16],
    octets: &[u8],
    f: &mut fmt::Formatter<W>,
) -> fmt::Result
    requires { IsAscii alphabet.now }
    ensures { WritesOnOk W.write_str_gives f.old result (encode_with alphabet.now octets.now)
        f.new }
{
    let mut buffer = [0; 2 * GROUP];
    let mut left = octets;
    while !left.is_empty() {
        let (group, after) = left.split_at(left.len().min(GROUP));
        f.write_str(spell(alphabet, group, &mut buffer))?;
        left = after;
    }
    Ok(())
}

/// Writes octets as text in upper case.
pub fn display<W: fmt::Write>(octets: &[u8], f: &mut fmt::Formatter<W>) -> fmt::Result
    ensures { WritesOnOk W.write_str_gives f.old result (encode_upper octets.now) f.new }
{
    write(UPPER, octets, f)
}

/// Writes octets as text in lower case.
pub fn display_lower<W: fmt::Write>(octets: &[u8], f: &mut fmt::Formatter<W>) -> fmt::Result
    ensures { WritesOnOk W.write_str_gives f.old result (encode_lower octets.now) f.new }
{
    write(LOWER, octets, f)
}
