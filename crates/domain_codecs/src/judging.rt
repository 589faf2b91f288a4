//! The check of a text, and its faults.
ghost use Rattle.std.specs.Prelude.{◌≡◌, ◌<◌, ◌≤◌, ◌%◌, ◌↔◌, false, IsTrue, IfErr, IfSome, IfNone, OnOk, Some, length, slice_index, take};
ghost use Rattle.std.specs.List.{AllPass};
ghost use Rattle.domain_codecs.specs.Codec.{is_digit, first_other, IsText, TextFault};
ghost use Rattle.domain_octets.specs.Octets.{AreOctets};

use crate::joined::Joined;
use crate::{Codec, DecodeError, base32};
use base64::engine::general_purpose::STANDARD;

/// Returns whether a text of the codec can have a character.
fn is_digit(codec: Codec, c: u8) -> bool
    ensures { result ≡ is_digit codec c }
{
    match codec {
        Codec::Base16 => c.is_ascii_hexdigit(),
        Codec::Base32Hex => base32::digit_value(c).is_some(),
        Codec::Base64 => c.is_ascii_alphanumeric() || c == b'+' || c == b'/' || c == b'=',
    }
}

/// Returns the first character of a piece that no text of the codec has.
#[tactic(auto, using(std::proofs::lemmas::Grind::common_steps), unfolding(crate::specs::Codec::first_other))]
fn first_other_of(codec: Codec, piece: &[u8]) -> Option<u8>
    ensures { result ≡ first_other codec piece.now }
{
    for c in piece {
        if !is_digit(codec, *c) {
            return Some(*c);
        }
    }
    None
}

/// Returns the first character of joined texts that no text of the codec has.
#[tactic(auto, using(crate::proofs::JoinedLemmas::other_steps))]
fn first_other(codec: Codec, text: &Joined<'_>) -> Option<u8>
    ensures { result ≡ first_other codec text.now }
{
    let mut left = text.fork();
    let mut buffer = [0u8; 64];
    loop {
        let piece = left.take_piece(&mut buffer);
        if piece.is_empty() {
            return None;
        }
        if let Some(c) = first_other_of(codec, piece) {
            return Some(c);
        }
    }
}

/// Returns whether joined texts are Base 64: each piece of 64 characters encodes 48 octets, and the
/// last piece at most 48.
#[tactic(auto, using(crate::proofs::JoinedLemmas::base64_steps))]
fn is_base64(text: &Joined<'_>) -> bool
    requires { AreOctets text.now }
    ensures { IsTrue result ↔ IsText Codec.Base64 text.now }
{
    let mut left = text.fork();
    let mut buffer = [0u8; 64];
    let mut octets = [0u8; 48];
    loop {
        let piece = left.take_piece(&mut buffer);
        let Ok(full) = STANDARD.decode_slice_unchecked(piece, &mut octets) else {
            return false;
        };
        if full < 48 {
            return left.take_piece(&mut buffer).is_empty();
        }
    }
}

/// Checks that a text is one of the codec. `over` is its number of characters modulo 8. Does not
/// allocate.
///
/// # Errors
///
/// - Base 16: an odd number of digits, or else the first character that is not a digit.
/// - Base 32 hex: the first character that is not a digit, or else a number of digits that no
///   octets have.
/// - Base 64: the first character that no such text has, or else `ShortInput`.
pub(crate) fn judge(codec: Codec, over: usize, text: &Joined<'_>) -> Result<(), DecodeError>
    requires over { over ≡ length text.now % 8 }
    requires octets { AreOctets text.now }
    ensures ok { OnOk result (IsText codec text.now) }
    ensures err { IfErr result (TextFault codec text.now) }
{
    if codec == Codec::Base16 && over % 2 == 1 {
        return Err(DecodeError::ShortInput);
    }
    if codec == Codec::Base64 && is_base64(text) {
        return Ok(());
    }
    if let Some(c) = first_other(codec, text) {
        return Err(DecodeError::IllegalChar(char::from(c)));
    }
    match codec {
        Codec::Base16 => Ok(()),
        Codec::Base32Hex => {
            if over == 1 || over == 3 || over == 6 {
                return Err(DecodeError::ShortInput);
            }
            Ok(())
        }
        Codec::Base64 => Err(DecodeError::ShortInput),
    }
}
