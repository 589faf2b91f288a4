//! Decoding of text.
ghost use Rattle.std.specs.Prelude.{◌≡◌, ◌≤◌, ◌*◌, ◌↔◌, IsTrue, ℕ, length, map, take, Ok, IfOk, IfErr, IfSome, IsErrOf, unwrap_or};
ghost use Rattle.std.specs.List.{concat};
ghost use Rattle.hex.specs.Hex.{hex_digit_value, pair_value};
ghost use Rattle.domain_codecs.specs.Codec.{Decodes, IsText, HasNoRoom, BuildFault, DecodeFault};
ghost use Rattle.domain_octets.specs.Octets.{HasRoom, AreOctets};

use crate::base32::digit_or_zero;
use crate::joined::{Joined, over_eight};
use crate::judging::judge;
use crate::{Codec, DecodeError};
use base64::engine::general_purpose::STANDARD;
use domain_octets::{AppendError, EmptyBuilder, FromBuilder};
use std::alloc::Global;

/// Decodes digits of Base 32 hex into a buffer, and returns the number of octets.
#[tactic(auto, using(crate::proofs::CodecLemmas::digits_steps))]
fn decode_base32(digits: &[u8], octets: &mut [u8; 64]) -> usize
    requires text { IsText Codec.Base32Hex digits.now }
    requires small { length digits.now ≤ 64 }
    ensures decodes { Decodes Codec.Base32Hex digits.now (take result octets.new) }
    ensures within { result ≤ 64 }
{
    let mut count = 0;
    let mut scale: u32 = 1;
    let mut rest: u32 = 0;
    for c in digits {
        let wider = 32 * scale;
        let value = 32 * rest + digit_or_zero(*c);
        if wider < 256 {
            scale = wider;
            rest = value;
            continue;
        }
        scale = wider / 256;
        rest = value % scale;
        octets[count] = (value / scale) as u8;
        count += 1;
    }
    count
}

/// Decodes a piece of a text into a buffer, and returns the number of octets.
fn decode_piece(codec: Codec, piece: &[u8], octets: &mut [u8; 64]) -> usize
    requires text { IsText codec piece.now }
    requires small { length piece.now ≤ 64 }
    ensures decodes { Decodes codec piece.now (take result octets.new) }
    ensures within { result ≤ 64 }
{
    match codec {
        Codec::Base16 => {
            let count = piece.len() / 2;
            let Ok(()) = hex::decode_to_slice(piece, &mut octets[..count]) else {
                unreachable!();
            };
            count
        }
        Codec::Base32Hex => decode_base32(piece, octets),
        Codec::Base64 => {
            let Ok(count) = STANDARD.decode_slice_unchecked(piece, octets) else {
                unreachable!();
            };
            count
        }
    }
}

/// Decodes joined texts into a builder, 64 characters at a time. In each codec 64 characters encode
/// whole octets.
#[tactic(auto, using(std::proofs::lemmas::Grind::common_steps, crate::proofs::JoinedLemmas::pieces_end))]
fn build<B: EmptyBuilder + Drop>(
    alloc: Global,
    codec: Codec,
    text: &Joined<'_>,
) -> Result<B, AppendError>
    requires text { IsText codec text.now }
    requires octets { AreOctets text.now }
    ensures ok { IfOk result (λ b. Decodes codec text.now (B.octets b)) }
    ensures room { IfOk result (λ b. HasRoom B.limit (length (B.octets b))) }
    ensures err { IfErr result (BuildFault codec B.limit text.now) }
{
    let mut octets = B::empty(alloc);
    let mut left = text.fork();
    let mut buffer = [0u8; 64];
    let mut part = [0u8; 64];
    loop {
        let piece = left.take_piece(&mut buffer);
        if piece.is_empty() {
            return Ok(octets);
        }
        let count = decode_piece(codec, piece, &mut part);
        octets.append_slice(&part[..count])?;
    }
}

/// The value of each character as a digit of Base 16, or 99 if the character is not a digit.
const DIGIT_VALUES: &[u8; 256] = &[
    99, 99, 99, 99, 99, 99, 99, 99, 99, 99, 99, 99, 99, 99, 99, 99, 99, 99, 99, 99, 99, 99, 99, 99,
    99, 99, 99, 99, 99, 99, 99, 99, 99, 99, 99, 99, 99, 99, 99, 99, 99, 99, 99, 99, 99, 99, 99, 99,
    0, 1, 2, 3, 4, 5, 6, 7, 8, 9, 99, 99, 99, 99, 99, 99, 99, 10, 11, 12, 13, 14, 15, 99, 99, 99,
    99, 99, 99, 99, 99, 99, 99, 99, 99, 99, 99, 99, 99, 99, 99, 99, 99, 99, 99, 99, 99, 99, 99, 10,
    11, 12, 13, 14, 15, 99, 99, 99, 99, 99, 99, 99, 99, 99, 99, 99, 99, 99, 99, 99, 99, 99, 99, 99,
    99, 99, 99, 99, 99, 99, 99, 99, 99, 99, 99, 99, 99, 99, 99, 99, 99, 99, 99, 99, 99, 99, 99, 99,
    99, 99, 99, 99, 99, 99, 99, 99, 99, 99, 99, 99, 99, 99, 99, 99, 99, 99, 99, 99, 99, 99, 99, 99,
    99, 99, 99, 99, 99, 99, 99, 99, 99, 99, 99, 99, 99, 99, 99, 99, 99, 99, 99, 99, 99, 99, 99, 99,
    99, 99, 99, 99, 99, 99, 99, 99, 99, 99, 99, 99, 99, 99, 99, 99, 99, 99, 99, 99, 99, 99, 99, 99,
    99, 99, 99, 99, 99, 99, 99, 99, 99, 99, 99, 99, 99, 99, 99, 99, 99, 99, 99, 99, 99, 99, 99, 99,
    99, 99, 99, 99, 99, 99, 99, 99, 99, 99, 99, 99, 99, 99,
];

/// Returns the value of a digit of Base 16, in either case, or 99 for any other character.
fn value_or_99(c: u8) -> u8
    ensures { result ≡ unwrap_or (hex_digit_value c) 99 }
{
    DIGIT_VALUES[usize::from(c)]
}

/// Returns the octet of two digits of Base 16, or None if one of them is not a digit.
#[tactic(auto, using(crate::proofs::Base16Lemmas::pair_read))]
fn read_pair(high: u8, low: u8) -> Option<u8>
    ensures { IfSome result (λ octet. (place : ℕ) → pair_value high low place ≡ Ok octet) }
{
    let high = value_or_99(high);
    let low = value_or_99(low);
    if high.max(low) >= 16 {
        return None;
    }
    Some(high * 16 + low)
}

/// Decodes digits of Base 16 into a buffer. Returns false if a character is not a digit.
fn read_octets(digits: &[u8], octets: &mut [u8]) -> bool
    requires { length digits.now ≡ 2 * length octets.old }
    ensures decodes { IsTrue result → Decodes Codec.Base16 digits.now octets.new }
    ensures room { length octets.new ≡ length octets.old }
{
    for i in 0..octets.len() {
        let Some(octet) = read_pair(digits[2 * i], digits[2 * i + 1]) else {
            return false;
        };
        octets[i] = octet;
    }
    true
}

/// Decodes a single text in Base 16 with at most 128 digits into a buffer. Returns None for all
/// other texts.
fn few_octets<'a>(codec: Codec, texts: &[&str], buffer: &'a mut [u8; 64]) -> Option<&'a [u8]>
    ensures { IfSome result (λ octets.
        Decodes codec (concat (map (λ text. text.now) texts.now)) octets.now) }
{
    let [text] = texts else {
        return None;
    };
    let count = text.len() / 2;
    if codec != Codec::Base16 || count > 64 || 2 * count != text.len() {
        return None;
    }
    if !read_octets(text.as_bytes(), &mut buffer[..count]) {
        return None;
    }
    Some(&buffer[..count])
}

impl Codec {
    /// Decodes a text. Allocates only for the octets, and only if they have no limit.
    ///
    /// # Errors
    ///
    /// `IllegalChar` or `ShortInput` for a malformed text, or else `ShortBuf` if the octets do not
    /// fit, and `OutOfMemory`.
    pub fn decode<O: FromBuilder>(self, alloc: Global, text: &str) -> Result<O, DecodeError>
    where
        O::Builder: EmptyBuilder + Drop,
        ensures ok { IfOk result (λ octets. Decodes self text.now (O.octets octets)) }
        ensures err { IfErr result (DecodeFault self O.Builder.limit text.now) }
        ensures room { IsErrOf result DecodeError.ShortBuf
            ↔ HasNoRoom self O.Builder.limit text.now }
    {
        self.decode_joined(alloc, &[text])
    }

    /// Decodes the concatenation of texts, with the result of `decode`. Does not join the texts in
    /// memory.
    pub fn decode_joined<O: FromBuilder>(
        self,
        alloc: Global,
        texts: &[&str],
    ) -> Result<O, DecodeError>
    where
        O::Builder: EmptyBuilder + Drop,
        ensures ok { IfOk result (λ octets.
            Decodes self (concat (map (λ text. text.now) texts.now)) (O.octets octets)) }
        ensures err { IfErr result
            (DecodeFault self O.Builder.limit (concat (map (λ text. text.now) texts.now))) }
        ensures room { IsErrOf result DecodeError.ShortBuf
            ↔ HasNoRoom self O.Builder.limit (concat (map (λ text. text.now) texts.now)) }
    {
        if let Some(octets) = few_octets(self, texts, &mut [0; 64]) {
            return Ok(O::from_octets(alloc, octets)?);
        }
        let text = Joined::new(texts);
        judge(self, over_eight(texts), &text)?;
        let builder = build::<O::Builder>(alloc, self, &text)?;
        Ok(O::from_builder(builder))
    }
}
