//! Lengths and altitudes in metres.
ghost use Rattle.std.specs.Prelude.{◌≡◌, ℕ, ◌+◌, ◌*◌, ◌^◌, ◌∷◌, ◌<◌, ◌≤◌, IfSome, IfNone};
ghost use Rattle.domain_octets.specs.{Octets.Octets, Text.dash};
ghost use Rattle.domain_location.specs.Lengths.{IsWithoutUnit, LengthText, AltitudeText};
ghost use Rattle.domain_location.specs.Lengths.{IsPrecision, PrecisionText};

use crate::decimals::decimal;

/// The centimetres of the least altitude, below zero.
const DEPTH: u64 = 10_000_000;

/// The centimetres of the greatest altitude.
const MAX_HEIGHT: u64 = 4_284_967_295;

/// The centimetres of the greatest precision.
const MAX_PRECISION: u64 = 9_000_000_000;

/// Returns a text without the letter m at its end.
fn without_unit(text: &[u8]) -> &[u8]
    ensures { IsWithoutUnit text.now result.now }
{
    if text.is_empty() {
        return text;
    }
    if text[text.len() - 1] != b'm' {
        return text;
    }
    &text[..text.len() - 1]
}

/// Returns the centimetres of a length, up to a limit of at most 33 bits.
fn centimetres(limit: u64, text: &[u8]) -> Option<u64>
    requires { limit < 2 ^ 40 }
    ensures some { IfSome result (LengthText text.now) }
    ensures fits { IfSome result (λ n. n ≤ limit) }
    ensures none { IfNone result ((n : ℕ) → LengthText text.now n → n ≤ limit → ⊥) }
{
    let Some(number) = decimal(limit, 2, without_unit(text)) else {
        return None;
    };
    Some(number)
}

/// Returns what follows the dash that a text begins with.
fn after_dash(text: &[u8]) -> Option<&[u8]>
    ensures some { IfSome result (λ metres. text.now ≡ dash ∷ metres.now) }
    ensures none { IfNone result ((metres : Octets) → text.now ≡ dash ∷ metres → ⊥) }
{
    if text.is_empty() || text[0] != b'-' {
        return None;
    }
    Some(&text[1..])
}

/// Returns the field of the altitude that a text spells: centimetres above 100,000 metres below the
/// reference spheroid (RFC 1876, section 2). Does not allocate.
pub fn altitude(text: &[u8]) -> Option<u32>
    ensures some { IfSome result (AltitudeText text.now) }
    ensures none { IfNone result ((n : ℕ) → AltitudeText text.now n → ⊥) }
{
    if let Some(metres) = after_dash(text) {
        let Some(depth) = centimetres(DEPTH, metres) else {
            return None;
        };
        return Some((DEPTH - depth) as u32);
    }
    let Some(height) = centimetres(MAX_HEIGHT, text) else {
        return None;
    };
    Some((DEPTH + height) as u32)
}

/// Returns the octet of the first digit and of the power of ten of a number of centimetres.
fn octet_of(centimetres: u64) -> u8
    requires { centimetres ≤ 9000000000 }
    ensures { IsPrecision centimetres result }
{
    let mut digit = centimetres;
    let mut power = 0;
    'digits: while digit >= 10 {
        digit /= 10;
        power += 1;
    }
    (16 * digit + power) as u8
}

/// Returns the octet of the size or precision that a text spells: its first digit and a power of
/// ten (RFC 1876, section 2). Does not allocate.
pub fn precision(text: &[u8]) -> Option<u8>
    ensures some { IfSome result (PrecisionText text.now) }
    ensures none { IfNone result ((octet : ℕ) → PrecisionText text.now octet → ⊥) }
{
    let Some(size) = centimetres(MAX_PRECISION, text) else {
        return None;
    };
    Some(octet_of(size))
}
