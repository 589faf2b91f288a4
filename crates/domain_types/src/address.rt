//! EUI addresses and locators, as tokens spell them (RFC 7043, sections 3.2 and 4.2; RFC 6742,
//! sections 2.1 and 2.3).
ghost use Rattle.std.specs.Prelude.{◌≡◌, ℕ, ◌+◌, ◌*◌, ◌<◌, ◌≤◌, ◌++◌, length, IfSome, IfNone};
ghost use Rattle.std.specs.{Char.digit_value, Int.{w16, to_be_bytes}, Net.Grammar.IsGroup};
ghost use Rattle.domain_octets.specs.Octets.{Octets};
ghost use Rattle.domain_types.specs.Addresses.{EuiText, BeginsWithGroup, LocatorText};

use crate::spell::{Part, part_of};
use domain_octets::OctetsBuilder;

/// Returns the value of a digit in Base 16, in either case.
fn hex_digit(c: u8) -> Option<u16>
    ensures some { IfSome result (λ digit. digit ≡ digit_value c) }
    ensures small { IfSome result (λ digit. digit < 16) }
    ensures none { IfNone result (16 ≤ digit_value c) }
{
    match char::from(c).to_digit(16) {
        Some(digit) => Some(digit as u16),
        None => None,
    }
}

/// Returns the number that one to four digits in Base 16 spell.
fn read_group(text: &[u8]) -> Option<u16>
    ensures some { IfSome result (IsGroup text.now) }
    ensures none { IfNone result ((n : ℕ) → IsGroup text.now n → ⊥) }
{
    if text.is_empty() || text.len() > 4 {
        return None;
    }
    let mut number = 0;
    for c in text {
        let Some(digit) = hex_digit(*c) else {
            return None;
        };
        number = 16 * number + digit;
    }
    Some(number)
}

/// Returns the octets of an EUI address of as many octets that a token spells.
pub(crate) fn spell_eui(count: usize, text: &[u8]) -> Option<Part>
    requires { count ≤ 8 }
    ensures some { IfSome result (EuiText count text.now) }
    ensures none { IfNone result ((octets : Octets) → EuiText count text.now octets → ⊥) }
{
    if text.len() + 1 != 3 * count {
        return None;
    }
    let mut octets = [0; 8];
    for i in 0..count {
        if i > 0 && text[3 * i - 1] != b'-' {
            return None;
        }
        let Some(number) = read_group(&text[3 * i..3 * i + 2]) else {
            return None;
        };
        octets[i] = number as u8;
    }
    Some(part_of(&octets[..count]))
}

/// Returns the number before the first colon, and what follows the colon.
fn split_group(text: &[u8]) -> Option<(u16, &[u8])>
    ensures some { IfSome result (λ begun. BeginsWithGroup text.now begun.0 begun.1.now) }
    ensures none { IfNone result ((n : ℕ) (rest : Octets)
        → BeginsWithGroup text.now n rest → ⊥) }
{
    for i in 0..text.len() {
        if text[i] == b':' {
            let Some(number) = read_group(&text[..i]) else {
                return None;
            };
            return Some((number, &text[i + 1..]));
        }
    }
    None
}

/// Appends the two octets of a number.
pub(crate) fn put_number(part: &mut Part, number: u16)
    requires { length part.old ≤ 250 }
    ensures { part.new ≡ part.old ++ to_be_bytes w16 number }
{
    let Ok(()) = part.append_slice(&number.to_be_bytes()) else {
        unreachable!();
    };
}

/// Returns the octets of the locator that a token spells.
pub(crate) fn spell_locator(text: &[u8]) -> Option<Part>
    ensures some { IfSome result (LocatorText text.now) }
    ensures none { IfNone result ((octets : Octets) → LocatorText text.now octets → ⊥) }
{
    let Some(first) = split_group(text) else {
        return None;
    };
    let Some(second) = split_group(first.1) else {
        return None;
    };
    let Some(third) = split_group(second.1) else {
        return None;
    };
    let Some(last) = read_group(third.1) else {
        return None;
    };
    let mut part = part_of(&first.0.to_be_bytes());
    put_number(&mut part, second.0);
    put_number(&mut part, third.0);
    put_number(&mut part, last);
    Some(part)
}
