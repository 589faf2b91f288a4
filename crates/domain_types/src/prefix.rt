//! Prefixes of addresses, as tokens spell them (RFC 3123, section 5).
ghost use Rattle.std.specs.Prelude.{◌≡◌, ◌≢◌, ℕ, ◌+◌, ◌*◌, ◌++◌, ◌∷◌, ◌<◌, ◌≤◌, length, slice_index, IfSome, IfNone};
ghost use Rattle.std.specs.{Int.{w16, to_be_bytes}};
ghost use Rattle.domain_octets.specs.{Octets.Octets, Text.slash};
ghost use Rattle.domain_base.specs.Scan.{IsNumber};
ghost use Rattle.domain_types.specs.Prefixes.{Lacks, SplitsFirst, SplitsLast, FamilyAddress};
ghost use Rattle.domain_types.specs.Prefixes.{colon, exclamation_mark, IsTrimmed, ItemText};
ghost use Rattle.domain_types.specs.Prefixes.{PrefixText};

use crate::spell::{Part, part_of, spell_ipv4, spell_ipv6};
use domain_octets::{Octets, OctetsBuilder};
use domain_svcb::{number, number_of};

/// Returns what is before the first such mark, and what follows it.
fn split_first(mark: u8, text: &[u8]) -> Option<(&[u8], &[u8])>
    ensures some { IfSome result (λ cut. SplitsFirst mark text.now cut.0.now cut.1.now) }
    ensures none { IfNone result (Lacks mark text.now) }
{
    for i in 0..text.len() {
        if text[i] == mark {
            return Some((&text[..i], &text[i + 1..]));
        }
    }
    None
}

/// Returns what is before the last such mark, and what follows it.
fn split_last(mark: u8, text: &[u8]) -> Option<(&[u8], &[u8])>
    ensures some { IfSome result (λ cut. SplitsLast mark text.now cut.0.now cut.1.now) }
    ensures none { IfNone result (Lacks mark text.now) }
{
    let mut end = text.len();
    'octets: while end > 0 {
        if text[end - 1] == mark {
            return Some((&text[..end - 1], &text[end..]));
        }
        end -= 1;
    }
    None
}

/// Returns the octets without the zero octets at their end.
fn trimmed(octets: &[u8]) -> &[u8]
    ensures { IsTrimmed octets.now result.now }
{
    let mut len = octets.len();
    'zeros: while len > 0 {
        if octets[len - 1] != 0 {
            return &octets[..len];
        }
        len -= 1;
    }
    &octets[..0]
}

/// Returns the number of at most 8 bits that decimal digits spell.
fn small_number(digits: &[u8]) -> Option<u8>
    ensures some { IfSome result (IsNumber 8 digits.now) }
    ensures none { IfNone result ((n : ℕ) → IsNumber 8 digits.now n → ⊥) }
{
    u8::try_from(number(digits)?).ok()
}

/// Returns the octets of an address of a family, which a text spells.
fn spell_address(family: u16, text: &[u8]) -> Option<Part>
    ensures some { IfSome result (FamilyAddress family text.now) }
    ensures none { IfNone result ((octets : Octets) → FamilyAddress family text.now octets → ⊥) }
    ensures short { IfSome result (λ part. length part ≤ 16) }
{
    match family {
        1 => spell_ipv4(text),
        2 => spell_ipv6(text),
        _ => None,
    }
}

/// Returns the octets of a prefix with an address without its last zero octets.
fn item_of(negation: u8, family: u16, size: u8, kept: &[u8]) -> Part
    requires negation { negation ≤ 1 }
    requires kept { length kept.now ≤ 16 }
    ensures { result ≡ to_be_bytes w16 family
        ++ (size ∷ (128 * negation + length kept.now) ∷ kept.now) }
{
    let mut part = part_of(&family.to_be_bytes());
    let Ok(()) = part.append_slice(&[size, 128 * negation + kept.len() as u8]) else {
        unreachable!();
    };
    let Ok(()) = part.append_slice(kept) else {
        unreachable!();
    };
    part
}

/// Returns the octets of the prefix that a text spells after its exclamation mark, if it has one.
fn spell_item(negation: u8, text: &[u8]) -> Option<Part>
    requires { negation ≤ 1 }
    ensures some { IfSome result (ItemText negation text.now) }
    ensures none { IfNone result ((octets : Octets) → ItemText negation text.now octets → ⊥) }
{
    let Some((family, rest)) = split_first(b':', text) else {
        return None;
    };
    let Some((address, size)) = split_last(b'/', rest) else {
        return None;
    };
    let Some(family) = number_of(family) else {
        return None;
    };
    let Some(size) = small_number(size) else {
        return None;
    };
    let Some(octets) = spell_address(family, address) else {
        return None;
    };
    if usize::from(size) > 8 * octets.as_slice().len() {
        return None;
    }
    Some(item_of(negation, family, size, trimmed(octets.as_slice())))
}

/// Returns what follows the exclamation mark that a text begins with.
fn after_mark(text: &[u8]) -> Option<&[u8]>
    ensures some { IfSome result (λ item. text.now ≡ exclamation_mark ∷ item.now) }
    ensures none { IfNone result ((item : Octets) → text.now ≡ exclamation_mark ∷ item → ⊥) }
{
    if text.is_empty() || text[0] != b'!' {
        return None;
    }
    Some(&text[1..])
}

/// Returns the octets of the prefix that a token spells.
pub(crate) fn spell_prefix(text: &[u8]) -> Option<Part>
    ensures some { IfSome result (PrefixText text.now) }
    ensures none { IfNone result ((octets : Octets) → PrefixText text.now octets → ⊥) }
{
    match after_mark(text) {
        Some(item) => spell_item(1, item),
        None => spell_item(0, text),
    }
}
