//! How many octets a field has.
ghost use Rattle.std.specs.Prelude.{◌≡◌, ◌↔◌, ℕ, ◌+◌, ◌<◌, ◌≤◌, length, take, drop, slice_index, IfSome, IfNone, IsTrue};
ghost use Rattle.std.specs.{Char.is_ascii_alphanumeric, List.AllByRecursion};
ghost use Rattle.domain_names.specs.Wire.{IsWire};
ghost use Rattle.domain_types.specs.Fields.{IsGateway, IsTag, IsField, BeginsWithNo};

use crate::field::{Field, Shape};
use domain_base::ParsedName;
use domain_octets::Parser;

/// Returns the octet at a place, or 0 past the end.
fn octet_at(octets: &[u8], place: usize) -> usize
    ensures value { result ≡ slice_index octets.now place }
    ensures below { result < 256 }
{
    match octets.get(place) {
        Some(octet) => usize::from(*octet),
        None => 0,
    }
}

/// Returns the length if there are as many octets.
fn within(len: usize, octets: &[u8]) -> Option<usize>
    ensures some { IfSome result (λ n. (n ≡ len) × (len ≤ length octets.now)) }
    ensures none { IfNone result (length octets.now < len) }
{
    if len <= octets.len() { Some(len) } else { None }
}

/// Returns the length of the name that octets begin with.
#[tactic(auto, using(crate::proofs::FieldLemmas::name_steps))]
fn name_len(octets: &[u8]) -> Option<usize>
    ensures some { IfSome result (λ n. (n ≤ length octets.now) × IsWire (take n octets.now)) }
    ensures none { IfNone result (BeginsWithNo IsWire octets.now) }
{
    let mut parser = Parser::new(octets);
    match ParsedName::read(&mut parser) {
        Ok(_) => Some(parser.pos()),
        Err(_) => None,
    }
}

/// Returns whether all octets are letters and digits.
pub(crate) fn are_letters(octets: &[u8]) -> bool
    ensures { IsTrue result
        ↔ AllByRecursion (λ c. IsTrue (is_ascii_alphanumeric c)) octets.now }
{
    for octet in octets {
        if !octet.is_ascii_alphanumeric() {
            return false;
        }
    }
    true
}

/// Returns the length of the letters and digits, after their length octet, that octets begin with.
fn word_len(octets: &[u8]) -> Option<usize>
    ensures some { IfSome result (λ n. (n ≤ length octets.now) × IsTag (take n octets.now)) }
    ensures none { IfNone result (BeginsWithNo IsTag octets.now) }
{
    let len = within(1 + octet_at(octets, 0), octets)?;
    if len > 1 && are_letters(&octets[1..len]) {
        Some(len)
    } else {
        None
    }
}

/// Returns the length of the address or name of a type that octets begin with.
#[tactic(auto, using(crate::proofs::FieldLemmas::gateway_steps))]
fn gateway_len(kind: usize, octets: &[u8]) -> Option<usize>
    ensures some { IfSome result (λ n. (n ≤ length octets.now)
        × IsGateway kind (take n octets.now)) }
    ensures none { IfNone result (BeginsWithNo (IsGateway kind) octets.now) }
{
    match kind {
        0 => Some(0),
        1 => within(4, octets),
        2 => within(16, octets),
        3 => name_len(octets),
        _ => None,
    }
}

/// Returns the length of the address or name of a type that follows the first octets, with these.
#[tactic(auto, using(crate::proofs::FieldLemmas::gateway_steps))]
fn gateway_end(first: usize, kind: usize, octets: &[u8]) -> Option<usize>
    requires { first < 8 }
    ensures some { IfSome result (λ n. (first ≤ n) × (n ≤ length octets.now)
        × IsGateway kind (drop first (take n octets.now))) }
    ensures none { IfNone result (first ≤ length octets.now
        → BeginsWithNo (IsGateway kind) (drop first octets.now)) }
{
    let start = within(first, octets)?;
    let len = gateway_len(kind, &octets[start..])?;
    Some(start + len)
}

/// Returns the length of the field that octets begin with.
#[tactic(auto, using(crate::proofs::FieldLemmas::field_steps))]
pub(crate) fn field_len(field: Field, octets: &[u8]) -> Option<usize>
    ensures some { IfSome result (λ n. (n ≤ length octets.now)
        × IsField field (take n octets.now)) }
    ensures none { IfNone result (BeginsWithNo (IsField field) octets.now) }
{
    match field.shape() {
        Shape::Exactly(len) => within(len, octets),
        Shape::Domain => name_len(octets),
        Shape::Counted => within(1 + octet_at(octets, 0), octets),
        Shape::Word => word_len(octets),
        Shape::AfterTwo => gateway_end(2, octet_at(octets, 0), octets),
        Shape::AfterOne => gateway_end(1, octet_at(octets, 0) % 128, octets),
        Shape::TwoCounted => within(
            4 + octet_at(octets, 0) + 256 * octet_at(octets, 2) + octet_at(octets, 3),
            octets,
        ),
        Shape::CountedInBits => within(4 + octet_at(octets, 3) % 128, octets),
    }
}
