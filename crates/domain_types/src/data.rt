//! Data of a type.
ghost use Rattle.std.specs.Prelude.{◌≡◌, ◌↔◌, ℕ, ◌++◌, ◌≤◌, length, take, drop, map, IfSome, IfNone, IsTrue, OnErr, OnOk, slice_range};
ghost use Rattle.std.specs.{Char.to_ascii_lowercase};
ghost use Rattle.domain_types.specs.Fields.{IsTail, IsField, BeginsWithField, IsIdentity, AreFieldOctets, AreMany};
ghost use Rattle.domain_types.specs.Canonical.{IsData, lowered_fields, canonical_form};
ghost use Rattle.domain_types.specs.declared.field.Tail.{Tail};

use crate::field::{Field, Tail};
use crate::lookup::row_of;
use crate::measure::field_len;
use domain_base::Rtype;
use domain_bitmap::RtypeBitmap;
use domain_svcb::are_parameters;
use std::alloc::AllocError;

/// Returns what follows these fields, if the octets begin with them.
fn after_fields<'a>(fields: &[Field], octets: &'a [u8]) -> Option<&'a [u8]>
    ensures some { IfSome result (λ rest. (tail : Tail)
        → (IsTail tail rest.now ↔ AreFieldOctets fields.now tail octets.now)) }
    ensures none { IfNone result ((tail : Tail) → AreFieldOctets fields.now tail octets.now → ⊥) }
{
    let mut rest = octets;
    for field in fields {
        let len = field_len(*field, rest)?;
        rest = &rest[len..];
    }
    Some(rest)
}

/// Returns whether octets are any number of fields of a kind.
fn are_many(field: Field, octets: &[u8]) -> bool
    ensures { IsTrue result ↔ AreMany field octets.now }
{
    let mut rest = octets;
    'parts: while !rest.is_empty() {
        let Some(len) = field_len(field, rest) else {
            return false;
        };
        rest = &rest[len..];
    }
    true
}

/// Returns whether octets are one field of a kind.
fn is_one(field: Field, octets: &[u8]) -> bool
    ensures { IsTrue result ↔ IsField field octets.now }
{
    match field_len(field, octets) {
        Some(len) => len == octets.len(),
        None => false,
    }
}

/// Returns whether octets begin with a field of a kind.
fn begins_with(field: Field, octets: &[u8]) -> bool
    ensures { IsTrue result ↔ BeginsWithField field octets.now }
{
    match field_len(field, octets) {
        Some(_len) => true,
        None => false,
    }
}

/// Returns whether octets are a host identity, and then any number of names.
fn is_identity(octets: &[u8]) -> bool
    ensures { IsTrue result ↔ IsIdentity octets.now }
{
    match field_len(Field::HostIdentity, octets) {
        Some(len) => are_many(Field::Name, &octets[len..]),
        None => false,
    }
}

/// Returns whether octets are this tail.
fn is_tail(tail: Tail, octets: &[u8]) -> bool
    ensures { IsTrue result ↔ IsTail tail octets.now }
{
    match tail {
        Tail::Nothing => octets.is_empty(),
        Tail::Base16 | Tail::Base64 | Tail::Quoted | Tail::Opaque => true,
        Tail::Types => RtypeBitmap::from_octets(octets).is_ok(),
        Tail::Parameters => are_parameters(octets),
        Tail::GatewayAndKey => begins_with(Field::Gateway, octets),
        Tail::FlagAndRelay => is_one(Field::Relay, octets),
        Tail::IdentityAndServers => is_identity(octets),
        Tail::Coordinates => is_one(Field::Location, octets),
        Tail::Many(field) => are_many(field, octets),
        Tail::AtLeastOne(field) => !octets.is_empty() && are_many(field, octets),
        Tail::AtMostOne(field) => octets.is_empty() || is_one(field, octets),
    }
}

/// Returns whether octets are data of a type: the fields of its row, one after another. Octets of
/// any form are data of a type that has no row. Does not allocate.
pub fn is_data(rtype: Rtype, octets: &[u8]) -> bool
    ensures { IsTrue result ↔ IsData rtype octets.now }
{
    let row = row_of(rtype);
    match after_fields(row.2, octets) {
        Some(rest) => is_tail(row.3, rest),
        None => false,
    }
}
