//! The canonical form of data (RFC 4034, section 6.2; RFC 6840, section 5.1).
ghost use Rattle.std.specs.Prelude.{◌≡◌, ◌+◌, ◌++◌, ◌≤◌, length, take, drop, map, OnErr, OnOk};
ghost use Rattle.std.specs.{Char.to_ascii_lowercase};
ghost use Rattle.domain_types.specs.Fields.{AreFieldOctets};
ghost use Rattle.domain_types.specs.Canonical.{IsData, lowered_part, lowered_fields, canonical_form};
ghost use Rattle.domain_types.specs.declared.field.Tail.{Tail};

use crate::data::is_data;
use crate::field::Field;
use crate::lookup::row_of;
use crate::measure::field_len;
use domain_base::Rtype;
use std::alloc::AllocError;

/// Lowers a part of the octets, if the canonical form lowers the field.
fn lower_part(field: Field, octets: &mut [u8], start: usize, len: usize)
    requires { start + len ≤ length octets.old }
    ensures { octets.new ≡ take start octets.old
        ++ (lowered_part field (take len (drop start octets.old))
        ++ drop len (drop start octets.old)) }
{
    if field.is_lowered() {
        octets[start..start + len].make_ascii_lowercase();
    }
}

/// Lowers the names of the fields that begin at a place of the octets.
fn lower_fields(fields: &[Field], octets: &mut [u8], start: usize)
    requires inside { start ≤ length octets.old }
    requires fields { (tail : Tail) × AreFieldOctets fields.now tail (drop start octets.old) }
    ensures { octets.new ≡ take start octets.old
        ++ lowered_fields fields.now (drop start octets.old) }
{
    let total = octets.len();
    let mut place = start;
    for field in fields {
        let Some(len) = field_len(*field, &octets[place..]) else {
            unreachable!();
        };
        lower_part(*field, octets, place, len);
        place += len;
    }
}

/// Appends the canonical form of data of a type: all octets, with the names lowered that the row of
/// the type lowers. Octets that are not data of the type are appended as they are.
///
/// # Errors
///
/// `AllocError` if there is no memory for the octets. `out` is then unchanged.
pub fn put_canonical(rtype: Rtype, octets: &[u8], out: &mut Vec<u8>) -> Result<(), AllocError>
    ensures lowered { OnOk result (IsData rtype octets.now
        → out.new.items ≡ out.old.items ++ canonical_form rtype octets.now) }
    ensures other { OnOk result ((IsData rtype octets.now → ⊥)
        → out.new.items ≡ out.old.items ++ octets.now) }
    ensures err { OnErr result (out.new.items ≡ out.old.items) }
{
    let start = out.len();
    out.extend_from_slice(octets)?;
    if is_data(rtype, octets) {
        lower_fields(row_of(rtype).2, out.as_mut_slice(), start);
    }
    Ok(())
}
