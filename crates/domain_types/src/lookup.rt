//! Types by number and by mnemonic.
ghost use Rattle.std.specs.Prelude.{◌≡◌, ◌++◌, ℕ, length, IfSome, IfNone, MatchOption, codes, map};
ghost use Rattle.std.specs.{Option.option_map};
ghost use Rattle.domain_base.specs.Numbers.{HasPrefix, IsWithoutPrefix, number_named, name_of};
ghost use Rattle.domain_base.specs.Scan.{IsNumber};
ghost use Rattle.domain_types.specs.Table.{type_row, type_rows, row_in, names_of, mnemonic_of, MnemonicText};

use crate::field::Tail;
use crate::table::{Row, rows};
use domain_base::Rtype;
use domain_svcb::number_of;

/// Returns the row of a type in the table. A type without a row has octets of any form.
fn find(table: &[Row], number: u16) -> Row
    ensures { type_row result ≡ row_in (map type_row table.now) number }
{
    for row in table {
        if row.0 == number {
            return *row;
        }
    }
    Row(number, "", &[], Tail::Opaque)
}

/// Returns the row of a type.
pub(crate) fn row_of(rtype: Rtype) -> Row
    ensures { type_row result ≡ row_in type_rows rtype }
{
    find(rows(), rtype.to_int())
}

/// Returns the mnemonic of a number in the table.
fn name_in(table: &[Row], number: u16) -> Option<&'static str>
    ensures { option_map (λ name. name.now) result
        ≡ name_of (names_of (map type_row table.now)) number }
{
    for row in table {
        if row.0 == number {
            return Some(row.1);
        }
    }
    None
}

/// Returns IANA's mnemonic of a type, if it has one. It is ANY for the type that IANA calls `*`.
pub fn mnemonic(rtype: Rtype) -> Option<&'static str>
    ensures { option_map (λ name. name.now) result ≡ mnemonic_of rtype }
{
    name_in(rows(), rtype.to_int())
}

/// Returns the number of a mnemonic in the table, in either case.
#[tactic(auto, using(domain_base::proofs::TextLemmas::same_yes, domain_base::proofs::TextLemmas::same_no, std::proofs::lemmas::List::drop_more))]
fn number_in(table: &[Row], text: &[u8]) -> Option<u16>
    ensures { result ≡ number_named (names_of (map type_row table.now)) text.now }
{
    for row in table {
        if row.1.as_bytes().eq_ignore_ascii_case(text) {
            return Some(row.0);
        }
    }
    None
}

/// Returns the text after `TYPE`, in either case, or None if the text does not begin with it.
fn after_type(text: &[u8]) -> Option<&[u8]>
    ensures { MatchOption result (IsWithoutPrefix (codes "TYPE") text.now) (λ rest.
        HasPrefix (codes "TYPE") text.now rest.now) }
{
    let (front, rest) = text.split_at_checked(4)?;
    if !front.eq_ignore_ascii_case(b"TYPE") {
        return None;
    }
    Some(rest)
}

/// Returns the type that a text spells: by its mnemonic, or by `TYPE` and its number, in either
/// case (RFC 3597, section 5). Does not allocate.
#[tactic(auto, using(domain_base::specs::Numbers::by_name, domain_base::specs::Numbers::by_number, domain_base::proofs::TextLemmas::no_number, domain_base::proofs::TextLemmas::no_digits))]
pub fn rtype_of(text: &[u8]) -> Option<Rtype>
    ensures some { IfSome result (MnemonicText text.now) }
    ensures none { IfNone result ((t : ℕ) → MnemonicText text.now t → ⊥) }
{
    if let Some(number) = number_in(rows(), text) {
        return Some(Rtype::from_int(number));
    }
    let number = number_of(after_type(text)?)?;
    Some(Rtype::from_int(number))
}
