//! Numbers that have mnemonics, as tokens spell them.
ghost use Rattle.std.specs.Prelude.{◌≡◌, ℕ, IfSome, IfNone};
ghost use Rattle.domain_octets.specs.Octets.{Octets};
ghost use Rattle.domain_base.specs.Numbers.{entries, number_named};
ghost use Rattle.domain_types.specs.Mnemonics.{algorithm_names, certificate_names, scheme_names};
ghost use Rattle.domain_types.specs.Mnemonics.{NumberOrMnemonic, ByteOrMnemonic, ShortOrMnemonic};

use crate::spell::{Part, part_of};
use domain_svcb::number;

/// Returns the algorithms of DNSSEC: IANA's mnemonics, and then those of BIND.
pub(crate) fn algorithms() -> &'static [(u16, &'static str)]
    ensures { entries result.now ≡ algorithm_names }
{
    &[
        (1, "RSAMD5"),
        (2, "DH"),
        (3, "DSA"),
        (5, "RSASHA1"),
        (6, "DSA-NSEC3-SHA1"),
        (7, "RSASHA1-NSEC3-SHA1"),
        (8, "RSASHA256"),
        (10, "RSASHA512"),
        (12, "ECC-GOST"),
        (13, "ECDSAP256SHA256"),
        (14, "ECDSAP384SHA384"),
        (15, "ED25519"),
        (16, "ED448"),
        (252, "INDIRECT"),
        (253, "PRIVATEDNS"),
        (254, "PRIVATEOID"),
        (6, "NSEC3DSA"),
        (7, "NSEC3RSASHA1"),
        (12, "ECCGOST"),
    ]
}

/// Returns the types of certificates (RFC 4398, section 2.1).
pub(crate) fn certificates() -> &'static [(u16, &'static str)]
    ensures { entries result.now ≡ certificate_names }
{
    &[
        (1, "PKIX"),
        (2, "SPKI"),
        (3, "PGP"),
        (4, "IPKIX"),
        (5, "ISPKI"),
        (6, "IPGP"),
        (7, "ACPKIX"),
        (8, "IACPKIX"),
        (253, "URI"),
        (254, "OID"),
    ]
}

/// Returns the schemes of notifications (RFC 9859, section 2.1).
pub(crate) fn schemes() -> &'static [(u16, &'static str)]
    ensures { entries result.now ≡ scheme_names }
{
    &[(1, "NOTIFY")]
}

/// Returns the number of a mnemonic of the table, in either case.
#[tactic(auto, using(domain_base::proofs::TextLemmas::same_yes, domain_base::proofs::TextLemmas::same_no, std::proofs::lemmas::List::drop_more))]
fn number_named(table: &[(u16, &str)], text: &[u8]) -> Option<u16>
    ensures { result ≡ number_named (entries table.now) text.now }
{
    for (number, name) in table {
        if name.as_bytes().eq_ignore_ascii_case(text) {
            return Some(*number);
        }
    }
    None
}

/// Returns the number that a token spells: by its mnemonic, or in decimal digits.
#[tactic(auto, using(std::proofs::lemmas::Grind::common_steps, crate::specs::Mnemonics::as_mnemonic, crate::specs::Mnemonics::in_decimal, crate::proofs::TableLemmas::not_in_either_way))]
fn number_or_mnemonic(table: &[(u16, &str)], text: &[u8]) -> Option<u32>
    ensures some { IfSome result (NumberOrMnemonic (entries table.now) text.now) }
    ensures none { IfNone result ((n : ℕ) → NumberOrMnemonic (entries table.now) text.now n → ⊥) }
{
    match number_named(table, text) {
        Some(number) => Some(u32::from(number)),
        None => number(text),
    }
}

/// Returns the octet of the number that a token spells.
pub(crate) fn spell_byte_or_mnemonic(table: &[(u16, &str)], text: &[u8]) -> Option<Part>
    ensures some { IfSome result (ByteOrMnemonic (entries table.now) text.now) }
    ensures none { IfNone result ((octets : Octets)
        → ByteOrMnemonic (entries table.now) text.now octets → ⊥) }
{
    let number = u8::try_from(number_or_mnemonic(table, text)?).ok()?;
    Some(part_of(&[number]))
}

/// Returns the two octets of the number that a token spells.
pub(crate) fn spell_short_or_mnemonic(table: &[(u16, &str)], text: &[u8]) -> Option<Part>
    ensures some { IfSome result (ShortOrMnemonic (entries table.now) text.now) }
    ensures none { IfNone result ((octets : Octets)
        → ShortOrMnemonic (entries table.now) text.now octets → ⊥) }
{
    let number = u16::try_from(number_or_mnemonic(table, text)?).ok()?;
    Some(part_of(&number.to_be_bytes()))
}
