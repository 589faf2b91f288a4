//! The keys of parameters.
ghost use Rattle.std.specs.Prelude.{◌≡◌, ℕ, ◌++◌, ◌==◌, ◌&&◌, nat_lt, slice_index, length, codes, IfSome, IfNone};
ghost use Rattle.domain_octets.specs.Octets.{Octets};
ghost use Rattle.domain_base.specs.Numbers.{entries};
ghost use Rattle.domain_svcb.specs.Keys.{key_names, number_of_name, KeyNumber, kind_of_key};

use crate::numbers::number_of;
use std::fmt;

/// The kinds of values that parameters have.
#[derive(Clone, Copy, Debug)]
pub enum ValueKind {
    /// Keys, with commas between them (RFC 9460, section 8).
    Keys,
    /// Identifiers of protocols, with commas between them (RFC 9460, section 7.1.1).
    Protocols,
    /// No octets (RFC 9460, section 7.1.1; RFC 9540, section 4).
    Nothing,
    /// A number of 16 bits (RFC 9460, section 7.2).
    Port,
    /// IPv4 addresses, with commas between them (RFC 9460, section 7.3).
    Ipv4List,
    /// Octets in Base 64 (RFC 9848, section 3).
    Base64,
    /// IPv6 addresses, with commas between them (RFC 9460, section 7.3).
    Ipv6List,
    /// A string.
    Text,
}

/// Writes what a text has to spell.
impl fmt::Display for ValueKind {
    fn fmt<W: fmt::Write>(&self, f: &mut fmt::Formatter<W>) -> fmt::Result {
        f.write_str(match self {
            ValueKind::Keys => "keys with commas between them, none twice",
            ValueKind::Protocols => "protocols with commas between them, 1 to 255 octets each",
            ValueKind::Nothing => "no value",
            ValueKind::Port => "a number up to 65535",
            ValueKind::Ipv4List => "IPv4 addresses with commas between them",
            ValueKind::Base64 => "octets in Base 64",
            ValueKind::Ipv6List => "IPv6 addresses with commas between them",
            ValueKind::Text => "a string of at most 65535 octets",
        })
    }
}

/// Returns the keys that have names.
fn key_names() -> &'static [(u16, &'static str)]
    ensures { entries result.now ≡ key_names }
{
    &[
        (0, "mandatory"),
        (1, "alpn"),
        (2, "no-default-alpn"),
        (3, "port"),
        (4, "ipv4hint"),
        (5, "ech"),
        (6, "ipv6hint"),
        (7, "dohpath"),
        (8, "ohttp"),
    ]
}

/// Returns the number of a name in the table, in lower case.
#[tactic(auto, using(crate::proofs::KeyLemmas::name_steps))]
fn number_of_name(table: &[(u16, &str)], text: &[u8]) -> Option<u16>
    ensures { result ≡ number_of_name (entries table.now) text.now }
{
    for (number, name) in table {
        if name.as_bytes() == text {
            return Some(*number);
        }
    }
    None
}

/// Returns the key that a text names.
pub(crate) fn named_key(text: &[u8]) -> Option<u16>
    ensures { result ≡ number_of_name key_names text.now }
{
    number_of_name(key_names(), text)
}

/// Returns whether a text begins with a zero and goes on.
fn has_leading_zero(digits: &[u8]) -> bool
    ensures { result ≡ (nat_lt 1 (length digits.now) && slice_index digits.now 0 == 48) }
{
    digits.len() > 1 && digits[0] == b'0'
}

/// Returns what follows `key`, if a text begins with it.
fn after_key(text: &[u8]) -> Option<&[u8]>
    ensures some { IfSome result (λ rest. text.now ≡ codes "key" ++ rest.now) }
    ensures none { IfNone result ((rest : Octets) → text.now ≡ codes "key" ++ rest → ⊥) }
{
    match text {
        [b'k', b'e', b'y', rest @ ..] => Some(rest),
        _ => None,
    }
}

/// Returns the key that `key` and its number spell, without leading zeros.
#[tactic(auto, using(crate::proofs::KeyLemmas::key_steps))]
pub(crate) fn numbered_key(text: &[u8]) -> Option<u16>
    ensures some { IfSome result (KeyNumber text.now) }
    ensures none { IfNone result ((key : ℕ) → KeyNumber text.now key → ⊥) }
{
    let digits = after_key(text)?;
    if has_leading_zero(digits) {
        return None;
    }
    match number_of(digits) {
        Some(key) => Some(key),
        None => None,
    }
}

/// Returns the kind of the values of a key.
pub(crate) fn kind_of_key(key: u16) -> ValueKind
    ensures { result ≡ kind_of_key key }
{
    match key {
        0 => ValueKind::Keys,
        1 => ValueKind::Protocols,
        2 | 8 => ValueKind::Nothing,
        3 => ValueKind::Port,
        4 => ValueKind::Ipv4List,
        5 => ValueKind::Base64,
        6 => ValueKind::Ipv6List,
        _ => ValueKind::Text,
    }
}
