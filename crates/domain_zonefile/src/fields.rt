//! The fields of an entry before its data (RFC 1035, section 5.1).
ghost use Rattle.std.specs.Prelude.{◌≡◌, map, Some, codes};
ghost use Rattle.domain_zonefile.specs.Fields.{ttl_field, class_field, first_ttl, first_class, prefix_of, then_class, then_ttl};
ghost use Rattle.domain_types.specs.Reading.{token_text};

use crate::{Token, TtlText, read_class, read_ttl};
use std::error::Error;
use std::fmt;

/// The TTL and the class before a type, where they are given.
#[derive(Clone, Copy, Debug, PartialEq, Eq)]
pub struct Prefix {
    /// The TTL in seconds.
    pub ttl: Option<u32>,
    /// The number of the class.
    pub class: Option<u16>,
    /// The number of tokens that they take.
    pub count: usize,
}

/// The error of a TTL of more than 32 bits (RFC 2181, section 8).
#[derive(Clone, Copy, Debug, PartialEq, Eq)]
pub struct LargeTtl {
    /// The number of its token, from 0.
    pub token: usize,
}

impl fmt::Display for LargeTtl {
    ghost output = { λ _. Some (codes "TTL of more than 32 bits") };

    fn fmt<W: fmt::Write>(&self, f: &mut fmt::Formatter<W>) -> fmt::Result {
        f.write_str("TTL of more than 32 bits")
    }
}

impl Error for LargeTtl {}

/// Returns a token as a TTL. A quoted token is none.
pub(crate) fn ttl_field(token: &Token) -> TtlText
    ensures { result ≡ ttl_field (token_text token.now) }
{
    if token.is_quoted {
        return TtlText::NoTtl;
    }
    read_ttl(token.octets)
}

/// Returns a token as a class. A quoted token is none.
fn class_field(token: &Token) -> Option<u16>
    ensures { result ≡ class_field (token_text token.now) }
{
    if token.is_quoted {
        return None;
    }
    read_class(token.octets)
}

/// Returns the first token as a TTL.
fn first_ttl(tokens: &[Token]) -> TtlText
    ensures { result ≡ first_ttl (map token_text tokens.now) }
{
    match tokens {
        [token, ..] => ttl_field(token),
        [] => TtlText::NoTtl,
    }
}

/// Returns the first token as a class.
fn first_class(tokens: &[Token]) -> Option<u16>
    ensures { result ≡ first_class (map token_text tokens.now) }
{
    match tokens {
        [token, ..] => class_field(token),
        [] => None,
    }
}

/// Returns the prefix of a TTL, and of a class if one follows.
fn then_class(ttl: u32, class: Option<u16>) -> Prefix
    ensures { result ≡ then_class ttl class }
{
    Prefix {
        ttl: Some(ttl),
        class,
        count: if class.is_some() { 2 } else { 1 },
    }
}

/// Returns the prefix of a class, and of a TTL if one follows.
fn then_ttl(class: u16, ttl: TtlText) -> Result<Prefix, LargeTtl>
    ensures { result ≡ then_ttl class ttl }
{
    let class = Some(class);
    match ttl {
        TtlText::NoTtl => Ok(Prefix {
            ttl: None,
            class,
            count: 1,
        }),
        TtlText::TooLarge => Err(LargeTtl { token: 1 }),
        TtlText::Seconds(seconds) => Ok(Prefix {
            ttl: Some(seconds),
            class,
            count: 2,
        }),
    }
}

/// Returns the TTL and the class at the front of tokens, in either order.
///
/// # Errors
///
/// `LargeTtl` if a TTL there has more than 32 bits.
pub fn read_prefix(tokens: &[Token]) -> Result<Prefix, LargeTtl>
    ensures { result ≡ prefix_of (map token_text tokens.now) }
{
    let rest = tokens.get(1..).unwrap_or(&[]);
    match first_ttl(tokens) {
        TtlText::Seconds(ttl) => Ok(then_class(ttl, first_class(rest))),
        TtlText::TooLarge => Err(LargeTtl { token: 0 }),
        TtlText::NoTtl => match first_class(tokens) {
            Some(class) => then_ttl(class, first_ttl(rest)),
            None => Ok(Prefix {
                ttl: None,
                class: None,
                count: 0,
            }),
        },
    }
}
