//! The tokens of an entry of a zone file, and their faults as data.
ghost use Rattle.std.specs.Prelude.{◌≡◌, false};
ghost use Rattle.domain_types.specs.Reading.{token_text, has_quote, has_inner_quote};

use crate::field::{Field, Tail};
use domain_svcb::ParameterFault;

/// A token of a zone file: the octets between its separators, without the outer quotes. Escapes are
/// still in it, and so are quotes after its first equals sign, as in `alpn="h2,h3"`.
#[derive(Clone, Copy)]
pub struct Token<'a> {
    /// The octets, without the outer quotes.
    pub octets: &'a [u8],
    /// Whether quotes were around it.
    pub is_quoted: bool,
}

/// Returns whether one of the quotes in octets is taken by no backslash.
#[tactic(auto, using(std::proofs::lemmas::Grind::common_steps, crate::proofs::QuoteLemmas::quote_steps))]
fn has_free_quote(octets: &[u8]) -> bool
    ensures { result ≡ has_quote false octets.now }
{
    let mut taken = false;
    for octet in octets {
        if taken {
            taken = false;
            continue;
        }
        if *octet == b'"' {
            return true;
        }
        taken = *octet == b'\\';
    }
    false
}

/// Returns whether a quote is in octets that no backslash takes. Most octets have no quote at all.
#[tactic(auto, using(std::proofs::lemmas::Grind::common_steps, crate::proofs::QuoteLemmas::no_quote))]
fn has_quote(octets: &[u8]) -> bool
    ensures { result ≡ has_quote false octets.now }
{
    if octets.contains(&b'"') {
        return has_free_quote(octets);
    }
    false
}

/// Returns whether quotes are in a token and not around it, as after an equals sign.
pub(crate) fn has_inner_quote(token: &Token<'_>) -> bool
    ensures { result ≡ has_inner_quote (token_text token.now) }
{
    !token.is_quoted && has_quote(token.octets)
}

/// A fault of tokens that are read as data.
#[derive(Clone, Copy, Debug)]
pub struct DataFault {
    /// The place of the token at fault, counted from 0. It is the number of tokens where one is
    /// missing.
    pub token: usize,
    /// The fault.
    pub kind: DataFaultKind,
}

/// The kind of a fault of data.
#[derive(Clone, Copy, Debug)]
pub enum DataFaultKind {
    /// A field is missing.
    Missing,
    /// The token follows the data.
    Extra,
    /// Quotes are around a field that has none, or in a token that is no parameter of a service.
    Quoted,
    /// The token does not spell a field of this kind.
    NotField(Field),
    /// The tokens do not spell what follows the fields.
    NotTail(Tail),
    /// The token adds no parameter, or the parameters do not go together.
    NotParameter(ParameterFault),
    /// Data of the type have no text of their own here: write the generic form.
    NoText,
    /// The tokens after the mark `\#` are not a number and as many octets in Base 16.
    NotGeneric,
    /// The octets are not data of the type.
    NotData,
    /// Memory ran out.
    OutOfMemory,
}
