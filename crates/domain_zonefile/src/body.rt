//! The part of an entry after its owner.
ghost use Rattle.std.specs.Prelude.{◌≡◌, ◌≤◌, ◌<◌, ◌+◌, ◌++◌, ℕ, length, map, IfOk, IfErr, IfSome, IfNone, OnErr};
ghost use Rattle.domain_octets.specs.Octets.{Octets};
ghost use Rattle.domain_types.specs.Reading.{token_text, SpellsType};
ghost use Rattle.domain_zonefile.specs.Records.{owns_records, IsTyped, IsBody, TypedFault, BodyFault};

use crate::fault::{EntryFault, EntryFaultKind, fault};
use crate::{Prefix, Token, read_prefix};
use domain_base::{ParsedName, Rtype};
use domain_types::{read_data, rtype_of};
use std::alloc::Global;

/// The greatest number of octets of data (RFC 1035, section 3.2.1).
const MAX_DATA: usize = 65535;

/// The fields after the owner, besides the data.
#[derive(Clone, Copy, Debug)]
pub struct Body {
    /// The TTL in seconds, if it is given.
    pub ttl: Option<u32>,
    /// The class, if it is given.
    pub class: Option<u16>,
    /// The type.
    pub rtype: Rtype,
}

/// Returns whether a record may have a type. 0, 41 and 128 to 255 are no types of records (RFC
/// 6895, section 3.1).
pub fn owns_records(rtype: Rtype) -> bool
    ensures { result ≡ owns_records rtype }
{
    let number = rtype.to_int();
    !(number == 0 || number == 41 || 128 <= number && number <= 255)
}

/// Returns the type that a token spells without quotes.
fn read_type(token: &Token<'_>) -> Option<Rtype>
    ensures some { IfSome result (SpellsType (token_text token.now)) }
    ensures none { IfNone result ((t : ℕ) → SpellsType (token_text token.now) t → ⊥) }
{
    if token.is_quoted {
        return None;
    }
    rtype_of(token.octets)
}

/// Returns the type at the front of tokens, and the TTL and the class before it.
fn read_typed(tokens: &[Token<'_>]) -> Result<(Prefix, Rtype), EntryFault>
    ensures ok { IfOk result (λ p. IsTyped (map token_text tokens.now) p.0 p.1) }
    ensures within { IfOk result (λ p. p.0.count < length tokens.now) }
    ensures err { IfErr result (λ e. TypedFault (map token_text tokens.now) e.token e.kind) }
{
    let prefix = match read_prefix(tokens) {
        Ok(prefix) => prefix,
        Err(large) => return Err(fault(large.token, EntryFaultKind::LargeTtl)),
    };
    let Some(token) = tokens.get(prefix.count) else {
        return Err(fault(prefix.count, EntryFaultKind::NoType));
    };
    match read_type(token) {
        Some(rtype) if owns_records(rtype) => Ok((prefix, rtype)),
        Some(_) => Err(fault(prefix.count, EntryFaultKind::NoRecords)),
        None => Err(fault(prefix.count, EntryFaultKind::NotType)),
    }
}

/// Reads what follows the owner, and appends the octets of the data. After an error `data` is as it
/// was.
#[tactic(auto, using(crate::proofs::LineLemmas::typed_place))]
pub(crate) fn read_body(
    alloc: Global,
    tokens: &[Token<'_>],
    origin: &ParsedName<'_>,
    data: &mut Vec<u8>,
) -> Result<Body, EntryFault>
    ensures ok { IfOk result (λ body. (octets : Octets)
        × IsBody origin.now (map token_text tokens.now) body octets
        × («data».new.items ≡ «data».old.items ++ octets)) }
    ensures err { IfErr result (λ e.
        BodyFault origin.now (map token_text tokens.now) e.token e.kind) }
    ensures place { IfErr result (λ e. e.token ≤ length tokens.now + 2) }
    ensures same { OnErr result («data».new.items ≡ «data».old.items) }
{
    let (prefix, rtype) = match read_typed(tokens) {
        Ok(typed) => typed,
        Err(fault) => return Err(fault),
    };
    let count = prefix.count + 1;
    let start = data.len();
    if let Err(e) = read_data(alloc, rtype, &tokens[count..], origin, data) {
        return Err(fault(count + e.token, EntryFaultKind::Data(e.kind)));
    }
    if data.len() - start > MAX_DATA {
        data.truncate(start);
        return Err(fault(count, EntryFaultKind::LongData));
    }
    Ok(Body {
        ttl: prefix.ttl,
        class: prefix.class,
        rtype,
    })
}
