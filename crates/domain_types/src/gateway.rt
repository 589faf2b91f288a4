//! Gateways and relays, which tokens spell (RFC 4025, section 3.1; RFC 8777, section 4.3).
ghost use Rattle.std.specs.Prelude.{◌≡◌, ◌+◌, ◌++◌, ◌∷◌, ◌<◌, ◌≤◌, [], length, map, drop, codes, IfOk, IfErr, OnOk, Option, IsTrue, ◌↔◌};
ghost use Rattle.domain_octets.specs.Octets.{Octets};
ghost use Rattle.domain_types.specs.Fields.{shape_of};
ghost use Rattle.domain_types.specs.declared.field.Shape.TheVariants.{Exactly};
ghost use Rattle.domain_types.specs.Reading.{token_text, TokenFault, FirstToken, FirstTokenFault};
ghost use Rattle.domain_types.specs.Reading.{FirstOctet, gateway_field, gateway_type};
ghost use Rattle.domain_types.specs.Reading.{SpellsGateway, GatewayTokenFault, GatewayHead, GatewayHeadFault};
ghost use Rattle.domain_types.specs.Reading.{KeyTexts, KeyFault, GatewayTexts, GatewayFault};
ghost use Rattle.domain_types.specs.Reading.{RelayTexts, RelayFault};
ghost use Rattle.domain_svcb.specs.Strings.{Grows};

use crate::field::Field;
use crate::read::{append, first, put_base64, spell_token};
use crate::spell::{Part, part_of};
use crate::token::{DataFault, DataFaultKind, Token};
use domain_base::ParsedName;
use domain_octets::Octets;
use std::alloc::Global;

/// Two numbers, of which one is the type of a gateway, and the gateway.
#[derive(Drop)]
struct Head {
    /// The first number.
    first: u8,
    /// The second number.
    second: u8,
    /// The octets of the gateway.
    gateway: Part,
}

/// Returns the octet that the first token spells, as a field of one octet.
pub(crate) fn first_octet(
    alloc: Global,
    field: Field,
    tokens: &[Token<'_>],
    origin: &ParsedName<'_>,
) -> Result<u8, DataFaultKind>
    requires { shape_of field ≡ Exactly 1 }
    ensures ok { IfOk result (λ n. FirstOctet origin.now field (map token_text tokens.now) n
        (drop 1 (map token_text tokens.now))) }
    ensures some { IfOk result (λ _. 0 < length tokens.now) }
    ensures err { IfErr result
        (FirstTokenFault (TokenFault origin.now field) (map token_text tokens.now)) }
{
    if tokens.is_empty() {
        return Err(DataFaultKind::Missing);
    }
    match spell_token(alloc, field, &tokens[0], origin) {
        Ok(part) => Ok(part.as_slice()[0]),
        Err(kind) => Err(kind),
    }
}

/// Returns the field of the gateways of a type, or None for no gateway.
fn gateway_field(kind: u8) -> Option<Field>
    ensures { result ≡ gateway_field kind }
{
    match kind {
        1 => Some(Field::Ipv4),
        2 => Some(Field::Ipv6),
        3 => Some(Field::Name),
        _ => None,
    }
}

/// Returns whether a token is the dot for no gateway.
fn is_dot(token: &Token<'_>) -> bool
    ensures { IsTrue result
        ↔ SpellsGateway [] Option.None (token_text token.now) [] }
{
    !token.is_quoted && token.octets == b".".as_slice()
}

/// Returns the octets of the gateway that the first token spells, as a field or as none.
fn first_gateway(
    alloc: Global,
    field: Option<Field>,
    tokens: &[Token<'_>],
    origin: &ParsedName<'_>,
) -> Result<Part, DataFaultKind>
    ensures ok { IfOk result (λ part. FirstToken
        (λ token. SpellsGateway origin.now field token part) (map token_text tokens.now)
        (drop 1 (map token_text tokens.now))) }
    ensures some { IfOk result (λ _. 0 < length tokens.now) }
    ensures err { IfErr result
        (FirstTokenFault (GatewayTokenFault origin.now field) (map token_text tokens.now)) }
{
    if tokens.is_empty() {
        return Err(DataFaultKind::Missing);
    }
    match field {
        Some(field) => spell_token(alloc, field, &tokens[0], origin),
        None if is_dot(&tokens[0]) => Ok(Part::new()),
        None => Err(DataFaultKind::NotField(Field::Gateway)),
    }
}

/// Returns which of two numbers is the type of a gateway.
fn gateway_type(field: Field, first: u8, second: u8) -> u8
    ensures { result ≡ gateway_type field first second }
{
    if field == Field::GatewayType {
        first
    } else {
        second
    }
}

/// Returns two numbers and a gateway, which the first three tokens spell.
fn read_head(
    alloc: Global,
    first: Field,
    second: Field,
    tokens: &[Token<'_>],
    origin: &ParsedName<'_>,
) -> Result<Head, DataFault>
    requires first { shape_of first ≡ Exactly 1 }
    requires second { shape_of second ≡ Exactly 1 }
    ensures ok { IfOk result (λ head. GatewayHead origin.now first second
        (map token_text tokens.now) head.first head.second head.gateway
        (drop 3 (map token_text tokens.now))) }
    ensures some { IfOk result (λ _. 3 ≤ length tokens.now) }
    ensures err { IfErr result (λ e.
        GatewayHeadFault origin.now first second (map token_text tokens.now) e.token e.kind) }
    ensures place { IfErr result (λ e. e.token ≤ length tokens.now) }
{
    let a = match first_octet(alloc, first, tokens, origin) {
        Ok(a) => a,
        Err(kind) => return Err(DataFault { token: 0, kind }),
    };
    let b = match first_octet(alloc, second, &tokens[1..], origin) {
        Ok(b) => b,
        Err(kind) => return Err(DataFault { token: 1, kind }),
    };
    let field = gateway_field(gateway_type(first, a, b));
    match first_gateway(alloc, field, &tokens[2..], origin) {
        Ok(gateway) => Ok(Head {
            first: a,
            second: b,
            gateway,
        }),
        Err(kind) => Err(DataFault { token: 2, kind }),
    }
}

/// Appends the key of a gateway, which tokens spell.
fn put_key(
    alloc: Global,
    algorithm: u8,
    tokens: &[Token<'_>],
    out: &mut Vec<u8>,
) -> Result<(), DataFault>
    ensures ok { OnOk result ((part : Octets) × KeyTexts algorithm (map token_text tokens.now) part
        × (out.new.items ≡ out.old.items ++ part)) }
    ensures err { IfErr result (λ e.
        KeyFault algorithm (map token_text tokens.now) e.token e.kind) }
    ensures place { IfErr result (λ e. e.token ≡ 0) }
    ensures grows { Grows out.old.items out.new.items }
{
    if algorithm != 0 {
        return match put_base64(alloc, tokens, out) {
            Ok(()) => Ok(()),
            Err(fault) => Err(fault),
        };
    }
    if tokens.is_empty() {
        Ok(())
    } else {
        Err(first(DataFaultKind::Extra))
    }
}

/// Appends two slices.
pub(crate) fn append_both(front: &[u8], back: &[u8], out: &mut Vec<u8>) -> Result<(), DataFault>
    ensures ok { OnOk result (out.new.items ≡ out.old.items ++ (front.now ++ back.now)) }
    ensures err { IfErr result (λ e. (e.token ≡ 0) × (e.kind ≡ DataFaultKind.OutOfMemory)) }
    ensures grows { Grows out.old.items out.new.items }
{
    match append(front, out) {
        Ok(()) => append(back, out),
        Err(fault) => Err(fault),
    }
}

/// Appends the type of a gateway, an algorithm, the gateway and its key, which tokens spell.
pub(crate) fn put_gateway(
    alloc: Global,
    tokens: &[Token<'_>],
    origin: &ParsedName<'_>,
    out: &mut Vec<u8>,
) -> Result<(), DataFault>
    ensures ok { OnOk result ((part : Octets)
        × GatewayTexts origin.now (map token_text tokens.now) part
        × (out.new.items ≡ out.old.items ++ part)) }
    ensures err { IfErr result (λ e.
        GatewayFault origin.now (map token_text tokens.now) e.token e.kind) }
    ensures place { IfErr result (λ e. e.token ≤ length tokens.now) }
    ensures grows { Grows out.old.items out.new.items }
{
    let head = match read_head(alloc, Field::GatewayType, Field::Number8, tokens, origin) {
        Ok(head) => head,
        Err(fault) => return Err(fault),
    };
    if let Err(fault) = append_both(&[head.first, head.second], head.gateway.as_slice(), out) {
        return Err(fault);
    }
    match put_key(alloc, head.second, &tokens[3..], out) {
        Ok(()) => Ok(()),
        Err(fault) => Err(DataFault {
            token: 3 + fault.token,
            kind: fault.kind,
        }),
    }
}

/// Appends the bit for discovery and the type of a relay in one octet, and the relay, which tokens
/// spell.
pub(crate) fn put_relay(
    alloc: Global,
    tokens: &[Token<'_>],
    origin: &ParsedName<'_>,
    out: &mut Vec<u8>,
) -> Result<(), DataFault>
    ensures ok { OnOk result ((part : Octets)
        × RelayTexts origin.now (map token_text tokens.now) part
        × (out.new.items ≡ out.old.items ++ part)) }
    ensures err { IfErr result (λ e.
        RelayFault origin.now (map token_text tokens.now) e.token e.kind) }
    ensures place { IfErr result (λ e. e.token ≤ length tokens.now) }
    ensures grows { Grows out.old.items out.new.items }
{
    let head = match read_head(alloc, Field::Flag, Field::GatewayType, tokens, origin) {
        Ok(head) => head,
        Err(fault) => return Err(fault),
    };
    if tokens.len() > 3 {
        let kind = DataFaultKind::Extra;
        return Err(DataFault { token: 3, kind });
    }
    let front = 128 * head.first + head.second;
    match append_both(&[front], head.gateway.as_slice(), out) {
        Ok(()) => Ok(()),
        Err(fault) => Err(fault),
    }
}
