//! Reading data of a type from tokens.
ghost use Rattle.std.specs.Prelude.{◌≡◌, ◌+◌, ◌++◌, ◌<◌, ◌≤◌, ℕ, [], length, map, drop, true, false, IfOk, IfErr, OnErr, OnOk, IsTrue, ◌↔◌, codes};
ghost use Rattle.domain_octets.specs.Octets.{Octets};
ghost use Rattle.domain_types.specs.Spelling.{FieldSpelling};
ghost use Rattle.domain_types.specs.Reading.{token_text, may_be_quoted, is_misquoted, SpellsField};
ghost use Rattle.domain_types.specs.Reading.{TokenFault, ManyTexts, ManyFault};
ghost use Rattle.domain_types.specs.Reading.{LayoutFault, AreRead, AreUnquoted, token_texts};
ghost use Rattle.domain_types.specs.Reading.{TailTexts, TailFault, LayoutTexts, IsMarked, GenericTexts};
ghost use Rattle.domain_types.specs.Reading.{GenericTextsFault, DataTexts, DataTextFault};
ghost use Rattle.domain_types.specs.Canonical.{IsData};
ghost use Rattle.domain_types.specs.Reading.{BaseTexts, BaseFault, QuotedTexts, QuotedFault, tail_kind};
ghost use Rattle.domain_codecs.specs.declared.codec.Codec.{Codec};
ghost use Rattle.domain_svcb.specs.Strings.{SpellsNothing, StringText, Grows};
ghost use Rattle.domain_types.specs.declared.field.Tail.{Tail};
ghost use Rattle.domain_codecs.specs.Codec.{Decodes};
ghost use Rattle.domain_codecs.specs.declared.codec.Codec.TheVariants as codecs;
ghost use Rattle.std.specs.{List.concat, Prelude.MatchOption};

use crate::bitmap::put_types;
use crate::data::is_data;
use crate::field::{Field, Tail};
use crate::gateway::{put_gateway, put_relay};
use crate::identity::put_identity;
use crate::location::put_location;
use crate::lookup::row_of;
use crate::parameters::put_parameters;
use crate::spell::{Part, spell};
use crate::table::Row;
use crate::token::{DataFault, DataFaultKind, Token, has_inner_quote};
use base64::DecodeAllocError;
use base64::engine::general_purpose::STANDARD;
use domain_base::{ParsedName, Rtype};
use domain_octets::Octets;
use domain_svcb::{SpellFault, number_of, put_string};
use hex::FromHexError;
use std::alloc::{AllocError, Global};

/// Returns whether quotes are in a token, or around one that has to spell a field without quotes.
fn is_misquoted(field: Field, token: &Token<'_>) -> bool
    ensures { result ≡ is_misquoted field (token_text token.now) }
{
    has_inner_quote(token) || token.is_quoted && field != Field::CharacterString
}

/// Returns the octets of the field that a token spells.
#[tactic(auto, using(std::proofs::lemmas::Grind::common_steps, crate::proofs::ReadLemmas::field_steps))]
pub(crate) fn spell_token(
    alloc: Global,
    field: Field,
    token: &Token<'_>,
    origin: &ParsedName<'_>,
) -> Result<Part, DataFaultKind>
    ensures ok { IfOk result (SpellsField origin.now field (token_text token.now)) }
    ensures err { IfErr result (TokenFault origin.now field (token_text token.now)) }
{
    if is_misquoted(field, token) {
        return Err(DataFaultKind::Quoted);
    }
    match spell(alloc, field, token.octets, origin) {
        Ok(part) => Ok(part),
        Err(SpellFault::Invalid) => Err(DataFaultKind::NotField(field)),
        Err(SpellFault::OutOfMemory) => Err(DataFaultKind::OutOfMemory),
    }
}

/// Appends the field that a token spells.
fn put_field(
    alloc: Global,
    field: Field,
    token: &Token<'_>,
    origin: &ParsedName<'_>,
    out: &mut Vec<u8>,
) -> Result<(), DataFaultKind>
    ensures ok { OnOk result ((part : Octets) × SpellsField origin.now field
        (token_text token.now) part × (out.new.items ≡ out.old.items ++ part)) }
    ensures err { IfErr result (TokenFault origin.now field (token_text token.now)) }
    ensures same { OnErr result (out.new.items ≡ out.old.items) }
{
    let part = match spell_token(alloc, field, token, origin) {
        Ok(part) => part,
        Err(kind) => return Err(kind),
    };
    match out.extend_from_slice(part.as_slice()) {
        Ok(()) => Ok(()),
        Err(_) => Err(DataFaultKind::OutOfMemory),
    }
}

/// Appends the fields of one kind that tokens spell, one each.
pub(crate) fn put_many(
    alloc: Global,
    field: Field,
    tokens: &[Token<'_>],
    origin: &ParsedName<'_>,
    out: &mut Vec<u8>,
) -> Result<(), DataFault>
    ensures ok { OnOk result ((part : Octets)
        × ManyTexts origin.now field (map token_text tokens.now) part
        × (out.new.items ≡ out.old.items ++ part)) }
    ensures err { IfErr result (λ e.
        ManyFault origin.now field (map token_text tokens.now) e.token e.kind) }
    ensures place { IfErr result (λ e. e.token ≤ length tokens.now) }
    ensures grows { Grows out.old.items out.new.items }
{
    for (place, token) in tokens.iter().enumerate() {
        if let Err(kind) = put_field(alloc, field, token, origin, out) {
            return Err(DataFault { token: place, kind });
        }
    }
    Ok(())
}

/// Appends the fields that the first tokens spell, one each.
fn put_fields(
    alloc: Global,
    fields: &[Field],
    tokens: &[Token<'_>],
    origin: &ParsedName<'_>,
    out: &mut Vec<u8>,
) -> Result<(), DataFault>
    ensures ok { OnOk result (AreRead origin.now fields.now (map token_text tokens.now)
        (length fields.now) out.old.items out.new.items) }
    ensures inside { OnOk result (length fields.now ≤ length tokens.now) }
    ensures err { IfErr result (λ e. (tail : Tail)
        → LayoutFault origin.now fields.now tail (map token_text tokens.now) e.token e.kind) }
    ensures place { IfErr result (λ e. e.token ≤ length tokens.now) }
    ensures grows { Grows out.old.items out.new.items }
{
    for (place, field) in fields.iter().enumerate() {
        if place >= tokens.len() {
            let kind = DataFaultKind::Missing;
            return Err(DataFault { token: place, kind });
        }
        if let Err(kind) = put_field(alloc, *field, &tokens[place], origin, out) {
            return Err(DataFault { token: place, kind });
        }
    }
    Ok(())
}

/// Returns the octets of tokens without quotes, joined, or None if one has quotes.
fn join_tokens(alloc: Global, tokens: &[Token<'_>]) -> Result<Option<Vec<u8>>, AllocError>
    ensures { IfOk result (λ found. MatchOption found
        (AreUnquoted (map token_text tokens.now) → ⊥)
        (λ text. AreUnquoted (map token_text tokens.now)
        × (text.items ≡ concat (token_texts (map token_text tokens.now))))) }
{
    let mut text = Vec::new(alloc);
    for token in tokens {
        if token.is_quoted {
            return Ok(None);
        }
        text.extend_from_slice(token.octets)?;
    }
    Ok(Some(text))
}

/// Returns the octets that a text in Base 16 encodes.
pub(crate) fn decode16(alloc: Global, text: &[u8]) -> Result<Vec<u8>, SpellFault>
    ensures ok { IfOk result (λ octets. Decodes codecs.Base16 text.now octets.items) }
    ensures err { IfErr result (SpellsNothing (Decodes codecs.Base16 text.now)) }
{
    match hex::decode(alloc, text) {
        Ok(octets) => Ok(octets),
        Err(FromHexError::OutOfMemory) => Err(SpellFault::OutOfMemory),
        Err(_) => Err(SpellFault::Invalid),
    }
}

/// Returns the octets that a text in Base 64 encodes.
pub(crate) fn decode64(alloc: Global, text: &[u8]) -> Result<Vec<u8>, SpellFault>
    ensures ok { IfOk result (λ octets. Decodes codecs.Base64 text.now octets.items) }
    ensures err { IfErr result (SpellsNothing (Decodes codecs.Base64 text.now)) }
{
    match STANDARD.decode(alloc, text) {
        Ok(octets) => Ok(octets),
        Err(DecodeAllocError::OutOfMemory) => Err(SpellFault::OutOfMemory),
        Err(DecodeAllocError::DecodeError(_)) => Err(SpellFault::Invalid),
    }
}

/// Appends octets.
pub(crate) fn append(octets: &[u8], out: &mut Vec<u8>) -> Result<(), DataFault>
    ensures ok { OnOk result (out.new.items ≡ out.old.items ++ octets.now) }
    ensures err { IfErr result (λ e. (e.token ≡ 0) × (e.kind ≡ DataFaultKind.OutOfMemory)) }
    ensures same { OnErr result (out.new.items ≡ out.old.items) }
{
    match out.extend_from_slice(octets) {
        Ok(()) => Ok(()),
        Err(_) => Err(first(DataFaultKind::OutOfMemory)),
    }
}

/// Returns a fault of the first token.
pub(crate) fn first(kind: DataFaultKind) -> DataFault
    ensures { result ≡ record { token = 0; kind = kind } }
{
    DataFault { token: 0, kind }
}

/// Returns the fault of tokens that do not spell a tail.
pub(crate) fn fault_of(fault: SpellFault, tail: Tail) -> DataFault
    ensures { (result.token ≡ 0) × (result.kind ≡ tail_kind fault tail) }
{
    match fault {
        SpellFault::Invalid => first(DataFaultKind::NotTail(tail)),
        SpellFault::OutOfMemory => first(DataFaultKind::OutOfMemory),
    }
}

/// Returns the text of tokens that have to be one text of a codec.
fn base_text(alloc: Global, tail: Tail, tokens: &[Token<'_>]) -> Result<Vec<u8>, DataFault>
    ensures some { IfOk result (λ _. 0 < length tokens.now) }
    ensures unquoted { IfOk result (λ _. AreUnquoted (map token_text tokens.now)) }
    ensures text { IfOk result (λ text. text.items ≡ concat
        (token_texts (map token_text tokens.now))) }
    ensures err { IfErr result (λ e. (codec : Codec)
        → BaseFault codec tail (map token_text tokens.now) e.token e.kind) }
    ensures place { IfErr result (λ e. e.token ≡ 0) }
{
    if tokens.is_empty() {
        return Err(first(DataFaultKind::Missing));
    }
    match join_tokens(alloc, tokens) {
        Ok(Some(text)) => Ok(text),
        Ok(None) => Err(first(DataFaultKind::NotTail(tail))),
        Err(_) => Err(first(DataFaultKind::OutOfMemory)),
    }
}

/// Appends the octets that tokens encode in Base 16.
#[tactic(auto, using(std::proofs::lemmas::Grind::common_steps, crate::proofs::ReadLemmas::base_texts, crate::proofs::ReadLemmas::base_fault))]
fn put_base16(alloc: Global, tokens: &[Token<'_>], out: &mut Vec<u8>) -> Result<(), DataFault>
    ensures ok { OnOk result ((part : Octets)
        × BaseTexts codecs.Base16 (map token_text tokens.now) part
        × (out.new.items ≡ out.old.items ++ part)) }
    ensures err { IfErr result (λ e.
        BaseFault codecs.Base16 Tail.Base16 (map token_text tokens.now) e.token e.kind) }
    ensures place { IfErr result (λ e. e.token ≡ 0) }
    ensures grows { Grows out.old.items out.new.items }
{
    let text = match base_text(alloc, Tail::Base16, tokens) {
        Ok(text) => text,
        Err(fault) => return Err(fault),
    };
    match decode16(alloc, text.as_slice()) {
        Ok(octets) => match append(octets.as_slice(), out) {
            Ok(()) => Ok(()),
            Err(fault) => Err(fault),
        },
        Err(fault) => Err(fault_of(fault, Tail::Base16)),
    }
}

/// Appends the octets that tokens encode in Base 64.
#[tactic(auto, using(std::proofs::lemmas::Grind::common_steps, crate::proofs::ReadLemmas::base_texts, crate::proofs::ReadLemmas::base_fault))]
pub(crate) fn put_base64(
    alloc: Global,
    tokens: &[Token<'_>],
    out: &mut Vec<u8>,
) -> Result<(), DataFault>
    ensures ok { OnOk result ((part : Octets)
        × BaseTexts codecs.Base64 (map token_text tokens.now) part
        × (out.new.items ≡ out.old.items ++ part)) }
    ensures err { IfErr result (λ e.
        BaseFault codecs.Base64 Tail.Base64 (map token_text tokens.now) e.token e.kind) }
    ensures place { IfErr result (λ e. e.token ≡ 0) }
    ensures grows { Grows out.old.items out.new.items }
{
    let text = match base_text(alloc, Tail::Base64, tokens) {
        Ok(text) => text,
        Err(fault) => return Err(fault),
    };
    match decode64(alloc, text.as_slice()) {
        Ok(octets) => match append(octets.as_slice(), out) {
            Ok(()) => Ok(()),
            Err(fault) => Err(fault),
        },
        Err(fault) => Err(fault_of(fault, Tail::Base64)),
    }
}

/// Appends the octets of the one string that tokens spell.
fn put_quoted(tokens: &[Token<'_>], out: &mut Vec<u8>) -> Result<(), DataFault>
    ensures ok { OnOk result ((part : Octets) × QuotedTexts (map token_text tokens.now) part
        × (out.new.items ≡ out.old.items ++ part)) }
    ensures err { IfErr result (λ e. QuotedFault (map token_text tokens.now) e.token e.kind) }
    ensures place { IfErr result (λ e. e.token ≤ length tokens.now) }
    ensures grows { Grows out.old.items out.new.items }
{
    if tokens.is_empty() {
        return Err(first(DataFaultKind::Missing));
    }
    if tokens.len() > 1 {
        let kind = DataFaultKind::Extra;
        return Err(DataFault { token: 1, kind });
    }
    if has_inner_quote(&tokens[0]) {
        return Err(first(DataFaultKind::Quoted));
    }
    match put_string(tokens[0].octets, out) {
        Ok(()) => Ok(()),
        Err(fault) => Err(fault_of(fault, Tail::Quoted)),
    }
}

/// Appends what follows the fields, which tokens spell.
#[tactic(auto, using(std::proofs::lemmas::Grind::common_steps, crate::proofs::ReadLemmas::tail_steps))]
fn put_tail(
    alloc: Global,
    tail: Tail,
    tokens: &[Token<'_>],
    origin: &ParsedName<'_>,
    out: &mut Vec<u8>,
) -> Result<(), DataFault>
    ensures ok { OnOk result ((part : Octets)
        × TailTexts origin.now tail (map token_text tokens.now) part
        × (out.new.items ≡ out.old.items ++ part)) }
    ensures err { IfErr result (λ e.
        TailFault origin.now tail (map token_text tokens.now) e.token e.kind) }
    ensures place { IfErr result (λ e. e.token ≤ length tokens.now) }
    ensures grows { Grows out.old.items out.new.items }
{
    match tail {
        Tail::Nothing if tokens.is_empty() => Ok(()),
        Tail::Nothing => Err(first(DataFaultKind::Extra)),
        Tail::Base16 => put_base16(alloc, tokens, out),
        Tail::Base64 => put_base64(alloc, tokens, out),
        Tail::Quoted => put_quoted(tokens, out),
        Tail::Opaque => Err(first(DataFaultKind::NoText)),
        Tail::Types => put_types(alloc, tokens, out),
        Tail::Parameters => put_parameters(alloc, tokens, out),
        Tail::GatewayAndKey => put_gateway(alloc, tokens, origin, out),
        Tail::FlagAndRelay => put_relay(alloc, tokens, origin, out),
        Tail::IdentityAndServers => put_identity(alloc, tokens, origin, out),
        Tail::Coordinates => put_location(tokens, out),
        Tail::Many(field) => put_many(alloc, field, tokens, origin, out),
        Tail::AtLeastOne(_) if tokens.is_empty() => Err(first(DataFaultKind::Missing)),
        Tail::AtLeastOne(field) => put_many(alloc, field, tokens, origin, out),
        Tail::AtMostOne(_) if tokens.len() > 1 => {
            let kind = DataFaultKind::Extra;
            Err(DataFault { token: 1, kind })
        }
        Tail::AtMostOne(field) => put_many(alloc, field, tokens, origin, out),
    }
}

/// Appends the fields of a row and what follows them, which tokens spell.
fn put_layout(
    alloc: Global,
    row: &Row,
    tokens: &[Token<'_>],
    origin: &ParsedName<'_>,
    out: &mut Vec<u8>,
) -> Result<(), DataFault>
    ensures ok { OnOk result ((part : Octets)
        × LayoutTexts origin.now row.now.2.now row.now.3 (map token_text tokens.now) part
        × (out.new.items ≡ out.old.items ++ part)) }
    ensures err { IfErr result (λ e.
        LayoutFault origin.now row.now.2.now row.now.3 (map token_text tokens.now) e.token e.kind) }
    ensures place { IfErr result (λ e. e.token ≤ length tokens.now) }
    ensures grows { Grows out.old.items out.new.items }
{
    if let Err(fault) = put_fields(alloc, row.2, tokens, origin, out) {
        return Err(fault);
    }
    let count = row.2.len();
    match put_tail(alloc, row.3, &tokens[count..], origin, out) {
        Ok(()) => Ok(()),
        Err(fault) => Err(DataFault {
            token: count + fault.token,
            kind: fault.kind,
        }),
    }
}

/// Returns whether a text is the mark of the generic form.
fn is_mark(text: &[u8]) -> bool
    ensures { IsTrue result ↔ (text.now ≡ codes "\\#") }
{
    text == b"\\#".as_slice()
}

/// Returns whether the first token is the mark of the generic form, without quotes.
fn is_marked(tokens: &[Token<'_>]) -> bool
    ensures { IsTrue result ↔ IsMarked (map token_text tokens.now) }
{
    if tokens.is_empty() || tokens[0].is_quoted {
        return false;
    }
    is_mark(tokens[0].octets)
}

/// Returns the octets that the tokens after the mark spell, and None if memory ran out.
#[tactic(auto, using(std::proofs::lemmas::Grind::common_steps, crate::proofs::ReadLemmas::generic_steps))]
fn generic_octets(alloc: Global, tokens: &[Token<'_>]) -> Result<Vec<u8>, SpellFault>
    ensures ok { IfOk result (λ octets.
        GenericTexts (map token_text tokens.now) octets.items) }
    ensures err { IfErr result (SpellsNothing (GenericTexts (map token_text tokens.now))) }
{
    if tokens.is_empty() || tokens[0].is_quoted {
        return Err(SpellFault::Invalid);
    }
    let Some(count) = number_of(tokens[0].octets) else {
        return Err(SpellFault::Invalid);
    };
    let text = match join_tokens(alloc, &tokens[1..]) {
        Ok(Some(text)) => text,
        Ok(None) => return Err(SpellFault::Invalid),
        Err(_) => return Err(SpellFault::OutOfMemory),
    };
    let octets = match decode16(alloc, text.as_slice()) {
        Ok(octets) => octets,
        Err(fault) => return Err(fault),
    };
    if octets.len() != usize::from(count) {
        return Err(SpellFault::Invalid);
    }
    Ok(octets)
}

/// Appends the octets of the generic form, if they are data of the type.
fn put_generic(
    alloc: Global,
    rtype: Rtype,
    tokens: &[Token<'_>],
    out: &mut Vec<u8>,
) -> Result<(), DataFault>
    ensures ok { OnOk result ((part : Octets) × GenericTexts (map token_text tokens.now) part
        × IsData rtype part × (out.new.items ≡ out.old.items ++ part)) }
    ensures err { IfErr result (λ e.
        GenericTextsFault rtype (map token_text tokens.now) e.token e.kind) }
    ensures place { IfErr result (λ e. e.token ≤ 1) }
    ensures same { OnErr result (out.new.items ≡ out.old.items) }
{
    let octets = match generic_octets(alloc, tokens) {
        Ok(octets) => octets,
        Err(SpellFault::Invalid) => return Err(second(DataFaultKind::NotGeneric)),
        Err(SpellFault::OutOfMemory) => return Err(second(DataFaultKind::OutOfMemory)),
    };
    if !is_data(rtype, octets.as_slice()) {
        return Err(second(DataFaultKind::NotData));
    }
    match append(octets.as_slice(), out) {
        Ok(()) => Ok(()),
        Err(fault) => Err(fault),
    }
}

/// Returns a fault of the second token.
fn second(kind: DataFaultKind) -> DataFault
    ensures { result ≡ record { token = 1; kind = kind } }
{
    DataFault { token: 1, kind }
}

/// Appends the data that tokens spell, in either form.
#[tactic(auto, using(std::proofs::lemmas::Grind::common_steps, crate::specs::Reading::generic, crate::specs::Reading::own, crate::specs::Reading::in_generic, crate::specs::Reading::in_own))]
fn put_data(
    alloc: Global,
    rtype: Rtype,
    tokens: &[Token<'_>],
    origin: &ParsedName<'_>,
    out: &mut Vec<u8>,
) -> Result<(), DataFault>
    ensures ok { OnOk result ((part : Octets)
        × DataTexts origin.now rtype (map token_text tokens.now) part
        × (out.new.items ≡ out.old.items ++ part)) }
    ensures err { IfErr result (λ e.
        DataTextFault origin.now rtype (map token_text tokens.now) e.token e.kind) }
    ensures place { IfErr result (λ e. e.token ≤ length tokens.now) }
    ensures grows { Grows out.old.items out.new.items }
{
    if is_marked(tokens) {
        return match put_generic(alloc, rtype, &tokens[1..], out) {
            Ok(()) => Ok(()),
            Err(fault) => Err(fault),
        };
    }
    match put_layout(alloc, &row_of(rtype), tokens, origin, out) {
        Ok(()) => Ok(()),
        Err(fault) => Err(fault),
    }
}

/// Appends the data of a type that tokens spell: in the generic form, after the mark `\#` without
/// quotes (RFC 3597, section 5), or by the fields of the type's row, one token each, and the tokens
/// of what follows them. A name without a last dot is relative to the origin.
///
/// # Errors
///
/// The first fault, with the place of its token. `out` is then unchanged.
pub fn read_data(
    alloc: Global,
    rtype: Rtype,
    tokens: &[Token<'_>],
    origin: &ParsedName<'_>,
    out: &mut Vec<u8>,
) -> Result<(), DataFault>
    ensures ok { OnOk result ((part : Octets)
        × DataTexts origin.now rtype (map token_text tokens.now) part
        × (out.new.items ≡ out.old.items ++ part)) }
    ensures err { IfErr result (λ e.
        DataTextFault origin.now rtype (map token_text tokens.now) e.token e.kind) }
    ensures place { IfErr result (λ e. e.token ≤ length tokens.now) }
    ensures same { OnErr result (out.new.items ≡ out.old.items) }
{
    let start = out.len();
    match put_data(alloc, rtype, tokens, origin, out) {
        Ok(()) => Ok(()),
        Err(fault) => {
            out.truncate(start);
            Err(fault)
        }
    }
}
