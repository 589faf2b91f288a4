//! The value of a parameter as text (RFC 9460, sections 2.1, 7 and 8).
ghost use Rattle.std.specs.Prelude.{◌≡◌, ◌^◌, ◌<◌, ◌++◌, ℕ, true, length, IfOk, IfErr, OnOk};
ghost use Rattle.domain_octets.specs.Octets.{Octets};
ghost use Rattle.domain_codecs.specs.Codec.{Decodes};
ghost use Rattle.domain_codecs.specs.declared.codec.Codec.TheVariants as codecs;
ghost use Rattle.domain_svcb.specs.{Strings.{StringText, SpellsNothing}, Keys.kind_of_key};
ghost use Rattle.domain_svcb.specs.Values.{PortText, ValueText, is_value};
ghost use Rattle.domain_svcb.specs.{Parameters.{ParameterText, RefusesText, parameter_fault}, Gathered.parameter_of};

use crate::fault::{ParameterFault, SpellFault};
use crate::ids::{append, put_protocols};
use crate::items::{put_addresses, put_keys};
use crate::key::{ValueKind, kind_of_key, named_key, numbered_key};
use crate::numbers::number_of;
use crate::short::ShortValue;
use crate::string::put_string;
use crate::text::{key_part, value_part};
use crate::wire::is_value;
use base64::DecodeAllocError;
use base64::engine::general_purpose::STANDARD;
use std::alloc::Global;

/// The greatest number of octets of a value (RFC 9460, section 2.2).
const MAX_VALUE: usize = 65535;

/// Appends the two octets of a port.
fn put_port(text: &[u8], out: &mut Vec<u8>) -> Result<(), SpellFault>
    ensures ok { OnOk result ((part : Octets) × PortText text.now part
        × (out.new.items ≡ out.old.items ++ part)) }
    ensures err { IfErr result (SpellsNothing (PortText text.now)) }
{
    match number_of(text) {
        Some(port) => append(&port.to_be_bytes(), out),
        None => Err(SpellFault::Invalid),
    }
}

/// Appends the octets that a text encodes in Base 64.
fn put_base64(alloc: Global, text: &[u8], out: &mut Vec<u8>) -> Result<(), SpellFault>
    ensures ok { OnOk result ((part : Octets) × Decodes codecs.Base64 text.now part
        × (out.new.items ≡ out.old.items ++ part)) }
    ensures err { IfErr result (SpellsNothing (Decodes codecs.Base64 text.now)) }
{
    match STANDARD.decode(alloc, text) {
        Ok(octets) => append(octets.as_slice(), out),
        Err(DecodeAllocError::OutOfMemory) => Err(SpellFault::OutOfMemory),
        Err(DecodeAllocError::DecodeError(_)) => Err(SpellFault::Invalid),
    }
}

/// Appends the octets of the value that a text spells as a key of this kind has it.
fn put_value(
    alloc: Global,
    kind: ValueKind,
    text: &[u8],
    out: &mut Vec<u8>,
) -> Result<(), SpellFault>
    ensures ok { OnOk result ((part : Octets) × ValueText kind text.now part
        × (out.new.items ≡ out.old.items ++ part)) }
    ensures err { IfErr result (SpellsNothing (ValueText kind text.now)) }
{
    match kind {
        ValueKind::Keys => put_keys(alloc, text, out),
        ValueKind::Protocols => put_protocols(alloc, text, out),
        ValueKind::Nothing if text.is_empty() => Ok(()),
        ValueKind::Nothing => Err(SpellFault::Invalid),
        ValueKind::Port => put_port(text, out),
        ValueKind::Ipv4List => put_addresses(false, text, out),
        ValueKind::Base64 => put_base64(alloc, text, out),
        ValueKind::Ipv6List => put_addresses(true, text, out),
        ValueKind::Text => put_string(text, out),
    }
}

/// Returns the value that a text spells as the key has it, of at most 65,535 octets.
#[tactic(auto, using(std::proofs::lemmas::Grind::common_steps, crate::proofs::ValueLemmas::long_value))]
fn named_value(alloc: Global, kind: ValueKind, text: &[u8]) -> Result<ShortValue, SpellFault>
    ensures ok { IfOk result (λ value. ValueText kind text.now value.octets.items) }
    ensures err { IfErr result (SpellsNothing (λ value.
        ValueText kind text.now value × (length value < 2 ^ 16))) }
{
    let mut octets = Vec::new(alloc);
    if let Err(fault) = put_value(alloc, kind, text, &mut octets) {
        return Err(fault);
    }
    if octets.len() > MAX_VALUE {
        return Err(SpellFault::Invalid);
    }
    Ok(ShortValue { octets })
}

/// Returns the octets of a string, if they are a value of this kind, of at most 65,535 octets.
#[tactic(auto, using(std::proofs::lemmas::Grind::common_steps, crate::proofs::ValueLemmas::long_string, crate::proofs::ValueLemmas::other_string))]
fn numbered_value(alloc: Global, kind: ValueKind, text: &[u8]) -> Result<ShortValue, SpellFault>
    ensures ok { IfOk result (λ value. StringText text.now value.octets.items) }
    ensures value { IfOk result (λ value. is_value kind value.octets.items ≡ true) }
    ensures err { IfErr result (SpellsNothing (λ value. StringText text.now value
        × (is_value kind value ≡ true) × (length value < 2 ^ 16))) }
{
    let mut octets = Vec::new(alloc);
    if let Err(fault) = put_string(text, &mut octets) {
        return Err(fault);
    }
    if octets.len() > MAX_VALUE {
        return Err(SpellFault::Invalid);
    }
    if !is_value(kind, octets.as_slice()) {
        return Err(SpellFault::Invalid);
    }
    Ok(ShortValue { octets })
}

/// Returns the fault of a text whose value is not of the kind of its key.
fn fault_of(kind: ValueKind, fault: SpellFault) -> ParameterFault
    ensures { result ≡ parameter_fault kind fault }
{
    match fault {
        SpellFault::Invalid => ParameterFault::NotValue(kind),
        SpellFault::OutOfMemory => ParameterFault::OutOfMemory,
    }
}

/// Returns the key and the value that a text spells.
pub(crate) fn read_parameter(
    alloc: Global,
    text: &[u8],
) -> Result<(u16, ShortValue), ParameterFault>
    ensures ok { IfOk result (λ p. ParameterText text.now (parameter_of p)) }
    ensures err { IfErr result (RefusesText text.now) }
{
    if let Some(key) = named_key(key_part(text)) {
        let kind = kind_of_key(key);
        return match named_value(alloc, kind, value_part(text)) {
            Ok(value) => Ok((key, value)),
            Err(fault) => Err(fault_of(kind, fault)),
        };
    }
    let Some(key) = numbered_key(key_part(text)) else {
        return Err(ParameterFault::UnknownKey);
    };
    let kind = kind_of_key(key);
    match numbered_value(alloc, kind, value_part(text)) {
        Ok(value) => Ok((key, value)),
        Err(fault) => Err(fault_of(kind, fault)),
    }
}
