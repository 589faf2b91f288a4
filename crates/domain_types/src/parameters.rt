//! The parameters of a service, which tokens spell (RFC 9460, sections 2.1 and 2.2).
ghost use Rattle.std.specs.Prelude.{◌≡◌, ◌++◌, ◌≤◌, [], true, length, map, IfErr, OnOk};
ghost use Rattle.domain_octets.specs.Octets.{Octets};
ghost use Rattle.domain_svcb.specs.{Gathered.gathered, Strings.Grows};
ghost use Rattle.domain_svcb.specs.Parameters.{AreGathered, is_consistent, parameters_octets};
ghost use Rattle.domain_types.specs.Reading.{token_text, token_texts, AreUnquoted, AddsToken};
ghost use Rattle.domain_types.specs.Reading.{ParameterTokenFault, AllParametersFault};
ghost use Rattle.domain_types.specs.Reading.{ParametersFault, ParametersTexts};
ghost use Rattle.domain_types.specs.declared.token.DataFaultKind.{DataFaultKind};

use crate::token::{DataFault, DataFaultKind, Token};
use domain_svcb::{ParameterFault, Parameters};
use std::alloc::Global;

/// Adds the parameter that a token spells.
fn add_token(
    alloc: Global,
    token: &Token<'_>,
    parameters: &mut Parameters,
) -> Result<(), DataFaultKind>
    ensures ok { OnOk result (AddsToken (token_text token.now) (gathered parameters.old)
        (gathered parameters.new)) }
    ensures err { IfErr result
        (ParameterTokenFault (gathered parameters.old) (token_text token.now)) }
{
    if token.is_quoted {
        return Err(DataFaultKind::Quoted);
    }
    match parameters.add(alloc, token.octets) {
        Ok(()) => Ok(()),
        Err(ParameterFault::OutOfMemory) => Err(DataFaultKind::OutOfMemory),
        Err(fault) => Err(DataFaultKind::NotParameter(fault)),
    }
}

/// Adds the parameters that tokens spell to no parameters.
fn add_tokens(
    alloc: Global,
    tokens: &[Token<'_>],
    parameters: &mut Parameters,
) -> Result<(), DataFault>
    requires { gathered parameters.old ≡ [] }
    ensures unquoted { OnOk result (AreUnquoted (map token_text tokens.now)) }
    ensures gathered { OnOk result (AreGathered [] (token_texts (map token_text tokens.now))
        (gathered parameters.new)) }
    ensures end { OnOk result ((kind : DataFaultKind)
        → AllParametersFault (gathered parameters.new) kind
        → ParametersFault [] (map token_text tokens.now) (length tokens.now) kind) }
    ensures err { IfErr result (λ e.
        ParametersFault [] (map token_text tokens.now) e.token e.kind) }
    ensures place { IfErr result (λ e. e.token ≤ length tokens.now) }
{
    for (place, token) in tokens.iter().enumerate() {
        if let Err(kind) = add_token(alloc, token, parameters) {
            return Err(DataFault { token: place, kind });
        }
    }
    Ok(())
}

/// Appends the parameters, if they go together.
fn put_all(parameters: &Parameters, out: &mut Vec<u8>) -> Result<(), DataFaultKind>
    ensures ok { OnOk result ((is_consistent (gathered parameters.now) ≡ true)
        × (out.new.items ≡ out.old.items ++ parameters_octets (gathered parameters.now))) }
    ensures err { IfErr result (AllParametersFault (gathered parameters.now)) }
    ensures grows { Grows out.old.items out.new.items }
{
    match parameters.put(out) {
        Ok(()) => Ok(()),
        Err(ParameterFault::OutOfMemory) => Err(DataFaultKind::OutOfMemory),
        Err(fault) => Err(DataFaultKind::NotParameter(fault)),
    }
}

/// Appends the parameters that tokens spell, in the order of their keys.
pub(crate) fn put_parameters(
    alloc: Global,
    tokens: &[Token<'_>],
    out: &mut Vec<u8>,
) -> Result<(), DataFault>
    ensures ok { OnOk result ((part : Octets)
        × ParametersTexts (map token_text tokens.now) part
        × (out.new.items ≡ out.old.items ++ part)) }
    ensures err { IfErr result (λ e.
        ParametersFault [] (map token_text tokens.now) e.token e.kind) }
    ensures place { IfErr result (λ e. e.token ≤ length tokens.now) }
    ensures grows { Grows out.old.items out.new.items }
{
    let mut parameters = Parameters::new(alloc);
    if let Err(fault) = add_tokens(alloc, tokens, &mut parameters) {
        return Err(fault);
    }
    match put_all(&parameters, out) {
        Ok(()) => Ok(()),
        Err(kind) => Err(DataFault {
            token: tokens.len(),
            kind,
        }),
    }
}
