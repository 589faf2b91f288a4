//! An entry `$GENERATE`, and the text of each of its values.
ghost use Rattle.std.specs.Prelude.{◌≡◌, ◌++◌, ◌≤◌, ◌<◌, [], Ok, Err, drop, map, IfSome, IfOk, IfErr, OnOk, OnErr};
ghost use Rattle.domain_types.specs.Reading.{token_text};
ghost use Rattle.domain_generate.specs.Ranges.{IsRange, value_at, value_count};
ghost use Rattle.domain_generate.specs.Generated.{argument_at, checked_values, class_text_of, data_argument, fault_of_more, fault_of_pattern, fields_text, generated_line};
ghost use Rattle.domain_generate.specs.Generated.{generation_of, owner_argument, prefix_arguments, range_argument, ttl_text_of, unquoted_at};

use crate::fault::{GenerateFault, GenerateFaultKind, fault};
use crate::number::push_decimal;
use crate::range::{MAX_VALUES, ValueRange, last_value, read_range, value_at, value_count};
use crate::substitute::{pattern_fault, push_substituted};
use domain_octets::OutOfMemory;
use domain_zonefile::{Prefix, Token, read_prefix};
use std::marker::Model;

/// An entry `$GENERATE`: a range of values, and a pattern of an entry for each of them. Contracts
/// see its parts.
#[derive(Drop)]
pub struct Generation<'a> {
    range: ValueRange,
    owner: &'a [u8],
    prefix: Prefix,
    rtype: &'a [u8],
    pattern: Token<'a>,
}

impl<'a> Model for Generation<'a> {
    ghost use Rattle.domain_types.specs.Reading.{token_text};
    ghost use Rattle.std.specs.Prelude.{◌≤◌};
    ghost use Rattle.domain_generate.specs.Ranges.{IsRange, value_count};
    ghost use Rattle.domain_generate.specs.Generated.{Generated};

    ghost Value = { Generated };

    ghost view = { λ g. record {
      range = g.range;
      owner = g.owner.now;
      prefix = g.prefix;
      rtype = g.rtype.now;
      pattern = token_text g.pattern;
    } };

    ghost invariant = { λ g. IsRange g.range × (value_count g.range ≤ 65536) };
}

/// Returns the tokens from this number on.
#[tactic(auto, using(crate::proofs::GenerateLemmas::view_steps))]
fn tokens_from<'t, 'a>(tokens: &'t [Token<'a>], at: usize) -> &'t [Token<'a>]
    ensures { map token_text result.now ≡ drop at (map token_text tokens.now) }
{
    if at <= tokens.len() {
        return &tokens[at..];
    }
    &[]
}

/// Returns the token of this number.
fn argument_at<'a>(tokens: &[Token<'a>], at: usize) -> Result<Token<'a>, GenerateFault>
    ensures ok { IfOk result (λ token. argument_at (map token_text tokens.now) at
        ≡ Ok (token_text token)) }
    ensures err { IfErr result (λ e. argument_at (map token_text tokens.now) at ≡ Err e) }
{
    match tokens_from(tokens, at) {
        [token, ..] => Ok(*token),
        [] => Err(fault(at, GenerateFaultKind::MissingArgument)),
    }
}

/// Returns the octets of the token of this number, which may not be in quotes.
fn unquoted_at<'a>(tokens: &[Token<'a>], at: usize) -> Result<&'a [u8], GenerateFault>
    ensures ok { IfOk result (λ octets. unquoted_at (map token_text tokens.now) at
        ≡ Ok octets.now) }
    ensures err { IfErr result (λ e. unquoted_at (map token_text tokens.now) at ≡ Err e) }
{
    let token = argument_at(tokens, at)?;
    if token.is_quoted {
        return Err(fault(at, GenerateFaultKind::QuotedArgument));
    }
    Ok(token.octets)
}

/// Returns a range, if it is one of at most [`MAX_VALUES`] values.
fn checked_values(range: Option<ValueRange>) -> Result<ValueRange, GenerateFault>
    requires { IfSome range IsRange }
    ensures value { result ≡ checked_values range }
    ensures ok { IfOk result IsRange }
    ensures few { IfOk result (λ range. value_count range ≤ 65536) }
{
    match range {
        Some(range) if value_count(range) > MAX_VALUES => {
            Err(fault(1, GenerateFaultKind::ManyValues))
        }
        Some(range) => Ok(range),
        None => Err(fault(1, GenerateFaultKind::NotRange)),
    }
}

/// Returns the range of an entry.
fn range_argument(tokens: &[Token<'_>]) -> Result<ValueRange, GenerateFault>
    ensures value { result ≡ range_argument (map token_text tokens.now) }
    ensures ok { IfOk result IsRange }
    ensures few { IfOk result (λ range. value_count range ≤ 65536) }
{
    let text = unquoted_at(tokens, 1)?;
    checked_values(read_range(text))
}

/// Returns the first fault of a pattern.
fn fault_of_pattern(range: ValueRange, pattern: &[u8]) -> Option<GenerateFaultKind>
    requires { IsRange range }
    ensures { result ≡ fault_of_pattern range pattern.now }
{
    pattern_fault(range.start, last_value(range), pattern)
}

/// Returns the owner of an entry.
fn owner_argument<'a>(tokens: &[Token<'a>], range: ValueRange) -> Result<&'a [u8], GenerateFault>
    requires { IsRange range }
    ensures ok { IfOk result (λ octets. owner_argument (map token_text tokens.now) range
        ≡ Ok octets.now) }
    ensures err { IfErr result (λ e. owner_argument (map token_text tokens.now) range ≡ Err e) }
{
    let octets = unquoted_at(tokens, 2)?;
    match fault_of_pattern(range, octets) {
        Some(kind) => Err(fault(2, kind)),
        None => Ok(octets),
    }
}

/// Returns the TTL and the class of an entry.
fn prefix_arguments(tokens: &[Token<'_>]) -> Result<Prefix, GenerateFault>
    ensures value { result ≡ prefix_arguments (map token_text tokens.now) }
    ensures few { IfOk result (λ prefix. prefix.count ≤ 2) }
{
    match read_prefix(tokens_from(tokens, 3)) {
        Ok(prefix) => Ok(prefix),
        Err(e) => Err(fault(3 + e.token, GenerateFaultKind::LargeTtl)),
    }
}

/// Returns the data of an entry: the token of this number.
fn data_argument<'a>(
    tokens: &[Token<'a>],
    at: usize,
    range: ValueRange,
) -> Result<Token<'a>, GenerateFault>
    requires { IsRange range }
    ensures ok { IfOk result (λ token. data_argument (map token_text tokens.now) at range
        ≡ Ok (token_text token)) }
    ensures err { IfErr result (λ e. data_argument (map token_text tokens.now) at range ≡ Err e) }
{
    let token = argument_at(tokens, at)?;
    match fault_of_pattern(range, token.octets) {
        Some(kind) => Err(fault(at, kind)),
        None => Ok(token),
    }
}

/// Returns the fault of tokens from this number on, which are one too many.
fn fault_of_more(tokens: &[Token<'_>], at: usize) -> Option<GenerateFaultKind>
    ensures { result ≡ fault_of_more (drop at (map token_text tokens.now)) }
{
    match tokens_from(tokens, at) {
        [_, ..] => Some(GenerateFaultKind::ExtraArgument),
        [] => None,
    }
}

/// Appends the TTL of an entry, if it has one.
fn push_ttl(line: &mut Vec<u8>, ttl: Option<u32>) -> Result<(), OutOfMemory>
    ensures { OnOk result (line.new.items ≡ line.old.items ++ ttl_text_of ttl) }
{
    let Some(ttl) = ttl else {
        return Ok(());
    };
    push_decimal(line, ttl)?;
    Ok(line.push(b' ')?)
}

/// Appends the class of an entry, if it has one.
fn push_class(line: &mut Vec<u8>, class: Option<u16>) -> Result<(), OutOfMemory>
    ensures { OnOk result (line.new.items ≡ line.old.items ++ class_text_of class) }
{
    let Some(class) = class else {
        return Ok(());
    };
    line.extend_from_slice(b"CLASS")?;
    push_decimal(line, u32::from(class))?;
    Ok(line.push(b' ')?)
}

/// Appends what is between the owner and the data.
fn push_fields(line: &mut Vec<u8>, prefix: Prefix, rtype: &[u8]) -> Result<(), OutOfMemory>
    ensures { OnOk result (line.new.items ≡ line.old.items ++ fields_text prefix rtype.now) }
{
    line.push(b' ')?;
    push_ttl(line, prefix.ttl)?;
    push_class(line, prefix.class)?;
    line.extend_from_slice(rtype)?;
    Ok(line.push(b' ')?)
}

impl<'a> Generation<'a> {
    /// Reads the tokens of an entry: `$GENERATE RANGE OWNER [TTL] [CLASS] TYPE DATA`.
    ///
    /// # Errors
    ///
    /// The first fault, in the order of the tokens. The type, the owner and the data are not read
    /// here: their faults are those of the text of a value.
    pub fn from_tokens(tokens: &[Token<'a>]) -> Result<Self, GenerateFault>
        ensures ok { IfOk result (λ g. generation_of (map token_text tokens.now) ≡ Ok g) }
        ensures err { IfErr result (λ e. generation_of (map token_text tokens.now) ≡ Err e) }
    {
        let range = range_argument(tokens)?;
        let owner = owner_argument(tokens, range)?;
        let prefix = prefix_arguments(tokens)?;
        let rtype = unquoted_at(tokens, 3 + prefix.count)?;
        let pattern = data_argument(tokens, 4 + prefix.count, range)?;
        let end = 5 + prefix.count;
        match fault_of_more(tokens, end) {
            Some(kind) => Err(fault(end, kind)),
            None => Ok(Generation {
                range,
                owner,
                prefix,
                rtype,
                pattern,
            }),
        }
    }

    /// Returns the number of values.
    pub fn count(&self) -> u32
        ensures { result ≡ value_count self.now.range }
    {
        value_count(self.range) as u32
    }

    /// Returns the value of this number, counted from 0, if there are so many.
    pub fn value(&self, index: u32) -> Option<u32>
        ensures value { result ≡ value_at self.now.range index }
        ensures few { IfSome result (λ _. index < 65536) }
    {
        value_at(self.range, index)
    }

    /// Appends the text of a value.
    fn push_line(&self, value: u32, line: &mut Vec<u8>) -> Result<(), OutOfMemory>
        ensures { OnOk result (line.new.items ≡ line.old.items ++ generated_line self.now value) }
    {
        push_substituted(line, false, value, self.owner)?;
        push_fields(line, self.prefix, self.rtype)?;
        push_substituted(line, self.pattern.is_quoted, value, self.pattern.octets)?;
        Ok(line.push(b'\n')?)
    }

    /// Writes the text of a value in place of what `line` holds: OWNER, TTL and CLASS where they
    /// are given, TYPE and DATA, and a line feed. In OWNER and DATA the value is in place of each
    /// `$` and `${OFFSET,WIDTH,BASE}`.
    ///
    /// # Errors
    ///
    /// `OutOfMemory` if there is no memory for the text. Then `line` is empty.
    pub fn write_line(&self, value: u32, line: &mut Vec<u8>) -> Result<(), OutOfMemory>
        ensures ok { OnOk result (line.new.items ≡ generated_line self.now value) }
        ensures err { OnErr result (line.new.items ≡ []) }
    {
        line.clear();
        if self.push_line(value, line).is_err() {
            line.clear();
            return Err(OutOfMemory);
        }
        Ok(())
    }
}
