//! The entries of a zone file: records and directives (RFC 1035, section 5.1).
ghost use Rattle.std.specs.Prelude.{◌≡◌, ◌≢◌, map, Some, None, true, false, IfOk, IfErr, OnErr, OnOk};
ghost use Rattle.domain_octets.specs.Octets.{Octets};
ghost use Rattle.domain_names.specs.Name.{Name};
ghost use Rattle.domain_types.specs.Reading.{token_text};
ghost use Rattle.domain_zonefile.specs.Lines.{is_directive, directive_of, first_directive, IsDirectiveLine, DirectiveFault, ReadsLine, LineFault};
ghost use Rattle.domain_zonefile.specs.Lines.{SetsOrigin, OriginFault, SetsTtl, DefaultFault, Includes, IncludeFault};

use crate::class::is_word;
use crate::fault::{EntryFault, EntryFaultKind, fault};
use crate::fields::ttl_field;
use crate::state::first_name;
use crate::{RecordFields, Token, TtlText, ZoneState};
use domain_base::{Name, ToName};
use domain_octets::{OctetsFrom, SmallOctets};
use std::alloc::Global;

/// A directive.
#[derive(Clone, Copy, Debug, PartialEq, Eq)]
pub(crate) enum Directive {
    /// `$ORIGIN` (RFC 1035, section 5.1).
    Origin,
    /// `$TTL` (RFC 2308, section 4).
    DefaultTtl,
    /// `$INCLUDE` (RFC 1035, section 5.1).
    Include,
    /// `$GENERATE`, which BIND has.
    Generate,
}

/// What an entry is.
#[derive(Drop)]
pub enum Line {
    /// A record. Its owner is that of the state.
    Record(RecordFields),
    /// `$ORIGIN`: the state has a new origin.
    Origin,
    /// `$TTL`: the state has a new default.
    DefaultTtl,
    /// `$INCLUDE`: its second token is a file, whose entries begin with this origin.
    Include(Name<SmallOctets>),
    /// `$GENERATE`: its other tokens are a pattern of records.
    Generate,
}

/// Returns whether an entry is a directive.
fn is_directive(is_indented: bool, tokens: &[Token<'_>]) -> bool
    ensures { result ≡ is_directive is_indented (map token_text tokens.now) }
{
    match tokens {
        [token, ..] => { !is_indented && !token.is_quoted && matches!(token.octets, [b'$', ..]) }
        [] => false,
    }
}

/// Returns the directive of a word, in either case.
fn directive_of(word: &[u8]) -> Option<Directive>
    ensures { result ≡ directive_of word.now }
{
    if is_word(word, b"$ORIGIN") {
        return Some(Directive::Origin);
    }
    if is_word(word, b"$TTL") {
        return Some(Directive::DefaultTtl);
    }
    if is_word(word, b"$INCLUDE") {
        return Some(Directive::Include);
    }
    if is_word(word, b"$GENERATE") {
        return Some(Directive::Generate);
    }
    None
}

/// Returns the directive of the first token.
fn first_directive(tokens: &[Token<'_>]) -> Option<Directive>
    ensures { result ≡ first_directive (map token_text tokens.now) }
{
    match tokens {
        [token, ..] => directive_of(token.octets),
        [] => None,
    }
}

impl ZoneState {
    /// Reads `$ORIGIN` and a name.
    fn read_origin(&mut self, alloc: Global, tokens: &[Token<'_>]) -> Result<(), EntryFault>
        requires { first_directive (map token_text tokens.now) ≢ None }
        ensures ok { OnOk result (SetsOrigin self.old (map token_text tokens.now) self.new) }
        ensures err { IfErr result (λ e.
            OriginFault self.old (map token_text tokens.now) e.token e.kind) }
        ensures same { OnErr result (self.new ≡ self.old) }
    {
        match tokens {
            [_, token] => match first_name(alloc, &tokens[1..], &self.origin()) {
                Ok(origin) => {
                    self.set_origin(origin);
                    Ok(())
                }
                Err(kind) => Err(fault(1, kind)),
            },
            [_, _, _, ..] => Err(fault(2, EntryFaultKind::ExtraArgument)),
            _ => Err(fault(1, EntryFaultKind::MissingArgument)),
        }
    }

    /// Reads `$TTL` and a TTL.
    fn read_default(&mut self, tokens: &[Token<'_>]) -> Result<(), EntryFault>
        requires { first_directive (map token_text tokens.now) ≢ None }
        ensures ok { OnOk result (SetsTtl self.old (map token_text tokens.now) self.new) }
        ensures err { IfErr result (λ e.
            DefaultFault (map token_text tokens.now) e.token e.kind) }
        ensures same { OnErr result (self.new ≡ self.old) }
    {
        match tokens {
            [_, token] => match ttl_field(token) {
                TtlText::Seconds(ttl) => {
                    self.set_default_ttl(ttl);
                    Ok(())
                }
                TtlText::TooLarge => Err(fault(1, EntryFaultKind::LargeTtl)),
                TtlText::NoTtl => Err(fault(1, EntryFaultKind::NotTtl)),
            },
            [_, _, _, ..] => Err(fault(2, EntryFaultKind::ExtraArgument)),
            _ => Err(fault(1, EntryFaultKind::MissingArgument)),
        }
    }

    /// Reads `$INCLUDE`, and returns the origin of the file.
    fn read_include(
        &self,
        alloc: Global,
        tokens: &[Token<'_>],
    ) -> Result<Name<SmallOctets>, EntryFault>
        requires { first_directive (map token_text tokens.now) ≢ None }
        ensures ok { IfOk result (Includes self.now (map token_text tokens.now)) }
        ensures err { IfErr result (λ e.
            IncludeFault self.now (map token_text tokens.now) e.token e.kind) }
    {
        match tokens {
            [_, _] => match Name::try_octets_from(alloc, self.origin()) {
                Ok(origin) => Ok(origin),
                Err(_) => Err(fault(1, EntryFaultKind::OutOfMemory)),
            },
            [_, _, _] => match first_name(alloc, &tokens[2..], &self.origin()) {
                Ok(origin) => Ok(origin),
                Err(kind) => Err(fault(2, kind)),
            },
            [_, _, _, _, ..] => Err(fault(3, EntryFaultKind::ExtraArgument)),
            _ => Err(fault(1, EntryFaultKind::MissingArgument)),
        }
    }

    /// Reads a directive.
    fn read_directive(&mut self, alloc: Global, tokens: &[Token<'_>]) -> Result<Line, EntryFault>
        ensures ok { IfOk result (λ line. IsDirectiveLine self.old (map token_text tokens.now)
            (first_directive (map token_text tokens.now)) line self.new) }
        ensures err { IfErr result (λ e. DirectiveFault self.old (map token_text tokens.now)
            (first_directive (map token_text tokens.now)) e.token e.kind) }
        ensures same { OnErr result (self.new ≡ self.old) }
    {
        match first_directive(tokens) {
            Some(Directive::Origin) => match self.read_origin(alloc, tokens) {
                Ok(()) => Ok(Line::Origin),
                Err(fault) => Err(fault),
            },
            Some(Directive::DefaultTtl) => match self.read_default(tokens) {
                Ok(()) => Ok(Line::DefaultTtl),
                Err(fault) => Err(fault),
            },
            Some(Directive::Include) => match self.read_include(alloc, tokens) {
                Ok(origin) => Ok(Line::Include(origin)),
                Err(fault) => Err(fault),
            },
            Some(Directive::Generate) => Ok(Line::Generate),
            None => Err(fault(0, EntryFaultKind::UnknownDirective)),
        }
    }

    /// Reads the tokens of an entry: a directive if it is not indented and its first token begins
    /// with a dollar sign, else a record. The octets of a record's data are appended to `data`.
    ///
    /// # Errors
    ///
    /// The first fault. The state and `data` are then as they were.
    #[tactic(auto, using(crate::specs::Lines::record_line, crate::specs::Lines::directive_line, crate::specs::Lines::in_record, crate::specs::Lines::in_directive))]
    pub fn read_line(
        &mut self,
        alloc: Global,
        is_indented: bool,
        tokens: &[Token<'_>],
        data: &mut Vec<u8>,
    ) -> Result<Line, EntryFault>
        ensures ok { IfOk result (ReadsLine self.old is_indented (map token_text tokens.now)
            «data».old.items «data».new.items self.new) }
        ensures err { IfErr result (λ e. LineFault self.old is_indented
            (map token_text tokens.now) e.token e.kind) }
        ensures same { OnErr result ((self.new ≡ self.old)
            × («data».new.items ≡ «data».old.items)) }
    {
        if is_directive(is_indented, tokens) {
            return self.read_directive(alloc, tokens);
        }
        match self.read_record(alloc, is_indented, tokens, data) {
            Ok(fields) => Ok(Line::Record(fields)),
            Err(fault) => Err(fault),
        }
    }
}
