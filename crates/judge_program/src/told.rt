//! Prints the records that an answer rests on, and those with which a server answers.
ghost use Rattle.std.specs.{Prelude.{◌≡◌, Some, [], OnOk, if◌then◌else◌}, Option.option_map};
ghost use Rattle.std.specs.Io.KnownBytes.{Appends};
ghost use Rattle.domain_nsec3.specs.View.{as_param_record};
ghost use Rattle.judge_program.specs.Told.{any_of, below_text, is_needed, is_same_as, line_of, line_once, listed_of, matched_part, param_line, records_text, telling_of, tellings_of, told_line};

use crate::role::Role;
use crate::shown::Shown;
use domain_answer::{Answer, Needs, needs_of, needs_wildcard_record};
use domain_base::Rtype;
use domain_borrowed::{ReadNsec, ReadNsec3, ReadNsec3param};
use std::io::Write;
use std::{fmt, io};

/// A record of a chain.
#[derive(Clone, Copy)]
pub enum Listed<'r, 'a> {
    /// An NSEC record.
    Nsec(&'r ReadNsec<'a>),
    /// An NSEC3 record.
    Nsec3(&'r ReadNsec3<'a>),
}

impl fmt::Display for Listed<'_, '_> {
    ghost output = { λ k. Some (line_of (any_of k)) };

    fn fmt<W: fmt::Write>(&self, f: &mut fmt::Formatter<W>) -> fmt::Result {
        match self {
            Listed::Nsec(nsec) => write!(f, "{nsec}"),
            Listed::Nsec3(nsec3) => write!(f, "{nsec3}"),
        }
    }
}

/// A record that matches or covers a name.
#[derive(Drop)]
pub struct Part<'r, 'a> {
    /// The name.
    pub role: Role<'r>,
    /// Whether the record matches the name; otherwise it covers the name.
    pub matches: bool,
    /// The record.
    pub listed: Listed<'r, 'a>,
}

/// What records say of the names that an answer rests on.
#[derive(Drop)]
pub struct Parts<'r, 'a> {
    /// For the name or, with NSEC3, its closest encloser.
    pub matched: Option<Part<'r, 'a>>,
    /// For the next closer name, with NSEC3.
    pub closer: Option<Part<'r, 'a>>,
    /// For the wildcard, if it was looked up.
    pub wildcard: Option<Part<'r, 'a>>,
    /// The NSEC3PARAM record, with NSEC3.
    pub param: Option<&'r ReadNsec3param<'a>>,
}

/// Writes a line on a record that matches or covers a name, if there is one.
fn write_told<W: Write>(part: &Option<Part<'_, '_>>, output: &mut W) -> io::Result<()>
    ensures { OnOk result (Appends (W.contents output.old) (W.contents output.new)
        (told_line (option_map telling_of part.now))) }
{
    let Some(part) = part else {
        return Ok(());
    };
    let Part {
        role,
        matches,
        listed,
    } = part;
    if *matches {
        return writeln!(output, "matches {role}: {listed}");
    }
    writeln!(output, "covers {role}: {listed}")
}

/// Returns whether a response needs this record of the name or its closest encloser.
fn is_needed(needs: Needs, listed: Listed<'_, '_>) -> bool
    ensures { result ≡ is_needed needs (any_of listed.entry) }
{
    match (needs, listed) {
        (Needs::Nothing, _) => false,
        (Needs::Cut, Listed::Nsec(nsec)) => !nsec.data().types().contains(Rtype::DS),
        (Needs::Cut, Listed::Nsec3(nsec3)) => !nsec3.data().types().contains(Rtype::DS),
        (Needs::Closer, Listed::Nsec3(_)) => false,
        _ => true,
    }
}

/// Returns the record of the name or its closest encloser, if the response needs it.
fn matched_part<'r, 'a>(needs: Needs, found: &Option<Part<'r, 'a>>) -> Option<Listed<'r, 'a>>
    ensures { option_map any_of result ≡ matched_part needs (option_map telling_of found.now) }
{
    match found {
        Some(part) if is_needed(needs, part.listed) => Some(part.listed),
        _ => None,
    }
}

/// Returns the record that matches or covers a name, if it is needed.
fn listed_of<'r, 'a>(is_needed: bool, found: &Option<Part<'r, 'a>>) -> Option<Listed<'r, 'a>>
    ensures { option_map any_of result ≡ listed_of is_needed (option_map telling_of found.now) }
{
    match found {
        Some(part) if is_needed => Some(part.listed),
        _ => None,
    }
}

/// Returns whether the record is the same as another.
fn is_same_as(listed: Listed<'_, '_>, other: Option<Listed<'_, '_>>) -> bool
    ensures { result ≡ is_same_as (any_of listed.entry) (option_map any_of other.entry) }
{
    match (listed, other) {
        (Listed::Nsec(nsec), Some(Listed::Nsec(other))) => nsec == other,
        (Listed::Nsec3(nsec3), Some(Listed::Nsec3(other))) => nsec3 == other,
        _ => false,
    }
}

/// Writes the line of a record, if there is one, unless it is the same as one of two before it.
fn write_once<W: Write>(
    first: Option<Listed<'_, '_>>,
    second: Option<Listed<'_, '_>>,
    found: Option<Listed<'_, '_>>,
    output: &mut W,
) -> io::Result<()>
    ensures { OnOk result (Appends (W.contents output.old) (W.contents output.new)
        (line_once (option_map any_of first.entry) (option_map any_of second.entry)
        (option_map any_of found.entry))) }
{
    let Some(listed) = found else {
        return Ok(());
    };
    if is_same_as(listed, first) | is_same_as(listed, second) {
        return Ok(());
    }
    writeln!(output, "{listed}")
}

/// Writes the line of the NSEC3PARAM record, if there is one and it is needed.
fn write_param<W: Write>(
    param: Option<&ReadNsec3param<'_>>,
    is_needed: bool,
    output: &mut W,
) -> io::Result<()>
    ensures { OnOk result (Appends (W.contents output.old) (W.contents output.new)
        (if is_needed then param_line (option_map (λ k. as_param_record (λ n. n) k.now)
        param.entry) else [])) }
{
    match param {
        Some(param) if is_needed => writeln!(output, "{param}"),
        _ => Ok(()),
    }
}

/// Writes the lines of three records, each once, and then, if there were any, that of the
/// NSEC3PARAM record.
fn write_records<W: Write>(
    matched: Option<Listed<'_, '_>>,
    closer: Option<Listed<'_, '_>>,
    wildcard: Option<Listed<'_, '_>>,
    param: Option<&ReadNsec3param<'_>>,
    output: &mut W,
) -> io::Result<()>
    ensures { OnOk result (Appends (W.contents output.old) (W.contents output.new)
        (records_text (option_map (λ k. as_param_record (λ n. n) k.now) param.entry)
        (option_map any_of matched.entry) (option_map any_of closer.entry)
        (option_map any_of wildcard.entry))) }
{
    write_once(None, None, matched, output)?;
    write_once(None, matched, closer, output)?;
    write_once(matched, closer, wildcard, output)?;
    let is_any = matched.is_some() | closer.is_some() | wildcard.is_some();
    write_param(param, is_any, output)
}

/// Writes what is printed below an answer: the records that it rests on, one a line, with what each
/// says; or those with which a server answers, one a line.
pub fn write_below<W: Write>(
    parts: &Option<Parts<'_, '_>>,
    shown: Shown,
    answer: Answer,
    output: &mut W,
) -> io::Result<()>
    ensures { OnOk result (Appends (W.contents output.old) (W.contents output.new)
        (below_text shown answer (option_map tellings_of parts.now))) }
{
    let Some(parts) = parts else {
        return Ok(());
    };
    match shown {
        Shown::Answer => Ok(()),
        Shown::Why => {
            write_told(&parts.matched, output)?;
            write_told(&parts.closer, output)?;
            write_told(&parts.wildcard, output)
        }
        Shown::Records => {
            let matched = matched_part(needs_of(answer), &parts.matched);
            let closer = listed_of(true, &parts.closer);
            let wildcard = listed_of(needs_wildcard_record(answer), &parts.wildcard);
            write_records(matched, closer, wildcard, parts.param, output)
        }
    }
}
