//! One entry of a zone file (RFC 1035, section 5.1).
ghost use Rattle.std.specs.Prelude.{◌≡◌, ◌≤◌, ◌<◌, ◌+◌, ◌^◌, ◌++◌, [], None, Some, ℕ, OnOk, IfOk, drop, length, max};
ghost use Rattle.domain_zonefile.specs.Lexemes.{lexeme_at, lexeme_len, inner_len, HasBounds};
ghost use Rattle.domain_zonefile.specs.Entries.{lexeme_tokens, open_after, ends_entry, lexeme_fault, line_after, resume};
ghost use Rattle.domain_zonefile.specs.Entries.{end_in, lexemes, EndOfFile, next_at, fault_at, begins_blank};
ghost use Rattle.domain_zonefile.specs.Reading.{IsReading, IsFileEnd};

use crate::lexeme::{Lexeme, comment_len, len_of, lexeme_at};
use crate::token::{Brackets, Tokens};
use crate::{SyntaxError, SyntaxFault};
use domain_octets::OutOfMemory;

/// What is read at a line.
#[derive(Clone, Copy, Debug, PartialEq, Eq)]
pub enum Reading {
    /// An entry, and the place where the next one is looked for.
    Entry(usize),
    /// A fault, and the place where reading goes on.
    Faulty(SyntaxFault, usize),
}

/// Returns whether octets begin with a blank.
pub fn begins_blank(text: &[u8]) -> bool
    ensures { result ≡ begins_blank text.now }
{
    matches!(text, [b' ' | b'\t', ..])
}

/// Returns whether a lexeme ends the entry.
fn ends_entry(lexeme: Lexeme, brackets: &Brackets) -> bool
    ensures { result ≡ ends_entry lexeme brackets.now }
{
    match lexeme {
        Lexeme::LineEnd => brackets.is_outside(),
        _ => false,
    }
}

/// Returns the fault of a lexeme, if it has one.
fn lexeme_fault(at: usize, lexeme: Lexeme, brackets: &Brackets) -> Option<SyntaxFault>
    requires fits { at + lexeme_len lexeme < 2 ^ 64 }
    requires inner { inner_len lexeme ≤ lexeme_len lexeme }
    ensures { result ≡ lexeme_fault at lexeme brackets.now }
{
    match lexeme {
        Lexeme::Close if brackets.is_outside() => Some(SyntaxFault {
            error: SyntaxError::StrayBracket,
            at,
        }),
        Lexeme::Bad(_len, error, place) => Some(SyntaxFault {
            error,
            at: at + place,
        }),
        _ => None,
    }
}

/// Opens or closes a bracket, if the lexeme is one.
fn pass(at: usize, lexeme: Lexeme, brackets: &mut Brackets) -> Result<(), OutOfMemory>
    ensures { OnOk result (brackets.new ≡ open_after at lexeme brackets.old) }
{
    match lexeme {
        Lexeme::Open => brackets.push(at)?,
        Lexeme::Close => brackets.pop(),
        _ => {}
    }
    Ok(())
}

/// Appends the token that a lexeme is, if it is one. `text` begins with it.
fn push_token<'a>(
    tokens: &mut Tokens<'a>,
    at: usize,
    lexeme: Lexeme,
    text: &'a [u8],
) -> Result<(), OutOfMemory>
    requires { HasBounds 1 (length text.now) lexeme }
    ensures { OnOk result (tokens.new ≡ tokens.old ++ lexeme_tokens at lexeme text.now) }
{
    match lexeme {
        Lexeme::Word(len) => tokens.push(&text[..len], false, at),
        Lexeme::Quoted(len) => tokens.push(&text[1..len - 1], true, at),
        _ => Ok(()),
    }
}

/// Returns the place of the line after the one that has this place, or the end of the file.
fn line_after(file: &[u8], at: usize) -> usize
    ensures { result ≡ line_after file.now at }
{
    if at >= file.len() {
        return file.len();
    }
    let end = at + comment_len(&file[at..]);
    if end < file.len() { end + 1 } else { end }
}

/// Returns where reading goes on after a fault: at the first line behind `at` that begins outside
/// of brackets.
fn resume(
    file: &[u8],
    fault: SyntaxFault,
    mut at: usize,
    brackets: &mut Brackets,
) -> Result<usize, OutOfMemory>
    requires { at ≤ length file.now }
    ensures { IfOk result (λ next. next
        ≡ resume file.now (Some fault) (end_in brackets.old (lexemes file.now at))) }
{
    'skipped: while at < file.len() {
        let lexeme = lexeme_at(&file[at..]);
        if ends_entry(lexeme, brackets) {
            return Ok(at + 1);
        }
        pass(at, lexeme, brackets)?;
        at += len_of(lexeme);
    }
    match brackets.innermost() {
        Some(bracket) => Ok(line_after(file, fault.at.max(bracket))),
        None => Ok(file.len()),
    }
}

/// Returns what is read at the end of a file: a fault if a bracket is open.
fn at_end(file: &[u8], brackets: &Brackets) -> Reading
    ensures { IsFileEnd file.now brackets.now result }
{
    match brackets.innermost() {
        Some(at) => {
            let error = SyntaxError::UnclosedBracket;
            Reading::Faulty(SyntaxFault { error, at }, line_after(file, at))
        }
        None => Reading::Entry(file.len()),
    }
}

/// Reads the entry that begins at a place: its tokens, up to its first fault.
pub fn read_entry<'a>(
    file: &'a [u8],
    start: usize,
    tokens: &mut Tokens<'a>,
    brackets: &mut Brackets,
) -> Result<Reading, OutOfMemory>
    requires { start ≤ length file.now }
    ensures { IfOk result (λ reading. IsReading file.now start reading tokens.new) }
{
    tokens.clear();
    brackets.clear();
    let mut at = start;
    'lexemes: while at < file.len() {
        let text = &file[at..];
        let lexeme = lexeme_at(text);
        if ends_entry(lexeme, brackets) {
            return Ok(Reading::Entry(at + 1));
        }
        push_token(tokens, at, lexeme, text)?;
        if let Some(fault) = lexeme_fault(at, lexeme, brackets) {
            let next = resume(file, fault, at, brackets)?;
            return Ok(Reading::Faulty(fault, next));
        }
        pass(at, lexeme, brackets)?;
        at += len_of(lexeme);
    }
    Ok(at_end(file, brackets))
}
