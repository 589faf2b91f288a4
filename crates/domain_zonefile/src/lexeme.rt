//! The lexemes of a zone file, one at a time (RFC 1035, section 5.1).
ghost use Rattle.std.specs.Prelude.{◌≡◌, ◌≤◌, ◌<◌, ◌+◌, ◌↔◌, ℕ, false, None, IsTrue, [], length, drop, slice_index};
ghost use Rattle.std.specs.List.{prefix_len};
ghost use Rattle.domain_octets.specs.Text.{is_blank};
ghost use Rattle.domain_zonefile.specs.Lexemes.{is_comment, is_return, is_separator, is_escape, IsOrdinary};
ghost use Rattle.domain_zonefile.specs.Lexemes.{begins_apart, begins_at_line_end, quoted_from, valued};
ghost use Rattle.domain_zonefile.specs.Lexemes.{HasBounds, quoted_fault, quoted_step, first_fault, equals_after, returns_at};
ghost use Rattle.domain_zonefile.specs.Lexemes.{word_from, is_after, lexeme_at, lexeme_len, with_fault};

use crate::SyntaxError;

/// The smallest part of a zone file that has a meaning. Numbers count octets.
#[derive(Clone, Copy, Debug, PartialEq, Eq)]
pub enum Lexeme {
    /// Blanks, a comment, or carriage returns before the end of a line: this many octets.
    Gap(usize),
    /// A line feed.
    LineEnd,
    /// An opening bracket.
    Open,
    /// A closing bracket.
    Close,
    /// An unquoted token of this many octets.
    Word(usize),
    /// A quoted token of this many octets, with its quotes.
    Quoted(usize),
    /// So many octets with a fault, which is at this place among them.
    Bad(usize, SyntaxError, usize),
}

/// Returns whether an octet ends an unquoted token. Tests for letters and digits first.
fn is_separator(octet: u8) -> bool
    ensures { result ≡ is_separator octet }
{
    octet <= b';' && matches!(octet, b' ' | b'\t' | b'\n' | b'\r' | 0 | b';' | b'(' | b')')
}

/// Returns whether an octet only continues an unquoted token. Tests for lower case letters first.
fn is_ordinary(octet: u8) -> bool
    ensures { IsTrue result → IsOrdinary octet }
{
    octet > b'\\' || octet > b'=' && octet < b'\\' || octet > b')' && octet < b';'
}

/// Returns a number of octets at the front that only continue an unquoted token.
#[tactic(auto, using(std::proofs::lemmas::Grind::common_steps))]
fn ordinary_len(text: &[u8]) -> usize
    ensures within { result ≤ length text.now }
    ensures ordinary { (k : ℕ) → k < result → IsOrdinary (slice_index text.now k) }
{
    for (i, octet) in text.iter().enumerate() {
        if !is_ordinary(*octet) {
            return i;
        }
    }
    text.len()
}

/// Returns whether an escape's octets follow a backslash: three digits up to 255, or an octet that
/// is no digit, line end or NUL.
#[tactic(auto, unfolding(crate::specs::Lexemes::is_escape))]
fn is_escape(text: &[u8]) -> bool
    ensures { result ≡ is_escape text.now }
{
    match text {
        [a, b, c, ..] if a.is_ascii_digit() => {
            b.is_ascii_digit()
                && c.is_ascii_digit()
                && u16::from(*a - b'0') * 100 + u16::from(*b - b'0') * 10 + u16::from(*c - b'0')
                    <= 255
        }
        [a, ..] => !a.is_ascii_digit() && !matches!(*a, b'\n' | b'\r' | 0),
        [] => false,
    }
}

/// Returns the number of blanks at the front.
#[tactic(auto, using(crate::proofs::LexemeLemmas::run_steps))]
fn blank_len(text: &[u8]) -> usize
    ensures value { result ≡ prefix_len is_blank text.now }
    ensures within { result ≤ length text.now }
{
    for (i, octet) in text.iter().enumerate() {
        if *octet != b' ' && *octet != b'\t' {
            return i;
        }
    }
    text.len()
}

/// Returns the number of octets before the first line feed.
#[tactic(auto, using(crate::proofs::LexemeLemmas::run_steps))]
pub fn comment_len(text: &[u8]) -> usize
    ensures value { result ≡ prefix_len is_comment text.now }
    ensures within { result ≤ length text.now }
{
    for (i, octet) in text.iter().enumerate() {
        if *octet == b'\n' {
            return i;
        }
    }
    text.len()
}

/// Returns the number of carriage returns at the front.
#[tactic(auto, using(crate::proofs::LexemeLemmas::run_steps))]
fn return_len(text: &[u8]) -> usize
    ensures value { result ≡ prefix_len is_return text.now }
    ensures within { result ≤ length text.now }
{
    for (i, octet) in text.iter().enumerate() {
        if *octet != b'\r' {
            return i;
        }
    }
    text.len()
}

/// Returns the number of octets of a lexeme.
pub fn len_of(lexeme: Lexeme) -> usize
    ensures { result ≡ lexeme_len lexeme }
{
    match lexeme {
        Lexeme::Gap(len) | Lexeme::Word(len) | Lexeme::Quoted(len) => len,
        Lexeme::Bad(len, _error, _at) => len,
        Lexeme::LineEnd | Lexeme::Open | Lexeme::Close => 1,
    }
}

/// Returns the first of two faults. The second is at this place.
fn first_fault(
    fault: Option<(SyntaxError, usize)>,
    here: Option<SyntaxError>,
    at: usize,
) -> Option<(SyntaxError, usize)>
    ensures { result ≡ first_fault fault here at }
{
    match (fault, here) {
        (None, Some(error)) => Some((error, at)),
        (fault, _here) => fault,
    }
}

/// Returns the lexeme with a fault before any fault in it, if there is one.
fn with_fault(fault: Option<(SyntaxError, usize)>, lexeme: Lexeme) -> Lexeme
    ensures { result ≡ with_fault fault lexeme }
{
    match fault {
        Some((error, at)) => Lexeme::Bad(len_of(lexeme), error, at),
        None => lexeme,
    }
}

/// Returns the fault of an octet within quotes, if it is a NUL or a backslash of no escape.
/// `behind` holds the octets after it.
fn quoted_fault(octet: u8, behind: &[u8]) -> Option<SyntaxError>
    ensures { result ≡ quoted_fault octet behind.now }
{
    if octet == 0 {
        return Some(SyntaxError::Nul);
    }
    if octet == b'\\' && !is_escape(behind) {
        return Some(SyntaxError::BadEscape);
    }
    None
}

/// Returns how many octets to pass at an octet within quotes: two at an escape. `behind` holds the
/// octets after it.
fn quoted_step(octet: u8, behind: &[u8]) -> usize
    ensures { result ≡ quoted_step octet behind.now }
{
    if octet == b'\\' && is_escape(behind) {
        return 2;
    }
    1
}

/// Returns the quoted token that begins here, with its first fault.
#[tactic(auto, using(crate::proofs::LexemeLemmas::quoted_steps))]
fn scan_quoted(text: &[u8]) -> Lexeme
    requires { 0 < length text.now }
    ensures { result ≡ quoted_from 1 false (drop 1 text.now) }
{
    let mut len = 1;
    let mut fault = None;
    'quoted: while len < text.len() {
        let octet = text[len];
        if octet == b'"' {
            return with_fault(fault, Lexeme::Quoted(len + 1));
        }
        if octet == b'\n' {
            return with_fault(fault, Lexeme::Bad(len, SyntaxError::UnclosedQuote, 0));
        }
        let behind = &text[len + 1..];
        fault = first_fault(fault, quoted_fault(octet, behind), len);
        len += quoted_step(octet, behind);
    }
    with_fault(fault, Lexeme::Bad(len, SyntaxError::UnclosedQuote, 0))
}

/// Returns the quoted token that begins here, with its first fault.
#[tactic(auto, using(crate::proofs::LexemeLemmas::quoted_within))]
fn quoted(text: &[u8]) -> Lexeme
    requires { 0 < length text.now }
    ensures value { result ≡ quoted_from 1 false (drop 1 text.now) }
    ensures bounds { HasBounds 1 (length text.now) result }
{
    scan_quoted(text)
}

/// Returns whether octets begin with a separator, or are none.
fn begins_apart(text: &[u8]) -> bool
    ensures { result ≡ begins_apart text.now }
{
    match text {
        [octet, ..] => is_separator(*octet),
        [] => true,
    }
}

/// Returns whether octets begin with a line feed, or are none.
fn begins_at_line_end(text: &[u8]) -> bool
    ensures { result ≡ begins_at_line_end text.now }
{
    match text {
        [octet, ..] => *octet == b'\n',
        [] => true,
    }
}

/// Returns the unquoted token of `len` octets with the quoted value that follows them.
#[tactic(auto, using(std::proofs::lemmas::Grind::common_steps))]
fn valued(text: &[u8], len: usize) -> Lexeme
    requires { len < length text.now }
    ensures { result ≡ valued len (drop len text.now)
        (quoted_from 1 false (drop (len + 1) text.now)) }
{
    let value = quoted(&text[len..]);
    if let Lexeme::Bad(more, error, at) = value {
        return Lexeme::Bad(len + more, error, len + at);
    }
    let more = len_of(value);
    let end = len + more;
    if begins_apart(&text[end..]) {
        return Lexeme::Word(end);
    }
    Lexeme::Bad(end, SyntaxError::NoSeparator, end)
}

/// Returns whether the octet before this place is the first equals sign.
fn is_after(place: usize, equals: Option<usize>) -> bool
    ensures { result ≡ is_after place equals }
{
    match equals {
        Some(equals) => place > 0 && place - 1 == equals,
        None => false,
    }
}

/// Returns the place of the first equals sign, after an octet at this place.
fn equals_after(place: usize, octet: u8, equals: Option<usize>) -> Option<usize>
    ensures { result ≡ equals_after place octet equals }
{
    if equals.is_none() && octet == b'=' {
        return Some(place);
    }
    equals
}

/// Returns the unquoted token that begins here, up to the first separator.
#[tactic(auto, using(crate::proofs::LexemeLemmas::word_steps))]
fn word(text: &[u8]) -> Lexeme
    ensures { result ≡ word_from 0 false None text.now }
{
    let mut len = ordinary_len(text);
    let mut equals = None;
    'word: while len < text.len() {
        let octet = text[len];
        if is_ordinary(octet) {
            len += 1;
            continue;
        }
        if is_separator(octet) {
            return Lexeme::Word(len);
        }
        if octet == b'"' {
            if is_after(len, equals) {
                return valued(text, len);
            }
            return Lexeme::Bad(len, SyntaxError::MisplacedQuote, len);
        }
        if octet == b'\\' {
            if !is_escape(&text[len + 1..]) {
                return Lexeme::Bad(len + 1, SyntaxError::BadEscape, len);
            }
            len += 2;
            continue;
        }
        equals = equals_after(len, octet, equals);
        len += 1;
    }
    Lexeme::Word(len)
}

/// Returns the carriage returns at the front, which have no meaning before the end of a line.
fn returns(text: &[u8]) -> Lexeme
    ensures { result ≡ returns_at (prefix_len is_return text.now) text.now }
{
    let len = return_len(text);
    if begins_at_line_end(&text[len..]) {
        return Lexeme::Gap(len);
    }
    Lexeme::Bad(len, SyntaxError::StrayReturn, 0)
}

/// Returns the lexeme that octets begin with. No octets are an empty gap.
#[tactic(auto, unfolding(crate::specs::Lexemes::lexeme_at))]
fn scan_lexeme(text: &[u8]) -> Lexeme
    ensures { result ≡ lexeme_at text.now }
{
    let Some(octet) = text.first() else {
        return Lexeme::Gap(0);
    };
    match *octet {
        b' ' | b'\t' => Lexeme::Gap(blank_len(text)),
        b'\n' => Lexeme::LineEnd,
        b';' => Lexeme::Gap(comment_len(text)),
        b'(' => Lexeme::Open,
        b')' => Lexeme::Close,
        b'"' => quoted(text),
        0 => Lexeme::Bad(1, SyntaxError::Nul, 0),
        b'\r' => returns(text),
        _ => word(text),
    }
}

/// Returns the lexeme that octets begin with. No octets are an empty gap.
#[tactic(auto, using(crate::proofs::LexemeLemmas::lexeme_within))]
pub fn lexeme_at(text: &[u8]) -> Lexeme
    ensures value { result ≡ lexeme_at text.now }
    ensures bounds { 0 < length text.now → HasBounds 1 (length text.now) result }
{
    scan_lexeme(text)
}
