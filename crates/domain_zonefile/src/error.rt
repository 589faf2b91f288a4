//! The faults of the octets of a zone file.
ghost use Rattle.std.specs.Prelude.{Some};
ghost use Rattle.domain_zonefile.specs.ErrorText.{syntax_error_text};

use std::error::Error;
use std::fmt;

/// What is wrong with the octets of a zone file (RFC 1035, section 5.1).
#[derive(Clone, Copy, Debug, PartialEq, Eq)]
pub enum SyntaxError {
    /// A backslash is not followed by three digits up to 255, nor by an octet that it can take.
    BadEscape,
    /// A quoted token does not end on its line.
    UnclosedQuote,
    /// A quote is within an unquoted token, and not right after its first equals sign.
    MisplacedQuote,
    /// No separator follows a quoted value.
    NoSeparator,
    /// A carriage return is neither quoted nor in a comment, and no line end follows.
    StrayReturn,
    /// An octet outside of comments is zero.
    Nul,
    /// An opening bracket is never closed.
    UnclosedBracket,
    /// A closing bracket closes nothing.
    StrayBracket,
}

impl fmt::Display for SyntaxError {
    // specs/ErrorText.antt repeats these texts: change both together.
    ghost output = { λ e. Some (syntax_error_text e) };

    fn fmt<W: fmt::Write>(&self, f: &mut fmt::Formatter<W>) -> fmt::Result {
        f.write_str(match self {
            SyntaxError::BadEscape => "bad escape: expected three digits up to 255 or a character",
            SyntaxError::UnclosedQuote => "quote is not closed on this line",
            SyntaxError::MisplacedQuote => "quote within an unquoted token",
            SyntaxError::NoSeparator => "no blank after a quoted value",
            SyntaxError::StrayReturn => "carriage return within a line",
            SyntaxError::Nul => "zero octet",
            SyntaxError::UnclosedBracket => "bracket is never closed",
            SyntaxError::StrayBracket => "closing bracket without an opening one",
        })
    }
}

impl Error for SyntaxError {}

/// A fault of a zone file's octets, with its place.
#[derive(Clone, Copy, Debug, PartialEq, Eq)]
pub struct SyntaxFault {
    /// What is wrong.
    pub error: SyntaxError,
    /// The number of octets before it.
    pub at: usize,
}
