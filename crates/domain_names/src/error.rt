//! The errors of reading names and tokens.
ghost use Rattle.std.specs.Prelude.{◌≡◌, Some};
ghost use Rattle.domain_names.specs.{Text.{scan_error_of, name_error_text, scan_error_text}, Wire.fault_of};
ghost use Rattle.domain_names.specs.Wire.{name_fault_of};
ghost use Rattle.domain_names.specs.declared.error.ScanError.TheVariants as scan_error;

use domain_octets::{AppendError, OutOfMemory, ParseError};
use std::error::Error;
use std::fmt;

/// The error of reading a name from the front of octets (RFC 1035, section 3.1): a `ParseError`
/// without its text.
#[derive(Clone, Copy, Debug, PartialEq, Eq)]
pub enum NameError {
    /// The octets end within the name.
    ShortInput,
    /// A label has over 63 octets, or is a pointer to another place in a message.
    BadLabel,
    /// The name has over 255 octets.
    LongName,
}

impl fmt::Display for NameError {
    // specs/Text.antt repeats these texts: change both together.
    ghost output = { λ e. Some (name_error_text e) };

    fn fmt<W: fmt::Write>(&self, f: &mut fmt::Formatter<W>) -> fmt::Result {
        f.write_str(match self {
            NameError::ShortInput => "unexpected end of input",
            NameError::BadLabel => "compressed or bad label",
            NameError::LongName => "long domain name",
        })
    }
}

impl Error for NameError {}

impl From<NameError> for ParseError {
    ghost from_gives = { λ f e. fault_of e ≡ name_fault_of f };

    fn from(error: NameError) -> ParseError {
        match error {
            NameError::ShortInput => ParseError::ShortInput,
            NameError::BadLabel => ParseError::Form("compressed or bad label"),
            NameError::LongName => ParseError::Form("long domain name"),
        }
    }
}

/// The error of scanning a text, or the tokens of an entry.
#[derive(Clone, Copy, Debug, PartialEq, Eq)]
pub enum ScanError {
    /// A token is missing.
    EndOfEntry,
    /// A text is malformed, as this message says.
    Custom(&'static str),
    /// The octets that a token encodes do not fit in their builder.
    ShortBuf,
    /// Memory ran out.
    OutOfMemory,
}

impl fmt::Display for ScanError {
    // specs/Text.antt repeats these texts: change both together.
    ghost output = { λ e. Some (scan_error_text e) };

    fn fmt<W: fmt::Write>(&self, f: &mut fmt::Formatter<W>) -> fmt::Result {
        match self {
            ScanError::EndOfEntry => f.write_str("unexpected end of entry"),
            ScanError::Custom(text) => f.write_str(text),
            ScanError::ShortBuf => f.write_str("buffer size exceeded"),
            ScanError::OutOfMemory => f.write_str("out of memory"),
        }
    }
}

impl Error for ScanError {}

impl From<AppendError> for ScanError {
    ghost from_gives = { λ a e. e ≡ scan_error_of a };

    fn from(error: AppendError) -> ScanError {
        match error {
            AppendError::ShortBuf => ScanError::ShortBuf,
            AppendError::OutOfMemory => ScanError::OutOfMemory,
        }
    }
}

impl From<OutOfMemory> for ScanError {
    ghost from_gives = { λ _ e. e ≡ scan_error.OutOfMemory };

    fn from(_error: OutOfMemory) -> ScanError {
        ScanError::OutOfMemory
    }
}
