//! The errors of appending and reading octets, and the out-of-memory error.
ghost use Rattle.std.specs.Prelude.{◌≡◌, Some, codes};
ghost use Rattle.domain_octets.specs.Octets.{append_error_text, parse_error_text};
ghost use Rattle.domain_octets.specs.declared.error.AppendError.TheVariants as append_error;

use std::alloc::{AllocError, AllocFailed};
use std::error::Error;
use std::fmt;

/// Out of memory: an allocation failed.
#[derive(Clone, Copy, Debug, PartialEq, Eq)]
pub struct OutOfMemory;

impl fmt::Display for OutOfMemory {
    ghost output = { λ _. Some (codes "out of memory") };

    fn fmt<W: fmt::Write>(&self, f: &mut fmt::Formatter<W>) -> fmt::Result {
        f.write_str("out of memory")
    }
}

impl Error for OutOfMemory {}

impl From<AllocError> for OutOfMemory {
    fn from(_error: AllocError) -> OutOfMemory {
        OutOfMemory
    }
}

impl<T: Drop> From<AllocFailed<T>> for OutOfMemory {
    fn from(_error: AllocFailed<T>) -> OutOfMemory {
        OutOfMemory
    }
}

/// The error of appending octets to a builder.
#[derive(Clone, Copy, Debug, PartialEq, Eq)]
pub enum AppendError {
    /// The octets would exceed the limit of the builder.
    ShortBuf,
    /// There was no memory.
    OutOfMemory,
}

impl fmt::Display for AppendError {
    // specs/Octets.antt repeats these texts: change both together.
    ghost output = { λ e. Some (append_error_text e) };

    fn fmt<W: fmt::Write>(&self, f: &mut fmt::Formatter<W>) -> fmt::Result {
        f.write_str(match self {
            AppendError::ShortBuf => "buffer size exceeded",
            AppendError::OutOfMemory => "out of memory",
        })
    }
}

impl Error for AppendError {}

impl From<OutOfMemory> for AppendError {
    ghost from_gives = { λ _ e. e ≡ append_error.OutOfMemory };

    fn from(_error: OutOfMemory) -> AppendError {
        AppendError::OutOfMemory
    }
}

impl From<AllocError> for AppendError {
    ghost from_gives = { λ _ e. e ≡ append_error.OutOfMemory };

    fn from(_error: AllocError) -> AppendError {
        AppendError::OutOfMemory
    }
}

/// The error of reading octets.
#[derive(Clone, Copy, Debug, PartialEq, Eq)]
pub enum ParseError {
    /// The octets end too early.
    ShortInput,
    /// The octets are not of the expected form.
    Form(&'static str),
}

impl fmt::Display for ParseError {
    // specs/Octets.antt repeats these texts: change both together.
    ghost output = { λ e. Some (parse_error_text e) };

    fn fmt<W: fmt::Write>(&self, f: &mut fmt::Formatter<W>) -> fmt::Result {
        match self {
            ParseError::ShortInput => f.write_str("unexpected end of input"),
            ParseError::Form(text) => f.write_str(text),
        }
    }
}

impl Error for ParseError {}
