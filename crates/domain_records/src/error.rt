//! Errors of inserting and sorting records.
ghost use Rattle.std.specs.Prelude.{◌≡◌, Some, codes};
ghost use Rattle.domain_records.specs.{Sorted.refused, Text.insert_error_text};

use domain_octets::OutOfMemory;
use domain_record::Record;
use std::error::Error;
use std::fmt;

/// The records were not sorted: out of memory. Only this crate can construct the error, so a value
/// of it means that a sort failed.
#[derive(Clone, Copy, Debug, PartialEq, Eq)]
pub struct SortError {
    pub(crate) reason: OutOfMemory,
}

impl fmt::Display for SortError {
    ghost output = { λ _. Some (codes "out of memory") };

    fn fmt<W: fmt::Write>(&self, f: &mut fmt::Formatter<W>) -> fmt::Result {
        f.write_str("out of memory")
    }
}

impl Error for SortError {}

/// Why a record was not inserted. Each variant returns the record.
#[derive(Debug, Drop)]
pub enum InsertError<N, D> {
    /// A record that is equal under the canonical order is already present.
    Present(Record<N, D>),
    /// There was no memory.
    OutOfMemory(Record<N, D>),
}

impl<N, D> InsertError<N, D> {
    /// Returns the record that was not inserted.
    pub fn into_record(self) -> Record<N, D>
        ensures { result ≡ refused self }
    {
        match self {
            InsertError::Present(record) => record,
            InsertError::OutOfMemory(record) => record,
        }
    }
}

impl<N, D> fmt::Display for InsertError<N, D> {
    // specs/Text.antt repeats these texts: change both together.
    ghost output = { λ e. Some (insert_error_text e) };

    fn fmt<W: fmt::Write>(&self, f: &mut fmt::Formatter<W>) -> fmt::Result {
        f.write_str(match self {
            InsertError::Present(_) => "record already present",
            InsertError::OutOfMemory(_) => "out of memory",
        })
    }
}
