//! Why records have no chain.
ghost use Rattle.std.specs.Prelude.{◌≡◌, Some};
ghost use Rattle.domain_any_order.specs.{AnyOrder.chain_error_of, ErrorText.chain_error_text};
ghost use Rattle.domain_any_order.specs.declared.error.ChainError.TheVariants as chain_error;

use domain_records::{SigningError, SortError};
use std::error::Error;
use std::fmt;

/// Why records have no chain. This is not a `SigningError`: that has the variants of the ported
/// crate, and none of them means records of more than one class.
#[derive(Clone, Copy, Debug, PartialEq, Eq)]
pub enum ChainError {
    /// The records are of more than one class.
    MixedClasses,
    /// There was no memory to sort the records, which are of one class. Faults of their zone show
    /// only after the sort.
    Sort(SortError),
    /// The first fault of their zone, never out of memory.
    Signing(SigningError),
    /// There was no memory for the chain. The zone of the records has no fault, unless a name of an
    /// NSEC3 chain can't be hashed.
    OutOfMemory,
}

impl fmt::Display for ChainError {
    // specs/ErrorText.antt repeats these texts: change both together.
    ghost output = { λ e. Some (chain_error_text e) };

    fn fmt<W: fmt::Write>(&self, f: &mut fmt::Formatter<W>) -> fmt::Result {
        match self {
            ChainError::MixedClasses => f.write_str("more than one class"),
            ChainError::Sort(error) => write!(f, "{error}"),
            ChainError::Signing(error) => write!(f, "{error}"),
            ChainError::OutOfMemory => f.write_str("out of memory"),
        }
    }
}

impl Error for ChainError {}

/// Out of memory remains `OutOfMemory`; every other error is a fault of the zone.
impl From<SigningError> for ChainError {
    ghost from_gives = { λ source e. e ≡ chain_error_of source };

    fn from(error: SigningError) -> ChainError {
        match error {
            SigningError::OutOfMemory => ChainError::OutOfMemory,
            other => ChainError::Signing(other),
        }
    }
}

impl From<SortError> for ChainError {
    ghost from_gives = { λ source e. e ≡ chain_error.Sort source };

    fn from(error: SortError) -> ChainError {
        ChainError::Sort(error)
    }
}
