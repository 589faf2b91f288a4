//! The errors of making a chain of hashed names.
ghost use Rattle.std.specs.Prelude.{◌≡◌, Some};
ghost use Rattle.domain_hasher.specs.ErrorText.{hash_error_text};
ghost use Rattle.domain_hasher.specs.declared.error.Nsec3HashError.TheVariants as nsec3_hash_error;

use domain_octets::OutOfMemory;
use std::alloc::{AllocError, AllocFailed};
use std::error::Error;
use std::fmt;

/// The error of making a chain of hashed names (RFC 5155, section 7.1).
#[derive(Clone, Copy, Debug, PartialEq, Eq)]
pub enum Nsec3HashError {
    /// The hasher returned an error, with a number of its own.
    Hasher(u8),
    /// Octets were not appended. No function of these crates returns this error.
    AppendError,
    /// A hash is empty, or too long for the first label of an owner. At most 39 octets fit, which
    /// are 63 digits of Base 32.
    OwnerHashError,
    /// The owner of a hash would have more than 255 octets, the most that a name can have.
    Nsec3NameTooLong,
    /// Two names have the same hash.
    CollisionDetected,
    /// Memory ran out.
    OutOfMemory,
}

impl fmt::Display for Nsec3HashError {
    // specs/ErrorText.antt repeats these texts: change both together.
    ghost output = { λ e. Some (hash_error_text e) };

    fn fmt<W: fmt::Write>(&self, f: &mut fmt::Formatter<W>) -> fmt::Result {
        match self {
            Nsec3HashError::Hasher(n) => write!(f, "hasher refused: {n}"),
            Nsec3HashError::AppendError => f.write_str("signing fault"),
            Nsec3HashError::OwnerHashError => f.write_str("hash of unusable length"),
            Nsec3HashError::Nsec3NameTooLong => f.write_str("hashed owner name too long"),
            Nsec3HashError::CollisionDetected => f.write_str("hash collision"),
            Nsec3HashError::OutOfMemory => f.write_str("out of memory"),
        }
    }
}

impl Error for Nsec3HashError {}

impl From<OutOfMemory> for Nsec3HashError {
    ghost from_gives = { λ _ e. e ≡ nsec3_hash_error.OutOfMemory };

    fn from(_error: OutOfMemory) -> Nsec3HashError {
        Nsec3HashError::OutOfMemory
    }
}

impl From<AllocError> for Nsec3HashError {
    ghost from_gives = { λ _ e. e ≡ nsec3_hash_error.OutOfMemory };

    fn from(_error: AllocError) -> Nsec3HashError {
        Nsec3HashError::OutOfMemory
    }
}

impl<T: Drop> From<AllocFailed<T>> for Nsec3HashError {
    ghost from_gives = { λ _ e. e ≡ nsec3_hash_error.OutOfMemory };

    fn from(_error: AllocFailed<T>) -> Nsec3HashError {
        Nsec3HashError::OutOfMemory
    }
}
