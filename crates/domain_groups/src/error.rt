//! Errors of signing records.
ghost use Rattle.std.specs.Prelude.{◌≡◌, Some};
ghost use Rattle.domain_groups.specs.declared.error.SigningError.TheVariants as signing_error;
ghost use Rattle.domain_groups.specs.ErrorText.{signing_error_of, signing_error_text};

use domain_hasher::Nsec3HashError;
use domain_octets::OutOfMemory;
use std::error::Error;
use std::fmt;

/// Why records were not signed.
#[derive(Clone, Copy, Debug, PartialEq, Eq)]
pub enum SigningError {
    /// A group has no records.
    EmptyRecordSlice,
    /// Two records of one owner and one type differ in TTL (RFC 2181, section 5.2).
    MultipleTtlValues,
    /// The apex doesn't own exactly one SOA record.
    SoaRecordCouldNotBeDetermined,
    /// A name could not be hashed, or its hash cannot be used.
    Nsec3HashingError(Nsec3HashError),
    /// There was no memory.
    OutOfMemory,
}

impl fmt::Display for SigningError {
    // specs/ErrorText.antt repeats these texts: change both together.
    ghost output = { λ e. Some (signing_error_text e) };

    fn fmt<W: fmt::Write>(&self, f: &mut fmt::Formatter<W>) -> fmt::Result {
        match self {
            SigningError::EmptyRecordSlice => f.write_str("signing fault"),
            SigningError::MultipleTtlValues => f.write_str("RRset with more than one TTL"),
            SigningError::SoaRecordCouldNotBeDetermined => {
                f.write_str("no single SOA at the apex")
            }
            SigningError::Nsec3HashingError(error) => write!(f, "{error}"),
            SigningError::OutOfMemory => f.write_str("out of memory"),
        }
    }
}

impl Error for SigningError {}

/// Out of memory remains `OutOfMemory`; every other error becomes `Nsec3HashingError`.
impl From<Nsec3HashError> for SigningError {
    ghost from_gives = { λ h e. e ≡ signing_error_of h };

    fn from(error: Nsec3HashError) -> SigningError {
        match error {
            Nsec3HashError::OutOfMemory => SigningError::OutOfMemory,
            other => SigningError::Nsec3HashingError(other),
        }
    }
}

impl From<OutOfMemory> for SigningError {
    ghost from_gives = { λ _ e. e ≡ signing_error.OutOfMemory };

    fn from(_error: OutOfMemory) -> SigningError {
        SigningError::OutOfMemory
    }
}
