//! One error for programs that call several of these crates.
ghost use Rattle.std.specs.Prelude.{◌≡◌, Some};
ghost use Rattle.domain_dnssec.specs.Error.{of_append, of_bitmap, of_chain, of_decoding, of_hasher, of_hashing, of_insert, of_line, of_message, of_name, of_parsing, of_salt, of_scanning, of_signing};
ghost use Rattle.domain_dnssec.specs.ErrorText.{error_text};
ghost use Rattle.domain_dnssec.specs.declared.error.Error.TheVariants as variant;

use domain_any_order::ChainError;
use domain_base::{NameError, ParseError, ScanError};
use domain_bitmap::{Nsec3SaltError, Nsec3SaltFromStrError, OwnerHashError, RtypeBitmapError};
use domain_codecs::DecodeError;
use domain_hasher::{HasherError, Nsec3HashError};
use domain_message::{LineError, MessageError};
use domain_octets::{AppendError, OutOfMemory};
use domain_record::LongRecordData;
use domain_records::{InsertError, SigningError, SortError};
use domain_rrsig::IllegalSignatureTime;
use std::alloc::{AllocError, AllocFailed};
use std::fmt;

/// The error of a program that calls these crates. Each of their errors converts into it, so `?` is
/// enough.
///
/// It keeps no text of `ScanError` and `ParseError`: an error with a text cannot be returned by `?`
/// from a generic call, because that has no proof.
#[derive(Clone, Copy, Debug, PartialEq, Eq)]
pub enum Error {
    /// There is no token where one is needed, or no entry in a line.
    EndOfEntry,
    /// A text or a token does not have the expected form, or is too short or too long.
    Text,
    /// Octets end too early.
    ShortInput,
    /// Octets do not have the expected form.
    Form,
    /// Data are over 65,535 octets.
    LongRecordData,
    /// A salt is over 255 octets.
    LongSalt,
    /// A hash is over 255 octets.
    LongHash,
    /// The records are of more than one class.
    MixedClasses,
    /// There is no chain, or a name was not hashed.
    Signing(SigningError),
    /// A record was not inserted, because an equal one is already there.
    Present,
    /// Text was not written.
    Write,
    /// Octets do not fit into a buffer.
    ShortBuf,
    /// There is no memory.
    OutOfMemory,
}

impl fmt::Display for Error {
    // specs/ErrorText.antt repeats these texts: change both together.
    ghost output = { λ e. Some (error_text e) };

    fn fmt<W: fmt::Write>(&self, f: &mut fmt::Formatter<W>) -> fmt::Result {
        match self {
            Error::EndOfEntry => f.write_str("unexpected end of entry"),
            Error::Text => f.write_str("illegal text"),
            Error::ShortInput => f.write_str("unexpected end of input"),
            Error::Form => f.write_str("malformed octets"),
            Error::LongRecordData => f.write_str("record data too long"),
            Error::LongSalt => f.write_str("illegal NSEC3 salt"),
            Error::LongHash => f.write_str("illegal owner name hash"),
            Error::MixedClasses => f.write_str("more than one class"),
            Error::Signing(error) => write!(f, "{error}"),
            Error::Present => f.write_str("record already present"),
            Error::Write => f.write_str("cannot write"),
            Error::ShortBuf => f.write_str("buffer size exceeded"),
            Error::OutOfMemory => f.write_str("out of memory"),
        }
    }
}

impl std::error::Error for Error {}

impl From<ScanError> for Error {
    ghost from_gives = { λ source e. e ≡ of_scanning source };

    fn from(error: ScanError) -> Error {
        match error {
            ScanError::EndOfEntry => Error::EndOfEntry,
            ScanError::Custom(_) => Error::Text,
            ScanError::ShortBuf => Error::ShortBuf,
            ScanError::OutOfMemory => Error::OutOfMemory,
        }
    }
}

impl From<ParseError> for Error {
    ghost from_gives = { λ source e. e ≡ of_parsing source };

    fn from(error: ParseError) -> Error {
        match error {
            ParseError::ShortInput => Error::ShortInput,
            ParseError::Form(_) => Error::Form,
        }
    }
}

impl From<NameError> for Error {
    ghost from_gives = { λ source e. e ≡ of_name source };

    fn from(error: NameError) -> Error {
        match error {
            NameError::ShortInput => Error::ShortInput,
            NameError::BadLabel | NameError::LongName => Error::Form,
        }
    }
}

impl From<RtypeBitmapError> for Error {
    ghost from_gives = { λ source e. e ≡ of_bitmap source };

    fn from(error: RtypeBitmapError) -> Error {
        match error {
            RtypeBitmapError::ShortInput => Error::ShortInput,
            RtypeBitmapError::BadRtypeBitmap => Error::Form,
        }
    }
}

impl From<DecodeError> for Error {
    ghost from_gives = { λ source e. e ≡ of_decoding source };

    fn from(error: DecodeError) -> Error {
        match error {
            DecodeError::IllegalChar(_) | DecodeError::ShortInput => Error::Text,
            DecodeError::ShortBuf => Error::ShortBuf,
            DecodeError::OutOfMemory => Error::OutOfMemory,
        }
    }
}

impl From<Nsec3SaltError> for Error {
    ghost from_gives = { λ _ e. e ≡ variant.LongSalt };

    fn from(_error: Nsec3SaltError) -> Error {
        Error::LongSalt
    }
}

impl From<Nsec3SaltFromStrError> for Error {
    ghost from_gives = { λ source e. e ≡ of_salt source };

    fn from(error: Nsec3SaltFromStrError) -> Error {
        match error {
            Nsec3SaltFromStrError::DecodeError(error) => Error::from(error),
            Nsec3SaltFromStrError::Nsec3SaltError(error) => Error::from(error),
        }
    }
}

impl From<OwnerHashError> for Error {
    ghost from_gives = { λ _ e. e ≡ variant.LongHash };

    fn from(_error: OwnerHashError) -> Error {
        Error::LongHash
    }
}

impl From<IllegalSignatureTime> for Error {
    ghost from_gives = { λ _ e. e ≡ variant.Text };

    fn from(_error: IllegalSignatureTime) -> Error {
        Error::Text
    }
}

impl From<LongRecordData> for Error {
    ghost from_gives = { λ _ e. e ≡ variant.LongRecordData };

    fn from(_error: LongRecordData) -> Error {
        Error::LongRecordData
    }
}

impl From<AppendError> for Error {
    ghost from_gives = { λ source e. e ≡ of_append source };

    fn from(error: AppendError) -> Error {
        match error {
            AppendError::ShortBuf => Error::ShortBuf,
            AppendError::OutOfMemory => Error::OutOfMemory,
        }
    }
}

impl From<SigningError> for Error {
    ghost from_gives = { λ source e. e ≡ of_signing source };

    fn from(error: SigningError) -> Error {
        match error {
            SigningError::OutOfMemory => Error::OutOfMemory,
            other => Error::Signing(other),
        }
    }
}

impl From<Nsec3HashError> for Error {
    ghost from_gives = { λ source e. e ≡ of_hashing source };

    fn from(error: Nsec3HashError) -> Error {
        match error {
            Nsec3HashError::OutOfMemory => Error::OutOfMemory,
            other => Error::Signing(SigningError::Nsec3HashingError(other)),
        }
    }
}

impl From<HasherError> for Error {
    ghost from_gives = { λ source e. e ≡ of_hasher source };

    fn from(error: HasherError) -> Error {
        match error {
            HasherError::Refused(n) => Error::from(Nsec3HashError::Hasher(n)),
            HasherError::OutOfMemory => Error::OutOfMemory,
        }
    }
}

impl<N: Drop, D: Drop> From<InsertError<N, D>> for Error {
    ghost from_gives = { λ source e. e ≡ of_insert source };

    fn from(error: InsertError<N, D>) -> Error {
        match error {
            InsertError::Present(_) => Error::Present,
            InsertError::OutOfMemory(_) => Error::OutOfMemory,
        }
    }
}

impl From<ChainError> for Error {
    ghost from_gives = { λ source e. e ≡ of_chain source };

    fn from(error: ChainError) -> Error {
        match error {
            ChainError::MixedClasses => Error::MixedClasses,
            ChainError::Sort(error) => Error::from(error),
            ChainError::Signing(error) => Error::from(error),
            ChainError::OutOfMemory => Error::OutOfMemory,
        }
    }
}

impl From<SortError> for Error {
    ghost from_gives = { λ _ e. e ≡ variant.OutOfMemory };

    fn from(_error: SortError) -> Error {
        Error::OutOfMemory
    }
}

impl From<MessageError> for Error {
    ghost from_gives = { λ source e. e ≡ of_message source };

    fn from(error: MessageError) -> Error {
        match error {
            MessageError::ShortInput => Error::ShortInput,
            MessageError::BadLabelType
            | MessageError::ForwardPointer
            | MessageError::LongName
            | MessageError::DataLength
            | MessageError::IllegalData => Error::Form,
            MessageError::ShortBuf => Error::ShortBuf,
            MessageError::OutOfMemory => Error::OutOfMemory,
        }
    }
}

impl From<LineError> for Error {
    ghost from_gives = { λ source e. e ≡ of_line source };

    fn from(error: LineError) -> Error {
        match error {
            LineError::NoEntry => Error::EndOfEntry,
            LineError::Owner(error)
            | LineError::Ttl(error)
            | LineError::Class(error)
            | LineError::Rtype(error)
            | LineError::RecordData(error) => Error::from(error),
            LineError::Trailing => Error::Text,
            LineError::OutOfMemory => Error::OutOfMemory,
        }
    }
}

impl From<fmt::Error> for Error {
    ghost from_gives = { λ _ e. e ≡ variant.Write };

    fn from(_error: fmt::Error) -> Error {
        Error::Write
    }
}

impl From<OutOfMemory> for Error {
    ghost from_gives = { λ _ e. e ≡ variant.OutOfMemory };

    fn from(_error: OutOfMemory) -> Error {
        Error::OutOfMemory
    }
}

impl From<AllocError> for Error {
    ghost from_gives = { λ _ e. e ≡ variant.OutOfMemory };

    fn from(_error: AllocError) -> Error {
        Error::OutOfMemory
    }
}

impl<T: Drop> From<AllocFailed<T>> for Error {
    ghost from_gives = { λ _ e. e ≡ variant.OutOfMemory };

    fn from(_error: AllocFailed<T>) -> Error {
        Error::OutOfMemory
    }
}
