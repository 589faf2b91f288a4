//! Octets as text: Base 16, Base 32 hex and Base 64 (RFC 4648).
ghost use Rattle.std.specs.Prelude.{◌≡◌, Some};
ghost use Rattle.domain_codecs.specs.Codec.{decode_error_text};

use domain_octets::AppendError;
use std::error::Error;
use std::fmt;

/// An encoding of octets as text (RFC 4648).
#[derive(Clone, Copy, Debug, PartialEq, Eq)]
pub enum Codec {
    /// Base 16: two digits for an octet, read in either case (section 8).
    Base16,
    /// Base 32 with the extended hex alphabet, without padding, read in either case (section 7).
    Base32Hex,
    /// Base 64 with padding (section 4).
    Base64,
}

/// The error of decoding a text.
#[derive(Clone, Copy, Debug, PartialEq, Eq)]
pub enum DecodeError {
    /// No text of the codec has this character.
    IllegalChar(char),
    /// The text ends too early, or its padding is wrong.
    ShortInput,
    /// The octets do not fit in their builder.
    ShortBuf,
    /// Memory ran out.
    OutOfMemory,
}

impl fmt::Display for DecodeError {
    ghost output = { λ e. Some (decode_error_text e) };

    fn fmt<W: fmt::Write>(&self, f: &mut fmt::Formatter<W>) -> fmt::Result {
        match self {
            DecodeError::IllegalChar(c) => write!(f, "illegal character '{c}'"),
            DecodeError::ShortInput => f.write_str("incomplete input"),
            DecodeError::ShortBuf => f.write_str("buffer size exceeded"),
            DecodeError::OutOfMemory => f.write_str("out of memory"),
        }
    }
}

impl Error for DecodeError {}

impl From<AppendError> for DecodeError {
    ghost use Rattle.domain_codecs.specs.Codec.{decode_error_of};

    ghost from_gives = { λ a e. e ≡ decode_error_of a };

    fn from(error: AppendError) -> DecodeError {
        match error {
            AppendError::ShortBuf => DecodeError::ShortBuf,
            AppendError::OutOfMemory => DecodeError::OutOfMemory,
        }
    }
}
