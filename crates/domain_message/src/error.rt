//! Why a name or a record in a message was not read.
ghost use Rattle.std.specs.Prelude.{◌≡◌, Some};
ghost use Rattle.domain_message.specs.ErrorText.{message_error_text};
ghost use Rattle.domain_message.specs.Record.{append_refusal_of, message_error_of};
ghost use Rattle.domain_message.specs.declared.error.MessageError.TheVariants as message_error;

use crate::NameFault;
use domain_octets::{AppendError, OutOfMemory};
use std::error::Error;
use std::fmt;

/// Why the name or the record at a place of a message was not read.
#[derive(Clone, Copy, Debug, PartialEq, Eq)]
pub enum MessageError {
    /// The message ends within the name or the record.
    ShortInput,
    /// A label begins with the bits 01 or 10, which no label type uses (RFC 1035, section 4.1.4).
    BadLabelType,
    /// A pointer does not point to a place before the labels that it follows.
    ForwardPointer,
    /// A name is longer than 255 octets.
    LongName,
    /// The fields of the data end elsewhere than their length says.
    DataLength,
    /// The octets of the data are not data of the type, or exceed 65,535 without compression.
    IllegalData,
    /// The octets of the data, or a part of them, have no room in their builder.
    ShortBuf,
    /// There was no memory.
    OutOfMemory,
}

impl fmt::Display for MessageError {
    // specs/ErrorText.antt repeats these texts: change both together.
    ghost output = { λ e. Some (message_error_text e) };

    fn fmt<W: fmt::Write>(&self, f: &mut fmt::Formatter<W>) -> fmt::Result {
        f.write_str(match self {
            MessageError::ShortInput => "unexpected end of input",
            MessageError::BadLabelType => "bad label type",
            MessageError::ForwardPointer => "compression pointer leads forward",
            MessageError::LongName => "long domain name",
            MessageError::DataLength => "wrong length of record data",
            MessageError::IllegalData => "illegal record data",
            MessageError::ShortBuf => "buffer size exceeded",
            MessageError::OutOfMemory => "out of memory",
        })
    }
}

impl Error for MessageError {}

impl From<NameFault> for MessageError {
    ghost from_gives = { λ fault e. e ≡ message_error_of fault };

    fn from(fault: NameFault) -> MessageError {
        match fault {
            NameFault::ShortInput => MessageError::ShortInput,
            NameFault::BadLabelType => MessageError::BadLabelType,
            NameFault::ForwardPointer => MessageError::ForwardPointer,
            NameFault::LongName => MessageError::LongName,
        }
    }
}

impl From<AppendError> for MessageError {
    ghost from_gives = { λ a e. e ≡ append_refusal_of a };

    fn from(error: AppendError) -> MessageError {
        match error {
            AppendError::ShortBuf => MessageError::ShortBuf,
            AppendError::OutOfMemory => MessageError::OutOfMemory,
        }
    }
}

impl From<OutOfMemory> for MessageError {
    ghost from_gives = { λ _ e. e ≡ message_error.OutOfMemory };

    fn from(_error: OutOfMemory) -> MessageError {
        MessageError::OutOfMemory
    }
}
