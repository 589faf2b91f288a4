//! The error of reading record data from octets.
ghost use Rattle.std.specs.Prelude.{◌≡◌};
ghost use Rattle.domain_names.specs.Wire.{fault_of, name_fault_of};
ghost use Rattle.domain_bitmap.specs.Blocks.{bitmap_fault_of};

use domain_base::{NameError, ParseError};
use domain_bitmap::RtypeBitmapError;

/// The first fault of octets that are read as fields: a `ParseError` without its text.
#[derive(Clone, Copy, Debug, PartialEq, Eq)]
pub enum WireFault {
    /// The octets end within a field.
    ShortInput,
    /// A label has more than 63 octets, or is a compression pointer.
    BadLabel,
    /// A name has more than 255 octets.
    LongName,
    /// There are more octets than the data can have.
    LongData,
    /// A block of a type bitmap has no octets, or more than 32.
    BadBitmap,
}

impl From<NameError> for WireFault {
    ghost use Rattle.domain_fields.specs.Layout.{wire_fault_of};

    ghost from_gives = { λ n w. wire_fault_of w ≡ name_fault_of n };

    fn from(error: NameError) -> WireFault {
        match error {
            NameError::ShortInput => WireFault::ShortInput,
            NameError::BadLabel => WireFault::BadLabel,
            NameError::LongName => WireFault::LongName,
        }
    }
}

impl From<RtypeBitmapError> for WireFault {
    ghost use Rattle.domain_fields.specs.Layout.{wire_fault_of};

    ghost from_gives = { λ b w. wire_fault_of w ≡ bitmap_fault_of b };

    fn from(error: RtypeBitmapError) -> WireFault {
        match error {
            RtypeBitmapError::ShortInput => WireFault::ShortInput,
            RtypeBitmapError::BadRtypeBitmap => WireFault::BadBitmap,
        }
    }
}

impl From<WireFault> for ParseError {
    ghost use Rattle.domain_fields.specs.Layout.{wire_fault_of};

    ghost from_gives = { λ w e. fault_of e ≡ wire_fault_of w };

    fn from(fault: WireFault) -> ParseError {
        match fault {
            WireFault::ShortInput => ParseError::ShortInput,
            WireFault::BadLabel => ParseError::Form("compressed or bad label"),
            WireFault::LongName => ParseError::Form("long domain name"),
            WireFault::LongData => ParseError::Form("record data too long"),
            WireFault::BadBitmap => ParseError::Form("invalid NSEC bitmap"),
        }
    }
}
