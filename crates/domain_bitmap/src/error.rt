//! The error of reading octets as a list of blocks.
ghost use Rattle.std.specs.Prelude.{◌≡◌, Some};
ghost use Rattle.domain_names.specs.Wire.{fault_of};
ghost use Rattle.domain_bitmap.specs.Blocks.{bitmap_fault_of, bitmap_error_text};

use domain_base::ParseError;
use std::error::Error;
use std::fmt;

/// The error of reading octets as a list of blocks.
#[derive(Clone, Copy, Debug, PartialEq, Eq)]
pub enum RtypeBitmapError {
    /// The octets end within a block.
    ShortInput,
    /// A block has no octets, or more than 32.
    BadRtypeBitmap,
}

impl fmt::Display for RtypeBitmapError {
    // specs/Blocks.antt repeats these texts: change both together.
    ghost output = { λ e. Some (bitmap_error_text e) };

    fn fmt<W: fmt::Write>(&self, f: &mut fmt::Formatter<W>) -> fmt::Result {
        f.write_str(match self {
            RtypeBitmapError::ShortInput => "unexpected end of input",
            RtypeBitmapError::BadRtypeBitmap => "invalid record type bitmap",
        })
    }
}

impl Error for RtypeBitmapError {}

impl From<RtypeBitmapError> for ParseError {
    ghost from_gives = { λ f e. fault_of e ≡ bitmap_fault_of f };

    fn from(error: RtypeBitmapError) -> ParseError {
        match error {
            RtypeBitmapError::ShortInput => ParseError::ShortInput,
            RtypeBitmapError::BadRtypeBitmap => ParseError::Form("invalid NSEC bitmap"),
        }
    }
}
