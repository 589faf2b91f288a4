//! Octets: traits and types that hold, build and read them, and the pieces of zone file text.
//!
//! - [`Octets`] reads a value as one slice. [`OctetsBuilder`] appends all the given octets or none,
//!   and returns `ShortBuf` if and only if they would exceed its limit.
//! - [`SmallOctets`] holds up to 30 octets in the value itself, and allocates only for more.
//!   [`ArrayBuilder`] has room only in the value itself.
//! - [`Parser`] reads octets from the front, and numbers in big-endian order (RFC 1035, section
//!   2.3.2). An error leaves its position unchanged.
//! - [`push_words`] splits a line into its words.
//! - [`Formatter`] collects the pieces of zone file text. [`ZonefileFmt`] is the trait of values
//!   that a zone file shows in such pieces.
//! Other crates may rely on this. A contract sees each value as its list of octets. A call that
//! fails leaves that list, or the position of a parser, unchanged.
#![tactic(auto)]

mod array;
mod builder;
mod convert;
mod error;
mod formatter;
pub mod laws;
mod octets;
mod parser;
mod small;
mod words;
mod zonefile;

pub use array::ArrayBuilder;
pub use builder::{
    Composer, EmptyBuilder, FreezeBuilder, FromBuilder, GrowingBuilder, OctetsBuilder, Truncate,
};
pub use convert::{CopyOctets, EmptyOctets, FlattenInto, OctetsFrom};
pub use error::{AppendError, OutOfMemory, ParseError};
pub use formatter::{Formatter, Piece, PieceFormatter};
pub use octets::{Octets, TryClone};
pub use parser::Parser;
pub use small::{SmallBuilder, SmallOctets};
pub use words::{LineWords, push_words};
pub use zonefile::{DisplayKind, ZonefileFmt};
