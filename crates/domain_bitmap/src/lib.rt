//! Sets of record types, as NSEC and NSEC3 records hold them (RFC 4034, section 4.1.2; RFC 5155,
//! section 3.2.1), and the salts and hashes of NSEC3 (RFC 5155, sections 3.1.5 and 3.1.7).
//!
//! On the wire a set of types is a list of blocks. A block is the number of a window of 256 types,
//! a length of 1 to 32, and as many octets. The most significant bit of the first octet is that of
//! the window's first type. The RFC allows one spelling of a set: windows ascend, and no block ends
//! in a zero octet. Octets from outside may spell it otherwise, and are read as they are.
//!
//! Other crates may rely on this:
//!
//! - An `RtypeBitmapBuilder` makes the one spelling of the types that were added, in whatever order
//!   and however often (`bitmap_octets` of `specs/Bitmap.antt`). Adding a type whose window is
//!   already there does not allocate and does not fail. `finalize` does not allocate.
//! - An `RtypeBitmap` is a list of blocks (`IsBitmap` of `specs/Blocks.antt`). Contracts see its
//!   octets. `from_octets` rejects exactly all other octets, and its error is the first fault.
//! - `iter` yields the types whose bits are set, block by block, in the order of their bits.
//!   `contains` looks only at the first block of the type's window. For a bitmap from a builder,
//!   both agree with the set of types that were added (`laws`).
//! - A bitmap, a salt and a hash are `CheckedOctets` of their kinds, which has all that works on
//!   octets only. Equality, order and `Hash` are those of the octets, and the kind has the
//!   canonical order. For two bitmaps from builders, equality is equality of the sets.
//! - `RtypeBitmaps` is a list of bitmaps in two vectors, where each takes its octets and 8 more.
//!   `push` copies a bitmap or changes nothing. `get` borrows one in constant time, without
//!   allocation.
//! - An `Nsec3Salt` and an `OwnerHash` have at most 255 octets. Contracts see these octets. `Ord`
//!   is lexicographic. The canonical order is that of the wire form, which compares the length
//!   first.
#![tactic(auto)]

mod bitmap;
mod blocks;
mod builder;
mod checked;
mod counted;
mod error;
mod iter;
pub mod laws;
mod list;
mod owner_hash;
mod salt;

pub use bitmap::{Blocks, RtypeBitmap};
pub use builder::RtypeBitmapBuilder;
pub use checked::{CheckedOctets, OctetsKind};
pub use counted::{Counted, CountedOctets};
pub use error::RtypeBitmapError;
pub use iter::RtypeBitmapIter;
pub use list::RtypeBitmaps;
pub use owner_hash::{OwnerHash, OwnerHashError};
pub use salt::{Nsec3Salt, Nsec3SaltError, Nsec3SaltFromStrError};
