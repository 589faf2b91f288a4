//! Groups of records: the records of one owner, of one type, and of one owner and type; and ways to
//! sort.
//!
//! [`RecordsIter`] returns records owner by owner, [`RrsetIter`] and [`OwnerRrsIter`] RRset by
//! RRset (RFC 2181, section 5). Groups borrow their records, from a slice of records or of
//! references, and outlive the iterator that returned them. Nothing is copied.
//!
//! The crates above may rely on this:
//!
//! - Groups are the maximal runs of neighbours that share owner, type or both, in order; joined,
//!   they are the list. Whether a group is an error depends on its own TTLs only, and the iterator
//!   continues after it.
//! - [`RecordsIter::is_one_class`] returns true if and only if the records that are left have one
//!   class. [`RecordsIter::is_in_order`] returns true if and only if owners never descend, and
//!   types never descend within an owner.
//!
//! [`Sorter`] is a way to sort a list. [`SigningError`] is why records were not signed.
#![tactic(auto)]

mod error;
mod group;
pub mod laws;
mod slice;
mod sorter;

pub use error::SigningError;
pub use group::{OwnerRrs, OwnerRrsIter, RecordsIter, Rrset, RrsetIter};
pub use slice::{RefSlice, SliceRefsOrOwned, SliceRefsOrOwnedIterator};
pub use sorter::{DefaultSorter, InPlaceSorter, Sorter};
