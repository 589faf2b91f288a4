//! Sorted records: the order in which a zone is kept and signed.
//!
//! A signer keeps its zone in [`SortedRecords`], in the canonical order of RFC 4034, section 6: by
//! class, then by owner in the order of names, then by type, then by the canonical form of the
//! data. The TTL is not compared. Groups of these records, ways to sort and [`SigningError`] are
//! those of `domain_groups`.
//!
//! The crates above may rely on this:
//!
//! - After any calls the stored records strictly ascend, so no two of them are equal under the
//!   canonical order. One of several equal records is kept: with [`DefaultSorter`] the earliest,
//!   and a stored one before a new one.
//! - A call that fails leaves the stored records unchanged, and [`SortedRecords::insert`] returns
//!   its record.
//! - Sorted records of one class are in order: owners never descend, and types never descend within
//!   an owner.
//! - Sorting many records works on runs of neighbours of one owner, which the sorter orders by
//!   keys. Keys are only hints: their order is checked before a record is moved. If it is not the
//!   canonical order, the sorter sorts the records themselves. `insert` and `contains` use binary
//!   searches, and no comparison takes memory.
#![tactic(auto)]

mod error;
pub mod laws;
mod sort;
mod sorted;
mod write;

pub use domain_groups::{
    DefaultSorter, InPlaceSorter, OwnerRrs, OwnerRrsIter, RecordsIter, RefSlice, Rrset, RrsetIter,
    SigningError, SliceRefsOrOwned, SliceRefsOrOwnedIterator, Sorter,
};
pub use error::{InsertError, SortError};
pub use sort::owner_key;
pub use sorted::SortedRecords;
