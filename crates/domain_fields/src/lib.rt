//! The fields of record data.
//!
//! The data of a type are described once, as a list of fields (`specs/Layout.antt`): numbers,
//! names, counted octets, octets to the end and type bitmaps (RFC 1035, section 3.3; RFC 4034).
//! From that description follow:
//!
//! - the octets, how they are read, and their first fault;
//! - the canonical octets (RFC 4034, section 6.2), the canonical order, and what is hashed;
//! - the tokens that spell the data.
//!
//! Each kind of field has one implementation of [`Fields`], one of [`ReadFields`] and one of
//! [`ScanFields`]. `specs/Scan.antt` combines grammars of tokens. [`InBase64`] and similar types
//! print octets in a codec.
//!
//! Other crates may rely on this. Octets are read as values in at most one way, and composed values
//! parse back to themselves (the module `laws`). Values are ordered by their canonical octets,
//! lexicographically.
#![tactic(auto)]

mod counted;
mod encoded;
mod fields;
mod form;
pub mod laws;
mod pieces;
#[tactic(auto, using(crate::proofs::LayoutLemmas::reading), unfolding(crate::specs::Layout::octets_of))]
mod read_fields;
mod scan_fields;
mod wire_fault;

pub use counted::Counted;
pub use encoded::{InBase16, InBase64, InLowerBase16};
pub use fields::{
    AtMost, Delimited, Exactly, Fields, MAX_RDLEN, Rest, Spelled, canonical_cmp_octets,
    canonical_eq,
};
pub use form::Form;
pub use pieces::{Block, Comment, Pieces, Token};
pub use read_fields::ReadFields;
pub use scan_fields::{Address, ScanFields, Scanned};
pub use wire_fault::WireFault;
