//! Signatures of records.
//!
//! - [`Rrsig`] is a signature (RFC 4034, section 3). [`ProtoRrsig`] is its fields before there is a
//!   signature.
//! - [`Timestamp`] is the time at which the validity of a signature begins or ends.
//!
//! Other crates may rely on this. Data have at most 65,535 octets, by an invariant. Contracts see
//! numbers, labels and octets, whatever type holds them. Octets, tokens and pieces are read and
//! written by grammars (`specs/Data.antt`). Both orders are the lexicographic order of the
//! canonical octets, and equality and `Hash` agree with them. None of these allocates.
#![tactic(auto)]

pub mod laws;
mod proto_rrsig;
mod rrsig;
mod timestamp;

pub use proto_rrsig::ProtoRrsig;
pub use rrsig::Rrsig;
pub use timestamp::{IllegalSignatureTime, Timestamp};
