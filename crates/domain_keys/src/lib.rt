//! Keys of zones, and digests of keys.
//!
//! - [`Dnskey`] is a key of a zone (RFC 4034, section 2), with its flags and its key tag (RFC 4034,
//!   appendix B).
//! - [`Ds`] is the digest by which a parent zone refers to such a key (RFC 4034, section 5).
//! - Both are [`KeyData`] of their kinds: three numbers and octets. All that does not depend on
//!   their meaning is done there, once for both. `specs/Keys.antt` says which number is which.
//!
//! Other crates may rely on this. Data have at most 65,535 octets, by an invariant. Contracts see
//! numbers and octets, whatever type holds them. Octets, tokens and pieces are read and written by
//! grammars (`specs/Keys.antt`). Both orders are the lexicographic order of the octets, and
//! equality and `Hash` agree with them. None of these allocates.
#![tactic(auto)]

pub mod data_laws;
mod dnskey;
mod ds;
mod flags;
mod key_data;
mod key_tag;
pub mod laws;

pub use dnskey::{Dnskey, ZoneKey};
pub use ds::{Digest, Ds};
pub use key_data::{KeyData, KeyKind};
