//! Plain record data.
//!
//! The data of the types A, NS, SOA and MX (RFC 1035, section 3) and of unknown types (RFC 3597).
//!
//! The data of a type are a list of fields (`domain_fields`). From it follow their octets, their
//! canonical octets, their order, what is hashed, and the tokens that spell them.
//!
//! Other crates may rely on this. Octets are read as data in at most one way, and composed data
//! parse back to themselves (the module `laws`). `canonical_cmp` is the lexicographic order of
//! canonical octets.
#![tactic(auto)]

mod a;
pub mod laws;
mod mx;
mod ns;
mod soa;
mod unknown;

pub use a::A;
pub use mx::Mx;
pub use ns::Ns;
pub use soa::Soa;
pub use unknown::UnknownRecordData;
