//! Names of an NSEC3 chain that have the same hash, so that the zone has no chain (RFC 5155,
//! section 7.1).
//!
//! `alike_names` returns each name of the chain that has the hash of an earlier name in canonical
//! order, with the first name that has it. `first_alike` returns the first of them. The names of a
//! chain are its original owner names and the empty non-terminals above them, as `domain_nsec3`
//! hashes them. The records borrow their octets. The definitions are in `specs/Alike.antt`.
#![tactic(auto)]

mod alike;
mod chain_names;
mod lowered;

pub use alike::{Alike, alike_names, first_alike};
pub use lowered::write_lowered;
