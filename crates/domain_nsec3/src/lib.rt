//! The NSEC3 chain of a zone (RFC 5155, section 7.1).
//!
//! `Nsec3Chain::generate` gathers the original owner names of a zone and their empty non-terminals,
//! hashes them, and returns exactly the defined chain, or the first fault of the zone. The chain
//! lends its records one by one, or returns all of them. `generate_nsec3s` does both steps, under
//! the name of the ported crate. The definitions are in `specs/`, on top of those of `domain_zone`.
//!
//! The crates above may rely on this: exactly one record of the chain matches or covers the hash of
//! each name of the zone.
#![tactic(auto)]

mod borrowed;
mod chain;
mod config;
mod hash;
pub mod laws;
mod nsec3;

pub use borrowed::BorrowedNsec3;
pub use chain::names_over;
pub use config::{GenerateNsec3Config, Nsec3ParamTtlMode};
pub use hash::{HashedOwner, hash_wire, mk_hashed_nsec3_owner_name};
pub use nsec3::{Nsec3Chain, Nsec3Records, generate_nsec3s};
