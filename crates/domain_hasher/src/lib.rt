//! Hashers of owner names (RFC 5155, section 5).
//!
//! The trait of hashers that the crates of NSEC3 chains use, and the errors of making a chain of
//! hashed names. `domain_sha1` has the hasher for SHA-1.
#![tactic(auto)]

mod error;
mod hasher;

pub use error::Nsec3HashError;
pub use hasher::{HasherError, Nsec3Hasher};
