//! The NSEC chain of a zone (RFC 4034, section 4; RFC 4035, section 2.3; RFC 9077).
//!
//! `NsecChain::generate` walks once over the records of a zone, in canonical order, and returns
//! exactly the defined chain, or the first fault of the zone. The chain lends its records one by
//! one, or returns all of them. `generate_nsecs` does both steps, under the name of the ported
//! crate. The definitions are in `specs/`, on top of those of `domain_zone`.
//!
//! The crates above may rely on this: exactly one record of the chain matches or covers each name
//! of the zone that is not occluded. It matches if and only if the name owns records, and then
//! lists their types.
#![tactic(auto)]

mod chain;
mod config;
pub mod laws;

pub use chain::{BorrowedNsec, NsecChain, generate_nsecs};
pub use config::GenerateNsecConfig;
