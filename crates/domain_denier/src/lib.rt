//! The records of a denial chain that an authoritative server answers a question with (RFC 4035,
//! section 3.1.3; RFC 5155, section 7.2).
//!
//! `deny_nsec` picks the records of an NSEC chain that a response to a question about a name and a
//! type needs: the one that matches or covers the name and, if the name does not exist, the one of
//! the wildcard below its closest encloser. `judge_nsec` of `domain_answer` accepts what it picks:
//! the answer is what the zone says. It does not read the whole chain: for a chain of a million
//! records, a question costs about twenty comparisons of names. `NsecDenier`, made once for a
//! chain, does the same by comparing only the names that decide what a record says.
//!
//! `deny_nsec3` picks the records of an NSEC3 chain, which `judge_nsec3` accepts. They are the
//! record that matches the closest encloser of the name, the one that covers the name one label
//! longer, and the one of the wildcard. The last two are picked if the name does not exist in the
//! chain, also with opt-out. It hashes the names from the name up to the closest encloser and then,
//! if its record is picked, the wildcard. It searches for each hash in the same way.
//!
//! `needed` leaves only the places of records that a response with the answer needs.
#![tactic(auto)]

mod encloser;
mod hash_search;
mod judged;
pub mod laws;
mod needed;
mod nsec;
mod nsec3;
mod owner_keys;
mod search;

pub use nsec::{NsecDenial, NsecDenier, deny_nsec};
pub use nsec3::{Nsec3Denial, deny_nsec3};
