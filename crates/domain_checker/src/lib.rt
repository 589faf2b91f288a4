//! What a few records of a denial chain prove about a name and a type (RFC 4035, section 5.4; RFC
//! 5155, section 8).
//!
//! `check_nsec` takes records of an NSEC chain, any of them, in any order, and no zone. It returns
//! what the zone itself says of the name and the type, or that these records do not prove it.
//! `specs/Verdict` defines what the zone and its chain say, and `specs/Reading` what the records
//! say. `NsecCheck` does the same for records that are passed one by one, and keeps none of them.
//!
//! `check_nsec3` takes records of an NSEC3 chain and the NSEC3PARAM record in the same way, and a
//! hasher for the hashes of names. Here `specs/HashedVerdict` defines what the zone and its chain
//! say, and `specs/HashedReading` what the records say. The steps of `check_nsec3` are public too:
//! `find_nsec3_encloser` returns what such records say of the closest encloser of a name, and
//! `find_nsec3` what they say of one name.
#![tactic(auto)]

mod index;
pub mod laws;
mod nsec;
mod nsec3;
mod verdict;

pub use index::{Nsec3Index, Nsec3Search, check_nsec3_index};
pub use nsec::{
    NsecCheck, NsecRr, check_nsec, is_at_cut, is_before, is_inside, is_match, is_strictly_below,
    shared_if_covered,
};
pub use nsec3::{
    Nsec3Encloser, Nsec3Found, Nsec3Rr, check_nsec3, find_nsec3, find_nsec3_encloser, is_hash_owner,
};
pub use verdict::Verdict;
