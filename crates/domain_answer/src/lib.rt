//! What a few records of a denial chain answer to a question about a name and a type, as a whole.
//! The name does not exist, and no wildcard either; or it exists without data of the type; or it is
//! delegated, redirected or an alias (RFC 4035, section 5.4; RFC 4592; RFC 6672; RFC 6840, section
//! 4).
//!
//! `judge_nsec` takes records of an NSEC chain, any of them, in any order, and no zone. It returns
//! what the zone itself answers, or that these records do not prove it. `specs/ZoneAnswer` defines
//! what a zone answers, over its records alone. `specs/Reading` defines what records of its chain
//! say, and what they prove. A record that no zone with the apex can have is ignored.
//!
//! `judge_nsec3` takes records of an NSEC3 chain and the NSEC3PARAM record in the same way, and a
//! hasher for the hashes of names. `specs/HashedReading` defines what such a zone answers, what
//! records of its chain say, and what they prove. `judge_nsec3_expansion` judges a name whose
//! records were expanded from a wildcard.
//!
//! The functions with `witness` in their names also return the records that the answer rests on.
//! `needs_of` says which of these a response needs.
#![tactic(auto)]

mod answer;
mod expansion;
mod found;
mod judge;
pub mod laws;
mod limits;
mod needs;
mod nsec;
mod nsec3;
mod of_types;
mod wildcard;

pub use answer::{Answer, NameAnswer};
pub use expansion::judge_nsec3_expansion;
pub use found::{NsecCover, NsecFound, find_nsec};
pub use judge::{
    Nsec3Expansion, Nsec3Judgement, judge_nsec3_expansion_with_witness, judge_nsec3_index,
    judge_nsec3_index_expansion, judge_nsec3_with_witnesses, judge_nsec3_within,
};
pub use limits::Nsec3Limits;
pub use needs::{Needs, needs_of, needs_wildcard_record, wildcard_count};
pub use nsec::{
    NsecJudgement, is_at_parent, judge_found_wildcard, judge_name, judge_nsec,
    judge_nsec_with_witnesses, judge_wildcard,
};
pub use nsec3::{encloser_answer, judge_nsec3};
pub use of_types::{is_meta_type, types_answer, wildcard_types_answer};
pub use wildcard::wildcard_of;
