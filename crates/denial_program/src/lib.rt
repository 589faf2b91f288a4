//! The whole program `denial`. It reads the records of a zone, one a line, and writes the chain
//! that denies what the zone does not hold. Or it reads records of such a chain, and writes what
//! they prove about a name and a type.
//!
//! `run_denial` is generic over its reader, its writer and its hasher. The program passes those of
//! its process, and tests pass some that fail.
#![tactic(auto)]

mod among;
mod answer;
mod arena;
mod check;
mod command;
mod fault;
pub mod laws;
mod line;
mod prepare;
mod process;
mod program;
mod reading;
mod store;
mod verdict_text;

pub use among::records_among;
pub use answer::{ParamFlags, Reply, nsecs_of};
pub use check::chain_of;
pub use command::{Nsec3Params, Question, apex_of, name_of, parameters_of, question_of};
pub use fault::{DenialFault, fault_of};
pub use line::{Line, ZoneName, ZoneOctets};
pub use prepare::{PrepareError, read_records, sort_zone};
pub use process::{BUFFER, words_of};
pub use program::{run_denial, run_with};
pub use reading::{next_line, without_end};
pub use store::Store;
