//! The commands `judge` and `answer` of the program `denial`. A run reads records of an NSEC or
//! NSEC3 chain, one a line, and writes on one line what they prove as a whole answer to a question.
//! Below it, on request, it writes the records that the answer rests on, or those with which a
//! server answers.
//!
//! `run_judge` is generic over its reader, its writer and its hasher, as `run_denial` is. It reads
//! lines as that does, and has the same faults; `JudgeFault` is such a fault as this program prints
//! it.
#![tactic(auto)]

mod answer_text;
mod command;
mod fault;
mod judge;
mod needs;
mod nsec3_told;
mod nsec_told;
mod program;
mod role;
mod shown;
mod told;

pub use command::judged_apex;
pub use fault::JudgeFault;
pub use program::run_judge;
