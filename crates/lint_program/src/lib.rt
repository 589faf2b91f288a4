//! The command `lint` of the program `denial`. It reads the records of a zone, one a line, as the
//! others do. It reports every line that is not a record, with what is wrong in it. Then it reports
//! what is wrong with the records as a zone, and what is no fault but is seldom intended.
//!
//! `run_lint` is generic over its reader, its writer and its hasher. Its contract covers four
//! decisions:
//!
//! - which lines are bad, by `next_line` of `denial_program`, each line separately;
//! - the faults of the others for which `denial nsec` rejects them, by `faults_of`;
//! - which of their records deserve a note, and why, by `notes_of`;
//! - if parameters of an NSEC3 chain are given, for which fault `denial nsec3` rejects them, and
//!   which of their names have the same hash, by `hashed_of`.
//!
//! `explain` then works out what is wrong in a bad line. Its text, and the text of a note between
//! the words of its reason, are only promised to be printable and without a line end.
#![tactic(auto)]

mod alike;
mod command;
mod explain;
mod fault;
mod faults;
mod firsts;
mod hashed;
pub mod laws;
mod looks;
mod note_text;
mod notes;
mod outcome;
mod program;
mod reading;
mod refusal;
mod report;

pub use command::linted_zone;
pub use fault::LintFault;
pub use outcome::Outcome;
pub use program::run_lint;
