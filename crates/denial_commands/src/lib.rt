//! The commands of the program `denial`, and how its arguments choose among them.
//!
//! `run_command` runs a command over records, one a line. `run_over_zone` runs it over the records
//! of a zone file, which `--zone` names, and of the files that it includes. Both are generic over
//! the source of these files, their writer and their hasher.
//!
//! The specification's commands, `nsec`, `nsec3` and `check`, are those of `run_denial`, word by
//! word. So is what becomes of arguments that are no command.
#![tactic(auto)]

mod answer;
mod command;
mod explain;
mod fault;
mod help;
mod report;
mod run;
mod source;
mod zone;

pub use command::{Subcommand, subcommand_of};
pub use explain::Explanation;
pub use fault::{CommandFault, FileFault, ZoneRunFault};
pub use help::shown_text;
pub use report::{PlacedReport, RecordFaults};
pub use run::run_command;
pub use source::{has_extra_word, take_zone};
pub use zone::{ZoneRun, lint_lines, run_over_zone};
