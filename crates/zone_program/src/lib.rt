//! The command `zone` of the program `denial`. It reads a zone file and the files that it includes,
//! and prints their records, one a line, as the other commands read them.
//!
//! With `--zone`, the other commands read the lines of `zone_lines`.
#![tactic(auto)]

mod fault;
mod lines;
mod places;
mod program;
mod sink;

pub use fault::ZoneFault;
pub use lines::zone_lines;
pub use places::{RecordPlace, ZoneLines};
pub use program::{fault_of, run_zone};
