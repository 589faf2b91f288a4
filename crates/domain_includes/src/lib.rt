//! Zone files with the files that they include (RFC 1035, section 5.1, `$INCLUDE`), and with the
//! records that `$GENERATE` stands for.
//!
//! - [`read_files`] reads the records of a zone file and of the files that it includes, in one
//!   pass, and passes each to a [`RecordSink`]. The first fault ends it: a [`FileFault`] with its
//!   file, line and column.
//! - [`FileSource`] is where included files come from. This crate opens no file itself.
//!
//! Other crates may rely on this. A contract sees the records of all files as one list
//! (`specs/Files.antt`), and the first fault (`specs/FileFaults.antt`). Both are relations over
//! what reading of a path gives.
#![tactic(auto)]

mod fault;
mod files;
mod generated;
mod path;
mod reader;
mod step;
#[cfg(test)]
mod tests;

pub use fault::{FileFault, FileFaultKind, FilesFault, PathText};
pub use files::{FileSource, RecordSink, SourceError};
pub use reader::{MAX_DEPTH, read_files};
