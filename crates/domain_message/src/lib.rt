//! Reading records, from the octets of a message and from a line of a zone file.
#![tactic(auto)]

mod error;
mod header;
pub mod laws;
mod line;
mod name;
mod parts;
mod record;

pub use error::MessageError;
pub use line::{LineError, OwnedRecord, is_no_entry, scan_behind_owner, scan_entry, scan_record};
pub use name::{NameFault, read_name};
pub use record::read_record;
