//! Records.
//!
//! A record (RFC 1035, section 3.2), its canonical order (RFC 4034, section 6), and the traits of
//! its data. These are the type of the data, how they are read and written, and what the chains of
//! a zone see of them (`ZoneData`).
//!
//! Other crates may rely on this. Records are ordered by class, owner, type and the order of their
//! data. This is a total order. A copy of a record is the same record.
#![tactic(auto)]

mod pairs;
mod record;
mod record_data;

pub use pairs::both;
pub use record::{CloneRecordData, Record};
pub use record_data::{ComposeRecordData, LongRecordData, ParseRecordData, RecordData, ZoneData};
