//! Records whose data are borrowed octets in wire form. The data are parsed only on request.
//!
//! [`BorrowedRecord`] is a record of owner, class, TTL and such data, from a message or an arena.
//! If the data are in canonical form, `SortedRecords` and the generators of chains take these
//! records as they are. They use only the type of data, the order of the octets, and the MINIMUM of
//! an SOA. The checkers need data of their own types, which [`ReadAs`] parses. [`read_record`]
//! reads a record as a message has it, and [`compose_record`] writes one.
#![tactic(auto)]

pub mod laws;
mod record;

pub use record::{
    BorrowedData, BorrowedRecord, ReadAs, ReadNsec, ReadNsec3, ReadNsec3param, compose_parts,
    compose_record, read_record,
};
