//! The types of records, in one table.
//!
//! A type is a row: its number, IANA's mnemonic, the kinds of fields of its data, and what follows
//! them up to the end. To add a type, add its row to `src/table.rt` and `specs/Table.antt`. From
//! the row follow:
//!
//! - [`mnemonic`] and [`rtype_of`]: the text of the type (RFC 3597, section 5).
//! - [`is_data`]: whether octets are data of the type (`IsData` of `specs/Canonical.antt`).
//! - [`put_canonical`]: the canonical form of data (RFC 4034, section 6.2; RFC 6840, section 5.1).
//! - [`read_data`]: data that the tokens of a zone file spell, or the first fault
//!   (`specs/Reading.antt`). [`read_name`] reads one name.
//!
//! [`read_ttl`] reads a TTL, which periods in data share (`specs/Ttls.antt`).
//!
//! Other crates may rely on this. Contracts see a type as its number and data as octets. A field
//! begins octets in at most one way, so data are their fields in one way. What is read is data of
//! the type, and tokens with a fault spell none. The module `laws` has these laws.
//!
//! Data of old types, whose tail is `Opaque`, are read in the generic form only.
#![tactic(auto)]

mod address;
mod bitmap;
mod canonical;
mod data;
mod fault_text;
mod field;
mod gateway;
mod hashed;
mod identity;
pub mod laws;
mod location;
mod lookup;
mod measure;
mod name;
mod named;
mod parameters;
mod prefix;
mod read;
mod spell;
mod table;
mod time;
mod token;
mod ttl;

pub use canonical::put_canonical;
pub use data::is_data;
pub use field::{Field, Tail};
pub use lookup::{mnemonic, rtype_of};
pub use name::{NameTokenError, read_name};
pub use read::read_data;
pub use token::{DataFault, DataFaultKind, Token};
pub use ttl::{TtlText, read_ttl};
