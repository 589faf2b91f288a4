//! Zone files (RFC 1035, section 5.1): their tokens, and the fields of an entry before its type.
//!
//! - [`EntryReader`] reads the entries of a file in one pass: lists of [`Token`]s. A fault is a
//!   [`SyntaxFault`], and reading goes on behind it. [`Place`] is a line and a column.
//! - [`read_prefix`] reads the TTL and the class before a type, in either order. [`read_ttl`] and
//!   [`read_class`] read one token.
//! - [`laws`] has theorems about entries.
//!
//! Other crates may rely on this. A contract sees a reader as the list of entries and faults that
//! are left of its file. That list is a function of the octets (`specs/Entries.antt`), and each
//! call returns its first item. A call that runs out of memory leaves it as it was.
#![tactic(auto)]

mod body;
mod class;
mod entry;
mod error;
mod fault;
mod fields;
pub mod laws;
mod lexeme;
mod line;
#[cfg(test)]
mod line_tests;
mod place;
mod reader;
mod state;
#[cfg(test)]
mod tests;
mod token;
mod zone_reader;

pub use body::{Body, owns_records};
pub use class::read_class;
pub use domain_types::{Token, TtlText, read_ttl};
pub use error::{SyntaxError, SyntaxFault};
pub use fault::{EntryFault, EntryFaultKind};
pub use fields::{LargeTtl, Prefix, read_prefix};
pub use line::Line;
pub use place::{Place, has_mark};
pub use reader::{EntryReader, Found};
pub use state::{RecordFields, ZoneState};
pub use zone_reader::{ZoneItem, ZoneReader};
