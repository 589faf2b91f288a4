//! `$GENERATE`: the entries that one entry of a zone file stands for. The directive is BIND's (BIND
//! 9 Administrator Reference Manual, "BIND Primary File Extension: the $GENERATE Directive").
//!
//! - [`Generation`] is an entry `$GENERATE`, read from its tokens. It has a range of values, and
//!   writes the text of an entry for each of them. That text is then read as any entry of a zone
//!   file is.
//! - [`GenerateFault`] is what is wrong with the entry, and with which of its tokens.
//! - [`laws`] has theorems about ranges.
//!
//! Other crates may rely on this. `specs/Generated.antt` says what the text of a value is, and
//! which fault is the first.
#![tactic(auto)]

mod cut;
mod fault;
mod generation;
pub mod laws;
mod number;
mod pattern;
mod range;
mod substitute;
#[cfg(test)]
mod tests;

pub use fault::{GenerateFault, GenerateFaultKind};
pub use generation::Generation;
pub use range::MAX_VALUES;
