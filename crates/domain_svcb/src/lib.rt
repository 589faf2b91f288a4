//! Parameters of services (RFC 9460): their text in zone files, and their octets on the wire.
//!
//! - [`Parameters`] gathers the parameters of an SVCB or HTTPS record from their texts, one token
//!   each, and appends their octets in the order of their keys (`specs/Parameters.antt`).
//! - [`are_parameters`]: whether octets are parameters with rising keys and well-formed values.
//!
//! It also has what texts of other fields share: [`string_octet`] and [`put_string`] for strings,
//! and [`number`] for numbers in decimal digits.
//!
//! Other crates may rely on this. A text spells at most one parameter. What is gathered from texts
//! is parameters on the wire. The module `laws` has these laws.
#![tactic(auto)]

mod fault;
mod ids;
mod items;
mod key;
pub mod laws;
mod numbers;
mod parameters;
mod short;
mod string;
mod text;
mod value;
mod wire;

pub use fault::{ParameterFault, SpellFault};
pub use key::ValueKind;
pub use numbers::{number, number_of};
pub use parameters::Parameters;
pub use string::{put_string, string_octet};
pub use wire::are_parameters;
