//! Names, and the numbers in records.
//!
//! - The names of `domain_names`, re-exported: [`Name`], [`ParsedName`], [`ToName`] and their
//!   order.
//! - [`Rtype`], [`Class`], [`Ttl`], [`Serial`] and the numbers of algorithms.
//! - [`Scanner`] returns the tokens of an entry of a zone file (RFC 1035, section 5.1).
//!   [`FromToken`] is the trait of values that one token spells.
//!
//! Other crates may rely on this. A contract sees a number as a number. Octets and texts are read
//! by a grammar, and an error is the first fault. The module `laws` has the laws of names, of their
//! order, and of texts.
#![tactic(auto)]

mod algorithm;
mod class;
pub mod laws;
mod named;
mod number;
mod rtype;
mod scanner;
mod serial;
mod ttl;

pub use algorithm::{
    Algorithm, DigestAlgorithm, Digesting, Hashing, Nsec3HashAlgorithm, SecurityAlgorithm, Signing,
};
pub use class::Class;
pub use domain_names::{
    CanonicalOrd, Comparison, DottedName, Labels, MAX_NAME, MakeName, Name, NameError, ParseError,
    ParsedName, ScanError, ToName,
};
pub use rtype::Rtype;
pub use scanner::{FromToken, IterScanner, Scanner};
pub use serial::Serial;
pub use ttl::Ttl;
