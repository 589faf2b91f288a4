//! Domain names.
//!
//! - [`Name`] and [`ParsedName`] are absolute names (RFC 1034, section 3.1): lists of labels, leaf
//!   first, without the root. [`ToName`] is their common trait: the wire form (RFC 1035,
//!   section 3.1), the canonical order (RFC 4034, section 6.1) and the printed forms.
//! - [`CanonicalOrd`] is a total order.
//! - [`ScanError`] and [`NameError`] are the errors of reading names from text and from octets.
//!
//! Other crates may rely on this. A contract sees a name as its list of labels. Octets and texts
//! are read by a grammar, and an error names the first fault. Names are ordered from the root, by
//! labels with A to Z lowered. `domain_base` re-exports all items, with laws of that order. No
//! comparison allocates.
#![tactic(auto)]

mod error;
mod name;
mod parsed;
mod part;
mod text;
mod to_name;
mod wire;

pub use domain_octets::ParseError;
pub use error::{NameError, ScanError};
pub use name::{CanonicalOrd, DottedName, Labels, Name};
pub use parsed::ParsedName;
pub use to_name::{Comparison, MakeName, ToName};
pub use wire::MAX_NAME;
