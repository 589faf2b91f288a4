//! Numbers of locations (RFC 1876) in zone files: decimals with a point, altitudes and precisions.
//!
//! - [`decimal`]: a number with digits after a point, as the seconds of an angle have them
//!   (`specs/Decimals.antt`).
//! - [`altitude`] and [`precision`]: lengths in metres as fields on the wire
//!   (`specs/Lengths.antt`).
//!
//! Other crates may rely on this. Each function returns exactly the number that its text spells,
//! and None exactly if it spells none.
#![tactic(auto)]

mod decimals;
mod lengths;

pub use decimals::decimal;
pub use lengths::{altitude, precision};
