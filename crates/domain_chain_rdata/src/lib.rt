//! Data of the records that deny existence.
//!
//! [`Nsec`] is the data of RFC 4034, section 4. [`Nsec3`] and [`Nsec3param`] are those of RFC 5155,
//! sections 3 and 4.
//!
//! The crates above may rely on this: data is a sequence of fields, the last of which may be a type
//! bitmap. Its tokens and its pieces are grammars (`specs/Text.antt`), and composed data parses
//! back (`nsec_laws`, `nsec3_laws`). The canonical order is the lexicographic order of the
//! canonical octets. Equality and `Hash` agree with `cmp`, and no comparison takes memory.
#![tactic(auto)]

mod nsec;
mod nsec3;
pub mod nsec3_laws;
mod nsec3param;
pub mod nsec_laws;

pub use nsec::Nsec;
pub use nsec3::Nsec3;
pub use nsec3param::Nsec3param;
