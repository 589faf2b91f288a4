//! Hints for lines that are not records, and the shapes of record data.
//!
//! - `quoted` quotes a word. Functions whose names end in `_trouble` return what is wrong with a
//!   word, `strange_trouble` with one of several.
//! - `told_of_data` and `missing_data` return what is wrong with the data of a record.
//! - `data_shape` and `is_such` check data that have no format of their own here, and `has_extras`
//!   checks NSEC3PARAM data. The definitions are in `specs/Shapes.antt`.
//!
//! The wording of hints may change.
#![tactic(auto)]

mod data_hint;
mod date;
mod generic;
mod hint;
mod name_hint;
mod odd;
mod wanted;

pub use data_hint::{missing_data, told_of_data};
pub use hint::{class_trouble, quoted, strange_trouble, ttl_trouble, type_trouble};
pub use name_hint::name_trouble;
pub use odd::{Shape, data_shape, has_extras, is_such};
pub use wanted::{Part, fields_of};
