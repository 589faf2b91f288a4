//! The forms that record data are written in.

/// The form in which data are written.
#[derive(Clone, Copy, Debug, PartialEq, Eq)]
pub enum Form {
    /// The wire form, with names as they are spelled.
    Wire,
    /// The canonical form, with names lowered, for signatures and order (RFC 4034, section 6.2).
    Canonical,
}
