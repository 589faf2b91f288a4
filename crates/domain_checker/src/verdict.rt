//! The verdict on a name and a type.

/// What a zone says of a name and a type (RFC 4035, section 5.4; RFC 5155, section 8).
#[derive(Clone, Copy, Debug, PartialEq, Eq)]
pub enum Verdict {
    /// The name is not at or below the apex.
    OutsideZone,
    /// The name is strictly below a zone cut; or it is a zone cut, and the type is neither listed
    /// there nor DS. The child zone answers.
    BelowDelegation,
    /// The name owns records of the type.
    Has,
    /// The name owns records, but none of the type. If it owns a CNAME record, that answers.
    NoType,
    /// The name owns no records, but a name below it does: it is an empty non-terminal.
    EmptyName,
    /// The name, or a name above it, may be an unsigned delegation that the chain leaves out. The
    /// number counts the labels of the closest encloser, without the root: the closest encloser is
    /// the last `n` labels of the name.
    OptOut(usize),
    /// The name does not exist. The number counts the labels of the closest encloser, without the
    /// root: the closest encloser is the last `n` labels of the name. A wildcard below the closest
    /// encloser may answer, or a DNAME record of a name above.
    NoName(usize),
    /// The records do not prove what the zone says.
    NotProven,
}
