//! The answer to a question about a name and a type.

/// What a zone answers to a question about a name and a type, or how much of that records prove. A
/// number counts labels, without the root, and denotes the last `n` labels of the name in the
/// question.
#[derive(Clone, Copy, Debug, PartialEq, Eq)]
pub enum Answer {
    /// The name is not at or below the apex.
    OutsideZone,
    /// The type is DS and the name is the apex: these records are the parent zone's (RFC 4035,
    /// section 2.4). The root has no parent.
    AtParent,
    /// The name is strictly below a zone cut, or is one and the type is not DS: the child zone
    /// answers (RFC 1034, section 4.3.2). The number counts the labels of the zone cut.
    Referral(usize),
    /// The name is strictly below an owner of a DNAME record, which leads to another name (RFC
    /// 6672, section 3.2). The number counts the labels of the owner.
    Redirected(usize),
    /// The name owns records of the type, or of any type if the type is ANY (255).
    Has,
    /// The type is DS, and the name is a zone cut that owns none: an unsigned delegation (RFC 4035,
    /// section 5.2). No record that lists SOA proves it: such a record is from the child's apex
    /// (RFC 5155, section 8.9; RFC 6840, section 4.4).
    NoDs,
    /// The name owns a CNAME record, which answers in place of the type (RFC 1034, section 3.6.2).
    Alias,
    /// The signer says that the name does not exist: its record lists NXNAME, and neither the type
    /// nor CNAME (RFC 9824, section 3). It proves less than `NameError`: nothing of other names.
    NxName,
    /// The name exists but owns no records of the type: it owns records of other types, or is an
    /// empty non-terminal (RFC 2308, section 2.2).
    NoData,
    /// The name does not exist, and the wildcard below its closest encloser owns records of the
    /// type (of any type for ANY), or is a zone cut and the type is not DS (RFC 4592, section 3.3).
    /// The number counts the labels of the closest encloser, as does the Labels field in the
    /// signatures of the expanded records (RFC 4035, section 5.3.4).
    Wildcard(usize),
    /// The name does not exist, and the wildcard below its closest encloser owns a CNAME record,
    /// which answers in place of the type. The number counts the labels of the closest encloser.
    WildcardAlias(usize),
    /// The name does not exist, and the wildcard below its closest encloser exists but owns no
    /// records of the type (RFC 4035, section 3.1.3.4). The number counts the labels of the closest
    /// encloser.
    WildcardNoData(usize),
    /// Neither the name nor a wildcard below its closest encloser exists (RFC 2308, section 2.1).
    /// The number counts the labels of the closest encloser.
    NameError(usize),
    /// The name, or a name above it, may be an unsigned delegation that an NSEC3 chain leaves out:
    /// the record that would deny the name, or the wildcard below its closest encloser, has the
    /// opt-out flag (RFC 5155, section 6). The number counts the labels of the closest encloser.
    MayBeUnsigned(usize),
    /// The name does not exist, and the records say nothing of the wildcard below its closest
    /// encloser. That suffices for an answer that was expanded from that wildcard. The number
    /// counts the labels of the closest encloser, as does the Labels field in the signatures of
    /// such an answer (RFC 4035, section 5.3.4).
    NoCloserName(usize),
    /// The NSEC3 chain hashes names with more iterations than allowed, so the records were not used
    /// (RFC 9276, section 3.2).
    TooManyIterations,
    /// The records do not prove what the zone says, or the type is one that no record of a zone
    /// has, such as AXFR or OPT (RFC 6895, section 3.1).
    NotProven,
}

/// What records of an NSEC chain answer for a name before a wildcard is looked up.
#[derive(Clone, Copy, Debug, PartialEq, Eq)]
pub enum NameAnswer {
    /// The answer, which needs no wildcard.
    Given(Answer),
    /// The name does not exist: the wildcard right below its closest encloser decides. The number
    /// counts the labels of the closest encloser.
    Absent(usize),
}
