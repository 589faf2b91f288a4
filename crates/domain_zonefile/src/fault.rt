//! The faults of what an entry means.
ghost use Rattle.std.specs.Prelude.{◌≡◌};

use domain_types::DataFaultKind;
use std::fmt;

/// A fault of an entry.
#[derive(Clone, Copy, Debug)]
pub struct EntryFault {
    /// The number of its token in the entry, from 0. It is the number of tokens where one is
    /// missing.
    pub token: usize,
    /// What is wrong.
    pub kind: EntryFaultKind,
}

/// Returns the fault of a token.
pub(crate) fn fault(token: usize, kind: EntryFaultKind) -> EntryFault
    ensures { result ≡ record { token = token; kind = kind } }
{
    EntryFault { token, kind }
}

/// What is wrong with an entry (RFC 1035, section 5.1).
#[derive(Clone, Copy, Debug)]
pub enum EntryFaultKind {
    /// An indented entry comes before any owner.
    NoOwner,
    /// The token spells no name.
    NotName,
    /// A TTL has more than 32 bits (RFC 2181, section 8).
    LargeTtl,
    /// The type is missing.
    NoType,
    /// The token is no type.
    NotType,
    /// No record has the type (RFC 6895, section 3.1).
    NoRecords,
    /// The data have a fault.
    Data(DataFaultKind),
    /// The data have more than 65,535 octets (RFC 1035, section 3.2.1).
    LongData,
    /// No TTL is known: neither a default nor a TTL of an earlier record.
    NoTtl,
    /// The directive is unknown.
    UnknownDirective,
    /// The directive lacks an argument.
    MissingArgument,
    /// The token follows the arguments of a directive.
    ExtraArgument,
    /// The token is no TTL.
    NotTtl,
    /// Memory ran out.
    OutOfMemory,
}

impl fmt::Display for EntryFaultKind {
    fn fmt<W: fmt::Write>(&self, f: &mut fmt::Formatter<W>) -> fmt::Result {
        f.write_str(match self {
            EntryFaultKind::Data(kind) => return write!(f, "{kind}"),
            EntryFaultKind::NoOwner => "no owner: no entry before has one",
            EntryFaultKind::NotName => "not a name",
            EntryFaultKind::LargeTtl => "TTL of more than 32 bits",
            EntryFaultKind::NoType => "no type",
            EntryFaultKind::NotType => "not a type",
            EntryFaultKind::NoRecords => "no record has this type",
            EntryFaultKind::LongData => "data of more than 65535 octets",
            EntryFaultKind::NoTtl => "no TTL: write one, or $TTL before",
            EntryFaultKind::UnknownDirective => "unknown directive",
            EntryFaultKind::MissingArgument => "an argument is missing",
            EntryFaultKind::ExtraArgument => "one argument too many",
            EntryFaultKind::NotTtl => "not a TTL",
            EntryFaultKind::OutOfMemory => "out of memory",
        })
    }
}
