//! Faults of texts.
use crate::key::ValueKind;
use std::fmt;

/// The reason why a text gives no value.
#[derive(Clone, Copy, Debug)]
pub enum SpellFault {
    /// The text does not spell a value of the kind.
    Invalid,
    /// Memory ran out.
    OutOfMemory,
}

/// The reason why a text gives no parameter, or parameters do not go together.
#[derive(Clone, Copy, Debug)]
pub enum ParameterFault {
    /// The text has no key: it is neither a name in lower case nor `key` and a number.
    UnknownKey,
    /// The text does not spell a value of its key, which has values of this kind.
    NotValue(ValueKind),
    /// An earlier parameter has the same key.
    Repeated,
    /// A mandatory key is missing, or `alpn` where `no-default-alpn` is.
    NotConsistent,
    /// Memory ran out.
    OutOfMemory,
}

/// Writes what is wrong.
impl fmt::Display for ParameterFault {
    fn fmt<W: fmt::Write>(&self, f: &mut fmt::Formatter<W>) -> fmt::Result {
        match self {
            ParameterFault::UnknownKey => f.write_str("unknown key of a parameter"),
            ParameterFault::NotValue(kind) => write!(f, "expected {kind}"),
            ParameterFault::Repeated => f.write_str("the key is there twice"),
            ParameterFault::NotConsistent => {
                f.write_str("a mandatory key is missing, or alpn beside no-default-alpn")
            }
            ParameterFault::OutOfMemory => f.write_str("out of memory"),
        }
    }
}
