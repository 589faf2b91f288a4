//! The faults of an entry `$GENERATE`.
ghost use Rattle.std.specs.Prelude.{◌≡◌, Some};
ghost use Rattle.domain_generate.specs.Generated.{generate_fault_text};

use std::error::Error;
use std::fmt;

/// A fault of an entry `$GENERATE`.
#[derive(Clone, Copy, Debug, PartialEq, Eq)]
pub struct GenerateFault {
    /// The number of its token in the entry, from 0. It is the number of tokens where one is
    /// missing.
    pub token: usize,
    /// What is wrong.
    pub kind: GenerateFaultKind,
}

/// What is wrong with an entry `$GENERATE`.
#[derive(Clone, Copy, Debug, PartialEq, Eq)]
pub enum GenerateFaultKind {
    /// The range, the owner, the type or the data are missing.
    MissingArgument,
    /// The token follows the data.
    ExtraArgument,
    /// The range, the owner or the type is in quotes.
    QuotedArgument,
    /// The token is no range: START-STOP or START-STOP/STEP, in numbers up to 2147483647. START is
    /// at most STOP, and STEP at least 1.
    NotRange,
    /// The range has more than [`MAX_VALUES`](crate::MAX_VALUES) values.
    ManyValues,
    /// A TTL has more than 32 bits (RFC 2181, section 8).
    LargeTtl,
    /// `${` is not followed by OFFSET, OFFSET,WIDTH or OFFSET,WIDTH,BASE, and `}`. The width is at
    /// most 127, and the base one of d, o, x, X, n and N.
    NotFormat,
    /// A value with its offset is below 0.
    NegativeNumber,
    /// A value with its offset is above 2147483647.
    LargeNumber,
}

/// Returns the fault of a token.
pub(crate) fn fault(token: usize, kind: GenerateFaultKind) -> GenerateFault
    ensures { result ≡ record { token = token; kind = kind } }
{
    GenerateFault { token, kind }
}

impl fmt::Display for GenerateFaultKind {
    // specs/Generated.antt repeats these texts: change both together.
    ghost output = { λ kind. Some (generate_fault_text kind) };

    fn fmt<W: fmt::Write>(&self, f: &mut fmt::Formatter<W>) -> fmt::Result {
        f.write_str(match self {
            GenerateFaultKind::MissingArgument => "an argument of $GENERATE is missing",
            GenerateFaultKind::ExtraArgument => "$GENERATE has data of one token: quote them",
            GenerateFaultKind::QuotedArgument => "only the data of $GENERATE may be in quotes",
            GenerateFaultKind::NotRange => "not a range: expected START-STOP or START-STOP/STEP",
            GenerateFaultKind::ManyValues => "a range of more than 65536 values",
            GenerateFaultKind::LargeTtl => "TTL of more than 32 bits",
            GenerateFaultKind::NotFormat => "bad format: expected ${OFFSET,WIDTH,BASE}",
            GenerateFaultKind::NegativeNumber => "a value with its offset is below 0",
            GenerateFaultKind::LargeNumber => "a value with its offset is above 2147483647",
        })
    }
}

impl Error for GenerateFaultKind {}
