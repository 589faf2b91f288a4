//! Faults as this program prints them.
ghost use Rattle.std.specs.Prelude.{◌≡◌};

use denial_program::DenialFault;
use std::fmt;

/// The reason why a run of the program stops, with the text that the program prints on standard
/// error: that of the fault, except for arguments that are no command.
#[derive(Clone, Copy, Debug, PartialEq, Eq)]
pub struct LintFault {
    fault: DenialFault,
}

impl From<DenialFault> for LintFault {
    ghost from_gives = { λ fault made. made.fault ≡ fault };

    fn from(fault: DenialFault) -> LintFault {
        LintFault { fault }
    }
}

impl fmt::Display for LintFault {
    fn fmt<W: fmt::Write>(&self, f: &mut fmt::Formatter<W>) -> fmt::Result {
        match self.fault {
            DenialFault::Usage => f.write_str("usage: denial lint APEX [ITERATIONS SALT]"),
            fault => write!(f, "{fault}"),
        }
    }
}
