//! Faults as this program prints them.
ghost use Rattle.std.specs.Prelude.{◌≡◌, Some};
ghost use Rattle.judge_program.specs.Text.{judge_fault_text};

use denial_program::DenialFault;
use std::fmt;

/// The reason why a run of the program stops, with the text that the program prints on standard
/// error: that of the fault, except for arguments that are no command.
#[derive(Clone, Copy, Debug, PartialEq, Eq)]
pub struct JudgeFault {
    fault: DenialFault,
}

impl From<DenialFault> for JudgeFault {
    ghost from_gives = { λ fault made. made.fault ≡ fault };

    fn from(fault: DenialFault) -> JudgeFault {
        JudgeFault { fault }
    }
}

const USAGE: &str =
    "usage: denial judge nsec APEX NAME TYPE [--why | --records] | denial judge nsec3 APEX \
     NAME TYPE [--labels N] [--limit ITERATIONS] [--why | --records]";

impl fmt::Display for JudgeFault {
    ghost output = { λ e. Some (judge_fault_text e.fault) };

    fn fmt<W: fmt::Write>(&self, f: &mut fmt::Formatter<W>) -> fmt::Result {
        // `judge_fault_text` in `specs/Text.antt` repeats these texts: change both together.
        match self.fault {
            DenialFault::Usage => f.write_str(USAGE),
            fault => write!(f, "{fault}"),
        }
    }
}
