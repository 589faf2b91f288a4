//! Verdicts as they are printed.
ghost use Rattle.std.specs.Prelude.{Some};
ghost use Rattle.denial_program.specs.Check.{verdict_text};

use crate::line::ZoneName;
use domain_base::ToName;
use domain_checker::Verdict;
use std::fmt;

/// A verdict on a name that prints as the program prints it.
#[derive(Clone, Copy)]
pub struct VerdictText<'a> {
    /// The name.
    pub name: &'a ZoneName,
    /// The verdict.
    pub verdict: Verdict,
}

impl fmt::Display for VerdictText<'_> {
    ghost output = { λ t. Some (verdict_text t.name.now t.verdict) };

    fn fmt<W: fmt::Write>(&self, f: &mut fmt::Formatter<W>) -> fmt::Result {
        match self.verdict {
            Verdict::OutsideZone => f.write_str("outside zone"),
            Verdict::BelowDelegation => f.write_str("below delegation"),
            Verdict::Has => f.write_str("has"),
            Verdict::NoType => f.write_str("no type"),
            Verdict::EmptyName => f.write_str("empty name"),
            Verdict::OptOut(count) => {
                write!(f, "opt-out {}", self.name.last_labels(count).fmt_with_dot())
            }
            Verdict::NoName(count) => {
                write!(f, "no name {}", self.name.last_labels(count).fmt_with_dot())
            }
            Verdict::NotProven => f.write_str("not proven"),
        }
    }
}
