//! The outcome of a run.
ghost use Rattle.std.specs.Prelude.{◌≡◌};
ghost use Rattle.lint_program.specs.Report.{lint_status};

/// What was found in an input.
#[derive(Clone, Copy, Debug, PartialEq, Eq)]
pub enum Outcome {
    /// Nothing.
    Clean,
    /// No fault, but something that is seldom intended.
    Warned,
    /// At least one fault.
    Faulty,
}

impl Outcome {
    /// Returns the exit status of the program: 0 if nothing was found, 1 if there is a fault, for
    /// which `denial nsec` or `denial nsec3` rejects the input, and 3 if there are only warnings.
    pub fn status(&self) -> u8
        ensures { result ≡ lint_status self.now }
    {
        match self {
            Outcome::Clean => 0,
            Outcome::Warned => 3,
            Outcome::Faulty => 1,
        }
    }
}
