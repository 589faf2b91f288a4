//! The subcommand that the first argument names.
ghost use Rattle.denial_commands.specs.Command.{IsSubcommand};

/// Which crate runs a command.
#[derive(Clone, Copy, Debug, PartialEq, Eq)]
pub enum Subcommand {
    /// `nsec`, `nsec3` and `check`, the specification's commands, and each word that names none.
    Denial,
    /// `judge`.
    Judge,
    /// `answer`: `judge` with `--records`, and for NSEC3 with the highest limit of iterations.
    Answer,
    /// `lint`.
    Lint,
    /// `zone`.
    Zone,
}

/// Returns the subcommand that a word names.
pub fn subcommand_of(word: &str) -> Subcommand
    ensures { IsSubcommand word.now result }
{
    match word {
        "judge" => Subcommand::Judge,
        "answer" => Subcommand::Answer,
        "lint" => Subcommand::Lint,
        "zone" => Subcommand::Zone,
        _ => Subcommand::Denial,
    }
}
