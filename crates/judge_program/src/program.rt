//! Runs the program over any reader and any writer.
ghost use Rattle.std.specs.Prelude.{◌≡◌, IfErr, MatchResult, map, string_bytes};
ghost use Rattle.denial_program.specs.{Fault.IsBeforeOutput, Run.IsProgramRun};
ghost use Rattle.judge_program.specs.Command.{IsJudgeCommand};
ghost use Rattle.judge_program.specs.Run.{GivesNoJudgement, Judges, TellsJudgeUsage};

use crate::command::command_of;
use crate::judge::write_judged;
use bumpalo::Bump;
use denial_program::{DenialFault, read_records};
use domain_hasher::Nsec3Hasher;
use std::alloc::Global;
use std::io::{BufRead, Write};

/// Runs the command that the arguments spell. Reads records of a chain, one a line. Writes on one
/// line what they prove as a whole answer to a question about a name and a type, and below it the
/// records to print.
///
/// # Errors
///
/// The first that applies:
///
/// - `Usage` if the arguments are no command;
/// - `Read` if the input could not be read;
/// - `Line` with the first line that is not a record;
/// - for NSEC3 `Param` if the apex does not have exactly one NSEC3PARAM record, and `Signing` if
///   the hasher fails;
/// - `Write` if the output could not be written.
///
/// Out of memory may come at any time: it is `Unprepared` for the records, and else `OutOfMemory`.
/// For other errors than `Write` and `OutOfMemory`, nothing is written.
pub fn run_judge<R: BufRead, W: Write, H: Nsec3Hasher>(
    alloc: Global,
    words: &[String],
    hasher: &H,
    input: &mut R,
    output: &mut W,
) -> Result<(), DenialFault>
    // The answer to the command, over the records that the lines give.
    ensures run { IsProgramRun (λ text. text) (Judges (H.answer hasher.now)
        (map string_bytes words.now))
        (GivesNoJudgement (H.answer hasher.now) (map string_bytes words.now))
        (R.remaining input.old) (R.remaining input.new) (W.contents output.old)
        (W.contents output.new) result }

    // `Usage` if and only if the arguments are no command, unless memory runs out.
    ensures usage { MatchResult result (λ _. IsJudgeCommand (map string_bytes words.now))
        (TellsJudgeUsage (map string_bytes words.now)) }

    ensures untouched { IfErr result (λ e. IsBeforeOutput e → output.new ≡ output.old) }
{
    let command = command_of(alloc, words)?;
    let arena = Bump::new(alloc);
    let records = read_records(alloc, &arena, input)?;
    write_judged(alloc, &command, records, hasher, output)
}
