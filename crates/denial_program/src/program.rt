//! Runs the program over any reader and any writer.
ghost use Rattle.std.specs.Prelude.{◌≡◌, IfErr, MatchResult, IsErrOf, IfSome, map, string_bytes};
ghost use Rattle.std.specs.Str.Lines.{lines};
ghost use Rattle.denial_program.specs.{Answer.{Answers, GivesNoAnswer}, Command.IsCommand};
ghost use Rattle.denial_program.specs.{Fault.{IsBeforeOutput, IsReadToEnd, TellsUsage}, Run.IsProgramRun};
ghost use Rattle.denial_program.specs.Text.{reply_text};
ghost use Rattle.denial_program.specs.declared.answer.ParamFlags.TheVariants.{OfChain};
ghost use Rattle.denial_program.specs.declared.fault.DenialFault.TheVariants.{OutOfMemory};

use crate::answer::{ParamFlags, write_answer};
use crate::fault::DenialFault;
use crate::prepare::{read_command, read_records};
use bumpalo::Bump;
use domain_hasher::Nsec3Hasher;
use std::alloc::Global;
use std::io::{BufRead, Write};

/// Runs the command that the arguments spell. Reads records, one a line. Writes the chain of the
/// zone with these records, one record a line; or what they, as records of a chain, prove about a
/// name and a type, on one line.
///
/// # Errors
///
/// The first of these that applies:
///
/// - `Usage` if the arguments are no command;
/// - `Read` if the input could not be read;
/// - `Line` with the first line that is not a record;
/// - `MixedClasses` if the records are of several classes;
/// - `Signing` if there is no chain;
/// - `Param` if there is not exactly one NSEC3PARAM record to check NSEC3 records with;
/// - `Signing` if the hasher fails;
/// - `Write` if the output could not be written;
/// - `OutOfMemory`, only after the records are read and sorted. For a chain this implies that their
///   zone has none of these faults except those of hashing.
///
/// `Unprepared` comes before, if there is no memory for the arguments or the records. For other
/// errors than `Write` and `OutOfMemory`, nothing is written.
pub fn run_denial<R: BufRead, W: Write, H: Nsec3Hasher>(
    alloc: Global,
    words: &[String],
    hasher: &H,
    input: &mut R,
    output: &mut W,
) -> Result<(), DenialFault>
    // The reply to the command, over the records that the lines give.
    ensures run { IsProgramRun (reply_text OfChain) (Answers (H.answer hasher.now)
        (map string_bytes words.now))
        (GivesNoAnswer (H.answer hasher.now) (map string_bytes words.now))
        (R.remaining input.old) (R.remaining input.new) (W.contents output.old)
        (W.contents output.new) result }

    // `Usage` if and only if the arguments are no command, unless memory runs out.
    ensures usage { MatchResult result (λ _. IsCommand (map string_bytes words.now))
        (TellsUsage (map string_bytes words.now)) }

    // `OutOfMemory`, after the records are read, hides no fault of theirs: it has a reason too.
    ensures memory { IsErrOf result OutOfMemory → IfSome (R.remaining input.old)
        (λ bytes. GivesNoAnswer (H.answer hasher.now) (map string_bytes words.now)
        (lines bytes) OutOfMemory) }
    ensures memory_end { IsErrOf result OutOfMemory
        → IsReadToEnd (R.remaining input.old) (R.remaining input.new) }
    ensures untouched { IfErr result (λ e. IsBeforeOutput e → output.new ≡ output.old) }
{
    run_with(alloc, words, ParamFlags::OfChain, hasher, input, output)
}

/// Runs the command as `run_denial` does, and with the same errors. The NSEC3PARAM record that is
/// written with an NSEC3 chain has flags as chosen.
pub fn run_with<R: BufRead, W: Write, H: Nsec3Hasher>(
    alloc: Global,
    words: &[String],
    flags: ParamFlags,
    hasher: &H,
    input: &mut R,
    output: &mut W,
) -> Result<(), DenialFault>
    // The reply to the command, over the records that the lines give.
    ensures run { IsProgramRun (reply_text flags) (Answers (H.answer hasher.now)
        (map string_bytes words.now))
        (GivesNoAnswer (H.answer hasher.now) (map string_bytes words.now))
        (R.remaining input.old) (R.remaining input.new) (W.contents output.old)
        (W.contents output.new) result }

    // `Usage` if and only if the arguments are no command, unless memory runs out.
    ensures usage { MatchResult result (λ _. IsCommand (map string_bytes words.now))
        (TellsUsage (map string_bytes words.now)) }

    // `OutOfMemory`, after the records are read, hides no fault of theirs: it has a reason too.
    ensures memory { IsErrOf result OutOfMemory → IfSome (R.remaining input.old)
        (λ bytes. GivesNoAnswer (H.answer hasher.now) (map string_bytes words.now)
        (lines bytes) OutOfMemory) }
    ensures memory_end { IsErrOf result OutOfMemory
        → IsReadToEnd (R.remaining input.old) (R.remaining input.new) }
    ensures untouched { IfErr result (λ e. IsBeforeOutput e → output.new ≡ output.old) }
{
    let command = read_command(alloc, words)?;
    let arena = Bump::new(alloc);
    let records = read_records(alloc, &arena, input)?;
    write_answer(alloc, &arena, command, records, flags, hasher, output)
}
