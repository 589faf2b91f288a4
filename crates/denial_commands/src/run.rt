//! Runs a command over records, one a line.
ghost use Rattle.std.specs.Prelude.{map, string_bytes};
ghost use Rattle.domain_nsec3.specs.View.{HasherAnswer};
ghost use Rattle.denial_commands.specs.Run.{RunsAnswer, RunsDenial, RunsJudge, RunsLint, RunsZone, RunsCommand};

use crate::answer::answer_words;
use crate::command::{Subcommand, subcommand_of};
use crate::fault::CommandFault;
use denial_program::{DenialFault, ParamFlags, run_with};
use domain_hasher::Nsec3Hasher;
use domain_includes::FileSource;
use domain_octets::OutOfMemory;
use judge_program::run_judge;
use lint_program::{Outcome, run_lint};
use std::alloc::Global;
use std::io::{BufRead, Write};
use zone_program::run_zone;

/// Runs one of the specification's commands.
fn run_denial<R: BufRead, W: Write, H: Nsec3Hasher>(
    alloc: Global,
    words: &[String],
    flags: ParamFlags,
    hasher: &H,
    input: &mut R,
    output: &mut W,
) -> Result<Outcome, CommandFault>
    ensures { RunsDenial (map string_bytes words.now) (record {
      flags = flags;
      answers = H.answer hasher.now;
      input = R.remaining input.old;
      left = R.remaining input.new;
      old = W.contents output.old;
      new = W.contents output.new;
      before = output.old;
      after = output.new;
    }) result }
{
    match run_with(alloc, words, flags, hasher, input, output) {
        Ok(()) => Ok(Outcome::Clean),
        Err(fault) => Err(CommandFault::Denial(fault)),
    }
}

/// Runs `judge` with these arguments.
fn run_judging<R: BufRead, W: Write, H: Nsec3Hasher>(
    alloc: Global,
    words: &[String],
    hasher: &H,
    input: &mut R,
    output: &mut W,
) -> Result<Outcome, CommandFault>
    ensures { (flags : ParamFlags) → RunsJudge (map string_bytes words.now) (record {
      flags = flags;
      answers = H.answer hasher.now;
      input = R.remaining input.old;
      left = R.remaining input.new;
      old = W.contents output.old;
      new = W.contents output.new;
      before = output.old;
      after = output.new;
    }) result }
{
    match run_judge(alloc, words, hasher, input, output) {
        Ok(()) => Ok(Outcome::Clean),
        Err(fault) => Err(CommandFault::Judge(fault)),
    }
}

/// Runs `answer` with these arguments.
fn run_answering<R: BufRead, W: Write, H: Nsec3Hasher>(
    alloc: Global,
    words: &[String],
    hasher: &H,
    input: &mut R,
    output: &mut W,
) -> Result<Outcome, CommandFault>
    ensures { (flags : ParamFlags) → RunsAnswer (map string_bytes words.now) (record {
      flags = flags;
      answers = H.answer hasher.now;
      input = R.remaining input.old;
      left = R.remaining input.new;
      old = W.contents output.old;
      new = W.contents output.new;
      before = output.old;
      after = output.new;
    }) result }
{
    match answer_words(alloc, words) {
        Ok(asked) => run_judging(alloc, asked.as_slice(), hasher, input, output),
        Err(OutOfMemory) => Err(CommandFault::Judge(DenialFault::OutOfMemory)),
    }
}

/// Runs `lint` with these arguments.
fn run_linting<R: BufRead, W: Write, H: Nsec3Hasher>(
    alloc: Global,
    words: &[String],
    hasher: &H,
    input: &mut R,
    output: &mut W,
) -> Result<Outcome, CommandFault>
    ensures { (flags : ParamFlags) → RunsLint (map string_bytes words.now) (record {
      flags = flags;
      answers = H.answer hasher.now;
      input = R.remaining input.old;
      left = R.remaining input.new;
      old = W.contents output.old;
      new = W.contents output.new;
      before = output.old;
      after = output.new;
    }) result }
{
    match run_lint(alloc, words, hasher, input, output) {
        Ok(outcome) => Ok(outcome),
        Err(fault) => Err(CommandFault::Lint(fault)),
    }
}

/// Runs `zone` with these arguments.
fn run_listing<F: FileSource, R: BufRead, W: Write>(
    alloc: Global,
    words: &[String],
    files: &F,
    path: &[u8],
    input: &mut R,
    output: &mut W,
) -> Result<Outcome, CommandFault>
    ensures { (flags : ParamFlags) (answers : HasherAnswer) → RunsZone (F.gives files.now) path.now
        (map string_bytes words.now) (record {
          flags = flags;
          answers = answers;
          input = R.remaining input.old;
          left = R.remaining input.new;
          old = W.contents output.old;
          new = W.contents output.new;
          before = output.old;
          after = output.new;
        }) result }
{
    match run_zone(alloc, words, files, path, input, output) {
        Ok(()) => Ok(Outcome::Clean),
        Err(fault) => Err(CommandFault::Zone(fault)),
    }
}

/// Runs the command that the first argument names, over what the input has: records, one a line, or
/// a zone file for `zone`. Returns what `lint` found, and `Clean` for any other command. The path
/// is that of the input, or empty: `zone` reads the files that the zone file includes, whose paths
/// are relative to its folder.
///
/// `nsec`, `nsec3` and `check` run as `run_denial` does, but the NSEC3PARAM record that `nsec3`
/// writes has flags as chosen. So do arguments that are no command. `judge` and `answer` run as
/// `run_judge` does, `lint` as `run_lint` and `zone` as `run_zone`. `answer` is `judge` with
/// `--records`, and for NSEC3 with `--limit 65535` before it.
///
/// # Errors
///
/// Those of these functions, as faults of the command.
pub fn run_command<F: FileSource, R: BufRead, W: Write, H: Nsec3Hasher>(
    alloc: Global,
    words: &[String],
    flags: ParamFlags,
    hasher: &H,
    files: &F,
    path: &[u8],
    input: &mut R,
    output: &mut W,
) -> Result<Outcome, CommandFault>
    ensures { RunsCommand (F.gives files.now) path.now (map string_bytes words.now) (record {
      flags = flags;
      answers = H.answer hasher.now;
      input = R.remaining input.old;
      left = R.remaining input.new;
      old = W.contents output.old;
      new = W.contents output.new;
      before = output.old;
      after = output.new;
    }) result }
{
    let [word, rest @ ..] = words else {
        return run_denial(alloc, words, flags, hasher, input, output);
    };
    match subcommand_of(word.as_str()) {
        Subcommand::Denial => run_denial(alloc, words, flags, hasher, input, output),
        Subcommand::Judge => run_judging(alloc, rest, hasher, input, output),
        Subcommand::Answer => run_answering(alloc, rest, hasher, input, output),
        Subcommand::Lint => run_linting(alloc, rest, hasher, input, output),
        Subcommand::Zone => run_listing(alloc, rest, files, path, input, output),
    }
}
