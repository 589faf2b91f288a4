//! Runs a command over the records of a zone file.
ghost use Rattle.std.specs.Prelude.{◌≡◌, map, string_bytes, IfOk, IfErr};
ghost use Rattle.denial_program.specs.Command.{AsksAbout};
ghost use Rattle.judge_program.specs.Command.{AsksToJudgeAbout};
ghost use Rattle.lint_program.specs.Command.{IsRunFault};
ghost use Rattle.denial_commands.specs.{Command.answer_words, Zone.{leaves_out, leaves_out_by, AsksToLintAbout, HasNoApex, HasNoDeniedApex, HasNoJudgedApex}};
ghost use Rattle.denial_commands.specs.Zone.{AreLinesFor, HasNoLintedApex, HaveNoLines, IsAbout, IsReportOf, RunsOverZone};

use crate::answer::answer_words;
use crate::command::{Subcommand, subcommand_of};
use crate::fault::{CommandFault, ZoneRunFault};
use crate::run::run_command;
use denial_program::{DenialFault, ParamFlags, ZoneName, apex_of};
use domain_base::ToName;
use domain_hasher::Nsec3Hasher;
use domain_includes::FileSource;
use domain_octets::OutOfMemory;
use judge_program::judged_apex;
use lint_program::{Outcome, linted_zone, run_lint};
use std::alloc::Global;
use std::io::Write;
use zone_program::{ZoneFault, ZoneLines, zone_lines};

/// Returns the apex that the arguments of one of the specification's commands name.
fn denied_apex(alloc: Global, words: &[String]) -> Result<ZoneName, CommandFault>
    ensures ok { IfOk result (λ apex. AsksAbout (map string_bytes words.now) apex) }
    ensures err { IfErr result (HasNoDeniedApex (map string_bytes words.now)) }
{
    match apex_of(alloc, words) {
        Ok(apex) => Ok(apex),
        Err(fault) => Err(CommandFault::Denial(fault)),
    }
}

/// Returns the apex that the arguments of `judge` name.
fn apex_to_judge(alloc: Global, words: &[String]) -> Result<ZoneName, CommandFault>
    ensures ok { IfOk result (λ apex. AsksToJudgeAbout (map string_bytes words.now) apex) }
    ensures err { IfErr result (HasNoJudgedApex (map string_bytes words.now)) }
{
    match judged_apex(alloc, words) {
        Ok(apex) => Ok(apex),
        Err(fault) => Err(CommandFault::Judge(fault)),
    }
}

/// Returns the apex that the arguments of `answer` name.
fn apex_to_answer(alloc: Global, words: &[String]) -> Result<ZoneName, CommandFault>
    ensures ok { IfOk result (λ apex.
        AsksToJudgeAbout (answer_words (map string_bytes words.now)) apex) }
    ensures err { IfErr result (HasNoJudgedApex (answer_words (map string_bytes words.now))) }
{
    match answer_words(alloc, words) {
        Ok(asked) => apex_to_judge(alloc, asked.as_slice()),
        Err(OutOfMemory) => Err(CommandFault::Judge(DenialFault::OutOfMemory)),
    }
}

/// Returns the apex that the arguments of `lint` name.
fn apex_to_lint(alloc: Global, words: &[String]) -> Result<ZoneName, CommandFault>
    ensures ok { IfOk result (λ apex. AsksToLintAbout (map string_bytes words.now) apex) }
    ensures err { IfErr result (HasNoLintedApex (map string_bytes words.now)) }
{
    match linted_zone(alloc, words) {
        Ok((apex, _)) => Ok(apex),
        Err(fault) => Err(CommandFault::Lint(fault)),
    }
}

/// Returns the apex that the arguments name. `zone` has no option `--zone`.
fn apex_of_command(alloc: Global, words: &[String]) -> Result<ZoneName, CommandFault>
    ensures ok { IfOk result (IsAbout (map string_bytes words.now)) }
    ensures err { IfErr result (HasNoApex (map string_bytes words.now)) }
{
    let [word, rest @ ..] = words else {
        return denied_apex(alloc, words);
    };
    match subcommand_of(word.as_str()) {
        Subcommand::Denial => denied_apex(alloc, words),
        Subcommand::Judge => apex_to_judge(alloc, rest),
        Subcommand::Answer => apex_to_answer(alloc, rest),
        Subcommand::Lint => apex_to_lint(alloc, rest),
        Subcommand::Zone => Err(CommandFault::Zone(ZoneFault::Usage)),
    }
}

/// Returns whether the command of this name reads a zone without the records that a signer adds:
/// `nsec`, `nsec3` and `lint` do. `check`, `judge` and `answer` read those.
fn leaves_out_by(word: &str) -> bool
    ensures { result ≡ leaves_out_by word.now }
{
    match word {
        "nsec" | "nsec3" | "lint" => true,
        _ => false,
    }
}

/// Returns whether the command reads a zone without the records that a signer adds.
fn leaves_out(words: &[String]) -> bool
    ensures { result ≡ leaves_out (map string_bytes words.now) }
{
    match words {
        [word, ..] => leaves_out_by(word.as_str()),
        [] => false,
    }
}

/// What a run over a zone file found.
#[derive(Drop)]
pub struct ZoneRun {
    /// What `lint` found, and `Clean` for any other command.
    pub outcome: Outcome,
    /// The lines over which the command ran, with the places of their records.
    pub lines: ZoneLines,
}

/// Returns the lines of the records of a zone file, over which the command runs.
fn lines_for<F: FileSource>(
    alloc: Global,
    words: &[String],
    files: &F,
    path: &[u8],
    file: &[u8],
) -> Result<ZoneLines, ZoneRunFault>
    ensures ok { IfOk result (AreLinesFor (F.gives files.now) path.now (map string_bytes words.now)
        file.now) }
    ensures err { IfErr result (HaveNoLines (F.gives files.now) path.now
        (map string_bytes words.now) file.now) }
{
    let apex = match apex_of_command(alloc, words) {
        Ok(apex) => apex,
        Err(fault) => return Err(ZoneRunFault::Command(fault)),
    };
    match zone_lines(
        alloc,
        files,
        path,
        &apex.as_parsed(),
        file,
        leaves_out(words),
    ) {
        Ok(lines) => Ok(lines),
        Err(fault) => Err(ZoneRunFault::File(fault)),
    }
}

/// Runs a command over the records of a zone file, whose names are relative to the apex that the
/// arguments name, and of the files that it includes. The path is that of the file, or empty: paths
/// of included files are relative to its folder. The words are those without `--zone FILE`. It is
/// `run_command` over the lines of `zone_lines`. For `nsec`, `nsec3` and `lint` the records that a
/// signer adds are left out. The NSEC3PARAM record that `nsec3` writes has flags 0.
///
/// What names the number of a line, a fault or the report of `lint`, means one of these lines. They
/// are returned, in the error too, with the place of each record.
///
/// # Errors
///
/// The first of these that applies:
///
/// - `Command` with `Usage` if the arguments are no command that reads records;
/// - `File` with the first fault of the file, or of a file that it includes;
/// - `Records` with the faults of `run_command` over the lines.
///
/// `OutOfMemory` may come at any time, as a fault of each.
pub fn run_over_zone<F: FileSource, W: Write, H: Nsec3Hasher>(
    alloc: Global,
    words: &[String],
    files: &F,
    path: &[u8],
    file: &[u8],
    hasher: &H,
    output: &mut W,
) -> Result<ZoneRun, ZoneRunFault>
    ensures { RunsOverZone (F.gives files.now) path.now (map string_bytes words.now) file.now
        (H.answer hasher.now) (W.contents output.old) (W.contents output.new) output.old output.new
        result }
{
    let lines = match lines_for(alloc, words, files, path, file) {
        Ok(lines) => lines,
        Err(fault) => return Err(fault),
    };
    let (flags, mut input) = (ParamFlags::Zero, lines.text().as_bytes());
    match run_command(alloc, words, flags, hasher, files, path, &mut input, output) {
        Ok(outcome) => Ok(ZoneRun { outcome, lines }),
        Err(fault) => Err(ZoneRunFault::Records(fault, lines)),
    }
}

/// Returns the report of `lint`, with these arguments behind its name, on lines of a zone file.
///
/// # Errors
///
/// Those of `run_lint`: `Usage` if the arguments are none, `Signing` if the hasher fails, and
/// `OutOfMemory` if there is no memory.
pub fn lint_lines<H: Nsec3Hasher>(
    alloc: Global,
    words: &[String],
    lines: &ZoneLines,
    hasher: &H,
) -> Result<Vec<u8>, DenialFault>
    ensures ok { IfOk result (λ report. IsReportOf (H.answer hasher.now)
        (map string_bytes words.now) (string_bytes lines.now.text) report.items) }
    ensures err { IfErr result (IsRunFault (map string_bytes words.now)) }
{
    let mut report = Vec::new(alloc);
    let mut input = lines.text().as_bytes();
    match run_lint(alloc, words, hasher, &mut input, &mut report) {
        Ok(_) => Ok(report),
        Err(fault) => Err(fault),
    }
}
