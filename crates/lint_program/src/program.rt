//! Runs the program over any reader and any writer.
ghost use Rattle.std.specs.Prelude.{◌≡◌, ◌⊎◌, ℕ, Option, IfErr, IfOk, IsErrOf};
ghost use Rattle.std.specs.Prelude.{MatchResult, OnOk, IfSome, map, string_bytes};
ghost use Rattle.std.specs.{Str.Lines.lines, Io.KnownBytes.Appends};
ghost use Rattle.domain_octets.specs.Octets.{Octets};
ghost use Rattle.domain_names.specs.Name.{Name};
ghost use Rattle.domain_alike.specs.Alike.{pair_of};
ghost use Rattle.domain_hasher.specs.declared.error.Nsec3HashError.TheVariants as hash_error;
ghost use Rattle.domain_groups.specs.declared.error.SigningError.{SigningError};
ghost use Rattle.domain_groups.specs.declared.error.SigningError.TheVariants as signing_error;
ghost use Rattle.denial_program.specs.{Command.Params, Fault.{IsBeforeOutput, IsReadToEnd}};
ghost use Rattle.denial_program.specs.declared.fault.DenialFault.TheVariants.{OutOfMemory as Memory, Signing};
ghost use Rattle.lint_program.specs.{Alike.{AreTold, IsRefusalBy}, Command.{AsksToLint, IsLintCommand, IsRunFault}};
ghost use Rattle.lint_program.specs.{Faults.AreFaultsOf, Hashed.{outcome_with, IsNsec3Rejection}};
ghost use Rattle.lint_program.specs.{Notes.mark_of, Report.{plain_outcome, IsLintRefused, IsReport}};

use crate::command::{Asked, asked_of};
use crate::faults::{ZoneFaults, faults_of};
use crate::hashed::{Hashed, hashed_of};
use crate::notes::{Note, notes_of};
use crate::outcome::Outcome;
use crate::reading::{BadLine, Lines, read_lines};
use crate::report::write_report;
use bumpalo::Bump;
use denial_program::{DenialFault, Nsec3Params, fault_of, sort_zone};
use domain_base::ParsedName;
use domain_borrowed::BorrowedRecord;
use domain_hasher::Nsec3Hasher;
use std::alloc::Global;
use std::io::{BufRead, Write};

/// Returns the outcome without an NSEC3 chain, by the bad lines, the notes about the records of the
/// other lines, and the faults of these as a zone.
fn plain_outcome(bad: &[BadLine<'_>], notes: &[Note], faults: ZoneFaults) -> Outcome
    ensures { result ≡ plain_outcome (map (λ b. b.number) bad.now) faults
        (map mark_of notes.now) }
{
    if let [_, ..] = bad {
        return Outcome::Faulty;
    }
    if faults.are_any() {
        return Outcome::Faulty;
    }
    match notes {
        [] => Outcome::Clean,
        [_, ..] => Outcome::Warned,
    }
}

/// Returns the outcome with the faults of an NSEC3 chain. `plain` is the outcome without them.
fn outcome_with(hashed: &Hashed<'_>, plain: Outcome) -> Outcome
    ensures { result ≡ outcome_with (map pair_of hashed.now.pairs.items) hashed.now.fault plain }
{
    if hashed.fault.is_some() {
        return Outcome::Faulty;
    }
    match hashed.pairs.as_slice() {
        [] => plain,
        [_, ..] => Outcome::Faulty,
    }
}

/// Returns the faults of records as a zone, and those of their NSEC3 chain with these parameters.
/// Records of several classes have no chain.
fn judged<'a, H: Nsec3Hasher>(
    alloc: Global,
    apex: &ParsedName<'a>,
    records: Vec<BorrowedRecord<'a>>,
    parameters: Option<Nsec3Params>,
    hasher: &H,
) -> Result<(ZoneFaults, Hashed<'a>), DenialFault>
    ensures faults { IfOk result (λ told. AreFaultsOf records.entry.items apex.now told.0) }
    ensures fault { IfOk result (λ told. IsNsec3Rejection (H.answer hasher.now) records.entry.items
        apex.now parameters told.1.fault) }
    ensures alike { IfOk result (λ told. AreTold (H.answer hasher.now) records.entry.items apex.now
        parameters (map pair_of told.1.pairs.items)) }
    ensures err { IfErr result (λ e. (e ≡ Memory) ⊎ ((n : ℕ)
        × (e ≡ Signing (signing_error.Nsec3HashingError (hash_error.Hasher n)))
        × IsRefusalBy (H.answer hasher.now) records.entry.items apex.now parameters n)) }
{
    let sorted = match sort_zone(records) {
        Ok(sorted) => sorted,
        Err(DenialFault::MixedClasses) => {
            return Ok((ZoneFaults::of_mixed_classes(), Hashed::none(alloc)));
        }
        Err(_fault) => return Err(DenialFault::OutOfMemory),
    };
    let faults = faults_of(alloc, apex, &sorted)?;
    let hashed = hashed_of(alloc, apex, &sorted, parameters, hasher)?;
    Ok((faults, hashed))
}

/// Runs the command that the arguments spell. Reads the records of the zone at the apex, one a
/// line. Writes what is wrong with each line that is not a record, one a line. Then writes what is
/// wrong with the records as a zone, and what is no fault but is seldom intended. Last, if
/// iterations and a salt follow the apex, writes why its NSEC3 chain with these has a hash that
/// cannot be used, and which of its names have the same hash. `denial nsec` rejects the input, or
/// with iterations and a salt `denial nsec3` does, if and only if the outcome is `Faulty`.
///
/// # Errors
///
/// The first of these that applies:
///
/// - `Usage` if the arguments are neither an apex, nor an apex with such parameters;
/// - `Read` if the input could not be read;
/// - `Signing` if the hasher fails for a name of the chain;
/// - `Write` if the output could not be written.
///
/// `OutOfMemory` may come at any time. For other errors than `Write` and `OutOfMemory`, nothing is
/// written. No line and no record makes the run fail.
pub fn run_lint<R: BufRead, W: Write, H: Nsec3Hasher>(
    alloc: Global,
    words: &[String],
    hasher: &H,
    input: &mut R,
    output: &mut W,
) -> Result<Outcome, DenialFault>
    // The output reports each line that is neither skipped nor a record, and no other. Then it
    // reports each record of the others that deserves a note, by the number of its line and why,
    // and no other: as a fault exactly if its reason is one for which `denial nsec` rejects the
    // records. With parameters, it then reports the fault of hashing for which `denial nsec3`
    // rejects them, if there is one, and each name of the chain that has the hash of an earlier
    // one, and no other.
    ensures ok { IfOk result (λ outcome. IfSome (R.remaining input.old) (λ bytes. (apex : Name)
        × (p : Option Params) × (text : Octets) × AsksToLint (map string_bytes words.now) apex p
        × IsReport (H.answer hasher.now) (lines bytes) apex p outcome text
        × Appends (W.contents output.old) (W.contents output.new) text)) }

    // `Usage` if and only if the arguments are no command, unless memory runs out.
    ensures usage { MatchResult result (λ _. IsLintCommand (map string_bytes words.now))
        (IsRunFault (map string_bytes words.now)) }

    // `Signing` only if the arguments have parameters, and the hasher fails for a name of the chain
    // and for none before it.
    ensures refused { (e : SigningError) → IsErrOf result (DenialFault.Signing e)
        → IfSome (R.remaining input.old) (λ bytes.
        IsLintRefused (H.answer hasher.now) (map string_bytes words.now) (lines bytes) e) }

    // All of the input has been read.
    ensures end { OnOk result (IsReadToEnd (R.remaining input.old) (R.remaining input.new)) }

    ensures untouched { IfErr result (λ e. IsBeforeOutput e → output.new ≡ output.old) }
{
    let arena = Bump::new(alloc);
    let Asked { apex, parameters } = asked_of(alloc, &arena, words)?;
    let lines = read_lines(alloc, &arena, input)?;
    let notes = notes_of(alloc, &apex, &lines)?;
    let Lines { bad, records, .. } = lines;
    let (faults, hashed) = judged(alloc, &apex, records, parameters, hasher)?;
    match write_report(alloc, &bad, &notes, faults, &hashed, output) {
        Ok(()) => Ok(outcome_with(&hashed, plain_outcome(&bad, &notes, faults))),
        Err(e) => Err(fault_of(&e, DenialFault::Write)),
    }
}
