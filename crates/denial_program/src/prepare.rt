//! What a run prepares before it computes the reply: the command, and the records, read and sorted.
//!
//! Out of memory for these says nothing of the zone, and is reported as `Unprepared`, whose value
//! only this module can make. So code that makes a chain must report `OutOfMemory` for its own
//! memory, which implies that the zone has no fault.
ghost use Rattle.std.specs.Prelude.{◌≡◌, ◌⊎◌, IfErr, IfOk, IfSome, map};
ghost use Rattle.std.specs.{Prelude.string_bytes, Str.Lines.lines};
ghost use Rattle.domain_records.specs.Order.{IsInOrder, IsOneClass};
ghost use Rattle.denial_program.specs.{Answer.{IsUnsorted, SortsRaw}, Command.{Asks, IsNoCommand}};
ghost use Rattle.denial_program.specs.{Fault.{IsReadingFault, prepare_error}, Listing.Give};
ghost use Rattle.denial_program.specs.Run.{ReadsLines};

use crate::arena::{compact_owners, store_name};
use crate::command::{Command, command_of};
use crate::fault::DenialFault;
use crate::line::ZoneName;
use crate::reading::read_lines;
use bumpalo::Bump;
use domain_any_order::{ChainError, sort_one_class};
use domain_base::ParsedName;
use domain_borrowed::BorrowedRecord;
use domain_octets::OutOfMemory;
use std::alloc::Global;
use std::io::BufRead;

/// The error of a run that had no memory to prepare. Only this module makes it, so a value proves
/// that memory ran out there.
#[derive(Clone, Copy, Debug, PartialEq, Eq)]
pub struct PrepareError {
    reason: OutOfMemory,
}

/// Returns the fault of a run that had no memory to prepare.
fn unprepared() -> DenialFault
    ensures { result ≡ DenialFault.Unprepared prepare_error }
{
    DenialFault::Unprepared(PrepareError {
        reason: OutOfMemory,
    })
}

/// Returns the command that the arguments of the program spell.
///
/// # Errors
///
/// `Usage` if and only if they are no command, and `Unprepared` if there is no memory.
pub fn read_command(alloc: Global, words: &[String]) -> Result<Command, DenialFault>
    ensures ok { IfOk result (Asks (map string_bytes words.now)) }
    ensures err { IfErr result (λ e.
        ((e ≡ DenialFault.Usage) × IsNoCommand (map string_bytes words.now))
        ⊎ (e ≡ DenialFault.Unprepared prepare_error)) }
{
    match command_of(alloc, words) {
        Ok(command) => Ok(command),
        Err(DenialFault::OutOfMemory) => Err(unprepared()),
        Err(fault) => Err(fault),
    }
}

/// Returns the records of the remaining lines, with their octets in the arena.
///
/// # Errors
///
/// `Read` if the input could not be read, `Line` with the first line that is not a record, and
/// `Unprepared` if there is no memory.
pub fn read_records<'a, R: BufRead>(
    alloc: Global,
    arena: &'a Bump,
    input: &mut R,
) -> Result<Vec<BorrowedRecord<'a>>, DenialFault>
    ensures ok { IfOk result (λ v.
        IfSome (R.remaining input.old) (λ all. Give (lines all) v.items)) }
    ensures err { IfErr result IsReadingFault }
    ensures reads { ReadsLines (R.remaining input.old) (R.remaining input.new) result }
{
    match read_lines(alloc, arena, input) {
        Ok(records) => Ok(records),
        Err(DenialFault::OutOfMemory) => Err(unprepared()),
        Err(fault) => Err(fault),
    }
}

/// Returns the records, sorted.
///
/// # Errors
///
/// `MixedClasses` if the records are of several classes, and `Unprepared` if they are of one class
/// and there is no memory.
pub fn sort_zone<'a>(
    records: Vec<BorrowedRecord<'a>>,
) -> Result<Vec<BorrowedRecord<'a>>, DenialFault>
    ensures sorts { IfOk result (λ sorted. SortsRaw records.entry.items sorted.items) }
    ensures one_class { IfOk result (λ sorted. IsOneClass sorted.items) }
    ensures in_order { IfOk result (λ sorted. IsInOrder (λ n. n) (λ d. d.rtype) sorted.items) }
    ensures err { IfErr result (IsUnsorted records.entry.items) }
{
    match sort_one_class(records) {
        Ok(sorted) => Ok(sorted.into_inner()),
        Err(ChainError::MixedClasses) => Err(DenialFault::MixedClasses),
        Err(_) => Err(unprepared()),
    }
}

/// Returns a copy of the apex in the arena.
///
/// # Errors
///
/// `Unprepared` if there is no memory.
pub fn store_apex<'a>(arena: &'a Bump, apex: &ZoneName) -> Result<ParsedName<'a>, DenialFault>
    ensures ok { IfOk result (λ copy. copy ≡ apex.now) }
    ensures err { IfErr result (λ e. e ≡ DenialFault.Unprepared prepare_error) }
{
    store_name(arena, apex).map_err(|_| unprepared())
}

/// Returns the records. If their owners are printed, compacts the octets of these into the arena
/// once more, in order. A pass over the records, or over the chain that borrows them, then reads
/// these octets from one end to the other. Owners that are hashed stay where they are.
///
/// # Errors
///
/// `Unprepared` if there is no memory.
pub fn compact_zone<'a>(
    arena: &'a Bump,
    sorted: Vec<BorrowedRecord<'a>>,
    are_printed: bool,
) -> Result<Vec<BorrowedRecord<'a>>, DenialFault>
    ensures ok { IfOk result (λ compacted. compacted.items ≡ sorted.entry.items) }
    ensures err { IfErr result (λ e. e ≡ DenialFault.Unprepared prepare_error) }
{
    if !are_printed {
        return Ok(sorted);
    }
    compact_owners(arena, sorted).map_err(|_| unprepared())
}
