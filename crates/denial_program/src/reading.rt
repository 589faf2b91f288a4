//! Reads the lines of an input to the end.
ghost use Rattle.std.specs.Prelude.{◌≡◌, ◌≢◌, ◌⊎◌, ◌+◌, ◌-◌, [], ◌∷◌, ◌++◌, IfErr, IfOk};
ghost use Rattle.std.specs.Prelude.{MatchResult, OnOk, IfNone, IfSome, length, slice_index};
ghost use Rattle.std.specs.{Prelude.vec_len, Str.Lines.{lines, strip_carriage_return}};
ghost use Rattle.std.specs.Io.{BufRead.{take_through, DropsThrough}, KnownBytes.IsAtEnd};
ghost use Rattle.domain_octets.specs.{Octets.Octets, Text.line_feed};
ghost use Rattle.denial_program.specs.Fault.{IsReadingFault, IsReadToEnd};
ghost use Rattle.denial_program.specs.{Listing.{Give, Says, TakesLine, TakesNone}, Run.ReadsLines};
ghost use Rattle.denial_program.specs.declared.fault.DenialFault.TheVariants.{OutOfMemory};

use crate::fault::{DenialFault, fault_of};
use crate::line::{Line, read_line};
use crate::store::Store;
use bumpalo::Bump;
use domain_borrowed::BorrowedRecord;
use memchr::memchr;
use std::alloc::Global;
use std::io;
use std::io::{BufRead, ErrorKind};

/// Returns a line without its end: a line feed, and a carriage return before it.
pub fn without_end(line: &[u8]) -> &[u8]
    ensures ended { (front : Octets) → line.now ≡ front ++ line_feed ∷ []
        → result.now ≡ strip_carriage_return front }
    ensures last { slice_index line.now (length line.now - 1) ≢ line_feed → result.now ≡ line.now }
{
    match line {
        [front @ .., b'\r', b'\n'] => front,
        [front @ .., b'\n'] => front,
        _ => line,
    }
}

/// Reads to the end, and discards everything.
#[tactic(auto, using(std::proofs::lemmas::Grind::common_steps, crate::proofs::LineLemmas::known_start))]
fn skip_all<R: BufRead>(input: &mut R) -> Result<(), DenialFault>
    ensures ok { OnOk result (IsReadToEnd (R.remaining input.old) (R.remaining input.new)) }
    ensures err { IfErr result (λ e. (e ≡ DenialFault.Read) ⊎ (e ≡ OutOfMemory)) }
{
    for _ in 0..u64::MAX {
        let count = match input.skip_until(b'\n') {
            Ok(count) => count,
            Err(e) => return Err(fault_of(&e, DenialFault::Read)),
        };
        if count == 0 {
            return Ok(());
        }
    }
    Err(DenialFault::Read)
}

/// Appends the next line, with its end, and returns its number of octets, which is 0 only at the
/// end of the input. If the reader's buffer holds the whole line, one fast search finds its end.
fn append_line<R: BufRead>(input: &mut R, line: &mut Vec<u8>) -> io::Result<usize>
    ensures ok { IfOk result (λ n. vec_len line.new ≡ vec_len line.old + n) }
    ensures bytes { OnOk result (IfSome (R.remaining input.old)
        (λ all. line.new.items ≡ line.old.items ++ take_through line_feed all)) }
    ensures rest { OnOk result
        (DropsThrough (R.remaining input.old) (R.remaining input.new) line_feed) }
    ensures end { IfOk result (λ n. n ≡ 0 → IsAtEnd (R.remaining input.old)) }
{
    let held = match input.fill_buf() {
        Ok(held) => held,
        Err(e) if e.kind() == ErrorKind::Interrupted => return input.read_until(b'\n', line),
        Err(e) => return Err(e),
    };
    let Some(place) = memchr(b'\n', held) else {
        return input.read_until(b'\n', line);
    };
    line.extend_from_slice(&held[..place + 1])?;
    input.consume(place + 1);
    Ok(place + 1)
}

/// Returns the content of the next line, with its record in the arena, or None at the end of the
/// input. The vector then has this line, with its end, instead of its old content.
///
/// # Errors
///
/// `Read` if the input could not be read, and `OutOfMemory` if there is no memory.
#[inline(always)]
pub fn next_line<'a, R: BufRead>(
    alloc: Global,
    store: &mut Store<'a>,
    input: &mut R,
    line: &mut Vec<u8>,
) -> Result<Option<Line<'a>>, DenialFault>
    ensures some { IfOk result (λ next. IfSome next (λ said.
        TakesLine (R.remaining input.old) (R.remaining input.new) (λ line. Says line said))) }
    ensures none { IfOk result (λ next. IfNone next
        (TakesNone (R.remaining input.old) (R.remaining input.new))) }
    ensures err { IfErr result (λ e. (e ≡ DenialFault.Read) ⊎ (e ≡ OutOfMemory)) }
{
    line.clear();
    let count = match append_line(input, line) {
        Ok(count) => count,
        Err(e) => return Err(fault_of(&e, DenialFault::Read)),
    };
    if count == 0 {
        return Ok(None);
    }
    let said = read_line(alloc, store, without_end(line))?;
    Ok(Some(said))
}

/// Returns the records of the remaining lines, with their octets in the arena. A bad line is
/// reported only after the rest has been read, since an error of the reader comes first.
///
/// # Errors
///
/// `Read` if the input could not be read, `Line` with the first line that is not a record, and
/// `OutOfMemory` if there is no memory.
#[tactic(auto, using(crate::proofs::LineLemmas::follows_skip, crate::proofs::LineLemmas::follows_record))]
pub fn read_lines<'a, R: BufRead>(
    alloc: Global,
    arena: &'a Bump,
    input: &mut R,
) -> Result<Vec<BorrowedRecord<'a>>, DenialFault>
    ensures ok { IfOk result (λ v.
        IfSome (R.remaining input.old) (λ all. Give (lines all) v.items)) }
    ensures err { IfErr result (λ e. (e ≡ OutOfMemory) ⊎ IsReadingFault e) }
    ensures reads { ReadsLines (R.remaining input.old) (R.remaining input.new) result }
{
    let mut records = Vec::new(alloc);
    let mut line = Vec::new(alloc);
    let mut store = Store::new(alloc, arena);
    for number in 1..u64::MAX {
        let Some(said) = next_line(alloc, &mut store, input, &mut line)? else {
            return Ok(records);
        };
        match said {
            Line::Nothing => {}
            Line::Record(record) => records.push(record)?,
            Line::Bad => {
                skip_all(input)?;
                return Err(DenialFault::Line(number));
            }
        }
    }
    Err(DenialFault::Read)
}
