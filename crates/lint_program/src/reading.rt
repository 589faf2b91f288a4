//! The lines of an input, each read separately.
ghost use Rattle.std.specs.{Prelude.{◌≡◌, ◌⊎◌, IfErr, IfOk, IfSome, OnOk, length, map}, Str.Lines.lines};
ghost use Rattle.denial_program.specs.Fault.{IsReadToEnd};
ghost use Rattle.denial_program.specs.declared.fault.DenialFault.TheVariants.{OutOfMemory};
ghost use Rattle.lint_program.specs.Report.{AreLinted};

use bumpalo::Bump;
use denial_program::{DenialFault, Line, Store, next_line};
use domain_borrowed::BorrowedRecord;
use std::alloc::Global;
use std::io::BufRead;

/// A line that is not a record.
#[derive(Clone, Copy)]
pub struct BadLine<'a> {
    /// Its number, counted from 1.
    pub number: u64,
    /// Its octets, with its end.
    pub octets: &'a [u8],
}

/// The place of a record in the input.
#[derive(Clone, Copy)]
pub struct Place {
    /// The number of its line, counted from 1.
    pub number: u64,
    /// Whether its owner is written with a dot at its end.
    pub has_dot: bool,
}

/// The lines of an input.
#[derive(Drop)]
pub struct Lines<'a> {
    /// The bad lines, in order.
    pub bad: Vec<BadLine<'a>>,
    /// The records of the other lines, in order.
    pub records: Vec<BorrowedRecord<'a>>,
    /// The place of each of these records.
    pub places: Vec<Place>,

    ghost paired: { length places.items ≡ length records.items },
}

/// Returns whether the first word of a line ends with a dot that no backslash escapes. Of several
/// backslashes before the dot, each second one is escaped by the one before it.
fn has_dot(line: &[u8]) -> bool {
    let mut words = line.split(|octet| *octet <= b' ');
    let first = words.find(|word| !word.is_empty()).unwrap_or(line);
    let [before @ .., b'.'] = first else {
        return false;
    };
    let mut is_escaped = false;
    for octet in before {
        is_escaped = !is_escaped & (*octet == b'\\');
    }
    !is_escaped
}

/// Returns the lines that are not records, and the records of the other lines, with their octets in
/// the arena.
///
/// # Errors
///
/// `Read` if the input could not be read, and `OutOfMemory` if there is no memory.
pub fn read_lines<'a, R: BufRead>(
    alloc: Global,
    arena: &'a Bump,
    input: &mut R,
) -> Result<Lines<'a>, DenialFault>
    ensures ok { IfOk result (λ read. IfSome (R.remaining input.old) (λ all.
        AreLinted 1 (lines all) (map (λ b. b.number) read.bad.items)
        (map (λ p. p.number) read.places.items) read.records.items)) }
    ensures end { OnOk result (IsReadToEnd (R.remaining input.old) (R.remaining input.new)) }
    ensures err { IfErr result (λ e. (e ≡ DenialFault.Read) ⊎ (e ≡ OutOfMemory)) }
{
    let mut bad = Vec::new(alloc);
    let mut records = Vec::new(alloc);
    let mut places = Vec::new(alloc);
    let mut line = Vec::new(alloc);
    let mut store = Store::new(alloc, arena);
    for number in 1..u64::MAX {
        let Some(said) = next_line(alloc, &mut store, input, &mut line)? else {
            return Ok(Lines {
                bad,
                records,
                places,
            });
        };
        match said {
            Line::Nothing => {}
            Line::Record(record) => {
                let has_dot = has_dot(&line);
                places.push(Place { number, has_dot })?;
                records.push(record)?;
            }
            Line::Bad => {
                let octets = arena.try_alloc_slice_copy(&line)?;
                bad.push(BadLine { number, octets })?;
            }
        }
    }
    Err(DenialFault::Read)
}
