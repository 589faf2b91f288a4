//! Writes the report on an input.
ghost use Rattle.std.specs.{Prelude.{◌≡◌, ◌++◌, All, OnOk, map}, Io.KnownBytes.Appends};
ghost use Rattle.domain_octets.specs.Octets.{Octets};
ghost use Rattle.domain_alike.specs.Alike.{pair_of};
ghost use Rattle.lint_program.specs.{Alike.alike_text, Hashed.nsec3_fault_text, Notes.mark_of};
ghost use Rattle.lint_program.specs.Report.{AreFaults, AreNotes, IsFault, IsNote, IsPrinted};

use crate::explain::explain;
use crate::faults::ZoneFaults;
use crate::hashed::{Hashed, nsec3_fault_text};
use crate::notes::Note;
use crate::reading::BadLine;
use domain_alike::Alike;
use domain_base::ToName;
use std::alloc::Global;
use std::io;
use std::io::Write;

/// Returns a text as it is printed: a question mark if it has octets that are not printable.
fn printed(text: &str) -> &str
    ensures { All IsPrinted result.now }
{
    if text
        .as_bytes()
        .iter()
        .all(|octet| *octet >= b' ' && *octet <= b'~')
    {
        return text;
    }
    "?"
}

/// Writes the line about a bad line.
fn write_bad<W: Write>(alloc: Global, bad: &BadLine<'_>, output: &mut W) -> io::Result<()>
    ensures { OnOk result ((text : Octets) × IsFault bad.now.number text
        × Appends (W.contents output.old) (W.contents output.new) text) }
{
    let number = bad.number;
    let (word, text) = explain(alloc, bad.octets)?;
    let told = printed(text.as_str());
    writeln!(output, "line {number}, word {word}: {told}")
}

/// Writes the lines about the bad lines, one for each.
fn write_faults<W: Write>(alloc: Global, bad: &[BadLine<'_>], output: &mut W) -> io::Result<()>
    ensures { OnOk result ((text : Octets) × AreFaults (map (λ b. b.number) bad.now) text
        × Appends (W.contents output.old) (W.contents output.new) text) }
{
    for line in bad {
        write_bad(alloc, line, output)?;
    }
    Ok(())
}

/// Writes a note: as a fault of the zone if the reason is one of its faults, and else as a warning.
fn write_note<W: Write>(note: &Note, faults: ZoneFaults, output: &mut W) -> io::Result<()>
    ensures { OnOk result ((text : Octets) × IsNote faults (mark_of note.now) text
        × Appends (W.contents output.old) (W.contents output.new) text) }
{
    let is_fault = faults.fail(note.reason);
    let kind = if is_fault { "zone: " } else { "warning: " };
    let (opening, closing) = note.reason.frame();
    let told = printed(note.text.as_str());
    match note.place {
        Some(number) => writeln!(output, "{kind}line {number}: {opening}{told}{closing}"),
        None => writeln!(output, "{kind}{opening}{told}{closing}"),
    }
}

/// Writes notes, one a line.
fn write_notes<W: Write>(notes: &[Note], faults: ZoneFaults, output: &mut W) -> io::Result<()>
    ensures { OnOk result ((text : Octets) × AreNotes faults (map mark_of notes.now) text
        × Appends (W.contents output.old) (W.contents output.new) text) }
{
    for note in notes {
        write_note(note, faults, output)?;
    }
    Ok(())
}

/// Writes names with the same hash, one pair a line.
#[tactic(auto, using(denial_program::proofs::RunLemmas::appends_more))]
fn write_alike<W: Write>(pairs: &[Alike<'_>], output: &mut W) -> io::Result<()>
    ensures { OnOk result (Appends (W.contents output.old) (W.contents output.new)
        (alike_text (map pair_of pairs.now))) }
{
    for pair in pairs {
        let later = pair.later.fmt_with_dot();
        let first = pair.first.fmt_with_dot();
        writeln!(output, "zone: {later} and {first} hash alike")?;
    }
    Ok(())
}

/// Writes the report, and flushes the output.
pub fn write_report<W: Write>(
    alloc: Global,
    bad: &[BadLine<'_>],
    notes: &[Note],
    faults: ZoneFaults,
    hashed: &Hashed<'_>,
    output: &mut W,
) -> io::Result<()>
    ensures { OnOk result ((told : Octets) × (noted : Octets)
        × AreFaults (map (λ b. b.number) bad.now) told
        × AreNotes faults (map mark_of notes.now) noted
        × Appends (W.contents output.old) (W.contents output.new)
        (((told ++ noted) ++ nsec3_fault_text hashed.now.fault)
        ++ alike_text (map pair_of hashed.now.pairs.items))) }
{
    write_faults(alloc, bad, output)?;
    write_notes(notes, faults, output)?;
    write!(output, "{}", nsec3_fault_text(hashed.fault))?;
    write_alike(&hashed.pairs, output)?;
    output.flush()
}
