//! Notes about the records that were read: faults because of which their zone has no chain, and
//! what is no fault but is seldom intended. Nothing here decides whether there is a chain.
ghost use Rattle.std.specs.Prelude.{◌≡◌, ◌==◌, ◌++◌, List, OnOk, IfOk, length, map, option_map};
ghost use Rattle.std.specs.List.{list_any};
ghost use Rattle.lint_program.specs.Notes.{is_apex_soa, mark_of, missing_soa, AreNoted, Found, IsToldOf, Mark};

use crate::firsts::first_in_group;
use crate::looks::{Look, Placed, Reason, is_apex_soa, reason_of};
use crate::note_text::text_of;
use crate::reading::Lines;
use domain_base::{ParsedName, ToName};
use domain_borrowed::BorrowedRecord;
use std::alloc::{AllocError, Global};
use std::collections::BTreeMap;

/// A note about a record, or about all records.
#[derive(Drop)]
pub struct Note {
    /// The reason.
    pub reason: Reason,
    /// The number of the record's line, or `None` if the note is about all records.
    pub place: Option<u64>,
    /// The text between the beginning and the end that each note of this reason has.
    pub text: String,
}

/// Appends the note that a look finds about a record, if any.
fn note_one(
    alloc: Global,
    look: Look,
    apex: &ParsedName<'_>,
    first: Option<Placed<'_, '_>>,
    placed: Placed<'_, '_>,
    notes: &mut Vec<Note>,
) -> Result<(), AllocError>
    ensures { OnOk result ((more : List Mark)
        × IsToldOf look apex.now (option_map (λ p. p.borrowed.now) first.entry)
        placed.entry.borrowed.now placed.entry.place.number more
        × (map mark_of notes.new.items ≡ map mark_of notes.old.items ++ more)) }
{
    let Some(reason) = reason_of(look, apex, first, placed.borrowed) else {
        return Ok(());
    };
    let text = text_of(alloc, apex, reason, first, placed)?;
    notes.push(Note {
        reason,
        place: Some(placed.place.number),
        text,
    })?;
    Ok(())
}

/// Appends the notes that a look finds about the records.
fn note_each<'z, 'a>(
    alloc: Global,
    look: Look,
    apex: &'z ParsedName<'a>,
    lines: &'z Lines<'a>,
    notes: &mut Vec<Note>,
) -> Result<(), AllocError>
    ensures { OnOk result ((more : List Mark)
        × Found look apex.now lines.now.records.items (map (λ p. p.number) lines.now.places.items)
        more × (map mark_of notes.new.items ≡ map mark_of notes.old.items ++ more)) }
{
    let mut firsts = BTreeMap::new(alloc);
    for (i, borrowed) in lines.records.iter().enumerate() {
        let place = lines.places[i];
        let placed = Placed { borrowed, place };
        let first = first_in_group(look, apex, &mut firsts, placed)?;
        note_one(alloc, look, apex, first, placed, notes)?;
    }
    Ok(())
}

/// Returns whether the apex owns an SOA record.
fn has_soa(apex: &ParsedName<'_>, records: &[BorrowedRecord<'_>]) -> bool
    ensures { result ≡ list_any (is_apex_soa apex.now) records.now }
{
    records.iter().any(|borrowed| is_apex_soa(apex, borrowed))
}

/// Appends a note if the apex owns no SOA record and no line was bad.
fn note_no_soa(
    alloc: Global,
    apex: &ParsedName<'_>,
    lines: &Lines<'_>,
    notes: &mut Vec<Note>,
) -> Result<(), AllocError>
    ensures { OnOk result (map mark_of notes.new.items ≡ map mark_of notes.old.items
        ++ missing_soa (length lines.now.bad.items == 0) apex.now lines.now.records.items) }
{
    if !lines.bad.is_empty() || has_soa(apex, &lines.records) {
        return Ok(());
    }
    let apex = apex.fmt_with_dot();
    let text = format!(in alloc; "{apex}")?;
    notes.push(Note {
        reason: Reason::NoSoa,
        place: None,
        text,
    })?;
    Ok(())
}

/// Returns the notes about records. If lines were bad, there is none about a missing SOA record.
pub fn notes_of(
    alloc: Global,
    apex: &ParsedName<'_>,
    lines: &Lines<'_>,
) -> Result<Vec<Note>, AllocError>
    ensures { IfOk result (λ notes. AreNoted (length lines.now.bad.items == 0) apex.now
        lines.now.records.items (map (λ p. p.number) lines.now.places.items)
        (map mark_of notes.items)) }
{
    let mut notes = Vec::new(alloc);
    note_each(alloc, Look::Soas, apex, lines, &mut notes)?;
    note_no_soa(alloc, apex, lines, &mut notes)?;
    note_each(alloc, Look::Classes, apex, lines, &mut notes)?;
    note_each(alloc, Look::Ttls, apex, lines, &mut notes)?;
    note_each(alloc, Look::Outside, apex, lines, &mut notes)?;
    note_each(alloc, Look::Aliases, apex, lines, &mut notes)?;
    note_each(alloc, Look::Data, apex, lines, &mut notes)?;
    Ok(notes)
}
