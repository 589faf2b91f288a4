//! A line of the input.
ghost use Rattle.std.specs.Prelude.{◌≡◌, IfErr, IfNone, IfOk, IfSome};
ghost use Rattle.denial_program.specs.{Spelled.LineText, Listing.{IsPlain, RefusesWords, Says}};

use crate::store::Store;
use domain_base::{IterScanner, Name, Scanner};
use domain_borrowed::BorrowedRecord;
use domain_message::{LineError, is_no_entry, scan_behind_owner};
use domain_octets::{LineWords, OutOfMemory, SmallOctets, push_words};
use domain_rdata::ZoneRecordData;
use domain_record::Record;
use std::alloc::Global;

/// The octets of the program's names and data. Most are stored in the value itself, without
/// allocation.
pub type ZoneOctets = SmallOctets;

/// The names of the program, each with its own octets.
pub type ZoneName = Name<ZoneOctets>;

/// Data that were read, before they are compacted into an arena.
pub type ZoneData = ZoneRecordData<ZoneOctets, ZoneName>;

/// The content of a line.
#[derive(Drop)]
pub enum Line<'a> {
    /// The line is blank, or a comment.
    Nothing,
    /// A record, with its owner and the canonical form of its data in an arena.
    Record(BorrowedRecord<'a>),
    /// The line is none of these.
    Bad,
}

/// Returns a line as text if no octet is past `~`. A proof shows that it is text, so it is not
/// checked again.
fn plain_text(line: &[u8]) -> Option<&str>
    ensures some { IfSome result (λ text. (text.now ≡ line.now) × IsPlain line.now) }
    ensures none { IfNone result (IsPlain line.now → ⊥) }
{
    let mut is_plain = true;
    for octet in line {
        is_plain &= *octet <= b'~';
    }
    if !is_plain {
        return None;
    }
    Some(unsafe { str::from_utf8_unchecked(line) })
}

/// Returns the record that tokens spell: owner, TTL, class, type and data.
fn scan_record<'a, S: Scanner<Name = ZoneName, Octets = ZoneOctets>>(
    alloc: Global,
    store: &mut Store<'a>,
    scanner: &mut S,
) -> Result<BorrowedRecord<'a>, LineError>
    ensures ok { IfOk result (LineText (S.tokens scanner.old)) }
    ensures err { IfErr result (RefusesWords (S.tokens scanner.old)) }
{
    let owner = store.scan_owner(alloc, scanner)?;
    let record = scan_behind_owner(alloc, scanner, ())?;
    let stored = store.data(record.data())?;
    Ok(Record::new(owner, record.class(), record.ttl(), stored))
}

/// Returns the content of a line, with the record in the arena. Pass the line without its end.
#[inline(always)]
pub fn read_line<'a>(
    alloc: Global,
    store: &mut Store<'a>,
    line: &[u8],
) -> Result<Line<'a>, OutOfMemory>
    ensures { IfOk result (Says line.now) }
{
    if is_no_entry(line) {
        return Ok(Line::Nothing);
    }
    let Some(text) = plain_text(line) else {
        return Ok(Line::Bad);
    };
    let mut words = LineWords::new(alloc);
    push_words(&mut words, text)?;
    let mut scanner = IterScanner::<ZoneOctets>::new(words.as_slice());
    match scan_record(alloc, store, &mut scanner) {
        Ok(record) => Ok(Line::Record(record)),
        Err(error) if error.is_out_of_memory() => Err(OutOfMemory),
        Err(_) => Ok(Line::Bad),
    }
}
