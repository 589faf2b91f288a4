//! A reader of the records of a zone file.
ghost use Rattle.std.specs.Prelude.{◌≡◌, [], IfOk};
ghost use Rattle.std.specs.Prelude.{map};
ghost use Rattle.domain_types.specs.Reading.{token_text};
ghost use Rattle.domain_zonefile.specs.Tokens.{piece_view, token_place};
ghost use Rattle.domain_zonefile.specs.{Entries.items_from, Files.{item_of_line, IsItemOf, ReadsItem}, Places.{place_in, without_mark}, Records.{start_state, state_after_file}};

use crate::{
    EntryFault, EntryReader, Found, Line, Place, RecordFields, SyntaxFault, Token, ZoneState,
};
use domain_base::{Name, ParsedName};
use domain_octets::{OutOfMemory, SmallOctets};
use std::alloc::Global;
use std::marker::Model;

/// What a reader of records found.
#[derive(Drop)]
pub enum ZoneItem {
    /// A record. Its owner is that of the state.
    Record(RecordFields),
    /// `$INCLUDE`: its second token is a file, whose entries begin with this origin.
    Include(Name<SmallOctets>),
    /// `$GENERATE`: its other tokens are a pattern of records.
    Generate,
    /// An entry that has a fault.
    Refused(EntryFault),
    /// Octets that are no entry.
    Misspelled(SyntaxFault),
}

/// A reader of the records of one file, in one pass.
#[derive(Drop)]
pub struct ZoneReader<'a> {
    entries: EntryReader<'a>,
    state: ZoneState,
}

impl<'a> Model for ZoneReader<'a> {
    ghost use Rattle.domain_zonefile.specs.Files.{ZoneView};

    ghost Value = { ZoneView };

    ghost view = { λ r. record {
      file = r.entries.file;
      state = r.state;
      tokens = r.entries.tokens;
      left = r.entries.left;
    } };
}

/// Returns the item of an entry, and None for one that only changes the state.
fn item_of_line(line: Line) -> Option<ZoneItem>
    ensures { result ≡ item_of_line line }
{
    match line {
        Line::Record(fields) => Some(ZoneItem::Record(fields)),
        Line::Origin => None,
        Line::DefaultTtl => None,
        Line::Include(origin) => Some(ZoneItem::Include(origin)),
        Line::Generate => Some(ZoneItem::Generate),
    }
}

/// Returns the item that was found, and None for an entry that only changes the state.
fn item_of(
    alloc: Global,
    state: &mut ZoneState,
    tokens: &[Token<'_>],
    found: Found,
    data: &mut Vec<u8>,
) -> Option<ZoneItem>
    ensures { IsItemOf state.old (map token_text tokens.now) found «data».old.items result
        state.new «data».new.items }
{
    let is_indented = match found {
        Found::Fault(fault) => return Some(ZoneItem::Misspelled(fault)),
        Found::Entry(is_indented) => is_indented,
    };
    match state.read_line(alloc, is_indented, tokens, data) {
        Ok(line) => item_of_line(line),
        Err(fault) => Some(ZoneItem::Refused(fault)),
    }
}

impl<'a> ZoneReader<'a> {
    /// Returns a reader of a file whose names are relative to the origin.
    ///
    /// # Errors
    ///
    /// `OutOfMemory` if there is no memory for the origin.
    pub fn new(alloc: Global, file: &'a [u8], origin: &ParsedName<'_>) -> Result<Self, OutOfMemory>
        ensures file { IfOk result (λ r. r.file ≡ without_mark file.now) }
        ensures state { IfOk result (λ r. r.state ≡ start_state origin.now) }
        ensures left { IfOk result (λ r. r.left ≡ items_from (without_mark file.now) 0) }
    {
        let state = ZoneState::new(alloc, origin)?;
        Ok(ZoneReader::with_state(alloc, file, state))
    }

    /// Returns a reader of a file before which this is known.
    pub fn with_state(alloc: Global, file: &'a [u8], state: ZoneState) -> Self
        ensures file { result.file ≡ without_mark file.now }
        ensures state { result.state ≡ state }
        ensures left { result.left ≡ items_from (without_mark file.now) 0 }
    {
        ZoneReader {
            entries: EntryReader::new(alloc, file),
            state,
        }
    }

    /// Reads the next record, fault or other entry. `$ORIGIN` and `$TTL` are followed, and passed
    /// over. The octets of a record's data are appended to `data`. Returns None at the end of the
    /// file.
    ///
    /// # Errors
    ///
    /// `OutOfMemory` if there is no memory for the tokens of an entry.
    pub fn next_item(
        &mut self,
        alloc: Global,
        data: &mut Vec<u8>,
    ) -> Result<Option<ZoneItem>, OutOfMemory>
        ensures found { IfOk result (λ item. ReadsItem self.old.state self.old.left
            «data».old.items item self.new.state self.new.tokens self.new.left «data».new.items) }
        ensures file { self.new.file ≡ self.old.file }
    {
        'entries: while let Some(found) = self.entries.next_entry()? {
            if let Some(item) = item_of(
                alloc,
                &mut self.state,
                self.entries.tokens(),
                found,
                data,
            ) {
                return Ok(Some(item));
            }
        }
        Ok(None)
    }

    /// Returns the line and column of a place: the number of octets before it.
    pub fn place_of(&mut self, at: usize) -> Place
        ensures place { result ≡ place_in self.old.file at }
        ensures same { self.new ≡ self.old }
    {
        self.entries.place_of(at)
    }

    /// Returns the line and column of a token of the entry that was read last, by its number. Where
    /// one is missing it is that of the last one.
    pub fn place_of_token(&mut self, token: usize) -> Place
        ensures place { result ≡ place_in self.old.file (token_place self.old.tokens token) }
        ensures same { self.new ≡ self.old }
    {
        self.entries.place_of_token(token)
    }

    /// Returns what the file says so far. The owner of the last record is in it.
    pub fn state(&self) -> &ZoneState
        ensures { result.now ≡ self.now.state }
    {
        &self.state
    }

    /// Goes on after an included file that ends so: origin and owner stay. The default TTL, the
    /// last TTL and the last class are those of its end (RFC 2308, section 4).
    pub fn go_on(&mut self, end: &ZoneState)
        ensures state { self.new.state ≡ state_after_file self.old.state end.now }
        ensures left { self.new.left ≡ self.old.left }
        ensures tokens { self.new.tokens ≡ self.old.tokens }
        ensures file { self.new.file ≡ self.old.file }
    {
        self.state.go_on(end);
    }

    /// Returns the tokens of the entry that was read last. After a fault of the octets there are
    /// none.
    pub fn tokens(&self) -> &[Token<'a>]
        ensures { map token_text result.now ≡ map piece_view self.now.tokens }
    {
        self.entries.tokens()
    }
}
