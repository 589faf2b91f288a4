//! A reader of the entries of a zone file.
ghost use Rattle.std.specs.Prelude.{◌≡◌, ◌≤◌, [], map, OnOk, OnErr, IfOk};
ghost use Rattle.domain_zonefile.specs.{Entries.items_from, Places.{without_mark, place_in}};
ghost use Rattle.domain_types.specs.Reading.{token_text};
ghost use Rattle.domain_zonefile.specs.{Reader.Finds, Tokens.{piece_view, token_place}};

use crate::entry::{Reading, begins_blank, read_entry};
use crate::place::{Seen, see, start_of, without_mark};
use crate::token::{Brackets, Tokens};
use crate::{Place, SyntaxFault, Token};
use domain_octets::OutOfMemory;
use std::alloc::Global;
use std::marker::Model;

/// What a reader found.
#[derive(Clone, Copy, Debug, PartialEq, Eq)]
pub enum Found {
    /// An entry. It is indented if its first line begins with a blank: then it has no owner.
    Entry(bool),
    /// A fault.
    Fault(SyntaxFault),
}

/// A reader of the entries of a zone file (RFC 1035, section 5.1), in one pass.
///
/// Contracts see the file, the tokens of the entry that was read last, and the list of entries and
/// faults that are left.
#[derive(Drop)]
pub struct EntryReader<'a> {
    file: &'a [u8],
    next: usize,
    tokens: Tokens<'a>,
    brackets: Brackets,
    seen: Seen,
}

impl<'a> Model for EntryReader<'a> {
    ghost use Rattle.std.specs.Prelude.{◌≡◌, ◌≤◌, length};
    ghost use Rattle.domain_zonefile.specs.{Entries.items_from, Places.IsSeen};
    ghost use Rattle.domain_zonefile.specs.Reader.{Reader};

    ghost Value = { Reader };

    ghost view = { λ r. record {
      file = r.file.now;
      tokens = r.tokens;
      left = items_from r.file.now r.next;
    } };

    ghost invariant = { λ r. (r.next ≤ length r.file.now) × IsSeen r.file.now r.seen };
}

impl<'a> EntryReader<'a> {
    /// Returns a reader of a file. It drops a byte order mark at its start, and places count from
    /// behind the mark.
    pub fn new(alloc: Global, file: &'a [u8]) -> Self
        ensures file { result.file ≡ without_mark file.now }
        ensures left { result.left ≡ items_from (without_mark file.now) 0 }
        ensures tokens { result.tokens ≡ [] }
    {
        let file = without_mark(file);
        EntryReader {
            file,
            next: 0,
            tokens: Tokens::new(alloc),
            brackets: Brackets::new(alloc),
            seen: start_of(file),
        }
    }

    /// Reads the next entry that has tokens, or the next fault. Returns None at the end of the
    /// file. After a fault, reading goes on at the next line that begins outside of brackets.
    ///
    /// # Errors
    ///
    /// `OutOfMemory` if there is no memory for the tokens or the open brackets. The next call reads
    /// the same entry again.
    pub fn next_entry(&mut self) -> Result<Option<Found>, OutOfMemory>
        ensures found { IfOk result (λ found. Finds found self.old.left self.new) }
        ensures err { OnErr result (self.new.left ≡ self.old.left) }
        ensures file { self.new.file ≡ self.old.file }
    {
        'lines: while self.next < self.file.len() {
            let start = self.next;
            match read_entry(self.file, start, &mut self.tokens, &mut self.brackets)? {
                Reading::Faulty(fault, next) => {
                    self.next = next;
                    self.tokens.clear();
                    return Ok(Some(Found::Fault(fault)));
                }
                Reading::Entry(next) => {
                    self.next = next;
                    if !self.tokens.is_empty() {
                        return Ok(Some(Found::Entry(begins_blank(&self.file[start..]))));
                    }
                }
            }
        }
        self.tokens.clear();
        Ok(None)
    }

    /// Returns the tokens of the entry that was read last. After a fault there are none.
    pub fn tokens(&self) -> &[Token<'a>]
        ensures { map token_text result.now ≡ map piece_view self.now.tokens }
    {
        self.tokens.tokens()
    }

    /// Returns the place of each of these tokens: the number of octets before it.
    pub fn places(&self) -> &[usize]
        ensures { result.now ≡ map (λ piece. piece.at) self.now.tokens }
    {
        self.tokens.places()
    }

    /// Returns the line and column of a place. A place behind the last one that was asked for takes
    /// time only for the octets between them.
    pub fn place_of(&mut self, at: usize) -> Place
        ensures place { result ≡ place_in self.old.file at }
        ensures same { self.new ≡ self.old }
    {
        self.seen = see(self.file, self.seen, at);
        self.seen.place
    }

    /// Returns the line and column of a token of the entry that was read last, by its number. Where
    /// one is missing it is that of the last one.
    pub fn place_of_token(&mut self, token: usize) -> Place
        ensures place { result ≡ place_in self.old.file (token_place self.old.tokens token) }
        ensures same { self.new ≡ self.old }
    {
        let at = self.tokens.place(token);
        self.place_of(at)
    }

    /// Returns the file, without a byte order mark.
    pub fn file(&self) -> &'a [u8]
        ensures { result.now ≡ self.now.file }
    {
        self.file
    }
}
