//! The store for the octets of records while they are read.
ghost use Rattle.std.specs.Prelude.{◌≡◌, IfErr, IfNone, IfOk, IfSome, OnOk};
ghost use Rattle.domain_base.specs.Scan.{TakesToken};
ghost use Rattle.domain_names.specs.Text.{NameText};
ghost use Rattle.domain_any_order.specs.RawRecords.{raw_data};
ghost use Rattle.denial_program.specs.Listing.{RefusesWords};

use crate::arena::store_name;
use crate::line::{ZoneData, ZoneName, ZoneOctets};
use bumpalo::Bump;
use domain_base::{ParsedName, ScanError, Scanner};
use domain_borrowed::BorrowedData;
use domain_message::LineError;
use domain_octets::{OutOfMemory, TryClone};
use domain_record::{ComposeRecordData, RecordData};
use std::alloc::Global;
use std::marker::Model;

/// An arena, a buffer for data on their way there, and the last owner that was read, with the word
/// that spells it. Records of one owner mostly follow one another, so the word is read and its
/// octets are stored only once.
#[derive(Drop)]
pub struct Store<'a> {
    arena: &'a Bump,
    octets: Vec<u8>,
    word: Vec<u8>,
    owner: Option<ParsedName<'a>>,
}

impl<'a> Model for Store<'a> {
    ghost use Rattle.std.specs.Prelude.{IfSome};
    ghost use Rattle.domain_names.specs.Text.{NameText};

    ghost Value = { Unit {0} };

    ghost view = { λ _. tt };

    ghost invariant = { λ store. IfSome store.owner (NameText store.word.items) };
}

/// Replaces octets with a word.
fn put_word(octets: &mut Vec<u8>, word: &str) -> Result<(), OutOfMemory>
    ensures { OnOk result (octets.new.items ≡ word.now) }
{
    octets.clear();
    octets.extend_from_slice(word.as_bytes())?;
    Ok(())
}

impl<'a> Store<'a> {
    /// Returns a store that puts what is read into this arena.
    pub fn new(alloc: Global, arena: &'a Bump) -> Self {
        Store {
            arena,
            octets: Vec::new(alloc),
            word: Vec::new(alloc),
            owner: None,
        }
    }

    /// Stores the octets of data in canonical form (RFC 4034, section 6.2), and returns them as
    /// data of their type.
    pub fn data(&mut self, data: &ZoneData) -> Result<BorrowedData<'a>, OutOfMemory>
        ensures { IfOk result (λ stored. stored ≡ raw_data (λ o. o) (λ n. n) «data».now) }
    {
        self.octets.clear();
        let Ok(()) = data.compose_canonical_rdata(&mut self.octets) else {
            return Err(OutOfMemory);
        };
        let octets = self.arena.try_alloc_slice_copy(&self.octets)?;
        Ok(BorrowedData::new(data.rtype(), octets))
    }

    /// Returns the last owner if the next word spells it, and then skips that word.
    fn scan_known<S: Scanner>(&self, scanner: &mut S) -> Result<Option<ParsedName<'a>>, OutOfMemory>
        ensures some { IfOk result (λ found. IfSome found (λ name.
            TakesToken (λ word. NameText word name) (S.tokens scanner.old)
            (S.tokens scanner.new))) }
        ensures none { IfOk result (λ found. IfNone found
            (S.tokens scanner.new ≡ S.tokens scanner.old)) }
    {
        let Some(owner) = &self.owner else {
            return Ok(None);
        };
        let Some(word) = scanner.first_token() else {
            return Ok(None);
        };
        if self.word.as_slice() != word.as_bytes() {
            return Ok(None);
        }
        let owner = owner.try_clone()?;
        scanner.skip_token();
        Ok(Some(owner))
    }

    /// Reads a name into the arena. It becomes the last owner.
    fn scan_anew<S: Scanner<Name = ZoneName, Octets = ZoneOctets>>(
        &mut self,
        alloc: Global,
        scanner: &mut S,
    ) -> Result<ParsedName<'a>, LineError>
        ensures ok { IfOk result (λ name. TakesToken (λ word. NameText word name)
            (S.tokens scanner.old) (S.tokens scanner.new)) }
        ensures err { IfErr result (RefusesWords (S.tokens scanner.old)) }
    {
        let Some(word) = scanner.first_token() else {
            return Err(LineError::Owner(ScanError::EndOfEntry));
        };
        self.owner = None;
        put_word(&mut self.word, word)?;
        let name = match scanner.scan_name(alloc) {
            Ok(name) => name,
            Err(error) => return Err(LineError::Owner(error)),
        };
        let owner = store_name(self.arena, &name)?;
        self.owner = Some(owner.try_clone()?);
        Ok(owner)
    }

    /// Returns the owner that the next word spells, stored in the arena.
    pub fn scan_owner<S: Scanner<Name = ZoneName, Octets = ZoneOctets>>(
        &mut self,
        alloc: Global,
        scanner: &mut S,
    ) -> Result<ParsedName<'a>, LineError>
        ensures ok { IfOk result (λ name. TakesToken (λ word. NameText word name)
            (S.tokens scanner.old) (S.tokens scanner.new)) }
        ensures err { IfErr result (RefusesWords (S.tokens scanner.old)) }
    {
        match self.scan_known(scanner)? {
            Some(owner) => Ok(owner),
            None => self.scan_anew(alloc, scanner),
        }
    }
}
