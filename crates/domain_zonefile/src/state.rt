//! What a zone file says so far, and the records that its entries are.
ghost use Rattle.std.specs.Prelude.{◌≡◌, ◌≤◌, ◌+◌, drop, length, map, Some, None, IfOk, IfErr, OnErr, unwrap_or};
ghost use Rattle.std.specs.Option.{option_or};
ghost use Rattle.domain_types.specs.Reading.{token_text};
ghost use Rattle.domain_zonefile.specs.Records.{included_state, start_state, state_after_file};
ghost use Rattle.domain_zonefile.specs.Records.{counted_ttl, soa_minimum, ttl_of, default_after};
ghost use Rattle.domain_zonefile.specs.Records.{owner_count, FirstName, FirstNameFault, HasOwner, OwnerFault, ReadsBody, FieldsFault, ReadsRecord, RecordFault};

use crate::Token;
use crate::body::{Body, read_body};
use crate::fault::{EntryFault, EntryFaultKind, fault};
use domain_base::{Name, ParsedName, Rtype, ToName};
use domain_octets::{OctetsFrom, OutOfMemory, SmallOctets, TryClone};
use domain_types::{NameTokenError, read_name};
use std::alloc::Global;
use std::marker::Model;

/// The first TTL that counts as 0 (RFC 2181, section 8).
const LARGE_TTL: u32 = 1 << 31;

/// What a zone file says so far: its origin, and what an entry takes that leaves a field out (RFC
/// 1035, section 5.1; RFC 2308, section 4).
#[derive(Drop)]
pub struct ZoneState {
    origin: Name<SmallOctets>,
    owner: Option<Name<SmallOctets>>,
    default_ttl: Option<u32>,
    last_ttl: Option<u32>,
    last_class: u16,
}

impl Model for ZoneState {
    ghost use Rattle.domain_zonefile.specs.Records.{State};

    ghost Value = { State };

    ghost view = { λ s. record {
      origin = s.origin;
      owner = s.owner;
      default_ttl = s.default_ttl;
      last_ttl = s.last_ttl;
      last_class = s.last_class;
    } };
}

/// The fields of a record that are numbers. Its owner is that of the state, and its data are
/// octets.
#[derive(Clone, Copy, Debug, PartialEq, Eq)]
pub struct RecordFields {
    /// The number of the class.
    pub class: u16,
    /// The TTL in seconds.
    pub ttl: u32,
    /// The type.
    pub rtype: Rtype,
}

/// Returns a TTL as it counts.
fn counted_ttl(ttl: u32) -> u32
    ensures { result ≡ counted_ttl ttl }
{
    if ttl < LARGE_TTL { ttl } else { 0 }
}

/// Returns the MINIMUM field, if these are data of an SOA.
fn soa_minimum(rtype: Rtype, octets: &[u8]) -> Option<u32>
    ensures { result ≡ soa_minimum rtype octets.now }
{
    if rtype != Rtype::SOA {
        return None;
    }
    match octets {
        [.., a, b, c, d] => Some(u32::from_be_bytes([*a, *b, *c, *d])),
        _ => None,
    }
}

/// Returns the name that the first token spells.
pub(crate) fn first_name(
    alloc: Global,
    tokens: &[Token<'_>],
    origin: &ParsedName<'_>,
) -> Result<Name<SmallOctets>, EntryFaultKind>
    ensures ok { IfOk result (λ name. FirstName origin.now (map token_text tokens.now) name) }
    ensures err { IfErr result (FirstNameFault origin.now (map token_text tokens.now)) }
{
    let Some(token) = tokens.first() else {
        return Err(EntryFaultKind::NotName);
    };
    match read_name(alloc, token, origin) {
        Ok(name) => Ok(name),
        Err(NameTokenError::NoName) => Err(EntryFaultKind::NotName),
        Err(NameTokenError::OutOfMemory) => Err(EntryFaultKind::OutOfMemory),
    }
}

/// Returns the number of tokens that are an owner: an indented entry leaves it out.
fn owner_count(is_indented: bool) -> usize
    ensures { result ≡ owner_count is_indented }
{
    if is_indented { 0 } else { 1 }
}

/// Returns the tokens after the owner.
fn after_owner<'t, 'a>(is_indented: bool, tokens: &'t [Token<'a>]) -> &'t [Token<'a>]
    ensures { map token_text result.now
        ≡ drop (owner_count is_indented) (map token_text tokens.now) }
{
    match tokens {
        [_, rest @ ..] if !is_indented => rest,
        _ => tokens,
    }
}

impl ZoneState {
    /// Returns what is known before the first entry. The class is IN.
    pub fn new(alloc: Global, origin: &ParsedName<'_>) -> Result<Self, OutOfMemory>
        ensures { IfOk result (λ state. state ≡ start_state origin.now) }
    {
        let Ok(origin) = Name::try_octets_from(alloc, origin.as_parsed()) else {
            return Err(OutOfMemory);
        };
        Ok(ZoneState {
            origin,
            owner: None,
            default_ttl: None,
            last_ttl: None,
            last_class: 1,
        })
    }

    /// Returns the origin.
    pub fn origin(&self) -> ParsedName<'_>
        ensures { result ≡ self.now.origin }
    {
        self.origin.as_parsed()
    }

    /// Returns the owner of the last record.
    pub fn owner(&self) -> Option<ParsedName<'_>>
        ensures { result ≡ self.now.owner }
    {
        match &self.owner {
            Some(owner) => Some(owner.as_parsed()),
            None => None,
        }
    }

    /// Returns what is known before the first entry of an included file with this origin. The rest
    /// is as this file says (RFC 1035, section 5.1).
    ///
    /// # Errors
    ///
    /// `OutOfMemory` if there is no memory for the last owner.
    pub fn included(&self, alloc: Global, origin: Name<SmallOctets>) -> Result<Self, OutOfMemory>
        ensures { IfOk result (λ state. state ≡ included_state self.now origin) }
    {
        let owner = match self.owner() {
            None => None,
            Some(owner) => match Name::try_octets_from(alloc, owner) {
                Ok(owner) => Some(owner),
                Err(_) => return Err(OutOfMemory),
            },
        };
        Ok(ZoneState {
            origin,
            owner,
            default_ttl: self.default_ttl,
            last_ttl: self.last_ttl,
            last_class: self.last_class,
        })
    }

    /// Goes on after an included file that ends so: origin and owner stay. The default TTL, the
    /// last TTL and the last class are those of its end (RFC 2308, section 4).
    pub fn go_on(&mut self, end: &ZoneState)
        ensures { self.new ≡ state_after_file self.old end.now }
    {
        self.default_ttl = end.default_ttl;
        self.last_ttl = end.last_ttl;
        self.last_class = end.last_class;
    }

    /// Changes the origin.
    pub(crate) fn set_origin(&mut self, origin: Name<SmallOctets>)
        ensures { self.new ≡ record {
          origin = origin;
          owner = self.old.owner;
          default_ttl = self.old.default_ttl;
          last_ttl = self.old.last_ttl;
          last_class = self.old.last_class;
        } }
    {
        self.origin = origin;
    }

    /// Changes the default TTL.
    pub(crate) fn set_default_ttl(&mut self, ttl: u32)
        ensures { self.new ≡ record {
          origin = self.old.origin;
          owner = self.old.owner;
          default_ttl = Some ttl;
          last_ttl = self.old.last_ttl;
          last_class = self.old.last_class;
        } }
    {
        self.default_ttl = Some(ttl);
    }

    /// Returns the owner that the first token spells, and None for an indented entry.
    fn owner_of(
        &self,
        alloc: Global,
        is_indented: bool,
        tokens: &[Token<'_>],
    ) -> Result<Option<Name<SmallOctets>>, EntryFaultKind>
        ensures ok { IfOk result (HasOwner self.now is_indented (map token_text tokens.now)) }
        ensures err { IfErr result (OwnerFault self.now is_indented (map token_text tokens.now)) }
    {
        if !is_indented {
            return match first_name(alloc, tokens, &self.origin.as_parsed()) {
                Ok(name) => Ok(Some(name)),
                Err(kind) => Err(kind),
            };
        }
        if self.owner.is_none() {
            return Err(EntryFaultKind::NoOwner);
        }
        Ok(None)
    }

    /// Notes a record, and returns its fields.
    fn note(&mut self, own: Option<Name<SmallOctets>>, body: Body, ttl: u32) -> RecordFields
        ensures fields { result ≡ record {
          class = unwrap_or body.class self.old.last_class;
          ttl = ttl;
          rtype = body.rtype;
        } }
        ensures after { self.new ≡ record {
          origin = self.old.origin;
          owner = option_or own self.old.owner;
          default_ttl = default_after self.old body.ttl ttl;
          last_ttl = Some ttl;
          last_class = unwrap_or body.class self.old.last_class;
        } }
    {
        let class = body.class.unwrap_or(self.last_class);
        self.default_ttl = self.default_after(body.ttl, ttl);
        self.last_ttl = Some(ttl);
        self.last_class = class;
        if let Some(owner) = own {
            self.owner = Some(owner);
        }
        RecordFields {
            class,
            ttl,
            rtype: body.rtype,
        }
    }

    /// Returns the TTL of a record with these data.
    fn ttl_of(&self, own: Option<u32>, rtype: Rtype, octets: &[u8]) -> Option<u32>
        ensures { result ≡ ttl_of self.now own rtype octets.now }
    {
        let known = own.or(self.default_ttl).or(self.last_ttl);
        let ttl = known.or(soa_minimum(rtype, octets))?;
        Some(counted_ttl(ttl))
    }

    /// Returns the default TTL after a record.
    fn default_after(&self, own: Option<u32>, ttl: u32) -> Option<u32>
        ensures { result ≡ default_after self.now own ttl }
    {
        let known = own.or(self.default_ttl).or(self.last_ttl);
        if known.is_none() {
            Some(ttl)
        } else {
            self.default_ttl
        }
    }

    /// Reads what follows the owner, and returns its fields with the TTL of the record. Appends the
    /// octets of its data, or leaves `data` as it was.
    fn read_fields(
        &self,
        alloc: Global,
        tokens: &[Token<'_>],
        data: &mut Vec<u8>,
    ) -> Result<(Body, u32), EntryFault>
        ensures ok { IfOk result (λ p. ReadsBody self.now (map token_text tokens.now) p.0 p.1
            «data».old.items «data».new.items) }
        ensures err { IfErr result (λ e.
            FieldsFault self.now (map token_text tokens.now) e.token e.kind) }
        ensures place { IfErr result (λ e. e.token ≤ length tokens.now + 2) }
        ensures same { OnErr result («data».new.items ≡ «data».old.items) }
    {
        let start = data.len();
        let body = match read_body(alloc, tokens, &self.origin(), data) {
            Ok(body) => body,
            Err(fault) => return Err(fault),
        };
        match self.ttl_of(body.ttl, body.rtype, &data[start..]) {
            Some(ttl) => Ok((body, ttl)),
            None => {
                data.truncate(start);
                Err(fault(0, EntryFaultKind::NoTtl))
            }
        }
    }

    /// Reads the tokens of an entry as a record, and appends the octets of its data. An indented
    /// entry has the last owner. The owner is then that of this record.
    ///
    /// # Errors
    ///
    /// The first fault. The state and `data` are then as they were.
    pub fn read_record(
        &mut self,
        alloc: Global,
        is_indented: bool,
        tokens: &[Token<'_>],
        data: &mut Vec<u8>,
    ) -> Result<RecordFields, EntryFault>
        ensures ok { IfOk result (λ fields. ReadsRecord self.old is_indented
            (map token_text tokens.now) fields «data».old.items «data».new.items self.new) }
        ensures err { IfErr result (λ e. RecordFault self.old is_indented
            (map token_text tokens.now) e.token e.kind) }
        ensures same { OnErr result ((self.new ≡ self.old)
            × («data».new.items ≡ «data».old.items)) }
    {
        let own = match self.owner_of(alloc, is_indented, tokens) {
            Ok(own) => own,
            Err(kind) => return Err(fault(0, kind)),
        };
        match self.read_fields(alloc, after_owner(is_indented, tokens), data) {
            Ok((body, ttl)) => Ok(self.note(own, body, ttl)),
            Err(e) => Err(fault(owner_count(is_indented) + e.token, e.kind)),
        }
    }
}
