//! Records of borrowed octets (RFC 1035, section 4.1.3), and their data, also as data of chains.
ghost use Rattle.std.specs.Prelude.{◌≡◌, ◌==◌, ◌&&◌, ◌≤◌, ◌++◌, ℕ, Bool, IfNone, IfSome, length};
ghost use Rattle.domain_octets.specs.Octets.{Octets};
ghost use Rattle.domain_base.specs.Types as rtypes;
ghost use Rattle.domain_names.specs.Name.{same_name, Name};
ghost use Rattle.domain_fields.specs.Layout.{Appends};
ghost use Rattle.domain_nsec.specs.Chain.{Link, as_link};
ghost use Rattle.domain_nsec3.specs.Chain.{HashedLink, ParamRecord};
ghost use Rattle.domain_nsec3.specs.View.{as_hashed_link, as_param_record};
ghost use Rattle.domain_borrowed.specs.Data.{last_long, RawRecord, nsec_record, nsec3_record, param_record};
ghost use Rattle.domain_borrowed.specs.Data.{IsNsec, IsNsec3, IsParam, raw_record_with, raw_record_of};
ghost use Rattle.domain_borrowed.specs.Data.{raw_record_octets, IsRecord};

use domain_base::{CanonicalOrd, Class, ParsedName, Rtype, ToName, Ttl};
use domain_chain_rdata::{Nsec, Nsec3, Nsec3param};
use domain_fields::{Fields, Form, ReadFields};
use domain_octets::{AppendError, OctetsBuilder, OutOfMemory, Parser, TryClone};
use domain_record::{ComposeRecordData, Record, RecordData, ZoneData};
use std::cmp::Ordering;
use std::marker::Model;

/// Returns the last four octets as a number, or `None` if there are fewer.
fn last_long(octets: &[u8]) -> Option<Ttl>
    ensures { result ≡ last_long octets.now }
{
    match octets {
        [.., a, b, c, d] => Some(Ttl::from_secs(u32::from_be_bytes([*a, *b, *c, *d]))),
        _ => None,
    }
}

/// Data of any type, as octets borrowed from a message or an arena.
#[derive(Drop)]
pub struct BorrowedData<'a> {
    rtype: Rtype,
    octets: &'a [u8],
}

impl<'a> Model for BorrowedData<'a> {
    ghost use Rattle.domain_borrowed.specs.Data.{RawData};

    ghost Value = { RawData };

    ghost view = { λ d. record { rtype = d.rtype; octets = d.octets.now } };
}

impl<'a> BorrowedData<'a> {
    /// Returns data of a type with these octets.
    pub fn new(rtype: Rtype, octets: &'a [u8]) -> Self
        ensures { result ≡ record { rtype = rtype; octets = octets.now } }
    {
        BorrowedData { rtype, octets }
    }

    /// Returns the octets of the data.
    pub fn octets(&self) -> &'a [u8]
        ensures { result.now ≡ self.now.octets }
    {
        self.octets
    }
}

// A copy borrows the same octets.
impl<'a> TryClone for BorrowedData<'a> {
    ghost is_clone = { λ d copy. copy ≡ d };

    fn try_clone(&self) -> Result<Self, OutOfMemory> {
        Ok(BorrowedData {
            rtype: self.rtype,
            octets: self.octets,
        })
    }
}

impl<'a> RecordData for BorrowedData<'a> {
    ghost rtype = { λ d. d.rtype };

    fn rtype(&self) -> Rtype {
        self.rtype
    }
}

// The MINIMUM is the last field of an SOA, in its last four octets.
impl<'a> ZoneData for BorrowedData<'a> {
    ghost use Rattle.domain_borrowed.specs.Data.{raw_minimum};

    ghost minimum = { raw_minimum };

    fn soa_minimum(&self) -> Option<Ttl> {
        if self.rtype != Rtype::SOA {
            return None;
        }
        last_long(self.octets)
    }
}

// By the number of the type, and then by octets: the canonical order, if data are in canonical
// form.
impl<'a> CanonicalOrd for BorrowedData<'a> {
    ghost use Rattle.domain_borrowed.specs.Data.{raw_cmp, raw_cmp_total};

    ghost canonical_cmp = { raw_cmp };

    ghost total = { raw_cmp_total };

    fn canonical_cmp(&self, other: &Self) -> Ordering {
        match self.rtype.cmp(&other.rtype) {
            Ordering::Equal => self.octets.cmp(other.octets),
            order => order,
        }
    }
}

/// A record of borrowed octets, with its data not parsed.
pub type BorrowedRecord<'a> = Record<ParsedName<'a>, BorrowedData<'a>>;

/// An NSEC record of borrowed octets.
pub type ReadNsec<'a> = Record<ParsedName<'a>, Nsec<&'a [u8], ParsedName<'a>>>;

/// An NSEC3 record of borrowed octets.
pub type ReadNsec3<'a> = Record<ParsedName<'a>, Nsec3<&'a [u8]>>;

/// An NSEC3PARAM record of borrowed octets.
pub type ReadNsec3param<'a> = Record<ParsedName<'a>, Nsec3param<&'a [u8]>>;

/// A record of a chain of borrowed octets, with its data parsed.
pub trait ReadAs<'a>: Drop {
    /// The values of such records, as contracts see them.
    ghost Said: { Type 0 };

    /// The value of this record.
    ghost said: { Self → Said };

    /// The record with this value.
    ghost raw: { Said → RawRecord };

    /// The parts of this value fit their fields.
    ghost IsFit: { Said → Type 0 };

    /// Whether a record counts for an apex.
    ghost counts: { Name → RawRecord → Bool };

    /// Returns whether a record is of the type and, if such records describe only the apex, is at
    /// the apex.
    fn counts<N: ToName>(borrowed: &BorrowedRecord<'a>, apex: &N) -> bool
        ensures { result ≡ counts (N.labels apex.now) borrowed.now };

    /// Returns the record with its data parsed. Returns `None` if it is of another type, or its
    /// octets are not such data, or continue after them.
    fn read(borrowed: BorrowedRecord<'a>) -> Option<Self>
    where
        Self: Sized,
        ensures some { IfSome result (λ r. (borrowed.entry ≡ raw (said r)) × IsFit (said r)) }
        ensures none { IfNone result ((k : Said) → borrowed.entry ≡ raw k → IsFit k → ⊥) };
}

/// NSEC data (RFC 4034, section 4.1).
impl<'a> ReadAs<'a> for ReadNsec<'a> {
    ghost Said = { Link };

    ghost said = { as_link (λ n. n) };

    ghost raw = { nsec_record };

    ghost IsFit = { IsNsec };

    ghost counts = { λ _ r. r.«data».rtype == rtypes.nsec };

    fn counts<N: ToName>(borrowed: &BorrowedRecord<'a>, _apex: &N) -> bool {
        borrowed.rtype() == Rtype::NSEC
    }

    #[tactic(auto, using(crate::proofs::DataLemmas::no_nsec))]
    fn read(borrowed: BorrowedRecord<'a>) -> Option<Self> {
        let (owner, class, ttl, data) = borrowed.into_parts();
        if data.rtype() != Rtype::NSEC {
            return None;
        }
        let mut parser = Parser::new(data.octets());
        match Nsec::parse(&mut parser) {
            Ok(nsec) => Some(Record::new(owner, class, ttl, nsec)),
            Err(_) => None,
        }
    }
}

/// NSEC3 data (RFC 5155, section 3.2).
impl<'a> ReadAs<'a> for ReadNsec3<'a> {
    ghost Said = { HashedLink };

    ghost said = { as_hashed_link (λ n. n) };

    ghost raw = { nsec3_record };

    ghost IsFit = { IsNsec3 };

    ghost counts = { λ _ r. r.«data».rtype == rtypes.nsec3 };

    fn counts<N: ToName>(borrowed: &BorrowedRecord<'a>, _apex: &N) -> bool {
        borrowed.rtype() == Rtype::NSEC3
    }

    #[tactic(auto, using(crate::proofs::DataLemmas::no_nsec3))]
    fn read(borrowed: BorrowedRecord<'a>) -> Option<Self> {
        let (owner, class, ttl, data) = borrowed.into_parts();
        if data.rtype() != Rtype::NSEC3 {
            return None;
        }
        let mut parser = Parser::new(data.octets());
        match Nsec3::parse(&mut parser) {
            Ok(nsec3) => Some(Record::new(owner, class, ttl, nsec3)),
            Err(_) => None,
        }
    }
}

/// NSEC3PARAM data (RFC 5155, section 4.2), which describe only the apex.
impl<'a> ReadAs<'a> for ReadNsec3param<'a> {
    ghost Said = { ParamRecord };

    ghost said = { as_param_record (λ n. n) };

    ghost raw = { param_record };

    ghost IsFit = { IsParam };

    ghost counts = { λ a r. (r.«data».rtype == rtypes.nsec3param) && same_name r.owner a };

    fn counts<N: ToName>(borrowed: &BorrowedRecord<'a>, apex: &N) -> bool {
        (borrowed.rtype() == Rtype::NSEC3PARAM) & borrowed.owner().name_eq(apex)
    }

    #[tactic(auto, using(crate::proofs::DataLemmas::no_whole_param, crate::proofs::DataLemmas::no_param))]
    fn read(borrowed: BorrowedRecord<'a>) -> Option<Self> {
        let (owner, class, ttl, data) = borrowed.into_parts();
        if data.rtype() != Rtype::NSEC3PARAM {
            return None;
        }
        let mut parser = Parser::new(data.octets());
        let Ok(param) = Nsec3param::parse(&mut parser) else {
            return None;
        };
        if parser.remaining() > 0 {
            return None;
        }
        Some(Record::new(owner, class, ttl, param))
    }
}

/// Owner, type, class, TTL and the length of the data.
type Header<'a> = (ParsedName<'a>, (u16, (u16, (u32, u16))));

/// Reads the next record, without compression. Returns `None` if the octets that are left do not
/// begin with a record; some of them may then have been read. Takes no memory.
pub fn read_record<'a>(parser: &mut Parser<'a>) -> Option<BorrowedRecord<'a>>
    ensures some { IfSome result (λ r. (parser.old.left ≡ raw_record_octets r ++ parser.new.left)
        × IsRecord r) }
    ensures none { IfNone result ((r : RawRecord) (after : Octets) → IsRecord r
        → parser.old.left ≡ raw_record_octets r ++ after → ⊥) }
{
    let Ok(header) = Header::<'a>::read(parser) else {
        return None;
    };
    let (owner, (rtype, (class, (ttl, count)))) = header;
    let Ok(octets) = parser.parse_octets(usize::from(count)) else {
        return None;
    };
    let (class, ttl) = (Class::from_int(class), Ttl::from_secs(ttl));
    let data = BorrowedData::new(Rtype::from_int(rtype), octets);
    Some(Record::new(owner, class, ttl, data))
}

/// Appends a record of these parts as a message has it, without compression (RFC 1035, sections
/// 3.2.1 and 4.1.3): owner, type, class, TTL, length of the data, data. The data must have at most
/// 65,535 octets, which `fits_rdlen` checks. By `laws::octets_begin_with_one_record` the octets are
/// read as this record and no other.
///
/// # Errors
///
/// `ShortBuf` if and only if the octets would exceed the limit of the builder, and `OutOfMemory` if
/// there is no memory. Both keep the previous octets, and may leave a prefix of the new ones after
/// them.
#[tactic(auto, using(domain_fields::proofs::LayoutLemmas::appends_more))]
pub fn compose_parts<N: ToName, D: ComposeRecordData, B: OctetsBuilder>(
    owner: &N,
    class: Class,
    ttl: Ttl,
    data: &D,
    target: &mut B,
) -> Result<(), AppendError>
    requires { length (D.octets «data».now) ≤ 65535 }
    ensures appends { Appends B.limit result (B.octets target.old) (B.octets target.new)
        (raw_record_octets (raw_record_with N.labels D.rtype D.octets owner.now class ttl
        «data».now)) }
    ensures fits { IsRecord (raw_record_with N.labels D.rtype D.octets owner.now class ttl
        «data».now) }
{
    let Some(count) = data.rdlen(false) else {
        unreachable!();
    };
    let numbers = (class.to_int(), (ttl.as_secs(), count));
    let header: Header<'_> = (owner.as_parsed(), (data.rtype().to_int(), numbers));
    header.fits();
    header.put(Form::Wire, target)?;
    data.compose_rdata(target)
}

/// Appends the record as a message has it, like `compose_parts`.
///
/// # Errors
///
/// Those of `compose_parts`.
pub fn compose_record<N: ToName, D: ComposeRecordData, B: OctetsBuilder>(
    source: &Record<N, D>,
    target: &mut B,
) -> Result<(), AppendError>
    requires { length (D.octets source.now.«data») ≤ 65535 }
    ensures appends { Appends B.limit result (B.octets target.old) (B.octets target.new)
        (raw_record_octets (raw_record_of N.labels D.rtype D.octets source.now)) }
    ensures fits { IsRecord (raw_record_of N.labels D.rtype D.octets source.now) }
{
    let (class, ttl) = (source.class(), source.ttl());
    compose_parts(source.owner(), class, ttl, source.data(), target)
}
