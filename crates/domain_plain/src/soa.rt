//! The SOA type: starts of zones of authority.
ghost use Rattle.std.specs.{Prelude.{◌≡◌, ◌⊎◌, refl, IfOk}, Ordering.{on, nat_cmp}};
ghost use Rattle.std.specs.Cmp.Lexicographic.{slice_cmp, on_texts};
ghost use Rattle.domain_names.specs.Wire.{fault_of};
ghost use Rattle.domain_fields.specs.Layout.{Reads, octets_of, canonical_of};
ghost use Rattle.domain_fields.specs.{Layout.same_values_tie, Scan.{Scans, Refuses}};
ghost use Rattle.domain_base.specs.Scan.{ReadsTokens};
ghost use Rattle.domain_base.specs.Types as rtypes;
ghost use Rattle.domain_plain.specs.Plain.{soa_layout, soa_values, IsSoaWith, soa_text};

use domain_base::{CanonicalOrd, ParsedName, Rtype, ScanError, Scanner, ToName, Ttl};
use domain_fields::{Fields, Form, ReadFields, ScanFields, Scanned};
use domain_octets::{
    AppendError, OctetsBuilder, OctetsFrom, OutOfMemory, ParseError, Parser, TryClone,
};
use domain_record::{CloneRecordData, ComposeRecordData, ParseRecordData, RecordData, both};
use std::alloc::Global;
use std::cmp::Ordering;
use std::fmt;

/// The start of a zone of authority (RFC 1035, section 3.3.13).
#[derive(Debug, Drop)]
pub struct Soa<N> {
    mname: N,
    rname: N,
    serial: u32,
    refresh: Ttl,
    retry: Ttl,
    expire: Ttl,
    minimum: Ttl,
}

/// The serial, refresh, retry, expire and minimum fields.
type SoaNumbers = ((u32, (u32, u32)), (u32, u32));

type SoaFields<'a> = ((ParsedName<'a>, ParsedName<'a>), SoaNumbers);

type ScannedSoa<N> = ((Scanned<N>, Scanned<N>), SoaNumbers);

impl<N> Soa<N> {
    /// Returns the data with these fields.
    pub fn new(
        mname: N,
        rname: N,
        serial: u32,
        refresh: Ttl,
        retry: Ttl,
        expire: Ttl,
        minimum: Ttl,
    ) -> Self
        ensures { result ≡ record {
          mname = mname;
          rname = rname;
          serial = serial;
          refresh = refresh;
          retry = retry;
          expire = expire;
          minimum = minimum;
        } }
    {
        Soa {
            mname,
            rname,
            serial,
            refresh,
            retry,
            expire,
            minimum,
        }
    }

    /// Returns the name of the primary server.
    pub fn mname(&self) -> &N
        ensures { result.now ≡ self.now.mname }
    {
        &self.mname
    }

    /// Returns the mailbox of the person who is responsible for the zone, as a name.
    pub fn rname(&self) -> &N
        ensures { result.now ≡ self.now.rname }
    {
        &self.rname
    }

    /// Returns the serial number: the version of the zone.
    pub fn serial(&self) -> u32
        ensures { result ≡ self.now.serial }
    {
        self.serial
    }

    /// Returns the time that a secondary server waits before it asks for changes.
    pub fn refresh(&self) -> Ttl
        ensures { result ≡ self.now.refresh }
    {
        self.refresh
    }

    /// Returns the time that a secondary server waits before it asks again.
    pub fn retry(&self) -> Ttl
        ensures { result ≡ self.now.retry }
    {
        self.retry
    }

    /// Returns the time that a secondary server may answer without reaching its primary server.
    pub fn expire(&self) -> Ttl
        ensures { result ≡ self.now.expire }
    {
        self.expire
    }

    /// Returns the time for which a negative answer may be cached (RFC 2308, section 4).
    pub fn minimum(&self) -> Ttl
        ensures { result ≡ self.now.minimum }
    {
        self.minimum
    }

    /// Returns the numbers, in the order of the wire.
    fn numbers(&self) -> SoaNumbers
        ensures { result ≡ (
          (self.now.serial, (self.now.refresh, self.now.retry)),
          (self.now.expire, self.now.minimum),
        ) }
    {
        (
            (self.serial, (self.refresh.as_secs(), self.retry.as_secs())),
            (self.expire.as_secs(), self.minimum.as_secs()),
        )
    }

    /// Returns the data with these names and numbers.
    fn of_parts(mname: N, rname: N, numbers: SoaNumbers) -> Self
        ensures { result ≡ record {
          mname = mname;
          rname = rname;
          serial = numbers.0.0;
          refresh = numbers.0.1.0;
          retry = numbers.0.1.1;
          expire = numbers.1.0;
          minimum = numbers.1.1;
        } }
    {
        let ((serial, (refresh, retry)), (expire, minimum)) = numbers;
        Soa {
            mname,
            rname,
            serial,
            refresh: Ttl::from_secs(refresh),
            retry: Ttl::from_secs(retry),
            expire: Ttl::from_secs(expire),
            minimum: Ttl::from_secs(minimum),
        }
    }

    /// Returns a copy. Returns `OutOfMemory` if there is no memory for it.
    pub fn clone(&self) -> Result<Self, OutOfMemory>
    where
        N: TryClone + Drop,
        ensures { IfOk result (IsSoaWith N.is_clone self.now) }
    {
        let mname = self.mname.try_clone()?;
        let rname = self.rname.try_clone()?;
        Ok(Soa::of_parts(mname, rname, self.numbers()))
    }
}

impl<N: TryClone + Drop> TryClone for Soa<N> {
    ghost is_clone = { IsSoaWith N.is_clone };

    fn try_clone(&self) -> Result<Self, OutOfMemory> {
        self.clone()
    }
}

impl<N: ToName + Drop> CloneRecordData for Soa<N> {
    ghost clone_rtype = { λ d copy same. refl };

    ghost clone_canonical = { λ d copy same. same_values_tie soa_layout (soa_values N.labels) d copy
        (λ i. (
          (
            N.clone_labels d.mname copy.mname same.mname i,
            N.clone_labels d.rname copy.rname same.rname i,
          ),
          ((same.serial i, (same.refresh i, same.retry i)), (same.expire i, same.minimum i)),
        )) };
}

impl<M, N: OctetsFrom<M> + Drop> OctetsFrom<Soa<M>> for Soa<N> {
    ghost is_same = { IsSoaWith N.is_same };

    ghost has_no_room = { λ source. N.has_no_room source.mname ⊎ N.has_no_room source.rname };

    ghost takes_memory = { N.takes_memory };

    fn try_octets_from(alloc: Global, source: Soa<M>) -> Result<Self, AppendError> {
        let numbers = source.numbers();
        let (mname, rname) = both(
            N::try_octets_from(alloc, source.mname),
            N::try_octets_from(alloc, source.rname),
        )?;
        Ok(Soa::of_parts(mname, rname, numbers))
    }
}

impl<N: ToName> Soa<N> {
    /// Parses two names and five decimal numbers from the front of the tokens. After an error, a
    /// suffix of the tokens is left.
    pub fn scan<S: Scanner<Name = N>>(alloc: Global, scanner: &mut S) -> Result<Self, ScanError>
    where
        N: Drop,
        ensures { ReadsTokens (Scans soa_layout) (soa_values N.labels)
            (Refuses S.Octets.Builder.limit soa_layout)
            (S.tokens scanner.old) (S.tokens scanner.new) result }
    {
        let ((Scanned(mname), Scanned(rname)), numbers) = <ScannedSoa<N> as ScanFields<S>>::scan(
            alloc, scanner,
        )?;
        Ok(Soa::of_parts(mname, rname, numbers))
    }

    /// Returns the fields, in the order of the wire.
    pub(crate) fn fields(&self) -> SoaFields<'_>
        ensures names { (result.0.0 ≡ N.labels self.now.mname)
            × (result.0.1 ≡ N.labels self.now.rname) }
        ensures numbers { result.1 ≡ (
          (self.now.serial, (self.now.refresh, self.now.retry)),
          (self.now.expire, self.now.minimum),
        ) }
    {
        (
            (self.mname.as_parsed(), self.rname.as_parsed()),
            self.numbers(),
        )
    }
}

impl<'a> Soa<ParsedName<'a>> {
    /// Reads two names and five numbers of four octets from the front of the octets, and leaves the
    /// octets after them.
    ///
    /// # Errors
    ///
    /// The first fault in field order. For a name, the first label with a fault decides:
    /// `ShortInput` if an octet is missing, `Form("compressed or bad label")` at a length over 63
    /// or a pointer, and `Form("long domain name")` at more than 255 octets. For a number, it is
    /// `ShortInput` if an octet is missing. After an error the parser is unchanged.
    pub fn parse(parser: &mut Parser<'a>) -> Result<Self, ParseError>
        ensures { Reads soa_layout (soa_values (λ name. name)) fault_of parser.old
            parser.new result }
    {
        let ((mname, rname), numbers) = SoaFields::read(parser)?;
        Ok(Soa::of_parts(mname, rname, numbers))
    }
}

impl<'a> ParseRecordData<'a> for Soa<ParsedName<'a>> {
    ghost is_read = { λ rtype. rtype ≡ rtypes.soa };

    ghost layout = { soa_layout };

    ghost values = { soa_values (λ name. name) };

    fn parse_rdata(rtype: Rtype, parser: &mut Parser<'a>) -> Result<Option<Self>, ParseError> {
        if rtype != Rtype::SOA {
            return Ok(None);
        }
        Ok(Some(Self::parse(parser)?))
    }
}

impl<N: ToName> RecordData for Soa<N> {
    ghost rtype = { λ _. rtypes.soa };

    fn rtype(&self) -> Rtype {
        Rtype::SOA
    }
}

impl<N: ToName> ComposeRecordData for Soa<N> {
    ghost octets = { λ d. octets_of soa_layout (soa_values N.labels d) };

    ghost canonical = { λ d. canonical_of soa_layout (soa_values N.labels d) };

    fn room_after(&self, limit: usize) -> Option<usize> {
        self.fields().room_after(limit)
    }

    fn compose_in<B: OctetsBuilder>(&self, form: Form, target: &mut B) -> Result<(), AppendError> {
        self.fields().put(form, target)
    }

    fn canonical_cmp_octets(&self, other: &[u8]) -> Ordering {
        domain_fields::canonical_cmp_octets(&self.fields(), other)
    }
}

impl<N: ToName> CanonicalOrd for Soa<N> {
    ghost canonical_cmp = { on (λ d. canonical_of soa_layout (soa_values N.labels d))
        (slice_cmp nat_cmp) };

    ghost total = { on_texts (λ d. canonical_of soa_layout (soa_values N.labels d)) };

    fn canonical_cmp(&self, other: &Self) -> Ordering {
        self.fields().order(&other.fields())
    }
}

/// Writes the two names with their last dots, and the numbers, with single spaces between them.
impl<N: ToName> fmt::Display for Soa<N> {
    ghost output = { soa_text N.labels };

    fn fmt<W: fmt::Write>(&self, f: &mut fmt::Formatter<W>) -> fmt::Result {
        write!(
            f,
            "{} {} {} {} {} {} {}",
            self.mname.fmt_with_dot(),
            self.rname.fmt_with_dot(),
            self.serial,
            self.refresh,
            self.retry,
            self.expire,
            self.minimum
        )
    }
}
