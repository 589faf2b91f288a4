//! The A type: IPv4 addresses of hosts.
ghost use Rattle.std.specs.Prelude.{◌≡◌, refl, IfOk, IsOk, Some};
ghost use Rattle.std.specs.{Net.{Addr.ipv4_octets, Text.ipv4_text}, Ordering.{on, nat_cmp}};
ghost use Rattle.std.specs.Cmp.Lexicographic.{slice_cmp, on_texts};
ghost use Rattle.domain_names.specs.Wire.{fault_of};
ghost use Rattle.domain_fields.specs.Layout.{Reads, octets_of, canonical_of};
ghost use Rattle.domain_fields.specs.{Layout.same_values_tie, Scan.{Scans, Refuses}};
ghost use Rattle.domain_base.specs.Scan.{ReadsTokens};
ghost use Rattle.domain_base.specs.Types as rtypes;
ghost use Rattle.domain_plain.specs.Plain.{a_layout, a_values};

use domain_base::{CanonicalOrd, Rtype, ScanError, Scanner};
use domain_fields::{Address, Exactly, Fields, Form, ReadFields, ScanFields};
use domain_octets::{
    AppendError, OctetsBuilder, OctetsFrom, OutOfMemory, ParseError, Parser, TryClone,
};
use domain_record::{CloneRecordData, ComposeRecordData, ParseRecordData, RecordData};
use std::alloc::Global;
use std::cmp::Ordering;
use std::fmt;
use std::net::Ipv4Addr;

/// The IPv4 address of a host (RFC 1035, section 3.4.1).
#[derive(Clone, Copy, Debug, PartialEq, Eq)]
pub struct A {
    addr: Ipv4Addr,
}

impl A {
    /// Returns the data with this address.
    pub fn new(addr: Ipv4Addr) -> Self
        ensures { result ≡ record { addr = addr } }
    {
        A { addr }
    }

    /// Reads an address from the front of the octets, and leaves the octets after it.
    ///
    /// # Errors
    ///
    /// `ShortInput` if fewer than four octets are left. The parser is then unchanged.
    pub fn parse<'a>(parser: &mut Parser<'a>) -> Result<Self, ParseError>
        ensures { Reads a_layout a_values fault_of parser.old parser.new result }
    {
        let Exactly(octets) = Exactly::<4>::read(parser)?;
        Ok(A::new(Ipv4Addr::from(octets)))
    }

    /// Parses an address from the front of the tokens. After an error, a suffix of the tokens is
    /// left.
    pub fn scan<S: Scanner>(alloc: Global, scanner: &mut S) -> Result<Self, ScanError>
        ensures { ReadsTokens (Scans a_layout) a_values (Refuses S.Octets.Builder.limit a_layout)
            (S.tokens scanner.old) (S.tokens scanner.new) result }
    {
        let Address(addr) = <Address as ScanFields<S>>::scan(alloc, scanner)?;
        Ok(A { addr })
    }

    /// Returns the address.
    pub fn addr(&self) -> Ipv4Addr
        ensures { result ≡ self.now.addr }
    {
        self.addr
    }

    /// Returns the fields, in the order of the wire.
    pub(crate) fn fields(&self) -> Exactly<4>
        ensures { result.0 ≡ ipv4_octets self.now.addr }
    {
        Exactly(self.addr.octets())
    }
}

impl TryClone for A {
    ghost is_clone = { λ d copy. copy.addr ≡ d.addr };

    /// Returns a copy. Does not allocate.
    fn try_clone(&self) -> Result<Self, OutOfMemory>
        ensures copy { IfOk result (λ copy. copy.addr ≡ self.now.addr) }
        ensures always { IsOk result }
    {
        Ok(*self)
    }
}

impl CloneRecordData for A {
    ghost clone_rtype = { λ d copy same. refl };

    ghost clone_canonical = { λ d copy same.
        same_values_tie a_layout a_values d copy (λ i. ipv4_octets (same i)) };
}

impl OctetsFrom<A> for A {
    ghost is_same = { λ source made. made ≡ source };

    ghost has_no_room = { λ _. ⊥ };

    ghost takes_memory = { ⊥ };

    fn try_octets_from(_alloc: Global, source: A) -> Result<Self, AppendError> {
        Ok(source)
    }
}

impl RecordData for A {
    ghost rtype = { λ _. rtypes.a };

    fn rtype(&self) -> Rtype {
        Rtype::A
    }
}

impl<'a> ParseRecordData<'a> for A {
    ghost is_read = { λ rtype. rtype ≡ rtypes.a };

    ghost layout = { a_layout };

    ghost values = { a_values };

    fn parse_rdata(rtype: Rtype, parser: &mut Parser<'a>) -> Result<Option<Self>, ParseError> {
        if rtype != Rtype::A {
            return Ok(None);
        }
        Ok(Some(A::parse(parser)?))
    }
}

impl ComposeRecordData for A {
    ghost octets = { λ d. octets_of a_layout (a_values d) };

    ghost canonical = { λ d. canonical_of a_layout (a_values d) };

    fn room_after(&self, limit: usize) -> Option<usize> {
        self.fields().room_after(limit)
    }

    fn compose_in<B: OctetsBuilder>(&self, form: Form, target: &mut B) -> Result<(), AppendError> {
        self.fields().put(form, target)
    }

    fn canonical_cmp_octets(&self, other: &[u8]) -> Ordering {
        domain_fields::canonical_cmp_octets(&self.fields(), other)
    }
}

impl CanonicalOrd for A {
    ghost canonical_cmp = { on (λ d. canonical_of a_layout (a_values d)) (slice_cmp nat_cmp) };

    ghost total = { on_texts (λ d. canonical_of a_layout (a_values d)) };

    fn canonical_cmp(&self, other: &Self) -> Ordering {
        self.fields().order(&other.fields())
    }
}

/// Writes the address as four decimal numbers with dots between them.
impl fmt::Display for A {
    ghost output = { λ d. Some (ipv4_text (ipv4_octets d.addr)) };

    fn fmt<W: fmt::Write>(&self, f: &mut fmt::Formatter<W>) -> fmt::Result {
        write!(f, "{}", self.addr)
    }
}
