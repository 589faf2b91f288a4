//! The NS type: name servers.
ghost use Rattle.std.specs.Prelude.{◌≡◌, ◌++◌, refl, IfOk, Some, codes};
ghost use Rattle.std.specs.{Ordering.{on, nat_cmp}, Cmp.Lexicographic.{slice_cmp, on_texts}};
ghost use Rattle.domain_names.specs.{Text.name_text, Wire.fault_of};
ghost use Rattle.domain_fields.specs.Layout.{Reads, octets_of, canonical_of};
ghost use Rattle.domain_fields.specs.{Layout.same_values_tie, Scan.{Scans, Refuses}};
ghost use Rattle.domain_base.specs.Scan.{ReadsTokens};
ghost use Rattle.domain_base.specs.Types as rtypes;
ghost use Rattle.domain_plain.specs.Plain.{ns_layout, ns_values};

use domain_base::{CanonicalOrd, ParsedName, Rtype, ScanError, Scanner, ToName};
use domain_fields::{Fields, Form, ReadFields, ScanFields, Scanned};
use domain_octets::{
    AppendError, OctetsBuilder, OctetsFrom, OutOfMemory, ParseError, Parser, TryClone,
};
use domain_record::{CloneRecordData, ComposeRecordData, ParseRecordData, RecordData};
use std::alloc::Global;
use std::cmp::Ordering;
use std::fmt;

/// An authoritative name server of the owner's zone (RFC 1035, section 3.3.11).
#[derive(Debug, Drop)]
pub struct Ns<N> {
    nsdname: N,
}

impl<N> Ns<N> {
    /// Returns the data with this server.
    pub fn new(nsdname: N) -> Self
        ensures { result ≡ record { nsdname = nsdname } }
    {
        Ns { nsdname }
    }

    /// Returns the name of the server.
    pub fn nsdname(&self) -> &N
        ensures { result.now ≡ self.now.nsdname }
    {
        &self.nsdname
    }

    /// Returns a copy. Returns `OutOfMemory` if there is no memory for it.
    pub fn clone(&self) -> Result<Self, OutOfMemory>
    where
        N: TryClone,
        ensures { IfOk result (λ copy. N.is_clone self.now.nsdname copy.nsdname) }
    {
        Ok(Ns::new(self.nsdname.try_clone()?))
    }
}

impl<N: TryClone> TryClone for Ns<N> {
    ghost is_clone = { λ d copy. N.is_clone d.nsdname copy.nsdname };

    fn try_clone(&self) -> Result<Self, OutOfMemory> {
        self.clone()
    }
}

impl<N: ToName> CloneRecordData for Ns<N> {
    ghost clone_rtype = { λ d copy same. refl };

    ghost clone_canonical = { λ d copy same.
        same_values_tie ns_layout (ns_values N.labels) d copy
        (N.clone_labels d.nsdname copy.nsdname same) };
}

impl<M, N: OctetsFrom<M>> OctetsFrom<Ns<M>> for Ns<N> {
    ghost is_same = { λ source made. N.is_same source.nsdname made.nsdname };

    ghost has_no_room = { λ source. N.has_no_room source.nsdname };

    ghost takes_memory = { N.takes_memory };

    fn try_octets_from(alloc: Global, source: Ns<M>) -> Result<Self, AppendError> {
        Ok(Ns::new(N::try_octets_from(alloc, source.nsdname)?))
    }
}

impl<N: ToName> Ns<N> {
    /// Parses a name from the front of the tokens. After an error, a suffix of the tokens is left.
    pub fn scan<S: Scanner<Name = N>>(alloc: Global, scanner: &mut S) -> Result<Self, ScanError>
    where
        N: Drop,
        ensures { ReadsTokens (Scans ns_layout) (ns_values N.labels)
            (Refuses S.Octets.Builder.limit ns_layout)
            (S.tokens scanner.old) (S.tokens scanner.new) result }
    {
        let Scanned(nsdname) = <Scanned<N> as ScanFields<S>>::scan(alloc, scanner)?;
        Ok(Ns { nsdname })
    }

    /// Returns the fields, in the order of the wire.
    pub(crate) fn fields(&self) -> ParsedName<'_>
        ensures { result ≡ N.labels self.now.nsdname }
    {
        self.nsdname.as_parsed()
    }
}

impl<'a> Ns<ParsedName<'a>> {
    /// Reads a name from the front of the octets, and leaves the octets after it.
    ///
    /// # Errors
    ///
    /// The first label with a fault decides: `ShortInput` if an octet is missing, `Form("compressed
    /// or bad label")` at a length over 63 or a pointer, and `Form("long domain name")` at more
    /// than 255 octets. After an error the parser is unchanged.
    pub fn parse(parser: &mut Parser<'a>) -> Result<Self, ParseError>
        ensures { Reads ns_layout (ns_values (λ name. name)) fault_of parser.old parser.new result }
    {
        Ok(Ns::new(<ParsedName<'a> as ReadFields<'a>>::read(parser)?))
    }
}

impl<'a> ParseRecordData<'a> for Ns<ParsedName<'a>> {
    ghost is_read = { λ rtype. rtype ≡ rtypes.ns };

    ghost layout = { ns_layout };

    ghost values = { ns_values (λ name. name) };

    fn parse_rdata(rtype: Rtype, parser: &mut Parser<'a>) -> Result<Option<Self>, ParseError> {
        if rtype != Rtype::NS {
            return Ok(None);
        }
        Ok(Some(Self::parse(parser)?))
    }
}

impl<N: ToName> RecordData for Ns<N> {
    ghost rtype = { λ _. rtypes.ns };

    fn rtype(&self) -> Rtype {
        Rtype::NS
    }
}

impl<N: ToName> ComposeRecordData for Ns<N> {
    ghost octets = { λ d. octets_of ns_layout (ns_values N.labels d) };

    ghost canonical = { λ d. canonical_of ns_layout (ns_values N.labels d) };

    fn room_after(&self, limit: usize) -> Option<usize> {
        self.fields().room_after(limit)
    }

    fn compose_in<B: OctetsBuilder>(&self, form: Form, target: &mut B) -> Result<(), AppendError> {
        self.fields().put(form, target)
    }

    fn canonical_cmp_octets(&self, other: &[u8]) -> Ordering {
        domain_fields::canonical_cmp_octets(&self.fields(), other)
    }
}

impl<N: ToName> CanonicalOrd for Ns<N> {
    ghost canonical_cmp = { on (λ d. canonical_of ns_layout (ns_values N.labels d))
        (slice_cmp nat_cmp) };

    ghost total = { on_texts (λ d. canonical_of ns_layout (ns_values N.labels d)) };

    fn canonical_cmp(&self, other: &Self) -> Ordering {
        self.fields().order(&other.fields())
    }
}

/// Writes the name with its last dot.
impl<N: ToName> fmt::Display for Ns<N> {
    ghost output = { λ d. Some (name_text (N.labels d.nsdname) ++ codes ".") };

    fn fmt<W: fmt::Write>(&self, f: &mut fmt::Formatter<W>) -> fmt::Result {
        write!(f, "{}", self.nsdname.fmt_with_dot())
    }
}
