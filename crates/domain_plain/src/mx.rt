//! The MX type: mail exchanges.
ghost use Rattle.std.specs.Prelude.{◌≡◌, ◌++◌, refl, IfOk, Some, codes};
ghost use Rattle.std.specs.{Ordering.{on, nat_cmp}, Cmp.Lexicographic.{slice_cmp, on_texts}};
ghost use Rattle.std.specs.Fmt.{decimal};
ghost use Rattle.domain_names.specs.{Text.name_text, Wire.fault_of};
ghost use Rattle.domain_fields.specs.Layout.{Reads, octets_of, canonical_of};
ghost use Rattle.domain_fields.specs.{Layout.same_values_tie, Scan.{Scans, Refuses}};
ghost use Rattle.domain_base.specs.Scan.{ReadsTokens};
ghost use Rattle.domain_base.specs.Types as rtypes;
ghost use Rattle.domain_plain.specs.Plain.{mx_layout, mx_values};

use domain_base::{CanonicalOrd, ParsedName, Rtype, ScanError, Scanner, ToName};
use domain_fields::{Fields, Form, ReadFields, ScanFields, Scanned};
use domain_octets::{
    AppendError, OctetsBuilder, OctetsFrom, OutOfMemory, ParseError, Parser, TryClone,
};
use domain_record::{CloneRecordData, ComposeRecordData, ParseRecordData, RecordData};
use std::alloc::Global;
use std::cmp::Ordering;
use std::fmt;

/// A host that accepts mail for the owner, and its preference (RFC 1035, section 3.3.9).
#[derive(Debug, Drop)]
pub struct Mx<N> {
    preference: u16,
    exchange: N,
}

impl<N> Mx<N> {
    /// Returns the data with this preference and host.
    pub fn new(preference: u16, exchange: N) -> Self
        ensures { result ≡ record { preference = preference; exchange = exchange } }
    {
        Mx {
            preference,
            exchange,
        }
    }

    /// Returns the preference. The lowest one is tried first.
    pub fn preference(&self) -> u16
        ensures { result ≡ self.now.preference }
    {
        self.preference
    }

    /// Returns the name of the host.
    pub fn exchange(&self) -> &N
        ensures { result.now ≡ self.now.exchange }
    {
        &self.exchange
    }

    /// Returns a copy. Returns `OutOfMemory` if there is no memory for it.
    pub fn clone(&self) -> Result<Self, OutOfMemory>
    where
        N: TryClone,
        ensures { IfOk result (λ copy. (copy.preference ≡ self.now.preference)
            × N.is_clone self.now.exchange copy.exchange) }
    {
        Ok(Mx::new(self.preference, self.exchange.try_clone()?))
    }
}

impl<N: TryClone> TryClone for Mx<N> {
    ghost is_clone = { λ d copy. (copy.preference ≡ d.preference)
        × N.is_clone d.exchange copy.exchange };

    fn try_clone(&self) -> Result<Self, OutOfMemory> {
        self.clone()
    }
}

impl<N: ToName> CloneRecordData for Mx<N> {
    ghost clone_rtype = { λ d copy same. refl };

    ghost clone_canonical = { λ d copy same.
        same_values_tie mx_layout (mx_values N.labels) d copy
        (λ i. (same.0 i, N.clone_labels d.exchange copy.exchange same.1 i)) };
}

impl<M, N: OctetsFrom<M>> OctetsFrom<Mx<M>> for Mx<N> {
    ghost is_same = { λ source made. (made.preference ≡ source.preference)
        × N.is_same source.exchange made.exchange };

    ghost has_no_room = { λ source. N.has_no_room source.exchange };

    ghost takes_memory = { N.takes_memory };

    fn try_octets_from(alloc: Global, source: Mx<M>) -> Result<Self, AppendError> {
        let exchange = N::try_octets_from(alloc, source.exchange)?;
        Ok(Mx::new(source.preference, exchange))
    }
}

impl<N: ToName> Mx<N> {
    /// Parses a decimal number and a name from the front of the tokens. After an error, a suffix of
    /// the tokens is left.
    pub fn scan<S: Scanner<Name = N>>(alloc: Global, scanner: &mut S) -> Result<Self, ScanError>
    where
        N: Drop,
        ensures { ReadsTokens (Scans mx_layout) (mx_values N.labels)
            (Refuses S.Octets.Builder.limit mx_layout)
            (S.tokens scanner.old) (S.tokens scanner.new) result }
    {
        let (preference, Scanned(exchange)) = <(u16, Scanned<N>) as ScanFields<S>>::scan(
            alloc, scanner,
        )?;
        Ok(Mx::new(preference, exchange))
    }

    /// Returns the fields, in the order of the wire.
    pub(crate) fn fields(&self) -> (u16, ParsedName<'_>)
        ensures { (result.0 ≡ self.now.preference) × (result.1 ≡ N.labels self.now.exchange) }
    {
        (self.preference, self.exchange.as_parsed())
    }
}

impl<'a> Mx<ParsedName<'a>> {
    /// Reads a number of two octets and a name from the front of the octets, and leaves the octets
    /// after them.
    ///
    /// # Errors
    ///
    /// The first fault in field order. For the number, it is `ShortInput` if an octet is missing.
    /// For the name, the first label with a fault decides: `ShortInput` if an octet is missing,
    /// `Form("compressed or bad label")` at a length over 63 or a pointer, and `Form("long domain
    /// name")` at more than 255 octets. After an error the parser is unchanged.
    pub fn parse(parser: &mut Parser<'a>) -> Result<Self, ParseError>
        ensures { Reads mx_layout (mx_values (λ name. name)) fault_of parser.old parser.new result }
    {
        let (preference, exchange) = <(u16, ParsedName<'a>)>::read(parser)?;
        Ok(Mx::new(preference, exchange))
    }
}

impl<'a> ParseRecordData<'a> for Mx<ParsedName<'a>> {
    ghost is_read = { λ rtype. rtype ≡ rtypes.mx };

    ghost layout = { mx_layout };

    ghost values = { mx_values (λ name. name) };

    fn parse_rdata(rtype: Rtype, parser: &mut Parser<'a>) -> Result<Option<Self>, ParseError> {
        if rtype != Rtype::MX {
            return Ok(None);
        }
        Ok(Some(Self::parse(parser)?))
    }
}

impl<N: ToName> RecordData for Mx<N> {
    ghost rtype = { λ _. rtypes.mx };

    fn rtype(&self) -> Rtype {
        Rtype::MX
    }
}

impl<N: ToName> ComposeRecordData for Mx<N> {
    ghost octets = { λ d. octets_of mx_layout (mx_values N.labels d) };

    ghost canonical = { λ d. canonical_of mx_layout (mx_values N.labels d) };

    fn room_after(&self, limit: usize) -> Option<usize> {
        self.fields().room_after(limit)
    }

    fn compose_in<B: OctetsBuilder>(&self, form: Form, target: &mut B) -> Result<(), AppendError> {
        self.fields().put(form, target)
    }

    fn canonical_cmp_octets(&self, other: &[u8]) -> Ordering {
        domain_fields::canonical_cmp_octets(&self.fields(), other)
    }
}

impl<N: ToName> CanonicalOrd for Mx<N> {
    ghost canonical_cmp = { on (λ d. canonical_of mx_layout (mx_values N.labels d))
        (slice_cmp nat_cmp) };

    ghost total = { on_texts (λ d. canonical_of mx_layout (mx_values N.labels d)) };

    fn canonical_cmp(&self, other: &Self) -> Ordering {
        self.fields().order(&other.fields())
    }
}

/// Writes the preference, and the name with its last dot.
impl<N: ToName> fmt::Display for Mx<N> {
    ghost output = { λ d. Some (decimal d.preference ++ codes " " ++ name_text (N.labels d.exchange)
        ++ codes ".") };

    fn fmt<W: fmt::Write>(&self, f: &mut fmt::Formatter<W>) -> fmt::Result {
        write!(f, "{} {}", self.preference, self.exchange.fmt_with_dot())
    }
}
