//! NSEC data, the next name and the types at a name: writing, comparing, hashing and copying.
ghost use Rattle.std.specs.Prelude.{◌≡◌, ◌⊎◌, ◌&&◌, Some, IfOk, IsNone, length, refl, bytes_eq, ◌++◌, codes};
ghost use Rattle.std.specs.{Ordering.{on, nat_cmp, then_cmp, eq_of_both, ordering_then}, Cmp.on_equiv};
ghost use Rattle.std.specs.Cmp.{on_total, then_total, and_equiv, partial_equiv_from_equiv, po};
ghost use Rattle.std.specs.Cmp.Lexicographic.{slice_cmp, on_texts, nat_list_cmp_total, nat_list_eq_equiv};
ghost use Rattle.std.specs.List.{flat_map};
ghost use Rattle.domain_octets.specs.Octets.{IsOver};
ghost use Rattle.domain_names.specs.Name.{same_name, canonical_cmp as name_cmp, canonical_cmp_total};
ghost use Rattle.domain_names.specs.{Laws.same_name_equiv, Wire.fault_of, Text.name_text};
ghost use Rattle.domain_fields.specs.Layout.{same_values_tie, ties_of_both, octets_of, canonical_of};
ghost use Rattle.domain_fields.specs.Layout.{Reads};
ghost use Rattle.domain_chain_rdata.specs.Rdata.{nsec_layout, nsec_values, nsec_hashed, nsec_fed};
ghost use Rattle.domain_chain_rdata.specs.{NsecConvert.{IsNsecClone, IsSameNsec}, Text.{NsecText, RefusesNsec}};
ghost use Rattle.domain_chain_rdata.specs.Text.{nsec_pieces};
ghost use Rattle.domain_bitmap.specs.{Blocks.types_of, Text.types_text};
ghost use Rattle.domain_base.specs.Scan.{ReadsTokens};
ghost use Rattle.std.specs.Hash as fed;
ghost use Rattle.domain_base.specs.Types as rtypes;

use domain_base::{CanonicalOrd, ParsedName, Rtype, ScanError, Scanner, ToName};
use domain_bitmap::RtypeBitmap;
use domain_fields::{Fields, Form, ReadFields, Spelled};
use domain_octets::{
    AppendError, CopyOctets, EmptyBuilder, Formatter, FreezeBuilder, FromBuilder, Octets,
    OctetsBuilder, OctetsFrom, OutOfMemory, ParseError, Parser, Truncate, TryClone, ZonefileFmt,
};
use domain_record::{CloneRecordData, ComposeRecordData, ParseRecordData, RecordData, both};
use std::alloc::Global;
use std::cmp::Ordering;
use std::fmt;
use std::hash::{Hash, Hasher};

/// The next name and the types.
pub type NsecFields<'a> = (Spelled<ParsedName<'a>>, RtypeBitmap<&'a [u8]>);

/// NSEC data: the next owner of a zone's chain, and the types at this owner (RFC 4034, section 4).
#[derive(Drop)]
#[derive_where(Debug; N)]
pub struct Nsec<O: Octets, N> {
    next_name: N,
    types: RtypeBitmap<O>,
}

impl<O: Octets, N> Nsec<O, N> {
    /// Returns the data of these fields.
    pub fn new(next_name: N, types: RtypeBitmap<O>) -> Self
        ensures { result ≡ record { next_name = next_name; types = types } }
    {
        Nsec { next_name, types }
    }

    /// Returns the next owner of the chain.
    pub fn next_name(&self) -> &N
        ensures { result.now ≡ self.now.next_name }
    {
        &self.next_name
    }

    /// Replaces the next owner.
    pub fn set_next_name(&mut self, next_name: N)
    where
        N: Drop,
        ensures { self.new ≡ record self.old { next_name = next_name } }
    {
        self.next_name = next_name;
    }

    /// Returns the types at the record's owner.
    pub fn types(&self) -> &RtypeBitmap<O>
        ensures { result.now ≡ self.now.types }
    {
        &self.types
    }
}

impl<O: Octets, N: ToName> Nsec<O, N> {
    /// Returns the fields, in wire order.
    pub(crate) fn fields(&self) -> NsecFields<'_>
        ensures { nsec_values N.labels self.now ≡ (result.0.0, result.1) }
    {
        let types = self.types.with_octets(self.types.as_slice());
        (Spelled(self.next_name.as_parsed()), types)
    }
}

impl<'a> Nsec<&'a [u8], ParsedName<'a>> {
    /// Parses all octets that are left as a name and a type bitmap (RFC 4034, section 4.1). Takes
    /// no memory.
    ///
    /// # Errors
    ///
    /// The first fault in field order, in a name at its first faulty label. The parser does not
    /// move then.
    ///
    /// - `ShortInput` if an octet of the name or of the bitmap is missing.
    /// - `Form("compressed or bad label")` if a label is longer than 63 octets, or is a pointer.
    /// - `Form("long domain name")` if the name is longer than 255 octets.
    /// - `Form("invalid NSEC bitmap")` if a block of the bitmap has no octets or more than 32.
    pub fn parse(parser: &mut Parser<'a>) -> Result<Self, ParseError>
        ensures { Reads nsec_layout (nsec_values (λ name. name)) fault_of parser.old
            parser.new result }
    {
        let (Spelled(next_name), types) = NsecFields::<'a>::read(parser)?;
        Ok(Nsec::new(next_name, types))
    }
}

impl<'a> ParseRecordData<'a> for Nsec<&'a [u8], ParsedName<'a>> {
    ghost is_read = { λ rtype. rtype ≡ rtypes.nsec };

    ghost layout = { nsec_layout };

    ghost values = { nsec_values (λ name. name) };

    fn parse_rdata(rtype: Rtype, parser: &mut Parser<'a>) -> Result<Option<Self>, ParseError> {
        if rtype != Rtype::NSEC {
            return Ok(None);
        }
        Ok(Some(Self::parse(parser)?))
    }
}

impl<O: Octets, N: ToName> RecordData for Nsec<O, N> {
    ghost rtype = { λ _. rtypes.nsec };

    fn rtype(&self) -> Rtype {
        Rtype::NSEC
    }
}

impl<O: Octets, N: ToName> ComposeRecordData for Nsec<O, N> {
    ghost octets = { λ d. octets_of nsec_layout (nsec_values N.labels d) };

    ghost canonical = { λ d. canonical_of nsec_layout (nsec_values N.labels d) };

    fn room_after(&self, limit: usize) -> Option<usize> {
        self.fields().room_after(limit)
    }

    fn compose_in<B: OctetsBuilder>(&self, form: Form, target: &mut B) -> Result<(), AppendError> {
        self.fields().put(form, target)
    }

    fn canonical_cmp_octets(&self, other: &[u8]) -> Ordering {
        domain_fields::canonical_cmp_octets(&self.fields(), other)
    }
}

impl<O: Octets, N: ToName> CanonicalOrd for Nsec<O, N> {
    ghost canonical_cmp = { on (λ d. canonical_of nsec_layout (nsec_values N.labels d))
        (slice_cmp nat_cmp) };

    ghost total = { on_texts (λ d. canonical_of nsec_layout (nsec_values N.labels d)) };

    fn canonical_cmp(&self, other: &Self) -> Ordering {
        self.canonical_cmp_to(other)
    }
}

impl<O: Octets, N: ToName> Nsec<O, N> {
    /// Returns whether the data are equal: the next names except for the case of letters, and the
    /// octets of the bitmaps. The types of octets and names may differ. Takes no memory.
    pub fn eq_to<P: Octets, M: ToName>(&self, other: &Nsec<P, M>) -> bool
        ensures { result ≡ (same_name (N.labels self.now.next_name) (M.labels other.now.next_name)
            && bytes_eq self.now.types other.now.types) }
    {
        self.next_name().name_eq(other.next_name()) && self.types().eq_to(other.types())
    }

    /// Compares the next names, and then the octets of the bitmaps. The types of octets and names
    /// may differ. Takes no memory.
    pub fn cmp_to<P: Octets, M: ToName>(&self, other: &Nsec<P, M>) -> Ordering
        ensures { result ≡ ordering_then
            (name_cmp (N.labels self.now.next_name) (M.labels other.now.next_name))
            (slice_cmp nat_cmp self.now.types other.now.types) }
    {
        self.next_name()
            .name_cmp(other.next_name())
            .then_with(|| self.types().cmp_to(other.types()))
    }

    /// Compares in canonical order. The types of octets and names may differ. Takes no memory.
    pub fn canonical_cmp_to<P: Octets, M: ToName>(&self, other: &Nsec<P, M>) -> Ordering
        ensures { result ≡ slice_cmp nat_cmp (canonical_of nsec_layout
            (nsec_values N.labels self.now))
            (canonical_of nsec_layout (nsec_values M.labels other.now)) }
    {
        self.fields().order(&other.fields())
    }
}

impl<O: Octets, N: ToName> PartialEq for Nsec<O, N> {
    ghost eq = { eq_of_both (on (λ d. N.labels d.next_name) same_name)
        (on (λ d. d.types) bytes_eq) };

    ghost laws = { partial_equiv_from_equiv
        (and_equiv (on_equiv (λ d. N.labels d.next_name) same_name_equiv)
        (on_equiv (λ d. d.types) nat_list_eq_equiv)) };

    fn eq(&self, other: &Self) -> bool {
        self.eq_to(other)
    }
}

impl<O: Octets, N: ToName> Eq for Nsec<O, N> {
    ghost laws = { and_equiv (on_equiv (λ d. N.labels d.next_name) same_name_equiv)
        (on_equiv (λ d. d.types) nat_list_eq_equiv) };
}

impl<O: Octets, N: ToName> PartialOrd for Nsec<O, N> {
    ghost partial_cmp = { λ a b. Some (then_cmp (on (λ d. N.labels d.next_name) name_cmp)
        (on (λ d. d.types) (slice_cmp nat_cmp)) a b) };

    ghost laws = { po (then_total (on_total (λ d. N.labels d.next_name) canonical_cmp_total)
        (on_total (λ d. d.types) nat_list_cmp_total))
        (ties_of_both (λ d. N.labels d.next_name) (λ d. d.types)) };

    fn partial_cmp(&self, other: &Self) -> Option<Ordering> {
        Some(self.cmp(other))
    }
}

impl<O: Octets, N: ToName> Ord for Nsec<O, N> {
    ghost cmp = { then_cmp (on (λ d. N.labels d.next_name) name_cmp)
        (on (λ d. d.types) (slice_cmp nat_cmp)) };

    ghost total = { then_total (on_total (λ d. N.labels d.next_name) canonical_cmp_total)
        (on_total (λ d. d.types) nat_list_cmp_total) };

    ghost matches_partial_cmp = { λ a b. refl };

    ghost matches_eq = { ties_of_both (λ d. N.labels d.next_name) (λ d. d.types) };

    fn cmp(&self, other: &Self) -> Ordering {
        self.cmp_to(other)
    }
}

/// Hashes the octets of the next name in lower case, and then those of the bitmap.
impl<O: Octets, N: ToName> Hash for Nsec<O, N> {
    ghost hash_input = { λ d. flat_map fed.u8 (canonical_of nsec_hashed (nsec_values N.labels d)) };

    ghost respects_eq = { (nsec_fed (λ d. N.labels d.next_name) (λ d. d.types)).fed };

    fn hash<H: Hasher>(&self, state: &mut H) {
        let (Spelled(next_name), types) = self.fields();
        (next_name, types).feed(state);
    }
}

impl<O: Octets, N: TryClone + Drop> Nsec<O, N> {
    /// Returns a copy. Uses the allocators of the name and of the octets.
    pub fn clone(&self) -> Result<Self, OutOfMemory>
        ensures { IfOk result (IsNsecClone N.is_clone self.now) }
    {
        let next_name = self.next_name().try_clone()?;
        let types = self.types().try_clone()?;
        Ok(Nsec::new(next_name, types))
    }
}

impl<O: Octets, N: TryClone + Drop> TryClone for Nsec<O, N> {
    ghost is_clone = { IsNsecClone N.is_clone };

    fn try_clone(&self) -> Result<Self, OutOfMemory> {
        self.clone()
    }
}

impl<O: Octets, N: ToName + Drop> CloneRecordData for Nsec<O, N> {
    ghost clone_rtype = { λ d copy same. refl };

    ghost clone_canonical = { λ d copy same. same_values_tie nsec_layout
        (nsec_values N.labels) d copy
        (λ i. (N.clone_labels d.next_name copy.next_name same.next_name i, same.types i)) };
}

impl<S: Octets + Drop, N: Drop, O: CopyOctets + Drop, M: OctetsFrom<N> + Drop> OctetsFrom<
    Nsec<S, N>,
> for Nsec<O, M> {
    ghost is_same = { IsSameNsec M.OctetsFrom.is_same };

    ghost has_no_room = { λ source. M.OctetsFrom.has_no_room source.next_name
        ⊎ IsOver O.capacity (length source.types) };

    ghost takes_memory = { M.OctetsFrom.takes_memory ⊎ IsNone O.capacity };

    fn try_octets_from(alloc: Global, source: Nsec<S, N>) -> Result<Self, AppendError> {
        let next_name = M::try_octets_from(alloc, source.next_name);
        let types = RtypeBitmap::try_octets_from(alloc, source.types);
        let (next_name, types) = both(next_name, types)?;
        Ok(Nsec::new(next_name, types))
    }
}

impl<O: FromBuilder, N: ToName> Nsec<O, N>
where
    O::Builder: EmptyBuilder + Truncate + FreezeBuilder<Frozen = O> + Drop,
{
    /// Reads all tokens that are left as a name and types, one type a token (RFC 4034, section
    /// 4.2).
    ///
    /// # Errors
    ///
    /// That of the first token that is rejected. After an error, a suffix of the tokens is left.
    ///
    /// - `EndOfEntry` if the token is missing.
    /// - `Custom("illegal name")` or `Custom("unknown record type")` if it is not of its form.
    /// - `ShortBuf` or `OutOfMemory` if a name or the bitmap has no room or no memory.
    pub fn scan<S: Scanner<Name = N>>(alloc: Global, scanner: &mut S) -> Result<Self, ScanError>
    where
        N: Drop,
        ensures { ReadsTokens NsecText (nsec_values N.labels)
            (RefusesNsec S.Octets.Builder.limit O.Builder.limit) (S.tokens scanner.old)
            (S.tokens scanner.new) result }
    {
        let next_name = scanner.scan_name(alloc)?;
        let types = RtypeBitmap::scan(alloc, scanner)?;
        Ok(Nsec::new(next_name, types))
    }
}

/// Writes the next name with its last dot, a space, and the types separated by single spaces. The
/// space remains if there are no types.
impl<O: Octets, N: ToName> fmt::Display for Nsec<O, N> {
    ghost output = { λ d. Some (name_text (N.labels d.next_name) ++ codes ". "
        ++ types_text (types_of d.types)) };

    fn fmt<W: fmt::Write>(&self, f: &mut fmt::Formatter<W>) -> fmt::Result {
        let next_name = self.next_name().fmt_with_dot();
        let types = self.types();
        write!(f, "{next_name} {types}")
    }
}

/// Writes a block of the next name with its last dot and a token for each type.
impl<O: Octets, N: ToName> ZonefileFmt for Nsec<O, N> {
    ghost pieces = { λ d. nsec_pieces (N.labels d.next_name) d.types };

    fn fmt<F: Formatter>(&self, formatter: &mut F) -> Result<(), OutOfMemory> {
        formatter.begin_block()?;
        formatter.write_token(&self.next_name().fmt_with_dot())?;
        self.types().fmt(formatter)?;
        formatter.end_block()
    }
}
