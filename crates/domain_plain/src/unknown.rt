//! Data of unknown types, and their presentation format (RFC 3597, section 5).
ghost use Rattle.std.specs.Prelude.{◌≡◌, ◌≤◌, ◌↔◌, length, IsOk, IsNone, IfOk, Some};
ghost use Rattle.std.specs.Ordering.{on, nat_cmp};
ghost use Rattle.std.specs.Cmp.Lexicographic.{slice_cmp, on_texts};
ghost use Rattle.domain_octets.specs.Octets.{IsOver, AreOctets};
ghost use Rattle.domain_names.specs.Wire.{fault_of};
ghost use Rattle.domain_plain.specs.Plain.{GenericText, GenericFault, IsMark, IsNoMark, generic_text};
ghost use Rattle.domain_plain.specs.Plain.{unknown_layout, unknown_values};
ghost use Rattle.domain_fields.specs.Layout.{octets_of, canonical_of, Reads};
ghost use Rattle.domain_fields.specs.{Layout.same_values_tie, Scan.AllTokens};
ghost use Rattle.domain_base.specs.Scan.{ReadsTokens, OneToken, RefusesToken};

use domain_base::{CanonicalOrd, FromToken, Rtype, ScanError, Scanner};
use domain_codecs::{Codec, base16};
use domain_fields::{AtMost, Fields, Form, MAX_RDLEN, ReadFields, Rest, ScanFields};
use domain_octets::{
    AppendError, CopyOctets, FromBuilder, Octets, OctetsBuilder, OctetsFrom, OutOfMemory,
    ParseError, Parser, TryClone, laws,
};
use domain_record::{
    CloneRecordData, ComposeRecordData, LongRecordData, ParseRecordData, RecordData,
};
use std::alloc::Global;
use std::cmp::Ordering;
use std::fmt;
use std::marker::Model;

/// Data of any type, with at most 65,535 octets (RFC 3597).
#[derive(Drop)]
pub struct UnknownRecordData<O: Octets> {
    rtype: Rtype,
    data: O,
}

impl<O: Octets> Model for UnknownRecordData<O> {
    ghost use Rattle.std.specs.Prelude.{◌≤◌, length};
    ghost use Rattle.domain_plain.specs.Plain.{UnknownData};

    ghost Value = { UnknownData O };

    ghost view = { λ d. record { rtype = d.rtype; «data» = d.«data» } };

    ghost invariant = { λ d. length (O.octets d.«data») ≤ 65535 };
}

impl<O: Octets> UnknownRecordData<O> {
    /// Returns data of this type with these octets.
    ///
    /// # Errors
    ///
    /// `LongRecordData` if and only if there are more than 65,535 octets.
    pub fn from_octets(rtype: Rtype, data: O) -> Result<Self, LongRecordData>
    where
        O: Drop,
        ensures ok { IsOk result ↔ (length (O.octets «data») ≤ 65535) }
        ensures fields { IfOk result (λ d. d ≡ record { rtype = rtype; «data» = «data» }) }
    {
        if data.as_slice().len() > MAX_RDLEN {
            return Err(LongRecordData);
        }
        Ok(UnknownRecordData { rtype, data })
    }

    /// Returns the type of the data.
    pub fn rtype(&self) -> Rtype
        ensures { result ≡ self.now.rtype }
    {
        self.rtype
    }

    /// Returns the octets of the data, at most 65,535.
    pub fn data(&self) -> &O
        ensures octets { result.now ≡ self.now.«data» }
        ensures fits { length (O.octets self.now.«data») ≤ 65535 }
    {
        &self.data
    }

    /// Returns a copy. Returns `OutOfMemory` if there is no memory for it.
    pub fn clone(&self) -> Result<Self, OutOfMemory>
        ensures { IfOk result (λ copy. (copy.rtype ≡ self.now.rtype)
            × (O.octets copy.«data» ≡ O.octets self.now.«data»)) }
    {
        Ok(UnknownRecordData {
            rtype: self.rtype,
            data: self.data.try_clone()?,
        })
    }

    /// Returns the fields, in the order of the wire.
    pub(crate) fn fields(&self) -> (AtMost<MAX_RDLEN>, Rest<'_>)
        ensures values { result.1.0.now ≡ O.octets self.now.«data» }
        ensures fits { AreOctets (O.octets self.now.«data») }
        ensures limit { length (O.octets self.now.«data») ≤ 65535 }
    {
        let octets = self.data.as_slice();
        laws::slices_hold_octets(octets);
        (AtMost, Rest(octets))
    }
}

/// The first token of generic text.
#[derive(Drop)]
struct GenericMark;

/// Parses a backslash and `#`. Any other token is the error `Custom("illegal data")`.
impl FromToken for GenericMark {
    ghost spells = { IsMark };

    ghost refuses = { IsNoMark };

    fn from_token(token: &str) -> Result<GenericMark, ScanError> {
        if token == "\\#" {
            return Ok(GenericMark);
        }
        Err(ScanError::Custom("illegal data"))
    }
}

impl Model for GenericMark {
    ghost Value = { Unit {0} };

    ghost view = { λ _. tt };
}

impl<S: Scanner> ScanFields<S> for GenericMark {
    ghost text = { OneToken IsMark };

    ghost refuses = { RefusesToken IsNoMark };

    fn scan(_alloc: Global, scanner: &mut S) -> Result<GenericMark, ScanError> {
        <GenericMark as FromToken>::scan(scanner)
    }
}

impl<O: FromBuilder> UnknownRecordData<O> {
    /// Parses all tokens as data of a type in the generic form: `\#`, the number of octets, and the
    /// octets in Base 16, in any number of tokens.
    ///
    /// # Errors
    ///
    /// The first of these, after which a suffix of the tokens is left:
    ///
    /// - `EndOfEntry` if the mark or the number is missing.
    /// - `Custom("illegal data")` if another token is in place of the mark.
    /// - `Custom("decimal number expected")` if the next token is not a number of at most 65,535.
    /// - `Custom("illegal data")` if the rest is not Base 16.
    /// - `ShortBuf` and `OutOfMemory` if there is no room or no memory for the octets.
    /// - `Custom("illegal data")` if the number of octets is another one.
    pub fn scan<S: Scanner<Octets = O>>(
        alloc: Global,
        rtype: Rtype,
        scanner: &mut S,
    ) -> Result<Self, ScanError>
    where
        O: Drop,
        ensures read { ReadsTokens (AllTokens GenericText) (λ d. O.octets d.«data»)
            (GenericFault O.Builder.limit) (S.tokens scanner.old) (S.tokens scanner.new) result }
        ensures rtype { IfOk result (λ d. d.rtype ≡ rtype) }
    {
        let (GenericMark, count) = <(GenericMark, u16) as ScanFields<S>>::scan(alloc, scanner)?;
        let data = scanner.convert_entry(alloc, Codec::Base16)?;
        if data.as_slice().len() != usize::from(count) {
            return Err(ScanError::Custom("illegal data"));
        }
        Ok(UnknownRecordData { rtype, data })
    }
}

impl<'a> UnknownRecordData<&'a [u8]> {
    /// Reads all octets that are left, as data of this type.
    ///
    /// # Errors
    ///
    /// `Form("record data too long")` if there are more than 65,535 octets. The parser is then
    /// unchanged.
    pub fn parse(rtype: Rtype, parser: &mut Parser<'a>) -> Result<Self, ParseError>
        ensures read { Reads unknown_layout (unknown_values (λ octets. octets.now))
            fault_of parser.old parser.new result }
        ensures rtype { IfOk result (λ d. d.rtype ≡ rtype) }
    {
        let (AtMost, Rest(data)) = <(AtMost<MAX_RDLEN>, Rest<'a>)>::read(parser)?;
        Ok(UnknownRecordData { rtype, data })
    }
}

impl<'a> ParseRecordData<'a> for UnknownRecordData<&'a [u8]> {
    ghost is_read = { λ _. Unit {0} };

    ghost layout = { unknown_layout };

    ghost values = { unknown_values (λ octets. octets.now) };

    fn parse_rdata(rtype: Rtype, parser: &mut Parser<'a>) -> Result<Option<Self>, ParseError> {
        Ok(Some(Self::parse(rtype, parser)?))
    }
}

impl<O: Octets> TryClone for UnknownRecordData<O> {
    ghost is_clone = { λ d copy. (copy.rtype ≡ d.rtype)
        × (O.octets copy.«data» ≡ O.octets d.«data») };

    fn try_clone(&self) -> Result<Self, OutOfMemory> {
        self.clone()
    }
}

impl<O: Octets> CloneRecordData for UnknownRecordData<O> {
    ghost clone_rtype = { λ d copy same. same.0 };

    ghost clone_canonical = { λ d copy same.
        same_values_tie unknown_layout (unknown_values O.octets) d copy (λ i. (tt, same.1 i)) };
}

impl<S: Octets + Drop, O: CopyOctets> OctetsFrom<UnknownRecordData<S>> for UnknownRecordData<O> {
    ghost is_same = { λ source made. (made.rtype ≡ source.rtype)
        × (O.octets made.«data» ≡ S.octets source.«data») };

    ghost has_no_room = { λ source. IsOver O.capacity (length (S.octets source.«data»)) };

    ghost takes_memory = { IsNone O.capacity };

    fn try_octets_from(alloc: Global, source: UnknownRecordData<S>) -> Result<Self, AppendError> {
        Ok(UnknownRecordData {
            rtype: source.rtype,
            data: O::copy_octets(alloc, source.data.as_slice())?,
        })
    }
}

impl<O: Octets> RecordData for UnknownRecordData<O> {
    ghost rtype = { λ d. d.rtype };

    fn rtype(&self) -> Rtype {
        self.rtype
    }
}

impl<O: Octets> ComposeRecordData for UnknownRecordData<O> {
    ghost octets = { λ d. octets_of unknown_layout (unknown_values O.octets d) };

    ghost canonical = { λ d. canonical_of unknown_layout (unknown_values O.octets d) };

    fn room_after(&self, limit: usize) -> Option<usize> {
        self.fields().room_after(limit)
    }

    fn compose_in<B: OctetsBuilder>(&self, form: Form, target: &mut B) -> Result<(), AppendError> {
        self.fields().put(form, target)
    }

    fn canonical_cmp_octets(&self, other: &[u8]) -> Ordering {
        domain_fields::canonical_cmp_octets(&self.fields(), other)
    }
}

impl<O: Octets> CanonicalOrd for UnknownRecordData<O> {
    ghost canonical_cmp = { on (λ d. canonical_of unknown_layout (unknown_values O.octets d))
        (slice_cmp nat_cmp) };

    ghost total = { on_texts (λ d. canonical_of unknown_layout (unknown_values O.octets d)) };

    fn canonical_cmp(&self, other: &Self) -> Ordering {
        self.fields().order(&other.fields())
    }
}

/// Writes the generic form: `\#`, the number of octets, and the octets in Base 16 in upper case, if
/// there are any.
impl<O: Octets> fmt::Display for UnknownRecordData<O> {
    ghost output = { λ d. Some (generic_text (O.octets d.«data»)) };

    fn fmt<W: fmt::Write>(&self, f: &mut fmt::Formatter<W>) -> fmt::Result {
        let octets = self.data().as_slice();
        let count = octets.len();
        write!(f, "\\# {count}")?;
        if count == 0 {
            return Ok(());
        }
        f.write_str(" ")?;
        base16::display(octets, f)
    }
}

/// Writes the type and the octets.
impl<O: Octets> fmt::Debug for UnknownRecordData<O> {
    fn fmt<W: fmt::Write>(&self, f: &mut fmt::Formatter<W>) -> fmt::Result {
        f.debug_struct("UnknownRecordData")
            .field("rtype", &self.rtype())
            .field("data", &self.data().as_slice())
            .finish()
    }
}
