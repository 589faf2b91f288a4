//! Signatures (RFC 4034, section 3).
ghost use Rattle.std.specs.Prelude.{◌≡◌, ◌≤◌, ◌↔◌, Some, IsTrue, IsOk, IfOk, length, refl, bytes_eq, ◌⊎◌};
ghost use Rattle.std.specs.{Prelude.IsNone, List.flat_map, Ordering.{on, nat_cmp}};
ghost use Rattle.std.specs.Cmp.{partial_equiv_from_equiv, po, Lexicographic.{slice_cmp, on_texts}};
ghost use Rattle.std.specs.Cmp.Lexicographic.{on_texts_equal};
ghost use Rattle.domain_names.specs.{Wire.fault_of, Name.wire_of};
ghost use Rattle.domain_fields.specs.Layout.{Fits, Reads, fed_alike, tied_octets};
ghost use Rattle.domain_fields.specs.{Layout.copies_tied, Scan.AllTokens};
ghost use Rattle.domain_rrsig.specs.Data.{rrsig_layout, rrsig_values, rrsig_octets, rrsig_canonical, rrsig_data};
ghost use Rattle.domain_rrsig.specs.Data.{proto_rrsig_data, IsSameRrsig, rrsig_numbers_values, rrsig_text};
ghost use Rattle.domain_rrsig.specs.Data.{rrsig_pieces, rrsig_fields, rrsig_fields_text, RefusesRrsigFields};
ghost use Rattle.domain_rrsig.specs.Data.{RrsigText, RefusesRrsig};
ghost use Rattle.domain_octets.specs.Octets.{IsOver};
ghost use Rattle.domain_base.specs.Scan.{ReadsTokens};
ghost use Rattle.std.specs.Hash as fed;
ghost use Rattle.domain_base.specs.Types as rtypes;

use crate::proto_rrsig::ProtoFields;
use crate::{ProtoRrsig, Timestamp};
use domain_base::{
    CanonicalOrd, Name, ParsedName, Rtype, ScanError, Scanner, SecurityAlgorithm, ToName, Ttl,
};
use domain_codecs::Codec;
use domain_fields::{
    AtMost, Block, Comment, Fields, Form, InBase64, MAX_RDLEN, Pieces, ReadFields, Rest,
    ScanFields, Scanned, Token,
};
use domain_octets::{
    AppendError, CopyOctets, Formatter, FromBuilder, Octets, OctetsBuilder, OctetsFrom,
    OutOfMemory, ParseError, Parser, TryClone, ZonefileFmt, laws,
};
use domain_record::{
    CloneRecordData, ComposeRecordData, LongRecordData, ParseRecordData, RecordData, both,
};
use std::alloc::Global;
use std::cmp::Ordering;
use std::fmt;
use std::hash::{Hash, Hasher};
use std::marker::Model;

/// A signature of the records of one owner, class and type (RFC 4034, section 3). The data have at
/// most 65,535 octets.
#[derive(Drop)]
pub struct Rrsig<O: Octets, N: ToName> {
    pub(crate) fields: ProtoRrsig<N>,
    pub(crate) signature: O,
}

impl<O: Octets, N: ToName> Model for Rrsig<O, N> {
    ghost use Rattle.std.specs.Prelude.{◌≤◌, length};
    ghost use Rattle.domain_rrsig.specs.Data.{RrsigData, rrsig_data, rrsig_octets};

    ghost Value = { RrsigData };

    ghost view = { λ d. rrsig_data d.fields (O.octets d.signature) };

    ghost invariant = { λ d. length (rrsig_octets (rrsig_data d.fields (O.octets d.signature)))
        ≤ 65535 };
}

/// The fields except the signature, and all octets after them. Together at most 65,535 octets.
type RrsigFields<'a> = (AtMost<MAX_RDLEN>, (ProtoFields<'a>, Rest<'a>));

/// Returns whether these fields and this signature have at most 65,535 octets.
pub(crate) fn fits<O: Octets, N: ToName>(fields: &ProtoRrsig<N>, signature: &O) -> bool
    ensures { IsTrue result ↔ (length
        (rrsig_octets (rrsig_data fields.now (O.octets signature.now))) ≤ 65535) }
{
    let data: RrsigFields<'_> = (AtMost, (fields.fields(), Rest(signature.as_slice())));
    data.room_after(MAX_RDLEN).is_some()
}

impl<O: Octets, N: ToName> Rrsig<O, N> {
    /// Returns the data with these fields, in the order of the wire (RFC 4034, section 3.1). Does
    /// not allocate.
    ///
    /// # Errors
    ///
    /// `LongRecordData` if and only if the data would have more than 65,535 octets.
    pub fn new(
        type_covered: Rtype,
        algorithm: SecurityAlgorithm,
        labels: u8,
        original_ttl: Ttl,
        expiration: Timestamp,
        inception: Timestamp,
        key_tag: u16,
        signer_name: N,
        signature: O,
    ) -> Result<Self, LongRecordData>
    where
        O: Drop,
        N: Drop,
        ensures ok { let d = proto_rrsig_data type_covered algorithm labels original_ttl expiration
            inception key_tag (N.labels signer_name) in
            IsOk result ↔ (length (rrsig_octets (rrsig_data d (O.octets signature))) ≤ 65535) }
        ensures fields { let d = proto_rrsig_data type_covered algorithm labels original_ttl
            expiration inception key_tag (N.labels signer_name) in
            IfOk result (λ made. made ≡ rrsig_data d (O.octets signature)) }
    {
        let fields = ProtoRrsig::new(
            type_covered,
            algorithm,
            labels,
            original_ttl,
            expiration,
            inception,
            key_tag,
            signer_name,
        );
        fields.into_rrsig(signature)
    }

    /// Returns the data with these fields, which have at most 65,535 octets. Does not allocate.
    pub fn new_unchecked(
        type_covered: Rtype,
        algorithm: SecurityAlgorithm,
        labels: u8,
        original_ttl: Ttl,
        expiration: Timestamp,
        inception: Timestamp,
        key_tag: u16,
        signer_name: N,
        signature: O,
    ) -> Self
        requires { let d = proto_rrsig_data type_covered algorithm labels original_ttl expiration
            inception key_tag (N.labels signer_name) in
            length (rrsig_octets (rrsig_data d (O.octets signature))) ≤ 65535 }
        ensures { let d = proto_rrsig_data type_covered algorithm labels original_ttl expiration
            inception key_tag (N.labels signer_name) in
            result ≡ rrsig_data d (O.octets signature) }
    {
        let fields = ProtoRrsig::new(
            type_covered,
            algorithm,
            labels,
            original_ttl,
            expiration,
            inception,
            key_tag,
            signer_name,
        );
        Rrsig { fields, signature }
    }

    /// Returns the type of the signed records (RFC 4034, section 3.1.1).
    pub fn type_covered(&self) -> Rtype
        ensures { result ≡ self.now.fields.type_covered }
    {
        self.fields.type_covered
    }

    /// Returns the algorithm of the key (RFC 4034, section 3.1.2).
    pub fn algorithm(&self) -> SecurityAlgorithm
        ensures { result ≡ self.now.fields.algorithm }
    {
        self.fields.algorithm
    }

    /// Returns the number of labels of the records' owner, without a leading asterisk and the root
    /// (RFC 4034, section 3.1.3).
    pub fn labels(&self) -> u8
        ensures { result ≡ self.now.fields.labels }
    {
        self.fields.labels
    }

    /// Returns the TTL of the records in their zone (RFC 4034, section 3.1.4).
    pub fn original_ttl(&self) -> Ttl
        ensures { result ≡ self.now.fields.original_ttl }
    {
        self.fields.original_ttl
    }

    /// Returns the end of the signature's validity (RFC 4034, section 3.1.5).
    pub fn expiration(&self) -> Timestamp
        ensures { result ≡ self.now.fields.expiration }
    {
        self.fields.expiration
    }

    /// Returns the beginning of the signature's validity (RFC 4034, section 3.1.5).
    pub fn inception(&self) -> Timestamp
        ensures { result ≡ self.now.fields.inception }
    {
        self.fields.inception
    }

    /// Returns the tag of the key (RFC 4034, section 3.1.6).
    pub fn key_tag(&self) -> u16
        ensures { result ≡ self.now.fields.key_tag }
    {
        self.fields.key_tag
    }

    /// Returns the owner of the key, as it is spelled (RFC 4034, section 3.1.7).
    pub fn signer_name(&self) -> &N
        ensures { N.labels result.now ≡ self.now.fields.signer_name }
    {
        &self.fields.signer_name
    }

    /// Returns the signature (RFC 4034, section 3.1.8).
    pub fn signature(&self) -> &O
        ensures { O.octets result.now ≡ self.now.signature }
    {
        &self.signature
    }

    /// Returns whether the data would have at most 65,535 octets with this signature.
    pub fn fits_signature(&self, signature: &O) -> bool
        ensures { IsTrue result ↔ (length
            (rrsig_octets (rrsig_data self.now.fields (O.octets signature.now))) ≤ 65535) }
    {
        fits(&self.fields, signature)
    }

    /// Replaces the signature. The data must have at most 65,535 octets with the new one.
    pub fn set_signature(&mut self, signature: O)
    where
        O: Drop,
        requires { length (rrsig_octets (rrsig_data self.old.fields (O.octets signature))) ≤ 65535 }
        ensures { self.new ≡ rrsig_data self.old.fields (O.octets signature) }
    {
        self.signature = signature;
    }

    /// Returns the same data over a name with the same labels and an equal list of octets.
    pub fn with_octets<P: Octets, M: ToName>(&self, signer_name: M, signature: P) -> Rrsig<P, M>
        requires signer { M.labels signer_name ≡ self.now.fields.signer_name }
        requires signature { P.octets signature ≡ self.now.signature }
        ensures { result ≡ self.now }
    {
        let fields = ProtoRrsig::of_parts(self.fields.numbers(), signer_name);
        Rrsig { fields, signature }
    }

    /// Returns the fields, in the order of the wire.
    pub(crate) fn fields(&self) -> RrsigFields<'_>
        ensures numbers { result.1.0.0 ≡ rrsig_numbers_values self.now.fields }
        ensures signer { result.1.0.1 ≡ self.now.fields.signer_name }
        ensures signature { result.1.1.0.now ≡ self.now.signature }
        ensures fits { Fits rrsig_layout (rrsig_values self.now) }
        ensures limit { length (rrsig_octets self.now) ≤ 65535 }
    {
        let signature = self.signature.as_slice();
        laws::slices_hold_octets(signature);
        (AtMost, (self.fields.fields(), Rest(signature)))
    }
}

impl<'a> Rrsig<&'a [u8], ParsedName<'a>> {
    /// Reads all octets that are left as data. Does not allocate.
    ///
    /// # Errors
    ///
    /// `Form("record data too long")` if there are more than 65,535 octets, or else the first fault
    /// in field order. For a number, it is `ShortInput` if an octet is missing. For the name, the
    /// first label with a fault decides: `ShortInput` if an octet is missing, `Form("compressed or
    /// bad label")` at a length over 63 or a pointer, and `Form("long domain name")` at more than
    /// 255 octets. After an error the parser is unchanged.
    pub fn parse(parser: &mut Parser<'a>) -> Result<Self, ParseError>
        ensures { Reads rrsig_layout rrsig_values fault_of parser.old parser.new result }
    {
        let (AtMost, ((numbers, signer_name), Rest(signature))) = RrsigFields::<'a>::read(parser)?;
        let fields = ProtoRrsig::of_parts(numbers, signer_name);
        Ok(Rrsig { fields, signature })
    }
}

impl<'a> ParseRecordData<'a> for Rrsig<&'a [u8], ParsedName<'a>> {
    ghost is_read = { λ rtype. rtype ≡ rtypes.rrsig };

    ghost layout = { rrsig_layout };

    ghost values = { rrsig_values };

    fn parse_rdata(rtype: Rtype, parser: &mut Parser<'a>) -> Result<Option<Self>, ParseError> {
        if rtype != Rtype::RRSIG {
            return Ok(None);
        }
        Ok(Some(Self::parse(parser)?))
    }
}

impl<O: Octets, N: ToName> RecordData for Rrsig<O, N> {
    ghost rtype = { λ _. rtypes.rrsig };

    fn rtype(&self) -> Rtype {
        Rtype::RRSIG
    }
}

impl<O: Octets, N: ToName> ComposeRecordData for Rrsig<O, N> {
    ghost octets = { rrsig_octets };

    ghost canonical = { rrsig_canonical };

    fn room_after(&self, limit: usize) -> Option<usize> {
        self.fields().room_after(limit)
    }

    fn compose_in<B: OctetsBuilder>(&self, form: Form, target: &mut B) -> Result<(), AppendError> {
        self.fields().put(form, target)
    }

    fn canonical_cmp_octets(&self, other: &[u8]) -> Ordering {
        domain_fields::canonical_cmp_octets(&self.fields(), other)
    }
}

impl<O: Octets, N: ToName> Rrsig<O, N> {
    /// Returns whether a signature over another name and other octets is equal. Ignores the case of
    /// the signer's name.
    pub fn eq_to<P: Octets, M: ToName>(&self, other: &Rrsig<P, M>) -> bool
        ensures value { result ≡ bytes_eq (rrsig_canonical self.now) (rrsig_canonical other.now) }
        ensures same { IsTrue result ↔ IsSameRrsig self.now other.now }
    {
        domain_fields::canonical_eq(&self.fields(), &other.fields())
    }

    /// Compares with a signature over another name and other octets, field by field in the order of
    /// the wire. Times compare as plain numbers, and the signer's name by its lowered octets. This
    /// is the order of the canonical octets.
    pub fn cmp_to<P: Octets, M: ToName>(&self, other: &Rrsig<P, M>) -> Ordering
        ensures { result ≡ slice_cmp nat_cmp (rrsig_canonical self.now)
            (rrsig_canonical other.now) }
    {
        self.fields().order(&other.fields())
    }

    /// Compares with a signature over another name and other octets in canonical order, which is
    /// that of `cmp_to`.
    pub fn canonical_cmp_to<P: Octets, M: ToName>(&self, other: &Rrsig<P, M>) -> Ordering
        ensures { result ≡ slice_cmp nat_cmp (rrsig_canonical self.now)
            (rrsig_canonical other.now) }
    {
        self.cmp_to(other)
    }
}

impl<O: Octets, N: ToName> CanonicalOrd for Rrsig<O, N> {
    ghost canonical_cmp = { on rrsig_canonical (slice_cmp nat_cmp) };

    ghost total = { on_texts rrsig_canonical };

    fn canonical_cmp(&self, other: &Self) -> Ordering {
        self.cmp_to(other)
    }
}

impl<O: Octets, N: ToName> PartialEq for Rrsig<O, N> {
    ghost eq = { on rrsig_canonical bytes_eq };

    ghost laws = { partial_equiv_from_equiv (on_texts_equal rrsig_canonical) };

    fn eq(&self, other: &Self) -> bool {
        self.eq_to(other)
    }
}

impl<O: Octets, N: ToName> Eq for Rrsig<O, N> {
    ghost laws = { on_texts_equal rrsig_canonical };
}

impl<O: Octets, N: ToName> PartialOrd for Rrsig<O, N> {
    ghost partial_cmp = { λ a b. Some (on rrsig_canonical (slice_cmp nat_cmp) a b) };

    ghost laws = { po (on_texts rrsig_canonical) (tied_octets rrsig_canonical) };

    fn partial_cmp(&self, other: &Self) -> Option<Ordering> {
        Some(self.cmp_to(other))
    }
}

impl<O: Octets, N: ToName> Ord for Rrsig<O, N> {
    ghost cmp = { on rrsig_canonical (slice_cmp nat_cmp) };

    ghost total = { on_texts rrsig_canonical };

    ghost matches_partial_cmp = { λ a b. refl };

    ghost matches_eq = { tied_octets rrsig_canonical };

    fn cmp(&self, other: &Self) -> Ordering {
        self.cmp_to(other)
    }
}

impl<O: Octets, N: ToName> Hash for Rrsig<O, N> {
    ghost hash_input = { λ d. flat_map fed.u8 (rrsig_canonical d) };

    ghost respects_eq = { (fed_alike rrsig_canonical).fed };

    fn hash<H: Hasher>(&self, state: &mut H) {
        self.fields().feed(state);
    }
}

impl<O: Octets + Drop, N: ToName + Drop> Rrsig<O, N> {
    /// Returns a copy. Uses the allocators of the name and of the signature.
    pub fn clone(&self) -> Result<Self, OutOfMemory>
        ensures { IfOk result (λ copy. copy ≡ self.now) }
    {
        let fields = self.fields.clone()?;
        let signature = self.signature.try_clone()?;
        Ok(Rrsig { fields, signature })
    }
}

impl<O: Octets + Drop, N: ToName + Drop> TryClone for Rrsig<O, N> {
    ghost is_clone = { λ d copy. copy ≡ d };

    fn try_clone(&self) -> Result<Self, OutOfMemory> {
        self.clone()
    }
}

impl<O: Octets + Drop, N: ToName + Drop> CloneRecordData for Rrsig<O, N> {
    ghost clone_rtype = { λ d copy same. refl };

    ghost clone_canonical = { copies_tied rrsig_canonical };
}

impl<N: ToName + Drop, O: CopyOctets> OctetsFrom<ProtoRrsig<N>> for ProtoRrsig<Name<O>> {
    ghost is_same = { λ source made. made ≡ source };

    ghost has_no_room = { λ source. IsOver O.capacity (length (wire_of source.signer_name)) };

    ghost takes_memory = { IsNone O.capacity };

    fn try_octets_from(alloc: Global, source: ProtoRrsig<N>) -> Result<Self, AppendError> {
        let numbers = source.numbers();
        let name = Name::<O>::try_octets_from(alloc, source.signer_name)?;
        Ok(ProtoRrsig::of_parts(numbers, name))
    }
}

impl<S: Octets + Drop, N: ToName + Drop, O: CopyOctets + Drop> OctetsFrom<Rrsig<S, N>>
    for Rrsig<O, Name<O>> {
    ghost is_same = { λ source made. made ≡ source };

    ghost has_no_room = { λ source. IsOver O.capacity (length (wire_of source.fields.signer_name))
        ⊎ IsOver O.capacity (length source.signature) };

    ghost takes_memory = { IsNone O.capacity };

    fn try_octets_from(alloc: Global, source: Rrsig<S, N>) -> Result<Self, AppendError> {
        let Rrsig { fields, signature } = source;
        let fields = ProtoRrsig::<Name<O>>::try_octets_from(alloc, fields);
        let signature = O::copy_octets(alloc, signature.as_slice());
        let (fields, signature) = both(fields, signature)?;
        Ok(Rrsig { fields, signature })
    }
}

/// All fields except the signature, in the order of their tokens.
type ScannedFields<N> = (
    Rtype,
    ((u8, (u8, u32)), (Timestamp, (Timestamp, (u16, Scanned<N>)))),
);

/// Parses all fields except the signature, one token for each.
fn scan_fields<S: Scanner>(alloc: Global, scanner: &mut S) -> Result<ProtoRrsig<S::Name>, ScanError>
    ensures { ReadsTokens rrsig_fields_text rrsig_fields
        (RefusesRrsigFields S.Octets.Builder.limit) (S.tokens scanner.old) (S.tokens scanner.new)
        result }
{
    let (type_covered, (lengths, (expiration, (inception, signer)))) = <ScannedFields<
        S::Name,
    > as ScanFields<S>>::scan(alloc, scanner)?;
    let (algorithm, (labels, original_ttl)) = lengths;
    let (key_tag, Scanned(signer_name)) = signer;
    Ok(ProtoRrsig::new(
        type_covered,
        SecurityAlgorithm::from_int(algorithm),
        labels,
        Ttl::from_secs(original_ttl),
        expiration,
        inception,
        key_tag,
        signer_name,
    ))
}

impl<O: FromBuilder + Drop, N: ToName + Drop> Rrsig<O, N> {
    /// Parses all remaining tokens as data:
    ///
    /// - the type covered, by its name or as `TYPE` and its number;
    /// - algorithm, labels and TTL in decimal;
    /// - expiration, inception, and the key tag in decimal;
    /// - the signer's name;
    /// - the signature in Base 64, in any number of tokens, or in none.
    ///
    /// # Errors
    ///
    /// The error of the first field that has one, then that of the codec, then `Custom("record data
    /// too long")` for data of more than 65,535 octets. The tokens left are then an end of those
    /// before.
    pub fn scan<S: Scanner<Octets = O, Name = N>>(
        alloc: Global,
        scanner: &mut S,
    ) -> Result<Self, ScanError>
        ensures { ReadsTokens (AllTokens RrsigText) (λ d. d) (RefusesRrsig O.Builder.limit)
            (S.tokens scanner.old) (S.tokens scanner.new) result }
    {
        let fields = scan_fields(alloc, scanner)?;
        let signature = scanner.convert_entry(alloc, Codec::Base64)?;
        match fields.into_rrsig(signature) {
            Ok(data) => Ok(data),
            Err(_) => Err(ScanError::Custom("record data too long")),
        }
    }
}

/// Writes the fields with single spaces: the TTL in seconds, the signer's name with its last dot,
/// and the signature in Base 64. If the signature is empty, the text ends in a space.
impl<O: Octets, N: ToName> fmt::Display for Rrsig<O, N> {
    ghost output = { λ d. Some (rrsig_text d) };

    fn fmt<W: fmt::Write>(&self, f: &mut fmt::Formatter<W>) -> fmt::Result {
        write!(
            f,
            "{} {} {} {} {} {} {} {} {}",
            self.type_covered(),
            self.algorithm(),
            self.labels(),
            self.original_ttl(),
            self.expiration(),
            self.inception(),
            self.key_tag(),
            self.signer_name().fmt_with_dot(),
            InBase64(self.signature().as_slice())
        )
    }
}

impl<O: Octets, N: ToName + fmt::Debug> fmt::Debug for Rrsig<O, N> {
    fn fmt<W: fmt::Write>(&self, f: &mut fmt::Formatter<W>) -> fmt::Result {
        f.debug_struct("Rrsig")
            .field("type_covered", &self.type_covered())
            .field("algorithm", &self.algorithm())
            .field("labels", &self.labels())
            .field("original_ttl", &self.original_ttl())
            .field("expiration", &self.expiration())
            .field("inception", &self.inception())
            .field("key_tag", &self.key_tag())
            .field("signer_name", self.signer_name())
            .field("signature", &self.signature().as_slice())
            .finish()
    }
}

/// Writes the fields, with comments on all except the type covered, the algorithm and the
/// signature.
impl<O: Octets, N: ToName> ZonefileFmt for Rrsig<O, N> {
    ghost pieces = { rrsig_pieces };

    fn fmt<F: Formatter>(&self, formatter: &mut F) -> Result<(), OutOfMemory> {
        let fields = &self.fields;
        let numbers = (
            (Token(fields.type_covered), Token(fields.algorithm)),
            (
                (Token(fields.labels), Comment("labels")),
                (
                    Token(fields.original_ttl.as_secs()),
                    Comment("original ttl"),
                ),
            ),
        );
        let times = (
            (Token(fields.expiration), Comment("expiration")),
            (Token(fields.inception), Comment("inception")),
        );
        let signer = (
            (Token(fields.key_tag), Comment("key tag")),
            (
                Token(fields.signer_name.fmt_with_dot()),
                Comment("signer name"),
            ),
        );
        let signature = Token(InBase64(self.signature.as_slice()));
        Block((numbers, (times, (signer, signature)))).write(formatter)
    }
}
