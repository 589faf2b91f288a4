//! What DNSKEY and DS data have in common: three numbers and then octets.
ghost use Rattle.std.specs.Prelude.{◌≡◌, ◌≤◌, ◌↔◌, ℕ, Some, IsTrue, IsOk, IfOk, IsNone, length, refl, bytes_eq};
ghost use Rattle.std.specs.{List.flat_map, Ordering.{on, nat_cmp}, Cmp.{partial_equiv_from_equiv, po}};
ghost use Rattle.std.specs.Cmp.Lexicographic.{slice_cmp, on_texts, on_texts_equal};
ghost use Rattle.domain_octets.specs.Octets.{IsOver};
ghost use Rattle.domain_names.specs.Wire.{fault_of};
ghost use Rattle.domain_codecs.specs.declared.codec.Codec.{Codec};
ghost use Rattle.domain_fields.specs.Layout.{Fits, Reads, copies_tied, fed_alike};
ghost use Rattle.domain_fields.specs.{Layout.tied_octets, Scan.AllTokens};
ghost use Rattle.domain_base.specs.Scan.{ReadsTokens};
ghost use Rattle.domain_keys.specs.Keys.{key_data, key_fields, key_values, key_octets, KeyText, RefusesKey};
ghost use Rattle.domain_keys.specs.Keys.{dnskey_text, dnskey_pieces, ds_text, ds_pieces};
ghost use Rattle.std.specs.Hash as fed;

use crate::flags::FlagsComment;
use crate::{Dnskey, Ds};
use domain_base::{CanonicalOrd, Rtype, ScanError, Scanner};
use domain_codecs::Codec;
use domain_fields::{
    AtMost, Block, Comment, Fields, Form, InBase16, InBase64, InLowerBase16, Pieces, ReadFields,
    Rest, ScanFields, Token,
};
use domain_octets::{
    AppendError, CopyOctets, Formatter, FromBuilder, Octets, OctetsBuilder, OctetsFrom,
    OutOfMemory, ParseError, Parser, TryClone, ZonefileFmt, laws,
};
use domain_record::{
    CloneRecordData, ComposeRecordData, LongRecordData, ParseRecordData, RecordData,
};
use std::alloc::Global;
use std::cmp::Ordering;
use std::fmt;
use std::hash::{Hash, Hasher};
use std::marker::{Model, PhantomData};

/// The greatest number of octets after the first four, in data of at most 65,535 octets.
const MOST: usize = 65531;

/// A number of 16 bits, two of 8 bits, and all octets that are left, at most `MOST`.
type KeyFields<'a> = (u16, (u8, (u8, (AtMost<MOST>, Rest<'a>))));

/// A kind of data: a key, or the digest of a key.
pub trait KeyKind {
    /// The number of the type of the records.
    ghost rtype: { ℕ };

    /// The codec in which the octets print.
    ghost codec: { Codec };

    /// Returns the type of the records.
    fn rtype() -> Rtype
        ensures { result ≡ rtype };

    /// Returns the codec in which the octets print.
    fn codec() -> Codec
        ensures { result ≡ codec };
}

/// Numbers and octets of kind `K`. The data have at most 65,535 octets.
#[derive(Drop)]
pub struct KeyData<O: Octets, K: KeyKind> {
    pub(crate) number: u16,
    pub(crate) first: u8,
    pub(crate) second: u8,
    octets: O,
    kind: PhantomData<K>,
}

impl<O: Octets, K: KeyKind> Model for KeyData<O, K> {
    ghost use Rattle.std.specs.Prelude.{◌≤◌, length};
    ghost use Rattle.domain_keys.specs.Keys.{KeyData};

    ghost Value = { KeyData };

    ghost view = { λ d. record {
      number = d.number;
      first = d.first;
      second = d.second;
      octets = O.octets d.octets;
    } };

    ghost invariant = { λ d. length (O.octets d.octets) ≤ 65531 };
}

impl<O: Octets, K: KeyKind> KeyData<O, K> {
    /// Returns the data with these fields, if they have at most 65,535 octets.
    #[tactic(auto, unfolding(domain_fields::specs::Layout::octets_of))]
    pub(crate) fn from_fields(
        number: u16,
        first: u8,
        second: u8,
        octets: O,
    ) -> Result<Self, LongRecordData>
    where
        O: Drop,
        ensures ok { IsOk result ↔ (length
            (key_octets (key_data number first second (O.octets octets))) ≤ 65535) }
        ensures fields { IfOk result (λ d. d ≡ key_data number first second (O.octets octets)) }
    {
        if octets.as_slice().len() > MOST {
            return Err(LongRecordData);
        }
        Ok(KeyData::from_fields_unchecked(number, first, second, octets))
    }

    /// Returns the data with these fields, which have at most 65,535 octets.
    #[tactic(auto, unfolding(domain_fields::specs::Layout::octets_of))]
    pub(crate) fn from_fields_unchecked(number: u16, first: u8, second: u8, octets: O) -> Self
        requires { length (key_octets (key_data number first second (O.octets octets))) ≤ 65535 }
        ensures { result ≡ key_data number first second (O.octets octets) }
    {
        KeyData {
            number,
            first,
            second,
            octets,
            kind: PhantomData,
        }
    }

    /// Returns the same data over an equal list of octets. Does not allocate.
    #[tactic(auto, unfolding(domain_fields::specs::Layout::octets_of))]
    pub fn with_octets<P: Octets>(&self, octets: P) -> KeyData<P, K>
        requires { P.octets octets ≡ self.now.octets }
        ensures { result ≡ self.now }
    {
        KeyData::from_fields_unchecked(self.number, self.first, self.second, octets)
    }

    /// Returns a copy. Uses the allocator of the octets.
    pub fn clone(&self) -> Result<Self, OutOfMemory>
        ensures { IfOk result (λ copy. copy ≡ self.now) }
    {
        Ok(self.with_octets(self.octets.try_clone()?))
    }

    /// Returns the octets.
    pub fn as_octets(&self) -> &O
        ensures { O.octets result.now ≡ self.now.octets }
    {
        &self.octets
    }

    /// Returns only the octets.
    pub fn into_octets(self) -> O
        ensures { O.octets result ≡ self.octets }
    {
        let KeyData { octets, .. } = self;
        octets
    }

    /// Converts the octets with `From`, and keeps the numbers. The result of `From` must have at
    /// most 65,531 octets.
    pub fn convert<P: Octets + From<O>>(self) -> KeyData<P, K>
        requires { (octets : O) (made : P) → O.octets octets ≡ self.octets
            → P.from_gives octets made → length (P.octets made) ≤ 65531 }
        ensures octets { (octets : O) × (made : P) × (O.octets octets ≡ self.octets)
            × P.from_gives octets made × (result.octets ≡ P.octets made) }
        ensures numbers { (result.number ≡ self.number) × (result.first ≡ self.first)
            × (result.second ≡ self.second) }
    {
        KeyData {
            number: self.number,
            first: self.first,
            second: self.second,
            octets: P::from(self.octets),
            kind: PhantomData,
        }
    }

    /// Returns the fields, in the order of the wire.
    pub(crate) fn fields(&self) -> KeyFields<'_>
        ensures values { (result.0 ≡ self.now.number) × (result.1.0 ≡ self.now.first)
            × (result.1.1.0 ≡ self.now.second) × (result.1.1.1.1.0.now ≡ self.now.octets) }
        ensures fits { Fits key_fields (key_values self.now) }
        ensures limit { length self.now.octets ≤ 65531 }
    {
        let octets = self.octets.as_slice();
        laws::slices_hold_octets(octets);
        let (number, first, second) = (self.number, self.first, self.second);
        (number, (first, (second, (AtMost, Rest(octets)))))
    }
}

impl<'a, K: KeyKind> KeyData<&'a [u8], K> {
    /// Reads all octets that are left as data. Does not allocate.
    ///
    /// # Errors
    ///
    /// `ShortInput` for fewer than four octets, or else `Form("record data too long")` for more
    /// than 65,535. After an error the parser is unchanged.
    pub fn parse(parser: &mut Parser<'a>) -> Result<Self, ParseError>
        ensures { Reads key_fields key_values fault_of parser.old parser.new result }
    {
        let (number, (first, (second, (AtMost, Rest(octets))))) = KeyFields::read(parser)?;
        Ok(KeyData {
            number,
            first,
            second,
            octets,
            kind: PhantomData,
        })
    }
}

impl<O: FromBuilder + Drop, K: KeyKind> KeyData<O, K> {
    /// Parses all remaining tokens as data: the numbers in decimal, and the octets in Base 64 for a
    /// key, or in Base 16 for a digest. The octets are in any number of tokens, or in none.
    ///
    /// # Errors
    ///
    /// The error of the first number that has one, then that of the codec, then `Custom("record
    /// data too long")` for data of more than 65,535 octets. The tokens left are then an end of
    /// those before.
    #[tactic(auto, unfolding(domain_fields::specs::Layout::octets_of))]
    pub fn scan<S: Scanner<Octets = O>>(alloc: Global, scanner: &mut S) -> Result<Self, ScanError>
        ensures { ReadsTokens (AllTokens (KeyText K.codec)) (λ d. d)
            (RefusesKey K.codec O.Builder.limit) (S.tokens scanner.old) (S.tokens scanner.new)
            result }
    {
        let (number, (first, second)) = <(u16, (u8, u8)) as ScanFields<S>>::scan(alloc, scanner)?;
        let decoded = scanner.convert_entry(alloc, K::codec())?;
        if decoded.as_slice().len() > MOST {
            return Err(ScanError::Custom("record data too long"));
        }
        Ok(KeyData::from_fields_unchecked(number, first, second, decoded))
    }
}

impl<'a, K: KeyKind> ParseRecordData<'a> for KeyData<&'a [u8], K> {
    ghost is_read = { λ rtype. rtype ≡ K.rtype };

    ghost layout = { key_fields };

    ghost values = { key_values };

    fn parse_rdata(rtype: Rtype, parser: &mut Parser<'a>) -> Result<Option<Self>, ParseError> {
        if rtype != K::rtype() {
            return Ok(None);
        }
        Ok(Some(Self::parse(parser)?))
    }
}

impl<O: Octets, K: KeyKind> RecordData for KeyData<O, K> {
    ghost rtype = { λ _. K.rtype };

    fn rtype(&self) -> Rtype {
        K::rtype()
    }
}

impl<O: Octets, K: KeyKind> ComposeRecordData for KeyData<O, K> {
    ghost octets = { key_octets };

    ghost canonical = { key_octets };

    fn room_after(&self, limit: usize) -> Option<usize> {
        self.fields().room_after(limit)
    }

    fn compose_in<B: OctetsBuilder>(&self, form: Form, target: &mut B) -> Result<(), AppendError> {
        self.fields().put(form, target)
    }

    fn canonical_cmp_octets(&self, other: &[u8]) -> Ordering {
        domain_fields::canonical_cmp_octets(&self.fields(), other)
    }
}

impl<O: Octets, K: KeyKind> KeyData<O, K> {
    /// Returns whether data over other octets are equal.
    pub fn eq_to<P: Octets>(&self, other: &KeyData<P, K>) -> bool
        ensures value { result ≡ bytes_eq (key_octets self.now) (key_octets other.now) }
        ensures same { IsTrue result ↔ (self.now ≡ other.now) }
    {
        domain_fields::canonical_eq(&self.fields(), &other.fields())
    }

    /// Compares with data over other octets, field by field. This is the order of the octets.
    pub fn cmp_to<P: Octets>(&self, other: &KeyData<P, K>) -> Ordering
        ensures { result ≡ slice_cmp nat_cmp (key_octets self.now) (key_octets other.now) }
    {
        self.fields().order(&other.fields())
    }

    /// Compares with data over other octets in canonical order, which is that of `cmp_to`.
    pub fn canonical_cmp_to<P: Octets>(&self, other: &KeyData<P, K>) -> Ordering
        ensures { result ≡ slice_cmp nat_cmp (key_octets self.now) (key_octets other.now) }
    {
        self.cmp_to(other)
    }
}

impl<O: Octets, K: KeyKind> CanonicalOrd for KeyData<O, K> {
    ghost canonical_cmp = { on key_octets (slice_cmp nat_cmp) };

    ghost total = { on_texts key_octets };

    fn canonical_cmp(&self, other: &Self) -> Ordering {
        self.cmp_to(other)
    }
}

impl<O: Octets, K: KeyKind> PartialEq for KeyData<O, K> {
    ghost eq = { on key_octets bytes_eq };

    ghost laws = { partial_equiv_from_equiv (on_texts_equal key_octets) };

    fn eq(&self, other: &Self) -> bool {
        self.eq_to(other)
    }
}

impl<O: Octets, K: KeyKind> Eq for KeyData<O, K> {
    ghost laws = { on_texts_equal key_octets };
}

impl<O: Octets, K: KeyKind> PartialOrd for KeyData<O, K> {
    ghost partial_cmp = { λ a b. Some (on key_octets (slice_cmp nat_cmp) a b) };

    ghost laws = { po (on_texts key_octets) (tied_octets key_octets) };

    fn partial_cmp(&self, other: &Self) -> Option<Ordering> {
        Some(self.cmp_to(other))
    }
}

impl<O: Octets, K: KeyKind> Ord for KeyData<O, K> {
    ghost cmp = { on key_octets (slice_cmp nat_cmp) };

    ghost total = { on_texts key_octets };

    ghost matches_partial_cmp = { λ a b. refl };

    ghost matches_eq = { tied_octets key_octets };

    fn cmp(&self, other: &Self) -> Ordering {
        self.cmp_to(other)
    }
}

impl<O: Octets, K: KeyKind> Hash for KeyData<O, K> {
    ghost hash_input = { λ d. flat_map fed.u8 (key_octets d) };

    ghost respects_eq = { (fed_alike key_octets).fed };

    fn hash<H: Hasher>(&self, state: &mut H) {
        self.fields().feed(state);
    }
}

impl<O: Octets, K: KeyKind> TryClone for KeyData<O, K> {
    ghost is_clone = { λ d copy. copy ≡ d };

    fn try_clone(&self) -> Result<Self, OutOfMemory> {
        self.clone()
    }
}

impl<O: Octets, K: KeyKind> CloneRecordData for KeyData<O, K> {
    ghost clone_rtype = { λ d copy same. refl };

    ghost clone_canonical = { copies_tied key_octets };
}

impl<S: Octets + Drop, O: CopyOctets, K: KeyKind> OctetsFrom<KeyData<S, K>> for KeyData<O, K> {
    ghost is_same = { λ source made. made ≡ source };

    ghost has_no_room = { λ source. IsOver O.capacity (length source.octets) };

    ghost takes_memory = { IsNone O.capacity };

    fn try_octets_from(alloc: Global, source: KeyData<S, K>) -> Result<Self, AppendError> {
        let octets = O::copy_octets(alloc, source.octets.as_slice())?;
        Ok(source.with_octets(octets))
    }
}

/// Writes flags, protocol, algorithm and the key in Base 64, with single spaces. If the key is
/// empty, the text ends in a space.
impl<O: Octets> fmt::Display for Dnskey<O> {
    ghost output = { λ d. Some (dnskey_text d) };

    fn fmt<W: fmt::Write>(&self, f: &mut fmt::Formatter<W>) -> fmt::Result {
        let (flags, protocol, algorithm) = (self.flags(), self.protocol(), self.algorithm());
        let key = InBase64(self.public_key().as_slice());
        write!(f, "{flags} {protocol} {algorithm} {key}")
    }
}

impl<O: Octets> fmt::Debug for Dnskey<O> {
    fn fmt<W: fmt::Write>(&self, f: &mut fmt::Formatter<W>) -> fmt::Result {
        f.debug_struct("Dnskey")
            .field("flags", &self.flags())
            .field("protocol", &self.protocol())
            .field("algorithm", &self.algorithm())
            .field("public_key", &self.public_key().as_slice())
            .finish()
    }
}

/// Writes the fields, with comments on the flags, the protocol and the key tag.
impl<O: Octets> ZonefileFmt for Dnskey<O> {
    ghost pieces = { dnskey_pieces };

    fn fmt<F: Formatter>(&self, formatter: &mut F) -> Result<(), OutOfMemory> {
        let (flags, protocol, algorithm) = (self.flags(), self.protocol(), self.algorithm());
        let key = InBase64(self.public_key().as_slice());
        let flags = (Token(flags), Comment(FlagsComment(flags)));
        let protocol = (Token(protocol), Comment("protocol"));
        let key = (
            Token(key),
            Comment(format_args!("key tag: {}", self.key_tag())),
        );
        Block((flags, (protocol, (Token(algorithm), key)))).write(formatter)
    }
}

/// Writes key tag, algorithm, digest type and the digest in Base 16, in lower case, with single
/// spaces. If the digest is empty, the text ends in a space.
impl<O: Octets> fmt::Display for Ds<O> {
    ghost output = { λ d. Some (ds_text d) };

    fn fmt<W: fmt::Write>(&self, f: &mut fmt::Formatter<W>) -> fmt::Result {
        let (key_tag, algorithm) = (self.key_tag(), self.algorithm());
        let digest_type = self.digest_type();
        let digest = InLowerBase16(self.digest().as_slice());
        write!(f, "{key_tag} {algorithm} {digest_type} {digest}")
    }
}

impl<O: Octets> fmt::Debug for Ds<O> {
    fn fmt<W: fmt::Write>(&self, f: &mut fmt::Formatter<W>) -> fmt::Result {
        f.debug_struct("Ds")
            .field("key_tag", &self.key_tag())
            .field("algorithm", &self.algorithm())
            .field("digest_type", &self.digest_type())
            .field("digest", &self.digest().as_slice())
            .finish()
    }
}

/// Writes the fields, with a comment on the key tag. The digest is in upper case.
impl<O: Octets> ZonefileFmt for Ds<O> {
    ghost pieces = { ds_pieces };

    fn fmt<F: Formatter>(&self, formatter: &mut F) -> Result<(), OutOfMemory> {
        let (key_tag, algorithm) = (self.key_tag(), self.algorithm());
        let digest_type = self.digest_type();
        let digest = InBase16(self.digest().as_slice());
        let key_tag = (Token(key_tag), Comment("key tag"));
        let digest = (Token(digest_type), Token(digest));
        Block((key_tag, (Token(algorithm), digest))).write(formatter)
    }
}
