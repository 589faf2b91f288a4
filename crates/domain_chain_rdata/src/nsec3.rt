//! NSEC3 data, the next hash and the types at a hashed name: writing, comparing, hashing and
//! copying.
ghost use Rattle.std.specs.Prelude.{◌≡◌, ◌↔◌, ◌⊎◌, Some, IsTrue, IfOk, IsNone, length, refl, bytes_eq, IfSome};
ghost use Rattle.std.specs.{Ordering.{on, nat_cmp}, Cmp.{partial_equiv_from_equiv, po}};
ghost use Rattle.std.specs.{Cmp.Lexicographic.{slice_cmp, on_texts, on_texts_equal}, List.flat_map};
ghost use Rattle.domain_octets.specs.Octets.{IsOver};
ghost use Rattle.domain_names.specs.Wire.{fault_of};
ghost use Rattle.domain_fields.specs.Layout.{copies_tied, fed_alike, tied_octets, Fits};
ghost use Rattle.domain_fields.specs.Layout.{Reads};
ghost use Rattle.domain_chain_rdata.specs.Rdata.{is_opt_out, opt_out_comment, nsec3_layout, nsec3_values};
ghost use Rattle.domain_chain_rdata.specs.{Rdata.{nsec3_octets, nsec3param_values}, Text.Nsec3Text};
ghost use Rattle.domain_chain_rdata.specs.Text.{RefusesNsec3, params_before_hash, nsec3_text, nsec3_pieces};
ghost use Rattle.domain_bitmap.specs.{Blocks.types_of, Text.spaced_types};
ghost use Rattle.domain_base.specs.Scan.{ReadsTokens};
ghost use Rattle.std.specs.Hash as fed;
ghost use Rattle.domain_base.specs.Types as rtypes;

use crate::Nsec3param;
use crate::nsec3param::{HashNumbers, ParamFields, has_opt_out, params_of, write_numbers};
use domain_base::{CanonicalOrd, Nsec3HashAlgorithm, Rtype, ScanError, Scanner};
use domain_bitmap::{Nsec3Salt, OwnerHash, RtypeBitmap};
use domain_fields::{Counted, Fields, Form, ReadFields};
use domain_octets::{
    AppendError, CopyOctets, EmptyBuilder, Formatter, FreezeBuilder, FromBuilder, Octets,
    OctetsBuilder, OctetsFrom, OutOfMemory, ParseError, Parser, Truncate, TryClone, ZonefileFmt,
    laws,
};
use domain_record::{CloneRecordData, ComposeRecordData, ParseRecordData, RecordData, both};
use std::alloc::Global;
use std::cmp::Ordering;
use std::fmt;
use std::hash::{Hash, Hasher};

/// NSEC3 data: how names are hashed, the next hash of a zone's chain, and the types at the name
/// whose hash is in this record's owner (RFC 5155, section 3).
#[derive(Drop)]
#[derive_where(Debug)]
pub struct Nsec3<O: Octets> {
    hash_algorithm: Nsec3HashAlgorithm,
    flags: u8,
    iterations: u16,
    salt: Nsec3Salt<O>,
    next_owner: OwnerHash<O>,
    types: RtypeBitmap<O>,
}

/// The parameters, the next hash, and the types.
pub type Nsec3Fields<'a> = ((ParamFields<'a>, Counted<'a>), RtypeBitmap<&'a [u8]>);

impl<O: Octets> Nsec3<O> {
    /// Returns the data of these fields. Takes no memory.
    pub fn new(
        hash_algorithm: Nsec3HashAlgorithm,
        flags: u8,
        iterations: u16,
        salt: Nsec3Salt<O>,
        next_owner: OwnerHash<O>,
        types: RtypeBitmap<O>,
    ) -> Self
        ensures { result ≡ record {
          hash_algorithm = hash_algorithm;
          flags = flags;
          iterations = iterations;
          salt = salt;
          next_owner = next_owner;
          types = types;
        } }
    {
        Nsec3 {
            hash_algorithm,
            flags,
            iterations,
            salt,
            next_owner,
            types,
        }
    }

    /// Returns the data with these parameters, next hash and types.
    pub(crate) fn of_params(
        params: Nsec3param<O>,
        next_owner: OwnerHash<O>,
        types: RtypeBitmap<O>,
    ) -> Self
        ensures { nsec3_values result ≡ ((nsec3param_values params, next_owner), types) }
    {
        let (hash_algorithm, flags) = (params.hash_algorithm(), params.flags());
        let (iterations, salt) = (params.iterations(), params.into_salt());
        Nsec3::new(hash_algorithm, flags, iterations, salt, next_owner, types)
    }

    /// Returns the hash algorithm (RFC 5155, section 3.1.1).
    pub fn hash_algorithm(&self) -> Nsec3HashAlgorithm
        ensures { result ≡ self.now.hash_algorithm }
    {
        self.hash_algorithm
    }

    /// Returns the flags (RFC 5155, section 3.1.2).
    pub fn flags(&self) -> u8
        ensures { result ≡ self.now.flags }
    {
        self.flags
    }

    /// Returns whether the Opt-Out bit, 0x01, is set. Unsigned delegations may then be left out
    /// between this hash and the next (RFC 5155, section 3.1.2.1).
    pub fn opt_out(&self) -> bool
        ensures { result ≡ is_opt_out self.now.flags }
    {
        has_opt_out(self.flags)
    }

    /// Returns the number of additional iterations of the hash (RFC 5155, section 3.1.3).
    pub fn iterations(&self) -> u16
        ensures { result ≡ self.now.iterations }
    {
        self.iterations
    }

    /// Returns the salt, which is hashed after a name (RFC 5155, section 3.1.5).
    pub fn salt(&self) -> &Nsec3Salt<O>
        ensures { result.now ≡ self.now.salt }
    {
        &self.salt
    }

    /// Returns the next hash of the chain (RFC 5155, section 3.1.7).
    pub fn next_owner(&self) -> &OwnerHash<O>
        ensures { result.now ≡ self.now.next_owner }
    {
        &self.next_owner
    }

    /// Replaces the next hash.
    pub fn set_next_owner(&mut self, next_owner: OwnerHash<O>)
    where
        O: Drop,
        ensures { self.new ≡ record self.old { next_owner = next_owner } }
    {
        self.next_owner = next_owner;
    }

    /// Returns the types at the name that was hashed (RFC 5155, section 3.1.8).
    pub fn types(&self) -> &RtypeBitmap<O>
        ensures { result.now ≡ self.now.types }
    {
        &self.types
    }

    /// Replaces the types.
    pub fn set_types(&mut self, types: RtypeBitmap<O>)
    where
        O: Drop,
        ensures { self.new ≡ record self.old { types = types } }
    {
        self.types = types;
    }

    /// Returns the first three fields: hash algorithm, flags and iterations.
    pub(crate) fn numbers(&self) -> HashNumbers
        ensures { result ≡ (nsec3_values self.now).0.0.0 }
    {
        (
            self.hash_algorithm().to_int(),
            (self.flags(), self.iterations()),
        )
    }

    /// Returns the fields, in wire order.
    pub(crate) fn fields(&self) -> Nsec3Fields<'_>
        ensures values { nsec3_values self.now ≡ (
          ((result.0.0.0, result.0.0.1.octets.now), result.0.1.octets.now),
          result.1,
        ) }
        ensures fits { Fits nsec3_layout (nsec3_values self.now) }
    {
        let salt = Counted::new(self.salt.as_slice());
        let next_owner = Counted::new(self.next_owner.as_slice());
        let types = self.types.as_slice();
        laws::slices_hold_octets(salt.as_slice());
        laws::slices_hold_octets(next_owner.as_slice());
        laws::slices_hold_octets(types);
        (
            ((self.numbers(), salt), next_owner),
            self.types.with_octets(types),
        )
    }
}

impl<'a> Nsec3<&'a [u8]> {
    /// Parses all octets that are left as hash algorithm, flags, iterations, a counted salt, a
    /// counted hash and a type bitmap (RFC 5155, section 3.2). Takes no memory.
    ///
    /// # Errors
    ///
    /// The first fault in field order. The parser does not move then.
    ///
    /// - `ShortInput` if an octet is missing.
    /// - `Form("invalid NSEC bitmap")` if a block of the bitmap has no octets or more than 32.
    pub fn parse(parser: &mut Parser<'a>) -> Result<Self, ParseError>
        ensures { Reads nsec3_layout nsec3_values fault_of parser.old parser.new result }
    {
        let ((params, hash), types) = Nsec3Fields::<'a>::read(parser)?;
        let next_owner = OwnerHash::from_octets_unchecked(hash.as_slice());
        Ok(Nsec3::of_params(params_of(params), next_owner, types))
    }
}

impl<'a> ParseRecordData<'a> for Nsec3<&'a [u8]> {
    ghost is_read = { λ rtype. rtype ≡ rtypes.nsec3 };

    ghost layout = { nsec3_layout };

    ghost values = { nsec3_values };

    fn parse_rdata(rtype: Rtype, parser: &mut Parser<'a>) -> Result<Option<Self>, ParseError> {
        if rtype != Rtype::NSEC3 {
            return Ok(None);
        }
        Ok(Some(Self::parse(parser)?))
    }
}

impl<O: Octets> RecordData for Nsec3<O> {
    ghost rtype = { λ _. rtypes.nsec3 };

    fn rtype(&self) -> Rtype {
        Rtype::NSEC3
    }
}

impl<O: Octets> ComposeRecordData for Nsec3<O> {
    ghost octets = { nsec3_octets };

    ghost canonical = { nsec3_octets };

    fn room_after(&self, limit: usize) -> Option<usize> {
        self.fields().room_after(limit)
    }

    fn compose_in<B: OctetsBuilder>(&self, form: Form, target: &mut B) -> Result<(), AppendError> {
        self.fields().put(form, target)
    }

    fn canonical_cmp_octets(&self, other: &[u8]) -> Ordering {
        domain_fields::canonical_cmp_octets(&self.fields(), other)
    }
}

impl<O: Octets> CanonicalOrd for Nsec3<O> {
    ghost canonical_cmp = { on nsec3_octets (slice_cmp nat_cmp) };

    ghost total = { on_texts nsec3_octets };

    fn canonical_cmp(&self, other: &Self) -> Ordering {
        self.canonical_cmp_to(other)
    }
}

impl<O: Octets> Nsec3<O> {
    /// Returns whether the data are equal. The types of octets may differ. Takes no memory.
    pub fn eq_to<P: Octets>(&self, other: &Nsec3<P>) -> bool
        ensures value { result ≡ bytes_eq (nsec3_octets self.now) (nsec3_octets other.now) }
        ensures same { IsTrue result ↔ (nsec3_values self.now ≡ nsec3_values other.now) }
    {
        domain_fields::canonical_eq(&self.fields(), &other.fields())
    }

    /// Compares the fields in wire order, with shorter salts and hashes first. This is the order of
    /// the octets. The types of octets may differ. Takes no memory.
    pub fn cmp_to<P: Octets>(&self, other: &Nsec3<P>) -> Ordering
        ensures { result ≡ slice_cmp nat_cmp (nsec3_octets self.now) (nsec3_octets other.now) }
    {
        self.fields().order(&other.fields())
    }

    /// Compares in canonical order, which is that of `cmp_to`.
    pub fn canonical_cmp_to<P: Octets>(&self, other: &Nsec3<P>) -> Ordering
        ensures { result ≡ slice_cmp nat_cmp (nsec3_octets self.now) (nsec3_octets other.now) }
    {
        self.cmp_to(other)
    }
}

impl<O: Octets> PartialEq for Nsec3<O> {
    ghost eq = { on nsec3_octets bytes_eq };

    ghost laws = { partial_equiv_from_equiv (on_texts_equal nsec3_octets) };

    fn eq(&self, other: &Self) -> bool {
        self.eq_to(other)
    }
}

impl<O: Octets> Eq for Nsec3<O> {
    ghost laws = { on_texts_equal nsec3_octets };
}

impl<O: Octets> PartialOrd for Nsec3<O> {
    ghost partial_cmp = { λ a b. Some (on nsec3_octets (slice_cmp nat_cmp) a b) };

    ghost laws = { po (on_texts nsec3_octets) (tied_octets nsec3_octets) };

    fn partial_cmp(&self, other: &Self) -> Option<Ordering> {
        Some(self.cmp_to(other))
    }
}

impl<O: Octets> Ord for Nsec3<O> {
    ghost cmp = { on nsec3_octets (slice_cmp nat_cmp) };

    ghost total = { on_texts nsec3_octets };

    ghost matches_partial_cmp = { λ a b. refl };

    ghost matches_eq = { tied_octets nsec3_octets };

    fn cmp(&self, other: &Self) -> Ordering {
        self.cmp_to(other)
    }
}

/// Hashes the octets.
impl<O: Octets> Hash for Nsec3<O> {
    ghost hash_input = { λ d. flat_map fed.u8 (nsec3_octets d) };

    ghost respects_eq = { (fed_alike nsec3_octets).fed };

    fn hash<H: Hasher>(&self, state: &mut H) {
        self.fields().feed(state);
    }
}

impl<O: Octets + Drop> Nsec3<O> {
    /// Returns a copy. Uses the allocators of the octets.
    pub fn clone(&self) -> Result<Self, OutOfMemory>
        ensures { IfOk result (λ copy. copy ≡ self.now) }
    {
        let salt = self.salt().clone()?;
        let next_owner = self.next_owner().clone()?;
        let types = self.types().clone()?;
        let (hash_algorithm, flags, iterations) = (
            self.hash_algorithm,
            self.flags,
            self.iterations,
        );
        Ok(Nsec3::new(hash_algorithm, flags, iterations, salt, next_owner, types))
    }
}

impl<O: Octets + Drop> TryClone for Nsec3<O> {
    ghost is_clone = { λ d copy. copy ≡ d };

    fn try_clone(&self) -> Result<Self, OutOfMemory> {
        self.clone()
    }
}

impl<O: Octets + Drop> CloneRecordData for Nsec3<O> {
    ghost clone_rtype = { λ d copy same. refl };

    ghost clone_canonical = { copies_tied nsec3_octets };
}

impl<S: Octets + Drop, O: CopyOctets + Drop> OctetsFrom<Nsec3<S>> for Nsec3<O> {
    ghost is_same = { λ source made. nsec3_values made ≡ nsec3_values source };

    ghost has_no_room = { λ source. (IsOver O.capacity (length source.salt)
        ⊎ IsOver O.capacity (length source.next_owner)) ⊎ IsOver O.capacity (length source.types) };

    ghost takes_memory = { IsNone O.capacity };

    fn try_octets_from(alloc: Global, source: Nsec3<S>) -> Result<Self, AppendError> {
        let salt = Nsec3Salt::try_octets_from(alloc, source.salt);
        let next_owner = OwnerHash::try_octets_from(alloc, source.next_owner);
        let types = RtypeBitmap::try_octets_from(alloc, source.types);
        let ((salt, next_owner), types) = both(both(salt, next_owner), types)?;
        let (hash_algorithm, flags) = (source.hash_algorithm, source.flags);
        let iterations = source.iterations;
        Ok(Nsec3::new(hash_algorithm, flags, iterations, salt, next_owner, types))
    }
}

impl<O: FromBuilder + Drop> Nsec3<O>
where
    O::Builder: EmptyBuilder + Truncate + FreezeBuilder<Frozen = O> + Drop,
{
    /// Reads all tokens that are left: hash algorithm, flags and iterations in decimal, the salt in
    /// Base 16 or as a dash, the next hash in Base 32 hex, and types, one type a token.
    ///
    /// # Errors
    ///
    /// That of the first token that is rejected. After an error, a suffix of the tokens is left.
    ///
    /// - `EndOfEntry` if the token is missing.
    /// - `Custom("decimal number expected")` or `Custom("unknown record type")` if it is not of its
    ///   form.
    /// - What `scan` of the salt or of the hash returns.
    /// - `ShortBuf` or `OutOfMemory` if the bitmap has no room or no memory.
    pub fn scan<S: Scanner<Octets = O>>(alloc: Global, scanner: &mut S) -> Result<Self, ScanError>
        ensures read { ReadsTokens Nsec3Text nsec3_values (RefusesNsec3 O.Builder.limit)
            (S.tokens scanner.old) (S.tokens scanner.new) result }
        ensures fits { IfOk result (λ d. Fits nsec3_layout (nsec3_values d)) }
    {
        let params = Nsec3param::scan(alloc, scanner)?;
        let next_owner = OwnerHash::scan(alloc, scanner)?;
        let types = RtypeBitmap::scan(alloc, scanner)?;
        let data = Nsec3::of_params(params, next_owner, types);
        let _fields = data.fields();
        Ok(data)
    }
}

impl<O: Octets> Nsec3<O> {
    /// Returns the comment for the flags.
    fn flags_comment(&self) -> &'static str
        ensures { result.now ≡ opt_out_comment self.now.flags }
    {
        if self.opt_out() {
            "flags: opt-out"
        } else {
            "flags: <none>"
        }
    }
}

/// The types, printed with a space before each.
#[derive(Drop)]
struct AfterSpaces<'a, O: Octets>(&'a RtypeBitmap<O>);

impl<'a, O: Octets> fmt::Display for AfterSpaces<'a, O> {
    ghost output = { λ t. Some (spaced_types (types_of t.0.now)) };

    #[tactic(auto, using(crate::proofs::TextLemmas::after_a_space), unfolding(domain_bitmap::specs::Text::spaced_types))]
    fn fmt<W: fmt::Write>(&self, f: &mut fmt::Formatter<W>) -> fmt::Result {
        let types = self.0;
        if types.is_empty() {
            return Ok(());
        }
        write!(f, " {types}")
    }
}

/// Returns the text of the recommended parameters, with a space after each, as it is written before
/// the hash. They are SHA-1, with or without Opt-Out, no iterations and no salt (RFC 9276, section
/// 3.1). Returns `None` for any other parameters.
#[tactic(auto, using(crate::proofs::TextLemmas::usual_text))]
fn usual_params(numbers: HashNumbers, salt: &[u8]) -> Option<&'static str>
    ensures { IfSome result (λ text. text.now ≡ params_before_hash numbers salt.now) }
{
    let (hash_algorithm, (flags, iterations)) = numbers;
    if hash_algorithm != 1 || iterations != 0 || !salt.is_empty() {
        return None;
    }
    match flags {
        0 => Some("1 0 0 - "),
        1 => Some("1 1 0 - "),
        _ => None,
    }
}

/// The parameters, printed with a space after each. Those of nearly all zones are written in one
/// piece.
#[derive(Drop)]
struct BeforeHash<'a, O: Octets>(HashNumbers, &'a Nsec3Salt<O>);

impl<'a, O: Octets> fmt::Display for BeforeHash<'a, O> {
    ghost output = { λ p. Some (params_before_hash p.0 p.1.now) };

    #[tactic(auto, unfolding(crate::specs::Text::hash_numbers_text))]
    fn fmt<W: fmt::Write>(&self, f: &mut fmt::Formatter<W>) -> fmt::Result {
        let (numbers, salt) = (self.0, self.1);
        if let Some(text) = usual_params(numbers, salt.as_slice()) {
            return f.write_str(text);
        }
        let (hash_algorithm, (flags, iterations)) = numbers;
        write!(f, "{hash_algorithm} {flags} {iterations} {salt} ")
    }
}

/// Writes the fields separated by single spaces. There is no space after the hash if there are no
/// types.
impl<O: Octets> fmt::Display for Nsec3<O> {
    ghost output = { λ d. Some (nsec3_text (nsec3_values d)) };

    fn fmt<W: fmt::Write>(&self, f: &mut fmt::Formatter<W>) -> fmt::Result {
        let params = BeforeHash(self.numbers(), self.salt());
        let types = AfterSpaces(self.types());
        write!(f, "{params}{}{types}", self.next_owner())
    }
}

/// Writes the fields with comments for the flags, the iterations and the salt. The comment for the
/// flags names only Opt-Out.
impl<O: Octets> ZonefileFmt for Nsec3<O> {
    ghost pieces = { λ d. nsec3_pieces (nsec3_values d) };

    fn fmt<F: Formatter>(&self, formatter: &mut F) -> Result<(), OutOfMemory> {
        formatter.begin_block()?;
        write_numbers(self.numbers(), self.flags_comment(), formatter)?;
        self.salt().fmt(formatter)?;
        formatter.write_token(self.next_owner())?;
        self.types().fmt(formatter)?;
        formatter.end_block()
    }
}
