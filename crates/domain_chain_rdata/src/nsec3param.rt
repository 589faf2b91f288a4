//! NSEC3PARAM data: the parameters of the hashes of a zone's names (RFC 5155, section 4).
ghost use Rattle.std.specs.Prelude.{◌≡◌, ◌↔◌, [], Some, IsTrue, IfOk, length, refl, bytes_eq, IsNone, ◌++◌};
ghost use Rattle.std.specs.{Prelude.OnOk, List.flat_map, Ordering.{on, nat_cmp}, Cmp.partial_equiv_from_equiv};
ghost use Rattle.std.specs.Cmp.{po, Lexicographic.{slice_cmp, on_texts, on_texts_equal}};
ghost use Rattle.domain_octets.specs.Octets.{IsOver};
ghost use Rattle.domain_names.specs.Wire.{fault_of};
ghost use Rattle.domain_fields.specs.Layout.{Fits, Reads, fed_alike, tied_octets};
ghost use Rattle.domain_fields.specs.Layout.{copies_tied};
ghost use Rattle.domain_chain_rdata.specs.Rdata.{is_opt_out, with_opt_out, nsec3param_layout, nsec3param_values};
ghost use Rattle.domain_chain_rdata.specs.Rdata.{nsec3param_octets, uncounted, uncounted_octets};
ghost use Rattle.domain_chain_rdata.specs.Text.{Nsec3paramText, RefusesNsec3param, hash_numbers_text};
ghost use Rattle.domain_chain_rdata.specs.Text.{nsec3param_text, number_pieces, nsec3param_pieces};
ghost use Rattle.domain_base.specs.Scan.{ReadsTokens};
ghost use Rattle.std.specs.Hash as fed;
ghost use Rattle.domain_base.specs.Types as rtypes;

use domain_base::{CanonicalOrd, Nsec3HashAlgorithm, Rtype, ScanError, Scanner};
use domain_bitmap::Nsec3Salt;
use domain_fields::{Counted, Fields, Form, ReadFields, Rest, ScanFields};
use domain_octets::{
    AppendError, CopyOctets, EmptyOctets, Formatter, FromBuilder, Octets, OctetsBuilder,
    OctetsFrom, OutOfMemory, ParseError, Parser, TryClone, ZonefileFmt, laws,
};
use domain_record::{CloneRecordData, ComposeRecordData, ParseRecordData, RecordData};
use std::alloc::Global;
use std::cmp::Ordering;
use std::fmt;
use std::hash::{Hash, Hasher};

/// The Opt-Out bit of the flags: unsigned delegations may be left out of the chain (RFC 5155,
/// section 3.1.2.1).
const OPT_OUT: u8 = 0x01;

/// NSEC3PARAM data: how the names of a zone are hashed (RFC 5155, section 4).
#[derive(Drop)]
#[derive_where(Debug)]
pub struct Nsec3param<O: Octets> {
    hash_algorithm: Nsec3HashAlgorithm,
    flags: u8,
    iterations: u16,
    salt: Nsec3Salt<O>,
}

/// Hash algorithm, flags and iterations.
pub type HashNumbers = (u8, (u8, u16));

/// Hash algorithm, flags, iterations and salt.
pub type ParamFields<'a> = (HashNumbers, Counted<'a>);

/// Returns whether the flags have the Opt-Out bit.
pub fn has_opt_out(flags: u8) -> bool
    ensures { result ≡ is_opt_out flags }
{
    flags & OPT_OUT != 0
}

impl<O: Octets> Nsec3param<O> {
    /// Returns the data of these fields. Takes no memory.
    pub fn new(
        hash_algorithm: Nsec3HashAlgorithm,
        flags: u8,
        iterations: u16,
        salt: Nsec3Salt<O>,
    ) -> Self
        ensures { result ≡ record {
          hash_algorithm = hash_algorithm;
          flags = flags;
          iterations = iterations;
          salt = salt;
        } }
    {
        Nsec3param {
            hash_algorithm,
            flags,
            iterations,
            salt,
        }
    }

    /// Returns the parameters that RFC 9276, section 3.1, recommends for zones: SHA-1, no flags, no
    /// extra iterations and no salt. Takes no memory.
    pub fn default(alloc: Global) -> Self
    where
        O: EmptyOctets,
        ensures { result ≡ record { hash_algorithm = 1; flags = 0; iterations = 0; salt = [] } }
    {
        Nsec3param::new(Nsec3HashAlgorithm::SHA1, 0, 0, Nsec3Salt::empty(alloc))
    }

    /// Returns a copy. Uses the allocator of the salt's octets.
    pub fn clone(&self) -> Result<Self, OutOfMemory>
        ensures { IfOk result (λ copy. copy ≡ self.now) }
    {
        let salt = self.salt.clone()?;
        Ok(Nsec3param::new(self.hash_algorithm, self.flags, self.iterations, salt))
    }

    /// Returns the hash algorithm (RFC 5155, section 4.1.1).
    pub fn hash_algorithm(&self) -> Nsec3HashAlgorithm
        ensures { result ≡ self.now.hash_algorithm }
    {
        self.hash_algorithm
    }

    /// Returns the flags (RFC 5155, section 4.1.2).
    pub fn flags(&self) -> u8
        ensures { result ≡ self.now.flags }
    {
        self.flags
    }

    /// Sets the Opt-Out bit, 0x01.
    pub fn set_opt_out_flag(&mut self)
        ensures { self.new ≡ record self.old { flags = with_opt_out self.old.flags } }
    {
        self.flags = self.flags | OPT_OUT;
    }

    /// Returns whether the Opt-Out bit is set.
    pub fn opt_out_flag(&self) -> bool
        ensures { result ≡ is_opt_out self.now.flags }
    {
        has_opt_out(self.flags)
    }

    /// Returns the number of additional iterations of the hash (RFC 5155, section 4.1.3).
    pub fn iterations(&self) -> u16
        ensures { result ≡ self.now.iterations }
    {
        self.iterations
    }

    /// Returns the salt, which is hashed after a name (RFC 5155, section 4.1.5).
    pub fn salt(&self) -> &Nsec3Salt<O>
        ensures { result.now ≡ self.now.salt }
    {
        &self.salt
    }

    /// Returns the salt, and drops the rest.
    pub fn into_salt(self) -> Nsec3Salt<O>
        ensures { result ≡ self.salt }
    {
        self.salt
    }

    /// Returns all fields except the salt.
    pub(crate) fn numbers(&self) -> HashNumbers
        ensures { result ≡ (nsec3param_values self.now).0 }
    {
        (
            self.hash_algorithm().to_int(),
            (self.flags(), self.iterations()),
        )
    }

    /// Returns the fields, in wire order.
    pub(crate) fn fields(&self) -> ParamFields<'_>
        ensures values { nsec3param_values self.now ≡ (result.0, result.1.octets.now) }
        ensures fits { Fits nsec3param_layout (nsec3param_values self.now) }
    {
        let salt = self.salt.as_slice();
        laws::slices_hold_octets(salt);
        (self.numbers(), Counted::new(salt))
    }

    /// Returns the numbers, and the octets of the salt without their count.
    fn uncounted(&self) -> (HashNumbers, Rest<'_>)
        ensures values { nsec3param_values self.now ≡ (result.0, result.1.0.now) }
        ensures fits { Fits uncounted (nsec3param_values self.now) }
    {
        let (numbers, salt) = self.fields();
        (numbers, Rest(salt.as_slice()))
    }
}

/// Returns the parameters of these fields.
pub fn params_of<'a>(fields: ParamFields<'a>) -> Nsec3param<&'a [u8]>
    ensures { nsec3param_values result ≡ (fields.entry.0, fields.entry.1.octets.now) }
{
    let ((hash_algorithm, (flags, iterations)), salt) = fields;
    Nsec3param {
        hash_algorithm: Nsec3HashAlgorithm::from_int(hash_algorithm),
        flags,
        iterations,
        salt: Nsec3Salt::from_octets_unchecked(salt.as_slice()),
    }
}

impl<'a> Nsec3param<&'a [u8]> {
    /// Parses parameters from the front of the octets, and leaves the rest (RFC 5155, section 4.2).
    /// Takes no memory.
    ///
    /// # Errors
    ///
    /// `ShortInput` if an octet is missing. The parser does not move then.
    pub fn parse(parser: &mut Parser<'a>) -> Result<Self, ParseError>
        ensures { Reads nsec3param_layout nsec3param_values fault_of parser.old parser.new result }
    {
        match ParamFields::<'a>::read(parser) {
            Ok(fields) => Ok(params_of(fields)),
            Err(fault) => Err(ParseError::from(fault)),
        }
    }
}

impl<'a> ParseRecordData<'a> for Nsec3param<&'a [u8]> {
    ghost is_read = { λ rtype. rtype ≡ rtypes.nsec3param };

    ghost layout = { nsec3param_layout };

    ghost values = { nsec3param_values };

    fn parse_rdata(rtype: Rtype, parser: &mut Parser<'a>) -> Result<Option<Self>, ParseError> {
        if rtype != Rtype::NSEC3PARAM {
            return Ok(None);
        }
        match Self::parse(parser) {
            Ok(data) => Ok(Some(data)),
            Err(error) => Err(error),
        }
    }
}

impl<O: Octets> RecordData for Nsec3param<O> {
    ghost rtype = { λ _. rtypes.nsec3param };

    fn rtype(&self) -> Rtype {
        Rtype::NSEC3PARAM
    }
}

impl<O: Octets> ComposeRecordData for Nsec3param<O> {
    ghost octets = { nsec3param_octets };

    ghost canonical = { nsec3param_octets };

    fn room_after(&self, limit: usize) -> Option<usize> {
        self.fields().room_after(limit)
    }

    fn compose_in<B: OctetsBuilder>(&self, form: Form, target: &mut B) -> Result<(), AppendError> {
        self.fields().put(form, target)
    }

    fn canonical_cmp_octets(&self, other: &[u8]) -> Ordering {
        domain_fields::canonical_cmp_octets(&self.fields(), other)
    }
}

impl<O: Octets> Nsec3param<O> {
    /// Returns whether the parameters are equal. The types of octets may differ. Takes no memory.
    pub fn eq_to<P: Octets>(&self, other: &Nsec3param<P>) -> bool
        ensures value { result ≡ bytes_eq (uncounted_octets self.now) (uncounted_octets other.now) }
        ensures same { IsTrue result ↔ (nsec3param_values self.now ≡ nsec3param_values other.now) }
    {
        domain_fields::canonical_eq(&self.uncounted(), &other.uncounted())
    }

    /// Compares by hash algorithm, flags, iterations and salt, with salts in lexicographic order.
    /// The types of octets may differ. Takes no memory.
    pub fn cmp_to<P: Octets>(&self, other: &Nsec3param<P>) -> Ordering
        ensures { result ≡ slice_cmp nat_cmp (uncounted_octets self.now)
            (uncounted_octets other.now) }
    {
        let (mine, theirs) = (self.uncounted(), other.uncounted());
        mine.order(&theirs)
    }

    /// Compares in canonical order, in which shorter salts come first. The types of octets may
    /// differ. Takes no memory.
    pub fn canonical_cmp_to<P: Octets>(&self, other: &Nsec3param<P>) -> Ordering
        ensures { result ≡ slice_cmp nat_cmp (nsec3param_octets self.now)
            (nsec3param_octets other.now) }
    {
        self.fields().order(&other.fields())
    }
}

impl<O: Octets> CanonicalOrd for Nsec3param<O> {
    ghost canonical_cmp = { on nsec3param_octets (slice_cmp nat_cmp) };

    ghost total = { on_texts nsec3param_octets };

    fn canonical_cmp(&self, other: &Self) -> Ordering {
        self.canonical_cmp_to(other)
    }
}

impl<O: Octets> PartialEq for Nsec3param<O> {
    ghost eq = { on uncounted_octets bytes_eq };

    ghost laws = { partial_equiv_from_equiv (on_texts_equal uncounted_octets) };

    fn eq(&self, other: &Self) -> bool {
        self.eq_to(other)
    }
}

impl<O: Octets> Eq for Nsec3param<O> {
    ghost laws = { on_texts_equal uncounted_octets };
}

impl<O: Octets> PartialOrd for Nsec3param<O> {
    ghost partial_cmp = { λ a b. Some (on uncounted_octets (slice_cmp nat_cmp) a b) };

    ghost laws = { po (on_texts uncounted_octets) (tied_octets uncounted_octets) };

    fn partial_cmp(&self, other: &Self) -> Option<Ordering> {
        Some(self.cmp_to(other))
    }
}

impl<O: Octets> Ord for Nsec3param<O> {
    ghost cmp = { on uncounted_octets (slice_cmp nat_cmp) };

    ghost total = { on_texts uncounted_octets };

    ghost matches_partial_cmp = { λ a b. refl };

    ghost matches_eq = { tied_octets uncounted_octets };

    fn cmp(&self, other: &Self) -> Ordering {
        self.cmp_to(other)
    }
}

/// Hashes the numbers and the octets of the salt.
impl<O: Octets> Hash for Nsec3param<O> {
    ghost hash_input = { λ d. flat_map fed.u8 (uncounted_octets d) };

    ghost respects_eq = { (fed_alike uncounted_octets).fed };

    fn hash<H: Hasher>(&self, state: &mut H) {
        self.uncounted().feed(state);
    }
}

impl<O: Octets> TryClone for Nsec3param<O> {
    ghost is_clone = { λ d copy. copy ≡ d };

    fn try_clone(&self) -> Result<Self, OutOfMemory> {
        self.clone()
    }
}

impl<O: Octets> CloneRecordData for Nsec3param<O> {
    ghost clone_rtype = { λ d copy same. refl };

    ghost clone_canonical = { copies_tied nsec3param_octets };
}

impl<S: Octets + Drop, O: CopyOctets> OctetsFrom<Nsec3param<S>> for Nsec3param<O> {
    ghost is_same = { λ source made. nsec3param_values made ≡ nsec3param_values source };

    ghost has_no_room = { λ source. IsOver O.capacity (length source.salt) };

    ghost takes_memory = { IsNone O.capacity };

    fn try_octets_from(alloc: Global, source: Nsec3param<S>) -> Result<Self, AppendError> {
        let salt = Nsec3Salt::try_octets_from(alloc, source.salt)?;
        let (flags, iterations) = (source.flags, source.iterations);
        Ok(Nsec3param::new(source.hash_algorithm, flags, iterations, salt))
    }
}

impl<O: FromBuilder + Drop> Nsec3param<O> {
    /// Reads parameters from the front of the tokens: hash algorithm, flags and iterations in
    /// decimal, and the salt in Base 16 or as a dash.
    ///
    /// # Errors
    ///
    /// That of the first field that is rejected. After an error, a suffix of the tokens is left.
    pub fn scan<S: Scanner<Octets = O>>(alloc: Global, scanner: &mut S) -> Result<Self, ScanError>
        ensures read { ReadsTokens Nsec3paramText nsec3param_values
            (RefusesNsec3param O.Builder.limit) (S.tokens scanner.old) (S.tokens scanner.new)
            result }
        ensures fits { IfOk result (λ d. Fits nsec3param_layout (nsec3param_values d)) }
    {
        let numbers = <HashNumbers as ScanFields<S>>::scan(alloc, scanner)?;
        let (hash_algorithm, (flags, iterations)) = numbers;
        let hash_algorithm = Nsec3HashAlgorithm::from_int(hash_algorithm);
        let salt = Nsec3Salt::scan(alloc, scanner)?;
        let data = Nsec3param::new(hash_algorithm, flags, iterations, salt);
        let _fields = data.fields();
        Ok(data)
    }
}

/// Writes hash algorithm, flags, iterations and salt, separated by single spaces.
impl<O: Octets> fmt::Display for Nsec3param<O> {
    ghost output = { λ d. Some (nsec3param_text (nsec3param_values d)) };

    #[tactic(auto, unfolding(crate::specs::Text::hash_numbers_text))]
    fn fmt<W: fmt::Write>(&self, f: &mut fmt::Formatter<W>) -> fmt::Result {
        let (hash_algorithm, (flags, iterations)) = self.numbers();
        let salt = self.salt();
        write!(f, "{hash_algorithm} {flags} {iterations} {salt}")
    }
}

/// Writes the pieces of the numbers, with this comment for the flags.
#[tactic(auto, using(std::proofs::lemmas::Grind::common_steps, crate::proofs::TextLemmas::numbers_written))]
pub fn write_numbers<F: Formatter>(
    numbers: HashNumbers,
    flags_comment: &str,
    formatter: &mut F,
) -> Result<(), OutOfMemory>
    ensures { OnOk result (F.pieces formatter.new ≡ F.pieces formatter.old
        ++ number_pieces flags_comment.now numbers) }
{
    let (hash_algorithm, (flags, iterations)) = numbers;
    formatter.write_token(&hash_algorithm)?;
    formatter.write_token(&flags)?;
    formatter.write_comment(&flags_comment)?;
    formatter.write_token(&iterations)?;
    formatter.write_comment(&"iterations")
}

/// Writes the fields with comments for the flags, the iterations and the salt.
impl<O: Octets> ZonefileFmt for Nsec3param<O> {
    ghost pieces = { λ d. nsec3param_pieces (nsec3param_values d) };

    fn fmt<F: Formatter>(&self, formatter: &mut F) -> Result<(), OutOfMemory> {
        formatter.begin_block()?;
        write_numbers(self.numbers(), "flags", formatter)?;
        self.salt().fmt(formatter)?;
        formatter.end_block()
    }
}
