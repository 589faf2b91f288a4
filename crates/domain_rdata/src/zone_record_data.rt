//! Data of all types as one type: its variants, their types, and what applies to data of all types.
ghost use Rattle.std.specs.Prelude.{◌≡◌, ◌↔◌, IsTrue, IfErr, IfOk};
ghost use Rattle.std.specs.{Ordering.nat_cmp, Cmp.Lexicographic.slice_cmp};
ghost use Rattle.domain_names.specs.{Text.{IsOfTokens, scan_fault_of}, Name.Tokens};
ghost use Rattle.domain_base.specs.Scan.{ReadsTokens};
ghost use Rattle.domain_rdata.specs.Zone.{IsZoneClone, same_rtype, zone_copies_tie, data_text};
ghost use Rattle.domain_rdata.specs.Scan.{RefusesOwn, RefusesRdata, RdataText, OwnText, IsGeneric};
ghost use Rattle.domain_rdata.specs.declared.zone_record_data.ZoneRecordData.{ZoneRecordData};

use domain_base::{CanonicalOrd, MakeName, Rtype, ScanError, Scanner, ToName, Ttl};
use domain_chain_rdata::{Nsec, Nsec3, Nsec3param};
use domain_fields::Form;
use domain_keys::{Dnskey, Ds};
use domain_octets::{
    AppendError, EmptyBuilder, FreezeBuilder, FromBuilder, Octets, OctetsBuilder, OutOfMemory,
    Truncate, TryClone,
};
use domain_plain::{A, Mx, Ns, Soa, UnknownRecordData};
use domain_record::{CloneRecordData, ComposeRecordData, RecordData, ZoneData};
use domain_rrsig::Rrsig;
use std::alloc::Global;
use std::cmp::Ordering;
use std::fmt;

/// The data of a record in a zone.
#[derive(Drop)]
pub enum ZoneRecordData<O: Octets, N: ToName> {
    /// An IPv4 address.
    A(A),
    /// A name server.
    Ns(Ns<N>),
    /// The start of a zone of authority (SOA).
    Soa(Soa<N>),
    /// A mail exchange.
    Mx(Mx<N>),
    /// A key of a zone.
    Dnskey(Dnskey<O>),
    /// The digest of a child zone's key.
    Ds(Ds<O>),
    /// A signature.
    Rrsig(Rrsig<O, N>),
    /// The next name and the types at a name.
    Nsec(Nsec<O, N>),
    /// The next hash and the types at a hashed name.
    Nsec3(Nsec3<O>),
    /// The parameters of the hashes of a zone's names.
    Nsec3param(Nsec3param<O>),
    /// Data of any type, as octets. Code that matches on variants does not see them as data of
    /// their type: for a generator, an SOA in this variant has no MINIMUM.
    Unknown(UnknownRecordData<O>),
}

/// Handles data of all types that have a variant of their own. This is the only list of these
/// types, each with its constant and its variant.
macro_rules! with_types {
    // An expression on the data, whatever their type.
    ([$($number:ident $kind:ident)*] of $all:expr, $data:ident => $done:expr) => {
        match $all {
            $(ZoneRecordData::$kind($data) => $done,)*
            ZoneRecordData::Unknown($data) => $done,
        }
    };
    // A copy of the data.
    ([$($number:ident $kind:ident)*] copy $all:expr) => {
        match $all {
            $(ZoneRecordData::$kind(data) => Ok(ZoneRecordData::$kind(data.try_clone()?)),)*
            ZoneRecordData::Unknown(data) => Ok(ZoneRecordData::Unknown(data.try_clone()?)),
        }
    };
    // The order of data of one type.
    ([$($number:ident $kind:ident)*] order $first:expr, $second:expr) => {
        match ($first, $second) {
            $((ZoneRecordData::$kind(a), ZoneRecordData::$kind(b)) => a.canonical_cmp(b),)*
            (a, ZoneRecordData::Unknown(b)) => a.canonical_cmp_octets(b.data().as_slice()),
            (ZoneRecordData::Unknown(a), b) => {
                b.canonical_cmp_octets(a.data().as_slice()).reverse()
            }
            _ => unreachable!(),
        }
    };
    // The data of a type, read from the front of the tokens.
    ([$($number:ident $kind:ident)*] scan $alloc:expr, $rtype:expr, $scanner:expr) => {
        return_of_type!($rtype;
            $($number => $kind($kind::scan($alloc, $scanner)?),)*
            _ => Err(ScanError::Custom("unknown record data"))
        )
    };
    ($($given:tt)*) => {
        with_types!(
            [A A NS Ns SOA Soa MX Mx DNSKEY Dnskey DS Ds RRSIG Rrsig NSEC Nsec NSEC3 Nsec3
            NSEC3PARAM Nsec3param] $($given)*
        )
    };
}

/// Returns from the function with the data of the row whose type matches, or evaluates to the last
/// expression if no row matches. With `some`, the data are in a `Some`.
macro_rules! return_of_type {
    ($rtype:expr; $($number:ident => $data:ident($made:expr),)* _ => $other:expr) => {{
        $(if $rtype == Rtype::$number {
            return Ok(ZoneRecordData::$data($made));
        })*
        $other
    }};
    (some $rtype:expr; $($number:ident => $data:ident($made:expr),)* _ => $other:expr) => {{
        $(if $rtype == Rtype::$number {
            return Ok(Some(ZoneRecordData::$data($made)));
        })*
        $other
    }};
}

pub(crate) use return_of_type;

impl<O: Octets, N: ToName> RecordData for ZoneRecordData<O, N> {
    ghost use Rattle.domain_rdata.specs.Zone.{rtype_of};

    ghost rtype = { rtype_of };

    fn rtype(&self) -> Rtype {
        with_types!(of self, data => data.rtype())
    }
}

// The MINIMUM of the `Soa` variant.
impl<O: Octets, N: ToName> ZoneData for ZoneRecordData<O, N> {
    ghost use Rattle.domain_rdata.specs.Zone.{minimum_of};

    ghost minimum = { minimum_of };

    fn soa_minimum(&self) -> Option<Ttl> {
        match self {
            ZoneRecordData::Soa(soa) => Some(soa.minimum()),
            _ => None,
        }
    }
}

impl<O: Octets, N: ToName> ZoneRecordData<O, N> {
    ghost use Rattle.domain_rdata.specs.Zone.{rtype_of, canonical_octets};

    /// Compares the canonical octets of data of one type.
    #[tactic(auto, using(crate::proofs::ScanLemmas::turned), unfolding(domain_fields::specs::Layout::octets_of))]
    fn same_type_cmp(&self, other: &Self) -> Ordering
        requires { rtype_of self.now ≡ rtype_of other.now }
        ensures { result ≡ slice_cmp nat_cmp (canonical_octets O.octets N.labels self.now)
            (canonical_octets O.octets N.labels other.now) }
    {
        with_types!(order self, other)
    }
}

impl<O: Octets, N: ToName> ComposeRecordData for ZoneRecordData<O, N> {
    ghost use Rattle.domain_rdata.specs.Zone.{wire_octets, canonical_octets};

    ghost octets = { wire_octets O.octets N.labels };

    ghost canonical = { canonical_octets O.octets N.labels };

    fn room_after(&self, limit: usize) -> Option<usize> {
        with_types!(of self, data => data.room_after(limit))
    }

    fn compose_in<B: OctetsBuilder>(&self, form: Form, target: &mut B) -> Result<(), AppendError> {
        with_types!(of self, data => data.compose_in(form, target))
    }

    fn canonical_cmp_octets(&self, other: &[u8]) -> Ordering {
        with_types!(of self, data => data.canonical_cmp_octets(other))
    }
}

// By the number of the type, and then by canonical octets.
impl<O: Octets, N: ToName> CanonicalOrd for ZoneRecordData<O, N> {
    ghost use Rattle.domain_rdata.specs.Zone.{data_cmp, data_cmp_total};

    ghost canonical_cmp = { data_cmp O.octets N.labels };

    ghost total = { data_cmp_total O.octets N.labels };

    fn canonical_cmp(&self, other: &Self) -> Ordering {
        match self.rtype().cmp(&other.rtype()) {
            Ordering::Equal => self.same_type_cmp(other),
            order => order,
        }
    }
}

impl<O: Octets + Drop, N: ToName + Drop> ZoneRecordData<O, N> {
    /// Returns a copy: the same variant, with the same fields. Uses the allocators of the names and
    /// octets.
    pub fn clone(&self) -> Result<Self, OutOfMemory>
        ensures { IfOk result (IsZoneClone O.octets N.labels self.now) }
    {
        with_types!(copy self)
    }
}

impl<O: Octets + Drop, N: ToName + Drop> TryClone for ZoneRecordData<O, N> {
    ghost is_clone = { IsZoneClone O.octets N.labels };

    fn try_clone(&self) -> Result<Self, OutOfMemory> {
        self.clone()
    }
}

impl<O: Octets + Drop, N: ToName + Drop> CloneRecordData for ZoneRecordData<O, N> {
    ghost clone_rtype = { same_rtype O.octets N.labels };

    ghost clone_canonical = { zone_copies_tie O.octets N.labels };
}

/// Returns whether the tokens begin with `\#`, the mark of the generic form.
fn is_generic<S: Scanner>(scanner: &S) -> bool
    ensures { IsTrue result ↔ IsGeneric (S.tokens scanner.now) }
{
    match scanner.first_token() {
        Some(token) => token == "\\#",
        None => false,
    }
}

impl<O: FromBuilder, N: ToName> ZoneRecordData<O, N>
where
    O::Builder: EmptyBuilder + Truncate + FreezeBuilder<Frozen = O> + Drop,
{
    /// Reads data of a type from the front of the tokens, in the text form of that type.
    ///
    /// # Errors
    ///
    /// That of the first field that is rejected. `Custom("unknown record data")` for a type without
    /// a text form of its own; no token is then taken.
    fn scan_own<S: Scanner<Name = N, Octets = O>>(
        alloc: Global,
        rtype: Rtype,
        scanner: &mut S,
    ) -> Result<Self, ScanError>
    where
        O: Drop,
        N: Drop,
        ensures { ReadsTokens (OwnText O.octets N.labels rtype) (λ d. d)
            (RefusesOwn O.Builder.limit rtype) (S.tokens scanner.old) (S.tokens scanner.new)
            result }
    {
        with_types!(scan alloc, rtype, scanner)
    }

    /// Reads data of a type from the front of the tokens, in the text form of that type. If the
    /// first token is `\#`, reads all tokens as the generic form of any type (RFC 3597, section 5),
    /// whose octets must be exactly data of the type. Data of types without a variant of their own
    /// are held as octets.
    ///
    /// # Errors
    ///
    /// After an error, a suffix of the tokens is left. In the text form of the type:
    ///
    /// - `Custom("unknown record data")` if the type has no text form of its own. No token is
    ///   taken.
    /// - Otherwise the error of the first field that is rejected: `EndOfEntry` if it is missing,
    ///   `Custom` if it is not of its form, `ShortBuf` or `OutOfMemory` if the octets of a name or
    ///   of data have no room or no memory.
    ///
    /// In the generic form:
    ///
    /// - The error of the first field after `\#` that is rejected, as above.
    /// - `Custom("illegal data")` if and only if the octets of the form are not data of the type.
    /// - `ShortBuf` or `OutOfMemory` if they are, and a part has no room or no memory.
    #[tactic(auto, using(std::proofs::lemmas::Grind::common_steps, crate::proofs::ScanLemmas::scan_steps))]
    pub fn scan_rdata<S: Scanner<Name = N, Octets = O>>(
        alloc: Global,
        rtype: Rtype,
        scanner: &mut S,
    ) -> Result<Self, ScanError>
    where
        O: Drop,
        N: MakeName + Drop,
        ensures ok { IfOk result (λ d.
            RdataText O.octets N.labels rtype (S.tokens scanner.old) d (S.tokens scanner.new)) }
        ensures err { IfErr result (λ e.
            RefusesRdata O.Builder.limit rtype (S.tokens scanner.old) (S.tokens scanner.new)
            (scan_fault_of e)) }

        // Tokens that are rejected for another reason than room or memory spell no data of the
        // type.
        ensures spells_none { IfErr result (λ e.
            IsOfTokens O.Builder.limit (scan_fault_of e)
            → (d : ZoneRecordData O N) (after : Tokens)
            → RdataText O.octets N.labels rtype (S.tokens scanner.old) d after → ⊥) }
    {
        if !is_generic(scanner) {
            return Ok(Self::scan_own(alloc, rtype, scanner)?);
        }
        let data = UnknownRecordData::scan(alloc, rtype, scanner)?;
        Ok(Self::from_generic(alloc, data)?)
    }
}

/// Writes the text form of the data's type, or the generic form for data that are held as octets.
impl<O: Octets, N: ToName> fmt::Display for ZoneRecordData<O, N> {
    ghost output = { data_text O.octets N.labels };

    fn fmt<W: fmt::Write>(&self, f: &mut fmt::Formatter<W>) -> fmt::Result {
        with_types!(of self, data => fmt::Display::fmt(data, f))
    }
}
