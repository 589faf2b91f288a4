//! Data of all types, parsed from the octets of their generic form.
#![tactic(auto, using(crate::proofs::ScanLemmas::made))]

ghost use Rattle.std.specs.Prelude.{◌≡◌, ◌<◌, ◌≤◌, ◌⊎◌, [], true, Some, None, codes, length, IfOk, IfErr, OnOk, MatchOption};
ghost use Rattle.domain_names.specs.Text.{illegal, scan_fault_of};
ghost use Rattle.domain_plain.specs.Plain.{a_layout, a_values, ns_layout, ns_values, soa_layout, soa_values, mx_layout, mx_values};
ghost use Rattle.domain_keys.specs.Keys.{key_values};
ghost use Rattle.domain_rrsig.specs.Data.{rrsig_values};
ghost use Rattle.domain_chain_rdata.specs.Rdata.{nsec_values, nsec3_values, nsec3param_values};
ghost use Rattle.domain_rdata.specs.Zone.{plain, key, signature, next_by_name, next_by_hash, params, kind_of};
ghost use Rattle.domain_fields.specs.Layout.{Values, Begins, splits};
ghost use Rattle.domain_rdata.specs.Scan.{CopyFault, CopiedFault, FromOctets, OctetsFault, AreData};

use crate::ZoneRecordData;
use crate::zone_record_data::return_of_type;
use domain_base::{MakeName, ParsedName, Rtype, ScanError, ToName};
use domain_chain_rdata::{Nsec, Nsec3, Nsec3param};
use domain_keys::{KeyData, KeyKind};
use domain_octets::{FromBuilder, Octets, OutOfMemory, Parser};
use domain_plain::{A, Mx, Ns, Soa, UnknownRecordData};
use domain_record::ParseRecordData;
use domain_rrsig::Rrsig;
use std::alloc::Global;

/// The greatest number of octets of data (RFC 1035, section 3.2.1).
const MAX_DATA: usize = 65_535;

/// Returns a name with the labels of another, in octets of its own.
fn name_like<N: MakeName, M: ToName>(alloc: Global, name: &M) -> Result<N, OutOfMemory>
    ensures { IfOk result (λ made. N.labels made ≡ M.labels name.now) }
{
    N::make(alloc, name.as_wire())
}

/// Returns a copy of octets. The only errors are `ShortBuf` and `OutOfMemory`.
fn octets_like<O: FromBuilder>(alloc: Global, octets: &[u8]) -> Result<O, ScanError>
    ensures ok { IfOk result (λ made. O.octets made ≡ octets.now) }
    ensures err { IfErr result (λ e. CopyFault O.Builder.limit octets.now (scan_fault_of e)) }
{
    Ok(O::from_octets(alloc, octets)?)
}

/// Copies octets as data of a type. The only errors are `ShortBuf` and `OutOfMemory`.
fn unknown_of<O: FromBuilder + Drop>(
    alloc: Global,
    rtype: Rtype,
    octets: &[u8],
) -> Result<UnknownRecordData<O>, ScanError>
    requires { length octets.now ≤ 65535 }
    ensures ok { IfOk result (λ d. (d.rtype ≡ rtype) × (O.octets d.«data» ≡ octets.now)) }
    ensures err { IfErr result (λ e. CopyFault O.Builder.limit octets.now (scan_fault_of e)) }
{
    let Ok(data) = UnknownRecordData::from_octets(rtype, octets_like(alloc, octets)?) else {
        unreachable!();
    };
    Ok(data)
}

/// The octets are not data of the wanted type, or continue after such data.
#[derive(Drop)]
struct IllegalData;

impl From<IllegalData> for ScanError {
    ghost from_gives = { λ _ e. scan_fault_of e ≡ illegal (codes "illegal data") };

    fn from(_error: IllegalData) -> ScanError {
        ScanError::Custom("illegal data")
    }
}

/// Parses all of the octets as data of a type. Returns an error if and only if the octets are not
/// such data.
fn whole<'a, D: ParseRecordData<'a> + Drop>(
    rtype: Rtype,
    octets: &'a [u8],
) -> Result<D, IllegalData>
    requires read { D.is_read rtype }
    requires splits { splits D.layout ≡ true }
    ensures ok { IfOk result (λ d. Begins D.layout octets.now (D.values d) []) }
    ensures err { IfErr result (λ _.
        ((v : Values D.layout) × Begins D.layout octets.now v []) → ⊥) }
{
    let mut parser = Parser::new(octets);
    match D::parse_rdata(rtype, &mut parser) {
        Ok(Some(data)) => {
            if parser.remaining() > 0 {
                return Err(IllegalData);
            }
            Ok(data)
        }
        Ok(None) => unreachable!(),
        Err(_) => Err(IllegalData),
    }
}

/// Parses the octets as an IPv4 address.
fn a_of(octets: &[u8]) -> Result<A, ScanError>
    ensures { FromOctets None (plain a_layout) a_values octets.now result }
{
    Ok(whole(Rtype::A, octets)?)
}

/// Parses the octets as the name of a server.
fn ns_of<N: MakeName>(alloc: Global, octets: &[u8]) -> Result<Ns<N>, ScanError>
    ensures { FromOctets None (plain ns_layout) (ns_values N.labels) octets.now result }
{
    let data: Ns<ParsedName<'_>> = whole(Rtype::NS, octets)?;
    Ok(Ns::new(name_like(alloc, data.nsdname())?))
}

/// Parses the octets as SOA data.
fn soa_of<N: MakeName + Drop>(alloc: Global, octets: &[u8]) -> Result<Soa<N>, ScanError>
    ensures { FromOctets None (plain soa_layout) (soa_values N.labels) octets.now result }
{
    let data: Soa<ParsedName<'_>> = whole(Rtype::SOA, octets)?;
    let mname = name_like(alloc, data.mname())?;
    let rname = name_like(alloc, data.rname())?;
    Ok(Soa::new(
        mname,
        rname,
        data.serial(),
        data.refresh(),
        data.retry(),
        data.expire(),
        data.minimum(),
    ))
}

/// Parses the octets as a mail exchange.
fn mx_of<N: MakeName>(alloc: Global, octets: &[u8]) -> Result<Mx<N>, ScanError>
    ensures { FromOctets None (plain mx_layout) (mx_values N.labels) octets.now result }
{
    let data: Mx<ParsedName<'_>> = whole(Rtype::MX, octets)?;
    Ok(Mx::new(data.preference(), name_like(alloc, data.exchange())?))
}

/// Parses the octets as a key, or as the digest of a key.
fn key_of<O: FromBuilder + Drop, K: KeyKind>(
    alloc: Global,
    octets: &[u8],
) -> Result<KeyData<O, K>, ScanError>
    ensures { FromOctets O.Builder.limit (key K.codec) key_values octets.now result }
{
    let data: KeyData<&[u8], K> = whole(K::rtype(), octets)?;
    let key = octets_like(alloc, data.as_octets())?;
    Ok(data.with_octets(key))
}

/// Parses the octets as a next name and types.
fn nsec_of<O: FromBuilder + Drop, N: MakeName + Drop>(
    alloc: Global,
    octets: &[u8],
) -> Result<Nsec<O, N>, ScanError>
    ensures { FromOctets O.Builder.limit next_by_name (nsec_values N.labels) octets.now result }
{
    let data: Nsec<&[u8], ParsedName<'_>> = whole(Rtype::NSEC, octets)?;
    let next_name = name_like(alloc, data.next_name())?;
    let types = octets_like(alloc, data.types().as_slice())?;
    Ok(Nsec::new(next_name, data.types().with_octets(types)))
}

/// Parses the octets as a signature.
fn rrsig_of<O: FromBuilder + Drop, N: MakeName + Drop>(
    alloc: Global,
    octets: &[u8],
) -> Result<Rrsig<O, N>, ScanError>
    ensures { FromOctets O.Builder.limit signature rrsig_values octets.now result }
{
    let data: Rrsig<&[u8], ParsedName<'_>> = whole(Rtype::RRSIG, octets)?;
    let signer_name = name_like(alloc, data.signer_name())?;
    let signature = octets_like(alloc, data.signature())?;
    Ok(data.with_octets(signer_name, signature))
}

/// Parses the octets as NSEC3 parameters.
fn nsec3param_of<O: FromBuilder + Drop>(
    alloc: Global,
    octets: &[u8],
) -> Result<Nsec3param<O>, ScanError>
    ensures { FromOctets O.Builder.limit params nsec3param_values octets.now result }
{
    let data: Nsec3param<&[u8]> = whole(Rtype::NSEC3PARAM, octets)?;
    let salt = octets_like(alloc, data.salt().as_slice())?;
    Ok(Nsec3param::new(
        data.hash_algorithm(),
        data.flags(),
        data.iterations(),
        data.salt().with_octets(salt),
    ))
}

/// Parses the octets as a next hash and types.
fn nsec3_of<O: FromBuilder + Drop>(alloc: Global, octets: &[u8]) -> Result<Nsec3<O>, ScanError>
    ensures { FromOctets O.Builder.limit next_by_hash nsec3_values octets.now result }
{
    let data: Nsec3<&[u8]> = whole(Rtype::NSEC3, octets)?;
    let salt = octets_like(alloc, data.salt().as_slice())?;
    let next_owner = octets_like(alloc, data.next_owner().as_slice())?;
    let types = octets_like(alloc, data.types().as_slice())?;
    Ok(Nsec3::new(
        data.hash_algorithm(),
        data.flags(),
        data.iterations(),
        data.salt().with_octets(salt),
        data.next_owner().with_octets(next_owner),
        data.types().with_octets(types),
    ))
}

impl<O: FromBuilder, N: ToName> ZoneRecordData<O, N> {
    /// Parses all of the octets as data of a type in wire form, with uncompressed names (RFC 1035,
    /// section 3.3; RFC 3597, section 4). Data of an unknown type are any octets, at most 65,535.
    ///
    /// # Errors
    ///
    /// - `Custom("record data too long")` if and only if there are more than 65,535 octets.
    /// - `Custom("illegal data")` if and only if the octets, at most 65,535, are not data of the
    ///   type.
    /// - `ShortBuf` or `OutOfMemory` if they are data of the type, and a part has no room or no
    ///   memory.
    pub fn from_octets(alloc: Global, rtype: Rtype, octets: O) -> Result<Self, ScanError>
    where
        O: Drop,
        N: MakeName + Drop,
        ensures ok { IfOk result (AreData O.octets N.labels rtype (O.octets octets)) }
        ensures fits { OnOk result (length (O.octets octets) ≤ 65535) }
        ensures err { IfErr result (λ e. ((65535 < length (O.octets octets))
            × (scan_fault_of e ≡ illegal (codes "record data too long")))
            ⊎ ((length (O.octets octets) ≤ 65535) × OctetsFault O.Builder.limit (kind_of rtype)
            (O.octets octets) (scan_fault_of e))) }
    {
        match UnknownRecordData::from_octets(rtype, octets) {
            Ok(data) => Self::from_generic(alloc, data),
            Err(_) => Err(ScanError::Custom("record data too long")),
        }
    }

    /// Parses all of the octets as data of a type that has a variant of its own, and copies the
    /// parts that such data hold. Returns None for another type.
    ///
    /// # Errors
    ///
    /// - `Custom("illegal data")` if and only if the octets are not data of the type.
    /// - `ShortBuf` or `OutOfMemory` if they are, and a part has no room or no memory.
    fn known_of(alloc: Global, rtype: Rtype, octets: &[u8]) -> Result<Option<Self>, ScanError>
    where
        O: Drop,
        N: MakeName + Drop,
        ensures ok { IfOk result (λ found. MatchOption found (kind_of rtype ≡ None)
            (AreData O.octets N.labels rtype octets.now)) }
        ensures err { IfErr result (λ e.
            OctetsFault O.Builder.limit (kind_of rtype) octets.now (scan_fault_of e)) }
    {
        return_of_type!(some rtype;
            A => A(a_of(octets)?),
            NS => Ns(ns_of(alloc, octets)?),
            SOA => Soa(soa_of(alloc, octets)?),
            MX => Mx(mx_of(alloc, octets)?),
            DNSKEY => Dnskey(key_of(alloc, octets)?),
            DS => Ds(key_of(alloc, octets)?),
            RRSIG => Rrsig(rrsig_of(alloc, octets)?),
            NSEC => Nsec(nsec_of(alloc, octets)?),
            NSEC3 => Nsec3(nsec3_of(alloc, octets)?),
            NSEC3PARAM => Nsec3param(nsec3param_of(alloc, octets)?),
            _ => Ok(None)
        )
    }

    /// Parses all octets of a generic form as data of its type.
    ///
    /// # Errors
    ///
    /// - `Custom("illegal data")` if and only if the octets are not data of the type.
    /// - `ShortBuf` or `OutOfMemory` if they are, and a part has no room or no memory.
    pub(crate) fn from_generic(alloc: Global, data: UnknownRecordData<O>) -> Result<Self, ScanError>
    where
        O: Drop,
        N: MakeName + Drop,
        ensures ok { IfOk result (λ d.
            AreData O.octets N.labels «data».rtype (O.octets «data».«data») d) }
        ensures err { IfErr result (λ e.
            OctetsFault O.Builder.limit (kind_of «data».rtype) (O.octets «data».«data»)
            (scan_fault_of e)) }
    {
        match Self::known_of(alloc, data.rtype(), data.data().as_slice())? {
            Some(known) => Ok(known),
            None => Ok(ZoneRecordData::Unknown(data)),
        }
    }

    /// Parses all of the octets as data of a type in wire form, as `from_octets` does. Copies only
    /// what the data hold: the parts of a known type, or all octets of another type.
    ///
    /// # Errors
    ///
    /// - `Custom("record data too long")` if and only if there are more than 65,535 octets.
    /// - `Custom("illegal data")` if and only if the octets, at most 65,535, are not data of the
    ///   type.
    /// - `ShortBuf` or `OutOfMemory` if they are data of the type, and what is copied has no room
    ///   or no memory.
    pub fn copy_from(alloc: Global, rtype: Rtype, octets: &[u8]) -> Result<Self, ScanError>
    where
        O: Drop,
        N: MakeName + Drop,
        ensures ok { IfOk result (AreData O.octets N.labels rtype octets.now) }
        ensures fits { OnOk result (length octets.now ≤ 65535) }
        ensures err { IfErr result (λ e. ((65535 < length octets.now)
            × (scan_fault_of e ≡ illegal (codes "record data too long")))
            ⊎ ((length octets.now ≤ 65535) × CopiedFault O.Builder.limit (kind_of rtype)
            octets.now (scan_fault_of e))) }
    {
        if octets.len() > MAX_DATA {
            return Err(ScanError::Custom("record data too long"));
        }
        match Self::known_of(alloc, rtype, octets)? {
            Some(known) => Ok(known),
            None => Ok(ZoneRecordData::Unknown(unknown_of(alloc, rtype, octets)?)),
        }
    }
}
