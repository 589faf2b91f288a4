//! The NSEC chain of a zone. Its records are made one by one, or all at once.
ghost use Rattle.std.specs.Prelude.{◌≡◌, ◌≤◌, ◌↔◌, [], length, slice_index_or, IsTrue, IfErr, IfOk, IfNone, IfSome, OnOk};
ghost use Rattle.domain_groups.specs.InOrder.{IsOneClass, IsInOrder};
ghost use Rattle.domain_zone.specs.Zone.{zone_of};
ghost use Rattle.domain_nsec.specs.Chain.{Link, links_in, IsChain, IsFaultless, IsFirstFault, as_link};
ghost use Rattle.domain_nsec.specs.{Chain.links_of, Meaning.MeansTheZone};

use crate::GenerateNsecConfig;
use domain_base::{MakeName, ParsedName, ToName};
use domain_bitmap::RtypeBitmaps;
use domain_chain_rdata::Nsec;
use domain_groups::{RecordsIter, SigningError};
use domain_octets::{FromBuilder, GrowingBuilder, OutOfMemory};
use domain_record::{Record, ZoneData};
use domain_zone::{ApexSoa, find_soa, list_owners};
use std::alloc::Global;
use std::marker::Model;

/// A record of a chain that borrows its names and types from the zone's records and from the chain.
pub type BorrowedNsec<'a> = Record<ParsedName<'a>, Nsec<&'a [u8], ParsedName<'a>>>;

/// The NSEC chain of a zone before its records are made. It lends one record at a time. Contracts
/// see the links of its records.
///
/// It borrows the octets of the names from the records of the zone. Each name takes 24 octets, for
/// the places of its octets and of its types, and the octets of its types.
#[derive(Drop)]
pub struct NsecChain<'a, N: ToName> {
    apex: &'a N,
    soa: ApexSoa,
    names: Vec<ParsedName<'a>>,
    types: RtypeBitmaps,
}

impl<'a, N: ToName> Model for NsecChain<'a, N> {
    ghost use Rattle.std.specs.Prelude.{◌≡◌, List, length};
    ghost use Rattle.domain_nsec.specs.Chain.{Link, links_in};

    ghost Value = { List Link };

    ghost view = { λ c. links_in c.soa (N.labels c.apex.now) c.names.items c.types };

    ghost invariant = { λ c. length c.names.items ≡ length c.types };
}

/// Returns the owner at a place. Past the last one it returns the apex, so the last record points
/// to the apex.
fn owner_or_apex<'s, N: ToName>(
    owners: &'s [ParsedName<'s>],
    place: usize,
    apex: &'s N,
) -> ParsedName<'s>
    ensures { result ≡ slice_index_or owners.now place (N.labels apex.now) }
{
    match owners.get(place) {
        Some(owner) => owner.as_parsed(),
        None => apex.as_parsed(),
    }
}

impl<'a, N: ToName> NsecChain<'a, N> {
    /// Returns the chain of these names and their types.
    fn new(apex: &'a N, soa: ApexSoa, names: Vec<ParsedName<'a>>, types: RtypeBitmaps) -> Self
        requires { length names.items ≡ length types }
        ensures { result ≡ links_in soa (N.labels apex.now) names.entry.items types }
    {
        NsecChain {
            apex,
            soa,
            names,
            types,
        }
    }

    /// Returns the NSEC chain of a zone (RFC 4034, section 4; RFC 4035, section 2.3), before its
    /// records are made. It is the chain of `generate_nsecs`, with the same errors. It borrows the
    /// octets of the names from the records of the zone.
    ///
    /// # Errors
    ///
    /// Those of `generate_nsecs`.
    pub fn generate<D: ZoneData>(
        alloc: Global,
        apex: &'a N,
        records: RecordsIter<'a, N, D>,
        config: &GenerateNsecConfig,
    ) -> Result<Self, SigningError>
        requires one_class { IsOneClass records }
        requires in_order { IsInOrder N.labels D.rtype records }
        ensures chain { IfOk result (λ links. IsChain
            (zone_of N.labels D.rtype D.minimum records.entry) (N.labels apex.now) config.now
            links) }
        ensures faultless { OnOk result
            (IsFaultless (zone_of N.labels D.rtype D.minimum records.entry) (N.labels apex.now)
            config.now) }
        ensures fault { IfErr result
            (IsFirstFault (zone_of N.labels D.rtype D.minimum records.entry) (N.labels apex.now)
            config.now) }
    {
        let Some(soa) = find_soa(apex, records.records()) else {
            return Err(SigningError::SoaRecordCouldNotBeDetermined);
        };
        let below_dname = config.occlude_below_dname;
        let owners = list_owners(alloc, apex, records, false, below_dname, config)?;
        Ok(NsecChain::new(apex, soa, owners.names, owners.types))
    }

    /// Returns the number of records of the chain.
    #[tactic(auto, using(crate::proofs::ChainLemmas::links_counted))]
    pub fn len(&self) -> usize
        ensures { result ≡ length self.now }
    {
        self.names.len()
    }

    /// Returns whether the chain has no records. The chain of a zone has one for the apex.
    pub fn is_empty(&self) -> bool
        ensures { IsTrue result ↔ (self.now ≡ []) }
    {
        self.len() == 0
    }

    /// Returns the owner of the record at a place, or `None` past the last one. Takes no memory.
    #[tactic(auto, using(crate::proofs::ChainLemmas::links_counted, crate::proofs::ChainLemmas::owner_borrowed))]
    pub fn owner(&self, place: usize) -> Option<&ParsedName<'a>>
        ensures some { IfSome result (λ owner. (d : Link)
            → owner.now ≡ (slice_index_or self.now place d).owner) }
        ensures none { IfNone result (length self.now ≤ place) }
    {
        if place >= self.names.len() {
            return None;
        }
        Some(&self.names[place])
    }

    /// Returns the record at a place, in canonical order, or `None` past the last one. The record
    /// borrows from the chain. Takes no memory.
    pub fn lend(&self, place: usize) -> Option<BorrowedNsec<'_>>
        ensures some { IfSome result (λ made. (d : Link)
            → as_link (λ n. n) made ≡ slice_index_or self.now place d) }
        ensures none { IfNone result (length self.now ≤ place) }
    {
        if place >= self.names.len() {
            return None;
        }
        let types = self.types.get(place)?;
        let owner = self.names[place].as_parsed();
        let next = owner_or_apex(&self.names, place + 1, self.apex);
        let nsec = Nsec::new(next, types);
        Some(Record::new(owner, self.soa.class, self.soa.chain_ttl(), nsec))
    }
}

/// Returns a copy of the record, in octets of its own.
fn copy_record<O: FromBuilder, N: MakeName>(
    alloc: Global,
    borrowed: &BorrowedNsec<'_>,
) -> Result<Record<N, Nsec<O, N>>, OutOfMemory>
where
    N: Drop,
    O: Drop,
    O::Builder: GrowingBuilder,
    ensures { IfOk result (λ made. as_link N.labels made ≡ as_link (λ n. n) borrowed.now) }
{
    let owner = N::make(alloc, borrowed.owner().as_wire())?;
    let next = N::make(alloc, borrowed.data().next_name().as_wire())?;
    let types = borrowed.data().types();
    let octets = O::from_octets(alloc, types.as_slice()).map_err(|_| OutOfMemory)?;
    let data = Nsec::new(next, types.with_octets(octets));
    Ok(Record::new(owner, borrowed.class(), borrowed.ttl(), data))
}

impl<'a, N: MakeName> NsecChain<'a, N> {
    /// Returns all records, in canonical order.
    pub fn records<O: FromBuilder>(
        &self,
        alloc: Global,
    ) -> Result<Vec<Record<N, Nsec<O, N>>>, OutOfMemory>
    where
        N: Drop,
        O: Drop,
        O::Builder: GrowingBuilder,
        ensures { IfOk result (λ nsecs. links_of N.labels nsecs.items ≡ self.now) }
    {
        let mut nsecs = Vec::with_capacity(alloc, self.len())?;
        for place in 0..self.len() {
            let Some(borrowed) = self.lend(place) else {
                unreachable!();
            };
            let nsec = copy_record(alloc, &borrowed)?;
            nsecs.push(nsec)?;
        }
        Ok(nsecs)
    }
}

/// Returns the NSEC chain of a zone (RFC 4034, section 4; RFC 4035, section 2.3). It has one record
/// for each owner that is at or below the apex and not strictly below a zone cut, in canonical
/// order. If the configuration says so, it also leaves out owners strictly below an owner of a
/// DNAME record, which may be the apex (RFC 6672, section 2.4).
///
/// Each record points to the next owner, the last one to the apex. It has the class of the SOA. Its
/// TTL in seconds is the lesser of the SOA's MINIMUM and TTL (RFC 9077, section 3.2). It lists
/// RRSIG, NSEC and the types of its owner, at a zone cut only NS and DS of them. At the apex it
/// also lists DNSKEY if the configuration assumes it. Names have the spelling of their first
/// record; the last next name has the spelling of `apex`.
///
/// The records must be of one class and in canonical order. Records of owners outside the zone are
/// ignored.
///
/// # Errors
///
/// The first of these that applies:
///
/// - `SoaRecordCouldNotBeDetermined` if the apex does not own exactly one record of type SOA, or
///   its data have no MINIMUM.
/// - `MultipleTtlValues` if two records of one owner of the chain, and of one type other than
///   RRSIG, differ in TTL.
/// - `OutOfMemory` if there is no memory. The zone then has none of the other faults.
pub fn generate_nsecs<O, N: MakeName, D: ZoneData>(
    alloc: Global,
    apex: &N,
    records: RecordsIter<'_, N, D>,
    config: &GenerateNsecConfig,
) -> Result<Vec<Record<N, Nsec<O, N>>>, SigningError>
where
    N: Drop,
    O: FromBuilder + Drop,
    O::Builder: GrowingBuilder,
    requires one_class { IsOneClass records }
    requires in_order { IsInOrder N.labels D.rtype records }

    // Ok is exactly the chain, and is returned only if the zone has no fault.
    ensures chain { IfOk result (λ nsecs. IsChain (zone_of N.labels D.rtype D.minimum records.entry)
        (N.labels apex.now) config.now (links_of N.labels nsecs.items)) }
    ensures faultless { OnOk result (IsFaultless (zone_of N.labels D.rtype D.minimum records.entry)
        (N.labels apex.now) config.now) }
    ensures fault { IfErr result (IsFirstFault (zone_of N.labels D.rtype D.minimum records.entry)
        (N.labels apex.now) config.now) }

    // What the chain says of every name of the zone. It begins and ends at the apex, and its owners
    // ascend.
    ensures means { IfOk result (λ nsecs. MeansTheZone
        (zone_of N.labels D.rtype D.minimum records.entry) (N.labels apex.now) config.now
        (links_of N.labels nsecs.items)) }
{
    let chain = NsecChain::generate(alloc, apex, records, config)?;
    Ok(chain.records(alloc)?)
}
