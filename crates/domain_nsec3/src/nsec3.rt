//! The NSEC3 chain of a zone. Its records are made one by one, or all at once.
ghost use Rattle.std.specs.Prelude.{◌≡◌, ◌<◌, ◌≤◌, ◌↔◌, [], All, length, slice_index_or, IsTrue, IfErr, IfOk, IfNone, IfSome, OnOk, string_bytes};
ghost use Rattle.domain_base.specs.Classes.{in_class};
ghost use Rattle.domain_groups.specs.InOrder.{IsOneClass, IsInOrder};
ghost use Rattle.domain_zone.specs.Zone.{zone_of};
ghost use Rattle.domain_nsec3.specs.Chain.{HashedLink, IsChainParam, IsHashedChain, param_ttl, IsHashedFaultless};
ghost use Rattle.domain_nsec3.specs.{Chain.IsFirstHashedFault, Meaning.{IsRecordOf, HashedMeansTheZone}, Steps.{common_of, hashed_links_in}};
ghost use Rattle.domain_nsec3.specs.{Steps.AreUsable, View.{as_param_record, config_of, hashed_links_of}};
ghost use Rattle.domain_nsec3.specs.View.{parameters_of, shared_text};

use crate::GenerateNsec3Config;
use crate::borrowed::{BorrowedNsec3, copy_param, copy_record, lend_record};
use crate::chain::{HashedChain, chain_of_zone};
use domain_base::{Class, MakeName, ParsedName, ToName, Ttl};
use domain_chain_rdata::{Nsec3, Nsec3param};
use domain_groups::{RecordsIter, SigningError, Sorter};
use domain_hasher::Nsec3Hasher;
use domain_octets::{FromBuilder, GrowingBuilder, Octets, OutOfMemory};
use domain_record::{Record, ZoneData};
use domain_zone::{ApexSoa, find_soa};
use std::alloc::Global;
use std::marker::Model;

/// The NSEC3 chain of a zone before its records are made, and its NSEC3PARAM record (RFC 5155,
/// section 7.1). It lends one NSEC3 record at a time. Contracts see the links of its records, and
/// the NSEC3PARAM record.
///
/// It borrows the apex. Each name takes 44 octets. A name that owns records takes 8 octets more,
/// and the octets of its types.
#[derive(Drop)]
pub struct Nsec3Chain<'a, O: Octets> {
    chain: HashedChain,
    ttl: Ttl,
    nsec3param: Record<ParsedName<'a>, Nsec3param<O>>,
    /// The text that all records share between their hash and their data.
    shared: String,
}

impl<'a, O: Octets> Model for Nsec3Chain<'a, O> {
    ghost use Rattle.std.specs.Prelude.{◌≡◌, string_bytes};
    ghost use Rattle.domain_nsec3.specs.{Chain.ChainRecords, Steps.{common_of, hashed_links_in}};
    ghost use Rattle.domain_nsec3.specs.{Steps.AreUsable, View.{as_param_record, shared_text}};

    ghost Value = { ChainRecords };

    ghost view = { λ c. record {
      links = hashed_links_in c.nsec3param.owner c.chain (common_of c.nsec3param.«data» c.ttl);
      param = as_param_record (λ n. n) c.nsec3param;
    } };

    ghost invariant = { λ c. AreUsable c.nsec3param.owner c.chain
        × (string_bytes c.shared ≡ shared_text c.nsec3param.owner c.ttl) };
}

/// Returns the NSEC3PARAM record of a chain, which borrows the apex.
fn param_record<'a, S, O: Octets, N: ToName>(
    apex: &'a N,
    config: &GenerateNsec3Config<O, S>,
    soa: &ApexSoa,
) -> Result<Record<ParsedName<'a>, Nsec3param<O>>, OutOfMemory>
    ensures { IfOk result (λ made. as_param_record (λ n. n) made ≡ record {
      owner = N.labels apex.now;
      class = in_class;
      ttl = param_ttl config.now.nsec3param_ttl_mode soa.now;
      parameters = parameters_of config.now.params;
      flags = config.now.params.flags;
    }) }
{
    let params = config.params.clone()?;
    let ttl = config.nsec3param_ttl_mode.ttl(soa);
    Ok(Record::new(apex.as_parsed(), Class::IN, ttl, params))
}

/// Returns the text that the records of a chain share between their hash and their data.
fn shared_text(alloc: Global, apex: &ParsedName<'_>, ttl: Ttl) -> Result<String, OutOfMemory>
    ensures { IfOk result (λ text. string_bytes text ≡ shared_text apex.now ttl) }
{
    let dot = if apex.is_root() { "" } else { "." };
    let apex = apex.fmt_with_dot();
    Ok(format!(in alloc; "{dot}{apex} {ttl} IN NSEC3 ")?)
}

/// Returns the octets of a hash, each of which is below 256.
#[tactic(auto, using(domain_octets::proofs::WordLemmas::octets_from_type))]
fn as_octets(hash: &[u8]) -> &[u8]
    ensures same { result.now ≡ hash.now }
    ensures octets { All (λ octet. octet < 256) result.now }
{
    hash
}

impl<'a, O: Octets> Nsec3Chain<'a, O> {
    /// Returns the NSEC3 chain of a zone and its NSEC3PARAM record (RFC 5155, section 7.1), before
    /// the records are made. They are those of `generate_nsec3s`, with the same errors. The result
    /// borrows the apex; the records of the zone are only read.
    ///
    /// # Errors
    ///
    /// Those of `generate_nsec3s`.
    #[tactic(auto, using(std::proofs::lemmas::Grind::common_steps))]
    pub fn generate<S: Sorter, H: Nsec3Hasher, N: ToName, D: ZoneData>(
        alloc: Global,
        apex: &'a N,
        records: RecordsIter<'_, N, D>,
        config: &GenerateNsec3Config<O, S>,
        hasher: &H,
    ) -> Result<Self, SigningError>
    where
        O: Drop,
        requires one_class { IsOneClass records }
        requires in_order { IsInOrder N.labels D.rtype records }

        // Ok is exactly the chain, and is returned only if the zone has no fault.
        ensures chain { IfOk result (λ made. IsHashedChain
            (zone_of N.labels D.rtype D.minimum records.entry) (N.labels apex.now)
            (config_of (H.answer hasher.now) config.now) made.links) }
        ensures param { IfOk result (λ made. IsChainParam
            (zone_of N.labels D.rtype D.minimum records.entry) (N.labels apex.now)
            (config_of (H.answer hasher.now) config.now) config.now.nsec3param_ttl_mode
            made.param) }
        ensures faultless { OnOk result
            (IsHashedFaultless (zone_of N.labels D.rtype D.minimum records.entry)
            (N.labels apex.now) (config_of (H.answer hasher.now) config.now)) }
        ensures fault { IfErr result
            (IsFirstHashedFault (zone_of N.labels D.rtype D.minimum records.entry)
            (N.labels apex.now) (config_of (H.answer hasher.now) config.now)) }
    {
        let Some(soa) = find_soa(apex, records.records()) else {
            return Err(SigningError::SoaRecordCouldNotBeDetermined);
        };
        let chain = chain_of_zone(alloc, apex, records, config, hasher, &soa)?;
        let nsec3param = param_record(apex, config, &soa)?;
        let ttl = soa.chain_ttl();
        let shared = shared_text(alloc, nsec3param.owner(), ttl)?;
        Ok(Nsec3Chain {
            chain,
            ttl,
            nsec3param,
            shared,
        })
    }

    /// Returns the number of NSEC3 records of the chain.
    #[tactic(auto, using(crate::proofs::ChainLemmas::links_counted))]
    pub fn len(&self) -> usize
        ensures { result ≡ length self.now.links }
    {
        self.chain.hashed.len()
    }

    /// Returns whether the chain has no NSEC3 records. The chain of a zone has one for the apex.
    pub fn is_empty(&self) -> bool
        ensures { IsTrue result ↔ (self.now.links ≡ []) }
    {
        self.len() == 0
    }

    /// Returns the NSEC3PARAM record of the apex, whose name it borrows.
    pub fn nsec3param(&self) -> &Record<ParsedName<'a>, Nsec3param<O>>
        ensures { as_param_record (λ n. n) result.now ≡ self.now.param }
    {
        &self.nsec3param
    }

    /// Returns the record at a place, in the order of hashes, or `None` past the last one. The
    /// record borrows from the chain. Takes no memory.
    #[tactic(auto, using(crate::proofs::ChainLemmas::links_counted))]
    pub fn lend(&self, place: usize) -> Option<BorrowedNsec3<'_>>
        ensures some { IfSome result (λ made. (d : HashedLink)
            → made ≡ slice_index_or self.now.links place d) }
        ensures none { IfNone result (length self.now.links ≤ place) }
    {
        if place >= self.len() {
            return None;
        }
        Some(lend_record(&self.chain, place, self.ttl, &self.nsec3param, &self.shared))
    }

    /// Returns the hash in the owner of the record at a place, or `None` past the last one.
    pub fn hash_at(&self, place: usize) -> Option<&[u8]>
        ensures some { IfSome result (λ hash. (k : HashedLink)
            × IsRecordOf self.now.param.owner self.now.links place k hash.now) }
        ensures none { IfNone result (length self.now.links ≤ place) }
    {
        if place >= self.len() {
            return None;
        }
        Some(as_octets(self.chain.hashed[place].hash.as_slice()))
    }
}

impl<'a, O: FromBuilder> Nsec3Chain<'a, O> {
    /// Returns all NSEC3 records, in the order of hashes.
    pub fn records<N: MakeName>(
        &self,
        alloc: Global,
    ) -> Result<Vec<Record<N, Nsec3<O>>>, OutOfMemory>
    where
        O: Drop,
        N: Drop,
        O::Builder: GrowingBuilder,
        ensures { IfOk result (λ nsec3s.
            hashed_links_of N.labels nsec3s.items ≡ self.now.links) }
    {
        let mut nsec3s = Vec::with_capacity(alloc, self.len())?;
        for place in 0..self.len() {
            let Some(borrowed) = self.lend(place) else {
                unreachable!();
            };
            let nsec3 = copy_record(alloc, &borrowed)?;
            nsec3s.push(nsec3)?;
        }
        Ok(nsec3s)
    }
}

/// The NSEC3 chain of a zone, and its NSEC3PARAM record (RFC 5155, section 7.1).
#[derive(Drop)]
pub struct Nsec3Records<N, O: Octets> {
    /// The records of the chain, in the order of their hashes.
    pub nsec3s: Vec<Record<N, Nsec3<O>>>,
    /// The NSEC3PARAM record of the apex.
    pub nsec3param: Record<N, Nsec3param<O>>,
}

impl<N, O: Octets> Nsec3Records<N, O> {
    /// Returns the chain of these records.
    pub fn new(nsec3s: Vec<Record<N, Nsec3<O>>>, nsec3param: Record<N, Nsec3param<O>>) -> Self
        ensures { result ≡ record { nsec3s = nsec3s; nsec3param = nsec3param } }
    {
        Nsec3Records { nsec3s, nsec3param }
    }
}

/// Returns the NSEC3 chain of a zone, and its NSEC3PARAM record (RFC 5155, section 7.1). The chain
/// has one record for each original owner name. These are the owners at or below the apex that are
/// not strictly below a zone cut, and the empty non-terminals above them. It leaves out zone cuts
/// without DS records if the configuration says so and the flags have the Opt-Out bit. If the
/// configuration says so, it also leaves out names strictly below an owner of a DNAME record.
///
/// The records are in the order of their hashes. Each points to the next hash, the last one to the
/// first. Each is of class IN, and has the parameters and flags of the configuration. Its TTL in
/// seconds is the lesser of the SOA's MINIMUM and TTL (RFC 9077, section 3.2). Its owner is the
/// lower-case text of the hash as a label before the apex, in the spelling of `apex`.
///
/// Each record lists the types of its original owner name, at a zone cut only NS and DS of them. It
/// also lists RRSIG, except at a zone cut without DS. At the apex it also lists NSEC3PARAM, and
/// DNSKEY if the configuration assumes it. An empty non-terminal has no types.
///
/// The records must be of one class and in canonical order. Records of owners outside the zone are
/// ignored.
///
/// # Errors
///
/// The first of these that applies:
///
/// - `SoaRecordCouldNotBeDetermined` if the apex does not own exactly one record of type SOA, or
///   its data have no MINIMUM.
/// - `MultipleTtlValues` if two records of one owner of the chain, and of one type other than
///   RRSIG, differ in TTL.
/// - `Nsec3HashingError` with `Hasher`, `OwnerHashError` or `Nsec3NameTooLong`, for the first name
///   of the chain whose hash cannot be used. Owners come before empty non-terminals, both in
///   canonical order.
/// - `Nsec3HashingError` with `CollisionDetected` if two names of the chain have the same hash.
///
/// `OutOfMemory` if there is no memory, or if the chain would have 2^32 names or more. The zone
/// then has neither of the first two faults. It may have a fault of hashing, since hashes take
/// memory.
pub fn generate_nsec3s<S: Sorter, H: Nsec3Hasher, O, N: MakeName, D: ZoneData>(
    alloc: Global,
    apex: &N,
    records: RecordsIter<'_, N, D>,
    config: &GenerateNsec3Config<O, S>,
    hasher: &H,
) -> Result<Nsec3Records<N, O>, SigningError>
where
    N: Drop,
    O: FromBuilder + Drop,
    O::Builder: GrowingBuilder,
    requires one_class { IsOneClass records }
    requires in_order { IsInOrder N.labels D.rtype records }

    // Ok is exactly the chain, and is returned only if the zone has no fault.
    ensures chain { IfOk result (λ made. IsHashedChain
        (zone_of N.labels D.rtype D.minimum records.entry) (N.labels apex.now)
        (config_of (H.answer hasher.now) config.now) (hashed_links_of N.labels made.nsec3s.items)) }
    ensures param { IfOk result (λ made. IsChainParam
        (zone_of N.labels D.rtype D.minimum records.entry) (N.labels apex.now)
        (config_of (H.answer hasher.now) config.now) config.now.nsec3param_ttl_mode
        (as_param_record N.labels made.nsec3param)) }
    ensures faultless { OnOk result (IsHashedFaultless (zone_of N.labels D.rtype D.minimum
        records.entry) (N.labels apex.now) (config_of (H.answer hasher.now) config.now)) }
    ensures fault { IfErr result (IsFirstHashedFault (zone_of N.labels D.rtype D.minimum
        records.entry) (N.labels apex.now) (config_of (H.answer hasher.now) config.now)) }

    // What the chain says of every name of the zone. Its owners ascend as their hashes do.
    ensures means { IfOk result (λ made. HashedMeansTheZone
        (zone_of N.labels D.rtype D.minimum records.entry) (N.labels apex.now)
        (config_of (H.answer hasher.now) config.now) (hashed_links_of N.labels made.nsec3s.items)) }
{
    let chain = Nsec3Chain::generate(alloc, apex, records, config, hasher)?;
    let nsec3s = chain.records(alloc)?;
    let nsec3param = copy_param(alloc, chain.nsec3param())?;
    Ok(Nsec3Records::new(nsec3s, nsec3param))
}
