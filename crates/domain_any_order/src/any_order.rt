//! Chains of records that come in any order and are sorted first.
ghost use Rattle.std.specs.Prelude.{IfErr, IfOk};
ghost use Rattle.domain_records.specs.Order.{IsOneClass};
ghost use Rattle.domain_nsec.specs.Chain.{links_of, IsFaultless};
ghost use Rattle.domain_nsec3.specs.Chain.{IsHashedFaultless};
ghost use Rattle.domain_nsec3.specs.View.{as_param_record, config_of, hashed_links_of};
ghost use Rattle.domain_any_order.specs.AnyOrder.{HasNoChain, HasNoHashedChain, HasNoSet, IsChainOf, IsHashedChainOf, OfZone, Sorts, seen};

use crate::error::ChainError;
use crate::laws::sorting_keeps_classes_and_records;
use domain_base::{CanonicalOrd, MakeName, ToName};
use domain_hasher::Nsec3Hasher;
use domain_nsec::{GenerateNsecConfig, generate_nsecs};
use domain_nsec3::{GenerateNsec3Config, Nsec3Records, generate_nsec3s};
use domain_octets::{FromBuilder, GrowingBuilder};
use domain_rdata::Nsec;
use domain_record::{Record, ZoneData};
use domain_records::{RecordsIter, SortedRecords, Sorter};
use std::alloc::Global;

/// Sorts records of one class, and keeps the earliest of equal ones.
///
/// # Errors
///
/// `MixedClasses` if the records are not of one class. Otherwise `Sort` if there is no memory to
/// sort them.
pub fn sort_one_class<N: ToName, D: ZoneData + CanonicalOrd>(
    records: Vec<Record<N, D>>,
) -> Result<SortedRecords<N, D>, ChainError>
where
    N: Drop,
    D: Drop,
    ensures sorts { IfOk result
        (Sorts (seen N.labels D.rtype D.minimum D.canonical_cmp) records.items) }
    ensures one_class { IfOk result (λ sorted. IsOneClass sorted) }
    ensures err { IfErr result (HasNoSet records.items) }
{
    sorting_keeps_classes_and_records::<N, D>();
    if !RecordsIter::new_from_owned(records.as_slice()).is_one_class() {
        return Err(ChainError::MixedClasses);
    }
    let sorted: SortedRecords<N, D> = SortedRecords::from_vec(records)?;
    Ok(sorted)
}

/// Returns the NSEC chain of a zone whose records come in any order. Sorts the records, and keeps
/// the earliest of equal ones.
///
/// # Errors
///
/// The first of these that applies:
///
/// - `MixedClasses` if the records are not of one class.
/// - `Sort` if there is no memory to sort them. The zone may then have faults.
/// - `Signing` with the first fault of the zone.
/// - `OutOfMemory` if there is no memory for the chain. The zone then has no fault.
#[tactic(auto, using(crate::proofs::AnyOrderLemmas::no_chain))]
pub fn generate_nsecs_of_records<O, N: MakeName, D: ZoneData + CanonicalOrd>(
    alloc: Global,
    apex: &N,
    records: Vec<Record<N, D>>,
    config: &GenerateNsecConfig,
) -> Result<Vec<Record<N, Nsec<O, N>>>, ChainError>
where
    N: Drop,
    D: Drop,
    O: FromBuilder + Drop,
    O::Builder: GrowingBuilder,
    ensures ok { IfOk result (λ nsecs. IsChainOf (seen N.labels D.rtype D.minimum D.canonical_cmp)
        records.items (N.labels apex.now) config.now (links_of N.labels nsecs.items)) }

    // The zone of the sorted records has no fault.
    ensures faultless { IfOk result (λ nsecs. OfZone
        (seen N.labels D.rtype D.minimum D.canonical_cmp) records.items
        (λ L. IsFaultless L (N.labels apex.now) config.now)) }
    ensures err { IfErr result (HasNoChain (seen N.labels D.rtype D.minimum D.canonical_cmp)
        records.items (N.labels apex.now) config.now) }
{
    let sorted = sort_one_class(records)?;
    Ok(generate_nsecs(alloc, apex, sorted.owner_rrs(), config)?)
}

/// Returns the NSEC3 chain and the NSEC3PARAM record of a zone whose records come in any order.
/// Sorts the records, and keeps the earliest of equal ones.
///
/// # Errors
///
/// The first of these that applies:
///
/// - `MixedClasses` if the records are not of one class.
/// - `Sort` if there is no memory to sort them. The zone may then have faults.
/// - `Signing` with the first fault of the zone.
/// - `OutOfMemory` if there is no memory for the chain. The zone then has no fault, except perhaps
///   one of hashing.
#[tactic(auto, using(crate::proofs::AnyOrderLemmas::no_hashed_chain))]
pub fn generate_nsec3s_of_records<
    S: Sorter,
    H: Nsec3Hasher,
    O,
    N: MakeName,
    D: ZoneData + CanonicalOrd,
>(
    alloc: Global,
    apex: &N,
    records: Vec<Record<N, D>>,
    config: &GenerateNsec3Config<O, S>,
    hasher: &H,
) -> Result<Nsec3Records<N, O>, ChainError>
where
    N: Drop,
    D: Drop,
    O: FromBuilder + Drop,
    O::Builder: GrowingBuilder,
    ensures ok { IfOk result (λ made. IsHashedChainOf
        (seen N.labels D.rtype D.minimum D.canonical_cmp) records.items (N.labels apex.now)
        (config_of (H.answer hasher.now) config.now) config.now.nsec3param_ttl_mode
        (hashed_links_of N.labels made.nsec3s.items) (as_param_record N.labels made.nsec3param)) }

    // The zone of the sorted records has no fault.
    ensures faultless { IfOk result (λ made. OfZone
        (seen N.labels D.rtype D.minimum D.canonical_cmp) records.items (λ L. IsHashedFaultless L
        (N.labels apex.now) (config_of (H.answer hasher.now) config.now))) }
    ensures err { IfErr result (HasNoHashedChain (seen N.labels D.rtype D.minimum D.canonical_cmp)
        records.items (N.labels apex.now) (config_of (H.answer hasher.now) config.now)) }
{
    let sorted = sort_one_class(records)?;
    Ok(generate_nsec3s(alloc, apex, sorted.owner_rrs(), config, hasher)?)
}
