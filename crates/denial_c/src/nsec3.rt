//! What the NSEC3 records in octets prove.
ghost use Rattle.std.specs.Prelude.{◌≡◌, ◌≢◌, [], ◌∷◌, filter, length, map, IfErr, IfOk};
ghost use Rattle.std.specs.Prelude.{List};
ghost use Rattle.domain_nsec3.specs.{Chain.ParamRecord, View.{as_hashed_link, as_param_record, hashed_links_of, parameters_of}};
ghost use Rattle.denial_c.specs.Result.{EncodeNsec3s, EncodeParams, IsReadFault, first_parameters, is_known};
ghost use Rattle.denial_c.specs.Result.{source_of, AreNsec3sAlone, AreWithParam, IsChainFault, IsNsec3Result};
ghost use Rattle.denial_c.specs.Result.{are_known_flags, known_links, known_params, AreKnownWithParam};
ghost use Rattle.denial_c.specs.Result.{IsKnownChainFault, IsKnownParamFault, IsParamFault};
ghost use Rattle.denial_c.specs.declared.fault.Fault.TheVariants as fault;
ghost use Rattle.domain_checker.specs.HashedVerdict.{links};

use crate::among::records_among;
use crate::fault::{Fault, told_or_fault};
use crate::question::{Question, read_question};
use domain_base::{Class, Nsec3HashAlgorithm, ParsedName, Rtype, ToName, Ttl};
use domain_borrowed::{ReadNsec3, ReadNsec3param};
use domain_chain_rdata::Nsec3param;
use domain_checker::{Nsec3Index, Verdict, check_nsec3_index, is_hash_owner};
use domain_nsec3::Nsec3Records;
use domain_octets::{OutOfMemory, TryClone};
use domain_record::Record;
use domain_sha1::Sha1Hasher;
use std::alloc::Global;

/// The source of the parameters of the hashes.
#[derive(Clone, Copy)]
pub(crate) enum Telling {
    /// The one NSEC3PARAM record of the apex.
    ByRecord,
    /// The one NSEC3PARAM record of the apex with known flags. NSEC3 records with unknown flags are
    /// ignored.
    ByKnownRecord,
    /// The first of the NSEC3 records.
    ByFirst,
}

/// Returns whether no flag is set but opt-out. Records with other flags must be ignored (RFC 5155,
/// sections 4.1.2 and 8.2).
fn are_known_flags(flags: u8) -> bool
    ensures { result ≡ are_known_flags flags }
{
    flags < 2
}

/// Returns the only one of these NSEC3PARAM records.
fn single(mut params: Vec<ReadNsec3param<'_>>) -> Result<ReadNsec3param<'_>, Fault>
    ensures ok { IfOk result (λ param. map (as_param_record (λ n. n)) params.entry.items
        ≡ as_param_record (λ n. n) param ∷ []) }
    ensures err { IfErr result (λ e. (e ≡ fault.Param) × (length params.entry.items ≢ 1)) }
{
    let Some(param) = params.pop() else {
        return Err(Fault::Param);
    };
    if !params.is_empty() {
        return Err(Fault::Param);
    }
    Ok(param)
}

/// Returns the one NSEC3PARAM record of the apex and the class in `octets`.
fn param_among<'a>(
    alloc: Global,
    apex: &ParsedName<'_>,
    class: Class,
    octets: &'a [u8],
) -> Result<ReadNsec3param<'a>, Fault>
    ensures ok { IfOk result (λ param. EncodeParams apex.now class octets.now
        (as_param_record (λ n. n) param ∷ [])) }
    ensures err { IfErr result (IsParamFault apex.now class octets.now) }
{
    let params: Vec<ReadNsec3param<'a>> = records_among(alloc, apex, class, octets)?;
    single(params)
}

/// Returns the NSEC3 records of the class in `octets`, with the one NSEC3PARAM record of the apex.
fn chain_among<'a>(
    alloc: Global,
    apex: &ParsedName<'_>,
    class: Class,
    octets: &'a [u8],
) -> Result<Nsec3Records<ParsedName<'a>, &'a [u8]>, Fault>
    ensures ok { IfOk result (λ chain. AreWithParam class octets.now apex.now
        (links (λ n. n) chain) (as_param_record (λ n. n) chain.nsec3param)) }
    ensures err { IfErr result (IsChainFault class octets.now apex.now) }
{
    let nsec3s = records_among(alloc, apex, class, octets)?;
    let param = param_among(alloc, apex, class, octets)?;
    Ok(Nsec3Records::new(nsec3s, param))
}

/// Returns these NSEC3 records without those that have unknown flags. Does not allocate.
fn flagged_links(mut nsec3s: Vec<ReadNsec3<'_>>) -> Vec<ReadNsec3<'_>>
    ensures { hashed_links_of (λ n. n) result.items
        ≡ known_links (hashed_links_of (λ n. n) nsec3s.entry.items) }
{
    nsec3s.retain(|nsec3| are_known_flags(nsec3.data().flags()));
    nsec3s
}

/// Returns these NSEC3PARAM records without those that have unknown flags. Does not allocate.
fn flagged_params(mut params: Vec<ReadNsec3param<'_>>) -> Vec<ReadNsec3param<'_>>
    ensures { map (as_param_record (λ n. n)) result.items
        ≡ known_params (map (as_param_record (λ n. n)) params.entry.items) }
{
    params.retain(|param| are_known_flags(param.data().flags()));
    params
}

/// Returns the one NSEC3PARAM record with known flags of the apex and the class in `octets`.
fn known_param_among<'a>(
    alloc: Global,
    apex: &ParsedName<'_>,
    class: Class,
    octets: &'a [u8],
) -> Result<ReadNsec3param<'a>, Fault>
    ensures ok { IfOk result (λ param. (params : List ParamRecord)
        × EncodeParams apex.now class octets.now params
        × (known_params params ≡ as_param_record (λ n. n) param ∷ [])) }
    ensures err { IfErr result (IsKnownParamFault apex.now class octets.now) }
{
    let params: Vec<ReadNsec3param<'a>> = records_among(alloc, apex, class, octets)?;
    single(flagged_params(params))
}

/// Returns the NSEC3 records with known flags of the class in `octets`, with the one such
/// NSEC3PARAM record of the apex.
fn known_chain_among<'a>(
    alloc: Global,
    apex: &ParsedName<'_>,
    class: Class,
    octets: &'a [u8],
) -> Result<Nsec3Records<ParsedName<'a>, &'a [u8]>, Fault>
    ensures ok { IfOk result (λ chain. AreKnownWithParam class octets.now apex.now
        (links (λ n. n) chain) (as_param_record (λ n. n) chain.nsec3param)) }
    ensures err { IfErr result (IsKnownChainFault class octets.now apex.now) }
{
    let nsec3s = records_among(alloc, apex, class, octets)?;
    let param = known_param_among(alloc, apex, class, octets)?;
    Ok(Nsec3Records::new(flagged_links(nsec3s), param))
}

/// Returns whether the record is of the zone, by its owner, its algorithm is SHA-1, and it has no
/// flag other than opt-out. Other records must be ignored (RFC 5155, sections 8.1 and 8.2).
fn is_known(apex: &ParsedName<'_>, nsec3: &ReadNsec3<'_>) -> bool
    ensures { result ≡ is_known apex.now (as_hashed_link (λ n. n) nsec3.now) }
{
    let hashed = nsec3.data();
    (hashed.hash_algorithm() == Nsec3HashAlgorithm::SHA1)
        & are_known_flags(hashed.flags())
        & is_hash_owner(apex, nsec3.owner())
}

/// Returns these NSEC3 records without those that must be ignored. Does not allocate.
fn known_of<'a>(apex: &ParsedName<'_>, mut nsec3s: Vec<ReadNsec3<'a>>) -> Vec<ReadNsec3<'a>>
    ensures { hashed_links_of (λ n. n) result.items
        ≡ filter (is_known apex.now) (hashed_links_of (λ n. n) nsec3s.entry.items) }
{
    nsec3s.retain(|nsec3| is_known(apex, nsec3));
    nsec3s
}

/// Returns the parameters of the first of these records, or SHA-1, no iterations and no salt
/// without records.
fn first_params<'a>(
    alloc: Global,
    nsec3s: &[ReadNsec3<'a>],
) -> Result<Nsec3param<&'a [u8]>, OutOfMemory>
    ensures { IfOk result (λ params. parameters_of params
        ≡ first_parameters (hashed_links_of (λ n. n) nsec3s.now)) }
{
    let Some(nsec3) = nsec3s.first() else {
        return Ok(Nsec3param::default(alloc));
    };
    let hashed = nsec3.data();
    let salt = hashed.salt().clone()?;
    Ok(Nsec3param::new(hashed.hash_algorithm(), 0, hashed.iterations(), salt))
}

/// Returns the NSEC3 records of the class in `octets`, without those that must be ignored. Makes an
/// NSEC3PARAM record of the apex that repeats the parameters of the first.
#[tactic(auto, using(crate::proofs::AmongLemmas::first_by_sha1))]
fn alone_among<'a>(
    alloc: Global,
    apex: &ParsedName<'a>,
    class: Class,
    octets: &'a [u8],
) -> Result<Nsec3Records<ParsedName<'a>, &'a [u8]>, Fault>
    ensures ok { IfOk result (λ chain. AreNsec3sAlone class octets.now apex.now
        (links (λ n. n) chain) (as_param_record (λ n. n) chain.nsec3param)) }
    ensures err { IfErr result (IsReadFault (EncodeNsec3s class octets.now)) }
{
    let all = records_among(alloc, apex, class, octets)?;
    let known = known_of(apex, all);
    let Ok(params) = first_params(alloc, &known) else {
        return Err(Fault::OutOfMemory);
    };
    let Ok(owner) = apex.try_clone() else {
        unreachable!();
    };
    let param = Record::new(owner, class, Ttl::from_secs(0), params);
    Ok(Nsec3Records::new(known, param))
}

/// Returns the NSEC3 records of the class in `octets`, with their parameters.
pub(crate) fn chain_told<'a>(
    alloc: Global,
    telling: Telling,
    apex: &ParsedName<'a>,
    class: Class,
    octets: &'a [u8],
) -> Result<Nsec3Records<ParsedName<'a>, &'a [u8]>, Fault>
    ensures ok { IfOk result (λ chain. (source_of telling class octets.now).are apex.now
        (links (λ n. n) chain) (as_param_record (λ n. n) chain.nsec3param)) }
    ensures err { IfErr result ((source_of telling class octets.now).is_fault apex.now) }
{
    match telling {
        Telling::ByRecord => chain_among(alloc, apex, class, octets),
        Telling::ByKnownRecord => known_chain_among(alloc, apex, class, octets),
        Telling::ByFirst => alone_among(alloc, apex, class, octets),
    }
}

/// Returns what the NSEC3 records of the class in `records` prove about the name and the type.
#[tactic(auto, using(std::proofs::lemmas::Grind::common_steps, crate::proofs::AmongLemmas::verdict_returned, crate::proofs::AmongLemmas::verdict_refused))]
pub(crate) fn nsec3_verdict(
    alloc: Global,
    telling: Telling,
    apex: &[u8],
    name: &[u8],
    rtype: u16,
    class: u16,
    records: &[u8],
) -> Result<Verdict, Fault>
    ensures { IsNsec3Result (source_of telling class records.now) apex.now name.now rtype result }
{
    let Question { apex, name, chain } = read_question(alloc, telling, apex, name, class, records)?;
    let rtype = Rtype::from_int(rtype);
    let index = Nsec3Index::new(alloc, &apex, &chain)?;
    told_or_fault(check_nsec3_index(alloc, &index, &name, rtype, &Sha1Hasher))
}
