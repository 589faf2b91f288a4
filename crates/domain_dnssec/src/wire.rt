//! Chains in wire format.
ghost use Rattle.std.specs.Prelude.{◌≡◌, ◌<◌, ◌++◌, length, IfErr, OnOk};
ghost use Rattle.domain_nsec.specs.Chain.{as_link};
ghost use Rattle.domain_nsec3.specs.View.{as_param_record};
ghost use Rattle.domain_borrowed.specs.Data.{nsec_record, nsec3_record, param_record, raw_record_octets};
ghost use Rattle.domain_dnssec.specs.Wire.{nsecs_octets, nsec3s_octets, published, HasLong, IsUncomposed};

use crate::Error;
use domain_base::{Class, Name, ParsedName, ToName};
use domain_borrowed::{compose_parts, compose_record};
use domain_nsec::{BorrowedNsec, NsecChain};
use domain_nsec3::{BorrowedNsec3, Nsec3Chain};
use domain_octets::{Octets, OutOfMemory};
use domain_rdata::Nsec3param;
use domain_record::{ComposeRecordData, Record};
use std::alloc::Global;

/// Appends an NSEC record.
fn add_nsec(nsec: &BorrowedNsec<'_>, octets: &mut Vec<u8>) -> Result<(), Error>
    ensures ok { OnOk result (octets.new.items
        ≡ octets.old.items ++ raw_record_octets (nsec_record (as_link (λ n. n) nsec.now))) }
    ensures err { IfErr result (IsUncomposed
        (65535 < length (nsec_record (as_link (λ n. n) nsec.now)).«data».octets)) }
{
    if !nsec.data().fits_rdlen() {
        return Err(Error::LongRecordData);
    }
    match compose_record(nsec, octets) {
        Ok(()) => Ok(()),
        Err(_) => Err(Error::OutOfMemory),
    }
}

/// Appends the records of an NSEC chain, one after another, in wire format without compression (RFC
/// 1035, section 3.2.1; RFC 4034, section 4.1).
///
/// # Errors
///
/// `OutOfMemory` if there is no memory, and `LongRecordData` if the data of a record have over
/// 65,535 octets, which no record of a zone's chain has. After an error, `octets` keeps what it
/// had, and some of the records.
pub fn compose_nsecs<N: ToName>(chain: &NsecChain<'_, N>, octets: &mut Vec<u8>) -> Result<(), Error>
    ensures ok { OnOk result (octets.new.items ≡ octets.old.items ++ nsecs_octets chain.now) }
    ensures err { IfErr result (IsUncomposed (HasLong nsec_record chain.now)) }
{
    for place in 0..chain.len() {
        let Some(nsec) = chain.lend(place) else {
            unreachable!();
        };
        add_nsec(&nsec, octets)?;
    }
    Ok(())
}

/// Appends an NSEC3 record of class IN.
fn add_nsec3(alloc: Global, nsec3: &BorrowedNsec3<'_>, octets: &mut Vec<u8>) -> Result<(), Error>
    ensures ok { OnOk result (octets.new.items
        ≡ octets.old.items ++ raw_record_octets (nsec3_record nsec3.now)) }
    ensures err { IfErr result (IsUncomposed
        (65535 < length (nsec3_record nsec3.now).«data».octets)) }
{
    let hashed = nsec3.data();
    if !hashed.fits_rdlen() {
        return Err(Error::LongRecordData);
    }
    let owner: Name<Vec<u8>> = nsec3.owner().make(alloc)?;
    match compose_parts(&owner, Class::IN, nsec3.ttl(), hashed, octets) {
        Ok(()) => Ok(()),
        Err(_) => Err(Error::OutOfMemory),
    }
}

/// Appends an NSEC3PARAM record.
#[tactic(auto, using(crate::proofs::WireLemmas::param_short))]
fn add_param<O: Octets>(
    param: &Record<ParsedName<'_>, Nsec3param<O>>,
    octets: &mut Vec<u8>,
) -> Result<(), OutOfMemory>
    ensures { OnOk result (octets.new.items
        ≡ octets.old.items ++ raw_record_octets (param_record (as_param_record (λ n. n)
        param.now))) }
{
    // Its data have at most 260 octets, since a salt has at most 255.
    let _salt = param.data().salt().as_slice();
    match compose_record(param, octets) {
        Ok(()) => Ok(()),
        Err(_) => Err(OutOfMemory),
    }
}

/// Returns the NSEC3PARAM record that a zone publishes: the same with flags 0. Name servers ignore
/// a record with other flags, and then deny nothing by NSEC3 (RFC 5155, section 4.1.2). The record
/// of a chain with opt-out has flags 1. Does not allocate.
pub fn published_nsec3param<'a, N: ToName, O: Octets>(
    param: &'a Record<N, Nsec3param<O>>,
) -> Record<ParsedName<'a>, Nsec3param<&'a [u8]>>
    ensures { as_param_record (λ n. n) result ≡ published (as_param_record N.labels param.now) }
{
    let data = param.data();
    let salt = data.salt().with_octets(data.salt().as_slice());
    let data = Nsec3param::new(data.hash_algorithm(), 0, data.iterations(), salt);
    Record::new(param.owner().as_parsed(), param.class(), param.ttl(), data)
}

/// Appends the records of an NSEC3 chain, one after another, and the NSEC3PARAM record that its
/// zone publishes, with flags 0. They are in wire format without compression (RFC 1035, section
/// 3.2.1; RFC 5155, sections 3.2 and 4.2). Owners are encoded in memory of `alloc`.
///
/// # Errors
///
/// `OutOfMemory` if there is no memory, and `LongRecordData` if the data of a record have over
/// 65,535 octets, which no record of a zone's chain has. After an error, `octets` keeps what it
/// had, and some of the records.
pub fn compose_nsec3s<O: Octets>(
    alloc: Global,
    chain: &Nsec3Chain<'_, O>,
    octets: &mut Vec<u8>,
) -> Result<(), Error>
    ensures ok { OnOk result (octets.new.items ≡ octets.old.items ++ nsec3s_octets chain.now) }
    ensures err { IfErr result (IsUncomposed (HasLong nsec3_record chain.now.links)) }
{
    for place in 0..chain.len() {
        let Some(nsec3) = chain.lend(place) else {
            unreachable!();
        };
        add_nsec3(alloc, &nsec3, octets)?;
    }
    add_param(&published_nsec3param(chain.nsec3param()), octets)?;
    Ok(())
}
