//! Makes an NSEC3 chain with a custom hasher.
ghost use Rattle.std.specs.Prelude.{nat_le, Err, IfOk, if◌then◌else◌};
ghost use Rattle.domain_dnssec.specs.{Iterated.sha1_answer, Hashed.{as_param_record, config_of}};
ghost use Rattle.domain_dnssec.specs.{AnyOrder.IsHashedChainOf, RawRecords.zone_view, Hashed.hashed_links_of};

use crate::zone::{OwnedRecord, ZoneName, records};
use domain_dnssec::rdata::Nsec3Salt;
use domain_dnssec::{
    DefaultSorter, Error, GenerateNsec3Config, HasherError, Nsec3HashAlgorithm, Nsec3Hasher,
    Nsec3Records, Nsec3param, Sha1Hasher, generate_nsec3s_of_records,
};
use std::alloc::Global;
use std::fmt::Write;

/// SHA-1 with at most `iterations` iterations. With more, it fails with the number 1 (RFC 9276,
/// section 3.2).
#[derive(Clone, Copy, Debug)]
struct LimitedHasher {
    iterations: u16,
}

impl Nsec3Hasher for LimitedHasher {
    ghost answer = { λ hasher name algorithm iterations salt.
        if nat_le iterations hasher.iterations
        then sha1_answer name algorithm iterations salt
        else Err 1 };

    ghost takes_memory = { λ hasher. Unit {0} };

    fn hash(
        &self,
        alloc: Global,
        name: &[u8],
        algorithm: Nsec3HashAlgorithm,
        iterations: u16,
        salt: &[u8],
    ) -> Result<Vec<u8>, HasherError> {
        if iterations > self.iterations {
            return Err(HasherError::Refused(1));
        }
        Sha1Hasher.hash(alloc, name, algorithm, iterations, salt)
    }
}

/// Returns the NSEC3 chain of a zone whose records are passed in any order, with any hasher.
fn chain<H: Nsec3Hasher>(
    alloc: Global,
    apex: &ZoneName,
    records: Vec<OwnedRecord>,
    config: &GenerateNsec3Config<Vec<u8>, DefaultSorter>,
    hasher: &H,
) -> Result<Nsec3Records<ZoneName, Vec<u8>>, Error>
    ensures { IfOk result (λ made. IsHashedChainOf
        (zone_view (λ octets. octets.items) (λ name. name)) records.items apex.now
        (config_of (H.answer hasher.now) config.now) config.now.nsec3param_ttl_mode
        (hashed_links_of (λ name. name) made.nsec3s.items)
        (as_param_record (λ name. name) made.nsec3param)) }
{
    let made = generate_nsec3s_of_records(alloc, apex, records, config, hasher)?;
    Ok(made)
}

/// Appends the chain of the small zone with these iterations to a text.
fn add_chain(alloc: Global, iterations: u16, text: &mut String) -> Result<(), Error> {
    let apex = ZoneName::from_str(alloc, "example.")?;
    let salt = Nsec3Salt::empty(alloc);
    let params = Nsec3param::new(Nsec3HashAlgorithm::SHA1, 0, iterations, salt);
    let config = GenerateNsec3Config::from(params);
    let hasher = LimitedHasher { iterations: 100 };
    let made = chain(alloc, &apex, records(alloc)?, &config, &hasher)?;
    for nsec3 in &made.nsec3s {
        writeln!(text, "{nsec3}")?;
    }
    Ok(())
}

/// Prints the chain without additional iterations, and why there is none with too many.
pub fn show(alloc: Global, text: &mut String) -> Result<(), Error> {
    add_chain(alloc, 0, text)?;
    if let Err(error) = add_chain(alloc, 101, text) {
        writeln!(text, "101 iterations: {error}")?;
    }
    Ok(())
}
