//! Writes chains in wire format.
ghost use Rattle.std.specs.Prelude.{◌≡◌, List, IfOk};
ghost use Rattle.domain_dnssec.specs.{Chain.{IsChain, Link}, Order.IsOneClass, Zone.zone_of, Wire.nsecs_octets};
ghost use Rattle.domain_dnssec.specs.ZoneData.{minimum_of, rtype_of};

use crate::zone::{Zone, ZoneName, zone};
use domain_dnssec::rdata::Nsec3Salt;
use domain_dnssec::{
    Error, GenerateNsec3Config, GenerateNsecConfig, InPlaceSorter, Nsec3Chain, Nsec3HashAlgorithm,
    Nsec3param, NsecChain, Sha1Hasher, compose_nsec3s, compose_nsecs,
};
use std::alloc::Global;
use std::fmt::Write;

/// Returns the octets of the NSEC chain of a zone of one class.
fn octets(
    alloc: Global,
    apex: &ZoneName,
    zone: &Zone,
    config: &GenerateNsecConfig,
) -> Result<Vec<u8>, Error>
    requires { IsOneClass zone.now }
    ensures { IfOk result (λ octets. (links : List Link) × IsChain
        (zone_of (λ name. name) rtype_of minimum_of zone.now) apex.now config.now links
        × (octets.items ≡ nsecs_octets links)) }
{
    let chain = NsecChain::generate(alloc, apex, zone.owner_rrs(), config)?;
    let mut octets = Vec::new(alloc);
    compose_nsecs(&chain, &mut octets)?;
    Ok(octets)
}

/// Returns the octets of the NSEC3 chain of a zone of one class, and of the NSEC3PARAM record that
/// the zone publishes.
fn hashed_octets(alloc: Global, apex: &ZoneName, zone: &Zone, flags: u8) -> Result<Vec<u8>, Error>
    requires { IsOneClass zone.now }
{
    let salt = Nsec3Salt::empty(alloc);
    let params = Nsec3param::new(Nsec3HashAlgorithm::SHA1, flags, 0, salt);
    let config: GenerateNsec3Config<Vec<u8>, InPlaceSorter> = GenerateNsec3Config::new(params);
    let chain = Nsec3Chain::generate(alloc, apex, zone.owner_rrs(), &config, &Sha1Hasher)?;
    let mut octets = Vec::new(alloc);
    compose_nsec3s(alloc, &chain, &mut octets)?;
    Ok(octets)
}

/// Appends octets to a text, in hexadecimal digits.
fn add_octets(octets: &[u8], text: &mut String) -> Result<(), Error> {
    for octet in octets {
        write!(text, "{octet:02x}")?;
    }
    writeln!(text)?;
    Ok(())
}

/// Prints the chains of the small zone in wire format: NSEC, NSEC3, and NSEC3 with opt-out.
pub fn show(alloc: Global, text: &mut String) -> Result<(), Error> {
    let apex = ZoneName::from_str(alloc, "example.")?;
    let zone = zone(alloc)?;
    let config = GenerateNsecConfig::new();
    add_octets(&octets(alloc, &apex, &zone, &config)?, text)?;
    add_octets(&hashed_octets(alloc, &apex, &zone, 0)?, text)?;
    add_octets(&hashed_octets(alloc, &apex, &zone, 1)?, text)
}
