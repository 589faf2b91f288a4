//! A first program: it prints the NSEC chain of a small zone.
#![tactic(auto)]

use domain_dnssec::{
    Error, GenerateNsecConfig, Name, Nsec, Record, generate_nsecs_of_records, scan_record,
};
use std::alloc::Global;
use std::fmt::Write;
use std::io;

/// A name in octets of its own.
type ZoneName = Name<Vec<u8>>;

/// A record of the chain.
type ChainRecord = Record<ZoneName, Nsec<Vec<u8>, ZoneName>>;

/// The records of the zone, in any order.
const ZONE: [&str; 4] = [
    "example. 3600 IN SOA ns.example. mail.example. 1 86400 7200 604800 300",
    "example. 3600 IN NS ns.example.",
    "www.example. 3600 IN A 192.0.2.1",
    "ns.example. 3600 IN A 192.0.2.53",
];

/// Returns the chain, one record a line.
fn chain(alloc: Global) -> Result<String, Error> {
    let mut records = Vec::new(alloc);
    for line in ZONE {
        records.push(scan_record(alloc, line)?)?;
    }
    let apex = ZoneName::from_str(alloc, "example.")?;
    let config = GenerateNsecConfig::new();
    let chain: Vec<ChainRecord> = generate_nsecs_of_records(alloc, &apex, records, &config)?;
    let mut text = String::new(alloc);
    for nsec in &chain {
        writeln!(text, "{nsec}")?;
    }
    Ok(text)
}

fn main(rt: HostRuntime) -> io::Result<()> {
    match chain(rt.alloc()) {
        Ok(text) => print!(rt; "{text}"),
        Err(error) => eprintln!(rt; "{error}"),
    }
}
