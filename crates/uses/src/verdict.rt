//! What a few records prove.
ghost use Rattle.domain_dnssec.specs.{Verdict.IsProved, Chain.links_of};

use crate::zone::ZoneName;
use domain_dnssec::{Error, Nsec, Record, Rtype, Verdict, ZoneRecordData, check_nsec, scan_record};
use std::alloc::Global;
use std::fmt::Write;

/// A record of an NSEC chain.
type NsecRecord = Record<ZoneName, Nsec<Vec<u8>, ZoneName>>;

/// Returns the NSEC record that a line spells.
fn nsecs(alloc: Global, line: &str) -> Result<Vec<NsecRecord>, Error> {
    let mut nsecs = Vec::new(alloc);
    let (owner, class, ttl, data) = scan_record(alloc, line)?.into_parts();
    if let ZoneRecordData::Nsec(data) = data {
        nsecs.push(Record::new(owner, class, ttl, data))?;
    }
    Ok(nsecs)
}

/// Returns what the records of a chain prove about a name and a type.
fn ask(apex: &ZoneName, nsecs: &[NsecRecord], name: &ZoneName, rtype: Rtype) -> Verdict
    ensures { IsProved (links_of (λ name. name) nsecs.now) apex.now name.now rtype result }
{
    check_nsec(apex, nsecs, name, rtype)
}

/// Prints what one record proves about three names.
pub fn show(alloc: Global, text: &mut String) -> Result<(), Error> {
    let apex = ZoneName::from_str(alloc, "example.")?;
    let nsecs = nsecs(alloc, "example. 300 IN NSEC mail.office.example. NS SOA")?;
    let names = [
        "example.",
        "office.example.",
        "dial.example.",
        "www.example.",
    ];
    for asked in names {
        let name = ZoneName::from_str(alloc, asked)?;
        let verdict = ask(&apex, nsecs.as_slice(), &name, Rtype::A);
        writeln!(text, "{asked} {verdict:?}")?;
    }
    Ok(())
}
