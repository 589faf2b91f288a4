//! A small zone, built in code.
ghost use Rattle.std.specs.Prelude.{IfOk};
ghost use Rattle.domain_dnssec.specs.Order.{IsOneClass};

use domain_dnssec::rdata::{A, Mx, Ns, Soa};
use domain_dnssec::{
    Class, Error, Name, Record, Rtype, SortedRecords, Ttl, ZoneRecordData, sort_one_class,
};
use std::alloc::Global;
use std::net::Ipv4Addr;

/// A name with its own octets.
pub type ZoneName = Name<Vec<u8>>;

/// The data of a record.
pub type Data = ZoneRecordData<Vec<u8>, ZoneName>;

/// A record of a zone.
pub type OwnedRecord = Record<ZoneName, Data>;

/// A zone whose records are in canonical order.
pub type Zone = SortedRecords<ZoneName, Data>;

/// Returns the SOA of the zone.
fn soa(alloc: Global) -> Result<Data, Error> {
    let (hour, day) = (Ttl::from_hours(1), Ttl::from_hours(24));
    let primary = ZoneName::from_str(alloc, "ns.example.")?;
    let mailbox = ZoneName::from_str(alloc, "hostmaster.example.")?;
    let minimum = Ttl::from_mins(5);
    let soa = Soa::new(primary, mailbox, 2026112301, day, hour, day, minimum);
    Ok(Data::Soa(soa))
}

/// Returns the octets of a CAA record, a type of which only the name is known.
fn caa(alloc: Global) -> Result<Data, Error> {
    let octets = Vec::from_slice(alloc, b"\x00\x05issueca.example")?;
    Ok(Data::from_octets(alloc, Rtype::CAA, octets)?)
}

/// Adds a record of the owner that a text spells.
fn add(
    alloc: Global,
    owner: &str,
    data: Data,
    records: &mut Vec<OwnedRecord>,
) -> Result<(), Error> {
    let owner = ZoneName::from_str(alloc, owner)?;
    records.push(Record::new(owner, Class::IN, Ttl::from_hours(1), data))?;
    Ok(())
}

/// Returns the records of `example.`, in no particular order.
pub fn records(alloc: Global) -> Result<Vec<OwnedRecord>, Error> {
    let address = A::new(Ipv4Addr::new(192, 0, 2, 1));
    let (host, apex) = ("mail.office.example.", "example.");
    let mail = Mx::new(10, ZoneName::from_str(alloc, host)?);
    let server = Ns::new(ZoneName::from_str(alloc, "ns.example.")?);
    let mut records = Vec::new(alloc);
    add(alloc, host, Data::A(address), &mut records)?;
    add(alloc, apex, Data::Mx(mail), &mut records)?;
    add(alloc, apex, caa(alloc)?, &mut records)?;
    add(alloc, apex, Data::Ns(server), &mut records)?;
    add(alloc, apex, soa(alloc)?, &mut records)?;
    Ok(records)
}

/// Returns the zone `example.`, sorted.
pub fn zone(alloc: Global) -> Result<Zone, Error>
    ensures { IfOk result (λ zone. IsOneClass zone) }
{
    let zone: Zone = sort_one_class(records(alloc)?)?;
    Ok(zone)
}
