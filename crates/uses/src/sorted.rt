//! Keeps sorted records up to date.
ghost use Rattle.std.specs.Prelude.{◌≡◌, OnErr};

use crate::zone::{Data, OwnedRecord, Zone, ZoneName, records};
use domain_dnssec::rdata::A;
use domain_dnssec::{Class, Error, Record, Rtype, Ttl};
use std::alloc::Global;
use std::fmt::Write;
use std::net::Ipv4Addr;

/// Inserts a record. If an equal one is there, the zone stays as it was.
fn put(zone: &mut Zone, record: OwnedRecord) -> Result<(), Error>
    ensures { OnErr result (zone.new ≡ zone.old) }
{
    zone.insert(record)?;
    Ok(())
}

/// Returns a record of a host.
fn host(alloc: Global, last: u8) -> Result<OwnedRecord, Error> {
    let owner = ZoneName::from_str(alloc, "mail.office.example.")?;
    let data = Data::A(A::new(Ipv4Addr::new(192, 0, 2, last)));
    Ok(Record::new(owner, Class::IN, Ttl::from_hours(1), data))
}

/// Prints how a zone changes.
pub fn show(alloc: Global, text: &mut String) -> Result<(), Error> {
    let mut zone = Zone::from_vec(records(alloc)?)?;
    put(&mut zone, host(alloc, 7)?)?;
    if let Err(error) = put(&mut zone, host(alloc, 7)?) {
        writeln!(text, "once more: {error}")?;
    }
    let apex = ZoneName::from_str(alloc, "example.")?;
    let _ = zone.remove_all_by_name_class_rtype(&apex, Some(Class::IN), Some(Rtype::CAA));
    writeln!(text, "held: {}", zone.len())?;
    Ok(())
}
