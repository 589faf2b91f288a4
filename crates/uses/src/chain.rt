//! Makes a chain from records.
ghost use Rattle.std.specs.Prelude.{IfOk};
ghost use Rattle.domain_dnssec.specs.{AnyOrder.IsChainOf, RawRecords.zone_view, Chain.links_of};

use crate::zone::{OwnedRecord, ZoneName, records};
use domain_dnssec::{Error, GenerateNsecConfig, Nsec, Record, generate_nsecs_of_records};
use std::alloc::Global;
use std::fmt::Write;

/// A record of an NSEC chain.
type NsecRecord = Record<ZoneName, Nsec<Vec<u8>, ZoneName>>;

/// Returns the NSEC chain of a zone whose records are passed in any order.
pub fn chain(
    alloc: Global,
    apex: &ZoneName,
    records: Vec<OwnedRecord>,
    config: &GenerateNsecConfig,
) -> Result<Vec<NsecRecord>, Error>
    ensures { IfOk result (λ nsecs. IsChainOf (zone_view (λ octets. octets.items)
        (λ name. name)) records.items apex.now config.now (links_of (λ name. name) nsecs.items)) }
{
    let nsecs = generate_nsecs_of_records(alloc, apex, records, config)?;
    Ok(nsecs)
}

/// Prints the chain of the small zone.
pub fn show(alloc: Global, text: &mut String) -> Result<(), Error> {
    let apex = ZoneName::from_str(alloc, "example.")?;
    let config = GenerateNsecConfig::new();
    for nsec in &chain(alloc, &apex, records(alloc)?, &config)? {
        writeln!(text, "{nsec}")?;
    }
    Ok(())
}
