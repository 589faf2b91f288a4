//! The SOA record of a zone.
ghost use Rattle.std.specs.Prelude.{◌≡◌};
ghost use Rattle.domain_zone.specs.Zone.{chain_ttl, is_soa, soa_of, as_zone_record, zone_of};

use domain_base::{Class, Rtype, ToName, Ttl};
use domain_groups::SliceRefsOrOwnedIterator;
use domain_record::{Record, ZoneData};

/// The fields of the SOA record of an apex that a chain needs.
#[derive(Clone, Copy, Debug, PartialEq, Eq)]
pub struct ApexSoa {
    /// The class of the record.
    pub class: Class,
    /// Its TTL, in seconds.
    pub ttl: Ttl,
    /// The MINIMUM field of its data, in seconds (RFC 2308, section 4).
    pub minimum: Ttl,
}

impl ApexSoa {
    /// Returns the TTL of a chain: the lesser of the MINIMUM and the TTL (RFC 9077, section 3.2).
    pub fn chain_ttl(&self) -> Ttl
        ensures { result ≡ chain_ttl self.now }
    {
        self.minimum.min(self.ttl)
    }
}

/// Returns whether the record is an SOA record of the apex.
fn is_soa_at<N: ToName, D: ZoneData>(apex: &N, candidate: &Record<N, D>) -> bool
    ensures { result ≡ is_soa (N.labels apex.now)
        (as_zone_record N.labels D.rtype D.minimum candidate.now) }
{
    candidate.rtype() == Rtype::SOA && candidate.owner().name_eq(apex)
}

/// Returns the class, TTL and MINIMUM of the SOA record of the apex. Returns `None` unless the apex
/// owns exactly one record of type SOA, and its data have a MINIMUM. Takes no memory.
pub fn find_soa<N: ToName, D: ZoneData>(
    apex: &N,
    mut records: SliceRefsOrOwnedIterator<'_, Record<N, D>>,
) -> Option<ApexSoa>
    ensures { result ≡ soa_of (zone_of N.labels D.rtype D.minimum records.entry)
        (N.labels apex.now) }
{
    let mut found: Option<&Record<N, D>> = None;
    'records: while let Some(record) = records.next() {
        if is_soa_at(apex, record) {
            if found.is_some() {
                return None;
            }
            found = Some(record);
        }
    }
    let record = found?;
    let minimum = record.data().soa_minimum()?;
    Some(ApexSoa {
        class: record.class(),
        ttl: record.ttl(),
        minimum,
    })
}
