//! The data of records: what follows the TTL in a record.

pub use domain_rdata::{
    A, Dnskey, Ds, Mx, Ns, Nsec, Nsec3, Nsec3Salt, Nsec3param, OwnerHash, ProtoRrsig, Rrsig, Soa,
    Timestamp, UnknownRecordData, ZoneRecordData,
};
