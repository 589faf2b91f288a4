//! Data of all types as one type.
//!
//! `ZoneRecordData` holds the data of any type. Types without a variant of their own are held as
//! octets (RFC 3597).
//!
//! This crate re-exports the data of each type, records and the traits of data from the crates
//! below, so a user of record data needs this crate only.
//!
//! The crates above may rely on this: data of all types is ordered by type and then by canonical
//! octets, and no comparison takes memory. This also holds between known data and the same octets
//! held as unknown data.
#![tactic(auto)]

pub mod laws;
mod zone_octets;
mod zone_record_data;

pub use domain_bitmap::{
    CountedOctets, Nsec3Salt, Nsec3SaltError, Nsec3SaltFromStrError, OwnerHash, OwnerHashError,
    RtypeBitmap, RtypeBitmapBuilder, RtypeBitmapError, RtypeBitmapIter,
};
pub use domain_chain_rdata::{Nsec, Nsec3, Nsec3param, nsec_laws, nsec3_laws};
pub use domain_keys::{Dnskey, Ds};
pub use domain_plain::{A, Mx, Ns, Soa, UnknownRecordData};
pub use domain_record::{
    CloneRecordData, ComposeRecordData, LongRecordData, ParseRecordData, Record, RecordData,
    ZoneData,
};
pub use domain_rrsig::{IllegalSignatureTime, ProtoRrsig, Rrsig, Timestamp};
pub use zone_record_data::ZoneRecordData;
