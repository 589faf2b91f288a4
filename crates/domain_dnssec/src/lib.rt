//! DNSSEC denial of existence in one crate: the chains of a zone (RFC 4034, section 4; RFC 4035,
//! section 2.3; RFC 5155, section 7.1; RFC 9077), and what their records prove.
//!
//! - `generate_nsecs_of_records` and `generate_nsec3s_of_records` make the NSEC and the NSEC3 chain
//!   of a zone whose records are in any order. `generate_nsecs` and `generate_nsec3s` take the
//!   records in canonical order, as `owner_rrs` of `SortedRecords` returns them.
//! - `NsecChain::generate` and `Nsec3Chain::generate` make the same chains, but lend their records
//!   one by one, in less memory.
//! - `check_nsec` and `check_nsec3` return what records of a chain prove about a name and a type.
//! - `judge_nsec` and `judge_nsec3` return the whole answer: a name error, no data, a delegation,
//!   an alias, or what a wildcard does. `judge_nsec_with_witnesses` and
//!   `judge_nsec3_with_witnesses` also return the records that it rests on.
//! - `deny_nsec` and `deny_nsec3` pick the records of a chain with which a server answers.
//! - `compose_nsecs` and `compose_nsec3s` write a chain in wire format, and `published_nsec3param`
//!   returns the NSEC3PARAM record that a zone publishes.
//! - `read_record` reads a record from a message, with compressed names, and `scan_record` one from
//!   a line of a zone file.
//!
//! A crate that uses these needs no other: this crate re-exports the types, functions and laws of
//! the crates below, the data of records in `rdata`, and in `specs/` the definitions that their
//! clauses cite.
#![tactic(auto)]

mod config;
mod error;
pub mod laws;
pub mod rdata;
mod wire;

pub use config::DenialConfig;
pub use domain_answer::Answer;
pub use domain_answer::Needs;
pub use domain_answer::Nsec3Expansion;
pub use domain_answer::Nsec3Judgement;
pub use domain_answer::Nsec3Limits;
pub use domain_answer::NsecJudgement;
pub use domain_answer::is_meta_type;
pub use domain_answer::judge_nsec;
pub use domain_answer::judge_nsec_with_witnesses;
pub use domain_answer::judge_nsec3;
pub use domain_answer::judge_nsec3_expansion;
pub use domain_answer::judge_nsec3_expansion_with_witness;
pub use domain_answer::judge_nsec3_index;
pub use domain_answer::judge_nsec3_index_expansion;
pub use domain_answer::judge_nsec3_with_witnesses;
pub use domain_answer::judge_nsec3_within;
pub use domain_answer::needs_of;
pub use domain_answer::needs_wildcard_record;
pub use domain_any_order::ChainError;
pub use domain_any_order::generate_nsec3s_of_records;
pub use domain_any_order::generate_nsecs_of_records;
pub use domain_any_order::sort_one_class;
pub use domain_base::CanonicalOrd;
pub use domain_base::Class;
pub use domain_base::FromToken;
pub use domain_base::IterScanner;
pub use domain_base::MakeName;
pub use domain_base::Name;
pub use domain_base::Nsec3HashAlgorithm;
pub use domain_base::ParseError;
pub use domain_base::ParsedName;
pub use domain_base::Rtype;
pub use domain_base::ScanError;
pub use domain_base::Scanner;
pub use domain_base::ToName;
pub use domain_base::Ttl;
pub use domain_bitmap::RtypeBitmap;
pub use domain_bitmap::RtypeBitmapBuilder;
pub use domain_bitmap::RtypeBitmaps;
pub use domain_checker::Nsec3Index;
pub use domain_checker::NsecCheck;
pub use domain_checker::Verdict;
pub use domain_checker::check_nsec;
pub use domain_checker::check_nsec3;
pub use domain_checker::check_nsec3_index;
pub use domain_denier::Nsec3Denial;
pub use domain_denier::NsecDenial;
pub use domain_denier::NsecDenier;
pub use domain_denier::deny_nsec;
pub use domain_denier::deny_nsec3;
pub use domain_hasher::HasherError;
pub use domain_hasher::Nsec3HashError;
pub use domain_hasher::Nsec3Hasher;
pub use domain_message::LineError;
pub use domain_message::MessageError;
pub use domain_message::OwnedRecord;
pub use domain_message::is_no_entry;
pub use domain_message::read_name;
pub use domain_message::read_record;
pub use domain_message::scan_behind_owner;
pub use domain_message::scan_entry;
pub use domain_message::scan_record;
pub use domain_nsec::BorrowedNsec;
pub use domain_nsec::GenerateNsecConfig;
pub use domain_nsec::NsecChain;
pub use domain_nsec::generate_nsecs;
pub use domain_nsec3::BorrowedNsec3;
pub use domain_nsec3::GenerateNsec3Config;
pub use domain_nsec3::HashedOwner;
pub use domain_nsec3::Nsec3Chain;
pub use domain_nsec3::Nsec3ParamTtlMode;
pub use domain_nsec3::Nsec3Records;
pub use domain_nsec3::generate_nsec3s;
pub use domain_nsec3::mk_hashed_nsec3_owner_name;
pub use domain_octets::AppendError;
pub use domain_octets::ArrayBuilder;
pub use domain_octets::EmptyBuilder;
pub use domain_octets::FreezeBuilder;
pub use domain_octets::FromBuilder;
pub use domain_octets::GrowingBuilder;
pub use domain_octets::Octets;
pub use domain_octets::OutOfMemory;
pub use domain_octets::Parser;
pub use domain_octets::SmallBuilder;
pub use domain_octets::SmallOctets;
pub use domain_octets::Truncate;
pub use domain_octets::TryClone;
pub use domain_rdata::Nsec;
pub use domain_rdata::Nsec3;
pub use domain_rdata::Nsec3param;
pub use domain_rdata::ZoneRecordData;
pub use domain_record::CloneRecordData;
pub use domain_record::ComposeRecordData;
pub use domain_record::LongRecordData;
pub use domain_record::ParseRecordData;
pub use domain_record::Record;
pub use domain_record::RecordData;
pub use domain_record::ZoneData;
pub use domain_records::DefaultSorter;
pub use domain_records::InPlaceSorter;
pub use domain_records::InsertError;
pub use domain_records::OwnerRrs;
pub use domain_records::RecordsIter;
pub use domain_records::SigningError;
pub use domain_records::SortError;
pub use domain_records::SortedRecords;
pub use domain_records::Sorter;
pub use domain_sha1::Sha1Hasher;
pub use domain_zone::ApexSoa;
pub use domain_zone::UnoccludedOwner;
pub use domain_zone::UnoccludedOwners;
pub use domain_zone::find_soa;
pub use error::Error;
pub use wire::compose_nsec3s;
pub use wire::compose_nsecs;
pub use wire::published_nsec3param;
