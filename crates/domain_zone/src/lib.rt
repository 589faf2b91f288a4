//! The records of a zone: its zone cuts, the owners of its chains, their types, the SOA record and
//! unequal TTLs.
//!
//! Each definition in `specs/` filters the whole list of records. The code is what the generators
//! of both chains share. `UnoccludedOwners` is the only walk over the records of a zone. It returns
//! exactly the owners that are not occluded by the definitions. Each owner comes with its records,
//! and with whether it is a zone cut.
#![tactic(auto)]

pub mod laws;
mod owners;
mod soa;

pub use owners::{
    ChainTypes, ListedOwners, UnoccludedOwner, UnoccludedOwners, add_type, add_types, has_type,
    list_owners, list_types, uneven_type,
};
pub use soa::{ApexSoa, find_soa};
