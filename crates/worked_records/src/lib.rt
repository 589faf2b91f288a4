//! The parts that the programs of worked values with records share: the data, records and sorted
//! sets that words spell, and a sorter that is always out of memory.
#![tactic(auto)]

mod macros;
mod sorter;
mod spelled;

pub use sorter::RefusingSorter;
pub use spelled::{Data, OwnedRecord, SpellRecords, Typed, Zone};
