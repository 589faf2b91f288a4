//! A sorter that is always out of memory.
ghost use Rattle.std.specs.Prelude.{false};

use domain_octets::OutOfMemory;
use domain_records::Sorter;
use std::cmp::Ordering;

/// A sorter that never has the memory to sort.
pub struct RefusingSorter;

impl Sorter for RefusingSorter {
    ghost is_stable = { false };

    fn sort_by<T, F: Fn(&T, &T) -> Ordering>(
        _records: &mut Vec<T>,
        _compare: F,
    ) -> Result<(), OutOfMemory> {
        Err(OutOfMemory)
    }
}
