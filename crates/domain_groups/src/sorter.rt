//! Ways to sort a list.
ghost use Rattle.std.specs.Prelude.{◌≡◌, Bool, true, false, IsTrue, OnOk, OnErr};
ghost use Rattle.std.specs.{declared.cmp.Ordering.Ordering, Cmp.IsTotalOrder};
ghost use Rattle.std.specs.List.Sorted.{IsPermutation, IsSorted, IsStable};
ghost use Rattle.domain_groups.specs.Sorting.{AnswersBy};

use domain_octets::OutOfMemory;
use std::cmp::Ordering;

/// A way to sort a list. Implement it to sort with other resources than `DefaultSorter` does, such
/// as threads.
pub trait Sorter {
    /// Whether equal elements keep their order.
    ghost is_stable: { Bool };

    /// Sorts the list by the total order of `compare`. An error leaves the list as it was.
    ///
    /// # Errors
    ///
    /// `OutOfMemory` if there is no memory.
    fn sort_by<T, F: Fn(&T, &T) -> Ordering>(
        records: &mut Vec<T>,
        compare: F,
    ) -> Result<(), OutOfMemory>
        requires callable { F.IsAlwaysCallable compare }
        requires order { (R : T → T → Ordering) × IsTotalOrder R × AnswersBy F.Fn R compare }
        ensures permutation { IsPermutation records.old.items records.new.items }
        ensures sorted { OnOk result ((R : T → T → Ordering)
            → IsTotalOrder R → AnswersBy F.Fn R compare → IsSorted R records.new.items) }
        ensures stable { IsTrue is_stable → (R : T → T → Ordering)
            → IsTotalOrder R → AnswersBy F.Fn R compare
            → IsStable R records.old.items records.new.items }
        ensures err { OnErr result (records.new.items ≡ records.old.items) };
}

/// The stable sort of the standard library, on one thread.
pub struct DefaultSorter;

impl Sorter for DefaultSorter {
    ghost is_stable = { true };

    fn sort_by<T, F: Fn(&T, &T) -> Ordering>(
        records: &mut Vec<T>,
        compare: F,
    ) -> Result<(), OutOfMemory> {
        records.sort_by(compare)?;
        Ok(())
    }
}

/// The unstable sort of the standard library, on one thread. Takes no memory.
pub struct InPlaceSorter;

impl Sorter for InPlaceSorter {
    ghost is_stable = { false };

    fn sort_by<T, F: Fn(&T, &T) -> Ordering>(
        records: &mut Vec<T>,
        compare: F,
    ) -> Result<(), OutOfMemory> {
        records.sort_unstable_by(compare);
        Ok(())
    }
}
