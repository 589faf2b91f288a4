//! Laws about sorted records and groups. A function uses a law by calling it in its body.
ghost use Rattle.std.specs.{Prelude.List, List.Sorted.IsStrictlySortedBy};
ghost use Rattle.domain_record.specs.{declared.record.Record.Record, Record.record_cmp};
ghost use Rattle.domain_records.specs.Order.{IsOneClass, IsInOrder};

use domain_base::{CanonicalOrd, ToName};
pub use domain_groups::laws::{
    owner_groups_are_maximal_runs, rrset_groups_are_maximal_runs, type_groups_are_maximal_runs,
};
use domain_record::RecordData;

/// Records of one class that strictly ascend in canonical order, as those of `SortedRecords` do,
/// are in order of owner and type.
pub fn sorted_records_are_in_order<N: ToName, D: RecordData + CanonicalOrd>()
    ensures { (records : List (Record N D))
        → IsStrictlySortedBy (record_cmp N.labels D.rtype D.canonical_cmp) records
        → IsOneClass records → IsInOrder N.labels D.rtype records }
{}
