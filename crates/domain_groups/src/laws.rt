//! Laws about groups of records. A function uses a law by calling it in its body.
ghost use Rattle.std.specs.Prelude.{List};
ghost use Rattle.domain_record.specs.declared.record.Record.{Record};
ghost use Rattle.domain_groups.specs.Groups.{same_owner, same_type, same_rrset, AreGroups, runs};

use domain_base::ToName;
use domain_record::RecordData;

/// Joined, the groups of records of one owner are the whole list. Neighbours within a group share
/// their owner, and the owners differ where one group ends and the next begins.
pub fn owner_groups_are_maximal_runs<N: ToName, D>()
    ensures { (records : List (Record N D))
        → AreGroups (same_owner N.labels) records (runs (same_owner N.labels) records) }
{}

/// The same for the groups of records of one type.
pub fn type_groups_are_maximal_runs<N, D: RecordData>()
    ensures { (records : List (Record N D))
        → AreGroups (same_type D.rtype) records (runs (same_type D.rtype) records) }
{}

/// The same for the groups of records of one owner and one type.
pub fn rrset_groups_are_maximal_runs<N: ToName, D: RecordData>()
    ensures { (records : List (Record N D))
        → AreGroups (same_rrset N.labels D.rtype) records
        (runs (same_rrset N.labels D.rtype) records) }
{}
