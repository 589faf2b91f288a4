//! Laws about the definitions. A function uses a law by calling it in its body.
ghost use Rattle.std.specs.Prelude.{◌≡◌, List, true};
ghost use Rattle.domain_names.specs.Name.{same_name, before, Name};
ghost use Rattle.domain_record.specs.declared.record.Record.{Record};
ghost use Rattle.domain_groups.specs.InOrder.{IsInOrder};
ghost use Rattle.domain_zone.specs.{Covering.{matches, covers}, Zone.{zone_of, OwnersNeverDescend}};

use domain_base::ToName;
use domain_record::ZoneData;

/// Whether a pair of names matches or covers a name does not depend on the case of letters.
#[tactic(auto, using(crate::proofs::NameLemmas::one_lowered, crate::proofs::NameLemmas::before_right, crate::proofs::NameLemmas::before_left))]
pub fn covering_ignores_case()
    ensures matches { (owner x y : Name) → same_name x y ≡ true
        → matches before owner x ≡ matches before owner y }
    ensures covers { (owner next x y : Name) → same_name x y ≡ true
        → covers before owner next x ≡ covers before owner next y }
{}

/// The owners of a zone never descend if its records are in order, as sorted records of one class
/// are.
#[tactic(auto, using(std::proofs::lemmas::Grind::common_steps, crate::proofs::WalkLemmas::owners_in_order))]
pub fn owners_never_descend<N: ToName, D: ZoneData>()
    ensures { (records : List (Record N D)) → IsInOrder N.labels D.rtype records
        → OwnersNeverDescend (zone_of N.labels D.rtype D.minimum records) }
{}
