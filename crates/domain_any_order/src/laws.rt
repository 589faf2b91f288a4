//! Laws about sorting. A function uses a law by calling it in its body.
ghost use Rattle.std.specs.Prelude.{◌≡◌, ◌↔◌, ℕ, Bool, true, Contains, List, Some, map};
ghost use Rattle.domain_record.specs.declared.record.Record.{Record};
ghost use Rattle.domain_names.specs.Name.{Name};
ghost use Rattle.domain_records.specs.Order.{IsOneClass};
ghost use Rattle.domain_zone.specs.Zone.{is_soa, numbers_of, soa_of, OwnersNeverDescend, ZoneRecord, has_clash};
ghost use Rattle.domain_zone.specs.Zone.{has_type, is_unoccluded, owns, records_of, zone_of};
ghost use Rattle.domain_zone.specs.declared.soa.ApexSoa.{ApexSoa};
ghost use Rattle.domain_rdata.specs.declared.zone_record_data.ZoneRecordData.{ZoneRecordData};
ghost use Rattle.domain_any_order.specs.AnyOrder.{Sorts, View, seen, zone_seen};
ghost use Rattle.domain_any_order.specs.RawRecords.{raw_record, HaveOneChain, TellMinima};

use domain_base::{CanonicalOrd, ToName};
use domain_octets::Octets;
use domain_record::ZoneData;
use domain_records::laws::sorted_records_are_in_order;
use domain_zone::laws::owners_never_descend;

/// The sorted set of records has the owners of the original list, each with the same types, since
/// one of several equal records is kept. The same owners are not occluded. This holds however the
/// records are seen.
#[tactic(auto, using(crate::proofs::KeptLemmas::owner_kept, crate::proofs::KeptLemmas::type_kept, crate::proofs::KeptLemmas::unoccluded_kept))]
pub fn sorting_keeps_owners_and_types<N, D>()
    ensures owners { (v : View N D) (given sorted : List (Record N D)) → Sorts v given sorted
        → (n : Name) → owns (zone_seen v sorted) n ≡ owns (zone_seen v given) n }
    ensures types { (v : View N D) (given sorted : List (Record N D)) → Sorts v given sorted
        → (n : Name) (t : ℕ) → has_type (records_of (zone_seen v sorted) n) t
        ≡ has_type (records_of (zone_seen v given) n) t }
    ensures unoccluded { (v : View N D) (given sorted : List (Record N D)) → Sorts v given sorted
        → (below_dname : Bool) (a n : Name) → is_unoccluded below_dname (zone_seen v sorted) a n
        ≡ is_unoccluded below_dname (zone_seen v given) a n }
{}

/// The sorted set of records is of one class if and only if the original list is. Its SOA at an
/// apex is a record of that list. If it has unequal TTLs at a name, so has the list. The converse
/// of the last two does not hold: records that differ only in TTL are equal, and one of them is
/// kept.
#[tactic(auto, using(crate::proofs::KeptLemmas::clash_among))]
pub fn sorting_keeps_classes_and_records<N, D>()
    ensures classes { (v : View N D) (given sorted : List (Record N D)) → Sorts v given sorted
        → (IsOneClass sorted ↔ IsOneClass given) }
    ensures soa { (v : View N D) (given sorted : List (Record N D)) → Sorts v given sorted
        → (a : Name) (numbers : ApexSoa) → soa_of (zone_seen v sorted) a ≡ Some numbers
        → (r : ZoneRecord) × Contains (zone_seen v given) r
        × (is_soa a r ≡ true) × (numbers_of r r.minimum ≡ Some numbers) }
    ensures ttls { (v : View N D) (given sorted : List (Record N D)) → Sorts v given sorted
        → (n : Name) → has_clash (records_of (zone_seen v sorted) n) ≡ true
        → has_clash (records_of (zone_seen v given) n) ≡ true }
{}

/// The owners of sorted records of one class never descend, as the theorems about chains and
/// verdicts require.
pub fn sorted_owners_never_descend<N: ToName, D: ZoneData + CanonicalOrd>()
    ensures { (given sorted : List (Record N D))
        → Sorts (seen N.labels D.rtype D.minimum D.canonical_cmp) given sorted → IsOneClass sorted
        → OwnersNeverDescend (zone_of N.labels D.rtype D.minimum sorted) }
{
    sorted_records_are_in_order::<N, D>();
    owners_never_descend::<N, D>();
}

/// Takes records, and the same records with their data as octets in canonical form (RFC 4034,
/// section 6.2), as in `BorrowedRecord`. A chain of the octets is the chain of the data; if the
/// octets have none, the data have none, for the same reason. Data of type SOA must be parsed, and
/// their MINIMUM must have 32 bits. So a chain that is made of octets is the chain of the data that
/// were composed.
pub fn octets_have_the_chain_of_their_data<O: Octets, N: ToName>()
    ensures { (given : List (Record N (ZoneRecordData O N))) → TellMinima given
        → HaveOneChain O.octets N.labels (map (raw_record O.octets N.labels) given) given }
{}
