//! Laws about records and data as octets. A function uses a law by calling it in its body.
ghost use Rattle.std.specs.Prelude.{◌≡◌, ◌<◌, ◌^◌, ◌++◌, Some};
ghost use Rattle.domain_octets.specs.Octets.{Octets};
ghost use Rattle.domain_base.specs.Types as rtypes;
ghost use Rattle.domain_fields.specs.Layout.{canonical_of};
ghost use Rattle.domain_borrowed.specs.Data.{raw_minimum, RawRecord, raw_record_octets, IsOneRecord, IsRecord};
ghost use Rattle.domain_plain.specs.{Plain.{soa_layout, soa_values}, declared.soa.Soa.Soa};

use domain_base::ToName;

/// The last four of the canonical octets of an SOA are the MINIMUM, as `soa_minimum` reads it.
pub fn minimum_is_last<N: ToName>()
    ensures { (d : Soa N) → d.minimum < 2 ^ 32 → raw_minimum (record {
      rtype = rtypes.soa;
      octets = canonical_of soa_layout (soa_values N.labels d);
    }) ≡ Some d.minimum }
{}

/// Octets begin with at most one record: composed octets of a record are read as this record, and
/// the octets after it are left.
#[tactic(auto, using(crate::proofs::DataLemmas::same_record))]
pub fn octets_begin_with_one_record()
    ensures { (q r : RawRecord) (x y : Octets) → IsRecord q → IsRecord r
        → raw_record_octets q ++ x ≡ raw_record_octets r ++ y → IsOneRecord q r x y }
{}
