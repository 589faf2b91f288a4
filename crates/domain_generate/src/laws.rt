//! Theorems about ranges. Each is a function without a body: call it for its contract.
ghost use Rattle.std.specs.Prelude.{◌≡◌, ◌≤◌, Some, ℕ};
ghost use Rattle.domain_octets.specs.Octets.{Octets};
ghost use Rattle.domain_generate.specs.Ranges.{IsRange, RangeText, range_of, value_at};
ghost use Rattle.domain_generate.specs.declared.range.ValueRange.{ValueRange};

/// Each value is within its range.
#[tactic(auto, using(crate::proofs::RangeLemmas::values_within))]
pub fn values_are_within_their_range()
    ensures { (range : ValueRange) (i value : ℕ) → IsRange range
        → value_at range i ≡ Some value → (range.start ≤ value) × (value ≤ range.stop) }
{}

/// A text is read as a range exactly if it is START-STOP or START-STOP/STEP.
#[tactic(auto, using(crate::proofs::TextLemmas::read_text, crate::proofs::TextLemmas::read_back))]
pub fn ranges_are_spelled()
    ensures read { (text : Octets) (range : ValueRange) → range_of text ≡ Some range
        → RangeText range text }
    ensures spelled { (text : Octets) (range : ValueRange) → RangeText range text
        → range_of text ≡ Some range }
{}
