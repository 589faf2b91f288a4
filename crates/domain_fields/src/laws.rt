//! Laws of all fields, on the wire, in canonical order and as tokens. To use a law, call it in the
//! body of your function.
ghost use Rattle.std.specs.{Prelude.{◌≡◌, ℕ, ◌++◌, [], Option, true}, List.AllByRecursion};
ghost use Rattle.std.specs.Ordering.{ordering_then};
ghost use Rattle.domain_octets.specs.{Text.IsWord, Octets.Octets};
ghost use Rattle.domain_names.specs.{Wire.Fault, Text.{ScanFault, IsOfTokens}, Name.Tokens};
ghost use Rattle.domain_fields.specs.Layout.{Field, Layout, one, ◌▸◌, Values, Begins, FirstFault, Fits, Ends};
ghost use Rattle.domain_fields.specs.Layout.{ParsesBack, splits, is_delimited, canonical_order};
ghost use Rattle.domain_fields.specs.Scan.{is_printed, printed, Scans, Refuses, IsExact};

/// Octets begin with data of given fields in at most one way, and in no way if they have a fault.
pub fn reading_is_exact()
    ensures one { (l : Layout) (octets : Octets) (v w : Values l) (r s : Octets) → splits l ≡ true
        → Begins l octets v r → Begins l octets w s → (v ≡ w) × (r ≡ s) }
    ensures none { (l : Layout) (octets : Octets) (fault : Fault) → FirstFault l octets fault
        → splits l ≡ true → (v : Values l) (r : Octets) → Begins l octets v r → ⊥ }
{}

/// Octets have at most one first fault.
#[tactic(auto, using(crate::proofs::ExactLemmas::one_fault))]
pub fn octets_have_one_first_fault()
    ensures { (l : Layout) (octets : Octets) (x y : Fault) → FirstFault l octets x
        → FirstFault l octets y → splits l ≡ true → x ≡ y }
{}

/// Octets that were composed from values that fit parse back to these values, and nothing is left.
#[tactic(auto, using(crate::proofs::ExactLemmas::parses_back))]
pub fn composed_data_parses_back()
    ensures { (l : Layout) (v : Values l) → splits l ≡ true → Fits l v → Ends l v []
        → ParsesBack l v }
{}

/// In the order of canonical octets, earlier fields decide before later ones.
#[tactic(auto, using(crate::proofs::LayoutLemmas::order_both))]
pub fn fields_decide_in_order()
    ensures { (a b : Layout) (v w : Values a) (x y : Values b) → is_delimited a ≡ true
        → Fits a v → Fits a w
        → canonical_order (a ▸ b) (v, x) (w, y)
        ≡ ordering_then (canonical_order a v w) (canonical_order b x y) }
{}

/// Tokens begin with the values of a list of fields in at most one way. The values and the tokens
/// left are determined (RFC 1035, section 5.1). Tokens with a fault begin with no such values, and
/// have one first fault, for builders with any limit. Lack of room or of memory is no such fault. A
/// single field has at most one fault, of any kind.
#[tactic(auto, using(crate::proofs::ScanLemmas::one_field_one_fault))]
pub fn texts_of_fields_are_exact()
    ensures fields { (limit : Option ℕ) (l : Layout) → IsExact (IsOfTokens limit) (Scans l)
        (Refuses limit l) }
    ensures field { (limit : Option ℕ) (f : Field) (old m n : Tokens) (x y : ScanFault)
        → Refuses limit (one f) old m x → Refuses limit (one f) old n y → (x ≡ y) × (m ≡ n) }
{}

/// The printed forms of numbers and names, one token each, parse to these values, and the tokens
/// after them are left. Each of these tokens is one word.
#[tactic(auto, using(crate::proofs::ScanLemmas::fields_back, crate::proofs::ScanLemmas::fields_words))]
pub fn fields_are_read_back()
    ensures values { (l : Layout) (v : Values l) (after : Tokens) → is_printed l ≡ true → Fits l v
        → Scans l (printed l v ++ after) v after }
    ensures words { (l : Layout) (v : Values l) → is_printed l ≡ true → Fits l v
        → AllByRecursion IsWord (printed l v) }
{}
