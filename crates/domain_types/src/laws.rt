//! Laws of the table, of data and of their canonical form. To use a law, call it in the body of
//! your function.
ghost use Rattle.std.specs.Prelude.{◌≡◌, ◌≢◌, ◌<◌, ◌^◌, ℕ, ◌++◌, ◌∷◌, Some, List, length, codes};
ghost use Rattle.std.specs.{List.AllByRecursion, Fmt.decimal};
ghost use Rattle.domain_octets.specs.Octets.{Octets};
ghost use Rattle.domain_names.specs.Name.{Name, IsName, wire_of, lowered};
ghost use Rattle.domain_types.specs.Table.{type_rows, row_in, mnemonic_of, MnemonicText};
ghost use Rattle.domain_types.specs.Fields.{IsField, AreFieldOctets};
ghost use Rattle.domain_types.specs.Canonical.{IsData, lowered_part, lowered_fields, canonical_form};
ghost use Rattle.domain_types.specs.declared.field.Field.{Field, TheVariants.LoweredName};
ghost use Rattle.domain_types.specs.declared.field.Tail.{Tail};
ghost use Rattle.domain_types.specs.Reading.{TokenText, DataTexts, DataTextFault};
ghost use Rattle.domain_types.specs.declared.token.DataFaultKind.{DataFaultKind, TheVariants.OutOfMemory};

/// Each row of the table is the row of its number, so no number has two rows.
#[tactic(auto, using(crate::proofs::TableLemmas::rows_stand))]
pub fn numbers_have_one_row()
    ensures { AllByRecursion (λ r. row_in type_rows r.number ≡ r) type_rows }
{}

/// The mnemonic of a type, and `TYPE` with its number, parse to the type.
#[tactic(auto, using(crate::proofs::TableLemmas::mnemonic_back, crate::proofs::TableLemmas::number_back))]
pub fn types_are_read_back()
    ensures mnemonic { (t : ℕ) (name : Octets) → mnemonic_of t ≡ Some name → MnemonicText name t }
    ensures number { (t : ℕ) → t < 2 ^ 16 → MnemonicText (codes "TYPE" ++ decimal t) t }
{}

/// A text spells at most one type. So no two types have one mnemonic.
#[tactic(auto, using(crate::proofs::TableLemmas::one_type))]
pub fn texts_spell_one_type()
    ensures { (text : Octets) (x y : ℕ) → MnemonicText text x → MnemonicText text y → x ≡ y }
{}

/// Octets begin with a field of a kind in at most one way. So data are their fields in one way.
#[tactic(auto, using(crate::proofs::DataLemmas::one_split))]
pub fn octets_begin_with_one_field()
    ensures { (field : Field) (x y after_x after_y : Octets) → IsField field x → IsField field y
        → x ++ after_x ≡ y ++ after_y → (x ≡ y) × (after_x ≡ after_y) }
{}

/// The canonical form is that of each field, one after another. A name that is lowered is the name
/// with its labels lowered (RFC 4034, section 6.2).
#[tactic(auto, using(crate::proofs::DataLemmas::lowered_next, crate::proofs::DataLemmas::lowered_name))]
pub fn fields_are_lowered_one_by_one()
    ensures fields { (field : Field) (more : List Field) (octets part after : Octets)
        → octets ≡ part ++ after → IsField field part
        → lowered_fields (field ∷ more) octets
        ≡ lowered_part field part ++ lowered_fields more after }
    ensures name { (labels : Name) → IsName labels
        → lowered_part LoweredName (wire_of labels) ≡ wire_of (lowered labels) }
{}

/// The canonical form of data of a type is data of the type, of the same length, and is its own
/// canonical form.
#[tactic(auto, using(crate::proofs::DataLemmas::canonical_data, crate::proofs::DataLemmas::canonical_again, crate::proofs::DataLemmas::canonical_length))]
pub fn canonical_forms_are_data()
    ensures is_data { (t : ℕ) (octets : Octets) → IsData t octets
        → IsData t (canonical_form t octets) }
    ensures again { (t : ℕ) (octets : Octets) → IsData t octets
        → canonical_form t (canonical_form t octets) ≡ canonical_form t octets }
    ensures size { (t : ℕ) (octets : Octets) → IsData t octets
        → length (canonical_form t octets) ≡ length octets }
{}

/// What tokens spell as data of a type is data of the type, for every origin that is a name.
#[tactic(auto, using(crate::proofs::ReadLaws::data_valid))]
pub fn data_that_is_read_is_data()
    ensures { (origin : Name) (t : ℕ) (tokens : List TokenText) (octets : Octets) → IsName origin
        → DataTexts origin t tokens octets → IsData t octets }
{}

/// Tokens with a fault spell no data of the type. Lack of memory is no fault of the tokens.
pub fn refused_tokens_spell_no_data()
    ensures { (origin : Name) (t : ℕ) (tokens : List TokenText) (place : ℕ) (kind : DataFaultKind)
        (octets : Octets) → DataTextFault origin t tokens place kind
        → kind ≢ OutOfMemory → DataTexts origin t tokens octets → ⊥ }
{}
