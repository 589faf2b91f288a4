//! Laws about the octets and the text of NSEC data (RFC 4034, section 4). A function uses a law by
//! calling it in its body.
ghost use Rattle.std.specs.Prelude.{ℕ, ◌++◌, [], Option, codes};
ghost use Rattle.domain_octets.specs.Text.{words_of};
ghost use Rattle.domain_names.specs.Text.{name_text};
ghost use Rattle.domain_bitmap.specs.{Bitmap.bitmap_octets, Blocks.{IsShortest, types_of}, Text.is_among};
ghost use Rattle.domain_bitmap.specs.Text.{types_text};
ghost use Rattle.domain_chain_rdata.specs.{Text.{NsecText, IsOfNsec, RefusesNsec}, Rdata.{nsec_layout, nsec_values}};
ghost use Rattle.domain_fields.specs.{Layout.ParsesBack, Scan.IsExact};

use crate::Nsec;
use domain_base::ToName;
use domain_fields::Fields;
use domain_octets::Octets;

/// The octets of NSEC data parse back as this name and this type bitmap, in no other way, and
/// nothing is left.
#[tactic(auto, using(crate::proofs::TextLemmas::nsec_back))]
pub fn nsec_parses_back<O: Octets, N: ToName>(value: &Nsec<O, N>)
    ensures { ParsesBack nsec_layout (nsec_values N.labels value.now) }
{
    value.fields().fits();
}

/// The words of written NSEC data scan back as the same name and the same types. They scan back as
/// the same bitmap too, if its windows ascend strictly and no block ends in a zero octet.
#[tactic(auto, using(crate::proofs::TextLemmas::nsec_text_back, crate::proofs::TextLemmas::nsec_text_same))]
pub fn nsec_reads_back<O: Octets, N: ToName>(value: &Nsec<O, N>)
    ensures types { NsecText (words_of (name_text (N.labels value.now.next_name) ++ codes ". "
        ++ types_text (types_of value.now.types))) (
          N.labels value.now.next_name,
          bitmap_octets (is_among (types_of value.now.types)),
        ) [] }
    ensures same { IsShortest value.now.types
        → NsecText (words_of (name_text (N.labels value.now.next_name) ++ codes ". "
        ++ types_text (types_of value.now.types))) (nsec_values N.labels value.now) [] }
{
    value.fields().fits();
}

/// Tokens begin with NSEC data in at most one way. Tokens that are rejected for another reason than
/// room or memory spell no NSEC data, and are rejected for one reason only. This holds for builders
/// with any limit.
pub fn nsec_texts_are_exact()
    ensures { (names bitmaps : Option ℕ) → IsExact (IsOfNsec names bitmaps) NsecText
        (RefusesNsec names bitmaps) }
{}
