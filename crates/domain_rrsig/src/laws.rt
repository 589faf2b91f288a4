//! Laws of the octets and the printed forms of signatures (RFC 4034, section 3). To use a law, call
//! it in the body of your function.
ghost use Rattle.std.specs.{Prelude.{◌<◌, ◌^◌, ℕ, Option}, Fmt.decimal};
ghost use Rattle.domain_octets.specs.Text.{words_of};
ghost use Rattle.domain_names.specs.{Text.IsOfTokens, Name.Tokens};
ghost use Rattle.domain_fields.specs.{Layout.ParsesBack, Scan.IsExactEntry};
ghost use Rattle.domain_rrsig.specs.Data.{rrsig_layout, rrsig_values, rrsig_text, RrsigText, RefusesRrsig, TimeText};
ghost use Rattle.domain_rrsig.specs.Data.{TimeToken};

use crate::Rrsig;
use domain_base::ToName;
use domain_octets::Octets;

/// The octets of RRSIG data are read as these fields, in no other way, and nothing is left. The
/// signer's name keeps its spelling.
#[tactic(auto, using(crate::proofs::DataLemmas::rrsig_back))]
pub fn rrsig_parses_back<O: Octets, N: ToName>(value: &Rrsig<O, N>)
    ensures { ParsesBack rrsig_layout (rrsig_values value.now) }
{
    let _fields = value.fields();
}

/// The words of printed RRSIG data spell these data.
#[tactic(auto, using(crate::proofs::DataLemmas::rrsig_text_back))]
pub fn rrsig_reads_back<O: Octets, N: ToName>(value: &Rrsig<O, N>)
    ensures { RrsigText (words_of (rrsig_text value.now)) value.now }
{
    let _fields = value.fields();
}

/// The printed form of a time parses to the same time, as a token and as a text.
pub fn times_are_read_back()
    ensures token { (stamp : ℕ) → stamp < 2 ^ 32 → TimeToken (decimal stamp) stamp }
    ensures text { (stamp : ℕ) → stamp < 2 ^ 32 → TimeText (decimal stamp) stamp }
{}

/// Tokens spell the data of at most one signature. Tokens with a fault spell none, and have one
/// fault, for builders with any limit. Lack of room or of memory is no such fault.
pub fn signature_texts_are_exact()
    ensures { (limit : Option ℕ) → IsExactEntry (IsOfTokens limit) RrsigText
        (RefusesRrsig limit) }
{}
