//! Laws about the octets and the tokens of NSEC3 and NSEC3PARAM data (RFC 5155, sections 3 and 4).
//! A function uses a law by calling it in its body.
ghost use Rattle.std.specs.Prelude.{◌≢◌, ℕ, [], Option};
ghost use Rattle.domain_octets.specs.Text.{words_of};
ghost use Rattle.domain_names.specs.Text.{IsOfTokens};
ghost use Rattle.domain_bitmap.specs.{Bitmap.bitmap_octets, Blocks.{IsShortest, types_of}, Text.is_among};
ghost use Rattle.domain_fields.specs.{Layout.ParsesBack, Scan.IsExact};
ghost use Rattle.domain_chain_rdata.specs.Text.{Nsec3paramText, RefusesNsec3param, nsec3param_text, HashText};
ghost use Rattle.domain_chain_rdata.specs.Text.{Nsec3Text, RefusesNsec3, nsec3_text, RefusesHash};
ghost use Rattle.domain_chain_rdata.specs.Rdata.{nsec3_layout, nsec3_values, nsec3param_layout, nsec3param_values};

use crate::{Nsec3, Nsec3param};
use domain_octets::Octets;

/// The octets of parameters parse back as these parameters, in no other way, and nothing is left.
#[tactic(auto, using(crate::proofs::TextLemmas::params_back))]
pub fn nsec3param_parses_back<O: Octets>(value: &Nsec3param<O>)
    ensures { ParsesBack nsec3param_layout (nsec3param_values value.now) }
{
    let _fields = value.fields();
}

/// The octets of NSEC3 data parse back as these fields, the last one a type bitmap, in no other
/// way, and nothing is left.
#[tactic(auto, using(crate::proofs::TextLemmas::nsec3_back))]
pub fn nsec3_parses_back<O: Octets>(value: &Nsec3<O>)
    ensures { ParsesBack nsec3_layout (nsec3_values value.now) }
{
    let _fields = value.fields();
}

/// Tokens begin with parameters, with parameters and a hash, or with NSEC3 data in at most one way:
/// the values and the tokens that are left are determined. Tokens that are rejected for another
/// reason than room or memory spell no such data, and are rejected for one reason only. This holds
/// for builders with any limit.
pub fn hash_texts_are_exact()
    ensures params { (limit : Option ℕ) → IsExact (IsOfTokens limit) Nsec3paramText
        (RefusesNsec3param limit) }
    ensures hash { (limit : Option ℕ) → IsExact (IsOfTokens limit) HashText (RefusesHash limit) }
    ensures nsec3 { (limit : Option ℕ) → IsExact (IsOfTokens limit) Nsec3Text
        (RefusesNsec3 limit) }
{}

/// The words of written parameters scan back as these parameters.
pub fn nsec3param_reads_back<O: Octets>(value: &Nsec3param<O>)
    ensures { Nsec3paramText (words_of (nsec3param_text (nsec3param_values value.now)))
        (nsec3param_values value.now) [] }
{
    let _fields = value.fields();
}

/// The words of written NSEC3 data scan back as the same parameters, hash and types, if the hash
/// has at least one octet. They scan back as the same bitmap too, if its windows ascend strictly
/// and no block ends in a zero octet. A hash without octets is written as nothing, and does not
/// scan back.
pub fn nsec3_reads_back<O: Octets>(value: &Nsec3<O>)
    ensures types { value.now.next_owner ≢ []
        → Nsec3Text (words_of (nsec3_text (nsec3_values value.now)))
        ((nsec3_values value.now).0, bitmap_octets (is_among (types_of value.now.types))) [] }
    ensures same { value.now.next_owner ≢ [] → IsShortest value.now.types
        → Nsec3Text (words_of (nsec3_text (nsec3_values value.now))) (nsec3_values value.now) [] }
{
    let _fields = value.fields();
}
