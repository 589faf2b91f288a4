//! Laws of data of the types of this crate. To use a law, call it in the body of your function.
ghost use Rattle.std.specs.Prelude.{ℕ, ◌<◌, ◌≤◌, ◌++◌, [], Option, IfSome, length, codes};
ghost use Rattle.std.specs.{Fmt.decimal, Net.{Addr.ipv4_octets, Text.ipv4_text}};
ghost use Rattle.domain_octets.specs.{Text.words_of, Octets.{Octets, AreOctets}};
ghost use Rattle.domain_names.specs.{Text.{name_text, IsOfTokens}, Name.Tokens};
ghost use Rattle.domain_fields.specs.{Layout.ParsesBack, Scan.{Scans, IsExactEntry}};
ghost use Rattle.domain_plain.specs.Plain.{GenericText, GenericFault, generic_text, a_layout, a_values, ns_layout, ns_values};
ghost use Rattle.domain_plain.specs.Plain.{soa_layout, soa_values, mx_layout, mx_values, unknown_layout, unknown_values, soa_text};

use crate::{A, Mx, Ns, Soa, UnknownRecordData};
use domain_base::ToName;
use domain_fields::Fields;
use domain_octets::Octets;

/// The wire form of an address parses back to it, and nothing is left.
#[tactic(auto, using(domain_fields::proofs::ExactLemmas::parses_back))]
pub fn a_parses_back(value: &A)
    ensures { ParsesBack a_layout (a_values value.now) }
{
    value.fields().fits();
}

/// The wire form of NS data parses back to them, and nothing is left.
#[tactic(auto, using(domain_fields::proofs::ExactLemmas::parses_back))]
pub fn ns_parses_back<N: ToName>(value: &Ns<N>)
    ensures { ParsesBack ns_layout (ns_values N.labels value.now) }
{
    value.fields().fits();
}

/// The wire form of SOA data parses back to them, and nothing is left.
#[tactic(auto, using(domain_fields::proofs::ExactLemmas::parses_back))]
pub fn soa_parses_back<N: ToName>(value: &Soa<N>)
    ensures { ParsesBack soa_layout (soa_values N.labels value.now) }
{
    value.fields().fits();
}

/// The wire form of MX data parses back to them, and nothing is left.
#[tactic(auto, using(domain_fields::proofs::ExactLemmas::parses_back))]
pub fn mx_parses_back<N: ToName>(value: &Mx<N>)
    ensures { ParsesBack mx_layout (mx_values N.labels value.now) }
{
    value.fields().fits();
}

/// The wire form of data of any type parses back to them, and nothing is left.
pub fn unknown_data_parses_back<O: Octets>(value: &UnknownRecordData<O>)
    ensures { ParsesBack unknown_layout (unknown_values O.octets value.now) }
{
    let _fields = value.fields();
}

/// Tokens spell octets in the generic form in at most one way. Tokens with a fault spell none, and
/// have one fault, for builders with any limit. Lack of room or of memory is no such fault.
pub fn generic_text_is_exact()
    ensures { (limit : Option ℕ) → IsExactEntry (IsOfTokens limit) GenericText
        (GenericFault limit) }
{}

/// The words of a printed address spell it.
#[tactic(auto, using(crate::proofs::PlainLemmas::a_back))]
pub fn a_reads_back(value: &A)
    ensures { Scans a_layout (words_of (ipv4_text (ipv4_octets value.now.addr)))
        (a_values value.now) [] }
{
    value.fields().fits();
}

/// The words of printed NS data spell these data.
pub fn ns_reads_back<N: ToName>(value: &Ns<N>)
    ensures { Scans ns_layout (words_of (name_text (N.labels value.now.nsdname) ++ codes "."))
        (ns_values N.labels value.now) [] }
{
    value.fields().fits();
}

/// The words of printed SOA data spell these data.
pub fn soa_reads_back<N: ToName>(value: &Soa<N>)
    ensures { IfSome (soa_text N.labels value.now) (λ text.
        Scans soa_layout (words_of text) (soa_values N.labels value.now) []) }
{
    value.fields().fits();
}

/// The words of printed MX data spell these data.
pub fn mx_reads_back<N: ToName>(value: &Mx<N>)
    ensures { Scans mx_layout (words_of (decimal value.now.preference ++ codes " "
        ++ name_text (N.labels value.now.exchange) ++ codes "."))
        (mx_values N.labels value.now) [] }
{
    value.fields().fits();
}

/// The words of data of any type in the generic form spell these data.
#[tactic(auto, using(std::proofs::lemmas::Grind::common_steps, crate::proofs::PlainLemmas::generic_back))]
pub fn generic_data_reads_back()
    ensures { (octets : Octets) → AreOctets octets → length octets ≤ 65535
        → GenericText (words_of (generic_text octets)) octets }
{}
