//! Laws of answers, and of what records say. To use a law, call it in a function body.
ghost use Rattle.std.specs.Prelude.{◌≡◌, ◌≢◌, ◌<◌, ◌⊎◌, ◌↔◌, ℕ, Bool, All, List, length, true, false};
ghost use Rattle.domain_octets.specs.Octets.{Octets};
ghost use Rattle.domain_names.specs.Name.{is_at_or_below, last_labels, Name};
ghost use Rattle.domain_base.specs.Types.{dname};
ghost use Rattle.domain_chain_rdata.specs.Rdata.{is_opt_out};
ghost use Rattle.domain_zone.specs.Zone.{has_type, is_occluded, is_unoccluded, is_zone_cut};
ghost use Rattle.domain_zone.specs.Zone.{OwnersNeverDescend, ZoneRecord};
ghost use Rattle.domain_nsec.specs.{Chain.{IsChain, Link}, declared.config.GenerateNsecConfig.GenerateNsecConfig};
ghost use Rattle.domain_nsec3.specs.{Chain.{HashedLink, IsHashedChain, ChainConfig}, Meaning.IsAlone};
ghost use Rattle.domain_checker.specs.Verdict.{ArePaired, IsSameLink, IsHashedAlike};
ghost use Rattle.domain_checker.specs.HashedVerdict.{HashedRecords, with_links};
ghost use Rattle.domain_answer.specs.HashedReading.{closer_name, is_expanded, missing_closer, proved_expansion};
ghost use Rattle.domain_answer.specs.HashedReading.{ExpansionRestsOn, IsExpansionAnswered, IsExpansionRead};
ghost use Rattle.domain_answer.specs.HashedReading.{hashed_proved_answer, AreAskedAlone, HashedRestsOn};
ghost use Rattle.domain_answer.specs.HashedReading.{IsHashedAnswered, IsHashedRead, hashed_encloser};
ghost use Rattle.domain_answer.specs.HashedReading.{hashed_exists, hashed_zone_answer, is_of_one_chain};
ghost use Rattle.domain_answer.specs.Reading.{IsSo, proved_answer, CountsWithin, IsAnswered};
ghost use Rattle.domain_answer.specs.{Reading.{LeavesOutBelowDname, RestsOn, answer_of_list, usable_reading}, ZoneAnswer.{is_at_parent, is_meta_type}};
ghost use Rattle.domain_answer.specs.ZoneAnswer.{name_exists, wildcard_below, zone_answer};
ghost use Rattle.domain_answer.specs.HashedReading.{IsLeftOpen};
ghost use Rattle.domain_answer.specs.declared.answer.Answer.{Answer, TheVariants.{NoCloserName, NotProven}};
ghost use Rattle.domain_answer.specs.declared.answer.Answer.TheVariants.{MayBeUnsigned};
ghost use Rattle.domain_answer.specs.declared.answer.Answer.TheVariants.{TooManyIterations};

use domain_checker::laws::{chains_are_known, hashed_chains_are_known};
use domain_nsec3::laws as nsec3_laws;

/// An answer is the zone's if and only if what its kind states is so. For each name and type,
/// exactly one kind of answer holds.
#[tactic(auto, using(crate::proofs::EncloserLemmas::answer_so, crate::proofs::EncloserLemmas::so_answer))]
pub fn one_kind_of_answer_holds()
    ensures so { (L : List ZoneRecord) (a : Name) (assume : Bool) (x : Name) (t : ℕ)
        → IsSo L a assume x t (zone_answer L a assume x t) }
    ensures only { (L : List ZoneRecord) (a : Name) (assume : Bool) (x : Name) (t : ℕ)
        (answer : Answer) → IsSo L a assume x t answer → zone_answer L a assume x t ≡ answer }
{}

/// What any NSEC records say is what they prove about the zone, whether or not the records are
/// ignored that no zone can have. The records that the answer rests on are among them, and the
/// labels that it counts are labels of the name.
pub fn readings_are_proved()
    ensures zone { (listed : List Link) (a x : Name) (t : ℕ) → t < 65536
        → IsAnswered listed a x t (answer_of_list a listed x t) }
    ensures usable { (listed : List Link) (a x : Name) (t : ℕ) → t < 65536
        → IsAnswered listed a x t (usable_reading a listed x t) }
    ensures proof { (listed : List Link) (a x : Name) (t : ℕ)
        → RestsOn listed a x (answer_of_list a listed x t) }
    ensures within { (listed : List Link) (a x : Name) (t : ℕ)
        → CountsWithin (length x) (answer_of_list a listed x t) }
{
    chains_are_known();
}

/// What NSEC records answer does not depend on TTLs, classes and the case of letters. Nor does what
/// they prove about a zone (`readings_are_proved`).
#[tactic(auto, using(crate::proofs::AlikeLemmas::reading_alike, crate::proofs::AlikeLemmas::usable_alike))]
pub fn readings_ignore_case_and_ttl()
    ensures all { (listed other : List Link) (a x : Name) (t : ℕ)
        → ArePaired IsSameLink listed other → answer_of_list a listed x t ≡ answer_of_list
        a other x t }
    ensures usable { (listed other : List Link) (a x : Name) (t : ℕ)
        → ArePaired IsSameLink listed other
        → usable_reading a listed x t ≡ usable_reading a other x t }
{}

/// The whole chain of a zone proves what the zone answers for every name and type. The zone has an
/// answer for each name and each type that records can have, wildcards included.
#[tactic(auto, using(crate::proofs::ChainLemmas::whole_proves, crate::proofs::EncloserLemmas::answer_so))]
pub fn whole_chains_prove_all()
    ensures zone { (L : List ZoneRecord) (a : Name) (config : GenerateNsecConfig)
        (links : List Link) (x : Name) (t : ℕ) → LeavesOutBelowDname L a config.occlude_below_dname
        → OwnersNeverDescend L → IsChain L a config links
        → proved_answer L a config.assume_dnskeys_will_be_added links x t
        ≡ zone_answer L a config.assume_dnskeys_will_be_added x t }
    ensures definite { (L : List ZoneRecord) (a : Name) (assume : Bool) (x : Name) (t : ℕ)
        → is_meta_type t ≡ false → zone_answer L a assume x t ≢ NotProven }
    ensures closer { (L : List ZoneRecord) (a : Name) (assume : Bool) (x : Name) (t n : ℕ)
        → zone_answer L a assume x t ≢ NoCloserName n }
{
    chains_are_known();
}

/// A chain, NSEC or NSEC3, leaves out the names below an owner of a DNAME record in each of three
/// cases: this was chosen, or the zone has no such record, or each name below one is below a zone
/// cut too.
#[tactic(auto, using(crate::proofs::ChainLemmas::left_out_without_dname, crate::proofs::ChainLemmas::none_left_out))]
pub fn chains_leave_out_names_below_dname()
    ensures chosen { (L : List ZoneRecord) (a : Name) (below_dname : Bool) → below_dname ≡ true
        → LeavesOutBelowDname L a below_dname }
    ensures no_dname { (L : List ZoneRecord) (a : Name) → has_type L dname ≡ false
        → (below_dname : Bool) → LeavesOutBelowDname L a below_dname }
    ensures none { (L : List ZoneRecord) (a : Name)
        → All (λ r. is_occluded true L a r.owner ≡ is_occluded false L a r.owner) L
        → (below_dname : Bool) → LeavesOutBelowDname L a below_dname }
{}

// ---- NSEC3

/// What any NSEC3 records say is what they prove about the zone. The records that the answer rests
/// on are among them, and the labels that it counts are labels of the name.
pub fn hashed_readings_are_proved()
    ensures zone { (R : HashedRecords) (x : Name) (t : ℕ) (answer : Answer) → t < 65536
        → is_at_or_below x R.apex ≡ true → is_at_parent R.apex x t ≡ false
        → is_meta_type t ≡ false → IsHashedRead R x t answer → IsHashedAnswered R x t answer }
    ensures proof { (R : HashedRecords) (x : Name) (t : ℕ) (answer : Answer)
        → IsHashedRead R x t answer → HashedRestsOn R x answer }
    ensures within { (R : HashedRecords) (x : Name) (t : ℕ) (answer : Answer)
        → IsHashedRead R x t answer → CountsWithin (length x) answer }
{
    hashed_chains_are_known();
}

/// What any NSEC3 records say of a name whose records were expanded from a wildcard is what they
/// prove about the zone. The records that the answer rests on are among them, and the labels that
/// it counts are fewer than those of the name. If the zone has the wildcard, and no next closer
/// name, the wildcard is the one right below the closest encloser.
pub fn expansions_are_proved()
    ensures zone { (R : HashedRecords) (x : Name) (n : ℕ) (answer : Answer)
        → is_expanded R.apex x n ≡ true → IsExpansionRead R x n answer
        → IsExpansionAnswered R x n answer }
    ensures proof { (R : HashedRecords) (x : Name) (n : ℕ) (answer : Answer)
        → IsExpansionRead R x n answer → ExpansionRestsOn R x n answer }
    ensures within { (R : HashedRecords) (x : Name) (n : ℕ) (answer : Answer)
        → is_expanded R.apex x n ≡ true → IsExpansionRead R x n answer
        → CountsWithin (length x) answer }
    ensures encloser { (L : List ZoneRecord) (a : Name) (config : ChainConfig) (x : Name) (n : ℕ)
        → is_expanded a x n ≡ true
        → hashed_exists L a config (wildcard_below (last_labels n x)) ≡ true
        → hashed_exists L a config (closer_name n x) ≡ false
        → hashed_encloser L a config x ≡ last_labels n x }
{
    hashed_chains_are_known();
}

/// What NSEC3 records answer does not depend on TTLs, classes and the case of letters. Nor does
/// what they prove about a zone (`hashed_readings_are_proved`).
pub fn hashed_readings_ignore_case_and_ttl()
    ensures { (R : HashedRecords) (other : List HashedLink) (x : Name) (t : ℕ) (answer : Answer)
        → ArePaired IsHashedAlike R.links other → IsHashedRead R x t answer
        → IsHashedRead (with_links R other) x t answer }
{}

/// The same holds for a name whose records were expanded from a wildcard (`expansions_are_proved`).
pub fn expansions_ignore_case_and_ttl()
    ensures { (R : HashedRecords) (other : List HashedLink) (x : Name) (n : ℕ) (answer : Answer)
        → ArePaired IsHashedAlike R.links other → IsExpansionRead R x n answer
        → IsExpansionRead (with_links R other) x n answer }
{}

/// The whole NSEC3 chain of a zone proves what the zone answers for every name and type. For this,
/// no other name of the chain may have a hash that is looked up. The zone has an answer for each
/// name and each type that records can have.
#[tactic(auto, using(crate::proofs::HashedAnswerLemmas::whole_proves, crate::proofs::HashedAnswerLemmas::zone_says))]
pub fn hashed_whole_chains_prove_all()
    ensures zone { (L : List ZoneRecord) (a : Name) (config : ChainConfig)
        (links : List HashedLink) (x : Name) (t : ℕ)
        → LeavesOutBelowDname L a config.occlude_below_dname
        → IsHashedChain L a config links → AreAskedAlone L a config x
        → hashed_proved_answer L a config links x t ≡ hashed_zone_answer L a config x t }
    ensures definite { (L : List ZoneRecord) (a : Name) (config : ChainConfig) (x : Name) (t : ℕ)
        → is_meta_type t ≡ false → hashed_zone_answer L a config x t ≢ NotProven }
    ensures closer { (L : List ZoneRecord) (a : Name) (config : ChainConfig) (x : Name) (t n : ℕ)
        → hashed_zone_answer L a config x t ≢ NoCloserName n }
    ensures within_limit { (L : List ZoneRecord) (a : Name) (config : ChainConfig) (x : Name)
        (t : ℕ) → hashed_zone_answer L a config x t ≢ TooManyIterations }
{
    hashed_chains_are_known();
}

/// For each name that was expanded from a wildcard, the whole NSEC3 chain of a zone proves that the
/// next closer name does not exist. This holds if that name does not exist and no name of the chain
/// has its hash.
#[tactic(auto, using(crate::proofs::HashedAnswerLemmas::whole_closer))]
pub fn hashed_whole_chains_prove_expansions()
    ensures { (L : List ZoneRecord) (a : Name) (config : ChainConfig) (links : List HashedLink)
        (x : Name) (n : ℕ) (value : Octets) → IsHashedChain L a config links
        → is_expanded a x n ≡ true → IsAlone L a config (closer_name n x) value
        → hashed_exists L a config (closer_name n x) ≡ false
        → proved_expansion L a config links x n ≡ missing_closer config n }
{
    hashed_chains_are_known();
}

/// With an NSEC3 chain, a zone gives the same answers as with an NSEC chain, or leaves open whether
/// the name exists: `MayBeUnsigned`. So for each name and type exactly one kind of answer holds.
/// The zone leaves open each zone cut that the chain does not have, and each name below one (RFC
/// 5155, section 6). The apex must be a name of the chain, as it is in every chain.
pub fn opt_out_leaves_names_open()
    ensures zone { (L : List ZoneRecord) (a : Name) (config : ChainConfig) (x : Name) (t : ℕ)
        → LeavesOutBelowDname L a config.occlude_below_dname
        → hashed_exists L a config a ≡ true → is_of_one_chain a x t ≡ false
        → (hashed_zone_answer L a config x t
        ≡ zone_answer L a config.assume_dnskeys_will_be_added x t)
        ⊎ ((n : ℕ) × (hashed_zone_answer L a config x t ≡ MayBeUnsigned n)) }
    ensures one { (L : List ZoneRecord) (a : Name) (config : ChainConfig) (x : Name) (t : ℕ)
        (answer : Answer) → LeavesOutBelowDname L a config.occlude_below_dname
        → hashed_exists L a config a ≡ true → is_of_one_chain a x t ≡ false
        → hashed_zone_answer L a config x t ≡ answer
        → IsSo L a config.assume_dnskeys_will_be_added x t answer
        ⊎ ((n : ℕ) × (answer ≡ MayBeUnsigned n) × IsLeftOpen L a config x t n) }
    ensures left_open { (L : List ZoneRecord) (a : Name) (config : ChainConfig) (x : Name) (t n : ℕ)
        → (hashed_zone_answer L a config x t ≡ MayBeUnsigned n)
        ↔ IsLeftOpen L a config x t n }
    ensures excluded { (L : List ZoneRecord) (a : Name) (config : ChainConfig) (cut x : Name)
        (t : ℕ) → LeavesOutBelowDname L a config.occlude_below_dname
        → hashed_exists L a config a ≡ true → is_opt_out config.flags ≡ true
        → is_zone_cut L a cut ≡ true → is_unoccluded true L a cut ≡ true
        → hashed_exists L a config cut ≡ false → is_at_or_below x cut ≡ true
        → is_meta_type t ≡ false
        → hashed_zone_answer L a config x t
        ≡ MayBeUnsigned (length (hashed_encloser L a config x)) }
    ensures apex { (L : List ZoneRecord) (a : Name) (config : ChainConfig)
        (links : List HashedLink) → IsHashedChain L a config links
        → hashed_exists L a config a ≡ true }
{
    nsec3_laws::chains_mean_the_zone();
    nsec3_laws::types_ignore_case();
}

/// If its NSEC3 chain has no opt-out flag, a zone gives the same answers with it as with an NSEC
/// chain. This holds for every name, and for every type that both list alike: all but NSEC and, at
/// the apex, NSEC3PARAM. The apex must exist, as it does if there is a chain.
pub fn zones_without_opt_out_answer_alike()
    ensures zone { (L : List ZoneRecord) (a : Name) (config : ChainConfig) (x : Name) (t : ℕ)
        → is_opt_out config.flags ≡ false → LeavesOutBelowDname L a config.occlude_below_dname
        → name_exists L a a ≡ true → is_of_one_chain a x t ≡ false
        → hashed_zone_answer L a config x t
        ≡ zone_answer L a config.assume_dnskeys_will_be_added x t }
    ensures chain { (L : List ZoneRecord) (a : Name) (config : ChainConfig)
        (links : List HashedLink) (x : Name) (t : ℕ) → is_opt_out config.flags ≡ false
        → LeavesOutBelowDname L a config.occlude_below_dname → IsHashedChain L a config links
        → is_of_one_chain a x t ≡ false → hashed_zone_answer L a config x t
        ≡ zone_answer L a config.assume_dnskeys_will_be_added x t }
{
    nsec3_laws::chains_mean_the_zone();
    nsec3_laws::types_ignore_case();
}
