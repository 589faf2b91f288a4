//! Laws of verdicts, and of what records say. To use a law, call it in a function body.
ghost use Rattle.std.specs.{List.Contains, Prelude.{◌≡◌, ◌≢◌, ◌<◌, ℕ, Bool, List, true, false}};
ghost use Rattle.domain_octets.specs.Octets.{Octets};
ghost use Rattle.domain_names.specs.Name.{is_at_or_below, Name};
ghost use Rattle.domain_zone.specs.{Enclosers.{exists_over, IsClosestEncloser}, Zone.{OwnersNeverDescend, ZoneRecord}};
ghost use Rattle.domain_nsec.specs.{Chain.{IsChain, Link}, declared.config.GenerateNsecConfig.GenerateNsecConfig};
ghost use Rattle.domain_nsec3.specs.{Chain.{HashedLink, IsHashedChain, ChainConfig}, Meaning.AreAlone};
ghost use Rattle.domain_nsec3.specs.Meaning.{IsAlone};
ghost use Rattle.domain_checker.specs.Verdict.{ArePaired, IsSameLink, IsHashedAlike, NsecChainsAreKnown};
ghost use Rattle.domain_checker.specs.Verdict.{closest_encloser, proved_verdict, zone_verdict};
ghost use Rattle.domain_checker.specs.HashedReading.{DeniesName, IsOfName, IsWalked, WalksAreProved};
ghost use Rattle.domain_checker.specs.HashedVerdict.{ChainsAreKnown, is_hash_cover, is_hash_match};
ghost use Rattle.domain_checker.specs.HashedVerdict.{hashed_proved_verdict, hashed_zone_verdict, HashedRecords};
ghost use Rattle.domain_checker.specs.{HashedVerdict.with_links, Reading.{IsChecked, verdict_of_list}};
ghost use Rattle.domain_checker.specs.declared.verdict.Verdict.{Verdict, TheVariants.NotProven};

use domain_bitmap::laws::built_bitmaps_give_their_types;
use domain_codecs::laws::{base32_reads_back, base32_tells_apart};
use domain_nsec::laws::{chains_mean_the_zone, types_ignore_case};
use domain_nsec3::laws as nsec3_laws;

/// If the apex exists, a name at or below it has a closest encloser: the first of the name and its
/// ancestors that exists.
pub fn closest_enclosers()
    ensures { (names : List Name) (a x : Name) → exists_over names a a ≡ true
        → is_at_or_below x a ≡ true → IsClosestEncloser names a x (closest_encloser names a x) }
{}

/// Joins the laws of NSEC chains, of their types and of bitmaps, for each chain.
pub fn chains_are_known()
    ensures { NsecChainsAreKnown }
{
    chains_mean_the_zone();
    types_ignore_case();
    built_bitmaps_give_their_types();
}

/// What any records say is what they prove about each zone whose chain they are from. For any
/// records at all, there is no verdict without a proof.
#[tactic(auto, using(crate::proofs::MeantLemmas::reading_checked))]
pub fn readings_are_proved()
    ensures { (listed : List Link) (a x : Name) (t : ℕ) → t < 65536
        → IsChecked listed a x t (verdict_of_list a listed x t) }
{
    chains_are_known();
}

/// What NSEC records say does not depend on TTLs, classes and the case of letters. Nor does what
/// they prove about a zone (`readings_are_proved`).
#[tactic(auto, using(crate::proofs::MeantLemmas::reading_alike))]
pub fn readings_ignore_case_and_ttl()
    ensures { (listed other : List Link) (a x : Name) (t : ℕ)
        → ArePaired IsSameLink listed other → verdict_of_list a listed x t ≡ verdict_of_list
        a other x t }
{}

/// What NSEC3 records say does not depend on TTLs, classes and the case of letters. Nor does what
/// they prove about a zone (`walks_are_proved`).
#[tactic(auto, using(crate::proofs::MeantLemmas::walked_alike))]
pub fn walks_ignore_case_and_ttl()
    ensures { (R : HashedRecords) (other : List HashedLink) (x : Name) (t : ℕ)
        (verdict : Verdict) → ArePaired IsHashedAlike R.links other → IsWalked R x t verdict
        → IsWalked (with_links R other) x t verdict }
{}

/// The whole chain of a zone proves what the zone says of every name and type, and the zone says
/// something of each.
#[tactic(auto, using(crate::proofs::MeantLemmas::whole_proves, crate::proofs::MeantLemmas::zone_says))]
pub fn whole_chains_prove_all()
    ensures zone { (L : List ZoneRecord) (a : Name) (config : GenerateNsecConfig)
        (links : List Link) (x : Name) (t : ℕ) → config.occlude_below_dname ≡ false
        → OwnersNeverDescend L → IsChain L a config links
        → proved_verdict L a config.assume_dnskeys_will_be_added links x t
        ≡ zone_verdict L a config.assume_dnskeys_will_be_added x t }
    ensures definite { (L : List ZoneRecord) (a : Name) (assume : Bool) (x : Name) (t : ℕ)
        → zone_verdict L a assume x t ≢ NotProven }
{
    chains_are_known();
}

/// The whole NSEC3 chain of a zone proves what the zone says of a name and a type. For this, no
/// other name of the chain may have the hash of the name or of an ancestor at or below the apex.
/// The zone says something of each name and type.
#[tactic(auto, using(crate::proofs::HashedVerdictLemmas::whole_chain_proves, crate::proofs::HashedVerdictLemmas::hashed_zone_says))]
pub fn whole_hashed_chains_prove_all()
    ensures zone { (L : List ZoneRecord) (a : Name) (config : ChainConfig)
        (links : List HashedLink) (x : Name) (t : ℕ)
        → IsHashedChain L a config links → AreAlone L a config x
        → hashed_proved_verdict L a config links x t ≡ hashed_zone_verdict L a config x t }
    ensures definite { (L : List ZoneRecord) (a : Name) (config : ChainConfig) (x : Name) (t : ℕ)
        → hashed_zone_verdict L a config x t ≢ NotProven }
{
    hashed_chains_are_known();
}

/// Joins the laws of NSEC3 chains, of names, of bitmaps and of Base 32, for each chain.
pub fn hashed_chains_are_known()
    ensures { ChainsAreKnown }
{
    nsec3_laws::chains_mean_the_zone();
    nsec3_laws::names_exist();
    nsec3_laws::names_end_at_the_encloser();
    nsec3_laws::types_ignore_case();
    built_bitmaps_give_their_types();
    base32_reads_back();
    base32_tells_apart();
}

/// What NSEC3 records say on the way from a name to the apex is what they prove about any zone
/// whose chain they are from. For any records at all, there is no verdict without a proof.
pub fn walks_are_proved()
    ensures { (R : HashedRecords) (x : Name) (t : ℕ) (verdict : Verdict)
        → t < 65536 → is_at_or_below x R.apex ≡ true
        → IsWalked R x t verdict → WalksAreProved R x t verdict }
{
    hashed_chains_are_known();
}

/// A record of a chain that matches the hash of a name says that the name exists, and lists its
/// types. One that covers the hash says that the name does not exist. Both hold for each name whose
/// hash no other name of the chain has.
pub fn hashes_tell_of_names()
    ensures matches { (L : List ZoneRecord) (a : Name) (config : ChainConfig)
        (links : List HashedLink) → IsHashedChain L a config links
        → (x : Name) (v : Octets) → is_at_or_below x a ≡ true → IsAlone L a config x v
        → (k : HashedLink) → Contains links k → is_hash_match a config.parameters v k ≡ true
        → IsOfName L a config x k }
    ensures covers { (L : List ZoneRecord) (a : Name) (config : ChainConfig)
        (links : List HashedLink) → IsHashedChain L a config links
        → (x : Name) (v : Octets) → is_at_or_below x a ≡ true → IsAlone L a config x v
        → (k : HashedLink) → Contains links k → is_hash_cover a config.parameters v k ≡ true
        → DeniesName L a config x k }
{
    hashed_chains_are_known();
}
