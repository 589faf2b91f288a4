//! Laws about the names of a chain. A function uses a law by calling it in its body.
ghost use Rattle.std.specs.Prelude.{◌≡◌, ℕ, true, false, List};
ghost use Rattle.domain_zone.specs.Enclosers.{exists_over, is_empty_nonterminal, IsClosestEncloser};
ghost use Rattle.domain_zone.specs.Zone.{ZoneRecord, is_zone_cut};
ghost use Rattle.domain_names.specs.Name.{is_at_or_below, same_name, Name};
ghost use Rattle.domain_nsec3.specs.Chain.{HashedLink, IsHashedChain, ChainConfig, original_owners};
ghost use Rattle.domain_nsec3.specs.Chain.{is_original_owner, is_chain_name, is_empty_in_chain, nsec3_lists};
ghost use Rattle.domain_nsec3.specs.Meaning.{CutsEnclose, HashedMeansTheZone};

/// The names of the chain are those that exist over its original owner names that own records. So
/// each name above one of them, at or below the apex, is one too.
#[tactic(auto, using(crate::proofs::OwnerLemmas::existing_are, crate::proofs::OwnerLemmas::empty_are))]
pub fn names_exist()
    ensures existing { (L : List ZoneRecord) (a : Name) (config : ChainConfig) (x : Name)
        → is_at_or_below x a ≡ true
        → exists_over (original_owners L a config) a x ≡ is_chain_name L a config x }
    ensures empty { (L : List ZoneRecord) (a : Name) (config : ChainConfig) (x : Name)
        → is_empty_nonterminal (original_owners L a config) a x ≡ is_empty_in_chain L a config x }
{}

/// Among the names from `x` up to the apex, those at or above the closest encloser of `x` are names
/// of the chain, and no others. A zone cut of the chain is the closest encloser of each name
/// strictly below it. A zone cut that is left out is not a name of the chain.
#[tactic(auto, using(crate::proofs::OwnerLemmas::runs_to_encloser, crate::proofs::OwnerLemmas::cut_encloses, crate::proofs::OwnerLemmas::cut_is_out))]
pub fn names_end_at_the_encloser()
    ensures runs { (L : List ZoneRecord) (a : Name) (config : ChainConfig) (x e d : Name)
        → IsClosestEncloser (original_owners L a config) a x e → is_at_or_below x d ≡ true
        → is_at_or_below d a ≡ true → is_chain_name L a config d ≡ is_at_or_below e d }
    ensures cuts { (L : List ZoneRecord) (a : Name) (config : ChainConfig)
        → CutsEnclose L a config }
    ensures excluded { (L : List ZoneRecord) (a : Name) (config : ChainConfig) (c : Name)
        → is_zone_cut L a c ≡ true → is_original_owner L a config c ≡ false
        → is_chain_name L a config c ≡ false }
{}

/// The NSEC3 record of a name lists the same types for each spelling of the name.
#[tactic(auto, using(crate::proofs::ChainLemmas::bit_same))]
pub fn types_ignore_case()
    ensures { (L : List ZoneRecord) (a : Name) (config : ChainConfig) (x y : Name)
        → same_name x y ≡ true
        → (t : ℕ) → nsec3_lists L a config x t ≡ nsec3_lists L a config y t }
{}

/// What a chain says of every name follows from the chain, however it was made.
pub fn chains_mean_the_zone()
    ensures { (L : List ZoneRecord) (a : Name) (config : ChainConfig) (links : List HashedLink)
        → IsHashedChain L a config links → HashedMeansTheZone L a config links }
{}
