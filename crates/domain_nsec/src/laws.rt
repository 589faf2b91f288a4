//! Laws about the definition of a chain. A function uses a law by calling it in its body.
ghost use Rattle.std.specs.Prelude.{◌≡◌, ℕ, Bool, List, true};
ghost use Rattle.domain_names.specs.Name.{same_name, Name};
ghost use Rattle.domain_zone.specs.Zone.{OwnersNeverDescend, ZoneRecord};
ghost use Rattle.domain_nsec.specs.Chain.{nsec_lists, IsChain, Link};
ghost use Rattle.domain_nsec.specs.Meaning.{MeansTheZone};
ghost use Rattle.domain_nsec.specs.declared.config.GenerateNsecConfig.{GenerateNsecConfig};

/// The NSEC record of an owner lists the same types for each spelling of the name.
#[tactic(auto, using(crate::proofs::ChainLemmas::bits_alike))]
pub fn types_ignore_case()
    ensures { (L : List ZoneRecord) (a : Name) (assume : Bool) (x y : Name) → same_name x y ≡ true
        → (t : ℕ) → nsec_lists L a assume x t ≡ nsec_lists L a assume y t }
{}

/// What a chain says of every name follows from the chain, however it was made.
pub fn chains_mean_the_zone()
    ensures { (L : List ZoneRecord) (a : Name) (config : GenerateNsecConfig) (links : List Link)
        → OwnersNeverDescend L → IsChain L a config links → MeansTheZone L a config links }
{}
