//! Laws of the NSEC3 chains from which records are picked. To use a law, call it in a function
//! body.
ghost use Rattle.std.specs.Prelude.{◌≡◌, List};
ghost use Rattle.domain_names.specs.Name.{Name};
ghost use Rattle.domain_zone.specs.Zone.{ZoneRecord};
ghost use Rattle.domain_nsec3.specs.Chain.{ChainRecords, IsChainParam, IsHashedChain, ChainConfig};
ghost use Rattle.domain_nsec3.specs.View.{hash_by, HasherAnswer};
ghost use Rattle.domain_nsec3.specs.declared.config.Nsec3ParamTtlMode.{Nsec3ParamTtlMode};
ghost use Rattle.domain_answer.specs.Reading.{LeavesOutBelowDname};
ghost use Rattle.domain_denier.specs.HashedPicked.{IsHashedWhole};

/// Each chain that `Nsec3Chain::generate` returns can be passed to `deny_nsec3`: the owner of its
/// NSEC3PARAM record is the apex, and its parameters are those that names were hashed with.
pub fn generated_chains_are_whole()
    ensures owner { (L : List ZoneRecord) (a : Name) (config : ChainConfig)
        (mode : Nsec3ParamTtlMode) (chain : ChainRecords)
        → IsChainParam L a config mode chain.param → chain.param.owner ≡ a }
    ensures whole { (L : List ZoneRecord) (a : Name) (config : ChainConfig)
        (mode : Nsec3ParamTtlMode) (answer : HasherAnswer) (chain : ChainRecords)
        → config.hash ≡ hash_by answer config.parameters
        → LeavesOutBelowDname L a config.occlude_below_dname
        → IsHashedChain L a config chain.links → IsChainParam L a config mode chain.param
        → IsHashedWhole L config (hash_by answer chain.param.parameters) chain }
{}
