//! How denial of existence is set up for a zone.
ghost use Rattle.std.specs.Prelude.{◌≡◌, true, false, IfOk};

use domain_nsec::GenerateNsecConfig;
use domain_nsec3::GenerateNsec3Config;
use domain_octets::{Octets, OutOfMemory};
use std::alloc::Global;

/// How denial of existence is set up for a zone. `Sort` is the sorter of the NSEC3 hashes.
#[derive(Drop)]
#[derive_where(Debug, PartialEq, Eq)]
pub enum DenialConfig<O: Octets, Sort> {
    /// The zone has a chain already.
    AlreadyPresent,
    /// Make an NSEC chain.
    Nsec(GenerateNsecConfig),
    /// Make an NSEC3 chain.
    Nsec3(GenerateNsec3Config<O, Sort>),
}

impl<O: Octets, Sort> DenialConfig<O, Sort> {
    /// Returns the configuration of an NSEC chain, as `GenerateNsecConfig::new` makes it. Does not
    /// allocate.
    pub fn default(_alloc: Global) -> Self
        ensures { result ≡ DenialConfig.Nsec (record {
          assume_dnskeys_will_be_added = true;
          occlude_below_dname = false;
        }) }
    {
        DenialConfig::Nsec(GenerateNsecConfig::new())
    }

    /// Returns a copy. Uses the allocator of the salt's octets.
    ///
    /// # Errors
    ///
    /// `OutOfMemory` if there is no memory.
    pub fn clone(&self) -> Result<Self, OutOfMemory>
        ensures { IfOk result (λ copy. copy ≡ self.now) }
    {
        Ok(match self {
            DenialConfig::AlreadyPresent => DenialConfig::AlreadyPresent,
            DenialConfig::Nsec(config) => DenialConfig::Nsec(*config),
            DenialConfig::Nsec3(config) => DenialConfig::Nsec3(config.clone()?),
        })
    }
}
