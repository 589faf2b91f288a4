//! How to make a chain, and the types that its records list.
ghost use Rattle.std.specs.Prelude.{◌≡◌, true, false};

use domain_base::{Rtype, ToName};
use domain_bitmap::RtypeBitmap;
use domain_octets::OutOfMemory;
use domain_record::ZoneData;
use domain_zone::{ChainTypes, UnoccludedOwner, list_types};

/// How to make an NSEC chain.
#[derive(Clone, Copy, Debug, PartialEq, Eq)]
pub struct GenerateNsecConfig {
    /// Whether DNSKEY records will be added at the apex once the chain is made. Its bitmap then
    /// lists their type already.
    pub assume_dnskeys_will_be_added: bool,
    /// Whether to leave out names strictly below a name of the zone that owns a DNAME record, like
    /// those below a zone cut: no data may exist there (RFC 6672, section 2.4). The ported crate
    /// has no such option.
    pub occlude_below_dname: bool,
}

impl GenerateNsecConfig {
    /// Returns the configuration that assumes DNSKEY records, and keeps names below a DNAME in the
    /// chain.
    pub fn new() -> Self
        ensures { result ≡ record {
          assume_dnskeys_will_be_added = true;
          occlude_below_dname = false;
        } }
    {
        GenerateNsecConfig {
            assume_dnskeys_will_be_added: true,
            occlude_below_dname: false,
        }
    }

    /// Returns the same configuration, except that it assumes no DNSKEY records.
    pub fn without_assuming_dnskeys_will_be_added(self) -> Self
        ensures { result ≡ record self { assume_dnskeys_will_be_added = false } }
    {
        GenerateNsecConfig {
            assume_dnskeys_will_be_added: false,
            ..self
        }
    }

    /// Returns the same configuration, except that it leaves out names below a DNAME.
    pub fn with_occlude_below_dname(self) -> Self
        ensures { result ≡ record self { occlude_below_dname = true } }
    {
        GenerateNsecConfig {
            occlude_below_dname: true,
            ..self
        }
    }
}

/// The default assumes DNSKEY records, and keeps names below a DNAME in the chain.
impl Default for GenerateNsecConfig {
    ghost is_default = { λ config. config ≡ record {
      assume_dnskeys_will_be_added = true;
      occlude_below_dname = false;
    } };

    fn default() -> Self {
        GenerateNsecConfig::new()
    }
}

/// The types of an owner's NSEC record: RRSIG, NSEC, at the apex DNSKEY if it is assumed, and the
/// types of the owner's records.
impl ChainTypes for GenerateNsecConfig {
    ghost use Rattle.std.specs.Prelude.{◌&&◌};
    ghost use Rattle.domain_bitmap.specs.Bitmap.{bitmap_octets};
    ghost use Rattle.domain_nsec.specs.Chain.{is_listed};

    ghost bits = { λ config at_apex o. bitmap_octets (is_listed
        (config.assume_dnskeys_will_be_added && at_apex) o.is_zone_cut o.records) };

    #[tactic(auto, using(std::proofs::lemmas::Grind::common_steps, crate::proofs::ChainLemmas::listed_octets))]
    fn types_of<N: ToName, D: ZoneData>(
        &self,
        buffer: Vec<u8>,
        owner: &UnoccludedOwner<'_, N, D>,
        is_apex: bool,
    ) -> Result<RtypeBitmap<Vec<u8>>, OutOfMemory> {
        let assumed = self.assume_dnskeys_will_be_added & is_apex;
        list_types(buffer, owner, true, Rtype::NSEC, true, assumed)
    }
}
