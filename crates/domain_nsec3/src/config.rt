//! How to make a chain, and the types that its records list.
ghost use Rattle.std.specs.Prelude.{◌≡◌, true, false, [], IfOk};
ghost use Rattle.domain_chain_rdata.specs.Rdata.{with_opt_out};
ghost use Rattle.domain_zone.specs.declared.soa.ApexSoa.{ApexSoa};
ghost use Rattle.domain_nsec3.specs.Chain.{param_ttl};
ghost use Rattle.domain_nsec3.specs.declared.config.Nsec3ParamTtlMode.TheVariants as ttl_mode;

use domain_base::{Rtype, ToName, Ttl};
use domain_bitmap::RtypeBitmap;
use domain_chain_rdata::Nsec3param;
use domain_groups::DefaultSorter;
use domain_octets::{EmptyOctets, Octets, OutOfMemory};
use domain_record::ZoneData;
use domain_zone::{ApexSoa, ChainTypes, UnoccludedOwner, list_types};
use std::alloc::Global;
use std::marker::PhantomData;

/// Where the TTL of an NSEC3PARAM record comes from.
#[derive(Clone, Copy, Debug, PartialEq, Eq)]
pub enum Nsec3ParamTtlMode {
    /// This TTL.
    Fixed(Ttl),
    /// The TTL of the SOA record.
    Soa,
    /// The MINIMUM field of the SOA record (RFC 2308, section 4).
    SoaMinimum,
}

impl Nsec3ParamTtlMode {
    /// Returns the mode with this TTL.
    pub fn fixed(ttl: Ttl) -> Self
        ensures { result ≡ Nsec3ParamTtlMode.Fixed ttl }
    {
        Nsec3ParamTtlMode::Fixed(ttl)
    }

    /// Returns the mode that takes the TTL of the SOA record.
    pub fn soa() -> Self
        ensures { result ≡ Nsec3ParamTtlMode.Soa }
    {
        Nsec3ParamTtlMode::Soa
    }

    /// Returns the mode that takes the MINIMUM field of the SOA record (RFC 2308, section 4).
    pub fn soa_minimum() -> Self
        ensures { result ≡ Nsec3ParamTtlMode.SoaMinimum }
    {
        Nsec3ParamTtlMode::SoaMinimum
    }

    /// Returns the TTL of this mode, in seconds.
    pub(crate) fn ttl(&self, soa: &ApexSoa) -> Ttl
        ensures { result ≡ param_ttl self.now soa.now }
    {
        match self {
            Nsec3ParamTtlMode::Fixed(ttl) => *ttl,
            Nsec3ParamTtlMode::Soa => soa.ttl,
            Nsec3ParamTtlMode::SoaMinimum => soa.minimum,
        }
    }
}

/// The default is the TTL of the SOA record.
impl Default for Nsec3ParamTtlMode {
    ghost is_default = { λ mode. mode ≡ ttl_mode.Soa };

    fn default() -> Self {
        Nsec3ParamTtlMode::Soa
    }
}

/// How to make an NSEC3 chain. `Sort` sorts the hashes.
#[derive(Drop)]
#[derive_where(Debug, PartialEq, Eq)]
pub struct GenerateNsec3Config<O: Octets, Sort = DefaultSorter> {
    /// Whether DNSKEY records will be added at the apex once the chain is made. Its bitmap then
    /// lists their type already.
    pub assume_dnskeys_will_be_added: bool,
    /// How to hash names, and the flags of all records (RFC 5155, section 3).
    pub params: Nsec3param<O>,
    /// Whether to leave out zone cuts without DS records if the flags have the Opt-Out bit (RFC
    /// 5155, section 6).
    pub opt_out_exclude_owner_names_of_unsigned_delegations: bool,
    /// Where the TTL of the NSEC3PARAM record comes from.
    pub nsec3param_ttl_mode: Nsec3ParamTtlMode,
    /// Whether to leave out names strictly below a name of the zone that owns a DNAME record, like
    /// those below a zone cut: no data may exist there (RFC 6672, section 2.4). The ported crate
    /// has no such option.
    pub occlude_below_dname: bool,
    #[derive_where(skip)]
    sorter: PhantomData<Sort>,
}

impl<O: Octets, Sort> GenerateNsec3Config<O, Sort> {
    /// Returns the configuration with these parameters, unchanged. It assumes DNSKEY records, and
    /// leaves out unsigned delegations if the parameters have the Opt-Out flag. The NSEC3PARAM
    /// record has the TTL of the SOA record. Names below a DNAME stay in the chain.
    pub fn new(params: Nsec3param<O>) -> Self
        ensures params { result.params ≡ params }
        ensures dnskeys { result.assume_dnskeys_will_be_added ≡ true }
        ensures excludes { result.opt_out_exclude_owner_names_of_unsigned_delegations ≡ true }
        ensures mode { result.nsec3param_ttl_mode ≡ Nsec3ParamTtlMode.Soa }
        ensures dnames { result.occlude_below_dname ≡ false }
    {
        GenerateNsec3Config {
            assume_dnskeys_will_be_added: true,
            params,
            opt_out_exclude_owner_names_of_unsigned_delegations: true,
            nsec3param_ttl_mode: Nsec3ParamTtlMode::Soa,
            occlude_below_dname: false,
            sorter: PhantomData,
        }
    }

    /// Returns the configuration of `new` with the parameters of `Nsec3param::default`: SHA-1, no
    /// flags, no extra iterations and no salt.
    pub fn default(alloc: Global) -> Self
    where
        O: EmptyOctets,
        ensures params { result.params
            ≡ record { hash_algorithm = 1; flags = 0; iterations = 0; salt = [] } }
        ensures dnskeys { result.assume_dnskeys_will_be_added ≡ true }
        ensures excludes { result.opt_out_exclude_owner_names_of_unsigned_delegations ≡ true }
        ensures mode { result.nsec3param_ttl_mode ≡ Nsec3ParamTtlMode.Soa }
        ensures dnames { result.occlude_below_dname ≡ false }
    {
        Self::new(Nsec3param::default(alloc))
    }

    /// Returns a copy. Uses the allocator of the salt's octets.
    pub fn clone(&self) -> Result<Self, OutOfMemory>
        ensures { IfOk result (λ copy. copy ≡ self.now) }
    {
        Ok(GenerateNsec3Config {
            assume_dnskeys_will_be_added: self.assume_dnskeys_will_be_added,
            params: self.params.clone()?,
            opt_out_exclude_owner_names_of_unsigned_delegations: self.opt_out_exclude_owner_names_of_unsigned_delegations,
            nsec3param_ttl_mode: self.nsec3param_ttl_mode,
            occlude_below_dname: self.occlude_below_dname,
            sorter: PhantomData,
        })
    }

    /// Returns the same configuration, with another TTL mode of the NSEC3PARAM record.
    pub fn with_ttl_mode(mut self, mode: Nsec3ParamTtlMode) -> Self
        ensures { result ≡ record self { nsec3param_ttl_mode = mode } }
    {
        self.nsec3param_ttl_mode = mode;
        self
    }

    /// Returns the same configuration, with the Opt-Out bit set in the parameters (RFC 5155,
    /// section 3.1.2.1). The other bits stay as they are.
    pub fn with_opt_out(mut self) -> Self
        ensures { result ≡ record self {
          params = record self.params { flags = with_opt_out self.params.flags };
        } }
    {
        self.params.set_opt_out_flag();
        self
    }

    /// Returns the same configuration, except that it leaves out no unsigned delegation, whatever
    /// the flags are.
    pub fn without_opt_out_excluding_owner_names_of_unsigned_delegations(mut self) -> Self
        ensures { result ≡ record self {
          opt_out_exclude_owner_names_of_unsigned_delegations = false;
        } }
    {
        self.opt_out_exclude_owner_names_of_unsigned_delegations = false;
        self
    }

    /// Returns the same configuration, except that it assumes no DNSKEY records.
    pub fn without_assuming_dnskeys_will_be_added(mut self) -> Self
        ensures { result ≡ record self { assume_dnskeys_will_be_added = false } }
    {
        self.assume_dnskeys_will_be_added = false;
        self
    }

    /// Returns the same configuration, except that it leaves out names below a DNAME.
    pub fn with_occlude_below_dname(mut self) -> Self
        ensures { result ≡ record self { occlude_below_dname = true } }
    {
        self.occlude_below_dname = true;
        self
    }
}

/// The same as `new`, for the default sorter, so that the type follows from the parameters.
impl<O: Octets> From<Nsec3param<O>> for GenerateNsec3Config<O, DefaultSorter> {
    ghost from_gives = { λ params config. (config.params ≡ params)
        × (config.assume_dnskeys_will_be_added ≡ true)
        × (config.opt_out_exclude_owner_names_of_unsigned_delegations ≡ true)
        × (config.nsec3param_ttl_mode ≡ ttl_mode.Soa)
        × (config.occlude_below_dname ≡ false) };

    fn from(params: Nsec3param<O>) -> Self {
        Self::new(params)
    }
}

/// The types of an owner's NSEC3 record (RFC 5155, section 7.1).
impl<O: Octets, S> ChainTypes for GenerateNsec3Config<O, S> {
    ghost use Rattle.std.specs.Prelude.{not, ◌&&◌};
    ghost use Rattle.domain_base.specs.Types.{ds};
    ghost use Rattle.domain_bitmap.specs.Bitmap.{bitmap_octets};
    ghost use Rattle.domain_zone.specs.Zone.{has_type};
    ghost use Rattle.domain_nsec3.specs.Chain.{is_listed_in_nsec3};

    ghost bits = { λ config at_apex o. bitmap_octets (is_listed_in_nsec3 (record {
      is_cut = o.is_zone_cut;
      is_unsigned = o.is_zone_cut && not (has_type o.records ds);
      is_apex = at_apex;
      assumes_dnskey = config.assume_dnskeys_will_be_added && at_apex;
    }) o.records) };

    fn types_of<N: ToName, D: ZoneData>(
        &self,
        buffer: Vec<u8>,
        owner: &UnoccludedOwner<'_, N, D>,
        is_apex: bool,
    ) -> Result<RtypeBitmap<Vec<u8>>, OutOfMemory> {
        let assumed = self.assume_dnskeys_will_be_added & is_apex;
        let signed = !owner.is_unsigned_cut();
        list_types(buffer, owner, signed, Rtype::NSEC3PARAM, is_apex, assumed)
    }
}
