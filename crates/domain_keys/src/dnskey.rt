//! Keys of zones (RFC 4034, section 2).
ghost use Rattle.std.specs.Prelude.{◌≡◌, ◌≤◌, ◌↔◌, IsOk, IfOk, length};
ghost use Rattle.domain_base.specs.Types as rtypes;
ghost use Rattle.domain_codecs.specs.declared.codec.Codec.TheVariants as codecs;
ghost use Rattle.domain_keys.specs.Keys.{key_data, key_octets, dnskey_flags, dnskey_protocol, dnskey_algorithm};
ghost use Rattle.domain_keys.specs.Keys.{dnskey_public_key, is_revoked, is_secure_entry_point, is_zone_key};
ghost use Rattle.domain_keys.specs.Keys.{key_tag_of};

use crate::{KeyData, KeyKind, flags, key_tag};
use domain_base::{Rtype, SecurityAlgorithm};
use domain_codecs::Codec;
use domain_octets::Octets;
use domain_record::LongRecordData;

/// The kind of DNSKEY data: a key of a zone.
pub struct ZoneKey;

impl KeyKind for ZoneKey {
    ghost rtype = { rtypes.dnskey };

    ghost codec = { codecs.Base64 };

    fn rtype() -> Rtype {
        Rtype::DNSKEY
    }

    fn codec() -> Codec {
        Codec::Base64
    }
}

/// A key that signatures of a zone's records are checked with (RFC 4034, section 2): flags,
/// protocol, algorithm and key. The data have at most 65,535 octets.
pub type Dnskey<O> = KeyData<O, ZoneKey>;

impl<O: Octets> Dnskey<O> {
    /// Returns the data with these fields. Does not allocate.
    ///
    /// # Errors
    ///
    /// `LongRecordData` if and only if the data would have more than 65,535 octets.
    pub fn new(
        flags: u16,
        protocol: u8,
        algorithm: SecurityAlgorithm,
        public_key: O,
    ) -> Result<Self, LongRecordData>
    where
        O: Drop,
        ensures ok { IsOk result ↔ (length
            (key_octets (key_data flags protocol algorithm (O.octets public_key))) ≤ 65535) }
        ensures fields { IfOk result (λ d.
            d ≡ key_data flags protocol algorithm (O.octets public_key)) }
    {
        Dnskey::from_fields(flags, protocol, algorithm.to_int(), public_key)
    }

    /// Returns the data with these fields, which have at most 65,535 octets. Does not allocate.
    pub fn new_unchecked(
        flags: u16,
        protocol: u8,
        algorithm: SecurityAlgorithm,
        public_key: O,
    ) -> Self
        requires { length (key_octets
            (key_data flags protocol algorithm (O.octets public_key))) ≤ 65535 }
        ensures { result ≡ key_data flags protocol algorithm (O.octets public_key) }
    {
        Dnskey::from_fields_unchecked(flags, protocol, algorithm.to_int(), public_key)
    }

    /// Returns the flags (RFC 4034, section 2.1.1).
    pub fn flags(&self) -> u16
        ensures { result ≡ dnskey_flags self.now }
    {
        self.number
    }

    /// Returns the protocol, which is 3 in DNSSEC (RFC 4034, section 2.1.2).
    pub fn protocol(&self) -> u8
        ensures { result ≡ dnskey_protocol self.now }
    {
        self.first
    }

    /// Returns the algorithm of the key (RFC 4034, section 2.1.3).
    pub fn algorithm(&self) -> SecurityAlgorithm
        ensures { result ≡ dnskey_algorithm self.now }
    {
        SecurityAlgorithm::from_int(self.second)
    }

    /// Returns the key, in the format of its algorithm (RFC 4034, section 2.1.4).
    pub fn public_key(&self) -> &O
        ensures { O.octets result.now ≡ dnskey_public_key self.now }
    {
        self.as_octets()
    }

    /// Returns only the key.
    pub fn into_public_key(self) -> O
        ensures { O.octets result ≡ dnskey_public_key self }
    {
        self.into_octets()
    }

    /// Returns whether signatures of records may be checked with the key: flag 0x0100 (RFC 4034,
    /// section 2.1.1).
    pub fn is_zone_key(&self) -> bool
        ensures { result ≡ is_zone_key (dnskey_flags self.now) }
    {
        self.number & flags::ZONE_KEY != 0
    }

    /// Returns whether the key is revoked: flag 0x0080 (RFC 5011, section 3).
    pub fn is_revoked(&self) -> bool
        ensures { result ≡ is_revoked (dnskey_flags self.now) }
    {
        self.number & flags::REVOKED != 0
    }

    /// Returns whether other zones may point to the key: flag 0x0001. This is a hint, and
    /// validation must not depend on it (RFC 4034, section 2.1.1).
    pub fn is_secure_entry_point(&self) -> bool
        ensures { result ≡ is_secure_entry_point (dnskey_flags self.now) }
    {
        self.number & flags::SECURE_ENTRY_POINT != 0
    }

    /// Returns the tag by which DS and RRSIG records refer to the key (RFC 4034, appendix B), for
    /// every algorithm. For RSA over MD5 it is 0 if the key has fewer than three octets.
    #[tactic(auto, unfolding(domain_fields::specs::Layout::octets_of))]
    pub fn key_tag(&self) -> u16
        ensures { result ≡ key_tag_of self.now }
    {
        let key = self.as_octets().as_slice();
        if self.algorithm() == SecurityAlgorithm::RSAMD5 {
            return key_tag::rsa_md5_tag(key);
        }
        let (flags, protocol) = (u32::from(self.number), u32::from(self.first));
        let head = flags + protocol * 256 + u32::from(self.second);
        key_tag::with_carry(head + key_tag::weighed(key))
    }
}
