//! Digests of keys (RFC 4034, section 5).
ghost use Rattle.std.specs.Prelude.{◌≡◌, ◌≤◌, ◌↔◌, IsOk, IfOk, length};
ghost use Rattle.domain_base.specs.Types as rtypes;
ghost use Rattle.domain_codecs.specs.declared.codec.Codec.TheVariants as codecs;
ghost use Rattle.domain_keys.specs.Keys.{key_data, key_octets, ds_key_tag, ds_algorithm, ds_digest_type};
ghost use Rattle.domain_keys.specs.Keys.{ds_digest};

use crate::{KeyData, KeyKind};
use domain_base::{DigestAlgorithm, Rtype, SecurityAlgorithm};
use domain_codecs::Codec;
use domain_octets::Octets;
use domain_record::LongRecordData;

/// The kind of DS data: the digest of a key.
pub struct Digest;

impl KeyKind for Digest {
    ghost rtype = { rtypes.ds };

    ghost codec = { codecs.Base16 };

    fn rtype() -> Rtype {
        Rtype::DS
    }

    fn codec() -> Codec {
        Codec::Base16
    }
}

/// The digest of a key of a child zone, with which the parent zone confirms that key (RFC 4034,
/// section 5): key tag, algorithm, digest type and digest. The data have at most 65,535 octets.
pub type Ds<O> = KeyData<O, Digest>;

impl<O: Octets> Ds<O> {
    /// Returns the data with these fields. Does not allocate.
    ///
    /// # Errors
    ///
    /// `LongRecordData` if and only if the data would have more than 65,535 octets.
    pub fn new(
        key_tag: u16,
        algorithm: SecurityAlgorithm,
        digest_type: DigestAlgorithm,
        digest: O,
    ) -> Result<Self, LongRecordData>
    where
        O: Drop,
        ensures ok { IsOk result ↔ (length
            (key_octets (key_data key_tag algorithm digest_type (O.octets digest))) ≤ 65535) }
        ensures fields { IfOk result (λ d.
            d ≡ key_data key_tag algorithm digest_type (O.octets digest)) }
    {
        Ds::from_fields(key_tag, algorithm.to_int(), digest_type.to_int(), digest)
    }

    /// Returns the data with these fields, which have at most 65,535 octets. Does not allocate.
    pub fn new_unchecked(
        key_tag: u16,
        algorithm: SecurityAlgorithm,
        digest_type: DigestAlgorithm,
        digest: O,
    ) -> Self
        requires { length (key_octets (key_data key_tag algorithm digest_type (O.octets digest)))
            ≤ 65535 }
        ensures { result ≡ key_data key_tag algorithm digest_type (O.octets digest) }
    {
        Ds::from_fields_unchecked(key_tag, algorithm.to_int(), digest_type.to_int(), digest)
    }

    /// Returns the tag of the key (RFC 4034, section 5.1.1).
    pub fn key_tag(&self) -> u16
        ensures { result ≡ ds_key_tag self.now }
    {
        self.number
    }

    /// Returns the algorithm of the key (RFC 4034, section 5.1.2).
    pub fn algorithm(&self) -> SecurityAlgorithm
        ensures { result ≡ ds_algorithm self.now }
    {
        SecurityAlgorithm::from_int(self.first)
    }

    /// Returns the algorithm of the digest (RFC 4034, section 5.1.3).
    pub fn digest_type(&self) -> DigestAlgorithm
        ensures { result ≡ ds_digest_type self.now }
    {
        DigestAlgorithm::from_int(self.second)
    }

    /// Returns the digest (RFC 4034, section 5.1.4).
    pub fn digest(&self) -> &O
        ensures { O.octets result.now ≡ ds_digest self.now }
    {
        self.as_octets()
    }

    /// Returns only the digest.
    pub fn into_digest(self) -> O
        ensures { O.octets result ≡ ds_digest self }
    {
        self.into_octets()
    }
}
