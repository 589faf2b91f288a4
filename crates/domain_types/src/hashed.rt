//! The salts and hashes of NSEC3, as tokens spell them (RFC 5155, section 3.3).
ghost use Rattle.std.specs.Prelude.{◌≡◌, ◌∷◌, ◌<◌, ◌≤◌, length, IfSome, IfNone};
ghost use Rattle.domain_octets.specs.Octets.{Octets};
ghost use Rattle.domain_types.specs.Spelling.{SaltField, HashField};

use crate::spell::{MAX_STRING, Part, counted};
use domain_bitmap::{Nsec3Salt, OwnerHash};
use domain_octets::{ArrayBuilder, Octets};
use std::alloc::Global;

/// At most 255 octets, which a length octet precedes on the wire.
type Counted = ArrayBuilder<MAX_STRING>;

/// Returns the octets of the salt that a token spells, after their length. Does not allocate.
#[tactic(auto, using(std::proofs::lemmas::Grind::common_steps, crate::proofs::HashLemmas::salt_refused, crate::proofs::HashLemmas::salt_utf8))]
pub(crate) fn spell_salt(alloc: Global, text: &[u8]) -> Option<Part>
    ensures some { IfSome result (SaltField text.now) }
    ensures none { IfNone result ((octets : Octets) → SaltField text.now octets → ⊥) }
{
    let Ok(text) = str::from_utf8(text) else {
        return None;
    };
    match Nsec3Salt::<Counted>::from_str(alloc, text) {
        Ok(salt) => Some(counted(salt.as_slice())),
        Err(_) => None,
    }
}

/// Returns the octets of the hash that a token spells, after their length. Does not allocate.
#[tactic(auto, using(std::proofs::lemmas::Grind::common_steps, crate::proofs::HashLemmas::hash_refused, crate::proofs::HashLemmas::hash_utf8, crate::proofs::HashLemmas::hash_empty))]
pub(crate) fn spell_hash(alloc: Global, text: &[u8]) -> Option<Part>
    ensures some { IfSome result (HashField text.now) }
    ensures none { IfNone result ((octets : Octets) → HashField text.now octets → ⊥) }
{
    let Ok(text) = str::from_utf8(text) else {
        return None;
    };
    match OwnerHash::<Counted>::from_str(alloc, text) {
        Ok(hash) if hash.as_slice().is_empty() => None,
        Ok(hash) => Some(counted(hash.as_slice())),
        Err(_) => None,
    }
}
