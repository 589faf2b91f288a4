//! The record of a chain that matches or covers a hash.
ghost use Rattle.std.specs.Prelude.{◌≡◌, ◌<◌, Err, length, IfOk, IfErr};
ghost use Rattle.domain_nsec3.specs.{Chain.{Hash, IsNoHash}, Meaning.octets_before, View.hash_by};
ghost use Rattle.domain_denier.specs.HashedPicked.{all_records, IsFoundAt, IsOfHash, IsOfZone};

use domain_checker::laws::hashed_chains_are_known;
use domain_hasher::{Nsec3HashError, Nsec3Hasher};
use domain_nsec3::{Nsec3Chain, hash_wire};
use domain_octets::Octets;
use std::alloc::Global;

/// The place of the record of a chain that matches or covers a hash.
#[derive(Clone, Copy)]
pub(crate) struct HashPlace {
    pub(crate) place: usize,
    /// Whether the record matches the hash; otherwise it covers the hash.
    pub(crate) matches: bool,
}

/// Returns whether the octets come before others.
fn is_before(octets: &[u8], other: &[u8]) -> bool
    ensures { result ≡ octets_before octets.now other.now }
{
    octets.cmp(other).is_lt()
}

/// Returns the place of the record that matches or covers a hash: the last record whose own hash is
/// not after it or, if there is none, the last record of all.
fn find_hash<O: Octets>(chain: &Nsec3Chain<'_, O>, hash: &[u8]) -> HashPlace
    requires some { 0 < length chain.now.links }
    ensures inside { result.place < length chain.now.links }
    ensures of_hash { (by : Hash) → IsOfZone by chain.now
        → IsOfHash (all_records by chain.now) hash.now result.place result.matches }
{
    hashed_chains_are_known();
    let Some(first) = chain.hash_at(0) else {
        unreachable!();
    };
    let mut high = chain.len();
    let mut low = if is_before(hash, first) { high - 1 } else { 0 };
    'search: while high - low > 1 {
        let middle = low + (high - low) / 2;
        let Some(own) = chain.hash_at(middle) else {
            unreachable!();
        };
        if is_before(hash, own) {
            high = middle;
        } else {
            low = middle;
        }
    }
    let Some(own) = chain.hash_at(low) else {
        unreachable!();
    };
    HashPlace {
        place: low,
        matches: own.cmp(hash).is_eq(),
    }
}

/// Returns the place of the record that matches or covers the hash of the name with this wire form
/// in lower case.
pub(crate) fn look_up<O: Octets, H: Nsec3Hasher>(
    alloc: Global,
    chain: &Nsec3Chain<'_, O>,
    wire: &[u8],
    hasher: &H,
) -> Result<HashPlace, Nsec3HashError>
    requires some { 0 < length chain.now.links }
    ensures ok { IfOk result (λ found. IsFoundAt
        (hash_by (H.answer hasher.now) chain.now.param.parameters) chain.now wire.now found.place
        found.matches) }
    ensures err { IfErr result (IsNoHash (λ n.
        hash_by (H.answer hasher.now) chain.now.param.parameters wire.now ≡ Err n)
        (H.takes_memory hasher.now)) }
{
    let hash = hash_wire(alloc, hasher, chain.nsec3param().data(), wire)?;
    Ok(find_hash(chain, hash.as_slice()))
}
