//! Hashes of owner names by SHA-1 (RFC 5155, section 5).
//!
//! `Sha1Hasher` is the hasher for NSEC3 chains in practice: SHA-1 is the only algorithm of RFC
//! 5155. The crates above may rely on this: it returns the iterated digest of `specs/Iterated` for
//! every name, salt and number of iterations, and an error for every other algorithm.
//!
//! Four names are hashed side by side: a vector of `std::simd` holds a word of each of four
//! messages. `lanes` has the operations on words, `rounds` the compression function of SHA-1,
//! `message` messages of one block, and `iterate` the iterations. `scalar` has the same for one
//! message of one block. The crate `sha1` hashes longer ones.
#![tactic(auto)]

ghost use Rattle.std.specs.Prelude.{◌≡◌, ◌≤◌, ◌+◌, ◌++◌, ◌∷◌, [], IsTrue, IfOk, length, map};
ghost use Rattle.sha1.specs.Sha1.{sha1};
ghost use Rattle.domain_sha1.specs.Iterated.{iterated, sha1_answer};

mod iterate;
mod lanes;
mod message;
mod rounds;
mod scalar;

use domain_base::Nsec3HashAlgorithm;
use domain_hasher::{HasherError, Nsec3Hasher};
use message::{ONE_BLOCK, digest, pad};
use scalar::iterate_one;
use sha1::Sha1;
use std::alloc::{AllocError, Global};

/// The number of the error for an algorithm other than SHA-1.
pub const OTHER_ALGORITHM: u8 = 1;

/// The greatest length of a salt, in octets, that fits in one block after a digest.
const MAX_SALT: usize = 35;

/// The hasher of SHA-1, algorithm 1 of RFC 5155, section 11. For every other algorithm it returns
/// the error with the number 1.
#[derive(Clone, Copy, Debug, Default, PartialEq, Eq)]
pub struct Sha1Hasher;

/// Returns the digest of octets followed by a salt.
fn salted(octets: &[u8], salt: &[u8]) -> [u8; 20]
    ensures { result ≡ sha1 (octets.now ++ salt.now) }
{
    let mut hasher = Sha1::new();
    hasher.update(octets);
    hasher.update(salt);
    hasher.finalize()
}

/// Returns the digest of a name with the salt, digested again with the salt `iterations` times (RFC
/// 5155, section 5).
#[tactic(auto, unfolding(crate::specs::Iterated::iterated))]
fn hash_name(name: &[u8], iterations: u16, salt: &[u8]) -> [u8; 20]
    ensures { result ≡ iterated salt.now name.now iterations }
{
    if salt.len() <= MAX_SALT && name.len() <= ONE_BLOCK - salt.len() {
        return iterate_one(name, iterations, salt);
    }
    let mut digest = salted(name, salt);
    for _round in 0..iterations {
        digest = salted(&digest, salt);
    }
    digest
}

/// Returns whether each name with the salt is a message of one block, and so is a digest with the
/// salt.
fn fit_one_block(a: &[u8], b: &[u8], c: &[u8], d: &[u8], salt: &[u8]) -> bool
    ensures { IsTrue result → (length salt.now ≤ 35)
        × (length a.now + length salt.now ≤ 55) × (length b.now + length salt.now ≤ 55)
        × (length c.now + length salt.now ≤ 55) × (length d.now + length salt.now ≤ 55) }
{
    let longest = a.len().max(b.len()).max(c.len()).max(d.len());
    salt.len() <= MAX_SALT && longest <= ONE_BLOCK - salt.len()
}

/// Returns the digests of four names, computed side by side.
fn hash_side_by_side(
    a: &[u8],
    b: &[u8],
    c: &[u8],
    d: &[u8],
    iterations: u16,
    salt: &[u8],
) -> [[u8; 20]; 4]
    requires salt { length salt.now ≤ 35 }
    requires a { length a.now + length salt.now ≤ 55 }
    requires b { length b.now + length salt.now ≤ 55 }
    requires c { length c.now + length salt.now ≤ 55 }
    requires d { length d.now + length salt.now ≤ 55 }
    ensures { result ≡ iterated salt.now a.now iterations ∷ iterated salt.now b.now iterations
        ∷ iterated salt.now c.now iterations ∷ iterated salt.now d.now iterations ∷ [] }
{
    let blocks = [pad(a, salt), pad(b, salt), pad(c, salt), pad(d, salt)];
    let states = iterate::iterate(&blocks, iterations, salt);
    [
        digest(&states, 0),
        digest(&states, 1),
        digest(&states, 2),
        digest(&states, 3),
    ]
}

/// Returns the digests of four names. Computes them side by side if each message is one block.
fn hash_names(a: &[u8], b: &[u8], c: &[u8], d: &[u8], iterations: u16, salt: &[u8]) -> [[u8; 20]; 4]
    ensures { result ≡ iterated salt.now a.now iterations ∷ iterated salt.now b.now iterations
        ∷ iterated salt.now c.now iterations ∷ iterated salt.now d.now iterations ∷ [] }
{
    if fit_one_block(a, b, c, d, salt) {
        return hash_side_by_side(a, b, c, d, iterations, salt);
    }
    [
        hash_name(a, iterations, salt),
        hash_name(b, iterations, salt),
        hash_name(c, iterations, salt),
        hash_name(d, iterations, salt),
    ]
}

/// Copies a digest into a `Vec` of its own.
fn list_digest(alloc: Global, digest: &[u8; 20]) -> Result<Vec<u8>, AllocError>
    ensures { IfOk result (λ hash. hash.items ≡ digest.now) }
{
    let mut hash = Vec::new(alloc);
    hash.extend_from_slice(digest)?;
    Ok(hash)
}

/// Copies four digests, each into a `Vec` of its own.
fn list_digests(alloc: Global, digests: &[[u8; 20]; 4]) -> Result<[Vec<u8>; 4], AllocError>
    ensures { IfOk result (λ hashes. map (λ hash. hash.items) hashes ≡ digests.now) }
{
    let first = list_digest(alloc, &digests[0])?;
    let second = list_digest(alloc, &digests[1])?;
    let third = list_digest(alloc, &digests[2])?;
    let fourth = list_digest(alloc, &digests[3])?;
    Ok([first, second, third, fourth])
}

impl Nsec3Hasher for Sha1Hasher {
    ghost answer = { λ hasher. sha1_answer };

    ghost takes_memory = { λ hasher. Unit {0} };

    fn hash(
        &self,
        alloc: Global,
        name: &[u8],
        algorithm: Nsec3HashAlgorithm,
        iterations: u16,
        salt: &[u8],
    ) -> Result<Vec<u8>, HasherError> {
        if algorithm != Nsec3HashAlgorithm::SHA1 {
            return Err(HasherError::Refused(OTHER_ALGORITHM));
        }
        Ok(list_digest(alloc, &hash_name(name, iterations, salt))?)
    }

    fn hash_four(
        &self,
        alloc: Global,
        names: [&[u8]; 4],
        algorithm: Nsec3HashAlgorithm,
        iterations: u16,
        salt: &[u8],
    ) -> Result<[Vec<u8>; 4], HasherError> {
        let [a, b, c, d] = names;
        if algorithm != Nsec3HashAlgorithm::SHA1 {
            return Err(HasherError::Refused(OTHER_ALGORITHM));
        }
        Ok(list_digests(alloc, &hash_names(a, b, c, d, iterations, salt))?)
    }
}
