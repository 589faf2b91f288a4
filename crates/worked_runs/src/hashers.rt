//! A hasher that counts its calls, and one that gives many names the same hash.
ghost use Rattle.std.specs.{Prelude.{Ok, length}, Int.{w64, to_be_bytes}};
ghost use Rattle.domain_sha1.specs.Iterated.{sha1_answer};

use domain_base::Nsec3HashAlgorithm;
use domain_hasher::{HasherError, Nsec3Hasher};
use domain_sha1::Sha1Hasher;
use std::alloc::Global;
use std::cell::Cell;

/// A SHA-1 hasher that counts how often it is called for a hash.
#[derive(Drop)]
pub struct CountingHasher {
    /// The number of calls.
    pub asked: Cell<usize>,
}

impl Nsec3Hasher for CountingHasher {
    ghost answer = { λ hasher. sha1_answer };

    ghost takes_memory = { λ hasher. Unit {0} };

    fn hash(
        &self,
        alloc: Global,
        name: &[u8],
        algorithm: Nsec3HashAlgorithm,
        iterations: u16,
        salt: &[u8],
    ) -> Result<Vec<u8>, HasherError> {
        self.asked.set(self.asked.get().saturating_add(1));
        Sha1Hasher.hash(alloc, name, algorithm, iterations, salt)
    }
}

/// A hasher that gives the same hash to names whose wire forms have the same length.
pub struct LengthHasher;

impl Nsec3Hasher for LengthHasher {
    ghost answer = { λ hasher name algorithm iterations salt. Ok (to_be_bytes w64 (length name)) };

    ghost takes_memory = { λ hasher. Unit {0} };

    fn hash(
        &self,
        alloc: Global,
        name: &[u8],
        _algorithm: Nsec3HashAlgorithm,
        _iterations: u16,
        _salt: &[u8],
    ) -> Result<Vec<u8>, HasherError> {
        let mut hash = Vec::new(alloc);
        hash.extend_from_slice(&name.len().to_be_bytes())?;
        Ok(hash)
    }
}
