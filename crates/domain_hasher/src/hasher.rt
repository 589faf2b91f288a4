//! Hashing of owner names.
ghost use Rattle.std.specs.Prelude.{◌≡◌, ℕ, List, Result, Ok, Err, IfOk, IsErrOf, map};
ghost use Rattle.domain_hasher.specs.Hashes.{all_hashes};
ghost use Rattle.domain_hasher.specs.declared.hasher.HasherError.TheVariants as hasher_error;

use domain_base::Nsec3HashAlgorithm;
use domain_octets::OutOfMemory;
use std::alloc::{AllocError, Global};
use std::error::Error;
use std::fmt;

/// The error of hashing a name.
#[derive(Clone, Copy, Debug, PartialEq, Eq)]
pub enum HasherError {
    /// The hasher does not accept these arguments. The number of the reason is its own.
    Refused(u8),
    /// Memory ran out.
    OutOfMemory,
}

impl fmt::Display for HasherError {
    ghost use Rattle.std.specs.Prelude.{Some};
    ghost use Rattle.domain_hasher.specs.ErrorText.{hasher_error_text};

    // specs/ErrorText.antt repeats these texts: change both together.
    ghost output = { λ e. Some (hasher_error_text e) };

    fn fmt<W: fmt::Write>(&self, f: &mut fmt::Formatter<W>) -> fmt::Result {
        match self {
            HasherError::Refused(n) => write!(f, "hasher refused: {n}"),
            HasherError::OutOfMemory => f.write_str("out of memory"),
        }
    }
}

impl Error for HasherError {}

impl From<OutOfMemory> for HasherError {
    ghost from_gives = { λ _ e. e ≡ hasher_error.OutOfMemory };

    fn from(_error: OutOfMemory) -> HasherError {
        HasherError::OutOfMemory
    }
}

impl From<AllocError> for HasherError {
    ghost from_gives = { λ _ e. e ≡ hasher_error.OutOfMemory };

    fn from(_error: AllocError) -> HasherError {
        HasherError::OutOfMemory
    }
}

/// A hasher of owner names (RFC 5155, section 5). The caller of this crate passes it.
pub trait Nsec3Hasher {
    /// The result for the octets of a name, the number of an algorithm, a number of iterations and
    /// a salt: the octets of the hash, or the number of the error.
    ghost answer: { Self → List ℕ → ℕ → ℕ → List ℕ → Result (List ℕ) ℕ };

    /// Whether the hasher may run out of memory.
    ghost takes_memory: { Self → Type 0 };

    /// Returns the hash of a name, which is given as the octets of its wire form in lower case. The
    /// result depends only on the hasher and these arguments, except that memory can run out.
    /// `OutOfMemory` comes only from a hasher that allocates.
    fn hash(
        &self,
        alloc: Global,
        name: &[u8],
        algorithm: Nsec3HashAlgorithm,
        iterations: u16,
        salt: &[u8],
    ) -> Result<Vec<u8>, HasherError>
        ensures ok { IfOk result (λ hash.
            answer self.now name.now algorithm iterations salt.now ≡ Ok hash.items) }
        ensures refused { (n : ℕ) → IsErrOf result (HasherError.Refused n)
            → answer self.now name.now algorithm iterations salt.now ≡ Err n }
        ensures memory { IsErrOf result HasherError.OutOfMemory → takes_memory self.now };

    /// Returns the hashes of four names in order, with the other arguments of `hash`. A hasher may
    /// compute them in parallel. By default, `hash` computes one after another.
    ///
    /// # Errors
    ///
    /// `Refused` with the number of the first name that has this error, or `OutOfMemory`.
    fn hash_four(
        &self,
        alloc: Global,
        names: [&[u8]; 4],
        algorithm: Nsec3HashAlgorithm,
        iterations: u16,
        salt: &[u8],
    ) -> Result<[Vec<u8>; 4], HasherError>
        ensures ok { IfOk result (λ hashes. all_hashes (map (λ name.
            answer self.now name.now algorithm iterations salt.now) names.entry)
            ≡ Ok (map (λ hash. hash.items) hashes)) }
        ensures refused { (n : ℕ) → IsErrOf result (HasherError.Refused n)
            → all_hashes (map (λ name.
            answer self.now name.now algorithm iterations salt.now) names.entry) ≡ Err n }
        ensures memory { IsErrOf result HasherError.OutOfMemory → takes_memory self.now }
    {
        let first = self.hash(alloc, names[0], algorithm, iterations, salt)?;
        let second = self.hash(alloc, names[1], algorithm, iterations, salt)?;
        let third = self.hash(alloc, names[2], algorithm, iterations, salt)?;
        let fourth = self.hash(alloc, names[3], algorithm, iterations, salt)?;
        Ok([first, second, third, fourth])
    }
}
