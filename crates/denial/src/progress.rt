//! Reports on the progress of hashing, for a user who waits at a terminal.
ghost use Rattle.domain_sha1.specs.Iterated.{sha1_answer};

use domain_base::Nsec3HashAlgorithm;
use domain_hasher::{HasherError, Nsec3Hasher};
use domain_sha1::Sha1Hasher;
use std::alloc::Global;
use std::cell::Cell;
use std::io::IsTerminal;
use std::time::Clock;

/// The seconds from the first name to the first line, and from one line to the next.
const SECONDS: u64 = 10;

/// A SHA-1 hasher that reports its progress. If standard error is a terminal, it prints there every
/// ten seconds how many names it has hashed. Its hashes do not depend on that.
#[derive(Drop)]
pub struct TellingHasher<'r> {
    rt: &'r HostRuntime,
    is_terminal: bool,
    /// The number of names that it has hashed.
    hashed: Cell<u64>,
    /// The second of the next line, by the clock, or 0 before the first name.
    next: Cell<u64>,
}

impl<'r> TellingHasher<'r> {
    /// Returns a hasher that reports to standard error of this process.
    pub fn new(rt: &'r HostRuntime) -> Self {
        TellingHasher {
            rt,
            is_terminal: rt.stderr().is_terminal(),
            hashed: Cell::new(0),
            next: Cell::new(0),
        }
    }

    /// Counts `count` more names, and prints how many it has hashed if it is time.
    fn tell(&self, count: u64) {
        let hashed = self.hashed.get().saturating_add(count);
        self.hashed.set(hashed);
        let Ok(now) = self.rt.monotonic() else {
            return;
        };
        let now = now.as_secs();
        let next = self.next.get();
        if next > now {
            return;
        }
        self.next.set(now.saturating_add(SECONDS));
        if next > 0 {
            let _ = eprintln!(self.rt; "denial: {hashed} names hashed so far");
        }
    }
}

impl Nsec3Hasher for TellingHasher<'_> {
    ghost answer = { λ hasher. sha1_answer };

    ghost takes_memory = { λ hasher. Unit {0} };

    fn hash(
        &self,
        alloc: Global,
        name: &[u8],
        algorithm: Nsec3HashAlgorithm,
        iterations: u16,
        salt: &[u8],
    ) -> Result<Vec<u8>, HasherError> {
        if self.is_terminal {
            self.tell(1);
        }
        Sha1Hasher.hash(alloc, name, algorithm, iterations, salt)
    }

    fn hash_four(
        &self,
        alloc: Global,
        names: [&[u8]; 4],
        algorithm: Nsec3HashAlgorithm,
        iterations: u16,
        salt: &[u8],
    ) -> Result<[Vec<u8>; 4], HasherError> {
        if self.is_terminal {
            self.tell(4);
        }
        Sha1Hasher.hash_four(alloc, names, algorithm, iterations, salt)
    }
}
