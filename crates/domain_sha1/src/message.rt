//! Messages of one block (FIPS 180-4, section 5.1.1), and digests.
ghost use Rattle.std.specs.Prelude.{◌≡◌, ◌<◌, ◌≤◌, ◌+◌, ◌-◌, ◌++◌, ℕ, List, length, replicate, slice_index};
ghost use Rattle.sha1.specs.Sha1.{padded_message, digest_bytes};
ghost use Rattle.domain_sha1.specs.Lanes.{lane};

use std::simd::u32x4;

/// The greatest length of a message, in octets, that is one block with its padding.
pub(crate) const ONE_BLOCK: usize = 55;

/// Writes octets into a block at place `at`, after the octets there. The rest of the block is
/// zeros.
#[inline(always)]
fn put(block: &mut [u8; 64], at: usize, octets: &[u8])
    requires { at + length octets.now ≤ 64 }
    ensures { (front : List ℕ) → length front ≡ at → block.old ≡ front ++ replicate (64 - at) 0
        → block.new ≡ (front ++ octets.now) ++ replicate (64 - (at + length octets.now)) 0 }
{
    block[at..at + octets.len()].copy_from_slice(octets);
}

/// Returns the padded block of the message `octets` followed by `salt`.
#[inline(always)]
pub(crate) fn pad(octets: &[u8], salt: &[u8]) -> [u8; 64]
    requires { length octets.now + length salt.now ≤ 55 }
    ensures { result ≡ padded_message (octets.now ++ salt.now) }
{
    let mut block = [0; 64];
    let len = octets.len() + salt.len();
    put(&mut block, 0, octets);
    put(&mut block, octets.len(), salt);
    put(&mut block, len, &[0x80]);
    let bits = 8 * len as u64;
    block[56..].copy_from_slice(&bits.to_be_bytes());
    block
}

/// Returns the digest of message `j` of four, from their states.
#[inline(always)]
pub(crate) fn digest(state: &[u32x4; 5], j: usize) -> [u8; 20]
    requires { j < 4 }
    ensures { result ≡ digest_bytes (lane j state.now) 5 }
{
    let mut digest = [0; 20];
    'words: for i in 0..5 {
        let word = state[i].to_array()[j];
        digest[4 * i..4 * i + 4].copy_from_slice(&word.to_be_bytes());
    }
    digest
}
