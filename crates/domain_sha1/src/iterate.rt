//! Iterated digests of four names side by side (RFC 5155, section 5).
ghost use Rattle.std.specs.Prelude.{◌≡◌, ◌<◌, ◌≤◌, ◌+◌, ◌++◌, ℕ, List, [], length, slice_index_or, take, drop};
ghost use Rattle.sha1.specs.Sha1.{digest_bytes, first_words, initial_hash, padded_message};
ghost use Rattle.domain_sha1.specs.Lanes.{lane};
ghost use Rattle.domain_sha1.specs.Iterated.{iterated};

use crate::message::pad;
use crate::rounds::compress;
use crate::scalar::load_word;
use std::simd::u32x4;

/// Writes the words of blocks to the front of a buffer.
#[inline(always)]
fn load(w: &mut [u32x4; 80], blocks: &[[u8; 64]; 4])
    ensures { (j : ℕ) → j < 4
        → take 16 (lane j w.new) ≡ first_words (slice_index_or blocks.now j []) 16 }
{
    'words: for i in 0..16 {
        let word = u32x4::from_array([
            load_word(&blocks[0], i),
            load_word(&blocks[1], i),
            load_word(&blocks[2], i),
            load_word(&blocks[3], i),
        ]);
        w[i] = word;
    }
}

/// Writes states to the front of a buffer.
#[inline(always)]
fn load_states(w: &mut [u32x4; 80], states: &[u32x4; 5])
    ensures { w.new ≡ states.now ++ drop 5 w.old }
{
    w[..5].copy_from_slice(states);
}

/// Returns the states before the first block (FIPS 180-4, section 5.3.1).
#[inline(always)]
fn start() -> [u32x4; 5]
    ensures { (j : ℕ) → j < 4 → lane j result ≡ initial_hash }
{
    [
        u32x4::splat(0x6745_2301),
        u32x4::splat(0xEFCD_AB89),
        u32x4::splat(0x98BA_DCFE),
        u32x4::splat(0x1032_5476),
        u32x4::splat(0xC3D2_E1F0),
    ]
}

/// Returns the states after these iterations. Each of the four blocks is a name with the salt,
/// padded.
pub(crate) fn iterate(blocks: &[[u8; 64]; 4], iterations: u16, salt: &[u8]) -> [u32x4; 5]
    requires { length salt.now ≤ 35 }
    ensures { (j : ℕ) (name : List ℕ) → j < 4 → length name + length salt.now ≤ 55
        → slice_index_or blocks.now j [] ≡ padded_message (name ++ salt.now)
        → digest_bytes (lane j result) 5 ≡ iterated salt.now name iterations }
{
    let mut w = [u32x4::splat(0); 80];
    load(&mut w, blocks);
    let mut states = compress(start(), &mut w);
    load(&mut w, &[pad(&[0; 20], salt); 4]);
    'iterations: for _round in 0..iterations {
        load_states(&mut w, &states);
        let next = compress(start(), &mut w);
        states = next;
    }
    states
}
