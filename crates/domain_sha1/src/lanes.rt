//! Operations of SHA-1 on words (FIPS 180-4, sections 3.2 and 4.1.1), for four messages side by
//! side: a vector holds one word of each.
ghost use Rattle.std.specs.Prelude.{◌≡◌, ◌<◌, ℕ, slice_index, bit_xor};
ghost use Rattle.std.specs.Int.{w32, rotate_left};
ghost use Rattle.sha1.specs.Sha1.{add32, ch, parity, maj};

use std::simd::u32x4;

/// Adds words.
#[inline(always)]
pub(crate) fn add(a: u32x4, b: u32x4) -> u32x4
    ensures { (j : ℕ) → j < 4 → slice_index result j ≡ add32 (slice_index a j) (slice_index b j) }
{
    a + b
}

/// Rotates the bits of words to the left.
#[inline(always)]
pub(crate) fn rotate(a: u32x4, count: u32) -> u32x4
    requires low { 0 < count }
    requires high { count < 32 }
    ensures { (j : ℕ) → j < 4 → slice_index result j ≡ rotate_left w32 (slice_index a j) count }
{
    (a << u32x4::splat(count)) | (a >> u32x4::splat(32 - count))
}

/// The function `Ch`.
#[inline(always)]
pub(crate) fn choose(x: u32x4, y: u32x4, z: u32x4) -> u32x4
    ensures { (j : ℕ) → j < 4
        → slice_index result j ≡ ch (slice_index x j) (slice_index y j) (slice_index z j) }
{
    (x & y) ^ (!x & z)
}

/// The function `Parity`.
#[inline(always)]
pub(crate) fn parity(x: u32x4, y: u32x4, z: u32x4) -> u32x4
    ensures { (j : ℕ) → j < 4
        → slice_index result j ≡ parity (slice_index x j) (slice_index y j) (slice_index z j) }
{
    x ^ y ^ z
}

/// The function `Maj`.
#[inline(always)]
pub(crate) fn majority(x: u32x4, y: u32x4, z: u32x4) -> u32x4
    ensures { (j : ℕ) → j < 4
        → slice_index result j ≡ maj (slice_index x j) (slice_index y j) (slice_index z j) }
{
    (x & y) ^ (x & z) ^ (y & z)
}

/// Mixes four words of the schedule into a later one (section 6.1.2, step 1).
#[inline(always)]
pub(crate) fn mix(a: u32x4, b: u32x4, c: u32x4, d: u32x4) -> u32x4
    ensures { (j : ℕ) → j < 4 → slice_index result j ≡ rotate_left w32 (bit_xor (bit_xor
        (bit_xor (slice_index a j) (slice_index b j)) (slice_index c j)) (slice_index d j)) 1 }
{
    rotate(a ^ b ^ c ^ d, 1)
}
