//! The compression function of SHA-1 (FIPS 180-4, section 6.1.2), for four messages side by side.
ghost use Rattle.std.specs.Prelude.{◌≡◌, ◌<◌, ◌≤◌, ◌+◌, ◌-◌, ℕ, List, slice_index, take};
ghost use Rattle.sha1.specs.Sha1.{first_words, next_word, schedule, round, rounds, compress};
ghost use Rattle.domain_sha1.specs.Lanes.{lane};

use crate::lanes::{add, choose, majority, mix, parity, rotate};
use std::simd::u32x4;

/// Returns word `t` of the schedule, from the words before it.
#[inline(always)]
fn next_word(w: &[u32x4; 80], t: usize) -> u32x4
    requires low { 16 ≤ t }
    requires high { t < 80 }
    ensures { (j : ℕ) → j < 4 → slice_index result j ≡ next_word (lane j w.now) t }
{
    mix(w[t - 3], w[t - 8], w[t - 14], w[t - 16])
}

/// Writes the schedule of each block after its 16 words at the front of the buffer.
#[inline(always)]
fn extend(w: &mut [u32x4; 80])
    ensures words { (j : ℕ) (b : List ℕ) → j < 4 → take 16 (lane j w.old) ≡ first_words b 16
        → lane j w.new ≡ schedule b 64 }
    ensures kept { take 16 w.new ≡ take 16 w.old }
{
    'words: for n in 0..64 {
        w[n + 16] = next_word(w, n + 16);
    }
}

/// Runs a round, given the result of its function.
#[inline(always)]
fn round(v: [u32x4; 5], f: u32x4, k: u32, word: u32x4) -> [u32x4; 5]
    ensures { (j : ℕ) → j < 4
        → lane j result ≡ round (lane j v) (slice_index f j) k (slice_index word j) }
{
    let [a, b, c, d, e] = v;
    let sum = add(add(add(add(rotate(a, 5), f), e), u32x4::splat(k)), word);
    [sum, a, rotate(b, 30), c, d]
}

/// Runs one of the first twenty rounds.
#[inline(always)]
fn choose_round(v: [u32x4; 5], w: &[u32x4; 80], t: usize) -> [u32x4; 5]
    requires { t < 20 }
    ensures { (j : ℕ) (h : List ℕ) → j < 4 → lane j v ≡ rounds h (lane j w.now) t
        → lane j result ≡ rounds h (lane j w.now) (t + 1) }
{
    round(v, choose(v[1], v[2], v[3]), 0x5A82_7999, w[t])
}

/// Runs one of the second twenty rounds.
#[inline(always)]
fn parity_round(v: [u32x4; 5], w: &[u32x4; 80], t: usize) -> [u32x4; 5]
    requires low { 20 ≤ t }
    requires high { t < 40 }
    ensures { (j : ℕ) (h : List ℕ) → j < 4 → lane j v ≡ rounds h (lane j w.now) t
        → lane j result ≡ rounds h (lane j w.now) (t + 1) }
{
    round(v, parity(v[1], v[2], v[3]), 0x6ED9_EBA1, w[t])
}

/// Runs one of the third twenty rounds.
#[inline(always)]
fn majority_round(v: [u32x4; 5], w: &[u32x4; 80], t: usize) -> [u32x4; 5]
    requires low { 40 ≤ t }
    requires high { t < 60 }
    ensures { (j : ℕ) (h : List ℕ) → j < 4 → lane j v ≡ rounds h (lane j w.now) t
        → lane j result ≡ rounds h (lane j w.now) (t + 1) }
{
    round(v, majority(v[1], v[2], v[3]), 0x8F1B_BCDC, w[t])
}

/// Runs one of the last twenty rounds.
#[inline(always)]
fn last_round(v: [u32x4; 5], w: &[u32x4; 80], t: usize) -> [u32x4; 5]
    requires low { 60 ≤ t }
    requires high { t < 80 }
    ensures { (j : ℕ) (h : List ℕ) → j < 4 → lane j v ≡ rounds h (lane j w.now) t
        → lane j result ≡ rounds h (lane j w.now) (t + 1) }
{
    round(v, parity(v[1], v[2], v[3]), 0xCA62_C1D6, w[t])
}

/// Runs the first twenty rounds. Groups of five need no moves of the working variables.
#[inline(always)]
fn choose_rounds(v: [u32x4; 5], w: &[u32x4; 80]) -> [u32x4; 5]
    ensures { (j : ℕ) (h : List ℕ) → j < 4 → lane j v ≡ rounds h (lane j w.now) 0
        → lane j result ≡ rounds h (lane j w.now) 20 }
{
    let mut v = v;
    'rounds: for group in 0..4 {
        let t = 5 * group;
        let one = choose_round(v, w, t);
        let two = choose_round(one, w, t + 1);
        let three = choose_round(two, w, t + 2);
        let four = choose_round(three, w, t + 3);
        let five = choose_round(four, w, t + 4);
        v = five;
    }
    v
}

/// Runs the second twenty rounds. Groups of five need no moves of the working variables.
#[inline(always)]
fn parity_rounds(v: [u32x4; 5], w: &[u32x4; 80]) -> [u32x4; 5]
    ensures { (j : ℕ) (h : List ℕ) → j < 4 → lane j v ≡ rounds h (lane j w.now) 20
        → lane j result ≡ rounds h (lane j w.now) 40 }
{
    let mut v = v;
    'rounds: for group in 0..4 {
        let t = 20 + 5 * group;
        let one = parity_round(v, w, t);
        let two = parity_round(one, w, t + 1);
        let three = parity_round(two, w, t + 2);
        let four = parity_round(three, w, t + 3);
        let five = parity_round(four, w, t + 4);
        v = five;
    }
    v
}

/// Runs the third twenty rounds. Groups of five need no moves of the working variables.
#[inline(always)]
fn majority_rounds(v: [u32x4; 5], w: &[u32x4; 80]) -> [u32x4; 5]
    ensures { (j : ℕ) (h : List ℕ) → j < 4 → lane j v ≡ rounds h (lane j w.now) 40
        → lane j result ≡ rounds h (lane j w.now) 60 }
{
    let mut v = v;
    'rounds: for group in 0..4 {
        let t = 40 + 5 * group;
        let one = majority_round(v, w, t);
        let two = majority_round(one, w, t + 1);
        let three = majority_round(two, w, t + 2);
        let four = majority_round(three, w, t + 3);
        let five = majority_round(four, w, t + 4);
        v = five;
    }
    v
}

/// Runs the last twenty rounds. Groups of five need no moves of the working variables.
#[inline(always)]
fn last_rounds(v: [u32x4; 5], w: &[u32x4; 80]) -> [u32x4; 5]
    ensures { (j : ℕ) (h : List ℕ) → j < 4 → lane j v ≡ rounds h (lane j w.now) 60
        → lane j result ≡ rounds h (lane j w.now) 80 }
{
    let mut v = v;
    'rounds: for group in 0..4 {
        let t = 60 + 5 * group;
        let one = last_round(v, w, t);
        let two = last_round(one, w, t + 1);
        let three = last_round(two, w, t + 2);
        let four = last_round(three, w, t + 3);
        let five = last_round(four, w, t + 4);
        v = five;
    }
    v
}

/// Runs the 80 rounds of a schedule.
fn run_rounds(state: [u32x4; 5], w: &[u32x4; 80]) -> [u32x4; 5]
    ensures { (j : ℕ) → j < 4 → lane j result ≡ rounds (lane j state) (lane j w.now) 80 }
{
    let first = choose_rounds(state, w);
    let second = parity_rounds(first, w);
    let third = majority_rounds(second, w);
    last_rounds(third, w)
}

/// Returns the states after one more block of each message. The first 16 vectors of the buffer are
/// the words of the blocks, and are kept. The schedule overwrites the others.
pub(crate) fn compress(state: [u32x4; 5], w: &mut [u32x4; 80]) -> [u32x4; 5]
    ensures state { (j : ℕ) (b : List ℕ) → j < 4 → take 16 (lane j w.old) ≡ first_words b 16
        → lane j result ≡ compress (lane j state) b }
    ensures kept { take 16 w.new ≡ take 16 w.old }
{
    extend(w);
    let v = run_rounds(state, w);
    [
        add(state[0], v[0]),
        add(state[1], v[1]),
        add(state[2], v[2]),
        add(state[3], v[3]),
        add(state[4], v[4]),
    ]
}
