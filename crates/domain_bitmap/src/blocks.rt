//! The blocks in the octets of a bitmap.
ghost use Rattle.std.specs.Prelude.{◌≡◌, ℕ, ◌+◌, ◌*◌, ◌/◌, ◌%◌, ◌<◌, ◌≤◌, ◌∷◌, [], length, IfSome, IfNone, MatchResult};
ghost use Rattle.domain_bitmap.specs.Blocks.{has_bit, IsBitmap, blocks_of, block_types_from, FirstBlockFault};

use crate::RtypeBitmapError;
use domain_base::Rtype;

/// The greatest number of octets of a block: 32, for 256 types.
const MAX_LEN: usize = 32;

/// A block: the number of its window and its octets.
#[derive(Clone, Copy)]
pub(crate) struct Window<'a> {
    /// The number of the window.
    pub number: u8,
    /// The octets of the window. Zero octets at the end may be left out.
    pub octets: &'a [u8],
}

/// Checks that octets are a list of blocks.
#[tactic(auto, using(std::proofs::lemmas::Grind::common_steps, crate::proofs::BlockLemmas::check_steps))]
pub(crate) fn check(octets: &[u8]) -> Result<(), RtypeBitmapError>
    ensures { MatchResult result (λ _. IsBitmap octets.now) (λ e. FirstBlockFault octets.now e) }
{
    let mut rest = octets;
    while let [_, len, tail @ ..] = rest {
        let len = *len as usize;
        if len == 0 || len > MAX_LEN {
            return Err(RtypeBitmapError::BadRtypeBitmap);
        }
        if tail.len() < len {
            return Err(RtypeBitmapError::ShortInput);
        }
        rest = &tail[len..];
    }
    if !rest.is_empty() {
        return Err(RtypeBitmapError::ShortInput);
    }
    Ok(())
}

/// Returns the first block and the octets of the blocks after it, or None if there is no block.
#[tactic(auto, using(std::proofs::lemmas::Grind::common_steps, crate::proofs::BlockLemmas::block_reads))]
pub(crate) fn split_block(blocks: &[u8]) -> Option<(Window<'_>, &[u8])>
    requires { IsBitmap blocks.now }
    ensures none { IfNone result (blocks_of blocks.now ≡ []) }
    ensures some { IfSome result (λ p. blocks_of blocks.now
        ≡ record { window = p.0.number; octets = p.0.octets.now } ∷ blocks_of p.1.now) }
    ensures fits { IfSome result (λ p. length p.0.octets.now ≤ 32) }
    ensures rest { IfSome result (λ p. IsBitmap p.1.now) }
    ensures shorter { IfSome result (λ p. length p.1.now < length blocks.now) }
{
    match blocks {
        [number, len, tail @ ..] => {
            let (octets, rest) = tail.split_at(*len as usize);
            let number = *number;
            Some((Window { number, octets }, rest))
        }
        _ => None,
    }
}

/// Returns the window of a type, its octet within the window, and its bit within the octet. Bit 0
/// is the most significant bit (RFC 4034, section 4.1.2).
pub(crate) fn split_rtype(rtype: Rtype) -> (u8, usize, u8)
    ensures window { result.0 ≡ rtype / 256 }
    ensures octet { result.1 ≡ rtype % 256 / 8 }
    ensures bit { result.2 ≡ rtype % 8 }
    ensures octet_bound { result.1 < 32 }
    ensures bit_bound { result.2 < 8 }
{
    let number = rtype.to_int();
    (
        (number / 256) as u8,
        (number % 256 / 8) as usize,
        (number % 8) as u8,
    )
}

/// Returns whether a bit of an octet of a window is set. Bit 0 is the most significant bit.
#[tactic(auto, using(crate::proofs::BitLemmas::bit_reads), unfolding(crate::specs::Blocks::has_bit))]
pub(crate) fn is_set(octets: &[u8], octet: usize, bit: u8) -> bool
    requires { bit < 8 }
    ensures { (t : ℕ) → t % 256 / 8 ≡ octet → t % 8 ≡ bit → result ≡ has_bit octets.now t }
{
    match octets.get(octet) {
        Some(value) => value >> (7 - bit) & 1 == 1,
        None => false,
    }
}

/// Returns the first place in a window, from `from` on, whose bit is set. Skips the rest of an
/// octet at once if it has no bits.
pub(crate) fn first_set(octets: &[u8], from: usize) -> Option<usize>
    requires { length octets.now ≤ 32 }
    ensures none { IfNone result ((w : ℕ)
        → block_types_from (record { window = w; octets = octets.now }) from ≡ []) }
    ensures some { IfSome result (λ place. (w : ℕ)
        → block_types_from (record { window = w; octets = octets.now }) from
        ≡ (256 * w + place) ∷ block_types_from (record { window = w; octets = octets.now })
        (place + 1)) }
    ensures bounds { IfSome result (λ place. place < 256) }
{
    let mut place = from;
    while place < 8 * octets.len() {
        if octets[place / 8] << (place % 8) == 0 {
            place = place / 8 * 8 + 8;
        } else if is_set(octets, place / 8, (place % 8) as u8) {
            return Some(place);
        } else {
            place += 1;
        }
    }
    None
}
