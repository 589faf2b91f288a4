//! An iterator over the types of a bitmap.
ghost use Rattle.std.specs.{Prelude.{◌≡◌, ◌<◌, ◌≤◌}, Iterator.{YieldsFirst, item_count}};
ghost use Rattle.domain_bitmap.specs.Blocks.{IsBitmap, types_of, types_from, blocks_of};

use crate::RtypeBitmap;
use crate::blocks::{first_set, split_block};
use domain_base::Rtype;
use domain_octets::Octets;
use std::marker::Model;

/// An iterator over types, block by block, in the order of their bits. Contracts see the list of
/// the types that are left.
#[derive(Drop)]
pub struct RtypeBitmapIter<'a> {
    blocks: &'a [u8],
    place: usize,
}

impl<'a> Model for RtypeBitmapIter<'a> {
    ghost use Rattle.std.specs.Prelude.{◌≤◌};
    ghost use Rattle.domain_base.specs.Types.{Rtypes};
    ghost use Rattle.domain_bitmap.specs.Blocks.{IsBitmap, types_from, blocks_of};

    ghost Value = { Rtypes };

    ghost view = { λ s. types_from (blocks_of s.blocks.now) s.place };

    ghost invariant = { λ s. IsBitmap s.blocks.now × (s.place ≤ 256) };
}

impl<O: Octets> RtypeBitmap<O> {
    /// Returns an iterator over the types whose bits are set, block by block, in the order of their
    /// bits.
    #[tactic(auto, using(crate::proofs::BlockLemmas::types_from_start))]
    pub fn iter(&self) -> RtypeBitmapIter<'_>
        ensures { result ≡ types_of self.now }
    {
        RtypeBitmapIter {
            blocks: self.as_slice(),
            place: 0,
        }
    }
}

impl<'a, O: Octets> IntoIterator for &'a RtypeBitmap<O> {
    type Item = Rtype;

    type IntoIter = RtypeBitmapIter<'a>;

    ghost into_iter_gives = { λ b types. types ≡ types_of b.now };

    fn into_iter(self) -> RtypeBitmapIter<'a> {
        self.iter()
    }
}

impl<'a> Iterator for RtypeBitmapIter<'a> {
    type Item = Rtype;

    ghost next_gives = { YieldsFirst (λ types. types) };

    ghost remaining = { item_count (λ types. types) };

    #[tactic(auto, using(std::proofs::lemmas::Grind::common_steps, crate::proofs::BlockLemmas::iter_steps))]
    fn next(&mut self) -> Option<Rtype> {
        while let Some((block, rest)) = split_block(self.blocks) {
            if let Some(place) = first_set(block.octets, self.place) {
                self.place = place + 1;
                return Some(Rtype::from_int(block.number as u16 * 256 + place as u16));
            }
            self.blocks = rest;
            self.place = 0;
        }
        None
    }
}
