//! Lists of bitmaps that take little memory.
ghost use Rattle.std.specs.Prelude.{◌≡◌, ◌≤◌, ◌∷◌, ◌++◌, ◌↔◌, [], length, slice_index, slice_index_or, IsTrue, IfSome, IfNone, OnOk, OnErr};
ghost use Rattle.domain_octets.specs.Octets.{Octets};

use crate::RtypeBitmap;
use domain_octets::{Octets, OutOfMemory};
use std::alloc::Global;
use std::marker::Model;

/// A list of bitmaps, with all octets in one vector. Each bitmap takes its octets and 8 more.
/// Contracts see the list of their octets.
#[derive(Drop)]
pub struct RtypeBitmaps {
    octets: Vec<u8>,
    /// For each bitmap, the position after its last octet.
    ends: Vec<usize>,
}

impl Model for RtypeBitmaps {
    ghost use Rattle.std.specs.Prelude.{List};
    ghost use Rattle.domain_octets.specs.Octets.{Octets};
    ghost use Rattle.domain_bitmap.specs.Blocks.{parts_of, AreBitmaps};

    ghost Value = { List Octets };

    ghost view = { λ b. parts_of b.ends.items b.octets.items };

    ghost invariant = { λ b. AreBitmaps b.ends.items b.octets.items };
}

impl RtypeBitmaps {
    /// Returns a list without bitmaps. Does not allocate.
    pub fn new(alloc: Global) -> Self
        ensures { result ≡ [] }
    {
        RtypeBitmaps {
            octets: Vec::new(alloc),
            ends: Vec::new(alloc),
        }
    }

    /// Returns the number of bitmaps.
    #[tactic(auto, using(crate::proofs::ListLemmas::count_steps))]
    pub fn len(&self) -> usize
        ensures { result ≡ length self.now }
    {
        self.ends.len()
    }

    /// Returns whether there is no bitmap.
    #[tactic(auto, using(crate::proofs::ListLemmas::count_steps))]
    pub fn is_empty(&self) -> bool
        ensures { IsTrue result ↔ (self.now ≡ []) }
    {
        self.ends.is_empty()
    }

    /// Appends a copy of a bitmap. After an error the list is unchanged.
    ///
    /// # Errors
    ///
    /// `OutOfMemory` if there is no memory for its octets or for the position of their end.
    #[tactic(auto, using(std::proofs::lemmas::Grind::common_steps, crate::proofs::ListLemmas::push_steps))]
    pub fn push<O: Octets>(&mut self, types: &RtypeBitmap<O>) -> Result<(), OutOfMemory>
        ensures ok { OnOk result (self.new ≡ self.old ++ types.now ∷ []) }
        ensures err { OnErr result (self.new ≡ self.old) }
    {
        // This reserves room for the end, so that only the copy of the octets can still fail.
        self.ends.reserve(1)?;
        self.octets.extend_from_slice(types.as_slice())?;
        self.ends.push(self.octets.len())?;
        Ok(())
    }

    /// Returns the bitmap at a place, or `None` if the list has no more than `place`. Takes
    /// constant time, and does not allocate.
    #[tactic(auto, using(crate::proofs::ListLemmas::get_steps))]
    pub fn get(&self, place: usize) -> Option<RtypeBitmap<&[u8]>>
        ensures some { IfSome result (λ types. (d : Octets)
            → types ≡ slice_index_or self.now place d) }
        ensures none { IfNone result (length self.now ≤ place) }
    {
        if place >= self.ends.len() {
            return None;
        }
        let start = start_at(&self.ends, place);
        let end = self.ends[place];
        Some(RtypeBitmap::from_octets_unchecked(&self.octets[start..end]))
    }
}

/// Returns the position of the first octet of a bitmap: the end of the bitmap before it.
fn start_at(ends: &[usize], place: usize) -> usize
    requires { place ≤ length ends.now }
    ensures { result ≡ slice_index (0 ∷ ends.now) place }
{
    if place == 0 {
        return 0;
    }
    ends[place - 1]
}
