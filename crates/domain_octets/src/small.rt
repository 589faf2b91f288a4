//! Octets that are stored in the value itself if they are few.
ghost use Rattle.std.specs.Prelude.{◌≡◌, ◌≤◌, ◌+◌, ◌++◌, None, refl, length, IfOk, IsErrOf, IsOk};
ghost use Rattle.std.{specs.{Prelude.{OnErr, OnOk}, List.refill}, proofs.Common.sym};
ghost use Rattle.domain_octets.specs.Octets.{room_inside, refilled, Octets};

use crate::{
    AppendError, CopyOctets, EmptyBuilder, EmptyOctets, FreezeBuilder, FromBuilder, GrowingBuilder,
    Octets, OctetsBuilder, OutOfMemory, Truncate, TryClone,
};
use smallvec::SmallVec;
use std::alloc::Global;
use std::marker::Model;

/// The greatest number of octets that are stored in the value itself.
const INSIDE: usize = 30;

/// A list of octets, up to 30 of which are stored in the value itself. Only more than 30 are
/// allocated.
#[derive(Drop)]
pub struct SmallOctets {
    octets: SmallVec<u8, INSIDE>,
}

/// The builder of [`SmallOctets`]: the same type.
pub type SmallBuilder = SmallOctets;

impl Model for SmallOctets {
    ghost Value = { Octets };

    ghost view = { λ s. s.octets.items };

    ghost invariant = { λ s. room_inside ≤ s.octets.capacity };
}

impl SmallOctets {
    /// Returns a copy of these octets. Allocates only for more than 30. Returns `OutOfMemory` if
    /// there is no memory for these.
    #[inline]
    pub fn from_slice(alloc: Global, octets: &[u8]) -> Result<Self, OutOfMemory>
        ensures ok { IfOk result (λ copy. copy ≡ octets.now) }
        ensures inside { length octets.now ≤ room_inside → IsOk result }
    {
        Ok(SmallOctets {
            octets: SmallVec::from_slice(alloc, octets)?,
        })
    }
}

impl TryClone for SmallOctets {
    ghost is_clone = { λ s copy. copy ≡ s };

    /// Returns a copy. Does not allocate for at most 30 octets.
    #[inline]
    fn try_clone(&self) -> Result<Self, OutOfMemory>
        ensures copy { IfOk result (λ copy. copy ≡ self.now) }
        ensures inside { length self.now ≤ room_inside → IsOk result }
    {
        Self::from_slice(*self.octets.allocator(), self.as_slice())
    }
}

impl Octets for SmallOctets {
    ghost octets = { λ s. s };

    ghost clone_octets = { λ s copy same. same };

    #[inline]
    fn as_slice(&self) -> &[u8] {
        self.octets.as_slice()
    }
}

impl OctetsBuilder for SmallOctets {
    ghost limit = { None };

    ghost with_octets = { λ s xs. refill (length s) s xs };

    /// Does not allocate if there are at most 30 octets afterwards.
    #[inline]
    fn append_slice(&mut self, slice: &[u8]) -> Result<(), AppendError>
        ensures ok { OnOk result (self.new ≡ self.old ++ slice.now) }
        ensures err { OnErr result (self.new ≡ self.old) }
        ensures grows { IsErrOf result AppendError.ShortBuf → ⊥ }
        ensures inside { length self.old + length slice.now ≤ room_inside → IsOk result }
    {
        self.octets.extend_from_slice(slice)?;
        Ok(())
    }

    #[inline]
    fn as_mut_slice(&mut self) -> &mut [u8] {
        self.octets.as_mut_slice()
    }

    ghost has_octets = { λ s xs same. refilled (length s) s xs (sym same) };
}

impl EmptyBuilder for SmallOctets {
    #[inline]
    fn empty(alloc: Global) -> Self {
        SmallOctets {
            octets: SmallVec::new(alloc),
        }
    }
}

impl EmptyOctets for SmallOctets {
    fn empty(alloc: Global) -> Self {
        SmallOctets {
            octets: SmallVec::new(alloc),
        }
    }
}

impl Truncate for SmallOctets {
    fn truncate(&mut self, len: usize) {
        self.octets.truncate(len);
    }
}

impl GrowingBuilder for SmallOctets {
    ghost grows = { refl };
}

impl CopyOctets for SmallOctets {
    ghost capacity = { None };

    fn copy_octets(alloc: Global, octets: &[u8]) -> Result<Self, AppendError> {
        Ok(Self::from_slice(alloc, octets)?)
    }
}

impl FreezeBuilder for SmallOctets {
    type Frozen = SmallOctets;

    #[inline]
    fn freeze(self) -> Self {
        self
    }
}

impl FromBuilder for SmallOctets {
    type Builder = SmallOctets;

    fn from_builder(builder: Self) -> Self {
        builder
    }

    /// Does not allocate for at most 30 octets.
    fn from_octets(alloc: Global, octets: &[u8]) -> Result<Self, AppendError> {
        Self::copy_octets(alloc, octets)
    }
}
