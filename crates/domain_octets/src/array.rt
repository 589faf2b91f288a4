//! Octets in an array of a fixed size.
ghost use Rattle.std.specs.{Prelude.{◌≡◌, [], Some, length, IfOk, IsOk}, List.refill};
ghost use Rattle.std.proofs.Common.{sym};
ghost use Rattle.domain_octets.specs.Octets.{refilled, Octets};

use crate::{
    AppendError, CopyOctets, EmptyBuilder, FreezeBuilder, FromBuilder, Octets, OctetsBuilder,
    OutOfMemory, Truncate, TryClone,
};
use arrayvec::ArrayVec;
use std::alloc::Global;
use std::marker::Model;

/// At most `K` octets, stored in the value itself.
#[derive(Drop)]
pub struct ArrayBuilder<const K: usize> {
    octets: ArrayVec<u8, K>,
}

impl<const K: usize> Model for ArrayBuilder<K> {
    ghost Value = { Octets };

    ghost view = { λ b. b.octets.items };
}

impl<const K: usize> ArrayBuilder<K> {
    /// Returns a builder without octets. Does not allocate.
    pub fn new() -> Self
        ensures { result ≡ [] }
    {
        ArrayBuilder {
            octets: ArrayVec::new(),
        }
    }
}

impl<const K: usize> TryClone for ArrayBuilder<K> {
    ghost is_clone = { λ b copy. copy ≡ b };

    /// Returns a copy. Does not allocate.
    fn try_clone(&self) -> Result<Self, OutOfMemory>
        ensures copy { IfOk result (λ copy. copy ≡ self.now) }
        ensures always { IsOk result }
    {
        Ok(ArrayBuilder {
            octets: self.octets.clone()?,
        })
    }
}

impl<const K: usize> Octets for ArrayBuilder<K> {
    ghost octets = { λ b. b };

    ghost clone_octets = { λ b copy same. same };

    fn as_slice(&self) -> &[u8] {
        self.octets.as_slice()
    }
}

impl<const K: usize> OctetsBuilder for ArrayBuilder<K> {
    ghost limit = { Some K };

    ghost with_octets = { λ b xs. refill (length b) b xs };

    fn append_slice(&mut self, slice: &[u8]) -> Result<(), AppendError> {
        match self.octets.try_extend_from_slice(slice) {
            Ok(()) => Ok(()),
            Err(_) => Err(AppendError::ShortBuf),
        }
    }

    fn as_mut_slice(&mut self) -> &mut [u8] {
        self.octets.as_mut_slice()
    }

    ghost has_octets = { λ b xs same. refilled (length b) b xs (sym same) };
}

impl<const K: usize> EmptyBuilder for ArrayBuilder<K> {
    fn empty(_alloc: Global) -> Self {
        Self::new()
    }
}

impl<const K: usize> Truncate for ArrayBuilder<K> {
    fn truncate(&mut self, len: usize) {
        self.octets.truncate(len);
    }
}

impl<const K: usize> FreezeBuilder for ArrayBuilder<K> {
    type Frozen = ArrayBuilder<K>;

    fn freeze(self) -> Self {
        self
    }
}

impl<const K: usize> FromBuilder for ArrayBuilder<K> {
    type Builder = ArrayBuilder<K>;

    fn from_builder(builder: Self) -> Self {
        builder
    }

    fn from_octets(alloc: Global, octets: &[u8]) -> Result<Self, AppendError> {
        Self::copy_octets(alloc, octets)
    }
}
