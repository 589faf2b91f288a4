//! Empty octets, and octets that are copied or converted from others.
ghost use Rattle.std.specs.Prelude.{◌≡◌, ℕ, ◌↔◌, [], Option, None, Some, length, IfOk, IsNone, IsErrOf};
ghost use Rattle.domain_octets.specs.Octets.{IsOver};

use crate::{AppendError, ArrayBuilder, Octets, OctetsBuilder};
use bytes::Bytes;
use std::alloc::Global;

/// Octets that can be empty.
pub trait EmptyOctets: Octets {
    /// Returns an empty value. Does not allocate.
    fn empty(alloc: Global) -> Self
    where
        Self: Sized,
        ensures { Self.octets result ≡ [] };
}

/// Octets that can be copied from others.
pub trait CopyOctets: Octets {
    /// The greatest number of octets that fit. None: no limit, and memory is allocated for them.
    ghost capacity: { Option ℕ };

    /// Returns a copy of these octets. Returns `ShortBuf` if there is no room for them, and
    /// `OutOfMemory` if there is no memory.
    fn copy_octets(alloc: Global, octets: &[u8]) -> Result<Self, AppendError>
    where
        Self: Sized,
        ensures ok { IfOk result (λ copy. Self.octets copy ≡ octets.now) }
        ensures short { IsErrOf result AppendError.ShortBuf ↔ IsOver capacity (length octets.now) }
        ensures memory { IsErrOf result AppendError.OutOfMemory → IsNone capacity };
}

/// A value that can be made from another one, over other octets.
pub trait OctetsFrom<S> {
    /// The two are the same value.
    ghost is_same: { S → Self → Type 0 };

    /// Whether the value does not fit.
    ghost has_no_room: { S → Type 0 };

    /// Whether memory is allocated for the value.
    ghost takes_memory: { Type 0 };

    /// Returns the same value over octets of this type. Returns `ShortBuf` if there is no room for
    /// it, and `OutOfMemory` if there is no memory.
    fn try_octets_from(alloc: Global, source: S) -> Result<Self, AppendError>
    where
        Self: Sized,
        ensures ok { IfOk result (is_same source) }
        ensures short { IsErrOf result AppendError.ShortBuf ↔ has_no_room source }
        ensures memory { IsErrOf result AppendError.OutOfMemory → takes_memory };
}

/// A value that can be turned into one over other octets.
pub trait FlattenInto<T> {
    /// The two are the same value.
    ghost is_same: { Self → T → Type 0 };

    /// Whether the value does not fit.
    ghost has_no_room: { Self → Type 0 };

    /// Whether memory is allocated for the value.
    ghost takes_memory: { Type 0 };

    /// Returns the same value over octets of the target type. Returns `ShortBuf` if there is no
    /// room for it, and `OutOfMemory` if there is no memory.
    fn try_flatten_into(self, alloc: Global) -> Result<T, AppendError>
    where
        Self: Sized,
        ensures ok { IfOk result (is_same self) }
        ensures short { IsErrOf result AppendError.ShortBuf ↔ has_no_room self }
        ensures memory { IsErrOf result AppendError.OutOfMemory → takes_memory };
}

impl EmptyOctets for Vec<u8> {
    fn empty(alloc: Global) -> Vec<u8> {
        Vec::new(alloc)
    }
}

impl<'a> EmptyOctets for &'a [u8] {
    fn empty(_alloc: Global) -> &'a [u8] {
        &[]
    }
}

impl EmptyOctets for Bytes {
    fn empty(_alloc: Global) -> Bytes {
        Bytes::new()
    }
}

impl CopyOctets for Vec<u8> {
    ghost capacity = { None };

    fn copy_octets(alloc: Global, octets: &[u8]) -> Result<Vec<u8>, AppendError> {
        Ok(Vec::from_slice(alloc, octets)?)
    }
}

impl CopyOctets for Bytes {
    ghost capacity = { None };

    fn copy_octets(alloc: Global, octets: &[u8]) -> Result<Bytes, AppendError> {
        Ok(Bytes::copy_from_slice(alloc, octets)?)
    }
}

impl<const K: usize> CopyOctets for ArrayBuilder<K> {
    ghost capacity = { Some K };

    fn copy_octets(_alloc: Global, octets: &[u8]) -> Result<ArrayBuilder<K>, AppendError> {
        let mut made = ArrayBuilder::new();
        made.append_slice(octets)?;
        Ok(made)
    }
}

impl<S: Octets + Drop, O: CopyOctets> OctetsFrom<S> for O {
    ghost is_same = { λ source made. O.octets made ≡ S.octets source };

    ghost has_no_room = { λ source. IsOver O.capacity (length (S.octets source)) };

    ghost takes_memory = { IsNone O.capacity };

    fn try_octets_from(alloc: Global, source: S) -> Result<O, AppendError> {
        O::copy_octets(alloc, source.as_slice())
    }
}

/// A value turns into each type that can be made from it.
impl<S, T: OctetsFrom<S>> FlattenInto<T> for S {
    ghost is_same = { λ source made. T.OctetsFrom.is_same source made };

    ghost has_no_room = { λ source. T.OctetsFrom.has_no_room source };

    ghost takes_memory = { T.OctetsFrom.takes_memory };

    fn try_flatten_into(self, alloc: Global) -> Result<T, AppendError> {
        T::try_octets_from(alloc, self)
    }
}
