//! Values that can be read as one slice of octets.
ghost use Rattle.std.specs.Prelude.{◌≡◌, IfOk, IsOk};
ghost use Rattle.domain_octets.specs.Octets.{Octets};

use crate::OutOfMemory;
use bytes::Bytes;

/// A value that can be copied. A copy may allocate.
pub trait TryClone {
    /// The second value is a copy of the first.
    ghost is_clone: { Self → Self → Type 0 };

    /// Returns a copy. Returns `OutOfMemory` if there is no memory for it.
    fn try_clone(&self) -> Result<Self, OutOfMemory>
    where
        Self: Sized,
        ensures { IfOk result (is_clone self.now) };
}

/// A value that can be read as octets.
pub trait Octets: TryClone {
    /// The octets.
    ghost octets: { Self → Octets };

    /// Returns the octets as one slice.
    fn as_slice(&self) -> &[u8]
        ensures { result.now ≡ octets self.now };

    /// A copy has the same octets.
    ghost clone_octets: { (value copy : Self) → Self.is_clone value copy
        → octets copy ≡ octets value };
}

impl TryClone for Vec<u8> {
    ghost is_clone = { λ v copy. copy.items ≡ v.items };

    fn try_clone(&self) -> Result<Vec<u8>, OutOfMemory> {
        Ok(self.clone()?)
    }
}

impl TryClone for Bytes {
    ghost is_clone = { λ b copy. copy ≡ b };

    fn try_clone(&self) -> Result<Bytes, OutOfMemory> {
        Ok(self.clone()?)
    }
}

impl<'a> TryClone for &'a [u8] {
    ghost is_clone = { λ s copy. copy.now ≡ s.now };

    /// Returns the slice itself. Does not allocate.
    fn try_clone(&self) -> Result<&'a [u8], OutOfMemory>
        ensures copy { IfOk result (λ copy. copy.now ≡ self.now.now) }
        ensures always { IsOk result }
    {
        Ok(*self)
    }
}

impl Octets for Vec<u8> {
    ghost octets = { λ v. v.items };

    ghost clone_octets = { λ v copy same. same };

    fn as_slice(&self) -> &[u8] {
        Vec::as_slice(self)
    }
}

impl Octets for Bytes {
    ghost octets = { λ b. b };

    ghost clone_octets = { λ b copy same. same };

    fn as_slice(&self) -> &[u8] {
        Bytes::as_slice(self)
    }
}

impl<'a> Octets for &'a [u8] {
    ghost octets = { λ s. s.now };

    ghost clone_octets = { λ s copy same. same };

    fn as_slice(&self) -> &[u8] {
        self
    }
}
