//! Octets of a kind that is checked: bitmaps, salts and hashes.
ghost use Rattle.std.specs.Prelude.{◌≡◌, ◌↔◌, Some, IsTrue, IfOk, IsNone, refl, bytes_eq, length};
ghost use Rattle.std.specs.{declared.cmp.Ordering.Ordering, Ordering.nat_cmp};
ghost use Rattle.std.specs.Cmp.{IsTotalOrder, partial_equiv_from_equiv, po};
ghost use Rattle.std.specs.Cmp.Lexicographic.{slice_cmp, nat_list_cmp_total, nat_list_eq_equiv, texts_ties};
ghost use Rattle.std.specs.Hash as fed;
ghost use Rattle.domain_octets.specs.Octets.{IsOver, Octets};
ghost use Rattle.domain_bitmap.specs.Blocks.{octets_fed};

use domain_base::CanonicalOrd;
use domain_octets::{AppendError, CopyOctets, Octets, OctetsFrom, OutOfMemory, TryClone};
use std::alloc::Global;
use std::cmp::Ordering;
use std::hash::{Hash, Hasher};
use std::marker::{Model, PhantomData};

/// A kind of octets: a condition on them, and their canonical order.
pub trait OctetsKind {
    /// The greatest length, in octets.
    const MAX_LEN: usize;

    /// Whether octets are of this kind.
    ghost holds: { Octets → Type 0 };

    /// The canonical order of octets of this kind.
    ghost order: { Octets → Octets → Ordering };

    /// Returns the canonical order of octets of this kind.
    fn order(a: &[u8], b: &[u8]) -> Ordering
        ensures { result ≡ order a.now b.now };

    ghost total: { IsTotalOrder order };
}

/// Octets of kind `K`. Contracts see the octets.
#[derive(Drop)]
pub struct CheckedOctets<O: Octets, K: OctetsKind> {
    octets: O,
    kind: PhantomData<K>,
}

impl<O: Octets, K: OctetsKind> Model for CheckedOctets<O, K> {
    ghost Value = { Octets };

    ghost view = { λ c. O.octets c.octets };

    ghost invariant = { λ c. K.holds (O.octets c.octets) };
}

impl<O: Octets, K: OctetsKind> CheckedOctets<O, K> {
    /// The greatest length, in octets.
    pub const MAX_LEN: usize = K::MAX_LEN;

    /// Returns the value with these octets, which must be of the kind. Does not allocate.
    pub fn from_octets_unchecked(octets: O) -> Self
        requires { K.holds (O.octets octets) }
        ensures { result ≡ O.octets octets }
    {
        CheckedOctets {
            octets,
            kind: PhantomData,
        }
    }

    /// Returns the same value over an equal list of octets. Does not allocate.
    pub fn with_octets<P: Octets>(&self, octets: P) -> CheckedOctets<P, K>
        requires { P.octets octets ≡ self.now }
        ensures { result ≡ self.now }
    {
        let _ = &self.octets;
        CheckedOctets::from_octets_unchecked(octets)
    }

    /// Returns the octets.
    pub fn as_octets(&self) -> &O
        ensures { O.octets result.now ≡ self.now }
    {
        &self.octets
    }

    /// Returns the octets.
    pub fn into_octets(self) -> O
        ensures { O.octets result ≡ self }
    {
        let CheckedOctets { octets, kind: _ } = self;
        octets
    }

    /// Returns the octets as one slice. They are of the kind.
    pub fn as_slice(&self) -> &[u8]
        ensures octets { result.now ≡ self.now }
        ensures holds { K.holds self.now }
    {
        self.octets.as_slice()
    }

    /// Returns a copy. Uses the allocator of the octets.
    pub fn clone(&self) -> Result<Self, OutOfMemory>
        ensures { IfOk result (λ copy. copy ≡ self.now) }
    {
        Ok(self.with_octets(self.octets.try_clone()?))
    }

    /// Returns whether other octets are the same.
    pub fn eq_to<P: Octets>(&self, other: &P) -> bool
        ensures value { result ≡ bytes_eq self.now (P.octets other.now) }
        ensures same { IsTrue result ↔ (self.now ≡ P.octets other.now) }
    {
        self.as_slice() == other.as_slice()
    }

    /// Returns the lexicographic order to other octets.
    pub fn cmp_to<P: Octets>(&self, other: &P) -> Ordering
        ensures { result ≡ slice_cmp nat_cmp self.now (P.octets other.now) }
    {
        self.as_slice().cmp(other.as_slice())
    }

    /// Returns the canonical order. The two values may hold their octets in different types.
    pub fn canonical_cmp_to<P: Octets>(&self, other: &CheckedOctets<P, K>) -> Ordering
        ensures { result ≡ K.order self.now other.now }
    {
        K::order(self.as_slice(), other.as_slice())
    }
}

impl<O: Octets, K: OctetsKind> TryClone for CheckedOctets<O, K> {
    ghost is_clone = { λ c copy. copy ≡ c };

    fn try_clone(&self) -> Result<Self, OutOfMemory> {
        self.clone()
    }
}

impl<O: Octets, K: OctetsKind> Octets for CheckedOctets<O, K> {
    ghost octets = { λ c. c };

    ghost clone_octets = { λ c copy same. same };

    fn as_slice(&self) -> &[u8] {
        CheckedOctets::as_slice(self)
    }
}

impl<O: Octets, K: OctetsKind> PartialEq for CheckedOctets<O, K> {
    ghost eq = { bytes_eq };

    ghost laws = { partial_equiv_from_equiv nat_list_eq_equiv };

    fn eq(&self, other: &Self) -> bool {
        self.eq_to(other)
    }
}

impl<O: Octets, K: OctetsKind> Eq for CheckedOctets<O, K> {
    ghost laws = { nat_list_eq_equiv };
}

/// The lexicographic order of the octets.
impl<O: Octets, K: OctetsKind> PartialOrd for CheckedOctets<O, K> {
    ghost partial_cmp = { λ a b. Some (slice_cmp nat_cmp a b) };

    ghost laws = { po nat_list_cmp_total texts_ties };

    fn partial_cmp(&self, other: &Self) -> Option<Ordering> {
        Some(self.cmp_to(other))
    }
}

/// The lexicographic order of the octets.
impl<O: Octets, K: OctetsKind> Ord for CheckedOctets<O, K> {
    ghost cmp = { slice_cmp nat_cmp };

    ghost total = { nat_list_cmp_total };

    ghost matches_partial_cmp = { λ a b. refl };

    ghost matches_eq = { texts_ties };

    fn cmp(&self, other: &Self) -> Ordering {
        self.cmp_to(other)
    }
}

impl<O: Octets, K: OctetsKind> CanonicalOrd for CheckedOctets<O, K> {
    ghost canonical_cmp = { K.order };

    ghost total = { K.total };

    fn canonical_cmp(&self, other: &Self) -> Ordering {
        self.canonical_cmp_to(other)
    }
}

impl<O: Octets, K: OctetsKind> Hash for CheckedOctets<O, K> {
    ghost hash_input = { fed.slice fed.u8 };

    ghost respects_eq = { octets_fed.fed };

    fn hash<H: Hasher>(&self, state: &mut H) {
        self.as_slice().hash(state);
    }
}

impl<S: Octets + Drop, O: CopyOctets, K: OctetsKind> OctetsFrom<CheckedOctets<S, K>>
    for CheckedOctets<O, K> {
    ghost is_same = { λ source made. made ≡ source };

    ghost has_no_room = { λ source. IsOver O.capacity (length source) };

    ghost takes_memory = { IsNone O.capacity };

    fn try_octets_from(alloc: Global, source: CheckedOctets<S, K>) -> Result<Self, AppendError> {
        let octets = O::copy_octets(alloc, source.as_slice())?;
        Ok(source.with_octets(octets))
    }
}
