//! The trait of all names.
ghost use Rattle.std.specs.Prelude.{◌≡◌, ◌≤◌, [], ◌↔◌, IsTrue, length, ◌++◌, IsErrOf, OnOk, OnErr, IfOk, ◌+◌, IsNone};
ghost use Rattle.std.specs.Ordering.{nat_cmp};
ghost use Rattle.std.specs.Cmp.Lexicographic.{slice_cmp};
ghost use Rattle.domain_octets.specs.Octets.{IsOver};
ghost use Rattle.domain_names.specs.Name.{wire_of, lowered, IsSame, same_name, IsAtOrBelow, is_at_or_below};
ghost use Rattle.domain_names.specs.Name.{last_labels, parent_of, canonical_cmp, common_labels, Name};
ghost use Rattle.domain_names.specs.Wire.{labels_of, IsWire};

use crate::{DottedName, Labels, ParsedName, part, wire};
use domain_octets::{AppendError, OctetsBuilder, OutOfMemory, TryClone};
use std::alloc::Global;
use std::cmp::Ordering;

/// The result of comparing two names.
#[derive(Clone, Copy, Debug, PartialEq, Eq)]
pub struct Comparison {
    /// The canonical order of the two names (RFC 4034, section 6.1).
    pub order: Ordering,
    /// The number of labels that both share, from the root on, in either case. The root does not
    /// count.
    pub common: usize,
}

/// An absolute name: a list of labels, leaf first, without the root.
pub trait ToName: TryClone {
    /// The labels.
    ghost labels: { Self → Name };

    /// Returns the wire form, without compression.
    fn as_wire(&self) -> &[u8]
        ensures wire { IsWire result.now }
        ensures labels { labels_of result.now ≡ labels self.now };

    /// A copy has the same labels, with the same spelling.
    ghost clone_labels: { (name copy : Self) → Self.is_clone name copy
        → labels copy ≡ labels name };

    /// Returns the labels, leaf first, without the root.
    #[tactic(auto, using(crate::proofs::WireLemmas::few_labels))]
    final fn labels(&self) -> Labels<'_>
    where
        Self: Sized,
        ensures labels { result ≡ labels self.now }
        ensures few { length result ≤ 127 }
    {
        Labels {
            left: self.as_parsed(),
        }
    }

    /// Returns the number of labels. The root does not count. Does not allocate.
    #[tactic(auto, using(crate::proofs::WireLemmas::few_labels))]
    final fn count_labels(&self) -> usize
    where
        Self: Sized,
        ensures count { result ≡ length (labels self.now) }
        ensures few { result ≤ 127 }
    {
        wire::count_labels(self.as_wire())
    }

    /// Returns whether the name is the root.
    final fn is_root(&self) -> bool
    where
        Self: Sized,
        ensures { IsTrue result ↔ (labels self.now ≡ []) }
    {
        self.count_labels() == 0
    }

    /// Returns the name without its first label, in the same octets, or None for the root
    /// (RFC 9499, section 7). Does not allocate.
    final fn parent(&self) -> Option<ParsedName<'_>>
    where
        Self: Sized,
        ensures { result ≡ parent_of (labels self.now) }
    {
        self.as_parsed().parent()
    }

    /// Returns a value that prints the name with its last dot. The name itself prints without it.
    final fn fmt_with_dot(&self) -> DottedName<'_>
    where
        Self: Sized,
        ensures { result ≡ labels self.now }
    {
        DottedName {
            name: self.as_parsed(),
        }
    }

    /// Returns the name over its borrowed wire form. Does not allocate.
    final fn as_parsed(&self) -> ParsedName<'_>
    where
        Self: Sized,
        ensures { result ≡ labels self.now }
    {
        ParsedName::over(self.as_wire())
    }

    /// Returns the length of the wire form in octets.
    final fn compose_len(&self) -> u16
    where
        Self: Sized,
        ensures { result ≡ length (wire_of (labels self.now)) }
    {
        self.as_wire().len() as u16
    }

    /// Returns the last `count` labels of the name, or the whole name if it has fewer. Does not
    /// allocate.
    final fn last_labels(&self, count: usize) -> ParsedName<'_>
    where
        Self: Sized,
        ensures { result ≡ last_labels count (labels self.now) }
    {
        let above = self.count_labels().saturating_sub(count);
        ParsedName::over(wire::skip_labels(self.as_wire(), above))
    }

    /// Returns whether the names differ at most in the case of letters (RFC 4343, section 3). Does
    /// not allocate.
    final fn name_eq<N: ToName>(&self, other: &N) -> bool
    where
        Self: Sized,
        ensures value { result ≡ same_name (labels self.now) (N.labels other.now) }
        ensures same { IsTrue result ↔ IsSame (labels self.now) (N.labels other.now) }
    {
        wire::is_same(self.as_wire(), other.as_wire())
    }

    /// Returns the canonical order of names: by labels from the root, octet by octet, with A to Z
    /// lowered. An absent label or octet comes first (RFC 4034, section 6.1). Does not allocate.
    final fn name_cmp<N: ToName>(&self, other: &N) -> Ordering
    where
        Self: Sized,
        ensures { result ≡ canonical_cmp (labels self.now) (N.labels other.now) }
    {
        part::canonical_cmp(self.as_wire(), other.as_wire())
    }

    /// Returns the order of the wire forms, octet by octet.
    #[tactic(auto, using(crate::proofs::WireLemmas::wire_is))]
    final fn composed_cmp<N: ToName>(&self, other: &N) -> Ordering
    where
        Self: Sized,
        ensures { result ≡ slice_cmp nat_cmp (wire_of (labels self.now))
            (wire_of (N.labels other.now)) }
    {
        self.as_wire().cmp(other.as_wire())
    }

    /// Returns the order of the wire forms with A to Z lowered, octet by octet.
    #[tactic(auto, using(crate::proofs::OrderLemmas::lowered_wire))]
    final fn lowercase_composed_cmp<N: ToName>(&self, other: &N) -> Ordering
    where
        Self: Sized,
        ensures { result ≡ slice_cmp nat_cmp (wire_of (lowered (labels self.now)))
            (wire_of (lowered (N.labels other.now))) }
    {
        wire::lowered_octets_cmp(self.as_wire(), other.as_wire())
    }

    /// Returns whether the name is at or below another: whether it ends in the other's labels, in
    /// either case (RFC 9499, section 2). Does not allocate.
    final fn ends_with<N: ToName>(&self, base: &N) -> bool
    where
        Self: Sized,
        ensures value { result ≡ is_at_or_below (labels self.now) (N.labels base.now) }
        ensures below { IsTrue result ↔ IsAtOrBelow (labels self.now) (N.labels base.now) }
    {
        part::is_at_or_below(self.as_wire(), base.as_wire())
    }

    /// Returns how many labels the names share, from the root on, in either case. The root does not
    /// count. Does not allocate.
    final fn common_labels<N: ToName>(&self, other: &N) -> usize
    where
        Self: Sized,
        ensures { result ≡ common_labels (labels self.now) (N.labels other.now) }
    {
        self.compare(other).common
    }

    /// Returns the canonical order of the names and how many labels they share: the results of
    /// `name_cmp` and `common_labels` in one pass. Does not allocate.
    final fn compare<N: ToName>(&self, other: &N) -> Comparison
    where
        Self: Sized,
        ensures order { result.order ≡ canonical_cmp (labels self.now) (N.labels other.now) }
        ensures common { result.common ≡ common_labels (labels self.now) (N.labels other.now) }
    {
        part::compare(self.as_wire(), other.as_wire())
    }

    /// Writes the wire form with A to Z lowered to the front of a buffer (RFC 4034, section 6.2).
    /// Does not allocate.
    #[tactic(auto, using(std::proofs::lemmas::Grind::common_steps, crate::proofs::OrderLemmas::lowered_wire))]
    final fn lower_wire<'b>(&self, buffer: &'b mut [u8; wire::MAX_NAME]) -> &'b [u8]
    where
        Self: Sized,
        ensures octets { result.now ≡ wire_of (lowered (labels self.now)) }
        ensures length { length result.now ≡ length (wire_of (labels self.now)) }
    {
        let wire = self.as_wire();
        let lowered = &mut buffer[..wire.len()];
        lowered.copy_from_slice(wire);
        lowered.make_ascii_lowercase();
        lowered
    }

    /// Appends the whole wire form. After an error nothing is appended.
    final fn compose<B: OctetsBuilder>(&self, target: &mut B) -> Result<(), AppendError>
    where
        Self: Sized,
        ensures ok { OnOk result (B.octets target.new ≡ B.octets target.old
            ++ wire_of (labels self.now)) }
        ensures err { OnErr result (B.octets target.new ≡ B.octets target.old) }
        ensures short { IsErrOf result AppendError.ShortBuf
            ↔ IsOver B.limit (length (B.octets target.old) + length (wire_of (labels self.now))) }
        ensures memory { IsErrOf result AppendError.OutOfMemory → IsNone B.limit }
    {
        target.append_slice(self.as_wire())
    }

    /// Appends the whole wire form with A to Z lowered (RFC 4034, section 6.2). After an error
    /// nothing is appended.
    final fn compose_canonical<B: OctetsBuilder>(&self, target: &mut B) -> Result<(), AppendError>
    where
        Self: Sized,
        ensures ok { OnOk result (B.octets target.new ≡ B.octets target.old
            ++ wire_of (lowered (labels self.now))) }
        ensures err { OnErr result (B.octets target.new ≡ B.octets target.old) }
        ensures short { IsErrOf result AppendError.ShortBuf
            ↔ IsOver B.limit (length (B.octets target.old) + length (wire_of (labels self.now))) }
        ensures memory { IsErrOf result AppendError.OutOfMemory → IsNone B.limit }
    {
        let mut buffer = [0; wire::MAX_NAME];
        target.append_slice(self.lower_wire(&mut buffer))
    }
}

/// A name that can be made from its wire form.
pub trait MakeName: ToName {
    /// Returns the name with this wire form (RFC 1035, section 3.1), in its own octets.
    fn make(alloc: Global, wire: &[u8]) -> Result<Self, OutOfMemory>
    where
        Self: Sized,
        requires { IsWire wire.now }
        ensures { IfOk result (λ name. Self.labels name ≡ labels_of wire.now) };
}
