//! Names that own their octets, and the labels of a name.
ghost use Rattle.std.specs.{Iterator.{YieldsFirstRef, item_count}, Prelude.{◌≡◌, ◌↔◌, Some, refl, IsOk, IfOk}};
ghost use Rattle.std.specs.{Prelude.{IfErr, IsNone, length, ◌∷◌, ◌++◌, []}, Cmp.partial_equiv_from_equiv};
ghost use Rattle.std.specs.{Cmp.IsTotalOrder, declared.cmp.Ordering.Ordering};
ghost use Rattle.domain_names.specs.Name.{wire_of, lowered, same_name, canonical_cmp, canonical_cmp_total};
ghost use Rattle.domain_names.specs.{Name.Name, Text.{name_text, NameText, NameTextFault, scan_fault_of}};
ghost use Rattle.domain_names.specs.Laws.{same_name_equiv, same_name_ties, same_name_fed, canonical_po};
ghost use Rattle.domain_names.specs.Wire.{WholeNameFault, fault_of, labels_of, IsWire};
ghost use Rattle.domain_octets.specs.{Octets.IsOver, Text.dot};
ghost use Rattle.std.specs.Hash as fed;

use crate::{MakeName, ParseError, ParsedName, ScanError, ToName, text, wire};
use domain_octets::{
    AppendError, ArrayBuilder, CopyOctets, FromBuilder, Octets, OctetsBuilder, OctetsFrom,
    OutOfMemory, SmallOctets, TryClone,
};
use std::alloc::Global;
use std::cmp::Ordering;
use std::fmt;
use std::hash::{Hash, Hasher};
use std::marker::Model;

/// An iterator over labels, leaf first, without the root.
#[derive(Drop)]
pub struct Labels<'a> {
    pub(crate) left: ParsedName<'a>,
}

impl<'a> Model for Labels<'a> {
    ghost use Rattle.domain_names.specs.Name.{Name};

    ghost Value = { Name };

    ghost view = { λ s. s.left };
}

impl<'a> Iterator for Labels<'a> {
    type Item = &'a [u8];

    ghost next_gives = { YieldsFirstRef (λ labels. labels) };

    ghost remaining = { item_count (λ labels. labels) };

    fn next(&mut self) -> Option<&'a [u8]> {
        let (label, above) = self.left.split_first()?;
        self.left = above;
        Some(label)
    }
}

/// An absolute name in octets that hold its wire form. The case of letters is kept.
///
/// Comparisons and `Hash` ignore the case of letters (RFC 4343).
#[derive(Drop)]
pub struct Name<O: Octets> {
    octets: O,
}

impl<O: Octets> Model for Name<O> {
    ghost Value = { Name };

    ghost view = { λ n. labels_of (O.octets n.octets) };

    ghost invariant = { λ n. IsWire (O.octets n.octets) };
}

impl<O: Octets> Name<O> {
    /// Returns the name with this wire form (RFC 1035, section 3.1). Does not allocate.
    ///
    /// # Errors
    ///
    /// The first fault decides: `ShortInput` if an octet is missing, `Form("compressed or bad
    /// label")` at a length over 63, `Form("long domain name")` at more than 255 octets, and
    /// `Form("trailing data")` if octets follow the name.
    #[tactic(auto, using(crate::proofs::WireLemmas::no_fault))]
    pub fn from_octets(octets: O) -> Result<Self, ParseError>
    where
        O: Drop,
        ensures ok { IsOk result ↔ IsWire (O.octets octets) }
        ensures labels { IfOk result (λ name. O.octets octets ≡ wire_of name) }
        ensures err { IfErr result (λ e. WholeNameFault (O.octets octets) (fault_of e)) }
    {
        wire::check(octets.as_slice())?;
        Ok(Name { octets })
    }

    /// Returns the name with this wire form.
    pub(crate) fn from_wire(octets: O) -> Self
        requires { IsWire (O.octets octets) }
        ensures { result ≡ labels_of (O.octets octets) }
    {
        Name { octets }
    }

    /// Returns a copy with the same spelling. Uses the allocator of the octets.
    pub fn clone(&self) -> Result<Self, OutOfMemory>
        ensures { IfOk result (λ copy. copy ≡ self.now) }
    {
        Ok(Name {
            octets: self.octets.try_clone()?,
        })
    }

    /// Returns the octets of the wire form.
    pub fn into_octets(self) -> O
        ensures { O.octets result ≡ wire_of self }
    {
        let Name { octets } = self;
        octets
    }
}

impl<O: FromBuilder> Name<O> {
    /// Parses the presentation format of a name (RFC 1035, section 5.1). The last dot is optional:
    /// the name is absolute in either case. Stops at the first character that is not allowed.
    ///
    /// # Errors
    ///
    /// `Custom("illegal name")` if the text is not a name, `ShortBuf` if the builder has no room
    /// for the name, and `OutOfMemory` if there is no memory.
    #[tactic(auto, using(crate::proofs::WireLemmas::wire_steps))]
    pub fn from_str(alloc: Global, text: &str) -> Result<Self, ScanError>
        ensures ok { IfOk result (NameText text.now) }
        ensures err { IfErr result (λ e. NameTextFault O.Builder.limit (scan_fault_of e) text.now) }
    {
        let mut wire = ArrayBuilder::new();
        if text::read_name(&mut wire, text.as_bytes()).is_none() {
            return Err(ScanError::Custom("illegal name"));
        }
        let octets = O::from_octets(alloc, wire.as_slice())?;
        Ok(Name { octets })
    }
}

impl MakeName for Name<Vec<u8>> {
    fn make(alloc: Global, wire: &[u8]) -> Result<Self, OutOfMemory> {
        Ok(Name {
            octets: Vec::from_slice(alloc, wire)?,
        })
    }
}

impl MakeName for Name<SmallOctets> {
    fn make(alloc: Global, wire: &[u8]) -> Result<Self, OutOfMemory> {
        Ok(Name {
            octets: SmallOctets::from_slice(alloc, wire)?,
        })
    }
}

impl<O: Octets> TryClone for Name<O> {
    ghost is_clone = { λ n copy. copy ≡ n };

    fn try_clone(&self) -> Result<Self, OutOfMemory> {
        self.clone()
    }
}

impl<O: Octets> ToName for Name<O> {
    ghost labels = { λ n. n };

    ghost clone_labels = { λ n copy same. same };

    fn as_wire(&self) -> &[u8] {
        self.octets.as_slice()
    }
}

impl<O: Octets> PartialEq for Name<O> {
    ghost eq = { same_name };

    ghost laws = { partial_equiv_from_equiv same_name_equiv };

    fn eq(&self, other: &Self) -> bool {
        self.name_eq(other)
    }
}

impl<O: Octets> Eq for Name<O> {
    ghost laws = { same_name_equiv };
}

impl<O: Octets> PartialOrd for Name<O> {
    ghost partial_cmp = { λ a b. Some (canonical_cmp a b) };

    ghost laws = { canonical_po };

    fn partial_cmp(&self, other: &Self) -> Option<Ordering> {
        Some(self.name_cmp(other))
    }
}

impl<O: Octets> Ord for Name<O> {
    ghost cmp = { canonical_cmp };

    ghost total = { canonical_cmp_total };

    ghost matches_partial_cmp = { λ a b. refl };

    ghost matches_eq = { same_name_ties };

    fn cmp(&self, other: &Self) -> Ordering {
        self.name_cmp(other)
    }
}

impl<O: Octets> Hash for Name<O> {
    ghost hash_input = { λ n. fed.slice fed.u8 (wire_of (lowered n)) };

    ghost respects_eq = { (same_name_fed (λ labels. fed.slice fed.u8 (wire_of labels))).fed };

    fn hash<H: Hasher>(&self, state: &mut H) {
        wire::hash(self.as_wire(), state);
    }
}

impl<O: Octets> fmt::Display for Name<O> {
    ghost output = { λ n. Some (name_text n) };

    fn fmt<W: fmt::Write>(&self, f: &mut fmt::Formatter<W>) -> fmt::Result {
        text::write_name(self.as_wire(), f)
    }
}

impl<O: Octets> fmt::Debug for Name<O> {
    fn fmt<W: fmt::Write>(&self, f: &mut fmt::Formatter<W>) -> fmt::Result {
        let name = self.fmt_with_dot();
        write!(f, "Name({name})")
    }
}

impl<N: ToName + Drop, O: CopyOctets> OctetsFrom<N> for Name<O> {
    ghost is_same = { λ source made. made ≡ N.labels source };

    ghost has_no_room = { λ source. IsOver O.capacity (length (wire_of (N.labels source))) };

    ghost takes_memory = { IsNone O.capacity };

    fn try_octets_from(alloc: Global, source: N) -> Result<Self, AppendError> {
        Ok(Name::from_wire(O::copy_octets(alloc, source.as_wire())?))
    }
}

/// A type with a canonical order: the total order of DNSSEC (RFC 4034, section 6).
///
/// This order may differ from the type's `Ord`, and it may distinguish values that are equal.
pub trait CanonicalOrd {
    /// The order, as a function of two values.
    ghost canonical_cmp: { Self → Self → Ordering };

    /// Compares in canonical order. Does not allocate.
    fn canonical_cmp(&self, other: &Self) -> Ordering
        ensures { result ≡ canonical_cmp self.now other.now };

    /// The order is total.
    ghost total: { IsTotalOrder canonical_cmp };
}

/// A name that prints with its last dot. The root prints as a single dot.
#[derive(Drop)]
pub struct DottedName<'a> {
    pub(crate) name: ParsedName<'a>,
}

impl<'a> Model for DottedName<'a> {
    ghost use Rattle.domain_names.specs.Name.{Name};

    ghost Value = { Name };

    ghost view = { λ n. n.name };
}

impl<'a> fmt::Display for DottedName<'a> {
    ghost output = { λ n. Some (name_text n ++ dot ∷ []) };

    fn fmt<W: fmt::Write>(&self, f: &mut fmt::Formatter<W>) -> fmt::Result {
        text::write_dotted(self.name.as_wire(), f)
    }
}
