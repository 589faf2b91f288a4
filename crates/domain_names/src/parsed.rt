//! Names that borrow their octets from a message or from another name.
ghost use Rattle.std.specs.Prelude.{◌≡◌, ◌∷◌, [], Some, IsOk, IfNone, IfSome, IfOk, IfErr, OnErr, refl};
ghost use Rattle.std.specs.Cmp.{partial_equiv_from_equiv};
ghost use Rattle.domain_names.specs.Name.{same_name, canonical_cmp, canonical_cmp_total};
ghost use Rattle.domain_names.specs.Laws.{same_name_equiv, same_name_ties, canonical_po};
ghost use Rattle.domain_names.specs.{Text.name_text, Name.{wire_of, IsName, parent_of}, Wire.NameFault};
ghost use Rattle.domain_names.specs.Wire.{WholeNameFault, fault_of, name_fault_of, labels_of, IsWire};
ghost use Rattle.domain_octets.specs.Octets.{Takes};

use crate::{NameError, ParseError, ToName, text, wire};
use domain_octets::{OutOfMemory, Parser, TryClone};
use std::cmp::Ordering;
use std::fmt;
use std::marker::Model;

/// A name that borrows its octets from a message or from another name. The end of a name's octets
/// is a name above it.
#[derive(Drop)]
pub struct ParsedName<'a> {
    wire: &'a [u8],
}

impl<'a> Model for ParsedName<'a> {
    ghost use Rattle.domain_names.specs.{Name.Name, Wire.{labels_of, IsWire}};

    ghost Value = { Name };

    ghost view = { λ n. labels_of n.wire.now };

    ghost invariant = { λ n. IsWire n.wire.now };
}

impl<'a> ParsedName<'a> {
    /// Parses the next name (RFC 1035, section 3.1). Compressed names are rejected.
    ///
    /// # Errors
    ///
    /// The first fault decides: `ShortInput` if an octet is missing, `Form("compressed or bad
    /// label")` at a length over 63, and `Form("long domain name")` at more than 255 octets. After
    /// an error the parser is unchanged.
    pub fn parse(parser: &mut Parser<'a>) -> Result<Self, ParseError>
        ensures ok { IfOk result (λ name. Takes (wire_of name) parser.old parser.new
            × IsName name) }
        ensures err { IfErr result (λ e. NameFault 0 parser.old.left (fault_of e)) }
        ensures unmoved { OnErr result (parser.new ≡ parser.old) }
    {
        Ok(Self::read(parser)?)
    }

    /// Parses the next name as `parse` does, but returns an error without text.
    pub fn read(parser: &mut Parser<'a>) -> Result<Self, NameError>
        ensures ok { IfOk result (λ name. Takes (wire_of name) parser.old parser.new
            × IsName name) }
        ensures err { IfErr result (λ e. NameFault 0 parser.old.left (name_fault_of e)) }
        ensures unmoved { OnErr result (parser.new ≡ parser.old) }
    {
        let (wire, _) = wire::split_name(parser.peek_all())?;
        parser.advance(wire.len());
        Ok(ParsedName { wire })
    }

    /// Returns the name with this wire form. Does not allocate, and does not read the octets. Use
    /// `from_slice` if the octets may encode no name.
    pub fn over(wire: &'a [u8]) -> Self
        requires { IsWire wire.now }
        ensures { result ≡ labels_of wire.now }
    {
        ParsedName { wire }
    }

    /// Returns the name with this wire form. The errors are those of `Name::from_octets`.
    pub fn from_slice(octets: &'a [u8]) -> Result<Self, ParseError>
        ensures ok { IfOk result (λ name. octets.now ≡ wire_of name) }
        ensures err { IfErr result (λ e. WholeNameFault octets.now (fault_of e)) }
    {
        wire::check(octets)?;
        Ok(ParsedName { wire: octets })
    }

    /// Returns the first label, and the name above it in the same octets, or None for the root.
    /// Does not allocate.
    pub fn split_first(&self) -> Option<(&'a [u8], ParsedName<'a>)>
        ensures root { IfNone result (self.now ≡ []) }
        ensures parts { IfSome result (λ p. self.now ≡ p.0.now ∷ p.1) }
    {
        let (label, above) = wire::split_first(self.wire)?;
        Some((label, ParsedName { wire: above }))
    }

    /// Returns the name without its first label, in the same octets, or None for the root
    /// (RFC 9499, section 7). Does not allocate.
    pub fn parent(&self) -> Option<ParsedName<'a>>
        ensures { result ≡ parent_of self.now }
    {
        let (_, above) = self.split_first()?;
        Some(above)
    }
}

impl<'a> TryClone for ParsedName<'a> {
    ghost is_clone = { λ n copy. copy ≡ n };

    /// Returns the same name, in the same octets. Does not allocate.
    fn try_clone(&self) -> Result<Self, OutOfMemory>
        ensures copy { IfOk result (λ copy. copy ≡ self.now) }
        ensures always { IsOk result }
    {
        Ok(ParsedName { wire: self.wire })
    }
}

impl<'a> ToName for ParsedName<'a> {
    ghost labels = { λ n. n };

    ghost clone_labels = { λ n copy same. same };

    fn as_wire(&self) -> &[u8] {
        self.wire
    }
}

/// Names are equal without regard to case.
impl<'a> PartialEq for ParsedName<'a> {
    ghost eq = { same_name };

    ghost laws = { partial_equiv_from_equiv same_name_equiv };

    fn eq(&self, other: &Self) -> bool {
        self.name_eq(other)
    }
}

impl<'a> Eq for ParsedName<'a> {
    ghost laws = { same_name_equiv };
}

impl<'a> PartialOrd for ParsedName<'a> {
    ghost partial_cmp = { λ a b. Some (canonical_cmp a b) };

    ghost laws = { canonical_po };

    fn partial_cmp(&self, other: &Self) -> Option<Ordering> {
        Some(self.name_cmp(other))
    }
}

/// The canonical order (RFC 4034, section 6.1).
impl<'a> Ord for ParsedName<'a> {
    ghost cmp = { canonical_cmp };

    ghost total = { canonical_cmp_total };

    ghost matches_partial_cmp = { λ a b. refl };

    ghost matches_eq = { same_name_ties };

    fn cmp(&self, other: &Self) -> Ordering {
        self.name_cmp(other)
    }
}

impl<'a> fmt::Display for ParsedName<'a> {
    ghost output = { λ n. Some (name_text n) };

    fn fmt<W: fmt::Write>(&self, f: &mut fmt::Formatter<W>) -> fmt::Result {
        text::write_name(self.as_wire(), f)
    }
}

impl<'a> fmt::Debug for ParsedName<'a> {
    fn fmt<W: fmt::Write>(&self, f: &mut fmt::Formatter<W>) -> fmt::Result {
        let name = self.fmt_with_dot();
        write!(f, "ParsedName({name})")
    }
}
