//! Data that records may have but that are seldom intended.
ghost use Rattle.std.specs.Prelude.{◌≡◌, ◌↔◌, IsTrue};
ghost use Rattle.lint_hints.specs.Shapes.{has_extras, data_shape, AreTexts, HaveTag, IsSuch};

use domain_base::{Name, Rtype};

/// The shape of data of a type, for the types that are checked.
#[derive(Clone, Copy)]
pub enum Shape {
    /// One name.
    OneName,
    /// Texts, each after an octet with its length, and at least one.
    Texts,
    /// An IPv6 address.
    LongAddress,
    /// The location of a service (RFC 2782).
    Service,
    /// A certificate, or its hash (RFC 6698).
    Certificate,
    /// The issuers that may issue certificates (RFC 8659).
    Issuers,
    /// Anything.
    Whatever,
}

impl Shape {
    /// Returns a text that describes data of the shape.
    pub fn text(self) -> &'static str {
        match self {
            Shape::OneName => "one name",
            Shape::Texts => "texts, each after its length",
            Shape::LongAddress => "the 16 octets of an address",
            Shape::Service => "three numbers of two octets and a name",
            Shape::Certificate => "three octets and a certificate's",
            Shape::Issuers => "an octet of flags, a tag after its length, and a value",
            Shape::Whatever => "",
        }
    }
}

/// Returns the shape of data of a type, or `Whatever` for a type that is not checked here. Types
/// with a data format of their own are checked when they are read.
pub fn data_shape(rtype: Rtype) -> Shape
    ensures { result ≡ data_shape rtype }
{
    match rtype.to_int() {
        5 | 12 | 39 => Shape::OneName,
        16 | 99 => Shape::Texts,
        28 => Shape::LongAddress,
        33 => Shape::Service,
        52 => Shape::Certificate,
        257 => Shape::Issuers,
        _ => Shape::Whatever,
    }
}

/// Returns whether the octets are texts, each after its length octet, and at least one.
fn are_texts(octets: &[u8]) -> bool
    ensures { IsTrue result ↔ AreTexts octets.now }
{
    let mut left: usize = 0;
    for octet in octets {
        left = if left == 0 {
            usize::from(*octet)
        } else {
            left - 1
        };
    }
    left == 0 && !octets.is_empty()
}

/// Returns whether the octets are CAA data: an octet of flags, an octet with the length of the tag,
/// which is at least 1, and the tag, which does not go past the data (RFC 8659, section 4.1).
fn have_tag(octets: &[u8]) -> bool
    ensures { IsTrue result ↔ HaveTag octets.now }
{
    match octets {
        [_flags, count, behind @ ..] => *count > 0 && usize::from(*count) <= behind.len(),
        _ => false,
    }
}

/// Returns whether octets have the shape.
pub fn is_such(shape: Shape, octets: &[u8]) -> bool
    ensures { IsTrue result ↔ IsSuch shape octets.now }
{
    match shape {
        Shape::OneName => Name::from_octets(octets).is_ok(),
        Shape::Texts => are_texts(octets),
        Shape::LongAddress => octets.len() == 16,
        Shape::Service => octets.len() > 6 && Name::from_octets(&octets[6..]).is_ok(),
        Shape::Certificate => octets.len() > 3,
        Shape::Issuers => have_tag(octets),
        Shape::Whatever => true,
    }
}

/// Returns whether NSEC3PARAM data have additional iterations or a salt (RFC 9276, section 3.1).
pub fn has_extras(octets: &[u8]) -> bool
    ensures { result ≡ has_extras octets.now }
{
    octets.len() < 5 || octets[2] != 0 || octets[3] != 0 || octets[4] != 0
}
