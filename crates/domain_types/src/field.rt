//! The kinds of fields of record data.
ghost use Rattle.std.specs.Prelude.{◌≡◌};
ghost use Rattle.domain_types.specs.{Fields.shape_of, Canonical.is_lowered};

/// A kind of field: how its octets lie on the wire and how it prints. The end of a field is known
/// from its own octets.
#[derive(Clone, Copy, Debug, PartialEq, Eq)]
pub enum Field {
    /// A number of 8 bits.
    Number8,
    /// A number of 16 bits.
    Number16,
    /// A number of 32 bits.
    Number32,
    /// A number of 8 bits that is an algorithm of DNSSEC (RFC 4034, appendix A.1).
    Algorithm,
    /// A number of 8 bits that is the scheme of a notification (RFC 9859, section 2.1).
    Scheme,
    /// A number of 16 bits that is a type of certificates (RFC 4398, section 2.1).
    CertificateType,
    /// A number of 16 bits that is a type of records (RFC 1035, section 3.2.2).
    RecordType,
    /// A number of 8 bits that is 0 or 1, as the bit for discovery (RFC 8777, section 4.2.2).
    Flag,
    /// A number of 8 bits that is the type of a gateway, at most 3 (RFC 4025, section 2.3; RFC
    /// 8777, section 4.2.3).
    GatewayType,
    /// A number of seconds in 32 bits, which may have units (RFC 1035, section 3.3.13).
    Period,
    /// A time in 32 bits (RFC 4034, section 3.1.5).
    Time,
    /// A name that the canonical form lowers (RFC 4034, section 6.2; RFC 6840, section 5.1).
    LoweredName,
    /// A name that the canonical form keeps as it is spelled.
    Name,
    /// An IPv4 address (RFC 1035, section 3.4.1).
    Ipv4,
    /// An IPv6 address (RFC 3596, section 2.2).
    Ipv6,
    /// A length octet and as many octets of text (RFC 1035, section 3.3).
    CharacterString,
    /// A length octet and as many letters and digits, at least one (RFC 8659, section 4.1).
    Tag,
    /// A length octet and the octets of a salt (RFC 5155, section 3.2).
    Salt,
    /// A length octet and the octets of a hash (RFC 5155, section 3.2).
    HashedOwner,
    /// 64 bits of an address (RFC 6742, sections 2.1 and 2.3).
    Locator64,
    /// An address of 48 bits (RFC 7043, section 3.1).
    Eui48,
    /// An address of 64 bits (RFC 7043, section 4.1).
    Eui64,
    /// A location on earth (RFC 1876, section 2).
    Location,
    /// The type of a gateway, an algorithm, and the gateway (RFC 4025, section 2.1).
    Gateway,
    /// The type of a relay, with the bit for discovery, and the relay (RFC 8777, section 4.1).
    Relay,
    /// Three lengths and an algorithm, a host identity tag and a public key (RFC 8005, section 5).
    HostIdentity,
    /// A prefix of addresses of a family (RFC 3123, section 4).
    Prefix,
}

/// How the octets of a field lie on the wire.
#[derive(Clone, Copy)]
pub(crate) enum Shape {
    /// This number of octets.
    Exactly(usize),
    /// A name.
    Domain,
    /// A length octet and as many octets.
    Counted,
    /// A length octet and as many letters and digits, at least one.
    Word,
    /// Two octets, of which the first is the type of the address or name that follows them.
    AfterTwo,
    /// An octet, of which the last seven bits are the type of the address or name that follows it.
    AfterOne,
    /// A length octet, an octet, a length of 16 bits, and as many octets as both lengths say.
    TwoCounted,
    /// Four octets, of which the last seven bits are the length, and as many octets.
    CountedInBits,
}

/// What follows the fields, up to the end of the data.
#[derive(Clone, Copy, Debug)]
pub enum Tail {
    /// Nothing.
    Nothing,
    /// Octets that print in Base 16.
    Base16,
    /// Octets that print in Base 64.
    Base64,
    /// Octets that print in quotes.
    Quoted,
    /// Octets without a text of their own: the data have the generic form (RFC 3597, section 5).
    Opaque,
    /// The types of a bitmap (RFC 4034, section 4.1.2).
    Types,
    /// Parameters of a service, in the order of their keys (RFC 9460, section 2.2).
    Parameters,
    /// The type of a gateway, an algorithm, the gateway, and its key in Base 64, which is absent
    /// exactly for algorithm 0 (RFC 4025, section 3.1).
    GatewayAndKey,
    /// The bit for discovery, the type of a relay, and the relay (RFC 8777, section 4.3).
    FlagAndRelay,
    /// An algorithm, a host identity tag in Base 16, a public key in Base 64, and any number of
    /// rendezvous servers (RFC 8005, section 6).
    IdentityAndServers,
    /// A latitude, a longitude, an altitude, and up to three precisions (RFC 1876, section 3).
    Coordinates,
    /// Any number of fields of a kind.
    Many(Field),
    /// One or more fields of a kind.
    AtLeastOne(Field),
    /// One field of a kind or none.
    AtMostOne(Field),
}

impl Field {
    /// Returns whether the canonical form lowers the field.
    pub(crate) fn is_lowered(self) -> bool
        ensures { result ≡ is_lowered self }
    {
        self == Field::LoweredName
    }

    /// Returns how the octets of the field lie on the wire.
    pub(crate) fn shape(self) -> Shape
        ensures { result ≡ shape_of self }
    {
        match self {
            Field::Number8 | Field::Algorithm | Field::Scheme => Shape::Exactly(1),
            Field::Flag | Field::GatewayType => Shape::Exactly(1),
            Field::Number16 | Field::CertificateType | Field::RecordType => Shape::Exactly(2),
            Field::Number32 | Field::Period | Field::Time | Field::Ipv4 => Shape::Exactly(4),
            Field::Eui48 => Shape::Exactly(6),
            Field::Locator64 | Field::Eui64 => Shape::Exactly(8),
            Field::Ipv6 | Field::Location => Shape::Exactly(16),
            Field::LoweredName | Field::Name => Shape::Domain,
            Field::CharacterString | Field::Salt | Field::HashedOwner => Shape::Counted,
            Field::Tag => Shape::Word,
            Field::Gateway => Shape::AfterTwo,
            Field::Relay => Shape::AfterOne,
            Field::HostIdentity => Shape::TwoCounted,
            Field::Prefix => Shape::CountedInBits,
        }
    }
}
