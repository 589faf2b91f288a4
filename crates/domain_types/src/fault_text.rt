//! The texts of faults of data, and of what a token has to spell.
use crate::field::{Field, Tail};
use crate::token::DataFaultKind;
use std::fmt;

/// Writes what a token has to spell.
impl fmt::Display for Field {
    fn fmt<W: fmt::Write>(&self, f: &mut fmt::Formatter<W>) -> fmt::Result {
        f.write_str(match self {
            Field::Number8 => "a number up to 255",
            Field::Number16 => "a number up to 65535",
            Field::Number32 => "a number up to 4294967295",
            Field::Algorithm => "an algorithm of DNSSEC",
            Field::Scheme => "a scheme of notifications",
            Field::CertificateType => "a type of certificates",
            Field::RecordType => "a type of records",
            Field::Flag => "0 or 1",
            Field::GatewayType => "a type of gateways: 0, 1, 2 or 3",
            Field::Period => "a period: seconds, or numbers with units",
            Field::Time => "a time: seconds, or YYYYMMDDHHmmSS",
            Field::LoweredName | Field::Name => "a name",
            Field::Ipv4 => "an IPv4 address",
            Field::Ipv6 => "an IPv6 address",
            Field::CharacterString => "a string of at most 255 octets",
            Field::Tag => "a tag of letters and digits",
            Field::Salt => "a salt in Base 16, or -",
            Field::HashedOwner => "a hash in Base 32",
            Field::Locator64 => "four groups of hexadecimal digits",
            Field::Eui48 => "an EUI-48 address",
            Field::Eui64 => "an EUI-64 address",
            Field::Location => "a location",
            Field::Gateway => "a gateway, which is . for type 0",
            Field::Relay => "a relay",
            Field::HostIdentity => "a host identity",
            Field::Prefix => "a prefix of addresses",
        })
    }
}

/// Writes what tokens have to spell.
impl fmt::Display for Tail {
    fn fmt<W: fmt::Write>(&self, f: &mut fmt::Formatter<W>) -> fmt::Result {
        match self {
            Tail::Nothing => f.write_str("nothing"),
            Tail::Base16 => f.write_str("octets in Base 16"),
            Tail::Base64 => f.write_str("octets in Base 64"),
            Tail::Quoted => f.write_str("one string"),
            Tail::Opaque => f.write_str("the generic form \\#"),
            Tail::Types => f.write_str("types of records"),
            Tail::Parameters => f.write_str("parameters of a service"),
            Tail::GatewayAndKey => f.write_str("a gateway and its key"),
            Tail::FlagAndRelay => f.write_str("a relay"),
            Tail::IdentityAndServers => f.write_str("a host identity"),
            Tail::Coordinates => f.write_str("a part of a location, as in 52 14 5 N 0 8 50 E 10m"),
            Tail::Many(field) | Tail::AtLeastOne(field) | Tail::AtMostOne(field) => {
                write!(f, "{field}")
            }
        }
    }
}

impl fmt::Display for DataFaultKind {
    fn fmt<W: fmt::Write>(&self, f: &mut fmt::Formatter<W>) -> fmt::Result {
        match self {
            DataFaultKind::Missing => f.write_str("a field of the data is missing"),
            DataFaultKind::Extra => f.write_str("more than the data of the type"),
            DataFaultKind::Quoted => f.write_str("quotes where the field has none"),
            DataFaultKind::NotField(field) => write!(f, "expected {field}"),
            DataFaultKind::NotTail(tail) => write!(f, "expected {tail}"),
            DataFaultKind::NotParameter(fault) => write!(f, "{fault}"),
            DataFaultKind::NoText => f.write_str("write data of this type as \\# LENGTH HEX"),
            DataFaultKind::NotGeneric => f.write_str("expected \\# LENGTH HEX"),
            DataFaultKind::NotData => f.write_str("the octets are no data of the type"),
            DataFaultKind::OutOfMemory => f.write_str("out of memory"),
        }
    }
}
