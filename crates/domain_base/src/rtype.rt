//! Types of records.
ghost use Rattle.std.specs.Prelude.{◌≡◌, ◌<◌, ℕ, Some};
ghost use Rattle.domain_base.specs.Numbers.{type_names, TypeText, IsNoType, type_text, entries};
ghost use Rattle.domain_base.specs.Scan.{OneToken, ReadsTokens, RefusesToken};

use crate::{FromToken, Scanner, named};
use domain_names::ScanError;
use std::fmt;
use std::marker::Model;

/// The type of a record: a number of 16 bits (RFC 1035, section 3.2.2).
#[derive(Clone, Copy, Debug, PartialEq, Eq, PartialOrd, Ord, Hash)]
pub struct Rtype(u16);

impl Model for Rtype {
    ghost Value = { ℕ };

    ghost view = { λ r. r.0 };

    ghost invariant = { λ r. r.0 < 65536 };

    ghost inverse = { λ n. record { 0 = n } };
}

impl Rtype {
    /// The address of a host (RFC 1035).
    pub const A: Rtype = Rtype(1);

    /// An authoritative name server of a zone (RFC 1035).
    pub const NS: Rtype = Rtype(2);

    /// The canonical name of an alias (RFC 1035).
    pub const CNAME: Rtype = Rtype(5);

    /// The start of a zone of authority (RFC 1035).
    pub const SOA: Rtype = Rtype(6);

    /// A pointer to another name (RFC 1035).
    pub const PTR: Rtype = Rtype(12);

    /// Information on a host (RFC 1035).
    pub const HINFO: Rtype = Rtype(13);

    /// A mail exchange (RFC 1035).
    pub const MX: Rtype = Rtype(15);

    /// Text (RFC 1035).
    pub const TXT: Rtype = Rtype(16);

    /// An IPv6 address of a host (RFC 3596).
    pub const AAAA: Rtype = Rtype(28);

    /// The location of a service (RFC 2782).
    pub const SRV: Rtype = Rtype(33);

    /// A naming authority pointer (RFC 3403).
    pub const NAPTR: Rtype = Rtype(35);

    /// A redirection of a subtree (RFC 6672).
    pub const DNAME: Rtype = Rtype(39);

    /// The delegation signer (RFC 4034, section 5).
    pub const DS: Rtype = Rtype(43);

    /// A fingerprint of an SSH key (RFC 4255).
    pub const SSHFP: Rtype = Rtype(44);

    /// A signature over an RRset (RFC 4034, section 3).
    pub const RRSIG: Rtype = Rtype(46);

    /// The next name and the types at a name (RFC 4034, section 4).
    pub const NSEC: Rtype = Rtype(47);

    /// A public key of a zone (RFC 4034, section 2).
    pub const DNSKEY: Rtype = Rtype(48);

    /// The next hash and the types at a hashed name (RFC 5155, section 3).
    pub const NSEC3: Rtype = Rtype(50);

    /// The parameters of a zone's NSEC3 chain (RFC 5155, section 4).
    pub const NSEC3PARAM: Rtype = Rtype(51);

    /// A certificate association (RFC 6698).
    pub const TLSA: Rtype = Rtype(52);

    /// The child's copy of a DS (RFC 7344).
    pub const CDS: Rtype = Rtype(59);

    /// The child's copy of a DNSKEY (RFC 7344).
    pub const CDNSKEY: Rtype = Rtype(60);

    /// Child-to-parent synchronization (RFC 7477).
    pub const CSYNC: Rtype = Rtype(62);

    /// A digest over a zone (RFC 8976).
    pub const ZONEMD: Rtype = Rtype(63);

    /// A service binding (RFC 9460).
    pub const SVCB: Rtype = Rtype(64);

    /// A service binding for HTTPS (RFC 9460).
    pub const HTTPS: Rtype = Rtype(65);

    /// The Sender Policy Framework (RFC 7208).
    pub const SPF: Rtype = Rtype(99);

    /// An authorization of certification authorities (RFC 8659).
    pub const CAA: Rtype = Rtype(257);

    /// Returns the type with this number.
    pub const fn from_int(number: u16) -> Rtype
        ensures { result ≡ number }
    {
        Rtype(number)
    }

    /// Returns the number of the type.
    pub const fn to_int(self) -> u16
        ensures { result ≡ self }
    {
        self.0
    }

    /// Parses the next token as a type: its name, or `TYPE` and its number, in either case (RFC
    /// 3597, section 5). Returns `Custom("unknown record type")` for any other token, and
    /// `EndOfEntry` if none is left. An error skips the token too.
    pub fn scan<S: Scanner>(scanner: &mut S) -> Result<Rtype, ScanError>
        ensures { ReadsTokens (OneToken TypeText) (λ value. value) (RefusesToken IsNoType)
            (S.tokens scanner.old) (S.tokens scanner.new) result }
    {
        <Rtype as FromToken>::scan(scanner)
    }
}

impl From<u16> for Rtype {
    ghost from_gives = { λ number made. made ≡ number };

    fn from(number: u16) -> Rtype {
        Rtype::from_int(number)
    }
}

impl From<Rtype> for u16 {
    ghost from_gives = { λ made number. number ≡ made };

    fn from(rtype: Rtype) -> u16 {
        rtype.to_int()
    }
}

/// Returns the types that have a name. A table is searched from its beginning, so the types that
/// zones and their chains have most of come first.
fn names() -> &'static [(u16, &'static str)]
    ensures { entries result.now ≡ type_names }
{
    &[
        (2, "NS"),
        (1, "A"),
        (43, "DS"),
        (46, "RRSIG"),
        (47, "NSEC"),
        (28, "AAAA"),
        (15, "MX"),
        (16, "TXT"),
        (6, "SOA"),
        (12, "PTR"),
        (5, "CNAME"),
        (48, "DNSKEY"),
        (50, "NSEC3"),
        (51, "NSEC3PARAM"),
        (13, "HINFO"),
        (33, "SRV"),
        (35, "NAPTR"),
        (39, "DNAME"),
        (44, "SSHFP"),
        (52, "TLSA"),
        (59, "CDS"),
        (60, "CDNSKEY"),
        (62, "CSYNC"),
        (63, "ZONEMD"),
        (64, "SVCB"),
        (65, "HTTPS"),
        (99, "SPF"),
        (257, "CAA"),
    ]
}

/// Parses the name of a type, or `TYPE` and its number, in either case (RFC 3597, section 5). Any
/// other token is the error `Custom("unknown record type")`.
impl FromToken for Rtype {
    ghost spells = { TypeText };

    ghost refuses = { IsNoType };

    fn from_token(token: &str) -> Result<Rtype, ScanError> {
        match named::read_number(names(), "TYPE", token) {
            Some(number) => Ok(Rtype(number)),
            None => Err(ScanError::Custom("unknown record type")),
        }
    }
}

/// Writes the name of the type in capitals, or `TYPE` and its number.
impl fmt::Display for Rtype {
    ghost output = { λ r. Some (type_text r) };

    fn fmt<W: fmt::Write>(&self, f: &mut fmt::Formatter<W>) -> fmt::Result {
        named::write_number(names(), "TYPE", self.0, f)
    }
}
