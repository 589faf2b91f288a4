//! The times of signatures (RFC 4034, section 3.1.5).
ghost use Rattle.std.specs.Prelude.{◌≡◌, ◌≤◌, ◌<◌, ◌+◌, ◌^◌, ◌++◌, ◌∷◌, [], ◌↔◌, ℕ, length, codes};
ghost use Rattle.std.specs.Prelude.{Some, IfSome, IsNone, IsErr, IfOk, IfErr, OnOk, OnErr, IsErrOf};
ghost use Rattle.std.specs.{Fmt.decimal, Int.{w32, to_be_bytes}, Ordering.nat_cmp};
ghost use Rattle.std.specs.Cmp.{nat_cmp_total};
ghost use Rattle.domain_octets.specs.{Octets.{IsOver, Takes}, Text.token};
ghost use Rattle.domain_base.specs.{Scan.{OneToken, ReadsTokens, RefusesToken}, Numbers.serial_cmp};
ghost use Rattle.domain_rrsig.specs.Data.{IsNear, TimeAt, TimeToken, IsNoTime, ReadsTime};

use domain_base::{CanonicalOrd, FromToken, ParseError, ScanError, Scanner, Serial};
use domain_fields::ScanFields;
use domain_octets::{AppendError, Formatter, OctetsBuilder, OutOfMemory, Parser, ZonefileFmt};
use std::alloc::Global;
use std::cmp::Ordering;
use std::error::Error;
use std::fmt;
use std::marker::Model;
use std::str::FromStr;

const _: () = prove!(Timestamp::COMPOSE_LEN == Serial::COMPOSE_LEN);

/// The time at which the validity of a signature begins or ends: seconds since the start of 1970,
/// without leap seconds, modulo 2^32 (RFC 4034, section 3.1.5).
///
/// Many times have the same time stamp. `to_system_time` returns the one that is meant at a
/// reference time. Time stamps are ordered in a circle, as serial numbers are (RFC 1982), so they
/// have no comparison operators.
#[derive(Clone, Copy, Debug, PartialEq)]
pub struct Timestamp(Serial);

impl Model for Timestamp {
    ghost use Rattle.std.specs.Prelude.{ℕ};

    ghost Value = { ℕ };

    ghost view = { λ t. t.0 };

    ghost inverse = { λ n. record { 0 = n } };
}

/// The error for a text that is not the time of a signature.
#[derive(Clone, Copy, Debug)]
pub struct IllegalSignatureTime;

impl fmt::Display for IllegalSignatureTime {
    ghost output = { λ _. Some (codes "illegal signature time") };

    fn fmt<W: fmt::Write>(&self, f: &mut fmt::Formatter<W>) -> fmt::Result {
        f.write_str("illegal signature time")
    }
}

impl Error for IllegalSignatureTime {}

impl From<u32> for Timestamp {
    ghost from_gives = { λ number stamp. stamp ≡ number };

    fn from(number: u32) -> Timestamp {
        Timestamp(Serial::from(number))
    }
}

impl Timestamp {
    /// The length of the wire form in octets.
    pub const COMPOSE_LEN: u16 = 4;

    /// Returns the number.
    pub const fn into_int(self) -> u32
        ensures { result ≡ self }
    {
        self.0.into_int()
    }

    /// Reads a time stamp, four octets. Returns `ShortInput` if fewer are left.
    pub fn parse(parser: &mut Parser<'_>) -> Result<Timestamp, ParseError>
        ensures ok { IfOk result (λ stamp. Takes (to_be_bytes w32 stamp) parser.old parser.new) }
        ensures short { IsErr result ↔ (length parser.old.left < 4) }
        ensures err { IfErr result (λ e. e ≡ ParseError.ShortInput) }
        ensures unmoved { OnErr result (parser.new ≡ parser.old) }
    {
        match Serial::parse(parser) {
            Ok(serial) => Ok(Timestamp(serial)),
            Err(error) => Err(error),
        }
    }

    /// Appends the four octets of the number.
    pub fn compose<B: OctetsBuilder>(&self, target: &mut B) -> Result<(), AppendError>
        ensures ok { OnOk result (B.octets target.new ≡ B.octets target.old
            ++ to_be_bytes w32 self.now) }
        ensures err { OnErr result (B.octets target.new ≡ B.octets target.old) }
        ensures short { IsErrOf result AppendError.ShortBuf
            ↔ IsOver B.limit (length (B.octets target.old) + 4) }
        ensures memory { IsErrOf result AppendError.OutOfMemory → IsNone B.limit }
    {
        self.0.compose(target)
    }

    /// Returns the time that is meant at the reference time, both in seconds since the start of
    /// 1970. It is the time within the 2^31 seconds before the reference or the 2^31 - 1 seconds
    /// after it. If that is before 1970, it is the number of the stamp. Returns `None` if the time
    /// is not below 2^64.
    #[tactic(auto, using(std::proofs::lemmas::Grind::common_steps, crate::proofs::DataLemmas::after))]
    pub fn to_system_time(self, reference: u64) -> Option<u64>
        ensures time { IfSome result (TimeAt self reference) }
        ensures none { IsNone result ↔ ((time : ℕ) × IsNear self reference time × (2 ^ 64 ≤ time)) }
    {
        let low = (reference % 0x1_0000_0000) as u32;
        let ahead = u64::from(self.into_int().wrapping_sub(low));
        if ahead < 0x8000_0000 {
            return reference.checked_add(ahead);
        }
        let behind = 0x1_0000_0000 - ahead;
        match reference.checked_sub(behind) {
            Some(time) => Some(time),
            None => Some(u64::from(self.into_int())),
        }
    }

    /// Returns the order of serial numbers: each stamp is less than the 2,147,483,647 stamps that
    /// follow it in the circle. Two that are exactly half of the circle apart have no order (RFC
    /// 1982, section 3.2).
    pub fn partial_cmp(&self, other: &Timestamp) -> Option<Ordering>
        ensures { result ≡ serial_cmp self.now other.now }
    {
        self.0.partial_cmp(&other.0)
    }

    /// Parses the next token as a time: decimal digits, with at most one plus sign before them, at
    /// most 10 characters. Returns `Custom("illegal signature time")` for any other token and for a
    /// number over 32 bits, and `EndOfEntry` if no token is left. An error skips the token too.
    pub fn scan<S: Scanner>(scanner: &mut S) -> Result<Timestamp, ScanError>
        ensures { ReadsTokens (OneToken TimeToken) (λ value. value) (RefusesToken IsNoTime)
            (S.tokens scanner.old) (S.tokens scanner.new) result }
    {
        <Timestamp as FromToken>::scan(scanner)
    }
}

/// Orders time stamps as plain numbers.
impl CanonicalOrd for Timestamp {
    ghost canonical_cmp = { nat_cmp };

    ghost total = { nat_cmp_total };

    fn canonical_cmp(&self, other: &Timestamp) -> Ordering {
        self.0.canonical_cmp(&other.0)
    }
}

/// Parses decimal digits, with at most one plus sign before them. Rejects any other text, a number
/// over 32 bits, and a text of 14 characters, which would be a date.
impl FromStr for Timestamp {
    type Err = IllegalSignatureTime;

    ghost from_str_gives = { ReadsTime };

    fn from_str(text: &str) -> Result<Timestamp, IllegalSignatureTime> {
        if text.len() == 14 {
            return Err(IllegalSignatureTime);
        }
        match Serial::from_str(text) {
            Ok(serial) => Ok(Timestamp(serial)),
            Err(_) => Err(IllegalSignatureTime),
        }
    }
}

/// Parses decimal digits, with at most one plus sign before them, at most 10 characters. Any other
/// token, and a number over 32 bits, is the error `Custom("illegal signature time")`.
impl FromToken for Timestamp {
    ghost spells = { TimeToken };

    ghost refuses = { IsNoTime };

    fn from_token(token: &str) -> Result<Timestamp, ScanError> {
        if token.len() > 10 {
            return Err(ScanError::Custom("illegal signature time"));
        }
        match Serial::from_str(token) {
            Ok(serial) => Ok(Timestamp(serial)),
            Err(_) => Err(ScanError::Custom("illegal signature time")),
        }
    }
}

impl<S: Scanner> ScanFields<S> for Timestamp {
    ghost text = { OneToken TimeToken };

    ghost refuses = { RefusesToken IsNoTime };

    fn scan(_alloc: Global, scanner: &mut S) -> Result<Timestamp, ScanError> {
        Timestamp::scan(scanner)
    }
}

/// Writes the number in decimal digits.
impl fmt::Display for Timestamp {
    ghost output = { λ t. Some (decimal t) };

    fn fmt<W: fmt::Write>(&self, f: &mut fmt::Formatter<W>) -> fmt::Result {
        write!(f, "{}", self.0)
    }
}

/// Writes the number as a token.
impl ZonefileFmt for Timestamp {
    ghost pieces = { λ t. token (decimal t) ∷ [] };

    fn fmt<F: Formatter>(&self, formatter: &mut F) -> Result<(), OutOfMemory> {
        formatter.write_token(self)
    }
}
