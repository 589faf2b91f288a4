//! Serial numbers.
ghost use Rattle.std.specs.Prelude.{◌≡◌, ◌<◌, ◌+◌, ◌++◌, ◌↔◌, ℕ, length, Some, IsNone, IsErr, IfOk};
ghost use Rattle.std.specs.{Prelude.{IfErr, OnOk, OnErr, IsErrOf}, Fmt.decimal};
ghost use Rattle.std.specs.{Int.{w32, to_be_bytes}, Ordering.nat_cmp, Cmp.nat_cmp_total};
ghost use Rattle.domain_octets.specs.Octets.{IsOver, Takes};
ghost use Rattle.domain_base.specs.Numbers.{ReadsSerial, serial_cmp};

use domain_names::{CanonicalOrd, ParseError, ScanError};
use domain_octets::{AppendError, OctetsBuilder, Parser};
use std::cmp::Ordering;
use std::fmt;
use std::marker::Model;
use std::mem::size_of;
use std::str::FromStr;

const _: () = prove!(Serial::COMPOSE_LEN as usize == size_of::<u32>());

/// A serial number: 32 bits, ordered in a circle (RFC 1982).
#[derive(Clone, Copy, Debug, PartialEq)]
pub struct Serial(u32);

impl Model for Serial {
    ghost Value = { ℕ };

    ghost view = { λ s. s.0 };

    ghost inverse = { λ n. record { 0 = n } };
}

impl From<u32> for Serial {
    ghost from_gives = { λ number serial. serial ≡ number };

    fn from(number: u32) -> Serial {
        Serial(number)
    }
}

impl Serial {
    /// The length of the wire form in octets.
    pub const COMPOSE_LEN: u16 = 4;

    /// Returns the number.
    pub const fn into_int(self) -> u32
        ensures { result ≡ self }
    {
        self.0
    }

    /// Reads a serial number, four octets. Returns `ShortInput` if fewer are left.
    pub fn parse(parser: &mut Parser<'_>) -> Result<Serial, ParseError>
        ensures ok { IfOk result (λ serial. Takes (to_be_bytes w32 serial) parser.old parser.new) }
        ensures short { IsErr result ↔ (length parser.old.left < 4) }
        ensures err { IfErr result (λ e. e ≡ ParseError.ShortInput) }
        ensures unmoved { OnErr result (parser.new ≡ parser.old) }
    {
        Ok(Serial(parser.parse_u32()?))
    }

    /// Appends the four octets of the number.
    pub fn compose<B: OctetsBuilder>(&self, target: &mut B) -> Result<(), AppendError>
        ensures ok { OnOk result (B.octets target.new ≡ B.octets target.old
            ++ to_be_bytes w32 self.now) }
        ensures err { OnErr result (B.octets target.new ≡ B.octets target.old) }
        ensures short { IsErrOf result AppendError.ShortBuf
            ↔ IsOver B.limit (length (B.octets target.old) + 4) }
        ensures memory { IsErrOf result AppendError.OutOfMemory → IsNone B.limit }
    {
        target.append_slice(&self.0.to_be_bytes())
    }

    /// Returns the order of serial numbers: each is less than the 2,147,483,647 numbers that follow
    /// it in the circle. Two that are exactly half of the circle apart have no order (RFC 1982,
    /// section 3.2).
    pub fn partial_cmp(&self, other: &Serial) -> Option<Ordering>
        ensures { result ≡ serial_cmp self.now other.now }
    {
        let ahead = other.0.wrapping_sub(self.0);
        if ahead == 0 {
            Some(Ordering::Equal)
        } else if ahead < 0x8000_0000 {
            Some(Ordering::Less)
        } else if ahead == 0x8000_0000 {
            None
        } else {
            Some(Ordering::Greater)
        }
    }
}

/// Parses decimal digits, with at most one plus sign before them. Any other text, and a number over
/// 32 bits, is the error `Custom("decimal number expected")`.
impl FromStr for Serial {
    type Err = ScanError;

    ghost from_str_gives = { ReadsSerial };

    fn from_str(text: &str) -> Result<Serial, ScanError> {
        match text.parse::<u32>() {
            Ok(number) => Ok(Serial(number)),
            Err(_) => Err(ScanError::Custom("decimal number expected")),
        }
    }
}

/// Orders serial numbers as plain numbers.
impl CanonicalOrd for Serial {
    ghost canonical_cmp = { nat_cmp };

    ghost total = { nat_cmp_total };

    fn canonical_cmp(&self, other: &Serial) -> Ordering {
        self.0.cmp(&other.0)
    }
}

/// Writes the number in decimal digits.
impl fmt::Display for Serial {
    ghost output = { λ s. Some (decimal s) };

    fn fmt<W: fmt::Write>(&self, f: &mut fmt::Formatter<W>) -> fmt::Result {
        write!(f, "{}", self.0)
    }
}
