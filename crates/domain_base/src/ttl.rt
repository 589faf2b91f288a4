//! Times to live.
ghost use Rattle.std.specs.{Prelude.{◌≡◌, ◌*◌, ℕ, Some}, Fmt.decimal};
ghost use Rattle.domain_base.specs.Scan.{IsNumber, IsNoNumber, OneToken, ReadsTokens, RefusesToken};

use crate::{FromToken, Scanner};
use domain_names::ScanError;
use std::fmt;
use std::marker::Model;

/// The time in seconds for which a record may be cached: a number of 32 bits (RFC 1035, section
/// 3.2.1; RFC 2181, section 8).
#[derive(Clone, Copy, Debug, PartialEq, Eq, PartialOrd, Ord, Hash)]
pub struct Ttl(u32);

impl Model for Ttl {
    ghost Value = { ℕ };

    ghost view = { λ t. t.0 };

    ghost inverse = { λ n. record { 0 = n } };
}

impl Ttl {
    /// Returns a time of this many seconds.
    pub const fn from_secs(seconds: u32) -> Ttl
        ensures { result ≡ seconds }
    {
        Ttl(seconds)
    }

    /// Returns a time of this many minutes.
    pub const fn from_mins(minutes: u16) -> Ttl
        ensures { result ≡ 60 * minutes }
    {
        Ttl(60 * minutes as u32)
    }

    /// Returns a time of this many hours.
    pub const fn from_hours(hours: u16) -> Ttl
        ensures { result ≡ 3600 * hours }
    {
        Ttl(3600 * hours as u32)
    }

    /// Returns the number of seconds.
    pub const fn as_secs(self) -> u32
        ensures { result ≡ self }
    {
        self.0
    }

    /// Parses the next token as seconds: a decimal number of at most 32 bits. Returns
    /// `Custom("decimal number expected")` for any other token, and `EndOfEntry` if none is left.
    /// An error skips the token too.
    pub fn scan<S: Scanner>(scanner: &mut S) -> Result<Ttl, ScanError>
        ensures { ReadsTokens (OneToken (IsNumber 32)) (λ value. value)
            (RefusesToken (IsNoNumber 32)) (S.tokens scanner.old) (S.tokens scanner.new) result }
    {
        <Ttl as FromToken>::scan(scanner)
    }
}

/// Parses a decimal number of seconds, of at most 32 bits. Any other token is the error
/// `Custom("decimal number expected")`.
impl FromToken for Ttl {
    ghost spells = { IsNumber 32 };

    ghost refuses = { IsNoNumber 32 };

    fn from_token(token: &str) -> Result<Ttl, ScanError> {
        Ok(Ttl(u32::from_token(token)?))
    }
}

/// Writes the number of seconds in decimal digits.
impl fmt::Display for Ttl {
    ghost output = { λ t. Some (decimal t) };

    fn fmt<W: fmt::Write>(&self, f: &mut fmt::Formatter<W>) -> fmt::Result {
        write!(f, "{}", self.0)
    }
}
