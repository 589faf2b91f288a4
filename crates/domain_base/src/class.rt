//! Classes of records.
ghost use Rattle.std.specs.Prelude.{◌≡◌, ℕ, Some};
ghost use Rattle.domain_base.specs.Numbers.{class_names, ClassText, IsNoClass, class_text, entries};
ghost use Rattle.domain_base.specs.Scan.{OneToken, ReadsTokens, RefusesToken};

use crate::{FromToken, Scanner, named};
use domain_names::ScanError;
use std::fmt;
use std::marker::Model;

/// The class of a record: a number of 16 bits (RFC 1035, section 3.2.4).
#[derive(Clone, Copy, Debug, PartialEq, Eq, PartialOrd, Ord, Hash)]
pub struct Class(u16);

impl Model for Class {
    ghost Value = { ℕ };

    ghost view = { λ c. c.0 };

    ghost inverse = { λ n. record { 0 = n } };
}

impl Class {
    /// The Internet (RFC 1035).
    pub const IN: Class = Class(1);

    /// Chaosnet (RFC 1035).
    pub const CH: Class = Class(3);

    /// Hesiod (RFC 1035).
    pub const HS: Class = Class(4);

    /// Returns the class with this number.
    pub const fn from_int(number: u16) -> Class
        ensures { result ≡ number }
    {
        Class(number)
    }

    /// Returns the number of the class.
    pub const fn to_int(self) -> u16
        ensures { result ≡ self }
    {
        self.0
    }

    /// Parses the next token as a class: its name, or `CLASS` and its number, in either case (RFC
    /// 3597, section 5). Returns `Custom("unknown class")` for any other token, and `EndOfEntry` if
    /// none is left. An error skips the token too.
    pub fn scan<S: Scanner>(scanner: &mut S) -> Result<Class, ScanError>
        ensures { ReadsTokens (OneToken ClassText) (λ value. value) (RefusesToken IsNoClass)
            (S.tokens scanner.old) (S.tokens scanner.new) result }
    {
        <Class as FromToken>::scan(scanner)
    }
}

impl From<u16> for Class {
    ghost from_gives = { λ number made. made ≡ number };

    fn from(number: u16) -> Class {
        Class::from_int(number)
    }
}

impl From<Class> for u16 {
    ghost from_gives = { λ made number. number ≡ made };

    fn from(class: Class) -> u16 {
        class.to_int()
    }
}

/// Returns the classes that have a name.
fn names() -> &'static [(u16, &'static str)]
    ensures { entries result.now ≡ class_names }
{
    &[(1, "IN"), (3, "CH"), (4, "HS")]
}

/// Parses the name of a class, or `CLASS` and its number, in either case (RFC 3597, section 5). Any
/// other token is the error `Custom("unknown class")`.
impl FromToken for Class {
    ghost spells = { ClassText };

    ghost refuses = { IsNoClass };

    fn from_token(token: &str) -> Result<Class, ScanError> {
        match named::read_number(names(), "CLASS", token) {
            Some(number) => Ok(Class(number)),
            None => Err(ScanError::Custom("unknown class")),
        }
    }
}

/// Writes the name of the class in capitals, or `CLASS` and its number.
impl fmt::Display for Class {
    ghost output = { λ c. Some (class_text c) };

    fn fmt<W: fmt::Write>(&self, f: &mut fmt::Formatter<W>) -> fmt::Result {
        named::write_number(names(), "CLASS", self.0, f)
    }
}
