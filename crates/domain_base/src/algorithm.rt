//! Algorithm numbers.
ghost use Rattle.std.specs.{Prelude.{◌≡◌, ℕ, Some}, Fmt.decimal};
ghost use Rattle.domain_base.specs.Scan.{IsNumber, IsNoNumber, OneToken, ReadsTokens, RefusesToken};

use crate::{FromToken, Scanner};
use domain_names::ScanError;
use std::fmt;
use std::marker::{Model, PhantomData};

/// An algorithm of kind `K`: a number of 8 bits.
#[derive_where(Clone, Copy, PartialEq, Eq, PartialOrd, Ord, Hash)]
pub struct Algorithm<K>(u8, #[derive_where(skip)] PhantomData<K>);

impl<K> Model for Algorithm<K> {
    ghost Value = { ℕ };

    ghost view = { λ a. a.0 };

    ghost inverse = { λ n. record { 0 = n; 1 = record {} } };
}

impl<K> Algorithm<K> {
    /// Returns the algorithm with this number.
    pub const fn from_int(number: u8) -> Algorithm<K>
        ensures { result ≡ number }
    {
        Algorithm(number, PhantomData)
    }

    /// Returns the number of the algorithm.
    pub const fn to_int(self) -> u8
        ensures { result ≡ self }
    {
        self.0
    }

    /// Parses the next token as the number of an algorithm: a decimal number of at most 255.
    /// Returns `Custom("decimal number expected")` for any other token, and `EndOfEntry` if none is
    /// left. An error skips the token too.
    pub fn scan<S: Scanner>(scanner: &mut S) -> Result<Algorithm<K>, ScanError>
        ensures { ReadsTokens (OneToken (IsNumber 8)) (λ value. value) (RefusesToken (IsNoNumber 8))
            (S.tokens scanner.old) (S.tokens scanner.new) result }
    {
        <Algorithm<K> as FromToken>::scan(scanner)
    }
}

/// Parses a decimal number of at most 255. Any other token is the error `Custom("decimal number
/// expected")`.
impl<K> FromToken for Algorithm<K> {
    ghost spells = { IsNumber 8 };

    ghost refuses = { IsNoNumber 8 };

    fn from_token(token: &str) -> Result<Algorithm<K>, ScanError> {
        Ok(Algorithm::from_int(u8::from_token(token)?))
    }
}

/// Writes the number in decimal digits.
impl<K> fmt::Display for Algorithm<K> {
    ghost output = { λ a. Some (decimal a) };

    fn fmt<W: fmt::Write>(&self, f: &mut fmt::Formatter<W>) -> fmt::Result {
        write!(f, "{}", self.0)
    }
}

/// The kind of algorithms that make keys and signatures.
pub struct Signing;

/// The algorithm of a key or of a signature: a number of 8 bits (RFC 4034, appendix A.1).
pub type SecurityAlgorithm = Algorithm<Signing>;

impl SecurityAlgorithm {
    /// RSA over MD5 (RFC 2537), which is deprecated.
    pub const RSAMD5: SecurityAlgorithm = Algorithm(1, PhantomData);

    /// RSA over SHA-1 (RFC 3110).
    pub const RSASHA1: SecurityAlgorithm = Algorithm(5, PhantomData);

    /// RSA over SHA-256 (RFC 5702).
    pub const RSASHA256: SecurityAlgorithm = Algorithm(8, PhantomData);

    /// RSA over SHA-512 (RFC 5702).
    pub const RSASHA512: SecurityAlgorithm = Algorithm(10, PhantomData);

    /// ECDSA on curve P-256 over SHA-256 (RFC 6605).
    pub const ECDSAP256SHA256: SecurityAlgorithm = Algorithm(13, PhantomData);

    /// ECDSA on curve P-384 over SHA-384 (RFC 6605).
    pub const ECDSAP384SHA384: SecurityAlgorithm = Algorithm(14, PhantomData);

    /// Ed25519 (RFC 8080).
    pub const ED25519: SecurityAlgorithm = Algorithm(15, PhantomData);

    /// Ed448 (RFC 8080).
    pub const ED448: SecurityAlgorithm = Algorithm(16, PhantomData);
}

impl fmt::Debug for SecurityAlgorithm {
    fn fmt<W: fmt::Write>(&self, f: &mut fmt::Formatter<W>) -> fmt::Result {
        write!(f, "SecurityAlgorithm({self})")
    }
}

/// The kind of algorithms that make digests of keys.
pub struct Digesting;

/// The algorithm of the digest of a key: a number of 8 bits (RFC 4034, section 5.1.3).
pub type DigestAlgorithm = Algorithm<Digesting>;

impl DigestAlgorithm {
    /// SHA-1 (RFC 4034, appendix A.2).
    pub const SHA1: DigestAlgorithm = Algorithm(1, PhantomData);

    /// SHA-256 (RFC 4509).
    pub const SHA256: DigestAlgorithm = Algorithm(2, PhantomData);

    /// SHA-384 (RFC 6605).
    pub const SHA384: DigestAlgorithm = Algorithm(4, PhantomData);
}

impl fmt::Debug for DigestAlgorithm {
    fn fmt<W: fmt::Write>(&self, f: &mut fmt::Formatter<W>) -> fmt::Result {
        write!(f, "DigestAlgorithm({self})")
    }
}

/// The kind of algorithms that hash names.
pub struct Hashing;

/// The algorithm of the hashes of names: a number of 8 bits (RFC 5155, section 3.1.1).
pub type Nsec3HashAlgorithm = Algorithm<Hashing>;

impl Nsec3HashAlgorithm {
    /// SHA-1 (RFC 5155, section 11).
    pub const SHA1: Nsec3HashAlgorithm = Algorithm(1, PhantomData);
}

impl fmt::Debug for Nsec3HashAlgorithm {
    fn fmt<W: fmt::Write>(&self, f: &mut fmt::Formatter<W>) -> fmt::Result {
        write!(f, "Nsec3HashAlgorithm({self})")
    }
}
