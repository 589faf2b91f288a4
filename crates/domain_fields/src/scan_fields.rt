//! Reading the fields of record data from tokens.
ghost use Rattle.std.specs.Net.{Addr.ipv4_octets, Grammar.IsDotted};
ghost use Rattle.domain_fields.specs.Layout.{octet, short, long, name, exactly, one};
ghost use Rattle.domain_fields.specs.Scan.{Scans, Refuses, IsNoAddress, Both, RefusesBoth};
ghost use Rattle.domain_base.specs.Scan.{ReadsTokens, Grammar, Refusal, OneToken, RefusesToken};
ghost use Rattle.domain_base.specs.Numbers.{TypeText, IsNoType};

use domain_base::{FromToken, Rtype, ScanError, Scanner, ToName};
use std::alloc::Global;
use std::marker::Model;
use std::net::Ipv4Addr;

/// Fields that are read from tokens, in order.
pub trait ScanFields<S: Scanner> {
    /// The grammar of the fields: tokens that spell them, and the tokens left.
    ghost text: { Grammar Self };

    /// The faults of tokens: the tokens, those left after the error, and the fault.
    ghost refuses: { Refusal };

    /// Reads the fields. The error is that of the first field with a fault. After an error the
    /// tokens left are an end of those before.
    fn scan(alloc: Global, scanner: &mut S) -> Result<Self, ScanError>
    where
        Self: Sized,
        ensures { ReadsTokens text (λ fields. fields) refuses (S.tokens scanner.old)
            (S.tokens scanner.new) result };
}

/// A name that was read from a token.
#[derive(Drop)]
pub struct Scanned<N: ToName>(pub N);

impl<N: ToName> Model for Scanned<N> {
    ghost use Rattle.domain_names.specs.Name.{Name};

    ghost Value = { Name };

    ghost view = { λ n. N.labels n.0 };
}

/// An IPv4 address that was read from a token.
#[derive(Clone, Copy)]
pub struct Address(pub Ipv4Addr);

/// Parses four decimal numbers of at most 255, without leading zeros and with dots between them.
/// Any other token is the error `Custom("illegal IPv4 address")`.
impl FromToken for Address {
    ghost spells = { λ text a. IsDotted text (ipv4_octets a.0) };

    ghost refuses = { IsNoAddress };

    fn from_token(token: &str) -> Result<Address, ScanError> {
        match token.parse::<Ipv4Addr>() {
            Ok(addr) => Ok(Address(addr)),
            Err(_) => Err(ScanError::Custom("illegal IPv4 address")),
        }
    }
}

impl<S: Scanner> ScanFields<S> for u8 {
    ghost text = { Scans (one octet) };

    ghost refuses = { Refuses S.Octets.Builder.limit (one octet) };

    fn scan(_alloc: Global, scanner: &mut S) -> Result<u8, ScanError> {
        <u8 as FromToken>::scan(scanner)
    }
}

impl<S: Scanner> ScanFields<S> for u16 {
    ghost text = { Scans (one short) };

    ghost refuses = { Refuses S.Octets.Builder.limit (one short) };

    fn scan(_alloc: Global, scanner: &mut S) -> Result<u16, ScanError> {
        <u16 as FromToken>::scan(scanner)
    }
}

impl<S: Scanner> ScanFields<S> for u32 {
    ghost text = { Scans (one long) };

    ghost refuses = { Refuses S.Octets.Builder.limit (one long) };

    fn scan(_alloc: Global, scanner: &mut S) -> Result<u32, ScanError> {
        <u32 as FromToken>::scan(scanner)
    }
}

impl<S: Scanner> ScanFields<S> for Address {
    ghost text = { λ old a new. Scans (one (exactly 4)) old (ipv4_octets a.0) new };

    ghost refuses = { Refuses S.Octets.Builder.limit (one (exactly 4)) };

    fn scan(_alloc: Global, scanner: &mut S) -> Result<Address, ScanError> {
        <Address as FromToken>::scan(scanner)
    }
}

impl<S: Scanner> ScanFields<S> for Rtype {
    ghost text = { OneToken TypeText };

    ghost refuses = { RefusesToken IsNoType };

    fn scan(_alloc: Global, scanner: &mut S) -> Result<Rtype, ScanError> {
        <Rtype as FromToken>::scan(scanner)
    }
}

impl<N: ToName, S: Scanner<Name = N>> ScanFields<S> for Scanned<N> {
    ghost text = { Scans (one name) };

    ghost refuses = { Refuses S.Octets.Builder.limit (one name) };

    fn scan(alloc: Global, scanner: &mut S) -> Result<Scanned<N>, ScanError> {
        Ok(Scanned(scanner.scan_name(alloc)?))
    }
}

impl<S: Scanner, A: ScanFields<S> + Drop, B: ScanFields<S>> ScanFields<S> for (A, B) {
    ghost text = { Both A.text B.text };

    ghost refuses = { RefusesBoth A.text A.refuses B.refuses };

    fn scan(alloc: Global, scanner: &mut S) -> Result<(A, B), ScanError> {
        let first = A::scan(alloc, scanner)?;
        let second = B::scan(alloc, scanner)?;
        Ok((first, second))
    }
}
