//! Octets that are read from the front.
ghost use Rattle.std.specs.Prelude.{◌≡◌, ◌<◌, ◌≤◌, ◌+◌, ◌^◌, ◌∷◌, ◌↔◌, [], length, drop};
ghost use Rattle.std.specs.{Prelude.{IsErr, IfOk, IfErr, OnErr}, Int.{w16, w32, to_be_bytes}};
ghost use Rattle.domain_octets.specs.Octets.{Place, Takes};

use crate::ParseError;
use std::marker::Model;

/// A parser of octets: a message, or a part of one.
///
/// A read that fails leaves the parser unchanged.
#[derive(Drop)]
pub struct Parser<'a> {
    left: &'a [u8],
    pos: usize,
}

impl<'a> Model for Parser<'a> {
    ghost Value = { Place };

    ghost view = { λ p. record { pos = p.pos; left = p.left.now } };

    ghost invariant = { λ p. p.pos + length p.left.now < 2 ^ 64 };
}

impl<'a> Parser<'a> {
    /// Returns a parser over these octets, at the first of them.
    pub fn new(octets: &'a [u8]) -> Self
        ensures { result ≡ record { pos = 0; left = octets.now } }
    {
        Parser {
            left: octets,
            pos: 0,
        }
    }

    /// Returns the number of octets that have been read.
    pub fn pos(&self) -> usize
        ensures { result ≡ self.now.pos }
    {
        self.pos
    }

    /// Returns the number of octets that are left.
    pub fn remaining(&self) -> usize
        ensures { result ≡ length self.now.left }
    {
        self.left.len()
    }

    /// Returns the octets that are left, without reading them.
    pub fn peek_all(&self) -> &'a [u8]
        ensures { result.now ≡ self.now.left }
    {
        self.left
    }

    /// Returns a parser at the same position over the same octets.
    pub fn fork(&self) -> Parser<'a>
        ensures { result ≡ self.now }
    {
        Parser {
            left: self.left,
            pos: self.pos,
        }
    }

    /// Skips the next `count` octets.
    pub fn advance(&mut self, count: usize)
        requires { count ≤ length self.old.left }
        ensures { self.new ≡ record {
          pos = self.old.pos + count;
          left = drop count self.old.left;
        } }
    {
        self.left = &self.left[count..];
        self.pos += count;
    }

    /// Returns the next `count` octets. Returns `ShortInput` if fewer are left.
    pub fn parse_octets(&mut self, count: usize) -> Result<&'a [u8], ParseError>
        ensures ok { IfOk result (λ octets. Takes octets.now self.old self.new
            × (length octets.now ≡ count)) }
        ensures short { IsErr result ↔ (length self.old.left < count) }
        ensures err { IfErr result (λ e. e ≡ ParseError.ShortInput) }
        ensures unmoved { OnErr result (self.new ≡ self.old) }
    {
        if count > self.left.len() {
            return Err(ParseError::ShortInput);
        }
        let (octets, left) = self.left.split_at(count);
        self.left = left;
        self.pos += count;
        Ok(octets)
    }

    /// Reads a number of one octet. Returns `ShortInput` if no octet is left.
    pub fn parse_u8(&mut self) -> Result<u8, ParseError>
        ensures ok { IfOk result (λ n. Takes (n ∷ []) self.old self.new) }
        ensures short { IsErr result ↔ (length self.old.left < 1) }
        ensures err { IfErr result (λ e. e ≡ ParseError.ShortInput) }
        ensures unmoved { OnErr result (self.new ≡ self.old) }
    {
        let octets = self.parse_octets(1)?;
        Ok(octets[0])
    }

    /// Reads a number of two octets in big-endian order (RFC 1035, section 2.3.2). Returns
    /// `ShortInput` if fewer are left.
    pub fn parse_u16(&mut self) -> Result<u16, ParseError>
        ensures ok { IfOk result (λ n. Takes (to_be_bytes w16 n) self.old self.new) }
        ensures short { IsErr result ↔ (length self.old.left < 2) }
        ensures err { IfErr result (λ e. e ≡ ParseError.ShortInput) }
        ensures unmoved { OnErr result (self.new ≡ self.old) }
    {
        let octets = self.parse_octets(2)?;
        Ok(u16::from_be_bytes([octets[0], octets[1]]))
    }

    /// Reads a number of four octets in big-endian order (RFC 1035, section 2.3.2). Returns
    /// `ShortInput` if fewer are left.
    pub fn parse_u32(&mut self) -> Result<u32, ParseError>
        ensures ok { IfOk result (λ n. Takes (to_be_bytes w32 n) self.old self.new) }
        ensures short { IsErr result ↔ (length self.old.left < 4) }
        ensures err { IfErr result (λ e. e ≡ ParseError.ShortInput) }
        ensures unmoved { OnErr result (self.new ≡ self.old) }
    {
        let octets = self.parse_octets(4)?;
        Ok(u32::from_be_bytes([octets[0], octets[1], octets[2], octets[3]]))
    }
}
