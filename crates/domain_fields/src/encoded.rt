//! Octets that print in a codec.
ghost use Rattle.std.specs.Prelude.{Some};
ghost use Rattle.hex.specs.Hex.{encode_lower, encode_upper};
ghost use Rattle.base64.specs.{GeneralPurpose.encode_of, Engines.standard};

use domain_codecs::{base16, base64_standard};
use std::fmt;

/// Octets that print in Base 64 (RFC 4648, section 4).
#[derive(Drop)]
pub struct InBase64<'a>(pub &'a [u8]);

impl<'a> fmt::Display for InBase64<'a> {
    ghost output = { λ t. Some (encode_of standard t.0.now) };

    fn fmt<W: fmt::Write>(&self, f: &mut fmt::Formatter<W>) -> fmt::Result {
        base64_standard::display(self.0, f)
    }
}

/// Octets that print in Base 16, in upper case (RFC 4648, section 8).
#[derive(Drop)]
pub struct InBase16<'a>(pub &'a [u8]);

impl<'a> fmt::Display for InBase16<'a> {
    ghost output = { λ t. Some (encode_upper t.0.now) };

    fn fmt<W: fmt::Write>(&self, f: &mut fmt::Formatter<W>) -> fmt::Result {
        base16::display(self.0, f)
    }
}

/// Octets that print in Base 16, in lower case.
#[derive(Drop)]
pub struct InLowerBase16<'a>(pub &'a [u8]);

impl<'a> fmt::Display for InLowerBase16<'a> {
    ghost output = { λ t. Some (encode_lower t.0.now) };

    fn fmt<W: fmt::Write>(&self, f: &mut fmt::Formatter<W>) -> fmt::Result {
        base16::display_lower(self.0, f)
    }
}
