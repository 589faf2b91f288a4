//! Hashed owner names (RFC 5155, section 3.1.7), and their presentation format (section 3.3).
ghost use Rattle.std.specs.Prelude.{IfOk, IfErr, Some, codes};
ghost use Rattle.domain_codecs.specs.Base32.{base32_upper};
ghost use Rattle.domain_codecs.specs.declared.codec.Codec.TheVariants as codec;
ghost use Rattle.domain_base.specs.Scan.{OneToken, ReadsTokens, RefusesToken};
ghost use Rattle.domain_bitmap.specs.Text.{HashFault, OwnerHashText, CountedFault};

use crate::CountedOctets;
use domain_base::{ScanError, Scanner};
use domain_codecs::{Codec, DecodeError, base32};
use domain_octets::{EmptyBuilder, FromBuilder, Octets};
use std::alloc::Global;
use std::error::Error;
use std::fmt;

/// The hash of an owner name: at most 255 octets (RFC 5155, section 3.1.7).
pub type OwnerHash<O> = CountedOctets<O, OwnerHashError>;

/// The error for a hash of more than 255 octets.
#[derive(Clone, Copy, Debug, Default, PartialEq, Eq)]
pub struct OwnerHashError;

impl fmt::Display for OwnerHashError {
    ghost output = { λ _. Some (codes "illegal owner name hash") };

    fn fmt<W: fmt::Write>(&self, f: &mut fmt::Formatter<W>) -> fmt::Result {
        f.write_str("illegal owner name hash")
    }
}

impl Error for OwnerHashError {}

/// Writes the octets in Base 32 hex, in upper case and without padding.
impl<O: Octets> fmt::Display for OwnerHash<O> {
    ghost output = { λ h. Some (base32_upper h) };

    fn fmt<W: fmt::Write>(&self, f: &mut fmt::Formatter<W>) -> fmt::Result {
        base32::display(self.as_slice(), f)
    }
}

impl<O: Octets> fmt::Debug for OwnerHash<O> {
    fn fmt<W: fmt::Write>(&self, f: &mut fmt::Formatter<W>) -> fmt::Result {
        write!(f, "OwnerHash({self})")
    }
}

impl<O: FromBuilder + Drop> OwnerHash<O>
where
    O::Builder: EmptyBuilder + Drop,
{
    /// Decodes a hash in Base 32 hex, in either case and without padding.
    ///
    /// # Errors
    ///
    /// Those of the codec, and `ShortBuf` also for more than 255 octets.
    pub fn from_str(alloc: Global, text: &str) -> Result<Self, DecodeError>
        ensures ok { IfOk result (OwnerHashText text.now) }
        ensures err { IfErr result (HashFault O.Builder.limit text.now) }
    {
        let octets = base32::decode_hex::<O>(alloc, text)?;
        match OwnerHash::from_octets(octets) {
            Ok(hash) => Ok(hash),
            Err(_) => Err(DecodeError::ShortBuf),
        }
    }
}

impl<O: FromBuilder + Drop> OwnerHash<O> {
    /// Decodes the next token as a hash in Base 32 hex. An error skips the token too.
    ///
    /// # Errors
    ///
    /// The first of these:
    ///
    /// - `Custom("illegal data")` if the token is not in Base 32 hex.
    /// - An error of the builder if there is no room or no memory for the octets.
    /// - `Custom("illegal owner name hash")` if there are more than 255 octets.
    pub fn scan<S: Scanner<Octets = O>>(alloc: Global, scanner: &mut S) -> Result<Self, ScanError>
        ensures { ReadsTokens (OneToken OwnerHashText) (λ hash. hash)
            (RefusesToken (CountedFault codec.Base32Hex (codes "illegal owner name hash")
            O.Builder.limit)) (S.tokens scanner.old) (S.tokens scanner.new) result }
    {
        OwnerHash::scan_token(alloc, scanner, Codec::Base32Hex, "illegal owner name hash")
    }
}
