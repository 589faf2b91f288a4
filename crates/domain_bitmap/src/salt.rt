//! The salt of hashed owner names (RFC 5155, section 3.1.5), and its presentation format (section
//! 3.3).
ghost use Rattle.std.specs.Prelude.{◌≡◌, ◌↔◌, IfOk, IfErr, IsTrue, Some, codes};
ghost use Rattle.domain_base.specs.Scan.{OneToken, ReadsTokens, RefusesToken};
ghost use Rattle.domain_bitmap.specs.Text.{SaltText, SaltFault, SaltTokenFault, BeginsWithDash, salt_error_text};
ghost use Rattle.domain_bitmap.specs.Text.{salt_text};
ghost use Rattle.domain_bitmap.specs.Pieces.{salt_comment, salt_pieces};

use crate::CountedOctets;
use domain_base::{ScanError, Scanner};
use domain_codecs::{Codec, DecodeError, base16};
use domain_octets::{EmptyBuilder, Formatter, FromBuilder, Octets, OutOfMemory, ZonefileFmt};
use std::alloc::Global;
use std::error::Error;
use std::fmt;

/// A salt: at most 255 octets that are hashed after a name (RFC 5155, section 3.1.5).
pub type Nsec3Salt<O> = CountedOctets<O, Nsec3SaltError>;

/// The error for a salt of more than 255 octets.
#[derive(Clone, Copy, Debug, Default, PartialEq, Eq)]
pub struct Nsec3SaltError;

impl fmt::Display for Nsec3SaltError {
    ghost output = { λ _. Some (codes "illegal NSEC3 salt") };

    fn fmt<W: fmt::Write>(&self, f: &mut fmt::Formatter<W>) -> fmt::Result {
        f.write_str("illegal NSEC3 salt")
    }
}

impl Error for Nsec3SaltError {}

/// The error of reading a salt from text.
#[derive(Clone, Copy, Debug, PartialEq, Eq)]
pub enum Nsec3SaltFromStrError {
    /// The text is not in Base 16, or there is no room or no memory for the octets.
    DecodeError(DecodeError),
    /// The text encodes more than 255 octets.
    Nsec3SaltError(Nsec3SaltError),
}

impl fmt::Display for Nsec3SaltFromStrError {
    ghost output = { λ e. Some (salt_error_text e) };

    fn fmt<W: fmt::Write>(&self, f: &mut fmt::Formatter<W>) -> fmt::Result {
        match self {
            Nsec3SaltFromStrError::DecodeError(error) => write!(f, "{error}"),
            Nsec3SaltFromStrError::Nsec3SaltError(error) => write!(f, "{error}"),
        }
    }
}

impl Error for Nsec3SaltFromStrError {}

/// Writes the octets in Base 16, in upper case, or a dash if there are none.
impl<O: Octets> fmt::Display for Nsec3Salt<O> {
    ghost output = { λ s. Some (salt_text s) };

    fn fmt<W: fmt::Write>(&self, f: &mut fmt::Formatter<W>) -> fmt::Result {
        let octets = self.as_slice();
        if octets.is_empty() {
            return f.write_str("-");
        }
        base16::display(octets, f)
    }
}

impl<O: Octets> fmt::Debug for Nsec3Salt<O> {
    fn fmt<W: fmt::Write>(&self, f: &mut fmt::Formatter<W>) -> fmt::Result {
        write!(f, "Nsec3Salt({self})")
    }
}

impl<O: FromBuilder + Drop> Nsec3Salt<O>
where
    O::Builder: EmptyBuilder + Drop,
{
    /// Decodes a salt in Base 16, in either case. A single dash is the salt without octets.
    ///
    /// # Errors
    ///
    /// First the errors of Base 16, then lack of room or of memory, then a salt of more than 255
    /// octets.
    #[tactic(auto, using(std::proofs::lemmas::Grind::common_steps, crate::proofs::TextLemmas::salt_texts))]
    pub fn from_str(alloc: Global, text: &str) -> Result<Self, Nsec3SaltFromStrError>
        ensures ok { IfOk result (SaltText text.now) }
        ensures err { IfErr result (SaltFault O.Builder.limit text.now) }
    {
        if text == "-" {
            return Ok(Nsec3Salt::from_octets_unchecked(O::from_builder(O::Builder::empty(alloc))));
        }
        let octets = match base16::decode::<O>(alloc, text) {
            Ok(octets) => octets,
            Err(error) => return Err(Nsec3SaltFromStrError::DecodeError(error)),
        };
        match Nsec3Salt::from_octets(octets) {
            Ok(salt) => Ok(salt),
            Err(error) => Err(Nsec3SaltFromStrError::Nsec3SaltError(error)),
        }
    }
}

/// Returns whether a token begins with a dash, and whether it is a single dash.
fn dash(token: &str) -> (bool, bool)
    ensures begins { IsTrue result.0 ↔ BeginsWithDash token.now }
    ensures alone { IsTrue result.1 ↔ (token.now ≡ codes "-") }
{
    let octets = token.as_bytes();
    match octets {
        [first, rest @ ..] => (*first == b'-', *first == b'-' && rest.is_empty()),
        [] => (false, false),
    }
}

impl<O: FromBuilder + Drop> Nsec3Salt<O> {
    /// Decodes the next token as a salt in Base 16. A single dash is the salt without octets. An
    /// error skips the token too.
    ///
    /// # Errors
    ///
    /// The first of these:
    ///
    /// - `Custom("illegal NSEC3 salt")` for a dash with something after it.
    /// - `Custom("illegal data")` if another token is not in Base 16.
    /// - An error of the builder if there is no room or no memory for the octets.
    /// - `Custom("illegal NSEC3 salt")` if there are more than 255 octets.
    #[tactic(auto, using(std::proofs::lemmas::Grind::common_steps, crate::proofs::TextLemmas::salt_steps))]
    pub fn scan<S: Scanner<Octets = O>>(alloc: Global, scanner: &mut S) -> Result<Self, ScanError>
        ensures { ReadsTokens (OneToken SaltText) (λ salt. salt)
            (RefusesToken (SaltTokenFault O.Builder.limit)) (S.tokens scanner.old)
            (S.tokens scanner.new) result }
    {
        let Some(token) = scanner.first_token() else {
            return Err(ScanError::EndOfEntry);
        };
        let (begins, alone) = dash(token);
        if begins {
            scanner.skip_token();
            if alone {
                let octets = O::from_builder(scanner.octets_builder(alloc));
                return Ok(Nsec3Salt::from_octets_unchecked(octets));
            }
            return Err(ScanError::Custom("illegal NSEC3 salt"));
        }
        match Nsec3Salt::scan_token(alloc, scanner, Codec::Base16, "illegal NSEC3 salt") {
            Ok(salt) => Ok(salt),
            Err(error) => Err(error),
        }
    }
}

/// The comment on a salt with this number of octets.
#[derive(Drop)]
struct SaltLength(usize);

impl fmt::Display for SaltLength {
    ghost output = { λ n. Some (salt_comment n.0) };

    fn fmt<W: fmt::Write>(&self, f: &mut fmt::Formatter<W>) -> fmt::Result {
        write!(f, "salt (length: {})", self.0)
    }
}

/// Writes a block with the salt's printed form and a comment on its length in octets.
impl<O: Octets> ZonefileFmt for Nsec3Salt<O> {
    ghost pieces = { salt_pieces };

    fn fmt<F: Formatter>(&self, formatter: &mut F) -> Result<(), OutOfMemory> {
        formatter.begin_block()?;
        formatter.write_token(self)?;
        formatter.write_comment(&SaltLength(self.as_slice().len()))?;
        formatter.end_block()
    }
}
