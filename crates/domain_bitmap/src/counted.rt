//! Octets that a length octet precedes on the wire: salts and hashes of owner names (RFC 5155,
//! sections 3.1.5 and 3.1.7).
ghost use Rattle.std.specs.Prelude.{◌≡◌, ◌≤◌, ◌↔◌, ◌∷◌, [], length, IsOk, IfOk, IfErr, OnErr};
ghost use Rattle.domain_octets.specs.Octets.{Takes};
ghost use Rattle.domain_codecs.specs.Codec.{Decodes};
ghost use Rattle.domain_base.specs.Scan.{OneToken, ReadsTokens, RefusesToken};
ghost use Rattle.domain_bitmap.specs.Text.{by_length, by_length_total, IsCutShort, CountedFault};

use crate::{CheckedOctets, OctetsKind};
use bytes::Bytes;
use domain_base::{ParseError, ScanError, Scanner};
use domain_codecs::Codec;
use domain_octets::{EmptyOctets, FromBuilder, Octets, Parser};
use std::alloc::Global;
use std::cmp::Ordering;
use std::marker::PhantomData;

/// The greatest number that fits in one octet.
const MAX_LEN: usize = 255;

/// The kind of lists of at most 255 octets. `E` is the error for more.
pub struct Counted<E>(PhantomData<E>);

impl<E> OctetsKind for Counted<E> {
    const MAX_LEN: usize = MAX_LEN;

    ghost holds = { λ octets. length octets ≤ 255 };

    ghost order = { by_length };

    ghost total = { by_length_total };

    /// Returns the order of the wire forms: the length comes first.
    fn order(a: &[u8], b: &[u8]) -> Ordering {
        a.len().cmp(&b.len()).then_with(|| a.cmp(b))
    }
}

/// At most 255 octets, which a length octet precedes on the wire. `E` is the error for more, and
/// says what the octets are.
pub type CountedOctets<O, E> = CheckedOctets<O, Counted<E>>;

impl<O: Octets, E> CountedOctets<O, E> {
    /// Returns the value with these octets. Returns an error if and only if there are more than
    /// 255. Does not allocate.
    pub fn from_octets(octets: O) -> Result<Self, E>
    where
        O: Drop,
        E: Default,
        ensures ok { IsOk result ↔ (length (O.octets octets) ≤ 255) }
        ensures octets { IfOk result (λ counted. counted ≡ O.octets octets) }
    {
        if octets.as_slice().len() > MAX_LEN {
            return Err(E::default());
        }
        Ok(CountedOctets::from_octets_unchecked(octets))
    }
}

impl<O: EmptyOctets, E> CountedOctets<O, E> {
    /// Returns a value without octets. Does not allocate.
    pub fn empty(alloc: Global) -> Self
        ensures { result ≡ [] }
    {
        CountedOctets::from_octets_unchecked(O::empty(alloc))
    }
}

impl<E: Default> CountedOctets<Bytes, E> {
    /// Returns the value with these shared octets. Returns an error if and only if there are more
    /// than 255. Does not allocate.
    pub fn from_bytes(octets: Bytes) -> Result<Self, E>
        ensures ok { IsOk result ↔ (length octets ≤ 255) }
        ensures octets { IfOk result (λ counted. counted ≡ octets) }
    {
        CountedOctets::from_octets(octets)
    }
}

impl<'a, E> CountedOctets<&'a [u8], E> {
    /// Returns the value with these borrowed octets. Returns an error if and only if there are more
    /// than 255. Does not allocate.
    pub fn from_slice(octets: &'a [u8]) -> Result<Self, E>
    where
        E: Default,
        ensures ok { IsOk result ↔ (length octets.now ≤ 255) }
        ensures octets { IfOk result (λ counted. counted ≡ octets.now) }
    {
        CountedOctets::from_octets(octets)
    }

    /// Reads a length octet and then as many octets. Returns `ShortInput` if octets are missing;
    /// the parser is then unchanged. Does not allocate.
    #[tactic(auto, using(crate::proofs::TextLemmas::cut_at_length))]
    pub fn parse(parser: &mut Parser<'a>) -> Result<Self, ParseError>
        ensures ok { IfOk result (λ counted.
            Takes (length counted ∷ counted) parser.old parser.new) }
        ensures err { IfErr result (λ e. (e ≡ ParseError.ShortInput) × IsCutShort parser.old.left) }
        ensures unmoved { OnErr result (parser.new ≡ parser.old) }
    {
        let mut ahead = parser.fork();
        let len = ahead.parse_u8()?;
        let octets = ahead.parse_octets(len as usize)?;
        *parser = ahead;
        Ok(CountedOctets::from_octets_unchecked(octets))
    }
}

impl<O: FromBuilder + Drop, E: Default + Drop> CountedOctets<O, E> {
    /// Decodes the next token. Returns `Custom(long)` if it encodes more than 255 octets.
    pub(crate) fn scan_token<S: Scanner<Octets = O>>(
        alloc: Global,
        scanner: &mut S,
        kind: Codec,
        long: &'static str,
    ) -> Result<Self, ScanError>
        ensures read { ReadsTokens (OneToken (Decodes kind)) (λ counted. counted)
            (RefusesToken (CountedFault kind long.now O.Builder.limit)) (S.tokens scanner.old)
            (S.tokens scanner.new) result }
        ensures counted { IfOk result (λ counted. length counted ≤ 255) }
    {
        let octets = match scanner.convert_token(alloc, kind) {
            Ok(octets) => octets,
            Err(error) => return Err(error),
        };
        match CountedOctets::from_octets(octets) {
            Ok(counted) => Ok(counted),
            Err(_) => Err(ScanError::Custom(long)),
        }
    }
}
