//! The tokens of an entry of a zone file.
ghost use Rattle.std.specs.Prelude.{◌≡◌, ◌≢◌, ◌↔◌, ◌∷◌, [], ℕ, Option, drop, length, map, IsTrue};
ghost use Rattle.std.specs.Prelude.{IfOk, IfErr, IsErrOf, IsOkAnd, OnOk, MatchOption};
ghost use Rattle.std.specs.{Fn.FnOnceReturnsAt, List.concat};
ghost use Rattle.domain_names.specs.{Text.{ScanFault, scan_fault_of, NameTextFault, NameText}, Name.Tokens};
ghost use Rattle.domain_names.specs.Name.{Token};
ghost use Rattle.domain_base.specs.Scan.{OneToken, ReadsTokens, RefusesToken, CodecFault, TokenHasNoRoom};
ghost use Rattle.domain_base.specs.Scan.{EntryFault, IsEnd};
ghost use Rattle.domain_codecs.specs.Codec.{Decodes, DecodeFault};
ghost use Rattle.domain_octets.specs.Octets.{HasRoom, Octets};

use domain_codecs::{Codec, DecodeError};
use domain_names::{Name, ScanError, ToName};
use domain_octets::{EmptyBuilder, FromBuilder};
use std::alloc::Global;
use std::marker::{Model, PhantomData};

/// A reader of the tokens of one entry of a zone file (RFC 1035, section 5.1).
pub trait Scanner {
    /// The octets that tokens are decoded into.
    type Octets: FromBuilder;

    /// Names over such octets.
    type Name: ToName;

    /// The tokens that are left, each as octets.
    ghost tokens: { Self → Tokens };

    /// Returns the next token without skipping it, or None if no token is left.
    fn first_token(&self) -> Option<&str>
        ensures { MatchOption result (tokens self.now ≡ []) (λ t. (rest : Tokens)
            × (tokens self.now ≡ t.now ∷ rest)) };

    /// Skips the next token, if there is one.
    fn skip_token(&mut self)
        ensures { tokens self.new ≡ drop 1 (tokens self.old) };

    /// Passes the next token to a function as it is, skips it, and returns the function's result.
    /// Returns `EndOfEntry` if no token is left.
    final fn scan_ascii_str<T, F: FnOnce(&str) -> T>(&mut self, f: F) -> Result<T, ScanError>
    where
        Self: Sized,
        F: Drop,
        requires { F.IsAlwaysCallable f }
        ensures none { tokens self.old ≡ [] → (result ≡ Err ScanError.EndOfEntry)
            × (tokens self.new ≡ []) }
        ensures some { (token : Token) (rest : Tokens) → tokens self.old ≡ token ∷ rest
            → IsOkAnd result (FnOnceReturnsAt F.FnOnce f token) × (tokens self.new ≡ rest) }
    {
        let Some(token) = self.first_token() else {
            return Err(ScanError::EndOfEntry);
        };
        let value = f(token);
        self.skip_token();
        Ok(value)
    }

    /// Parses the next token as a name (RFC 1035, section 5.1). The last dot is optional: the name
    /// is absolute in either case. An error skips the token too.
    ///
    /// Returns `Custom("illegal name")` if the token is not a name. Returns an error of the builder
    /// if it has no room for the name, or if there is no memory.
    fn scan_name(&mut self, alloc: Global) -> Result<Self::Name, ScanError>
        ensures { ReadsTokens (OneToken NameText) Self.Name.labels
            (RefusesToken (NameTextFault Self.Octets.Builder.limit)) (tokens self.old)
            (tokens self.new) result };

    /// Returns an empty builder.
    fn octets_builder(&self, alloc: Global) -> <Self::Octets as FromBuilder>::Builder
        ensures { Self.Octets.Builder.octets result ≡ [] };

    /// Decodes the next token. An error skips the token too.
    ///
    /// Returns `Custom("illegal data")` if the token does not encode octets. Otherwise returns an
    /// error of the builder if it has no room for the octets, or if there is no memory.
    fn convert_token(&mut self, alloc: Global, codec: Codec) -> Result<Self::Octets, ScanError>
        ensures read { ReadsTokens (OneToken (Decodes codec)) Self.Octets.octets
            (RefusesToken (CodecFault codec Self.Octets.Builder.limit)) (tokens self.old)
            (tokens self.new) result }
        ensures room { IsErrOf result ScanError.ShortBuf
            ↔ TokenHasNoRoom codec Self.Octets.Builder.limit (tokens self.old) };

    /// Joins all tokens that are left, and decodes the result. No tokens are the empty text.
    ///
    /// Returns `Custom("illegal data")` if the text does not encode octets. Otherwise returns an
    /// error of the builder if it has no room for the octets, or if there is no memory. After an
    /// error the tokens left are an end of those before.
    fn convert_entry(&mut self, alloc: Global, codec: Codec) -> Result<Self::Octets, ScanError>
        ensures ok { IfOk result (λ octets.
            Decodes codec (concat (tokens self.old)) (Self.Octets.octets octets)) }
        ensures all { OnOk result (tokens self.new ≡ []) }
        ensures err { IfErr result (λ e.
            EntryFault codec Self.Octets.Builder.limit (scan_fault_of e) (tokens self.old)) }
        ensures room { IfOk result (λ octets.
            HasRoom Self.Octets.Builder.limit (length (Self.Octets.octets octets))) }
        ensures end { IsEnd (tokens self.new) (tokens self.old) };

    /// Returns whether any token is left.
    final fn continues(&self) -> bool
    where
        Self: Sized,
        ensures { IsTrue result ↔ (tokens self.now ≢ []) }
    {
        self.first_token().is_some()
    }
}

/// A scanner of the tokens in a slice.
#[derive(Drop)]
pub struct IterScanner<'a, O> {
    left: &'a [&'a str],
    octets: PhantomData<O>,
}

impl<'a, O> Model for IterScanner<'a, O> {
    ghost Value = { Tokens };

    ghost view = { λ s. map (λ token. token.now) s.left.now };
}

impl<'a, O> IterScanner<'a, O> {
    /// Returns a scanner of these tokens, at the first of them.
    pub fn new(tokens: &'a [&'a str]) -> Self
        ensures { result ≡ map (λ token. token.now) tokens.now }
    {
        IterScanner {
            left: tokens,
            octets: PhantomData,
        }
    }
}

impl<'a, O: FromBuilder> Scanner for IterScanner<'a, O>
where
    O::Builder: EmptyBuilder + Drop,
{
    type Octets = O;

    type Name = Name<O>;

    ghost tokens = { λ s. s };

    fn first_token(&self) -> Option<&str> {
        match self.left {
            [] => None,
            [first, ..] => Some(first),
        }
    }

    fn skip_token(&mut self) {
        if let [_, rest @ ..] = self.left {
            self.left = rest;
        }
    }

    #[tactic(auto, using(crate::proofs::TextLemmas::no_token))]
    fn scan_name(&mut self, alloc: Global) -> Result<Name<O>, ScanError> {
        let Some(token) = self.first_token() else {
            return Err(ScanError::EndOfEntry);
        };
        let name = Name::from_str(alloc, token);
        self.skip_token();
        name
    }

    fn octets_builder(&self, alloc: Global) -> O::Builder {
        O::Builder::empty(alloc)
    }

    #[tactic(auto, using(crate::proofs::TextLemmas::no_token))]
    fn convert_token(&mut self, alloc: Global, codec: Codec) -> Result<O, ScanError> {
        let Some(token) = self.first_token() else {
            return Err(ScanError::EndOfEntry);
        };
        let octets = codec.decode(alloc, token).map_err(refusal);
        self.skip_token();
        octets
    }

    fn convert_entry(&mut self, alloc: Global, codec: Codec) -> Result<O, ScanError> {
        let tokens = self.left;
        self.left = &[];
        codec.decode_joined(alloc, tokens).map_err(refusal)
    }
}

/// Returns the error of scanning for an error of decoding.
#[tactic(auto, using(std::proofs::lemmas::Grind::common_steps, domain_codecs::proofs::RefusalLemmas::refused_char, domain_codecs::proofs::RefusalLemmas::refused_length))]
fn refusal(error: DecodeError) -> ScanError
    ensures fault { (codec : Codec) (limit : Option ℕ) (text : Octets)
        → DecodeFault codec limit text error → CodecFault codec limit (scan_fault_of result) text }
    ensures room { (result ≡ ScanError.ShortBuf) ↔ (error ≡ DecodeError.ShortBuf) }
{
    match error {
        DecodeError::IllegalChar(_) => ScanError::Custom("illegal data"),
        DecodeError::ShortInput => ScanError::Custom("illegal data"),
        DecodeError::ShortBuf => ScanError::ShortBuf,
        DecodeError::OutOfMemory => ScanError::OutOfMemory,
    }
}

/// A value that one token spells.
pub trait FromToken {
    /// Whether the token spells the value.
    ghost spells: { Token → Self → Type 0 };

    /// Whether the token has this fault.
    ghost refuses: { ScanFault → Token → Type 0 };

    /// Parses a token.
    fn from_token(token: &str) -> Result<Self, ScanError>
    where
        Self: Sized,
        ensures ok { IfOk result (spells token.now) }
        ensures err { IfErr result (λ e. refuses (scan_fault_of e) token.now) };

    /// Parses the next token. Returns `EndOfEntry` if none is left. An error skips the token too.
    #[tactic(auto, using(crate::proofs::TextLemmas::no_token))]
    final fn scan<S: Scanner>(scanner: &mut S) -> Result<Self, ScanError>
    where
        Self: Sized,
        ensures { ReadsTokens (OneToken spells) (λ value. value) (RefusesToken refuses)
            (S.tokens scanner.old) (S.tokens scanner.new) result }
    {
        let Some(token) = scanner.first_token() else {
            return Err(ScanError::EndOfEntry);
        };
        let value = Self::from_token(token);
        scanner.skip_token();
        value
    }
}
