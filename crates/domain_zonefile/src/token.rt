//! The tokens of an entry, and the brackets around them.
ghost use Rattle.std.specs.Prelude.{◌≡◌, ◌∷◌, ◌++◌, [], Option, drop, map, length, OnOk, OnErr, reverse};
ghost use Rattle.domain_zonefile.specs.Tokens.{innermost, token_place, piece_view, has_no_token};
ghost use Rattle.domain_types.specs.Reading.{token_text};
ghost use Rattle.domain_zonefile.specs.Entries.{is_outside};

use domain_octets::OutOfMemory;
use domain_types::Token;
use std::alloc::Global;
use std::marker::Model;

/// The tokens of an entry, in order, with their places. Contracts see a list of pieces.
#[derive(Drop)]
pub struct Tokens<'a> {
    tokens: Vec<Token<'a>>,
    places: Vec<usize>,
}

impl<'a> Model for Tokens<'a> {
    ghost use Rattle.std.specs.Prelude.{◌≡◌, List, length};
    ghost use Rattle.domain_zonefile.specs.Entries.{Piece};
    ghost use Rattle.domain_zonefile.specs.Tokens.{pieces_of};

    ghost Value = { List Piece };

    ghost view = { λ t. pieces_of t.tokens.items t.places.items };

    ghost invariant = { λ t. length t.tokens.items ≡ length t.places.items };
}

impl<'a> Tokens<'a> {
    /// Returns an empty list.
    pub fn new(alloc: Global) -> Self
        ensures { result ≡ [] }
    {
        Tokens {
            tokens: Vec::new(alloc),
            places: Vec::new(alloc),
        }
    }

    /// Removes all tokens.
    pub fn clear(&mut self)
        ensures { self.new ≡ [] }
    {
        self.tokens.clear();
        self.places.clear();
    }

    /// Appends a token. Without memory, the list stays as it was.
    pub fn push(&mut self, octets: &'a [u8], is_quoted: bool, at: usize) -> Result<(), OutOfMemory>
        ensures ok { OnOk result (self.new ≡ self.old ++ record {
          at = at;
          octets = octets.now;
          is_quoted = is_quoted;
        } ∷ []) }
        ensures err { OnErr result (self.new ≡ self.old) }
    {
        self.places.push(at)?;
        if self.tokens.push(Token { octets, is_quoted }).is_err() {
            let _ = self.places.pop();
            return Err(OutOfMemory);
        }
        Ok(())
    }

    /// Returns whether there are none.
    pub fn is_empty(&self) -> bool
        ensures { result ≡ has_no_token self.now }
    {
        self.tokens.is_empty()
    }

    /// Returns the tokens.
    pub fn tokens(&self) -> &[Token<'a>]
        ensures { map token_text result.now ≡ map piece_view self.now }
    {
        self.tokens.as_slice()
    }

    /// Returns the place of a token, and that of the last one if there is no such token.
    pub fn place(&self, token: usize) -> usize
        ensures { result ≡ token_place self.now token }
    {
        let places = self.places();
        match places.get(token) {
            Some(at) => *at,
            None => places.last().copied().unwrap_or(0),
        }
    }

    /// Returns the place of each token.
    pub fn places(&self) -> &[usize]
        ensures { result.now ≡ map (λ p. p.at) self.now }
    {
        self.places.as_slice()
    }
}

/// The places of the open brackets. Contracts see them with the innermost first.
#[derive(Drop)]
pub struct Brackets {
    places: Vec<usize>,
}

impl Model for Brackets {
    ghost use Rattle.std.specs.Prelude.{ℕ, List, reverse};

    ghost Value = { List ℕ };

    ghost view = { λ b. reverse b.places.items };
}

impl Brackets {
    /// Returns that no bracket is open.
    pub fn new(alloc: Global) -> Self
        ensures { result ≡ [] }
    {
        Brackets {
            places: Vec::new(alloc),
        }
    }

    /// Closes all brackets.
    pub fn clear(&mut self)
        ensures { self.new ≡ [] }
    {
        self.places.clear();
    }

    /// Opens a bracket. Without memory, nothing changes.
    pub fn push(&mut self, at: usize) -> Result<(), OutOfMemory>
        ensures ok { OnOk result (self.new ≡ at ∷ self.old) }
        ensures err { OnErr result (self.new ≡ self.old) }
    {
        Ok(self.places.push(at)?)
    }

    /// Closes the innermost bracket, if one is open.
    pub fn pop(&mut self)
        ensures { self.new ≡ drop 1 self.old }
    {
        let _ = self.places.pop();
    }

    /// Returns whether no bracket is open.
    pub fn is_outside(&self) -> bool
        ensures { result ≡ is_outside self.now }
    {
        self.places.is_empty()
    }

    /// Returns the place of the innermost open bracket.
    pub fn innermost(&self) -> Option<usize>
        ensures { result ≡ innermost self.now }
    {
        self.places.last().copied()
    }
}
