//! The pieces of zone file text, and the trait that takes them.
ghost use Rattle.std.specs.Prelude.{◌≡◌, ◌++◌, ◌∷◌, [], List, IfSome, map, OnOk, OnErr};
ghost use Rattle.domain_octets.specs.Text.{PieceText, piece_text, token, comment, opens, closes};

use crate::OutOfMemory;
use std::alloc::Global;
use std::fmt::Display;
use std::marker::Model;

/// A piece of zone file text.
#[derive(Debug, PartialEq, Eq, Drop)]
pub enum Piece {
    /// A token.
    Token(String),
    /// A comment on what comes before it.
    Comment(String),
    /// The beginning of a block, in which lines may break.
    Open,
    /// The end of a block.
    Close,
}

/// A sink for the pieces of zone file text, in their order.
pub trait Formatter {
    /// The pieces taken so far.
    ghost pieces: { Self → List PieceText };

    /// Takes a token.
    fn write_token<T: Display>(&mut self, value: &T) -> Result<(), OutOfMemory>
        ensures ok { IfSome (T.output value.now) (λ text.
            OnOk result (pieces self.new ≡ pieces self.old ++ token text ∷ [])) }
        ensures err { OnErr result (pieces self.new ≡ pieces self.old) };

    /// Takes a comment.
    fn write_comment<T: Display>(&mut self, value: &T) -> Result<(), OutOfMemory>
        ensures ok { IfSome (T.output value.now) (λ text.
            OnOk result (pieces self.new ≡ pieces self.old ++ comment text ∷ [])) }
        ensures err { OnErr result (pieces self.new ≡ pieces self.old) };

    /// Takes the beginning of a block.
    fn begin_block(&mut self) -> Result<(), OutOfMemory>
        ensures ok { OnOk result (pieces self.new ≡ pieces self.old ++ opens ∷ []) }
        ensures err { OnErr result (pieces self.new ≡ pieces self.old) };

    /// Takes the end of a block.
    fn end_block(&mut self) -> Result<(), OutOfMemory>
        ensures ok { OnOk result (pieces self.new ≡ pieces self.old ++ closes ∷ []) }
        ensures err { OnErr result (pieces self.new ≡ pieces self.old) };
}

/// Collects the pieces.
#[derive(Drop)]
pub struct PieceFormatter {
    alloc: Global,
    pieces: Vec<Piece>,
}

impl Model for PieceFormatter {
    ghost Value = { List PieceText };

    ghost view = { λ f. map piece_text f.pieces.items };
}

impl PieceFormatter {
    /// Returns a formatter without pieces.
    pub fn new(alloc: Global) -> Self
        ensures { result ≡ [] }
    {
        PieceFormatter {
            alloc,
            pieces: Vec::new(alloc),
        }
    }

    /// Returns the pieces in order.
    pub fn pieces(&self) -> &[Piece]
        ensures { map piece_text result.now ≡ self.now }
    {
        self.pieces.as_slice()
    }
}

impl Formatter for PieceFormatter {
    ghost pieces = { λ f. f };

    fn write_token<T: Display>(&mut self, value: &T) -> Result<(), OutOfMemory> {
        let text = format!(in self.alloc; "{value}")?;
        Ok(self.pieces.push(Piece::Token(text))?)
    }

    fn write_comment<T: Display>(&mut self, value: &T) -> Result<(), OutOfMemory> {
        let text = format!(in self.alloc; "{value}")?;
        Ok(self.pieces.push(Piece::Comment(text))?)
    }

    fn begin_block(&mut self) -> Result<(), OutOfMemory> {
        Ok(self.pieces.push(Piece::Open)?)
    }

    fn end_block(&mut self) -> Result<(), OutOfMemory> {
        Ok(self.pieces.push(Piece::Close)?)
    }
}
