//! Lists of pieces of zone file text.
ghost use Rattle.std.specs.{Prelude.{◌≡◌, ◌++◌, ◌∷◌, [], List, Option, IfSome, OnOk}, Option.option_map};
ghost use Rattle.domain_octets.specs.Text.{PieceText, token, comment, opens, closes};
ghost use Rattle.domain_fields.specs.Scan.{both_pieces};

use domain_octets::{Formatter, OutOfMemory};
use std::fmt::Display;

/// A list of pieces of zone file text.
pub trait Pieces {
    /// The pieces, if all of them have a printed form.
    ghost pieces: { Self → Option (List PieceText) };

    /// Writes the pieces.
    fn write<F: Formatter>(&self, formatter: &mut F) -> Result<(), OutOfMemory>
        ensures { IfSome (pieces self.now) (λ pieces.
            OnOk result (F.pieces formatter.new ≡ F.pieces formatter.old ++ pieces)) };
}

/// A token.
#[derive(Drop)]
pub struct Token<T>(pub T);

/// A comment.
#[derive(Drop)]
pub struct Comment<T>(pub T);

/// A block of pieces.
#[derive(Drop)]
pub struct Block<P>(pub P);

impl<T: Display> Pieces for Token<T> {
    ghost pieces = { λ t. option_map (λ text. token text ∷ []) (T.output t.0) };

    fn write<F: Formatter>(&self, formatter: &mut F) -> Result<(), OutOfMemory> {
        formatter.write_token(&self.0)
    }
}

impl<T: Display> Pieces for Comment<T> {
    ghost pieces = { λ c. option_map (λ text. comment text ∷ []) (T.output c.0) };

    fn write<F: Formatter>(&self, formatter: &mut F) -> Result<(), OutOfMemory> {
        formatter.write_comment(&self.0)
    }
}

impl<P: Pieces> Pieces for Block<P> {
    ghost pieces = { λ b. option_map (λ pieces. opens ∷ (pieces ++ closes ∷ [])) (P.pieces b.0) };

    fn write<F: Formatter>(&self, formatter: &mut F) -> Result<(), OutOfMemory> {
        formatter.begin_block()?;
        self.0.write(formatter)?;
        formatter.end_block()
    }
}

/// The pieces of the first value, and then those of the second.
impl<A: Pieces, B: Pieces> Pieces for (A, B) {
    ghost pieces = { λ p. both_pieces (A.pieces p.0) (B.pieces p.1) };

    fn write<F: Formatter>(&self, formatter: &mut F) -> Result<(), OutOfMemory> {
        self.0.write(formatter)?;
        self.1.write(formatter)
    }
}
