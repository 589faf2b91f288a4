//! Values that a zone file shows in pieces of text.
ghost use Rattle.std.specs.Prelude.{◌≡◌, ◌++◌, List, map, IfOk, OnOk, string_bytes};
ghost use Rattle.domain_octets.specs.Text.{PieceText, piece_text, simple_text};

use crate::{Formatter, OutOfMemory, Piece, PieceFormatter};
use std::alloc::Global;

/// How pieces of zone file text are joined.
#[derive(Clone, Copy, Debug, PartialEq, Eq)]
pub enum DisplayKind {
    /// The tokens on one line, with one space between them.
    Simple,
}

/// A value that a zone file shows in pieces.
pub trait ZonefileFmt {
    /// The pieces of the value.
    ghost pieces: { Self → List PieceText };

    /// Writes the pieces of the value.
    fn fmt<F: Formatter>(&self, formatter: &mut F) -> Result<(), OutOfMemory>
        ensures { OnOk result (F.pieces formatter.new ≡ F.pieces formatter.old
            ++ pieces self.now) };

    /// Returns the printed form of the value, on one line.
    final fn display_zonefile(
        &self,
        alloc: Global,
        kind: DisplayKind,
    ) -> Result<String, OutOfMemory>
    where
        Self: Sized,
        ensures { IfOk result (λ text. string_bytes text ≡ simple_text (pieces self.now)) }
    {
        let mut formatter = PieceFormatter::new(alloc);
        self.fmt(&mut formatter)?;
        match kind {
            DisplayKind::Simple => simple_text(alloc, formatter.pieces()),
        }
    }
}

/// Returns the tokens with one space between them.
#[tactic(auto, using(crate::proofs::WordLemmas::from_nothing))]
fn simple_text(alloc: Global, pieces: &[Piece]) -> Result<String, OutOfMemory>
    ensures { IfOk result (λ text. string_bytes text ≡ simple_text (map piece_text pieces.now)) }
{
    let mut line = String::new(alloc);
    let mut first = true;
    for piece in pieces {
        if let Piece::Token(text) = piece {
            if !first {
                line.push(' ')?;
            }
            line.push_str(text.as_str())?;
            first = false;
        }
    }
    Ok(line)
}
