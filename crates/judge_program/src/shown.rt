//! What is printed of an answer.
ghost use Rattle.std.specs.{Prelude.OnOk, Io.KnownBytes.Appends};
ghost use Rattle.judge_program.specs.Text.{first_line};

use crate::answer_text::AnswerText;
use denial_program::ZoneName;
use domain_answer::Answer;
use std::io;
use std::io::Write;

/// What is printed of an answer.
#[derive(Clone, Copy, Debug, PartialEq, Eq)]
pub enum Shown {
    /// The answer, on one line.
    Answer,
    /// The answer and, below it, the records that it rests on, one a line, with what each says.
    Why,
    /// The answer as a comment and, below it, the records with which a server answers, one a line.
    Records,
}

/// Writes the line of an answer.
pub fn write_first<W: Write>(
    name: &ZoneName,
    answer: Answer,
    shown: Shown,
    output: &mut W,
) -> io::Result<()>
    ensures { OnOk result (Appends (W.contents output.old) (W.contents output.new)
        (first_line shown name.now answer)) }
{
    let text = AnswerText { name, answer };
    match shown {
        Shown::Answer | Shown::Why => writeln!(output, "{text}"),
        Shown::Records => writeln!(output, "; {text}"),
    }
}
