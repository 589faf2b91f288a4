//! The lines of the input, each with its answer below it.
use crate::answers::{Answered, Answers};
use crate::words::expanded;
use std::io;

/// A type that answers vectors.
pub trait Vectors {
    /// Answers one vector, which has a subject, a form, and words after these.
    fn answer(&self, subject: &str, form: &str, words: &[&str], answers: &mut Answers) -> Answered;
}

/// Answers a line that has words.
fn answer_line<V: Vectors>(vectors: &V, line: &str, answers: &mut Answers) -> Answered {
    let mut words = Vec::new(answers.alloc);
    for word in line.split_whitespace() {
        let word = answers.own(expanded(answers.alloc, word))?;
        answers.own(words.push(word))?;
    }
    let mut borrowed = Vec::new(answers.alloc);
    for word in &words {
        answers.own(borrowed.push(word.as_str()))?;
    }
    match borrowed.as_slice() {
        [subject, form, words @ ..] => vectors.answer(subject, form, words, answers),
        _ => answers.echo("  no vector"),
    }
}

/// Reads the whole input, and prints each line with its answer below it. Comments and empty lines
/// have no answer.
pub fn run<R: Input + Print + AllocGlobal, V: Vectors>(rt: &R, vectors: &V) -> io::Result<()> {
    let input = io::read_to_string(rt.alloc(), rt.reader())?;
    let mut answers = Answers::new(rt.alloc())?;
    for line in input.lines() {
        answers.echo(line);
        if !line.starts_with("#") && !line.is_empty() {
            answer_line(vectors, line, &mut answers);
        }
    }
    match answers.text() {
        Some(text) => print!(rt; "{text}"),
        None => Err(io::Error::from(io::ErrorKind::OutOfMemory)),
    }
}
