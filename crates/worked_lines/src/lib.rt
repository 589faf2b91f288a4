//! The parts that all programs of worked values share. These are the lines of the input with their
//! answers below them, the answers to vectors, and the values that words spell.
//!
//! A program implements `Vectors` and calls `run`. If a call for a vector fails, its error is part
//! of the answer. If the program itself is out of memory, it prints no answer and ends with an
//! error. This applies to memory for the text of answers, the words of a line and the lists of
//! values.
#![tactic(auto)]

mod answers;
mod lines;
mod macros;
mod spelled;
mod words;

pub use answers::{Answered, Answers, Given, Two, converted, flattened, in_two};
pub use lines::{Vectors, run};
pub use spelled::{OwnName, Short, Tokens};
pub use words::{halves, is_slash, value, word};
