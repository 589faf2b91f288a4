//! The answers to vectors.
use crate::say_methods;
use domain_base::CanonicalOrd;
use domain_octets::*;
use std::alloc::{AllocError, Global};
use std::fmt::{Debug, Display, Formatter, Result as Printed, Write};
use std::hash::{FoldHasher, Hash, Hasher};

/// A builder with room for two octets.
pub type Two = ArrayBuilder<2>;

/// A value for the answer to a vector, or `None` if the answer ends. The last line of the answer
/// says why it ends.
pub type Given<T> = Option<T>;

/// Whether an answer continues. Adding a line never ends one.
pub type Answered = Given<()>;

/// Octets that print in Base 16, as two lower-case digits each, or as `-` if there are none.
#[derive(Drop)]
struct Digits<'a>(&'a [u8]);

impl Display for Digits<'_> {
    fn fmt<W: Write>(&self, f: &mut Formatter<W>) -> Printed {
        if self.0.is_empty() {
            return f.write_str("-");
        }
        for octet in self.0 {
            write!(f, "{octet:02x}")?;
        }
        Ok(())
    }
}

/// Returns the hash of a value.
fn hash_of<T: Hash>(value: &T) -> u64 {
    let mut hasher = FoldHasher::default();
    value.hash(&mut hasher);
    hasher.finish()
}

/// The lines that answer vectors.
#[derive(Drop)]
pub struct Answers {
    /// The allocator for everything that is made from a vector.
    pub alloc: Global,
    text: String,
    has_memory: bool,
}

/// The number of octets of text that answers have room for before they allocate more memory.
const ROOM: usize = 65_536;

impl Answers {
    /// Returns answers without lines.
    pub fn new(alloc: Global) -> Result<Answers, AllocError> {
        Ok(Answers {
            alloc,
            text: String::with_capacity(alloc, ROOM)?,
            has_memory: true,
        })
    }

    /// Returns the lines, or `None` if the program was out of memory for one of them.
    pub fn text(&self) -> Option<&str> {
        self.has_memory.then_some(self.text.as_str())
    }

    /// Returns a value that the program made for itself, or `None` if it was out of memory. The
    /// program then prints no answer at all.
    pub fn own<T: Drop, E: Drop>(&mut self, made: Result<T, E>) -> Given<T> {
        self.has_memory &= made.is_ok();
        made.ok()
    }

    /// Adds a line unchanged.
    pub fn echo(&mut self, line: &str) -> Answered {
        self.has_memory &= writeln!(self.text, "{line}").is_ok();
        Some(())
    }

    /// Adds a line with a label and a value in its printed form.
    pub fn show<T: Display>(&mut self, label: &str, value: &T) -> Answered {
        self.has_memory &= writeln!(self.text, "  {label}: {value}").is_ok();
        Some(())
    }

    /// Adds a line with a label and a value in its `Debug` form.
    pub fn debug<T: Debug>(&mut self, label: &str, value: &T) -> Answered {
        self.has_memory &= writeln!(self.text, "  {label}: {value:?}").is_ok();
        Some(())
    }

    /// Adds a line with a label and octets.
    pub fn octets<O: Octets>(&mut self, label: &str, octets: &O) -> Answered {
        self.show(label, &Digits(octets.as_slice()))
    }

    /// Adds a line with the number of characters in the printed form of a value.
    pub fn characters<T: Display>(&mut self, value: &T) -> Answered {
        let text = self.own(format!(in self.alloc; "{value}"))?;
        self.show("characters", &text.len())
    }

    /// Adds a line with the pieces of a value in the format of a zone file.
    pub fn pieces<T: ZonefileFmt>(&mut self, value: &T) -> Answered {
        let mut formatter = PieceFormatter::new(self.alloc);
        match ZonefileFmt::fmt(value, &mut formatter) {
            Ok(()) => self.debug("pieces", &formatter.pieces()),
            Err(error) => self.debug("pieces", &error),
        }
    }

    /// Adds a line for each record.
    pub fn show_records<R: Display>(&mut self, records: &[R]) -> Answered {
        for record in records {
            self.show("record", record);
        }
        Some(())
    }

    /// Adds how two values compare, and whether they have the same hash.
    pub fn compared<T: Ord + CanonicalOrd + Hash>(&mut self, a: &T, b: &T) -> Answered {
        self.debug("eq", &(a == b));
        say_methods!(self, a.(cmp partial_cmp canonical_cmp)(b));
        self.debug("one hash", &(hash_of(a) == hash_of(b)))
    }

    /// Adds a line with a label, and the value in its printed form or the error.
    pub fn show_made<T: Display, E: Debug>(&mut self, label: &str, of: &Result<T, E>) -> Answered {
        match of {
            Ok(made) => self.show(label, made),
            Err(error) => self.debug(label, error),
        }
    }

    /// Adds a line with a label, and the octets or the error.
    pub fn octets_made<O: Octets, E: Debug>(&mut self, label: &str, of: &Result<O, E>) -> Answered {
        match of {
            Ok(made) => self.octets(label, made),
            Err(error) => self.debug(label, error),
        }
    }

    /// Adds a line with a label, and the value in its `Debug` form or the error.
    pub fn debug_made<T: Debug, E: Debug>(&mut self, label: &str, of: &Result<T, E>) -> Answered {
        match of {
            Ok(made) => self.debug(label, made),
            Err(error) => self.debug(label, error),
        }
    }

    /// Adds a line with a label and the result of a call. An error ends the answer.
    pub fn done<E: Debug>(&mut self, label: &str, made: &Result<(), E>) -> Answered {
        self.debug(label, made);
        made.is_ok().then_some(())
    }

    /// Adds a line with a label and the error, if there is one.
    pub fn fault<T, E: Debug>(&mut self, label: &str, made: &Result<T, E>) -> Answered {
        self.debug(label, &made.as_ref().err())
    }

    /// Returns the value that a call made. An error ends the answer.
    pub fn ok<T: Drop, E: Debug + Drop>(&mut self, made: Result<T, E>) -> Given<T> {
        match made {
            Ok(made) => Some(made),
            Err(error) => {
                self.debug("refused", &error);
                None
            }
        }
    }
}

/// Returns a value over other octets, made from a copy.
pub fn converted<D: TryClone, T: OctetsFrom<D>>(alloc: Global, of: &D) -> Result<T, AppendError> {
    T::try_octets_from(alloc, of.try_clone()?)
}

/// Returns the value that a copy is flattened into.
pub fn flattened<D: TryClone + FlattenInto<T>, T>(alloc: Global, of: &D) -> Result<T, AppendError> {
    of.try_clone()?.try_flatten_into(alloc)
}

/// Adds a value with names over shared octets, over arrays of two octets, and flattened into shared
/// octets.
pub fn in_two<D, B, A>(value: &D, answers: &mut Answers) -> Answered
where
    D: TryClone + FlattenInto<B>,
    B: OctetsFrom<D> + Display + Drop,
    A: OctetsFrom<D> + Display + Drop,
{
    let alloc = answers.alloc;
    answers.show_made("Bytes", &converted::<D, B>(alloc, value));
    answers.show_made("ArrayBuilder<2>", &converted::<D, A>(alloc, value));
    answers.show_made("flattened", &flattened::<D, B>(alloc, value))
}
