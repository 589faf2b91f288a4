//! The roles of names for which records are looked up.
ghost use Rattle.std.specs.Prelude.{Some};
ghost use Rattle.judge_program.specs.Told.{role_text};

use crate::answer_text::WildcardText;
use domain_base::ParsedName;
use std::fmt;

/// The role of a name that a record matches or covers.
#[derive(Drop)]
pub enum Role<'a> {
    /// The name in the question.
    Asked,
    /// Its closest encloser.
    Encloser(ParsedName<'a>),
    /// The name one label longer than the closest encloser.
    NextCloser(ParsedName<'a>),
    /// The wildcard right below this name.
    Wildcard(ParsedName<'a>),
}

impl fmt::Display for Role<'_> {
    ghost output = { λ r. Some (role_text r) };

    fn fmt<W: fmt::Write>(&self, f: &mut fmt::Formatter<W>) -> fmt::Result {
        match self {
            Role::Asked => f.write_str("the name"),
            Role::Encloser(name) => write!(f, "the closest encloser {name}."),
            Role::NextCloser(name) => write!(f, "the next closer name {name}."),
            Role::Wildcard(above) => write!(f, "the wildcard {}", WildcardText { above }),
        }
    }
}
