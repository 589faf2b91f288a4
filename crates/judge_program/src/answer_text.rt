//! Prints answers.
ghost use Rattle.std.specs.Prelude.{◌≡◌, ◌++◌, Some, codes};
ghost use Rattle.domain_names.specs.Name.{last_labels};
ghost use Rattle.domain_answer.specs.ZoneAnswer.{wildcard_below};
ghost use Rattle.judge_program.specs.Text.{answer_text, full_text};

use denial_program::ZoneName;
use domain_answer::Answer;
use domain_base::{ParsedName, ToName};
use std::fmt;
use std::fmt::Display;

/// The wildcard right below a name, which prints with its last dot.
#[derive(Clone, Copy)]
pub struct WildcardText<'p, 'a> {
    /// The name.
    pub above: &'p ParsedName<'a>,
}

impl fmt::Display for WildcardText<'_, '_> {
    ghost output = { λ w. Some (full_text (wildcard_below w.above.now)) };

    #[tactic(auto, using(crate::proofs::RunLemmas::wildcard_of_root, crate::proofs::RunLemmas::wildcard_of_other))]
    fn fmt<W: fmt::Write>(&self, f: &mut fmt::Formatter<W>) -> fmt::Result {
        if self.above.is_root() {
            return f.write_str("*.");
        }
        write!(f, "*.{}.", self.above)
    }
}

/// A line about a name that does not exist.
#[derive(Drop)]
struct MissingText<'a> {
    kind: &'static str,
    encloser: ParsedName<'a>,
    told: &'static str,
}

impl fmt::Display for MissingText<'_> {
    ghost output = { λ m. Some (m.kind.now ++ codes ": closest encloser " ++ full_text m.encloser
        ++ codes "; wildcard " ++ full_text (wildcard_below m.encloser) ++ codes " "
        ++ m.told.now) };

    fn fmt<W: fmt::Write>(&self, f: &mut fmt::Formatter<W>) -> fmt::Result {
        let MissingText {
            kind,
            encloser,
            told,
        } = self;
        let wildcard = WildcardText { above: encloser };
        let encloser = encloser.fmt_with_dot();
        write!(
            f,
            "{kind}: closest encloser {encloser}; wildcard {wildcard} {told}"
        )
    }
}

/// An answer about a name, which prints as the program prints it.
#[derive(Clone, Copy)]
pub struct AnswerText<'a> {
    /// The name.
    pub name: &'a ZoneName,
    /// The answer.
    pub answer: Answer,
}

impl<'a> AnswerText<'a> {
    /// Returns the line about the name, which does not exist, and whose closest encloser has
    /// `count` labels.
    fn told(&self, kind: &'static str, count: usize, told: &'static str) -> MissingText<'a>
        ensures kind { result.kind.now ≡ kind.now }
        ensures encloser { result.encloser ≡ last_labels count self.now.name.now }
        ensures told { result.told.now ≡ told.now }
    {
        MissingText {
            kind,
            encloser: self.name.last_labels(count),
            told,
        }
    }
}

impl fmt::Display for AnswerText<'_> {
    ghost output = { λ t. Some (answer_text t.name.now t.answer) };

    fn fmt<W: fmt::Write>(&self, f: &mut fmt::Formatter<W>) -> fmt::Result {
        let name = self.name;
        match self.answer {
            Answer::OutsideZone => f.write_str("outside the zone"),
            Answer::AtParent => f.write_str("at the parent: DS of the apex"),
            Answer::Referral(n) => write!(f, "referral: zone cut {}.", name.last_labels(n)),
            Answer::Redirected(n) => write!(f, "redirected: DNAME at {}.", name.last_labels(n)),
            Answer::Has => f.write_str("data exists"),
            Answer::NoDs => write!(f, "no DS: unsigned delegation at {name}."),
            Answer::Alias => write!(f, "alias: CNAME at {name}."),
            Answer::NxName => write!(f, "no such name: NXNAME at {name}."),
            Answer::NoData => f.write_str("no data"),
            Answer::Wildcard(n) => self.told("wildcard", n, "answers").fmt(f),
            Answer::WildcardAlias(n) => self
                .told("wildcard alias", n, "owns a CNAME record")
                .fmt(f),
            Answer::WildcardNoData(n) => self
                .told("wildcard no data", n, "has no such type")
                .fmt(f),
            Answer::NameError(n) => self.told("name error", n, "does not exist").fmt(f),
            Answer::MayBeUnsigned(n) => {
                write!(
                    f,
                    "may be unsigned: opt-out; closest encloser {}.",
                    name.last_labels(n)
                )
            }
            Answer::NoCloserName(n) => self.told("no closer name", n, "is not shown").fmt(f),
            Answer::TooManyIterations => f.write_str("too many iterations"),
            Answer::NotProven => f.write_str("not proven"),
        }
    }
}
