//! The texts of notes about records.
ghost use Rattle.std.specs.Prelude.{◌≡◌};
ghost use Rattle.lint_program.specs.Notes.{frame};

use crate::looks::{Placed, Reason};
use domain_base::{ParsedName, ToName};
use lint_hints::data_shape;
use std::alloc::{AllocError, Global};

impl Reason {
    /// Returns the beginning and the end of each note with this reason.
    pub fn frame(&self) -> (&'static str, &'static str)
        ensures { (result.0.now, result.1.now) ≡ frame self.now }
    {
        match self {
            Reason::NoSoa => ("the apex ", " owns no SOA record"),
            Reason::SecondSoa => ("the apex owns the SOA record of line ", " already"),
            Reason::StraySoa => ("", " owns an SOA record, and is not the apex"),
            Reason::OtherClass => ("the class of ", ""),
            Reason::OtherTtl => ("the TTL of ", ""),
            Reason::Outside => ("", ": the record is ignored"),
            Reason::BesideAlias => (
                "",
                " have the same owner: a CNAME record must be the only one there",
            ),
            Reason::OddData => ("the data are not valid for ", ""),
            Reason::Parameters => (
                "NSEC3PARAM has additional iterations or a salt: ",
                " recommends 0 and none",
            ),
        }
    }
}

/// Returns the text of a note about a record, between the beginning and the end that each note of
/// the reason has; `first` is the first record before it in its group.
pub fn text_of(
    alloc: Global,
    apex: &ParsedName<'_>,
    reason: Reason,
    first: Option<Placed<'_, '_>>,
    placed: Placed<'_, '_>,
) -> Result<String, AllocError> {
    let Placed { borrowed, place } = placed;
    let apex = apex.fmt_with_dot();
    let name = borrowed.owner().fmt_with_dot();
    let rtype = borrowed.rtype();
    let first = first.unwrap_or(placed);
    let line = first.place.number;
    match reason {
        Reason::NoSoa => format!(in alloc; "{apex}"),
        Reason::SecondSoa => format!(in alloc; "{line}"),
        Reason::StraySoa => format!(in alloc; "{name}"),
        Reason::OtherClass => {
            let (class, other) = (borrowed.class(), first.borrowed.class());
            format!(in alloc; "{name} {rtype} is {class}, but that of line {line} is {other}")
        }
        Reason::OtherTtl => {
            let (ttl, other) = (borrowed.ttl().as_secs(), first.borrowed.ttl().as_secs());
            format!(in alloc; "{name} {rtype} is {ttl}, but that of line {line} is {other}")
        }
        Reason::Outside if place.has_dot => format!(in alloc;
            "{name} is outside of the zone {apex}"
        ),
        Reason::Outside => format!(in alloc;
            "the owner has no dot at its end, so it is {name}, outside of the zone {apex}"
        ),
        Reason::BesideAlias => format!(in alloc; "{rtype} and the record of line {line}"),
        Reason::OddData => format!(in alloc; "{rtype}: expected {}", data_shape(rtype).text()),
        Reason::Parameters => format!(in alloc; "RFC 9276, section 3.1,"),
    }
}
