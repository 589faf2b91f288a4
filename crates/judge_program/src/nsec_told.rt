//! What NSEC records say of the names that an answer rests on.
ghost use Rattle.std.specs.{Prelude.{◌≡◌, List}, Option.option_map};
ghost use Rattle.domain_nsec.specs.Chain.{Link};
ghost use Rattle.domain_answer.specs.Judged.{AreNsecWitnesses, IsJudged};
ghost use Rattle.domain_answer.specs.Reading.{finding_of, found_cover, found_match};
ghost use Rattle.judge_program.specs.Told.{finding, nsec_tellings, telling_of, tellings_of};
ghost use Rattle.domain_answer.specs.Needs.{wildcard_count};
ghost use Rattle.judge_program.specs.Told.{told_wildcard, AnyLink.plain};

use crate::needs::shows_records;
use crate::role::Role;
use crate::told::{Listed, Part, Parts};
use denial_program::{Question, ZoneName};
use domain_answer::{Answer, NsecFound, NsecJudgement, wildcard_count};
use domain_base::{ParsedName, ToName};

/// What was found for a name.
type Found<'r, 'a> = NsecFound<'r, &'a [u8], ParsedName<'a>>;

/// An answer, with what was found for the names that were looked up.
pub type Judged<'r, 'a> = NsecJudgement<'r, &'a [u8], ParsedName<'a>>;

/// Returns the record that was found for a name.
fn part_of<'r, 'a>(role: Role<'r>, found: Found<'r, 'a>) -> Option<Part<'r, 'a>>
    ensures { option_map telling_of result ≡ finding plain role.entry
        (found_match (λ n. n) found.entry) (found_cover (λ n. n) found.entry) }
{
    match found {
        NsecFound::Match(nsec) => Some(Part {
            role,
            matches: true,
            listed: Listed::Nsec(nsec),
        }),
        NsecFound::NoMatch(Some(cover)) => Some(Part {
            role,
            matches: false,
            listed: Listed::Nsec(cover.record),
        }),
        NsecFound::NoMatch(None) => None,
    }
}

/// Returns the record that was found for the wildcard below the closest encloser of a name.
fn wildcard_part<'r, 'a>(
    name: &'r ZoneName,
    answer: Answer,
    found: Option<Found<'r, 'a>>,
) -> Option<Part<'r, 'a>>
    ensures { option_map telling_of result ≡ told_wildcard plain name.now (wildcard_count answer)
        (option_map (finding_of (λ n. n)) found.entry) }
{
    let count = wildcard_count(answer)?;
    part_of(Role::Wildcard(name.last_labels(count)), found?)
}

/// Returns what the records say of the names that an answer rests on, if it rests on records.
pub fn nsec_parts<'r, 'a>(question: &'r Question, judged: Judged<'r, 'a>) -> Option<Parts<'r, 'a>>
    ensures { (listed : List Link) → IsJudged listed question.now.apex question.now.name
        question.now.rtype judged.entry.answer
        → AreNsecWitnesses listed question.now.apex question.now.name judged.entry.answer
        (finding_of (λ n. n) judged.entry.of_name)
        (option_map (finding_of (λ n. n)) judged.entry.of_wildcard)
        → option_map tellings_of result
        ≡ nsec_tellings question.now.apex listed question.now.name judged.entry.answer }
{
    if !shows_records(judged.answer) {
        return None;
    }
    Some(Parts {
        matched: part_of(Role::Asked, judged.of_name),
        closer: None,
        wildcard: wildcard_part(&question.name, judged.answer, judged.of_wildcard),
        param: None,
    })
}
