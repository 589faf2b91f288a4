//! The answers with which records are shown.
ghost use Rattle.std.specs.Prelude.{◌≡◌};
ghost use Rattle.judge_program.specs.Told.{needs_next_closer, shows_records};

use domain_answer::{Answer, wildcard_count};

/// Returns whether records are shown with an answer: those that it rests on or, if the parent zone
/// answers, that of the apex, with which a server of this zone answers (RFC 4035, section 3.1.4.1).
pub fn shows_records(answer: Answer) -> bool
    ensures { result ≡ shows_records answer }
{
    match answer {
        Answer::OutsideZone | Answer::TooManyIterations | Answer::NotProven => false,
        _ => true,
    }
}

/// Returns whether an answer rests on a cover of the next closer name.
pub fn needs_next_closer(answer: Answer) -> bool
    ensures { result ≡ needs_next_closer answer }
{
    wildcard_count(answer).is_some()
}
