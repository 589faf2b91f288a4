//! Times of signatures, and how they compare beside serial numbers (RFC 1982; RFC 4034, section 3).
use super::*;

/// Adds the time that a text spells, in each of its forms, and the time that it spells as a token.
fn time(text: &str, answers: &mut Answers) -> Answered {
    match text.parse::<Timestamp>() {
        Ok(stamp) => {
            let text = stamp.display_zonefile(answers.alloc, DisplayKind::Simple);
            say!(answers, debug "read": stamp, debug "zone file": text);
            say_composed!(answers, stamp, Timestamp, 2)
        }
        Err(error) => answers.show("refused", &error),
    };
    let scanned = <Timestamp as FromToken>::scan(&mut Tokens::new(&[text]));
    answers.show_made("scanned", &scanned)
}

/// Adds the time of `stamp` that is nearest to `reference`. All of them are in Base 16.
fn near(stamp: &str, reference: &str, answers: &mut Answers) -> Answered {
    let stamp = u32::from_str_radix(stamp, 16).unwrap_or(0);
    let reference = u64::from_str_radix(reference, 16).unwrap_or(0);
    match Timestamp::from(stamp).to_system_time(reference) {
        Some(time) => {
            let text = answers.own(format!(in answers.alloc; "{time:x}"))?;
            answers.show("time", &text)
        }
        None => answers.show("time", &"none"),
    }
}

/// Answers a vector on a time that one token spells. Its own `scan` reads it.
pub fn scanned(tokens: &[&str], answers: &mut Answers) -> Answered {
    let mut scanner = Tokens::new(tokens);
    answers.show_made("value", &Timestamp::scan(&mut scanner));
    answers.debug("continues", &scanner.continues())
}

/// Adds how two numbers compare as serial numbers and as times.
fn serials(first: &str, second: &str, answers: &mut Answers) -> Answered {
    let a = first.parse().unwrap_or(0u32);
    let b = second.parse().unwrap_or(0u32);
    let (first, second) = (Serial::from(a), Serial::from(b));
    let (from, to) = (Timestamp::from(a), Timestamp::from(b));
    say!(
        answers, debug "partial_cmp": first.partial_cmp(&second),
        debug "canonical_cmp": first.canonical_cmp(&second),
        debug "partial_cmp of times": from.partial_cmp(&to),
        debug "canonical_cmp of times": from.canonical_cmp(&to)
    )
}

/// Answers a vector on times, or on serial numbers and times that are compared.
pub fn answer(form: &str, words: &[&str], answers: &mut Answers) -> Answered {
    let (first, second) = (word(words, 0), word(words, 1));
    match form {
        "serials" => serials(first, second, answers),
        "time" => time(first, answers),
        _ => near(first, second, answers),
    }
}
