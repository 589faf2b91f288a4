//! Entries of a zone file, and names and records in messages (RFC 1035, sections 4.1 and 5.1).
use super::*;

/// Adds the record that tokens spell, or the reason why they spell none.
fn show(made: &Result<OwnedRecord, LineError>, answers: &mut Answers) -> Answered {
    answers.show_made("record", made);
    match made {
        Err(error) if !error.is_out_of_memory() => answers.echo("  not for memory"),
        _ => Some(()),
    }
}

/// Adds the record whose owner is `owner`, and whose other parts `tokens` spell.
fn behind(owner: &str, tokens: &[&str], answers: &mut Answers) -> Answered {
    let owner = answers.name(owner)?;
    show(
        &scan_behind_owner(answers.alloc, &mut Tokens::new(tokens), owner),
        answers,
    )
}

/// Adds the name at a place of a message, and the place after it.
fn name(place: &str, octets: &[u8], answers: &mut Answers) -> Answered {
    let place = place.parse::<usize>().unwrap_or(0);
    match read_name::<OwnName>(answers.alloc, octets, place) {
        Ok((name, end)) => say!(answers, show "name": name, show "end": end),
        Err(error) => answers.debug("refused", &error),
    }
}

/// Adds the record at a place of a message, and the place after it.
fn record(place: &str, octets: &[u8], answers: &mut Answers) -> Answered {
    let place = place.parse::<usize>().unwrap_or(0);
    match read_record::<Vec<u8>, OwnName>(answers.alloc, octets, place) {
        Ok((record, end)) => say!(answers, show "record": record, show "end": end),
        Err(error) => answers.debug("refused", &error),
    }
}

/// Answers a vector on entries, or on names or records in messages.
pub fn answer(form: &str, words: &[&str], answers: &mut Answers) -> Answered {
    let (first, rest) = (word(words, 0), words.get(1..).unwrap_or_default());
    match form {
        "scan" => show(&scan_entry(answers.alloc, &mut Tokens::new(words)), answers),
        "behind" => behind(first, rest, answers),
        "none" => say!(answers, show "no entry": is_no_entry(first.as_bytes())),
        "record" => record(first, answers.spelled(rest)?.as_slice(), answers),
        _ => name(first, answers.spelled(rest)?.as_slice(), answers),
    }
}
