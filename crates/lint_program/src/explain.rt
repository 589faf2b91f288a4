//! Explains what is wrong with a line that is not a record. Nothing here decides that it is none.

use crate::refusal::refusal_of;
use denial_program::without_end;
use lint_hints::{
    Part, class_trouble, fields_of, missing_data, name_trouble, quoted, strange_trouble,
    told_of_data, ttl_trouble, type_trouble,
};
use std::alloc::{AllocError, Global};
use std::str;

/// The place of the first word of a line's data, counted from 0.
const DATA: usize = 4;

/// Returns the number of the wrong word in a line, counted from 1, and what is wrong with it. Pass
/// the line with its end.
pub fn explain(alloc: Global, line: &[u8]) -> Result<(usize, String), AllocError> {
    let line = without_end(line);
    let mut words = Vec::new(alloc);
    for word in line.split(|octet| *octet == b' ' || *octet == b'\t') {
        if let Some(octet) = word.iter().find(|octet| **octet > b'~') {
            let said = quoted(alloc, word)?;
            let text = format!(in alloc;
                "{said} has the octet {octet}, which is not printable ASCII: write it as \
                 \\{octet:03}, and an internationalized label as an A-label (xn--)"
            )?;
            return Ok((words.len().saturating_add(1), text));
        }
        if !word.is_empty() {
            words.push(str::from_utf8(word).unwrap_or(""))?;
        }
    }
    if let Some(directive) = directive_of(&words) {
        let text = format!(in alloc;
            "'{directive}' is a directive, which is not read here: `denial zone` reads zone files"
        )?;
        return Ok((1, text));
    }
    explain_words(alloc, line, &words)
}

/// Returns the directive of a zone file at the beginning of the words (RFC 1035, section 5.1; RFC
/// 2308, section 4).
fn directive_of(words: &[&str]) -> Option<&'static str> {
    let first = words.first()?;
    ["$ORIGIN", "$TTL", "$INCLUDE", "$GENERATE"]
        .into_iter()
        .find(|directive| first.eq_ignore_ascii_case(directive))
}

/// Explains the word that cannot be read as the part of the record at its place, or a sign of a
/// zone file at it or before it in the data.
fn explain_words(
    alloc: Global,
    line: &[u8],
    words: &[&str],
) -> Result<(usize, String), AllocError> {
    let Some((number, part)) = refusal_of(alloc, words)? else {
        return Ok((1, format!(in alloc; "the line is not a record")?));
    };
    if let ([b' ' | b'\t', ..], Part::Ttl | Part::Class | Part::Type) = (line, part) {
        let text = format!(in alloc;
            "the line begins with a blank: write the owner in front of each record"
        )?;
        return Ok((1, text));
    }
    let told = told_of_part(alloc, words, number, part)?;
    let (from, end) = searched(words, told.0, part);
    let behind = words.get(from..end).unwrap_or(&[]);
    let Some((place, trouble)) = strange_trouble(behind) else {
        return Ok(told);
    };
    let word = behind.get(place).copied().unwrap_or("");
    let said = quoted(alloc, word.as_bytes())?;
    let number = from.saturating_add(place).saturating_add(1);
    Ok((number, format!(in alloc; "{said} {trouble}")?))
}

/// Returns the places of the words that are searched for signs of a zone file: the first, and the
/// one after the last. `number` is the number of the wrong word. Data without a presentation format
/// here are searched whole.
fn searched(words: &[&str], number: usize, part: Part) -> (usize, usize) {
    match part {
        Part::Data(rtype) if fields_of(rtype).is_empty() => (DATA, words.len()),
        Part::Data(_) | Part::Nothing(_) => (DATA, number.min(words.len())),
        _ => (number.saturating_sub(1), number),
    }
}

/// Returns the number of the wrong word, and what is wrong with it. `number` is the number of the
/// word that cannot be read.
fn told_of_part(
    alloc: Global,
    words: &[&str],
    number: usize,
    part: Part,
) -> Result<(usize, String), AllocError> {
    let data = words.get(DATA..).unwrap_or(&[]);
    let Some(word) = words.get(number.saturating_sub(1)) else {
        return Ok((number, told_of_missing(alloc, data, part)?));
    };
    match part {
        Part::Data(rtype) => told_of_data(alloc, rtype, data, number),
        _ => Ok((number, told_of_word(alloc, words, word, part)?)),
    }
}

/// Returns what is wrong with a word that is not part of the data.
fn told_of_word(
    alloc: Global,
    words: &[&str],
    word: &str,
    part: Part,
) -> Result<String, AllocError> {
    let said = quoted(alloc, word.as_bytes())?;
    let next = words.get(2).copied().unwrap_or("");
    match part {
        Part::Owner => format!(in alloc; "{said} is not a name: {}", name_trouble(word)),
        Part::Ttl => format!(in alloc; "{said} is not a TTL: {}", ttl_trouble(alloc, word, next)?),
        Part::Class => format!(in alloc; "{said} is not a class: {}", class_trouble(word)),
        Part::Type => format!(in alloc; "{said} {}", type_trouble(alloc, word)?),
        Part::Data(rtype) | Part::Nothing(rtype) => format!(in alloc;
            "{said} is one word too many: data of {rtype} end before it"
        ),
    }
}

/// Returns the explanation for a part that is missing at the end of the line.
fn told_of_missing(alloc: Global, data: &[&str], part: Part) -> Result<String, AllocError> {
    let text = match part {
        Part::Owner => "the owner is missing",
        Part::Ttl => "the line ends here: TTL, class, type and data are missing",
        Part::Class => "the line ends here: class, type and data are missing",
        Part::Type => "the line ends here: type and data are missing",
        Part::Data(rtype) | Part::Nothing(rtype) => return missing_data(alloc, rtype, data),
    };
    format!(in alloc; "{text}")
}
