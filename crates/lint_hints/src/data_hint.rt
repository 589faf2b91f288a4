//! Explains what is wrong with the data of a record.

use crate::date::seconds_of_date;
use crate::generic::generic_form;
use crate::hint::quoted;
use crate::name_hint::name_trouble;
use crate::wanted::{BASE16, BASE64, NAME, TIME, field_at, fields_of};
use domain_base::{FromToken, Rtype};
use std::alloc::{AllocError, Global};

/// The number of the first word of a line's data, counted from 1.
const FIRST: usize = 5;

/// The number of the word with the number of octets, in the generic form.
const COUNT: usize = 6;

/// The number of the first word with octets, in the generic form.
const OCTETS: usize = 7;

/// Returns whether all octets of a word are Base 16 digits or, for `BASE64`, Base 64 digits or
/// padding.
fn are_digits(form: &str, word: &str) -> bool {
    word.as_bytes().iter().all(|octet| match *octet {
        b'+' | b'/' | b'=' => form == BASE64,
        _ if form == BASE64 => octet.is_ascii_alphanumeric(),
        _ => octet.is_ascii_hexdigit(),
    })
}

/// Returns the place of the first of these words, starting at `from`, with an octet that is not a
/// digit of the form.
fn first_other(form: &str, words: &[&str], from: usize) -> Option<usize> {
    let after = words
        .get(from..)?
        .iter()
        .position(|word| !are_digits(form, word))?;
    Some(from.saturating_add(after))
}

/// Returns what is wrong with data in the generic form, and the number of the wrong word. That is
/// `number` if words are missing. If the octets are wrong, it is their first word.
fn told_of_generic(
    alloc: Global,
    rtype: Rtype,
    data: &[&str],
    number: usize,
) -> Result<(usize, String), AllocError> {
    let [_mark, count, digits @ ..] = data else {
        return Ok((number, missing_data(alloc, rtype, data)?));
    };
    let Ok(wanted) = u16::from_token(count) else {
        let said = quoted(alloc, count.as_bytes())?;
        let text = format!(in alloc; "{said} is not a number of octets: expected 0 to 65535")?;
        return Ok((COUNT, text));
    };
    if let Some(place) = first_other(BASE16, data, 2) {
        let said = quoted(alloc, data.get(place).copied().unwrap_or("").as_bytes())?;
        let text = format!(in alloc; "{said} is not Base 16: write each octet as two digits")?;
        return Ok((place.saturating_add(FIRST), text));
    }
    let mut found: usize = 0;
    for word in digits {
        found = found.saturating_add(word.len());
    }
    if found % 2 != 0 {
        let text = format!(in alloc; "the Base 16 digits do not encode whole octets")?;
        return Ok((OCTETS, text));
    }
    if found / 2 != usize::from(wanted) {
        let text = format!(in alloc; "\\# {wanted} is followed by {} octets", found / 2)?;
        return Ok((COUNT, text));
    }
    let wrong = if found == 0 { COUNT } else { OCTETS };
    Ok((
        wrong,
        format!(in alloc; "these octets do not encode data of {rtype}")?,
    ))
}

/// Returns what is wrong with data whose word of this number in the line cannot be read, and the
/// number of the wrong word. Octets in several words are read as one.
pub fn told_of_data(
    alloc: Global,
    rtype: Rtype,
    data: &[&str],
    number: usize,
) -> Result<(usize, String), AllocError> {
    if data.first() == Some(&"\\#") {
        return told_of_generic(alloc, rtype, data, number);
    }
    let place = number.saturating_sub(FIRST);
    let Some((name, form)) = field_at(rtype, place) else {
        let form = generic_form(alloc, rtype, data)?;
        let text = format!(in alloc;
            "data of {rtype} have no presentation format here: write {form}"
        )?;
        return Ok((number, text));
    };
    let last = fields_of(rtype).len().saturating_sub(1);
    let place = if form == BASE16 || form == BASE64 {
        first_other(form, data, last)
    } else {
        Some(place)
    };
    let Some(place) = place else {
        let text = format!(in alloc;
            "the {name} ({rtype}) does not encode whole octets: expected {form}"
        )?;
        return Ok((last.saturating_add(FIRST), text));
    };
    let word = data.get(place).copied().unwrap_or("");
    let text = told_of_field(alloc, rtype, name, form, word)?;
    Ok((place.saturating_add(FIRST), text))
}

/// Returns what is wrong with a word that is not the field with this name and this format.
fn told_of_field(
    alloc: Global,
    rtype: Rtype,
    name: &str,
    form: &str,
    word: &str,
) -> Result<String, AllocError> {
    let said = quoted(alloc, word.as_bytes())?;
    if form == TIME {
        if let Some(seconds) = seconds_of_date(word) {
            return format!(in alloc; "{said} is a date: write the seconds since 1970, {seconds}");
        }
    }
    let (expected, wanted) = if form == NAME {
        ("", name_trouble(word))
    } else {
        ("expected ", form)
    };
    format!(in alloc; "{said} is not a valid {name} ({rtype}): {expected}{wanted}")
}

/// Returns the explanation for data that end too early.
pub fn missing_data(alloc: Global, rtype: Rtype, data: &[&str]) -> Result<String, AllocError> {
    if data.first() == Some(&"\\#") {
        return format!(in alloc;
            "the line ends here: the number of octets and the octets are missing"
        );
    }
    match field_at(rtype, data.len()) {
        Some((name, form)) => format!(in alloc;
            "the line ends before the {name} ({rtype}): expected {form}"
        ),
        None => format!(in alloc;
            "the line ends before the data of {rtype}: expected the generic form, \\# COUNT HEX \
             (RFC 3597)"
        ),
    }
}
