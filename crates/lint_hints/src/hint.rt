//! Explains what is wrong with a word, given what it should be.

use domain_base::{Class, FromToken, Rtype, Ttl};
use std::alloc::{AllocError, Global};

/// The number of octets of a word that are quoted.
const MOST_QUOTED: usize = 60;

/// Returns a word in quotes, cut after `MOST_QUOTED` octets. An octet that is not printable ASCII,
/// or is a space, becomes a backslash and its number in three digits.
pub fn quoted(alloc: Global, word: &[u8]) -> Result<String, AllocError> {
    let mut text = format!(in alloc; "'")?;
    for octet in word.iter().take(MOST_QUOTED) {
        if *octet > b' ' && *octet <= b'~' {
            text.push(char::from(*octet))?;
        } else {
            text.push_str(format!(in alloc; "\\{octet:03}")?.as_str())?;
        }
    }
    text.push_str(if word.len() > MOST_QUOTED { "..'" } else { "'" })?;
    Ok(text)
}

/// What is wrong with a word that has a bracket of a zone file.
const BRACKET: &str = "has a bracket, which groups lines: write one record a line, without \
                       comments or brackets, as `denial zone` does";

/// What is wrong with a word that has a semicolon of a zone file.
const COMMENT: &str = "has a semicolon, which begins a comment: write one record a line, without \
                       comments or brackets, as `denial zone` does";

/// Returns what is wrong with a word that has a semicolon or a bracket outside of quotes and not
/// after a backslash (RFC 1035, section 5.1). `is_quoted` says whether the word begins within
/// quotes. If nothing is wrong, it then says whether the word ends within them.
fn sign_trouble(word: &str, is_quoted: &mut bool) -> Option<&'static str> {
    let mut is_escaped = false;
    for octet in word.as_bytes() {
        if is_escaped {
            is_escaped = false;
            continue;
        }
        match *octet {
            b'\\' => is_escaped = true,
            b'"' => *is_quoted = !*is_quoted,
            b';' if !*is_quoted => return Some(COMMENT),
            b'(' | b')' if !*is_quoted => return Some(BRACKET),
            _ => {}
        }
    }
    None
}

/// Returns the place of the first of these words that has such a sign of a zone file, counted from
/// 0, and what is wrong with it. The first word begins outside of quotes.
pub fn strange_trouble(words: &[&str]) -> Option<(usize, &'static str)> {
    let mut is_quoted = false;
    for (place, word) in words.iter().enumerate() {
        if let Some(trouble) = sign_trouble(word, &mut is_quoted) {
            return Some((place, trouble));
        }
    }
    None
}

/// Returns the number of seconds in a unit of a TTL. Zone files have such units, but records here
/// do not.
fn seconds_of_unit(unit: u8) -> Option<u64> {
    match unit.to_ascii_lowercase() {
        b's' => Some(1),
        b'm' => Some(60),
        b'h' => Some(3600),
        b'd' => Some(86400),
        b'w' => Some(604_800),
        _ => None,
    }
}

/// Returns the seconds of a TTL with units, such as 1h30m, or `None` if the word is not such a TTL.
fn seconds_of(word: &str) -> Option<u64> {
    let mut all: u64 = 0;
    let mut number: Option<u64> = None;
    for octet in word.as_bytes() {
        if octet.is_ascii_digit() {
            let digit = u64::from(octet.saturating_sub(b'0'));
            number = Some(number.unwrap_or(0).saturating_mul(10).saturating_add(digit));
        } else {
            all = all.saturating_add(number?.saturating_mul(seconds_of_unit(*octet)?));
            number = None;
        }
    }
    if number.is_some() || all > u64::from(u32::MAX) {
        return None;
    }
    Some(all)
}

/// Returns what is wrong with a TTL. `next` is the word after it.
pub fn ttl_trouble(alloc: Global, word: &str, next: &str) -> Result<String, AllocError> {
    if let Some(seconds) = seconds_of(word) {
        return format!(in alloc; "write {seconds} seconds, without a unit");
    }
    let is_class = Class::from_token(word).is_ok();
    if is_class && Ttl::from_token(next).is_ok() {
        return format!(in alloc; "write {next} before it, not after it");
    }
    let trouble = if word.as_bytes().iter().all(|octet| octet.is_ascii_digit()) {
        "it is over 4294967295 seconds"
    } else if is_class {
        "the TTL is missing before it"
    } else if Rtype::from_token(word).is_ok() {
        "the TTL and the class are missing before it"
    } else {
        "expected a number of seconds from 0 to 4294967295"
    };
    format!(in alloc; "{trouble}")
}

/// Returns what is wrong with a class.
pub fn class_trouble(word: &str) -> &'static str {
    if Rtype::from_token(word).is_ok() {
        return "the class is missing before it, such as IN";
    }
    "expected IN, CH, HS, or CLASS and its number"
}

/// The numbers of some types that have no name here.
const OTHER_TYPES: [(&str, u16); 17] = [
    ("RP", 17),
    ("AFSDB", 18),
    ("KEY", 25),
    ("LOC", 29),
    ("CERT", 37),
    ("APL", 42),
    ("IPSECKEY", 45),
    ("DHCID", 49),
    ("SMIMEA", 53),
    ("HIP", 55),
    ("OPENPGPKEY", 61),
    ("NID", 104),
    ("L32", 105),
    ("L64", 106),
    ("EUI48", 108),
    ("EUI64", 109),
    ("URI", 256),
];

/// Returns what is wrong with a type.
pub fn type_trouble(alloc: Global, word: &str) -> Result<String, AllocError> {
    for (name, number) in OTHER_TYPES {
        if word.eq_ignore_ascii_case(name) {
            return format!(in alloc;
                "is a type without a name here: write TYPE{number}, and the data in the generic \
                 form, \\# COUNT HEX (RFC 3597), as `denial zone` does"
            );
        }
    }
    format!(in alloc; "is not a type: expected a name such as A, or TYPE and its number")
}
