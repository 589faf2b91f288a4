//! The words of a vector.
use domain_base::FromToken;
use std::alloc::{AllocError, Global};

/// Expands what a word abbreviates: `''` is the empty word, and `a.{127}` is `a.` 127 times.
pub fn expanded(alloc: Global, word: &str) -> Result<String, AllocError> {
    if word == "''" {
        return Ok(String::new(alloc));
    }
    let (repeated, count) = word.split_once('{').unwrap_or((word, "1"));
    match count.trim_end_matches('}').parse::<usize>() {
        Ok(count) if count <= 70_000 => repeated.repeat(alloc, count),
        _ => String::from_str(alloc, word),
    }
}

/// Returns the word at index `at`, or the empty word.
pub fn word<'a>(words: &[&'a str], at: usize) -> &'a str {
    words.get(at).copied().unwrap_or_default()
}

/// Returns the value that a word spells, or `None` if it spells none.
pub fn value<F: FromToken + Drop>(word: &str) -> Option<F> {
    F::from_token(word).ok()
}

/// Returns whether a word separates two parts.
pub fn is_slash(word: &&str) -> bool {
    *word == "/"
}

/// Returns the words before the first `mark`, and all words after it.
pub fn halves<'a, 'b>(words: &'a [&'b str], mark: &str) -> (&'a [&'b str], &'a [&'b str]) {
    match words.iter().position(|word| *word == mark) {
        Some(at) => (&words[..at], words.get(at + 1..).unwrap_or_default()),
        None => (words, Default::default()),
    }
}
