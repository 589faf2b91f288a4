//! Worked runs: each run of `denial` or `denial lint` that the input spells. The answer is what the
//! run writes, or what it says about its fault. Some runs have readers or writers that fail. Some
//! have hashers that count their calls, or that give many names the same hash.
#![tactic(auto)]

mod alike;
mod counted;
mod failing;
mod hashers;
mod input;
mod outcome;

use crate::hashers::LengthHasher;
use domain_sha1::Sha1Hasher;
use std::io;
use std::io::ErrorKind;

/// Answers a run, given its form, the words after it, and the text that it reads.
fn answer(rt: &HostRuntime, form: &str, words: &[String], text: &str) -> io::Result<()> {
    match form {
        "denial" => outcome::run(rt, words, text),
        "counted" => counted::run(rt, words, text),
        "interrupted-reads" => failing::reads(rt, ErrorKind::Interrupted, words, text),
        "failing-reads" => failing::reads(rt, ErrorKind::Other, words, text),
        "failing-writes" => failing::writes(rt, words, text),
        "failing-flush" => failing::flush(rt, words, text),
        "lint" => alike::lint(rt, &Sha1Hasher, words, text),
        "lint-by-length" => alike::lint(rt, &LengthHasher, words, text),
        "first-alike" => alike::first(rt, &Sha1Hasher, words, text),
        "first-alike-by-length" => alike::first(rt, &LengthHasher, words, text),
        _ => Err(io::Error::from(ErrorKind::InvalidInput)),
    }
}

/// Answers the run that a line spells, if it spells one.
fn answer_line(rt: &HostRuntime, line: &str, text: &str) -> io::Result<()> {
    if line.is_empty() || line.starts_with('#') {
        return Ok(());
    }
    let words = input::words(rt.alloc(), line)?;
    match words.as_slice() {
        [form, rest @ ..] => answer(rt, form.as_str(), rest, text),
        [] => Ok(()),
    }
}

/// Prints each line of the input. The answer to a run is below the run and its lines. A run without
/// lines reads what the run before it read.
fn main(rt: HostRuntime) -> io::Result<()> {
    let alloc = rt.alloc();
    let input = io::read_to_string(alloc, rt.reader())?;
    let (mut head, mut text) = (String::new(alloc), String::new(alloc));
    let mut is_begun = false;
    for line in input.lines() {
        if let Some(spelled) = line.strip_prefix("|") {
            if !is_begun {
                text.clear();
            }
            is_begun = true;
            input::add_line(&mut text, spelled)?;
        } else {
            answer_line(&rt, head.as_str(), text.as_str())?;
            head = String::from_str(alloc, line)?;
            is_begun = false;
        }
        println!(rt; "{line}")?;
    }
    answer_line(&rt, head.as_str(), text.as_str())
}
