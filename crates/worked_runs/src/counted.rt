//! Counts: the records of a chain, those of them that list no types, and the hashes of a run.
use crate::hashers::CountingHasher;
use crate::outcome::outcome;
use std::cell::Cell;
use std::io;

/// Returns whether a line is an NSEC3 record that lists no types. Such a line has nine words.
fn is_untyped(line: &str) -> bool {
    line.contains(" NSEC3 ") && line.split(' ').count() == 9
}

/// Prints the outcome of a run of `denial` in numbers.
pub fn run(rt: &HostRuntime, words: &[String], text: &str) -> io::Result<()> {
    let hasher = CountingHasher {
        asked: Cell::new(0),
    };
    let said = outcome(rt.alloc(), words, &hasher, &mut text.as_bytes())?;
    let untyped = said.lines().filter(|line| is_untyped(line)).count();
    println!(rt; "  lines: {}", said.lines().count())?;
    println!(rt; "  NSEC3 records: {}", said.matches(" IN NSEC3 ").count())?;
    println!(rt; "  without types: {untyped}")?;
    println!(rt; "  hashed: {}", hasher.asked.get())
}
