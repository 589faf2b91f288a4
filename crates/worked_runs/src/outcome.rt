//! The outcome of a run: what it writes, or what it says about its fault.
use denial_program::run_denial;
use domain_hasher::Nsec3Hasher;
use domain_sha1::Sha1Hasher;
use std::alloc::Global;
use std::io;
use std::io::{BufRead, ErrorKind};

/// Converts octets to a text.
pub fn text_of(octets: Vec<u8>) -> io::Result<String> {
    String::from_utf8(octets).map_err(|_| io::Error::from(ErrorKind::InvalidData))
}

/// Returns what a run of `denial` with the arguments `words` writes, or what it says about its
/// fault.
pub fn outcome<R: BufRead, H: Nsec3Hasher>(
    alloc: Global,
    words: &[String],
    hasher: &H,
    input: &mut R,
) -> io::Result<String> {
    let mut output = Vec::new(alloc);
    match run_denial(alloc, words, hasher, input, &mut output) {
        Ok(()) => text_of(output),
        Err(_) if !output.is_empty() => Ok(String::from_str(alloc, "a fault, and output")?),
        Err(fault) => Ok(format!(in alloc; "{fault}")?),
    }
}

/// Prints each line of a text.
pub fn show(rt: &HostRuntime, text: &str) -> io::Result<()> {
    for line in text.lines() {
        println!(rt; "  {line}")?;
    }
    Ok(())
}

/// Prints the outcome of a run of `denial`.
pub fn run(rt: &HostRuntime, words: &[String], text: &str) -> io::Result<()> {
    let said = outcome(rt.alloc(), words, &Sha1Hasher, &mut text.as_bytes())?;
    show(rt, said.as_str())
}
