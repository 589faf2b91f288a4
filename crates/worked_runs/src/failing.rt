//! Runs whose reader or writer fails.
use crate::outcome::{outcome, show};
use denial_program::{DenialFault, run_denial};
use domain_sha1::Sha1Hasher;
use std::io;
use std::io::{BufReader, ErrorKind, Read, Write};

/// A reader that returns at most 7 octets per read. It fails once, for `reason`, at the read after
/// the first `good` reads.
#[derive(Drop)]
struct FailingReader<'a> {
    octets: &'a [u8],
    good: usize,
    reason: ErrorKind,
    has_failed: bool,
}

impl Read for FailingReader<'_> {
    fn read(&mut self, buf: &mut [u8]) -> io::Result<usize> {
        if self.good == 0 && !self.has_failed {
            self.has_failed = true;
            return Err(io::Error::from(self.reason));
        }
        self.good = self.good.saturating_sub(1);
        let n = buf.len().min(7);
        Read::read(&mut self.octets, &mut buf[..n])
    }
}

/// A writer that takes at most 11 octets per write. It fails at the write after the first `good`
/// writes, or only when it is flushed.
#[derive(Drop)]
struct FailingWriter {
    good: usize,
    hands_on: bool,
    held: Vec<u8>,
}

impl Write for FailingWriter {
    fn write(&mut self, buf: &[u8]) -> io::Result<usize> {
        if self.good == 0 {
            return Err(io::Error::from(ErrorKind::Other));
        }
        self.good -= 1;
        let n = buf.len().min(11);
        Write::write(&mut self.held, &buf[..n])
    }

    fn flush(&mut self) -> io::Result<()> {
        if self.good == 0 || !self.hands_on {
            return Err(io::Error::from(ErrorKind::Other));
        }
        Ok(())
    }
}

/// Returns the outcome of a run whose reader fails once, for `reason`, after `good` reads.
fn said_after(
    rt: &HostRuntime,
    good: usize,
    reason: ErrorKind,
    words: &[String],
    text: &str,
) -> io::Result<String> {
    let reader = FailingReader {
        octets: text.as_bytes(),
        good,
        reason,
        has_failed: false,
    };
    let mut input = BufReader::with_capacity(rt.alloc(), 8, reader)?;
    outcome(rt.alloc(), words, &Sha1Hasher, &mut input)
}

/// Prints the outcomes of runs whose reader fails after each number of reads. The numbers go from
/// the first word up to the second. An outcome that equals the one before it is not printed.
pub fn reads(rt: &HostRuntime, reason: ErrorKind, words: &[String], text: &str) -> io::Result<()> {
    let [first, end, words @ ..] = words else {
        return Err(io::Error::from(ErrorKind::InvalidInput));
    };
    let (first, end) = (first.parse().unwrap_or(0), end.parse().unwrap_or(0));
    let mut before = String::new(rt.alloc());
    for good in first..end {
        let said = said_after(rt, good, reason, words, text)?;
        if said != before {
            show(rt, said.as_str())?;
        }
        before = said;
    }
    Ok(())
}

/// Runs `denial` with a writer that fails after `good` writes, or when it is flushed.
fn run_into(
    rt: &HostRuntime,
    good: usize,
    hands_on: bool,
    words: &[String],
    text: &str,
) -> (Result<(), DenialFault>, Vec<u8>) {
    let mut output = FailingWriter {
        good,
        hands_on,
        held: Vec::new(rt.alloc()),
    };
    let answer = run_denial(
        rt.alloc(),
        words,
        &Sha1Hasher,
        &mut text.as_bytes(),
        &mut output,
    );
    let FailingWriter { held, .. } = output;
    (answer, held)
}

/// Prints what is written if the writer fails after each number of writes up to 300. Each write
/// takes at most 11 octets.
pub fn writes(rt: &HostRuntime, words: &[String], text: &str) -> io::Result<()> {
    let (_, whole) = run_into(rt, usize::MAX, true, words, text);
    let (mut refused, mut is_beginning, mut is_told) = (0, true, true);
    for good in 0..300 {
        let (answer, held) = run_into(rt, good, true, words, text);
        is_beginning &= whole.as_slice().starts_with(held.as_slice());
        if answer == Err(DenialFault::Write) {
            refused = good + 1;
        } else {
            is_told &= answer == Ok(()) && held.as_slice() == whole.as_slice();
        }
    }
    println!(rt; "  octets: {}", whole.len())?;
    println!(rt; "  a beginning: {is_beginning}")?;
    println!(rt; "  each failure told: {is_told}")?;
    let is_each = refused >= whole.len() / 11 && refused < 300;
    println!(rt; "  refused at each piece, and then no longer: {is_each}")
}

/// Prints the result of a run whose writer takes all octets but can't flush them.
pub fn flush(rt: &HostRuntime, words: &[String], text: &str) -> io::Result<()> {
    let (_, whole) = run_into(rt, usize::MAX, true, words, text);
    let (answer, held) = run_into(rt, usize::MAX, false, words, text);
    println!(rt; "  answer: {answer:?}")?;
    println!(rt; "  all of it: {}", held.as_slice() == whole.as_slice())
}
