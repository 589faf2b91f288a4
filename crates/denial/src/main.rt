//! The program `denial`. It makes the chain that denies what a zone does not hold, reports what
//! records of such a chain prove, and finds mistakes in a zone.
//!
//! `denial_commands` does the work. It is generic over its reader, its writer and its hasher.
//! `main` passes those of the process, and opens the file that the arguments name.
#![tactic(auto)]

mod files;
mod progress;

use crate::files::{Extra, SystemFiles, open_extra, path_of, read_all};
use crate::progress::TellingHasher;
use denial_commands::{
    CommandFault, Explanation, FileFault, PlacedReport, RecordFaults, ZoneRunFault, has_extra_word,
    lint_lines, run_command, run_over_zone, shown_text, take_zone,
};
use denial_program::{BUFFER, DenialFault, ParamFlags, fault_of, words_of};
use std::io::{BufReader, BufWriter, IsTerminal, Read, Write};
use std::process::ExitCode;
use std::{io, slice, str};

/// Prints a fault of the process, and returns its exit status.
fn fail(rt: &HostRuntime, fault: DenialFault) -> u8 {
    let _ = eprintln!(rt; "{fault}");
    fault.status()
}

/// Prints that a file can't be read, and returns the exit status.
fn fail_to_read(rt: &HostRuntime, file: &str) -> u8 {
    let _ = eprintln!(rt; "denial: cannot read {file}");
    1
}

/// Prints at a terminal what is wrong with arguments that are no command.
fn explain(rt: &HostRuntime, words: &[String], fault: &CommandFault) {
    if fault.status() == 2 && rt.stderr().is_terminal() {
        if let [.., last] = words
            && has_extra_word(words)
        {
            let _ = eprintln!(rt; "denial: there is no file '{last}'");
        }
        let _ = eprint!(rt; "{}", Explanation::new(words));
    }
}

/// Prints a text.
fn print_text(rt: &HostRuntime, text: &str) -> u8 {
    match io::writer(rt).write_all(text.as_bytes()) {
        Ok(()) => 0,
        Err(_) => fail(rt, DenialFault::Write),
    }
}

/// Runs a command over what a reader of the file of this name gives, and returns the exit status.
fn run_reader<R: Read + Drop>(rt: &HostRuntime, words: &[String], name: &str, reader: R) -> u8 {
    let alloc = rt.alloc();
    let Ok(mut input) = BufReader::with_capacity(alloc, BUFFER, reader) else {
        return fail(rt, DenialFault::OutOfMemory);
    };
    let Ok(mut output) = BufWriter::with_capacity(alloc, BUFFER, io::writer(rt)) else {
        return fail(rt, DenialFault::OutOfMemory);
    };
    let (flags, hasher, files) = (
        ParamFlags::OfChain,
        TellingHasher::new(rt),
        SystemFiles::new(rt),
    );
    let path = path_of(name);
    match run_command(
        alloc,
        words,
        flags,
        &hasher,
        &files,
        path,
        &mut input,
        &mut output,
    ) {
        Ok(outcome) => outcome.status(),
        Err(fault) => {
            explain(rt, words, &fault);
            let _ = eprintln!(rt; "{fault}");
            fault.status()
        }
    }
}

/// Runs a command over the file that follows its arguments, or over standard input.
fn run_records(rt: &HostRuntime, words: &[String]) -> u8 {
    let [front @ .., last] = words else {
        return run_reader(rt, words, "-", rt.reader());
    };
    if !has_extra_word(words) {
        return run_reader(rt, words, "-", rt.reader());
    }
    match open_extra(rt, last.as_str()) {
        Extra::Standard => run_reader(rt, front, "-", rt.reader()),
        Extra::File(file) => run_reader(rt, front, last.as_str(), file),
        Extra::Missing => run_reader(rt, words, "-", rt.reader()),
        Extra::Unreadable => fail_to_read(rt, last.as_str()),
        Extra::OutOfMemory => fail(rt, DenialFault::OutOfMemory),
    }
}

/// Returns whether a command makes a chain. Its second word is then the apex.
fn makes_chain(command: &str) -> bool {
    matches!(command, "nsec" | "nsec3")
}

/// Returns the report of `lint` on the lines of a zone file, if no chain is made for a fault of
/// their records: it names these records.
fn report_on(
    rt: &HostRuntime,
    words: &[String],
    fault: &ZoneRunFault,
) -> Result<Vec<u8>, DenialFault> {
    let (alloc, hasher) = (rt.alloc(), TellingHasher::new(rt));
    match (words, fault) {
        (
            [command, apex, ..],
            ZoneRunFault::Records(
                CommandFault::Denial(DenialFault::Signing(_) | DenialFault::MixedClasses),
                lines,
            ),
        ) if makes_chain(command.as_str()) => lint_lines(
            alloc,
            slice::from_ref(apex),
            lines,
            &hasher,
        ),
        _ => Ok(Vec::new(alloc)),
    }
}

/// Prints the faults of the records of a zone file, each with its place.
fn print_faults(rt: &HostRuntime, name: &str, fault: &ZoneRunFault, report: &[u8]) {
    if let ZoneRunFault::Records(_, lines) = fault
        && let Ok(report) = str::from_utf8(report)
    {
        let path = path_of(name);
        let placed = PlacedReport {
            report,
            lines,
            path,
        };
        let _ = eprint!(rt; "{}", RecordFaults { file: name, placed });
    }
}

/// Prints why a run over a zone file stops, and returns the exit status.
fn fail_over_zone(rt: &HostRuntime, words: &[String], name: &str, fault: &ZoneRunFault) -> u8 {
    if let ZoneRunFault::Command(fault) = fault {
        explain(rt, words, fault);
    }
    let report = match report_on(rt, words, fault) {
        Ok(report) => report,
        Err(fault) => return fail(rt, fault),
    };
    let path = path_of(name);
    let _ = eprintln!(rt;
        "{}",
        FileFault {
            file: name,
            path,
            fault
        }
    );
    print_faults(rt, name, fault, report.as_slice());
    fault.status()
}

/// Runs a command other than `lint` over a zone file of this name, and returns the exit status.
fn run_zone_file(rt: &HostRuntime, words: &[String], name: &str, file: &[u8]) -> u8 {
    let alloc = rt.alloc();
    let Ok(mut output) = BufWriter::with_capacity(alloc, BUFFER, io::writer(rt)) else {
        return fail(rt, DenialFault::OutOfMemory);
    };
    let (files, hasher, path) = (SystemFiles::new(rt), TellingHasher::new(rt), path_of(name));
    match run_over_zone(alloc, words, &files, path, file, &hasher, &mut output) {
        Ok(run) => run.outcome.status(),
        Err(fault) => fail_over_zone(rt, words, name, &fault),
    }
}

/// Runs `lint` over a zone file of this name, and returns the exit status. The places of records
/// are those in the files.
fn lint_zone_file(rt: &HostRuntime, words: &[String], name: &str, file: &[u8]) -> u8 {
    let alloc = rt.alloc();
    let mut octets: Vec<u8> = Vec::new(alloc);
    let (files, hasher, path) = (SystemFiles::new(rt), TellingHasher::new(rt), path_of(name));
    let run = match run_over_zone(alloc, words, &files, path, file, &hasher, &mut octets) {
        Ok(run) => run,
        Err(fault) => return fail_over_zone(rt, words, name, &fault),
    };
    let Ok(report) = str::from_utf8(octets.as_slice()) else {
        return fail(rt, DenialFault::Write);
    };
    let lines = &run.lines;
    match print_text_of(
        rt,
        PlacedReport {
            report,
            lines,
            path,
        },
    ) {
        Ok(()) => run.outcome.status(),
        Err(fault) => fail(rt, fault),
    }
}

/// Prints a report.
fn print_text_of(rt: &HostRuntime, report: PlacedReport<'_>) -> Result<(), DenialFault> {
    let Ok(mut output) = BufWriter::with_capacity(rt.alloc(), BUFFER, io::writer(rt)) else {
        return Err(DenialFault::OutOfMemory);
    };
    if let Err(e) = write!(output, "{report}") {
        return Err(fault_of(&e, DenialFault::Write));
    }
    match output.flush() {
        Ok(()) => Ok(()),
        Err(e) => Err(fault_of(&e, DenialFault::Write)),
    }
}

/// Runs a command over a zone file, and returns the exit status.
fn run_over_file(rt: &HostRuntime, words: &[String], name: &str) -> u8 {
    let octets = match read_all(rt, name) {
        Ok(octets) => octets,
        Err(DenialFault::Read) => return fail_to_read(rt, name),
        Err(fault) => return fail(rt, fault),
    };
    match words {
        [word, ..] if word.as_str() == "lint" => {
            lint_zone_file(rt, words, name, octets.as_slice())
        }
        _ => run_zone_file(rt, words, name, octets.as_slice()),
    }
}

/// Runs the program with the arguments after its name, and returns its exit status.
fn run(rt: &HostRuntime) -> u8 {
    let mut words = match words_of(rt) {
        Ok(words) => words,
        Err(fault) => return fail(rt, fault),
    };
    if let Some(text) = shown_text(words.as_slice()) {
        return print_text(rt, text);
    }
    match take_zone(&mut words) {
        Some(name) => run_over_file(rt, words.as_slice(), name.as_str()),
        None => run_records(rt, words.as_slice()),
    }
}

fn main(rt: HostRuntime) -> ExitCode {
    ExitCode::from(run(&rt))
}
