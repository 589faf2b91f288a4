//! The report of `lint` on a zone file, and the faults of its records, with the places of the
//! records.
use crate::fault::LinePlace;
use domain_includes::PathText;
use std::fmt;
use zone_program::ZoneLines;

/// The report of `lint` on lines of a zone file, with the places of their records. Where the report
/// names a line by its number, the text has the line of the record in the file, as `line N`, or in
/// an included file `PATH:N`.
#[derive(Clone, Copy)]
pub struct PlacedReport<'a> {
    /// The report on the lines.
    pub report: &'a str,
    /// The lines.
    pub lines: &'a ZoneLines,
    /// The path of the zone file, or nothing for standard input.
    pub path: &'a [u8],
}

/// The faults of the records of a zone file for which `nsec` rejects them, one a line, as
/// `FILE:LINE: TEXT`, or in an included file `PATH:LINE: TEXT`. They are in the report of `lint` on
/// the records.
#[derive(Clone, Copy)]
pub struct RecordFaults<'a> {
    /// The name of the file.
    pub file: &'a str,
    /// The report on the records.
    pub placed: PlacedReport<'a>,
}

/// A text that begins with the number of a line.
#[derive(Clone, Copy)]
struct Numbered<'a> {
    number: usize,
    rest: &'a str,
}

/// Returns the number with which a text begins, and what is behind it.
fn split_number(text: &str) -> Option<Numbered<'_>> {
    let len = match text.find(|c: char| !c.is_ascii_digit()) {
        Some(len) => len,
        None => text.len(),
    };
    let (digits, rest) = text.split_at(len);
    match digits.parse::<usize>() {
        Ok(number) => Some(Numbered { number, rest }),
        Err(_) => None,
    }
}

impl PlacedReport<'_> {
    /// Writes the place of the record of a line.
    fn write_place<W: fmt::Write>(&self, f: &mut fmt::Formatter<W>, number: usize) -> fmt::Result {
        match self.lines.place_of(number) {
            Some(place) if place.path != self.path => {
                write!(f, "{}:{}", PathText(place.path), place.line)
            }
            Some(place) => write!(f, "line {}", place.line),
            None => write!(f, "line {number}"),
        }
    }

    /// Writes what is behind `line `, which the report has there.
    fn write_behind<W: fmt::Write>(&self, f: &mut fmt::Formatter<W>, text: &str) -> fmt::Result {
        match split_number(text) {
            Some(found) => {
                self.write_place(f, found.number)?;
                f.write_str(found.rest)
            }
            None => write!(f, "line {text}"),
        }
    }
}

impl RecordFaults<'_> {
    /// Writes a fault, which the report has behind `zone: `.
    fn write_fault<W: fmt::Write>(&self, f: &mut fmt::Formatter<W>, text: &str) -> fmt::Result {
        let numbered = match text.strip_prefix("line ") {
            Some(text) => split_number(text),
            None => None,
        };
        let Some(Numbered { number, rest }) = numbered else {
            let fault = PlacedReport {
                report: text,
                ..self.placed
            };
            return writeln!(f, "denial: {}: {fault}", self.file);
        };
        let PlacedReport { lines, path, .. } = self.placed;
        let file = self.file;
        let fault = PlacedReport {
            report: rest,
            ..self.placed
        };
        writeln!(
            f,
            "{}{fault}",
            LinePlace {
                file,
                path,
                lines,
                number
            }
        )
    }
}

impl fmt::Display for RecordFaults<'_> {
    fn fmt<W: fmt::Write>(&self, f: &mut fmt::Formatter<W>) -> fmt::Result {
        for line in self.placed.report.lines() {
            if let Some(fault) = line.strip_prefix("zone: ") {
                self.write_fault(f, fault)?;
            }
        }
        Ok(())
    }
}

impl fmt::Display for PlacedReport<'_> {
    fn fmt<W: fmt::Write>(&self, f: &mut fmt::Formatter<W>) -> fmt::Result {
        let mut parts = self.report.split("line ");
        if let Some(first) = parts.next() {
            f.write_str(first)?;
        }
        for part in parts {
            self.write_behind(f, part)?;
        }
        Ok(())
    }
}
