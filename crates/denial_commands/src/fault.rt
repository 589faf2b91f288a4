//! The reasons why a run stops.
ghost use Rattle.std.specs.Prelude.{◌≡◌};
ghost use Rattle.denial_commands.specs.Text.{command_status, zone_run_status};

use denial_program::DenialFault;
use domain_includes::PathText;
use judge_program::JudgeFault;
use lint_program::LintFault;
use std::fmt;
use zone_program::{ZoneFault, ZoneLines};

/// The reason why a run over records, one a line, stops. Its text is what the program prints on
/// standard error.
#[derive(Debug, Drop)]
pub enum CommandFault {
    /// A fault of `nsec`, `nsec3` or `check`, or the arguments are no command.
    Denial(DenialFault),
    /// A fault of `judge` or `answer`.
    Judge(DenialFault),
    /// A fault of `lint`.
    Lint(DenialFault),
    /// A fault of `zone`.
    Zone(ZoneFault),
}

impl CommandFault {
    /// Returns the exit status of the program: 2 if the arguments are no command, else 1.
    pub fn status(&self) -> u8
        ensures { result ≡ command_status self.now }
    {
        match self {
            CommandFault::Denial(fault) => fault.status(),
            CommandFault::Judge(fault) => fault.status(),
            CommandFault::Lint(fault) => fault.status(),
            CommandFault::Zone(fault) => fault.status(),
        }
    }
}

impl fmt::Display for CommandFault {
    fn fmt<W: fmt::Write>(&self, f: &mut fmt::Formatter<W>) -> fmt::Result {
        match self {
            CommandFault::Denial(fault) => write!(f, "{fault}"),
            CommandFault::Judge(fault) => write!(f, "{}", JudgeFault::from(*fault)),
            CommandFault::Lint(fault) => write!(f, "{}", LintFault::from(*fault)),
            CommandFault::Zone(fault) => write!(f, "{fault}"),
        }
    }
}

/// The reason why a run over a zone file stops.
#[derive(Drop)]
pub enum ZoneRunFault {
    /// The arguments are no command that reads records, or memory ran out.
    Command(CommandFault),
    /// The file has no records: its first fault, or memory ran out.
    File(ZoneFault),
    /// The run over these lines stops, which are those of the records of the file.
    Records(CommandFault, ZoneLines),
}

impl ZoneRunFault {
    /// Returns the exit status of the program: 2 if the arguments are no command, else 1.
    pub fn status(&self) -> u8
        ensures { result ≡ zone_run_status self.now }
    {
        match self {
            ZoneRunFault::Command(fault) => fault.status(),
            ZoneRunFault::File(fault) => fault.status(),
            ZoneRunFault::Records(fault, _) => fault.status(),
        }
    }
}

/// The reason why a run over a zone file stops, with the name of the file. Its text begins with the
/// name and the place, as `FILE:LINE:COLUMN: ` or, for a record, `FILE:LINE: `, if it has a place.
/// In an included file it begins with the path of that file.
#[derive(Clone, Copy)]
pub struct FileFault<'a> {
    /// The name of the file.
    pub file: &'a str,
    /// The path of the file, or nothing for standard input.
    pub path: &'a [u8],
    /// The reason.
    pub fault: &'a ZoneRunFault,
}

/// The place of the record of a line of a zone file: `FILE:LINE`, or in an included file
/// `PATH:LINE`.
#[derive(Clone, Copy)]
pub struct LinePlace<'a> {
    /// The name of the file.
    pub file: &'a str,
    /// The path of the file, or nothing for standard input.
    pub path: &'a [u8],
    /// The lines of the records of the file.
    pub lines: &'a ZoneLines,
    /// The number of one of them, from 1.
    pub number: usize,
}

impl fmt::Display for LinePlace<'_> {
    fn fmt<W: fmt::Write>(&self, f: &mut fmt::Formatter<W>) -> fmt::Result {
        match self.lines.place_of(self.number) {
            Some(place) if place.path != self.path => {
                write!(f, "{}:{}", PathText(place.path), place.line)
            }
            Some(place) => write!(f, "{}:{}", self.file, place.line),
            None => f.write_str(self.file),
        }
    }
}

impl FileFault<'_> {
    /// Writes the place of the record of a line, and what is wrong with it.
    fn write_record<W: fmt::Write>(
        &self,
        f: &mut fmt::Formatter<W>,
        lines: &ZoneLines,
        number: usize,
    ) -> fmt::Result {
        let (file, path) = (self.file, self.path);
        let place = LinePlace {
            file,
            path,
            lines,
            number,
        };
        write!(f, "{place}: bad record")
    }

    /// Writes a fault of the records of the file.
    fn write_of_records<W: fmt::Write>(
        &self,
        f: &mut fmt::Formatter<W>,
        lines: &ZoneLines,
        fault: DenialFault,
        whole: &CommandFault,
    ) -> fmt::Result {
        let file = self.file;
        match fault {
            DenialFault::Line(number) => self.write_record(f, lines, number as usize),
            DenialFault::MixedClasses => write!(f, "denial: {file}: more than one class"),
            DenialFault::Signing(error) => write!(f, "denial: {file}: {error}"),
            DenialFault::Param => write!(f, "denial: {file}: no single NSEC3PARAM at the apex"),
            _ => write!(f, "{whole}"),
        }
    }

    /// Writes a fault of the run over the lines of the file.
    fn write_of_run<W: fmt::Write>(
        &self,
        f: &mut fmt::Formatter<W>,
        lines: &ZoneLines,
        whole: &CommandFault,
    ) -> fmt::Result {
        match whole {
            CommandFault::Denial(fault) => self.write_of_records(f, lines, *fault, whole),
            CommandFault::Judge(fault) => self.write_of_records(f, lines, *fault, whole),
            CommandFault::Lint(fault) => self.write_of_records(f, lines, *fault, whole),
            CommandFault::Zone(_) => write!(f, "{whole}"),
        }
    }
}

impl fmt::Display for FileFault<'_> {
    fn fmt<W: fmt::Write>(&self, f: &mut fmt::Formatter<W>) -> fmt::Result {
        match self.fault {
            ZoneRunFault::File(ZoneFault::File(fault)) => {
                if fault.path.is_none() {
                    write!(f, "{}:", self.file)?;
                }
                write!(f, "{fault}")
            }
            ZoneRunFault::File(fault) => write!(f, "{fault}"),
            ZoneRunFault::Command(whole) => write!(f, "{whole}"),
            ZoneRunFault::Records(whole, lines) => self.write_of_run(f, lines, whole),
        }
    }
}
