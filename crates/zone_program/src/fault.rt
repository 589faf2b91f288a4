//! The reasons why a run stops.
ghost use Rattle.std.specs.Prelude.{◌≡◌};
ghost use Rattle.zone_program.specs.Lines.{zone_fault};
ghost use Rattle.zone_program.specs.Status.{zone_status};

use domain_includes::{FileFault, FilesFault};
use std::fmt;

/// The reason why a run of the program stops.
#[derive(Debug, Drop)]
pub enum ZoneFault {
    /// The arguments are not an origin, or an origin and `unsigned`.
    Usage,
    /// The input could not be read.
    Read,
    /// The zone file has this fault, or a file that it includes.
    File(FileFault),
    /// The output could not be written.
    Write,
    /// Memory ran out.
    OutOfMemory,
}

impl ZoneFault {
    /// Returns the exit status of the program: 2 for `Usage`, else 1.
    pub fn status(&self) -> u8
        ensures { result ≡ zone_status self.now }
    {
        match self {
            ZoneFault::Usage => 2,
            _ => 1,
        }
    }
}

impl From<FilesFault> for ZoneFault {
    ghost from_gives = { λ fault made. made ≡ zone_fault fault };

    fn from(fault: FilesFault) -> ZoneFault {
        match fault {
            FilesFault::File(fault) => ZoneFault::File(fault),
            FilesFault::OutOfMemory => ZoneFault::OutOfMemory,
        }
    }
}

impl fmt::Display for ZoneFault {
    fn fmt<W: fmt::Write>(&self, f: &mut fmt::Formatter<W>) -> fmt::Result {
        match self {
            ZoneFault::Usage => f.write_str("usage: denial zone APEX [unsigned]"),
            ZoneFault::Read => f.write_str("denial: cannot read input"),
            ZoneFault::File(fault) => write!(f, "{fault}"),
            ZoneFault::Write => f.write_str("denial: cannot write output"),
            ZoneFault::OutOfMemory => f.write_str("denial: out of memory"),
        }
    }
}
