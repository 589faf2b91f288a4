//! The faults of a zone file and of the files that it includes.
ghost use Rattle.std.specs.Prelude.{◌≡◌, None};
ghost use Rattle.domain_includes.specs.Steps.{IsInFile};
ghost use Rattle.domain_includes.specs.declared.fault.FilesFault.TheVariants as files_fault;

use domain_generate::GenerateFaultKind;
use domain_octets::OutOfMemory;
use domain_zonefile::{EntryFaultKind, Place, SyntaxError};
use std::fmt;

/// What is wrong with a zone file.
#[derive(Debug, Drop)]
pub enum FileFaultKind {
    /// Octets that are no entry.
    Syntax(SyntaxError),
    /// An entry that is neither a record nor a directive.
    Entry(EntryFaultKind),
    /// An entry `$INCLUDE` with this path, at which there is no file to read.
    Unreadable(Vec<u8>),
    /// An entry `$INCLUDE` in the last of [`MAX_DEPTH`](crate::MAX_DEPTH) files that are included
    /// within each other.
    TooDeep,
    /// An entry `$GENERATE` with this fault.
    Generate(GenerateFaultKind),
}

/// A fault of a zone file or of a file that it includes.
#[derive(Debug, Drop)]
pub struct FileFault {
    /// The path of the included file that has the fault. None if the zone file itself has it.
    pub path: Option<Vec<u8>>,
    /// Its line and column.
    pub place: Place,
    /// What is wrong.
    pub kind: FileFaultKind,
}

/// The reason why the records of a zone file are not read.
#[derive(Debug, Drop)]
pub enum FilesFault {
    /// A fault, with its file and place.
    File(FileFault),
    /// Memory ran out.
    OutOfMemory,
}

impl From<OutOfMemory> for FilesFault {
    ghost from_gives = { λ _ fault. fault ≡ files_fault.OutOfMemory };

    fn from(_error: OutOfMemory) -> FilesFault {
        FilesFault::OutOfMemory
    }
}

/// Returns the fault of a place in the file that is read.
pub(crate) fn fault_at(place: Place, kind: FileFaultKind) -> FilesFault
    ensures { result ≡ FilesFault.File (record { path = None; place = place; kind = kind }) }
{
    FilesFault::File(FileFault {
        path: None,
        place,
        kind,
    })
}

/// Returns a fault of an included file: one that has no path yet is in the file at this path.
pub(crate) fn in_file(path: Vec<u8>, fault: FilesFault) -> FilesFault
    ensures { IsInFile path.items fault result }
{
    match fault {
        FilesFault::File(fault) => FilesFault::File(FileFault {
            path: Some(fault.path.unwrap_or(path)),
            place: fault.place,
            kind: fault.kind,
        }),
        FilesFault::OutOfMemory => FilesFault::OutOfMemory,
    }
}

/// A path as text. Octets that are no printable ASCII are printed as a backslash and three digits.
#[derive(Clone, Copy, Debug)]
pub struct PathText<'a>(pub &'a [u8]);

impl fmt::Display for PathText<'_> {
    fn fmt<W: fmt::Write>(&self, f: &mut fmt::Formatter<W>) -> fmt::Result {
        for octet in self.0 {
            match octet {
                b' '..=b'~' => f.write_char(char::from(*octet))?,
                _ => write!(f, "\\{octet:03}")?,
            }
        }
        Ok(())
    }
}

impl fmt::Display for FileFault {
    fn fmt<W: fmt::Write>(&self, f: &mut fmt::Formatter<W>) -> fmt::Result {
        if let Some(path) = &self.path {
            write!(f, "{}:", PathText(path.as_slice()))?;
        }
        write!(
            f,
            "{}:{}: {}",
            self.place.line, self.place.column, self.kind
        )
    }
}

impl fmt::Display for FileFaultKind {
    fn fmt<W: fmt::Write>(&self, f: &mut fmt::Formatter<W>) -> fmt::Result {
        match self {
            FileFaultKind::Syntax(error) => write!(f, "{error}"),
            FileFaultKind::Entry(kind) => write!(f, "{kind}"),
            FileFaultKind::Unreadable(path) => {
                write!(f, "cannot read {}", PathText(path.as_slice()))
            }
            FileFaultKind::TooDeep => f.write_str("more than 10 files within each other"),
            FileFaultKind::Generate(kind) => write!(f, "{kind}"),
        }
    }
}
