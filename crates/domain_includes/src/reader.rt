//! Reads a zone file and the files that it includes.
ghost use Rattle.std.specs.Prelude.{◌≡◌, ◌<◌, Some, IfOk, IfErr, OnOk};
ghost use Rattle.domain_zonefile.specs.Records.{included_state};
ghost use Rattle.domain_includes.specs.{FileFaults.{IsFilesFault, IsZoneFileFault}, Files.{PassesFiles, PassesRecords}, Paths.{included_name, included_path}, Steps.IsUnopened};

use crate::fault::{FileFaultKind, FilesFault, fault_at, in_file};
use crate::files::{FileSource, RecordSink, SourceError};
use crate::path::{included_name, included_path};
use crate::step::{Step, next_step};
use domain_base::{Name, ParsedName};
use domain_octets::{OutOfMemory, SmallOctets};
use domain_zonefile::{ZoneReader, ZoneState};
use std::alloc::Global;

/// The number of files that may be included within each other.
pub const MAX_DEPTH: usize = 10;

/// An included file.
#[derive(Drop)]
struct Opened {
    path: Vec<u8>,
    file: Vec<u8>,
    state: ZoneState,
}

/// Reads the file that `$INCLUDE` names.
fn open_included<F: FileSource>(
    alloc: Global,
    files: &F,
    path: &[u8],
    reader: &mut ZoneReader<'_>,
    origin: Name<SmallOctets>,
) -> Result<Opened, FilesFault>
    ensures path { IfOk result (λ opened.
        opened.path.items ≡ included_path path.now (included_name reader.old.tokens)) }
    ensures file { IfOk result (λ opened.
        F.gives files.now opened.path.items (Some opened.file.items)) }
    ensures state { IfOk result (λ opened.
        opened.state ≡ included_state reader.old.state origin) }
    ensures err { IfErr result (IsUnopened (F.gives files.now) reader.old.file
        (included_path path.now (included_name reader.old.tokens)) reader.old.tokens) }
    ensures same { reader.new ≡ reader.old }
{
    let path = included_path(alloc, path, included_name(reader.tokens()))?;
    match files.read(alloc, path.as_slice()) {
        Ok(file) => Ok(Opened {
            path,
            file,
            state: reader.state().included(alloc, origin)?,
        }),
        Err(SourceError::OutOfMemory) => Err(FilesFault::OutOfMemory),
        Err(SourceError::Unreadable) => {
            Err(fault_at(reader.place_of_token(1), FileFaultKind::Unreadable(path)))
        }
    }
}

/// Reads what is left of the file at a path, and passes its records to the sink. At most `depth`
/// files are included within each other.
fn read_file<F: FileSource, S: RecordSink>(
    alloc: Global,
    files: &F,
    depth: usize,
    path: &[u8],
    reader: &mut ZoneReader<'_>,
    sink: &mut S,
) -> Result<(), FilesFault>
    ensures ok { OnOk result (PassesRecords (F.gives files.now) S.takes depth path.now
        reader.old.file reader.old.state reader.old.left sink.old reader.new.state sink.new) }
    ensures err { IfErr result (IsFilesFault (F.gives files.now) depth path.now reader.old.file
        reader.old.state reader.old.left) }
{
    let mut data = Vec::new(alloc);
    'items: loop {
        let origin = match next_step(alloc, path, reader, &mut data, sink) {
            Ok(Step::End) => return Ok(()),
            Ok(Step::Record) => continue 'items,
            Ok(Step::Generated) => continue 'items,
            Ok(Step::Include(origin)) => origin,
            Err(fault) => return Err(fault),
        };
        if depth == 0 {
            return Err(fault_at(reader.place_of_token(1), FileFaultKind::TooDeep));
        }
        let opened = match open_included(alloc, files, path, reader, origin) {
            Ok(opened) => opened,
            Err(fault) => return Err(fault),
        };
        let Opened { path, file, state } = opened;
        let mut inner = ZoneReader::with_state(alloc, file.as_slice(), state);
        match read_file(alloc, files, depth - 1, path.as_slice(), &mut inner, sink) {
            Ok(()) => reader.go_on(inner.state()),
            Err(fault) => return Err(in_file(path, fault)),
        }
    }
}

/// Reads a zone file whose names are relative to the origin, and the files that it includes. Passes
/// their records to the sink, in order. The path is that of the file, or empty: paths of included
/// files are relative to its folder. An included file begins with the present owner, TTL default
/// and class. After it, origin and owner come back, and the TTL default, the last TTL and class go
/// on (RFC 2308, section 4). An entry `$GENERATE` gives the records of the lines of its values. The
/// owner comes back after it too, and the last TTL and class go on.
///
/// # Errors
///
/// The first fault, with its file, line and column; or `OutOfMemory`, at any time. The sink took
/// the records before.
pub fn read_files<F: FileSource, S: RecordSink>(
    alloc: Global,
    files: &F,
    path: &[u8],
    file: &[u8],
    origin: &ParsedName<'_>,
    sink: &mut S,
) -> Result<(), FilesFault>
    ensures ok { OnOk result (PassesFiles (F.gives files.now) S.takes path.now file.now
        origin.now sink.old sink.new) }
    ensures err { IfErr result (IsZoneFileFault (F.gives files.now) path.now file.now
        origin.now) }
{
    let mut reader = ZoneReader::new(alloc, file, origin)?;
    read_file(alloc, files, MAX_DEPTH, path, &mut reader, sink)
}
