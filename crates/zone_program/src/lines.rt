//! The records of a zone file as lines.
ghost use Rattle.std.specs.Prelude.{IfOk, IfErr};
ghost use Rattle.zone_program.specs.Lines.{AreLinesOf, NoLines};

use crate::fault::ZoneFault;
use crate::places::ZoneLines;
use crate::sink::LineSink;
use domain_base::ParsedName;
use domain_includes::{FileSource, read_files};
use std::alloc::Global;

/// Returns the lines of the records of a zone file whose names are relative to the origin, and of
/// the files that it includes: one a record, with absolute names, and data in the generic form (RFC
/// 3597, section 5). If asked, it leaves out the records that a signer adds. The path is that of
/// the file, or empty: paths of included files are relative to its folder.
///
/// # Errors
///
/// - `File` with the first fault, its file and its place;
/// - `OutOfMemory`, at any time.
pub fn zone_lines<F: FileSource>(
    alloc: Global,
    files: &F,
    path: &[u8],
    origin: &ParsedName<'_>,
    file: &[u8],
    is_unsigned: bool,
) -> Result<ZoneLines, ZoneFault>
    ensures ok { IfOk result (AreLinesOf (F.gives files.now) path.now file.now origin.now
        is_unsigned) }
    ensures err { IfErr result (NoLines (F.gives files.now) path.now file.now origin.now) }
{
    let mut sink = LineSink::new(alloc, is_unsigned);
    match read_files(alloc, files, path, file, origin, &mut sink) {
        Ok(()) => Ok(sink.into_lines()),
        Err(fault) => Err(ZoneFault::from(fault)),
    }
}
