//! Lines of records, with the place of each record.
ghost use Rattle.std.specs.Prelude.{◌≡◌, [], IfOk, IfNone, IfSome, OnOk, string_bytes};
ghost use Rattle.zone_program.specs.Places.{path_at, places_of, IsHeldAs, IsNoLine, IsPlaceOf, PutsPlace};

use domain_octets::OutOfMemory;
use std::alloc::Global;

/// The place of a record: its file, by its number among the paths, and its line.
#[derive(Clone, Copy, Debug)]
struct HeldPlace {
    file: usize,
    line: usize,
}

/// Where a record is: the path of its file, and the line of its first token there, from 1.
#[derive(Clone, Copy, Debug)]
pub struct RecordPlace<'a> {
    /// The path of the file. It is that of the zone file itself, or of a file that it includes.
    pub path: &'a [u8],
    /// The line.
    pub line: usize,
}

/// Lines of records, one a record, and where each record is.
#[derive(Drop)]
pub struct ZoneLines {
    /// The lines.
    pub(crate) text: String,
    /// The paths of the files, each as often as its records come anew.
    paths: Vec<Vec<u8>>,
    /// The place of the record of each line.
    places: Vec<HeldPlace>,
}

/// Returns the number of a path. It is appended if it is not the last.
fn held_path(alloc: Global, paths: &mut Vec<Vec<u8>>, path: &[u8]) -> Result<usize, OutOfMemory>
    ensures { IfOk result (λ number. IsHeldAs paths.old.items path.now number paths.new.items) }
{
    if let [.., last] = paths.as_slice()
        && last.as_slice() == path
    {
        return Ok(paths.len() - 1);
    }
    let number = paths.len();
    let mut copy = Vec::new(alloc);
    copy.extend_from_slice(path)?;
    paths.push(copy)?;
    Ok(number)
}

/// Returns the path with this number, or an empty one if there is none.
fn path_at(paths: &[Vec<u8>], number: usize) -> &[u8]
    ensures { result.now ≡ path_at paths.now number }
{
    match paths.get(number) {
        Some(path) => path.as_slice(),
        None => &[],
    }
}

impl ZoneLines {
    /// Returns no lines.
    pub(crate) fn new(alloc: Global) -> Self
        ensures text { string_bytes result.text ≡ [] }
        ensures places { result.places.items ≡ [] }
    {
        ZoneLines {
            text: String::new(alloc),
            paths: Vec::new(alloc),
            places: Vec::new(alloc),
        }
    }

    /// Returns the lines.
    pub fn text(&self) -> &str
        ensures { result.now ≡ string_bytes self.now.text }
    {
        self.text.as_str()
    }

    /// Appends the place of a record.
    pub(crate) fn put_place(
        &mut self,
        alloc: Global,
        path: &[u8],
        line: usize,
    ) -> Result<(), OutOfMemory>
        ensures { OnOk result (PutsPlace self.old path.now line self.new) }
    {
        let file = held_path(alloc, &mut self.paths, path)?;
        self.places.push(HeldPlace { file, line })?;
        Ok(())
    }

    /// Returns where the record of a line is, by the number of the line, from 1. Returns None if
    /// there is no such line.
    pub fn place_of(&self, number: usize) -> Option<RecordPlace<'_>>
        ensures some { IfSome result (λ place. IsPlaceOf (places_of self.now) number place.path.now
            place.line) }
        ensures none { IfNone result (IsNoLine (places_of self.now) number) }
    {
        let held = self.places.get(number.checked_sub(1)?)?;
        Some(RecordPlace {
            path: path_at(self.paths.as_slice(), held.file),
            line: held.line,
        })
    }
}
