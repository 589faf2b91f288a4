//! Where included files come from, and where records go.
ghost use Rattle.std.specs.Prelude.{◌≡◌, ◌≤◌, length, IfOk, OnOk, Option, Some, None};
ghost use Rattle.domain_octets.specs.Octets.{Octets};
ghost use Rattle.domain_zonefile.specs.Records.{record_with};
ghost use Rattle.domain_includes.specs.Files.{PlacedRecord, record_at};

use domain_base::ParsedName;
use domain_octets::OutOfMemory;
use domain_zonefile::{Place, RecordFields};
use std::alloc::Global;

/// The reason why a file was not read.
#[derive(Clone, Copy, Debug, PartialEq, Eq)]
pub enum SourceError {
    /// There is no file to read at this path.
    Unreadable,
    /// Memory ran out.
    OutOfMemory,
}

/// A source of files.
pub trait FileSource {
    /// Whether reading of a path may give this: the octets of a file, or None if there is none to
    /// read.
    ghost gives: { Self → Octets → Option Octets → Type 0 };

    /// Reads the file at a path.
    ///
    /// # Errors
    ///
    /// - `Unreadable` if there is no file to read at this path;
    /// - `OutOfMemory` if there is no memory for its octets.
    fn read(&self, alloc: Global, path: &[u8]) -> Result<Vec<u8>, SourceError>
        ensures ok { IfOk result (λ file. gives self.now path.now (Some file.items)) }
        ensures err { (result ≡ Err SourceError.Unreadable) → gives self.now path.now None };
}

/// A sink of records.
pub trait RecordSink {
    /// Whether the sink is this after it took a record.
    ghost takes: { Self → PlacedRecord → Self → Type 0 };

    /// Takes a record: the path of its file, the place of its first token there, its owner, its
    /// numbers, and the octets of its data.
    ///
    /// # Errors
    ///
    /// `OutOfMemory` if there is no memory for it.
    fn take(
        &mut self,
        path: &[u8],
        place: Place,
        owner: &ParsedName<'_>,
        fields: RecordFields,
        octets: &[u8],
    ) -> Result<(), OutOfMemory>
        requires { length octets.now ≤ 65535 }
        ensures { OnOk result (takes self.old (record_at path.now place
            (record_with owner.now fields octets.now)) self.new) };
}
