//! The next item of one file.
ghost use Rattle.std.specs.Prelude.{◌≡◌, ◌≤◌, length, Some, IfOk, IfErr, OnOk};
ghost use Rattle.domain_includes.specs.Steps.{IsFaultOfItem, IsOwned, IsFileStep, IsStepFault, TakesRecord};

use crate::fault::{FileFaultKind, FilesFault, fault_at};
use crate::files::RecordSink;
use crate::generated::pass_generated;
use domain_base::Name;
use domain_octets::{OutOfMemory, SmallOctets};
use domain_types::DataFaultKind;
use domain_zonefile::{
    EntryFault, EntryFaultKind, Place, RecordFields, ZoneItem, ZoneReader, ZoneState,
};
use std::alloc::Global;

/// What the next item of a file was.
#[derive(Drop)]
pub(crate) enum Step {
    /// The file has no more.
    End,
    /// A record. It was passed to the sink.
    Record,
    /// `$GENERATE`. Its records were passed to the sink.
    Generated,
    /// `$INCLUDE`, with the origin of the file.
    Include(Name<SmallOctets>),
}

/// Returns the fault of an entry.
fn fault_of_entry(reader: &mut ZoneReader<'_>, fault: EntryFault) -> FilesFault
    ensures fault { IsFaultOfItem reader.old.file reader.old.state (ZoneItem.Refused fault)
        reader.old.tokens result }
    ensures file { reader.new.file ≡ reader.old.file }
{
    match fault.kind {
        EntryFaultKind::OutOfMemory => FilesFault::OutOfMemory,
        EntryFaultKind::Data(DataFaultKind::OutOfMemory) => FilesFault::OutOfMemory,
        kind => fault_at(
            reader.place_of_token(fault.token),
            FileFaultKind::Entry(kind),
        ),
    }
}

/// Passes the record that was read last to the sink. It is at this place of the file at a path.
pub(crate) fn take_record<S: RecordSink>(
    path: &[u8],
    place: Place,
    state: &ZoneState,
    fields: RecordFields,
    octets: &[u8],
    sink: &mut S,
) -> Result<(), OutOfMemory>
    requires fits { length octets.now ≤ 65535 }
    requires owned { IsOwned state.now }
    ensures { OnOk result (TakesRecord S.takes path.now place state.now fields octets.now sink.old
        sink.new) }
{
    match state.owner() {
        Some(owner) => sink.take(path, place, &owner, fields, octets),
        None => unreachable!(),
    }
}

/// Reads the next item of the file at a path, and passes its record or records to the sink.
pub(crate) fn next_step<S: RecordSink>(
    alloc: Global,
    path: &[u8],
    reader: &mut ZoneReader<'_>,
    data: &mut Vec<u8>,
    sink: &mut S,
) -> Result<Step, FilesFault>
    ensures ok { IfOk result (λ step. IsFileStep S.takes path.now reader.old.file reader.old.state
        reader.old.left sink.old step reader.new.state reader.new.tokens reader.new.left sink.new) }
    ensures err { IfErr result (IsStepFault reader.old.file reader.old.state reader.old.left) }
    ensures file { reader.new.file ≡ reader.old.file }
{
    data.clear();
    let item = match reader.next_item(alloc, data) {
        Ok(Some(item)) => item,
        Ok(None) => return Ok(Step::End),
        Err(OutOfMemory) => return Err(FilesFault::OutOfMemory),
    };
    match item {
        ZoneItem::Record(fields) => {
            let place = reader.place_of_token(0);
            match take_record(path, place, reader.state(), fields, data.as_slice(), sink) {
                Ok(()) => Ok(Step::Record),
                Err(OutOfMemory) => Err(FilesFault::OutOfMemory),
            }
        }
        ZoneItem::Include(origin) => Ok(Step::Include(origin)),
        ZoneItem::Generate => match pass_generated(alloc, path, reader, data, sink) {
            Ok(()) => Ok(Step::Generated),
            Err(fault) => Err(fault),
        },
        ZoneItem::Refused(fault) => Err(fault_of_entry(reader, fault)),
        ZoneItem::Misspelled(fault) => Err(fault_at(
            reader.place_of(fault.at),
            FileFaultKind::Syntax(fault.error),
        )),
    }
}
