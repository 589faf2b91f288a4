//! Passes the records of an entry `$GENERATE` to a sink.
ghost use Rattle.std.specs.Prelude.{◌≡◌, IfOk, IfErr, OnOk};
ghost use Rattle.domain_includes.specs.Steps.{IsEntryFaultAt, IsFaultOfGenerate, IsFaultOfValues, IsLineFault, PassesGenerated, PassesLine, PassesValues};

use crate::fault::{FileFaultKind, FilesFault, fault_at};
use crate::files::RecordSink;
use crate::step::take_record;
use domain_base::Name;
use domain_generate::Generation;
use domain_octets::{OctetsFrom, OutOfMemory, SmallOctets};
use domain_types::DataFaultKind;
use domain_zonefile::{EntryFaultKind, EntryReader, Found, Place, ZoneReader, ZoneState};
use std::alloc::Global;

/// Returns the fault of a line's entry, or that memory ran out.
fn fault_of_line(place: Place, kind: EntryFaultKind) -> FilesFault
    ensures { IsEntryFaultAt place kind result }
{
    match kind {
        EntryFaultKind::OutOfMemory => FilesFault::OutOfMemory,
        EntryFaultKind::Data(DataFaultKind::OutOfMemory) => FilesFault::OutOfMemory,
        kind => fault_at(place, FileFaultKind::Entry(kind)),
    }
}

/// Reads the entry of a line as a record, and passes it to the sink. It, or its fault, is at this
/// place of the file at a path.
fn pass_line<S: RecordSink>(
    alloc: Global,
    line: &[u8],
    path: &[u8],
    place: Place,
    state: &mut ZoneState,
    data: &mut Vec<u8>,
    sink: &mut S,
) -> Result<(), FilesFault>
    ensures ok { OnOk result (PassesLine S.takes path.now place state.old line.now sink.old
        state.new sink.new) }
    ensures err { IfErr result (IsLineFault state.old line.now place) }
{
    data.clear();
    let mut reader = EntryReader::new(alloc, line);
    let is_indented = match reader.next_entry() {
        Ok(Some(Found::Entry(is_indented))) => is_indented,
        Ok(Some(Found::Fault(fault))) => {
            return Err(fault_at(place, FileFaultKind::Syntax(fault.error)));
        }
        Ok(None) => return Ok(()),
        Err(OutOfMemory) => return Err(FilesFault::OutOfMemory),
    };
    match state.read_record(alloc, is_indented, reader.tokens(), data) {
        Ok(fields) => match take_record(path, place, state, fields, data.as_slice(), sink) {
            Ok(()) => Ok(()),
            Err(OutOfMemory) => Err(FilesFault::OutOfMemory),
        },
        Err(fault) => Err(fault_of_line(place, fault.kind)),
    }
}

/// Passes the records of all values to the sink. They, or their first fault, are at this place of
/// the file at a path.
fn pass_values<S: RecordSink>(
    alloc: Global,
    generation: &Generation<'_>,
    path: &[u8],
    place: Place,
    state: &mut ZoneState,
    data: &mut Vec<u8>,
    sink: &mut S,
) -> Result<(), FilesFault>
    ensures ok { OnOk result (PassesValues S.takes path.now place generation.now 0 state.old
        sink.old state.new sink.new) }
    ensures err { IfErr result (IsFaultOfValues generation.now state.old place) }
{
    let mut line = Vec::new(alloc);
    let mut index = 0;
    'values: while let Some(value) = generation.value(index) {
        match generation.write_line(value, &mut line) {
            Ok(()) => {}
            Err(OutOfMemory) => return Err(FilesFault::OutOfMemory),
        }
        match pass_line(alloc, line.as_slice(), path, place, state, data, sink) {
            Ok(()) => index += 1,
            Err(fault) => return Err(fault),
        }
    }
    Ok(())
}

/// Returns what is known before the first value: what the file says so far.
fn state_of(alloc: Global, reader: &ZoneReader<'_>) -> Result<ZoneState, OutOfMemory>
    ensures { IfOk result (λ state. state ≡ reader.now.state) }
{
    let state = reader.state();
    match Name::try_octets_from(alloc, state.origin()) {
        Ok(origin) => Ok(state.included(alloc, origin)?),
        Err(_) => Err(OutOfMemory),
    }
}

/// Passes the records of the entry `$GENERATE` that was read last, of the file at a path, to the
/// sink. Origin and owner stay. The TTL default, the last TTL and the last class are those after
/// the last value.
pub(crate) fn pass_generated<S: RecordSink>(
    alloc: Global,
    path: &[u8],
    reader: &mut ZoneReader<'_>,
    data: &mut Vec<u8>,
    sink: &mut S,
) -> Result<(), FilesFault>
    ensures ok { OnOk result (PassesGenerated S.takes path.now reader.old.file reader.old.state
        reader.old.tokens sink.old reader.new.state sink.new) }
    ensures err { IfErr result (IsFaultOfGenerate reader.old.file reader.old.state
        reader.old.tokens) }
    ensures left { reader.new.left ≡ reader.old.left }
    ensures tokens { reader.new.tokens ≡ reader.old.tokens }
    ensures file { reader.new.file ≡ reader.old.file }
{
    let mut state = match state_of(alloc, reader) {
        Ok(state) => state,
        Err(OutOfMemory) => return Err(FilesFault::OutOfMemory),
    };
    let generation = match Generation::from_tokens(reader.tokens()) {
        Ok(generation) => generation,
        Err(fault) => {
            return Err(fault_at(
                reader.place_of_token(fault.token),
                FileFaultKind::Generate(fault.kind),
            ));
        }
    };
    let place = reader.place_of_token(0);
    match pass_values(alloc, &generation, path, place, &mut state, data, sink) {
        Ok(()) => {
            reader.go_on(&state);
            Ok(())
        }
        Err(fault) => Err(fault),
    }
}
