//! Names that are stored in an arena, one after another.
ghost use Rattle.std.specs.Prelude.{◌≡◌, IfOk};

use crate::line::ZoneName;
use bumpalo::Bump;
use domain_base::{ParsedName, ToName};
use domain_borrowed::{BorrowedData, BorrowedRecord};
use domain_octets::OutOfMemory;
use domain_record::{Record, RecordData};

/// Returns a copy of a name.
pub fn store_name<'a>(arena: &'a Bump, name: &ZoneName) -> Result<ParsedName<'a>, OutOfMemory>
    ensures { IfOk result (λ copy. copy ≡ name.now) }
{
    let wire = arena.try_alloc_slice_copy(name.as_wire())?;
    Ok(ParsedName::over(wire))
}

/// Returns the wire form of a name in the arena: `last` if it has the same octets, or a copy.
fn compact_wire<'a>(arena: &'a Bump, last: &'a [u8], wire: &[u8]) -> Result<&'a [u8], OutOfMemory>
    ensures { IfOk result (λ compacted. compacted.now ≡ wire.now) }
{
    if last == wire {
        return Ok(last);
    }
    let copy = arena.try_alloc_slice_copy(wire)?;
    Ok(copy)
}

/// Stores the owners of records in the arena once more, in the order of the records. A pass over
/// the records then reads the arena from one end to the other.
pub fn compact_owners<'a>(
    arena: &'a Bump,
    mut records: Vec<BorrowedRecord<'a>>,
) -> Result<Vec<BorrowedRecord<'a>>, OutOfMemory>
    ensures { IfOk result (λ compacted. compacted.items ≡ records.entry.items) }
{
    let mut last: &'a [u8] = &[];
    for i in 0..records.len() {
        let stored = &records[i];
        last = compact_wire(arena, last, stored.owner().as_wire())?;
        let data = BorrowedData::new(stored.rtype(), stored.data().octets());
        let compacted = Record::new(ParsedName::over(last), stored.class(), stored.ttl(), data);
        records[i] = compacted;
    }
    Ok(records)
}
