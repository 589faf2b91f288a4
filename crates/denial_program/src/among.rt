//! The records of one type among those that were read.
ghost use Rattle.std.specs.Prelude.{IfOk, map};
ghost use Rattle.denial_program.specs.Check.{AreAmong, IsOf};

use crate::line::ZoneName;
use domain_borrowed::{BorrowedRecord, ReadAs};
use domain_octets::OutOfMemory;
use std::alloc::Global;

/// Returns the records of a type among these, in their order. If records of the type only count at
/// the apex, returns those of this apex.
#[tactic(auto, using(crate::proofs::RunLemmas::goes_past, crate::proofs::RunLemmas::next_left))]
pub fn records_among<'a, K: ReadAs<'a>>(
    alloc: Global,
    apex: &ZoneName,
    records: &[BorrowedRecord<'a>],
) -> Result<Vec<K>, OutOfMemory>
    ensures { IfOk result (λ kept. AreAmong (IsOf (K.counts apex.now) K.raw K.IsFit) records.now
        (map K.said kept.items)) }
{
    let mut kept = Vec::new(alloc);
    for record in records {
        if !K::counts(record, apex) {
            continue;
        }
        let Some(read) = K::read(record.clone()?) else {
            continue;
        };
        kept.push(read)?;
    }
    Ok(kept)
}
