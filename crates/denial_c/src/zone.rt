//! The records of a zone, as octets and sorted.
ghost use Rattle.std.specs.Prelude.{List, IfErr, IfOk, OnOk};
ghost use Rattle.domain_borrowed.specs.Data.{RawRecord};
ghost use Rattle.denial_c.specs.Chains.{AreSorted, IsGivenFault, EncodeRecords};

use crate::among::next_record;
use crate::fault::Fault;
use domain_base::Class;
use domain_borrowed::BorrowedRecord;
use domain_dnssec::sort_one_class;
use domain_octets::{OutOfMemory, Parser};
use std::alloc::Global;

/// Checks that octets encode records of the class, one after another, and returns their number,
/// which is used to reserve memory. Does not allocate.
fn check_records(class: Class, octets: &[u8]) -> Result<usize, Fault>
    ensures ok { OnOk result ((given : List RawRecord) × EncodeRecords class octets.now given) }
    ensures err { IfErr result (IsGivenFault class octets.now) }
{
    let mut count: usize = 0;
    let mut parser = Parser::new(octets);
    'records: while parser.remaining() > 0 {
        let offset = octets.len() - parser.remaining();
        let Some(record) = next_record(&mut parser) else {
            return Err(Fault::NoRecord(offset));
        };
        if record.class() != class {
            return Err(Fault::Class(offset));
        }
        count = count.saturating_add(1);
    }
    Ok(count)
}

/// Returns the records of the class in `octets`. Reserves memory for `count` records.
#[tactic(auto, using(std::proofs::lemmas::Grind::common_steps, crate::proofs::AmongLemmas::past_more))]
fn read_records<'a>(
    alloc: Global,
    class: Class,
    octets: &'a [u8],
    count: usize,
) -> Result<Vec<BorrowedRecord<'a>>, OutOfMemory>
    requires { (given : List RawRecord) × EncodeRecords class octets.now given }
    ensures { IfOk result (λ records. EncodeRecords class octets.now records.items) }
{
    let mut records = Vec::with_capacity(alloc, count)?;
    let mut parser = Parser::new(octets);
    'records: while parser.remaining() > 0 {
        let Some(borrowed) = next_record(&mut parser) else {
            unreachable!();
        };
        records.push(borrowed)?;
    }
    Ok(records)
}

/// Returns the records of the class in `octets`, sorted. Of equal records the earliest is kept.
///
/// # Errors
///
/// `NoRecord` or `Class`, whichever comes first in the octets; and `OutOfMemory`, only if neither
/// applies.
pub(crate) fn sorted_zone<'a>(
    alloc: Global,
    class: Class,
    octets: &'a [u8],
) -> Result<Vec<BorrowedRecord<'a>>, Fault>
    ensures ok { IfOk result (λ sorted. AreSorted class octets.now sorted.items) }
    ensures err { IfErr result (IsGivenFault class octets.now) }
{
    let count = check_records(class, octets)?;
    let records = read_records(alloc, class, octets, count)?;
    match sort_one_class(records) {
        Ok(sorted) => Ok(sorted.into_inner()),
        Err(_) => Err(Fault::OutOfMemory),
    }
}
