//! The records that octets encode, one after another, and those among them that count.
ghost use Rattle.std.specs.Prelude.{◌≡◌, ◌<◌, ◌++◌, ◌&&◌, ◌==◌, map, length, IfErr, IfNone, IfOk, IfSome, OnSome};
ghost use Rattle.domain_borrowed.specs.Data.{raw_record_octets, IsRecord};
ghost use Rattle.denial_c.specs.{Result.{EncodeKept, IsReadFault}, Chains.BeginsNone};

use crate::fault::Fault;
use domain_base::{Class, ParsedName};
use domain_borrowed::{BorrowedRecord, ReadAs, read_record};
use domain_octets::Parser;
use std::alloc::Global;

/// Returns the next record, as `read_record` does, or None if the octets do not begin with one.
/// After a record, fewer octets are left.
#[tactic(auto, using(domain_borrowed::proofs::DataLemmas::shorter))]
pub(crate) fn next_record<'a>(parser: &mut Parser<'a>) -> Option<BorrowedRecord<'a>>
    requires { 0 < length parser.old.left }
    ensures some { IfSome result (λ r. (parser.old.left ≡ raw_record_octets r ++ parser.new.left)
        × IsRecord r) }
    ensures less { OnSome result (length parser.new.left < length parser.old.left) }
    ensures none { IfNone result (BeginsNone parser.old.left) }
{
    let Some(next) = read_record(parser) else {
        return None;
    };
    Some(next)
}

/// Returns whether a record counts for this apex, and is of the class.
pub(crate) fn is_kept<'a, K: ReadAs<'a>>(
    borrowed: &BorrowedRecord<'a>,
    apex: &ParsedName<'_>,
    class: Class,
) -> bool
    ensures { result ≡ (K.counts apex.now borrowed.now && (borrowed.now.class == class)) }
{
    K::counts(borrowed, apex) & (borrowed.class() == class)
}

/// Returns the records of a type that count for an apex and a class, among the records in `octets`.
/// Rejects octets that do not encode records, and such records if their data are malformed.
pub(crate) fn records_among<'a, K: ReadAs<'a>>(
    alloc: Global,
    apex: &ParsedName<'_>,
    class: Class,
    octets: &'a [u8],
) -> Result<Vec<K>, Fault>
    ensures ok { IfOk result (λ kept. EncodeKept (λ r. K.counts apex.now r && (r.class == class))
        K.raw K.IsFit octets.now (map K.said kept.items)) }
    ensures err { IfErr result (IsReadFault (EncodeKept
        (λ r. K.counts apex.now r && (r.class == class)) K.raw K.IsFit octets.now)) }
{
    let mut kept = Vec::new(alloc);
    let mut parser = Parser::new(octets);
    'records: while parser.remaining() > 0 {
        let Some(borrowed) = next_record(&mut parser) else {
            return Err(Fault::Records);
        };
        if is_kept::<K>(&borrowed, apex, class) {
            let Some(read) = K::read(borrowed) else {
                return Err(Fault::Records);
            };
            let Ok(()) = kept.push(read) else {
                return Err(Fault::OutOfMemory);
            };
        }
    }
    Ok(kept)
}
