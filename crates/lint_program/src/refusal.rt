//! Finds the first word of a line that cannot be read as the part of the record at its place.

use denial_program::{ZoneName, ZoneOctets};
use domain_base::{Class, FromToken, IterScanner, Rtype, ScanError, Scanner, Ttl};
use domain_rdata::ZoneRecordData;
use lint_hints::Part;
use std::alloc::{AllocError, Global};

/// The error for a word that was not read.
const NOT_TAKEN: ScanError = ScanError::Custom("unknown record data");

/// Returns the number of the wrong word among `count` words: the last that was read, or the next if
/// none was.
fn refusal_at<S: Scanner>(
    scanner: &mut S,
    count: usize,
    part: Part,
    error: ScanError,
) -> Result<Option<(usize, Part)>, AllocError> {
    let mut taken = count;
    for _word in 0..count {
        if scanner.continues() {
            scanner.skip_token();
            taken = taken.saturating_sub(1);
        }
    }
    let number = match error {
        ScanError::OutOfMemory => return Err(AllocError),
        ScanError::EndOfEntry => count.saturating_add(1),
        ScanError::Custom("unknown record data") => taken.saturating_add(1),
        _ => taken,
    };
    Ok(Some((number, part)))
}

/// Returns the number of the first of these words that cannot be read, and the part of the record
/// that it should be, or None if all can be read. Numbers are counted from 1; if a word is missing,
/// the number is one more than there are words.
pub fn refusal_of(alloc: Global, words: &[&str]) -> Result<Option<(usize, Part)>, AllocError> {
    let count = words.len();
    let mut scanner = IterScanner::<ZoneOctets>::new(words);
    if let Err(error) = scanner.scan_name(alloc) {
        return refusal_at(&mut scanner, count, Part::Owner, error);
    }
    if let Err(error) = Ttl::scan(&mut scanner) {
        return refusal_at(&mut scanner, count, Part::Ttl, error);
    }
    if let Err(error) = Class::scan(&mut scanner) {
        return refusal_at(&mut scanner, count, Part::Class, error);
    }
    let rtype = match Rtype::scan(&mut scanner) {
        Ok(rtype) => rtype,
        Err(error) => return refusal_at(&mut scanner, count, Part::Type, error),
    };
    let data = ZoneRecordData::<ZoneOctets, ZoneName>::scan_rdata(alloc, rtype, &mut scanner);
    if let Err(error) = data {
        return refusal_at(&mut scanner, count, Part::Data(rtype), error);
    }
    if scanner.continues() {
        return refusal_at(&mut scanner, count, Part::Nothing(rtype), NOT_TAKEN);
    }
    Ok(None)
}
