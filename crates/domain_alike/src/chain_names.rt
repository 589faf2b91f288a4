//! The names of the NSEC3 chain of a zone.
ghost use Rattle.std.specs.Prelude.{◌≡◌, IfOk};
ghost use Rattle.domain_nsec3.specs.{Steps.IsListOf, Chain.{excludes, ChainConfig, is_chain_name}};
ghost use Rattle.domain_records.specs.Order.{IsInOrder};
ghost use Rattle.domain_borrowed.specs.Data.{zone_of_raw};
ghost use Rattle.domain_zone.specs.Zone.{covered_names};

use domain_base::{ParsedName, ToName};
use domain_borrowed::BorrowedRecord;
use domain_nsec3::names_over;
use domain_octets::{OutOfMemory, TryClone};
use domain_records::RecordsIter;
use domain_zone::UnoccludedOwners;
use std::alloc::Global;

/// Returns the owners at or below the apex that are not occluded, in canonical order. If
/// `without_unsigned` is true, leaves out unsigned delegations. If `below_dname` is true, leaves
/// out names below the owner of a DNAME record.
fn owners_of<'a>(
    alloc: Global,
    apex: &ParsedName<'a>,
    sorted: &[BorrowedRecord<'a>],
    without_unsigned: bool,
    below_dname: bool,
) -> Result<Vec<ParsedName<'a>>, OutOfMemory>
    requires { IsInOrder (λ n. n) (λ d. d.rtype) sorted.now }
    ensures { IfOk result (λ owners. owners.items ≡ covered_names without_unsigned below_dname
        (zone_of_raw sorted.now) apex.now) }
{
    let records = RecordsIter::new_from_owned(sorted);
    let mut left = UnoccludedOwners::new(apex, records, without_unsigned, below_dname);
    let mut owners = Vec::new(alloc);
    'owners: while let Some(owner) = left.next() {
        owners.push(owner.name.try_clone()?)?;
    }
    Ok(owners)
}

/// Returns the names of the NSEC3 chain of sorted records, in canonical order: the owners that are
/// not occluded, and the empty non-terminals over them. If `without_unsigned` is true, leaves out
/// unsigned delegations. If `below_dname` is true, leaves out names below the owner of a DNAME
/// record.
pub fn chain_names<'a>(
    alloc: Global,
    apex: &ParsedName<'a>,
    sorted: &[BorrowedRecord<'a>],
    without_unsigned: bool,
    below_dname: bool,
) -> Result<Vec<ParsedName<'a>>, OutOfMemory>
    requires { IsInOrder (λ n. n) (λ d. d.rtype) sorted.now }
    ensures { IfOk result (λ names. (config : ChainConfig) → excludes config ≡ without_unsigned
        → config.occlude_below_dname ≡ below_dname → IsListOf (is_chain_name
        (zone_of_raw sorted.now) apex.now config) names.items) }
{
    let mut owners = owners_of(alloc, apex, sorted, without_unsigned, below_dname)?;
    let Some(first) = owners.first() else {
        return Ok(owners);
    };
    if !first.name_eq(apex) {
        owners.insert(0, apex.try_clone()?)?;
    }
    names_over(alloc, apex, &owners, true)
}
