//! Finds records of one owner and type that differ in TTL.
ghost use Rattle.std.specs.Prelude.{◌≡◌, List, filter, true, false, IfNone, IfSome};
ghost use Rattle.domain_borrowed.specs.Data.{RawRecord, zone_of_raw};
ghost use Rattle.domain_records.specs.Order.{IsInOrder};
ghost use Rattle.domain_zone.specs.Zone.{covered_names, has_clash, has_unequal_ttls, records_of, IsFirstClash};
ghost use Rattle.denial_c.specs.Chains.{AreSorted, IsSortedUnevenAt, EncodeRecords, is_in_set, is_other};
ghost use Rattle.denial_c.specs.Chains.{IsFirstUneven, IsUnevenAt};

use crate::among::next_record;
use domain_base::{Class, ParsedName, Rtype, ToName, Ttl};
use domain_borrowed::BorrowedRecord;
use domain_octets::Parser;
use domain_records::RecordsIter;
use domain_zone::{UnoccludedOwners, uneven_type};

/// The key of an RRset: one owner and one type.
#[derive(Drop)]
pub(crate) struct RrsetKey<'a> {
    /// The owner, in any case.
    pub owner: ParsedName<'a>,
    /// The type.
    pub rtype: Rtype,
}

/// Returns the first owner of a chain, in canonical order, with records of one type other than
/// RRSIG that differ in TTL, and the first such type. None if there is none. Unsigned delegations
/// are skipped if `excludes`, and names below the owner of a DNAME record if `below_dname`.
#[tactic(auto, using(std::proofs::lemmas::Grind::common_steps, crate::proofs::UnevenLemmas::walked_all, crate::proofs::UnevenLemmas::walked_clash, crate::proofs::UnevenLemmas::walked_first, crate::proofs::UnevenLemmas::walked_start))]
fn uneven_set<'a>(
    apex: &'a ParsedName<'a>,
    sorted: &'a [BorrowedRecord<'a>],
    excludes: bool,
    below_dname: bool,
) -> Option<RrsetKey<'a>>
    requires { IsInOrder (λ n. n) (λ d. d.rtype) sorted.now }
    ensures first { IfSome result (λ set. IsFirstUneven (zone_of_raw sorted.now)
        (covered_names excludes below_dname (zone_of_raw sorted.now) apex.now) set.owner) }
    ensures clash { IfSome result (λ set. IsFirstClash (records_of
        (zone_of_raw sorted.now) set.owner) set.rtype) }
    ensures none { IfNone result (has_unequal_ttls (zone_of_raw sorted.now)
        (covered_names excludes below_dname (zone_of_raw sorted.now) apex.now) ≡ false) }
{
    let records = RecordsIter::new_from_owned(sorted);
    let mut left = UnoccludedOwners::new(apex, records, excludes, below_dname);
    'owners: while let Some(owner) = left.next() {
        if let Some(rtype) = uneven_type(owner.records.records()) {
            let name = owner.name.as_parsed();
            return Some(RrsetKey { owner: name, rtype });
        }
    }
    None
}

/// Returns whether the record is of this owner and this type.
fn is_in_set(borrowed: &BorrowedRecord<'_>, set: &RrsetKey<'_>) -> bool
    ensures { result ≡ is_in_set set.now.owner set.now.rtype borrowed.now }
{
    borrowed.owner().name_eq(&set.owner) & (borrowed.rtype() == set.rtype)
}

/// Returns whether there is a first TTL, and this one differs.
fn is_other(first: Option<Ttl>, ttl: Ttl) -> bool
    ensures { result ≡ is_other first ttl }
{
    match first {
        Some(first) => first != ttl,
        None => false,
    }
}

/// Returns the offset of the first record of this owner and this type whose TTL differs from those
/// before it.
#[tactic(auto, using(std::proofs::lemmas::Grind::common_steps, crate::proofs::UnevenLemmas::scanned_other, crate::proofs::UnevenLemmas::scanned_same))]
fn uneven_offset(class: Class, octets: &[u8], set: &RrsetKey<'_>) -> usize
    requires { (given : List RawRecord) × EncodeRecords class octets.now given ×
        (has_clash (zone_of_raw (filter (is_in_set set.now.owner set.now.rtype) given)) ≡ true) }
    ensures { IsUnevenAt class octets.now set.now.owner set.now.rtype result }
{
    let mut first: Option<Ttl> = None;
    let mut parser = Parser::new(octets);
    'records: while parser.remaining() > 0 {
        let offset = octets.len() - parser.remaining();
        let Some(record) = next_record(&mut parser) else {
            unreachable!();
        };
        if is_in_set(&record, set) {
            if is_other(first, record.ttl()) {
                return offset;
            }
            first = Some(record.ttl());
        }
    }
    unreachable!()
}

/// Returns where records in `octets` have unequal TTLs: the offset of the first record whose TTL
/// differs from those before it of its owner and type. These are the first of the chain with
/// several TTLs.
#[tactic(auto, using(crate::proofs::UnevenLemmas::clash_given))]
pub(crate) fn uneven_at(
    apex: &ParsedName<'_>,
    class: Class,
    octets: &[u8],
    sorted: &[BorrowedRecord<'_>],
    excludes: bool,
    below_dname: bool,
) -> usize
    requires are { AreSorted class octets.now sorted.now }
    requires uneven { has_unequal_ttls (zone_of_raw sorted.now) (covered_names excludes below_dname
        (zone_of_raw sorted.now) apex.now) ≡ true }
    ensures { IsSortedUnevenAt (covered_names excludes below_dname) class octets.now sorted.now
        apex.now result }
{
    let Some(set) = uneven_set(apex, sorted, excludes, below_dname) else {
        unreachable!();
    };
    uneven_offset(class, octets, &set)
}
