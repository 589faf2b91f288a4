//! Sorting of records in canonical order.
//!
//! Neighbours of one owner are a run. Runs are sorted by keys of their owners, and runs with equal
//! keys by keys of what their owners do not share. The records of an owner are sorted last. This
//! gives the order of the records' places. Keys and runs are hints: no clause is about them. The
//! order of the places is checked before a record is moved.
ghost use Rattle.std.specs.Prelude.{◌≡◌, ◌<◌, ◌≤◌, length, take, slice_index, slice_index_or, Bool, true, false, IsTrue, IfOk, OnOk, OnErr};
ghost use Rattle.std.specs.{declared.cmp.Ordering.Ordering, Ordering.is_eq, Cmp.IsTotalOrder};
ghost use Rattle.std.specs.List.Sorted.{IsPermutation, IsSorted, IsStable, IsStrictlySortedBy};
ghost use Rattle.domain_record.specs.Record.{record_cmp};
ghost use Rattle.domain_records.specs.Order.{owner_cmp, rest_cmp, AreRanks, IsArranged, compared_places};
ghost use Rattle.domain_records.specs.Order.{AreAscending, AreDistinct, IsSortOf, IsUnion};
ghost use Rattle.domain_records.specs.Places.{AreKnown, IsKnownSort};

use domain_base::{CanonicalOrd, ParsedName, ToName};
use domain_groups::Sorter;
use domain_octets::OutOfMemory;
use domain_record::{Record, RecordData};
use std::alloc::Global;
use std::cmp::Ordering;

/// The digit of each octet, from 1 to 47, in the order of octets in lower case. The octets of
/// ordinary names, `*` to `9` and `_` to `z`, have digits of their own.
const DIGITS: &[u8; 256] = &[
    1, 1, 1, 1, 1, 1, 1, 1, 1, 1, 1, 1, 1, 1, 1, 1, 1, 1, 1, 1, 1, 1, 1, 1, 1, 1, 1, 1, 1, 1, 1, 1,
    1, 1, 1, 1, 1, 1, 1, 1, 1, 1, 2, 3, 4, 5, 6, 7, 8, 9, 10, 11, 12, 13, 14, 15, 16, 17, 18, 18,
    18, 18, 18, 18, 18, 21, 22, 23, 24, 25, 26, 27, 28, 29, 30, 31, 32, 33, 34, 35, 36, 37, 38, 39,
    40, 41, 42, 43, 44, 45, 46, 18, 18, 18, 18, 19, 20, 21, 22, 23, 24, 25, 26, 27, 28, 29, 30, 31,
    32, 33, 34, 35, 36, 37, 38, 39, 40, 41, 42, 43, 44, 45, 46, 47, 47, 47, 47, 47, 47, 47, 47, 47,
    47, 47, 47, 47, 47, 47, 47, 47, 47, 47, 47, 47, 47, 47, 47, 47, 47, 47, 47, 47, 47, 47, 47, 47,
    47, 47, 47, 47, 47, 47, 47, 47, 47, 47, 47, 47, 47, 47, 47, 47, 47, 47, 47, 47, 47, 47, 47, 47,
    47, 47, 47, 47, 47, 47, 47, 47, 47, 47, 47, 47, 47, 47, 47, 47, 47, 47, 47, 47, 47, 47, 47, 47,
    47, 47, 47, 47, 47, 47, 47, 47, 47, 47, 47, 47, 47, 47, 47, 47, 47, 47, 47, 47, 47, 47, 47, 47,
    47, 47, 47, 47, 47, 47, 47, 47, 47, 47, 47, 47, 47, 47, 47, 47, 47, 47, 47, 47, 47, 47, 47, 47,
    47, 47, 47, 47,
];

/// Puts a digit before the digits of a key, and drops the last one.
fn with_digit(key: u128, digit: u8) -> u128 {
    key >> 6 | u128::from(digit) << 122
}

/// Puts the digits of a label, with a 0 at its end, before the digits of a key. A key has 21
/// digits, so later octets of the label do not count.
fn with_label(key: u128, label: &[u8]) -> u128 {
    let octets = label.get(..21).unwrap_or(label);
    octets.iter().rev().fold(with_digit(key, 0), |key, octet| {
        with_digit(key, DIGITS[usize::from(*octet)])
    })
}

/// Returns a key for a name: 21 six-bit digits of its labels below the last `shared` labels,
/// beginning with the last of them. Names in canonical order that share these labels have keys that
/// do not descend.
///
/// The key is a hint: no clause states its order. Compare the names to confirm what keys suggest.
pub fn owner_key<N: ToName>(name: &N, shared: usize) -> u128 {
    let below = name.count_labels().saturating_sub(shared);
    name.labels().take(below).fold(0, with_label)
}

/// Returns the item at a place, or `other` past the end.
fn item_at<'a, T>(items: &'a [T], place: usize, other: &'a T) -> &'a T
    ensures { result.now ≡ slice_index_or items.now place other.now }
{
    items.get(place).unwrap_or(other)
}

/// Returns whether two records have the same class and the same owner.
#[tactic(auto, using(std::proofs::lemmas::Grind::common_steps, std::proofs::lemmas::Bool::Decides::nat_tests, domain_names::specs::Laws::same_name_ties))]
fn is_one_owner<N: ToName, D>(a: &Record<N, D>, b: &Record<N, D>) -> bool
    ensures { result ≡ is_eq (owner_cmp N.labels a.now b.now) }
{
    if a.class() == b.class() {
        return a.owner().name_eq(b.owner());
    }
    false
}

/// Compares records by type, and then by data.
fn rest_cmp<N, D: RecordData + CanonicalOrd>(a: &Record<N, D>, b: &Record<N, D>) -> Ordering
    ensures { result ≡ rest_cmp D.rtype D.canonical_cmp a.now b.now }
{
    a.rtype()
        .cmp(&b.rtype())
        .then_with(|| a.data().canonical_cmp(b.data()))
}

/// Compares records in canonical order. Fast for records of one owner.
fn neighbour_cmp<N: ToName, D: RecordData + CanonicalOrd>(
    a: &Record<N, D>,
    b: &Record<N, D>,
) -> Ordering
    ensures { result ≡ record_cmp N.labels D.rtype D.canonical_cmp a.now b.now }
{
    if is_one_owner(a, b) {
        rest_cmp(a, b)
    } else {
        a.canonical_cmp(b)
    }
}

/// Returns whether records are equal in canonical order. Compares the owners last.
fn is_equal<N: ToName, D: RecordData + CanonicalOrd>(a: &Record<N, D>, b: &Record<N, D>) -> bool
    ensures { result ≡ is_eq (record_cmp N.labels D.rtype D.canonical_cmp a.now b.now) }
{
    if rest_cmp(a, b).is_ne() {
        return false;
    }
    is_one_owner(a, b)
}

/// The records of one owner from `start` up to `end`, and the key of the owner.
#[derive(Clone, Copy)]
struct Run {
    key: u128,
    start: usize,
    end: usize,
}

/// Returns the runs of the records, without their keys.
fn runs_of<N: ToName, D: RecordData>(
    alloc: Global,
    records: &[Record<N, D>],
) -> Result<Vec<Run>, OutOfMemory> {
    let mut runs = Vec::new(alloc);
    let mut start: usize = 0;
    for run in records.chunk_by(|a, b| is_one_owner(a, b)) {
        let end = start.saturating_add(run.len());
        runs.push(Run { key: 0, start, end })?;
        start = end;
    }
    Ok(runs)
}

/// Returns the end of a name that has the last `count` labels, or the name if it has fewer.
fn last_labels(name: ParsedName<'_>, count: usize) -> ParsedName<'_> {
    let mut end = name;
    for _label in count..end.count_labels() {
        let Some((_, above)) = end.split_first() else {
            return end;
        };
        end = above;
    }
    end
}

/// Returns how many labels, counted from the root, the owners of all runs share.
fn shared_labels<N: ToName, D>(
    records: &[Record<N, D>],
    first: &Record<N, D>,
    runs: &[Run],
) -> usize {
    let mut end = first.owner().as_parsed();
    for run in runs {
        let owner = item_at(records, run.start, first).owner();
        if !owner.ends_with(&end) {
            let count = end.common_labels(owner);
            end = last_labels(end, count);
        }
    }
    end.count_labels()
}

/// Gives each run the key of its owner.
fn give_keys<N: ToName, D>(records: &[Record<N, D>], first: &Record<N, D>, runs: &mut [Run]) {
    let shared = shared_labels(records, first, runs);
    for run in runs.iter_mut() {
        run.key = owner_key(item_at(records, run.start, first).owner(), shared);
    }
}

/// Returns the label below the last `shared` labels of a name. It is empty if there is none.
fn label_below<N: ToName>(name: &N, shared: usize) -> &[u8] {
    let below = name.count_labels().saturating_sub(shared);
    name.labels().take(below).last().unwrap_or(&[])
}

/// Returns the octets that both labels begin with.
fn common_start<'a>(label: &'a [u8], other: &[u8]) -> &'a [u8] {
    let same = label.iter().zip(other).take_while(|(a, b)| a == b).count();
    label.get(..same).unwrap_or(label)
}

/// Returns how many octets the labels below the last `shared` labels of all owners begin with.
fn shared_octets<N: ToName, D>(
    records: &[Record<N, D>],
    first: &Record<N, D>,
    runs: &[Run],
    shared: usize,
) -> usize {
    let mut start = label_below(first.owner(), shared);
    for run in runs {
        let label = label_below(item_at(records, run.start, first).owner(), shared);
        if !label.starts_with(start) {
            start = common_start(start, label);
        }
    }
    start.len()
}

/// Returns a key like that of `owner_key`, of a name without the first `octets` octets of the label
/// below its last `shared` labels. Names that share these octets too have keys that do not descend.
fn later_key<N: ToName>(name: &N, shared: usize, octets: usize) -> u128 {
    let below = name.count_labels().saturating_sub(shared);
    let labels = name.labels().take(below.saturating_sub(1));
    let label = label_below(name, shared);
    with_label(
        labels.fold(0, with_label),
        label.get(octets..).unwrap_or(label),
    )
}

/// Sorts runs whose owners have equal keys: by keys of what the owners do not share, and then by
/// the records that the runs begin with. Leaves the runs of one owner as they are.
fn sort_ties<N: ToName, D: RecordData + CanonicalOrd>(
    records: &[Record<N, D>],
    first: &Record<N, D>,
    ties: &mut [Run],
) {
    if count_of_owner(records, first, ties) == ties.len() {
        return;
    }
    let among = item_at(records, ties[0].start, first);
    let shared = shared_labels(records, among, ties);
    let octets = shared_octets(records, among, ties, shared);
    for run in ties.iter_mut() {
        run.key = later_key(item_at(records, run.start, first).owner(), shared, octets);
    }
    ties.sort_unstable_by(|a, b| {
        a.key.cmp(&b.key).then_with(|| {
            item_at(records, a.start, first).canonical_cmp(item_at(records, b.start, first))
        })
    });
}

/// Returns the key of a run, or None past the last.
fn key_at(runs: &[Run], at: usize) -> Option<u128> {
    runs.get(at).map(|run| run.key)
}

/// Sorts the runs with equal keys, in runs that are sorted by keys.
fn sort_all_ties<N: ToName, D: RecordData + CanonicalOrd>(
    records: &[Record<N, D>],
    first: &Record<N, D>,
    runs: &mut [Run],
) {
    let mut start = 0;
    for last in 0..runs.len() {
        let end = last + 1;
        if key_at(runs, end) != key_at(runs, start) {
            if let Some(ties) = runs.get_mut(start..end) {
                sort_ties(records, first, ties);
            }
            start = end;
        }
    }
}

/// Compares the records at two places. Compares the places if the records are equal.
#[tactic(auto, unfolding(crate::specs::Order::compared_places))]
fn compare_places<N: ToName, D: RecordData + CanonicalOrd>(
    records: &[Record<N, D>],
    first: &Record<N, D>,
    a: usize,
    b: usize,
) -> Ordering
    ensures { result ≡ compared_places (record_cmp N.labels D.rtype D.canonical_cmp) records.now
        first.now a b }
{
    neighbour_cmp(item_at(records, a, first), item_at(records, b, first)).then(a.cmp(&b))
}

/// Returns whether the record at each place comes before the record at the next place.
fn are_distinct<N: ToName, D: RecordData + CanonicalOrd>(
    records: &[Record<N, D>],
    first: &Record<N, D>,
    places: &[usize],
) -> bool
    ensures { IsTrue result → AreDistinct (record_cmp N.labels D.rtype D.canonical_cmp) records.now
        first.now places.now }
{
    places.is_sorted_by(|a, b| {
        neighbour_cmp(item_at(records, *a, first), item_at(records, *b, first)).is_lt()
    })
}

/// Returns whether the places ascend by `compare_places`.
fn are_ascending<N: ToName, D: RecordData + CanonicalOrd>(
    records: &[Record<N, D>],
    first: &Record<N, D>,
    places: &[usize],
) -> bool
    ensures { IsTrue result → AreAscending (record_cmp N.labels D.rtype D.canonical_cmp)
        records.now first.now places.now }
{
    places.is_sorted_by(|a, b| compare_places(records, first, *a, *b).is_lt())
}

/// Returns whether the places ascend, and whether their records do.
#[tactic(auto, using(crate::proofs::OrderLemmas::distinct_ascend))]
fn check_places<N: ToName, D: RecordData + CanonicalOrd>(
    records: &[Record<N, D>],
    first: &Record<N, D>,
    places: &[usize],
) -> (bool, bool)
    ensures ascend { IsTrue result.0 → AreAscending
        (record_cmp N.labels D.rtype D.canonical_cmp) records.now first.now places.now }
    ensures distinct { IsTrue result.1 → AreDistinct
        (record_cmp N.labels D.rtype D.canonical_cmp) records.now first.now places.now }
{
    if are_distinct(records, first, places) {
        return (true, true);
    }
    (are_ascending(records, first, places), false)
}

/// Appends the places of one owner's runs, in the order of their records.
fn push_owner<N: ToName, D: RecordData + CanonicalOrd>(
    records: &[Record<N, D>],
    first: &Record<N, D>,
    runs: &[Run],
    places: &mut Vec<usize>,
) -> Result<(), OutOfMemory>
    ensures { OnOk result (places.old.items ≡ take (length places.old.items) places.new.items) }
{
    let start = places.len();
    for run in runs {
        places.extend(run.start..run.end)?;
    }
    places[start..].sort_unstable_by(|a, b| {
        rest_cmp(item_at(records, *a, first), item_at(records, *b, first)).then(a.cmp(b))
    });
    Ok(())
}

/// Places of records, and what is known about their order.
#[derive(Drop)]
struct Places {
    places: Vec<usize>,
    /// The places ascend by `compare_places`.
    are_ascending: bool,
    /// The record at each place comes before the record at the next place, so no two are equal.
    are_distinct: bool,
}

impl Places {
    /// Appends the places of one owner's runs, in the order of their records, and checks their
    /// order while the records are in the cache.
    fn push<N: ToName, D: RecordData + CanonicalOrd>(
        &mut self,
        records: &[Record<N, D>],
        first: &Record<N, D>,
        runs: &[Run],
    ) -> Result<(), OutOfMemory>
        requires { AreKnown (record_cmp N.labels D.rtype D.canonical_cmp) records.now first.now
            self.old }
        ensures { OnOk result (AreKnown (record_cmp N.labels D.rtype D.canonical_cmp) records.now
            first.now self.new) }
    {
        let start = self.places.len();
        push_owner(records, first, runs, &mut self.places)?;
        let added = &self.places[start.saturating_sub(1)..];
        let (are_ascending, are_distinct) = check_places(records, first, added);
        self.are_ascending &= are_ascending;
        self.are_distinct &= are_distinct;
        Ok(())
    }
}

/// Returns how many runs have the owner of the first run, up to the first run that does not.
fn count_of_owner<N: ToName, D>(
    records: &[Record<N, D>],
    first: &Record<N, D>,
    runs: &[Run],
) -> usize
    ensures within { result ≤ length runs.now }
    ensures some { 0 < length runs.now → 0 < result }
{
    for i in 1..runs.len() {
        let owner = item_at(records, runs[0].start, first);
        if !is_one_owner(owner, item_at(records, runs[i].start, first)) {
            return i;
        }
    }
    runs.len()
}

/// Returns the places of the records, in the order of the sorted runs, and within an owner in the
/// order of the records.
fn places_of<N: ToName, D: RecordData + CanonicalOrd>(
    alloc: Global,
    records: &[Record<N, D>],
    first: &Record<N, D>,
    runs: &[Run],
) -> Result<Places, OutOfMemory>
    ensures { IfOk result (AreKnown (record_cmp N.labels D.rtype D.canonical_cmp) records.now
        first.now) }
{
    let mut places = Places {
        places: Vec::with_capacity(alloc, records.len())?,
        are_ascending: true,
        are_distinct: true,
    };
    let mut left = runs;
    while !left.is_empty() {
        let (owner, others) = left.split_at(count_of_owner(records, first, left));
        places.push(records, first, owner)?;
        left = others;
    }
    Ok(places)
}

/// Returns the places of the records in the order of the keys of their owners. This is canonical
/// order unless keys mislead. Of equal records the earliest comes first.
fn likely_places<N: ToName, D: RecordData + CanonicalOrd, S: Sorter>(
    alloc: Global,
    records: &[Record<N, D>],
    first: &Record<N, D>,
) -> Result<Places, OutOfMemory>
    ensures { IfOk result (AreKnown (record_cmp N.labels D.rtype D.canonical_cmp) records.now
        first.now) }
{
    let mut runs = runs_of(alloc, records)?;
    give_keys(records, first, &mut runs);
    S::sort_by(&mut runs, |a, b| a.key.cmp(&b.key))?;
    sort_all_ties(records, first, &mut runs);
    places_of(alloc, records, first, &runs)
}

/// Returns the rank of each place: its position among the places. They are ranks only if each place
/// of a list occurs once, which `are_ranks` checks.
fn ranks_of(alloc: Global, places: &[usize]) -> Result<Vec<usize>, OutOfMemory> {
    let mut ranks = vec![in alloc; 0; places.len()]?;
    for (rank, place) in places.iter().enumerate() {
        if let Some(found) = ranks.get_mut(*place) {
            *found = rank;
        }
    }
    Ok(ranks)
}

/// Returns whether the list holds the number at a place.
fn has_at(numbers: &[usize], at: usize, number: usize) -> bool
    ensures { IsTrue result → (at < length numbers.now) × (slice_index numbers.now at ≡ number) }
{
    match numbers.get(at) {
        Some(found) => *found == number,
        None => false,
    }
}

/// Returns whether each place of a list occurs once, with these ranks.
fn are_ranks(places: &[usize], ranks: &[usize]) -> bool
    ensures { IsTrue result → AreRanks places.now ranks.now }
{
    if ranks.len() != places.len() {
        return false;
    }
    for k in 0..places.len() {
        if !has_at(ranks, places[k], k) || !has_at(places, ranks[k], k) {
            return false;
        }
    }
    true
}

/// Moves the item of each place to its rank. Each item takes one exchange. The place and the rank
/// of the item that it is exchanged with are exchanged too.
fn arrange<T>(items: &mut [T], places: &mut [usize], ranks: &mut [usize])
    requires ranks { AreRanks places.old ranks.old }
    requires all { length places.old ≡ length items.old }
    ensures arranged { IsArranged items.old places.old items.new }
    ensures moved { IsPermutation items.old items.new }
{
    for rank in 0..items.len() {
        let place = places[rank];
        let other = ranks[rank];
        items.swap(rank, place);
        places.swap(rank, other);
        ranks.swap(rank, place);
    }
}

/// Sorts items with the sorter only. An error leaves the list as it was.
fn sort_whole<T: CanonicalOrd, S: Sorter>(items: &mut Vec<T>) -> Result<(), OutOfMemory>
    ensures ok { OnOk result
        (IsSortOf S.is_stable T.canonical_cmp items.old.items items.new.items) }
    ensures err { OnErr result (items.new.items ≡ items.old.items) }
{
    Ok(S::sort_by(items, |a, b| a.canonical_cmp(b))?)
}

/// Returns whether each record comes before the next one in canonical order.
fn are_strictly_sorted<N: ToName, D: RecordData + CanonicalOrd>(records: &[Record<N, D>]) -> bool
    ensures { IsTrue result → IsStrictlySortedBy (record_cmp N.labels D.rtype D.canonical_cmp)
        records.now }
{
    records.is_sorted_by(|a, b| neighbour_cmp(a, b).is_lt())
}

/// Sorts records in canonical order. Returns true only if no two of them are equal.
///
/// If the order by keys is right, each record is moved once. Otherwise the sorter sorts the
/// records. An error leaves the list as it was.
#[tactic(auto, using(std::proofs::lemmas::Grind::common_steps))]
fn sort<N: ToName, D: RecordData + CanonicalOrd, S: Sorter>(
    records: &mut Vec<Record<N, D>>,
) -> Result<bool, OutOfMemory>
    ensures ok { IfOk result (IsKnownSort S.is_stable
        (record_cmp N.labels D.rtype D.canonical_cmp) records.old.items records.new.items) }
    ensures err { OnErr result (records.new.items ≡ records.old.items) }
{
    let alloc = *records.allocator();
    let Some(first) = records.first() else {
        return Ok(true);
    };
    let Places {
        mut places,
        are_ascending,
        are_distinct,
    } = likely_places::<N, D, S>(alloc, records, first)?;
    let mut ranks = ranks_of(alloc, &places)?;
    if are_ascending && places.len() == records.len() && are_ranks(&places, &ranks) {
        arrange(records, &mut places, &mut ranks);
        return Ok(are_distinct);
    }
    sort_whole::<Record<N, D>, S>(records)?;
    Ok(false)
}

/// Sorts records in canonical order, and keeps the earliest of equal ones if the sorter is stable.
/// Looks once at records that are in order already. An error leaves the list as it was.
#[tactic(auto, using(std::proofs::lemmas::Grind::common_steps))]
pub(crate) fn sort_and_dedup<N: ToName + Drop, D: RecordData + CanonicalOrd + Drop, S: Sorter>(
    records: &mut Vec<Record<N, D>>,
) -> Result<(), OutOfMemory>
    ensures ok { OnOk result (IsUnion S.is_stable (record_cmp N.labels D.rtype D.canonical_cmp)
        records.old.items records.new.items) }
    ensures err { OnErr result (records.new.items ≡ records.old.items) }
{
    if are_strictly_sorted(records) {
        return Ok(());
    }
    if sort::<N, D, S>(records)? {
        return Ok(());
    }
    records.dedup_by(|later, earlier| is_equal(later, earlier));
    Ok(())
}
