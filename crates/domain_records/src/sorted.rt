//! Sorted records: lists as sorted sets, look-ups by owner, class and type, and the records of a
//! zone.
ghost use Rattle.std.specs.Prelude.{◌≡◌, ◌↔◌, ◌<◌, ◌≤◌, ◌==◌, ◌++◌, ℕ, [], List, length, not, filter, find};
ghost use Rattle.std.specs.Prelude.{Option, IsTrue, IfOk, IfErr, OnOk, OnErr, IsErrOf, vec_len, vec_capacity};
ghost use Rattle.std.specs.{List.{AllZip, list_any}, Fmt.WritesText, Slice.Iter.iter_rest, Option.ForSome};
ghost use Rattle.std.specs.{Iterator.IsFiniteIterable, List.Sorted.IsStrictlySortedBy};
ghost use Rattle.domain_groups.specs.Groups.{same_rrset, runs, IsFirstMatch, IsFirstPlace};
ghost use Rattle.domain_records.specs.Sorted.{begins_with, group_at, record_matches, refused, without_first};
ghost use Rattle.domain_records.specs.{Sorted.{AddsIfAbsent, Gives, IsFound, Updates}, Text.texts};
ghost use Rattle.domain_records.specs.{Text.{soa_first, WritesWithComments}, Order.{IsOneClass, IsInOrder}};
ghost use Rattle.domain_records.specs.Order.{IsUnion, Adds, Holds, GoesTo};
ghost use Rattle.domain_base.specs.Types.{soa};
ghost use Rattle.domain_record.specs.Record.{record_cmp, IsRecordClone};

use crate::error::{InsertError, SortError};
use crate::sort::sort_and_dedup;
use crate::write::{Commented, Plain, write_soa_first};
use domain_base::{CanonicalOrd, Class, Rtype, ToName};
use domain_groups::{
    DefaultSorter, RecordsIter, Rrset, RrsetIter, SigningError, SliceRefsOrOwned, Sorter,
};
use domain_octets::{OutOfMemory, TryClone};
use domain_record::{CloneRecordData, Record, RecordData};
use std::alloc::Global;
use std::marker::{Model, PhantomData};
use std::{fmt, slice};

/// Searches for an equal item, by a binary search. Returns `Ok` if there is one, or `Err` with the
/// place where `item` goes.
fn search<T: CanonicalOrd>(items: &[T], item: &T) -> Result<usize, usize>
    requires { IsStrictlySortedBy T.canonical_cmp items.now }
    ensures found { IfOk result (λ _. Holds T.canonical_cmp items.now item.now) }
    ensures absent { IfErr result (GoesTo T.canonical_cmp items.now item.now) }
{
    items.binary_search_by(|stored| stored.canonical_cmp(item))
}

/// Inserts an item in order, unless an equal one is present. Takes no memory.
fn insert_if_absent<T: CanonicalOrd + Drop>(items: &mut Vec<T>, item: T)
    requires sorted { IsStrictlySortedBy T.canonical_cmp items.old.items }
    requires room { vec_len items.old < vec_capacity items.old }
    ensures added { AddsIfAbsent T.canonical_cmp items.old.items item items.new.items }
    ensures sorted { IsStrictlySortedBy T.canonical_cmp items.new.items }
{
    if let Err(place) = search(items, &item) {
        let _ = items.insert(place, item);
    }
}

/// Appends items. An error leaves the list as it was.
fn append<T: Drop, U: IntoIterator<Item = T>>(
    items: &mut Vec<T>,
    more: U,
) -> Result<(), OutOfMemory>
    requires { IsFiniteIterable U.into_iter_gives U.IntoIter.can_next U.IntoIter.remaining more }
    ensures ok { OnOk result ((xs : List T)
        × Gives U.into_iter_gives U.IntoIter.next_gives more xs
        × (items.new.items ≡ items.old.items ++ xs)) }
    ensures err { OnErr result (items.new.items ≡ items.old.items) }
{
    let stored = items.len();
    let result = items.extend(more);
    if result.is_err() {
        items.truncate(stored);
        return Err(OutOfMemory);
    }
    Ok(())
}

/// Returns copies of the items, in the same order.
#[tactic(auto, using(std::proofs::lemmas::List::Elements::all_zip_more))]
fn clone_all<T: TryClone + Drop>(items: &[T], alloc: Global) -> Result<Vec<T>, OutOfMemory>
    ensures { IfOk result (λ copies. AllZip T.is_clone items.now copies.items) }
{
    let mut copies = Vec::with_capacity(alloc, items.len())?;
    for item in items {
        copies.push(item.try_clone()?)?;
    }
    Ok(copies)
}

/// Returns whether the record has this owner, class and type. `None` matches any class or type.
fn is_wanted<N: ToName, D: RecordData>(
    stored: &Record<N, D>,
    owner: &N,
    class: &Option<Class>,
    rtype: &Option<Rtype>,
) -> bool
    ensures { result
        ≡ record_matches N.labels D.rtype (N.labels owner.now) class.now rtype.now stored.now }
{
    stored.owner().name_eq(owner)
        && stored.class() == (*class).unwrap_or(stored.class())
        && stored.rtype() == (*rtype).unwrap_or(stored.rtype())
}

/// Returns the place of the first record with this owner, class and type. `None` matches any class
/// or type. Looks at one record after another.
#[tactic(auto, using(std::proofs::lemmas::Grind::common_steps, domain_groups::proofs::GroupLemmas::first_by))]
fn first_place<N: ToName, D: RecordData>(
    records: &[Record<N, D>],
    owner: &N,
    class: &Option<Class>,
    rtype: &Option<Rtype>,
) -> Option<usize>
    ensures { IsFirstPlace (record_matches N.labels D.rtype (N.labels owner.now)
        class.now rtype.now) records.now result }
{
    let is_wanted = |stored: &Record<N, D>| is_wanted(stored, owner, class, rtype);
    SliceRefsOrOwned::new_from_owned(records).first_match(&is_wanted)
}

/// Returns the place of the first record of this type.
#[tactic(auto, using(std::proofs::lemmas::Grind::common_steps, domain_groups::proofs::GroupLemmas::first_by))]
fn first_of_type<N, D: RecordData>(records: &[Record<N, D>], rtype: Rtype) -> Option<usize>
    ensures { IsFirstPlace (λ r. D.rtype r.«data» == rtype) records.now result }
{
    let is_wanted = |stored: &Record<N, D>| stored.rtype() == rtype;
    SliceRefsOrOwned::new_from_owned(records).first_match(&is_wanted)
}

/// Returns the group of records of one owner and one type that begins at a place.
#[tactic(auto, using(crate::proofs::LookupLemmas::taken_group))]
fn rrset_at<N: ToName, D: RecordData>(
    records: &[Record<N, D>],
    place: Option<usize>,
) -> Result<Option<Rrset<'_, N, D>>, SigningError>
    requires { ForSome place (λ i. i ≤ length records.now) }
    ensures { IsFound D.rtype (group_at (same_rrset N.labels D.rtype) records.now place) result }
{
    match place {
        Some(i) => {
            let from_there = SliceRefsOrOwned::new_from_owned(records).back(i);
            RrsetIter::new(from_there).next().transpose()
        }
        None => Ok(None),
    }
}

/// Records in canonical order, no two of them equal under it. Contracts see the list of the
/// records.
#[derive(Drop)]
pub struct SortedRecords<N: ToName, D: RecordData + CanonicalOrd, Sort: Sorter = DefaultSorter> {
    records: Vec<Record<N, D>>,
    sorter: PhantomData<Sort>,
}

impl<N: ToName, D: RecordData + CanonicalOrd, Sort: Sorter> Model for SortedRecords<N, D, Sort> {
    ghost use Rattle.std.specs.{Prelude.List, List.Sorted.IsStrictlySortedBy};
    ghost use Rattle.domain_record.specs.{declared.record.Record.Record, Record.record_cmp};

    ghost Value = { List (Record N D) };

    ghost view = { λ s. s.records.items };

    ghost invariant = { λ s. IsStrictlySortedBy (record_cmp N.labels D.rtype D.canonical_cmp)
        s.records.items };
}

impl<N: ToName, D: RecordData + CanonicalOrd> SortedRecords<N, D> {
    /// Returns an empty list that uses the default sorter. Takes no memory.
    pub fn default(alloc: Global) -> Self
        ensures { result ≡ [] }
    {
        SortedRecords::new(alloc)
    }
}

impl<N: ToName, D: RecordData + CanonicalOrd, Sort: Sorter> SortedRecords<N, D, Sort> {
    /// Returns an empty list. Takes no memory.
    #[tactic(auto, using(crate::proofs::OrderLemmas::sorted_nil))]
    pub fn new(alloc: Global) -> Self
        ensures { result ≡ [] }
    {
        SortedRecords {
            records: Vec::new(alloc),
            sorter: PhantomData,
        }
    }

    /// Sorts the records, and keeps one of those that are equal under the canonical order: the
    /// earliest, if the sorter is stable. Compares few names if neighbours often have the same
    /// owner.
    ///
    /// # Errors
    ///
    /// `SortError` if there is no memory, or if the sorter returns `OutOfMemory`.
    pub fn from_vec(mut records: Vec<Record<N, D>>) -> Result<Self, SortError>
    where
        N: Drop,
        D: Drop,
        ensures { IfOk result (IsUnion Sort.is_stable (record_cmp N.labels D.rtype D.canonical_cmp)
            records.items) }
    {
        sort_and_dedup::<N, D, Sort>(&mut records).map_err(|reason| SortError { reason })?;
        Ok(SortedRecords {
            records,
            sorter: PhantomData,
        })
    }

    /// Collects and sorts the items of an iterator, as `from_vec` does.
    ///
    /// # Errors
    ///
    /// `OutOfMemory` if there is no memory, or if the sorter returns it.
    pub fn from_iter<U: IntoIterator<Item = Record<N, D>>>(
        alloc: Global,
        records: U,
    ) -> Result<Self, OutOfMemory>
    where
        N: Drop,
        D: Drop,
        requires { IsFiniteIterable U.into_iter_gives U.IntoIter.can_next
            U.IntoIter.remaining records }
        ensures { IfOk result (λ all. (xs : List (Record N D))
            × Gives U.into_iter_gives U.IntoIter.next_gives records xs
            × IsUnion Sort.is_stable (record_cmp N.labels D.rtype D.canonical_cmp) xs all) }
    {
        let mut all = SortedRecords::new(alloc);
        all.extend(records)?;
        Ok(all)
    }

    /// Adds records, and keeps one of those that are equal under the canonical order: the earliest,
    /// if the sorter is stable. Stored records count as earlier. Sorts as `from_vec` does.
    ///
    /// # Errors
    ///
    /// `OutOfMemory` if there is no memory, or if the sorter returns it. The stored records are
    /// then unchanged.
    pub fn extend<U: IntoIterator<Item = Record<N, D>>>(
        &mut self,
        more: U,
    ) -> Result<(), OutOfMemory>
    where
        N: Drop,
        D: Drop,
        requires { IsFiniteIterable U.into_iter_gives U.IntoIter.can_next
            U.IntoIter.remaining more }
        ensures ok { OnOk result ((xs : List (Record N D))
            × Gives U.into_iter_gives U.IntoIter.next_gives more xs
            × IsUnion Sort.is_stable (record_cmp N.labels D.rtype D.canonical_cmp)
            (self.old ++ xs) self.new) }
        ensures err { OnErr result (self.new ≡ self.old) }
    {
        let stored = self.records.len();
        append(&mut self.records, more)?;
        let result = sort_and_dedup::<N, D, Sort>(&mut self.records);
        if result.is_err() {
            self.records.truncate(stored);
        }
        result
    }

    /// Inserts one record, by a binary search. For many records use `extend`.
    ///
    /// # Errors
    ///
    /// `Present` if and only if a record is present that is equal under the canonical order,
    /// whatever its TTL. `OutOfMemory` if there is no memory. Both return the record, and leave the
    /// stored records unchanged.
    pub fn insert(&mut self, added: Record<N, D>) -> Result<(), InsertError<N, D>>
        ensures ok { OnOk result (Adds (record_cmp N.labels D.rtype D.canonical_cmp) self.old
            added self.new) }
        ensures present { IsErrOf result (InsertError.Present added)
            ↔ Holds (record_cmp N.labels D.rtype D.canonical_cmp) self.old added }
        ensures err { OnErr result (self.new ≡ self.old) }
        ensures handed_back { IfErr result (λ e. refused e ≡ added) }
    {
        match search(&self.records, &added) {
            Ok(_) => Err(InsertError::Present(added)),
            Err(at) => {
                if let Err(failed) = self.records.insert(at, added) {
                    return Err(InsertError::OutOfMemory(failed.value));
                }
                Ok(())
            }
        }
    }

    /// Removes all records with this owner, class and type. `None` matches any class or type.
    /// Returns whether there was one. Takes no memory.
    pub fn remove_all_by_name_class_rtype(
        &mut self,
        name: &N,
        class: Option<Class>,
        rtype: Option<Rtype>,
    ) -> bool
    where
        N: Drop,
        D: Drop,
        ensures kept { self.new
            ≡ filter (λ r. not (record_matches N.labels D.rtype (N.labels name.now) class rtype r))
            self.old }
        ensures found { result ≡ list_any (record_matches N.labels D.rtype (N.labels name.now)
            class rtype) self.old }
    {
        match first_place(&self.records, name, &class, &rtype) {
            Some(_) => {
                self.records
                    .retain(|stored| !is_wanted(stored, name, &class, &rtype));
                true
            }
            None => false,
        }
    }

    /// Removes the first record with this owner, class and type. `None` matches any class or type.
    /// Returns whether there was one. Takes no memory.
    pub fn remove_first_by_name_class_rtype(
        &mut self,
        name: &N,
        class: Option<Class>,
        rtype: Option<Rtype>,
    ) -> bool
    where
        N: Drop,
        D: Drop,
        ensures kept { self.new ≡ without_first
            (record_matches N.labels D.rtype (N.labels name.now) class rtype) self.old }
        ensures found { result ≡ list_any (record_matches N.labels D.rtype (N.labels name.now)
            class rtype) self.old }
    {
        match first_place(&self.records, name, &class, &rtype) {
            Some(at) => {
                let _ = self.records.remove(at);
                true
            }
            None => false,
        }
    }

    /// Replaces the data of the first record for which `matcher` returns true, and moves the record
    /// to its new place. Drops it if a record is present that is equal under the canonical order.
    /// Changes nothing if `matcher` returns true for no record. Takes no memory.
    pub fn update_data<F: Fn(&Record<N, D>) -> bool>(&mut self, matcher: F, data: D)
    where
        N: Drop,
        D: Drop,
        F: Drop,
        requires { F.IsAlwaysCallable matcher }
        ensures { (at : Option ℕ) × IsFirstMatch F.Fn matcher self.old at
            × Updates (record_cmp N.labels D.rtype D.canonical_cmp) at «data» self.old self.new }
    {
        if let Some(at) = SliceRefsOrOwned::new_from_owned(&self.records).first_match(&matcher) {
            let mut changed = self.records.remove(at);
            *changed.data_mut() = data;
            insert_if_absent(&mut self.records, changed);
        }
    }

    /// Returns whether a record is present that is equal under the canonical order, whatever its
    /// TTL. Uses a binary search.
    pub fn contains(&self, wanted: &Record<N, D>) -> bool
        ensures { IsTrue result
            ↔ Holds (record_cmp N.labels D.rtype D.canonical_cmp) self.now wanted.now }
    {
        match search(&self.records, wanted) {
            Ok(_) => true,
            Err(_) => false,
        }
    }

    /// Returns an iterator over the groups of records of one owner.
    pub fn owner_rrs(&self) -> RecordsIter<'_, N, D>
        ensures records { result ≡ self.now }
        ensures in_order { IsOneClass self.now → IsInOrder N.labels D.rtype self.now }
    {
        RecordsIter::new_from_owned(self.as_slice())
    }

    /// Returns an iterator over the groups of records of one owner and one type.
    pub fn rrsets(&self) -> RrsetIter<'_, N, D>
        ensures { result ≡ self.now }
    {
        RrsetIter::new_from_owned(self.as_slice())
    }

    /// Returns the first group of SOA records of one owner, whatever the owner.
    ///
    /// # Errors
    ///
    /// `MultipleTtlValues` if the TTLs of that group differ.
    #[tactic(auto, using(crate::proofs::LookupLemmas::found_by))]
    pub fn find_soa(&self) -> Result<Option<Rrset<'_, N, D>>, SigningError>
        ensures { IsFound D.rtype
            (find (begins_with (λ r. D.rtype r.«data» == soa))
            (runs (same_rrset N.labels D.rtype) self.now)) result }
    {
        let records = self.as_slice();
        rrset_at(records, first_of_type(records, Rtype::SOA))
    }

    /// Returns the first group of records of this owner and type. The owner may be any name, not
    /// only the apex. Looks at one record after another.
    ///
    /// # Errors
    ///
    /// `MultipleTtlValues` if the TTLs of that group differ, and its type is not RRSIG.
    pub fn find_apex_rtype(
        &self,
        apex: &N,
        rtype: Rtype,
    ) -> Result<Option<Rrset<'_, N, D>>, SigningError>
        ensures { IsFound D.rtype
            (find (begins_with (record_matches N.labels D.rtype (N.labels apex.now) None
            (Some rtype))) (runs (same_rrset N.labels D.rtype) self.now)) result }
    {
        let records = self.as_slice();
        rrset_at(records, first_place(records, apex, &None, &Some(rtype)))
    }

    /// Returns the number of records.
    pub fn len(&self) -> usize
        ensures { result ≡ length self.now }
    {
        self.records.len()
    }

    /// Returns whether there is no record.
    pub fn is_empty(&self) -> bool
        ensures { IsTrue result ↔ (self.now ≡ []) }
    {
        self.records.is_empty()
    }

    /// Returns an iterator over the records, in order.
    pub fn iter(&self) -> slice::Iter<'_, Record<N, D>>
        ensures { iter_rest result ≡ self.now }
    {
        self.records.iter()
    }

    /// Returns the records in order.
    pub fn as_slice(&self) -> &[Record<N, D>]
        ensures records { result.now ≡ self.now }
        ensures sorted { IsStrictlySortedBy (record_cmp N.labels D.rtype D.canonical_cmp) self.now }
        ensures in_order { IsOneClass self.now → IsInOrder N.labels D.rtype self.now }
    {
        self.records.as_slice()
    }

    /// Returns the records in order, as a `Vec`. Takes no memory.
    pub fn into_inner(self) -> Vec<Record<N, D>>
        ensures records { result.items ≡ self }
        ensures sorted { IsStrictlySortedBy (record_cmp N.labels D.rtype D.canonical_cmp) self }
    {
        let SortedRecords { records, sorter: _ } = self;
        records
    }

    /// Returns copies of the records, in the same order. Uses the allocator of the records.
    ///
    /// # Errors
    ///
    /// `OutOfMemory` if there is no memory.
    pub fn clone(&self) -> Result<Self, OutOfMemory>
    where
        N: ToName + Drop,
        D: CloneRecordData + Drop,
        ensures { IfOk result (AllZip (IsRecordClone N.is_clone D.is_clone) self.now) }
    {
        let records = clone_all(self.as_slice(), *self.records.allocator())?;
        Ok(SortedRecords {
            records,
            sorter: PhantomData,
        })
    }

    /// Writes the SOA records and then the others, each part in order, with nothing between
    /// records.
    ///
    /// # Errors
    ///
    /// The first error of the writer.
    pub fn write<W: fmt::Write>(&self, target: &mut W) -> fmt::Result
    where
        D: fmt::Display,
        ensures { OnOk result (WritesText W.write_str_gives target.old
            (texts ⟦<Record<N, D> as fmt::Display>⟧.output (soa_first D.rtype self.now))
            target.new) }
    {
        write_soa_first(self.as_slice(), target, &Plain)
    }

    /// Writes the SOA records and then the others, each part in order. After each record it writes
    /// what `comment` writes for it, and a line feed.
    ///
    /// # Errors
    ///
    /// The first error of the writer or of `comment`.
    pub fn write_with_comments<W: fmt::Write, F: Fn(&Record<N, D>, &mut W) -> fmt::Result>(
        &self,
        target: &mut W,
        comment: F,
    ) -> fmt::Result
    where
        D: fmt::Display,
        F: Drop,
        requires { F.IsAlwaysCallable comment }
        ensures { OnOk result (WritesWithComments W.write_str_gives
            ⟦<Record<N, D> as fmt::Display>⟧.output F.Fn
            comment target.old (soa_first D.rtype self.now) target.new) }
    {
        write_soa_first(self.as_slice(), target, &Commented { comment })
    }
}
