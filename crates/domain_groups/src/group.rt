//! Groups of neighbours: runs of records that share their owner, or their owner and type.
ghost use Rattle.std.specs.Prelude.{◌≡◌, ◌<◌, ◌↔◌, [], length, map, Any, Bool, IsTrue, IfOk, IfErr, slice_index_or};
ghost use Rattle.std.specs.{Option.{ForSome, option_map}, Iterator.item_count};
ghost use Rattle.domain_names.specs.Name.{IsAtOrBelow};
ghost use Rattle.domain_groups.specs.Groups.{same_owner, same_type, same_rrset, same_class, same_ttl};
ghost use Rattle.domain_groups.specs.Groups.{may_follow, IsRun, IsFirstRun, TakesRun, HoldsOfNeighbours};
ghost use Rattle.domain_groups.specs.Groups.{items_of, HasFirst, SkipsTo, IsZoneCut, HasOneTtl, IsRrset};
ghost use Rattle.domain_groups.specs.{Groups.{IsNoRrset, TakesRrset}, InOrder.{IsOneClass, IsInOrder}};

use crate::error::SigningError;
use crate::slice::{SliceRefsOrOwned, SliceRefsOrOwnedIterator};
use domain_base::{Class, Rtype, ToName, Ttl};
use domain_record::{Record, RecordData};
use std::marker::{Model, PhantomData};

/// A test whether two neighbours belong to one group.
pub trait Grouping<T> {
    /// The test.
    ghost same: { T → T → Bool };

    /// Returns whether `a` and `b` belong together.
    fn same(a: &T, b: &T) -> bool
        ensures { result ≡ same a.now b.now };
}

/// Records of one owner.
pub struct ByOwner;

impl<N: ToName, D> Grouping<Record<N, D>> for ByOwner {
    ghost same = { same_owner N.labels };

    fn same(a: &Record<N, D>, b: &Record<N, D>) -> bool {
        a.owner().name_eq(b.owner())
    }
}

/// Records of one type.
pub struct ByType;

impl<N, D: RecordData> Grouping<Record<N, D>> for ByType {
    ghost same = { same_type D.rtype };

    fn same(a: &Record<N, D>, b: &Record<N, D>) -> bool {
        a.rtype() == b.rtype()
    }
}

/// Records of one owner and one type.
pub struct ByRrset;

impl<N: ToName, D: RecordData> Grouping<Record<N, D>> for ByRrset {
    ghost same = { same_rrset N.labels D.rtype };

    fn same(a: &Record<N, D>, b: &Record<N, D>) -> bool {
        ByOwner::same(a, b) && ByType::same(a, b)
    }
}

/// Records of one class.
pub struct ByClass;

impl<N, D> Grouping<Record<N, D>> for ByClass {
    ghost same = { same_class };

    fn same(a: &Record<N, D>, b: &Record<N, D>) -> bool {
        a.class() == b.class()
    }
}

/// Records of one TTL.
pub struct ByTtl;

impl<N, D> Grouping<Record<N, D>> for ByTtl {
    ghost same = { same_ttl };

    fn same(a: &Record<N, D>, b: &Record<N, D>) -> bool {
        a.ttl() == b.ttl()
    }
}

/// Records whose owners never descend in the canonical order of names, and whose types never
/// descend within an owner.
pub struct InOrder;

impl<N: ToName, D: RecordData> Grouping<Record<N, D>> for InOrder {
    ghost same = { may_follow N.labels D.rtype };

    fn same(a: &Record<N, D>, b: &Record<N, D>) -> bool {
        let by_owner = a.owner().name_cmp(b.owner());
        by_owner.then_with(|| a.rtype().cmp(&b.rtype())).is_le()
    }
}

fn is_same<T, G: Grouping<T>>(records: &SliceRefsOrOwned<'_, T>, i: usize, j: usize) -> bool
    requires { (i < length (items_of records.now)) × (j < length (items_of records.now)) }
    ensures { (d : T) → result
        ≡ G.same (slice_index_or (items_of records.now) i d)
        (slice_index_or (items_of records.now) j d) }
{
    G::same(records.at(i), records.at(j))
}

/// Returns the length of the first group.
fn first_run<T, G: Grouping<T>>(records: &SliceRefsOrOwned<'_, T>) -> usize
    requires { 0 < length (items_of records.now) }
    ensures { IsFirstRun G.same (items_of records.now) result }
{
    let total = records.len();
    let mut n = 1;
    while n < total && is_same::<T, G>(records, n - 1, n) {
        n += 1;
    }
    n
}

/// Removes the first group from the front and returns it, or `None` if nothing is left.
#[tactic(auto, using(std::proofs::lemmas::Grind::common_steps, crate::proofs::GroupLemmas::runs_first))]
pub(crate) fn take_group<'a, T, G: Grouping<T>>(
    left: &mut SliceRefsOrOwned<'a, T>,
) -> Option<SliceRefsOrOwned<'a, T>>
    ensures taken { TakesRun G.same (items_of left.old) (option_map items_of result)
        (items_of left.new) }
    ensures run { ForSome result (λ group. IsRun G.same (items_of group)) }
{
    if left.len() == 0 {
        return None;
    }
    let n = first_run::<T, G>(left);
    let group = left.front(n);
    *left = left.back(n);
    Some(group)
}

/// Returns whether the elements form one group, or there are none.
pub(crate) fn is_one_run<T, G: Grouping<T>>(records: &SliceRefsOrOwned<'_, T>) -> bool
    ensures { IsTrue result ↔ HoldsOfNeighbours G.same (items_of records.now) }
{
    records.len() == 0 || first_run::<T, G>(records) == records.len()
}

/// The records of one owner, borrowed from a longer list: a maximal run of records whose owners
/// differ at most in the case of letters. Contracts see the list of the records.
#[derive(Drop)]
pub struct OwnerRrs<'a, N: ToName, D> {
    records: SliceRefsOrOwned<'a, Record<N, D>>,
}

impl<'a, N: ToName, D> Model for OwnerRrs<'a, N, D> {
    ghost use Rattle.std.specs.Prelude.{List};
    ghost use Rattle.domain_record.specs.declared.record.Record.{Record};
    ghost use Rattle.domain_groups.specs.Groups.{items_of, same_owner, IsRun};

    ghost Value = { List (Record N D) };

    ghost view = { λ s. items_of s.records };

    ghost invariant = { λ s. IsRun (same_owner N.labels) (items_of s.records) };
}

impl<'a, N: ToName, D> OwnerRrs<'a, N, D> {
    /// Returns the owner, in the spelling of the first record. The owners of the other records
    /// differ from it at most in the case of letters.
    pub fn owner(&self) -> &'a N
        ensures { HasFirst (λ r. r.owner ≡ result.now) self.now }
    {
        self.records.at(0).owner()
    }

    /// Returns the class of the first record.
    pub fn class(&self) -> Class
        ensures { HasFirst (λ r. r.class ≡ result) self.now }
    {
        self.records.at(0).class()
    }

    /// Returns whether the owner is not the apex, and some record is of type NS. For an owner in
    /// the zone, this is a delegation.
    pub fn is_zone_cut(&self, apex: &N) -> bool
    where
        D: RecordData,
        ensures { IsTrue result ↔ IsZoneCut N.labels D.rtype (N.labels apex.now) self.now }
    {
        !self.owner().name_eq(apex) && has_type(&self.records, Rtype::NS)
    }

    /// Returns whether the owner is at or below the apex.
    pub fn is_in_zone(&self, apex: &N) -> bool
        ensures { IsTrue result ↔ HasFirst (λ r. IsAtOrBelow (N.labels r.owner) (N.labels apex.now))
            self.now }
    {
        self.owner().ends_with(apex)
    }

    /// Returns an iterator over the groups of records of one type, in order.
    pub fn rrsets(&self) -> OwnerRrsIter<'a, N, D>
    where
        D: RecordData,
        ensures { result ≡ self.now }
    {
        OwnerRrsIter::new(self.records.clone())
    }

    /// Returns the same group. Takes no memory.
    pub fn clone(&self) -> OwnerRrs<'a, N, D>
        ensures { result ≡ self.now }
    {
        OwnerRrs {
            records: self.records.clone(),
        }
    }

    /// Returns an iterator over the records, in order.
    pub fn records(&self) -> SliceRefsOrOwnedIterator<'a, Record<N, D>>
        ensures { result ≡ self.now }
    {
        self.records.iter()
    }
}

/// Returns whether some record is of type `wanted`.
fn has_type<N, D: RecordData>(records: &SliceRefsOrOwned<'_, Record<N, D>>, wanted: Rtype) -> bool
    ensures { IsTrue result ↔ Any (λ r. D.rtype r.«data» ≡ wanted) (items_of records.now) }
{
    let is_wanted = |record: &Record<N, D>| record.rtype() == wanted;
    records.first_match(&is_wanted).is_some()
}

/// An iterator over the groups of records of one owner, in order. The groups borrow from the
/// records and outlive the iterator. Contracts see the list of the records that are left.
#[derive(Drop)]
pub struct RecordsIter<'a, N: ToName, D> {
    left: SliceRefsOrOwned<'a, Record<N, D>>,
}

impl<'a, N: ToName, D> Model for RecordsIter<'a, N, D> {
    ghost use Rattle.std.specs.Prelude.{List};
    ghost use Rattle.domain_record.specs.declared.record.Record.{Record};
    ghost use Rattle.domain_groups.specs.Groups.{items_of};

    ghost Value = { List (Record N D) };

    ghost view = { λ s. items_of s.left };
}

impl<'a, N: ToName, D> RecordsIter<'a, N, D> {
    /// Returns an iterator over the records of a slice.
    pub fn new(records: SliceRefsOrOwned<'a, Record<N, D>>) -> Self
        ensures { result ≡ items_of records.entry }
    {
        RecordsIter { left: records }
    }

    /// Returns an iterator over the records that the references point to, in their order.
    pub fn new_from_refs(records: &'a [&'a Record<N, D>]) -> Self
        ensures { result ≡ map (λ p. p.now) records.now }
    {
        RecordsIter::new(SliceRefsOrOwned::new_from_refs(records))
    }

    /// Returns an iterator over the records of a slice of owned records.
    pub fn new_from_owned(records: &'a [Record<N, D>]) -> Self
        ensures { result ≡ records.now }
    {
        RecordsIter::new(SliceRefsOrOwned::new_from_owned(records))
    }

    /// Returns whether no record is left.
    pub fn is_empty(&self) -> bool
        ensures { IsTrue result ↔ (self.now ≡ []) }
    {
        self.left.len() == 0
    }

    /// Returns the first record that is left.
    pub fn first(&self) -> &'a Record<N, D>
        requires { 0 < length self.now }
        ensures { HasFirst (λ r. r ≡ result.now) self.now }
    {
        self.left.at(0)
    }

    /// Returns an iterator over the records that are left.
    pub fn records(&self) -> SliceRefsOrOwnedIterator<'a, Record<N, D>>
        ensures { result ≡ self.now }
    {
        self.left.iter()
    }

    /// Drops records from the front until an owner is at or below the apex. Drops all of them if no
    /// owner is.
    pub fn skip_before(&mut self, apex: &N)
        ensures { SkipsTo (λ r. IsAtOrBelow (N.labels r.owner) (N.labels apex.now))
            self.old self.new }
    {
        let is_within = |record: &Record<N, D>| record.owner().ends_with(apex);
        let n = self.left.first_match(&is_within).unwrap_or(self.left.len());
        self.left = self.left.back(n);
    }

    /// Returns whether all records that are left have the same class. True if none is left.
    #[tactic(auto, using(crate::proofs::InOrderLemmas::one_class))]
    pub fn is_one_class(&self) -> bool
        ensures { IsTrue result ↔ IsOneClass self.now }
    {
        is_one_run::<Record<N, D>, ByClass>(&self.left)
    }
}

impl<'a, N: ToName, D: RecordData> RecordsIter<'a, N, D> {
    /// Returns whether the owners of the records that are left never descend in the canonical order
    /// of names (RFC 4034, section 6.1), and their types never descend within an owner. True if
    /// none is left.
    #[tactic(auto, using(crate::proofs::InOrderLemmas::in_order))]
    pub fn is_in_order(&self) -> bool
        ensures { IsTrue result ↔ IsInOrder N.labels D.rtype self.now }
    {
        is_one_run::<Record<N, D>, InOrder>(&self.left)
    }
}

impl<'a, N: ToName, D> Iterator for RecordsIter<'a, N, D> {
    type Item = OwnerRrs<'a, N, D>;

    ghost next_gives = { TakesRun (same_owner N.labels) };

    ghost remaining = { item_count (λ s. s) };

    fn next(&mut self) -> Option<OwnerRrs<'a, N, D>> {
        let records = take_group::<Record<N, D>, ByOwner>(&mut self.left)?;
        Some(OwnerRrs { records })
    }
}

/// Records that form an RRset: at least one, and all with the same TTL unless the first is an RRSIG
/// (RFC 2181, section 5.2). It borrows them. Contracts see the list of the records.
///
/// This type does not check that they share owner, class and type. The iterators ensure it for
/// owner and type.
#[derive(Debug, Drop)]
pub struct Rrset<'a, N, D: RecordData> {
    records: SliceRefsOrOwned<'a, Record<N, D>>,
}

impl<'a, N, D: RecordData> Model for Rrset<'a, N, D> {
    ghost use Rattle.std.specs.Prelude.{List};
    ghost use Rattle.domain_record.specs.declared.record.Record.{Record};
    ghost use Rattle.domain_groups.specs.Groups.{items_of, IsRrset};

    ghost Value = { List (Record N D) };

    ghost view = { λ s. items_of s.records };

    ghost invariant = { λ s. IsRrset D.rtype (items_of s.records) };
}

/// Returns whether all records have the same TTL, or the first is an RRSIG.
#[tactic(auto, using(crate::proofs::InOrderLemmas::one_ttl))]
fn has_one_ttl<N, D: RecordData>(records: &SliceRefsOrOwned<'_, Record<N, D>>) -> bool
    requires { 0 < length (items_of records.now) }
    ensures { IsTrue result ↔ HasOneTtl D.rtype (items_of records.now) }
{
    records.at(0).rtype() == Rtype::RRSIG || is_one_run::<Record<N, D>, ByTtl>(records)
}

impl<'a, N, D: RecordData> Rrset<'a, N, D> {
    /// Returns the records of a slice as an RRset.
    ///
    /// # Errors
    ///
    /// `EmptyRecordSlice` if there is no record, and `MultipleTtlValues` if the TTLs differ and the
    /// first record is not an RRSIG.
    pub fn new(records: SliceRefsOrOwned<'a, Record<N, D>>) -> Result<Self, SigningError>
        ensures ok { IfOk result
            (λ set. (set ≡ items_of records.entry) × IsRrset D.rtype (items_of records.entry)) }
        ensures err { IfErr result (IsNoRrset D.rtype (items_of records.entry)) }
    {
        if records.len() == 0 {
            return Err(SigningError::EmptyRecordSlice);
        }
        if !has_one_ttl(&records) {
            return Err(SigningError::MultipleTtlValues);
        }
        Ok(Rrset { records })
    }

    /// Returns the records that the references point to, as an RRset.
    ///
    /// # Errors
    ///
    /// Those of `new`.
    pub fn new_from_refs(records: &'a [&'a Record<N, D>]) -> Result<Self, SigningError>
        ensures ok { IfOk result
            (λ set. (set ≡ map (λ p. p.now) records.now)
            × IsRrset D.rtype (map (λ p. p.now) records.now)) }
        ensures err { IfErr result (IsNoRrset D.rtype (map (λ p. p.now) records.now)) }
    {
        Rrset::new(SliceRefsOrOwned::new_from_refs(records))
    }

    /// Returns a slice of owned records as an RRset.
    ///
    /// # Errors
    ///
    /// Those of `new`.
    pub fn new_from_owned(records: &'a [Record<N, D>]) -> Result<Self, SigningError>
        ensures ok { IfOk result (λ set. (set ≡ records.now) × IsRrset D.rtype records.now) }
        ensures err { IfErr result (IsNoRrset D.rtype records.now) }
    {
        Rrset::new(SliceRefsOrOwned::new_from_owned(records))
    }

    /// Returns the owner of the first record.
    pub fn owner(&self) -> &'a N
        ensures { HasFirst (λ r. r.owner ≡ result.now) self.now }
    {
        self.first().owner()
    }

    /// Returns the class of the first record.
    pub fn class(&self) -> Class
        ensures { HasFirst (λ r. r.class ≡ result) self.now }
    {
        self.first().class()
    }

    /// Returns the type of the first record.
    pub fn rtype(&self) -> Rtype
        ensures { HasFirst (λ r. D.rtype r.«data» ≡ result) self.now }
    {
        self.first().rtype()
    }

    /// Returns the TTL of the first record. All records have this TTL, unless the first is an
    /// RRSIG.
    pub fn ttl(&self) -> Ttl
        ensures first { HasFirst (λ r. r.ttl ≡ result) self.now }
        ensures one { HasOneTtl D.rtype self.now }
    {
        self.records.at(0).ttl()
    }

    /// Returns the first record.
    pub fn first(&self) -> &'a Record<N, D>
        ensures { HasFirst (λ r. r ≡ result.now) self.now }
    {
        self.records.at(0)
    }

    /// Returns an iterator over the records, in order.
    pub fn iter(&self) -> SliceRefsOrOwnedIterator<'a, Record<N, D>>
        ensures { result ≡ self.now }
    {
        self.records.iter()
    }

    /// Returns the number of records, which is at least 1.
    pub fn len(&self) -> usize
        ensures number { result ≡ length self.now }
        ensures some { 0 < result }
    {
        self.records.len()
    }

    /// Returns the slice of the records.
    pub fn into_inner(self) -> SliceRefsOrOwned<'a, Record<N, D>>
        ensures { items_of result ≡ self.entry }
    {
        self.records
    }

    /// Returns the same records. Takes no memory.
    pub fn clone(&self) -> Rrset<'a, N, D>
        ensures { result ≡ self.now }
    {
        Rrset {
            records: self.records.clone(),
        }
    }
}

/// An iterator over groups of records as RRsets, in order; `G` says which records belong together.
/// For a group whose TTLs differ, and whose first record is not an RRSIG, it returns
/// `MultipleTtlValues` and continues after it. Contracts see the list of the records that are left.
#[derive(Drop)]
pub struct RrsetGroups<'a, N, D: RecordData, G: Grouping<Record<N, D>>> {
    left: SliceRefsOrOwned<'a, Record<N, D>>,
    grouping: PhantomData<G>,
}

/// An iterator over the groups of records of one owner and one type. It ignores the class.
pub type RrsetIter<'a, N, D> = RrsetGroups<'a, N, D, ByRrset>;

/// An iterator over the groups of records of one type within the records of one owner. It ignores
/// the class.
pub type OwnerRrsIter<'a, N, D> = RrsetGroups<'a, N, D, ByType>;

impl<'a, N, D: RecordData, G: Grouping<Record<N, D>>> Model for RrsetGroups<'a, N, D, G> {
    ghost use Rattle.std.specs.Prelude.{List};
    ghost use Rattle.domain_record.specs.declared.record.Record.{Record};
    ghost use Rattle.domain_groups.specs.Groups.{items_of};

    ghost Value = { List (Record N D) };

    ghost view = { λ s. items_of s.left };
}

impl<'a, N, D: RecordData, G: Grouping<Record<N, D>>> RrsetGroups<'a, N, D, G> {
    /// Returns an iterator over the groups in the records of a slice.
    pub fn new(records: SliceRefsOrOwned<'a, Record<N, D>>) -> Self
        ensures { result ≡ items_of records.entry }
    {
        RrsetGroups {
            left: records,
            grouping: PhantomData,
        }
    }

    /// Returns an iterator over the groups in the records that the references point to, in their
    /// order.
    pub fn new_from_refs(records: &'a [&'a Record<N, D>]) -> Self
        ensures { result ≡ map (λ p. p.now) records.now }
    {
        RrsetGroups::new(SliceRefsOrOwned::new_from_refs(records))
    }

    /// Returns an iterator over the groups in a slice of owned records.
    pub fn new_from_owned(records: &'a [Record<N, D>]) -> Self
        ensures { result ≡ records.now }
    {
        RrsetGroups::new(SliceRefsOrOwned::new_from_owned(records))
    }
}

impl<'a, N, D: RecordData, G: Grouping<Record<N, D>>> Iterator for RrsetGroups<'a, N, D, G> {
    type Item = Result<Rrset<'a, N, D>, SigningError>;

    ghost next_gives = { TakesRrset G.same D.rtype };

    ghost remaining = { item_count (λ s. s) };

    fn next(&mut self) -> Option<Result<Rrset<'a, N, D>, SigningError>> {
        let group = take_group::<Record<N, D>, G>(&mut self.left)?;
        Some(Rrset::new(group))
    }
}
