//! The owners of a zone that are not occluded, and their types.
ghost use Rattle.std.specs.Prelude.{◌≡◌, ◌&&◌, ◌||◌, ◌==◌, ℕ, ◌<◌, OnOk, ◌≤◌, false, IfNone, IfSome, ◌∷◌, ◌++◌, []};
ghost use Rattle.std.specs.{Prelude.{Bool, IfOk, IfErr, IsOkAnd, map, not}, Option.option_map};
ghost use Rattle.domain_base.specs.Types.{dnskey, ds, rrsig};
ghost use Rattle.domain_bitmap.specs.{Bitmap.bitmap_octets, Blocks.holds};
ghost use Rattle.domain_zone.specs.Zone.{zone_of, as_zone_record, may_list, lists_type, clashes, has_clash};
ghost use Rattle.domain_zone.specs.Zone.{IsFirstClash, AreListed, IsListingFault, covered_names, OwnerRecords};
ghost use Rattle.domain_zone.specs.Zone.{as_owner_records, has_type, is_passed_over};
ghost use Rattle.domain_groups.specs.InOrder.{HoldsPairwise, IsInOrder};
ghost use Rattle.domain_octets.specs.Octets.{Octets};

use domain_base::{ParsedName, Rtype, ToName};
use domain_bitmap::{RtypeBitmap, RtypeBitmapBuilder, RtypeBitmaps};
use domain_groups::{OwnerRrs, RecordsIter, SigningError, SliceRefsOrOwnedIterator};
use domain_octets::{GrowingBuilder, OutOfMemory};
use domain_record::{Record, ZoneData};
use std::alloc::Global;
use std::marker::Model;

/// Returns whether a record has this type.
pub fn has_type<N: ToName, D: ZoneData>(
    mut records: SliceRefsOrOwnedIterator<'_, Record<N, D>>,
    wanted: Rtype,
) -> bool
    ensures { result ≡ has_type (zone_of N.labels D.rtype D.minimum records.entry) wanted }
{
    'records: while let Some(record) = records.next() {
        if record.rtype() == wanted {
            return true;
        }
    }
    false
}

/// Returns whether a name is outside of the zone, or at or below the last name that occludes.
fn is_passed_over<N: ToName>(apex: &N, occluder: Option<&N>, name: &N) -> bool
    ensures { result ≡ is_passed_over (N.labels apex.now)
        (option_map (λ o. N.labels o.now) occluder.entry) (N.labels name.now) }
{
    if !name.ends_with(apex) {
        return true;
    }
    match occluder {
        Some(occluder) => name.ends_with(occluder),
        None => false,
    }
}

/// An owner of a zone that is not occluded.
#[derive(Drop)]
pub struct UnoccludedOwner<'a, N: ToName, D> {
    /// The name, in the spelling of its first record.
    pub name: &'a N,
    /// Its records, in order.
    pub records: OwnerRrs<'a, N, D>,
    /// Whether it is strictly below the apex and owns NS records.
    pub is_zone_cut: bool,
}

impl<N: ToName, D: ZoneData> UnoccludedOwner<'_, N, D> {
    /// Returns whether it is a zone cut without DS records (RFC 5155, section 6).
    pub fn is_unsigned_cut(&self) -> bool
        ensures { result ≡ (self.now.is_zone_cut
            && not (has_type (zone_of N.labels D.rtype D.minimum self.now.records) ds)) }
    {
        self.is_zone_cut && !has_type(self.records.records(), Rtype::DS)
    }
}

/// An iterator over the owners at or below an apex that are not occluded, in canonical order, with
/// or without unsigned delegations. It skips all other records, and takes no memory. Contracts see
/// the list of the owners that are left.
#[derive(Drop)]
pub struct UnoccludedOwners<'a, N: ToName, D: ZoneData> {
    apex: &'a N,
    without_unsigned: bool,
    below_dname: bool,
    groups: RecordsIter<'a, N, D>,
    occluder: Option<&'a N>,
}

impl<'a, N: ToName, D: ZoneData> Model for UnoccludedOwners<'a, N, D> {
    ghost use Rattle.std.specs.{Prelude.{List, filter, map}, Option.option_map};
    ghost use Rattle.domain_groups.specs.Groups.{same_owner, runs};
    ghost use Rattle.domain_zone.specs.Zone.{stays, OwnerRecords, zone_of, left_owners};

    ghost Value = { List OwnerRecords };

    ghost view = { λ s. filter (stays s.without_unsigned) (left_owners s.below_dname
        (N.labels s.apex.now) (option_map (λ o. N.labels o.now) s.occluder)
        (map (zone_of N.labels D.rtype D.minimum) (runs (same_owner N.labels) s.groups))) };
}

impl<'a, N: ToName, D: ZoneData> UnoccludedOwners<'a, N, D> {
    ghost use Rattle.domain_groups.specs.InOrder.{IsInOrder};
    ghost use Rattle.domain_zone.specs.Zone.{covered_owners};

    /// Returns an iterator over the owners at or below the apex of records that are in order. It
    /// leaves out owners strictly below a zone cut. If `without_unsigned` is true, it also leaves
    /// out zone cuts without DS records (RFC 5155, section 6). If `below_dname` is true, it also
    /// leaves out owners strictly below an owner of a DNAME record that is at or below the apex
    /// (RFC 6672, section 2.4).
    #[tactic(auto, using(crate::proofs::WalkLemmas::covered_first))]
    pub fn new(
        apex: &'a N,
        records: RecordsIter<'a, N, D>,
        without_unsigned: bool,
        below_dname: bool,
    ) -> Self
        requires { IsInOrder N.labels D.rtype records }
        ensures { result ≡ covered_owners without_unsigned below_dname
            (zone_of N.labels D.rtype D.minimum records.entry) (N.labels apex.now) }
    {
        UnoccludedOwners {
            apex,
            without_unsigned,
            below_dname,
            groups: records,
            occluder: None,
        }
    }
}

impl<'a, N: ToName, D: ZoneData> Iterator for UnoccludedOwners<'a, N, D> {
    ghost use Rattle.std.specs.Iterator.{YieldsFirstBy, item_count};
    ghost use Rattle.domain_zone.specs.Zone.{as_owner_records};

    type Item = UnoccludedOwner<'a, N, D>;

    ghost next_gives = { YieldsFirstBy (as_owner_records N.labels D.rtype D.minimum) (λ s. s) };

    ghost remaining = { item_count (λ s. s) };

    fn next(&mut self) -> Option<UnoccludedOwner<'a, N, D>> {
        'groups: while let Some(records) = self.groups.next() {
            let name = records.owner();
            if is_passed_over(self.apex, self.occluder, name) {
                continue;
            }
            let owns_ns = has_type(records.records(), Rtype::NS);
            let is_zone_cut = !name.name_eq(self.apex) & owns_ns;
            let owns_dname = has_type(records.records(), Rtype::DNAME);
            self.occluder = (is_zone_cut | (self.below_dname & owns_dname)).then_some(name);
            let owner = UnoccludedOwner {
                name,
                records,
                is_zone_cut,
            };
            if !(self.without_unsigned & owner.is_unsigned_cut()) {
                return Some(owner);
            }
        }
        None
    }
}

/// Returns whether a chain may list a type of an owner: at a zone cut, only NS and DS.
fn may_list(at_cut: bool, rtype: Rtype) -> bool
    ensures { result ≡ may_list at_cut rtype }
{
    !at_cut || rtype == Rtype::NS || rtype == Rtype::DS
}

/// Adds a type to a set that grows. An error changes nothing.
///
/// # Errors
///
/// `OutOfMemory` if there is no memory.
pub fn add_type<B: GrowingBuilder>(
    types: &mut RtypeBitmapBuilder<B>,
    rtype: Rtype,
) -> Result<(), OutOfMemory>
    ensures { OnOk result ((t : ℕ) → t < 65536
        → holds types.new t ≡ (t == rtype || holds types.old t)) }
{
    types.add(rtype).map_err(|_| OutOfMemory)
}

/// Adds the types of an owner's records that a chain lists: all of them, or at a zone cut only NS
/// and DS (RFC 4035, section 2.3).
///
/// # Errors
///
/// `OutOfMemory` if there is no memory. Some types may then have been added.
#[tactic(auto, using(crate::proofs::GivenLemmas::list_more, crate::proofs::GivenLemmas::list_not))]
pub fn add_types<B: GrowingBuilder, N: ToName, D: ZoneData>(
    types: &mut RtypeBitmapBuilder<B>,
    mut records: SliceRefsOrOwnedIterator<'_, Record<N, D>>,
    at_cut: bool,
) -> Result<(), OutOfMemory>
    ensures { OnOk result ((t : ℕ) → t < 65536
        → holds types.new t ≡ (holds types.old t
        || lists_type at_cut (zone_of N.labels D.rtype D.minimum records.entry) t)) }
{
    'records: while let Some(record) = records.next() {
        if may_list(at_cut, record.rtype()) {
            add_type(types, record.rtype())?;
        }
    }
    Ok(())
}

/// Adds a type if `wanted` is true.
fn add_wanted<B: GrowingBuilder>(
    types: &mut RtypeBitmapBuilder<B>,
    rtype: Rtype,
    wanted: bool,
) -> Result<(), OutOfMemory>
    ensures { OnOk result ((t : ℕ) → t < 65536
        → holds types.new t ≡ (((t == rtype) && wanted) || holds types.old t)) }
{
    if wanted {
        add_type(types, rtype)?;
    }
    Ok(())
}

/// Returns the types that a chain lists for an owner: those of `add_types`, and RRSIG, the type
/// `own` and DNSKEY, each if it is wanted. The result uses the memory of `buffer`, whose contents
/// are dropped.
///
/// # Errors
///
/// `OutOfMemory` if there is no memory.
pub fn list_types<N: ToName, D: ZoneData>(
    mut buffer: Vec<u8>,
    owner: &UnoccludedOwner<'_, N, D>,
    wants_rrsig: bool,
    own: Rtype,
    wants_own: bool,
    wants_dnskey: bool,
) -> Result<RtypeBitmap<Vec<u8>>, OutOfMemory>
    ensures { IfOk result (λ types. types ≡ bitmap_octets (λ t.
        (((t == rrsig) && wants_rrsig) || ((t == own) && wants_own)
        || ((t == dnskey) && wants_dnskey))
        || lists_type owner.now.is_zone_cut
        (zone_of N.labels D.rtype D.minimum owner.now.records) t)) }
{
    buffer.clear();
    let mut types = RtypeBitmapBuilder::with_builder(buffer);
    add_wanted(&mut types, Rtype::RRSIG, wants_rrsig)?;
    add_wanted(&mut types, own, wants_own)?;
    add_wanted(&mut types, Rtype::DNSKEY, wants_dnskey)?;
    add_types(&mut types, owner.records.records(), owner.is_zone_cut)?;
    Ok(types.finalize())
}

/// Returns whether two records have the same type, other than RRSIG, and different TTLs.
fn clash<N: ToName, D: ZoneData>(first: &Record<N, D>, second: &Record<N, D>) -> bool
    ensures { result ≡ clashes (as_zone_record N.labels D.rtype D.minimum first.now)
        (as_zone_record N.labels D.rtype D.minimum second.now) }
{
    let rtype = first.rtype();
    rtype == second.rtype() && rtype != Rtype::RRSIG && first.ttl() != second.ttl()
}

/// Returns the first type, other than RRSIG, of which two records have different TTLs (RFC 2181,
/// section 5.2). The types of the records never descend, so comparing neighbours is enough.
pub fn uneven_type<N: ToName, D: ZoneData>(
    mut records: SliceRefsOrOwnedIterator<'_, Record<N, D>>,
) -> Option<Rtype>
    requires { HoldsPairwise (λ r s. D.rtype r.«data» ≤ D.rtype s.«data») records }
    ensures some { IfSome result
        (IsFirstClash (zone_of N.labels D.rtype D.minimum records.entry)) }
    ensures none { IfNone result
        (has_clash (zone_of N.labels D.rtype D.minimum records.entry) ≡ false) }
{
    let Some(first) = records.next() else {
        return None;
    };
    let mut previous = first;
    'neighbours: while let Some(record) = records.next() {
        if clash(previous, record) {
            return Some(record.rtype());
        }
        previous = record;
    }
    None
}

/// The names of a chain that own records, and the types of each.
///
/// If there is no memory for a name, the list is full and gets no more names. The walk that fills
/// it continues, and finds the faults of the owners that are left.
#[derive(Drop)]
pub struct ListedOwners<'a> {
    /// The names.
    pub names: Vec<ParsedName<'a>>,
    /// The types of each name.
    pub types: RtypeBitmaps,
    /// Whether there was no memory for a name.
    pub is_full: bool,
}

impl<'a> ListedOwners<'a> {
    /// Returns a list without owners. Takes no memory.
    fn new(alloc: Global) -> Self
        ensures room { result.is_full ≡ false }
        ensures names { result.names.items ≡ [] }
        ensures types { result.types ≡ [] }
    {
        ListedOwners {
            names: Vec::new(alloc),
            types: RtypeBitmaps::new(alloc),
            is_full: false,
        }
    }

    /// Adds an owner with its types. The list becomes full if there is no memory for them, or if
    /// `types` is an error. Returns the octets of the types, as a buffer for the types of the next
    /// owner.
    fn add(
        &mut self,
        name: ParsedName<'a>,
        types: Result<RtypeBitmap<Vec<u8>>, OutOfMemory>,
        alloc: Global,
    ) -> Vec<u8>
        ensures room { self.new.is_full ≡ false → self.old.is_full ≡ false }
        ensures names { self.new.is_full ≡ false
            → self.new.names.items ≡ self.old.names.items ++ name.entry ∷ [] }
        ensures types { self.new.is_full ≡ false
            → IsOkAnd types (λ own. self.new.types ≡ self.old.types ++ own ∷ []) }
    {
        let Ok(types) = types else {
            self.is_full = true;
            return Vec::new(alloc);
        };
        if self.types.push(&types).is_err() || self.names.push(name).is_err() {
            self.is_full = true;
        }
        types.into_octets()
    }
}

/// The types that a chain lists for an owner.
pub trait ChainTypes {
    /// The octets of the type bitmap of an owner. The first argument says whether it is the apex.
    ghost bits: { Self → Bool → OwnerRecords → Octets };

    /// Returns the types of an owner. The result uses the memory of `buffer`, whose contents are
    /// dropped.
    ///
    /// # Errors
    ///
    /// `OutOfMemory` if there is no memory.
    fn types_of<N: ToName, D: ZoneData>(
        &self,
        buffer: Vec<u8>,
        owner: &UnoccludedOwner<'_, N, D>,
        is_apex: bool,
    ) -> Result<RtypeBitmap<Vec<u8>>, OutOfMemory>
        ensures { IfOk result (λ types. types ≡ bits self.now is_apex
            (as_owner_records N.labels D.rtype D.minimum owner.now)) };
}

/// Returns the owners of `UnoccludedOwners::new`, each with the types that a chain lists for it.
///
/// # Errors
///
/// `MultipleTtlValues` if two records of such an owner have the same type, other than RRSIG, and
/// different TTLs. Otherwise `OutOfMemory` if there is no memory.
pub fn list_owners<'a, N: ToName, D: ZoneData, T: ChainTypes>(
    alloc: Global,
    apex: &'a N,
    records: RecordsIter<'a, N, D>,
    without_unsigned: bool,
    below_dname: bool,
    types: &T,
) -> Result<ListedOwners<'a>, SigningError>
    requires { IsInOrder N.labels D.rtype records }
    ensures owners { IfOk result (AreListed (T.bits types.now)
        (zone_of N.labels D.rtype D.minimum records.entry) (N.labels apex.now)
        (covered_names without_unsigned below_dname
        (zone_of N.labels D.rtype D.minimum records.entry) (N.labels apex.now))) }
    ensures fault { IfErr result (IsListingFault
        (zone_of N.labels D.rtype D.minimum records.entry)
        (covered_names without_unsigned below_dname
        (zone_of N.labels D.rtype D.minimum records.entry) (N.labels apex.now))) }
{
    let mut left = UnoccludedOwners::new(apex, records, without_unsigned, below_dname);
    let mut owners = ListedOwners::new(alloc);
    let mut buffer = Vec::new(alloc);
    'owners: while let Some(owner) = left.next() {
        if uneven_type(owner.records.records()).is_some() {
            return Err(SigningError::MultipleTtlValues);
        }
        if owners.is_full {
            continue;
        }
        let listed = types.types_of(buffer, &owner, owner.name.name_eq(apex));
        buffer = owners.add(owner.name.as_parsed(), listed, alloc);
    }
    if owners.is_full {
        return Err(SigningError::OutOfMemory);
    }
    Ok(owners)
}
