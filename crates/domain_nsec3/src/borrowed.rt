//! Records of a chain that take no memory, since they borrow from the chain, and copies of them in
//! octets of their own.
ghost use Rattle.std.specs.Prelude.{◌≡◌, ◌<◌, [], IfOk, Ok, Some, length, slice_index_or};
ghost use Rattle.domain_base.specs.Classes.{in_class};
ghost use Rattle.domain_nsec3.specs.{Chain.HashedLink, Steps.{common_of, hashed_links_in, AreUsable}, View.{link_text, shared_text}};
ghost use Rattle.domain_nsec3.specs.View.{as_hashed_link, as_param_record, link_with};

use crate::HashedOwner;
use crate::chain::{HashedChain, hash_after};
use crate::hash::{Hashed, display_hash};
use domain_base::{Class, MakeName, ParsedName, ToName, Ttl};
use domain_bitmap::{OwnerHash, RtypeBitmap, RtypeBitmaps};
use domain_chain_rdata::{Nsec3, Nsec3param};
use domain_octets::{FromBuilder, GrowingBuilder, Octets, OutOfMemory, laws};
use domain_record::Record;
use std::alloc::Global;
use std::fmt;
use std::marker::Model;

/// A record of a chain, of class IN. It borrows its octets from the chain. Contracts see its link.
#[derive(Drop)]
pub struct BorrowedNsec3<'a> {
    owner: HashedOwner<'a>,
    hash: &'a [u8],
    /// The text between the hash and the data.
    shared: &'a str,
    ttl: Ttl,
    data: Nsec3<&'a [u8]>,
}

impl<'a> Model for BorrowedNsec3<'a> {
    ghost use Rattle.std.specs.Prelude.{◌≡◌, ◌≤◌, ◌++◌, length};
    ghost use Rattle.domain_base.specs.Classes.{in_class};
    ghost use Rattle.domain_codecs.specs.Base32.{base32_lower};
    ghost use Rattle.domain_nsec3.specs.{Chain.HashedLink, View.{link_with, text_before_data}};

    ghost Value = { HashedLink };

    ghost view = { λ r. link_with r.owner in_class r.ttl r.«data» };

    ghost invariant = { λ r. (length r.hash.now ≤ 39)
        × (text_before_data r.owner r.ttl ≡ base32_lower r.hash.now ++ r.shared.now) };
}

impl<'a> BorrowedNsec3<'a> {
    /// Returns the owner: the text of the hash as a label before the apex.
    pub fn owner(&self) -> &HashedOwner<'a>
        ensures { result.now ≡ self.now.owner }
    {
        &self.owner
    }

    /// Returns how long the record may be cached, in seconds.
    pub fn ttl(&self) -> Ttl
        ensures { result ≡ self.now.ttl }
    {
        self.ttl
    }

    /// Returns the data.
    pub fn data(&self) -> &Nsec3<&'a [u8]>
        ensures { self.now ≡ link_with self.now.owner in_class self.now.ttl result.now }
    {
        &self.data
    }
}

/// The owner with its last dot, the TTL, the class, the type and the data, separated by single
/// spaces.
impl fmt::Display for BorrowedNsec3<'_> {
    ghost output = { λ k. Some (link_text k) };

    #[tactic(auto, using(std::proofs::lemmas::Grind::common_steps, crate::proofs::OwnerLemmas::link_spelled))]
    fn fmt<W: fmt::Write>(&self, f: &mut fmt::Formatter<W>) -> fmt::Result {
        display_hash(self.hash, f)?;
        f.write_str(self.shared)?;
        write!(f, "{}", self.data)
    }
}

/// Returns the types at a place, or no types past the end.
fn lend_types<'a>(types: &'a RtypeBitmaps, place: usize) -> RtypeBitmap<&'a [u8]>
    ensures { result ≡ slice_index_or types.now place [] }
{
    if let Some(own) = types.get(place) {
        return own;
    }
    let none: &'a [u8] = &[];
    let Ok(types) = RtypeBitmap::from_octets(none) else {
        unreachable!();
    };
    types
}

/// Returns the record at a place of a chain, with the parameters of an NSEC3PARAM record. It points
/// to the next hash, the last one to the first.
pub(crate) fn lend_record<'a, O: Octets>(
    chain: &'a HashedChain,
    at: usize,
    ttl: Ttl,
    nsec3param: &'a Record<ParsedName<'_>, Nsec3param<O>>,
    shared: &'a str,
) -> BorrowedNsec3<'a>
    requires inside { at < length chain.now.hashed.items }
    requires sound { AreUsable nsec3param.now.owner chain.now }
    requires shared { shared.now ≡ shared_text nsec3param.now.owner ttl }
    ensures { (d : HashedLink) → result ≡ slice_index_or
        (hashed_links_in nsec3param.now.owner chain.now (common_of nsec3param.now.«data» ttl)) at
        d }
{
    let next = hash_after(chain.hashed.as_slice(), at);
    let hashed = &chain.hashed[at];
    let hash = hashed.hash.as_slice();
    laws::slices_hold_octets(hash);
    let owner = HashedOwner::new(nsec3param.owner().as_parsed(), hash);
    let params = nsec3param.data();
    let salt = params.salt();
    let data = Nsec3::new(
        params.hash_algorithm(),
        params.flags(),
        params.iterations(),
        salt.with_octets(salt.as_slice()),
        OwnerHash::from_octets_unchecked(next),
        lend_types(&chain.types, hashed.place as usize),
    );
    BorrowedNsec3 {
        owner,
        hash,
        shared,
        ttl,
        data,
    }
}

/// Returns a copy of the octets.
fn copy_octets<O: FromBuilder>(alloc: Global, octets: &[u8]) -> Result<O, OutOfMemory>
where
    O::Builder: GrowingBuilder,
    ensures { IfOk result (λ copy. O.octets copy ≡ octets.now) }
{
    O::from_octets(alloc, octets).map_err(|_| OutOfMemory)
}

/// Returns a copy of the record.
pub(crate) fn copy_record<O: FromBuilder, N: MakeName>(
    alloc: Global,
    borrowed: &BorrowedNsec3<'_>,
) -> Result<Record<N, Nsec3<O>>, OutOfMemory>
where
    O: Drop,
    N: Drop,
    O::Builder: GrowingBuilder,
    ensures { IfOk result (λ made. as_hashed_link N.labels made ≡ borrowed.now) }
{
    let owner = borrowed.owner().make(alloc)?;
    let lent = borrowed.data();
    let salt = copy_octets(alloc, lent.salt().as_slice())?;
    let next = copy_octets(alloc, lent.next_owner().as_slice())?;
    let types = copy_octets(alloc, lent.types().as_slice())?;
    let data = Nsec3::new(
        lent.hash_algorithm(),
        lent.flags(),
        lent.iterations(),
        lent.salt().with_octets(salt),
        lent.next_owner().with_octets(next),
        lent.types().with_octets(types),
    );
    Ok(Record::new(owner, Class::IN, borrowed.ttl(), data))
}

/// Returns a copy of the NSEC3PARAM record.
pub(crate) fn copy_param<O: Octets, N: MakeName>(
    alloc: Global,
    borrowed: &Record<ParsedName<'_>, Nsec3param<O>>,
) -> Result<Record<N, Nsec3param<O>>, OutOfMemory>
where
    N: Drop,
    O: Drop,
    ensures { IfOk result (λ made. as_param_record N.labels made
        ≡ as_param_record (λ n. n) borrowed.now) }
{
    let owner = N::make(alloc, borrowed.owner().as_wire())?;
    let params = borrowed.data().clone()?;
    Ok(Record::new(owner, borrowed.class(), borrowed.ttl(), params))
}
