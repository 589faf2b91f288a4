//! The closest encloser of a name, in an NSEC3 chain.
ghost use Rattle.std.specs.Prelude.{◌≡◌, ◌<◌, true, length, IfOk, IfErr};
ghost use Rattle.domain_names.specs.Name.{is_at_or_below};
ghost use Rattle.domain_nsec3.specs.{Chain.IsNoHash, View.hash_by};
ghost use Rattle.domain_denier.specs.HashedPicked.{IsPickRefusal, IsFoundPlaced};

use crate::hash_search::look_up;
use domain_base::{MAX_NAME, ToName};
use domain_hasher::{Nsec3HashError, Nsec3Hasher};
use domain_nsec3::Nsec3Chain;
use domain_octets::Octets;
use std::alloc::Global;

/// The closest encloser of a name: its number of labels, and the places of the record that matches
/// it and of the record that covers the next closer name. `cover` is None if the closest encloser
/// is the name itself.
#[derive(Clone, Copy)]
pub(crate) struct PlacedEncloser {
    pub(crate) count: usize,
    pub(crate) place: usize,
    pub(crate) cover: Option<usize>,
}

/// Finds the closest encloser of a name at or below the apex. Hashes names from this one towards
/// the apex, up to the first that a record matches. The wire form of each name above is a suffix of
/// the name's own. If no record matches a name, its cover is kept for the name above it.
pub(crate) fn find_encloser<O: Octets, M: ToName, H: Nsec3Hasher>(
    alloc: Global,
    chain: &Nsec3Chain<'_, O>,
    name: &M,
    hasher: &H,
) -> Result<Option<PlacedEncloser>, Nsec3HashError>
    requires some { 0 < length chain.now.links }
    requires below { is_at_or_below (M.labels name.now) chain.now.param.owner ≡ true }
    ensures ok { IfOk result (IsFoundPlaced
        (hash_by (H.answer hasher.now) chain.now.param.parameters) chain.now (M.labels name.now)) }
    ensures err { IfErr result (IsNoHash (IsPickRefusal
        (hash_by (H.answer hasher.now) chain.now.param.parameters) chain.now (M.labels name.now))
        (H.takes_memory hasher.now)) }
{
    let apex = chain.nsec3param().owner();
    let mut buffer = [0; MAX_NAME];
    let mut octets = name.lower_wire(&mut buffer);
    let mut left = name.as_parsed();
    let mut cover = None;
    'names: loop {
        let found = look_up(alloc, chain, octets, hasher)?;
        if found.matches {
            return Ok(Some(PlacedEncloser {
                count: left.count_labels(),
                place: found.place,
                cover,
            }));
        }
        if left.name_eq(apex) {
            return Ok(None);
        }
        let Some((label, above)) = left.split_first() else {
            unreachable!();
        };
        octets = &octets[label.len() + 1..];
        left = above;
        cover = Some(found.place);
    }
}
