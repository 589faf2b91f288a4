//! The record of a chain that matches or covers a name.
ghost use Rattle.std.specs.Prelude.{◌<◌, length, IfSome};
ghost use Rattle.domain_denier.specs.Picked.{MatchesOrCoversInZone, AreEnds};

use crate::owner_keys::OwnerKeys;
use domain_base::ToName;
use domain_checker::{is_before, laws};
use domain_nsec::NsecChain;

/// Returns bounds that the keys suggest for a search: the record is at the first or after it, and
/// before the second. Without keys, the bounds are no limit.
fn suggested_ends<M: ToName>(keys: Option<&OwnerKeys>, name: &M) -> (usize, usize) {
    keys.map_or((0, usize::MAX), |keys| keys.places_of(name))
}

/// Returns the place that the keys of a chain suggest for a name. If the name is the wildcard right
/// below an ancestor, `above` is the number of labels of that ancestor.
pub(crate) fn suggested<N: ToName, M: ToName>(
    chain: &NsecChain<'_, N>,
    keys: Option<&OwnerKeys>,
    name: &M,
    above: Option<usize>,
) -> Option<usize>
    ensures { IfSome result (λ place. place < length chain.now) }
{
    let place = keys?.place_near(name, above)?;
    if place < chain.len() {
        Some(place)
    } else {
        None
    }
}

/// Returns the suggested bounds if the owner at the low one is not after the name and that at the
/// high one is. Otherwise returns the bounds of the chain.
fn tested<N: ToName, M: ToName>(
    chain: &NsecChain<'_, N>,
    near: (usize, usize),
    name: &M,
) -> (usize, usize)
    requires some { 0 < length chain.now }
    ensures { AreEnds chain.now (M.labels name.now) result.0 result.1 }
{
    let low = match chain.owner(near.0) {
        Some(owner) if near.0 > 0 && !is_before(name, owner) => near.0,
        _ => 0,
    };
    let near_high = near.1.min(chain.len());
    let high = match chain.owner(near_high) {
        Some(owner) if is_before(name, owner) => near_high,
        _ => chain.len(),
    };
    if low < high {
        (low, high)
    } else {
        (0, chain.len())
    }
}

/// Returns the place of the record that matches or covers a name: the last whose owner is not after
/// it. With keys, the search begins where they suggest; if no two owners have the same key, it ends
/// after two comparisons of names.
pub(crate) fn place_of<N: ToName, M: ToName>(
    chain: &NsecChain<'_, N>,
    keys: Option<&OwnerKeys>,
    name: &M,
) -> usize
    requires some { 0 < length chain.now }
    ensures inside { result < length chain.now }
    ensures of_name { MatchesOrCoversInZone chain.now result (M.labels name.now) }
{
    laws::chains_are_known();
    let (mut low, mut high) = tested(chain, suggested_ends(keys, name), name);
    'search: while high - low > 1 {
        let middle = low + (high - low) / 2;
        let Some(owner) = chain.owner(middle) else {
            unreachable!();
        };
        if is_before(name, owner) {
            high = middle;
        } else {
            low = middle;
        }
    }
    low
}
