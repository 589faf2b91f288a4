//! Keys of the owners of a chain, which let a search for a name begin near its end.

use domain_answer::wildcard_of;
use domain_base::{MAX_NAME, ToName};
use domain_nsec::NsecChain;
use domain_octets::OutOfMemory;
use domain_records::owner_key;
use std::alloc::Global;

/// The number of keys that one sample represents.
const RUN: usize = 16;

/// The rule that shortens keys: the leading bits that all keys below the apex share are left out,
/// so that the 64 bits after them distinguish owners.
#[derive(Clone, Copy)]
struct KeyScale {
    /// The number of labels, from the root, that all owners share: those of the apex.
    shared: usize,
    /// The least key of an owner below the apex.
    first: u128,
    /// The greatest key of an owner below the apex.
    last: u128,
    /// The number of leading bits that `first` and `last` share.
    alike: u32,
}

impl KeyScale {
    /// Returns the scale of a chain.
    fn of<N: ToName>(chain: &NsecChain<'_, N>) -> Self {
        let shared = chain.owner(0).map_or(0, |apex| apex.count_labels());
        let key_at = |place| chain
            .owner(place)
            .map_or(0, |owner| owner_key(owner, shared));
        let first = key_at(1);
        let last = key_at(chain.len().saturating_sub(1));
        KeyScale {
            shared,
            first,
            last,
            alike: (first ^ last).leading_zeros(),
        }
    }

    /// Returns the short key of a name: 0 before all owners except the apex, and the greatest
    /// number after them.
    fn short<M: ToName>(&self, name: &M) -> u64 {
        let key = owner_key(name, self.shared);
        if key < self.first {
            return 0;
        }
        if key > self.last {
            return u64::MAX;
        }
        let rest = key.checked_shl(self.alike).unwrap_or(0);
        ((rest >> 64) as u64).max(1)
    }
}

/// Returns how many keys of a run are not above a key. Reads the whole run, so that its cache lines
/// are loaded at once.
fn count_in(run: &[u64], key: u64) -> usize {
    let mut count = 0usize;
    for other in run {
        count = count.wrapping_add(usize::from(*other <= key));
    }
    count
}

/// Returns how many keys are not above a key, if `runs` runs begin with a key that is not above it.
fn count_from(keys: &[u64], runs: usize, key: u64) -> usize {
    let start = runs.saturating_sub(1).saturating_mul(RUN);
    match keys.get(start..) {
        Some(rest) => {
            let run = &rest[..rest.len().min(RUN)];
            start.saturating_add(count_in(run, key))
        }
        None => start,
    }
}

/// Returns the first key of each run.
fn samples_of(alloc: Global, keys: &[u64]) -> Result<Vec<u64>, OutOfMemory> {
    let mut samples = Vec::with_capacity(alloc, keys.len() / RUN + 1)?;
    for run in keys.chunks(RUN) {
        samples.push(run[0])?;
    }
    Ok(samples)
}

/// A number for each owner of a chain, in the order of its records. The numbers are in one list, so
/// that a search among them reads no name. They are hints: each place that they suggest is tested.
#[derive(Drop)]
pub(crate) struct OwnerKeys {
    scale: KeyScale,
    keys: Vec<u64>,
    /// The first of each run of keys, and the first of each run of these. They stay in the caches
    /// when the keys do not.
    samples: Vec<u64>,
    heads: Vec<u64>,
    /// The place of the wildcard right below the apex, which most names that do not exist need.
    below_apex: Option<usize>,
}

impl OwnerKeys {
    /// Makes the keys of the owners of a chain: 9 octets a record.
    pub(crate) fn of<N: ToName>(
        alloc: Global,
        chain: &NsecChain<'_, N>,
    ) -> Result<Self, OutOfMemory> {
        let scale = KeyScale::of(chain);
        let mut keys = Vec::with_capacity(alloc, chain.len())?;
        for place in 0..chain.len() {
            let Some(owner) = chain.owner(place) else {
                unreachable!();
            };
            keys.push(scale.short(owner))?;
        }
        let samples = samples_of(alloc, &keys)?;
        let heads = samples_of(alloc, &samples)?;
        let mut made = OwnerKeys {
            scale,
            keys,
            samples,
            heads,
            below_apex: None,
        };
        if let Some(owner) = chain.owner(1) {
            let mut buffer = [0; MAX_NAME];
            if let Some(wildcard) = wildcard_of(&mut buffer, owner, scale.shared) {
                made.below_apex = made.place_near(&wildcard, None);
            }
        }
        Ok(made)
    }

    /// Returns how many keys are not above this one. The samples say in which run these keys end.
    fn count_up_to(&self, key: u64) -> usize {
        let heads = self.heads.partition_point(|other| *other <= key);
        let samples = count_from(&self.samples, heads, key);
        count_from(&self.keys, samples, key)
    }

    /// Returns the last place with a key below that of a name, and the first place with a key above
    /// it.
    pub(crate) fn places_of<M: ToName>(&self, name: &M) -> (usize, usize) {
        let key = self.scale.short(name);
        let below = key
            .checked_sub(1)
            .map_or(0, |before| self.count_up_to(before));
        (below.saturating_sub(1), self.count_up_to(key))
    }

    /// Returns the last place whose key is not above that of a name. If the name is the wildcard
    /// right below an ancestor, `above` is the number of labels of that ancestor.
    pub(crate) fn place_near<M: ToName>(&self, name: &M, above: Option<usize>) -> Option<usize> {
        if above == Some(self.scale.shared) {
            return self.below_apex;
        }
        self.count_up_to(self.scale.short(name)).checked_sub(1)
    }
}
