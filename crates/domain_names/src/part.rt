//! Where two names part: their order, the labels that they share, and which is below the other.
ghost use Rattle.std.specs.Prelude.{◌≡◌, ◌≤◌, length, map, option_map, IsTrue, ◌↔◌};
ghost use Rattle.domain_names.specs.Name.{Name, canonical_cmp, common_labels, IsAtOrBelow, is_at_or_below};
ghost use Rattle.domain_names.specs.{Wire.{labels_of, IsWire}, Part.{EndAlike, EndsIn, Part, order_below}};

use crate::Comparison;
use crate::wire::{compare_from_leaf, count_labels, is_same, lowered_octets_cmp, split_first};
use std::cmp::Ordering;

/// Returns whether both have eight octets, and the last eight of both are the same.
fn same_last_eight(a: &[u8], b: &[u8]) -> bool
    ensures { IsTrue result → EndAlike a.now b.now 8 }
{
    match (a.last_chunk::<8>(), b.last_chunk::<8>()) {
        (Some(x), Some(y)) => u64::from_le_bytes(*x) == u64::from_le_bytes(*y),
        _ => false,
    }
}

/// Returns a multiple of eight: a number of octets in which the ends of both lists are the same.
fn equal_eights(a: &[u8], b: &[u8]) -> usize
    ensures { EndAlike a.now b.now result }
{
    let mut count = 0;
    'eights: while same_last_eight(&a[..a.len() - count], &b[..b.len() - count]) {
        count += 8;
    }
    count
}

/// Returns a number of octets in which the ends of two names are the same. It includes the root.
#[tactic(auto, using(crate::proofs::PartLemmas::alike_steps))]
fn equal_end(a: &[u8], b: &[u8]) -> usize
    requires a { IsWire a.now }
    requires b { IsWire b.now }
    ensures root { 1 ≤ result }
    ensures alike { EndAlike a.now b.now result }
{
    let most = a.len().min(b.len());
    let eights = equal_eights(a, b);
    let start = if eights == 0 { 1 } else { eights };
    for count in start..most {
        if a[a.len() - 1 - count] != b[b.len() - 1 - count] {
            return count;
        }
    }
    most
}

/// An end of a name, and the label right below it, if the name has more labels than that.
#[derive(Clone, Copy)]
struct End<'a> {
    below: Option<&'a [u8]>,
    wire: &'a [u8],
}

/// Returns the longest end within this one that has at most `most` octets.
fn end_within<'a>(end: End<'a>, most: usize) -> End<'a>
    requires wire { IsWire end.wire.now }
    requires root { 1 ≤ most }
    ensures wire { IsWire result.wire.now }
    ensures end { (name : Name)
        → EndsIn name (option_map (λ x. x.now) end.entry.below) (labels_of end.entry.wire.now)
        → EndsIn name (option_map (λ x. x.now) result.below) (labels_of result.wire.now) }
    ensures within { length result.wire.now ≤ most }
    ensures part { length result.wire.now ≤ length end.entry.wire.now }
{
    let mut end = end;
    while end.wire.len() > most {
        let Some((label, above)) = split_first(end.wire) else {
            unreachable!();
        };
        end = End {
            below: Some(label),
            wire: above,
        };
    }
    end
}

/// Returns the longest end that two names have in common, octet for octet, as the end of each.
#[tactic(auto, using(crate::proofs::PartLemmas::alike_steps))]
fn part<'a>(a: &'a [u8], b: &'a [u8]) -> (End<'a>, End<'a>)
    requires a { IsWire a.now }
    requires b { IsWire b.now }
    ensures wire { IsWire result.0.wire.now }
    ensures parts { Part (labels_of a.now) (labels_of b.now)
        (option_map (λ x. x.now) result.0.below) (option_map (λ y. y.now) result.1.below)
        (labels_of result.0.wire.now) }
{
    let equal = equal_end(a, b);
    let x = End {
        below: None,
        wire: a,
    };
    let y = End {
        below: None,
        wire: b,
    };
    let mut x = end_within(x, equal);
    let mut y = end_within(y, equal);
    'parting: while x.wire.len() != y.wire.len() {
        x = end_within(x, y.wire.len());
        y = end_within(y, x.wire.len());
    }
    (x, y)
}

/// Returns the order of the labels right below the shared end, or None if they differ only in case.
/// A name without such a label comes first.
fn order_below(x: Option<&[u8]>, y: Option<&[u8]>) -> Option<Ordering>
    ensures { result ≡ order_below (option_map (λ l. l.now) x.entry)
        (option_map (λ l. l.now) y.entry) }
{
    match (x, y) {
        (None, None) => Some(Ordering::Equal),
        (None, Some(_)) => Some(Ordering::Less),
        (Some(_), None) => Some(Ordering::Greater),
        (Some(x), Some(y)) => match lowered_octets_cmp(x, y) {
            Ordering::Equal => None,
            order => Some(order),
        },
    }
}

/// Returns the canonical order of two names.
#[tactic(auto, using(crate::proofs::PartLemmas::parted))]
pub(crate) fn canonical_cmp(a: &[u8], b: &[u8]) -> Ordering
    requires a { IsWire a.now }
    requires b { IsWire b.now }
    ensures { result ≡ canonical_cmp (labels_of a.now) (labels_of b.now) }
{
    let (x, y) = part(a, b);
    match order_below(x.below, y.below) {
        Some(order) => order,
        None => compare_from_leaf(a, b).order,
    }
}

/// Returns the canonical order and the number of shared labels. These are the labels of the shared
/// end, unless the labels right below it differ only in case.
#[tactic(auto, using(crate::proofs::PartLemmas::parted))]
pub fn compare(a: &[u8], b: &[u8]) -> Comparison
    requires a { IsWire a.now }
    requires b { IsWire b.now }
    ensures order { result.order ≡ canonical_cmp (labels_of a.now) (labels_of b.now) }
    ensures common { result.common ≡ common_labels (labels_of a.now) (labels_of b.now) }
{
    let (x, y) = part(a, b);
    match order_below(x.below, y.below) {
        Some(order) => Comparison {
            order,
            common: count_labels(x.wire),
        },
        None => compare_from_leaf(a, b),
    }
}

/// Returns whether a name is at or below another. Compares only the longest end of the name that
/// has at most as many octets as the other.
#[tactic(auto, using(crate::proofs::PartLemmas::below_steps))]
pub fn is_at_or_below(name: &[u8], above: &[u8]) -> bool
    requires name { IsWire name.now }
    requires above { IsWire above.now }
    ensures value { result ≡ is_at_or_below (labels_of name.now) (labels_of above.now) }
    ensures below { IsTrue result ↔ IsAtOrBelow (labels_of name.now) (labels_of above.now) }
{
    let mut end = name;
    while end.len() > above.len() {
        let Some((_, rest)) = split_first(end) else {
            unreachable!();
        };
        end = rest;
    }
    is_same(end, above)
}
