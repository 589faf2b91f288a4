//! The wire form of names.
ghost use Rattle.std.specs.Prelude.{◌≡◌, ◌<◌, ◌≤◌, ◌∷◌, [], length, map, drop, IfSome, IfNone};
ghost use Rattle.std.specs.Prelude.{IsTrue, IfOk, IfErr, OnOk, ◌++◌, ◌↔◌, fold};
ghost use Rattle.std.specs.{Char.to_ascii_lowercase, Ordering.nat_cmp, Cmp.Lexicographic.slice_cmp};
ghost use Rattle.std.specs.Hash as fed;
ghost use Rattle.domain_names.specs.Name.{wire_of, lowered, IsSame, same_name};
ghost use Rattle.domain_names.specs.{Name.{canonical_cmp, common_labels}, Part.BeginAlike, Wire.{labels_of, IsWire}};
ghost use Rattle.domain_names.specs.Wire.{BeginsWithName, NameFault, WholeNameFault, fault_of, name_fault_of};

use crate::{Comparison, NameError, ParseError};
use domain_octets::laws;
use std::cmp::Ordering;
use std::hash::Hasher;

/// The greatest length of a name's wire form in octets (RFC 1035, section 2.3.4).
pub const MAX_NAME: usize = 255;

/// The greatest length of a label in octets.
pub const MAX_LABEL_LEN: usize = 63;

/// Returns the first label and the name above it, or None for the root.
#[tactic(auto, using(crate::proofs::WireLemmas::label_steps))]
pub fn split_first(wire: &[u8]) -> Option<(&[u8], &[u8])>
    requires { IsWire wire.now }
    ensures root { IfNone result (labels_of wire.now ≡ []) }
    ensures label { IfSome result (λ p. labels_of wire.now ≡ p.0.now ∷ labels_of p.1.now) }
    ensures rest { IfSome result (λ p. IsWire p.1.now) }
    ensures shorter { IfSome result (λ p. length p.1.now < length wire.now) }
{
    let len = wire[0] as usize;
    if len == 0 {
        return None;
    }
    Some((&wire[1..len + 1], &wire[len + 1..]))
}

/// Returns the number of labels of a name.
#[tactic(auto, using(crate::proofs::WireLemmas::few_labels))]
pub(crate) fn count_labels(wire: &[u8]) -> usize
    requires { IsWire wire.now }
    ensures { result ≡ length (labels_of wire.now) }
{
    let mut count = 0;
    let mut wire = wire;
    while let Some((_, above)) = split_first(wire) {
        count += 1;
        wire = above;
    }
    count
}

/// Returns a name without its first `count` labels.
#[tactic(auto, using(crate::proofs::WireLemmas::drop_next))]
pub(crate) fn skip_labels(wire: &[u8], count: usize) -> &[u8]
    requires wire { IsWire wire.now }
    requires within { count ≤ length (labels_of wire.now) }
    ensures rest { labels_of result.now ≡ drop count (labels_of wire.now) }
    ensures wire { IsWire result.now }
{
    let mut wire = wire;
    for i in 0..count {
        let Some((_, above)) = split_first(wire) else {
            unreachable!();
        };
        wire = above;
    }
    wire
}

/// Returns whether both have eight octets, and the first eight of both are the same.
fn same_first_eight(a: &[u8], b: &[u8]) -> bool
    ensures { IsTrue result → BeginAlike a.now b.now 8 }
{
    match (a.first_chunk::<8>(), b.first_chunk::<8>()) {
        (Some(x), Some(y)) => u64::from_le_bytes(*x) == u64::from_le_bytes(*y),
        _ => false,
    }
}

/// Returns a multiple of eight: a number of octets in which the starts of both lists are the same.
fn equal_start(a: &[u8], b: &[u8]) -> usize
    ensures { BeginAlike a.now b.now result }
{
    let mut count = 0;
    'eights: while same_first_eight(&a[count..], &b[count..]) {
        count += 8;
    }
    count
}

/// Returns the order of octets with A to Z lowered. Octets that are equal are compared as they are.
#[tactic(auto, using(crate::proofs::OrderLemmas::alike_ties, crate::proofs::OrderLemmas::lengths_decide))]
pub(crate) fn lowered_octets_cmp(a: &[u8], b: &[u8]) -> Ordering
    ensures { result ≡ slice_cmp nat_cmp (map to_ascii_lowercase a.now)
        (map to_ascii_lowercase b.now) }
{
    let most = a.len().min(b.len());
    for i in equal_start(a, b)..most {
        if a[i] != b[i] {
            let order = a[i].to_ascii_lowercase().cmp(&b[i].to_ascii_lowercase());
            if order.is_ne() {
                return order;
            }
        }
    }
    a.len().cmp(&b.len())
}

/// Returns the canonical order and the number of shared labels. Cuts the longer name to the number
/// of labels of the other, and compares both from the leaf on until the rests are the same. The
/// differing labels nearest the root decide, and all labels above these are shared.
#[tactic(auto, using(crate::proofs::OrderLemmas::comparing_steps))]
pub(crate) fn compare_from_leaf(a: &[u8], b: &[u8]) -> Comparison
    requires a { IsWire a.now }
    requires b { IsWire b.now }
    ensures order { result.order ≡ canonical_cmp (labels_of a.now) (labels_of b.now) }
    ensures common { result.common ≡ common_labels (labels_of a.now) (labels_of b.now) }
{
    let a_count = count_labels(a);
    let b_count = count_labels(b);
    let mut x = skip_labels(a, a_count.saturating_sub(b_count));
    let mut y = skip_labels(b, b_count.saturating_sub(a_count));
    let mut order = a_count.cmp(&b_count);
    let mut alike = 0;
    'labels: while x != y {
        let (Some((label, x_above)), Some((other, y_above))) = (split_first(x), split_first(y))
        else {
            unreachable!();
        };
        let here = lowered_octets_cmp(label, other);
        alike = if here.is_eq() { alike + 1 } else { 0 };
        order = here.then(order);
        x = x_above;
        y = y_above;
    }
    Comparison {
        order,
        common: alike + count_labels(x),
    }
}

/// Returns whether octets differ at most in the case of letters. Eight octets that are the same
/// take one step.
#[tactic(auto, using(crate::proofs::OrderLemmas::alike_tied, crate::proofs::OrderLemmas::alike_length))]
fn is_alike(a: &[u8], b: &[u8]) -> bool
    ensures { IsTrue result ↔ (map to_ascii_lowercase a.now ≡ map to_ascii_lowercase b.now) }
{
    a.len() == b.len() && lowered_octets_cmp(a, b).is_eq()
}

/// Returns whether two names differ at most in the case of letters.
#[tactic(auto, using(crate::proofs::OrderLemmas::same_steps))]
pub fn is_same(a: &[u8], b: &[u8]) -> bool
    requires a { IsWire a.now }
    requires b { IsWire b.now }
    ensures value { result ≡ same_name (labels_of a.now) (labels_of b.now) }
    ensures same { IsTrue result ↔ IsSame (labels_of a.now) (labels_of b.now) }
{
    a == b || is_alike(a, b)
}

/// Feeds a name's octets to a hasher, with A to Z lowered.
#[tactic(auto, using(crate::proofs::OrderLemmas::lowered_wire))]
pub fn hash<H: Hasher>(wire: &[u8], state: &mut H)
    requires { IsWire wire.now }
    ensures { state.new ≡ fold H.write state.old
        (fed.slice fed.u8 (wire_of (lowered (labels_of wire.now)))) }
{
    state.write_usize(wire.len());
    for octet in wire {
        state.write_u8(octet.to_ascii_lowercase());
    }
}

/// Returns the octets after the labels of a name, including the root. `used` octets of the name
/// come before these labels.
#[tactic(auto, using(std::proofs::lemmas::Grind::common_steps, crate::proofs::WireLemmas::reading_steps))]
fn after_labels(used: usize, octets: &[u8]) -> Result<&[u8], NameError>
    requires { used < 255 }
    ensures ok { IfOk result (λ after. BeginsWithName used octets.now after.now) }
    ensures shorter { IfOk result (λ after. length after.now < length octets.now) }
    ensures err { IfErr result (λ e. NameFault used octets.now (name_fault_of e)) }
{
    laws::slices_hold_octets(octets);
    let [len, tail @ ..] = octets else {
        return Err(NameError::ShortInput);
    };
    let len = *len as usize;
    if len == 0 {
        return Ok(tail);
    }
    if len > MAX_LABEL_LEN {
        return Err(NameError::BadLabel);
    }
    let next = used + 1 + len;
    if next >= MAX_NAME {
        return Err(NameError::LongName);
    }
    if len > tail.len() {
        return Err(NameError::ShortInput);
    }
    Ok(after_labels(next, &tail[len..])?)
}

/// Returns the name that octets begin with, and the octets after it.
#[tactic(auto, using(crate::proofs::WireLemmas::named))]
pub fn split_name(octets: &[u8]) -> Result<(&[u8], &[u8]), NameError>
    ensures wire { IfOk result (λ found. IsWire found.0.now) }
    ensures parts { IfOk result (λ found. octets.now ≡ found.0.now ++ found.1.now) }
    ensures err { IfErr result (λ e. NameFault 0 octets.now (name_fault_of e)) }
{
    let after = after_labels(0, octets)?;
    Ok(octets.split_at(octets.len() - after.len()))
}

/// Checks that octets are the wire form of a name, with no octet after it.
#[tactic(auto, using(crate::proofs::WireLemmas::in_name_by))]
pub fn check(octets: &[u8]) -> Result<(), ParseError>
    ensures ok { OnOk result (IsWire octets.now) }
    ensures err { IfErr result (λ e. WholeNameFault octets.now (fault_of e)) }
{
    match split_name(octets) {
        Ok((_, [])) => Ok(()),
        Ok(_) => Err(ParseError::Form("trailing data")),
        Err(error) => Err(ParseError::from(error)),
    }
}
