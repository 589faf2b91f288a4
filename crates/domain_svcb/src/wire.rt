//! Parameters on the wire (RFC 9460, section 2.2).
ghost use Rattle.std.specs.Prelude.{◌≡◌, ℕ, ◌+◌, ◌<◌, ◌≤◌, ◌++◌, ◌↔◌, length, take, drop, slice_index, IsTrue, IfSome, IfNone};
ghost use Rattle.domain_octets.specs.Octets.{Octets};
ghost use Rattle.domain_svcb.specs.Values.{are_rising, are_ids, is_value};
ghost use Rattle.domain_svcb.specs.Parameters.{short_at, IsParameter, AreParameters};

use crate::key::{ValueKind, kind_of_key};

/// Returns whether octets are numbers of 16 bits that rise, the first above zero.
#[tactic(auto, using(crate::proofs::WireLemmas::rising_steps))]
fn are_rising(octets: &[u8]) -> bool
    ensures { result ≡ are_rising 0 octets.now }
{
    let mut rest = octets;
    let mut last = 0;
    'keys: while rest.len() > 1 {
        let key = short_at(0, rest);
        if key <= last {
            return false;
        }
        last = key;
        rest = &rest[2..];
    }
    rest.is_empty()
}

/// Returns whether octets are strings of at least one octet, each after its length.
#[tactic(auto, using(std::proofs::lemmas::Grind::common_steps, crate::proofs::WireLemmas::ids_pass, crate::proofs::WireLemmas::ids_start, crate::proofs::WireLemmas::ids_empty))]
fn are_ids(octets: &[u8]) -> bool
    ensures { result ≡ are_ids 0 octets.now }
{
    let mut left = 0u8;
    for octet in octets {
        if left == 0 && *octet == 0 {
            return false;
        }
        left = if left == 0 { *octet } else { left - 1 };
    }
    left == 0
}

/// Returns whether octets are a value of a kind.
pub(crate) fn is_value(kind: ValueKind, octets: &[u8]) -> bool
    ensures { result ≡ is_value kind octets.now }
{
    match kind {
        ValueKind::Keys => !octets.is_empty() && are_rising(octets),
        ValueKind::Protocols => !octets.is_empty() && are_ids(octets),
        ValueKind::Nothing => octets.is_empty(),
        ValueKind::Port => octets.len() == 2,
        ValueKind::Ipv4List => !octets.is_empty() && octets.len() % 4 == 0,
        ValueKind::Ipv6List => !octets.is_empty() && octets.len() % 16 == 0,
        ValueKind::Base64 | ValueKind::Text => true,
    }
}

/// Returns the number of 16 bits at a place.
pub(crate) fn short_at(place: usize, octets: &[u8]) -> u16
    requires { place + 1 < length octets.now }
    ensures { result ≡ short_at place octets.now }
{
    u16::from(octets[place]) * 256 + u16::from(octets[place + 1])
}

/// Returns the length of the parameter that octets begin with.
fn parameter_len(octets: &[u8]) -> Option<usize>
    ensures some { IfSome result (λ n. (4 ≤ n) × (n ≤ length octets.now)
        × IsParameter (take n octets.now)) }
    ensures none { IfNone result ((part after : Octets) → octets.now ≡ part ++ after
        → IsParameter part → ⊥) }
{
    if octets.len() < 4 {
        return None;
    }
    let len = 4 + usize::from(short_at(2, octets));
    if octets.len() < len {
        return None;
    }
    let kind = kind_of_key(short_at(0, octets));
    if is_value(kind, &octets[4..len]) {
        Some(len)
    } else {
        None
    }
}

/// Returns whether octets are parameters with rising keys and well-formed values: the lengths are
/// right, and the value of each key that has a name is as the key has it on the wire (RFC 9460,
/// sections 2.2, 7 and 8). Does not allocate.
pub fn are_parameters(octets: &[u8]) -> bool
    ensures { IsTrue result ↔ AreParameters 0 octets.now }
{
    let mut rest = octets;
    let mut least = 0u32;
    'parts: while !rest.is_empty() {
        let Some(len) = parameter_len(rest) else {
            return false;
        };
        let key = u32::from(short_at(0, rest));
        if key < least {
            return false;
        }
        least = key + 1;
        rest = &rest[len..];
    }
    true
}
