//! Texts with commas between their items: addresses and keys (RFC 9460, sections 7.3 and 8).
ghost use Rattle.std.specs.Prelude.{◌≡◌, ℕ, ◌<◌, ◌++◌, ◌∷◌, [], List, length, map, IfErr, IfSome, IfNone, OnOk};
ghost use Rattle.std.specs.List.{concat};
ghost use Rattle.domain_octets.specs.Octets.{Octets};
ghost use Rattle.domain_svcb.specs.{Strings.SpellsNothing, Keys.ParameterKeyText};
ghost use Rattle.domain_svcb.specs.Values.{comma_items, ItemTexts, AddressItem, AddsKey, KeyItems, KeysText, mandatory_octets, Parameter};
ghost use Rattle.domain_svcb.specs.Gathered.{gathered};

use crate::fault::SpellFault;
use crate::ids::append;
use crate::key::{named_key, numbered_key};
use crate::parameters::Parameters;
use crate::short::ShortValue;
use std::alloc::Global;
use std::net::{Ipv4Addr, Ipv6Addr};

/// Returns the octets before and after the first comma, if there is one.
fn split_item(text: &[u8]) -> Option<(&[u8], &[u8])>
    ensures some { IfSome result (λ s. comma_items text.now ≡ s.0.now ∷ comma_items s.1.now) }
    ensures less { IfSome result (λ s. length s.1.now < length text.now) }
    ensures none { IfNone result (comma_items text.now ≡ text.now ∷ []) }
{
    for (i, octet) in text.iter().enumerate() {
        if *octet == b',' {
            return Some((&text[..i], &text[i + 1..]));
        }
    }
    None
}

/// Appends the octets of the IPv4 or IPv6 address that a text spells.
fn put_address(is_long: bool, text: &[u8], out: &mut Vec<u8>) -> Result<(), SpellFault>
    ensures ok { OnOk result ((part : Octets) × AddressItem is_long text.now part
        × (out.new.items ≡ out.old.items ++ part)) }
    ensures err { IfErr result (SpellsNothing (AddressItem is_long text.now)) }
{
    if is_long {
        return match Ipv6Addr::parse_ascii(text) {
            Ok(address) => append(&address.octets(), out),
            Err(_) => Err(SpellFault::Invalid),
        };
    }
    match Ipv4Addr::parse_ascii(text) {
        Ok(address) => append(&address.octets(), out),
        Err(_) => Err(SpellFault::Invalid),
    }
}

/// Appends the octets of the addresses that a text lists.
pub(crate) fn put_addresses(is_long: bool, text: &[u8], out: &mut Vec<u8>) -> Result<(), SpellFault>
    ensures ok { OnOk result ((part : Octets)
        × ItemTexts (AddressItem is_long) (comma_items text.now) part
        × (out.new.items ≡ out.old.items ++ part)) }
    ensures err { IfErr result (SpellsNothing
        (ItemTexts (AddressItem is_long) (comma_items text.now))) }
{
    let mut rest = text;
    'items: while let Some((item, after)) = split_item(rest) {
        if let Err(fault) = put_address(is_long, item, out) {
            return Err(fault);
        }
        rest = after;
    }
    match put_address(is_long, rest, out) {
        Ok(()) => Ok(()),
        Err(fault) => Err(fault),
    }
}

/// Returns the key that a text spells.
fn key_of(text: &[u8]) -> Option<u16>
    ensures some { IfSome result (ParameterKeyText text.now) }
    ensures none { IfNone result ((key : ℕ) → ParameterKeyText text.now key → ⊥) }
{
    match named_key(text) {
        Some(key) => Some(key),
        None => numbered_key(text),
    }
}

/// Returns no octets.
fn empty(alloc: Global) -> ShortValue
    ensures { result.octets.items ≡ [] }
{
    ShortValue {
        octets: Vec::new(alloc),
    }
}

/// Adds the key that an item of `mandatory` spells.
#[tactic(auto, using(std::proofs::lemmas::Grind::common_steps, crate::proofs::ItemLemmas::no_key_added, crate::proofs::ItemLemmas::no_zero_added, crate::proofs::ItemLemmas::no_twice_added))]
fn add_key(alloc: Global, item: &[u8], keys: &mut Parameters) -> Result<(), SpellFault>
    ensures ok { OnOk result (AddsKey item.now (gathered keys.old) (gathered keys.new)) }
    ensures err { IfErr result (SpellsNothing (AddsKey item.now (gathered keys.old))) }
{
    let Some(key) = key_of(item) else {
        return Err(SpellFault::Invalid);
    };
    if key == 0 {
        return Err(SpellFault::Invalid);
    }
    match keys.insert(key, empty(alloc)) {
        Ok(true) => Ok(()),
        Ok(false) => Err(SpellFault::Invalid),
        Err(_) => Err(SpellFault::OutOfMemory),
    }
}

/// Adds the keys that a text lists.
fn add_keys(alloc: Global, text: &[u8], keys: &mut Parameters) -> Result<(), SpellFault>
    requires { gathered keys.old ≡ [] }
    ensures ok { OnOk result (KeyItems [] (comma_items text.now) (gathered keys.new)) }
    ensures err { IfErr result (SpellsNothing (KeyItems [] (comma_items text.now))) }
{
    let mut rest = text;
    'items: while let Some((item, after)) = split_item(rest) {
        if let Err(fault) = add_key(alloc, item, keys) {
            return Err(fault);
        }
        rest = after;
    }
    match add_key(alloc, rest, keys) {
        Ok(()) => Ok(()),
        Err(fault) => Err(fault),
    }
}

/// Appends the octets of the keys that a text lists, in order.
pub(crate) fn put_keys(alloc: Global, text: &[u8], out: &mut Vec<u8>) -> Result<(), SpellFault>
    ensures ok { OnOk result ((part : Octets) × KeysText text.now part
        × (out.new.items ≡ out.old.items ++ part)) }
    ensures err { IfErr result (SpellsNothing (KeysText text.now)) }
{
    let mut keys = Parameters::new(alloc);
    if let Err(fault) = add_keys(alloc, text, &mut keys) {
        return Err(fault);
    }
    match keys.put_keys(out) {
        Ok(()) => Ok(()),
        Err(_) => Err(SpellFault::OutOfMemory),
    }
}
