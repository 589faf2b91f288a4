//! Parameters in the order of their keys.
ghost use Rattle.std.specs.Prelude.{◌≡◌, ◌⊎◌, ◌++◌, [], not, true, false, map, IfOk, IfErr, OnOk, OnErr, IsTrue};
ghost use Rattle.std.specs.List.{concat};
ghost use Rattle.domain_octets.specs.Octets.{Octets};
ghost use Rattle.domain_svcb.specs.Values.{has_key, parameter_placed, mandatory_octets};
ghost use Rattle.domain_svcb.specs.Gathered.{gathered, parameter_of};
ghost use Rattle.domain_svcb.specs.Strings.{Grows};
ghost use Rattle.domain_svcb.specs.Parameters.{AddsParameter, RefusesParameter, is_consistent, value_of, are_present, parameter_octets, parameters_octets};

use crate::fault::ParameterFault;
use crate::short::ShortValue;
use crate::value::read_parameter;
use crate::wire::short_at;
use std::alloc::{AllocError, Global};
use std::collections::BTreeMap;

/// Parameters of a service, each with another key. They are in the order of their keys.
#[derive(Drop)]
pub struct Parameters {
    /// The value of each key.
    map: BTreeMap<u16, ShortValue>,
}

/// Appends a parameter.
fn put_parameter(key: u16, value: &ShortValue, out: &mut Vec<u8>) -> Result<(), AllocError>
    ensures ok { OnOk result (out.new.items ≡ out.old.items
        ++ parameter_octets (record { key = key; value = value.now.octets.items })) }
    ensures grows { Grows out.old.items out.new.items }
{
    out.extend_from_slice(&key.to_be_bytes())?;
    out.extend_from_slice(&(value.octets.len() as u16).to_be_bytes())?;
    out.extend_from_slice(value.octets.as_slice())
}

impl Parameters {
    /// Returns no parameters. Does not allocate.
    pub fn new(alloc: Global) -> Self
        ensures { gathered result ≡ [] }
    {
        Parameters {
            map: BTreeMap::new(alloc),
        }
    }

    /// Puts a parameter to its place, unless there is one with its key. Returns whether there was
    /// none.
    #[tactic(auto, using(std::proofs::lemmas::Grind::common_steps, crate::proofs::PlacedLemmas::has_key_is, crate::proofs::PlacedLemmas::placed_entry))]
    pub(crate) fn insert(&mut self, key: u16, value: ShortValue) -> Result<bool, AllocError>
        ensures new { IfOk result (λ is_new. has_key key (gathered self.old) ≡ not is_new) }
        ensures placed { IfOk result (λ is_new. IsTrue is_new
            → gathered self.new
            ≡ parameter_placed (parameter_of (key, value)) (gathered self.old)) }
        ensures same { IfOk result (λ is_new. (IsTrue is_new → ⊥)
            → gathered self.new ≡ gathered self.old) }
        ensures err { OnErr result (gathered self.new ≡ gathered self.old) }
    {
        if self.map.contains_key(&key) {
            return Ok(false);
        }
        self.map.insert(key, value)?;
        Ok(true)
    }

    /// Adds the parameter that a text spells: KEY, KEY=VALUE or KEY="VALUE". A key is a name in
    /// lower case, or `key` and its number without leading zeros; the value of such a number is a
    /// string of octets, which have to be a value of the key (RFC 9460, section 2.1).
    ///
    /// # Errors
    ///
    /// `UnknownKey` if the text has no key, `NotValue` if it spells no value of its key,
    /// `Repeated` if there is a parameter with the key, and `OutOfMemory` if there is no memory.
    /// The parameters are then unchanged.
    pub fn add(&mut self, alloc: Global, text: &[u8]) -> Result<(), ParameterFault>
        ensures ok { OnOk result (AddsParameter text.now (gathered self.old) (gathered self.new)) }
        ensures err { IfErr result (RefusesParameter text.now (gathered self.old)) }
        ensures same { OnErr result (gathered self.new ≡ gathered self.old) }
    {
        let (key, value) = match read_parameter(alloc, text) {
            Ok(parameter) => parameter,
            Err(fault) => return Err(fault),
        };
        match self.insert(key, value) {
            Ok(true) => Ok(()),
            Ok(false) => Err(ParameterFault::Repeated),
            Err(_) => Err(ParameterFault::OutOfMemory),
        }
    }

    /// Appends the octets of the keys, in order.
    pub(crate) fn put_keys(&self, out: &mut Vec<u8>) -> Result<(), AllocError>
        ensures ok { OnOk result (out.new.items
            ≡ out.old.items ++ concat (map mandatory_octets (gathered self.now))) }
    {
        for (key, _value) in self.map.iter() {
            out.extend_from_slice(&key.to_be_bytes())?;
        }
        Ok(())
    }

    /// Returns whether there is a parameter with a key.
    #[tactic(auto, using(crate::proofs::PlacedLemmas::has_key_is))]
    fn has_key(&self, key: u16) -> bool
        ensures { result ≡ has_key key (gathered self.now) }
    {
        self.map.contains_key(&key)
    }

    /// Returns the value of a key, or no octets.
    #[tactic(auto, using(std::proofs::lemmas::Grind::common_steps, crate::proofs::PlacedLemmas::value_found, crate::proofs::PlacedLemmas::value_none))]
    fn value_of(&self, key: u16) -> &[u8]
        ensures { result.now ≡ value_of key (gathered self.now) }
    {
        match self.map.get(&key) {
            Some(value) => value.octets.as_slice(),
            None => &[],
        }
    }

    /// Returns whether the keys in the value of `mandatory` are keys of these parameters.
    fn are_present(&self, value: &[u8]) -> bool
        ensures { result ≡ are_present (gathered self.now) value.now }
    {
        let mut rest = value;
        'keys: while rest.len() > 1 {
            if !self.has_key(short_at(0, rest)) {
                return false;
            }
            rest = &rest[2..];
        }
        true
    }

    /// Returns whether all mandatory keys are present, and `alpn` where `no-default-alpn` is (RFC
    /// 9460, section 2.4.3).
    #[tactic(auto, unfolding(crate::specs::Parameters::is_consistent))]
    fn is_consistent(&self) -> bool
        ensures { result ≡ is_consistent (gathered self.now) }
    {
        (!self.has_key(2) || self.has_key(1)) && self.are_present(self.value_of(0))
    }

    /// Appends the octets of the parameters in the order of their keys (RFC 9460, section 2.2).
    ///
    /// # Errors
    ///
    /// `NotConsistent` if a mandatory key is missing, or `alpn` where `no-default-alpn` is, and
    /// `OutOfMemory` if there is no memory. Some octets may then be appended.
    pub fn put(&self, out: &mut Vec<u8>) -> Result<(), ParameterFault>
        ensures ok { OnOk result ((is_consistent (gathered self.now) ≡ true)
            × (out.new.items ≡ out.old.items ++ parameters_octets (gathered self.now))) }
        ensures inconsistent { IfErr result (λ fault. fault ≡ ParameterFault.NotConsistent
            → is_consistent (gathered self.now) ≡ false) }
        ensures err { IfErr result (λ fault. (fault ≡ ParameterFault.NotConsistent)
            ⊎ (fault ≡ ParameterFault.OutOfMemory)) }
        ensures grows { Grows out.old.items out.new.items }
    {
        if !self.is_consistent() {
            return Err(ParameterFault::NotConsistent);
        }
        match self.put_all(out) {
            Ok(()) => Ok(()),
            Err(_) => Err(ParameterFault::OutOfMemory),
        }
    }

    /// Appends the octets of all parameters.
    fn put_all(&self, out: &mut Vec<u8>) -> Result<(), AllocError>
        ensures ok { OnOk result (out.new.items
            ≡ out.old.items ++ parameters_octets (gathered self.now)) }
        ensures grows { Grows out.old.items out.new.items }
    {
        for (key, value) in self.map.iter() {
            put_parameter(*key, value, out)?;
        }
        Ok(())
    }
}
