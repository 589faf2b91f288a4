//! Identifiers of protocols in a list (RFC 9460, section 7.1.1 and appendix A.1).
ghost use Rattle.std.specs.Prelude.{◌≡◌, ◌++◌, ◌∷◌, [], false, Some, IfOk, IfErr, OnOk};
ghost use Rattle.domain_octets.specs.Octets.{Octets};
ghost use Rattle.domain_svcb.specs.{Strings.SpellsNothing, Values.{counted_id, ids_from, id_step, TakesOctet, ProtocolsText}};

use crate::fault::SpellFault;
use crate::string::put_string;
use std::alloc::Global;

/// Appends octets.
pub(crate) fn append(octets: &[u8], out: &mut Vec<u8>) -> Result<(), SpellFault>
    ensures ok { OnOk result (out.new.items ≡ out.old.items ++ octets.now) }
    ensures err { IfErr result (λ fault. fault ≡ SpellFault.OutOfMemory) }
{
    match out.extend_from_slice(octets) {
        Ok(()) => Ok(()),
        Err(_) => Err(SpellFault::OutOfMemory),
    }
}

/// Appends an identifier after its length.
fn put_id(id: &[u8], out: &mut Vec<u8>) -> Result<(), SpellFault>
    ensures ok { OnOk result ((part : Octets) × (counted_id id.now ≡ Some part)
        × (out.new.items ≡ out.old.items ++ part)) }
    ensures err { IfErr result (SpellsNothing (λ part. counted_id id.now ≡ Some part)) }
{
    if id.is_empty() || id.len() > 255 {
        return Err(SpellFault::Invalid);
    }
    if let Err(fault) = append(&[id.len() as u8], out) {
        return Err(fault);
    }
    append(id, out)
}

/// What an octet of a list does.
#[derive(Clone, Copy)]
enum IdStep {
    /// It is an octet of the identifier.
    Keep,
    /// It is a backslash, which takes the next octet.
    Escape,
    /// It is a comma, which ends the identifier.
    End,
    /// A backslash comes before it, and does not take it.
    Wrong,
}

/// Returns what an octet does. `taken` says that a backslash comes before it.
fn id_step(taken: bool, octet: u8) -> IdStep
    ensures { result ≡ id_step taken octet }
{
    if taken {
        return if octet == b',' || octet == b'\\' {
            IdStep::Keep
        } else {
            IdStep::Wrong
        };
    }
    match octet {
        b'\\' => IdStep::Escape,
        b',' => IdStep::End,
        _ => IdStep::Keep,
    }
}

/// Takes an octet of a list to its identifier, which is appended at a comma. Returns whether a
/// backslash takes the next octet.
#[tactic(auto, using(std::proofs::lemmas::Grind::common_steps, crate::proofs::IdLemmas::id_steps))]
fn take_octet(
    octet: u8,
    taken: bool,
    id: &mut Vec<u8>,
    out: &mut Vec<u8>,
) -> Result<bool, SpellFault>
    ensures ok { IfOk result (λ next. TakesOctet id.old.items taken octet id.new.items next
        out.old.items out.new.items) }
    ensures err { IfErr result (SpellsNothing (λ (ids : Octets). (rest : Octets)
        × (ids_from id.old.items taken (octet ∷ rest) ≡ Some ids))) }
{
    match id_step(taken, octet) {
        IdStep::Keep => match id.push(octet) {
            Ok(()) => Ok(false),
            Err(_) => Err(SpellFault::OutOfMemory),
        },
        IdStep::Escape => Ok(true),
        IdStep::End => {
            if let Err(fault) = put_id(id.as_slice(), out) {
                return Err(fault);
            }
            id.clear();
            Ok(false)
        }
        IdStep::Wrong => Err(SpellFault::Invalid),
    }
}

/// Appends the identifiers that a string lists, each after its length.
fn put_ids(alloc: Global, string: &[u8], out: &mut Vec<u8>) -> Result<(), SpellFault>
    ensures ok { OnOk result ((ids : Octets) × (ids_from [] false string.now ≡ Some ids)
        × (out.new.items ≡ out.old.items ++ ids)) }
    ensures err { IfErr result (SpellsNothing (λ ids. ids_from [] false string.now ≡ Some ids)) }
{
    let mut id = Vec::new(alloc);
    let mut taken = false;
    for octet in string {
        match take_octet(*octet, taken, &mut id, out) {
            Ok(next) => taken = next,
            Err(fault) => return Err(fault),
        }
    }
    if taken {
        return Err(SpellFault::Invalid);
    }
    match put_id(id.as_slice(), out) {
        Ok(()) => Ok(()),
        Err(fault) => Err(fault),
    }
}

/// Appends the identifiers of protocols that a text lists.
pub(crate) fn put_protocols(alloc: Global, text: &[u8], out: &mut Vec<u8>) -> Result<(), SpellFault>
    ensures ok { OnOk result ((part : Octets) × ProtocolsText text.now part
        × (out.new.items ≡ out.old.items ++ part)) }
    ensures err { IfErr result (SpellsNothing (ProtocolsText text.now)) }
{
    let mut string = Vec::new(alloc);
    if let Err(fault) = put_string(text, &mut string) {
        return Err(fault);
    }
    match put_ids(alloc, string.as_slice(), out) {
        Ok(()) => Ok(()),
        Err(fault) => Err(fault),
    }
}
