//! Names in a message, whose ends may be at earlier places (RFC 1035, section 4.1.4).
ghost use Rattle.std.specs.Prelude.{◌≡◌, ◌<◌, ◌≤◌, length, drop, IfOk, IfErr};
ghost use Rattle.domain_names.specs.Name.{wire_of, Name};
ghost use Rattle.domain_message.specs.{Name.{EndFault, LabelsFault, NameAt}, Record.RefusesName, Steps.IsStep};

use crate::MessageError;
use domain_base::MakeName;
use domain_octets::{ArrayBuilder, Octets, OctetsBuilder};
use std::alloc::Global;

/// The greatest length of a name, in octets.
const MAX_LEN: usize = 255;

/// The greatest length of a label, in octets.
const MAX_LABEL_LEN: usize = 63;

/// The least first octet of a pointer: its two highest bits are set.
const POINTER: u8 = 192;

/// The octets of a name.
pub(crate) type NameOctets = ArrayBuilder<MAX_LEN>;

/// Why a place of a message does not hold a name.
#[derive(Clone, Copy, Debug, PartialEq, Eq)]
pub enum NameFault {
    /// The message ends within the name.
    ShortInput,
    /// A label begins with the bits 01 or 10, which no label type uses (RFC 1035, section 4.1.4).
    BadLabelType,
    /// A pointer does not point to a place before the labels that it follows.
    ForwardPointer,
    /// The name is longer than 255 octets.
    LongName,
}

/// A step of a name.
#[derive(Clone, Copy)]
enum Step {
    /// The root.
    Root,
    /// A label that ends at this place.
    Label(usize),
    /// A pointer to this place.
    Pointer(usize),
}

/// Returns the step at place `at`, after labels that began at place `start` and after `used` octets
/// of the name.
#[tactic(auto, using(std::proofs::lemmas::Grind::common_steps, crate::proofs::NameLemmas::place_steps))]
fn step_at(message: &[u8], start: usize, at: usize, used: usize) -> Result<Step, NameFault>
    requires { used < 255 }
    ensures ok { IfOk result (IsStep message.now start at used) }
    ensures inside { IfOk result (λ _. at < length message.now) }
    ensures err { IfErr result (EndFault start used (drop at message.now)) }
{
    let Some(&len) = message.get(at) else {
        return Err(NameFault::ShortInput);
    };
    if len == 0 {
        return Ok(Step::Root);
    }
    if len >= POINTER {
        let Some(&low) = message.get(at + 1) else {
            return Err(NameFault::ShortInput);
        };
        let target = usize::from(len - POINTER) * 256 + usize::from(low);
        if target >= start {
            return Err(NameFault::ForwardPointer);
        }
        return Ok(Step::Pointer(target));
    }
    let len = usize::from(len);
    if len > MAX_LABEL_LEN {
        return Err(NameFault::BadLabelType);
    }
    if used + len + 2 > MAX_LEN {
        return Err(NameFault::LongName);
    }
    if at + 1 + len > message.len() {
        return Err(NameFault::ShortInput);
    }
    Ok(Step::Label(at + 1 + len))
}

/// Returns the name at a place of a message, as octets without compression, and the place after it.
#[tactic(auto, using(std::proofs::lemmas::Grind::common_steps, crate::proofs::NameLemmas::name_steps))]
pub(crate) fn name_at(message: &[u8], at: usize) -> Result<(NameOctets, usize), NameFault>
    ensures ok { IfOk result (λ r. (name : Name) × NameAt message.now at name r.1
        × (r.0 ≡ wire_of name)) }
    ensures inside { IfOk result (λ r. r.1 ≤ length message.now) }
    ensures err { IfErr result (LabelsFault message.now at 0) }
{
    let mut wire = ArrayBuilder::new();
    let (mut start, mut place) = (at, at);
    let mut end = None;
    'labels: loop {
        match step_at(message, start, place, wire.as_slice().len())? {
            Step::Root => {
                if wire.append_slice(&[0]).is_err() {
                    return Err(NameFault::LongName);
                }
                return Ok((wire, end.unwrap_or(place + 1)));
            }
            Step::Label(next) => {
                if wire.append_slice(&message[place..next]).is_err() {
                    return Err(NameFault::LongName);
                }
                place = next;
            }
            Step::Pointer(target) => {
                end = Some(end.unwrap_or(place + 2));
                start = target;
                place = target;
            }
        }
    }
}

/// Returns the name at a place of a message (RFC 1035, section 4.1.4), in octets of its own, and
/// the place after it. A pointer must point to a place before the labels that it follows, so
/// pointers never loop. If the name has a pointer, the place after it is the one after the first
/// pointer's two octets. `at` may be any place, including the end of the message.
///
/// # Errors
///
/// The first fault along the labels:
///
/// - `ShortInput` if the message ends within a label or a pointer, or before the root.
/// - `BadLabelType` or `ForwardPointer` for a label or a pointer.
/// - `LongName` if the labels with the root would be longer than 255 octets.
///
/// `OutOfMemory` if there is a name, and no memory for it.
#[tactic(auto, using(std::proofs::lemmas::Grind::common_steps, crate::proofs::NameLemmas::wire_steps))]
pub fn read_name<N: MakeName>(
    alloc: Global,
    message: &[u8],
    at: usize,
) -> Result<(N, usize), MessageError>
    ensures ok { IfOk result (λ r. NameAt message.now at (N.labels r.0) r.1) }
    ensures inside { IfOk result (λ r. r.1 ≤ length message.now) }
    ensures err { IfErr result (RefusesName message.now at) }
{
    let (wire, end) = name_at(message, at)?;
    Ok((N::make(alloc, wire.as_slice())?, end))
}
