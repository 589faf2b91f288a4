//! Strings as text (RFC 1035, section 5.1).
ghost use Rattle.std.specs.Prelude.{◌≡◌, ◌<◌, ◌≤◌, ◌++◌, length, IfErr, IfSome, OnOk};
ghost use Rattle.domain_octets.specs.Octets.{Octets};
ghost use Rattle.domain_svcb.specs.Strings.{string_octet, StringText, SpellsNothing, Grows};

use crate::fault::SpellFault;

/// Returns the octet that a text of a string begins with, and the number of characters that spell
/// it. An escape is a backslash and three digits up to 255, or a backslash and another character.
#[tactic(auto, unfolding(crate::specs::Strings::string_octet))]
pub fn string_octet(text: &[u8]) -> Option<(u8, usize)>
    ensures value { result ≡ string_octet text.now }
    ensures used { IfSome result (λ s. (0 < s.1) × (s.1 ≤ length text.now)) }
{
    match text {
        [b'\\', a, b, c, ..] if a.is_ascii_digit() && b.is_ascii_digit() && c.is_ascii_digit() => {
            let value = u16::from(*a - b'0') * 100
                + u16::from(*b - b'0') * 10
                + u16::from(*c - b'0');
            Some((u8::try_from(value).ok()?, 4))
        }
        [b'\\', a, ..] if !a.is_ascii_digit() => Some((*a, 2)),
        [c, ..] if *c != b'\\' => Some((*c, 1)),
        _ => None,
    }
}

/// Appends the octets of the string that a text spells.
///
/// # Errors
///
/// `Invalid` if the text spells no string, and `OutOfMemory` if there is no memory. The octets of
/// the string up to there are then appended.
pub fn put_string(text: &[u8], out: &mut Vec<u8>) -> Result<(), SpellFault>
    ensures ok { OnOk result ((string : Octets) × StringText text.now string
        × (out.new.items ≡ out.old.items ++ string)) }
    ensures err { IfErr result (SpellsNothing (StringText text.now)) }
    ensures grows { Grows out.old.items out.new.items }
{
    let mut rest = text;
    'octets: while let Some((octet, used)) = string_octet(rest) {
        if out.push(octet).is_err() {
            return Err(SpellFault::OutOfMemory);
        }
        rest = &rest[used..];
    }
    if rest.is_empty() {
        Ok(())
    } else {
        Err(SpellFault::Invalid)
    }
}
