//! Names as tokens of a zone file (RFC 1035, section 5.1).
ghost use Rattle.std.specs.Prelude.{◌≡◌, IfOk, IfErr};
ghost use Rattle.domain_names.specs.Wire.{IsWire, labels_of};
ghost use Rattle.domain_types.specs.Reading.{token_text, SpellsName, SpellsNoName};

use crate::spell::{Part, spell_name};
use crate::token::{Token, has_inner_quote};
use domain_base::{Name, ParsedName};
use domain_octets::{Octets, OctetsFrom, OutOfMemory, SmallOctets};
use domain_svcb::SpellFault;
use std::alloc::Global;

/// The reason why a token gives no name.
#[derive(Clone, Copy, Debug, PartialEq, Eq)]
pub enum NameTokenError {
    /// The token has quotes around it or in it, or spells no name of at most 255 octets.
    NoName,
    /// Memory ran out.
    OutOfMemory,
}

/// Returns the name with this wire form.
fn name_of(alloc: Global, part: &Part) -> Result<Name<SmallOctets>, OutOfMemory>
    requires { IsWire part.now }
    ensures { IfOk result (λ name. name ≡ labels_of part.now) }
{
    let name = ParsedName::over(part.as_slice());
    Name::try_octets_from(alloc, name).map_err(|_| OutOfMemory)
}

/// Returns the name that a token spells. `@` is the origin, and a name without a last dot is
/// relative to it.
///
/// # Errors
///
/// - `NoName` if the token has quotes around it or in it, or spells no name of at most 255 octets.
/// - `OutOfMemory` if there is no memory for the name.
#[tactic(auto, using(std::proofs::lemmas::Grind::common_steps, crate::proofs::NameLemmas::none_named, crate::proofs::NameLemmas::no_plain_name))]
pub fn read_name(
    alloc: Global,
    token: &Token<'_>,
    origin: &ParsedName<'_>,
) -> Result<Name<SmallOctets>, NameTokenError>
    ensures ok { IfOk result (SpellsName origin.now (token_text token.now)) }
    ensures err { IfErr result (SpellsNoName origin.now (token_text token.now)) }
{
    if token.is_quoted {
        return Err(NameTokenError::NoName);
    }
    if has_inner_quote(token) {
        return Err(NameTokenError::NoName);
    }
    let part = match spell_name(alloc, token.octets, origin) {
        Ok(part) => part,
        Err(SpellFault::Invalid) => return Err(NameTokenError::NoName),
        Err(SpellFault::OutOfMemory) => return Err(NameTokenError::OutOfMemory),
    };
    match name_of(alloc, &part) {
        Ok(name) => Ok(name),
        Err(OutOfMemory) => Err(NameTokenError::OutOfMemory),
    }
}
