//! The command that the arguments of the program spell.
ghost use Rattle.std.specs.Prelude.{◌≡◌, ◌⊎◌, IfErr, IfOk, map, string_bytes};
ghost use Rattle.denial_program.specs.declared.fault.DenialFault.TheVariants.{OutOfMemory};
ghost use Rattle.lint_program.specs.Command.{AsksToLint, IsNoLintCommand};

use bumpalo::Bump;
use denial_program::{DenialFault, Nsec3Params, ZoneName, name_of, parameters_of};
use domain_base::{ParsedName, ToName};
use std::alloc::Global;

/// A command.
#[derive(Drop)]
pub struct Asked<'a> {
    /// The apex of the zone.
    pub apex: ParsedName<'a>,
    /// The parameters of an NSEC3 chain, if they are given.
    pub parameters: Option<Nsec3Params>,
}

/// Returns the apex that the arguments spell, and the parameters of an NSEC3 chain if its
/// iterations and salt follow it.
///
/// # Errors
///
/// `Usage` if and only if they spell none, and `OutOfMemory` if there is no memory.
pub fn linted_zone(
    alloc: Global,
    words: &[String],
) -> Result<(ZoneName, Option<Nsec3Params>), DenialFault>
    ensures ok { IfOk result (λ asked.
        AsksToLint (map string_bytes words.now) asked.0 asked.1) }
    ensures err { IfErr result (λ e.
        ((e ≡ DenialFault.Usage) × IsNoLintCommand (map string_bytes words.now))
        ⊎ (e ≡ OutOfMemory)) }
{
    match words {
        [apex] => Ok((name_of(alloc, apex.as_str())?, None)),
        [apex, iterations, salt] => {
            let apex = name_of(alloc, apex.as_str())?;
            let (iterations, salt) = (iterations.as_str(), salt.as_str());
            let parameters = parameters_of(alloc, iterations, salt, &[])?;
            Ok((apex, Some(parameters)))
        }
        _ => Err(DenialFault::Usage),
    }
}

/// Returns the command that the arguments spell: an apex, and after it either the iterations and
/// the salt of an NSEC3 chain or nothing. The apex is stored in the arena.
///
/// # Errors
///
/// `Usage` if and only if they are no such command, and `OutOfMemory` if there is no memory.
pub fn asked_of<'a>(
    alloc: Global,
    arena: &'a Bump,
    words: &[String],
) -> Result<Asked<'a>, DenialFault>
    ensures ok { IfOk result (λ asked.
        AsksToLint (map string_bytes words.now) asked.apex asked.parameters) }
    ensures err { IfErr result (λ e.
        ((e ≡ DenialFault.Usage) × IsNoLintCommand (map string_bytes words.now))
        ⊎ (e ≡ OutOfMemory)) }
{
    let (apex, parameters) = linted_zone(alloc, words)?;
    let wire = arena.try_alloc_slice_copy(apex.as_wire())?;
    Ok(Asked {
        apex: ParsedName::over(wire),
        parameters,
    })
}
