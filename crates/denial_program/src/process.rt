//! What a program takes from its process.
ghost use Rattle.std.specs.Prelude.{◌≡◌, ◌⊎◌, IfErr};
ghost use Rattle.denial_program.specs.declared.fault.DenialFault.TheVariants as denial_fault;

use crate::fault::{DenialFault, fault_of};
use std::{env, io};

/// The number of octets that are read or written at a time.
pub const BUFFER: usize = 65536;

/// Returns the arguments of the program.
///
/// # Errors
///
/// `OutOfMemory` if there is no memory, and `Usage` if an argument is not valid UTF-8.
pub fn words_of(rt: &HostRuntime) -> Result<Vec<String>, DenialFault>
    ensures { IfErr result (λ e. (e ≡ denial_fault.Usage) ⊎ (e ≡ denial_fault.OutOfMemory)) }
{
    let mut words = Vec::new(rt.alloc());
    let args = env::args(rt).map_err(|error| fault_of(&error, DenialFault::Usage))?;
    for word in args.skip(1) {
        words.push(word)?;
    }
    Ok(words)
}
