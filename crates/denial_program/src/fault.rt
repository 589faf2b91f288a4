//! The reasons why a run stops.
ghost use Rattle.std.specs.{Prelude.{◌≡◌, ◌⊎◌, ◌↔◌, Some}, IoError.error_kind};
ghost use Rattle.denial_program.specs.Fault.{exit_status};
ghost use Rattle.denial_program.specs.declared.fault.DenialFault.TheVariants as denial_fault;

use crate::prepare::PrepareError;
use domain_hasher::Nsec3HashError;
use domain_octets::OutOfMemory;
use domain_records::SigningError;
use std::alloc::{AllocError, AllocFailed};
use std::io::ErrorKind;
use std::{fmt, io};

/// The reason why a run of the program stops. Its text is what the program prints on standard
/// error.
#[derive(Clone, Copy, Debug, PartialEq, Eq)]
pub enum DenialFault {
    /// The arguments are no command.
    Usage,
    /// The input could not be read.
    Read,
    /// The line with this number, counted from 1, is not a record. It is the first such line.
    Line(u64),
    /// There was no memory for the arguments or the records, before the reply was computed.
    Unprepared(PrepareError),
    /// The records have more than one class.
    MixedClasses,
    /// There is no chain, or a name was not hashed.
    Signing(SigningError),
    /// The apex has no NSEC3PARAM record, or more than one.
    Param,
    /// The output could not be written.
    Write,
    /// There was no memory to compute or write the reply.
    OutOfMemory,
}

impl DenialFault {
    /// Returns the exit status of the program: 2 for `Usage`, else 1.
    pub fn status(&self) -> u8
        ensures { result ≡ exit_status self.now }
    {
        match self {
            DenialFault::Usage => 2,
            _ => 1,
        }
    }
}

impl fmt::Display for DenialFault {
    ghost use Rattle.denial_program.specs.Fault.{fault_text};

    ghost output = { λ e. Some (fault_text e) };

    fn fmt<W: fmt::Write>(&self, f: &mut fmt::Formatter<W>) -> fmt::Result {
        // `fault_text` in `specs/Fault.antt` repeats these texts: change both together.
        match *self {
            DenialFault::Usage => f.write_str(USAGE),
            DenialFault::Read => f.write_str("denial: cannot read input"),
            DenialFault::Line(number) => write!(f, "denial: line {number}: bad record"),
            DenialFault::Unprepared(_) => f.write_str("denial: out of memory"),
            DenialFault::MixedClasses => f.write_str("denial: more than one class"),
            DenialFault::Signing(error) => write!(f, "denial: {error}"),
            DenialFault::Param => f.write_str("denial: no single NSEC3PARAM at the apex"),
            DenialFault::Write => f.write_str("denial: cannot write output"),
            DenialFault::OutOfMemory => f.write_str("denial: out of memory"),
        }
    }
}

const USAGE: &str = "usage: denial nsec APEX | denial nsec3 APEX ITERATIONS SALT [optout] \
     | denial check nsec APEX NAME TYPE | denial check nsec3 APEX NAME TYPE";

/// Converts an error of a device to the fault of that device, or to `OutOfMemory` if the error is
/// out of memory.
pub fn fault_of(error: &io::Error, fault: DenialFault) -> DenialFault
    ensures either { (result ≡ fault) ⊎ (result ≡ denial_fault.OutOfMemory) }
    ensures memory { (result ≡ denial_fault.OutOfMemory)
        ↔ ((error_kind error.now ≡ ErrorKind.OutOfMemory) ⊎ (fault ≡ denial_fault.OutOfMemory)) }
{
    if error.kind() == ErrorKind::OutOfMemory {
        DenialFault::OutOfMemory
    } else {
        fault
    }
}

impl From<SigningError> for DenialFault {
    ghost use Rattle.denial_program.specs.Answer.{fault_of_zone};

    ghost from_gives = { λ error e. e ≡ fault_of_zone error };

    fn from(error: SigningError) -> DenialFault {
        match error {
            SigningError::OutOfMemory => DenialFault::OutOfMemory,
            fault => DenialFault::Signing(fault),
        }
    }
}

impl From<Nsec3HashError> for DenialFault {
    ghost use Rattle.domain_records.specs.Text.{signing_error_of};
    ghost use Rattle.denial_program.specs.Answer.{fault_of_zone};

    ghost from_gives = { λ error e. e ≡ fault_of_zone (signing_error_of error) };

    fn from(error: Nsec3HashError) -> DenialFault {
        DenialFault::from(SigningError::from(error))
    }
}

impl From<OutOfMemory> for DenialFault {
    ghost from_gives = { λ _ e. e ≡ denial_fault.OutOfMemory };

    fn from(_error: OutOfMemory) -> DenialFault {
        DenialFault::OutOfMemory
    }
}

impl From<AllocError> for DenialFault {
    ghost from_gives = { λ _ e. e ≡ denial_fault.OutOfMemory };

    fn from(_error: AllocError) -> DenialFault {
        DenialFault::OutOfMemory
    }
}

impl<T: Drop> From<AllocFailed<T>> for DenialFault {
    ghost from_gives = { λ _ e. e ≡ denial_fault.OutOfMemory };

    fn from(_error: AllocFailed<T>) -> DenialFault {
        DenialFault::OutOfMemory
    }
}
