//! The files that the arguments name, and those that a zone file includes.
ghost use Rattle.std.specs.Prelude.{Option};

use denial_program::{DenialFault, fault_of};
use domain_includes::{FileSource, SourceError};
use std::alloc::Global;
use std::fs::File;
use std::io::{ErrorKind, Read};
use std::{fs, io, str};

/// What a word behind the arguments of a command names.
#[derive(Drop)]
pub enum Extra {
    /// Standard input: it is `-`.
    Standard,
    /// This file.
    File(File),
    /// No file, or a directory.
    Missing,
    /// A file that cannot be read.
    Unreadable,
    /// There is no memory to look for it.
    OutOfMemory,
}

/// Returns what a word names for which a call of the system has an error.
fn extra_of(error: &io::Error, extra: Extra) -> Extra {
    if error.kind() == ErrorKind::OutOfMemory {
        Extra::OutOfMemory
    } else {
        extra
    }
}

/// Opens what a word behind the arguments of a command names.
pub fn open_extra(rt: &HostRuntime, name: &str) -> Extra {
    if name == "-" {
        return Extra::Standard;
    }
    match fs::metadata(rt, name) {
        Ok(found) if found.is_dir() => return Extra::Missing,
        Ok(_) => {}
        Err(e) => return extra_of(&e, Extra::Missing),
    }
    match fs::open(rt, name) {
        Ok(file) => Extra::File(file),
        Err(e) => extra_of(&e, Extra::Unreadable),
    }
}

/// Appends all that a reader gives.
fn append_all<R: Read>(reader: &mut R, octets: &mut Vec<u8>) -> Result<(), DenialFault> {
    match reader.read_to_end(octets) {
        Ok(_) => Ok(()),
        Err(e) => Err(fault_of(&e, DenialFault::Read)),
    }
}

/// Returns the octets of a file, or of standard input if its name is `-`.
///
/// # Errors
///
/// `Read` if the file cannot be read, and `OutOfMemory` if there is no memory.
pub fn read_all(rt: &HostRuntime, name: &str) -> Result<Vec<u8>, DenialFault> {
    let mut octets = Vec::new(rt.alloc());
    if name == "-" {
        append_all(&mut rt.reader(), &mut octets)?;
        return Ok(octets);
    }
    match fs::open(rt, name) {
        Ok(mut file) => append_all(&mut file, &mut octets)?,
        Err(e) => return Err(fault_of(&e, DenialFault::Read)),
    }
    Ok(octets)
}

/// Returns the path of a file for its includes: its name, or nothing for standard input.
pub fn path_of(name: &str) -> &[u8] {
    if name == "-" { &[] } else { name.as_bytes() }
}

/// The files of this system. A path is UTF-8, and relative to the working folder.
#[derive(Clone, Copy)]
pub struct SystemFiles<'r> {
    rt: &'r HostRuntime,
}

impl<'r> SystemFiles<'r> {
    /// Returns the files of this process.
    pub fn new(rt: &'r HostRuntime) -> Self {
        SystemFiles { rt }
    }
}

/// Returns why a file was not read, by the error of a call of the system.
fn source_error(error: &io::Error) -> SourceError {
    if error.kind() == ErrorKind::OutOfMemory {
        SourceError::OutOfMemory
    } else {
        SourceError::Unreadable
    }
}

impl FileSource for SystemFiles<'_> {
    ghost gives = { λ files path content. Unit {0} };

    fn read(&self, alloc: Global, path: &[u8]) -> Result<Vec<u8>, SourceError> {
        let Ok(name) = str::from_utf8(path) else {
            return Err(SourceError::Unreadable);
        };
        let mut octets = Vec::new(alloc);
        let mut file = match fs::open(self.rt, name) {
            Ok(file) => file,
            Err(e) => return Err(source_error(&e)),
        };
        match file.read_to_end(&mut octets) {
            Ok(_) => Ok(octets),
            Err(e) => Err(source_error(&e)),
        }
    }
}
