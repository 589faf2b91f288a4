//! Runs the program over any reader and any writer.
ghost use Rattle.std.specs.Prelude.{◌≡◌, ◌⊎◌, ◌↔◌, IsTrue, codes, IfOk, IfErr, IfSome, OnOk, MatchResult, map, string_bytes};
ghost use Rattle.std.specs.Io.KnownBytes.{Appends};
ghost use Rattle.std.specs.IoError.{error_kind};
ghost use Rattle.domain_octets.specs.Octets.{Octets};
ghost use Rattle.domain_names.specs.Text.{NameText};
ghost use Rattle.zone_program.specs.Run.{AsksForZone, IsNoApex, IsNoCommandFor, IsBeforeWriting, LinesOfRun, NoRun};

use crate::fault::ZoneFault;
use crate::lines::zone_lines;
use domain_base::{Name, ScanError, ToName};
use domain_includes::FileSource;
use domain_octets::SmallOctets;
use std::alloc::Global;
use std::io;
use std::io::{ErrorKind, Read, Write};

/// Returns the fault of a call of the system, or that memory ran out.
pub fn fault_of(error: &io::Error, fault: ZoneFault) -> ZoneFault
    ensures cases { (result ≡ fault) ⊎ (result ≡ ZoneFault.OutOfMemory) }
    ensures memory { (result ≡ ZoneFault.OutOfMemory)
        ↔ ((error_kind error.now ≡ ErrorKind.OutOfMemory) ⊎ (fault ≡ ZoneFault.OutOfMemory)) }
{
    if error.kind() == ErrorKind::OutOfMemory {
        ZoneFault::OutOfMemory
    } else {
        fault
    }
}

/// Returns the apex that a word spells, with the flag.
fn read_apex(
    alloc: Global,
    word: &str,
    is_unsigned: bool,
) -> Result<(Name<SmallOctets>, bool), ZoneFault>
    ensures ok { IfOk result (λ p. NameText word.now p.0 × (p.1 ≡ is_unsigned)) }
    ensures err { IfErr result (IsNoApex word.now) }
{
    match Name::from_str(alloc, word) {
        Ok(apex) => Ok((apex, is_unsigned)),
        Err(ScanError::OutOfMemory) => Err(ZoneFault::OutOfMemory),
        Err(_) => Err(ZoneFault::Usage),
    }
}

/// Returns whether a word says that the records of a signer are left out.
fn is_unsigned(word: &str) -> bool
    ensures { IsTrue result ↔ (word.now ≡ codes "unsigned") }
{
    word.as_bytes() == b"unsigned".as_slice()
}

/// Returns the apex that the arguments spell, and whether the records of a signer are left out.
fn read_words(alloc: Global, words: &[String]) -> Result<(Name<SmallOctets>, bool), ZoneFault>
    ensures ok { IfOk result (λ p. AsksForZone (map string_bytes words.now) p.0 p.1) }
    ensures err { IfErr result (IsNoCommandFor (map string_bytes words.now)) }
{
    match words {
        [word] => read_apex(alloc, word.as_str(), false),
        [word, last] if is_unsigned(last.as_str()) => read_apex(alloc, word.as_str(), true),
        _ => Err(ZoneFault::Usage),
    }
}

/// Reads a zone file whose names are relative to an apex, and the files that it includes. Writes
/// their records, one a line. The path is that of the file, or empty: paths of included files are
/// relative to its folder.
///
/// # Errors
///
/// - `Usage` if the arguments are not an apex, or an apex and the word `unsigned`, which leaves out
///   the records of a signer;
/// - `Read` if the input could not be read;
/// - `File` with the first fault of these files;
/// - `Write` if the output could not be written;
/// - `OutOfMemory`, at any time.
///
/// Before any error but `Write` and `OutOfMemory`, nothing is written.
pub fn run_zone<F: FileSource, R: Read, W: Write>(
    alloc: Global,
    words: &[String],
    files: &F,
    path: &[u8],
    input: &mut R,
    output: &mut W,
) -> Result<(), ZoneFault>
    ensures ok { OnOk result (IfSome (R.remaining input.old) (λ file. (text : Octets)
        × LinesOfRun (F.gives files.now) path.now (map string_bytes words.now) file text
        × Appends (W.contents output.old) (W.contents output.new) text)) }
    ensures err { IfErr result (NoRun (F.gives files.now) path.now (map string_bytes words.now)
        (R.remaining input.old)) }
    ensures untouched { IfErr result (λ e. IsBeforeWriting e → output.new ≡ output.old) }
{
    let (apex, is_unsigned) = match read_words(alloc, words) {
        Ok(asked) => asked,
        Err(fault) => return Err(fault),
    };
    let mut file = Vec::new(alloc);
    if let Err(e) = input.read_to_end(&mut file) {
        return Err(fault_of(&e, ZoneFault::Read));
    }
    let octets = file.as_slice();
    let lines = match zone_lines(alloc, files, path, &apex.as_parsed(), octets, is_unsigned) {
        Ok(lines) => lines,
        Err(fault) => return Err(fault),
    };
    write_text(lines.text(), output)
}

/// Writes a text.
fn write_text<W: Write>(text: &str, output: &mut W) -> Result<(), ZoneFault>
    ensures ok { OnOk result (Appends (W.contents output.old) (W.contents output.new)
        text.now) }
    ensures err { IfErr result (λ e. (e ≡ ZoneFault.Write) ⊎ (e ≡ ZoneFault.OutOfMemory)) }
{
    if let Err(e) = output.write_all(text.as_bytes()) {
        return Err(fault_of(&e, ZoneFault::Write));
    }
    output.flush().map_err(|e| fault_of(&e, ZoneFault::Write))
}
