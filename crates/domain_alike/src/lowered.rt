//! Names in lower case.
ghost use Rattle.std.specs.Prelude.{◌≡◌, ◌++◌, drop, length};
ghost use Rattle.domain_names.specs.Name.{lowered, wire_of};

use domain_base::{MAX_NAME, ParsedName, ToName};

/// Writes the wire form of a name in lower case, as it is hashed, to the front of a buffer. The
/// octets after it stay.
pub fn write_lowered(name: &ParsedName<'_>, buffer: &mut [u8; MAX_NAME])
    ensures { buffer.new
        ≡ wire_of (lowered name.now) ++ drop (length (wire_of name.now)) buffer.old }
{
    // The wire form of a name has at most 255 octets.
    let _wire = name.as_wire();
    let mut octets = [0; MAX_NAME];
    let lowered = name.lower_wire(&mut octets);
    buffer[..lowered.len()].copy_from_slice(lowered);
}
