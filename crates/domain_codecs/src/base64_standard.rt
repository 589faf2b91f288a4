//! Base 64 (RFC 4648, section 4).
ghost use Rattle.std.specs.{Prelude.{◌≡◌, IfOk, IfErr, IsErrOf, ◌↔◌, string_bytes}, Fmt.WritesOnOk};
ghost use Rattle.base64.specs.{GeneralPurpose.encode_of, Engines.standard};
ghost use Rattle.domain_codecs.specs.declared.codec.Codec.TheVariants as codec;
ghost use Rattle.domain_codecs.specs.Codec.{Decodes, DecodeFault, HasNoRoom};

use crate::{Codec, DecodeError};
use base64::display::Base64Display;
use base64::engine::general_purpose::STANDARD;
use domain_octets::{EmptyBuilder, FromBuilder, OutOfMemory};
use std::alloc::Global;
use std::fmt;

/// Decodes a text with padding.
///
/// # Errors
///
/// For any other text, `IllegalChar` with the first character that no such text has, or
/// `ShortInput` if there is none.
pub fn decode<O: FromBuilder>(alloc: Global, text: &str) -> Result<O, DecodeError>
where
    O::Builder: EmptyBuilder + Drop,
    ensures ok { IfOk result (λ octets. Decodes codec.Base64 text.now (O.octets octets)) }
    ensures err { IfErr result (DecodeFault codec.Base64 O.Builder.limit text.now) }
    ensures room { IsErrOf result DecodeError.ShortBuf
        ↔ HasNoRoom codec.Base64 O.Builder.limit text.now }
{
    Codec::Base64.decode(alloc, text)
}

/// Encodes octets as text.
pub fn encode_string(alloc: Global, octets: &[u8]) -> Result<String, OutOfMemory>
    ensures { IfOk result (λ text. string_bytes text ≡ encode_of standard octets.now) }
{
    Ok(STANDARD.encode(alloc, octets)?)
}

/// Writes octets as text.
pub fn display<W: fmt::Write>(octets: &[u8], f: &mut fmt::Formatter<W>) -> fmt::Result
    ensures { WritesOnOk W.write_str_gives f.old result (encode_of standard octets.now) f.new }
{
    write!(f, "{}", Base64Display::new(octets, &STANDARD))
}
