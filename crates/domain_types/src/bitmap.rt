//! The types of a bitmap, which tokens spell (RFC 4034, section 4.2).
ghost use Rattle.std.specs.Prelude.{◌≡◌, ◌==◌, ◌||◌, ◌++◌, ◌<◌, ◌≤◌, [], ℕ, length, map, IfOk, IfErr, OnOk};
ghost use Rattle.domain_octets.specs.Octets.{Octets};
ghost use Rattle.domain_base.specs.Types.{Rtypes};
ghost use Rattle.domain_bitmap.specs.{Blocks.holds, Bitmap.bitmap_octets, Text.is_among};
ghost use Rattle.domain_types.specs.Reading.{token_text, SpellsType, TypeTokenFault, MnemonicTexts};
ghost use Rattle.domain_types.specs.Reading.{MnemonicFault, BitmapTexts};
ghost use Rattle.domain_svcb.specs.Strings.{Grows};

use crate::field::Tail;
use crate::lookup::rtype_of;
use crate::token::{DataFault, DataFaultKind, Token};
use domain_base::Rtype;
use domain_bitmap::RtypeBitmapBuilder;
use domain_octets::Octets;
use std::alloc::Global;

/// Returns the type that a token spells, or the token's fault.
fn spelled_type(token: &Token<'_>) -> Result<Rtype, DataFaultKind>
    ensures ok { IfOk result (SpellsType (token_text token.now)) }
    ensures err { IfErr result (TypeTokenFault (token_text token.now)) }
{
    if token.is_quoted {
        return Err(DataFaultKind::Quoted);
    }
    match rtype_of(token.octets) {
        Some(rtype) => Ok(rtype),
        None => Err(DataFaultKind::NotTail(Tail::Types)),
    }
}

/// Adds the types that tokens spell to a builder without types.
fn add_types(
    builder: &mut RtypeBitmapBuilder<Vec<u8>>,
    tokens: &[Token<'_>],
) -> Result<(), DataFault>
    requires { builder.old ≡ [] }
    ensures ok { OnOk result ((types : Rtypes) × MnemonicTexts (map token_text tokens.now) types
        × (bitmap_octets (holds builder.new) ≡ bitmap_octets (is_among types))) }
    ensures memory { OnOk result (MnemonicFault (map token_text tokens.now) (length tokens.now)
        DataFaultKind.OutOfMemory) }
    ensures err { IfErr result (λ e.
        MnemonicFault (map token_text tokens.now) e.token e.kind) }
    ensures place { IfErr result (λ e. e.token ≤ length tokens.now) }
{
    for (place, token) in tokens.iter().enumerate() {
        let rtype = match spelled_type(token) {
            Ok(rtype) => rtype,
            Err(kind) => return Err(DataFault { token: place, kind }),
        };
        if let Err(_) = builder.add(rtype) {
            let kind = DataFaultKind::OutOfMemory;
            return Err(DataFault { token: place, kind });
        }
    }
    Ok(())
}

/// Appends the bitmap of the types that tokens spell.
pub(crate) fn put_types(
    alloc: Global,
    tokens: &[Token<'_>],
    out: &mut Vec<u8>,
) -> Result<(), DataFault>
    ensures ok { OnOk result ((part : Octets) × BitmapTexts (map token_text tokens.now) part
        × (out.new.items ≡ out.old.items ++ part)) }
    ensures err { IfErr result (λ e. MnemonicFault (map token_text tokens.now) e.token e.kind) }
    ensures place { IfErr result (λ e. e.token ≤ length tokens.now) }
    ensures grows { Grows out.old.items out.new.items }
{
    let mut builder = RtypeBitmapBuilder::new_vec(alloc);
    if let Err(fault) = add_types(&mut builder, tokens) {
        return Err(fault);
    }
    let bitmap = builder.finalize();
    match out.extend_from_slice(bitmap.as_slice()) {
        Ok(()) => Ok(()),
        Err(_) => {
            let kind = DataFaultKind::OutOfMemory;
            Err(DataFault {
                token: tokens.len(),
                kind,
            })
        }
    }
}
