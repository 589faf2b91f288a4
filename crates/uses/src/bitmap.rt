//! From a set of types to its bitmap, and back.
ghost use Rattle.std.specs.Prelude.{◌≡◌, ◌<◌, ◌==◌, ◌||◌, ℕ, IfOk};
ghost use Rattle.domain_bitmap.specs.Blocks.{contains_type};

use domain_bitmap::laws;
use domain_dnssec::{AppendError, Error, Rtype, RtypeBitmap, RtypeBitmapBuilder};
use std::alloc::Global;
use std::fmt::Write;

/// Returns the bitmap of two types.
#[tactic(auto, unfolding(domain_bitmap::specs::Blocks::holds))]
fn pair(alloc: Global, first: Rtype, second: Rtype) -> Result<RtypeBitmap<Vec<u8>>, AppendError>
    ensures { IfOk result (λ bitmap. (t : ℕ) → t < 65536
        → contains_type bitmap t ≡ (t == second || t == first)) }
{
    let mut builder = RtypeBitmapBuilder::new_vec(alloc);
    builder.add(first)?;
    builder.add(second)?;
    laws::built_bitmaps_give_their_types();
    Ok(builder.finalize())
}

/// Prints the types of a bitmap.
pub fn show(alloc: Global, text: &mut String) -> Result<(), Error> {
    let bitmap = pair(alloc, Rtype::CAA, Rtype::A)?;
    for rtype in &bitmap {
        writeln!(text, "type {rtype}")?;
    }
    Ok(())
}
