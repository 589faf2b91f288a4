//! Two values that are made one after the other.
ghost use Rattle.std.specs.Prelude.{◌≡◌, ◌↔◌, ◌⊎◌, Ok, IfOk, IsErrOf};

use domain_octets::AppendError;

/// Returns both values. Returns `ShortBuf` if one of them has this error, or else `OutOfMemory` if
/// one of them has that error.
pub fn both<A: Drop, B: Drop>(
    first: Result<A, AppendError>,
    second: Result<B, AppendError>,
) -> Result<(A, B), AppendError>
    ensures ok { IfOk result (λ pair. (first ≡ Ok pair.0) × (second ≡ Ok pair.1)) }
    ensures short { IsErrOf result AppendError.ShortBuf
        ↔ (IsErrOf first AppendError.ShortBuf ⊎ IsErrOf second AppendError.ShortBuf) }
    ensures memory { IsErrOf result AppendError.OutOfMemory
        → (IsErrOf first AppendError.OutOfMemory ⊎ IsErrOf second AppendError.OutOfMemory) }
{
    match (first, second) {
        (Ok(first), Ok(second)) => Ok((first, second)),
        (Err(AppendError::ShortBuf), _) => Err(AppendError::ShortBuf),
        (_, Err(AppendError::ShortBuf)) => Err(AppendError::ShortBuf),
        _ => Err(AppendError::OutOfMemory),
    }
}
