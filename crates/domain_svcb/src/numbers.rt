//! Numbers as text.
ghost use Rattle.std.specs.Prelude.{◌≡◌, ℕ, IfSome, IfNone};
ghost use Rattle.domain_base.specs.Scan.{IsNumber};

use domain_base::FromToken;

/// Returns the number of at most 32 bits that decimal digits spell.
pub fn number(digits: &[u8]) -> Option<u32>
    ensures some { IfSome result (IsNumber 32 digits.now) }
    ensures none { IfNone result ((n : ℕ) → IsNumber 32 digits.now n → ⊥) }
{
    match str::from_utf8(digits) {
        Ok(text) => u32::from_token(text).ok(),
        Err(_) => None,
    }
}

/// Returns the number of at most 16 bits that decimal digits spell.
pub fn number_of(digits: &[u8]) -> Option<u16>
    ensures some { IfSome result (IsNumber 16 digits.now) }
    ensures none { IfNone result ((n : ℕ) → IsNumber 16 digits.now n → ⊥) }
{
    u16::try_from(number(digits)?).ok()
}
