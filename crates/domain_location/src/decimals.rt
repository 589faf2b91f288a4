//! Decimal numbers with a point.
ghost use Rattle.std.specs.Prelude.{◌≡◌, ◌≢◌, ℕ, ◌+◌, ◌*◌, ◌^◌, ◌<◌, ◌≤◌, length, slice_index, IfSome, IfNone};
ghost use Rattle.std.specs.{Char.digit_value, Str.Parse.{AllDigits, digits_value_after}};
ghost use Rattle.domain_octets.specs.Text.{dot};
ghost use Rattle.domain_location.specs.Decimals.{SplitsAtPoint, DecimalText};

/// The greatest limit.
const MAX_LIMIT: u64 = 0xff_ffff_ffff;

/// The greatest number of digits after a point.
const MAX_PLACES: usize = 3;

/// Returns the value of a decimal digit.
fn digit_of(c: u8) -> Option<u64>
    ensures some { IfSome result (λ digit. digit ≡ digit_value c) }
    ensures small { IfSome result (λ digit. digit < 10) }
    ensures none { IfNone result (10 ≤ digit_value c) }
{
    match char::from(c).to_digit(10) {
        Some(digit) => Some(u64::from(digit)),
        None => None,
    }
}

/// Returns the number that digits spell after those of another number, if it is up to the limit.
fn number_after(limit: u64, start: u64, digits: &[u8]) -> Option<u64>
    requires limit { limit < 2 ^ 40 }
    requires start { start ≤ limit }
    ensures some { IfSome result (λ n. AllDigits 10 digits.now) }
    ensures value { IfSome result (λ n. n ≡ digits_value_after 10 start digits.now) }
    ensures fits { IfSome result (λ n. n ≤ limit) }
    ensures none { IfNone result (AllDigits 10 digits.now
        → limit < digits_value_after 10 start digits.now) }
{
    let mut number = start;
    for c in digits {
        let Some(digit) = digit_of(*c) else {
            return None;
        };
        number = number * 10 + digit;
        if number > limit {
            return None;
        }
    }
    Some(number)
}

/// Returns what is before the first point of a text, and what follows it.
fn split_at_point(text: &[u8]) -> (&[u8], &[u8])
    ensures parts { SplitsAtPoint text.now result.0.now result.1.now }
    ensures first { (i : ℕ) → i < length result.0.now → slice_index result.0.now i ≢ dot }
{
    for i in 0..text.len() {
        if text[i] == b'.' {
            return (&text[..i], &text[i + 1..]);
        }
    }
    (text, &text[..0])
}

/// Returns a number in decimal digits, of which at most `places` are after a point, in units of the
/// last place, if it is up to the limit. There are at most 3 places, and the limit has at most 40
/// bits. Does not allocate.
pub fn decimal(limit: u64, places: usize, text: &[u8]) -> Option<u64>
    ensures some { IfSome result (DecimalText places text.now) }
    ensures fits { IfSome result (λ n. n ≤ limit) }
    ensures none { IfNone result (limit < 2 ^ 40 → places ≤ 3
        → (n : ℕ) → DecimalText places text.now n → n ≤ limit → ⊥) }
{
    if limit > MAX_LIMIT || places > MAX_PLACES {
        return None;
    }
    let (whole, fraction) = split_at_point(text);
    if whole.is_empty() && fraction.is_empty() {
        return None;
    }
    if fraction.len() > places {
        return None;
    }
    let Some(front) = number_after(limit, 0, whole) else {
        return None;
    };
    let Some(number) = number_after(limit, front, fraction) else {
        return None;
    };
    let Some(number) = number_after(limit, number, &b"000"[..places - fraction.len()]) else {
        return None;
    };
    Some(number)
}
