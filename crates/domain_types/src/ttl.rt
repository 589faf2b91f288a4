//! Times to live as text (RFC 1035, section 5.1).
ghost use Rattle.std.specs.Prelude.{◌≡◌, ◌≤◌, ◌^◌, Some, IfSome};
ghost use Rattle.std.specs.Option.{option_map};
ghost use Rattle.domain_types.specs.Ttls.{unit_seconds, capped, capped_sum, next_sum, whole_sum, ttl_text, sized};
ghost use Rattle.domain_types.specs.declared.ttl.Sum.{Sum};

/// What a text is as a TTL.
#[derive(Clone, Copy, Debug, PartialEq, Eq)]
pub enum TtlText {
    /// It spells no TTL.
    NoTtl,
    /// It spells a TTL of more than 32 bits (RFC 2181, section 8).
    TooLarge,
    /// It spells this many seconds.
    Seconds(u32),
}

/// What was read of a TTL: the sum of the numbers that have a unit, and the number whose unit is to
/// come.
#[derive(Clone, Copy)]
pub struct Sum {
    /// The sum in seconds.
    pub total: Option<u64>,
    /// The number.
    pub number: Option<u64>,
}

/// The least number that is too large. Numbers count no further.
const LIMIT: u64 = 1 << 32;

/// Returns the seconds of a unit, in either case.
fn unit_seconds(octet: u8) -> Option<u64>
    ensures value { result ≡ unit_seconds octet }
    ensures small { IfSome result (λ unit. (1 ≤ unit) × (unit ≤ 604800)) }
{
    match octet.to_ascii_lowercase() {
        b'w' => Some(604_800),
        b'd' => Some(86_400),
        b'h' => Some(3_600),
        b'm' => Some(60),
        b's' => Some(1),
        _ => None,
    }
}

/// Returns what was read after another octet, or None if that octet ends no TTL.
fn next_sum(sum: Sum, octet: u8) -> Option<Sum>
    requires { (exact : Sum) × (sum ≡ capped_sum exact) }
    ensures { (exact : Sum) → sum ≡ capped_sum exact
        → result ≡ option_map capped_sum (next_sum exact octet) }
{
    if octet.is_ascii_digit() {
        let number = sum.number.unwrap_or(0) * 10 + u64::from(octet - b'0');
        return Some(Sum {
            total: sum.total,
            number: Some(number.min(LIMIT)),
        });
    }
    let number = sum.number?;
    let unit = unit_seconds(octet)?;
    let total = sum.total.unwrap_or(0) + number * unit;
    Some(Sum {
        total: Some(total.min(LIMIT)),
        number: None,
    })
}

/// Returns the seconds at the end. A number without a unit stands alone.
fn whole_sum(sum: Sum) -> Option<u64>
    ensures { result ≡ whole_sum sum.total sum.number }
{
    match (sum.total, sum.number) {
        (None, number) => number,
        (total, None) => total,
        _ => None,
    }
}

/// Returns seconds as a TTL.
fn sized(seconds: Option<u64>) -> TtlText
    ensures { result ≡ sized seconds }
{
    match seconds.map(u32::try_from) {
        Some(Ok(seconds)) => TtlText::Seconds(seconds),
        Some(Err(_too_large)) => TtlText::TooLarge,
        None => TtlText::NoTtl,
    }
}

/// Returns what a text is as a TTL: decimal digits, or one or more numbers with a unit each, which
/// are added up.
pub fn read_ttl(text: &[u8]) -> TtlText
    ensures { result ≡ ttl_text text.now }
{
    let mut sum = Sum {
        total: None,
        number: None,
    };
    for octet in text {
        let Some(next) = next_sum(sum, *octet) else {
            return TtlText::NoTtl;
        };
        sum = next;
    }
    sized(whole_sum(sum))
}
