//! Key tags (RFC 4034, appendix B).
ghost use Rattle.std.specs.Prelude.{◌≡◌, ◌≤◌, ◌+◌, ◌*◌, ◌%◌, length};
ghost use Rattle.domain_keys.specs.Keys.{weighed, with_carry, rsa_md5_tag};

/// Returns the sum of octets, where those at even positions count 256-fold.
pub fn weighed(octets: &[u8]) -> u32
    requires { length octets.now ≤ 65531 }
    ensures value { result ≡ weighed octets.now }
    ensures bound { result ≤ 65280 * 65531 }
{
    let (mut sum, mut rest) = (0, octets);
    while let [high, low, others @ ..] = rest {
        sum += u32::from(*high) * 256 + u32::from(*low);
        rest = others;
    }
    match rest {
        [last] => sum + u32::from(*last) * 256,
        _ => sum,
    }
}

/// Adds the carry above 16 bits, once.
pub fn with_carry(sum: u32) -> u16
    requires { sum ≤ 65280 * 65535 }
    ensures { result ≡ with_carry sum }
{
    ((sum + sum / 65536) % 65536) as u16
}

/// Returns the third and the second octet from the end as a number, or 0 if there are fewer than
/// three octets.
pub fn rsa_md5_tag(key: &[u8]) -> u16
    ensures { result ≡ rsa_md5_tag key.now }
{
    match key {
        [.., high, low, _] => u16::from_be_bytes([*high, *low]),
        _ => 0,
    }
}
