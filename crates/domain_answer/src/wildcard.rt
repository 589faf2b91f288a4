//! The wildcard right below an ancestor of a name.
ghost use Rattle.std.specs.Prelude.{◌≡◌, ◌+◌, ◌<◌, ◌≤◌, ◌∷◌, IfNone, IfSome, length};
ghost use Rattle.domain_names.specs.Name.{last_labels};
ghost use Rattle.domain_answer.specs.ZoneAnswer.{wildcard_below};

use domain_base::{MAX_NAME, ParsedName, ToName};

/// Writes the wire form of the wildcard below a name to the front of a buffer. `above` is the
/// name's wire form.
fn write_wildcard<'b>(buffer: &'b mut [u8], above: &[u8]) -> &'b [u8]
    requires { 2 + length above.now ≤ length buffer.old }
    ensures { result.now ≡ 1 ∷ 42 ∷ above.now }
{
    let wildcard = &mut buffer[..2 + above.len()];
    wildcard[0] = 1;
    wildcard[1] = b'*';
    wildcard[2..].copy_from_slice(above);
    wildcard
}

/// Returns the wildcard right below the last `count` labels of a name (RFC 4592, section 2.1.1).
/// Its octets are at the front of the buffer.
pub(crate) fn wildcard_below<'b, M: ToName>(
    buffer: &'b mut [u8],
    name: &M,
    count: usize,
) -> ParsedName<'b>
    requires room { 255 ≤ length buffer.old }
    requires above { count < length (M.labels name.now) }
    ensures { result ≡ wildcard_below (last_labels count (M.labels name.now)) }
{
    // The wildcard has no more octets than the name, which has at most 255.
    let _whole = name.as_wire();
    let above = name.last_labels(count);
    ParsedName::over(write_wildcard(buffer, above.as_wire()))
}

/// Returns the wildcard right below the last `count` labels of a name (RFC 4592, section 2.1.1), or
/// None if the name has no more labels than these. Its octets are at the front of the buffer.
pub fn wildcard_of<'b, M: ToName>(
    buffer: &'b mut [u8; MAX_NAME],
    name: &M,
    count: usize,
) -> Option<ParsedName<'b>>
    ensures some { IfSome result
        (λ wildcard. wildcard ≡ wildcard_below (last_labels count (M.labels name.now))) }
    ensures none { IfNone result (length (M.labels name.now) ≤ count) }
{
    if count >= name.count_labels() {
        return None;
    }
    Some(wildcard_below(buffer, name, count))
}
