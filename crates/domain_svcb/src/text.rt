//! A parameter as text: KEY, KEY=VALUE or KEY="VALUE" (RFC 9460, section 2.1).
ghost use Rattle.std.specs.Prelude.{◌≡◌, ◌≤◌, length};
ghost use Rattle.domain_svcb.specs.Parameters.{key_len, key_part, unquoted, value_part};

/// Returns the number of octets before the first equals sign.
#[tactic(auto, using(crate::proofs::TextLemmas::key_steps))]
fn key_len(text: &[u8]) -> usize
    ensures value { result ≡ key_len text.now }
    ensures within { result ≤ length text.now }
{
    for (i, octet) in text.iter().enumerate() {
        if *octet == b'=' {
            return i;
        }
    }
    text.len()
}

/// Returns the octets up to the first equals sign.
pub(crate) fn key_part(text: &[u8]) -> &[u8]
    ensures { result.now ≡ key_part text.now }
{
    &text[..key_len(text)]
}

/// Returns octets without the quotes around them.
fn unquoted(text: &[u8]) -> &[u8]
    ensures { result.now ≡ unquoted text.now }
{
    let len = text.len();
    if len > 1 && text[0] == b'"' && text[len - 1] == b'"' {
        return &text[1..len - 1];
    }
    text
}

/// Returns the octets after the first equals sign, without the quotes around them, or none if there
/// is no sign.
pub(crate) fn value_part(text: &[u8]) -> &[u8]
    ensures { result.now ≡ value_part text.now }
{
    let len = key_len(text);
    if len < text.len() {
        return unquoted(&text[len + 1..]);
    }
    unquoted(&text[len..])
}
