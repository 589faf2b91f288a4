//! The parts of a text between separators, and the numbers in it.
ghost use Rattle.std.specs.Prelude.{◌≡◌, ◌≤◌, ◌==◌, None, length, option_copied};
ghost use Rattle.std.specs.List.{position_or_len, before_first};
ghost use Rattle.domain_zonefile.specs.ZoneClasses.{decimal_from};
ghost use Rattle.domain_generate.specs.Ranges.{at_most, behind_first, largest_number};

/// The largest number: 2^31 - 1, as in BIND.
pub(crate) const LARGEST_NUMBER: u32 = (1 << 31) - 1;

/// Returns the number of octets before the first of this kind.
#[tactic(auto, using(crate::proofs::CutLemmas::cut_steps))]
pub(crate) fn len_before(text: &[u8], separator: u8) -> usize
    ensures value { result ≡ position_or_len (λ c. c == separator) text.now }
    ensures within { result ≤ length text.now }
{
    for (i, octet) in text.iter().enumerate() {
        if *octet == separator {
            return i;
        }
    }
    text.len()
}

/// Returns the octets before the first separator, and those behind it if there is one.
pub(crate) fn cut(text: &[u8], separator: u8) -> (&[u8], Option<&[u8]>)
    ensures before { result.0.now ≡ before_first (λ c. c == separator) text.now }
    ensures behind { option_copied result.1 ≡ behind_first separator text.now }
{
    let len = len_before(text, separator);
    if len < text.len() {
        return (&text[..len], Some(&text[len + 1..]));
    }
    (text, None)
}

/// Returns the number of at most 31 bits that decimal digits spell, at least one.
#[tactic(auto, using(crate::proofs::CutLemmas::decimal_past))]
pub(crate) fn read_number(text: &[u8]) -> Option<u32>
    ensures { result ≡ at_most largest_number (decimal_from None text.now) }
{
    let mut number = None;
    for octet in text {
        if !octet.is_ascii_digit() {
            return None;
        }
        let next = u64::from(number.unwrap_or(0u32)) * 10 + u64::from(*octet - b'0');
        if next > u64::from(LARGEST_NUMBER) {
            return None;
        }
        number = Some(next as u32);
    }
    number
}
