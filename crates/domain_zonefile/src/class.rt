//! Classes as text (RFC 1035, section 3.2.4; RFC 3597, section 5).
ghost use Rattle.std.specs.Prelude.{◌≡◌, None};
ghost use Rattle.domain_base.specs.Numbers.{same_text};
ghost use Rattle.domain_zonefile.specs.ZoneClasses.{class_of, named_class, decimal_from, small_number};

/// Returns whether octets are a word, in either case.
#[tactic(auto, using(domain_base::proofs::TextLemmas::same_yes, domain_base::proofs::TextLemmas::same_no))]
pub(crate) fn is_word(octets: &[u8], word: &[u8]) -> bool
    ensures { result ≡ same_text octets.now word.now }
{
    octets.eq_ignore_ascii_case(word)
}

/// Returns the class that has this name, in either case.
fn named_class(text: &[u8]) -> Option<u16>
    ensures { result ≡ named_class text.now }
{
    if is_word(text, b"IN") {
        return Some(1);
    }
    if is_word(text, b"CH") || is_word(text, b"CHAOS") {
        return Some(3);
    }
    if is_word(text, b"HS") || is_word(text, b"HESIOD") {
        return Some(4);
    }
    None
}

/// Returns the number that decimal digits spell, if it has at most 16 bits.
#[tactic(auto, using(crate::proofs::FieldLemmas::decimal_past))]
fn read_u16(text: &[u8]) -> Option<u16>
    ensures { result ≡ small_number (decimal_from None text.now) }
{
    let mut number = None;
    for octet in text {
        if !octet.is_ascii_digit() {
            return None;
        }
        let next = u32::from(number.unwrap_or(0u16)) * 10 + u32::from(*octet - b'0');
        if next > 65535 {
            return None;
        }
        number = Some(next as u16);
    }
    number
}

/// Returns the class that a text spells: IN, CH or CHAOS, HS or HESIOD, or CLASS and a number from
/// 1 to 65535, in either case. Returns None for any other text.
pub fn read_class(text: &[u8]) -> Option<u16>
    ensures { result ≡ class_of text.now }
{
    let Some((word, digits)) = text.split_at_checked(5) else {
        return named_class(text);
    };
    if !is_word(word, b"CLASS") {
        return named_class(text);
    }
    match read_u16(digits) {
        Some(0) => None,
        number => number,
    }
}
