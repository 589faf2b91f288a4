//! Explains what is wrong with a word that does not spell a name (RFC 1035, sections 2.3.4 and
//! 5.1).

use crate::wanted::NAME;

const BAD_DIGITS: &str = "after a backslash, three digits from 000 to 255 give an octet";

/// Returns what is wrong with a word that does not spell a name.
pub fn name_trouble(word: &str) -> &'static str {
    // The octets of the current label; the octets of all labels before it, with their lengths; and,
    // after a backslash, the number of digits so far and their value.
    let mut label: usize = 0;
    let mut before: usize = 0;
    let mut escape: Option<(u8, u32)> = None;
    if word == "." {
        return "it is the root";
    }
    for octet in word.as_bytes() {
        escape = match (escape, *octet) {
            (None, b'.') if label == 0 => return "it has an empty label",
            (None, b'.') => {
                before = before.saturating_add(label).saturating_add(1);
                label = 0;
                continue;
            }
            (None, b'\\') => Some((0, 0)),
            (Some((count, value)), b'0'..=b'9') => {
                let digit = octet.saturating_sub(b'0');
                Some((
                    count.saturating_add(1),
                    value.saturating_mul(10).saturating_add(u32::from(digit)),
                ))
            }
            (Some((1.., _)), _) => return BAD_DIGITS,
            _ => None,
        };
        match escape {
            Some((3, 256..)) => return BAD_DIGITS,
            Some((0..=2, _)) => continue,
            _ => escape = None,
        }
        if label >= 63 {
            return "a label has at most 63 octets";
        }
        label = label.saturating_add(1);
    }
    if escape.is_some() {
        return "it ends after a backslash";
    }
    if before.saturating_add(label) >= 254 {
        return "it has more than 255 octets";
    }
    NAME
}
