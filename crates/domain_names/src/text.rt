//! The presentation format of names (RFC 1035, section 5.1).
ghost use Rattle.std.specs.Prelude.{◌≡◌, ◌≢◌, ℕ, Some, None, drop, slice_index, ◌+◌, ◌<◌, ◌≤◌, ◌∷◌, ◌++◌, [], ◌⊎◌, length, take, IfSome, IfNone, IsSome, OnSome, OnOk, IsTrue, ◌↔◌};
ghost use Rattle.std.specs.{Fmt.WritesOnOk, Str.IsAscii};
ghost use Rattle.domain_octets.specs.{Text.dot, Octets.Octets};
ghost use Rattle.domain_names.specs.{Name.{wire_of, IsLabel, IsName, Label, Name}, Text.{symbol_at, LabelText}};
ghost use Rattle.domain_names.specs.Text.{LabelTexts, IsBefore, HasNoLabel, HasNoLabelAfter, NameText};
ghost use Rattle.domain_names.specs.Text.{IsNoName, is_special, octet_text, label_text, dotted_text, name_text};
ghost use Rattle.domain_names.specs.Wire.{labels_of, IsWire};

use crate::wire;
use crate::wire::{MAX_LABEL_LEN, MAX_NAME};
use domain_octets::{AppendError, ArrayBuilder, Octets, OctetsBuilder, Truncate};
use std::fmt;

/// Returns the octet that a text within a label begins with, and the number of characters that
/// spell it.
#[tactic(auto, unfolding(crate::specs::Text::symbol_at))]
fn symbol_at(text: &[u8]) -> Option<(u8, usize)>
    ensures value { result ≡ symbol_at text.now }
    ensures used { IfSome result (λ s. (0 < s.1) × (s.1 ≤ length text.now)) }
{
    match text {
        [b'\\', a, b, c, ..] if a.is_ascii_digit() && b.is_ascii_digit() && c.is_ascii_digit() => {
            let value = u16::from(*a - b'0') * 100
                + u16::from(*b - b'0') * 10
                + u16::from(*c - b'0');
            Some((u8::try_from(value).ok()?, 4))
        }
        [b'\\', a, ..] if !a.is_ascii_digit() && *a >= b' ' && *a <= b'~' => Some((*a, 2)),
        [c, ..] if *c != b'\\' && *c != b'.' && *c >= b' ' && *c <= b'~' => Some((*c, 1)),
        _ => None,
    }
}

/// Returns whether a character represents itself within a label. Tests lower case letters first.
fn is_plain(octet: u8) -> bool
    ensures { IsTrue result → (octet ≢ 92) × (octet ≢ 46) × (32 ≤ octet) × (octet ≤ 126) }
{
    (octet > b'\\' && octet <= b'~')
        || (octet != b'\\' && octet != b'.' && octet >= b' ' && octet <= b'~')
}

/// Returns the number of characters at the front of a text that represent themselves within a
/// label.
#[tactic(auto, using(std::proofs::lemmas::Grind::common_steps, crate::proofs::TextLemmas::plain_symbol))]
fn plain_len(text: &[u8]) -> usize
    ensures within { result ≤ length text.now }
    ensures plain { (k : ℕ) → k < result
        → symbol_at (drop k text.now) ≡ Some (slice_index text.now k, 1) }
{
    for (i, octet) in text.iter().enumerate() {
        if !is_plain(*octet) {
            return i;
        }
    }
    text.len()
}

/// Returns the label that a text begins with, and the rest of the text, or None for a label of more
/// than 63 octets. Copies the characters up to the first escape at once.
#[tactic(auto, using(crate::proofs::TextLemmas::spelling_steps))]
fn read_label(text: &[u8]) -> Option<(ArrayBuilder<MAX_LABEL_LEN>, &[u8])>
    ensures label { IfSome result (λ p. LabelText text.now p.0 p.1.now) }
    ensures fits { IfSome result (λ p. length p.0 ≤ 63) }
    ensures none { IfNone result (HasNoLabel text.now) }
{
    let mut label = ArrayBuilder::new();
    let plain = plain_len(text);
    label.append_slice(&text[..plain]).ok()?;
    let mut rest = &text[plain..];
    while let Some((octet, used)) = symbol_at(rest) {
        label.append_slice(&[octet]).ok()?;
        rest = &rest[used..];
    }
    Some((label, rest))
}

/// Appends a label if it is not empty and the name has room for it.
fn push_label(wire: &mut ArrayBuilder<MAX_NAME>, label: &[u8]) -> Option<()>
    requires { length label.now ≤ 63 }
    ensures all { OnSome result (wire.new ≡ wire.old ++ length label.now ∷ label.now) }
    ensures valid { OnSome result (IsLabel label.now) }
    ensures none { IfNone result ((length label.now ≡ 0)
        ⊎ (255 ≤ length wire.old + length label.now)) }
{
    if label.is_empty() {
        return None;
    }
    wire.append_slice(&[label.len() as u8]).ok()?;
    wire.append_slice(label).ok()
}

/// Appends the label that a text begins with, and returns the rest of the text.
#[tactic(auto, using(crate::proofs::TextLemmas::one_label))]
fn take_label<'a>(wire: &mut ArrayBuilder<MAX_NAME>, text: &'a [u8]) -> Option<&'a [u8]>
    ensures some { IfSome result (λ after. (label : Label) × LabelText text.now label after.now
        × IsLabel label × (wire.new ≡ wire.old ++ length label ∷ label)) }
    ensures none { IfNone result (HasNoLabelAfter wire.old text.now) }
{
    let (label, after) = read_label(text)?;
    push_label(wire, label.as_slice())?;
    Some(after)
}

/// Returns the text after the dot that ends a label. It is empty at the end of a name, with or
/// without a last dot. Returns None if another character follows the label.
#[tactic(auto, using(std::proofs::lemmas::Grind::common_steps))]
fn after_dot(text: &[u8]) -> Option<&[u8]>
    ensures some { IfSome result (λ next. IsBefore next.now text.now) }
    ensures none { IfNone result ((next : Octets) → IsBefore next text.now → ⊥) }
{
    match text {
        [] => Some(text),
        [b'.', next @ ..] => Some(next),
        _ => None,
    }
}

/// Appends the wire form of the labels in a text, label by label, without the root.
#[tactic(auto, using(crate::proofs::TextLemmas::naming_steps))]
fn read_labels(wire: &mut ArrayBuilder<MAX_NAME>, text: &[u8]) -> Option<()>
    requires { wire.old ≡ [] }
    ensures labels { OnSome result ((labels : Name) × LabelTexts text.now labels
        × (wire.new ++ 0 ∷ [] ≡ wire_of labels)) }
    ensures none { IfNone result ((labels : Name) → LabelTexts text.now labels
        → IsName labels → ⊥) }
{
    let mut rest = text;
    loop {
        let after = take_label(wire, rest)?;
        rest = after_dot(after)?;
        if rest.is_empty() {
            return Some(());
        }
    }
}

/// Writes the length of each label into the octet before it. `octets` holds one octet and then the
/// first `end` octets of the text. Works from the end to the beginning. Returns None if a character
/// does not represent itself, or if a label is empty or too long.
#[tactic(auto, using(crate::proofs::TextLemmas::backward_steps))]
fn put_lengths(octets: &mut [u8], text: &[u8], end: usize) -> Option<()>
    requires end { IsBefore [] (drop end text.now) }
    requires within { end ≤ length text.now }
    requires octets { (first : ℕ) × (octets.old ≡ first ∷ take end text.now) }
    ensures size { length octets.new ≡ length octets.old }
    ensures labels { OnSome result ((labels : Name) × LabelTexts text.now labels
        × (octets.new ++ 0 ∷ [] ≡ wire_of labels)) }
{
    let mut start = end;
    let mut count = 0;
    'backward: while start > 0 {
        start -= 1;
        let octet = text[start];
        if is_plain(octet) {
            count += 1;
            continue;
        }
        if octet != b'.' || count == 0 || count > MAX_LABEL_LEN {
            return None;
        }
        octets[start + 1] = count as u8;
        count = 0;
    }
    if count == 0 || count > MAX_LABEL_LEN {
        return None;
    }
    octets[0] = count as u8;
    Some(())
}

/// Appends the root if the name has room for it.
fn push_root(wire: &mut ArrayBuilder<MAX_NAME>) -> Option<()>
    ensures root { OnSome result (wire.new ≡ wire.old ++ 0 ∷ []) }
    ensures room { IsSome result ↔ (length wire.old < 255) }
{
    wire.append_slice(&[0]).ok()
}

/// Returns where the labels of a text end: before its last dot, if it ends in one.
#[tactic(auto, using(std::proofs::lemmas::Grind::common_steps, crate::proofs::TextLemmas::before_last_dot))]
fn text_end(text: &[u8]) -> usize
    ensures within { result ≤ length text.now }
    ensures end { IsBefore [] (drop result text.now) }
{
    let len = text.len();
    if len > 0 && text[len - 1] == b'.' {
        return len - 1;
    }
    len
}

/// Writes the wire form of the name in a text into an empty builder, if all characters of its
/// labels represent themselves. Otherwise the content of the builder has no meaning.
fn read_plain_name(wire: &mut ArrayBuilder<MAX_NAME>, text: &[u8]) -> Option<()>
    requires { wire.old ≡ [] }
    ensures { OnSome result ((labels : Name) × NameText text.now labels
        × (wire.new ≡ wire_of labels)) }
{
    let end = text_end(text);
    wire.append_slice(&[0]).ok()?;
    wire.append_slice(&text[..end]).ok()?;
    put_lengths(wire.as_mut_slice(), text, end)?;
    push_root(wire)
}

/// Writes the wire form of the name in a text into an empty builder. Stops at the first character
/// or label that is not allowed.
#[tactic(auto, using(crate::proofs::TextLemmas::named_steps))]
pub fn read_name(wire: &mut ArrayBuilder<MAX_NAME>, text: &[u8]) -> Option<()>
    requires { wire.old ≡ [] }
    ensures name { OnSome result ((labels : Name) × NameText text.now labels
        × (wire.new ≡ wire_of labels)) }
    ensures none { IfNone result (IsNoName text.now) }
{
    if let [b'.'] = text {
        return push_root(wire);
    }
    if read_plain_name(wire, text).is_some() {
        return Some(());
    }
    wire.truncate(0);
    read_labels(wire, text)?;
    push_root(wire)
}

/// The greatest length of a printed name with a dot before each label. An octet takes at most four
/// characters.
const MAX_TEXT: usize = 4 * MAX_NAME;

/// Returns whether a character has a special meaning in zone files.
fn is_special(octet: u8) -> bool
    ensures { result ≡ is_special octet }
{
    matches!(
        octet,
        b'"' | b'$' | b'(' | b')' | b'.' | b';' | b'@' | b'\\'
    )
}

/// Appends the printed form of an octet within a label.
#[tactic(auto, unfolding(crate::specs::Text::octet_text))]
fn put_octet(text: &mut ArrayBuilder<MAX_TEXT>, octet: u8) -> Result<(), AppendError>
    ensures { OnOk result (text.new ≡ text.old ++ octet_text octet) }
{
    if is_special(octet) {
        text.append_slice(&[b'\\', octet])
    } else if octet.is_ascii_graphic() {
        text.append_slice(&[octet])
    } else {
        text.append_slice(&[
            b'\\',
            b'0' + octet / 100,
            b'0' + octet / 10 % 10,
            b'0' + octet % 10,
        ])
    }
}

/// Appends a dot and the printed form of each label of a name.
fn put_labels(text: &mut ArrayBuilder<MAX_TEXT>, name: &[u8]) -> Result<(), AppendError>
    requires { IsWire name.now }
    ensures { OnOk result (text.new ≡ text.old ++ dotted_text (labels_of name.now)) }
{
    let mut rest = name;
    while let Some((label, above)) = wire::split_first(rest) {
        text.append_slice(b".")?;
        for octet in label {
            put_octet(text, *octet)?;
        }
        rest = above;
    }
    Ok(())
}

/// Returns whether an octet prints as itself. Tests for lower case letters first.
#[tactic(auto, unfolding(crate::specs::Text::octet_text))]
fn is_ordinary(octet: u8) -> bool
    ensures { IsTrue result → octet_text octet ≡ octet ∷ [] }
{
    (octet > b'\\' && octet <= b'~') || (octet.is_ascii_graphic() && !is_special(octet))
}

/// Returns whether all octets of a label print as themselves.
fn is_ordinary_label(label: &[u8]) -> bool
    ensures { IsTrue result → label_text label.now ≡ label.now }
{
    for octet in label {
        if !is_ordinary(*octet) {
            return false;
        }
    }
    true
}

/// Replaces the length of each label and the root by dots, in a copy of a name's octets. Returns
/// false if an octet of a label does not print as itself.
#[tactic(auto, using(crate::proofs::TextLemmas::dotted_steps))]
fn put_dots(text: &mut [u8], name: &[u8]) -> bool
    requires name { IsWire name.now }
    requires copy { text.old ≡ name.now }
    ensures { IsTrue result → text.new ≡ dotted_text (labels_of name.now) ++ dot ∷ [] }
{
    let mut rest = name;
    while let Some((label, above)) = wire::split_first(rest) {
        if !is_ordinary_label(label) {
            return false;
        }
        text[name.len() - rest.len()] = b'.';
        rest = above;
    }
    text[name.len() - rest.len()] = b'.';
    true
}

/// Returns the printed form of a name, with a dot before each label and at its end, if all octets
/// of its labels print as themselves.
#[tactic(auto, using(crate::proofs::TextLemmas::dotted_ascii))]
fn dotted<'a>(name: &[u8], buffer: &'a mut [u8; MAX_NAME]) -> Option<&'a [u8]>
    requires { IsWire name.now }
    ensures text { IfSome result (λ text. text.now ≡ dotted_text (labels_of name.now)
        ++ dot ∷ []) }
    ensures ascii { IfSome result (λ text. IsAscii text.now) }
{
    let text = &mut buffer[..name.len()];
    text.copy_from_slice(name);
    if !put_dots(text, name) {
        return None;
    }
    Some(text)
}

/// Writes the labels, which may have any octets, with dots between them.
fn write_labels<W: fmt::Write>(name: &[u8], f: &mut fmt::Formatter<W>) -> fmt::Result
    requires { IsWire name.now }
    ensures { WritesOnOk W.write_str_gives f.old result (name_text (labels_of name.now)) f.new }
{
    let mut text = ArrayBuilder::new();
    if put_labels(&mut text, name).is_err() {
        return Err(fmt::Error);
    }
    match text.as_slice() {
        [_, text @ ..] => f.write_str(unsafe { str::from_utf8_unchecked(text) }),
        [] => Ok(()),
    }
}

/// Writes the labels with dots between them. The proof shows that the text is ASCII, so no test is
/// made at run time.
pub fn write_name<W: fmt::Write>(name: &[u8], f: &mut fmt::Formatter<W>) -> fmt::Result
    requires { IsWire name.now }
    ensures { WritesOnOk W.write_str_gives f.old result (name_text (labels_of name.now)) f.new }
{
    if let Some(text) = dotted(name, &mut [0; MAX_NAME]) {
        return match text {
            [_, text @ .., _] => f.write_str(unsafe { str::from_utf8_unchecked(text) }),
            _ => Ok(()),
        };
    }
    write_labels(name, f)
}

/// Writes the labels with a dot after each, and the root as a single dot. Writes all at once unless
/// an octet needs an escape.
pub fn write_dotted<W: fmt::Write>(name: &[u8], f: &mut fmt::Formatter<W>) -> fmt::Result
    requires { IsWire name.now }
    ensures { WritesOnOk W.write_str_gives f.old result
        (name_text (labels_of name.now) ++ dot ∷ []) f.new }
{
    if let Some(text) = dotted(name, &mut [0; MAX_NAME]) {
        return match text {
            [_, text @ ..] if !text.is_empty() => {
                f.write_str(unsafe { str::from_utf8_unchecked(text) })
            }
            _ => f.write_str("."),
        };
    }
    write_labels(name, f)?;
    f.write_str(".")
}
