//! Numbers that may have a name.
ghost use Rattle.std.specs.Prelude.{◌≡◌, ◌<◌, ℕ, length, IfSome, IfNone, MatchOption};
ghost use Rattle.std.specs.{Option.option_map, Str.IsAscii, Fmt.WritesOnOk};
ghost use Rattle.domain_base.specs.Numbers.{entries, number_named, name_of, HasPrefix, IsWithoutPrefix};
ghost use Rattle.domain_base.specs.Numbers.{NumberText, number_text};

use crate::FromToken;
use std::fmt;

/// Returns the number of a name in the table, in either case.
#[tactic(auto, using(crate::proofs::TextLemmas::same_yes, crate::proofs::TextLemmas::same_no, std::proofs::lemmas::List::drop_more))]
pub fn number_named(table: &[(u16, &str)], text: &str) -> Option<u16>
    ensures { result ≡ number_named (entries table.now) text.now }
{
    for (number, name) in table {
        if name.eq_ignore_ascii_case(text) {
            return Some(*number);
        }
    }
    None
}

/// Returns the name of a number in the table.
pub fn name_of<'a>(table: &[(u16, &'a str)], number: u16) -> Option<&'a str>
    ensures { option_map (λ name. name.now) result ≡ name_of (entries table.now) number }
{
    for (known, name) in table {
        if *known == number {
            return Some(name);
        }
    }
    None
}

/// Returns the text after the prefix, in either case, or None if the text does not begin with it.
fn after_prefix<'a>(text: &'a str, prefix: &str) -> Option<&'a str>
    requires ascii { IsAscii prefix.now }
    requires some { 0 < length prefix.now }
    ensures { MatchOption result (IsWithoutPrefix prefix.now text.now) (λ rest.
        HasPrefix prefix.now text.now rest.now) }
{
    let Some((front, rest)) = text.split_at_checked(prefix.len()) else {
        return None;
    };
    if !front.eq_ignore_ascii_case(prefix) {
        return None;
    }
    Some(rest)
}

/// Returns the number that a text spells: by its name, or by the prefix and decimal digits.
#[tactic(auto, using(crate::specs::Numbers::by_name, crate::specs::Numbers::by_number, crate::proofs::TextLemmas::no_number, crate::proofs::TextLemmas::no_digits))]
pub fn read_number(table: &[(u16, &str)], prefix: &str, text: &str) -> Option<u16>
    requires ascii { IsAscii prefix.now }
    requires some { 0 < length prefix.now }
    ensures some { IfSome result (NumberText (entries table.now) prefix.now text.now) }
    ensures none { IfNone result ((n : ℕ) → NumberText (entries table.now) prefix.now text.now n
        → ⊥) }
{
    if let Some(number) = number_named(table, text) {
        return Some(number);
    }
    let digits = after_prefix(text, prefix)?;
    u16::from_token(digits).ok()
}

/// Writes the name of a number, or the prefix and the number in decimal digits.
pub fn write_number<W: fmt::Write>(
    table: &[(u16, &str)],
    prefix: &str,
    number: u16,
    f: &mut fmt::Formatter<W>,
) -> fmt::Result
    ensures { WritesOnOk W.write_str_gives f.old result
        (number_text (entries table.now) prefix.now number) f.new }
{
    match name_of(table, number) {
        Some(name) => f.write_str(name),
        None => write!(f, "{prefix}{number}"),
    }
}
