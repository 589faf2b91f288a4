//! The flags of keys (RFC 4034, section 2.1.1; RFC 5011, section 3).
ghost use Rattle.std.specs.Prelude.{◌≡◌, Some};
ghost use Rattle.domain_keys.specs.Keys.{word_if, flags_comment};

use std::fmt;

/// Signatures of records may be checked with the key.
pub const ZONE_KEY: u16 = 0x0100;

/// The key is revoked.
pub const REVOKED: u16 = 0x0080;

/// Other zones may point to the key.
pub const SECURE_ENTRY_POINT: u16 = 0x0001;

/// A comment with the names of the flags that are set.
#[derive(Drop)]
pub struct FlagsComment(pub u16);

fn word_if<'a>(set: bool, word: &'a str) -> &'a str
    ensures { result.now ≡ word_if set word.now }
{
    if set { word } else { "" }
}

impl fmt::Display for FlagsComment {
    ghost output = { λ c. Some (flags_comment c.0) };

    fn fmt<W: fmt::Write>(&self, f: &mut fmt::Formatter<W>) -> fmt::Result {
        let flags = self.0;
        let revoked = word_if(flags & REVOKED != 0, " revoked");
        let entry_point = word_if(flags & SECURE_ENTRY_POINT != 0, " sep");
        let zone_key = word_if(flags & ZONE_KEY != 0, " zone_key");
        let none = word_if(flags == 0, " <none>");
        write!(f, "flags:{revoked}{entry_point}{zone_key}{none}")
    }
}
