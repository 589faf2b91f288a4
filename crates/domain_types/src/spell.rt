//! The presentation format of fields: the octets that a token spells (RFC 1035, section 5.1).
ghost use Rattle.std.specs.Prelude.{◌≡◌, None, ◌≤◌, ◌++◌, ◌∷◌, [], ℕ, ◌<◌, fold, length, drop, IfOk, IfErr, IfSome, IfNone, OnSome, IsTrue, ◌↔◌, ◌≢◌};
ghost use Rattle.std.specs.{Int.{w16, w32, to_be_bytes}};
ghost use Rattle.domain_octets.specs.{Octets.Octets, Text.at_sign};
ghost use Rattle.domain_base.specs.Scan.{IsNumber};
ghost use Rattle.domain_names.specs.{Name.{wire_of, IsName}, Text.{NameText, NameTextFault, scan_fault_of}, Wire.{IsWire, labels_of}};
ghost use Rattle.domain_types.specs.Spelling.{going_on, ends_in_dot, NameField, NameToken};
ghost use Rattle.domain_types.specs.Spelling.{ByteText, LimitedText, ShortText, LongText, TypeField, TagText};
ghost use Rattle.domain_types.specs.Addresses.{LongAddressText};
ghost use Rattle.domain_types.specs.Spelling.{StringField, PlainText, FieldSpelling};
ghost use Rattle.domain_types.specs.Spelling.{PeriodField};
ghost use Rattle.domain_svcb.specs.Strings.{SpellsNothing, StringText};
ghost use Rattle.std.specs.Net.Grammar.{IsDotted};

use crate::address::{spell_eui, spell_locator};
use crate::field::Field;
use crate::hashed::{spell_hash, spell_salt};
use crate::lookup::rtype_of;
use crate::measure::are_letters;
use crate::named::{
    algorithms, certificates, schemes, spell_byte_or_mnemonic, spell_short_or_mnemonic,
};
use crate::prefix::spell_prefix;
use crate::time::spell_time;
use crate::ttl::{TtlText, read_ttl};
use domain_base::{MAX_NAME, Name, ParsedName, ScanError, ToName};
use domain_octets::{ArrayBuilder, Octets, OctetsBuilder, SmallOctets};
use domain_svcb::{SpellFault, number, string_octet};
use std::alloc::Global;
use std::net::{Ipv4Addr, Ipv6Addr};

/// The octets of one field, at most 256.
pub(crate) type Part = ArrayBuilder<256>;

/// The greatest number of octets of a string (RFC 1035, section 3.3).
pub(crate) const MAX_STRING: usize = 255;

/// How the text of a name goes on.
#[derive(Clone, Copy)]
pub(crate) enum Going {
    /// In a label.
    Inside,
    /// After a backslash.
    Escaped,
    /// After a dot.
    AfterDot,
}

/// Returns a part with these octets.
pub(crate) fn part_of(octets: &[u8]) -> Part
    requires { length octets.now ≤ 256 }
    ensures { result ≡ octets.now }
{
    let mut part = Part::new();
    let Ok(()) = part.append_slice(octets) else {
        unreachable!();
    };
    part
}

/// Returns how a text goes on after one more character.
fn going_on(going: Going, c: u8) -> Going
    ensures { result ≡ going_on going c }
{
    match going {
        Going::Escaped => Going::Inside,
        _ if c == b'\\' => Going::Escaped,
        _ if c == b'.' => Going::AfterDot,
        _ => Going::Inside,
    }
}

/// Returns whether a text ends in a dot that no backslash escapes, seen from its beginning.
fn goes_on_after_dot(text: &[u8]) -> bool
    ensures { result ≡ ends_in_dot text.now }
{
    let mut going = Going::Inside;
    for c in text {
        going = going_on(going, *c);
    }
    matches!(going, Going::AfterDot)
}

/// Returns whether a text ends in a dot that no backslash escapes. Its last two octets tell, unless
/// the first of them is a backslash.
#[tactic(auto, using(std::proofs::lemmas::Grind::common_steps, crate::proofs::DotLemmas::last_dot))]
fn ends_in_dot(text: &[u8]) -> bool
    ensures { result ≡ ends_in_dot text.now }
{
    let len = text.len();
    if len < 2 || text[len - 2] == b'\\' {
        return goes_on_after_dot(text);
    }
    text[len - 1] == b'.'
}

/// Returns the wire form of a name and the origin after it, if it has at most 255 octets.
#[tactic(auto, using(crate::proofs::SpellLemmas::joined_steps))]
fn join(own: &[u8], origin: &[u8]) -> Option<Part>
    requires own { IsWire own.now }
    requires origin { IsWire origin.now }
    ensures some { IfSome result (λ part. part
        ≡ wire_of (labels_of own.now ++ labels_of origin.now)) }
    ensures valid { IfSome result (λ _. IsName (labels_of own.now ++ labels_of origin.now)) }
    ensures none { IfNone result (IsName (labels_of own.now ++ labels_of origin.now) → ⊥) }
{
    let labels = &own[..own.len() - 1];
    if labels.len() + origin.len() > MAX_NAME {
        return None;
    }
    let mut part = part_of(labels);
    let Ok(()) = part.append_slice(origin) else {
        unreachable!();
    };
    Some(part)
}

/// Returns the fault of a token for an error of reading a name.
fn fault_of(error: ScanError) -> SpellFault
    ensures { (text : Octets) → NameTextFault None (scan_fault_of error) text
        → SpellsNothing (NameText text) result }
{
    match error {
        ScanError::OutOfMemory => SpellFault::OutOfMemory,
        _ => SpellFault::Invalid,
    }
}

/// Returns the name that a text spells, absolute or not.
fn read_name(alloc: Global, text: &[u8]) -> Result<Name<SmallOctets>, SpellFault>
    ensures ok { IfOk result (NameText text.now) }
    ensures err { IfErr result (SpellsNothing (NameText text.now)) }
{
    match str::from_utf8(text) {
        Ok(text) => Name::from_str(alloc, text).map_err(fault_of),
        Err(_) => Err(SpellFault::Invalid),
    }
}

/// Returns whether a text is the mark of the origin.
fn is_at(text: &[u8]) -> bool
    ensures { IsTrue result ↔ (text.now ≡ at_sign ∷ []) }
{
    text == b"@".as_slice()
}

/// Returns the octets of a name that a text spells, with the origin after it unless the text ends
/// in a dot.
#[tactic(auto, using(std::proofs::lemmas::Grind::common_steps, crate::specs::Spelling::absolute, crate::specs::Spelling::relative, crate::proofs::SpellLemmas::no_other_name, crate::proofs::NameLemmas::wire_is, crate::proofs::NameLemmas::labels_are))]
fn place_name(text: &[u8], name: &[u8], origin: &[u8]) -> Option<Part>
    requires name { IsWire name.now }
    requires origin { IsWire origin.now }
    requires text { NameText text.now (labels_of name.now) }
    requires other { text.now ≢ at_sign ∷ [] }
    ensures some { IfSome result (NameField (labels_of origin.now) text.now) }
    ensures wire { IfSome result (λ part. IsWire part) }
    ensures name { IfSome result (λ part.
        NameToken (labels_of origin.now) text.now (labels_of part)) }
    ensures none { IfNone result ((octets : Octets)
        → NameField (labels_of origin.now) text.now octets → ⊥) }
{
    if ends_in_dot(text) {
        return Some(part_of(name));
    }
    match join(name, origin) {
        Some(part) => Some(part),
        None => None,
    }
}

/// Returns the octets of the name that a token spells.
#[tactic(auto, using(std::proofs::lemmas::Grind::common_steps, crate::specs::Spelling::at_origin, crate::proofs::SpellLemmas::no_name_text))]
pub(crate) fn spell_name(
    alloc: Global,
    text: &[u8],
    origin: &ParsedName<'_>,
) -> Result<Part, SpellFault>
    ensures ok { IfOk result (NameField origin.now text.now) }
    ensures wire { IfOk result (λ part. IsWire part) }
    ensures name { IfOk result (λ part. NameToken origin.now text.now (labels_of part)) }
    ensures err { IfErr result (SpellsNothing (NameField origin.now text.now)) }
{
    if is_at(text) {
        return Ok(part_of(origin.as_wire()));
    }
    let name = read_name(alloc, text)?;
    match place_name(text, name.as_wire(), origin.as_wire()) {
        Some(part) => Ok(part),
        None => Err(SpellFault::Invalid),
    }
}

/// Returns the octets of the string that a text spells, if it has at most 255.
#[tactic(auto, using(domain_svcb::proofs::StringLemmas::string_steps))]
fn read_string(text: &[u8]) -> Option<ArrayBuilder<MAX_STRING>>
    ensures some { IfSome result (λ string. StringText text.now string × (length string ≤ 255)) }
    ensures none { IfNone result ((string : Octets) → StringText text.now string
        → 255 < length string) }
{
    let mut string = ArrayBuilder::new();
    let mut rest = text;
    'octets: while let Some((octet, used)) = string_octet(rest) {
        if string.as_slice().len() >= MAX_STRING {
            return None;
        }
        let Ok(()) = string.append_slice(&[octet]) else {
            unreachable!();
        };
        rest = &rest[used..];
    }
    if rest.is_empty() { Some(string) } else { None }
}

/// Returns 1 to 255 letters and digits after their length, if a text is nothing else.
fn spell_tag(text: &[u8]) -> Option<Part>
    ensures some { IfSome result (TagText text.now) }
    ensures none { IfNone result ((octets : Octets) → TagText text.now octets → ⊥) }
{
    if text.is_empty() || text.len() > MAX_STRING || !are_letters(text) {
        return None;
    }
    Some(counted(text))
}

/// Returns octets after their length.
pub(crate) fn counted(octets: &[u8]) -> Part
    requires { length octets.now ≤ 255 }
    ensures { result ≡ length octets.now ∷ octets.now }
{
    let mut part = part_of(&[octets.len() as u8]);
    let Ok(()) = part.append_slice(octets) else {
        unreachable!();
    };
    part
}

/// Returns the octets of the string that a token spells, after their length.
fn spell_string(text: &[u8]) -> Option<Part>
    ensures some { IfSome result (StringField text.now) }
    ensures none { IfNone result ((octets : Octets) → StringField text.now octets → ⊥) }
{
    match read_string(text) {
        Some(string) => Some(counted(string.as_slice())),
        None => None,
    }
}

/// Returns the octet of the number that a token spells.
fn spell_byte(text: &[u8]) -> Option<Part>
    ensures some { IfSome result (ByteText text.now) }
    ensures none { IfNone result ((octets : Octets) → ByteText text.now octets → ⊥) }
{
    let number = u8::try_from(number(text)?).ok()?;
    Some(part_of(&[number]))
}

/// Returns the octet of the number up to a limit that a token spells.
fn spell_limited(limit: u8, text: &[u8]) -> Option<Part>
    ensures some { IfSome result (LimitedText limit text.now) }
    ensures none { IfNone result ((octets : Octets) → LimitedText limit text.now octets → ⊥) }
{
    let number = u8::try_from(number(text)?).ok()?;
    if number <= limit {
        Some(part_of(&[number]))
    } else {
        None
    }
}

/// Returns the two octets of the number that a token spells.
fn spell_short(text: &[u8]) -> Option<Part>
    ensures some { IfSome result (ShortText text.now) }
    ensures none { IfNone result ((octets : Octets) → ShortText text.now octets → ⊥) }
{
    let number = u16::try_from(number(text)?).ok()?;
    Some(part_of(&number.to_be_bytes()))
}

/// Returns the four octets of the number that a token spells.
fn spell_long(text: &[u8]) -> Option<Part>
    ensures some { IfSome result (LongText text.now) }
    ensures none { IfNone result ((octets : Octets) → LongText text.now octets → ⊥) }
{
    let number = number(text)?;
    Some(part_of(&number.to_be_bytes()))
}

/// Returns the four octets of the period that a token spells.
fn spell_period(text: &[u8]) -> Option<Part>
    ensures some { IfSome result (PeriodField text.now) }
    ensures none { IfNone result ((octets : Octets) → PeriodField text.now octets → ⊥) }
{
    match read_ttl(text) {
        TtlText::Seconds(seconds) => Some(part_of(&seconds.to_be_bytes())),
        _ => None,
    }
}

/// Returns the two octets of the type that a token spells.
fn spell_type(text: &[u8]) -> Option<Part>
    ensures some { IfSome result (TypeField text.now) }
    ensures none { IfNone result ((octets : Octets) → TypeField text.now octets → ⊥) }
{
    let number = rtype_of(text)?.to_int();
    Some(part_of(&number.to_be_bytes()))
}

/// Returns the octets of the IPv4 address that a token spells.
pub(crate) fn spell_ipv4(text: &[u8]) -> Option<Part>
    ensures some { IfSome result (IsDotted text.now) }
    ensures none { IfNone result ((octets : Octets) → IsDotted text.now octets → ⊥) }
{
    match Ipv4Addr::parse_ascii(text) {
        Ok(address) => Some(part_of(&address.octets())),
        Err(_) => None,
    }
}

/// Returns the octets of the IPv6 address that a token spells.
pub(crate) fn spell_ipv6(text: &[u8]) -> Option<Part>
    ensures some { IfSome result (LongAddressText text.now) }
    ensures none { IfNone result ((octets : Octets) → LongAddressText text.now octets → ⊥) }
{
    match Ipv6Addr::parse_ascii(text) {
        Ok(address) => Some(part_of(&address.octets())),
        Err(_) => None,
    }
}

/// Returns the octets of the field that a token spells, for the kinds that are no names.
fn spell_plain(alloc: Global, field: Field, text: &[u8]) -> Option<Part>
    ensures some { IfSome result (PlainText field text.now) }
    ensures none { IfNone result ((octets : Octets) → PlainText field text.now octets → ⊥) }
{
    match field {
        Field::Number8 => spell_byte(text),
        Field::Algorithm => spell_byte_or_mnemonic(algorithms(), text),
        Field::Scheme => spell_byte_or_mnemonic(schemes(), text),
        Field::Number16 => spell_short(text),
        Field::CertificateType => spell_short_or_mnemonic(certificates(), text),
        Field::Number32 => spell_long(text),
        Field::Flag => spell_limited(1, text),
        Field::GatewayType => spell_limited(3, text),
        Field::Time => spell_time(text),
        Field::Period => spell_period(text),
        Field::RecordType => spell_type(text),
        Field::Ipv4 => spell_ipv4(text),
        Field::Ipv6 => spell_ipv6(text),
        Field::CharacterString => spell_string(text),
        Field::Tag => spell_tag(text),
        Field::Salt => spell_salt(alloc, text),
        Field::HashedOwner => spell_hash(alloc, text),
        Field::Locator64 => spell_locator(text),
        Field::Eui48 => spell_eui(6, text),
        Field::Eui64 => spell_eui(8, text),
        Field::Prefix => spell_prefix(text),
        _ => None,
    }
}

/// Returns the octets of the field that a token spells.
pub(crate) fn spell(
    alloc: Global,
    field: Field,
    text: &[u8],
    origin: &ParsedName<'_>,
) -> Result<Part, SpellFault>
    ensures ok { IfOk result (FieldSpelling origin.now field text.now) }
    ensures err { IfErr result (SpellsNothing (FieldSpelling origin.now field text.now)) }
{
    match field {
        Field::LoweredName | Field::Name => spell_name(alloc, text, origin),
        _ => match spell_plain(alloc, field, text) {
            Some(part) => Ok(part),
            None => Err(SpellFault::Invalid),
        },
    }
}
