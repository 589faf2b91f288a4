//! Locations, which tokens spell (RFC 1876, section 3).
ghost use Rattle.std.specs.Prelude.{◌≡◌, ℕ, ◌+◌, ◌*◌, ◌^◌, ◌++◌, ◌∷◌, ◌<◌, ◌≤◌, ◌⊎◌, [], false, length, map, drop, IfOk, IfErr, IfSome, IfNone, OnOk};
ghost use Rattle.std.specs.{Int.{w32, to_be_bytes}};
ghost use Rattle.domain_octets.specs.Octets.{Octets};
ghost use Rattle.domain_types.specs.Reading.{token_text, FirstToken, FirstTokenFault, SpellsStep};
ghost use Rattle.domain_types.specs.Reading.{SpellsSide, AngleEnd, AngleEndFault, AngleTexts};
ghost use Rattle.domain_types.specs.Reading.{AngleFault, SpellsAltitude, CanSide, CanStep};
ghost use Rattle.domain_types.specs.Reading.{LocationTokenFault, SpellsPrecision};
ghost use Rattle.domain_types.specs.Reading.{degrees, minutes, seconds, latitudes, longitudes};
ghost use Rattle.domain_types.specs.Reading.{PrecisionsTexts, PrecisionsFault, PositionTexts};
ghost use Rattle.domain_types.specs.Reading.{LocationTexts, LocationFault, default_precisions};
ghost use Rattle.domain_svcb.specs.Strings.{Grows};
ghost use Rattle.domain_types.specs.declared.field.Tail.TheVariants as tails;

use crate::field::Tail;
use crate::read::{append, first};
use crate::spell::{Part, part_of};
use crate::token::{DataFault, DataFaultKind, Token};
use domain_location::{altitude, decimal, precision};
use domain_octets::{Octets, OctetsBuilder};

/// The angle 0 on the wire.
const ZERO: u64 = 1 << 31;

/// A step of an angle: its degrees, minutes or seconds.
#[derive(Clone, Copy)]
pub(crate) struct Step {
    /// The number of digits after a point.
    places: usize,
    /// Its unit in thousandths of a second.
    unit: u64,
    /// The greatest number.
    most: u64,
}

/// The degrees of an angle.
const DEGREES: Step = Step {
    places: 0,
    unit: 3_600_000,
    most: 180,
};

/// The minutes of an angle.
const MINUTES: Step = Step {
    places: 0,
    unit: 60_000,
    most: 59,
};

/// The seconds of an angle, with up to three digits after a point.
const SECONDS: Step = Step {
    places: 3,
    unit: 1,
    most: 59_999,
};

/// An axis of angles.
#[derive(Clone, Copy)]
pub(crate) struct Axis {
    /// The greatest angle, in thousandths of a second.
    most: u64,
    /// The letter of the side that is counted up.
    positive: u8,
    /// The letter of the side that is counted down.
    negative: u8,
}

/// North and south.
const LATITUDES: Axis = Axis {
    most: 324_000_000,
    positive: b'N',
    negative: b'S',
};

/// East and west.
const LONGITUDES: Axis = Axis {
    most: 648_000_000,
    positive: b'E',
    negative: b'W',
};

/// An angle that tokens begin with.
#[derive(Clone, Copy)]
struct Angle {
    /// The angle on the wire.
    angle: u32,
    /// The number of its tokens.
    used: usize,
}

/// Returns the angle on the wire, if a token is the letter of a side.
fn side_of(axis: &Axis, total: u64, token: &Token<'_>) -> Option<u32>
    requires total { total ≤ 648000000 }
    requires unquoted { token.now.is_quoted ≡ false }
    ensures some { IfSome result (SpellsSide axis.now total (token_text token.now)) }
    ensures none { IfNone result ((angle : ℕ)
        → SpellsSide axis.now total (token_text token.now) angle → ⊥) }
{
    if token.octets == [axis.positive].as_slice() {
        return Some((ZERO + total) as u32);
    }
    if token.octets == [axis.negative].as_slice() {
        return Some((ZERO - total) as u32);
    }
    None
}

/// Returns the number of a step that a token is, if the sum stays within the axis.
fn number_of_step(axis: &Axis, step: &Step, total: u64, token: &Token<'_>) -> Option<u64>
    requires total { total ≤ 648000000 }
    requires small { (step.now.most ≤ 59999) × (step.now.places ≤ 3) × (step.now.unit ≤ 3600000) }
    requires unquoted { token.now.is_quoted ≡ false }
    ensures some { IfSome result (SpellsStep axis.now step.now total (token_text token.now)) }
    ensures none { IfNone result ((n : ℕ)
        → SpellsStep axis.now step.now total (token_text token.now) n → ⊥) }
{
    let Some(number) = decimal(step.most, step.places, token.octets) else {
        return None;
    };
    if total + step.unit * number > axis.most {
        return None;
    }
    Some(number)
}

/// Returns a fault of a token that is no part of a location.
fn no_part() -> DataFaultKind
    ensures { result ≡ DataFaultKind.NotTail tails.Coordinates }
{
    DataFaultKind::NotTail(Tail::Coordinates)
}

/// Returns the angle that ends with the letter of a side.
fn end_at_side(axis: &Axis, total: u64, tokens: &[Token<'_>]) -> Result<u32, DataFaultKind>
    requires total { total ≤ 648000000 }
    ensures ok { IfOk result (λ angle. FirstToken (λ token. SpellsSide axis.now total token angle)
        (map token_text tokens.now) (drop 1 (map token_text tokens.now))) }
    ensures some { IfOk result (λ _. 0 < length tokens.now) }
    ensures err { IfErr result (FirstTokenFault (LocationTokenFault (CanSide axis.now total))
        (map token_text tokens.now)) }
{
    if tokens.is_empty() {
        return Err(DataFaultKind::Missing);
    }
    if tokens[0].is_quoted {
        return Err(DataFaultKind::Quoted);
    }
    match side_of(axis, total, &tokens[0]) {
        Some(angle) => Ok(angle),
        None => Err(no_part()),
    }
}

/// Returns the angle that ends with the letter of a side, or with seconds and the letter.
fn end_at_seconds(axis: &Axis, total: u64, tokens: &[Token<'_>]) -> Result<Angle, DataFault>
    requires total { total ≤ axis.now.most }
    requires most { axis.now.most ≤ 648000000 }
    ensures ok { IfOk result (λ found. AngleEnd axis.now (seconds ∷ []) total
        (map token_text tokens.now) found.angle (drop found.used (map token_text tokens.now))) }
    ensures used { IfOk result (λ found. found.used ≤ length tokens.now) }
    ensures err { IfErr result (λ e. AngleEndFault axis.now (seconds ∷ []) total
        (map token_text tokens.now) e.token e.kind) }
    ensures place { IfErr result (λ e. e.token ≤ length tokens.now) }
{
    if tokens.is_empty() {
        return Err(first(DataFaultKind::Missing));
    }
    if tokens[0].is_quoted {
        return Err(first(DataFaultKind::Quoted));
    }
    if let Some(angle) = side_of(axis, total, &tokens[0]) {
        return Ok(Angle { angle, used: 1 });
    }
    let Some(number) = number_of_step(axis, &SECONDS, total, &tokens[0]) else {
        return Err(first(no_part()));
    };
    match end_at_side(axis, total + number, &tokens[1..]) {
        Ok(angle) => Ok(Angle { angle, used: 2 }),
        Err(kind) => Err(DataFault { token: 1, kind }),
    }
}

/// Returns the angle that ends with the letter of a side, or with minutes and what may follow them.
fn end_at_minutes(axis: &Axis, total: u64, tokens: &[Token<'_>]) -> Result<Angle, DataFault>
    requires total { total ≤ axis.now.most }
    requires most { axis.now.most ≤ 648000000 }
    ensures ok { IfOk result (λ found. AngleEnd axis.now (minutes ∷ seconds ∷ []) total
        (map token_text tokens.now) found.angle (drop found.used (map token_text tokens.now))) }
    ensures used { IfOk result (λ found. found.used ≤ length tokens.now) }
    ensures err { IfErr result (λ e. AngleEndFault axis.now (minutes ∷ seconds ∷ []) total
        (map token_text tokens.now) e.token e.kind) }
    ensures place { IfErr result (λ e. e.token ≤ length tokens.now) }
{
    if tokens.is_empty() {
        return Err(first(DataFaultKind::Missing));
    }
    if tokens[0].is_quoted {
        return Err(first(DataFaultKind::Quoted));
    }
    if let Some(angle) = side_of(axis, total, &tokens[0]) {
        return Ok(Angle { angle, used: 1 });
    }
    let Some(number) = number_of_step(axis, &MINUTES, total, &tokens[0]) else {
        return Err(first(no_part()));
    };
    match end_at_seconds(axis, total + 60_000 * number, &tokens[1..]) {
        Ok(found) => Ok(Angle {
            angle: found.angle,
            used: 1 + found.used,
        }),
        Err(fault) => Err(DataFault {
            token: 1 + fault.token,
            kind: fault.kind,
        }),
    }
}

/// Returns the number of degrees that the first token is.
fn first_degrees(axis: &Axis, tokens: &[Token<'_>]) -> Result<u64, DataFaultKind>
    ensures ok { IfOk result (λ n. FirstToken (λ token. SpellsStep axis.now degrees 0 token n)
        (map token_text tokens.now) (drop 1 (map token_text tokens.now))) }
    ensures within { IfOk result (λ n. 3600000 * n ≤ axis.now.most) }
    ensures some { IfOk result (λ _. 0 < length tokens.now) }
    ensures err { IfErr result (FirstTokenFault (LocationTokenFault (CanStep axis.now degrees 0))
        (map token_text tokens.now)) }
{
    if tokens.is_empty() {
        return Err(DataFaultKind::Missing);
    }
    if tokens[0].is_quoted {
        return Err(DataFaultKind::Quoted);
    }
    match number_of_step(axis, &DEGREES, 0, &tokens[0]) {
        Some(number) => Ok(number),
        None => Err(no_part()),
    }
}

/// Returns the angle that tokens begin with.
fn read_angle(axis: &Axis, tokens: &[Token<'_>]) -> Result<Angle, DataFault>
    requires most { axis.now.most ≤ 648000000 }
    ensures ok { IfOk result (λ found. AngleTexts axis.now (map token_text tokens.now) found.angle
        (drop found.used (map token_text tokens.now))) }
    ensures used { IfOk result (λ found. found.used ≤ length tokens.now) }
    ensures err { IfErr result (λ e.
        AngleFault axis.now (map token_text tokens.now) e.token e.kind) }
    ensures place { IfErr result (λ e. e.token ≤ length tokens.now) }
{
    let number = match first_degrees(axis, tokens) {
        Ok(number) => number,
        Err(kind) => return Err(first(kind)),
    };
    match end_at_minutes(axis, 3_600_000 * number, &tokens[1..]) {
        Ok(found) => Ok(Angle {
            angle: found.angle,
            used: 1 + found.used,
        }),
        Err(fault) => Err(DataFault {
            token: 1 + fault.token,
            kind: fault.kind,
        }),
    }
}

/// Returns the altitude that the first token is.
fn first_altitude(tokens: &[Token<'_>]) -> Result<u32, DataFaultKind>
    ensures ok { IfOk result (λ n. FirstToken (λ token. SpellsAltitude token n)
        (map token_text tokens.now) (drop 1 (map token_text tokens.now))) }
    ensures some { IfOk result (λ _. 0 < length tokens.now) }
    ensures err { IfErr result (FirstTokenFault (LocationTokenFault (λ token.
        (n : ℕ) × SpellsAltitude token n)) (map token_text tokens.now)) }
{
    if tokens.is_empty() {
        return Err(DataFaultKind::Missing);
    }
    if tokens[0].is_quoted {
        return Err(DataFaultKind::Quoted);
    }
    match altitude(tokens[0].octets) {
        Some(number) => Ok(number),
        None => Err(no_part()),
    }
}

/// A latitude, a longitude and an altitude on the wire.
#[derive(Clone, Copy)]
struct Position {
    /// The latitude.
    latitude: u32,
    /// The longitude.
    longitude: u32,
    /// The altitude.
    altitude: u32,
    /// The number of their tokens.
    used: usize,
}

/// Returns the latitude, the longitude and the altitude that tokens begin with.
fn read_position(tokens: &[Token<'_>]) -> Result<Position, DataFault>
    ensures ok { IfOk result (λ found. PositionTexts (map token_text tokens.now) found.latitude
        found.longitude found.altitude (drop found.used (map token_text tokens.now))) }
    ensures used { IfOk result (λ found. found.used ≤ length tokens.now) }
    ensures err { IfErr result (λ e.
        LocationFault (map token_text tokens.now) e.token e.kind) }
    ensures place { IfErr result (λ e. e.token ≤ length tokens.now) }
{
    let north = match read_angle(&LATITUDES, tokens) {
        Ok(north) => north,
        Err(fault) => return Err(fault),
    };
    let east = match read_angle(&LONGITUDES, &tokens[north.used..]) {
        Ok(east) => east,
        Err(fault) => {
            let token = north.used + fault.token;
            return Err(DataFault {
                token,
                kind: fault.kind,
            });
        }
    };
    let used = north.used + east.used;
    match first_altitude(&tokens[used..]) {
        Ok(altitude) => Ok(Position {
            latitude: north.angle,
            longitude: east.angle,
            altitude,
            used: used + 1,
        }),
        Err(kind) => Err(DataFault { token: used, kind }),
    }
}

/// Returns the size or precision that a token is.
fn precision_of(token: &Token<'_>) -> Result<u8, DataFaultKind>
    ensures ok { IfOk result (SpellsPrecision (token_text token.now)) }
    ensures err { IfErr result (LocationTokenFault (λ t. (octet : ℕ) × SpellsPrecision t octet)
        (token_text token.now)) }
{
    if token.is_quoted {
        return Err(DataFaultKind::Quoted);
    }
    match precision(token.octets) {
        Some(octet) => Ok(octet),
        None => Err(no_part()),
    }
}

/// Appends the precisions that tokens are, and the defaults of those that are missing.
fn put_precisions(defaults: &[u8], tokens: &[Token<'_>], part: &mut Part) -> Result<(), DataFault>
    requires { length part.old + length defaults.now ≤ 256 }
    ensures ok { OnOk result ((octets : Octets)
        × PrecisionsTexts defaults.now (map token_text tokens.now) octets
        × (length octets ≡ length defaults.now) × (part.new ≡ part.old ++ octets)) }
    ensures err { IfErr result (λ e.
        PrecisionsFault defaults.now (map token_text tokens.now) e.token e.kind) }
    ensures place { IfErr result (λ e. e.token ≤ length tokens.now) }
{
    let Some((token, more)) = tokens.split_first() else {
        put_part(part, defaults);
        return Ok(());
    };
    let Some((_, others)) = defaults.split_first() else {
        return Err(first(DataFaultKind::Extra));
    };
    let octet = match precision_of(token) {
        Ok(octet) => octet,
        Err(kind) => return Err(first(kind)),
    };
    put_part(part, &[octet]);
    match put_precisions(others, more, part) {
        Ok(()) => Ok(()),
        Err(fault) => Err(DataFault {
            token: 1 + fault.token,
            kind: fault.kind,
        }),
    }
}

/// Appends octets to a part.
fn put_part(part: &mut Part, octets: &[u8])
    requires { length part.old + length octets.now ≤ 256 }
    ensures { part.new ≡ part.old ++ octets.now }
{
    let Ok(()) = part.append_slice(octets) else {
        unreachable!();
    };
}

/// Appends the location that tokens spell.
pub(crate) fn put_location(tokens: &[Token<'_>], out: &mut Vec<u8>) -> Result<(), DataFault>
    ensures ok { OnOk result ((part : Octets) × LocationTexts (map token_text tokens.now) part
        × (out.new.items ≡ out.old.items ++ part)) }
    ensures err { IfErr result (λ e.
        LocationFault (map token_text tokens.now) e.token e.kind) }
    ensures place { IfErr result (λ e. e.token ≤ length tokens.now) }
    ensures grows { Grows out.old.items out.new.items }
{
    let found = match read_position(tokens) {
        Ok(found) => found,
        Err(fault) => return Err(fault),
    };
    let mut part = part_of(&[0]);
    if let Err(fault) = put_precisions(&[0x12, 0x16, 0x13], &tokens[found.used..], &mut part) {
        return Err(DataFault {
            token: found.used + fault.token,
            kind: fault.kind,
        });
    }
    put_part(&mut part, &found.latitude.to_be_bytes());
    put_part(&mut part, &found.longitude.to_be_bytes());
    put_part(&mut part, &found.altitude.to_be_bytes());
    match append(part.as_slice(), out) {
        Ok(()) => Ok(()),
        Err(fault) => Err(fault),
    }
}
