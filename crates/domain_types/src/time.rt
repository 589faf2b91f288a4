//! The times of signatures, as tokens spell them (RFC 4034, section 3.2).
ghost use Rattle.std.specs.Prelude.{◌≡◌, ℕ, ◌+◌, ◌-◌, ◌*◌, ◌^◌, ◌≤◌, ◌↔◌, length, IsTrue, IfSome, IfNone};
ghost use Rattle.domain_octets.specs.Octets.{Octets};
ghost use Rattle.domain_types.specs.Spelling.{TimeField};
ghost use Rattle.domain_types.specs.Times.{is_leap_year, year_days, month_days, IsDateTime, days_to_year};
ghost use Rattle.domain_base.specs.Scan.{IsNumber};
ghost use Rattle.domain_types.specs.Times.{days_to_month, seconds_to, DateText, StampText};

use crate::spell::{Part, part_of};
use domain_svcb::number;

/// A date and a time of day.
#[derive(Clone, Copy)]
pub(crate) struct DateTime {
    /// The year.
    pub(crate) year: u32,
    /// The month, from 1 on.
    pub(crate) month: u32,
    /// The day of the month, from 1 on.
    pub(crate) day: u32,
    /// The hour, from 0 on.
    pub(crate) hour: u32,
    /// The minute, from 0 on.
    pub(crate) minute: u32,
    /// The second, from 0 on.
    pub(crate) second: u32,
}

/// Returns whether February has 29 days in a year.
fn is_leap_year(year: u32) -> bool
    ensures { result ≡ is_leap_year year }
{
    year % 4 == 0 && (year % 100 != 0 || year % 400 == 0)
}

/// Returns the days of a year.
fn year_days(year: u32) -> u64
    ensures value { result ≡ year_days year }
    ensures most { result ≤ 366 }
{
    if is_leap_year(year) { 366 } else { 365 }
}

/// Returns the days of each month of a year.
fn month_days(year: u32) -> [u32; 12]
    ensures { result ≡ month_days year }
{
    let february = if is_leap_year(year) { 29 } else { 28 };
    [31, february, 31, 30, 31, 30, 31, 31, 30, 31, 30, 31]
}

/// Returns the days from the start of 1970 to that of a year.
#[tactic(auto, using(std::proofs::lemmas::Grind::common_steps, crate::proofs::TimeLemmas::one_more_year))]
fn days_to_year(year: u32) -> u64
    requires { 1970 ≤ year }
    ensures value { result ≡ days_to_year year }
    ensures most { result ≤ 366 * 2 ^ 32 }
{
    let mut days = 0;
    for earlier in 1970..year {
        days += year_days(earlier);
    }
    days
}

/// Returns the days from the start of a year to that of a month.
fn days_to_month(year: u32, month: u32) -> u64
    requires first { 1 ≤ month }
    requires last { month ≤ 12 }
    ensures value { result ≡ days_to_month year month }
    ensures most { result ≤ 372 }
{
    let lengths = month_days(year);
    let mut days = 0;
    for length in &lengths[..month as usize - 1] {
        days += u64::from(*length);
    }
    days
}

/// Returns whether a date is in the calendar, from 1970 on.
fn is_date(date: DateTime) -> bool
    ensures { IsTrue result ↔ IsDateTime date }
{
    if date.year < 1970 || date.month < 1 || date.month > 12 {
        return false;
    }
    let last_day = month_days(date.year)[date.month as usize - 1];
    date.day >= 1
        && date.day <= last_day
        && date.hour <= 23
        && date.minute <= 59
        && date.second <= 60
}

/// Returns the seconds from the start of 1970 to a date.
fn seconds_to(date: DateTime) -> u64
    requires { IsDateTime date }
    ensures { result ≡ seconds_to date }
{
    let before = days_to_year(date.year) + days_to_month(date.year, date.month);
    let days = before + u64::from(date.day - 1);
    let minutes = (days * 24 + u64::from(date.hour)) * 60 + u64::from(date.minute);
    minutes * 60 + u64::from(date.second)
}

/// Returns the date that 14 digits spell.
fn read_date(text: &[u8]) -> Option<DateTime>
    ensures some { IfSome result (DateText text.now) }
    ensures none { IfNone result ((d : DateTime) → DateText text.now d → ⊥) }
{
    if text.len() != 14 {
        return None;
    }
    let Some(year) = number(&text[..4]) else {
        return None;
    };
    let Some(month) = number(&text[4..6]) else {
        return None;
    };
    let Some(day) = number(&text[6..8]) else {
        return None;
    };
    let Some(hour) = number(&text[8..10]) else {
        return None;
    };
    let Some(minute) = number(&text[10..12]) else {
        return None;
    };
    let Some(second) = number(&text[12..14]) else {
        return None;
    };
    Some(DateTime {
        year,
        month,
        day,
        hour,
        minute,
        second,
    })
}

/// Returns the number of seconds that a token spells, at most ten digits.
fn read_seconds(text: &[u8]) -> Option<u32>
    ensures some { IfSome result (λ n. (length text.now ≤ 10) × IsNumber 32 text.now n) }
    ensures none { IfNone result ((n : ℕ) → length text.now ≤ 10 → IsNumber 32 text.now n → ⊥) }
{
    if text.len() > 10 {
        return None;
    }
    number(text)
}

/// Returns the time that a token spells, modulo 2^32.
#[tactic(auto, using(crate::specs::Times::in_seconds))]
fn read_stamp(text: &[u8]) -> Option<u32>
    ensures some { IfSome result (StampText text.now) }
    ensures none { IfNone result ((n : ℕ) → StampText text.now n → ⊥) }
{
    if let Some(seconds) = read_seconds(text) {
        return Some(seconds);
    }
    let Some(date) = read_date(text) else {
        return None;
    };
    if !is_date(date) {
        return None;
    }
    Some((seconds_to(date) % 0x1_0000_0000) as u32)
}

/// Returns the four octets of the time that a token spells.
pub(crate) fn spell_time(text: &[u8]) -> Option<Part>
    ensures some { IfSome result (TimeField text.now) }
    ensures none { IfNone result ((octets : Octets) → TimeField text.now octets → ⊥) }
{
    let stamp = read_stamp(text)?;
    Some(part_of(&stamp.to_be_bytes()))
}
