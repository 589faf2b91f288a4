//! Dates, which zone files may have in RRSIG data in place of seconds (RFC 4034, section 3.2).

/// The seconds of a day.
const DAY: u64 = 86400;

/// Returns the number that decimal digits spell, or `None` if an octet is not a digit.
fn value_of(digits: &[u8]) -> Option<u64> {
    let mut number: u64 = 0;
    for octet in digits {
        if !octet.is_ascii_digit() {
            return None;
        }
        let digit = u64::from(octet.saturating_sub(b'0'));
        number = number.saturating_mul(10).saturating_add(digit);
    }
    Some(number)
}

/// Returns whether a year has a leap day.
fn is_leap(year: u64) -> bool {
    year % 4 == 0 && (year % 100 != 0 || year % 400 == 0)
}

/// Returns the number of days of a month, which is from 1 to 12.
fn days_of_month(year: u64, month: u64) -> u64 {
    match month {
        2 if is_leap(year) => 29,
        2 => 28,
        4 | 6 | 9 | 11 => 30,
        _ => 31,
    }
}

/// Returns the number of leap days before a year, counted from the year 1.
fn leap_days_before(year: u64) -> u64 {
    let last = year.saturating_sub(1);
    (last / 4)
        .saturating_sub(last / 100)
        .saturating_add(last / 400)
}

/// Returns the number of days from the start of 1970 to a date, or `None` if there is no such date
/// or it is before 1970.
fn days_before(year: u64, month: u64, day: u64) -> Option<u64> {
    if year < 1970 || month < 1 || month > 12 {
        return None;
    }
    if day < 1 || day > days_of_month(year, month) {
        return None;
    }
    let leap_days = leap_days_before(year).saturating_sub(leap_days_before(1970));
    let mut days = year
        .saturating_sub(1970)
        .saturating_mul(365)
        .saturating_add(leap_days);
    for earlier in 1..month {
        days = days.saturating_add(days_of_month(year, earlier));
    }
    Some(days.saturating_add(day.saturating_sub(1)))
}

/// Returns the seconds of a day before a time of it, or `None` if there is no such time.
fn seconds_before(hour: u64, minute: u64, second: u64) -> Option<u64> {
    if hour > 23 || minute > 59 || second > 59 {
        return None;
    }
    let minutes = hour.saturating_mul(60).saturating_add(minute);
    Some(minutes.saturating_mul(60).saturating_add(second))
}

/// Returns the seconds since the start of 1970 of a date in the form YYYYMMDDHHmmSS (RFC 4034,
/// section 3.2). Returns `None` if the word is not a date or has no number of 32 bits.
pub fn seconds_of_date(word: &str) -> Option<u32> {
    let octets = word.as_bytes();
    if octets.len() != 14 {
        return None;
    }
    let (year, month) = (value_of(&octets[..4])?, value_of(&octets[4..6])?);
    let day = value_of(&octets[6..8])?;
    let (hour, minute) = (value_of(&octets[8..10])?, value_of(&octets[10..12])?);
    let second = value_of(&octets[12..])?;
    let days = days_before(year, month, day)?;
    let seconds = seconds_before(hour, minute, second)?;
    u32::try_from(days.saturating_mul(DAY).saturating_add(seconds)).ok()
}
