//! Dates and clocks.

use crate::digits::{number_of, signed};
use crate::seconds::read_seconds;
use jiff_core::civil::Date;

/// Whether this is a date, as `2024-03-01`, in the calendar or not.
pub(super) fn is_date(text: &[u8]) -> bool {
    has_form(text, b"0000-00-00")
}

/// Whether this is a clock, as `12:34:56.789`, with three digits or more after the point, of the day or not.
pub(super) fn is_clock(text: &[u8]) -> bool {
    let (clock, decimals) = text.split_at(text.len().min(9));
    has_form(clock, b"00:00:00.")
        && decimals.len() >= 3
        && decimals.iter().all(|byte| byte.is_ascii_digit())
}

/// Whether a text has a digit where the form has a 0, and elsewhere what the form has.
fn has_form(text: &[u8], form: &[u8]) -> bool {
    let fits = |(byte, of): (&u8, &u8)| if *of == b'0' {
        byte.is_ascii_digit()
    } else {
        byte == of
    };
    text.len() == form.len() && text.iter().zip(form).all(fits)
}

/// The number that a clock or a date has from one place up to another.
fn number_in(text: &[u8], from: usize, to: usize) -> u64 {
    number_of(text.get(from..to).unwrap_or(b""))
}

/// The microseconds of a clock since midnight; none where a day has no such time.
pub(super) fn since_midnight(clock: &[u8]) -> Option<i64> {
    let (hours, minutes) = (number_in(clock, 0, 2), number_in(clock, 3, 5));
    if hours > 23 || minutes > 59 || number_in(clock, 6, 8) > 59 {
        return None;
    }
    let minutes = signed(hours * 60 + minutes);
    let seconds_us = read_seconds(clock.get(6..)?)?;
    Some(
        minutes
            .saturating_mul(60_000_000)
            .saturating_add(seconds_us),
    )
}

/// A day's number in the calendar; none where there is no such day.
pub(super) fn day_number(date: &[u8]) -> Option<i64> {
    let year = i16::try_from(number_in(date, 0, 4)).ok()?;
    let month = i8::try_from(number_in(date, 5, 7)).ok()?;
    let day = i8::try_from(number_in(date, 8, 10)).ok()?;
    let date = Date::new(year, month, day).ok()?;
    Some(i64::from(date.to_unix_epoch_day()))
}
