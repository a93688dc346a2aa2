//! The stamps of a log: seconds, clocks, dates and clocks, or counters, of one form in the whole log.

use super::calendar::{day_number, is_clock, is_date, since_midnight};
use crate::digits::{number_of, signed};
use crate::seconds::read_seconds;

/// A day, in microseconds.
const DAY_US: i64 = 86_400_000_000;

/// What a counter counts.
#[derive(Clone, Copy, PartialEq, Eq)]
pub(super) enum Unit {
    Milliseconds,
    Microseconds,
}

/// Why a line is refused when it is read.
#[derive(Clone, Copy, PartialEq, Eq)]
pub(super) enum LineFault {
    /// It has no byte.
    Unknown,
    NoMilliseconds,
    NoMicroseconds,
    NoSeconds,
    NoClock,
    OtherForm,
    NoTimeOfDay,
    NoDay,
    /// A clock alone tells no day, so that one that falls back has gone past midnight or was set.
    ClockFallsBack,
    DayBeforeFirst,
    /// Live, its time is before that of the line before.
    Earlier,
}

impl LineFault {
    /// What is wrong, before the line is shown.
    pub(super) fn text(self) -> &'static str {
        match self {
            LineFault::Unknown => "unknown line: ",
            LineFault::NoMilliseconds => "no whole number of milliseconds: ",
            LineFault::NoMicroseconds => "no whole number of microseconds: ",
            LineFault::NoSeconds => "no time in seconds: ",
            LineFault::NoClock => "no clock of the form 12:34:56.789: ",
            LineFault::OtherForm => "a stamp of another form than the line before: ",
            LineFault::NoTimeOfDay => "no time of day: ",
            LineFault::NoDay => "no day of the calendar: ",
            LineFault::ClockFallsBack => "a clock without a date falls back: ",
            LineFault::DayBeforeFirst => "a day before the first line's: ",
            LineFault::Earlier =>
                "a time before the line before, which --live can't put in its place: ",
        }
    }
}

/// A stamp, without the brackets that it may stand in.
#[derive(Clone, Copy)]
pub(super) struct Stamp<'a> {
    /// The date before the clock, with its bracket where that is not closed.
    date: Option<&'a [u8]>,
    rest: &'a [u8],
}

/// The form of a stamp.
#[derive(Clone, Copy, PartialEq, Eq)]
enum Form {
    Seconds,
    Clock,
    /// A date and a clock.
    Date,
}

/// What was read of a log's stamps. Times count from the beginning of the first line's day.
#[derive(Clone, Copy, Drop)]
pub(super) struct Stamps {
    form: Option<Form>,
    first_day: Option<i64>,
    clock_us: i64,
}

impl<'a> Stamp<'a> {
    /// One that is a single field, in which a `T` may part a date from its clock.
    pub(super) fn of_one(field: &'a [u8]) -> Stamp<'a> {
        let bare = match field {
            [b'[', bare @ .., b']'] if bare.contains(&b':') => bare,
            field => field,
        };
        let (date, rest) = bare.split_at(bare.len().min(10));
        match rest {
            [b'T', clock @ ..] if is_date(date) => Stamp {
                date: Some(date),
                rest: clock,
            },
            _ => Stamp {
                date: None,
                rest: bare,
            },
        }
    }

    /// One whose date and clock are two fields.
    pub(super) fn of_two(date: &'a [u8], clock: &'a [u8]) -> Stamp<'a> {
        let (date, rest) = match (date, clock) {
            ([b'[', bare @ ..], [rest @ .., b']']) if rest.contains(&b':') => (bare, rest),
            as_they_are => as_they_are,
        };
        Stamp {
            date: Some(date),
            rest,
        }
    }

    /// Whether it has a point.
    pub(super) fn has_point(self) -> bool {
        self.rest.contains(&b'.')
    }

    /// Its form.
    fn form(self) -> Result<Form, LineFault> {
        let form = match self.date {
            Some(date) if is_date(date) && is_clock(self.rest) => Some(Form::Date),
            Some(_) => None,
            None if is_clock(self.rest) => Some(Form::Clock),
            None if is_unsigned_seconds(self.rest) => Some(Form::Seconds),
            None => None,
        };
        match form {
            Some(form) => Ok(form),
            None if self.rest.contains(&b':') => Err(LineFault::NoClock),
            None => Err(LineFault::NoSeconds),
        }
    }
}

impl Stamps {
    /// Before the first stamp.
    pub(super) fn new() -> Stamps {
        Stamps {
            form: None,
            first_day: None,
            clock_us: 0,
        }
    }

    /// The time that the next stamp tells, in microseconds. More than an `i64` holds is its limit.
    pub(super) fn read(&mut self, stamp: Stamp<'_>, unit: Option<Unit>) -> Result<i64, LineFault> {
        if let Some(unit) = unit {
            return time_of_counter(stamp, unit);
        }
        let form = stamp.form()?;
        if self.form.is_some_and(|before| before != form) {
            return Err(LineFault::OtherForm);
        }
        self.form = Some(form);
        match form {
            Form::Seconds => read_seconds(stamp.rest).ok_or(LineFault::NoSeconds),
            Form::Clock => self.time_of_clock(stamp.rest),
            Form::Date => self.time_of_date(stamp.date.unwrap_or(b""), stamp.rest),
        }
    }

    /// The time of a clock, which does not fall back.
    fn time_of_clock(&mut self, clock: &[u8]) -> Result<i64, LineFault> {
        let time_us = since_midnight(clock).ok_or(LineFault::NoTimeOfDay)?;
        if time_us < self.clock_us {
            return Err(LineFault::ClockFallsBack);
        }
        self.clock_us = time_us;
        Ok(time_us)
    }

    /// The time of a date and a clock.
    fn time_of_date(&mut self, date: &[u8], clock: &[u8]) -> Result<i64, LineFault> {
        let day = day_number(date).ok_or(LineFault::NoDay)?;
        let first_day = self.first_day.unwrap_or(day);
        self.first_day = Some(first_day);
        if day < first_day {
            return Err(LineFault::DayBeforeFirst);
        }
        let time_us = since_midnight(clock).ok_or(LineFault::NoTimeOfDay)?;
        Ok(
            day.saturating_sub(first_day)
                .saturating_mul(DAY_US)
                .saturating_add(time_us),
        )
    }
}

/// The time of a counter, which is a whole number.
fn time_of_counter(stamp: Stamp<'_>, unit: Unit) -> Result<i64, LineFault> {
    let digits = stamp.rest;
    let is_number = stamp.date.is_none()
        && !digits.is_empty()
        && digits.iter().all(|byte| byte.is_ascii_digit());
    let (unit_us, fault) = match unit {
        Unit::Milliseconds => (1000, LineFault::NoMilliseconds),
        Unit::Microseconds => (1, LineFault::NoMicroseconds),
    };
    if !is_number {
        return Err(fault);
    }
    Ok(signed(number_of(digits)).saturating_mul(unit_us))
}

/// Whether this is a number of seconds, which has no sign.
fn is_unsigned_seconds(text: &[u8]) -> bool {
    !text.starts_with(b"-") && read_seconds(text).is_some()
}
