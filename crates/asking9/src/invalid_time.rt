//! What is wrong with a time that is not valid, and at which frame rates it is.

use report9::{put_count, put_hex, put_text};
use std::alloc::AllocError;
use tc25::{Rate, TimeCode};

/// A time as its digits, two a byte, without the flags that may stand beside the tens.
#[derive(Clone, Copy)]
struct Digits {
    hours: u8,
    minutes: u8,
    seconds: u8,
    frames: u8,
}

/// Puts what is wrong with the time of these bytes at a rate.
pub(crate) fn put_invalid(
    line: &mut Vec<u8>,
    bytes: [u8; 4],
    rate: Rate,
) -> Result<(), AllocError> {
    let digits = Digits {
        hours: bytes[3] & 0x3F,
        minutes: bytes[2] & 0x7F,
        seconds: bytes[1] & 0x7F,
        frames: bytes[0] & 0x3F,
    };
    digits.put(line, rate)?;
    put_text(line, " is not valid at ")?;
    if is_never_valid(bytes) {
        put_text(line, "any rate")?;
    } else {
        put_rate(line, rate)?;
    }
    put_text(line, ": ")?;
    digits.put_wrong(line, rate)
}

/// Whether a time is valid at no rate.
pub(crate) fn is_never_valid(bytes: [u8; 4]) -> bool {
    valid_rates(bytes) == [false; 4]
}

/// At which of the rates a time is valid.
fn valid_rates(bytes: [u8; 4]) -> [bool; 4] {
    Rate::ALL.map(|rate| TimeCode::from_bytes_at(rate, bytes).is_some())
}

/// Puts at which rates a time is valid.
pub(crate) fn put_valid(line: &mut Vec<u8>, bytes: [u8; 4]) -> Result<(), AllocError> {
    put_text(line, "it is valid at ")?;
    put_rates(line, valid_rates(bytes))
}

/// Puts the options of these of all rates.
pub(crate) fn put_rates(line: &mut Vec<u8>, rates: [bool; 4]) -> Result<(), AllocError> {
    let count = rates.iter().filter(|has| **has).count();
    let mut left = count;
    for (rate, has) in Rate::ALL.iter().zip(rates) {
        if !has {
            continue;
        }
        if left < count {
            put_text(line, if left == 1 { " and " } else { ", " })?;
        }
        put_rate(line, *rate)?;
        left = left.saturating_sub(1);
    }
    Ok(())
}

/// Puts the option of a rate.
fn put_rate(line: &mut Vec<u8>, rate: Rate) -> Result<(), AllocError> {
    put_text(line, "--rate ")?;
    put_text(line, rate.word())
}

impl Digits {
    /// Puts the time as a text at a rate.
    fn put(&self, line: &mut Vec<u8>, rate: Rate) -> Result<(), AllocError> {
        put_hex(line, u32::from(self.hours))?;
        put_text(line, ":")?;
        put_hex(line, u32::from(self.minutes))?;
        put_text(line, ":")?;
        put_hex(line, u32::from(self.seconds))?;
        put_text(line, if rate == Rate::DropFrame { ";" } else { ":" })?;
        put_hex(line, u32::from(self.frames))
    }

    /// Puts what is wrong with the time, which is not valid at this rate: of its parts the first that is too great, or a label that drop
    /// frame leaves out.
    fn put_wrong(&self, line: &mut Vec<u8>, rate: Rate) -> Result<(), AllocError> {
        let last = last_frame(rate);
        if is_beyond(self.hours, 23) {
            put_beyond(line, "hour", self.hours, 23)
        } else if is_beyond(self.minutes, 59) {
            put_beyond(line, "minute", self.minutes, 59)
        } else if is_beyond(self.seconds, 59) {
            put_beyond(line, "second", self.seconds, 59)
        } else if is_beyond(self.frames, 29) {
            put_beyond(line, "frame", self.frames, 29)
        } else if is_beyond(self.frames, last) {
            put_beyond(line, "frame", self.frames, last)
        } else {
            put_text(
                line,
                "drop frame leaves out frames 00 and 01 in second 00 of minute ",
            )?;
            put_hex(line, u32::from(self.minutes))
        }
    }
}

/// The last frame of a second.
fn last_frame(rate: Rate) -> u8 {
    u8::try_from(rate.in_second() - 1).unwrap_or(u8::MAX)
}

/// Whether two digits are no number up to this one.
fn is_beyond(digits: u8, last: u8) -> bool {
    let (tens, units) = (digits / 16, digits % 16);
    units > 9 || u32::from(tens) * 10 + u32::from(units) > u32::from(last)
}

/// Puts why two digits are no number up to this one.
fn put_beyond(line: &mut Vec<u8>, part: &str, digits: u8, last: u8) -> Result<(), AllocError> {
    if digits % 16 > 9 {
        put_text(line, "the ")?;
        put_text(line, part)?;
        put_text(line, " ")?;
        put_hex(line, u32::from(digits))?;
        return put_text(line, " has a digit that is not decimal");
    }
    put_text(line, "the last ")?;
    put_text(line, part)?;
    put_count(line, " is ", u64::from(last))
}
