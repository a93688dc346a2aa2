//! The times of a report as a clock or in seconds, so that a record can be found again in the log or in the analyser that the capture
//! came from. It takes any text.

use report9::{TimeForm, WriteFault, write_all};
use std::alloc::{AllocError, Global};
use std::io::{self, BufRead, ErrorKind, Write};
use text9::Text;

/// Why a text was not written to its end.
#[derive(Clone, Copy, PartialEq, Eq)]
pub enum ClockFault {
    /// It can't be read.
    Read,
    /// It can't be written.
    Write,
    /// A growth of memory was refused: a line is too long.
    OutOfMemory,
}

/// The most digits of a time in microseconds.
const MOST_DIGITS: usize = 15;

/// Writes the text that the reader gives with its times in a form, each line as soon as it is read. What is rewritten is `at` with a
/// whole number of microseconds after it, up to a colon and a blank, a comma or the end of the line; and as a clock also the seconds
/// at the beginning of a line of a digest or a motion, both of equal breaks in a row. All else passes unchanged. It keeps one line, and the writer is not flushed.
pub fn write_clock<R: BufRead, W: Write>(
    alloc: Global,
    reader: &mut R,
    writer: &mut W,
    form: TimeForm,
) -> Result<(), ClockFault> {
    let mut line = Vec::new(alloc);
    let mut text = Text::new(alloc);
    for _ in 0..u64::MAX {
        line.clear();
        if reader.read_until(b'\n', &mut line)? == 0 {
            break;
        }
        text.clear();
        let rest = match form {
            TimeForm::Clock => put_head(&mut text, line.as_slice()),
            TimeForm::Seconds => line.as_slice(),
        };
        put_times(&mut text, rest, form);
        write_all(writer, text.whole()?)?;
    }
    Ok(())
}

/// The head of a line of a digest or a motion.
#[derive(Clone, Copy)]
struct Head<'a> {
    /// What stands before its time.
    before: &'a [u8],
    /// The time in microseconds.
    from_us: u64,
    /// The time of the last of equal breaks in a row.
    to_us: Option<u64>,
    /// What stands after the unit.
    after: &'a [u8],
}

/// Puts a line of a digest or a motion up to its time, and the time as a clock: what comes after it. Of another line that is all.
fn put_head<'a>(text: &mut Text, line: &'a [u8]) -> &'a [u8] {
    let Some(head) = head_of_one(line).or(head_of_run(line)) else {
        return line;
    };
    text.put_bytes(head.before);
    put_time(text, head.from_us, TimeForm::Clock);
    if let Some(to_us) = head.to_us {
        text.put(" to ");
        put_time(text, to_us, TimeForm::Clock);
    }
    head.after
}

/// The head of a line that names one record.
fn head_of_one(line: &[u8]) -> Option<Head<'_>> {
    let blanks = line.iter().take_while(|byte| **byte == b' ').count();
    let rest = behind_number(line.get(blanks..)?.strip_prefix(b"record ")?)?;
    let seconds = rest.strip_prefix(b", ")?;
    let (from_us, after) = split_seconds(seconds)?;
    if !after.starts_with(b": ") {
        return None;
    }
    Some(Head {
        before: line.get(..line.len().saturating_sub(seconds.len()))?,
        from_us,
        to_us: None,
        after,
    })
}

/// The head of a line of equal breaks in a row.
fn head_of_run(line: &[u8]) -> Option<Head<'_>> {
    let rest = behind_number(line.strip_prefix(b"no at records ")?)?;
    let rest = behind_number(rest.strip_prefix(b" to ")?)?;
    let seconds = rest.strip_prefix(b", ")?;
    let (from_us, rest) = split_seconds(seconds)?;
    let (to_us, after) = split_seconds(rest.strip_prefix(b" to ")?)?;
    if !after.starts_with(b": ") {
        return None;
    }
    Some(Head {
        before: line.get(..line.len().saturating_sub(seconds.len()))?,
        from_us,
        to_us: Some(to_us),
        after,
    })
}

/// What stands behind the number of a record, counted from 1.
fn behind_number(text: &[u8]) -> Option<&[u8]> {
    let (number, rest) = split_digits(text);
    matches!(number, [b'1'..=b'9', ..]).then_some(rest)
}

/// The microseconds that seconds with six decimals and their unit are, and what stands behind these.
fn split_seconds(text: &[u8]) -> Option<(u64, &[u8])> {
    let (whole, rest) = split_digits(text);
    let (decimals, rest) = split_digits(rest.strip_prefix(b".")?);
    let after = rest.strip_prefix(b" s")?;
    if decimals.len() != 6 || !matches!(whole.len(), 1..=9) {
        return None;
    }
    let whole_us = number_of(whole).saturating_mul(1_000_000);
    Some((whole_us.saturating_add(number_of(decimals)), after))
}

/// Puts a text with each time that stands after `at` in a form.
fn put_times(text: &mut Text, line: &[u8], form: TimeForm) {
    let mut done = 0;
    for (at, word) in line.windows(4).enumerate() {
        if word != b" at ".as_slice() {
            continue;
        }
        let from = at.saturating_add(4);
        let Some(digits) = time_at(line, from) else {
            continue;
        };
        text.put_bytes(line.get(done..from).unwrap_or(&[]));
        put_time(text, number_of(digits), form);
        done = from.saturating_add(digits.len());
    }
    text.put_bytes(line.get(done..).unwrap_or(&[]));
}

/// The digits of a time from this place on, where one stands there.
fn time_at(line: &[u8], from: usize) -> Option<&[u8]> {
    let (digits, rest) = split_digits(line.get(from..)?);
    let ends = match rest {
        [b':', b' ', ..] | [b',', ..] => true,
        [b':', others @ ..] => is_end(others),
        others => is_end(others),
    };
    (ends && matches!(digits.len(), 1..=MOST_DIGITS)).then_some(digits)
}

/// Whether this is what a line ends with.
fn is_end(rest: &[u8]) -> bool {
    matches!(rest, [] | [b'\n'] | [b'\r'] | [b'\r', b'\n'])
}

/// The digits that a text begins with, and what comes after them.
fn split_digits(text: &[u8]) -> (&[u8], &[u8]) {
    let count = text.iter().take_while(|byte| byte.is_ascii_digit()).count();
    text.split_at(count.min(text.len()))
}

/// The number that digits are.
fn number_of(digits: &[u8]) -> u64 {
    digits.iter().fold(0u64, |number, digit| {
        let value = u64::from(digit.wrapping_sub(b'0'));
        number.saturating_mul(10).saturating_add(value)
    })
}

/// Puts a time in a form.
fn put_time(text: &mut Text, time_us: u64, form: TimeForm) {
    if form == TimeForm::Seconds {
        text.put_seconds("", time_us);
        return;
    }
    let minutes = time_us / 60_000_000;
    let seconds_us = time_us % 60_000_000;
    put_two_digits(text, "", minutes / 60);
    put_two_digits(text, ":", minutes % 60);
    let label = if seconds_us < 10_000_000 { ":0" } else { ":" };
    text.put_seconds(label, seconds_us);
}

/// Puts a label and a number in two digits, or more where it has more.
fn put_two_digits(text: &mut Text, label: &str, number: u64) {
    let zero = if number < 10 { "0" } else { "" };
    text.put(label).put_count(zero, number);
}

impl From<AllocError> for ClockFault {
    fn from(_: AllocError) -> ClockFault {
        ClockFault::OutOfMemory
    }
}

impl From<WriteFault> for ClockFault {
    fn from(_: WriteFault) -> ClockFault {
        ClockFault::Write
    }
}

impl From<io::Error> for ClockFault {
    fn from(error: io::Error) -> ClockFault {
        match error.kind() {
            ErrorKind::OutOfMemory => ClockFault::OutOfMemory,
            _ => ClockFault::Read,
        }
    }
}
