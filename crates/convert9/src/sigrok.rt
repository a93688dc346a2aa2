//! A capture of what sigrok-cli's decoder `uart` prints of both wires, with sample numbers: `uart-1` is the controller, `uart-2` the
//! deck.
//!
//! A byte's time is that of its first sample in the export, which is where the start bit ends, cut to whole microseconds.

use crate::digits::{byte_of, number_of, number_up_to, signed, split_digits};
use crate::fault::{ConvertFault, refused_words};
use crate::kept::{Kept, Ties};
use crate::lines::{Line, Lines};
use crate::range::TimeRange;
use capture9::Wire;
use itoa::Buffer;
use std::alloc::Global;
use std::io::{Read, Write};

/// What the words say of an export of sigrok-cli, as they stand.
#[derive(Clone, Copy)]
pub struct SigrokWords<'a> {
    /// The recording's number of samples a second, from 1 to 1,000,000,000; a `k`, `m` or `g` behind it stands for thousands, millions or
    /// thousands of millions, as in sigrok-cli's own words.
    pub samplerate: Option<&'a [u8]>,
    /// The first time that is converted, in seconds from the first sample on.
    pub from: Option<&'a [u8]>,
    /// The time from which on nothing is converted.
    pub to: Option<&'a [u8]>,
}

/// The most samples a second.
const MOST_SAMPLES: u64 = 1_000_000_000;

/// How often a second the eight data bits of a byte fit in, at 38,400 bits a second.
const BYTES_A_SECOND: i64 = 4800;

/// By how many samples a byte's length may be off, whatever the rate.
const SAMPLES_OFF: i64 = 2;

/// How long after a byte's first bit a line about damage to that byte may come at most, in microseconds: the parity bit comes eight bits
/// after it, and the stop bit nine, 234 microseconds.
const MARKED_US: i64 = 247;

/// What sigrok-cli prints in a line.
#[derive(Clone, Copy)]
struct Annotation<'a> {
    first_sample: u64,
    last_sample: u64,
    wire: Wire,
    what: &'a [u8],
}

/// What was read of an export.
#[derive(Drop)]
struct Export {
    samplerate: u64,
    range: TimeRange,
    kept: Kept,
    /// The time of the last byte on each wire, also of one outside the range.
    controller_us: Option<i64>,
    deck_us: Option<i64>,
}

/// Reads an export of sigrok-cli, and writes the capture. Where it is refused nothing is written.
pub fn convert_sigrok<R: Read + Drop, W: Write + Drop>(
    alloc: Global,
    reader: R,
    writer: W,
    words: SigrokWords<'_>,
) -> Result<(), ConvertFault> {
    let samplerate = check_samplerate(alloc, words.samplerate)?;
    let range = match TimeRange::named(words.from, words.to) {
        Ok(range) => range,
        Err(wrong) => return Err(refused_words(alloc, 0, wrong, b"")),
    };
    let mut export = Export {
        samplerate,
        range,
        kept: Kept::new(alloc),
        controller_us: None,
        deck_us: None,
    };
    let mut lines = Lines::of(alloc, reader)?;
    for _ in 0..u64::MAX {
        if !lines.read_next()? {
            break;
        }
        export.take(lines.line())?;
    }
    export
        .kept
        .write(writer, lines.line(), range, Ties::ControllerFirst)
}

/// The number of samples a second that a word names, or what is wrong with it.
fn check_samplerate(alloc: Global, word: Option<&[u8]>) -> Result<u64, ConvertFault> {
    let word = word.unwrap_or(b"");
    if word.is_empty() {
        let missing =
            "--samplerate N is missing: the recording's samples a second, such as 2000000 or 2m";
        return Err(refused_words(alloc, 0, missing, b""));
    }
    match samplerate_of(word) {
        Some(samplerate) => Ok(samplerate),
        None => {
            let wrong =
                "--samplerate is no whole number from 1 to 1000000000, such as 2000000 or 2m: ";
            Err(refused_words(alloc, 0, wrong, word))
        }
    }
}

/// The number of samples a second that a word names.
fn samplerate_of(word: &[u8]) -> Option<u64> {
    let (digits, times) = match word {
        [digits @ .., b'k' | b'K'] => (digits, 1_000),
        [digits @ .., b'm' | b'M'] => (digits, 1_000_000),
        [digits @ .., b'g' | b'G'] => (digits, 1_000_000_000),
        digits => (digits, 1),
    };
    let samples = number_up_to(digits, MOST_SAMPLES)?.saturating_mul(times);
    (samples <= MOST_SAMPLES).then_some(samples)
}

impl Export {
    /// Takes the next line.
    fn take(&mut self, line: Line<'_>) -> Result<(), ConvertFault> {
        let Some(annotation) = annotation_of(line.text) else {
            return Err(line.refused("unknown line: "));
        };
        if let Some(byte) = byte_of(annotation.what) {
            return self.take_byte(line, annotation, byte);
        }
        let first_us = self.time_of(annotation.first_sample);
        let is_damage = match annotation.what {
            b"Parity error" | b"Frame error" => self
                .range
                .holds(self.marked_us(annotation.wire, first_us)),
            b"Break condition" => self.reaches(first_us, self.time_of(annotation.last_sample)),
            _ => return Err(line.refused("unknown line: ")),
        };
        if is_damage {
            return Err(line.refused("a damaged byte: "));
        }
        Ok(())
    }

    /// Takes a byte.
    fn take_byte(
        &mut self,
        line: Line<'_>,
        annotation: Annotation<'_>,
        byte: u8,
    ) -> Result<(), ConvertFault> {
        let time_us = self.time_of(annotation.first_sample);
        match annotation.wire {
            Wire::Controller => self.controller_us = Some(time_us),
            Wire::Deck => self.deck_us = Some(time_us),
        }
        if !self.range.holds(time_us) {
            return Ok(());
        }
        self.check_length(line, annotation)?;
        self.kept
            .keep(time_us, annotation.wire, byte)
            .map_err(|fault| line.unkept(fault))
    }

    /// Refuses a byte that is too long or too short. It is drawn over its eight data bits, 208 microseconds. Where it is off by more
    /// than 2 percent and two samples, the rate is wrong, and so would be every time.
    fn check_length(&self, line: Line<'_>, annotation: Annotation<'_>) -> Result<(), ConvertFault> {
        let samples = signed(annotation.last_sample).saturating_sub(signed(
            annotation.first_sample,
        ));
        let samplerate = signed(self.samplerate);
        let off_by = samples
            .saturating_mul(BYTES_A_SECOND)
            .saturating_sub(samplerate)
            .saturating_abs();
        let is_off = off_by.saturating_mul(50) > samplerate
            && off_by > SAMPLES_OFF * BYTES_A_SECOND;
        if !is_off {
            return Ok(());
        }
        let us = samples
            .saturating_mul(1_000_000)
            .checked_div(samplerate)
            .unwrap_or(0);
        let mut what = String::from_str(line.alloc, "a byte lasts ")?;
        what.push_str(Buffer::new().format(us))?;
        what.push_str(" us where 208 are expected: is the rate wrong?")?;
        Err(line.refused_unshown(what.as_str()))
    }

    /// The time of a sample, in microseconds. Whole seconds are apart from the rest, so that every product is exact.
    fn time_of(&self, sample: u64) -> i64 {
        let samplerate = self.samplerate.max(1);
        let seconds = sample / samplerate;
        let rest_us = (sample % samplerate).saturating_mul(1_000_000) / samplerate;
        signed(seconds.saturating_mul(1_000_000).saturating_add(rest_us))
    }

    /// The time of the damaged byte that an error of this time is about; the error's own time, where that byte is not in the export.
    fn marked_us(&self, wire: Wire, first_us: i64) -> i64 {
        let last_us = match wire {
            Wire::Controller => self.controller_us,
            Wire::Deck => self.deck_us,
        };
        match last_us {
            Some(last_us) if (0..MARKED_US).contains(&first_us.saturating_sub(last_us)) => last_us,
            _ => first_us,
        }
    }

    /// Whether any part of what goes on from one time to the other lies in the range.
    fn reaches(&self, first_us: i64, last_us: i64) -> bool {
        let range = self.range;
        range.from_us.is_none_or(|from_us| last_us > from_us)
            && range.to_us.is_none_or(|to_us| first_us < to_us)
    }
}

/// What a line says: `5613-5666 uart-2: Parity error`.
fn annotation_of(line: &[u8]) -> Option<Annotation<'_>> {
    let (first, rest) = split_digits(line);
    let (last, rest) = split_digits(rest.strip_prefix(b"-")?);
    if first.is_empty() || last.is_empty() {
        return None;
    }
    let (wire, what) = match rest.strip_prefix(b" uart-")? {
        [b'1', b':', b' ', what @ ..] => (Wire::Controller, what),
        [b'2', b':', b' ', what @ ..] => (Wire::Deck, what),
        _ => return None,
    };
    Some(Annotation {
        first_sample: number_of(first),
        last_sample: number_of(last),
        wire,
        what,
    })
}
