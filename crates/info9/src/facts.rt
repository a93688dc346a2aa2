//! The facts of a capture, a line each: a name, a colon and a value.

use crate::signs::Signs;
use crate::text::put_rounded;
use crate::wire_counts::WireCounts;
use report9::{put_count, put_text};
use std::alloc::AllocError;
use text9::put_seconds;

/// The milliseconds of a day.
const DAY_MS: u64 = 86_400_000;

/// Puts the facts of what the records so far show.
pub(crate) fn put_facts(text: &mut Vec<u8>, signs: &Signs) -> Result<(), AllocError> {
    let (controller, deck) = (&signs.controller, &signs.deck);
    put_by_wire(text, "records", controller.records, deck.records)?;
    put_times(text, signs)?;
    put_by_wire(
        text,
        "blocks with right checksums",
        controller.blocks,
        deck.blocks,
    )?;
    put_count(text, "commands: ", controller.own())?;
    put_count(text, "\nreplies: ", deck.own())?;
    put_text(text, "\n")?;
    put_told(text, signs)?;
    put_running(text, signs)?;
    put_silences(text, "longest silences of the controller: ", controller)?;
    put_silences(text, "longest silences of the deck: ", deck)
}

/// Puts a name, and how many there are of each wire.
fn put_by_wire(
    text: &mut Vec<u8>,
    name: &str,
    controller: u64,
    deck: u64,
) -> Result<(), AllocError> {
    put_text(text, name)?;
    put_count(text, ": ", controller.saturating_add(deck))?;
    put_count(text, ", controller ", controller)?;
    put_count(text, ", deck ", deck)?;
    put_text(text, "\n")
}

/// Puts the first time, the last, how long it is between them, and the step of the times.
fn put_times(text: &mut Vec<u8>, signs: &Signs) -> Result<(), AllocError> {
    let Some((first, _)) = signs.first else {
        return Ok(());
    };
    let last_us = signs.last.time_us;
    put_second_line(text, "first time: ", first.time_us)?;
    put_second_line(text, "last time: ", last_us)?;
    put_second_line(text, "length: ", last_us.saturating_sub(first.time_us))?;
    let Some(step_us) = signs.step.us() else {
        return Ok(());
    };
    put_count(text, "step of the times: ", step_us)?;
    put_text(text, " us\n")
}

/// Puts a name and a time in seconds.
fn put_second_line(text: &mut Vec<u8>, name: &str, us: u64) -> Result<(), AllocError> {
    put_text(text, name)?;
    put_seconds(text, us)?;
    put_text(text, " s\n")
}

/// Puts what is counted of the times told.
fn put_told(text: &mut Vec<u8>, signs: &Signs) -> Result<(), AllocError> {
    let (set, told) = (&signs.turns.set, &signs.turns.told);
    let times = set.times.saturating_add(told.times);
    put_count(text, "times told: ", times)?;
    if times > 0 {
        let greatest = u64::from(set.greatest.max(told.greatest));
        put_count(text, ", greatest frame ", greatest)?;
        let flagged = set.flagged.saturating_add(told.flagged);
        put_count(text, ", with the drop frame flag ", flagged)?;
        let undropped = set.undropped.saturating_add(told.undropped);
        put_count(text, ", with a label that drop frame has not ", undropped)?;
    }
    put_text(text, "\n")
}

/// Puts how many frames are told while the time runs, and how many elapse at the rate that is asked with.
fn put_running(text: &mut Vec<u8>, signs: &Signs) -> Result<(), AllocError> {
    let running = &signs.turns.running;
    if running.seconds == 0 {
        return Ok(());
    }
    let per_day = u64::from(signs.rate.frames_in_day());
    let elapsed = running.us.saturating_mul(per_day) / DAY_MS;
    put_count(text, "frames told to frames elapsed: ", running.frames)?;
    put_text(text, " to ")?;
    put_rounded(text, elapsed)?;
    put_text(text, " at --rate ")?;
    put_text(text, signs.rate.word())?;
    put_count(text, ", in seconds that run: ", running.seconds)?;
    put_text(text, "\n")
}

/// Puts the longest silences of a wire, with the records that end them.
fn put_silences(text: &mut Vec<u8>, name: &str, wire: &WireCounts) -> Result<(), AllocError> {
    let mut before = name;
    for silence in wire.silences.longest {
        if silence.us > 0 {
            put_text(text, before)?;
            put_seconds(text, silence.us)?;
            put_count(text, " s before record ", u64::from(silence.to.record))?;
            before = ", ";
        }
    }
    if before == ", " {
        put_text(text, "\n")?;
    }
    Ok(())
}
