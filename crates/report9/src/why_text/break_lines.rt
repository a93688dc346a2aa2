//! The lines of a record that breaks a rule of blocks, pairing or timing, and of the records that are open before it or the
//! exchange before it.
ghost use Rattle.std.specs.Prelude.{◌≡◌, ◌<◌, ◌^◌, ◌++◌, [], OnOk, codes};
ghost use Rattle.block9.specs.Line.{bytes_of};
ghost use Rattle.report9.specs.Bytes.{hex_bytes};
ghost use Rattle.report9.specs.WhyText.{came_on, end_before, lead_of, letter_of, limit_told, line_if_ended, line_of_breaking, line_of_open, lines_of_break};
ghost use Rattle.report9.specs.WhyText.{lines_of_open, progress_told, since_told, still_wanted, sum_told, wanted_on, would_end};

use crate::exchange_bytes::{
    put_command_sent, put_exchange_records, put_records, put_reply_sent, put_words,
};
use crate::pieces::{put_count, put_hex, put_text, put_word};
use crate::why_no::{EndedExchange, WhyNo};
use block9::{Open, Reason};
use capture9::{LineByte, Wire};
use deck9::Profile;
use std::alloc::AllocError;

/// Puts the line of the exchange before, where none is open, or that of the open command and that of its reply, each where it
/// has records; and that of the record that breaks. Puts nothing for another verdict than a break.
pub(super) fn put_break(
    line: &mut Vec<u8>,
    profile: &Profile,
    verdict: &WhyNo,
) -> Result<(), AllocError>
    ensures { OnOk result (line.new.items ≡ line.old.items ++ lines_of_break profile.now verdict.now) }
{
    let WhyNo::Break {
        at,
        reason,
        tail,
        open: so_far,
        before,
        breaking,
    } = verdict
    else {
        return Ok(());
    };
    let count = u128::from(*at).saturating_sub(tail.len() as u128 + 1);
    let end_us = end_before(tail.as_slice(), before);
    put_if_ended(line, profile, count, before)?;
    put_open(line, profile, count, tail.as_slice(), so_far, breaking.wire)?;
    put_breaking(line, *at, *reason, *breaking, end_us, so_far.sum)
}

/// Puts the line of the exchange before, where there is one, without what status data say. `at` is the number of its last record.
fn put_if_ended(
    line: &mut Vec<u8>,
    profile: &Profile,
    at: u128,
    before: &Option<EndedExchange>,
) -> Result<(), AllocError>
    ensures { OnOk result (line.new.items ≡ line.old.items ++ line_if_ended profile.now at before.now) }
{
    let Some(ended) = before else {
        return Ok(());
    };
    put_exchange_records(line, at, &ended.exchange)?;
    put_command_sent(line, ": ", profile, &ended.exchange)?;
    put_reply_sent(line, " -> ", profile, &ended.exchange)?;
    put_text(line, "\n")
}

/// Puts the line of the open command and that of its reply, each where it has records. `count` records come before them.
fn put_open(
    line: &mut Vec<u8>,
    profile: &Profile,
    count: u128,
    tail: &[LineByte],
    so_far: &Open,
    breaking: Wire,
) -> Result<(), AllocError>
    requires { count < 2 ^ 32 }
    ensures { OnOk result (line.new.items ≡ line.old.items ++ lines_of_open profile.now count tail.now so_far.now breaking) }
{
    let came = so_far.asked;
    let (asked, answered) = tail.split_at(came.min(tail.len()));
    let after = count + came as u128;
    put_open_block(
        line,
        profile,
        count,
        asked,
        so_far,
        Wire::Controller,
        breaking,
    )?;
    put_open_block(line, profile, after, answered, so_far, Wire::Deck, breaking)
}

/// Puts the line of a block's records, where it has some: the command's words or the arrow of a reply, the bytes, and how far
/// the block has come. `count` records come before them. The block is on `wire`, and the record that breaks on `breaking`.
fn put_open_block(
    line: &mut Vec<u8>,
    profile: &Profile,
    count: u128,
    records: &[LineByte],
    so_far: &Open,
    wire: Wire,
    breaking: Wire,
) -> Result<(), AllocError>
    requires { count < 2 ^ 65 }
    ensures { OnOk result (line.new.items ≡ line.old.items ++ line_of_open profile.now count so_far.now wire breaking records.now) }
{
    let Some(first) = records.first() else {
        return Ok(());
    };
    let last = count + records.len() as u128;
    put_records(line, count + 1, last, first.time_us)?;
    put_lead(line, profile, wire, so_far)?;
    put_bytes(line, records)?;
    put_progress(line, wire, breaking, so_far)?;
    put_text(line, "\n")
}

/// Puts what comes before the bytes of a block: a command's name and time, where it is complete, or the arrow of a reply.
fn put_lead(
    line: &mut Vec<u8>,
    profile: &Profile,
    wire: Wire,
    so_far: &Open,
) -> Result<(), AllocError>
    ensures { OnOk result (line.new.items ≡ line.old.items ++ (codes ": " ++ lead_of profile.now so_far.now wire)) }
{
    put_text(line, ": ")?;
    match (wire, &so_far.command) {
        (Wire::Controller, Some(command)) => put_words(line, profile, command),
        (Wire::Controller, None) => Ok(()),
        (Wire::Deck, _) => put_text(line, "-> "),
    }
}

/// Puts how many bytes of a block came on a wire, and how many it wants, where more are missing than the one that breaks.
fn put_progress(
    line: &mut Vec<u8>,
    wire: Wire,
    breaking: Wire,
    so_far: &Open,
) -> Result<(), AllocError>
    ensures { OnOk result (line.new.items ≡ line.old.items ++ progress_told (came_on so_far.now wire) (still_wanted so_far.now wire breaking)) }
{
    let Some(wanted) = still_wanted(wire, breaking, so_far) else {
        return Ok(());
    };
    let (came, _) = progress_on(wire, so_far);
    put_count(line, ", ", came as u64)?;
    put_count(line, " of ", wanted as u64)?;
    put_text(line, " bytes")
}

/// How many bytes the open block on a wire wants, where more are missing than the record that breaks; that record is on `breaking`.
pub fn still_wanted(wire: Wire, breaking: Wire, so_far: &Open) -> Option<usize>
    ensures { result ≡ still_wanted so_far.now wire breaking }
{
    let (came, wanted) = progress_on(wire, so_far);
    if came >= wanted || would_end(wire, breaking, came, wanted) {
        return None;
    }
    Some(wanted)
}

/// How many bytes of a block came on a wire, and how many it wants: a command that is complete wants none.
fn progress_on(wire: Wire, so_far: &Open) -> (usize, usize)
    ensures came { result.0 ≡ came_on so_far.now wire }
    ensures wanted { result.1 ≡ wanted_on so_far.now wire }
{
    match (wire, &so_far.command) {
        (Wire::Controller, None) => (so_far.asked, so_far.wanted),
        (Wire::Controller, Some(_)) => (so_far.asked, 0),
        (Wire::Deck, _) => (so_far.answered, so_far.wanted),
    }
}

/// Whether the record that breaks would end a block on this wire.
fn would_end(wire: Wire, breaking: Wire, came: usize, wanted: usize) -> bool
    requires { came < wanted }
    ensures { result ≡ would_end wire breaking came wanted }
{
    match (wire, breaking) {
        (Wire::Controller, Wire::Controller) | (Wire::Deck, Wire::Deck) => came + 1 == wanted,
        _ => false,
    }
}

/// Puts the bytes of records, with a space between two.
pub fn put_bytes(line: &mut Vec<u8>, records: &[LineByte]) -> Result<(), AllocError>
    ensures { OnOk result (line.new.items ≡ line.old.items ++ hex_bytes [] (bytes_of records.now)) }
{
    let mut before = "";
    for record in records {
        put_text(line, before)?;
        put_hex(line, u32::from(record.byte))?;
        before = " ";
    }
    Ok(())
}

/// Puts the line of the record that breaks: its wire and byte, how long it comes after the record before, the limit where the
/// rule is one of time, and the right checksum where it is a wrong one.
fn put_breaking(
    line: &mut Vec<u8>,
    at: u32,
    reason: Reason,
    breaking: LineByte,
    end_us: Option<u64>,
    sum: u8,
) -> Result<(), AllocError>
    ensures { OnOk result (line.new.items ≡ line.old.items ++ line_of_breaking at reason breaking end_us sum) }
{
    put_count(line, "record ", u64::from(at))?;
    put_count(line, " at ", breaking.time_us)?;
    put_word(line, ": ", letter_of(breaking.wire))?;
    put_hex(line, u32::from(breaking.byte))?;
    put_since(line, end_us, breaking)?;
    put_limit(line, reason.limit_us())?;
    put_sum(line, reason, sum)?;
    put_text(line, "\n")
}

/// The letter of a wire, and a space.
fn letter_of<'a>(wire: Wire) -> &'a str
    ensures { result.now ≡ letter_of wire }
{
    match wire {
        Wire::Controller => "C ",
        Wire::Deck => "D ",
    }
}

/// The time of the record before one that breaks, in microseconds: of the last open one, or of the last of the exchange before; none
/// where no record comes before.
pub fn end_before(tail: &[LineByte], before: &Option<EndedExchange>) -> Option<u64>
    ensures { result ≡ end_before tail.now before.now }
{
    if let Some(last) = tail.last() {
        return Some(last.time_us);
    }
    match before {
        Some(ended) => Some(ended.end_us),
        None => None,
    }
}

/// Puts how long a record comes after the one before, where there is one.
fn put_since(line: &mut Vec<u8>, end_us: Option<u64>, breaking: LineByte) -> Result<(), AllocError>
    ensures { OnOk result (line.new.items ≡ line.old.items ++ since_told end_us breaking) }
{
    let Some(end_us) = end_us else {
        return Ok(());
    };
    put_count(line, ", ", breaking.time_us.saturating_sub(end_us))?;
    put_text(line, " after the record before")
}

/// Puts a limit, where there is one.
fn put_limit(line: &mut Vec<u8>, limit_us: Option<u64>) -> Result<(), AllocError>
    ensures { OnOk result (line.new.items ≡ line.old.items ++ limit_told limit_us) }
{
    match limit_us {
        Some(limit) => put_count(line, ", limit ", limit),
        None => Ok(()),
    }
}

/// Puts the right checksum, where the record's byte is a wrong one.
fn put_sum(line: &mut Vec<u8>, reason: Reason, sum: u8) -> Result<(), AllocError>
    ensures { OnOk result (line.new.items ≡ line.old.items ++ sum_told reason sum) }
{
    match reason {
        Reason::WrongSum => {
            put_text(line, ", sum ")?;
            put_hex(line, u32::from(sum))
        }
        _ => Ok(()),
    }
}
