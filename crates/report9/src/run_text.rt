//! The text of a run of the deck, written line by line: that takes no memory, however long the run is.
ghost use Rattle.std.specs.Prelude.{◌≡◌, ◌++◌, OnErr, OnOk, IfErr};
ghost use Rattle.std.specs.Io.KnownBytes.{Appends};
ghost use Rattle.report9.specs.Lines.{line_of};
ghost use Rattle.report9.specs.Writing.{AppendsPart, Writes};
ghost use Rattle.report9.specs.RunText.{known_entry, known_state, line_of_state, lines_of_run, text_of_run};
ghost use Rattle.report9.specs.declared.verdict.Verdict.TheVariants as verdict;

use crate::error::JudgeError;
use crate::explanation::known::put_knowledge;
use crate::pieces::{put_text, put_wide};
use crate::run_verdict::RunVerdict;
use crate::verdict_line::{put_no_line, put_yes_line};
use crate::writing::{WriteFault, write_all};
use arrayvec::{ArrayVec, CapacityError};
use block9::{Exchange, Reason};
use deck9::{Entry, Knowledge, Known, KnownEntry, Profile, State};
use std::io::Write;

/// A line of a run. By count the longest has 166 bytes.
type Line = ArrayVec<u8, 256>;

/// Writes the text of a run: for a yes a line for each exchange, with the number of its last record in the whole capture
/// (`past` records come before the first exchange) and the state after it, and then the line of the verdict; for a no that
/// line alone.
///
/// Takes no memory. The writer is not flushed. With `Hands::Allowed` each line tells whether the panel is on. Where
/// there are more exchanges than states, or fewer, there are as many lines as there are of both.
///
/// The one error is `Write`: the writer failed, was interrupted or took no byte. No call is tried again, and what was
/// taken until then is a first part of the text.
pub fn write_run_for<W: Write>(
    writer: &mut W,
    run: &RunVerdict,
    profile: &Profile,
) -> Result<(), JudgeError>
    ensures ok { OnOk result
        (Appends (W.contents writer.old) (W.contents writer.new) (text_of_run profile.now run.now)) }
    ensures err { OnErr result
        (AppendsPart (W.contents writer.old) (W.contents writer.new) (text_of_run profile.now run.now)) }
    ensures write { IfErr result (λ e. e ≡ JudgeError.Write) }
{
    Ok(write_lines_and_verdict(writer, run, profile)?)
}

/// Writes the text of a run.
fn write_lines_and_verdict<W: Write>(
    writer: &mut W,
    run: &RunVerdict,
    profile: &Profile,
) -> Result<(), WriteFault>
    ensures { Writes (text_of_run profile.now run.now) result (W.contents writer.old) (W.contents writer.new) }
{
    match run {
        RunVerdict::Yes {
            past,
            records,
            tail,
            exchanges,
            states,
        } => {
            write_lines(
                writer,
                *past,
                exchanges.as_slice(),
                states.as_slice(),
                profile,
            )?;
            write_yes(writer, *records, exchanges.len() as u64, *tail)
        }
        RunVerdict::No { at, reason } => write_no(writer, *at, *reason),
    }
}

/// Writes a line for each exchange with the state after it; `past` records come before the first exchange.
fn write_lines<W: Write>(
    writer: &mut W,
    past: u32,
    exchanges: &[Exchange],
    states: &[State],
    profile: &Profile,
) -> Result<(), WriteFault>
    ensures { Writes (lines_of_run profile.now past exchanges.now states.now) result (W.contents writer.old) (W.contents writer.new) }
{
    let mut at = u128::from(past);
    for (exchange, state) in exchanges.iter().zip(states) {
        at += exchange.records() as u128;
        write_state_line(writer, profile, at, state)?;
    }
    Ok(())
}

/// Writes the line of an exchange whose reply ends with the record of this number: the state after it.
fn write_state_line<W: Write>(
    writer: &mut W,
    profile: &Profile,
    at: u128,
    state: &State,
) -> Result<(), WriteFault>
    ensures { Writes (line_of_state profile.now at state.now) result (W.contents writer.old) (W.contents writer.new) }
{
    let mut line = Line::new();
    put_state_line(&mut line, profile, at, state)?;
    write_all(writer, line.as_slice())
}

/// Writes the line of a yes.
fn write_yes<W: Write>(
    writer: &mut W,
    records: u32,
    exchanges: u64,
    tail: u32,
) -> Result<(), WriteFault>
    ensures { Writes (line_of (verdict.Yes records exchanges tail)) result (W.contents writer.old) (W.contents writer.new) }
{
    let mut line = Line::new();
    put_yes_line(&mut line, records, exchanges, tail)?;
    write_all(writer, line.as_slice())
}

/// Writes the line of a no.
fn write_no<W: Write>(writer: &mut W, at: u32, reason: Reason) -> Result<(), WriteFault>
    ensures { Writes (line_of (verdict.No at reason)) result (W.contents writer.old) (W.contents writer.new) }
{
    let mut line = Line::new();
    put_no_line(&mut line, at, reason)?;
    write_all(writer, line.as_slice())
}

/// Puts the line of an exchange with the state after it.
fn put_state_line(
    line: &mut Line,
    profile: &Profile,
    at: u128,
    state: &State,
) -> Result<(), CapacityError>
    ensures { OnOk result (line.new.items ≡ line.old.items ++ line_of_state profile.now at state.now) }
{
    put_wide(line, "record ", at)?;
    put_knowledge(line, ": ", profile, &known_state(state))?;
    put_text(line, "\n")
}

/// All that can be known of a deck: its state.
pub fn known_state(state: &State) -> Knowledge
    ensures { result ≡ known_state state.now }
{
    Knowledge {
        goal: Known::Is(state.goal),
        shown: Known::Is(state.shown),
        ins: known_entry(state.ins),
        outs: known_entry(state.outs),
        ains: known_entry(state.ains),
        aouts: known_entry(state.aouts),
        local: Known::Is(state.local),
        panel: Known::Is(state.panel),
    }
}

/// All that can be known of a register: what it holds.
fn known_entry(entry: Entry) -> KnownEntry
    ensures { result ≡ known_entry entry }
{
    match entry {
        Entry::Clear => KnownEntry::Clear,
        Entry::At(time) => KnownEntry::At(time),
    }
}
