//! The text of a run, by hand.

use super::same;
use super::writers::{Narrow, Then};
use block9::{Block, Command, Exchange};
use deck9::{Entry, Hands, Mode, State};
use judge9::{JudgeError, RunVerdict};
use report9::write_run;
use std::alloc::Global;
use std::process::Abort;
use std::test::Fail;
use tc25::TimeCode;

/// The run to `playing`, told without the panel.
const PLAYED: &str =
    "record 6: goal PLAY, shown STOP, in clear, out 10:00:00:00, local no, ain clear, aout clear\nyes: records 6, exchanges 1, open 0\n";

/// The same, with the panel.
const PLAYED_WITH_PANEL: &str =
    "record 6: goal PLAY, shown STOP, in clear, out 10:00:00:00, local no, ain clear, aout clear, panel off\nyes: records 6, exchanges 1, open 0\n";

/// The run behind 4,294,967,200 records that were passed over.
const PLAYED_LATER: &str =
    "record 4294967206: goal PLAY, shown STOP, in clear, out 10:00:00:00, local no, ain clear, aout clear\nyes: records 6, exchanges 1, open 0\n";

/// A state whose words are the longest of each field.
const LONGEST: &str =
    "record 6: goal SHUTTLE, shown SHUTTLE, in 23:59:59:24, out 23:59:59:24, local yes, ain 23:59:59:24, aout 23:59:59:24, panel off\nyes: records 6, exchanges 1, open 0\n";

/// PLAY, acknowledged.
fn play(rt: &impl Abort) -> Exchange {
    let block = Block::from_bytes(&[0x20, 0x01, 0x21]).expect(rt, "a block");
    Exchange {
        command: Command::of(&block).expect(rt, "a command"),
        block,
        reply: Block::from_bytes(&[0x10, 0x01, 0x11]).expect(rt, "a block"),
        delay_us: 400,
        time_us: 400,
    }
}

/// A deck that has shown STOP when it was told to play.
fn playing(rt: &impl Abort) -> State {
    State {
        goal: Mode::Play,
        shown: Mode::Stop,
        ins: Entry::Clear,
        outs: Entry::At(TimeCode::from_frames(900_000).expect(rt, "a time")),
        ains: Entry::Clear,
        aouts: Entry::Clear,
        local: false,
        panel: false,
    }
}

/// The last time of a day.
fn last_time(rt: &impl Abort) -> Entry {
    Entry::At(TimeCode::from_frames(2_159_999).expect(rt, "a time"))
}

/// A deck in LOCAL that shuttles, whose registers all hold the last time of a day.
fn shuttling(rt: &impl Abort) -> State {
    State {
        goal: Mode::Shuttle,
        shown: Mode::Shuttle,
        ins: last_time(rt),
        outs: last_time(rt),
        ains: last_time(rt),
        aouts: last_time(rt),
        local: true,
        panel: false,
    }
}

/// A run in which the deck acknowledges PLAY and is then in this state.
fn run_to(rt: &impl Abort, alloc: Global, state: State) -> Result<RunVerdict, Fail> {
    let mut exchanges = Vec::new(alloc);
    exchanges.push(play(rt))?;
    let mut states = Vec::new(alloc);
    states.push(state)?;
    Ok(RunVerdict::Yes {
        past: 0,
        records: 6,
        tail: 0,
        exchanges,
        states,
    })
}

/// Compares all that is written of a run.
fn tell_text(rt: &impl Abort, alloc: Global, run: &RunVerdict, hands: Hands, text: &str) {
    let mut writer = Narrow::roomy(alloc);
    let answer = write_run(&mut writer, run, hands);
    same(rt, answer, Ok(()), text);
    same(rt, writer.into_taken().as_slice(), text.as_bytes(), text);
}

/// Writes the run to `playing` to a writer with too little room: what there is room for is written.
fn tell_stopped(rt: &impl Abort, alloc: Global, run: &RunVerdict, room: usize, then: Then) {
    let mut writer = Narrow::new(alloc, room, then);
    let answer = write_run(&mut writer, run, Hands::None);
    same(rt, answer, Err(JudgeError::Write), (room, then));
    let taken = writer.into_taken();
    same(
        rt,
        Some(taken.as_slice()),
        PLAYED.as_bytes().get(..room),
        (room, then),
    );
}

#[test]
fn a_yes(rt: HostRuntime) -> Result<(), Fail> {
    let run = run_to(&rt, rt.alloc(), playing(&rt))?;
    tell_text(&rt, rt.alloc(), &run, Hands::None, PLAYED);
    tell_text(&rt, rt.alloc(), &run, Hands::Allowed, PLAYED_WITH_PANEL);
    Ok(())
}

#[test]
fn a_yes_behind_records_that_were_passed_over(rt: HostRuntime) -> Result<(), Fail> {
    let mut run = run_to(&rt, rt.alloc(), playing(&rt))?;
    if let RunVerdict::Yes { past, .. } = &mut run {
        *past = 4_294_967_200;
    }
    tell_text(&rt, rt.alloc(), &run, Hands::None, PLAYED_LATER);
    Ok(())
}

#[test]
fn the_longest_words(rt: HostRuntime) -> Result<(), Fail> {
    let run = run_to(&rt, rt.alloc(), shuttling(&rt))?;
    tell_text(&rt, rt.alloc(), &run, Hands::Allowed, LONGEST);
    Ok(())
}

#[test]
fn a_writer_that_stops_at_each_byte(rt: HostRuntime) -> Result<(), Fail> {
    let run = run_to(&rt, rt.alloc(), playing(&rt))?;
    for room in 0..PLAYED.len() {
        for then in [Then::Fail, Then::Interrupt, Then::TakeNone] {
            tell_stopped(&rt, rt.alloc(), &run, room, then);
        }
    }
    Ok(())
}
