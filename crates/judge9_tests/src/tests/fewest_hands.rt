//! Runs of captures that somebody may touch: how often a hand moves, and the panel.

use super::drawn::{CAPTURES, Draw, drawn};
use super::parts::*;
use super::{capture, fail, same};
use block9::{Command, Exchange};
use deck9::{Entry, Hands, Profile, State, is_run};
use judge9::{RunVerdict, judge_with_run};
use run9::TouchedRun;
use sets25::SpanSet;
use std::alloc::{AllocError, Global};
use std::process::Abort;
use std::test::Fail;
use tc25::TimeCode;
use track9::Tracker;

/// A command of group 0 that is not listed, acknowledged: the deck may have forgotten everything.
const FORGET: &str = "C 00 40 40 D 10 01 11";
/// OUT DATA PRESET to 10:00:00:00, acknowledged, and OUT DATA SENSE, answered with 11:00:00:00.
const OUT_PRESET_10: &str = "C 44 15 00 00 00 10 69 D 10 01 11";

const OUT_11: &str = "C 60 11 71 D 74 11 00 00 00 11 96";

/// Exchanges, how often a hand has to move, and a letter for the panel after each of them: on, or off (`-`).
type Row<'a> = (&'a [&'a str], usize, &'a str);

/// Nobody has to touch these.
const UNTOUCHED: &[Row] = &[
    (&[], 0, ""),
    (&[REMOTE, PRESET_10, IN_10], 0, "---"),
    (&[DISABLE, REMOTE, PRESET_10, IN_10], 0, "----"),
    (&[ENABLE, REMOTE, REMOTE, REMOTE], 0, "++++"),
    (&[PRESET_10, ENABLE, IN_10, DISABLE, IN_10], 0, "-++--"),
    // What the deck may have forgotten nobody has to have changed.
    (&[REMOTE, PRESET_10, FORGET, IN_11], 0, "----"),
    (&[ENABLE, PRESET_10, FORGET, IN_11], 0, "++--"),
];

/// Somebody has to touch these once.
const TOUCHED_ONCE: &[Row] = &[
    (&[REMOTE, PRESET_10, IN_11], 1, "+++"),
    (&[REMOTE, PRESET_10, IN_11, IN_11, IN_11], 1, "+++++"),
    (&[ENABLE, REMOTE, PRESET_10, IN_11], 1, "++++"),
    // A hand moves before LOCAL DISABLE alone, and not where the panel is off.
    (&[REMOTE, PRESET_10, DISABLE, IN_11], 1, "++--"),
    (&[REMOTE, PRESET_10, REFUSED_DISABLE, IN_11], 1, "++++"),
    (&[DISABLE, REMOTE, PRESET_10, ENABLE, IN_11], 1, "---++"),
    // One move is enough for two registers.
    (
        &[REMOTE, PRESET_10, OUT_PRESET_10, DISABLE, IN_11, OUT_11],
        1,
        "+++---",
    ),
    // The panel that the deck may have forgotten is on where a hand moves before it is switched again.
    (&[DISABLE, FORGET, REMOTE, PRESET_10, IN_11], 1, "-++++"),
    (&[REMOTE, PRESET_10, IN_11, FORGET, IN_10], 1, "+++--"),
    (
        &[DISABLE, FORGET, REMOTE, PRESET_10, DISABLE, IN_11],
        1,
        "-+++--",
    ),
];

/// Somebody has to touch these more than once. A register that a hand has left Clear would answer anything, and is told to
/// be Set.
const TOUCHED_OFTEN: &[Row] = &[
    (&[REMOTE, PRESET_10, IN_11, IN_SET, IN_10], 2, "+++++"),
    (
        &[REMOTE, PRESET_10, DISABLE, IN_11, IN_SET, ENABLE, IN_10],
        2,
        "++---++",
    ),
    (
        &[IN_SET, IN_09, IN_10, IN_SET, IN_11, IN_SET, IN_05],
        3,
        "+++++++",
    ),
];

/// A run of these exchanges.
fn run_of(
    rt: &impl Abort,
    alloc: Global,
    parts: &[&str],
    hands: Hands,
) -> Result<(Vec<Exchange>, Vec<State>), Fail> {
    let text = capture(alloc, parts)?;
    let run = judge_with_run(alloc, text.as_bytes(), hands).expect(rt, "a verdict");
    let RunVerdict::Yes {
        exchanges,
        states,
        ..
    } = run
    else {
        fail(rt, parts)
    };
    let is_run = is_run(exchanges.as_slice(), states.as_slice(), hands);
    same(rt, is_run, true, parts);
    Ok((exchanges, states))
}

/// A run of a capture with hands.
#[derive(Drop)]
pub(super) struct Run {
    pub(super) exchanges: Vec<Exchange>,
    pub(super) states: Vec<State>,
}

/// The states with the panel off.
fn without_panel(alloc: Global, states: &[State]) -> Result<Vec<State>, AllocError> {
    let mut off = Vec::new(alloc);
    for state in states {
        off.push(State {
            panel: false,
            ..*state
        })?;
    }
    Ok(off)
}

/// How often a hand moves in a run: wherever no deck that nobody touches goes on so.
fn moves(alloc: Global, exchanges: &[Exchange], states: &[State]) -> Result<usize, AllocError> {
    let states = without_panel(alloc, states)?;
    let mut moves = 0usize;
    for at in 1..exchanges.len() {
        if !goes_on_untouched(exchanges, states.as_slice(), at) {
            moves = moves.saturating_add(1);
        }
    }
    Ok(moves)
}

/// Whether an untouched deck goes on so at a place.
fn goes_on_untouched(exchanges: &[Exchange], states: &[State], at: usize) -> bool {
    let before = at.saturating_sub(1);
    match (exchanges.get(before..=at), states.get(before..=at)) {
        (Some(exchanges), Some(states)) => is_run(exchanges, states, Hands::None),
        _ => true,
    }
}

/// A letter for the panel in each state.
fn panels(alloc: Global, states: &[State]) -> Result<String, AllocError> {
    let mut letters = String::new(alloc);
    for state in states {
        letters.push(if state.panel { '+' } else { '-' })?;
    }
    Ok(letters)
}

/// Compares the moves and the panels of each row's run.
fn agree(rt: &impl Abort, alloc: Global, rows: &[Row]) -> Result<(), Fail> {
    for (parts, expected, panel) in rows {
        let (exchanges, states) = run_of(rt, alloc, parts, Hands::Allowed)?;
        let moves = moves(alloc, exchanges.as_slice(), states.as_slice())?;
        same(rt, moves, *expected, parts);
        let panels = panels(alloc, states.as_slice())?;
        same(rt, panels.as_str(), *panel, parts);
    }
    Ok(())
}

#[test]
fn nobody_has_to_touch_it(rt: HostRuntime) -> Result<(), Fail> {
    agree(&rt, rt.alloc(), UNTOUCHED)
}

#[test]
fn somebody_has_to_touch_it_once(rt: HostRuntime) -> Result<(), Fail> {
    agree(&rt, rt.alloc(), TOUCHED_ONCE)
}

#[test]
fn somebody_has_to_touch_it_more_than_once(rt: HostRuntime) -> Result<(), Fail> {
    agree(&rt, rt.alloc(), TOUCHED_OFTEN)
}

/// Where nobody has to touch the deck, the run is that of a deck that nobody touches, but for the panel.
#[test]
fn the_run_of_a_deck_that_nobody_touches(rt: HostRuntime) -> Result<(), Fail> {
    for (parts, _, _) in UNTOUCHED {
        let (_, states) = run_of(&rt, rt.alloc(), parts, Hands::None)?;
        let (_, touched) = run_of(&rt, rt.alloc(), parts, Hands::Allowed)?;
        let touched = without_panel(rt.alloc(), touched.as_slice())?;
        same(&rt, touched.as_slice(), states.as_slice(), parts);
    }
    Ok(())
}

/// What IN holds after the exchange at a place: 10:00:00:00, frame 900,000, and from this place on 11:00:00:00.
fn frame_at(place: usize, touched: usize) -> Entry {
    let frames = if place < touched { 900_000 } else { 990_000 };
    Entry::At(TimeCode::from_frames(frames).unwrap_or_default())
}

/// A deck in REMOTE whose IN was preset to 10:00:00:00 and answers so answers 11:00:00:00: a hand has set it between.
#[test]
fn a_register_that_a_hand_has_set(rt: HostRuntime) -> Result<(), Fail> {
    let parts = &[REMOTE, PRESET_10, IN_10, IN_11, IN_SET];
    let (_, states) = run_of(&rt, rt.alloc(), parts, Hands::Allowed)?;
    for (place, state) in states.iter().enumerate() {
        if place > 0 {
            same(&rt, state.ins, frame_at(place, 3), place);
        }
        same(&rt, state.panel, true, place);
        if place < 3 {
            same(&rt, state.local, false, place);
        }
    }
    Ok(())
}

/// Exchanges, and how often each of them comes: 600 polls tell IN as it was preset, and 600 what a hand has set.
const POLLS: &[(&str, usize)] = &[
    (REMOTE, 1),
    (PRESET_10, 1),
    (IN_10, 600),
    (IN_11, 600),
    (IN_SET, 1),
];

/// All of these exchanges.
fn polls(alloc: Global) -> Result<Vec<&'static str>, AllocError> {
    let mut parts = Vec::new(alloc);
    for (part, times) in POLLS {
        for _ in 0..*times {
            parts.push(*part)?;
        }
    }
    Ok(parts)
}

#[test]
fn many_polls(rt: HostRuntime) -> Result<(), Fail> {
    let parts = polls(rt.alloc())?;
    let (exchanges, states) = run_of(&rt, rt.alloc(), parts.as_slice(), Hands::Allowed)?;
    let moves = moves(rt.alloc(), exchanges.as_slice(), states.as_slice())?;
    same(&rt, moves, 1, "a hand sets IN");
    for (place, state) in states.iter().enumerate().skip(1) {
        same(
            &rt,
            (state.ins, state.panel),
            (frame_at(place, 602), true),
            place,
        );
    }
    Ok(())
}

/// As many as a run goes back through in several stretches.
#[test]
fn many_polls_of_a_deck_that_nobody_touches(rt: HostRuntime) -> Result<(), Fail> {
    let parts = polls(rt.alloc())?;
    let untouched = parts.as_slice().get(..602).unwrap_or_default();
    let (_, states) = run_of(&rt, rt.alloc(), untouched, Hands::None)?;
    let (_, touched) = run_of(&rt, rt.alloc(), untouched, Hands::Allowed)?;
    same(&rt, touched.as_slice(), states.as_slice(), "602 exchanges");
    Ok(())
}

/// Whether the panel may be on after an exchange.
fn may_be_on(exchange: &Exchange, before: bool) -> bool {
    if exchange.reply.bytes.first() == Some(&0x11) {
        return before;
    }
    match exchange.command {
        Command::LocalDisable => false,
        Command::LocalEnable => true,
        Command::Unlisted { head } => before || ![2, 4, 6].contains(&(head / 0x10_00)),
        _ => before,
    }
}

/// Writes down that so many stretches lead to an end, if no fewer do.
fn note_end(fewest: &mut [Option<usize>], end: usize, stretches: usize) {
    if let Some(least) = fewest.get_mut(end) {
        *least = Some(least.map_or(stretches, |known| known.min(stretches)));
    }
}

/// Writes down the ends of all stretches that begin at a place, where a new deck begins, with how many stretches lead to
/// each end.
fn note_reached(
    tracker: &mut Tracker<SpanSet>,
    exchanges: &[Exchange],
    start: usize,
    stretches: usize,
    fewest: &mut [Option<usize>],
) -> Result<(), AllocError> {
    for (at, exchange) in exchanges.iter().enumerate().skip(start) {
        if !tracker.observe(&exchange.command, &exchange.reply)? {
            return Ok(());
        }
        note_end(fewest, at.saturating_add(1), stretches);
    }
    Ok(())
}

/// The same with the new deck. It does no more, since each way out of a function that owns a tracker makes its proof
/// much longer.
fn note_ends(
    alloc: Global,
    exchanges: &[Exchange],
    start: usize,
    stretches: usize,
    fewest: &mut [Option<usize>],
) -> Result<(), AllocError> {
    let mut tracker = Tracker::<SpanSet>::new(alloc, Hands::None)?;
    note_reached(&mut tracker, exchanges, start, stretches, fewest)
}

/// The fewest moves of a hand, by way of all stretches that a deck goes through which nobody touches.
fn fewest_moves(alloc: Global, exchanges: &[Exchange]) -> Result<Option<usize>, AllocError> {
    let mut fewest = Vec::new(alloc);
    fewest.push(Some(0usize))?;
    for _ in exchanges {
        fewest.push(None)?;
    }
    let mut is_on = true;
    for (at, exchange) in exchanges.iter().enumerate() {
        if let (true, Some(Some(before))) = (is_on, fewest.get(at).copied()) {
            let stretches = before.saturating_add(1);
            note_ends(alloc, exchanges, at, stretches, fewest.as_mut_slice())?;
        }
        is_on = may_be_on(exchange, is_on);
    }
    let stretches = fewest.last().copied().flatten();
    Ok(stretches.map(|stretches| stretches.saturating_sub(1)))
}

/// The run of a capture, where that is a yes.
pub(super) fn run_if_yes(alloc: Global, text: &str) -> Option<Run> {
    match judge_with_run(alloc, text.as_bytes(), Hands::Allowed) {
        Ok(
            RunVerdict::Yes {
                exchanges,
                states,
                ..
            },
        ) => Some(Run { exchanges, states }),
        _ => None,
    }
}

/// The run of the same exchanges with its moves: it is this run.
pub(super) fn touched_run(rt: &impl Abort, alloc: Global, run: &Run) -> Result<TouchedRun, Fail> {
    let profile = Profile::of(Hands::Allowed);
    let Some(touched) = run9::fewest_moves(alloc, &profile, &run.exchanges)? else {
        fail(rt, "a run with the fewest moves")
    };
    same(
        rt,
        touched.states.as_slice(),
        run.states.as_slice(),
        "the run that is judged",
    );
    Ok(touched)
}

/// How often a hand moves in the run of a capture, where that is a yes. No other run of it has fewer moves.
fn tell_moves(rt: &impl Abort, alloc: Global, text: &str) -> Result<Option<usize>, AllocError> {
    let Some(run) = run_if_yes(alloc, text) else {
        return Ok(None);
    };
    let moves = Some(moves(alloc, run.exchanges.as_slice(), run.states.as_slice())?);
    let fewest = fewest_moves(alloc, run.exchanges.as_slice())?;
    same(rt, moves, fewest, text);
    Ok(moves)
}

/// Notes that there is a capture that needs so many moves.
fn note(seen: &mut [bool], moves: usize) {
    if let Some(seen) = seen.get_mut(moves) {
        *seen = true;
    }
}

#[test]
fn captures_that_are_drawn(rt: HostRuntime) -> Result<(), Fail> {
    let mut draw = Draw(1);
    let mut seen = [false; 4];
    for _ in 0..CAPTURES {
        let text = drawn(rt.alloc(), &mut draw)?;
        let moves = tell_moves(&rt, rt.alloc(), text.as_str())?;
        if let Some(moves) = moves {
            note(&mut seen, moves);
        }
    }
    // Captures that need no hand, one move of it, two and three are among them.
    same(&rt, seen, [true; 4], "moves of a hand");
    Ok(())
}
