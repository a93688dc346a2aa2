//! What a hand keeps, beside a slow way that asks for each field whether any states before and behind its move could have it.

use super::drawn::{CAPTURES, Draw, drawn};
use super::fewest_hands::{Run, run_if_yes, touched_run};
use super::parts::*;
use super::{capture, fail, same};
use block9::Exchange;
use deck9::{HandMove, Hands, Profile, State};
use sets25::SpanSet;
use std::alloc::{AllocError, Global};
use std::process::Abort;
use std::test::Fail;
use track9::{Kept, Start, Tracker};

/// FULL EE ON, acknowledged: the deck may have forgotten goal, shown mode and registers.
const FULL_EE_ON: &str = "C 20 61 81 D 10 01 11";

/// A letter for each field in the order in which a hand keeps them: local, IN, OUT, audio IN, audio OUT, goal, shown.
const LETTERS: [char; 7] = ['l', 'i', 'o', 'a', 'b', 'g', 's'];

/// Which fields two states agree in.
fn agreed(before: &State, behind: &State) -> [bool; 7] {
    [
        before.local == behind.local,
        before.ins == behind.ins,
        before.outs == behind.outs,
        before.ains == behind.ains,
        before.aouts == behind.aouts,
        before.goal == behind.goal,
        before.shown == behind.shown,
    ]
}

/// The same as a tracker is told.
fn kept(fields: [bool; 7]) -> Kept {
    let [local, ins, outs, ains, aouts, goal, shown] = fields;
    Kept {
        goal,
        shown,
        ins,
        outs,
        ains,
        aouts,
        local,
    }
}

/// The letters of the fields that a move changes.
fn changed(alloc: Global, moved: &HandMove) -> Result<String, AllocError> {
    let mut letters = String::new(alloc);
    for (letter, agrees) in LETTERS.iter().zip(agreed(&moved.before, &moved.behind)) {
        if !agrees {
            letters.push(*letter)?;
        }
    }
    Ok(letters)
}

/// Every field is known.
fn whole(state: &State) -> Start {
    Start {
        goal: Some(state.goal),
        shown: Some(state.shown),
        ins: Some(state.ins),
        outs: Some(state.outs),
        ains: Some(state.ains),
        aouts: Some(state.aouts),
        local: Some(state.local),
    }
}

/// The same state with the panel off.
fn untouched(state: &State) -> State {
    State {
        panel: false,
        ..*state
    }
}

/// Whether a drift alone leads an untouched deck from one state to another.
fn drifts(alloc: Global, from: &State, to: &State) -> Result<bool, AllocError> {
    let profile = Profile::of(Hands::None);
    let tracker: Tracker<SpanSet> = Tracker::starting(alloc, &profile, &whole(from))?;
    let before = tracker.before_drift(to);
    drop(tracker);
    Ok(before.is_some())
}

/// Whether an exchange leads an untouched deck from one state to another.
fn leads(alloc: Global, from: &State, exchange: &Exchange, to: &State) -> Result<bool, AllocError> {
    let profile = Profile::of(Hands::None);
    let tracker: Tracker<SpanSet> = Tracker::starting(alloc, &profile, &whole(from))?;
    let before = tracker.before_exchange(exchange, to);
    drop(tracker);
    Ok(before.is_some())
}

/// A drift leads from the state before a move to the one that the hand found, and the next exchange from the one that it left to
/// the state behind.
fn fits(rt: &impl Abort, alloc: Global, run: &Run, moved: &HandMove) -> Result<(), Fail> {
    let last = moved.place.saturating_sub(1);
    let (Some(exchange), Some([before, behind])) = (
        run.exchanges.get(moved.place),
        run.states.get(last..=moved.place),
    ) else {
        fail(rt, moved.place)
    };
    let drifts = drifts(alloc, &untouched(before), &untouched(&moved.before))?;
    same(rt, drifts, true, moved.place);
    let leads = leads(
        alloc,
        &untouched(&moved.behind),
        exchange,
        &untouched(behind),
    )?;
    same(rt, leads, true, moved.place);
    same(
        rt,
        moved.before.panel && moved.behind.panel,
        true,
        moved.place,
    );
    Ok(())
}

/// Takes these exchanges, and answers whether a state remains.
fn remains(tracker: &mut Tracker<SpanSet>, exchanges: &[Exchange]) -> Result<bool, AllocError> {
    for exchange in exchanges {
        tracker.observe(&exchange.command, &exchange.reply)?;
    }
    Ok(tracker.remains())
}

/// Whether a hand that finds one of these states can keep these fields.
fn can_keep(
    found: &Tracker<SpanSet>,
    fields: [bool; 7],
    exchanges: &[Exchange],
) -> Result<bool, AllocError> {
    let mut tracker = found.touched(&kept(fields))?;
    let remains = remains(&mut tracker, exchanges);
    drop(tracker);
    remains
}

/// The most that a hand can keep, field by field.
fn most_kept(found: &Tracker<SpanSet>, exchanges: &[Exchange]) -> Result<[bool; 7], AllocError> {
    let mut fields = [false; 7];
    for place in 0..7 {
        fields[place] = true;
        fields[place] = can_keep(found, fields, exchanges)?;
    }
    Ok(fields)
}

/// The states from which the stretch behind a move goes on.
fn goes_on<'a>(
    rt: &impl Abort,
    mut found: Tracker<'a, SpanSet>,
    before: &[Exchange],
    behind: &[Exchange],
    moved: &HandMove,
) -> Result<Tracker<'a, SpanSet>, AllocError> {
    remains(&mut found, before)?;
    found.drift()?;
    let fields = agreed(&moved.before, &moved.behind);
    same(rt, fields, most_kept(&found, behind)?, moved.place);
    found.touched(&kept(fields))
}

/// The most is kept at each of these moves.
fn keeps_most(
    rt: &impl Abort,
    alloc: Global,
    exchanges: &[Exchange],
    moves: &[HandMove],
) -> Result<(), AllocError> {
    let profile = Profile::of(Hands::None);
    let mut tracker = Tracker::starting(alloc, &profile, &Start::default())?;
    let mut start = 0;
    for (at, moved) in moves.iter().enumerate() {
        let end = moves
            .get(at.saturating_add(1))
            .map_or(exchanges.len(), |next| next.place);
        let before = exchanges.get(start..moved.place).unwrap_or_default();
        let behind = exchanges.get(moved.place..end).unwrap_or_default();
        tracker = goes_on(rt, tracker, before, behind, moved)?;
        start = moved.place;
    }
    Ok(())
}

/// Each move of a run fits into it and keeps the most. Answers how many there are.
fn moves_fit(rt: &impl Abort, alloc: Global, run: &Run) -> Result<usize, Fail> {
    let touched = touched_run(rt, alloc, run)?;
    for moved in &touched.moves {
        fits(rt, alloc, run, moved)?;
    }
    keeps_most(rt, alloc, &run.exchanges, &touched.moves)?;
    Ok(touched.moves.len())
}

#[test]
fn captures_that_are_drawn(rt: HostRuntime) -> Result<(), Fail> {
    let mut draw = Draw(1);
    let mut moves = 0usize;
    for _ in 0..CAPTURES {
        let text = drawn(rt.alloc(), &mut draw)?;
        if let Some(run) = run_if_yes(rt.alloc(), text.as_str()) {
            moves = moves.saturating_add(moves_fit(&rt, rt.alloc(), &run)?);
        }
    }
    // Hands have to move often enough.
    same(&rt, moves > 60, true, moves);
    Ok(())
}

/// The one move of a capture: after how many exchanges it comes, and which fields it changes.
fn has_one_move(
    rt: &impl Abort,
    alloc: Global,
    parts: &[&str],
    place: usize,
    letters: &str,
) -> Result<(), Fail> {
    let text = capture(alloc, parts)?;
    let Some(run) = run_if_yes(alloc, text.as_str()) else {
        fail(rt, parts)
    };
    let touched = touched_run(rt, alloc, &run)?;
    let [moved] = touched.moves.as_slice() else {
        fail(rt, parts)
    };
    same(rt, moved.place, place, parts);
    same(rt, changed(alloc, moved)?.as_str(), letters, parts);
    Ok(())
}

/// What a register holds that was forgotten is no choice of a hand: it may have been from the first what is sensed at the end.
#[test]
fn a_point_that_was_forgotten(rt: HostRuntime) -> Result<(), Fail> {
    let parts = &[PRESET_10, FULL_EE_ON, REMOTE, LOCAL, IN_10];
    has_one_move(&rt, rt.alloc(), parts, 3, "l")
}

/// The deck was in LOCAL and ignored the preset.
#[test]
fn a_deck_that_was_switched_to_remote(rt: HostRuntime) -> Result<(), Fail> {
    has_one_move(&rt, rt.alloc(), &[PRESET_10, IN_11, REMOTE], 2, "l")
}

/// The deck in REMOTE did what it acknowledged, so a hand has set IN.
#[test]
fn a_point_that_was_moved(rt: HostRuntime) -> Result<(), Fail> {
    has_one_move(&rt, rt.alloc(), &[REMOTE, PRESET_10, IN_11], 2, "i")
}
