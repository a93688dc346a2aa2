//! Runs in which one field of one state is changed to what no run can have there.
//!
//! Whether a run can have it is decided from the rules of the deck, by the exchange and the states before and after alone.
//! Every field of each state of a run is changed wherever one of these says that it can't be:
//!
//! | Field | Changed |
//! |---|---|
//! | goal | to another one, after a transport command that a deck in REMOTE acknowledged; to one that is neither that of the state before, nor STOP, nor the command's; to another one than the state after still has |
//! | shown | to a mode without the bits that status data 1 or 2 told; to one that is neither that of the state before nor on the way to its goal; to another one than the state after still shows |
//! | each register | to another time than its sense told; Set or Clear against status datum 3; to another time or Clear after a preset, Clear after an entry, and Set after a reset, of a deck in REMOTE; to a time that is neither that of the state before, nor next to it, nor the command's; Set or Clear where the state before or after is not; to another time than the state after still has |
//! | local | after status datum 0; to another value than the state before or after has |
//! | panel | to on where nobody touches it; after LOCAL ENABLE and LOCAL DISABLE; to another value than the state before or after has |
//!
//! The states before and after count where no hand can have been between, since the panel was off, and the command does not
//! make the deck forget the field. A deck that does what is asked at a drift may have any goal, or may have captured any time:
//! where nothing of this says what a field was, it is not changed.
mod commands;
mod done;
mod entries;
mod fields;
mod kept;
mod told;

use super::parts::*;
use super::{capture, fail, same};
use block9::Exchange;
use deck9::{Hands, Register, State};
use done::{cleared, redirected, replaced, set_again, switched, touched};
use entries::REGISTERS;
use judge9::{RunVerdict, is_run, judge_with_run};
use kept::{
    lost_goal, lost_register, lost_shown, strayed_goal, strayed_local, strayed_panel,
    strayed_register, strayed_shown, turned,
};
use std::alloc::{AllocError, Global};
use std::process::Abort;
use std::test::Fail;
use told::{recounted, relocated, retold, shown_against_datum_1, shown_against_datum_2};

/// A state of a run, with what leads to it and away from it.
#[derive(Clone, Copy)]
struct Place<'a> {
    hands: Hands,
    /// The state before the exchange. There is none before the first: that may be any.
    before: Option<&'a State>,
    exchange: &'a Exchange,
    state: &'a State,
    /// The exchange that comes next, and the state after it.
    next: Option<(&'a Exchange, &'a State)>,
}

/// The state with one field changed that is no register, by each of the ways that can't be there.
fn changes(place: &Place) -> [Option<State>; 12] {
    [
        redirected(place),
        strayed_goal(place),
        lost_goal(place),
        shown_against_datum_1(place),
        shown_against_datum_2(place),
        strayed_shown(place),
        lost_shown(place),
        relocated(place),
        strayed_local(place),
        touched(place),
        switched(place),
        strayed_panel(place),
    ]
}

/// The state with a register changed, by each of the ways that can't be there.
fn register_changes(place: &Place, register: Register) -> [Option<State>; 8] {
    [
        retold(place, register),
        recounted(place, register),
        replaced(place, register),
        cleared(place, register),
        set_again(place, register),
        strayed_register(place, register),
        turned(place, register),
        lost_register(place, register),
    ]
}

/// An exchange of a run, and the state after it.
fn reached<'a>(
    exchanges: &'a [Exchange],
    states: &'a [State],
    at: usize,
) -> Option<(&'a Exchange, &'a State)> {
    Some((exchanges.get(at)?, states.get(at)?))
}

/// The state before that one. There is none before the first.
fn state_before<'a>(states: &'a [State], at: usize) -> Option<&'a State> {
    states.get(at.checked_sub(1)?)
}

/// The place of a state in a run.
fn place_of<'a>(
    hands: Hands,
    exchanges: &'a [Exchange],
    states: &'a [State],
    at: usize,
) -> Option<Place<'a>> {
    let (exchange, state) = reached(exchanges, states, at)?;
    Some(Place {
        hands,
        before: state_before(states, at),
        exchange,
        state,
        next: reached(exchanges, states, at.saturating_add(1)),
    })
}

/// The second opinion refuses the run with any of these at a place.
fn refuse_each(
    rt: &impl Abort,
    hands: Hands,
    exchanges: &[Exchange],
    states: &mut [State],
    at: usize,
    changes: &[Option<State>],
) {
    for change in changes {
        if let (Some(changed), Some(state)) = (change, states.get_mut(at)) {
            *state = *changed;
            let is_run = is_run(exchanges, states, hands);
            same(rt, is_run, false, at);
        }
    }
}

/// The second opinion refuses the run with any one of the changes at a place.
fn refuse(rt: &impl Abort, place: &Place, exchanges: &[Exchange], states: &mut [State], at: usize) {
    refuse_each(rt, place.hands, exchanges, states, at, &changes(place));
    for register in REGISTERS {
        let changes = register_changes(place, register);
        refuse_each(rt, place.hands, exchanges, states, at, &changes);
    }
}

/// The second opinion refuses the run with any one of the changes: to each state where there are fewer than 64, and in a
/// longer run to every third, fifth or so on, an odd number, so that no part of a turn of exchanges is left out.
pub(super) fn refuse_changes(
    rt: &impl Abort,
    alloc: Global,
    hands: Hands,
    exchanges: &[Exchange],
    states: &[State],
) -> Result<(), AllocError> {
    let mut copy = copy_of(alloc, states)?;
    let stride = (states.len() / 64).saturating_mul(2).saturating_add(1);
    for at in 0..states.len() {
        if at.checked_rem(stride) != Some(0) {
            continue;
        }
        if let Some(place) = place_of(hands, exchanges, states, at) {
            refuse(rt, &place, exchanges, copy.as_mut_slice(), at);
            put_back(copy.as_mut_slice(), at, place.state);
        }
    }
    Ok(())
}

/// The states of a run, to be changed.
fn copy_of(alloc: Global, states: &[State]) -> Result<Vec<State>, AllocError> {
    let mut copy = Vec::new(alloc);
    for state in states {
        copy.push(*state)?;
    }
    Ok(copy)
}

/// Puts the state of a run back after its changes.
fn put_back(copy: &mut [State], at: usize, state: &State) {
    if let Some(changed) = copy.get_mut(at) {
        *changed = *state;
    }
}

/// Exchanges at which each of the changes is made, some of them where hands are allowed and some where they are not.
const TRIED: &[&str] = &[
    DISABLE,
    REMOTE,
    FAST_FORWARD,
    SHOWS_FF,
    PLAY,
    SHOWS_FF,
    PRESET_10,
    IN_10,
    IN_SET,
    "C 40 20 60 D 10 01 11",
];

/// Marks the changes that are made.
fn mark(made: &mut [bool], changes: &[Option<State>]) {
    for (place, change) in changes.iter().enumerate() {
        if let (Some(made), Some(_)) = (made.get_mut(place), change) {
            *made = true;
        }
    }
}

/// Marks the changes that are made in a run, those of IN apart.
fn mark_all(
    made: &mut [bool],
    made_to_in: &mut [bool],
    hands: Hands,
    exchanges: &[Exchange],
    states: &[State],
) {
    for at in 0..states.len() {
        if let Some(place) = place_of(hands, exchanges, states, at) {
            mark(made, &changes(&place));
            mark(made_to_in, &register_changes(&place, Register::RegIn));
        }
    }
}

/// Marks the changes that are made in the run of a capture.
fn mark_run(
    rt: &impl Abort,
    alloc: Global,
    text: &str,
    hands: Hands,
    (made, made_to_in): (&mut [bool], &mut [bool]),
) {
    let run = judge_with_run(alloc, text.as_bytes(), hands).expect(rt, "a verdict");
    let RunVerdict::Yes {
        exchanges,
        states,
        ..
    } = &run
    else {
        fail(rt, text)
    };
    mark_all(
        made,
        made_to_in,
        hands,
        exchanges.as_slice(),
        states.as_slice(),
    );
}

#[test]
fn each_change_is_made(rt: HostRuntime) -> Result<(), Fail> {
    let text = capture(rt.alloc(), TRIED)?;
    let (mut made, mut made_to_in) = ([false; 12], [false; 8]);
    for hands in [Hands::None, Hands::Allowed] {
        mark_run(
            &rt,
            rt.alloc(),
            text.as_str(),
            hands,
            (&mut made, &mut made_to_in),
        );
    }
    same(&rt, made, [true; 12], "changes of what is no register");
    same(&rt, made_to_in, [true; 8], "changes of IN");
    Ok(())
}
