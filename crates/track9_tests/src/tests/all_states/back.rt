//! The way back: a state before an exchange, or before a drift, from which it leads to one that is drawn. There is one exactly where the
//! listed deck comes there, and it is one from which the listed deck comes there.

use super::Course;
use super::listed::ListedDeck;
use crate::tests::plain_deck::{PlainState, time_of};
use crate::tests::{complete, named_block, same};
use block9::{Block, Command};
use deck9::{Entry, Register, State};
use sets25::SpanSet;
use std::alloc::AllocError;
use std::process::Abort;
use tc25::TimeCode;
use track9::Tracker;

/// What leads to a state.
#[derive(Clone, Copy)]
pub(super) enum Way<'b> {
    Exchange(&'b Command, &'b Block),
    Drift,
}

/// The listed deck goes this way.
fn go(deck: &mut ListedDeck, way: Way) -> Result<(), AllocError> {
    match way {
        Way::Exchange(command, reply) => deck.observe(command, reply),
        Way::Drift => deck.drift(),
    }
}

/// What the tracker finds before it.
fn found_before(
    rt: &impl Abort,
    tracker: &Tracker<SpanSet>,
    way: Way,
    target: &State,
) -> Option<State> {
    match way {
        Way::Exchange(command, reply) => {
            let exchange = complete(command, named_block(rt, command), reply);
            tracker.before_exchange(&exchange, target)
        }
        Way::Drift => tracker.before_drift(target),
    }
}

fn entry_of(state: &PlainState, register: Register) -> Entry {
    match time_of(state, register) {
        Some(time) => Entry::At(time),
        None => Entry::Clear,
    }
}

fn state_of(state: &PlainState) -> State {
    State {
        goal: state.goal,
        shown: state.shown,
        ins: entry_of(state, Register::RegIn),
        outs: entry_of(state, Register::RegOut),
        ains: entry_of(state, Register::RegAudioIn),
        aouts: entry_of(state, Register::RegAudioOut),
        local: state.local,
        panel: state.panel,
    }
}

/// The time of a register, in the day of the listed deck. One of another day is found only where any will do: it stands for the one
/// that is as far from the first of the day.
fn listed_time(times: &[TimeCode; 3], entry: &Entry) -> Option<TimeCode> {
    match entry {
        Entry::Clear => None,
        Entry::At(time) if times.contains(time) => Some(*time),
        Entry::At(time) if times.first() == Some(&time.next()) => times.last().copied(),
        Entry::At(_) => times.first().copied(),
    }
}

fn listed_of(times: &[TimeCode; 3], state: &State) -> PlainState {
    PlainState {
        goal: state.goal,
        shown: state.shown,
        times: [
            listed_time(times, &state.ins),
            listed_time(times, &state.outs),
            listed_time(times, &state.ains),
            listed_time(times, &state.aouts),
        ],
        local: state.local,
        panel: state.panel,
    }
}

/// From this state, which is possible, the listed deck comes to the target.
fn leads_to(
    rt: &impl Abort,
    deck: &ListedDeck,
    way: Way,
    state: &PlainState,
    target: &PlainState,
) -> Result<(), AllocError> {
    same(rt, deck.has(state), true, "a possible state");
    let mut only = deck.only(state)?;
    let result = go(&mut only, way);
    same(rt, only.has(target), true, "a state that leads there");
    drop(only);
    result
}

/// The tracker goes back from this state as the listed deck comes to it.
fn go_back_from(
    rt: &impl Abort,
    deck: &ListedDeck,
    tracker: &Tracker<SpanSet>,
    course: &Course,
    way: Way,
    target: &PlainState,
    is_reached: bool,
) -> Result<(), AllocError> {
    let found = found_before(rt, tracker, way, &state_of(target));
    same(rt, found.is_some(), is_reached, "a way back");
    match found {
        Some(state) => leads_to(rt, deck, way, &listed_of(&course.times, &state), target),
        None => Ok(()),
    }
}

/// The same from a state that is drawn, where there is one.
pub(super) fn go_back(
    rt: &impl Abort,
    deck: &ListedDeck,
    tracker: &Tracker<SpanSet>,
    course: &mut Course,
    way: Way,
) -> Result<(), AllocError> {
    let mut after = deck.copy()?;
    let result = go(&mut after, way);
    let target = after.drawn_state(&mut course.draw);
    let is_reached = match &target {
        Some(target) => after.has(target),
        None => false,
    };
    drop(after);
    result?;
    match &target {
        Some(target) => go_back_from(rt, deck, tracker, course, way, target, is_reached),
        None => Ok(()),
    }
}
