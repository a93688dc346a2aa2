//! The way back from the end of a capture to a run of the deck.
//!
//! A run is found backwards: from a state in which the deck can be at the end, through the exchanges, to one before the first
//! of them. That needs the states that were possible before each exchange. They are made again from the first ones, and kept
//! at marks: few where they take much memory, and before each exchange of the range that is gone back through next.
ghost use Rattle.std.specs.Prelude.{◌≡◌, ◌<◌, ◌≤◌, ◌+◌, ◌++◌, [], ◌∷◌, IfOk, List, OnOk, length};
ghost use Rattle.deck9.specs.Run.{IsRun};
ghost use Rattle.deck9.specs.Step.{Goes};
ghost use Rattle.deck9.specs.declared.state.State.{State as AState};
ghost use Rattle.run9.specs.Working.{CanComeFrom, ComesFrom, AreMarks, GoesBack, LastMarkFollows, last_mark, place_of, tracked_by};
ghost use Rattle.run9.specs.declared.way_back.Mark.{Mark as AMark};
ghost use Rattle.track9.specs.Following.{KeepsEnds, LeadsFrom};
ghost use Rattle.track9.specs.Tracker.{Possible};

use crate::search::Search;
use block9::Exchange;
use deck9::State;
use sets25::{SharedSet, SpanSet};
use std::alloc::AllocError;
use track9::{Lasting, Tracker};

/// A tracker, and how many of the exchanges come before it.
#[derive(Drop)]
pub(crate) struct Mark<'d> {
    place: usize,
    tracker: Tracker<'d, SharedSet>,
}

impl Search<'_> {
    /// The states after each of these exchanges in a run that ends in a state of this tracker.
    pub(crate) fn states_to(
        &self,
        exchanges: &[Exchange],
        end: &Tracker<SpanSet>,
    ) -> Result<Vec<State>, AllocError>
        requires keeps { KeepsEnds self.now.profile.now exchanges.now end.now }
        requires some { (s : AState) × Possible end.now.states s }
        requires lasting { self.now.lasting ≡ Lasting.UntilEnded }
        ensures { IfOk result (λ states. IsRun self.now.profile.now exchanges.now states.items) }
    {
        let Some(last) = end.member() else {
            unreachable!();
        };
        let first = Tracker::of(self.alloc, self.profile)?;
        let mut states = Vec::new(self.alloc);
        let found = self.go_back_to(&first, exchanges, last, &mut states);
        drop(first);
        match found {
            Ok(_) => {}
            Err(error) => return Err(error),
        }
        states.reverse();
        Ok(states)
    }

    /// Goes back from the state `end` through all of these exchanges to one of the states that the tracker before them keeps. The
    /// states after each exchange are put after `states`, the last one first.
    pub(crate) fn go_back_to(
        &self,
        first: &Tracker<SharedSet>,
        exchanges: &[Exchange],
        end: State,
        states: &mut Vec<State>,
    ) -> Result<State, AllocError>
        requires { LeadsFrom self.now.lasting first.now exchanges.now end }
        ensures { IfOk result (GoesBack self.now.lasting first.now.profile first.now.going (Possible first.now.states) exchanges.now end states.old.items states.new.items) }
    {
        let mut marks = Vec::new(self.alloc);
        let mut state = end;
        let mut at = exchanges.len();
        while at > 0 {
            at -= 1;
            self.lead_up(first, &mut marks, exchanges, at)?;
            state = step_back_to_nearest(first, &marks, &exchanges[at], state, states)?;
            drop(marks.pop());
        }
        Ok(state)
    }

    /// Puts marks after the last one, until a tracker is the one before the exchange at `at`.
    fn lead_up<'d>(
        &self,
        first: &Tracker<'d, SharedSet>,
        marks: &mut Vec<Mark<'d>>,
        exchanges: &[Exchange],
        at: usize,
    ) -> Result<(), AllocError>
        requires place { at < length exchanges.now }
        requires marks { AreMarks self.now.lasting first.now exchanges.now (at + 1) marks.old.items }
        ensures marks { OnOk result (AreMarks self.now.lasting first.now exchanges.now (at + 1) marks.new.items) }
        ensures nearest { OnOk result (place_of (last_mark marks.new.items) ≡ at) }
    {
        loop {
            let place = last_place(marks);
            if place == at {
                return Ok(());
            }
            let next = place + self.pace.step(at - place);
            let copy = copy_of_nearest(first, marks)?;
            marks.push(Mark {
                place: next,
                tracker: copy,
            })?;
            go_on(marks, &exchanges[place..next], self.lasting)?;
        }
    }
}

/// How many exchanges come before the last tracker that is marked, or else before the first one.
fn last_place(marks: &[Mark]) -> usize
    ensures { result ≡ place_of (last_mark marks.now) }
{
    match marks.last() {
        Some(mark) => mark.place,
        None => 0,
    }
}

/// A tracker equal to the last one that is marked, or else to the first one. An error comes where memory is refused.
fn copy_of_nearest<'d>(
    first: &Tracker<'d, SharedSet>,
    marks: &[Mark<'d>],
) -> Result<Tracker<'d, SharedSet>, AllocError>
    ensures { IfOk result (λ t. t ≡ tracked_by first.now (last_mark marks.now)) }
{
    match marks.last() {
        Some(mark) => mark.tracker.snapshot(),
        None => first.snapshot(),
    }
}

/// Takes these exchanges into the last tracker that is marked, where it stands: a tracker is large.
fn go_on(marks: &mut Vec<Mark>, exchanges: &[Exchange], lasting: Lasting) -> Result<(), AllocError>
    ensures { (before : List AMark) (m : AMark) → marks.old.items ≡ before ++ m ∷ [] → OnOk result (LastMarkFollows lasting before m exchanges.now marks.new.items) }
{
    let Some(mark) = marks.last_mut() else {
        return Ok(());
    };
    mark.tracker.follow_as(exchanges, lasting)
}

/// Puts the state after an exchange after the others, and answers one that it may come from: one of the last tracker that is
/// marked, or else of the first one.
fn step_back_to_nearest(
    first: &Tracker<SharedSet>,
    marks: &[Mark],
    exchange: &Exchange,
    state: State,
    states: &mut Vec<State>,
) -> Result<State, AllocError>
    requires { CanComeFrom (tracked_by first.now (last_mark marks.now)) exchange.now state }
    ensures from { IfOk result (ComesFrom (tracked_by first.now (last_mark marks.now)) exchange.now state) }
    ensures put { OnOk result (states.new.items ≡ states.old.items ++ state ∷ []) }
{
    match marks.last() {
        Some(mark) => step_back(&mark.tracker, exchange, state, states),
        None => step_back(first, exchange, state, states),
    }
}

/// Puts the state after an exchange after the others, and answers one that it may come from.
fn step_back(
    before: &Tracker<SharedSet>,
    exchange: &Exchange,
    state: State,
    states: &mut Vec<State>,
) -> Result<State, AllocError>
    requires { CanComeFrom before.now exchange.now state }
    ensures from { IfOk result (ComesFrom before.now exchange.now state) }
    ensures put { OnOk result (states.new.items ≡ states.old.items ++ state ∷ []) }
{
    let Some(earlier) = before.before_exchange(exchange, &state) else {
        unreachable!();
    };
    states.push(state)?;
    Ok(earlier)
}
