//! The way back through the stretches, and over the moves of a hand between them.
//!
//! It is not proved to find a run: `is_run_of` is asked whether what it finds is one.
ghost use Rattle.std.specs.Prelude.{◌≡◌, IfOk, IfSome};
ghost use Rattle.track9.specs.Tracker.{Possible};

use crate::panel::{switch_on_for_hand, switch_panels};
use crate::search::Search;
use crate::stretches::{Stretch, drifted};
use crate::touched_run::TouchedRun;
use block9::Exchange;
use deck9::{HandMove, State};
use sets25::SharedSet;
use std::alloc::AllocError;
use track9::{Kept, Lasting, Start, Tracker};

/// A hand that has moved.
#[derive(Clone, Copy)]
struct Hand {
    /// How many exchanges come before its move.
    place: usize,
    /// What it kept.
    kept: Kept,
    /// The state behind its move, with the panel off.
    behind: State,
}

impl Hand {
    /// What is known of the state before its move.
    fn found(&self) -> Start {
        let (kept, behind) = (&self.kept, &self.behind);
        Start {
            goal: kept.goal.then_some(behind.goal),
            shown: kept.shown.then_some(behind.shown),
            ins: kept.ins.then_some(behind.ins),
            outs: kept.outs.then_some(behind.outs),
            ains: kept.ains.then_some(behind.ains),
            aouts: kept.aouts.then_some(behind.aouts),
            local: Some(behind.local == kept.local),
        }
    }

    /// The move that found the deck in this state.
    fn moved(&self, before: &State) -> HandMove {
        HandMove {
            place: self.place,
            before: with_panel_on(before),
            behind: with_panel_on(&self.behind),
        }
    }
}

/// The same state with the panel on.
fn with_panel_on(state: &State) -> State {
    State {
        panel: true,
        ..*state
    }
}

impl Search<'_> {
    /// The run that goes back through these stretches of all exchanges, or `None` where they have none.
    pub(crate) fn run_through(
        &self,
        exchanges: &[Exchange],
        stretches: &[Stretch],
    ) -> Result<Option<TouchedRun>, AllocError>
        requires { self.now.lasting ≡ Lasting.Throughout }
    {
        let mut run = TouchedRun {
            states: Vec::new(self.alloc),
            moves: Vec::new(self.alloc),
        };
        if !self.put_stretches(exchanges.len(), stretches, &mut run)? {
            return Ok(None);
        }
        run.states.reverse();
        run.moves.reverse();
        for moved in &run.moves {
            let before = exchanges.get(..moved.place).unwrap_or_default();
            switch_on_for_hand(self.profile, before, &mut run.states);
        }
        switch_panels(self.profile, exchanges, &mut run.states);
        Ok(Some(run))
    }

    /// Puts the states after each of so many exchanges, and the moves of a hand between the stretches, into a run that has none
    /// yet, the last ones first and with the panel off. It answers whether there are such states.
    fn put_stretches(
        &self,
        exchanges: usize,
        stretches: &[Stretch],
        run: &mut TouchedRun,
    ) -> Result<bool, AllocError>
        requires { self.now.lasting ≡ Lasting.Throughout }
    {
        let mut place = exchanges;
        let mut hand = None;
        for stretch in stretches.iter().rev() {
            let Some(behind) = self.put_stretch(stretch, &hand, run)? else {
                return Ok(false);
            };
            place = place.saturating_sub(stretch.exchanges.len());
            hand = Some(Hand {
                place,
                kept: stretch.kept,
                behind,
            });
        }
        Ok(true)
    }

    /// Puts the states of a stretch that ends where this hand moves, or else with the last exchange, and the hand's move. It answers
    /// the state in which the stretch begins, or `None` where there is none.
    fn put_stretch(
        &self,
        stretch: &Stretch,
        hand: &Option<Hand>,
        run: &mut TouchedRun,
    ) -> Result<Option<State>, AllocError>
        requires { self.now.lasting ≡ Lasting.Throughout }
    {
        let last = stretch.last()?;
        let end = put_move(&last, hand, &mut run.moves);
        drop(last);
        let Some(end) = end? else {
            return Ok(None);
        };
        let first = self.go_back_to(&stretch.first, stretch.exchanges, end, &mut run.states)?;
        Ok(Some(first))
    }
}

/// Puts the move of a hand, if there is one, and answers a state of the tracker's in which a stretch ends before it.
fn put_move(
    last: &Tracker<SharedSet>,
    hand: &Option<Hand>,
    moves: &mut Vec<HandMove>,
) -> Result<Option<State>, AllocError>
    ensures { IfOk result (λ o. IfSome o (Possible last.now.states)) }
{
    let Some(hand) = hand else {
        return Ok(last.member());
    };
    let found = drifted(last.snapshot()?)?;
    let before = found.member_with(&hand.found());
    drop(found);
    match before {
        Some(before) => {
            moves.push(hand.moved(&before))?;
            Ok(last.before_drift(&before))
        }
        None => Ok(None),
    }
}
