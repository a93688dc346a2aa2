//! A run of the deck in which a hand moves the panel as seldom as it can, and changes no more than it has to.
//!
//! A hand that moves can leave the deck in any state, and without a hand's move a deck whose panel may be on goes on as one
//! that nobody touches. So such a run is a row of stretches, each of a deck that nobody touches, and a hand moves between
//! two of them. Each stretch is as long as it can be from every state: where an exchange leaves no run, the hand moved at the
//! last place before it at which the panel may be on.
//!
//! The search is not proved to find such a run: `is_run_of` is asked whether what it finds is a run, and only a run is handed
//! out.
ghost use Rattle.std.specs.Prelude.{◌≤◌, IfOk, IfSome, length};
ghost use Rattle.deck9.specs.Run.{IsRun};
ghost use Rattle.deck9.specs.declared.state.State.{State as AState};
ghost use Rattle.track9.specs.Following.{KeepsEnds};
ghost use Rattle.track9.specs.Tracker.{Possible};

use crate::pace::MostSpans;
use crate::panel::may_be_on_after;
use crate::search::Search;
use crate::touched_run::TouchedRun;
use block9::Exchange;
use deck9::{Hands, Profile, State, is_run_of};
use sets25::SpanSet;
use std::alloc::{AllocError, Global};
use track9::{Lasting, Start, Tracker};

/// The states after each of these exchanges in a run that ends in a state of this tracker, or, where hands are allowed,
/// in one with the fewest moves of a hand, which keeps what it can.
///
/// The tracker has to keep the states in which the runs of these exchanges end, and one at least. How many spans trackers had
/// on the way there bears on speed and memory alone. An error comes where memory is refused.
pub fn states_of_run(
    alloc: Global,
    profile: &Profile,
    exchanges: &[Exchange],
    end: &Tracker<SpanSet>,
    spans: MostSpans,
) -> Result<Vec<State>, AllocError>
    requires keeps { KeepsEnds profile.now exchanges.now end.now }
    requires some { (s : AState) × Possible end.now.states s }
    ensures { IfOk result (λ states. IsRun profile.now exchanges.now states.items) }
{
    if profile.hands == Hands::Allowed {
        if let Some(run) = fewest_moves(alloc, profile, exchanges)? {
            return Ok(run.states);
        }
    }
    Search::of(alloc, profile, Lasting::UntilEnded, exchanges.len(), spans).states_to(
        exchanges, end,
    )
}

/// A run of these exchanges with the fewest moves of a hand, each of which keeps what it can, or `None` where no such run was
/// found: not where there is none. With each move come the state that the hand found and the one that it left. That there are no
/// fewer moves, and that no more could be kept at these places, is tested and not proved.
///
/// An error comes where memory is refused.
pub fn fewest_moves(
    alloc: Global,
    profile: &Profile,
    exchanges: &[Exchange],
) -> Result<Option<TouchedRun>, AllocError>
    ensures { IfOk result (λ o. IfSome o (λ run. IsRun profile.now exchanges.now run.states.items)) }
{
    let Some(run) = found_run(alloc, profile, exchanges)? else {
        return Ok(None);
    };
    if is_run_of(profile, exchanges, &run.states) {
        Ok(Some(run))
    } else {
        Ok(None)
    }
}

/// The same, as the search finds it.
fn found_run(
    alloc: Global,
    profile: &Profile,
    exchanges: &[Exchange],
) -> Result<Option<TouchedRun>, AllocError> {
    let mut spans = MostSpans::none();
    let parts = parts_of(alloc, profile, exchanges, &mut spans)?;
    let search = Search::of(alloc, profile, Lasting::Throughout, exchanges.len(), spans);
    let stretches = search.stretches(&parts)?;
    let run = search.run_through(exchanges, &stretches);
    drop(stretches);
    run
}

/// The exchanges of each stretch: a hand moves before the first one of each but the first.
fn parts_of<'e>(
    alloc: Global,
    profile: &Profile,
    exchanges: &'e [Exchange],
    spans: &mut MostSpans,
) -> Result<Vec<&'e [Exchange]>, AllocError> {
    let mut parts = Vec::new(alloc);
    let mut rest = exchanges;
    while let Some(length) = length_before_hand(alloc, profile, rest, spans)? {
        if length == 0 {
            break;
        }
        let (part, behind) = rest.split_at(length);
        parts.push(part)?;
        rest = behind;
    }
    parts.push(rest)?;
    Ok(parts)
}

/// How many of these exchanges come before a hand has to move, or `None` where none has to. It is 0 where no hand could
/// help, since the exchanges have no run.
fn length_before_hand(
    alloc: Global,
    profile: &Profile,
    exchanges: &[Exchange],
    spans: &mut MostSpans,
) -> Result<Option<usize>, AllocError>
    ensures { IfOk result (λ o. IfSome o (λ at. at ≤ length exchanges.now)) }
{
    let mut tracker = Tracker::starting(alloc, profile, &Start::default())?;
    let length = place_of_hand(profile, &mut tracker, exchanges, spans);
    drop(tracker);
    length
}

/// Where a hand moves: the last place at which the panel may be on before the exchange that leaves no state of a deck that
/// nobody touches, as the number of exchanges before it, or `None` where a state remains after them all.
fn place_of_hand(
    profile: &Profile,
    tracker: &mut Tracker<SpanSet>,
    exchanges: &[Exchange],
    spans: &mut MostSpans,
) -> Result<Option<usize>, AllocError>
    ensures { IfOk result (λ o. IfSome o (λ at. at ≤ length exchanges.now)) }
{
    let mut may_be_on = true;
    let mut place = 0;
    for (at, exchange) in exchanges.iter().enumerate() {
        spans.note(at, tracker);
        if may_be_on {
            place = at;
        }
        if !tracker.take_as(exchange, Lasting::Throughout)? {
            return Ok(Some(place));
        }
        may_be_on = may_be_on_after(profile, exchange, may_be_on);
    }
    Ok(None)
}
