//! The search for replies that contradict one another.
//!
//! One tracker goes along, from the first place found to the last: it believes the replies at the places found, and passes the
//! exchanges between them. A question goes on from a copy of it, so it looks at no place found again.
ghost use Rattle.std.specs.Prelude.{◌≡◌, ◌↔◌, ◌<◌, ◌≤◌, ◌+◌, IfOk, false, length, nat_le, true};
ghost use Rattle.deck9.specs.Contradict.{Contradict, HasBelieving};
ghost use Rattle.deck9.specs.Going.{on_at_first};
ghost use Rattle.deck9.specs.State.{IsFirst};
ghost use Rattle.deck9.specs.declared.state.State.{State as AState};
ghost use Rattle.track9.specs.Tracker.{Possible};
ghost use Rattle.why9.specs.Contradiction.{BreaksAtLast, IsContradiction};
ghost use Rattle.why9.specs.Working.{ArePassedTo, HasBelievingFromPlace, IsBetween};

use crate::question::{believe, leaves_a_run, pass_all};
use block9::Exchange;
use deck9::Profile;
use sets25::SpanSet;
use std::alloc::{AllocError, Global};
use track9::Tracker;

/// The places, counted from 0, of replies that contradict one another for a deck that is taken for this, in ascending order.
///
/// The exchanges have to be those of a capture up to the first after which no state remains, and that one is the last of
/// the places. Each of the others is needed, and as near to the break as it can be: without it, the other places and all
/// replies after it do not contradict, since a run believes them. What a run that believes some replies may do is in
/// `specs/Contradict.antt` of the crate `deck9`.
///
/// An error comes where memory is refused.
pub fn contradicting_for(
    alloc: Global,
    profile: &Profile,
    exchanges: &[Exchange],
) -> Result<Vec<usize>, AllocError>
    requires breaks { BreaksAtLast profile.now exchanges.now }
    ensures { IfOk result (λ places. IsContradiction profile.now exchanges.now places.items) }
{
    let mut tracker = Tracker::of(alloc, profile)?;
    let places = find_places(alloc, &mut tracker, exchanges);
    drop(tracker);
    places
}

/// The places, found one after the other with a tracker that has taken nothing yet.
fn find_places(
    alloc: Global,
    tracker: &mut Tracker<SpanSet>,
    exchanges: &[Exchange],
) -> Result<Vec<usize>, AllocError>
    requires breaks { BreaksAtLast tracker.old.profile exchanges.now }
    requires states { (s : AState) → Possible tracker.old.states s ↔ IsFirst tracker.old.profile s }
    requires going { tracker.old.going ≡ on_at_first tracker.old.profile.deck }
    ensures { IfOk result (λ places. IsContradiction tracker.old.profile exchanges.now places.items) }
{
    let mut places = Vec::new(alloc);
    let mut place = first_place(tracker, exchanges)?;
    places.push(place)?;
    let mut between = 0;
    while place + 1 < exchanges.len() {
        believe(tracker, &exchanges[place])?;
        let low = place + 1;
        place = next_place(tracker, exchanges, low, between)?;
        places.push(place)?;
        between = place - low;
    }
    Ok(places)
}

/// The greatest place from which on the replies contradict one another, by a tracker that has taken nothing yet.
///
/// From the first states, passing exchanges leads to all first states again, and all that the sheet names may still be going on.
/// So a question passes none: it begins at its place, and costs what lies after it.
fn first_place(tracker: &Tracker<SpanSet>, exchanges: &[Exchange]) -> Result<usize, AllocError>
    requires breaks { BreaksAtLast tracker.now.profile exchanges.now }
    requires states { (s : AState) → Possible tracker.now.states s ↔ IsFirst tracker.now.profile s }
    requires going { tracker.now.going ≡ on_at_first tracker.now.profile.deck }
    ensures within { IfOk result (λ place. place < length exchanges.now) }
    ensures contradict { IfOk result (λ place. Contradict tracker.now.profile (nat_le place) exchanges.now) }
    ensures after { IfOk result (λ place. HasBelieving tracker.now.profile (nat_le (place + 1)) exchanges.now) }
{
    let mut low = 0;
    let mut high = exchanges.len();
    while high - low > 1 {
        // Back from the end with steps that double, and then by halves.
        let place = high - (exchanges.len() - high + 1).min((high - low) / 2);
        if leaves_a_run(tracker, &[], &exchanges[place..])? {
            high = place;
        } else {
            low = place;
        }
    }
    Ok(low)
}

/// The next place: the greatest from which on the replies contradict those that the tracker believes. The tracker has gone
/// through everything before `low`, and goes on to that place.
///
/// A question costs about what lies after `low`, wherever its place is, so few questions are best. Places often lie equally
/// far apart: so the first step goes over `between` exchanges, as many as lie between the two places before. The next steps are short and
/// grow fast, and none goes over more than half of what is left.
fn next_place(
    tracker: &mut Tracker<SpanSet>,
    exchanges: &[Exchange],
    low: usize,
    between: usize,
) -> Result<usize, AllocError>
    requires { IsBetween tracker.old.profile tracker.old.going (Possible tracker.old.states) exchanges.now low (length exchanges.now) }
    ensures low { IfOk result (λ place. low ≤ place) }
    ensures next { IfOk result (λ place. IsBetween tracker.old.profile tracker.new.going (Possible tracker.new.states) exchanges.now place (place + 1)) }
    ensures passed { IfOk result (λ place. ArePassedTo tracker.old.profile exchanges.now low tracker.old.going (Possible tracker.old.states) place tracker.new.going (Possible tracker.new.states)) }
    ensures profile { IfOk result (λ place. tracker.new.profile ≡ tracker.old.profile) }
{
    let mut place = low;
    let mut high = exchanges.len();
    let mut step = between.max(1);
    let mut next_step = 1;
    while place + 1 < high {
        let further = place + step.min((high - place) / 2);
        step = next_step;
        next_step = next_step.saturating_mul(16);
        if moves_on(tracker, exchanges, place, further)? {
            place = further;
        } else {
            high = further;
        }
    }
    Ok(place)
}

/// Whether the replies from a place on contradict those that the tracker believes. If they do, the tracker, which has gone
/// through everything before `low`, goes on to that place; else it stays as it is.
fn moves_on(
    tracker: &mut Tracker<SpanSet>,
    exchanges: &[Exchange],
    low: usize,
    place: usize,
) -> Result<bool, AllocError>
    requires low { low ≤ place }
    requires place { place ≤ length exchanges.now }
    ensures contradict { IfOk result (λ b. b ≡ true → ¬ HasBelievingFromPlace tracker.old.profile tracker.old.going (Possible tracker.old.states) low (nat_le place) exchanges.now) }
    ensures passed { IfOk result (λ b. b ≡ true → ArePassedTo tracker.old.profile exchanges.now low tracker.old.going (Possible tracker.old.states) place tracker.new.going (Possible tracker.new.states)) }
    ensures run { IfOk result (λ b. b ≡ false → HasBelievingFromPlace tracker.old.profile tracker.old.going (Possible tracker.old.states) low (nat_le place) exchanges.now) }
    ensures unchanged { IfOk result (λ b. b ≡ false → tracker.new ≡ tracker.old) }
    ensures profile { IfOk result (λ b. tracker.new.profile ≡ tracker.old.profile) }
{
    let passed = &exchanges[low..place];
    if leaves_a_run(tracker, passed, &exchanges[place..])? {
        return Ok(false);
    }
    pass_all(tracker, passed)?;
    Ok(true)
}
