//! Whether states are those of a run: a second opinion on the sets of states that a tracker keeps, which uses no set.
ghost use Rattle.std.specs.Prelude.{◌≡◌, ◌↔◌, IsTrue, true};
ghost use Rattle.deck9.specs.Going.{goes_on};
ghost use Rattle.deck9.specs.Run.{IsRun, IsRunFrom};
ghost use Rattle.deck9.specs.Working.{Begins};
ghost use Rattle.deck9.specs.Step.{Goes};

use crate::drift::{drifts_and_steps, steps_from_some};
use crate::going::Going;
use crate::profile::Profile;
use crate::state::{Hands, State};
use block9::Exchange;

/// Whether these are the states after each of the exchanges in some run of the deck: true exactly where there are
/// as many states as exchanges, and the deck can go from some first state by each exchange, with a drift before it,
/// to the state that is named for it. Takes no memory.
pub fn is_run_of(profile: &Profile, exchanges: &[Exchange], states: &[State]) -> bool
    ensures { IsTrue result ↔ IsRun profile.now exchanges.now states.now }
{
    match (exchanges.split_first(), states.split_first()) {
        (None, None) => true,
        (Some((exchange, exchanges)), Some((state, states))) => {
            let going = after_one(profile, exchange, profile.deck_ref().on_at_first());
            begins(profile, exchange, state) && goes_on(profile, going, state, exchanges, states)
        }
        _ => false,
    }
}

/// What may be going on after an exchange, where this went on before it: with hands all that did, since a hand may have begun it.
fn after_one(profile: &Profile, exchange: &Exchange, going: Going) -> Going
    ensures { result ≡ goes_on profile.now true exchange.now going }
{
    match profile.hands {
        Hands::None => profile.deck_ref().on_after(exchange, going),
        Hands::Allowed => going,
    }
}

/// Whether these are the states after each of the exchanges, from one state on, where this may be going on.
fn goes_on(
    profile: &Profile,
    going: Going,
    first: &State,
    exchanges: &[Exchange],
    states: &[State],
) -> bool
    ensures { IsTrue result ↔ IsRunFrom profile.now going first.now exchanges.now states.now }
{
    if exchanges.len() != states.len() {
        return false;
    }
    let (mut going, mut before) = (going, first);
    for (exchange, after) in exchanges.iter().zip(states) {
        if !goes(profile, going, exchange, before, after) {
            return false;
        }
        going = after_one(profile, exchange, going);
        before = after;
    }
    true
}

/// Whether the first exchange of a run can leave the deck in a state.
fn begins(profile: &Profile, exchange: &Exchange, after: &State) -> bool
    ensures { IsTrue result ↔ Begins profile.now exchange.now after.now }
{
    match profile.hands {
        Hands::None => steps_from_some(profile, exchange, false, after),
        Hands::Allowed => {
            steps_from_some(profile, exchange, false, after)
                || steps_from_some(profile, exchange, true, after)
        }
    }
}

/// Whether an exchange, with the drift before it, can take the deck from a state to another.
fn goes(profile: &Profile, going: Going, exchange: &Exchange, before: &State, after: &State) -> bool
    ensures { IsTrue result ↔ Goes profile.now going exchange.now before.now after.now }
{
    if drifts_and_steps(profile, going, exchange, before, after) {
        return true;
    }
    match profile.hands {
        Hands::None => false,
        Hands::Allowed => before.panel && steps_from_some(profile, exchange, true, after),
    }
}
