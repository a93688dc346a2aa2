//! What a drift, and then a step and what is forgotten besides, do to one state.
ghost use Rattle.std.specs.Prelude.{◌≡◌, ◌↔◌, IsTrue};
ghost use Rattle.deck9.specs.Working.{DriftsAndSteps, MovesAndSteps, PassesOne, Steps, StepsFromSome, before_shift, lost_entry, with_losses};
ghost use Rattle.deck9.specs.State.{IsState};

use crate::effect::{Change, Effect};
use crate::forgets::before_forgetting;
use crate::going::Going;
use crate::mode::Mode;
use crate::profile::Profile;
use crate::state::{Entry, Register, State};
use crate::step::steps;
use block9::Exchange;
use tc25::Rate;

/// Whether a drift of the mechanics and of what may be going on, and then the step of an exchange, can take the deck from a state to
/// another.
///
/// What was lost of the registers stands behind the step as clear, or the step does not ask for it.
pub(crate) fn drifts_and_steps(
    profile: &Profile,
    going: Going,
    exchange: &Exchange,
    before: &State,
    after: &State,
) -> bool
    ensures { IsTrue result ↔ DriftsAndSteps profile.now going exchange.now before.now after.now }
{
    let left = with_losses(going, after, before);
    moves_and_steps(profile, going, exchange, &left, after)
}

/// The same, where nothing more of the registers is lost.
///
/// However long it is, such a drift keeps goal and shown mode, or shows the goal, a mode on the way to it, or one that may be going on;
/// or it stops, and then shows STOP, a mode on the way to it, or one that may be going on.
fn moves_and_steps(
    profile: &Profile,
    going: Going,
    exchange: &Exchange,
    before: &State,
    after: &State,
) -> bool
    ensures { IsTrue result ↔ MovesAndSteps profile.now going exchange.now before.now after.now }
{
    if steps(profile, exchange, before, after) {
        return true;
    }
    if shows_and_steps(profile, exchange, before, before.goal, after) {
        return true;
    }
    if passes_and_steps(profile, going, exchange, before, after) {
        return true;
    }
    let stopped = before.with_goal(Mode::Stop);
    if shows_and_steps(profile, exchange, &stopped, Mode::Stop, after) {
        return true;
    }
    passes_and_steps(profile, going, exchange, &stopped, after)
}

/// Whether the step can lead on from the state that shows this mode.
fn shows_and_steps(
    profile: &Profile,
    exchange: &Exchange,
    before: &State,
    shown: Mode,
    after: &State,
) -> bool
    ensures { IsTrue result ↔ Steps profile.now exchange.now (record before.now { shown = shown }) after.now }
{
    steps(profile, exchange, &before.with_shown(shown), after)
}

/// Whether the step can lead on from a state that shows a mode on the way to its goal, or one that may be going on.
fn passes_and_steps(
    profile: &Profile,
    going: Going,
    exchange: &Exchange,
    before: &State,
    after: &State,
) -> bool
    ensures { IsTrue result ↔ PassesOne profile.now going exchange.now before.now after.now }
{
    let way = profile.deck_ref().way(before.goal).or(going.modes);
    for mode in Mode::ALL {
        if way.has(mode) && shows_and_steps(profile, exchange, before, mode, after) {
            return true;
        }
    }
    false
}

/// A state before a step that leads to this one, without what was lost of its registers: what may be lost, and is clear behind the step.
fn with_losses(going: Going, after: &State, before: &State) -> State
    ensures { result ≡ with_losses going after.now before.now }
{
    State {
        ins: lost_entry(going, Register::RegIn, after.ins, before.ins),
        outs: lost_entry(going, Register::RegOut, after.outs, before.outs),
        ains: lost_entry(going, Register::RegAudioIn, after.ains, before.ains),
        aouts: lost_entry(going, Register::RegAudioOut, after.aouts, before.aouts),
        ..*before
    }
}

/// The same of one register's entry.
fn lost_entry(going: Going, register: Register, after: Entry, before: Entry) -> Entry
    ensures { result ≡ lost_entry going register after before }
{
    match after {
        Entry::Clear if going.lost.has(register) => Entry::Clear,
        _ => before,
    }
}

/// Whether the step of an exchange can take the deck to a state from some state with the panel on or off, as given.
///
/// Where it can, it can do so from the state itself, or from the one before a shift; in LOCAL, where that is forgotten.
pub(crate) fn steps_from_some(
    profile: &Profile,
    exchange: &Exchange,
    panel: bool,
    after: &State,
) -> bool
    ensures { IsTrue result ↔ StepsFromSome profile.now exchange.now panel after.now }
{
    after.is_of(profile.rate) && steps_from_two(profile, exchange, panel, after)
}

/// Whether the step of an exchange can take the deck to a state of the day from that state itself, with the panel as given, or
/// from the one before a shift.
fn steps_from_two(profile: &Profile, exchange: &Exchange, panel: bool, after: &State) -> bool
    requires { IsState profile.now.rate after.now }
    ensures { IsTrue result ↔ StepsFromSome profile.now exchange.now panel after.now }
{
    let deck = profile.deck_ref();
    let forgotten = deck.forgotten_with(exchange);
    let same = before_forgetting(forgotten, after).with_panel(panel);
    let back = before_shift(profile.rate, &deck.effect(&exchange.command), &same);
    let steps_from_same = steps(profile, exchange, &same, after);
    steps_from_same || steps(profile, exchange, &back, after)
}

/// The state from which a shift leads to this one; the state itself where the effect is no shift.
fn before_shift(rate: Rate, effect: &Effect, after: &State) -> State
    ensures { result ≡ before_shift rate effect.now after.now }
{
    match effect {
        Effect::Change(register, Change::Next) => {
            after.with_entry(*register, after.entry(*register).prev(rate))
        }
        Effect::Change(register, Change::Prev) => {
            after.with_entry(*register, after.entry(*register).next(rate))
        }
        _ => *after,
    }
}
