//! What is forgotten beside a command's effect, of one state.
ghost use Rattle.std.specs.Prelude.{◌≡◌};
ghost use Rattle.deck9.specs.Working.{before_forgetting, between, cleared, some_change, some_outcome};

use crate::deck::Forgotten;
use crate::effect::{Change, Effect};
use crate::profile::Profile;
use crate::state::{Entry, Hands, State};
use tc25::{Rate, TimeCode};

impl State {
    ghost use Rattle.deck9.specs.Effect.{with_forgotten};

    /// The state with what is forgotten as it is in another, and all else as it was.
    pub(crate) fn with_forgotten(&self, forgotten: Forgotten, other: &State) -> State
        ensures { result ≡ with_forgotten forgotten other.now self.now }
    {
        let with_motion = State {
            goal: other.goal,
            shown: other.shown,
            ..*self
        };
        match forgotten {
            Forgotten::Nothing => *self,
            Forgotten::Motion => with_motion,
            Forgotten::Registers => with_registers(other, self),
            Forgotten::Tape => with_registers(other, &with_motion),
            Forgotten::Everything => *other,
        }
    }
}

/// A state between an effect on one state and what is forgotten after it: where there is one, this is one.
pub(crate) fn between(
    profile: &Profile,
    effect: &Effect,
    forgotten: Forgotten,
    before: &State,
    after: &State,
) -> State
    ensures { result ≡ between profile.now effect.now forgotten before.now after.now }
{
    let outcome = some_outcome(profile, effect, before);
    after.with_forgotten(forgotten, &outcome)
}

/// A state from which a step leads to this one, where that forgets whether the deck was in LOCAL: one that was, which may have
/// ignored the command.
pub(crate) fn before_forgetting(forgotten: Forgotten, after: &State) -> State
    ensures { result ≡ before_forgetting forgotten after.now }
{
    match forgotten {
        Forgotten::Everything => State {
            local: true,
            ..*after
        },
        _ => *after,
    }
}

/// A state with the registers as they are in another.
fn with_registers(from: &State, state: &State) -> State
    ensures { result ≡ record state.now { ins = from.now.ins; outs = from.now.outs; ains = from.now.ains; aouts = from.now.aouts } }
{
    State {
        ins: from.ins,
        outs: from.outs,
        ains: from.ains,
        aouts: from.aouts,
        ..*state
    }
}

/// One of the states that an effect may make of one, if it may make any.
fn some_outcome(profile: &Profile, effect: &Effect, state: &State) -> State
    ensures { result ≡ some_outcome profile.now effect.now state.now }
{
    match effect {
        Effect::Nothing | Effect::KeepOr(_) => *state,
        Effect::Go(goal) => state.with_goal(*goal),
        Effect::Change(register, change) => {
            let entry = some_change(profile.rate, change, state.entry(*register));
            state.with_entry(*register, entry)
        }
        Effect::Panel(on) => match profile.hands {
            Hands::None => *state,
            Hands::Allowed => state.with_panel(*on),
        },
        Effect::Forget(forgotten) => state.with_forgotten(*forgotten, &cleared(state)),
    }
}

/// One of the entries that a change may make of one, if it may make any.
fn some_change(rate: Rate, change: &Change, entry: &Entry) -> Entry
    ensures { result ≡ some_change rate change.now entry.now }
{
    match change {
        Change::SetSomewhere => match TimeCode::from_frames_at(rate, 0) {
            Some(midnight) => Entry::At(midnight),
            None => Entry::Clear,
        },
        Change::SetAt(time) => Entry::At(*time),
        Change::Next => entry.next(rate),
        Change::Prev => entry.prev(rate),
        Change::Reset | Change::Recall => Entry::Clear,
    }
}

/// The state with nothing in the registers.
fn cleared(state: &State) -> State
    ensures { result ≡ cleared state.now }
{
    State {
        ins: Entry::Clear,
        outs: Entry::Clear,
        ains: Entry::Clear,
        aouts: Entry::Clear,
        ..*state
    }
}
