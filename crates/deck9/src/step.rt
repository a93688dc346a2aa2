//! What a step, and what is forgotten after it, do to one state.
ghost use Rattle.std.specs.Prelude.{◌≡◌, ◌↔◌, IsTrue};
ghost use Rattle.deck9.specs.Working.{Steps};
ghost use Rattle.deck9.specs.Effect.{Becomes, Does, Forgets, KeepsOrGoes, KeepsPanel};
ghost use Rattle.deck9.specs.Step.{DeckStep, forgotten_with};

use crate::deck::Forgotten;
use crate::effect::{Change, Effect};
use crate::forgets::between;
use crate::local::may_ignore;
use crate::mode_set::ModeSet;
use crate::profile::Profile;
use crate::state::{Entry, Hands, Register, State};
use block9::Exchange;
use tc25::Rate;

/// Whether the step of an exchange, and what is forgotten besides, can take the deck from a state, without a drift, to another.
///
/// What is forgotten comes after the step. Where there is a state between them, the one before the step is one, or the one that
/// `between` makes.
pub(crate) fn steps(profile: &Profile, exchange: &Exchange, before: &State, after: &State) -> bool
    ensures { IsTrue result ↔ Steps profile.now exchange.now before.now after.now }
{
    let deck = profile.deck_ref();
    let forgotten = deck.forgotten_with(exchange);
    if forgotten == Forgotten::Nothing {
        return steps_alone(profile, exchange, before, after);
    }
    let effect = deck.effect(&exchange.command);
    let made = between(profile, &effect, forgotten, before, after);
    let by_made = steps_and_forgets(profile, exchange, before, &made, after);
    by_made || steps_and_forgets(profile, exchange, before, before, after)
}

/// Whether the step of an exchange can take the deck from a state to another, and forgetting from that to a third.
fn steps_and_forgets(
    profile: &Profile,
    exchange: &Exchange,
    before: &State,
    between: &State,
    after: &State,
) -> bool
    ensures { IsTrue result ↔ (DeckStep profile.now exchange.now.command exchange.now.reply before.now between.now
        × Forgets profile.now (forgotten_with profile.now.deck exchange.now) between.now after.now) }
{
    let forgotten = profile.deck_ref().forgotten_with(exchange);
    let steps = steps_alone(profile, exchange, before, between);
    steps && forgets(profile, forgotten, between, after)
}

/// Whether the step of an exchange alone can take the deck from a state to another.
fn steps_alone(profile: &Profile, exchange: &Exchange, before: &State, after: &State) -> bool
    ensures { IsTrue result ↔ DeckStep profile.now exchange.now.command exchange.now.reply before.now after.now }
{
    if exchange.reply.is_nak() {
        return after.is(before);
    }
    if !before.shows(profile.rate, &exchange.command, &exchange.reply) {
        return false;
    }
    let is_ignored = may_ignore(&exchange.command) && before.local && after.is(before);
    let effect = profile.deck_ref().effect(&exchange.command);
    is_ignored || does(profile, &effect, before, after)
}

/// Whether an effect can take the deck from a state to another.
fn does(profile: &Profile, effect: &Effect, before: &State, after: &State) -> bool
    ensures { IsTrue result ↔ Does profile.now effect.now before.now after.now }
{
    match effect {
        Effect::Nothing => after.is(before),
        Effect::Go(goal) => after.is(&before.with_goal(*goal)),
        Effect::KeepOr(goals) => keeps_or_goes(*goals, before, after),
        Effect::Change(register, change) => changes(profile, *register, change, before, after),
        Effect::Panel(on) => match profile.hands {
            Hands::None => after.is(before),
            Hands::Allowed => after.is(&before.with_panel(*on)),
        },
        Effect::Forget(forgotten) => forgets(profile, *forgotten, before, after),
    }
}

/// Whether what is forgotten can take the deck from a state to another.
fn forgets(profile: &Profile, forgotten: Forgotten, before: &State, after: &State) -> bool
    ensures { IsTrue result ↔ Forgets profile.now forgotten before.now after.now }
{
    let rate = profile.rate;
    match forgotten {
        Forgotten::Nothing => after.is(before),
        Forgotten::Motion => after.is(&before.with_goal(after.goal).with_shown(after.shown)),
        Forgotten::Registers => after.is_of(rate) && before.keeps_all_but_registers(after),
        Forgotten::Tape => {
            after.is_of(rate) && after.local == before.local && after.panel == before.panel
        }
        Forgotten::Everything => after.is_of(rate) && keeps_panel(profile.hands, before, after),
    }
}

/// Whether a state is the same, or the same but for the goal, which is one of these.
fn keeps_or_goes(goals: ModeSet, before: &State, after: &State) -> bool
    ensures { IsTrue result ↔ KeepsOrGoes goals before.now after.now }
{
    let goes = goals.has(after.goal);
    after.is(before) || (goes && after.is(&before.with_goal(after.goal)))
}

/// Whether the panel stays, where nobody touches it.
fn keeps_panel(hands: Hands, before: &State, after: &State) -> bool
    ensures { IsTrue result ↔ KeepsPanel hands before.now after.now }
{
    match hands {
        Hands::None => after.panel == before.panel,
        Hands::Allowed => true,
    }
}

/// Whether a change of a register can take the deck from a state to another.
fn changes(
    profile: &Profile,
    register: Register,
    change: &Change,
    before: &State,
    after: &State,
) -> bool
    ensures { IsTrue result ↔ Does profile.now (Effect.Change register change.now) before.now after.now }
{
    let entry = *after.entry(register);
    let becomes = becomes(profile.rate, change, before.entry(register), &entry);
    becomes && after.is(&before.with_entry(register, entry))
}

/// Whether a change can make one entry of another.
fn becomes(rate: Rate, change: &Change, old: &Entry, new: &Entry) -> bool
    ensures { IsTrue result ↔ Becomes rate change.now old.now new.now }
{
    match change {
        Change::SetSomewhere => new.is_set() && new.is_of(rate),
        Change::SetAt(time) => *new == Entry::At(*time) && new.is_of(rate),
        Change::Next => *new == old.next(rate),
        Change::Prev => *new == old.prev(rate),
        Change::Reset => *new == Entry::Clear,
        Change::Recall => new.is_of(rate),
    }
}
