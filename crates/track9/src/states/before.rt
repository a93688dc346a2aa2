//! A state that an exchange leads to another one from.
//!
//! The states from which forgetting leads to the target are a pattern, and so are those from which an effect leads to one of a
//! pattern, and those that may have ignored the command. Whether a drift leads to a state of a pattern is asked factor by factor,
//! so that no set is copied.
ghost use Rattle.std.specs.Prelude.{◌≡◌, IfNone, IfSome, Some, false, true};
ghost use Rattle.deck9.specs.Drift.{Drift};
ghost use Rattle.deck9.specs.Step.{Goes};
ghost use Rattle.track9.specs.Tracker.{Possible};
ghost use Rattle.track9.specs.Working.Pattern.{ComesTo, Is, IsIgnored, IsPattern, LeadsTo, RunsTo, wanted_from};
ghost use Rattle.track9.specs.Tracker.{Allows, entries_of};
ghost use Rattle.deck9.specs.declared.state.Entry.{Entry as AEntry};
ghost use Rattle.track9.specs.Working.Parts.{HasState};
ghost use Rattle.track9.specs.Working.States.{AreWhole, InHalves, remains_with_panel_on, halves_of, profile_of, states_rate};
ghost use Rattle.deck9.specs.declared.state.State.{State as AState};

use crate::acting::Acting;
use crate::halves::Halves;
use crate::part::Part;
use crate::pattern::{Pattern, is_wanted};
use crate::states::States;
use block9::{Command, Exchange};
use deck9::{Entry, Lost, Register, State, may_ignore};
use sets25::TimeSet;

impl<S: TimeSet> States<S> {
    /// A state from which the exchange leads to the target: None exactly where there is none. Takes no memory.
    pub(crate) fn before_exchange(
        &self,
        acting: &Acting,
        exchange: &Exchange,
        target: &State,
    ) -> Option<State>
        requires { AreWhole (states_rate self.now) self.now }
        ensures some { IfSome result (λ s. Possible self.now s × Goes (profile_of acting.now.deck self.now) acting.now.on exchange.now s target.now) }
        ensures none { IfNone result (¬ ((s : AState) × Possible self.now s × Goes (profile_of acting.now.deck self.now) acting.now.on exchange.now s target.now)) }
    {
        self.below_day();
        if !target.is_of(self.rate()) {
            return None;
        }
        let mut wanted = Pattern::just(target);
        if exchange.reply.is_nak() {
            return self.origin(acting, &wanted);
        }
        if !target.shows(self.rate(), &exchange.command, &exchange.reply) {
            return None;
        }
        wanted.forget(self.hands(), acting.deck.forgotten_with(exchange));
        self.before_step(acting, &exchange.command, &wanted)
    }

    /// A state from which a drift, and then the command's effect or nothing, lead to one of those that are wanted.
    fn before_step(&self, acting: &Acting, command: &Command, wanted: &Pattern) -> Option<State>
        requires whole { AreWhole (states_rate self.now) self.now }
        requires wanted { IsPattern (states_rate self.now) wanted.now }
        ensures some { IfSome result (λ s. Possible self.now s × ComesTo (profile_of acting.now.deck self.now) acting.now.on command.now wanted.now s) }
        ensures none { IfNone result (¬ ((s : AState) × Possible self.now s × ComesTo (profile_of acting.now.deck self.now) acting.now.on command.now wanted.now s)) }
    {
        self.below_day();
        if let Some(state) = self.ignored_origin(acting, command, wanted) {
            return Some(state);
        }
        let before = wanted.before(self.rate(), self.hands(), &acting.deck.effect(command))?;
        self.origin(acting, &before)
    }

    /// Where a deck in LOCAL may ignore the command: a state from which a drift leads to a wanted one that is in LOCAL.
    fn ignored_origin(&self, acting: &Acting, command: &Command, wanted: &Pattern) -> Option<State>
        requires whole { AreWhole (states_rate self.now) self.now }
        requires wanted { IsPattern (states_rate self.now) wanted.now }
        ensures some { IfSome result (λ s. Possible self.now s × IsIgnored command.now wanted.now × LeadsTo (profile_of acting.now.deck self.now) acting.now.on (record wanted.now { local = Some true }) s) }
        ensures none { IfNone result (¬ ((s : AState) × Possible self.now s × IsIgnored command.now wanted.now × LeadsTo (profile_of acting.now.deck self.now) acting.now.on (record wanted.now { local = Some true }) s)) }
    {
        let is_ignored = may_ignore(command);
        let is_local = is_wanted(wanted.local, true);
        if !is_ignored || !is_local {
            return None;
        }
        self.origin(acting, &wanted.in_local())
    }

    /// A state from which a drift leads to the target: None exactly where there is none. Takes no memory.
    pub(crate) fn before_drift(&self, acting: &Acting, target: &State) -> Option<State>
        requires { AreWhole (states_rate self.now) self.now }
        ensures some { IfSome result (λ s. Possible self.now s × Drift (profile_of acting.now.deck self.now) acting.now.on s target.now) }
        ensures none { IfNone result (¬ ((s : AState) × Possible self.now s × Drift (profile_of acting.now.deck self.now) acting.now.on s target.now)) }
    {
        self.below_day();
        if !target.is_of(self.rate()) {
            return None;
        }
        self.origin(acting, &Pattern::just(target))
    }

    /// A state from which a drift leads to one of those that are wanted: None exactly where there is none.
    fn origin(&self, acting: &Acting, wanted: &Pattern) -> Option<State>
        requires whole { AreWhole (states_rate self.now) self.now }
        requires wanted { IsPattern (states_rate self.now) wanted.now }
        ensures some { IfSome result (λ s. Possible self.now s × LeadsTo (profile_of acting.now.deck self.now) acting.now.on wanted.now s) }
        ensures none { IfNone result (¬ ((s : AState) × Possible self.now s × LeadsTo (profile_of acting.now.deck self.now) acting.now.on wanted.now s)) }
    {
        if let Some(state) = self.panel_origin(wanted) {
            return Some(state);
        }
        self.off.origin(acting, wanted)
    }

    /// Some state with the panel on, where one with the panel on is wanted: a hand makes any such state of it.
    fn panel_origin(&self, wanted: &Pattern) -> Option<State>
        requires { AreWhole (states_rate self.now) self.now }
        ensures some { IfSome result (λ s. InHalves true (halves_of self.now true) s × Is wanted.now.panel true) }
        ensures none { IfNone result (Is wanted.now.panel true → remains_with_panel_on self.now ≡ false) }
    {
        let is_wanted = is_wanted(wanted.panel, true);
        if !is_wanted {
            return None;
        }
        self.state_on()
    }
}

impl<S: TimeSet> Halves<S> {
    /// A state with the panel off from which a drift of the mechanics leads to one of those that are wanted: None exactly
    /// where there is none.
    fn origin(&self, acting: &Acting, wanted: &Pattern) -> Option<State>
        ensures some { IfSome result (λ s. InHalves false self.now s × RunsTo acting.now wanted.now s) }
        ensures none { IfNone result (¬ ((s : AState) × InHalves false self.now s × RunsTo acting.now wanted.now s)) }
    {
        if let Some(state) = origin_in(&self.remote, acting, wanted, false) {
            return Some(state);
        }
        origin_in(&self.local, acting, wanted, true)
    }
}

/// A state of a part, with this value of local and the panel off, from which a drift of the mechanics leads to one of
/// those that are wanted: None exactly where there is none.
fn origin_in<S: TimeSet>(
    part: &Part<S>,
    acting: &Acting,
    wanted: &Pattern,
    local: bool,
) -> Option<State>
    ensures some { IfSome result (λ s. HasState part.now local false s × RunsTo acting.now wanted.now s) }
    ensures none { IfNone result (¬ ((s : AState) × HasState part.now local false s × RunsTo acting.now wanted.now s)) }
{
    let fits_local = is_wanted(wanted.local, local);
    let fits_panel = is_wanted(wanted.panel, false);
    if !fits_local || !fits_panel {
        return None;
    }
    let lost = acting.going().lost;
    let pair = part.pairs().origin(acting, wanted.goals, wanted.shown)?;
    Some(State {
        goal: pair.goal,
        shown: pair.shown,
        ins: entry_from(part, lost, Register::RegIn, &wanted.ins)?,
        outs: entry_from(part, lost, Register::RegOut, &wanted.outs)?,
        ains: entry_from(part, lost, Register::RegAudioIn, &wanted.ains)?,
        aouts: entry_from(part, lost, Register::RegAudioOut, &wanted.aouts)?,
        local,
        panel: false,
    })
}

/// What a register of a part holds before a drift that leads to what is wanted of it: None exactly where there is no such entry.
fn entry_from<S: TimeSet>(
    part: &Part<S>,
    lost: Lost,
    register: Register,
    wanted: &Option<Entry>,
) -> Option<Entry>
    ensures some { IfSome result (λ e. Allows (entries_of register part.now) e × Is (wanted_from lost register wanted.now) e) }
    ensures none { IfNone result (¬ ((e : AEntry) × Allows (entries_of register part.now) e × Is (wanted_from lost register wanted.now) e)) }
{
    let is_lost = lost.has(register);
    let before = match wanted {
        Some(Entry::Clear) if is_lost => None,
        _ => *wanted,
    };
    part.entries(register).pick(&before)
}
