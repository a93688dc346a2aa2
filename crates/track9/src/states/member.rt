//! Some state of a set.
ghost use Rattle.std.specs.Prelude.{◌≡◌, IfNone, IfSome, false, true};
ghost use Rattle.track9.specs.Start.{StartsFrom};
ghost use Rattle.track9.specs.Tracker.{Possible};
ghost use Rattle.track9.specs.Working.Parts.{HasState, Whole, part_remains, part_rate};
ghost use Rattle.track9.specs.Working.States.{AreWhole, InHalves, HalvesWhole, remains_with_panel_on, halves_remain, halves_of, states_rate, halves_rate};
ghost use Rattle.deck9.specs.declared.state.State.{State as AState};

use crate::halves::Halves;
use crate::part::Part;
use crate::pattern::is_wanted;
use crate::start::Start;
use crate::states::States;
use deck9::{Register, State};
use sets25::TimeSet;

impl<S: TimeSet> States<S> {
    /// Some state, or none exactly where there is none. Takes no memory.
    pub(crate) fn member(&self) -> Option<State>
        requires { AreWhole (states_rate self.now) self.now }
        ensures some { IfSome result (Possible self.now) }
        ensures none { IfNone result (¬ ((s : AState) × Possible self.now s)) }
    {
        if let Some(state) = self.off.state(false) {
            return Some(state);
        }
        self.state_on()
    }

    /// Some state of which this is known, or none exactly where there is none. Takes no memory.
    pub(crate) fn member_with(&self, start: &Start) -> Option<State>
        ensures some { IfSome result (λ s. Possible self.now s × StartsFrom start.now s) }
        ensures none { IfNone result (¬ ((s : AState) × Possible self.now s × StartsFrom start.now s)) }
    {
        if let Some(state) = self.off.state_with(start, false) {
            return Some(state);
        }
        match &self.on {
            Some(on) => on.state_with(start, true),
            None => None,
        }
    }

    /// Some state with the panel on, or none exactly where there is none.
    pub(crate) fn state_on(&self) -> Option<State>
        requires { AreWhole (states_rate self.now) self.now }
        ensures some { IfSome result (InHalves true (halves_of self.now true)) }
        ensures none { IfNone result (remains_with_panel_on self.now ≡ false) }
    {
        match &self.on {
            Some(on) => on.state(true),
            None => None,
        }
    }
}

impl<S: TimeSet> Halves<S> {
    /// Some state, with this value of the panel, or none exactly where there is none.
    fn state(&self, panel: bool) -> Option<State>
        requires { HalvesWhole (halves_rate self.now) self.now }
        ensures some { IfSome result (InHalves panel self.now) }
        ensures none { IfNone result (halves_remain self.now ≡ false) }
    {
        if let Some(state) = state_in(&self.remote, false, panel) {
            return Some(state);
        }
        state_in(&self.local, true, panel)
    }
}

impl<S: TimeSet> Halves<S> {
    /// Some state of which this is known, with this value of the panel, or none exactly where there is none.
    fn state_with(&self, start: &Start, panel: bool) -> Option<State>
        ensures some { IfSome result (λ s. InHalves panel self.now s × StartsFrom start.now s) }
        ensures none { IfNone result (¬ ((s : AState) × InHalves panel self.now s × StartsFrom start.now s)) }
    {
        if let Some(state) = known_state_in(&self.remote, start, false, panel) {
            return Some(state);
        }
        known_state_in(&self.local, start, true, panel)
    }
}

/// Some state of a part of which this is known, with these values of local and of panel: None exactly where there is none.
fn known_state_in<S: TimeSet>(
    part: &Part<S>,
    start: &Start,
    local: bool,
    panel: bool,
) -> Option<State>
    ensures some { IfSome result (λ s. HasState part.now local panel s × StartsFrom start.now s) }
    ensures none { IfNone result (¬ ((s : AState) × HasState part.now local panel s × StartsFrom start.now s)) }
{
    let fits_local = is_wanted(start.local, local);
    if !fits_local {
        return None;
    }
    let pair = part.pairs().pick(start.goal, start.shown)?;
    Some(State {
        goal: pair.goal,
        shown: pair.shown,
        ins: part.entries(Register::RegIn).pick(&start.ins)?,
        outs: part.entries(Register::RegOut).pick(&start.outs)?,
        ains: part.entries(Register::RegAudioIn).pick(&start.ains)?,
        aouts: part.entries(Register::RegAudioOut).pick(&start.aouts)?,
        local,
        panel,
    })
}

/// Some state of a part, with these values of local and of panel: none where the part has none.
fn state_in<S: TimeSet>(part: &Part<S>, local: bool, panel: bool) -> Option<State>
    requires { Whole (part_rate part.now) part.now }
    ensures some { IfSome result (HasState part.now local panel) }
    ensures none { IfNone result (part_remains part.now ≡ false) }
{
    if part.remains() {
        Some(first_in(part, local, panel))
    } else {
        None
    }
}

/// A state of a part that has one: of the first goal, the first mode shown with it, and the first entries.
fn first_in<S: TimeSet>(part: &Part<S>, local: bool, panel: bool) -> State
    requires whole { Whole (part_rate part.now) part.now }
    requires live { part_remains part.now ≡ true }
    ensures { HasState part.now local panel result }
{
    let pairs = part.pairs();
    let goal = pairs.goals().first();
    State {
        goal,
        shown: pairs.shown(goal).first(),
        ins: part.entries(Register::RegIn).first(),
        outs: part.entries(Register::RegOut).first(),
        ains: part.entries(Register::RegAudioIn).first(),
        aouts: part.entries(Register::RegAudioOut).first(),
        local,
        panel,
    }
}
