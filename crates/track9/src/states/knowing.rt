//! What all states of a set agree on.
ghost use Rattle.std.specs.Prelude.{◌≡◌, ◌||◌, false, true};
ghost use Rattle.deck9.specs.Knowledge.{IsKnowledge, IsKnown, IsKnownEntry};
ghost use Rattle.track9.specs.Tracker.{Possible};
ghost use Rattle.track9.specs.Working.Knowing.{HalvesKnow, states_goals, join_options, joined_known, known_fact, states_shown, halves_goals, halves_shown};
ghost use Rattle.track9.specs.Working.Parts.{part_remains};
ghost use Rattle.track9.specs.Working.States.{AreWhole, HalvesWhole, part_of, states_remain, halves_of, states_rate, halves_rate};
ghost use Rattle.deck9.specs.declared.state.State.{State as AState};

use crate::halves::Halves;
use crate::states::States;
use deck9::{Knowledge, Known, KnownEntry, Mode, ModeSet, Register};
use sets25::TimeSet;

impl<S: TimeSet> States<S> {
    /// What all states agree on, field by field. There is a state.
    pub(crate) fn knowledge(&self) -> Knowledge
        requires whole { AreWhole (states_rate self.now) self.now }
        requires some { states_remain self.now ≡ true }
        ensures { IsKnowledge (Possible self.now) result }
    {
        Knowledge {
            goal: self.known_goal(),
            shown: self.known_shown(),
            ins: self.known_entry(Register::RegIn),
            outs: self.known_entry(Register::RegOut),
            ains: self.known_entry(Register::RegAudioIn),
            aouts: self.known_entry(Register::RegAudioOut),
            local: self.known_local(),
            panel: self.known_panel(),
        }
    }

    /// The goal, as far as all states agree. There is a state.
    fn known_goal(&self) -> Known<Mode>
        requires whole { AreWhole (states_rate self.now) self.now }
        requires some { states_remain self.now ≡ true }
        ensures { IsKnown (Possible self.now) (λ (s : AState). s.goal) result }
    {
        self.goals().known()
    }

    /// The shown mode, as far as all states agree. There is a state.
    fn known_shown(&self) -> Known<Mode>
        requires whole { AreWhole (states_rate self.now) self.now }
        requires some { states_remain self.now ≡ true }
        ensures { IsKnown (Possible self.now) (λ (s : AState). s.shown) result }
    {
        self.shown().known()
    }

    /// A register, as far as all states agree. There is a state.
    fn known_entry(&self, register: Register) -> KnownEntry
        requires whole { AreWhole (states_rate self.now) self.now }
        requires some { states_remain self.now ≡ true }
        ensures { IsKnownEntry (Possible self.now) register result }
    {
        let off = self.off.known(register);
        let on = self.known_on(register);
        let all = join_known(&off, &on);
        match all {
            Some(known) => known,
            None => KnownEntry::Unknown,
        }
    }

    /// Whether the deck is in LOCAL, as far as all states agree. There is a state.
    fn known_local(&self) -> Known<bool>
        requires whole { AreWhole (states_rate self.now) self.now }
        requires some { states_remain self.now ≡ true }
        ensures { IsKnown (Possible self.now) (λ (s : AState). s.local) result }
    {
        known_fact(self.remains_in_remote(), self.remains_in_local())
    }

    /// Whether the panel is on, as far as all states agree. There is a state.
    fn known_panel(&self) -> Known<bool>
        requires whole { AreWhole (states_rate self.now) self.now }
        requires some { states_remain self.now ≡ true }
        ensures { IsKnown (Possible self.now) (λ (s : AState). s.panel) result }
    {
        known_fact(self.off.remains(), self.remains_with_panel_on())
    }

    /// What is known of a register with the panel on: None where there is no such state.
    fn known_on(&self, register: Register) -> Option<KnownEntry>
        requires { AreWhole (states_rate self.now) self.now }
        ensures { HalvesKnow (halves_of self.now true) register result }
    {
        match &self.on {
            Some(on) => on.known(register),
            None => None,
        }
    }

    /// Whether there is a state in REMOTE.
    fn remains_in_remote(&self) -> bool
        ensures { result ≡ (part_remains (part_of self.now false false) || part_remains (part_of self.now false true)) }
    {
        match &self.on {
            Some(on) => self.off.remote.remains() || on.remote.remains(),
            None => self.off.remote.remains(),
        }
    }

    /// Whether there is a state in LOCAL.
    fn remains_in_local(&self) -> bool
        ensures { result ≡ (part_remains (part_of self.now true false) || part_remains (part_of self.now true true)) }
    {
        match &self.on {
            Some(on) => self.off.local.remains() || on.local.remains(),
            None => self.off.local.remains(),
        }
    }

    /// The goals of all states.
    fn goals(&self) -> ModeSet
        ensures { result ≡ states_goals self.now }
    {
        match &self.on {
            Some(on) => self.off.goals().or(on.goals()),
            None => self.off.goals().or(ModeSet::NONE),
        }
    }

    /// The modes that all states show.
    pub(crate) fn shown(&self) -> ModeSet
        ensures { result ≡ states_shown self.now }
    {
        match &self.on {
            Some(on) => self.off.shown().or(on.shown()),
            None => self.off.shown().or(ModeSet::NONE),
        }
    }
}

impl<S: TimeSet> Halves<S> {
    /// What is known of a register: None where there is no state.
    fn known(&self, register: Register) -> Option<KnownEntry>
        requires { HalvesWhole (halves_rate self.now) self.now }
        ensures { HalvesKnow self.now register result }
    {
        let remote = self.remote.known(register);
        let local = self.local.known(register);
        join_known(&remote, &local)
    }

    /// The goals of all states.
    fn goals(&self) -> ModeSet
        ensures { result ≡ halves_goals self.now }
    {
        let local = self.local.pairs().goals();
        self.remote.pairs().goals().or(local)
    }

    /// The modes that all states show.
    fn shown(&self) -> ModeSet
        ensures { result ≡ halves_shown self.now }
    {
        let local = self.local.pairs().all_shown();
        self.remote.pairs().all_shown().or(local)
    }
}

/// What is known of a fact, by whether there is a state where it is false and one where it is true.
fn known_fact(may_be_false: bool, may_be_true: bool) -> Known<bool>
    ensures { result ≡ known_fact may_be_false may_be_true }
{
    match (may_be_false, may_be_true) {
        (true, true) => Known::Unknown,
        (true, false) => Known::Is(false),
        (false, truth) => Known::Is(truth),
    }
}

/// What is known of a register in the states of two sets.
fn join_known(a: &Option<KnownEntry>, b: &Option<KnownEntry>) -> Option<KnownEntry>
    ensures { result ≡ join_options a.now b.now }
{
    match (a, b) {
        (None, None) => None,
        (Some(known), None) => Some(*known),
        (None, Some(known)) => Some(*known),
        (Some(first), Some(second)) => Some(joined(first, second)),
    }
}

/// What is known of a register that is in one of two sets of states, by what is known of it in each.
fn joined(one: &KnownEntry, other: &KnownEntry) -> KnownEntry
    ensures { result ≡ joined_known one.now other.now }
{
    match (one, other) {
        (KnownEntry::Clear, KnownEntry::Clear) => KnownEntry::Clear,
        (KnownEntry::At(time), KnownEntry::At(again)) if time == again => KnownEntry::At(*time),
        (
            KnownEntry::At(_) | KnownEntry::SetSomewhere,
            KnownEntry::At(_) | KnownEntry::SetSomewhere,
        ) => KnownEntry::SetSomewhere,
        _ => KnownEntry::Unknown,
    }
}
