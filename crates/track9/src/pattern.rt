//! Which states are wanted: a pattern of fields, each fixed or free.
ghost use Rattle.std.specs.Prelude.{◌≡◌, ◌↔◌, IsTrue, Some, true};
ghost use Rattle.track9.specs.Working.Pattern.{Is, any_motion, any_registers, any_tape, entry_before, forgotten_before, is_as_wanted, just_state, pattern_before, wanted_before, wanted_of, with_wanted};

use deck9::{Change, Effect, Entry, Forgotten, Hands, ModeSet, Register, State};
use tc25::Rate;

/// The states with one of these goals, one of these modes shown, and in each other field the value that is wanted, or
/// any where none is.
#[derive(Clone, Copy)]
pub(crate) struct Pattern {
    pub(crate) goals: ModeSet,
    pub(crate) shown: ModeSet,
    pub(crate) ins: Option<Entry>,
    pub(crate) outs: Option<Entry>,
    pub(crate) ains: Option<Entry>,
    pub(crate) aouts: Option<Entry>,
    pub(crate) local: Option<bool>,
    pub(crate) panel: Option<bool>,
}

impl Pattern {
    /// One state alone.
    pub(crate) fn just(state: &State) -> Pattern
        ensures { result ≡ just_state state.now }
    {
        Pattern {
            goals: ModeSet::just(state.goal),
            shown: ModeSet::just(state.shown),
            ins: Some(state.ins),
            outs: Some(state.outs),
            ains: Some(state.ains),
            aouts: Some(state.aouts),
            local: Some(state.local),
            panel: Some(state.panel),
        }
    }

    /// The states from which an effect, where the deck does it, leads to one of these: None where there is none.
    pub(crate) fn before(&self, rate: Rate, hands: Hands, effect: &Effect) -> Option<Pattern>
        ensures { result ≡ pattern_before rate hands effect.now self.now }
    {
        let mut wanted = *self;
        match effect {
            Effect::Nothing => {}
            Effect::Go(goal) => {
                if !self.goals.has(*goal) {
                    return None;
                }
                wanted.goals = ModeSet::ALL;
            }
            Effect::KeepOr(goals) => {
                if goals.and(self.goals).is_some() {
                    wanted.goals = ModeSet::ALL;
                }
            }
            Effect::Change(register, change) => {
                let entry = wanted_before(rate, change, self.entry(*register))?;
                wanted.put(*register, entry);
            }
            Effect::Panel(on) => {
                if hands == Hands::Allowed {
                    if !is_wanted(self.panel, *on) {
                        return None;
                    }
                    wanted.panel = None;
                }
            }
            Effect::Forget(forgotten) => wanted.forget(hands, *forgotten),
        }
        Some(wanted)
    }

    /// Makes of these the states from which forgetting leads to one of them.
    pub(crate) fn forget(&mut self, hands: Hands, forgotten: Forgotten)
        ensures { self.new ≡ forgotten_before hands forgotten self.old }
    {
        match forgotten {
            Forgotten::Nothing => {}
            Forgotten::Motion => self.free_motion(),
            Forgotten::Registers => self.free_registers(),
            Forgotten::Tape => self.free_tape(),
            Forgotten::Everything => {
                self.free_tape();
                self.local = None;
                if hands == Hands::Allowed {
                    self.panel = None;
                }
            }
        }
    }

    /// Those in LOCAL alone.
    pub(crate) fn in_local(&self) -> Pattern
        ensures { result ≡ record self.now { local = Some true } }
    {
        Pattern {
            local: Some(true),
            ..*self
        }
    }

    /// The entry that is wanted of a register, or None where any is.
    fn entry(&self, register: Register) -> Option<Entry>
        ensures { result ≡ wanted_of register self.now }
    {
        match register {
            Register::RegIn => self.ins,
            Register::RegOut => self.outs,
            Register::RegAudioIn => self.ains,
            Register::RegAudioOut => self.aouts,
        }
    }

    /// Asks for an entry of a register, or for any.
    fn put(&mut self, register: Register, entry: Option<Entry>)
        ensures { self.new ≡ with_wanted register entry self.old }
    {
        match register {
            Register::RegIn => self.ins = entry,
            Register::RegOut => self.outs = entry,
            Register::RegAudioIn => self.ains = entry,
            Register::RegAudioOut => self.aouts = entry,
        }
    }

    /// Lets the registers be anything.
    fn free_registers(&mut self)
        ensures { self.new ≡ any_registers self.old }
    {
        self.ins = None;
        self.outs = None;
        self.ains = None;
        self.aouts = None;
    }

    /// Lets goal and shown mode be anything.
    fn free_motion(&mut self)
        ensures { self.new ≡ any_motion self.old }
    {
        self.goals = ModeSet::ALL;
        self.shown = ModeSet::ALL;
    }

    /// Lets goal, shown mode and registers be anything.
    fn free_tape(&mut self)
        ensures { self.new ≡ any_tape self.old }
    {
        self.free_registers();
        self.free_motion();
    }
}

/// The entry of which a change makes one that is wanted: None where it makes it of no entry, and `Some(None)` where of any.
fn wanted_before(rate: Rate, change: &Change, wanted: Option<Entry>) -> Option<Option<Entry>>
    ensures { result ≡ wanted_before rate change.now wanted }
{
    match (wanted, change) {
        (Some(entry), _) => entry_before(rate, change, &entry),
        (None, Change::SetAt(set)) if set.frames() >= rate.frames_in_day() => None,
        (None, _) => Some(None),
    }
}

/// The entry that a change makes this one of: None where it makes it of no entry, and `Some(None)` where of any.
fn entry_before(rate: Rate, change: &Change, entry: &Entry) -> Option<Option<Entry>>
    ensures { result ≡ entry_before rate change.now entry.now }
{
    match (change, entry) {
        (Change::SetSomewhere, Entry::At(_)) => Some(None),
        (Change::SetAt(set), Entry::At(time)) if time == set => Some(None),
        (Change::Next, Entry::At(time)) => Some(Some(Entry::At(time.prev_at(rate)))),
        (Change::Prev, Entry::At(time)) => Some(Some(Entry::At(time.next_at(rate)))),
        (Change::Next | Change::Prev, Entry::Clear) => Some(Some(Entry::Clear)),
        (Change::Reset, Entry::Clear) => Some(None),
        (Change::Recall, _) => Some(None),
        _ => None,
    }
}

/// Whether a fact is as it is wanted.
pub(crate) fn is_wanted(wanted: Option<bool>, fact: bool) -> bool
    ensures is { IsTrue result ↔ Is wanted fact }
    ensures test { result ≡ is_as_wanted wanted fact }
{
    match wanted {
        Some(wanted) => fact == wanted,
        None => true,
    }
}
