//! The states with one value of local and one of panel.
ghost use Rattle.std.specs.Prelude.{◌≡◌, IfOk, IsTrue, OnErr, OnOk, false, true};
ghost use Rattle.sets25.specs.Times.{BelowDay, span_count};
ghost use Rattle.track9.specs.Tracker.{entries_of};
ghost use Rattle.track9.specs.Working.Entries.{agreeing};
ghost use Rattle.track9.specs.Working.Knowing.{PartKnows};
ghost use Rattle.track9.specs.Working.Pairs.{all_pairs};
ghost use Rattle.track9.specs.Working.Starts.{part_known};
ghost use Rattle.track9.specs.Working.Parts.{Whole, all_states, aside, changed_entries, changed_part, drifted_part, forgotten_part, gone_part, kept_or_gone_part, clears_of, lost_part, with_clears, part_remains, no_states, put_settled, part_rate, reported_part, set_part, settled, status_part, where_remains, with_entries, with_pairs};
ghost use Rattle.track9.specs.Working.Touched.{touched_part};
ghost use Rattle.deck9.specs.declared.state.Register.{Register as ARegister};
ghost use Rattle.tc25.specs.declared.rate.Rate.{Rate as ARate};

use crate::acting::Acting;
use crate::entries::Entries;
use crate::kept::Kept;
use crate::pairs::Pairs;
use crate::pattern::is_wanted;
use crate::start::{Start, known_modes};
use deck9::{Change, KnownEntry, Lost, Mode, ModeSet, Register, RegistersSet, Status};
use sets25::{SpanSet, TimeSet};
use std::alloc::{AllocError, Global};
use std::marker::Model;
use std::mem::replace;
use tc25::{Rate, TimeCode};

/// The states with one value of local and one of panel: each pair of modes with any of the entries of each
/// register. Either every factor has something in it, or none has.
#[derive(Drop)]
pub(crate) struct Part<S: TimeSet> {
    pairs: Pairs,
    ins: Entries<S>,
    outs: Entries<S>,
    ains: Entries<S>,
    aouts: Entries<S>,
}

/// Whether each register may be Clear.
#[derive(Clone, Copy)]
pub(crate) struct Clears {
    ins: bool,
    outs: bool,
    ains: bool,
    aouts: bool,
}

impl<S: TimeSet> Model for Part<S> {
    ghost use Rattle.track9.specs.Tracker.{Part};
    ghost use Rattle.track9.specs.Working.Codes.{stored};

    ghost Value = { Part };

    ghost coded = { Prim.hlevel stored };

    ghost view = { λ p. record { pairs = p.pairs.0; ins = p.ins; outs = p.outs; ains = p.ains; aouts = p.aouts } };
}

impl<S: TimeSet> Part<S> {
    /// No state. Takes no memory.
    pub(crate) fn none(alloc: Global, rate: Rate) -> Part<S>
        ensures { result ≡ no_states rate }
    {
        Part {
            pairs: Pairs::none(),
            ins: Entries::none(alloc, rate),
            outs: Entries::none(alloc, rate),
            ains: Entries::none(alloc, rate),
            aouts: Entries::none(alloc, rate),
        }
    }

    /// Every state.
    pub(crate) fn all(alloc: Global, rate: Rate) -> Result<Part<S>, AllocError>
        ensures { IfOk result (λ p. p ≡ all_states rate) }
    {
        Part::with_any_entries(alloc, rate, Pairs::all())
    }

    /// These pairs, each with any entries.
    fn with_any_entries(alloc: Global, rate: Rate, pairs: Pairs) -> Result<Part<S>, AllocError>
        ensures { IfOk result (λ p. p ≡ with_pairs pairs.0 (all_states rate)) }
    {
        Ok(Part {
            pairs,
            ins: Entries::all(alloc, rate)?,
            outs: Entries::all(alloc, rate)?,
            ains: Entries::all(alloc, rate)?,
            aouts: Entries::all(alloc, rate)?,
        })
    }

    /// The states with what is known, whatever their local: none where a time that is known is outside the day.
    pub(crate) fn known_to_be(
        alloc: Global,
        rate: Rate,
        start: &Start,
    ) -> Result<Part<S>, AllocError>
        ensures { IfOk result (λ p. p ≡ settled (part_known rate start.now)) }
    {
        let mut known = Part {
            pairs: Pairs::of(known_modes(start.goal), known_modes(start.shown)),
            ins: Entries::known_to_be(alloc, rate, &start.ins)?,
            outs: Entries::known_to_be(alloc, rate, &start.outs)?,
            ains: Entries::known_to_be(alloc, rate, &start.ains)?,
            aouts: Entries::known_to_be(alloc, rate, &start.aouts)?,
        };
        known.settle(alloc);
        Ok(known)
    }

    /// The rate whose times it has.
    pub(crate) fn rate(&self) -> Rate
        ensures { result ≡ part_rate self.now }
    {
        self.ins.rate()
    }

    /// An equal part.
    pub(crate) fn copy(&self) -> Result<Part<S>, AllocError>
        ensures { IfOk result (λ p. p ≡ self.now) }
    {
        Ok(Part {
            pairs: self.pairs,
            ins: self.ins.copy()?,
            outs: self.outs.copy()?,
            ains: self.ains.copy()?,
            aouts: self.aouts.copy()?,
        })
    }

    /// Its times are times of the day. Does nothing.
    pub(crate) fn below_day(&self)
        ensures { (r : ARegister) → BelowDay (entries_of r self.now).rate (entries_of r self.now).times }
    {
        self.ins.below_day();
        self.outs.below_day();
        self.ains.below_day();
        self.aouts.below_day();
    }

    /// Whether there is a state.
    pub(crate) fn remains(&self) -> bool
        ensures { result ≡ part_remains self.now }
    {
        self.pairs.is_some()
    }

    /// The pairs.
    pub(crate) fn pairs(&self) -> Pairs
        ensures { result.0 ≡ self.now.pairs }
    {
        self.pairs
    }

    /// The entries of a register.
    pub(crate) fn entries(&self, register: Register) -> &Entries<S>
        ensures { result.now ≡ entries_of register self.entry.now }
    {
        match register {
            Register::RegIn => &self.ins,
            Register::RegOut => &self.outs,
            Register::RegAudioIn => &self.ains,
            Register::RegAudioOut => &self.aouts,
        }
    }

    /// What is known of a register: None where there is no state.
    pub(crate) fn known(&self, register: Register) -> Option<KnownEntry>
        requires { (rate : ARate) × Whole rate self.now }
        ensures { PartKnows self.now register result }
    {
        let entries = self.entries(register);
        // asked of the entries, which are none where no state is, since the pairs take longer
        if entries.is_some() {
            Some(entries.known())
        } else {
            None
        }
    }

    /// Puts a register's entries in place.
    pub(crate) fn put(&mut self, register: Register, entries: Entries<S>)
        ensures { self.new ≡ with_entries register entries self.old }
    {
        match register {
            Register::RegIn => self.ins = entries,
            Register::RegOut => self.outs = entries,
            Register::RegAudioIn => self.ains = entries,
            Register::RegAudioOut => self.aouts = entries,
        }
    }

    /// Leaves no state where a factor has nothing left. Takes no memory.
    pub(crate) fn settle(&mut self, alloc: Global)
        ensures { self.new ≡ settled self.old }
    {
        let modes = self.pairs.is_some();
        let (ins, outs) = (self.ins.is_some(), self.outs.is_some());
        let (ains, aouts) = (self.ains.is_some(), self.aouts.is_some());
        if !(modes && ins && outs && ains && aouts) {
            drop(replace(self, Part::none(alloc, self.rate())));
        }
    }

    /// Registers may have been lost, where there is a state. Takes no memory.
    pub(crate) fn lose(&mut self, lost: Lost)
        ensures { self.new ≡ where_remains (lost_part lost) self.old }
    {
        if !self.remains() {
            return;
        }
        self.ins.lose(lost.has(Register::RegIn));
        self.outs.lose(lost.has(Register::RegOut));
        self.ains.lose(lost.has(Register::RegAudioIn));
        self.aouts.lose(lost.has(Register::RegAudioOut));
    }

    /// Whether each register may be Clear: IN, OUT, audio IN, audio OUT.
    pub(crate) fn clears(&self) -> Clears
        ensures { result ≡ clears_of self.now }
    {
        Clears {
            ins: self.ins.may_clear(),
            outs: self.outs.may_clear(),
            ains: self.ains.may_clear(),
            aouts: self.aouts.may_clear(),
        }
    }

    /// Each register may be Clear where this says so.
    pub(crate) fn put_clears(&mut self, clears: Clears)
        ensures { self.new ≡ with_clears clears self.old }
    {
        self.ins.set_clear(clears.ins);
        self.outs.set_clear(clears.outs);
        self.ains.set_clear(clears.ains);
        self.aouts.set_clear(clears.aouts);
    }

    /// A drift of the mechanics. It answers whether there is a state.
    #[inline(always)] // each exchange drifts two parts
    pub(crate) fn drift(&mut self, acting: &Acting) -> bool
        ensures drifted { self.new ≡ drifted_part acting.now self.old }
        ensures live { result ≡ part_remains self.new }
    {
        self.pairs.drift(acting)
    }

    /// A drift of the mechanics, and then the deck is commanded to a mode, which it may also ignore where `may_stay`. It answers whether
    /// there is a state.
    #[inline(always)] // many commands are of the transport
    pub(crate) fn drift_and_go(&mut self, acting: &Acting, may_stay: bool, goal: Mode) -> bool
        ensures gone { self.new ≡ where_remains (gone_part may_stay goal) (drifted_part acting.now self.old) }
        ensures live { result ≡ part_remains self.new }
    {
        let some = self.pairs.drift(acting);
        if some {
            self.pairs.go(may_stay, goal);
        }
        some
    }

    /// The deck goes on as it was, or is commanded to one of these modes.
    pub(crate) fn keep_or_go(&mut self, goals: ModeSet)
        ensures { self.new ≡ where_remains (kept_or_gone_part goals) self.old }
    {
        if !self.remains() {
            return;
        }
        self.pairs.keep_or_go(goals);
    }

    /// The entries of a register after a change, with those before it where the deck may also ignore it, in a set of their
    /// own: None where there is no state.
    pub(crate) fn change_aside(
        &self,
        alloc: Global,
        may_stay: bool,
        register: Register,
        change: &Change,
    ) -> Result<Option<Entries<S>>, AllocError>
        ensures { IfOk result (λ o. o ≡ aside self.now (changed_entries may_stay change.now (entries_of register self.now))) }
    {
        if !self.remains() {
            return Ok(None);
        }
        let entries = self.entries(register);
        let after = if may_stay {
            entries.widened(alloc, change)?
        } else {
            entries.changed(alloc, change)?
        };
        Ok(Some(after))
    }

    /// Whether a time that was read of a register tells nothing new: there is no state, or it is the register's only time.
    #[inline(always)] // most times that are read are known
    pub(crate) fn knows(&self, register: Register, time: &Option<TimeCode>) -> bool
        requires { (rate : ARate) × Whole rate self.now }
        ensures known { IsTrue result → put_settled register (aside self.now (agreeing time.now (entries_of register self.now))) self.now ≡ self.now }
        ensures new { result ≡ false → part_remains self.now ≡ true }
    {
        self.below_day();
        !self.remains() || self.entries(register).has_only(time)
    }

    /// The entries of a register that agree with a time that was read, in a set of their own: None where it tells nothing new.
    pub(crate) fn sense_aside(
        &self,
        alloc: Global,
        register: Register,
        time: &Option<TimeCode>,
    ) -> Result<Option<Entries<S>>, AllocError>
        requires { (rate : ARate) × Whole rate self.now }
        ensures { IfOk result (λ o. put_settled register o self.now ≡ put_settled register (aside self.now (agreeing time.now (entries_of register self.now))) self.now) }
    {
        if self.knows(register, time) {
            return Ok(None);
        }
        Ok(Some(self.entries(register).agreeing(alloc, time)?))
    }

    /// Goal and shown mode become anything, where there is a state.
    pub(crate) fn forget_motion(&mut self)
        ensures { self.new ≡ where_remains (with_pairs all_pairs) self.old }
    {
        if self.remains() {
            self.pairs = Pairs::all();
        }
    }

    /// The pairs with any entries, where there is a state.
    pub(crate) fn registers_forgotten(&self, alloc: Global) -> Result<Part<S>, AllocError>
        ensures { IfOk result (λ p. p ≡ where_remains forgotten_part self.now) }
    {
        if !self.remains() {
            return self.copy();
        }
        Part::with_any_entries(alloc, self.rate(), self.pairs)
    }

    /// The states after a move of a hand that keeps these fields, whatever their local.
    pub(crate) fn touched(&self, alloc: Global, kept: &Kept) -> Result<Part<S>, AllocError>
        ensures { IfOk result (λ p. p ≡ where_remains (touched_part kept.now) self.now) }
    {
        if !self.remains() {
            return self.copy();
        }
        Ok(Part {
            pairs: self.pairs.touched(kept.goal, kept.shown),
            ins: self.ins.touched(alloc, kept.ins)?,
            outs: self.outs.touched(alloc, kept.outs)?,
            ains: self.ains.touched(alloc, kept.ains)?,
            aouts: self.aouts.touched(alloc, kept.aouts)?,
        })
    }

    /// Puts a register's entries in place that were made aside, and leaves no state where they are none.
    pub(crate) fn put_settled(
        &mut self,
        alloc: Global,
        register: Register,
        entries: Option<Entries<S>>,
    )
        ensures { self.new ≡ put_settled register entries self.old }
    {
        if let Some(entries) = entries {
            self.put(register, entries);
            self.settle(alloc);
        }
    }

    /// The entries of a register after a change that the deck may also ignore, in place.
    pub(crate) fn widen(
        &mut self,
        alloc: Global,
        register: Register,
        change: &Change,
    ) -> Result<(), AllocError>
        ensures ok { OnOk result (self.new ≡ where_remains (changed_part true register change.now) self.old) }
        ensures err { OnErr result (self.new ≡ self.old) }
    {
        if !self.remains() {
            return Ok(());
        }
        match register {
            Register::RegIn => self.ins.widen(alloc, change),
            Register::RegOut => self.outs.widen(alloc, change),
            Register::RegAudioIn => self.ains.widen(alloc, change),
            Register::RegAudioOut => self.aouts.widen(alloc, change),
        }
    }

    /// Keeps the states that agree with a status, where their local is this. Takes no memory.
    pub(crate) fn keep_status(&mut self, alloc: Global, local: bool, status: &Status)
        ensures { self.new ≡ where_remains (status_part local status.now) self.old }
    {
        if !self.remains() {
            return;
        }
        if is_wanted(status.local, local) {
            self.keep_reported(alloc, status);
        } else {
            drop(replace(self, Part::none(alloc, self.rate())));
        }
    }

    /// Keeps the states with a reported mode shown, and with registers Set as reported.
    fn keep_reported(&mut self, alloc: Global, status: &Status)
        ensures { self.new ≡ reported_part status.now self.old }
    {
        if let Some(modes) = status.shown {
            self.pairs = self.pairs.masked(modes);
        }
        if let Some(set) = status.registers {
            self.keep_set(alloc, &set);
        }
        self.settle(alloc);
    }

    /// Keeps each register's entries that are Set, or those that are Clear.
    fn keep_set(&mut self, alloc: Global, set: &RegistersSet)
        ensures { self.new ≡ set_part set.now self.old }
    {
        self.ins.keep_set(alloc, set.ins);
        self.outs.keep_set(alloc, set.outs);
        self.ains.keep_set(alloc, set.ains);
        self.aouts.keep_set(alloc, set.aouts);
    }
}

impl Part<SpanSet> {
    /// The number of spans of a register's times.
    pub(crate) fn spans(&self, register: Register) -> usize
        ensures { result ≡ span_count (entries_of register self.now).times }
    {
        self.entries(register).spans()
    }
}
