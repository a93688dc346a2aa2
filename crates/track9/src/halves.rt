//! The states with one value of the panel: a part of those in REMOTE, and one of those in LOCAL.
//!
//! A step that may need memory first makes aside what the part in REMOTE gets; then it changes the part in LOCAL, whose sets
//! may be large, in place, as the last thing that can fail; and then it drifts and puts the rest in place. So a refused
//! step changes nothing, and a large set is copied only where a deck in REMOTE, too, may ignore a change of a register. A
//! drift of the mechanics changes the pairs alone, and leaves all of them where there are all, so it may come after what
//! becomes of the registers, and after what is forgotten. What is done with is dropped by name, as in `states.rt`.
ghost use Rattle.std.specs.Prelude.{◌≡◌, IfOk, IsOk, IsTrue, OnErr, OnOk, false, max};
ghost use Rattle.deck9.specs.declared.effect.Effect.TheVariants.{Forget};
ghost use Rattle.sets25.specs.Times.{BelowDay, span_count};
ghost use Rattle.track9.specs.Frugal.{is_frugal_effect};
ghost use Rattle.track9.specs.Tracker.{entries_of, in_local};
ghost use Rattle.track9.specs.Working.Starts.{part_from, halves_from};
ghost use Rattle.track9.specs.Working.States.{HalvesBelow, HalvesWhole, all_forgotten, all_or_none, motion_forgotten, halves_rate, registers_forgotten, halves_remain, halves_changed, halves_drifted, halves_forgotten, halves_gone, halves_kept_or_gone, halves_lost, halves_moved, halves_sensed, halves_status};

use crate::acting::Acting;
use crate::part::Part;
use crate::pattern::is_wanted;
use crate::start::Start;
use deck9::{Change, Forgotten, Lost, Mode, ModeSet, Register, Status};
use sets25::{SpanSet, TimeSet};
use std::alloc::{AllocError, Global};
use std::marker::Model;
use std::mem::replace;
use tc25::{Rate, TimeCode};

mod step;

/// The states with one value of the panel.
#[derive(Drop)]
pub(crate) struct Halves<S: TimeSet> {
    pub(crate) remote: Part<S>,
    pub(crate) local: Part<S>,
}

impl<S: TimeSet> Model for Halves<S> {
    ghost use Rattle.track9.specs.Tracker.{Halves};
    ghost use Rattle.track9.specs.Working.Codes.{stored};

    ghost Value = { Halves };

    ghost coded = { Prim.hlevel stored };

    ghost view = { λ h. record { remote = h.remote; local = h.local } };
}

impl<S: TimeSet> Halves<S> {
    /// No state. Takes no memory.
    pub(crate) fn none(alloc: Global, rate: Rate) -> Halves<S>
        ensures { result ≡ all_or_none rate false }
    {
        Halves {
            remote: Part::none(alloc, rate),
            local: Part::none(alloc, rate),
        }
    }

    /// Every state, or none.
    pub(crate) fn all_or_none(alloc: Global, rate: Rate, all: bool) -> Result<Halves<S>, AllocError>
        ensures { IfOk result (λ h. h ≡ all_or_none rate all) }
    {
        if !all {
            return Ok(Halves::none(alloc, rate));
        }
        Ok(Halves {
            remote: Part::all(alloc, rate)?,
            local: Part::all(alloc, rate)?,
        })
    }

    /// The states with what is known.
    pub(crate) fn known_to_be(
        alloc: Global,
        rate: Rate,
        start: &Start,
    ) -> Result<Halves<S>, AllocError>
        ensures { IfOk result (λ h. h ≡ halves_from rate start.now) }
    {
        Ok(Halves {
            remote: part_from(alloc, rate, start, false)?,
            local: part_from(alloc, rate, start, true)?,
        })
    }

    /// The rate whose times they have.
    pub(crate) fn rate(&self) -> Rate
        ensures { result ≡ halves_rate self.now }
    {
        self.remote.rate()
    }

    /// The part with this value of local.
    pub(crate) fn part(&self, local: bool) -> &Part<S>
        ensures { result.now ≡ in_local self.entry.now local }
    {
        if local { &self.local } else { &self.remote }
    }

    /// An equal set.
    pub(crate) fn copy(&self) -> Result<Halves<S>, AllocError>
        ensures { IfOk result (λ h. h ≡ self.now) }
    {
        Ok(Halves {
            remote: self.remote.copy()?,
            local: self.local.copy()?,
        })
    }

    /// All times are times of the day. Does nothing.
    pub(crate) fn below_day(&self)
        ensures { HalvesBelow self.now }
    {
        self.remote.below_day();
        self.local.below_day();
    }

    /// Whether there is a state.
    pub(crate) fn remains(&self) -> bool
        ensures { result ≡ halves_remain self.now }
    {
        self.remote.remains() || self.local.remains()
    }

    /// Registers may have been lost. Takes no memory.
    pub(crate) fn lose(&mut self, lost: Lost)
        ensures { self.new ≡ halves_lost lost self.old }
    {
        self.remote.lose(lost);
        self.local.lose(lost);
    }

    /// A drift, with what may be lost. It answers whether there is a state.
    pub(crate) fn move_on(&mut self, acting: &Acting) -> bool
        ensures moved { self.new ≡ halves_moved acting.now self.old }
        ensures some { result ≡ halves_remain self.new }
    {
        self.lose(acting.going().lost);
        self.drift(acting)
    }

    /// A drift of the mechanics. It answers whether there is a state.
    #[inline(never)] // so that the modes are taken side by side, also where a command follows
    pub(crate) fn drift(&mut self, acting: &Acting) -> bool
        ensures drifted { self.new ≡ halves_drifted acting.now self.old }
        ensures some { result ≡ halves_remain self.new }
    {
        let remote = self.remote.drift(acting);
        let local = self.local.drift(acting);
        remote || local
    }

    /// A drift of the mechanics, and then the deck is commanded to a mode; a deck in LOCAL may ignore that, and so may any
    /// where `may_stay`. It answers whether there is a state.
    #[inline(never)] // so that the modes are taken side by side
    fn drift_and_go(&mut self, acting: &Acting, may_stay: bool, goal: Mode) -> bool
        ensures gone { self.new ≡ halves_gone may_stay goal (halves_drifted acting.now self.old) }
        ensures some { result ≡ halves_remain self.new }
    {
        let remote = self.remote.drift_and_go(acting, may_stay, goal);
        let local = self.local.drift_and_go(acting, true, goal);
        remote || local
    }

    /// A drift of the mechanics, and then the deck goes on as it was, or is commanded to one of these modes. It answers whether there is
    /// a state.
    #[inline(never)] // as it is rare
    fn drift_and_keep_or_go(&mut self, acting: &Acting, goals: ModeSet) -> bool
        ensures gone { self.new ≡ halves_kept_or_gone goals (halves_drifted acting.now self.old) }
        ensures some { result ≡ halves_remain self.new }
    {
        let some = self.drift(acting);
        self.remote.keep_or_go(goals);
        self.local.keep_or_go(goals);
        some
    }

    /// A register changes; a deck in LOCAL may ignore that, and so may any where `may_stay`.
    #[inline(never)] // as it takes memory
    fn change(
        &mut self,
        alloc: Global,
        may_stay: bool,
        register: Register,
        change: &Change,
    ) -> Result<(), AllocError>
        ensures ok { OnOk result (self.new ≡ halves_changed may_stay register change.now self.old) }
        ensures err { OnErr result (self.new ≡ self.old) }
    {
        let remote = self.remote.change_aside(alloc, may_stay, register, change)?;
        self.local.widen(alloc, register, change)?;
        self.remote.put_settled(alloc, register, remote);
        Ok(())
    }

    /// A register's time was read: None where the reply has no valid time.
    fn sense(
        &mut self,
        alloc: Global,
        register: Register,
        time: &Option<TimeCode>,
    ) -> Result<(), AllocError>
        requires { HalvesWhole (halves_rate self.old) self.old }
        ensures ok { OnOk result (self.new ≡ halves_sensed register time.now self.old) }
        ensures err { OnErr result (self.new ≡ self.old) }
    {
        if self.remote.knows(register, time) && self.local.knows(register, time) {
            return Ok(());
        }
        let remote = self.remote.sense_aside(alloc, register, time)?;
        let local = self.local.sense_aside(alloc, register, time)?;
        self.remote.put_settled(alloc, register, remote);
        self.local.put_settled(alloc, register, local);
        Ok(())
    }

    /// Keeps the states that agree with a status. Takes no memory.
    fn keep_status(&mut self, alloc: Global, status: &Status)
        ensures { self.new ≡ halves_status status.now self.old }
    {
        self.remote.keep_status(alloc, false, status);
        self.local.keep_status(alloc, true, status);
    }

    /// Goal and shown mode are forgotten.
    fn forget_motion(&mut self)
        ensures { self.new ≡ motion_forgotten self.old }
    {
        self.remote.forget_motion();
        self.local.forget_motion();
    }

    /// What is named is forgotten, without a drift. Where memory is refused nothing has changed.
    #[inline(never)] // as it is rare, and takes memory
    pub(crate) fn forget(&mut self, alloc: Global, forgotten: Forgotten) -> Result<(), AllocError>
        ensures ok { OnOk result (self.new ≡ halves_forgotten forgotten self.old) }
        ensures err { OnErr result (self.new ≡ self.old) }
        ensures frugal { IsTrue (is_frugal_effect (Forget forgotten)) → IsOk result }
    {
        match forgotten {
            Forgotten::Nothing => Ok(()),
            Forgotten::Motion => {
                self.forget_motion();
                Ok(())
            }
            Forgotten::Registers => self.forget_registers(alloc),
            Forgotten::Tape => {
                self.forget_registers(alloc)?;
                self.forget_motion();
                Ok(())
            }
            Forgotten::Everything => self.forget_all(alloc),
        }
    }

    /// The registers are forgotten.
    fn forget_registers(&mut self, alloc: Global) -> Result<(), AllocError>
        ensures ok { OnOk result (self.new ≡ registers_forgotten self.old) }
        ensures err { OnErr result (self.new ≡ self.old) }
    {
        let remote = self.remote.registers_forgotten(alloc)?;
        match self.local.registers_forgotten(alloc) {
            Ok(local) => {
                self.put(remote, local);
                Ok(())
            }
            Err(error) => {
                drop(remote);
                Err(error)
            }
        }
    }

    /// Puts these parts in place.
    fn put(&mut self, remote: Part<S>, local: Part<S>)
        ensures { self.new ≡ record { remote = remote; local = local } }
    {
        let next = Halves { remote, local };
        drop(replace(self, next));
    }

    /// Everything but the panel is forgotten.
    fn forget_all(&mut self, alloc: Global) -> Result<(), AllocError>
        ensures ok { OnOk result (self.new ≡ all_forgotten self.old) }
        ensures err { OnErr result (self.new ≡ self.old) }
    {
        if self.remains() {
            let all = Halves::all_or_none(alloc, self.rate(), true)?;
            drop(replace(self, all));
        }
        Ok(())
    }
}

/// The states with what is known and with this value of local: none where another is known.
fn part_from<S: TimeSet>(
    alloc: Global,
    rate: Rate,
    start: &Start,
    local: bool,
) -> Result<Part<S>, AllocError>
    ensures { IfOk result (λ p. p ≡ part_from rate start.now local) }
{
    if is_wanted(start.local, local) {
        Part::known_to_be(alloc, rate, start)
    } else {
        Ok(Part::none(alloc, rate))
    }
}

impl Halves<SpanSet> {
    /// The greatest number of spans of a register's times in either part.
    pub(crate) fn spans(&self, register: Register) -> usize
        ensures { result ≡ max (span_count (entries_of register self.now.remote).times) (span_count (entries_of register self.now.local).times) }
    {
        self.remote.spans(register).max(self.local.spans(register))
    }
}
