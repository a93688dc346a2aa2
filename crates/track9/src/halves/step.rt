//! What a deed does to the states with one value of the panel, where nobody touches it.
ghost use Rattle.std.specs.Prelude.{◌≡◌, IfOk, IsOk, IsTrue, OnErr, OnOk};
ghost use Rattle.track9.specs.Frugal.{is_frugal_effect};
ghost use Rattle.track9.specs.Working.Deed.{is_frugal_deed};
ghost use Rattle.track9.specs.Working.States.{HasEffect, Taken, TakenQuietly, HalvesWhole, halves_rate, halves_remain, halves_drifted, halves_sensed, halves_status};

use crate::acting::Acting;
use crate::deed::Deed;
use crate::halves::Halves;
use deck9::{Effect, Lost, Register, Status};
use sets25::TimeSet;
use std::alloc::{AllocError, Global};
use tc25::TimeCode;

impl<S: TimeSet> Halves<S> {
    /// The states after a drift and a deed. It answers whether there is one. Where memory is refused nothing has changed.
    #[inline(always)] // each exchange comes here
    pub(crate) fn take(
        &mut self,
        alloc: Global,
        acting: &Acting,
        deed: &Deed,
    ) -> Result<bool, AllocError>
        requires { HalvesWhole (halves_rate self.old) self.old }
        ensures ok { OnOk result (Taken acting.now (halves_rate self.old) deed.now self.old self.new) }
        ensures some { IfOk result (λ b. b ≡ halves_remain self.new) }
        ensures err { OnErr result (self.new ≡ self.old) }
        ensures frugal { IsTrue (is_frugal_deed deed.now) → IsOk result }
    {
        match acting.going().lost {
            Lost::NoRegister => self.take_quietly(alloc, acting, deed),
            lost => self.take_lost(alloc, acting, *deed, lost),
        }
    }

    /// The same where registers may be lost: they are lost before the deed, and put back where memory is refused for that.
    #[inline(never)] // as it is rare; the deed by value, so that it needs no place in memory elsewhere
    fn take_lost(
        &mut self,
        alloc: Global,
        acting: &Acting,
        deed: Deed,
        lost: Lost,
    ) -> Result<bool, AllocError>
        requires whole { HalvesWhole (halves_rate self.old) self.old }
        requires lost { lost ≡ acting.now.on.lost }
        ensures ok { OnOk result (Taken acting.now (halves_rate self.old) deed self.old self.new) }
        ensures some { IfOk result (λ b. b ≡ halves_remain self.new) }
        ensures err { OnErr result (self.new ≡ self.old) }
        ensures frugal { IsTrue (is_frugal_deed deed) → IsOk result }
    {
        let (remote, local) = (self.remote.clears(), self.local.clears());
        self.lose(lost);
        match self.take_quietly(alloc, acting, &deed) {
            Ok(some) => Ok(some),
            Err(error) => {
                self.remote.put_clears(remote);
                self.local.put_clears(local);
                Err(error)
            }
        }
    }

    /// The states after a drift of the mechanics and a deed. It answers whether there is one. Where memory is refused nothing has
    /// changed.
    #[inline(always)] // each exchange comes here
    fn take_quietly(
        &mut self,
        alloc: Global,
        acting: &Acting,
        deed: &Deed,
    ) -> Result<bool, AllocError>
        requires { HalvesWhole (halves_rate self.old) self.old }
        ensures ok { OnOk result (TakenQuietly acting.now (halves_rate self.old) deed.now self.old self.new) }
        ensures some { IfOk result (λ b. b ≡ halves_remain self.new) }
        ensures err { OnErr result (self.new ≡ self.old) }
        ensures frugal { IsTrue (is_frugal_deed deed.now) → IsOk result }
    {
        match deed {
            Deed::Read(register, time) => self.read(alloc, acting, *register, *time),
            Deed::Report(status) => Ok(self.report(alloc, acting, *status)),
            Deed::Apply { effect, may_stay } => self.apply(alloc, acting, *may_stay, *effect),
        }
    }

    /// The states after a register's time was read, and a drift. It answers whether there is one.
    #[inline(never)] // so that an exchange that takes no memory needs no room on the stack
    fn read(
        &mut self,
        alloc: Global,
        acting: &Acting,
        register: Register,
        time: Option<TimeCode>,
    ) -> Result<bool, AllocError>
        requires { HalvesWhole (halves_rate self.old) self.old }
        ensures ok { OnOk result (self.new ≡ halves_drifted acting.now (halves_sensed register time self.old)) }
        ensures some { IfOk result (λ b. b ≡ halves_remain self.new) }
        ensures err { OnErr result (self.new ≡ self.old) }
    {
        self.sense(alloc, register, &time)?;
        Ok(self.drift(acting))
    }

    /// The states after a drift that agree with a status. It answers whether there is one.
    #[inline(never)] // so that an exchange that takes no memory needs no room on the stack
    fn report(&mut self, alloc: Global, acting: &Acting, status: Status) -> bool
        ensures kept { self.new ≡ halves_status status (halves_drifted acting.now self.old) }
        ensures some { result ≡ halves_remain self.new }
    {
        self.drift(acting);
        self.keep_status(alloc, &status);
        self.remains()
    }

    /// The states after a drift and an effect, or none, as [`Deed::Apply`] has it. It answers whether there is one.
    #[inline(always)] // each acknowledged command comes here
    fn apply(
        &mut self,
        alloc: Global,
        acting: &Acting,
        may_stay: bool,
        effect: Effect,
    ) -> Result<bool, AllocError>
        requires { HalvesWhole (halves_rate self.old) self.old }
        ensures ok { OnOk result (HasEffect acting.now.deck (halves_rate self.old) may_stay effect (halves_drifted acting.now self.old) self.new) }
        ensures some { IfOk result (λ b. b ≡ halves_remain self.new) }
        ensures err { OnErr result (self.new ≡ self.old) }
        ensures frugal { IsTrue (is_frugal_effect effect) → IsOk result }
    {
        match effect {
            Effect::Nothing => Ok(self.drift(acting)),
            Effect::Panel(_) => Ok(self.drift(acting)),
            Effect::Go(goal) => Ok(self.drift_and_go(acting, may_stay, goal)),
            Effect::KeepOr(goals) => Ok(self.drift_and_keep_or_go(acting, goals)),
            Effect::Change(register, change) => {
                self.below_day();
                self.change(alloc, may_stay, register, &change)?;
                self.below_day();
                Ok(self.drift(acting))
            }
            Effect::Forget(forgotten) => {
                self.below_day();
                self.forget(alloc, forgotten)?;
                Ok(self.drift(acting))
            }
        }
    }
}
