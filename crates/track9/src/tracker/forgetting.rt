//! What is forgotten, and complete exchanges with what is forgotten besides.
ghost use Rattle.std.specs.Prelude.{◌≡◌, ◌↔◌, IfErr, IfOk, IsOk, IsTrue, OnErr, OnOk, false, true};
ghost use Rattle.block9.specs.Block.{head_of};
ghost use Rattle.deck9.specs.Contradict.{MayGo};
ghost use Rattle.deck9.specs.Deck.{forgotten_beside};
ghost use Rattle.deck9.specs.Effect.{Forgets, effect_of};
ghost use Rattle.deck9.specs.Going.{goes_on};
ghost use Rattle.deck9.specs.Step.{AreReached, Goes, forgotten_with};
ghost use Rattle.track9.specs.Frugal.{is_frugal, is_frugal_effect};
ghost use Rattle.track9.specs.Presets.{presets_after, with_command};
ghost use Rattle.track9.specs.Tracker.{Possible};
ghost use Rattle.deck9.specs.declared.state.State.{State as AState};

use crate::tracker::Tracker;
use block9::Exchange;
use deck9::{Forgotten, Hands};
use sets25::TimeSet;
use std::alloc::AllocError;
use std::mem::replace;

impl<'a, S: TimeSet> Tracker<'a, S> {
    /// Forgets what is named: that may be anything from here on, and all else stays.
    ///
    /// The states are then exactly those to which forgetting leads from a state before. So there is one where there was one.
    ///
    /// An error comes where memory is refused, and the tracker is then as it was.
    pub fn forget(&mut self, forgotten: Forgotten) -> Result<(), AllocError>
        ensures reached { OnOk result (AreReached (Possible self.old.states) (Forgets self.old.profile forgotten) (Possible self.new.states)) }
        ensures remains { OnOk result (((s : AState) × Possible self.old.states s) ↔ ((s : AState) × Possible self.new.states s)) }
        ensures profile { OnOk result (self.new.profile ≡ self.old.profile) }
        ensures going { OnOk result (self.new.going ≡ self.old.going) }
        ensures presets { OnOk result (self.new.presets ≡ self.old.presets) }
        ensures unchanged { OnErr result (self.new ≡ self.old) }
    {
        self.states.below_day();
        self.states.forget(self.alloc, forgotten)?;
        Ok(())
    }

    /// Takes the next exchange, as [`Tracker::observe`] takes its command and reply, and then forgets what the deck forgets besides.
    ///
    /// The states are then exactly those to which the exchange leads from a state before. It answers true where there is such a
    /// state, and false where there is none.
    ///
    /// An error comes where memory is refused, and the tracker is then as it was. Where hands are not allowed and the deck forgets
    /// nothing besides, none comes for a NAK, nor for a command that asks for no register's time and changes and forgets no
    /// register.
    #[inline(always)] // each exchange of a capture comes here
    pub fn take(&mut self, exchange: &Exchange) -> Result<bool, AllocError>
        ensures reached { IfOk result (λ b. AreReached (Possible self.old.states) (Goes self.old.profile self.old.going exchange.now) (Possible self.new.states)) }
        ensures remains { IfOk result (λ b. IsTrue b ↔ ((s : AState) × Possible self.new.states s)) }
        ensures profile { IfOk result (λ b. self.new.profile ≡ self.old.profile) }
        ensures going { IfOk result (λ b. self.new.going ≡ goes_on self.old.profile true exchange.now self.old.going) }
        ensures presets { IfOk result (λ b. self.new.presets ≡ presets_after exchange.now.command exchange.now.reply b self.old.presets) }
        ensures unchanged { IfErr result (λ e. self.new ≡ self.old) }
        ensures frugal { self.old.profile.hands ≡ Hands.None → IsTrue (is_frugal self.old.profile.deck exchange.now.command exchange.now.reply)
            → forgotten_with self.old.profile.deck exchange.now ≡ Forgotten.Nothing → IsOk result }
    {
        let remains = self.take_states(exchange)?;
        self.go_on_after(exchange);
        Ok(remains)
    }

    /// The states after an exchange: what may be going on stays.
    #[inline(always)] // each exchange of a capture comes here
    pub(crate) fn take_states(&mut self, exchange: &Exchange) -> Result<bool, AllocError>
        ensures reached { IfOk result (λ b. AreReached (Possible self.old.states) (Goes self.old.profile self.old.going exchange.now) (Possible self.new.states)) }
        ensures remains { IfOk result (λ b. IsTrue b ↔ ((s : AState) × Possible self.new.states s)) }
        ensures profile { IfOk result (λ b. self.new.profile ≡ self.old.profile) }
        ensures going { IfOk result (λ b. self.new.going ≡ self.old.going) }
        ensures presets { IfOk result (λ b. self.new.presets ≡ presets_after exchange.now.command exchange.now.reply b self.old.presets) }
        ensures unchanged { IfErr result (λ e. self.new ≡ self.old) }
        ensures frugal { self.old.profile.hands ≡ Hands.None → IsTrue (is_frugal self.old.profile.deck exchange.now.command exchange.now.reply)
            → forgotten_with self.old.profile.deck exchange.now ≡ Forgotten.Nothing → IsOk result }
    {
        match self.acting.deck.forgotten_with(exchange) {
            Forgotten::Nothing => self.observe(&exchange.command, &exchange.reply),
            forgotten => self.take_aside(exchange, forgotten),
        }
    }

    /// What may be going on after an exchange, of which the reply is believed.
    #[inline(always)] // each exchange of a capture comes here
    fn go_on_after(&mut self, exchange: &Exchange)
        ensures { self.new ≡ record self.old { going = goes_on self.old.profile true exchange.now self.old.going } }
    {
        if self.acting.is_still() {
            return;
        }
        let hands = self.states.hands();
        match hands {
            Hands::None => self.acting.go_on_after(exchange),
            Hands::Allowed => {}
        }
    }

    /// The same where the reply is not known.
    fn go_on_after_unknown(&mut self, exchange: &Exchange)
        ensures { self.new ≡ record self.old { going = goes_on self.old.profile false exchange.now self.old.going } }
    {
        let hands = self.states.hands();
        match hands {
            Hands::None => self.acting.go_on_after_unknown(exchange),
            Hands::Allowed => {}
        }
    }

    /// The same where something is forgotten besides: aside, so that nothing has changed where memory is refused.
    #[inline(never)] // as it is rare
    fn take_aside(&mut self, exchange: &Exchange, forgotten: Forgotten) -> Result<bool, AllocError>
        requires { forgotten ≡ forgotten_with self.old.profile.deck exchange.now }
        ensures reached { IfOk result (λ b. AreReached (Possible self.old.states) (Goes self.old.profile self.old.going exchange.now) (Possible self.new.states)) }
        ensures remains { IfOk result (λ b. IsTrue b ↔ ((s : AState) × Possible self.new.states s)) }
        ensures profile { IfOk result (λ b. self.new.profile ≡ self.old.profile) }
        ensures going { IfOk result (λ b. self.new.going ≡ self.old.going) }
        ensures presets { IfOk result (λ b. self.new.presets ≡ presets_after exchange.now.command exchange.now.reply b self.old.presets) }
        ensures unchanged { IfErr result (λ e. self.new ≡ self.old) }
    {
        let mut next = self.snapshot()?;
        match next.observe_and_forget(exchange, forgotten) {
            Ok(remains) => {
                drop(replace(self, next));
                Ok(remains)
            }
            Err(error) => {
                drop(next);
                Err(error)
            }
        }
    }

    /// Takes an exchange, and then forgets this besides. Where memory is refused it may have taken the exchange alone.
    fn observe_and_forget(
        &mut self,
        exchange: &Exchange,
        forgotten: Forgotten,
    ) -> Result<bool, AllocError>
        requires { forgotten ≡ forgotten_with self.old.profile.deck exchange.now }
        ensures reached { IfOk result (λ b. AreReached (Possible self.old.states) (Goes self.old.profile self.old.going exchange.now) (Possible self.new.states)) }
        ensures remains { IfOk result (λ b. IsTrue b ↔ ((s : AState) × Possible self.new.states s)) }
        ensures profile { IfOk result (λ b. self.new.profile ≡ self.old.profile) }
        ensures going { IfOk result (λ b. self.new.going ≡ self.old.going) }
        ensures presets { IfOk result (λ b. self.new.presets ≡ presets_after exchange.now.command exchange.now.reply b self.old.presets) }
    {
        let remains = self.observe(&exchange.command, &exchange.reply)?;
        self.forget(forgotten)?;
        Ok(remains)
    }

    /// Takes the next exchange, of which the reply is not believed: as [`Tracker::pass`] takes its command, and then it forgets
    /// what the deck forgets besides.
    ///
    /// The states are then exactly those to which the exchange may lead from a state before. So there is one where there was one.
    ///
    /// An error comes where memory is refused, and the tracker is then as it was. Where hands are not allowed and the deck forgets
    /// nothing besides, none comes for a command that changes and forgets no register.
    pub fn take_unknown(&mut self, exchange: &Exchange) -> Result<(), AllocError>
        ensures reached { OnOk result (AreReached (Possible self.old.states) (MayGo self.old.profile self.old.going false exchange.now) (Possible self.new.states)) }
        ensures remains { OnOk result (((s : AState) × Possible self.old.states s) ↔ ((s : AState) × Possible self.new.states s)) }
        ensures profile { OnOk result (self.new.profile ≡ self.old.profile) }
        ensures going { OnOk result (self.new.going ≡ goes_on self.old.profile false exchange.now self.old.going) }
        ensures presets { OnOk result (self.new.presets ≡ with_command exchange.now.command self.old.presets) }
        ensures unchanged { OnErr result (self.new ≡ self.old) }
        ensures frugal { self.old.profile.hands ≡ Hands.None → IsTrue (is_frugal_effect (effect_of self.old.profile.deck exchange.now.command))
            → forgotten_beside self.old.profile.deck exchange.now.command (head_of exchange.now.block) ≡ Forgotten.Nothing → IsOk result }
    {
        self.take_states_unknown(exchange)?;
        self.go_on_after_unknown(exchange);
        Ok(())
    }

    /// The states after an exchange, of which the reply is not believed: what may be going on stays.
    fn take_states_unknown(&mut self, exchange: &Exchange) -> Result<(), AllocError>
        ensures reached { OnOk result (AreReached (Possible self.old.states) (MayGo self.old.profile self.old.going false exchange.now) (Possible self.new.states)) }
        ensures remains { OnOk result (((s : AState) × Possible self.old.states s) ↔ ((s : AState) × Possible self.new.states s)) }
        ensures profile { OnOk result (self.new.profile ≡ self.old.profile) }
        ensures going { OnOk result (self.new.going ≡ self.old.going) }
        ensures presets { OnOk result (self.new.presets ≡ with_command exchange.now.command self.old.presets) }
        ensures unchanged { OnErr result (self.new ≡ self.old) }
        ensures frugal { self.old.profile.hands ≡ Hands.None → IsTrue (is_frugal_effect (effect_of self.old.profile.deck exchange.now.command))
            → forgotten_beside self.old.profile.deck exchange.now.command (head_of exchange.now.block) ≡ Forgotten.Nothing → IsOk result }
    {
        match self.acting.deck.forgotten_beside(exchange) {
            Forgotten::Nothing => self.pass(&exchange.command),
            forgotten => self.pass_aside(exchange, forgotten),
        }
    }

    /// The same where something is forgotten besides: aside, so that nothing has changed where memory is refused.
    fn pass_aside(&mut self, exchange: &Exchange, forgotten: Forgotten) -> Result<(), AllocError>
        requires { forgotten ≡ forgotten_beside self.old.profile.deck exchange.now.command (head_of exchange.now.block) }
        ensures reached { OnOk result (AreReached (Possible self.old.states) (MayGo self.old.profile self.old.going false exchange.now) (Possible self.new.states)) }
        ensures remains { OnOk result (((s : AState) × Possible self.old.states s) ↔ ((s : AState) × Possible self.new.states s)) }
        ensures profile { OnOk result (self.new.profile ≡ self.old.profile) }
        ensures going { OnOk result (self.new.going ≡ self.old.going) }
        ensures presets { OnOk result (self.new.presets ≡ with_command exchange.now.command self.old.presets) }
        ensures unchanged { OnErr result (self.new ≡ self.old) }
    {
        let mut next = self.snapshot()?;
        match next.pass_and_forget(exchange, forgotten) {
            Ok(()) => {
                drop(replace(self, next));
                Ok(())
            }
            Err(error) => {
                drop(next);
                Err(error)
            }
        }
    }

    /// Takes a command without its reply, and then forgets this besides. Where memory is refused it may have taken the command alone.
    fn pass_and_forget(
        &mut self,
        exchange: &Exchange,
        forgotten: Forgotten,
    ) -> Result<(), AllocError>
        requires { forgotten ≡ forgotten_beside self.old.profile.deck exchange.now.command (head_of exchange.now.block) }
        ensures reached { OnOk result (AreReached (Possible self.old.states) (MayGo self.old.profile self.old.going false exchange.now) (Possible self.new.states)) }
        ensures remains { OnOk result (((s : AState) × Possible self.old.states s) ↔ ((s : AState) × Possible self.new.states s)) }
        ensures profile { OnOk result (self.new.profile ≡ self.old.profile) }
        ensures going { OnOk result (self.new.going ≡ self.old.going) }
        ensures presets { OnOk result (self.new.presets ≡ with_command exchange.now.command self.old.presets) }
    {
        self.pass(&exchange.command)?;
        self.forget(forgotten)?;
        Ok(())
    }
}
