//! A set of states: those with the panel off, and those with the panel on.
//!
//! With the panel on a drift leads to every state, if there was one. So a command makes those states anew from every state,
//! aside, and then changes those with the panel off, in place. A refused command changes nothing.
//!
//! What was made aside is dropped by name where memory is refused, and so is what it takes the place of, since dropping them at
//! the block's end multiplies the time of the proof.
ghost use Rattle.std.specs.Prelude.{◌≡◌, IfOk, IsOk, IsTrue, OnErr, OnOk, Some, false, if◌then◌else◌, max, option_map, true};
ghost use Rattle.sets25.specs.Times.{span_count};
ghost use Rattle.track9.specs.Tracker.{entries_of};
ghost use Rattle.track9.specs.Working.Starts.{states_from};
ghost use Rattle.track9.specs.Working.Deed.{deed_of, is_frugal_deed, is_wide, no_deed};
ghost use Rattle.track9.specs.Working.States.{AreBelow, AreWhole, Follows, Taken, after_panel, all_or_none, either_panel, first_states, hands_of, remains_with_panel_on, panel_passed, part_of, profile_of, states_rate, states_remain};

use crate::acting::Acting;
use crate::deed::Deed;
use crate::halves::Halves;
use crate::start::Start;
use block9::{Block, Command};
use boxed::{all_boxed, copy_boxed};
use deck9::{Effect, Forgotten, Hands, Register};
use sets25::{SpanSet, TimeSet};
use std::alloc::{AllocError, Global};
use std::marker::Model;
use std::mem::replace;
use tc25::Rate;

mod before;
mod boxed;
mod forgetting;
mod knowing;
mod member;
mod touched;

/// The states in which the deck may be: with the panel off, and, where hands are allowed, with the panel on.
#[derive(Drop)]
pub(crate) struct States<S: TimeSet> {
    off: Halves<S>,
    on: Option<Box<Halves<S>>>,
}

impl<S: TimeSet> Model for States<S> {
    ghost use Rattle.track9.specs.Tracker.{States};
    ghost use Rattle.std.specs.Prelude.{option_map};
    ghost use Rattle.track9.specs.Working.Codes.{stored};

    ghost Value = { States };

    ghost coded = { Prim.hlevel stored };

    ghost view = { λ v. record { off = v.off; on = option_map (λ b. b.value) v.on } };
}

impl<S: TimeSet> States<S> {
    /// The states before a capture: all, but those with the panel on where nobody touches it.
    pub(crate) fn first(alloc: Global, rate: Rate, hands: Hands) -> Result<States<S>, AllocError>
        ensures { IfOk result (λ v. v ≡ first_states rate hands) }
    {
        let off = Halves::all_or_none(alloc, rate, true)?;
        match hands {
            Hands::None => Ok(States { off, on: None }),
            Hands::Allowed => match all_boxed(alloc, rate) {
                Ok(all) => Ok(States { off, on: Some(all) }),
                Err(error) => {
                    drop(off);
                    Err(error)
                }
            },
        }
    }

    /// The states with what is known before a capture in which nobody touches the panel.
    pub(crate) fn known_to_be(
        alloc: Global,
        rate: Rate,
        start: &Start,
    ) -> Result<States<S>, AllocError>
        ensures { IfOk result (λ v. v ≡ states_from rate start.now) }
    {
        Ok(States {
            off: Halves::known_to_be(alloc, rate, start)?,
            on: None,
        })
    }

    /// An equal set.
    pub(crate) fn copy(&self) -> Result<States<S>, AllocError>
        ensures { IfOk result (λ v. v ≡ self.now) }
    {
        let off = self.off.copy()?;
        let Some(on) = &self.on else {
            return Ok(States { off, on: None });
        };
        match copy_boxed(on) {
            Ok(copy) => Ok(States {
                off,
                on: Some(copy),
            }),
            Err(error) => {
                drop(off);
                Err(error)
            }
        }
    }

    /// All times are times of the day. Does nothing.
    pub(crate) fn below_day(&self)
        ensures { AreBelow self.now }
    {
        self.off.below_day();
        if let Some(on) = &self.on {
            on.below_day();
        }
    }

    /// Whether hands are allowed.
    pub(crate) fn hands(&self) -> Hands
        ensures { result ≡ hands_of self.now }
    {
        match &self.on {
            Some(_) => Hands::Allowed,
            None => Hands::None,
        }
    }

    /// The rate whose times they have.
    pub(crate) fn rate(&self) -> Rate
        ensures { result ≡ states_rate self.now }
    {
        self.off.rate()
    }

    /// Whether there is a state.
    pub(crate) fn remains(&self) -> bool
        ensures { result ≡ states_remain self.now }
    {
        self.off.remains() || self.remains_with_panel_on()
    }

    /// Whether there is a state with the panel on.
    fn remains_with_panel_on(&self) -> bool
        ensures { result ≡ remains_with_panel_on self.now }
    {
        match &self.on {
            Some(on) => on.remains(),
            None => false,
        }
    }

    /// The states after a command: after a drift and the deed of its exchange, or of the command alone where its reply is not
    /// known. It answers whether there is one. Where memory is refused nothing has changed.
    #[inline(always)] // so that whether there is a reply is known where this is called
    pub(crate) fn take(
        &mut self,
        alloc: Global,
        acting: &Acting,
        command: &Command,
        reply: Option<&Block>,
    ) -> Result<bool, AllocError>
        requires { AreWhole (states_rate self.old) self.old }
        ensures ok { OnOk result (Follows (profile_of acting.now.deck self.old) acting.now.on (deed_of acting.now.deck (states_rate self.old) command.now (option_map (λ b. b.now) reply.entry)) self.old self.new) }
        ensures some { IfOk result (λ b. b ≡ states_remain self.new) }
        ensures err { OnErr result (self.new ≡ self.old) }
        ensures frugal { hands_of self.old ≡ Hands.None → IsTrue (is_frugal_deed (deed_of acting.now.deck (states_rate self.old) command.now (option_map (λ b. b.now) reply.entry))) → IsOk result }
    {
        let rate = self.rate();
        match self.hands() {
            // decoded here, so that each command goes straight to its effect
            Hands::None => self.off.take(
                alloc,
                acting,
                &Deed::of(&acting.deck, rate, command, reply),
            ),
            Hands::Allowed => {
                self.take_by_hand(alloc, acting, &Deed::of(&acting.deck, rate, command, reply))?;
                Ok(self.remains())
            }
        }
    }

    /// The states after a drift alone. Where memory is refused nothing has changed.
    pub(crate) fn drift(&mut self, alloc: Global, acting: &Acting) -> Result<(), AllocError>
        requires { AreWhole (states_rate self.old) self.old }
        ensures ok { OnOk result (Follows (profile_of acting.now.deck self.old) acting.now.on no_deed self.old self.new) }
        ensures err { OnErr result (self.new ≡ self.old) }
        ensures frugal { hands_of self.old ≡ Hands.None → IsOk result }
    {
        let nothing = Deed::nothing();
        match self.hands() {
            Hands::None => {
                self.off.take(alloc, acting, &nothing)?;
                Ok(())
            }
            Hands::Allowed => self.take_by_hand(alloc, acting, &nothing),
        }
    }

    /// The states after a drift and a deed, where hands are allowed.
    fn take_by_hand(
        &mut self,
        alloc: Global,
        acting: &Acting,
        deed: &Deed,
    ) -> Result<(), AllocError>
        requires whole { AreWhole (states_rate self.old) self.old }
        requires hands { hands_of self.old ≡ Hands.Allowed }
        ensures ok { OnOk result (Follows (profile_of acting.now.deck self.old) acting.now.on deed.now self.old self.new) }
        ensures err { OnErr result (self.new ≡ self.old) }
    {
        self.below_day();
        match deed {
            Deed::Apply {
                effect: Effect::Panel(on),
                may_stay,
            } => {
                if *may_stay {
                    self.pass_panel(alloc, acting, *on)
                } else {
                    self.switch_panel(alloc, acting, *on)
                }
            }
            Deed::Apply {
                effect: Effect::Forget(Forgotten::Everything),
                ..
            } => self.forget_all(alloc),
            _ => self.take_both(alloc, acting, deed),
        }
    }

    /// What a drift leaves with the panel on: every state, if there was any.
    fn drifted_on(&self, alloc: Global) -> Result<Halves<S>, AllocError>
        ensures { IfOk result (λ h. h ≡ all_or_none (states_rate self.now) (remains_with_panel_on self.now)) }
    {
        Halves::all_or_none(alloc, self.rate(), self.remains_with_panel_on())
    }

    /// The states after a deed to which a hand on the panel makes no difference: those with the panel on are what it makes of
    /// everything, if there were any, aside.
    fn take_both(&mut self, alloc: Global, acting: &Acting, deed: &Deed) -> Result<(), AllocError>
        requires whole { AreWhole (states_rate self.old) self.old }
        requires hands { hands_of self.old ≡ Hands.Allowed }
        requires narrow { is_wide deed.now ≡ false }
        ensures ok { OnOk result (Follows (profile_of acting.now.deck self.old) acting.now.on deed.now self.old self.new) }
        ensures err { OnErr result (self.new ≡ self.old) }
    {
        self.below_day();
        let mut on = self.drifted_on(alloc)?;
        if let Err(error) = on.take(alloc, acting, deed) {
            drop(on);
            return Err(error);
        }
        if let Err(error) = self.off.take(alloc, acting, deed) {
            drop(on);
            return Err(error);
        }
        self.put_on(on);
        Ok(())
    }

    /// What a drift leaves, whatever the panel: every state where the panel was on.
    fn either_panel(&self, alloc: Global, acting: &Acting) -> Result<Halves<S>, AllocError>
        ensures { IfOk result (λ h. h ≡ either_panel acting.now self.now) }
    {
        if self.remains_with_panel_on() {
            return Halves::all_or_none(alloc, self.rate(), true);
        }
        let mut off = self.off.copy()?;
        off.move_on(acting);
        Ok(off)
    }

    /// The panel is switched on or off, after a drift.
    fn switch_panel(&mut self, alloc: Global, acting: &Acting, on: bool) -> Result<(), AllocError>
        requires { hands_of self.old ≡ Hands.Allowed }
        ensures ok { OnOk result (self.new ≡ after_panel acting.now on self.old) }
        ensures err { OnErr result (self.new ≡ self.old) }
    {
        let known = self.either_panel(alloc, acting)?;
        let none = Halves::none(alloc, self.rate());
        if on {
            self.put(none, known);
        } else {
            self.put(known, none);
        }
        Ok(())
    }

    /// Puts these states in place of all: those with the panel off, and those with it on.
    fn put(&mut self, off: Halves<S>, on: Halves<S>)
        requires { hands_of self.old ≡ Hands.Allowed }
        ensures { self.new ≡ record { off = off; on = Some on } }
    {
        drop(replace(&mut self.off, off));
        self.put_on(on);
    }

    /// Puts these states in place of those with the panel on, in the same box.
    fn put_on(&mut self, on: Halves<S>)
        requires { hands_of self.old ≡ Hands.Allowed }
        ensures { self.new ≡ record self.old { on = Some on } }
    {
        match &mut self.on {
            Some(boxed) => drop(Box::replace(boxed, on)),
            None => drop(on),
        }
    }

    /// The panel may be switched on or off, after a drift, or stay.
    fn pass_panel(&mut self, alloc: Global, acting: &Acting, on: bool) -> Result<(), AllocError>
        requires { hands_of self.old ≡ Hands.Allowed }
        ensures ok { OnOk result (self.new ≡ panel_passed acting.now on self.old) }
        ensures err { OnErr result (self.new ≡ self.old) }
    {
        let known = self.either_panel(alloc, acting)?;
        if on {
            self.off.move_on(acting);
            self.put_on(known);
            return Ok(());
        }
        match self.drifted_on(alloc) {
            Ok(drifted) => {
                self.put(known, drifted);
                Ok(())
            }
            Err(error) => {
                drop(known);
                Err(error)
            }
        }
    }

    /// Everything is forgotten, the panel too.
    fn forget_all(&mut self, alloc: Global) -> Result<(), AllocError>
        ensures ok { OnOk result (self.new ≡ (if states_remain self.old then first_states (states_rate self.old) Hands.Allowed else self.old)) }
        ensures err { OnErr result (self.new ≡ self.old) }
    {
        if self.remains() {
            let first = States::first(alloc, self.rate(), Hands::Allowed)?;
            drop(replace(self, first));
        }
        Ok(())
    }
}

impl States<SpanSet> {
    /// The greatest number of spans of a register's times in any part.
    pub(crate) fn spans(&self, register: Register) -> usize
        ensures { result ≡ max (max (span_count (entries_of register (part_of self.now false false)).times) (span_count (entries_of register (part_of self.now true false)).times)) (max (span_count (entries_of register (part_of self.now false true)).times) (span_count (entries_of register (part_of self.now true true)).times)) }
    {
        let off = self.off.spans(register);
        match &self.on {
            Some(on) => off.max(on.spans(register)),
            None => off,
        }
    }
}
