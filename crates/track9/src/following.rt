//! A tracker that takes one exchange after the other.
ghost use Rattle.std.specs.Prelude.{◌≡◌, ◌↔◌, IfErr, IfOk, IsTrue, OnOk};
ghost use Rattle.deck9.specs.Step.{AreReached, Goes};
ghost use Rattle.deck9.specs.declared.state.State.{State as AState};
ghost use Rattle.track9.specs.Following.{FollowsFrom, left_on};
ghost use Rattle.track9.specs.Presets.{presets_after};
ghost use Rattle.track9.specs.Tracker.{Possible};

use crate::tracker::Tracker;
use block9::Exchange;
use sets25::TimeSet;
use std::alloc::AllocError;

/// How long what the deck does by itself may go on.
#[derive(Clone, Copy, PartialEq, Eq)]
pub enum Lasting {
    /// Until an exchange ends it, which may begin something else.
    UntilEnded,
    /// Throughout: a hand may have begun it anew.
    Throughout,
}

impl<'a, S: TimeSet> Tracker<'a, S> {
    /// Takes the next exchange, as [`Tracker::take`] does, where what may be going on lasts so long.
    ///
    /// An error comes where memory is refused, and the tracker is then as it was.
    pub fn take_as(&mut self, exchange: &Exchange, lasting: Lasting) -> Result<bool, AllocError>
        ensures reached { IfOk result (λ b. AreReached (Possible self.old.states) (Goes self.old.profile self.old.going exchange.now) (Possible self.new.states)) }
        ensures remains { IfOk result (λ b. IsTrue b ↔ ((s : AState) × Possible self.new.states s)) }
        ensures profile { IfOk result (λ b. self.new.profile ≡ self.old.profile) }
        ensures going { IfOk result (λ b. self.new.going ≡ left_on lasting self.old.profile exchange.now self.old.going) }
        ensures presets { IfOk result (λ b. self.new.presets ≡ presets_after exchange.now.command exchange.now.reply b self.old.presets) }
        ensures unchanged { IfErr result (λ e. self.new ≡ self.old) }
    {
        match lasting {
            Lasting::UntilEnded => self.take(exchange),
            Lasting::Throughout => self.take_states(exchange),
        }
    }

    /// Takes these exchanges in turn, as [`Tracker::take`] takes one. The states are then exactly those to which the
    /// exchanges lead from a state before.
    ///
    /// An error comes where memory is refused. The tracker has then taken the exchanges before the one that needed it.
    pub fn follow(&mut self, exchanges: &[Exchange]) -> Result<(), AllocError>
        ensures { OnOk result (FollowsFrom Lasting.UntilEnded self.old exchanges.now self.new) }
    {
        self.follow_as(exchanges, Lasting::UntilEnded)
    }

    /// Takes these exchanges in turn, as [`Tracker::take_as`] takes one.
    ///
    /// An error comes where memory is refused. The tracker has then taken the exchanges before the one that needed it.
    pub fn follow_as(&mut self, exchanges: &[Exchange], lasting: Lasting) -> Result<(), AllocError>
        ensures { OnOk result (FollowsFrom lasting self.old exchanges.now self.new) }
    {
        for exchange in exchanges {
            self.take_as(exchange, lasting)?;
        }
        Ok(())
    }
}
