//! The states that the deck could be in, exchange by exchange.
ghost use Rattle.std.specs.Prelude.{◌≡◌, ◌↔◌, ◌<◌, ◌≤◌, ◌+◌, ◌^◌, IfErr, IfNone, IfOk, IfSome, IsOk, IsTrue, None, OnErr, OnOk, false, true};
ghost use Rattle.track9.specs.Frugal.{is_frugal, is_frugal_effect};
ghost use Rattle.deck9.specs.Knowledge.{IsKnowledge};
ghost use Rattle.deck9.specs.ModeSet.{has};
ghost use Rattle.track9.specs.Presets.{IsSpanCount, count_of, presets_after, with_command};
ghost use Rattle.deck9.specs.Contradict.{Passes};
ghost use Rattle.deck9.specs.Drift.{Drift};
ghost use Rattle.deck9.specs.Effect.{effect_of};
ghost use Rattle.deck9.specs.Going.{on_at_first};
ghost use Rattle.deck9.specs.State.{IsFirst};
ghost use Rattle.deck9.specs.Step.{AreReached, Exchanges, Goes};
ghost use Rattle.track9.specs.Start.{StartsFrom};
ghost use Rattle.track9.specs.Touched.{Touches};
ghost use Rattle.track9.specs.Tracker.{Possible};
ghost use Rattle.deck9.specs.declared.mode.Mode.{Mode as AMode};
ghost use Rattle.deck9.specs.declared.state.Register.{Register as ARegister};
ghost use Rattle.deck9.specs.declared.state.State.{State as AState};

use crate::acting::Acting;
use crate::kept::Kept;
use crate::presets::Presets;
use crate::start::Start;
use crate::states::States;
use block9::{Block, Command, Exchange};
use deck9::{Going, Hands, Knowledge, ModeSet, Profile, Register, State};
use sets25::{SpanSet, TimeSet};
use std::alloc::{AllocError, Global};
use std::marker::Model;
use tc25::Rate;

mod forgetting;

/// All states that the deck could be in after the exchanges of a capture so far.
///
/// A contract sees it as a set of states, by the pairs of modes and the sets of times that it keeps; the states
/// are never listed. It also knows what the deck is taken for, its rate and whether hands are allowed on the panel, and how
/// many data presets to each register were acknowledged.
#[derive(Drop)]
pub struct Tracker<'a, S: TimeSet> {
    states: States<S>,
    presets: Presets,
    acting: Acting<'a>,
    alloc: Global,
}

impl<'a, S: TimeSet> Model for Tracker<'a, S> {
    ghost use Rattle.track9.specs.Tracker.{Tracked};
    ghost use Rattle.track9.specs.Working.Codes.{stored};

    ghost Value = { Tracked };

    ghost coded = { Prim.hlevel stored };

    ghost use Rattle.track9.specs.Working.States.{AreTracked, profile_of};

    ghost view = { λ t. record { states = t.states; profile = profile_of t.acting.deck t.states; presets = t.presets; going = t.acting.on } };

    ghost invariant = { λ t. AreTracked t.presets t.states };
}

impl<'a, S: TimeSet> Tracker<'a, S> {
    /// A tracker before the first exchange of a deck that is taken for this: every state is possible, but that the panel is
    /// off, always, where hands are not allowed (the rules' choice: nothing is known before a capture).
    ///
    /// An error comes where memory is refused.
    pub fn of(alloc: Global, profile: &'a Profile) -> Result<Self, AllocError>
        ensures states { IfOk result (λ t. (s : AState) → Possible t.states s ↔ IsFirst profile.now s) }
        ensures profile { IfOk result (λ t. t.profile ≡ profile.now) }
        ensures going { IfOk result (λ t. t.going ≡ on_at_first profile.now.deck) }
        ensures presets { IfOk result (λ t. (r : ARegister) → count_of r t.presets ≡ 0) }
    {
        Tracker::begin(
            alloc,
            profile.rate,
            profile.hands,
            Acting::at_first(profile),
        )
    }

    /// The same at this rate, with hands or without, and for what such a deck does of its own.
    pub(crate) fn begin(
        alloc: Global,
        rate: Rate,
        hands: Hands,
        acting: Acting<'a>,
    ) -> Result<Self, AllocError>
        ensures states { IfOk result (λ t. (s : AState) → Possible t.states s ↔ IsFirst (record { rate = rate; hands = hands; deck = acting.entry.deck }) s) }
        ensures profile { IfOk result (λ t. t.profile ≡ record { rate = rate; hands = hands; deck = acting.entry.deck }) }
        ensures going { IfOk result (λ t. t.going ≡ acting.entry.on) }
        ensures presets { IfOk result (λ t. (r : ARegister) → count_of r t.presets ≡ 0) }
    {
        Ok(Tracker {
            states: States::first(alloc, rate, hands)?,
            presets: Presets::none(),
            acting,
            alloc,
        })
    }

    /// A tracker before the first exchange of a deck that is taken for this, but that nobody touches, and of which some fields
    /// are known: every state that has these is possible, with the panel off.
    ///
    /// An error comes where memory is refused.
    pub fn starting(alloc: Global, profile: &'a Profile, start: &Start) -> Result<Self, AllocError>
        ensures states { IfOk result (λ t. (s : AState) → Possible t.states s ↔ (IsFirst (record profile.now { hands = Hands.None }) s × StartsFrom start.now s)) }
        ensures profile { IfOk result (λ t. t.profile ≡ record profile.now { hands = Hands.None }) }
        ensures going { IfOk result (λ t. t.going ≡ on_at_first profile.now.deck) }
        ensures presets { IfOk result (λ t. (r : ARegister) → count_of r t.presets ≡ 0) }
    {
        let states = States::known_to_be(alloc, profile.rate, start)?;
        states.below_day();
        Ok(Tracker {
            states,
            presets: Presets::none(),
            acting: Acting::at_first(profile),
            alloc,
        })
    }

    /// Takes the next exchange, of a command and a reply that fits it, as a `Pairer` answers it.
    ///
    /// The states are then exactly those that a drift and a step of the deck lead to from a state before, where the
    /// step gives this reply to this command. It answers true where there is such a state, and false where there
    /// is none: then no run of the deck gives the replies so far, and every later call answers false or an error.
    /// What a deck may do is in `specs/Drift.antt` and `specs/Step.antt`; the effects of commands and the modes on the way to a
    /// goal are the deck's, and the status bits those of the rules.
    ///
    /// An error comes where memory is refused, and the tracker is then as it was. Where hands are not allowed none
    /// comes for a NAK, nor for a command that asks for no register's time and changes and forgets no register.
    #[inline(always)] // each exchange of a capture comes here
    pub fn observe(&mut self, command: &Command, reply: &Block) -> Result<bool, AllocError>
        ensures reached { IfOk result (λ b. AreReached (Possible self.old.states) (Exchanges self.old.profile self.old.going command.now reply.now) (Possible self.new.states)) }
        ensures remains { IfOk result (λ b. IsTrue b ↔ ((s : AState) × Possible self.new.states s)) }
        ensures over { ¬ ((s : AState) × Possible self.old.states s) → IfOk result (λ b. b ≡ false) }
        ensures profile { IfOk result (λ b. self.new.profile ≡ self.old.profile) }
        ensures going { IfOk result (λ b. self.new.going ≡ self.old.going) }
        ensures presets { IfOk result (λ b. self.new.presets ≡ presets_after command.now reply.now b self.old.presets) }
        ensures unchanged { IfErr result (λ e. self.new ≡ self.old) }
        ensures frugal { self.old.profile.hands ≡ Hands.None → IsTrue (is_frugal self.old.profile.deck command.now reply.now) → IsOk result }
    {
        let remains = self
            .states
            .take(self.alloc, &self.acting, command, Some(reply))?;
        self.presets.count_exchange(command, reply, remains);
        Ok(remains)
    }

    /// Takes the next command without its reply: as where the reply is not known, or is not believed.
    ///
    /// The states are then exactly those that a drift, and then nothing or the command's effect, lead to from a state
    /// before. So there is one where there was one. What a command may do is in `specs/Effect.antt` and
    /// `specs/Contradict.antt`; the effects of commands and the modes are the deck's. A data preset counts as one that
    /// was acknowledged.
    ///
    /// An error comes where memory is refused, and the tracker is then as it was. Where hands are not allowed none comes
    /// for a command that changes and forgets no register.
    pub fn pass(&mut self, command: &Command) -> Result<(), AllocError>
        ensures reached { OnOk result (AreReached (Possible self.old.states) (Passes self.old.profile self.old.going command.now) (Possible self.new.states)) }
        ensures remains { OnOk result (((s : AState) × Possible self.old.states s) ↔ ((s : AState) × Possible self.new.states s)) }
        ensures profile { OnOk result (self.new.profile ≡ self.old.profile) }
        ensures going { OnOk result (self.new.going ≡ self.old.going) }
        ensures presets { OnOk result (self.new.presets ≡ with_command command.now self.old.presets) }
        ensures unchanged { OnErr result (self.new ≡ self.old) }
        ensures frugal { self.old.profile.hands ≡ Hands.None → IsTrue (is_frugal_effect (effect_of self.old.profile.deck command.now)) → IsOk result }
    {
        self.states.take(self.alloc, &self.acting, command, None)?;
        self.presets.count_command(command);
        Ok(())
    }

    /// Lets the deck drift, and do nothing else.
    ///
    /// The states are then exactly those that a drift leads to from a state before. So there is one where there was one.
    /// What a drift may do is in `specs/Drift.antt` of `deck9`.
    ///
    /// An error comes where memory is refused, and the tracker is then as it was. Where hands are not allowed none comes.
    pub fn drift(&mut self) -> Result<(), AllocError>
        ensures reached { OnOk result (AreReached (Possible self.old.states) (Drift self.old.profile self.old.going) (Possible self.new.states)) }
        ensures remains { OnOk result (((s : AState) × Possible self.old.states s) ↔ ((s : AState) × Possible self.new.states s)) }
        ensures profile { OnOk result (self.new.profile ≡ self.old.profile) }
        ensures going { OnOk result (self.new.going ≡ self.old.going) }
        ensures presets { OnOk result (self.new.presets ≡ self.old.presets) }
        ensures unchanged { OnErr result (self.new ≡ self.old) }
        ensures frugal { self.old.profile.hands ≡ Hands.None → IsOk result }
    {
        self.states.drift(self.alloc, &self.acting)?;
        Ok(())
    }

    /// The tracker behind a move of a hand that keeps these fields: of the same profile and presets.
    ///
    /// The states are then exactly those to which such a move leads from a state before. What it leaves is in
    /// `specs/Touched.antt`: each kept field is as it was, LOCAL is the other way where it is not kept, and each other field may be
    /// anything.
    ///
    /// An error comes where memory is refused. This tracker stays as it is, either way.
    pub fn touched(&self, kept: &Kept) -> Result<Self, AllocError>
        ensures reached { IfOk result (λ t. AreReached (Possible self.now.states) (Touches self.now.profile.rate kept.now) (Possible t.states)) }
        ensures profile { IfOk result (λ t. t.profile ≡ self.now.profile) }
        ensures going { IfOk result (λ t. t.going ≡ self.now.going) }
        ensures presets { IfOk result (λ t. t.presets ≡ self.now.presets) }
    {
        self.states.below_day();
        let states = self.states.touched(self.alloc, kept)?;
        let (presets, acting) = (self.presets.copy(), self.acting.copy());
        Ok(Tracker {
            states,
            presets,
            acting,
            alloc: self.alloc,
        })
    }

    /// Whether a state is possible. Takes no memory.
    pub fn remains(&self) -> bool
        ensures { IsTrue result ↔ ((s : AState) × Possible self.now.states s) }
    {
        self.states.remains()
    }

    /// An equal tracker: of the same states, profile and presets.
    ///
    /// An error comes where memory is refused. This tracker stays as it is, either way.
    pub fn snapshot(&self) -> Result<Self, AllocError>
        ensures { IfOk result (λ t. t ≡ self.now) }
    {
        Ok(Tracker {
            states: self.states.copy()?,
            presets: self.presets.copy(),
            acting: self.acting.copy(),
            alloc: self.alloc,
        })
    }

    /// Some possible state, or `None` exactly where none is possible. Which one it is of several is not said. Takes no
    /// memory.
    pub fn member(&self) -> Option<State>
        ensures some { IfSome result (Possible self.now.states) }
        ensures none { IfNone result (¬ ((s : AState) × Possible self.now.states s)) }
    {
        self.states.member()
    }

    /// Some possible state of which this is known, or `None` exactly where none is possible. Which one it is of several is not
    /// said. Takes no memory.
    pub fn member_with(&self, start: &Start) -> Option<State>
        ensures some { IfSome result (λ s. Possible self.now.states s × StartsFrom start.now s) }
        ensures none { IfNone result (¬ ((s : AState) × Possible self.now.states s × StartsFrom start.now s)) }
    {
        self.states.member_with(start)
    }

    /// A possible state from which a drift alone leads to the target, or `None` exactly where there is none. Which one it is of
    /// several is not said. Takes no memory.
    pub fn before_drift(&self, target: &State) -> Option<State>
        ensures some { IfSome result (λ s. Possible self.now.states s × Drift self.now.profile self.now.going s target.now) }
        ensures none { IfNone result (¬ ((s : AState) × Possible self.now.states s × Drift self.now.profile self.now.going s target.now)) }
    {
        self.states.before_drift(&self.acting, target)
    }

    /// A possible state from which the exchange leads to the target, or `None` exactly where there is none: a drift, a step of the
    /// deck with this reply to this command, and what the deck forgets besides. Which one it is of several is not said. Takes no
    /// memory.
    pub fn before_exchange(&self, exchange: &Exchange, target: &State) -> Option<State>
        ensures some { IfSome result (λ s. Possible self.now.states s × Goes self.now.profile self.now.going exchange.now s target.now) }
        ensures none { IfNone result (¬ ((s : AState) × Possible self.now.states s × Goes self.now.profile self.now.going exchange.now s target.now)) }
    {
        self.states.before_exchange(&self.acting, exchange, target)
    }

    /// What the deck may do by itself from here on. Takes no memory.
    #[inline(always)]
    pub fn going(&self) -> Going
        ensures { result ≡ self.now.going }
    {
        self.acting.going()
    }

    /// The modes that some possible state shows, with no bit above theirs. Takes no memory.
    pub fn shown(&self) -> ModeSet
        ensures ten { result.0 < 2 ^ 10 }
        ensures modes { (m : AMode) → (has result.0 m ≡ true) ↔ ((s : AState) × Possible self.now.states s × (s.shown ≡ m)) }
    {
        self.states.shown().without_other_bits()
    }

    /// What all possible states agree on, field by field. There has to be one (`remains`). Takes no memory.
    pub fn knowledge(&self) -> Knowledge
        requires { (s : AState) × Possible self.now.states s }
        ensures { IsKnowledge (Possible self.now.states) result }
    {
        self.states.knowledge()
    }
}

impl<'a> Tracker<'a, SpanSet> {
    /// The greatest number of spans of the times at which a register may be Set, over the four values of local and
    /// of the panel: at most two more than `presets`, and 0 where no state remains. Takes no memory.
    pub fn spans(&self, register: Register) -> usize
        ensures exact { IsSpanCount (Possible self.now.states) register result }
        ensures few { result ≤ count_of register self.now.presets + 2 }
    {
        self.states.spans(register)
    }

    /// How many data presets to a register were acknowledged and left a state possible, or were taken without a reply; it
    /// stays at 4,294,967,295 once that is reached. Takes no memory.
    pub fn presets(&self, register: Register) -> u32
        ensures { result ≡ count_of register self.now.presets }
    {
        self.presets.count(register)
    }
}
