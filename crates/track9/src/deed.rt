//! What an exchange tells of the deck and does to it, decoded once: below this nothing sees a command or a block.
ghost use Rattle.std.specs.Prelude.{◌≡◌, option_map};
ghost use Rattle.track9.specs.Working.Deed.{deed_exchanged, deed_of, deed_passed, no_deed};

use block9::{Block, Command};
use deck9::{DeckRef, Effect, Register, Sense, Status};
use tc25::{Rate, TimeCode};

/// What an exchange tells and does after its drift.
#[derive(Clone, Copy)]
pub(crate) enum Deed {
    /// A register's time was read: None where the reply has no valid one.
    Read(Register, Option<TimeCode>),
    /// A status was reported.
    Report(Status),
    /// A command has its effect, or none: a deck in LOCAL may ignore one on its goal or its registers, and any deck may
    /// stay as it is where `may_stay`.
    Apply { effect: Effect, may_stay: bool },
}

impl Deed {
    /// Nothing: the deck drifts, and stays.
    pub(crate) fn nothing() -> Deed
        ensures { result ≡ no_deed }
    {
        Deed::Apply {
            effect: Effect::Nothing,
            may_stay: false,
        }
    }

    /// That of a command and its reply, where that is known.
    #[inline(always)] // each exchange comes here
    pub(crate) fn of(deck: &DeckRef, rate: Rate, command: &Command, reply: Option<&Block>) -> Deed
        ensures { result ≡ deed_of deck.now rate command.now (option_map (λ b. b.now) reply.entry) }
    {
        match reply {
            Some(reply) => Deed::exchanged(deck, rate, command, reply),
            None => Deed::passed(deck, command),
        }
    }

    /// That of an exchange: a NAK does nothing, and a command whose reply shows something of the state has no effect.
    #[inline(always)] // each exchange comes here
    fn exchanged(deck: &DeckRef, rate: Rate, command: &Command, reply: &Block) -> Deed
        ensures { result ≡ deed_exchanged deck.now rate command.now reply.now }
    {
        if reply.is_nak() {
            return Deed::nothing();
        }
        match Sense::shown_by(command, reply) {
            Sense::Register(register) => Deed::Read(register, reply.time_at(rate)),
            Sense::Status(asked) => Deed::Report(Status::of(asked, reply)),
            Sense::Nothing => Deed::Apply {
                effect: deck.effect(command),
                may_stay: false,
            },
        }
    }

    /// That of a command whose reply is not known: its effect, or nothing.
    fn passed(deck: &DeckRef, command: &Command) -> Deed
        ensures { result ≡ deed_passed deck.now command.now }
    {
        Deed::Apply {
            effect: deck.effect(command),
            may_stay: true,
        }
    }
}
