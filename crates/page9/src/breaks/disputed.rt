//! What replies that contradict one another disagree on: the fields of the deck of which the last reply says what could not be.

use block9::{Block, Exchange};
use deck9::{
    Effect, Forgotten, Knowledge, Known, KnownEntry, ModeSet, Profile, Register, RegistersSet,
    Sense,
};
use report9::{WhyNo, status_in};
use text9::Markup;

/// Fields of a deck.
#[derive(Clone, Copy, PartialEq, Eq)]
pub(super) struct Disputed {
    local: bool,
    /// The mode that is shown.
    shown: bool,
    registers: RegistersSet,
}

impl Disputed {
    /// No field.
    pub(super) const NONE: Disputed = Disputed {
        local: false,
        shown: false,
        registers: RegistersSet {
            ins: false,
            outs: false,
            ains: false,
            aouts: false,
        },
    };

    /// Of the last reply of a contradiction. None where each field by itself could be as the reply says.
    pub(super) fn of(why: &WhyNo) -> Disputed {
        let WhyNo::Contradiction {
            exchanges,
            known,
            shown,
            ..
        } = why
        else {
            return Disputed::NONE;
        };
        let Some(last) = exchanges.last() else {
            return Disputed::NONE;
        };
        if let Sense::Register(register) = Sense::shown_by(&last.command, &last.reply) {
            return Disputed::just(register);
        }
        of_status(last, known, *shown)
    }

    /// A register.
    fn just(register: Register) -> Disputed {
        let registers = RegistersSet {
            ins: register == Register::RegIn,
            outs: register == Register::RegOut,
            ains: register == Register::RegAudioIn,
            aouts: register == Register::RegAudioOut,
        };
        Disputed {
            registers,
            ..Disputed::NONE
        }
    }

    /// Whether there is no field.
    pub(super) fn is_none(self) -> bool {
        self == Disputed::NONE
    }

    /// Whether it is kept by the deck until a command, a hand or a cassette changes it: all but the mode that is shown.
    pub(super) fn is_kept(self) -> bool {
        !self.is_none() && !self.shown
    }

    /// Whether a register is one of its fields.
    fn has(self, register: Register) -> bool {
        match register {
            Register::RegIn => self.registers.ins,
            Register::RegOut => self.registers.outs,
            Register::RegAudioIn => self.registers.ains,
            Register::RegAudioOut => self.registers.aouts,
        }
    }

    /// Whether a register is one of its fields, whichever.
    fn has_register(self) -> bool {
        self.registers != Disputed::NONE.registers
    }

    /// Whether the data byte at this place of the exchange's reply tells one of the fields.
    pub(super) fn stands_in(self, exchange: &Exchange, place: usize) -> bool {
        match Sense::shown_by(&exchange.command, &exchange.reply) {
            Sense::Register(register) => self.has(register),
            Sense::Status(asked) => self.stands_in_status(&exchange.reply, asked, place),
            Sense::Nothing => false,
        }
    }

    /// Whether the data byte at this place of a status tells one of the fields: the number of the first status datum is in the high
    /// four bits of what was asked.
    fn stands_in_status(self, reply: &Block, asked: u8, place: usize) -> bool {
        if reply.is_nak() {
            return false;
        }
        match usize::from(asked / 16).saturating_add(place) {
            0 => self.local,
            1 | 2 => self.shown,
            3 => self.has_register(),
            _ => false,
        }
    }

    /// Whether a command that the deck took may have changed one of the fields.
    pub(super) fn is_touched_by(self, profile: &Profile, exchange: &Exchange) -> bool {
        if exchange.reply.is_nak() {
            return false;
        }
        let deck = profile.deck_ref();
        let beside = deck.forgotten_with(exchange);
        self.is_changed_by(deck.effect(&exchange.command)) || self.is_forgotten(beside)
    }

    /// Whether an effect may change one of the fields.
    fn is_changed_by(self, effect: Effect) -> bool {
        match effect {
            Effect::Nothing => false,
            Effect::Go(_) | Effect::KeepOr(_) => self.shown,
            Effect::Change(register, _) => self.has(register),
            Effect::Panel(_) => self.local,
            Effect::Forget(forgotten) => self.is_forgotten(forgotten),
        }
    }

    /// Whether one of the fields is among what is forgotten.
    fn is_forgotten(self, forgotten: Forgotten) -> bool {
        match forgotten {
            Forgotten::Nothing => false,
            Forgotten::Motion => self.shown,
            Forgotten::Registers => self.has_register(),
            Forgotten::Tape => self.shown || self.has_register(),
            Forgotten::Everything => true,
        }
    }

    /// Puts its fields, where it has some.
    pub(super) fn put(self, html: &mut Markup) {
        let before = put_field(html, "", self.local, "LOCAL");
        let before = put_field(html, before, self.shown, "the mode that is shown");
        let before = put_field(html, before, self.registers.ins, "IN");
        let before = put_field(html, before, self.registers.outs, "OUT");
        let before = put_field(html, before, self.registers.ains, "audio IN");
        put_field(html, before, self.registers.aouts, "audio OUT");
    }
}

/// The fields of which a status says what could not be; none where the reply is no status.
fn of_status(exchange: &Exchange, known: &Knowledge, shown: ModeSet) -> Disputed {
    let Some(status) = status_in(exchange) else {
        return Disputed::NONE;
    };
    let is_other = match (status.local, known.local) {
        (Some(local), Known::Is(known)) => local != known,
        _ => false,
    };
    let modes = status.shown.unwrap_or(ModeSet::ALL);
    let mut disputed = Disputed {
        local: is_other,
        shown: modes.and(shown) == ModeSet::NONE,
        ..Disputed::NONE
    };
    if let Some(set) = status.registers {
        disputed.registers = RegistersSet {
            ins: is_otherwise(set.ins, known.ins),
            outs: is_otherwise(set.outs, known.outs),
            ains: is_otherwise(set.ains, known.ains),
            aouts: is_otherwise(set.aouts, known.aouts),
        };
    }
    disputed
}

/// Whether a register cannot be Set, where it is said to be, or not Clear.
fn is_otherwise(is_set: bool, known: KnownEntry) -> bool {
    match known {
        KnownEntry::Clear => is_set,
        KnownEntry::At(_) | KnownEntry::SetSomewhere => !is_set,
        KnownEntry::Unknown => false,
    }
}

/// Puts a field behind what stands before it, where it is one of them: what stands before the next.
fn put_field(
    html: &mut Markup,
    before: &'static str,
    is_one: bool,
    name: &'static str,
) -> &'static str {
    if !is_one {
        return before;
    }
    html.put_marks(&[before, "<b class=\"bad\">", name, "</b>"]);
    ", "
}
