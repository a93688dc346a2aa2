//! What a deck may do by itself, as views tell it: the modes that it may show, and the registers that it may clear.

use crate::field::Field;
use block9::Exchange;
use deck9::{Going, Lost, ModeSet, Profile};
use report9::put_modes;
use seen9::SeenExchange;
use text9::Text;

/// IN and OUT, in the order in which reports tell them.
const POINTS: [Field; 2] = [Field::In, Field::Out];

/// All registers, in that order.
const REGISTERS: [Field; 4] = [Field::In, Field::Out, Field::AudioIn, Field::AudioOut];

/// What a deck may do by itself before an exchange, and after it.
#[derive(Clone, Copy)]
pub(crate) struct ByItself {
    before: Going,
    after: Going,
}

impl ByItself {
    /// Nothing, before it and after it.
    pub(crate) const NOTHING: ByItself = ByItself {
        before: Going::NOTHING,
        after: Going::NOTHING,
    };

    /// Before and after this exchange.
    pub(crate) fn of(seen: &SeenExchange<'_>) -> ByItself {
        ByItself {
            before: seen.going_before,
            after: seen.going,
        }
    }

    /// Whether the exchange changes it.
    pub(crate) fn is_change(self) -> bool {
        self.before != self.after
    }

    /// Puts what the exchange changes of it, as other changes are put: first the modes, then the registers.
    pub(crate) fn put_changes(self, line: &mut Text) {
        if self.before.modes != self.after.modes {
            line.put(", may run: ");
            put_runs(line, self.before.modes);
            line.put(" => ");
            put_runs(line, self.after.modes);
        }
        if self.before.lost != self.after.lost {
            line.put(", may lose: ");
            put_losses(line, self.before.lost);
            line.put(" => ");
            put_losses(line, self.after.lost);
        }
    }
}

/// Whether a sheet says what the deck may do by itself after the command of this exchange.
pub(crate) fn has_line_for(profile: &Profile, exchange: &Exchange) -> bool {
    match &profile.deck {
        Some(deck) => deck.acts.get(&exchange.block.head()).is_some(),
        None => false,
    }
}

/// Puts what a deck may do by itself to the end of a line, and nothing where that is nothing.
pub(crate) fn put_going(line: &mut Text, going: Going) {
    if going.modes.is_some() {
        line.put("; may run ");
        put_runs(line, going.modes);
    }
    if going.lost != Lost::NoRegister {
        line.put("; may lose ");
        put_losses(line, going.lost);
    }
}

/// The registers that a deck may clear by itself, in the order in which reports tell them.
pub(crate) fn registers_of(lost: Lost) -> &'static [Field] {
    match lost {
        Lost::NoRegister => &[],
        Lost::Points => &POINTS,
        Lost::AllRegisters => &REGISTERS,
    }
}

/// Puts the modes that a deck may show by itself, with bars between.
fn put_runs(line: &mut Text, modes: ModeSet) {
    if modes.is_some() {
        line.put_with(|text| put_modes(text, modes));
    } else {
        line.put("nothing");
    }
}

/// Puts the registers that a deck may clear by itself, with bars between.
fn put_losses(line: &mut Text, lost: Lost) {
    let registers = registers_of(lost);
    if registers.is_empty() {
        line.put("nothing");
    }
    let mut before = "";
    for register in registers {
        line.put(before).put(register.name());
        before = "|";
    }
}
