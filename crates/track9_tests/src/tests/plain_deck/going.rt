//! What may be going on: modes that a deck may show by itself, whatever its goal is, and registers that it may clear by itself.

use super::{MODES, PlainState, REGISTERS, Sheet, head_of, with_time};
use block9::Command;
use deck9::{Hands, Lost};

/// What may be going on.
#[derive(Clone, Copy)]
pub(in crate::tests) struct PlainGoing {
    /// Of each mode, in their order, whether the deck may show it.
    modes: [bool; 10],
    /// Of each register, in their order, whether the deck may clear it.
    registers: [bool; 4],
}

/// Nothing is going on.
pub(in crate::tests) const NOTHING: PlainGoing = PlainGoing {
    modes: [false; 10],
    registers: [false; 4],
};

/// The registers that a sheet names by a word.
fn registers_of(lost: Lost) -> [bool; 4] {
    match lost {
        Lost::NoRegister => [false; 4],
        Lost::Points => [true, true, false, false],
        Lost::AllRegisters => [true; 4],
    }
}

/// How many of these there are.
fn count(flags: &[bool]) -> usize {
    let mut count = 0usize;
    for flag in flags {
        count = count.saturating_add(usize::from(*flag));
    }
    count
}

/// The place of one of those that are there, of which this many come before it.
fn place_of(flags: &[bool], before: usize) -> Option<usize> {
    let mut rest = before;
    for (place, flag) in flags.iter().enumerate() {
        if *flag && rest == 0 {
            return Some(place);
        }
        if *flag {
            rest = rest.saturating_sub(1);
        }
    }
    None
}

/// Whether a command is the one that is asked for: any is where none is.
fn is_asked(asked: Option<u32>, head: u32) -> bool {
    asked.is_none() || asked == Some(head)
}

impl PlainGoing {
    fn add_mode(&mut self, place: usize) {
        if let Some(flag) = self.modes.get_mut(place) {
            *flag = true;
        }
    }

    fn add_registers(&mut self, registers: [bool; 4]) {
        for (flag, other) in self.registers.iter_mut().zip(registers) {
            *flag = *flag || other;
        }
    }

    /// Adds what the sheet names for one command, or for all.
    fn add_named(&mut self, sheet: &Sheet, asked: Option<u32>) {
        for (head, mode) in sheet.runs {
            if is_asked(asked, *head) {
                self.add_mode(*mode as usize);
            }
        }
        for (head, lost) in sheet.loses {
            if is_asked(asked, *head) {
                self.add_registers(registers_of(*lost));
            }
        }
    }

    /// All that the sheet names: nobody knows what was begun before.
    pub(in crate::tests) fn all_of(sheet: &Sheet) -> PlainGoing {
        let mut all = NOTHING;
        all.add_named(sheet, None);
        all
    }

    /// What goes on after a command with this answer. With hands that is what did: a hand may have begun it.
    pub(in crate::tests) fn after(
        &self,
        sheet: &Sheet,
        hands: Hands,
        command: &Command,
        is_refused: bool,
    ) -> PlainGoing {
        if hands == Hands::Allowed || is_refused {
            return *self;
        }
        let head = head_of(command);
        if sheet.acts_at(head) {
            let mut named = NOTHING;
            named.add_named(sheet, Some(head));
            return named;
        }
        match command {
            Command::StandbyOff | Command::StandbyOn | Command::Unlisted { .. } => *self,
            Command::Stop => PlainGoing {
                modes: [false; 10],
                registers: self.registers,
            },
            _ if head / 0x10_00 == 2 => NOTHING,
            _ => *self,
        }
    }

    /// What goes on after a command whose reply is not known: what did, and what is named for it.
    pub(in crate::tests) fn after_unknown(
        &self,
        sheet: &Sheet,
        hands: Hands,
        command: &Command,
    ) -> PlainGoing {
        let mut after = *self;
        if hands == Hands::None {
            after.add_named(sheet, Some(head_of(command)));
        }
        after
    }

    /// How many moves there are by what may be going on.
    pub(super) fn count_moves(&self) -> usize {
        count(&self.modes).saturating_add(count(&self.registers))
    }

    /// The state after one of these moves: those that show a mode come first.
    pub(super) fn moved(&self, state: &PlainState, place: usize) -> Option<PlainState> {
        if let Some(mode) = place_of(&self.modes, place) {
            let mut after = *state;
            after.shown = *MODES.get(mode)?;
            return Some(after);
        }
        let before = place.checked_sub(count(&self.modes))?;
        let register = *REGISTERS.get(place_of(&self.registers, before)?)?;
        Some(with_time(state, register, None))
    }
}
