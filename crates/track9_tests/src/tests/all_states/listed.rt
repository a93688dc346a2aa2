//! A deck of which each state stands in a list, with whether it is possible.

use super::joined::{joined_state, known_state};
use crate::tests::drawn::Draw;
use crate::tests::plain_deck::{
    Day, FORGETTABLE, MODES, PlainGoing, PlainState, Sheet, Small, done, forgets, is_free_in_local,
    shows, small_of, time_of,
};
use block9::{Block, Command, NakBits};
use deck9::{Hands, Knowledge, ModeSet, Register};
use std::alloc::{AllocError, Global};
use std::mem;
use tc25::TimeCode;

/// Every state of a deck with these registers whose day has three frames, which of them are possible, and what may be going on.
#[derive(Drop)]
pub(super) struct ListedDeck<'a> {
    sheet: Sheet<'a>,
    times: [TimeCode; 3],
    registers: &'static [Register],
    hands: Hands,
    states: Vec<PlainState>,
    possible: Vec<bool>,
    going: PlainGoing,
    alloc: Global,
}

/// Who may leave a small step undone.
#[derive(Clone, Copy, PartialEq)]
enum Leaving {
    Nobody,
    InLocal,
    Anybody,
}

/// How many states there are with two registers: two values of panel and of local, ten goals and shown modes, four entries
/// of each register. With fewer there are fewer.
const MOST_STATES: usize = 6_400;

/// A number's last digit to a base, which is taken off.
fn take_digit(number: &mut usize, base: usize) -> usize {
    let digit = number.checked_rem(base).unwrap_or(0);
    *number = number.checked_div(base).unwrap_or(0);
    digit
}

/// Puts a digit to a base at the end of a number.
fn put_digit(number: &mut usize, base: usize, digit: usize) {
    *number = number.wrapping_mul(base).wrapping_add(digit);
}

/// The state at a place of the list: None from their number on.
fn state_at(times: &[TimeCode], registers: &[Register], place: usize) -> Option<PlainState> {
    let mut rest = place;
    let panel = take_digit(&mut rest, 2) == 1;
    let local = take_digit(&mut rest, 2) == 1;
    let goal = *MODES.get(take_digit(&mut rest, 10))?;
    let shown = *MODES.get(take_digit(&mut rest, 10))?;
    let mut held = [None; 4];
    for register in registers {
        if let Some(time) = held.get_mut(*register as usize) {
            *time = times.get(take_digit(&mut rest, 4)).copied();
        }
    }
    if rest > 0 {
        return None;
    }
    Some(PlainState {
        goal,
        shown,
        times: held,
        local,
        panel,
    })
}

/// The digit of a register: of a time its place in the day, and of Clear the one after.
fn digit_of(times: &[TimeCode], held: Option<TimeCode>) -> usize {
    let mut found = times.len();
    for (place, time) in times.iter().enumerate() {
        if held == Some(*time) {
            found = place;
        }
    }
    found
}

/// The place of a state in the list.
fn place_of(times: &[TimeCode], registers: &[Register], state: &PlainState) -> usize {
    let mut place = 0;
    for register in registers.iter().rev() {
        put_digit(&mut place, 4, digit_of(times, time_of(state, *register)));
    }
    put_digit(&mut place, 10, state.shown as usize);
    put_digit(&mut place, 10, state.goal as usize);
    put_digit(&mut place, 2, usize::from(state.local));
    put_digit(&mut place, 2, usize::from(state.panel));
    place
}

/// Every state, in the order of their places.
fn every_state(
    alloc: Global,
    times: &[TimeCode],
    registers: &[Register],
) -> Result<Vec<PlainState>, AllocError> {
    let mut states = Vec::new(alloc);
    for place in 0..MOST_STATES {
        if let Some(state) = state_at(times, registers, place) {
            states.push(state)?;
        }
    }
    Ok(states)
}

/// For each state whether the deck may be in it at first.
fn first_possible(
    alloc: Global,
    hands: Hands,
    states: &[PlainState],
) -> Result<Vec<bool>, AllocError> {
    let mut possible = Vec::new(alloc);
    for state in states {
        possible.push(hands == Hands::Allowed || !state.panel)?;
    }
    Ok(possible)
}

impl<'a> ListedDeck<'a> {
    /// Every state is possible, but for the panel where nobody touches it.
    pub(super) fn new(
        alloc: Global,
        hands: Hands,
        sheet: Sheet<'a>,
        times: [TimeCode; 3],
        registers: &'static [Register],
    ) -> Result<ListedDeck<'a>, AllocError> {
        let states = every_state(alloc, &times, registers)?;
        let possible = first_possible(alloc, hands, states.as_slice())?;
        Ok(ListedDeck {
            sheet,
            times,
            registers,
            hands,
            states,
            possible,
            going: PlainGoing::all_of(&sheet),
            alloc,
        })
    }

    /// What may be going on.
    pub(super) fn going(&self) -> PlainGoing {
        self.going
    }

    /// The same deck, where these states are possible.
    fn with_possible(&self, possible: Vec<bool>) -> Result<ListedDeck<'a>, AllocError> {
        Ok(ListedDeck {
            sheet: self.sheet,
            times: self.times,
            registers: self.registers,
            hands: self.hands,
            states: self.states.clone()?,
            possible,
            going: self.going,
            alloc: self.alloc,
        })
    }

    /// The same deck.
    pub(super) fn copy(&self) -> Result<ListedDeck<'a>, AllocError> {
        self.with_possible(self.possible.clone()?)
    }

    /// The same deck, where this state alone is possible.
    pub(super) fn only(&self, state: &PlainState) -> Result<ListedDeck<'a>, AllocError> {
        let mut possible = vec![in self.alloc; false; self.states.len()]?;
        put(&mut possible, place_of(&self.times, self.registers, state));
        self.with_possible(possible)
    }

    /// Whether a state is possible.
    pub(super) fn has(&self, state: &PlainState) -> bool {
        let place = place_of(&self.times, self.registers, state);
        self.possible.get(place).copied().unwrap_or(false)
    }

    /// The state at a place, if it is possible.
    fn possible_at(&self, place: usize) -> Option<PlainState> {
        if self.possible.get(place).copied().unwrap_or(false) {
            self.states.get(place).copied()
        } else {
            None
        }
    }

    /// A possible state that is drawn, if there is one, or now and then any state.
    pub(super) fn drawn_state(&self, draw: &mut Draw) -> Option<PlainState> {
        let count = self.states.len();
        let first = draw.below(u32::try_from(count).unwrap_or(0)) as usize;
        if draw.one_in(12) {
            return self.states.get(first).copied();
        }
        for place in (first..count).chain(0..first) {
            if let Some(state) = self.possible_at(place) {
                return Some(state);
            }
        }
        None
    }

    /// What a hand does where one may: any state with the panel on.
    fn touch(&mut self) {
        let is_panel_on = (0..self.states.len()).any(|place| match self.possible_at(place) {
            Some(state) => state.panel,
            None => false,
        });
        if self.hands == Hands::Allowed && is_panel_on {
            for (state, possible) in self.states.iter().zip(self.possible.iter_mut()) {
                *possible = *possible || state.panel;
            }
        }
    }

    /// The states after a small step, one for each way in which it can be done, are put into a list; those that are new
    /// there are also added to `reached`.
    fn put_after(
        &self,
        after: &mut [bool],
        reached: &mut Vec<PlainState>,
        state: &PlainState,
        small: &Small,
    ) -> Result<(), AllocError> {
        let day = Day {
            times: &self.times,
            is_round: true,
        };
        for way in 0..self.sheet.most_ways() {
            let Some(next) = done(&day, &self.sheet, state, small, way) else {
                return Ok(());
            };
            if put(after, place_of(&self.times, self.registers, &next)) {
                reached.push(next)?;
            }
        }
        Ok(())
    }

    /// The states that are possible.
    fn possible_states(&self) -> Result<Vec<PlainState>, AllocError> {
        let mut found = Vec::new(self.alloc);
        for place in 0..self.states.len() {
            if let Some(state) = self.possible_at(place) {
                found.push(state)?;
            }
        }
        Ok(found)
    }

    /// Moves from each state that is possible, and from each that a move leads to.
    pub(super) fn drift(&mut self) -> Result<(), AllocError> {
        self.touch();
        let small = Small::Move(self.going);
        let mut reached = self.possible_states()?;
        let mut after = self.possible.clone()?;
        for place in 0..self.states.len() {
            if let Some(state) = reached.get(place).copied() {
                self.put_after(&mut after, &mut reached, &state, &small)?;
            }
        }
        self.possible = after;
        Ok(())
    }

    /// Does a small step in each of its ways, or leaves it.
    fn step(&mut self, small: &Small, leaving: Leaving) -> Result<(), AllocError> {
        let mut after = vec![in self.alloc; false; self.states.len()]?;
        let mut reached = Vec::new(self.alloc);
        for place in 0..self.states.len() {
            if let Some(state) = self.possible_at(place) {
                self.put_after(&mut after, &mut reached, &state, small)?;
                if leaving == Leaving::Anybody || (leaving == Leaving::InLocal && state.local) {
                    put(&mut after, place);
                }
            }
        }
        self.possible = after;
        Ok(())
    }

    /// Keeps the states that may give this reply.
    fn keep(&mut self, command: &Command, reply: &Block) {
        for (state, possible) in self.states.iter().zip(self.possible.iter_mut()) {
            *possible = *possible && shows(state, command, reply);
        }
    }

    /// Forgets what the command makes the deck forget.
    fn forget(&mut self, command: &Command) -> Result<(), AllocError> {
        for small in FORGETTABLE.iter() {
            let is_had = match small {
                Small::Change(register, _) => self.registers.contains(register),
                _ => true,
            };
            if is_had && forgets(&self.sheet, command, self.hands, small) {
                self.step(small, Leaving::Nobody)?;
            }
        }
        Ok(())
    }

    /// Takes the next exchange.
    pub(super) fn observe(&mut self, command: &Command, reply: &Block) -> Result<(), AllocError> {
        self.drift()?;
        let is_refused = NakBits::of(reply).is_some();
        if !is_refused {
            self.keep(command, reply);
            let in_local = is_free_in_local(command);
            let leaving = if in_local {
                Leaving::InLocal
            } else {
                Leaving::Nobody
            };
            self.act(command, leaving)?;
        }
        let after = self
            .going
            .after(&self.sheet, self.hands, command, is_refused);
        self.going = after;
        Ok(())
    }

    /// Takes the next exchange, of which the reply is not believed: the deck may have left it undone, wherever it is.
    pub(super) fn take_unknown(&mut self, command: &Command) -> Result<(), AllocError> {
        self.drift()?;
        self.act(command, Leaving::Anybody)?;
        let after = self.going.after_unknown(&self.sheet, self.hands, command);
        self.going = after;
        Ok(())
    }

    /// Does what a command does, or leaves it, and forgets what it makes the deck forget.
    fn act(&mut self, command: &Command, leaving: Leaving) -> Result<(), AllocError> {
        let small = small_of(&self.sheet, command, self.hands);
        if !matches!(small, Small::Nothing) {
            self.step(&small, leaving)?;
        }
        self.forget(command)
    }

    /// The modes that some possible state shows.
    pub(super) fn shown(&self) -> ModeSet {
        let mut shown = ModeSet::NONE;
        for place in 0..self.states.len() {
            if let Some(state) = self.possible_at(place) {
                shown = shown.or(ModeSet::just(state.shown));
            }
        }
        shown
    }

    /// What all possible states agree on, if there is one.
    pub(super) fn knowledge(&self) -> Option<Knowledge> {
        let mut known = None;
        for place in 0..self.states.len() {
            if let Some(state) = self.possible_at(place) {
                known = Some(match known {
                    Some(before) => joined_state(&before, &state),
                    None => known_state(&state),
                });
            }
        }
        known
    }
}

/// Puts a state into a list, and answers whether it is new.
fn put(possible: &mut [bool], place: usize) -> bool {
    match possible.get_mut(place) {
        Some(old) => !mem::replace(old, true),
        None => false,
    }
}
