//! Where in a day of three frames the registers may be, so that no shift leaves it.

use crate::tests::plain_deck::{Sheet, Small, change_of, forgets, sensed_by};
use block9::{Block, Command, NakBits};
use deck9::{Change, Hands, Register};
use tc25::TimeCode;

/// The first and the last place of the times at which a register may be Set, where these are not all times.
type Places = Option<(usize, usize)>;

/// The places of each register's times in a day of three frames.
#[derive(Drop)]
pub(super) struct Edges {
    times: [TimeCode; 3],
    places: [Places; 4],
}

impl Edges {
    /// Each register may be Set at any time.
    pub(super) fn new(times: [TimeCode; 3]) -> Edges {
        Edges {
            times,
            places: [None; 4],
        }
    }

    fn place(&self, time: TimeCode) -> usize {
        self.times
            .iter()
            .position(|other| *other == time)
            .unwrap_or(0)
    }

    fn places(&self, register: Register) -> Places {
        self.places.get(register as usize).copied().flatten()
    }

    fn put(&mut self, register: Register, places: Places) {
        if let Some(old) = self.places.get_mut(register as usize) {
            *old = places;
        }
    }

    /// Whether a change leaves a register within the day.
    fn allow_change(&self, register: Register, change: &Change) -> bool {
        match (change, self.places(register)) {
            (Change::Next, Some((_, last))) => last < 2,
            (Change::Prev, Some((first, _))) => first > 0,
            _ => true,
        }
    }

    /// Whether a command changes and asks for no register but these, and leaves each within the day.
    pub(super) fn allow(&self, command: &Command, registers: &[Register]) -> bool {
        if let Some((register, change)) = change_of(command) {
            return registers.contains(&register) && self.allow_change(register, &change);
        }
        match sensed_by(command) {
            Some((_, register)) => registers.contains(&register),
            None => true,
        }
    }

    /// The places after a change, which a deck in LOCAL may have left.
    fn changed(&self, register: Register, change: &Change) -> Places {
        let old = self.places(register);
        match change {
            Change::SetSomewhere | Change::Recall => None,
            Change::SetAt(time) => {
                let place = self.place(*time);
                let (first, last) = old.unwrap_or((place, place));
                Some((place.min(first), place.max(last)))
            }
            Change::Next => old.map(|(first, last)| (first, last.saturating_add(1))),
            Change::Prev => old.map(|(first, last)| (first.saturating_sub(1), last)),
            Change::Reset => old,
        }
    }

    /// Follows an exchange.
    pub(super) fn follow(&mut self, sheet: &Sheet, command: &Command, reply: &Block) {
        if NakBits::of(reply).is_some() {
            return;
        }
        if let Some((_, register)) = sensed_by(command) {
            let place = reply.time().map(|time| self.place(time));
            self.put(register, place.map(|place| (place, place)));
        }
        self.follow_unknown(sheet, command);
    }

    /// Follows an exchange, of which the reply is not believed.
    pub(super) fn follow_unknown(&mut self, sheet: &Sheet, command: &Command) {
        if let Some((register, change)) = change_of(command) {
            self.put(register, self.changed(register, &change));
        }
        let anything = Small::Change(Register::RegIn, Change::Recall);
        // What is forgotten of one register is forgotten of all, whether or not hands are allowed.
        if forgets(sheet, command, Hands::None, &anything) {
            self.places = [None; 4];
        }
    }
}
