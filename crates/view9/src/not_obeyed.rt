//! A command that the deck acknowledged and did not obey.

use crate::called::Called;
use crate::track::Place;
use deck9::{Mode, ModeSet};
use text9::Text;

/// A command that the deck acknowledged, and whose mode no status showed up to the next such command or the end. Nothing is judged: a
/// deck may take any time.
#[derive(Clone, Copy)]
pub struct NotObeyed<'a> {
    /// What the command is called.
    pub called: Called<'a>,
    /// Its acknowledgement.
    pub place: Place,
    /// How long after that the last status came, in microseconds.
    pub lasts_us: u64,
}

impl NotObeyed<'_> {
    /// Puts the line that says so, without its record: to the nearest tenth of a second.
    pub fn put(&self, line: &mut Text) {
        line.put_with(|text| self.called.put(text));
        line.put(" was not obeyed for ")
            .put_tenths(self.lasts_us.saturating_add(50_000) / 100_000)
            .put(" s");
    }
}

/// Whether a status that showed these modes may have come on the way to the one that was commanded. A deck that cues a tape moves it
/// until it is there.
pub(crate) fn is_on_the_way(goal: Mode, shown: ModeSet) -> bool {
    let on_the_way = ModeSet::on_the_way(goal).and(shown);
    goal == Mode::Cued
        && Mode::ALL
            .iter()
            .any(|mode| *mode != Mode::Stop && on_the_way.has(*mode))
}
