//! What a deck does of its own, in short lists that are read from the front.

use super::{LISTED_HEADS, WAYS, head_of};
use block9::Command;
use deck9::{Forgotten, Lost, Mode};

/// What a deck does of its own.
#[derive(Clone, Copy)]
pub(in crate::tests) struct Sheet<'a> {
    /// What it forgets at commands, by the first two bytes of their blocks: at one that is listed beside its effect. No two are
    /// the same.
    pub(in crate::tests) named: &'a [(u32, Forgotten)],
    /// Commands that are not listed, by the same two bytes, each with a mode that may become its goal. What is named to be forgotten
    /// at one of these is nothing but the registers.
    pub(in crate::tests) goals: &'a [(u32, Mode)],
    /// Goals, each with a mode that may be shown on the way to it beside those of every deck.
    pub(in crate::tests) ways: &'a [(Mode, Mode)],
    /// Commands of group 2, by the first two bytes of their blocks, each with a mode that the deck may show by itself after it.
    pub(in crate::tests) runs: &'a [(u32, Mode)],
    /// Commands of group 2, by the same two bytes, each with the registers that the deck may clear by itself after it.
    pub(in crate::tests) loses: &'a [(u32, Lost)],
}

/// A deck does nothing of its own.
pub(in crate::tests) const NO_SHEET: Sheet<'static> = Sheet {
    named: &[],
    goals: &[],
    ways: &[],
    runs: &[],
    loses: &[],
};

impl<'a> Sheet<'a> {
    /// What is named for a command, if something is.
    pub(super) fn named_for(&self, command: &Command) -> Option<Forgotten> {
        let head = head_of(command);
        for (named, forgotten) in self.named {
            if *named == head {
                return Some(*forgotten);
            }
        }
        None
    }

    /// The mode at a place, counted from 0, of those that may become the goal at the command with this head.
    pub(super) fn goal_at(&self, head: u32, place: usize) -> Option<Mode> {
        let mut rest = place;
        for (named, mode) in self.goals {
            if *named == head && rest == 0 {
                return Some(*mode);
            }
            if *named == head {
                rest = rest.saturating_sub(1);
            }
        }
        None
    }

    /// Whether a command may lead to some of them.
    pub(super) fn has_goals(&self, command: &Command) -> bool {
        self.goal_at(head_of(command), 0).is_some()
    }

    /// Whether it names a listed command.
    pub(in crate::tests) fn names_listed(&self) -> bool {
        self.named
            .iter()
            .any(|(head, _)| LISTED_HEADS.contains(head))
    }

    /// The mode at a place, counted from 0, of those on the way to a goal.
    pub(super) fn way_at(&self, goal: Mode, place: usize) -> Option<Mode> {
        let mut rest = place;
        for (other, mode) in self.ways {
            if *other == goal && rest == 0 {
                return Some(*mode);
            }
            if *other == goal {
                rest = rest.saturating_sub(1);
            }
        }
        None
    }

    /// How many modes there are on the way to a goal.
    pub(super) fn count_ways(&self, goal: Mode) -> usize {
        let mut count = 0usize;
        for (other, _) in self.ways {
            if *other == goal {
                count = count.saturating_add(1);
            }
        }
        count
    }

    /// Whether the command with this head has something of what the deck does by itself.
    pub(super) fn acts_at(&self, head: u32) -> bool {
        self.runs.iter().any(|(named, _)| *named == head)
            || self.loses.iter().any(|(named, _)| *named == head)
    }

    /// Whether the deck does something by itself.
    pub(in crate::tests) fn acts(&self) -> bool {
        !self.runs.is_empty() || !self.loses.is_empty()
    }

    /// No small step can be done in more ways.
    pub(in crate::tests) fn most_ways(&self) -> usize {
        let lost = if self.loses.is_empty() { 0 } else { 4 };
        WAYS.saturating_add(self.ways.len())
            .saturating_add(self.goals.len())
            .saturating_add(self.runs.len())
            .saturating_add(lost)
    }
}
