//! Which mode the deck was in over time, in cells that grow with the session.

use crate::span::Window;
use deck9::Mode;
use std::alloc::{AllocError, Global};
use text9::{Done, Growing};

/// How many modes there are.
const MODES: usize = 10;

/// The modes that have a row, from the top.
pub(crate) const ROWS: [Mode; MODES] = [
    Mode::Eject,
    Mode::Stop,
    Mode::Cued,
    Mode::Play,
    Mode::Rec,
    Mode::Var,
    Mode::Jog,
    Mode::Shuttle,
    Mode::FastForward,
    Mode::Rewind,
];

/// How many cells there may be before they are made wider.
const MOST_FINE: u64 = 8_192;

/// How many cells are drawn.
pub(crate) const CELLS: u64 = 600;

/// How long each mode was held in a cell, in microseconds.
#[derive(Clone, Copy)]
pub(crate) struct Cell {
    held_us: [u64; MODES],
}

impl Cell {
    /// A cell of nothing.
    const EMPTY: Cell = Cell {
        held_us: [0; MODES],
    };

    /// How long a mode was held, in microseconds.
    pub(crate) fn held_us(&self, mode: Mode) -> u64 {
        self.held_us.get(mode.index()).copied().unwrap_or(0)
    }

    /// Adds how long a mode was held.
    fn add(&mut self, place: usize, us: u64) {
        if let Some(held_us) = self.held_us.get_mut(place) {
            *held_us = held_us.saturating_add(us);
        }
    }

    /// Adds what another cell has, or as much of it as `part` of `whole`.
    fn add_part(&mut self, other: &Cell, part: u64, whole: u64) {
        for (held_us, more_us) in self.held_us.iter_mut().zip(other.held_us.iter()) {
            let more_us = u128::from(*more_us)
                .saturating_mul(u128::from(part))
                .checked_div(u128::from(whole))
                .unwrap_or(0);
            let more_us = u64::try_from(more_us).unwrap_or(u64::MAX);
            *held_us = held_us.saturating_add(more_us);
        }
    }
}

/// A mode that is held since a time.
#[derive(Clone, Copy)]
struct HeldMode {
    mode: Mode,
    since_us: u64,
}

/// A mode over time.
#[derive(Drop)]
pub(crate) struct ModeOverTime {
    alloc: Global,
    window: Window,
    /// For how long a mode is held at least and at most, in microseconds.
    least_us: u64,
    most_us: u64,
    held: Option<HeldMode>,
    /// How long a cell is, in microseconds: a power of two.
    width_us: u64,
    cells: Growing<Cell>,
}

impl ModeOverTime {
    /// Of nothing yet. A mode is held for so many microseconds at least and at most: one of which only the last reply tells is drawn where
    /// the least is not 0.
    pub(crate) fn new(
        alloc: Global,
        window: Window,
        (least_us, most_us): (u64, u64),
    ) -> ModeOverTime {
        ModeOverTime {
            alloc,
            window,
            least_us,
            most_us,
            held: None,
            width_us: 1,
            cells: Growing::new(alloc),
        }
    }

    /// Whether memory was refused for a cell.
    pub(crate) fn is_short(&self) -> bool {
        self.cells.is_short()
    }

    /// Whether a mode was held for a while.
    pub(crate) fn has(&self, mode: Mode) -> bool {
        let mut has = false;
        for cell in self.cells.as_slice() {
            has = has || cell.held_us(mode) > 0;
        }
        has
    }

    /// Whether some mode was.
    pub(crate) fn has_any(&self) -> bool {
        ROWS.iter().any(|mode| self.has(*mode))
    }

    /// From this time on the mode is this one.
    pub(crate) fn hold(&mut self, mode: Mode, now_us: u64) {
        self.end(now_us);
        self.held = Some(HeldMode {
            mode,
            since_us: now_us,
        });
    }

    /// From this time on the mode is this one, which goes on where it is the same; or it is not known.
    pub(crate) fn follow(&mut self, mode: Option<Mode>, now_us: u64) {
        match (mode, self.held) {
            (Some(mode), Some(held)) if held.mode == mode => {}
            (Some(mode), _) => self.hold(mode, now_us),
            (None, _) => self.end(now_us),
        }
    }

    /// From this time on the mode is not known.
    pub(crate) fn end(&mut self, now_us: u64) {
        let Some(held) = self.held.take() else {
            return;
        };
        let end_us = now_us.min(held.since_us.saturating_add(self.most_us));
        let since_us = held.since_us.min(end_us.saturating_sub(self.least_us));
        if let Some((from_us, to_us)) = self.window.clip(since_us, end_us) {
            self.add(held.mode, from_us, to_us);
        }
    }

    /// Adds that a mode was held between two times since the beginning.
    fn add(&mut self, mode: Mode, from_us: u64, to_us: u64) {
        self.widen_for(to_us);
        let (first, last) = (self.place_of(from_us), self.place_of(to_us));
        self.fill_to(last);
        let width_us = self.width_us;
        let place = mode.index();
        let Some(cells) = self.cells.as_mut_slice().get_mut(first as usize..) else {
            return;
        };
        let mut start_us = first.saturating_mul(width_us);
        let count = (last.saturating_sub(first) as usize).saturating_add(1);
        for cell in cells.iter_mut().take(count) {
            let end_us = start_us.saturating_add(width_us);
            let held_us = to_us.min(end_us).saturating_sub(from_us.max(start_us));
            cell.add(place, held_us);
            start_us = end_us;
        }
    }

    /// The place of the cell of a time.
    fn place_of(&self, since_us: u64) -> u64 {
        since_us.checked_div(self.width_us).unwrap_or(0)
    }

    /// Makes the cells so wide that this time has one of the most that there may be.
    fn widen_for(&mut self, since_us: u64) {
        for _ in 0..64 {
            if self.place_of(since_us) < MOST_FINE {
                break;
            }
            self.join_by_two();
            self.width_us = self.width_us.saturating_mul(2);
        }
    }

    /// Joins the cells by two.
    fn join_by_two(&mut self) {
        let mut is_second = false;
        for cell in self.cells.take_all().iter() {
            if !is_second {
                self.cells.push(*cell);
            } else if let Some(last) = self.cells.last_mut() {
                last.add_part(cell, 1, 1);
            }
            is_second = !is_second;
        }
    }

    /// Adds empty cells up to this place.
    fn fill_to(&mut self, place: u64) {
        for _ in self.cells.len() as u64..=place.min(MOST_FINE) {
            self.cells.push(Cell::EMPTY);
        }
    }

    /// The cells that are drawn, each as much of a session that lasts so many microseconds.
    pub(crate) fn drawn(&self, lasts_us: u64) -> Result<Vec<Cell>, AllocError> {
        let mut drawn = Vec::new(self.alloc);
        push_empty(&mut drawn)?;
        let mut start_us = 0u64;
        for cell in self.cells.as_slice() {
            let end_us = start_us.saturating_add(self.width_us);
            spread(drawn.as_mut_slice(), cell, (start_us, end_us), lasts_us);
            start_us = end_us;
        }
        Ok(drawn)
    }
}

/// Pushes the cells that are drawn, without anything.
fn push_empty(cells: &mut Vec<Cell>) -> Done {
    for _ in 0..CELLS {
        cells.push(Cell::EMPTY)?;
    }
    Ok(())
}

/// Spreads what a fine cell has, which lasts from the one time to the other, over the cells that are drawn.
fn spread(drawn: &mut [Cell], fine: &Cell, (start_us, end_us): (u64, u64), lasts_us: u64) {
    let first = cell_of(start_us, lasts_us);
    let last = cell_of(end_us.saturating_sub(1), lasts_us);
    let end_us = end_us.min(lasts_us);
    let whole_us = end_us.saturating_sub(start_us);
    let count = last.saturating_sub(first).saturating_add(1);
    let Some(cells) = drawn.get_mut(first as usize..) else {
        return;
    };
    let mut place = first;
    for cell in cells.iter_mut().take(count as usize) {
        let from_us = start_us.max(start_of(place, lasts_us));
        place = place.saturating_add(1);
        let to_us = end_us.min(start_of(place, lasts_us));
        cell.add_part(fine, to_us.saturating_sub(from_us), whole_us);
    }
}

/// The cell that is drawn of a time in a session that lasts so long; behind its end there is none.
fn cell_of(since_us: u64, lasts_us: u64) -> u64 {
    let cell = u128::from(since_us)
        .saturating_mul(u128::from(CELLS))
        .checked_div(u128::from(lasts_us))
        .unwrap_or(0);
    u64::try_from(cell).unwrap_or(CELLS).min(CELLS)
}

/// Where a cell that is drawn begins in a session that lasts so long, in microseconds.
fn start_of(cell: u64, lasts_us: u64) -> u64 {
    let start_us = u128::from(lasts_us)
        .saturating_mul(u128::from(cell))
        .div_ceil(u128::from(CELLS));
    u64::try_from(start_us).unwrap_or(u64::MAX)
}
