//! Rows in which texts lie side by side.

use crate::measure::{PIXEL, text_width};
use crate::shapes::MARGIN;
use arrayvec::ArrayVec;

/// The most rows.
const MOST: usize = 3;

/// Where the wires begin: right of their names.
pub(crate) const WIRES_LEFT: u64 = MARGIN + 60 * PIXEL;

/// What is left free between two texts of a row.
pub(crate) const APART: u64 = 8 * PIXEL;

/// Where the texts of each row end so far.
#[derive(Drop)]
pub(crate) struct TextRows {
    /// Where the last text has to end.
    right: u64,
    /// How many rows there may be.
    most: usize,
    ends: ArrayVec<u64, MOST>,
}

/// Where a text stands.
#[derive(Clone, Copy)]
pub(crate) struct TextPlace {
    pub(crate) row: u64,
    pub(crate) middle: u64,
}

impl TextRows {
    /// Rows without a text, so many at most, in a picture that is so wide.
    pub(crate) fn new(wide: u64, most: usize) -> TextRows {
        TextRows {
            right: wide.saturating_sub(MARGIN),
            most,
            ends: ArrayVec::new(),
        }
    }

    /// A place about this middle for a text of so many letters, in a row where it lies on no other one. The middle is another one
    /// where the text would leave the picture, or where no row is free.
    pub(crate) fn place(&mut self, about: u64, letters: usize) -> TextPlace {
        let half = text_width(letters) / 2;
        let middle = about
            .max(WIRES_LEFT.saturating_add(half))
            .min(self.right.saturating_sub(half));
        let begin = middle.saturating_sub(half);
        let mut row = 0u64;
        for end in self.ends.as_mut_slice() {
            if end.saturating_add(APART) <= begin {
                *end = middle.saturating_add(half);
                return TextPlace { row, middle };
            }
            row = row.saturating_add(1);
        }
        self.place_behind(middle, half, row)
    }

    /// The same where no row that was begun is free: `row` comes after them.
    fn place_behind(&mut self, middle: u64, half: u64, row: u64) -> TextPlace {
        if self.ends.len() < self.most && self.ends.try_push(middle.saturating_add(half)).is_ok() {
            return TextPlace { row, middle };
        }
        let mut behind = middle;
        if let Some(end) = self.ends.as_mut_slice().last_mut() {
            behind = end.saturating_add(APART).saturating_add(half);
            *end = behind.saturating_add(half);
        }
        TextPlace {
            row: row.saturating_sub(1),
            middle: behind,
        }
    }

    /// The middle of a text of so many letters about this one in the first row, where neither the place that is taken nor the text
    /// before is in its way.
    pub(crate) fn place_beside(
        &mut self,
        about: u64,
        letters: usize,
        taken: (u64, u64),
    ) -> Option<u64> {
        let half = text_width(letters) / 2;
        let middle = about.max(WIRES_LEFT.saturating_add(half));
        let (begin, end) = (middle.saturating_sub(half), middle.saturating_add(half));
        let is_taken = end > taken.0 && begin < taken.1;
        let before = self.ends.as_slice().first().copied();
        let is_close = before.is_some_and(|before| before.saturating_add(APART) > begin);
        if is_taken || is_close || end > self.right {
            return None;
        }
        Some(self.place(middle, letters).middle)
    }
}
