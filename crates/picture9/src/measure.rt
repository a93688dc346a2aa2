//! How large things are drawn: in thousandths of a pixel, as all places are.

/// A pixel, in the measure of all places.
pub(crate) const PIXEL: u64 = 1_000;

/// How wide a microsecond is drawn.
pub(crate) const MICROSECOND: u64 = 80;

/// How wide a letter of a text of 12 pixels is.
const LETTER: u64 = 7_250;

/// How wide a time is drawn.
pub(crate) fn width_of(us: u64) -> u64 {
    us.saturating_mul(MICROSECOND)
}

/// How wide a text of so many letters is.
pub(crate) fn text_width(letters: usize) -> u64 {
    LETTER.saturating_mul(letters as u64)
}
