//! The drawing of the replies that contradict one another: a row for each.

use crate::exchange_row::ExchangeRow;
use crate::layout::LEAST_WIDE;
use crate::look::Look;
use crate::measure::{PIXEL, text_width};
use crate::shapes::{
    BOX_TALL, BOX_WIDE, MARGIN, Standing, begin_text, draw_arrow, draw_box, draw_line,
    draw_slashes, draw_text, end_text,
};
use deck9::{Knowledge, ModeSet, Profile};
use report9::{put_count, put_modes, put_text, put_word};
use std::alloc::{AllocError, Global};
use text9::{Done, Markup, put_long_time, put_milliseconds};
use view9::Field;

/// Where the rows begin, from above.
const ROWS_TOP: u64 = 84;

/// How tall a row is.
const ROW_TALL: u64 = 64;

/// How much room is between two rows.
const ROW_GAP: u64 = 38;

/// How wide a letter of what a reply says is.
const SAYS_LETTER: u64 = 6_650;

/// Where the commands stand.
const ASKED_LEFT: u64 = MARGIN + 160 * PIXEL;

/// How far it is from one box to the next.
const BOX_STEP: u64 = BOX_WIDE + 2 * PIXEL;

/// Where everything stands.
#[derive(Clone, Copy)]
pub(crate) struct Columns {
    /// Where the replies stand.
    answered: u64,
    /// How wide the picture is.
    pub(crate) wide: u64,
    /// How tall the rows are with what is above them.
    pub(crate) tall: u64,
}

impl Columns {
    /// The columns of these rows, with a text below them.
    pub(crate) fn of(rows: &[ExchangeRow], below: &[u8]) -> Columns {
        let mut asked = 100 * PIXEL;
        let mut answered = 100 * PIXEL;
        let mut tall = ROWS_TOP;
        for row in rows {
            asked = asked.max(row.asked_width());
            answered = answered.max(row.answered_width());
            tall = tall.saturating_add(ROW_TALL + ROW_GAP);
        }
        let left = asked.saturating_add(ASKED_LEFT + 36 * PIXEL);
        let wide = left.saturating_add(answered).saturating_add(MARGIN);
        let below_wide = text_width(below.len()).saturating_add(2 * MARGIN);
        Columns {
            answered: left,
            wide: wide.max(LEAST_WIDE).max(below_wide),
            tall,
        }
    }
}

/// How wide so many boxes are.
fn boxes_width(boxes: usize) -> u64 {
    BOX_STEP.saturating_mul(boxes as u64)
}

impl ExchangeRow {
    /// How much room the command needs.
    fn asked_width(&self) -> u64 {
        boxes_width(self.command_len).max(text_width(self.asked.len()))
    }

    /// How much room the reply needs.
    fn answered_width(&self) -> u64 {
        let boxes = self.records.len().saturating_sub(self.command_len);
        let says = SAYS_LETTER.saturating_mul(self.says.len() as u64);
        let names = text_width(self.answered.len()).max(says);
        boxes_width(boxes).saturating_add(20 * PIXEL).max(names)
    }

    /// Where the box of the record at this place is.
    fn box_left(&self, columns: &Columns, place: usize) -> u64 {
        match place.checked_sub(self.command_len) {
            None => ASKED_LEFT.saturating_add(boxes_width(place)),
            Some(boxes) => columns.answered.saturating_add(boxes_width(boxes)),
        }
    }
}

/// What is known of the deck before the last reply, as a line: what it could show, where that is not every mode, and each field that
/// is known.
pub(crate) fn known_line(
    alloc: Global,
    profile: &Profile,
    known: &Knowledge,
    shown: ModeSet,
) -> Result<Vec<u8>, AllocError> {
    let mut text = Vec::new(alloc);
    put_text(&mut text, "known of the deck before the last reply: ")?;
    put_known_before(&mut text, profile, known, shown)?;
    Ok(text)
}

/// Puts what is known of a deck: what it could show, where that is not every mode, and each field that is known.
pub fn put_known_before(
    text: &mut Vec<u8>,
    profile: &Profile,
    known: &Knowledge,
    shown: ModeSet,
) -> Done {
    let mut before = "";
    if !shown.is_every() {
        put_text(text, "shown ")?;
        put_modes(text, shown)?;
        before = ", ";
    }
    for field in Field::told(profile.hands) {
        before = put_known(text, before, profile, known, *field)?;
    }
    if before.is_empty() {
        put_text(text, "nothing")?;
    }
    Ok(())
}

/// Puts a field and its value after `before`, where it is known and no mode, and answers what to put before the next.
fn put_known<'a>(
    text: &mut Vec<u8>,
    before: &'a str,
    profile: &Profile,
    known: &Knowledge,
    field: Field,
) -> Result<&'a str, AllocError> {
    if field.is_mode() || !field.value_in(known).is_known() {
        return Ok(before);
    }
    put_word(text, before, field.name())?;
    put_text(text, " ")?;
    field.value_in(known).put(text, profile.rate)?;
    Ok(", ")
}

/// Draws the rows: the command's bytes side by side, and the reply's, under their names, and below what the reply says. The last record
/// of the last row is the one that breaks.
pub(crate) fn draw_rows(svg: &mut Markup, rows: &[ExchangeRow], columns: &Columns, below: &[u8]) {
    draw_text(svg, (ASKED_LEFT, 76), Look::Bold, b"C, controller");
    draw_text(svg, (columns.answered, 76), Look::Bold, b"D, deck");
    let mut y = ROWS_TOP;
    let mut last: Option<&ExchangeRow> = None;
    for row in rows {
        if let Some(last) = last {
            draw_gap(svg, last, row, y.saturating_sub(ROW_GAP));
        }
        draw_row(svg, row, columns, y);
        y = y.saturating_add(ROW_TALL + ROW_GAP);
        last = Some(row);
    }
    draw_text(svg, (MARGIN, columns.tall), Look::Name, below);
    let note =
        b"a box is a byte; between two rows is the time from the last byte above to the first below";
    let note_y = columns.tall.saturating_add(28);
    draw_text(svg, (MARGIN, note_y), Look::Note, note);
}

/// Draws a row.
fn draw_row(svg: &mut Markup, row: &ExchangeRow, columns: &Columns, y: u64) {
    let (names_y, time_y) = (y.saturating_add(12), y.saturating_add(34));
    let (numbers_y, says_y) = (y.saturating_add(48), y.saturating_add(58));
    begin_text(svg, (MARGIN, time_y), Look::Bold);
    svg.put_with(|text| put_milliseconds(text, row.time_us()));
    end_text(svg);
    begin_text(svg, (MARGIN, numbers_y), Look::Small);
    svg.put_filled(
        "records {n} to {n}",
        &[u64::from(row.first), u64::from(row.last)],
    );
    end_text(svg);
    let (asked, answered) = (row.asked.as_slice(), row.answered.as_slice());
    draw_text(svg, (ASKED_LEFT, names_y), Look::Name, asked);
    draw_text(svg, (columns.answered, names_y), Look::Name, answered);
    if !row.says.is_empty() {
        let says = row.says.as_slice();
        draw_text(svg, (columns.answered, says_y), Look::Says, says);
    }
    draw_boxes(svg, row, columns, y.saturating_add(18));
}

/// Draws the boxes of a row, with an arrow at the record that breaks.
fn draw_boxes(svg: &mut Markup, row: &ExchangeRow, columns: &Columns, y: u64) {
    let mut number = row.first;
    for (place, record) in row.records.as_slice().iter().enumerate() {
        let left = row.box_left(columns, place);
        if row.breaks && number == row.last {
            draw_box(svg, (left, y), Standing::Breaking, number, *record);
            let tip = left.saturating_add(BOX_WIDE + 4 * PIXEL);
            let tip_y = y.saturating_add(BOX_TALL / 2);
            draw_arrow(svg, (tip, tip_y), " l 12 -5 v 10 z");
        } else {
            draw_box(svg, (left, y), Standing::Plain, number, *record);
        }
        number = number.saturating_add(1);
    }
}

/// Draws the time between two rows, on a line that is cut.
fn draw_gap(svg: &mut Markup, last: &ExchangeRow, next: &ExchangeRow, y: u64) {
    let about = ASKED_LEFT + BOX_WIDE / 2;
    let (above, below) = (y.saturating_add(2), y.saturating_add(ROW_GAP - 6));
    draw_line(svg, (about, above), (about, below), Look::Dashes);
    draw_slashes(svg, about, y.saturating_add(ROW_GAP / 2 - 2));
    let at = (about + 16 * PIXEL, y.saturating_add(ROW_GAP / 2 + 2));
    begin_text(svg, at, Look::Note);
    svg.put_with(|text| put_gap(text, last, next));
    end_text(svg);
}

/// Puts the time between two rows, and how many records.
fn put_gap(text: &mut Vec<u8>, last: &ExchangeRow, next: &ExchangeRow) -> Done {
    put_long_time(text, next.time_us().saturating_sub(last.end_us()))?;
    let records = next.first.saturating_sub(last.last).saturating_sub(1);
    match records {
        0 => put_text(text, ", nothing between"),
        1 => put_text(text, ", 1 record between"),
        _ => {
            put_count(text, ", ", u64::from(records))?;
            put_text(text, " records between")
        }
    }
}
