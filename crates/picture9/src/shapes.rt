//! What drawn bytes are made of: boxes, brackets, lines, texts and arrows. Places from the left are in thousandths of a pixel, and
//! those from above in pixels.

use crate::look::Look;
use crate::measure::{MICROSECOND, PIXEL};
use block9::BYTE_TIME_US;
use capture9::LineByte;
use text9::Markup;

/// How wide the box of a byte is.
pub(crate) const BOX_WIDE: u64 = BYTE_TIME_US * MICROSECOND;

/// How tall it is.
pub(crate) const BOX_TALL: u64 = 24;

/// What is left free at the left and at the right of a picture.
pub(crate) const MARGIN: u64 = 24 * PIXEL;

/// A place, from the left and from above.
pub(crate) type Point = (u64, u64);

/// What a byte's box tells of it.
#[derive(Clone, Copy)]
pub(crate) enum Standing {
    /// It breaks no rule.
    Plain,
    /// It is the one that breaks.
    Breaking,
    /// It was not judged.
    Pale,
}

/// Draws a line.
pub(crate) fn draw_line(svg: &mut Markup, from: Point, to: Point, look: Look) {
    svg.put_filled(
        "<line x1=\"{p}\" y1=\"{n}\" x2=\"{p}\" y2=\"{n}",
        &[from.0, from.1, to.0, to.1],
    );
    end_shape(svg, look);
}

/// Ends the last attribute of a shape, and the shape.
fn end_shape(svg: &mut Markup, look: Look) {
    svg.put_marks(&["\"", look.attributes(svg.style()), "/>\n"]);
}

/// Begins a text, whose words come next: the first of them stands here.
pub(crate) fn begin_text(svg: &mut Markup, at: Point, look: Look) {
    begin_words(svg, at, "start", look);
}

/// Begins a text at this anchor.
fn begin_words(svg: &mut Markup, at: Point, anchor: &'static str, look: Look) {
    svg.put_filled("<text x=\"{p}\" y=\"{n}\" text-anchor=\"", &[at.0, at.1]);
    svg.put_marks(&[anchor, "\"", look.attributes(svg.style()), ">"]);
}

/// Ends a text.
pub(crate) fn end_text(svg: &mut Markup) {
    svg.put_mark("</text>\n");
}

/// Draws a text that begins here.
pub(crate) fn draw_text(svg: &mut Markup, at: Point, look: Look, words: &[u8]) {
    begin_text(svg, at, look);
    svg.put_woven("{t}</text>\n", &[], &[words]);
}

/// Draws a text whose middle is here.
pub(crate) fn draw_middle(svg: &mut Markup, at: Point, look: Look, words: &[u8]) {
    begin_words(svg, at, "middle", look);
    svg.put_woven("{t}</text>\n", &[], &[words]);
}

/// Draws the box of a byte, with its digits, and its record and stamp as its title.
pub(crate) fn draw_box(
    svg: &mut Markup,
    at: Point,
    standing: Standing,
    number: u32,
    record: LineByte,
) {
    let (look, digits_look) = match standing {
        Standing::Plain => (Look::PlainBox, Look::PlainDigits),
        Standing::Breaking => (Look::BreakingBox, Look::BreakingDigits),
        Standing::Pale => (Look::PaleBox, Look::Pale),
    };
    svg.put_filled(
        "<rect x=\"{p}\" y=\"{n}\" width=\"{p}\" height=\"{n}\"",
        &[at.0, at.1, BOX_WIDE, BOX_TALL],
    );
    svg.put_mark(look.attributes(svg.style()));
    svg.put_filled(
        "><title>record {n}, {3} ms</title></rect>\n",
        &[u64::from(number), record.time_us],
    );
    let middle = (at.0.saturating_add(BOX_WIDE / 2), at.1.saturating_add(16));
    begin_words(svg, middle, "middle", digits_look);
    svg.put_filled("{x}</text>\n", &[u64::from(record.byte)]);
}

/// Draws an arrow with its tip here, and then as the path says.
pub(crate) fn draw_arrow(svg: &mut Markup, tip: Point, path: &'static str) {
    svg.put_filled("<path d=\"M {p} {n}", &[tip.0, tip.1]);
    svg.put_mark(path);
    end_shape(svg, Look::Arrow);
}

/// Draws a bracket from here to there, whose ends are moved down by the first and back by the second.
pub(crate) fn draw_bracket(
    svg: &mut Markup,
    from: Point,
    to: u64,
    (down, back): (&'static str, &'static str),
) {
    svg.put_filled("<path d=\"M {p} {n}", &[from.0, from.1]);
    svg.put_mark(down);
    svg.put_filled(" H {p}", &[to]);
    svg.put_mark(back);
    end_shape(svg, Look::Bracket);
}

/// Draws how long something lasts: a line with a stroke at each end.
pub(crate) fn draw_span(svg: &mut Markup, from: u64, to: u64, y: u64, look: Look) {
    let (above, below) = (y.saturating_sub(5), y.saturating_add(5));
    draw_line(svg, (from, y), (to, y), look);
    draw_line(svg, (from, above), (from, below), look);
    draw_line(svg, (to, above), (to, below), look);
}

/// Draws two strokes where a line is cut.
pub(crate) fn draw_slashes(svg: &mut Markup, about: u64, y: u64) {
    svg.put_filled(
        "<rect x=\"{p}\" y=\"{n}\" width=\"10\" height=\"14",
        &[about.saturating_sub(5 * PIXEL), y.saturating_sub(7)],
    );
    end_shape(svg, Look::Gap);
    let (above, below) = (y.saturating_sub(6), y.saturating_add(6));
    let left = about.saturating_sub(6 * PIXEL);
    let before = about.saturating_sub(PIXEL);
    draw_line(svg, (left, below), (before, above), Look::Line);
    let behind = about.saturating_add(PIXEL);
    let right = about.saturating_add(6 * PIXEL);
    draw_line(svg, (behind, below), (right, above), Look::Line);
}
