//! The drawing of the records around one that breaks a rule: both wires over time.
ghost use Rattle.std.specs.Prelude.{◌≤◌};

use crate::layout::Layout;
use crate::look::Look;
use crate::measure::{text_width, width_of};
use crate::names::put_block_name;
use crate::shapes::{
    BOX_TALL, MARGIN, Standing, begin_text, draw_arrow, draw_box, draw_bracket, draw_line,
    draw_middle, draw_slashes, draw_span, draw_text, end_text,
};
use crate::spot::{DRAWN_US, Spot};
use crate::text_rows::{APART, TextRows, WIRES_LEFT};
use crate::ties::draw_ties;
use block9::BYTE_TIME_US;
use capture9::Wire;
use deck9::Profile;
use report9::put_text;
use std::alloc::AllocError;
use text9::{Done, Markup, milliseconds, put_px};

/// How tall the picture is.
pub(crate) const TALL: u64 = 364;

/// Where the axis of time is, from above.
const AXIS: u64 = 312;

/// Where the boxes of a wire begin, from above.
pub(crate) fn top_of(wire: Wire) -> u64
    ensures { (118 ≤ result) × (result ≤ 226) }
{
    match wire {
        Wire::Controller => 118,
        Wire::Deck => 226,
    }
}

/// Draws the records that were chosen, on their wires, and the axis with their times. Commands have the names of the profile.
pub(crate) fn draw_around(svg: &mut Markup, profile: &Profile, layout: &Layout) -> Done {
    draw_wire(svg, layout, Wire::Controller, "C", "controller");
    draw_wire(svg, layout, Wire::Deck, "D", "deck");
    draw_across(svg, layout, AXIS, Look::Line);
    let has_cuts = draw_cuts(svg, layout)?;
    draw_measure(svg, layout);
    draw_bytes(svg, layout);
    let has_ties = draw_ties(svg, layout);
    draw_blocks(svg, profile, layout)?;
    draw_times(svg, layout)?;
    draw_notes(svg, has_cuts, has_ties);
    Ok(())
}

/// Draws the legend: what a box is and what a cut says, and on a line above it, where boxes are joined, what that means.
fn draw_notes(svg: &mut Markup, has_cuts: bool, has_ties: bool) {
    let y = if has_ties { 358 } else { 352 };
    if has_ties {
        let words = b"bytes that a line joins have one stamp";
        draw_text(svg, (MARGIN, y - 12), Look::Note, words);
    }
    begin_text(svg, (MARGIN, y), Look::Note);
    svg.put_filled(
        "a box is a byte of {n} &#181;s, from its stamp on",
        &[BYTE_TIME_US],
    );
    if has_cuts {
        svg.put_mark("; a silence that is cut has its length beside the cut");
    }
    end_text(svg);
}

/// Draws a wire, with its letter and whose it is.
fn draw_wire(svg: &mut Markup, layout: &Layout, wire: Wire, letter: &str, whose: &str) {
    let top = top_of(wire);
    draw_text(svg, (MARGIN, top + 16), Look::WireLetter, letter.as_bytes());
    draw_text(svg, (MARGIN, top + 30), Look::Small, whose.as_bytes());
    draw_across(svg, layout, top + BOX_TALL, Look::Wire);
}

/// Draws a line over the width of the picture.
fn draw_across(svg: &mut Markup, layout: &Layout, y: u64, look: Look) {
    let right = layout.wide.saturating_sub(MARGIN);
    draw_line(svg, (WIRES_LEFT, y), (right, y), look);
}

/// Draws the silences that are cut, but for the one that is measured, and answers whether there is one.
fn draw_cuts(svg: &mut Markup, layout: &Layout) -> Result<bool, AllocError> {
    let is_measured = layout.measured.is_some();
    let text_y = if is_measured { 216 } else { 190 };
    let mut rows = TextRows::new(layout.wide, 1);
    let mut has_cuts = false;
    let mut last: Option<Spot> = None;
    for spot in layout.drawn.as_slice() {
        let is_apart = is_measured && layout.is_breaking(spot);
        if let Some(before) = last.filter(|_| spot.is_cut && !is_apart) {
            draw_cut(svg, &mut rows, &before, spot, text_y)?;
            has_cuts = true;
        }
        last = Some(*spot);
    }
    Ok(has_cuts)
}

/// Draws a silence that is cut, with its length.
fn draw_cut(
    svg: &mut Markup,
    rows: &mut TextRows,
    before: &Spot,
    spot: &Spot,
    text_y: u64,
) -> Done {
    let about = before.end().saturating_add(spot.x) / 2;
    draw_slashes(svg, about, AXIS);
    draw_slashes(svg, about, top_of(Wire::Controller) + BOX_TALL);
    draw_slashes(svg, about, top_of(Wire::Deck) + BOX_TALL);
    let mut gone = Vec::new(svg.alloc());
    put_px(&mut gone, spot.since(before))?;
    put_text(&mut gone, " ms")?;
    let middle = rows.place(about, gone.len()).middle;
    draw_middle(svg, (middle, text_y), Look::Note, gone.as_slice());
    Ok(())
}

/// Draws the time from the record before to the one that breaks, and below it the limit, where that time is measured.
fn draw_measure(svg: &mut Markup, layout: &Layout) {
    let Some((before, limit_us)) = layout.measured else {
        return;
    };
    let (from, breaking) = (before.x, &layout.breaking);
    let words_left = from.saturating_add(APART);
    draw_span(svg, from, breaking.x, 178, Look::PassedLine);
    if breaking.is_cut {
        let cut_us = limit_us.saturating_add(DRAWN_US / 2);
        draw_slashes(svg, from.saturating_add(width_of(cut_us)), 178);
    }
    begin_text(svg, (words_left, 172), Look::Passed);
    svg.put_filled("{c} &#181;s passed</text>\n", &[breaking.since(&before)]);
    let to = from.saturating_add(width_of(limit_us));
    draw_span(svg, from, to, 202, Look::LimitLine);
    begin_text(svg, (words_left, 196), Look::Name);
    svg.put_filled("limit {c} &#181;s</text>\n", &[limit_us]);
}

/// Draws the boxes of the records, the one that breaks as the last, with an arrow.
fn draw_bytes(svg: &mut Markup, layout: &Layout) {
    for spot in layout.drawn.as_slice() {
        if layout.is_breaking(spot) {
            continue;
        }
        let standing = if layout.is_pale(spot) {
            Standing::Pale
        } else {
            Standing::Plain
        };
        draw_spot(svg, spot, standing);
    }
    let spot = &layout.breaking;
    let wire = spot.seen.record.wire;
    let (y, path) = match wire {
        Wire::Controller => (top_of(wire) + BOX_TALL + 4, " l -5 12 h 10 z"),
        Wire::Deck => (top_of(wire) - 4, " l -5 -12 h 10 z"),
    };
    draw_arrow(svg, (spot.middle(), y), path);
    draw_spot(svg, spot, Standing::Breaking);
}

/// Draws the box of a record.
fn draw_spot(svg: &mut Markup, spot: &Spot, standing: Standing) {
    let record = spot.seen.record;
    let at = (spot.x, top_of(record.wire));
    draw_box(svg, at, standing, spot.seen.number, record);
}

/// Draws the brackets and names of the blocks, above the controller's boxes and below the deck's.
fn draw_blocks(svg: &mut Markup, profile: &Profile, layout: &Layout) -> Done {
    let mut above = TextRows::new(layout.wide, 3);
    let mut below = TextRows::new(layout.wide, 3);
    for spot in layout.drawn.as_slice() {
        if !spot.seen.is_first() {
            continue;
        }
        match spot.seen.record.wire {
            Wire::Controller => draw_block(svg, profile, layout, &mut above, spot)?,
            Wire::Deck => draw_block(svg, profile, layout, &mut below, spot)?,
        }
    }
    Ok(())
}

/// Draws the bracket and the name of the block that begins with this record.
fn draw_block(
    svg: &mut Markup,
    profile: &Profile,
    layout: &Layout,
    rows: &mut TextRows,
    begin: &Spot,
) -> Done {
    let mut end = begin.end();
    for spot in layout.drawn.as_slice() {
        if spot.seen.block == begin.seen.number {
            end = spot.end();
        }
    }
    let mut name = Vec::new(svg.alloc());
    put_name(&mut name, profile, layout, begin)?;
    let place = rows.place(begin.x.saturating_add(end) / 2, name.len());
    let down = place.row.saturating_mul(14);
    let (y, ends, name_y) = match begin.seen.record.wire {
        Wire::Controller => (112, (" v -5", " v 5"), 102u64.saturating_sub(down)),
        Wire::Deck => (256, (" v 5", " v -5"), 274u64.saturating_add(down)),
    };
    draw_bracket(svg, (begin.x, y), end, ends);
    let look = if layout.is_pale(begin) {
        Look::Pale
    } else {
        Look::Name
    };
    draw_middle(svg, (place.middle, name_y), look, name.as_slice());
    Ok(())
}

/// Puts the name of the block that begins with this record, in brackets where it was not judged.
fn put_name(name: &mut Vec<u8>, profile: &Profile, layout: &Layout, begin: &Spot) -> Done {
    if !layout.is_pale(begin) {
        return put_own_name(name, profile, layout, begin);
    }
    put_text(name, "(")?;
    put_own_name(name, profile, layout, begin)?;
    put_text(name, ")")
}

/// Puts the name of the block that begins with this record: a command's or a reply's, or its first two bytes where it has none.
fn put_own_name(name: &mut Vec<u8>, profile: &Profile, layout: &Layout, begin: &Spot) -> Done {
    for spot in layout.drawn.as_slice() {
        if spot.seen.block == begin.seen.number && spot.seen.is_second {
            let (first, second) = (begin.seen.record, spot.seen.record);
            return put_block_name(name, profile, first.wire, first.byte, second.byte);
        }
    }
    put_text(name, "begun")
}

/// Draws the stamps of the record that breaks and of the blocks that leave room for theirs.
fn draw_times(svg: &mut Markup, layout: &Layout) -> Done {
    let breaking = &layout.breaking;
    let text = milliseconds(svg.alloc(), breaking.seen.record.time_us)?;
    let middle = TextRows::new(layout.wide, 1)
        .place(breaking.x, text.len())
        .middle;
    let room = (text_width(text.len()) / 2).saturating_add(APART);
    let taken = (middle.saturating_sub(room), middle.saturating_add(room));
    draw_time(svg, (breaking.x, middle), Look::Bold, text.as_slice());
    let mut rows = TextRows::new(layout.wide, 1);
    for spot in layout.drawn.as_slice() {
        if spot.seen.is_first() && !layout.is_breaking(spot) {
            let text = milliseconds(svg.alloc(), spot.seen.record.time_us)?;
            if let Some(middle) = rows.place_beside(spot.x, text.len(), taken) {
                draw_time(svg, (spot.x, middle), Look::Time, text.as_slice());
            }
        }
    }
    Ok(())
}

/// Draws a stroke on the axis, and a stamp about a middle below it.
fn draw_time(svg: &mut Markup, (tick, middle): (u64, u64), look: Look, text: &[u8]) {
    draw_line(svg, (tick, AXIS - 4), (tick, AXIS + 4), Look::Line);
    draw_middle(svg, (middle, AXIS + 18), look, text);
}
