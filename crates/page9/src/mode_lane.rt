//! The modes over time: a row for each mode, with bars where it was shown and lines where it was commanded.

use crate::mode_over_time::{CELLS, Cell, ModeOverTime, ROWS};
use crate::session::{begin_lane, begin_lane_chart};
use crate::span::Span;
use deck9::Mode;
use text9::{Done, Markup};

/// How tall a row is, in pixels.
const ROW_TALL: u64 = 12;

/// Puts a row for each mode that was shown or commanded; nothing where none was. A bar is as tall as the share of its cell in which the
/// mode was the last one shown. Where a mode was commanded a line stands above the row's bars: so where the deck does what it was told the
/// two stand together.
pub(crate) fn put_modes(
    html: &mut Markup,
    span: Span,
    shown: &ModeOverTime,
    commanded: &ModeOverTime,
) -> Done {
    let mut rows = 0u64;
    for mode in ROWS {
        rows = rows.saturating_add(u64::from(has_row(shown, commanded, mode)));
    }
    if rows == 0 {
        return Ok(());
    }
    begin_lane(html, "");
    html.put_mark(
        "<b>Shown mode</b> <span>and, as a line, the <span class=\"of-goal\">commanded</span> one</span>",
    );
    begin_lane_chart(html, rows.saturating_mul(ROW_TALL));
    html.put_mark("Shown and commanded mode over time: ");
    put_names(html, shown, commanded, ", ", "");
    html.put_mark("</title><use href=\"#g\"/>\n");
    put_rows(html, span, shown, commanded)?;
    html.put_mark("</svg></div><div class=\"scale modes\">");
    put_names(html, shown, commanded, "</span><span>", "<span>");
    html.put_mark("</span></div></div>\n");
    Ok(())
}

/// Whether a mode has a row.
fn has_row(shown: &ModeOverTime, commanded: &ModeOverTime, mode: Mode) -> bool {
    shown.has(mode) || commanded.has(mode)
}

/// Puts the names of the modes that have a row, with this between them and that before the first.
fn put_names(
    html: &mut Markup,
    shown: &ModeOverTime,
    commanded: &ModeOverTime,
    between: &'static str,
    before: &'static str,
) {
    let mut mark = before;
    for mode in ROWS {
        if has_row(shown, commanded, mode) {
            html.put_mark(mark);
            html.put_mark(mode.name());
            mark = between;
        }
    }
}

/// Puts the rows.
fn put_rows(html: &mut Markup, span: Span, shown: &ModeOverTime, commanded: &ModeOverTime) -> Done {
    let shown_cells = shown.drawn(span.lasts_us())?;
    let commanded_cells = commanded.drawn(span.lasts_us())?;
    let mut foot = ROW_TALL - 1;
    for mode in ROWS {
        if !has_row(shown, commanded, mode) {
            continue;
        }
        html.put_filled(
            "<path class=\"row\" d=\"M0 {n}.5H1000\"/><path class=\"state\" d=\"",
            &[foot],
        );
        put_bars(html, shown_cells.as_slice(), span, mode, foot);
        html.put_mark("\"/><path class=\"goal\" d=\"");
        put_lines(html, commanded_cells.as_slice(), mode, foot);
        html.put_mark("\"/>");
        foot = foot.saturating_add(ROW_TALL);
    }
    Ok(())
}

/// Puts bars of 2 to 10 pixels above the foot of a row; neighbours of one height are one bar.
fn put_bars(html: &mut Markup, cells: &[Cell], span: Span, mode: Mode, foot: u64) {
    let mut open: Option<u64> = None;
    for (place, cell) in cells.iter().enumerate() {
        let tall = bar_tall(cell.held_us(mode), span.lasts_us());
        if tall != open {
            end_bar(html, open, place as u64);
            begin_bar(html, tall, place as u64, foot);
            open = tall;
        }
    }
    end_bar(html, open, CELLS);
}

/// How tall a bar is, in tenths of a pixel, of a mode that was shown for so long in a cell; none where it was not.
fn bar_tall(held_us: u64, lasts_us: u64) -> Option<u64> {
    if held_us == 0 {
        return None;
    }
    let share = u128::from(held_us)
        .saturating_mul(u128::from(CELLS) * 80)
        .saturating_add(u128::from(lasts_us) / 2)
        .checked_div(u128::from(lasts_us))
        .unwrap_or(80);
    let share = u64::try_from(share).unwrap_or(80).min(80);
    Some(20 + share)
}

/// Begins a bar at a cell, where there is one.
fn begin_bar(html: &mut Markup, tall: Option<u64>, cell: u64, foot: u64) {
    let Some(tall) = tall else {
        return;
    };
    html.put_filled("M{2} {n}v-{1}", &[x_of(cell), foot, tall]);
}

/// Ends a bar before a cell, where one is open.
fn end_bar(html: &mut Markup, tall: Option<u64>, cell: u64) {
    let Some(tall) = tall else {
        return;
    };
    html.put_filled("H{2}v{1}z", &[x_of(cell), tall]);
}

/// Puts lines above the bars of a row, where its mode was commanded.
fn put_lines(html: &mut Markup, cells: &[Cell], mode: Mode, foot: u64) {
    let mut is_open = false;
    for (place, cell) in cells.iter().enumerate() {
        let is_held = cell.held_us(mode) > 0;
        if is_held == is_open {
            continue;
        }
        let x = x_of(place as u64);
        if is_held {
            html.put_filled("M{2} {n}.5", &[x, foot.saturating_sub(11)]);
        } else {
            html.put_filled("H{2}", &[x]);
        }
        is_open = is_held;
    }
    html.put_mark(if is_open { "H1000" } else { "" });
}

/// Where a cell begins in a chart that is 1,000 wide, in hundredths.
fn x_of(cell: u64) -> u64 {
    cell.saturating_mul(100_000).saturating_add(CELLS / 2) / CELLS
}
