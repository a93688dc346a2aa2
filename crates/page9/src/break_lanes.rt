//! The breaks over time: a row for each reason, with a mark for each thousandth of the session in which it breaks.

use crate::breaks::ReasonCount;
use crate::breaks_over_time::{BreaksOverTime, MOST_LINKS, Mark, ReasonRow};
use crate::html::{BreakId, begin_chart, begin_path, put_counted, put_reason};
use crate::session::begin_lane;
use crate::span::Span;
use block9::Reason;
use text9::Markup;

/// How many marks a row may have.
const CELLS: u64 = 1_000;

/// Puts the rows of these reasons, or that there is no break.
pub(crate) fn put_marks(
    html: &mut Markup,
    span: Span,
    marks: &BreaksOverTime,
    reasons: &[ReasonCount],
) {
    if reasons.is_empty() {
        begin_lane(html, " mark-lane");
        html.put_mark(
            "<b class=\"name\">Breaks</b></div>\n<div class=\"chart\"></div><div class=\"scale\">none</div></div>\n",
        );
        return;
    }
    for counted in reasons {
        if let Some(row) = marks.row(counted.reason) {
            put_row(html, span, marks, row);
        }
    }
}

/// Puts the row of a reason.
fn put_row(html: &mut Markup, span: Span, marks: &BreaksOverTime, row: &ReasonRow) {
    begin_lane(html, " mark-lane");
    put_reason(html, row.reason);
    html.put_mark("</div>\n<div class=\"chart\">");
    if row.count > MOST_LINKS {
        let mut words = Markup::new(html.alloc());
        put_row_words(&mut words, row);
        put_strokes(html, span, ("breaks", &words), row.times_us());
    } else {
        if row.reason == Reason::NoRun {
            put_contradictions(html, span, marks);
        }
        put_links(html, span, row);
    }
    html.put_filled(
        "</div><div class=\"scale\">{c}</div></div>\n",
        &[u64::from(row.count)],
    );
}

/// The thousandth of a session that a time is in.
fn cell_of(span: Span, since_us: u64) -> u64 {
    let cell = u128::from(since_us)
        .saturating_mul(u128::from(CELLS))
        .checked_div(u128::from(span.lasts_us()))
        .unwrap_or(0);
    u64::try_from(cell).unwrap_or(CELLS).min(CELLS - 1)
}

/// Puts a mark for the first break of each thousandth, with how many more there are.
fn put_links(html: &mut Markup, span: Span, row: &ReasonRow) {
    let mut first: Option<Mark> = None;
    let mut more = 0u64;
    for mark in row.marks() {
        match first {
            Some(first) if cell_of(span, first.since_us) == cell_of(span, mark.since_us) => {
                more = more.saturating_add(1);
            }
            before => {
                put_link(html, span, row.reason, before, more);
                first = Some(*mark);
                more = 0;
            }
        }
    }
    put_link(html, span, row.reason, first, more);
}

/// Puts a mark, where there is one.
fn put_link(html: &mut Markup, span: Span, reason: Reason, mark: Option<Mark>, more: u64) {
    let Some(mark) = mark else {
        return;
    };
    let mut words = Markup::new(html.alloc());
    words.put_marks(&[reason.name(), " ", reason.text()]);
    words.put_filled(", record {c}, {h}", &[u64::from(mark.at), mark.time_us]);
    put_more(&mut words, more);
    let mut style = Markup::new(html.alloc());
    style.put_filled("left:{3}%", &[span.place(mark.since_us)]);
    put_mark_html(html, mark.id, "mark", &style, &words);
}

/// Puts how many more stand at the same place.
pub(crate) fn put_more(words: &mut Markup, more: u64) {
    if more == 0 {
        return;
    }
    words.put_filled(", and {c} more here", &[more]);
}

/// Puts a mark that leads to its break, where that is listed.
pub(crate) fn put_mark_html(
    html: &mut Markup,
    id: Option<BreakId>,
    look: &'static str,
    style: &Markup,
    words: &Markup,
) {
    html.put_mark(if id.is_some() {
        "<a class=\""
    } else {
        "<span class=\""
    });
    html.put_mark(look);
    if let Some(id) = id {
        html.put_mark("\" href=\"#");
        id.put(html);
    }
    html.put_mark("\" style=\"");
    html.put_piece(style);
    html.put_mark("\" title=\"");
    html.put_piece(words);
    if id.is_none() {
        html.put_mark("\">&#8203;</span>\n");
        return;
    }
    html.put_mark("\" aria-label=\"");
    html.put_piece(words);
    html.put_mark("\"></a>\n");
}

/// Puts what a row of breaks is called that has no links.
fn put_row_words(words: &mut Markup, row: &ReasonRow) {
    words.put_marks(&[row.reason.name(), " ", row.reason.text(), ", "]);
    put_counted(words, u64::from(row.count), "break", "breaks");
}

/// Puts a stroke that looks so, and without a link, for each thousandth that one of these times is in, under a title.
pub(crate) fn put_strokes(
    html: &mut Markup,
    span: Span,
    (look, title): (&'static str, &Markup),
    times_us: &[u64],
) {
    begin_chart(html, 18);
    html.put_piece(title);
    html.put_mark("</title>");
    begin_path(html, look);
    let mut last = CELLS;
    for since_us in times_us {
        let cell = cell_of(span, *since_us);
        if cell != last {
            html.put_filled("M{2} 1v16", &[span.place(*since_us)]);
            last = cell;
        }
    }
    html.put_mark("\"/></svg>\n");
}

/// Puts a line from the first reply of each contradiction to its break, and a circle at each reply.
fn put_contradictions(html: &mut Markup, span: Span, marks: &BreaksOverTime) {
    begin_chart(html, 18);
    html.put_mark(
        "From the first of the replies that contradict one another to the break</title><path class=\"contradiction\" d=\"",
    );
    for line in marks.contradictions.as_slice() {
        html.put_filled(
            "M{2} 9H{2}",
            &[span.place(line.from_us), span.place(line.to_us)],
        );
    }
    html.put_mark("\"/></svg>\n");
    put_circles(html, span, marks.circles_us.as_slice());
}

/// Puts a circle at each place.
fn put_circles(html: &mut Markup, span: Span, circles_us: &[u64]) {
    let mut last = u64::MAX;
    for since_us in circles_us {
        let place = span.place(*since_us);
        if place != last {
            html.put_filled(
                "<span class=\"circle\" aria-hidden=\"true\" style=\"left:{3}%\">&#8203;</span>\n",
                &[place],
            );
            last = place;
        }
    }
}
