//! The lanes of local, the panel and the registers: bars where they were known.

use crate::field_over_time::{Cut, FieldOverTime, LongRun, MOST_CUTS, is_long};
use crate::html::{begin_path, end_path};
use crate::runs::Run;
use crate::session::{begin_lane, begin_lane_chart};
use crate::span::Span;
use tc25::Rate;
use text9::Markup;
use view9::Field;

/// The width of a chart, in hundredths of its thousandths.
const WIDE: u64 = 100_000;

/// A run is drawn at least so wide.
const LEAST_WIDE: u64 = 70;

/// A run that begins so close to the one before is drawn as one with it.
const APART: u64 = 25;

/// A run as it is drawn, in hundredths of thousandths of the chart.
#[derive(Clone, Copy, PartialEq, Eq)]
struct Bar {
    from: u64,
    to: u64,
}

impl Bar {
    /// The bar of a run. One too short to be seen is wider.
    fn of(span: Span, run: &Run) -> Bar {
        let last_from = span.part(run.last_from_us, WIDE);
        let to = span.part(run.to_us, WIDE);
        Bar {
            from: span.part(run.from_us, WIDE).min(WIDE - LEAST_WIDE),
            to: to.max(last_from.saturating_add(LEAST_WIDE)).min(WIDE),
        }
    }
}

/// What a lane is called.
pub(crate) fn lane_name(field: Field) -> &'static str {
    match field {
        Field::Goal => "Commanded mode",
        Field::Shown => "Shown mode",
        Field::Local => "Local",
        Field::Panel => "Panel",
        Field::In => "IN",
        Field::Out => "OUT",
        Field::AudioIn => "Audio IN",
        Field::AudioOut => "Audio OUT",
    }
}

/// Whether a field is an audio register, of which it is not told that it was never known.
pub(crate) fn is_audio(field: Field) -> bool {
    matches!(field, Field::AudioIn | Field::AudioOut)
}

/// Puts the lane of a field that was known.
pub(crate) fn put_lane(html: &mut Markup, span: Span, lane: &FieldOverTime, rate: Rate) {
    let name = lane_name(lane.field);
    begin_lane(html, " thin");
    html.put_marks(&["<b>", name, "</b>"]);
    if lane.times > MOST_CUTS {
        html.put_filled(" <span>{c} times</span>", &[u64::from(lane.times)]);
    }
    begin_lane_chart(html, 18);
    html.put_marks(&[
        name,
        " over time, as far as it was known</title><use href=\"#g\"/>\n",
    ]);
    put_runs(html, span, lane.lows.as_slice(), "clear", (14, 2));
    put_runs(html, span, lane.halves.as_slice(), "half", (9, 7));
    put_runs(html, span, lane.states.as_slice(), "state", (2, 14));
    if lane.times <= MOST_CUTS {
        put_cuts(html, span, lane.cuts.as_slice());
    }
    html.put_mark("</svg>\n");
    put_values(html, span, lane.long(), rate);
    html.put_marks(&[
        "</div><div class=\"scale\"><span class=\"narrow\" aria-hidden=\"true\">",
        name,
        "</span></div></div>\n",
    ]);
}

/// Puts the bars of runs, which begin so far from above and are so tall.
fn put_runs(
    html: &mut Markup,
    span: Span,
    runs: &[Run],
    look: &'static str,
    (top, tall): (u64, u64),
) {
    begin_path(html, look);
    let mut open: Option<Bar> = None;
    for run in runs {
        let bar = Bar::of(span, run);
        open = match open {
            Some(last) if bar.from < last.to.saturating_add(APART) => Some(Bar {
                from: last.from,
                to: last.to.max(bar.to),
            }),
            last => {
                put_bar(html, last, (top, tall));
                Some(bar)
            }
        };
    }
    put_bar(html, open, (top, tall));
    end_path(html);
}

/// Puts the steps of a bar, where there is one.
fn put_bar(html: &mut Markup, bar: Option<Bar>, (top, tall): (u64, u64)) {
    let Some(bar) = bar else {
        return;
    };
    let wide = bar.to.saturating_sub(bar.from);
    html.put_filled("M{2} {n}h{2}v{n}h-{2}z", &[bar.from, top, wide, tall, wide]);
}

/// Puts the cuts between two times that follow one another.
fn put_cuts(html: &mut Markup, span: Span, cuts: &[Cut]) {
    let mut is_begun = false;
    for cut in cuts {
        let before = Bar::of(
            span,
            &Run {
                from_us: cut.before_from_us,
                last_from_us: cut.before_from_us,
                to_us: cut.before_to_us,
            },
        );
        let at = span.part(cut.at_us, WIDE);
        if at >= before.to.saturating_add(APART) {
            continue;
        }
        if !is_begun {
            begin_path(html, "cuts");
            is_begun = true;
        }
        html.put_filled("M{2} 2v14", &[at]);
    }
    if is_begun {
        end_path(html);
    }
}

/// Puts the times into bars that have room for them. A time stands there where it fits whole: what comes behind a break of the line is out
/// of sight.
fn put_values(html: &mut Markup, span: Span, runs: &[LongRun], rate: Rate) {
    for run in runs {
        if !is_long(run.from_us, run.to_us, span.lasts_us()) {
            continue;
        }
        let (from, to) = (span.part(run.from_us, WIDE), span.part(run.to_us, WIDE));
        html.put_filled(
            "<div class=\"time\" style=\"left:{3}%;width:{3}%\"><i>&#8203;</i><b>",
            &[from, to.saturating_sub(from)],
        );
        html.put_with(|value| run.value.put(value, rate));
        html.put_mark("</b></div>\n");
    }
}
