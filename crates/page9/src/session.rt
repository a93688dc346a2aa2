//! The picture of the whole session: lanes above one another, all on one axis of time. A lane is a label, a chart and a scale. A chart
//! is stretched to the width that there is, so it holds no text: text, dots and links are placed above it.

use crate::axis::Axis;
use crate::bins::{Bins, LateDot};
use crate::break_lanes::put_marks;
use crate::breaks::ReasonCount;
use crate::breaks_over_time::BreaksOverTime;
use crate::charts::{put_delay_lane, put_traffic};
use crate::field_lane::{is_audio, lane_name, put_lane};
use crate::field_over_time::FieldOverTime;
use crate::html::{begin_chart, begin_path, end_path};
use crate::mode_lane::put_modes;
use crate::mode_over_time::ModeOverTime;
use crate::shown::Shown;
use crate::span::{Span, Window};
use crate::touches::Touches;
use deck9::{Hands, Known, Mode, Profile};
use seen9::{MoveSearch, SeenExchange};
use std::alloc::{AllocError, Global};
use tc25::Rate;
use text9::{Done, Growing, Markup};
use view9::{Field, Value};

/// For how long a shown mode is taken to be shown, in microseconds, where no other status comes.
const MODE_HELD_US: u64 = 1_000_000;

/// What is drawn of a session.
#[derive(Drop)]
pub(crate) struct Session {
    window: Window,
    extent: Shown,
    hands: Hands,
    rate: Rate,
    bins: Bins,
    pub(crate) marks: BreaksOverTime,
    shown: ModeOverTime,
    commanded: ModeOverTime,
    /// The lanes of the other fields, from the top.
    lanes: Growing<FieldOverTime>,
}

impl Session {
    /// Of nothing yet, of which so much is shown, in this window.
    pub(crate) fn new(alloc: Global, window: Window, extent: Shown, profile: &Profile) -> Session {
        Session {
            window,
            extent,
            hands: profile.hands,
            rate: profile.rate,
            bins: Bins::new(alloc, window),
            marks: BreaksOverTime::new(alloc, window),
            shown: ModeOverTime::new(alloc, window, (1, MODE_HELD_US)),
            commanded: ModeOverTime::new(alloc, window, (0, u64::MAX)),
            lanes: lanes_of(alloc, window, profile.hands),
        }
    }

    /// Takes an exchange.
    pub(crate) fn exchange(&mut self, seen: &SeenExchange<'_>) {
        if seen.is_shown {
            self.bins.exchange(seen);
        }
        let now_us = seen.end_us;
        if let Known::Is(mode) = seen.after.shown {
            self.shown.hold(mode, now_us);
        }
        self.commanded.follow(known_mode(&seen.after.goal), now_us);
        for lane in self.lanes.as_mut_slice() {
            lane.follow(lane.field.value_in(&seen.after), now_us);
        }
    }

    /// Takes a late reply.
    pub(crate) fn late(&mut self, late: LateDot) {
        self.bins.late(late);
    }

    /// From this time on nothing is known of the deck: its part ended, or the capture did.
    pub(crate) fn end_part(&mut self, now_us: u64) {
        self.shown.end(now_us);
        self.commanded.end(now_us);
        for lane in self.lanes.as_mut_slice() {
            lane.follow(Value::Unknown, now_us);
        }
    }

    /// Whether memory was refused for something that is drawn.
    fn is_short(&self) -> bool {
        let of_modes = self.shown.is_short() || self.commanded.is_short();
        let of_lanes = self.lanes.as_slice().iter().any(|lane| lane.is_short());
        self.bins.is_short()
            || self.marks.is_short()
            || of_modes
            || of_lanes
            || self.lanes.is_short()
    }

    /// Puts the section, with a row for each of these reasons of breaks, and one for touches of the panel. There is no time where no
    /// record is shown. An error comes where memory was refused for something of it.
    pub(crate) fn put<S: MoveSearch>(
        &self,
        html: &mut Markup,
        span: Option<Span>,
        reasons: &[ReasonCount],
        touches: &Touches<'_, S>,
    ) -> Done {
        if self.is_short() {
            return Err(AllocError);
        }
        html.put_mark("<section id=\"session\"><h2>The whole session</h2>\n");
        match span {
            Some(span) => self.put_figure(html, span, reasons, touches)?,
            None => html.put_mark(match self.extent {
                Shown::Whole => "<p>The capture has no records.</p>",
                Shown::Stretch => "<p>No record is in this stretch.</p>",
            }),
        }
        html.put_mark("</section>\n");
        Ok(())
    }

    /// Puts the picture of a session that lasts so long.
    fn put_figure<S: MoveSearch>(
        &self,
        html: &mut Markup,
        span: Span,
        reasons: &[ReasonCount],
        touches: &Touches<'_, S>,
    ) -> Done {
        let axis = Axis::of(span);
        html.put_marks(&[
            "<p class=\"note\">Time runs to the right, ",
            axis.clock.name(),
            " on the capture&rsquo;s clock. <b>Blank means not known.</b></p>\n\
            <figure><figcaption class=\"hidden\">Breaks, traffic, reply delays and what was known of the deck, over time. \
            The breaks are listed below, and the delays and what was known have tables.</figcaption>\n",
        ]);
        put_ground(html, span, axis, self.marks.hairlines_us());
        html.put_mark("<div class=\"lanes\">\n");
        put_marks(html, span, &self.marks, reasons);
        html.put_mark("</div><div class=\"lanes\">\n");
        if self.bins.exchanges() == 0 {
            html.put_marks(&[
                "<p class=\"note\">Traffic, Reply delay: no ",
                self.extent.exchange_missing(),
                "</p>\n",
            ]);
        } else {
            self.put_lanes(html, span)?;
            touches.put_lane(html, span);
        }
        put_axis(html, span, axis);
        html.put_mark("</div>\n");
        if self.bins.exchanges() > 0 {
            self.put_key(html);
        }
        html.put_mark("</figure>");
        Ok(())
    }

    /// Puts the lanes of exchanges.
    fn put_lanes(&self, html: &mut Markup, span: Span) -> Done {
        let bins = self.bins.drawn(span.lasts_us());
        if bins.bins.is_short() {
            return Err(AllocError);
        }
        put_traffic(html, span, &bins)?;
        put_delay_lane(html, span, self.window, &bins)?;
        put_modes(html, span, &self.shown, &self.commanded)?;
        for lane in self.lanes.as_slice() {
            if lane.is_drawn() {
                put_lane(html, span, lane, self.rate);
            }
        }
        Ok(())
    }

    /// Puts what is not drawn, since it was never known, and what the bars mean.
    fn put_key(&self, html: &mut Markup) {
        html.put_mark("<div class=\"below\">\n");
        self.put_never_known(html);
        let (yes, no) = match self.hands {
            Hands::None => ("set, time known (Local: yes)", "clear (Local: no)"),
            Hands::Allowed => (
                "set, time known (Local: yes, Panel: on)",
                "clear (Local: no, Panel: off)",
            ),
        };
        html.put_mark("<ul class=\"key\">\n");
        put_sample(html, ("state", "M0 0h26v14h-26z"), yes);
        put_sample(html, ("half", "M0 7h26v7h-26z"), "set, time not known");
        put_sample(html, ("clear", "M0 12h26v2h-26z"), no);
        put_sample(html, ("blank", "M0.5 0.5h25v13h-25z"), "not known");
        html.put_mark("</ul></div>\n");
    }

    /// Puts what was never known.
    fn put_never_known(&self, html: &mut Markup) {
        let mut is_begun = false;
        if !self.shown.has_any() {
            html.put_mark("<p>Never known: Shown mode");
            is_begun = true;
        }
        for lane in self.lanes.as_slice() {
            if lane.is_drawn() || is_audio(lane.field) {
                continue;
            }
            let before = if is_begun { ", " } else { "<p>Never known: " };
            html.put_marks(&[before, lane_name(lane.field)]);
            is_begun = true;
        }
        html.put_mark(if is_begun { "</p>\n" } else { "" });
    }
}

/// A lane for each field that is not a mode, from the top: for the panel only where it may be touched.
fn lanes_of(alloc: Global, window: Window, hands: Hands) -> Growing<FieldOverTime> {
    let mut lanes = Growing::new(alloc);
    for field in [
        Field::Local,
        Field::Panel,
        Field::In,
        Field::Out,
        Field::AudioIn,
        Field::AudioOut,
    ] {
        if field != Field::Panel || hands == Hands::Allowed {
            lanes.push(FieldOverTime::new(alloc, field, window));
        }
    }
    lanes
}

/// The mode that is known, where one is.
fn known_mode(known: &Known<Mode>) -> Option<Mode> {
    match known {
        Known::Is(mode) => Some(*mode),
        Known::Unknown => None,
    }
}

/// Puts the head of a lane up to its label's words. Where a narrow page has no room for a label above the chart, it stands in the
/// scale.
pub(crate) fn begin_lane(html: &mut Markup, look: &'static str) {
    html.put_marks(&["<div class=\"lane", look, "\"><div class=\"label\">"]);
}

/// Puts the head of a chart so many pixels tall, up to its title's words.
pub(crate) fn begin_lane_chart(html: &mut Markup, tall: u64) {
    html.put_filled(
        "</div>\n<div class=\"chart\" style=\"height:{n}px\">",
        &[tall],
    );
    begin_chart(html, tall);
}

/// Puts what stands behind each lane: dotted lines at the ticks, and a line at each break where there are few.
fn put_ground(html: &mut Markup, span: Span, axis: Axis, hairlines_us: &[u64]) {
    html.put_mark(
        "<svg class=\"ground\" aria-hidden=\"true\"><defs><g id=\"g\"><path class=\"ticks\" d=\"",
    );
    for tick in 0..axis.ticks() {
        let since_us = axis.tick_us(tick).saturating_sub(span.from_us);
        put_down(html, span, since_us);
    }
    end_path(html);
    put_hairlines(html, span, hairlines_us);
    html.put_mark("</g></defs></svg>\n");
}

/// Puts a line at each of these times.
fn put_hairlines(html: &mut Markup, span: Span, hairlines_us: &[u64]) {
    if hairlines_us.is_empty() {
        return;
    }
    begin_path(html, "hair");
    for since_us in hairlines_us {
        put_down(html, span, *since_us);
    }
    end_path(html);
}

/// Puts the steps of a line from the top of a chart to its foot.
fn put_down(html: &mut Markup, span: Span, since_us: u64) {
    html.put_filled("M{2} 0V130", &[span.place(since_us)]);
}

/// Puts the axis of time.
fn put_axis(html: &mut Markup, span: Span, axis: Axis) {
    begin_lane(html, " thin");
    html.put_mark(if axis.is_long() {
        "</div>\n<div class=\"chart axis long\">\n"
    } else {
        "</div>\n<div class=\"chart axis\">\n"
    });
    for tick in 0..axis.ticks() {
        let us = axis.tick_us(tick);
        let place = span.place(us.saturating_sub(span.from_us));
        html.put_filled("<span style=\"left:{3}%\">", &[place]);
        axis.put_tick(html, us);
        html.put_mark("</span>\n");
    }
    html.put_mark("</div><div class=\"scale\"></div></div>\n");
}

/// Puts what a bar means.
fn put_sample(html: &mut Markup, (look, path): (&'static str, &'static str), words: &'static str) {
    html.put_marks(&[
        "<li><svg width=\"26\" height=\"14\" aria-hidden=\"true\"><path class=\"",
        look,
        "\" d=\"",
        path,
        "\"/></svg>",
        words,
        "</li>\n",
    ]);
}
