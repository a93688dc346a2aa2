//! The charts of traffic and of the delays of replies: steps over bins of time.

use crate::bins::{Bin, DrawnBins, LateDot, MOST_DRAWN_US};
use crate::break_lanes::{put_mark_html, put_more};
use crate::html::{begin_path, end_path};
use crate::session::{begin_lane, begin_lane_chart};
use crate::span::{Span, Window};
use crate::traffic::{Traffic, put_rate, round_above};
use block9::REPLY_LIMIT_US;
use std::alloc::{AllocError, Global};
use text9::{Done, Markup};

/// How tall the chart of traffic is, in pixels.
const TRAFFIC_TALL: u64 = 56;

/// How tall the chart of delays is, in pixels.
const DELAYS_TALL: u64 = 130;

/// Which delay of a bin a line tells.
#[derive(Clone, Copy)]
enum DelayLine {
    Greatest,
    Middle,
}

/// The heights of a line in steps, in tenths of a pixel from above: one for each bin that has one.
#[derive(Drop)]
struct Steps {
    heights: Vec<Option<u64>>,
    /// How wide a bin is, in microseconds.
    width_us: u64,
}

/// Puts how many exchanges there were a second.
pub(crate) fn put_traffic(html: &mut Markup, span: Span, bins: &DrawnBins) -> Done {
    let greatest = greatest_rate(bins, span.lasts_us());
    let most = round_above(greatest.saturating_mul(11) / 10);
    let steps = traffic_steps(html.alloc(), bins, span.lasts_us(), most)?;
    begin_lane(html, "");
    html.put_mark("<b>Traffic</b> <span>exchanges a second in bins of ");
    put_width(html, bins.width_us);
    html.put_mark("</span>");
    begin_lane_chart(html, TRAFFIC_TALL);
    html.put_mark("Traffic: exchanges a second over time, at most ");
    put_rate(html, greatest);
    html.put_mark("</title><use href=\"#g\"/>\n");
    put_steps(html, span, &steps, "traf", Some(TRAFFIC_TALL));
    put_steps(html, span, &steps, "tline", None);
    html.put_mark("</svg></div>\n<div class=\"scale\"><span class=\"top\">");
    put_rate(html, most);
    html.put_mark("</span><span class=\"foot\">0</span></div></div>\n");
    Ok(())
}

/// Puts how wide bins are.
fn put_width(html: &mut Markup, width_us: u64) {
    if width_us < 1_000_000 {
        html.put_filled("{n} ms", &[width_us / 1_000]);
    } else {
        html.put_filled("{c} s", &[width_us / 1_000_000]);
    }
}

/// How many exchanges a second there are in a bin.
fn rate_in(bins: &DrawnBins, place: usize, bin: &Bin, lasts_us: u64) -> Traffic {
    let covered_us = u128::from(bins.covered_us(place, lasts_us));
    u128::from(bin.exchanges)
        .saturating_mul(1_000_000_000_000_000)
        .checked_div(covered_us)
        .unwrap_or(0)
}

/// The greatest number of exchanges a second.
fn greatest_rate(bins: &DrawnBins, lasts_us: u64) -> Traffic {
    let mut greatest = 0;
    for (place, bin) in bins.bins.as_slice().iter().enumerate() {
        greatest = rate_in(bins, place, bin, lasts_us).max(greatest);
    }
    greatest
}

/// The heights of the traffic, in a chart whose top is so many exchanges a second.
fn traffic_steps(
    alloc: Global,
    bins: &DrawnBins,
    lasts_us: u64,
    most: Traffic,
) -> Result<Steps, AllocError> {
    let mut heights = Vec::new(alloc);
    push_traffic(&mut heights, bins, lasts_us, most)?;
    Ok(Steps {
        heights,
        width_us: bins.width_us,
    })
}

/// Pushes the heights of the traffic.
fn push_traffic(
    heights: &mut Vec<Option<u64>>,
    bins: &DrawnBins,
    lasts_us: u64,
    most: Traffic,
) -> Done {
    for (place, bin) in bins.bins.as_slice().iter().enumerate() {
        let below = most.saturating_sub(rate_in(bins, place, bin, lasts_us));
        let height = below
            .saturating_mul(u128::from(TRAFFIC_TALL) * 10)
            .saturating_add(most / 2)
            .checked_div(most)
            .unwrap_or(0);
        heights.push(Some(u64::try_from(height).unwrap_or(0)))?;
    }
    Ok(())
}

/// Puts the delays of replies: the greatest and the middle of each bin, and a dot for its slowest late reply.
pub(crate) fn put_delay_lane(
    html: &mut Markup,
    span: Span,
    window: Window,
    bins: &DrawnBins,
) -> Done {
    let has_late = bins.bins.as_slice().iter().any(|bin| bin.slowest.is_some());
    begin_lane(html, "");
    html.put_mark(
        "<b>Reply delay</b> <span>&micro;s: <span class=\"of-great\">greatest</span> and \
        <span class=\"of-mid\">middle</span> in bins of ",
    );
    put_width(html, bins.width_us);
    html.put_mark(if has_late {
        ", <span class=\"bad\">late replies</span></span>"
    } else {
        "</span>"
    });
    begin_lane_chart(html, DELAYS_TALL);
    html.put_filled(
        "Reply delay over time: the greatest and the middle of each bin</title><desc>From 0 to 14,000 microseconds, with the limit of {c}. The numbers stand under Delays by command.</desc><use href=\"#g\"/>\n",
        &[REPLY_LIMIT_US],
    );
    put_delay_lines(html, span, bins)?;
    html.put_mark("</svg>\n");
    put_dots(html, span, window, bins);
    html.put_filled(
        "</div><div class=\"scale\"><span class=\"top\">14,000</span><span class=\"at-limit\">{c} limit</span><span class=\"foot\">0</span></div></div>\n",
        &[REPLY_LIMIT_US],
    );
    Ok(())
}

/// Puts the lines of delays, and the limit.
fn put_delay_lines(html: &mut Markup, span: Span, bins: &DrawnBins) -> Done {
    let greatest = delay_steps(html.alloc(), bins, DelayLine::Greatest)?;
    let middle = delay_steps(html.alloc(), bins, DelayLine::Middle)?;
    put_steps(html, span, &greatest, "great", Some(DELAYS_TALL));
    put_steps(html, span, &greatest, "gline", None);
    put_steps(html, span, &middle, "mid", None);
    html.put_filled(
        "<path class=\"limit\" d=\"M0 {1}H1000\"/>",
        &[delay_y(REPLY_LIMIT_US)],
    );
    Ok(())
}

/// The heights of delays: none where a bin has no reply.
fn delay_steps(alloc: Global, bins: &DrawnBins, line: DelayLine) -> Result<Steps, AllocError> {
    let mut heights = Vec::new(alloc);
    push_delays(&mut heights, bins, line)?;
    Ok(Steps {
        heights,
        width_us: bins.width_us,
    })
}

/// Pushes the heights of delays.
fn push_delays(heights: &mut Vec<Option<u64>>, bins: &DrawnBins, line: DelayLine) -> Done {
    for bin in bins.bins.as_slice() {
        let delay_us = match line {
            DelayLine::Greatest => bin.greatest_us,
            DelayLine::Middle => bin.middle_us(),
        };
        let height = match bin.exchanges {
            0 => None,
            _ => Some(delay_y(delay_us)),
        };
        heights.push(height)?;
    }
    Ok(())
}

/// How far below the top a delay stands, in tenths of a pixel.
fn delay_y(delay_us: u64) -> u64 {
    let above_us = MOST_DRAWN_US - delay_us.min(MOST_DRAWN_US);
    (above_us * DELAYS_TALL * 10 + MOST_DRAWN_US / 2) / MOST_DRAWN_US
}

/// Puts a line in steps over the bins that have a height, or where there is a foot the area between.
fn put_steps(html: &mut Markup, span: Span, steps: &Steps, look: &'static str, foot: Option<u64>) {
    begin_path(html, look);
    let mut is_open = false;
    let mut from_us = 0u64;
    for height in steps.heights.as_slice() {
        let x = span.place(from_us);
        match (*height, is_open) {
            (Some(height), true) => html.put_filled("H{2}V{1}", &[x, height]),
            (Some(height), false) => begin_step(html, x, height, foot),
            (None, true) => end_step(html, x, foot),
            (None, false) => {}
        }
        is_open = height.is_some();
        from_us = from_us.saturating_add(steps.width_us);
    }
    if is_open {
        end_step(html, span.place(span.lasts_us()), foot);
    }
    end_path(html);
}

/// Begins steps, and the area where there is a foot.
fn begin_step(html: &mut Markup, x: u64, height: u64, foot: Option<u64>) {
    match foot {
        Some(foot) => html.put_filled("M{2} {n}V{1}", &[x, foot, height]),
        None => html.put_filled("M{2} {1}", &[x, height]),
    }
}

/// Ends steps, and closes the area.
fn end_step(html: &mut Markup, x: u64, foot: Option<u64>) {
    match foot {
        Some(foot) => html.put_filled("H{2}V{n}Z", &[x, foot]),
        None => html.put_filled("H{2}", &[x]),
    }
}

/// Puts a dot for the slowest late reply of each bin.
fn put_dots(html: &mut Markup, span: Span, window: Window, bins: &DrawnBins) {
    for bin in bins.bins.as_slice() {
        if let Some(dot) = &bin.slowest {
            put_dot(html, span, window, dot, bin.late_replies);
        }
    }
}

/// Puts the dot of the slowest of so many late replies.
fn put_dot(html: &mut Markup, span: Span, window: Window, dot: &LateDot, replies: u32) {
    let mut words = Markup::new(html.alloc());
    words.put_filled(
        "Late reply, {c} &micro;s, record {c}, {h}",
        &[dot.delay_us, u64::from(dot.at), dot.time_us],
    );
    put_more(&mut words, u64::from(replies).saturating_sub(1));
    let mut style = Markup::new(html.alloc());
    let x = span.place(window.since(dot.time_us));
    style.put_filled("left:{3}%;top:{1}px", &[x, delay_y(dot.delay_us)]);
    let look = if dot.delay_us > MOST_DRAWN_US {
        "over"
    } else {
        "dot"
    };
    put_mark_html(html, dot.id, look, &style, &words);
}
