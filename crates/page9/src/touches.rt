//! Where somebody must have touched the panel: marks in the picture of the session, and a list.

use crate::break_lanes::put_strokes;
use crate::html::{begin_line, end_line, put_counted, put_note};
use crate::session::begin_lane;
use crate::span::{Span, Window};
use deck9::{Hands, Profile};
use report9::Stretch;
use seen9::{MoveSearch, SeenExchange};
use std::alloc::{AllocError, Global};
use text9::{Markup, Text};
use view9::{Touch, Touched};

/// How many touches are listed. The others are counted.
const MOST_LISTED: usize = 300;

/// The touches of a session, where somebody may touch the panel.
#[derive(Drop)]
pub(crate) struct Touches<'a, S: MoveSearch> {
    profile: &'a Profile,
    stretch: Stretch,
    window: Window,
    /// What finds the moves of a hand.
    search: &'a S,
    /// The exchanges of the part that goes on.
    part: Touched<'a, S>,
    /// The touches that are shown.
    touches: Vec<Touch>,
    /// Where these stand, since the window's beginning, in microseconds.
    times_us: Vec<u64>,
    /// Whether the search found no run of some part.
    is_unknown: bool,
}

impl<'a, S: MoveSearch> Touches<'a, S> {
    /// Of nothing yet.
    pub(crate) fn new(
        alloc: Global,
        window: Window,
        stretch: Stretch,
        profile: &'a Profile,
        search: &'a S,
    ) -> Touches<'a, S> {
        Touches {
            profile,
            stretch,
            window,
            search,
            part: Touched::new(alloc, search),
            touches: Vec::new(alloc),
            times_us: Vec::new(alloc),
            is_unknown: false,
        }
    }

    /// Whether somebody may touch the panel.
    pub(crate) fn may_be(&self) -> bool {
        self.profile.hands == Hands::Allowed
    }

    /// Takes the next exchange.
    pub(crate) fn exchange(&mut self, seen: &SeenExchange<'_>) -> Result<(), AllocError> {
        if self.may_be() {
            self.part.take(seen)?;
        }
        Ok(())
    }

    /// Ends a part: by a break that is no late reply, and at the end of the capture.
    pub(crate) fn end_part(&mut self) -> Result<(), AllocError> {
        let alloc = *self.touches.allocator();
        let touches = self.part.touches(alloc, self.profile)?;
        self.part = Touched::new(alloc, self.search);
        let Some(touches) = touches else {
            self.is_unknown = true;
            return Ok(());
        };
        for touch in touches.iter() {
            if self.stretch.has(touch.before.time_us) {
                self.touches.push(*touch)?;
                self.times_us.push(self.window.since(touch.before.time_us))?;
            }
        }
        Ok(())
    }

    /// Puts their lane in the picture of a session that lasts so long.
    pub(crate) fn put_lane(&self, html: &mut Markup, span: Span) {
        if !self.may_be() {
            return;
        }
        begin_lane(html, " touch-lane");
        html.put_mark("Touches of the panel</div>\n<div class=\"chart\">");
        let mut words = Markup::new(html.alloc());
        self.put_count(&mut words);
        put_strokes(html, span, ("touches", &words), self.times_us.as_slice());
        html.put_filled(
            "</div><div class=\"scale\">{c}</div></div>\n",
            &[self.touches.len() as u64],
        );
    }

    /// Puts how many there are.
    fn put_count(&self, html: &mut Markup) {
        let count = self.touches.len() as u64;
        put_counted(html, count, "touch of the panel", "touches of the panel");
    }

    /// Puts their section, where somebody may touch the panel.
    pub(crate) fn put(&self, html: &mut Markup) {
        if !self.may_be() {
            return;
        }
        html.put_mark("<section id=\"touches\"><h2>Touches of the panel</h2>\n");
        if self.is_unknown {
            put_note(
                html,
                "Of some part the search found no run: its touches are not known.",
            );
        }
        if self.touches.is_empty() {
            if !self.is_unknown {
                html.put_mark("<p>Nobody need have touched the panel in what is shown.</p>\n");
            }
            html.put_mark("</section>\n");
            return;
        }
        put_note(
            html,
            "Each comes between the record that is named and the one before it. With fewer, no deck can have given the replies; as many may have come at other places.",
        );
        html.put_mark("<ol class=\"lines\">\n");
        for touch in self.touches.iter().take(MOST_LISTED) {
            self.put_touch(html, touch);
        }
        html.put_mark("</ol>\n");
        let others = self.touches.len().saturating_sub(MOST_LISTED) as u64;
        if others > 0 {
            html.put_mark("<p class=\"note\">");
            put_counted(html, others, "more is", "more are");
            html.put_mark(" not listed.</p>\n");
        }
        html.put_mark("</section>\n");
    }

    /// Puts the line of a touch.
    fn put_touch(&self, html: &mut Markup, touch: &Touch) {
        begin_line(html, "", touch.before.time_us, touch.before.record);
        let mut changes = Text::new(html.alloc());
        touch.put_changes(&mut changes, self.profile.rate);
        html.put_text(&changes);
        end_line(html);
    }
}
