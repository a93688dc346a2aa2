//! What happened in folds, one for each stretch of time, which are kept within bounds however long the session is.
//!
//! A fold is a minute; ten minutes, an hour, a day and so on where the session is longer. How long it is shows only as it goes on. So
//! folds begin as minutes, and as soon as the session has become too long for them those so far are merged to wider ones. A line that
//! counts queries at the end of a minute then stays inside the wider fold.

use crate::again::Again;
use crate::html::{put_counted, put_hours_and_minutes};
use crate::shown::Shown;
use std::alloc::{AllocError, Global};
use text9::{Done, Growing, Markup};

/// How many lines of a fold are kept.
const MOST_OF_FOLD: u64 = 200;

/// How many lines are kept in all.
const MOST_LINES: usize = 10_000;

/// How many bytes of them are kept in all; the last line may go beyond.
const MOST_BYTES: usize = 1_500_000;

/// How many lines all folds show at once. Where there are more, they are shut.
const MOST_OPEN: usize = 40;

/// How many folds of days, or of more, there are at most.
const MOST_DAYS: u64 = 400;

/// A minute, in microseconds.
const MINUTE_US: u64 = 60_000_000;

/// An hour, in microseconds.
const HOUR_US: u64 = 60 * MINUTE_US;

/// A day, in microseconds.
const DAY_US: u64 = 24 * HOUR_US;

/// Something that a fold counts.
#[derive(Clone, Copy, PartialEq, Eq)]
pub(crate) enum Counted {
    /// A command that does not only ask.
    Command,
    /// A query.
    Query,
    /// A break.
    Break,
}

/// A stretch of time, and how much happened in it.
#[derive(Clone, Copy, Default)]
struct Fold {
    /// When it begins, in microseconds.
    from_us: u64,
    commands: u64,
    queries: u64,
    breaks: u64,
    /// How many lines there were.
    lines: u64,
    /// How many of them are kept: the first ones.
    kept: u64,
}

/// The folds so far, and their lines.
#[derive(Drop)]
pub(crate) struct Folds {
    alloc: Global,
    /// The time of what happened first.
    began_us: Option<u64>,
    /// How long a fold is, in microseconds.
    width_us: u64,
    folds: Growing<Fold>,
    /// The lines that are kept, those of each fold after those of the fold before.
    lines: Growing<Markup>,
    /// How many bytes these have.
    bytes: usize,
}

impl Folds {
    /// None yet.
    pub(crate) fn new(alloc: Global) -> Folds {
        Folds {
            alloc,
            began_us: None,
            width_us: MINUTE_US,
            folds: Growing::new(alloc),
            lines: Growing::new(alloc),
            bytes: 0,
        }
    }

    /// Whether what happens at this time belongs to the last fold. Folds are wider from here on where the session has become too long.
    pub(crate) fn reaches(&mut self, us: u64) -> bool {
        let began_us = self.began_us.unwrap_or(us);
        self.began_us = Some(began_us);
        let width_us = width_of(us.saturating_sub(began_us));
        if width_us > self.width_us {
            self.width_us = width_us;
            self.merge();
        }
        match self.folds.last() {
            Some(fold) => begin_of(us, self.width_us) <= fold.from_us,
            None => false,
        }
    }

    /// Begins the fold of a time.
    pub(crate) fn begin(&mut self, us: u64) {
        self.folds.push(Fold {
            from_us: begin_of(us, self.width_us),
            ..Fold::default()
        });
    }

    /// Counts something in the last fold.
    pub(crate) fn count(&mut self, counted: Counted) {
        if let Some(fold) = self.folds.last_mut() {
            fold.count(counted);
        }
    }

    /// Counts a line of the last fold: whether it is kept, which then has to follow.
    pub(crate) fn takes_line(&mut self) -> bool {
        let has_room = self.lines.len() < MOST_LINES && self.bytes < MOST_BYTES;
        match self.folds.last_mut() {
            Some(fold) => {
                let is_kept = has_room && fold.room() > 0;
                fold.lines = fold.lines.saturating_add(1);
                fold.kept = fold.kept.saturating_add(u64::from(is_kept));
                is_kept
            }
            None => false,
        }
    }

    /// Keeps a line.
    pub(crate) fn keep(&mut self, line: Markup) {
        self.bytes = self.bytes.saturating_add(line.len());
        self.lines.push(line);
    }

    /// Merges the folds so far to those of the width that they have now.
    fn merge(&mut self) {
        let (folds, lines) = (self.folds.take_all(), self.lines.take_all());
        self.bytes = 0;
        let mut from = 0usize;
        for fold in folds.iter() {
            let to = from.saturating_add(fold.kept as usize);
            let of_fold = lines.as_slice().get(from..to).unwrap_or(&[]);
            self.merge_fold(fold, of_fold);
            from = to;
        }
    }

    /// Merges a narrower fold into the last one, or into a new one. Of its lines those are kept that still have room there.
    fn merge_fold(&mut self, fold: &Fold, lines: &[Markup]) {
        let from_us = begin_of(fold.from_us, self.width_us);
        let is_new = match self.folds.last() {
            Some(last) => last.from_us != from_us,
            None => true,
        };
        if is_new {
            self.begin(from_us);
        }
        let Some(last) = self.folds.last_mut() else {
            return;
        };
        let kept = last.add(fold);
        for line in lines.get(..kept as usize).unwrap_or(&[]) {
            let mut copy = Markup::new(self.alloc);
            copy.put_piece(line);
            self.keep(copy);
        }
    }

    /// Puts them. An error comes where memory was refused for one, or for a line.
    pub(crate) fn put(&self, html: &mut Markup, extent: Shown, again: &Again<'_>) -> Done {
        if self.folds.is_short() || self.lines.is_short() {
            return Err(AllocError);
        }
        if self.folds.is_empty() {
            html.put_marks(&["<p>Nothing: no ", extent.exchange_missing(), ".</p>\n"]);
            return Ok(());
        }
        let is_open = self.lines.len() <= MOST_OPEN;
        let mut from = 0usize;
        for fold in self.folds.as_slice() {
            let to = from.saturating_add(fold.kept as usize);
            let lines = self.lines.as_slice().get(from..to).unwrap_or(&[]);
            fold.put(html, lines, is_open, again);
            from = to;
        }
        Ok(())
    }
}

impl Fold {
    /// Counts something.
    fn count(&mut self, counted: Counted) {
        match counted {
            Counted::Command => self.commands = self.commands.saturating_add(1),
            Counted::Query => self.queries = self.queries.saturating_add(1),
            Counted::Break => self.breaks = self.breaks.saturating_add(1),
        }
    }

    /// How many more of its lines may be kept: none where one was left out, so that the first ones are kept.
    fn room(&self) -> u64 {
        if self.kept < self.lines {
            return 0;
        }
        MOST_OF_FOLD.saturating_sub(self.kept)
    }

    /// Adds what a narrower fold counted: how many of its lines are kept.
    fn add(&mut self, fold: &Fold) -> u64 {
        let kept = fold.kept.min(self.room());
        self.commands = self.commands.saturating_add(fold.commands);
        self.queries = self.queries.saturating_add(fold.queries);
        self.breaks = self.breaks.saturating_add(fold.breaks);
        self.lines = self.lines.saturating_add(fold.lines);
        self.kept = self.kept.saturating_add(kept);
        kept
    }

    /// Puts it with these lines.
    fn put(&self, html: &mut Markup, lines: &[Markup], is_open: bool, again: &Again<'_>) {
        html.put_mark(if is_open {
            "<details open><summary><span>"
        } else {
            "<details><summary><span>"
        });
        put_hours_and_minutes(html, self.from_us);
        html.put_mark("</span><span>");
        self.put_counts(html);
        html.put_mark("</span></summary>\n<ol class=\"lines\">\n");
        for line in lines {
            html.put_piece(line);
        }
        html.put_mark("</ol>\n");
        let others = self.lines.saturating_sub(self.kept);
        again.put_rest(
            html,
            others,
            ("more line is", "more lines are"),
            "digest --all",
        );
        html.put_mark("</details>\n");
    }

    /// Puts how much happened in it.
    fn put_counts(&self, html: &mut Markup) {
        if self.commands > 0 {
            put_counted(html, self.commands, "command", "commands");
        }
        if self.queries > 0 {
            html.put_mark(if self.commands > 0 { ", " } else { "" });
            put_counted(html, self.queries, "query", "queries");
        }
        if self.breaks > 0 {
            let is_first = self.commands == 0 && self.queries == 0;
            html.put_mark(if is_first {
                "<b class=\"bad\">"
            } else {
                ", <b class=\"bad\">"
            });
            put_counted(html, self.breaks, "break", "breaks");
            html.put_mark("</b>");
        }
    }
}

/// How long a fold of a session is that lasts so long, in microseconds.
fn width_of(lasts_us: u64) -> u64 {
    if lasts_us <= HOUR_US {
        return MINUTE_US;
    }
    if lasts_us <= 10 * HOUR_US {
        return 10 * MINUTE_US;
    }
    if lasts_us <= 10 * DAY_US {
        return HOUR_US;
    }
    let mut width_us = DAY_US;
    for _ in 0..8 {
        if lasts_us > width_us.saturating_mul(MOST_DAYS) {
            width_us = width_us.saturating_mul(10);
        }
    }
    width_us
}

/// When the fold of a time begins, where folds are so long.
fn begin_of(us: u64, width_us: u64) -> u64 {
    us.saturating_sub(us.checked_rem(width_us).unwrap_or(0))
}
