//! The breaks over time: for each reason where its breaks are.

use crate::html::BreakId;
use crate::span::Window;
use block9::Reason;
use std::alloc::Global;
use text9::Growing;

/// How many breaks of one reason are marked one by one, with links.
pub(crate) const MOST_LINKS: u32 = 300;

/// How many breaks have a line through the lanes.
const MOST_HAIRLINES: usize = 60;

/// How many marks without links may be kept before those that lie close by are left out.
const MANY: usize = 10_000;

/// A break that is marked.
#[derive(Clone, Copy)]
pub(crate) struct Mark {
    /// Its time since the beginning, in microseconds.
    pub(crate) since_us: u64,
    /// Its time on the capture's clock.
    pub(crate) time_us: u64,
    /// The number of its record.
    pub(crate) at: u32,
    /// Where it is listed.
    pub(crate) id: Option<BreakId>,
}

/// The breaks of one reason.
#[derive(Drop)]
pub(crate) struct ReasonRow {
    pub(crate) reason: Reason,
    /// How many there are.
    pub(crate) count: u32,
    /// The first of them.
    marks: Growing<Mark>,
    /// When they are, in microseconds since the beginning, as far as that can be told apart.
    times_us: Growing<u64>,
}

/// The replies of one contradiction, in microseconds since the beginning.
#[derive(Clone, Copy)]
pub(crate) struct Contradiction {
    /// The first of them.
    pub(crate) from_us: u64,
    /// The break.
    pub(crate) to_us: u64,
}

/// All breaks over time.
#[derive(Drop)]
pub(crate) struct BreaksOverTime {
    alloc: Global,
    window: Window,
    rows: Growing<ReasonRow>,
    /// The first breaks, in microseconds since the beginning.
    hairlines_us: Growing<u64>,
    breaks: u32,
    /// The lines of contradictions.
    pub(crate) contradictions: Growing<Contradiction>,
    /// The replies of contradictions, in microseconds since the beginning.
    pub(crate) circles_us: Growing<u64>,
}

impl BreaksOverTime {
    /// None yet.
    pub(crate) fn new(alloc: Global, window: Window) -> BreaksOverTime {
        BreaksOverTime {
            alloc,
            window,
            rows: Growing::new(alloc),
            hairlines_us: Growing::new(alloc),
            breaks: 0,
            contradictions: Growing::new(alloc),
            circles_us: Growing::new(alloc),
        }
    }

    /// Whether memory was refused for something of it.
    pub(crate) fn is_short(&self) -> bool {
        let of_rows = self.rows.as_slice().iter().any(|row| row.is_short());
        let of_lines = self.hairlines_us.is_short() || self.contradictions.is_short();
        self.rows.is_short() || of_rows || of_lines || self.circles_us.is_short()
    }

    /// Marks a break.
    pub(crate) fn take(&mut self, reason: Reason, time_us: u64, at: u32, id: Option<BreakId>) {
        let since_us = self.window.since(time_us);
        self.breaks = self.breaks.saturating_add(1);
        if self.hairlines_us.len() < MOST_HAIRLINES {
            self.hairlines_us.push(since_us);
        }
        let mark = Mark {
            since_us,
            time_us,
            at,
            id,
        };
        for row in self.rows.as_mut_slice() {
            if row.reason == reason {
                row.take(mark);
                return;
            }
        }
        let mut row = ReasonRow::new(self.alloc, reason);
        row.take(mark);
        self.rows.push(row);
    }

    /// Marks where the replies of a contradiction are, whose break is at this time.
    pub(crate) fn take_contradiction(&mut self, replies_us: &[u64], break_us: u64) {
        let to_us = self.window.since(break_us);
        let mut from_us = to_us;
        for reply_us in replies_us {
            let since_us = self.window.since(*reply_us);
            from_us = from_us.min(since_us);
            self.circles_us.push(since_us);
        }
        self.contradictions.push(Contradiction { from_us, to_us });
    }

    /// The row of a reason.
    pub(crate) fn row(&self, reason: Reason) -> Option<&ReasonRow> {
        self.rows.as_slice().iter().find(|row| row.reason == reason)
    }

    /// The breaks that have a line through the lanes, in microseconds since the beginning: none where there are many.
    pub(crate) fn hairlines_us(&self) -> &[u64] {
        match self.breaks as usize <= MOST_HAIRLINES {
            true => self.hairlines_us.as_slice(),
            false => &[],
        }
    }
}

impl ReasonRow {
    /// Without a break.
    fn new(alloc: Global, reason: Reason) -> ReasonRow {
        ReasonRow {
            reason,
            count: 0,
            marks: Growing::new(alloc),
            times_us: Growing::new(alloc),
        }
    }

    /// Whether memory was refused for a mark or a time.
    fn is_short(&self) -> bool {
        self.marks.is_short() || self.times_us.is_short()
    }

    /// The breaks that have a mark of their own; none where there are too many.
    pub(crate) fn marks(&self) -> &[Mark] {
        match self.count <= MOST_LINKS {
            true => self.marks.as_slice(),
            false => &[],
        }
    }

    /// When the breaks are, in microseconds since the beginning.
    pub(crate) fn times_us(&self) -> &[u64] {
        self.times_us.as_slice()
    }

    /// Takes a break. The session lasts to it at least, so that one is left out that is drawn as one with that before.
    fn take(&mut self, mark: Mark) {
        self.count = self.count.saturating_add(1);
        if self.count <= MOST_LINKS {
            self.marks.push(mark);
        }
        if self.times_us.len() >= MANY {
            for time_us in self.times_us.take_all().iter() {
                self.push_apart(*time_us, mark.since_us);
            }
        }
        self.push_apart(mark.since_us, mark.since_us);
    }

    /// Pushes a time that can be told apart from the one before in a session that lasts so long.
    fn push_apart(&mut self, time_us: u64, lasts_us: u64) {
        if let Some(last_us) = self.times_us.last() {
            if time_us.saturating_sub(*last_us) < lasts_us / 4_000 {
                return;
            }
        }
        self.times_us.push(time_us);
    }
}
