//! Stretches of time, as many as can be told apart in the picture of a session that grows.

use std::alloc::Global;
use text9::Growing;

/// How many runs may be kept before those that lie close by are joined.
const MANY: usize = 10_000;

/// Stretches of time that lie so close that they are drawn as one, in microseconds since the beginning.
#[derive(Clone, Copy)]
pub(crate) struct Run {
    /// When the first one begins.
    pub(crate) from_us: u64,
    /// When the last one begins. One too short to be seen is drawn wider.
    pub(crate) last_from_us: u64,
    /// When the last one ends.
    pub(crate) to_us: u64,
}

/// Runs in the order of time.
#[derive(Drop)]
pub(crate) struct Runs {
    runs: Growing<Run>,
}

impl Runs {
    /// None yet.
    pub(crate) fn new(alloc: Global) -> Runs {
        Runs {
            runs: Growing::new(alloc),
        }
    }

    /// Whether there is none.
    pub(crate) fn is_empty(&self) -> bool {
        self.runs.is_empty()
    }

    /// Whether memory was refused for one.
    pub(crate) fn is_short(&self) -> bool {
        self.runs.is_short()
    }

    /// The last one.
    pub(crate) fn last(&self) -> Option<Run> {
        self.runs.last().copied()
    }

    /// All of them.
    pub(crate) fn as_slice(&self) -> &[Run] {
        self.runs.as_slice()
    }

    /// Takes a stretch that comes after all of them. The session lasts to its end at least, so that it joins the one before where it
    /// would be drawn as one with it however much longer the session becomes.
    pub(crate) fn take(&mut self, from_us: u64, to_us: u64) {
        if self.runs.len() >= MANY {
            self.join_all(to_us);
        }
        let run = Run {
            from_us,
            last_from_us: from_us,
            to_us,
        };
        self.push_or_join(run, to_us);
    }

    /// Joins the runs that are drawn as one in a session that lasts so long.
    fn join_all(&mut self, lasts_us: u64) {
        for run in self.runs.take_all().iter() {
            self.push_or_join(*run, lasts_us);
        }
    }

    /// Pushes a run, or joins it with the one before where less than a quarter of a thousandth of the session lies between.
    fn push_or_join(&mut self, run: Run, lasts_us: u64) {
        if let Some(last) = self.runs.last_mut() {
            if run.from_us.saturating_sub(last.to_us) < lasts_us / 4_000 {
                last.last_from_us = run.last_from_us;
                last.to_us = last.to_us.max(run.to_us);
                return;
            }
        }
        self.runs.push(run);
    }
}
