//! A field of what is known of the deck over time, as runs: how long it was known to be what it was.

use crate::field_lane::is_audio;
use crate::runs::Runs;
use crate::span::Window;
use std::alloc::Global;
use text9::Growing;
use view9::{Field, Value};

/// How many cuts between two times are drawn. Where there are more times, nothing would be left between the cuts.
pub(crate) const MOST_CUTS: u32 = 80;

/// How many long runs may be kept before those that have grown short are left out.
const MANY_LONG: usize = 64;

/// How a value is drawn in a lane.
#[derive(Clone, Copy, PartialEq, Eq)]
pub(crate) enum Shade {
    /// It is known: a time, or yes or on.
    State,
    /// A register is set to a time that is not known.
    Half,
    /// The register is clear, or it is no or off.
    Low,
}

impl Shade {
    /// How a value is drawn; nothing where it is not known.
    fn of(value: Value) -> Option<Shade> {
        match value {
            Value::Unknown => None,
            Value::Set => Some(Shade::Half),
            Value::Clear | Value::Local(false) | Value::Panel(false) => Some(Shade::Low),
            Value::At(_) | Value::Mode(_) | Value::Local(true) | Value::Panel(true) => {
                Some(Shade::State)
            }
        }
    }
}

/// A run that may be wide enough for its value to stand in it.
#[derive(Clone, Copy)]
pub(crate) struct LongRun {
    /// When it begins, in microseconds since the beginning.
    pub(crate) from_us: u64,
    /// When it ends.
    pub(crate) to_us: u64,
    /// What was known.
    pub(crate) value: Value,
}

/// A time that a register was known to be set to, where a cut may part it from the one before.
#[derive(Clone, Copy)]
pub(crate) struct Cut {
    /// When it begins, in microseconds since the beginning.
    pub(crate) at_us: u64,
    /// When the last run before it began.
    pub(crate) before_from_us: u64,
    /// When that one ended.
    pub(crate) before_to_us: u64,
}

/// A field over time.
#[derive(Drop)]
pub(crate) struct FieldOverTime {
    pub(crate) field: Field,
    window: Window,
    value: Value,
    since_us: u64,
    pub(crate) states: Runs,
    pub(crate) halves: Runs,
    pub(crate) lows: Runs,
    /// How many times it was set to a time, of a register.
    pub(crate) times: u32,
    pub(crate) cuts: Growing<Cut>,
    long: Growing<LongRun>,
}

impl FieldOverTime {
    /// Of a field that was not known yet.
    pub(crate) fn new(alloc: Global, field: Field, window: Window) -> FieldOverTime {
        FieldOverTime {
            field,
            window,
            value: Value::Unknown,
            since_us: 0,
            states: Runs::new(alloc),
            halves: Runs::new(alloc),
            lows: Runs::new(alloc),
            times: 0,
            cuts: Growing::new(alloc),
            long: Growing::new(alloc),
        }
    }

    /// Whether memory was refused for something of it.
    pub(crate) fn is_short(&self) -> bool {
        let of_runs = self.states.is_short() || self.halves.is_short() || self.lows.is_short();
        of_runs || self.cuts.is_short() || self.long.is_short()
    }

    /// From this time on this is known.
    pub(crate) fn follow(&mut self, value: Value, now_us: u64) {
        if value != self.value {
            self.end_run(now_us);
            self.value = value;
            self.since_us = now_us;
        }
    }

    /// Whether it is drawn: it was known, and where it is an audio register it was known to be set.
    pub(crate) fn is_drawn(&self) -> bool {
        let is_set = !self.states.is_empty() || !self.halves.is_empty();
        is_set || (!is_audio(self.field) && !self.lows.is_empty())
    }

    /// The runs that are so wide, of a session that lasts so long, that their values may stand in them.
    pub(crate) fn long(&self) -> &[LongRun] {
        self.long.as_slice()
    }

    /// Ends the run of what was known.
    fn end_run(&mut self, now_us: u64) {
        let Some(shade) = Shade::of(self.value) else {
            return;
        };
        let Some((from_us, to_us)) = self.window.clip(self.since_us, now_us) else {
            return;
        };
        match shade {
            Shade::State => {
                self.take_time(from_us, to_us);
                self.states.take(from_us, to_us);
            }
            Shade::Half => self.halves.take(from_us, to_us),
            Shade::Low => self.lows.take(from_us, to_us),
        }
    }

    /// Takes a run in which a register was known to be set to a time.
    fn take_time(&mut self, from_us: u64, to_us: u64) {
        if matches!(self.field, Field::Local | Field::Panel) {
            return;
        }
        self.times = self.times.saturating_add(1);
        if self.times <= MOST_CUTS {
            if let Some(before) = self.states.last() {
                self.cuts.push(Cut {
                    at_us: from_us,
                    before_from_us: before.last_from_us,
                    before_to_us: before.to_us,
                });
            }
        }
        if is_long(from_us, to_us, to_us) {
            self.leave_out_short(to_us);
            self.long.push(LongRun {
                from_us,
                to_us,
                value: self.value,
            });
        }
    }

    /// Leaves out the runs that are short in a session that lasts up to now, where there are many.
    fn leave_out_short(&mut self, lasts_us: u64) {
        if self.long.len() < MANY_LONG {
            return;
        }
        for run in self.long.take_all().iter() {
            if is_long(run.from_us, run.to_us, lasts_us) {
                self.long.push(*run);
            }
        }
    }
}

/// Whether a run has room for a time on any screen, in a session that lasts so long.
pub(crate) fn is_long(from_us: u64, to_us: u64, lasts_us: u64) -> bool {
    let run = u128::from(to_us.saturating_sub(from_us));
    run.saturating_mul(1_000) >= u128::from(lasts_us).saturating_mul(60)
}
