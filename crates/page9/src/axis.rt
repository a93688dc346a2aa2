//! The axis of time: round times of the clock, as few as can be read.

use crate::html::put_padded;
use crate::span::Span;
use text9::Markup;

/// How many ticks there are at most.
const MOST_TICKS: u64 = 11;

/// How many characters of the labels have room beside one another in a page that is 1,280 pixels wide, each label with a blank behind it.
const MOST_LETTERS: u64 = 106;

/// How many characters a label has at most of which each has room in a page of 901 pixels.
const SHORT_LETTERS: u64 = 5;

/// The steps between ticks, in microseconds.
const STEPS_US: [u64; 36] = [
    1,
    2,
    5,
    10,
    20,
    50,
    100,
    200,
    500,
    1_000,
    2_000,
    5_000,
    10_000,
    20_000,
    50_000,
    100_000,
    200_000,
    500_000,
    1_000_000,
    2_000_000,
    5_000_000,
    10_000_000,
    15_000_000,
    30_000_000,
    60_000_000,
    120_000_000,
    300_000_000,
    600_000_000,
    900_000_000,
    1_800_000_000,
    3_600_000_000,
    7_200_000_000,
    14_400_000_000,
    21_600_000_000,
    43_200_000_000,
    86_400_000_000,
];

/// How times are written at the ticks.
#[derive(Clone, Copy, PartialEq, Eq)]
pub(crate) enum Clock {
    Seconds,
    Minutes,
    Hours,
}

impl Clock {
    /// What it is called.
    pub(crate) fn name(self) -> &'static str {
        match self {
            Clock::Seconds => "seconds",
            Clock::Minutes => "minutes:seconds",
            Clock::Hours => "hours:minutes:seconds",
        }
    }
}

/// The ticks of the axis.
#[derive(Clone, Copy, PartialEq, Eq)]
pub(crate) struct Axis {
    span: Span,
    /// How far the ticks are apart, in microseconds.
    step_us: u64,
    pub(crate) clock: Clock,
}

impl Axis {
    /// The axis of a session: the smallest step that has few enough ticks.
    pub(crate) fn of(span: Span) -> Axis {
        let clock = match span.to_us {
            0..60_000_000 => Clock::Seconds,
            60_000_000..3_600_000_000 => Clock::Minutes,
            _ => Clock::Hours,
        };
        let mut axis = Axis {
            span,
            step_us: STEPS_US[35],
            clock,
        };
        for step in STEPS_US.iter().rev() {
            let finer = Axis {
                step_us: *step,
                ..axis
            };
            if finer.has_room() {
                axis = finer;
            }
        }
        for _ in 0..64 {
            if !axis.has_room() {
                axis.step_us = axis.step_us.saturating_mul(2);
            }
        }
        axis
    }

    /// Whether its labels have room beside one another.
    fn has_room(self) -> bool {
        let room = MOST_LETTERS
            .checked_div(self.letters().saturating_add(1))
            .unwrap_or(0);
        self.ticks() <= room.min(MOST_TICKS)
    }

    /// How many characters the longest label has.
    fn letters(self) -> u64 {
        let seconds = self.span.to_us / 1_000_000;
        let whole = match self.clock {
            Clock::Seconds => digits(seconds),
            Clock::Minutes => digits(seconds / 60).saturating_add(3),
            Clock::Hours => digits(seconds / 3_600).saturating_add(6),
        };
        match self.decimals() {
            Some((places, _)) => whole.saturating_add(u64::from(places)).saturating_add(1),
            None => whole,
        }
    }

    /// Whether its labels are so long that a narrower page has no room for each.
    pub(crate) fn is_long(self) -> bool {
        self.letters() > SHORT_LETTERS
    }

    /// How many ticks there are.
    pub(crate) fn ticks(self) -> u64 {
        ticks_by(self.span, self.step_us)
    }

    /// The time of a tick, counted from 0, on the capture's clock in microseconds.
    pub(crate) fn tick_us(self, number: u64) -> u64 {
        first_tick(self.span, self.step_us).saturating_add(number.saturating_mul(self.step_us))
    }

    /// Puts the time of a tick.
    pub(crate) fn put_tick(self, html: &mut Markup, us: u64) {
        let seconds = us / 1_000_000;
        let (minutes, hours) = (seconds / 60, seconds / 3_600);
        match self.clock {
            Clock::Seconds => html.put_filled("{n}", &[seconds]),
            Clock::Minutes => html.put_filled("{n}:{d}", &[minutes, seconds % 60]),
            Clock::Hours => html.put_filled("{n}:{d}:{d}", &[hours, minutes % 60, seconds % 60]),
        }
        self.put_decimals(html, us);
    }

    /// Puts as many decimals of a tick's seconds as the step has.
    fn put_decimals(self, html: &mut Markup, us: u64) {
        let Some((places, unit_us)) = self.decimals() else {
            return;
        };
        let decimals = (us % 1_000_000).checked_div(unit_us).unwrap_or(0);
        html.put_mark(".");
        put_padded(html, decimals, places);
    }

    /// How many decimals the step has, and how many microseconds the last one counts; none where it is of whole seconds.
    fn decimals(self) -> Option<(u32, u64)> {
        match self.step_us {
            0..10 => Some((6, 1)),
            10..100 => Some((5, 10)),
            100..1_000 => Some((4, 100)),
            1_000..10_000 => Some((3, 1_000)),
            10_000..100_000 => Some((2, 10_000)),
            100_000..1_000_000 => Some((1, 100_000)),
            _ => None,
        }
    }
}

/// How many digits a number has.
fn digits(number: u64) -> u64 {
    u64::from(number.checked_ilog10().unwrap_or(0)).saturating_add(1)
}

/// The first tick in a session with this step.
fn first_tick(span: Span, step_us: u64) -> u64 {
    span.from_us
        .div_ceil(step_us.max(1))
        .saturating_mul(step_us)
}

/// How many ticks a session has with this step.
fn ticks_by(span: Span, step_us: u64) -> u64 {
    let first_us = first_tick(span, step_us);
    if first_us > span.to_us {
        return 0;
    }
    (span.to_us - first_us)
        .checked_div(step_us)
        .unwrap_or(0)
        .saturating_add(1)
}
