//! The step of a capture's times: the coarsest of which all differences to the first time are multiples.
ghost use Rattle.std.specs.Prelude.{◌≡◌, ◌≤◌, ◌%◌};

/// The steps that are told apart, in microseconds.
const STEPS: [u64; 6] = [1_000_000, 100_000, 10_000, 1_000, 100, 10];

/// How many different times there must be before a step is told.
const FEWEST_TIMES: u32 = 3;

/// The times so far.
#[derive(Clone, Copy)]
pub(crate) struct Step {
    first_us: u64,
    last_us: u64,
    /// How many different times came.
    times: u32,
    /// The coarsest step that fits them, in microseconds.
    step_us: u64,
}

impl Step {
    /// Of no time.
    pub(crate) fn new() -> Step {
        Step {
            first_us: 0,
            last_us: 0,
            times: 0,
            step_us: STEPS[0],
        }
    }

    /// Takes the time of the next record.
    pub(crate) fn take(&mut self, time_us: u64) {
        if self.times == 0 {
            self.first_us = time_us;
        } else if time_us == self.last_us {
            return;
        }
        self.last_us = time_us;
        self.times = self.times.saturating_add(1);
        if self.step_us > 1 {
            self.step_us = step_of(self.step_us, time_us.saturating_sub(self.first_us));
        }
    }

    /// The step in microseconds, and none of fewer than three different times.
    pub(crate) fn us(&self) -> Option<u64> {
        (self.times >= FEWEST_TIMES).then_some(self.step_us)
    }
}

/// The coarsest step, no coarser than `most`, of which a time is a multiple.
fn step_of(most: u64, time_us: u64) -> u64
    ensures { (1 ≤ result) × (time_us % result ≡ 0) }
{
    for step in STEPS {
        if step <= most && time_us.checked_rem(step) == Some(0) {
            return step;
        }
    }
    1
}
