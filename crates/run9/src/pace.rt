//! How close the trackers are that the way back keeps: few where they take much memory.
ghost use Rattle.std.specs.Prelude.{◌<◌, ◌≤◌};

use deck9::Register;
use sets25::SpanSet;
use track9::Tracker;

/// About how many spans of times a tracker had when it had most. It bears on speed and memory alone.
#[derive(Clone, Copy)]
pub struct MostSpans(usize);

impl MostSpans {
    /// None so far.
    pub fn none() -> MostSpans {
        MostSpans(0)
    }

    /// Notes the spans of a tracker that has taken so many exchanges. They are counted after each 128th: an exchange adds one at
    /// most, so they are never many more.
    pub fn note(&mut self, exchanges: usize, tracker: &Tracker<SpanSet>) {
        if exchanges % 128 == 0 {
            self.0 = self.0.max(spans_of(tracker));
        }
    }
}

/// How many spans of times a tracker has of all registers, each counted where it has most.
fn spans_of(tracker: &Tracker<SpanSet>) -> usize {
    let ins = tracker.spans(Register::RegIn);
    let outs = tracker.spans(Register::RegOut);
    let ains = tracker.spans(Register::RegAudioIn);
    let aouts = tracker.spans(Register::RegAudioOut);
    ins.saturating_add(outs)
        .saturating_add(ains)
        .saturating_add(aouts)
}

/// How close marks are put. It bears on speed and memory alone.
#[derive(Clone, Copy)]
pub(crate) struct Pace {
    /// Through so many exchanges there is a mark before each.
    dense: usize,
    /// Elsewhere the next mark comes so many exchanges on, but at most halfway to where marks are dense.
    apart: usize,
}

impl Pace {
    /// How close marks are put before so many exchanges, where a tracker keeps at most so many spans of times.
    ///
    /// The heavier a mark is, the further apart marks are: so all of them together take about as much memory as the exchanges,
    /// and so do the dense ones.
    pub(crate) fn of(exchanges: usize, spans: MostSpans) -> Pace {
        /// What a tracker takes beside its times, as spans of 8 bytes.
        const BARE: usize = 128;
        /// What dense marks may take however few the exchanges are, as spans.
        const LEAST: usize = 32768;
        /// More marks than these would not stay in a processor's cache until they are gone back to.
        const MOST_DENSE: usize = 256;

        let weight = spans.0.saturating_add(BARE);
        Pace {
            dense: (exchanges.max(LEAST) / weight).min(MOST_DENSE),
            apart: weight,
        }
    }

    /// How far on the next mark comes, where so many exchanges lie between the one before and the place that is led up to.
    pub(crate) fn step(self, between: usize) -> usize
        requires { 0 < between }
        ensures some { 0 < result }
        ensures within { result ≤ between }
    {
        if between <= self.dense {
            return 1;
        }
        self.apart.max(1).min(between - between / 2)
    }
}
