//! The times that a deck answers, followed from one to the next.

use crate::reply::Reply;
use seen9::SeenExchange;
use tc25::{Rate, TimeCode};
use text9::Text;

/// A time jumps where what it moves by and what passes differ by more than this, in seconds.
const JUMP_S: u128 = 2;

/// An exchange that a line names, by its last record.
#[derive(Clone, Copy, PartialEq, Eq)]
pub struct Place {
    /// The number of the record, counted from 1.
    pub record: u32,
    /// Its time, in microseconds.
    pub time_us: u64,
    /// Whether it lies in the stretch that is shown.
    pub is_shown: bool,
}

/// A time that the deck answered.
#[derive(Clone, Copy)]
pub(crate) struct Answer {
    /// The exchange.
    pub(crate) place: Place,
    time: TimeCode,
    rate: Rate,
    /// Whether it is the timer's, and not the tape's.
    is_timer: bool,
}

/// The answers of the tape, or of the timer: at least one.
#[derive(Clone, Copy)]
pub(crate) struct Track {
    first: Answer,
    last: Answer,
    /// The frames between them, counted from each answer to the next the shorter way round the day; below 0 where it ran back.
    pub(crate) moved: i64,
    /// From which answer on the last ones tell the same time.
    same: Answer,
    /// From which answer on it stood still for longest.
    pub(crate) still: Answer,
    /// How long that was, in microseconds.
    pub(crate) still_us: u64,
    /// How often it jumped.
    pub(crate) jumps: u32,
    /// The answers before and after its first jump.
    pub(crate) jump: Option<(Answer, Answer)>,
}

impl Place {
    /// The place of an exchange.
    pub(crate) fn of(seen: &SeenExchange<'_>) -> Place {
        Place {
            record: seen.last,
            time_us: seen.end_us,
            is_shown: seen.is_shown,
        }
    }

    /// The microseconds since an earlier one.
    pub(crate) fn since(self, earlier: Place) -> u64 {
        self.time_us.saturating_sub(earlier.time_us)
    }

    /// Puts the record and its time, as a line begins.
    pub(crate) fn put(self, line: &mut Text) {
        line.put_count("record ", u64::from(self.record))
            .put_seconds(", ", self.time_us)
            .put(" s: ");
    }
}

impl Answer {
    /// The time in a reply to CURRENT TIME SENSE, where its bytes are one.
    pub(crate) fn of(rate: Rate, seen: &SeenExchange<'_>) -> Option<Answer> {
        let reply = &seen.exchange.reply;
        let is_timer = match Reply::of(reply.head()) {
            Some(Reply::TimerTime) => true,
            Some(Reply::TapeTime) => false,
            _ => return None,
        };
        Some(Answer {
            place: Place::of(seen),
            time: reply.time_at(rate)?,
            rate,
            is_timer,
        })
    }

    /// What the time is called.
    pub(crate) fn name(&self) -> &'static str {
        if self.is_timer { "timer" } else { "time" }
    }

    /// Puts the time.
    pub(crate) fn put(&self, line: &mut Text) {
        line.put_bytes(&self.time.text_at(self.rate));
    }

    /// The frames from this time to a later answer's, the shorter way round the day: below 0 back.
    fn frames_to(&self, later: &Answer) -> i64 {
        let day = i64::from(self.rate.frames_in_day());
        let by = i64::from(later.time.frames()) - i64::from(self.time.frames());
        if by + by > day {
            by - day
        } else if by + by <= -day {
            by + day
        } else {
            by
        }
    }

    /// Whether a later answer's time is that of a jump from this one.
    fn jumps_to(&self, later: &Answer) -> bool {
        let (frames, _) = pace(self.rate);
        let beyond = self.beyond_clock(later);
        self.frames_to(later) != 0 && beyond > JUMP_S * 1_000_000 * u128::from(frames)
    }

    /// How much more or less than the clock a later answer's time moved by, in microseconds.
    pub(crate) fn jumped_us(&self, later: &Answer) -> u64 {
        let (frames, _) = pace(self.rate);
        u64::try_from(self.beyond_clock(later) / u128::from(frames.max(1))).unwrap_or(u64::MAX)
    }

    /// The same, in microseconds times the frames of a second.
    fn beyond_clock(&self, later: &Answer) -> u128 {
        let (frames, us) = pace(self.rate);
        let moved = i128::from(self.frames_to(later)).saturating_mul(i128::from(us));
        let passed = i128::from(later.place.since(self.place)).saturating_mul(i128::from(frames));
        moved.abs_diff(passed)
    }
}

impl Track {
    fn new(first: &Answer) -> Track {
        Track {
            first: *first,
            last: *first,
            moved: 0,
            same: *first,
            still: *first,
            still_us: 0,
            jumps: 0,
            jump: None,
        }
    }

    /// Takes one more answer.
    fn take(&mut self, answer: &Answer) {
        let by = self.last.frames_to(answer);
        self.moved = self.moved.saturating_add(by);
        if self.last.jumps_to(answer) {
            self.jumps = self.jumps.saturating_add(1);
            self.jump = self.jump.or(Some((self.last, *answer)));
        }
        if by != 0 {
            self.same = *answer;
        }
        let same_us = answer.place.since(self.same.place);
        if same_us > self.still_us {
            self.still = self.same;
            self.still_us = same_us;
        }
        self.last = *answer;
    }

    /// What the time is called.
    pub(crate) fn name(&self) -> &'static str {
        self.first.name()
    }

    /// The microseconds from the first answer to the last.
    pub(crate) fn elapsed_us(&self) -> u64 {
        self.last.place.since(self.first.place)
    }

    /// Whether it moved by as many frames as a second has, or more, either way.
    pub(crate) fn runs(&self) -> bool {
        let (frames, _) = pace(self.first.rate);
        self.moved.unsigned_abs() >= u64::from(frames) && self.elapsed_us() > 0
    }

    /// Puts the first time and the last, the frames between them, and their ratio to real time.
    pub(crate) fn put(&self, line: &mut Text) {
        self.first.put(line);
        line.put(" to ");
        self.last.put(line);
        let frames = self.moved.unsigned_abs();
        let hundredths = self.hundredths();
        let is_back = self.moved < 0 && hundredths > 0;
        line.put_count(if self.moved < 0 { ", -" } else { ", " }, frames)
            .put(if frames == 1 { " frame" } else { " frames" })
            .put_seconds(" in ", self.elapsed_us())
            .put(if is_back { " s, -" } else { " s, " })
            .put_hundredths(hundredths)
            .put(" of real time");
    }

    /// How many hundredths of real time it ran at, either way; a half is rounded up.
    fn hundredths(&self) -> u64 {
        let (frames, us) = pace(self.first.rate);
        let tape = u128::from(self.moved.unsigned_abs()).saturating_mul(u128::from(us));
        let clock = u128::from(self.elapsed_us()).saturating_mul(u128::from(frames));
        let twice = tape.saturating_mul(200).saturating_add(clock);
        let rounded = twice / clock.saturating_mul(2).max(1);
        u64::try_from(rounded).unwrap_or(u64::MAX)
    }
}

/// Takes one more answer. What is told is the tape's time, and the timer's only while the tape's was never answered.
pub(crate) fn take_answer(track: &mut Option<Track>, answer: &Answer) {
    match track {
        Some(track) if track.first.is_timer == answer.is_timer => track.take(answer),
        Some(_) if answer.is_timer => {}
        _ => *track = Some(Track::new(answer)),
    }
}

/// Puts what was answered, at the end of a command's line.
pub(crate) fn put_track(line: &mut Text, track: &Option<Track>) {
    let Some(track) = track else {
        return;
    };
    line.put("; ").put(track.name()).put(" ");
    if track.elapsed_us() > 0 {
        track.put(line);
    } else {
        track.last.put(line);
        line.put(" alone");
    }
}

/// So many frames last so many microseconds: as many as a second has labels.
fn pace(rate: Rate) -> (u32, u32) {
    match rate {
        Rate::DropFrame => (rate.in_second(), 1_001_000),
        _ => (rate.in_second(), 1_000_000),
    }
}
