//! How long the deck took to reply: for each command how many replies came and after how long, and a histogram of all of them.

use crate::called::Called;
use crate::delay_counts::DelayCounts;
use crate::put_ending::put_ending;
use block9::{Exchange, REPLY_LIMIT_US};
use deck9::Profile;
use indexmap::IndexMap;
use report9::{JudgeError, write_all};
use seen9::{Ending, SeenBreak, SeenExchange, View};
use std::alloc::{AllocError, Global};
use std::io::Write;
use text9::Text;

/// How many microseconds a bar of the histogram is for.
const BAR_US: u64 = 500;

/// How many bars it has: those up to the reply limit.
const BARS: usize = (REPLY_LIMIT_US / BAR_US) as usize + 1;

/// How many marks the longest bar has.
const MOST_MARKS: u64 = 50;

/// How many late replies are listed. The others are counted.
const MOST_LATE: usize = 100;

/// How long the deck took to reply in a capture, so far. All is written at the end. The writer is not flushed.
#[derive(Drop)]
pub struct Delays<'a, W: Write> {
    alloc: Global,
    profile: &'a Profile,
    writer: &'a mut W,
    /// The delays of each command's replies, in the order in which the commands first came.
    of_command: IndexMap<Called<'a>, DelayCounts>,
    /// The first late replies, each by its record's number and its delay.
    late: Vec<(u32, u64)>,
    late_replies: u64,
}

impl<'a, W: Write> Delays<'a, W> {
    /// None yet, of a deck that is taken for this, to be written there.
    pub fn new(alloc: Global, writer: &'a mut W, profile: &'a Profile) -> Delays<'a, W> {
        Delays {
            alloc,
            profile,
            writer,
            of_command: IndexMap::new(alloc),
            late: Vec::new(alloc),
            late_replies: 0,
        }
    }

    /// Counts the reply of an exchange.
    fn count(&mut self, exchange: &Exchange) -> Result<(), AllocError> {
        let alloc = self.alloc;
        let entry = self.of_command.entry(Called::of(self.profile, exchange))?;
        let counts = entry.or_insert_with(|| DelayCounts::new(alloc));
        counts.add(exchange.delay_us, 1)
    }

    /// The delays of all replies.
    fn all(&self) -> Result<DelayCounts, AllocError> {
        let mut all = DelayCounts::new(self.alloc);
        for counts in self.of_command.values() {
            for (delay_us, replies) in counts.iter() {
                all.add(*delay_us, *replies)?;
            }
        }
        Ok(all)
    }

    /// Puts a line for each command, and one for all of them.
    fn put_table(&self, text: &mut Text, all: &DelayCounts) {
        text.put("replies  least middle   99th greatest  command\n");
        for (called, counts) in self.of_command.iter() {
            put_counts(text, counts);
            text.put_with(|text| called.put(text)).put("\n");
        }
        put_counts(text, all);
        text.put("all\n");
    }

    /// Puts the late replies.
    fn put_late(&self, text: &mut Text) {
        for (at, delay_us) in self.late.iter() {
            text.put_right(*delay_us, 12)
                .put_count(" |late reply at record ", u64::from(*at))
                .put_count(", ", delay_us.saturating_sub(REPLY_LIMIT_US))
                .put(" above the limit\n");
        }
        let others = self.late_replies.saturating_sub(MOST_LATE as u64);
        if others > 0 {
            text.put_count("         ... |and ", others)
                .put(" late replies more\n");
        }
    }

    /// Puts all of it.
    fn put(&self, text: &mut Text, all: &DelayCounts, ending: &Ending) {
        if all.replies() > 0 {
            self.put_table(text, all);
            put_histogram(text, all);
        } else {
            text.put("no whole exchange\n");
        }
        text.put_count("  limit ", REPLY_LIMIT_US).put(" |");
        put_marks(text, "-", MOST_MARKS);
        text.put("\n");
        self.put_late(text);
        put_ending(text, ending);
    }
}

impl<W: Write> View for Delays<'_, W> {
    fn exchange(&mut self, seen: &SeenExchange<'_>) -> Result<(), JudgeError> {
        if seen.is_shown {
            self.count(seen.exchange)?;
        }
        Ok(())
    }

    fn late(&mut self, late: &SeenBreak) -> Result<(), JudgeError> {
        self.broken(late)
    }

    fn broken(&mut self, broken: &SeenBreak) -> Result<(), JudgeError> {
        match broken.delay_us {
            Some(delay_us) if broken.is_shown => {
                self.late_replies = self.late_replies.saturating_add(1);
                if self.late.len() < MOST_LATE {
                    self.late
                        .push((broken.at, delay_us))
                        .map_err(AllocError::from)?;
                }
                Ok(())
            }
            _ => Ok(()),
        }
    }

    fn end(&mut self, ending: &Ending) -> Result<(), JudgeError> {
        let all = self.all()?;
        let mut text = Text::new(self.alloc);
        self.put(&mut text, &all, ending);
        Ok(write_all(self.writer, text.whole()?)?)
    }
}

/// Puts how many replies there are, and the least delay of them, the middle one, the 99th of a hundred and the greatest.
fn put_counts(text: &mut Text, counts: &DelayCounts) {
    let [least, middle, nearly_all, greatest] = counts.told();
    text.put_right(counts.replies(), 7).put(" ");
    for delay_us in [least, middle, nearly_all] {
        text.put_right(delay_us, 6).put(" ");
    }
    text.put_right(greatest, 8).put("  ");
}

/// Puts a bar for each stretch of delays up to the limit, with how many replies began then.
fn put_histogram(text: &mut Text, all: &DelayCounts) {
    let bars = bars_of(all);
    let greatest = bars.iter().copied().max().unwrap_or(0);
    let mut from = 0u64;
    for replies in bars {
        let next = from.saturating_add(BAR_US);
        let to = next.saturating_sub(1).min(REPLY_LIMIT_US);
        let marks = replies.saturating_mul(MOST_MARKS).div_ceil(greatest.max(1));
        text.put_right(from, 4)
            .put(" to ")
            .put_right(to, 4)
            .put(" |");
        put_marks(text, "#", marks);
        text.put_count(" ", replies).put("\n");
        from = next;
    }
}

/// How many replies began in each stretch of delays up to the limit.
fn bars_of(all: &DelayCounts) -> [u64; BARS] {
    let mut bars = [0u64; BARS];
    for (delay_us, replies) in all.iter() {
        if *delay_us <= REPLY_LIMIT_US {
            let bar = (*delay_us / BAR_US) as usize;
            bars[bar] = bars[bar].saturating_add(*replies);
        }
    }
    bars
}

/// Puts so many marks.
fn put_marks(text: &mut Text, mark: &str, marks: u64) {
    for _ in 0..marks {
        text.put(mark);
    }
}
