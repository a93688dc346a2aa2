//! The digest: each command, and each query that changes what is known of the deck or what it may do by itself; the queries between
//! them are counted.

use crate::break_run::BreakRun;
use crate::changes::Changes;
use crate::motion::Motion;
use crate::put_ending::put_ending;
use crate::strength::Strength;
use crate::tally::Tally;
use crate::track::Place;
use deck9::Profile;
use report9::{JudgeError, put_command, put_no_line, put_reply, write_all};
use seen9::{Ending, SeenBreak, SeenExchange, View};
use std::alloc::{AllocError, Global};
use std::io::Write;
use text9::Text;

/// The digest of a capture, as far as it is written. Each line is written as soon as it is known. The writer is not flushed.
#[derive(Drop)]
pub struct Digest<'a, W: Write> {
    profile: &'a Profile,
    writer: &'a mut W,
    /// Room for lines.
    line: Text,
    /// The queries since the last line that are not told.
    folded: Tally<'a>,
    /// The equal breaks since the last line. Where there are some, no query is counted.
    breaks: Option<BreakRun>,
    changes: Changes,
    strength: Strength<'a>,
    motion: Motion<'a>,
    late_replies: u32,
}

impl<'a, W: Write> Digest<'a, W> {
    /// Nothing yet, of a deck that is taken for this, to be written there.
    pub fn new(alloc: Global, writer: &'a mut W, profile: &'a Profile) -> Digest<'a, W> {
        Digest {
            profile,
            writer,
            line: Text::new(alloc),
            folded: Tally::new(alloc, profile),
            breaks: None,
            changes: Changes::new(alloc, profile.hands),
            strength: Strength::new(alloc, profile),
            motion: Motion::new(alloc, profile),
            late_replies: 0,
        }
    }

    /// Begins to put lines, with that of the queries or of the breaks since the last one.
    fn put_since(&mut self) {
        self.line.clear();
        self.folded.put(&mut self.line);
        if let Some(breaks) = self.breaks.take() {
            breaks.put(&mut self.line);
        }
    }

    /// Puts the line of an exchange.
    fn put_exchange(&mut self, seen: &SeenExchange<'_>) {
        let (line, profile) = (&mut self.line, self.profile);
        Place::of(seen).put(line);
        line.put_with(|text| put_command(text, "", profile, seen.exchange));
        line.put_with(|text| put_reply(text, " -> ", &seen.exchange.reply));
        self.changes.put(line, profile.rate);
        line.put("\n");
    }

    /// Puts the line of the command that was not obeyed for longest, where one was not.
    fn put_not_obeyed(&mut self) -> Result<(), AllocError> {
        self.motion.end_part()?;
        if let Some(not_obeyed) = self.motion.not_obeyed() {
            not_obeyed.place.put(&mut self.line);
            not_obeyed.put(&mut self.line);
            self.line.put("\n");
        }
        Ok(())
    }

    /// Writes the lines that were put.
    fn write(&mut self) -> Result<(), JudgeError> {
        Ok(write_all(self.writer, self.line.whole()?)?)
    }
}

impl<W: Write> View for Digest<'_, W> {
    fn exchange(&mut self, seen: &SeenExchange<'_>) -> Result<(), JudgeError> {
        self.changes.take(seen)?;
        self.motion.exchange(seen)?;
        if !seen.is_shown {
            return Ok(());
        }
        self.strength.count(seen)?;
        let is_told = self.changes.is_news() || !seen.exchange.only_asks();
        if !is_told && self.breaks.is_none() {
            return Ok(self.folded.count(seen.exchange)?);
        }
        self.put_since();
        if is_told {
            self.put_exchange(seen);
        } else {
            self.folded.count(seen.exchange)?;
        }
        self.write()
    }

    fn late(&mut self, late: &SeenBreak) -> Result<(), JudgeError> {
        if !late.is_shown {
            return Ok(());
        }
        self.late_replies = self.late_replies.saturating_add(1);
        self.put_since();
        self.line
            .put_with(|text| put_no_line(text, late.at, late.reason));
        self.write()
    }

    fn broken(&mut self, broken: &SeenBreak) -> Result<(), JudgeError> {
        self.changes.forget();
        self.motion.end_part()?;
        if !broken.is_shown {
            return Ok(());
        }
        if let Some(breaks) = &mut self.breaks {
            if breaks.take(broken) {
                return Ok(());
            }
        }
        self.put_since();
        self.breaks = Some(BreakRun::new(broken));
        self.write()
    }

    fn end(&mut self, ending: &Ending) -> Result<(), JudgeError> {
        if let Ending::Verdict(_) = ending {
            self.breaks = None; // a no is the line of its break
        }
        self.put_since();
        put_ending(&mut self.line, ending);
        if self.late_replies > 0 {
            self.line
                .put_count("late replies: ", u64::from(self.late_replies))
                .put("\n");
        }
        self.put_not_obeyed()?;
        self.strength.put(&mut self.line);
        self.write()
    }
}
