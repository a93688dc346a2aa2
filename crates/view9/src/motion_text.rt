//! The text that tells the motion: a line for each command, a table of the responses, and what is worth looking at.

use crate::called::Called;
use crate::longest::Longest;
use crate::motion::{Motion, Outcome};
use crate::put_ending::put_ending;
use crate::track::Place;
use deck9::Profile;
use report9::{JudgeError, write_all};
use seen9::{Ending, SeenBreak, SeenExchange, View};
use std::alloc::{AllocError, Global};
use std::io::Write;
use text9::Text;

/// The first line.
const TITLE: &str =
    "what the deck did after each transport command that it acknowledged; nothing is judged, a deck may take any time\n";

/// What the deck did in a capture, as far as it is written. A command's line is written as soon as the next one comes. All of the capture
/// is followed, and what lies in the stretch has lines and counts: a command by its acknowledgement, and what is worth looking at by the
/// record that it names. The writer is not flushed.
#[derive(Drop)]
pub struct MotionText<'a, W: Write> {
    writer: &'a mut W,
    motion: Motion<'a>,
    /// Lines that are to be written.
    lines: Text,
    /// Those that are worth looking at.
    worth: Longest,
}

impl<'a, W: Write> MotionText<'a, W> {
    /// The title, of a deck that is taken for this, to be written there.
    pub fn new(alloc: Global, writer: &'a mut W, profile: &'a Profile) -> MotionText<'a, W> {
        let mut lines = Text::new(alloc);
        lines.put(TITLE);
        MotionText {
            writer,
            motion: Motion::new(alloc, profile),
            lines,
            worth: Longest::new(alloc),
        }
    }

    /// Takes the lines that are told, and writes those of commands.
    fn take_lines(&mut self) -> Result<(), JudgeError> {
        for line in self.motion.lines() {
            self.worth.take(line)?;
            if line.worth_us.is_none() {
                put_line(&mut self.lines, line.place, &line.text)?;
            }
        }
        if self
            .motion
            .lines()
            .iter()
            .any(|line| line.worth_us.is_none())
        {
            self.write()?;
        }
        Ok(())
    }

    /// Puts the table of what came of the commands.
    fn put_outcomes(&mut self) {
        let outcomes = self.motion.outcomes();
        self.lines.put(if outcomes.is_empty() {
            "no transport command with a mode of its own was acknowledged\n"
        } else {
            "commands  shown  never    slowest s  at record  command\n"
        });
        for (called, outcome) in outcomes.iter() {
            put_outcome(&mut self.lines, *called, outcome);
        }
    }

    /// Puts how many lines are worth looking at, and those of them that went on for longest.
    fn put_worth(&mut self) -> Result<(), AllocError> {
        if self.worth.count() == 0 {
            self.lines.put("worth looking at: nothing\n");
            return Ok(());
        }
        self.lines
            .put_count("worth looking at: ", self.worth.count())
            .put("\n");
        for line in self.worth.lines() {
            self.lines.put("    ");
            put_line(&mut self.lines, line.place, &line.text)?;
        }
        if self.worth.others() > 0 {
            self.lines
                .put_count("    ... and ", self.worth.others())
                .put(" more\n");
        }
        Ok(())
    }

    /// Writes the lines.
    fn write(&mut self) -> Result<(), JudgeError> {
        write_all(self.writer, self.lines.whole()?)?;
        self.lines.clear();
        Ok(())
    }
}

/// Puts a line, with its record and its time.
fn put_line(lines: &mut Text, place: Place, text: &Text) -> Result<(), AllocError> {
    place.put(lines);
    lines.put_bytes(text.whole()?).put("\n");
    Ok(())
}

/// Puts the columns of a command.
fn put_outcome(line: &mut Text, called: Called<'_>, outcome: &Outcome) {
    line.put_right(u64::from(outcome.commands), 8)
        .put(" ")
        .put_right(u64::from(outcome.shown), 6)
        .put(" ")
        .put_right(u64::from(outcome.never), 6)
        .put(" ");
    match outcome.slowest_us {
        Some(us) => line
            .put_blanks(us / 1_000_000, 5)
            .put_seconds("", us)
            .put(" ")
            .put_right(u64::from(outcome.slowest_at), 10)
            .put("  "),
        None => line.put("           -          -  "),
    };
    line.put_with(|text| called.put(text)).put("\n");
}

impl<W: Write> View for MotionText<'_, W> {
    fn exchange(&mut self, seen: &SeenExchange<'_>) -> Result<(), JudgeError> {
        self.motion.exchange(seen)?;
        self.take_lines()
    }

    fn broken(&mut self, _broken: &SeenBreak) -> Result<(), JudgeError> {
        self.motion.end_part()?;
        self.take_lines()
    }

    fn end(&mut self, ending: &Ending) -> Result<(), JudgeError> {
        self.motion.end_part()?;
        self.take_lines()?;
        self.put_outcomes();
        self.put_worth()?;
        put_ending(&mut self.lines, ending);
        self.write()
    }
}
