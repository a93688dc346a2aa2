//! What to look at: what the deck did after each transport command that it acknowledged.

use crate::again::Again;
use crate::html::{begin_line, end_line, put_counted, put_note};
use crate::shown::Shown;
use crate::table::put_table_head;
use deck9::Profile;
use seen9::SeenExchange;
use std::alloc::{AllocError, Global};
use text9::{Done, Markup, Text};
use view9::{Called, Longest, Motion, MotionLine, NotObeyed, Outcome, Place, WorthLine};

/// How many lines are listed of commands. The others are counted.
const MOST_LISTED: usize = 300;

/// How many of those that are worth looking at are in sight.
const IN_SIGHT: usize = 5;

/// What to look at of a session.
#[derive(Drop)]
pub(crate) struct Look<'a> {
    motion: Motion<'a>,
    commands: Listed,
    worth: Longest,
}

/// The first lines of commands, and how many there are.
#[derive(Drop)]
struct Listed {
    lines: Vec<Markup>,
    count: u64,
}

impl<'a> Look<'a> {
    /// Of nothing yet.
    pub(crate) fn new(alloc: Global, profile: &'a Profile) -> Look<'a> {
        Look {
            motion: Motion::new(alloc, profile),
            commands: Listed::new(alloc),
            worth: Longest::new(alloc),
        }
    }

    /// Takes the next exchange.
    pub(crate) fn exchange(&mut self, seen: &SeenExchange<'_>) -> Result<(), AllocError> {
        self.motion.exchange(seen)?;
        self.take_lines()
    }

    /// Ends a part: by a break that is no late reply, and at the end of the capture.
    pub(crate) fn end_part(&mut self) -> Result<(), AllocError> {
        self.motion.end_part()?;
        self.take_lines()
    }

    /// Takes the lines of what ended.
    fn take_lines(&mut self) -> Result<(), AllocError> {
        for line in self.motion.lines() {
            self.worth.take(line)?;
            if line.worth_us.is_none() {
                self.commands.take(line)?;
            }
        }
        Ok(())
    }

    /// Puts the section, after the end of the last part.
    pub(crate) fn put(&self, html: &mut Markup, extent: Shown, again: &Again<'_>) -> Done {
        html.put_mark("<section id=\"look\"><h2>What to look at</h2>\n");
        if self.commands.count == 0 && self.worth.count() == 0 {
            html.put_marks(&[
                "<p>No transport command was acknowledged",
                extent.in_what(),
                ".</p></section>\n",
            ]);
            return Ok(());
        }
        put_note(
            html,
            "What the deck did after each transport command that it acknowledged. Nothing here breaks a rule: a deck may take any time.",
        );
        self.put_worth(html)?;
        self.put_responses(html);
        if self.commands.count > 0 {
            html.put_mark("<details><summary>");
            put_counted(
                html,
                self.commands.count,
                "transport command",
                "transport commands, one by one",
            );
            html.put_mark("</summary>\n");
            self.commands.put(html, again);
            html.put_mark("</details>\n");
        }
        html.put_mark("</section>\n");
        Ok(())
    }

    /// The command that was not obeyed for longest.
    pub(crate) fn not_obeyed(&self) -> Option<NotObeyed<'a>> {
        self.motion.not_obeyed()
    }

    /// Puts what is worth looking at, the longest first: some lines in sight, and the others behind them.
    fn put_worth(&self, html: &mut Markup) -> Done {
        let (count, lines) = (self.worth.count(), self.worth.lines());
        if count == 0 {
            html.put_mark("<p>Nothing stands out.</p>\n");
            return Ok(());
        }
        html.put_filled("<p>Worth looking at: {c}.</p>\n", &[count]);
        let (in_sight, behind) = lines.split_at(IN_SIGHT.min(lines.len()));
        put_worth_lines(html, in_sight)?;
        let others = count.saturating_sub(IN_SIGHT as u64);
        if others == 0 {
            return Ok(());
        }
        html.put_filled("<details><summary>{c} more</summary>\n", &[others]);
        put_worth_lines(html, behind)?;
        if self.worth.others() > 0 {
            html.put_mark("<p class=\"note\">");
            put_counted(html, self.worth.others(), "more is", "more are");
            html.put_mark(" not listed: none went on for longer.</p>\n");
        }
        html.put_mark("</details>\n");
        Ok(())
    }

    /// Puts the table of the responses, where a command with a mode of its own was acknowledged.
    fn put_responses(&self, html: &mut Markup) {
        let outcomes = self.motion.outcomes();
        if outcomes.is_empty() {
            return;
        }
        put_table_head(
            html,
            "Transport command|Acknowledged|Mode shown|Never shown|Slowest, s|at record",
            false,
        );
        for (called, outcome) in outcomes.iter() {
            put_outcome(html, *called, outcome);
        }
        html.put_mark("</tbody></table></div>\n");
    }
}

impl Listed {
    /// Of no line.
    fn new(alloc: Global) -> Listed {
        Listed {
            lines: Vec::new(alloc),
            count: 0,
        }
    }

    /// Takes a line.
    fn take(&mut self, line: &MotionLine) -> Done {
        self.count = self.count.saturating_add(1);
        if self.lines.len() >= MOST_LISTED {
            return Ok(());
        }
        let mut html = Markup::new(*self.lines.allocator());
        put_line(&mut html, line.place, &line.text)?;
        self.lines.push(html)?;
        Ok(())
    }

    /// Puts them, and how many are left out.
    fn put(&self, html: &mut Markup, again: &Again<'_>) {
        html.put_mark("<ol class=\"lines\">\n");
        for line in self.lines.as_slice() {
            html.put_piece(line);
        }
        html.put_mark("</ol>\n");
        let others = self.count.saturating_sub(self.lines.len() as u64);
        again.put_rest(html, others, ("more is", "more are"), "motion --all");
    }
}

/// Puts lines that are worth looking at.
fn put_worth_lines(html: &mut Markup, lines: &[WorthLine]) -> Done {
    html.put_mark("<ol class=\"lines\">\n");
    for line in lines {
        put_line(html, line.place, &line.text)?;
    }
    html.put_mark("</ol>\n");
    Ok(())
}

/// Puts a line of the motion.
fn put_line(html: &mut Markup, place: Place, text: &Text) -> Done {
    begin_line(html, "", place.time_us, place.record);
    html.put_foreign(text.whole()?);
    end_line(html);
    Ok(())
}

/// Puts the row of a command.
fn put_outcome(html: &mut Markup, called: Called<'_>, outcome: &Outcome) {
    html.put_mark("<tr><th scope=\"row\">");
    html.put_with(|name| called.put(name));
    html.put_filled(
        "</th><td>{c}</td><td>{c}</td><td>{c}</td><td>",
        &[outcome.commands, outcome.shown, outcome.never].map(u64::from),
    );
    match outcome.slowest_us {
        Some(us) => html.put_filled(
            "{6}</td><td>{c}</td></tr>\n",
            &[us, u64::from(outcome.slowest_at)],
        ),
        None => html.put_mark("&ndash;</td><td>&ndash;</td></tr>\n"),
    }
}
