//! A capture as JSON: an object for each line that its report has, each on a line of its own.

mod line;
mod told;
mod why;

use crate::field::Field;
use crate::motion::Motion;
use deck9::Profile;
use line::Line;
use report9::{Detail, Extent, JudgeError, RunVerdict, Verdict, known_state};
use seen9::{Ending, SeenBreak, SeenExchange, View, ViewOf};
use std::alloc::Global;
use std::io::Write;
use told::Told;

/// JSON of a capture that is judged: an object for each line that its report has, each as soon as it is known. Of what comes outside the
/// stretch there is none, but for the verdict or the totals. The writer is not flushed.
#[derive(Drop)]
pub struct Json<'a, W: Write> {
    alloc: Global,
    writer: &'a mut W,
    profile: &'a Profile,
    /// How the line of an exchange tells it; none where exchanges have no line.
    detail: Option<Detail>,
    extent: Extent,
    /// What the deck did after its commands, where exchanges have lines.
    motion: Motion<'a>,
}

impl<'a, W: Write> Json<'a, W> {
    /// Nothing yet, of a report with this view, to be written there.
    pub fn new(
        alloc: Global,
        writer: &'a mut W,
        view: report9::View,
        of: ViewOf<'a>,
    ) -> Json<'a, W> {
        let detail = match view {
            report9::View::Explain(detail) => Some(detail),
            _ => None,
        };
        Json {
            alloc,
            writer,
            profile: of.profile,
            detail,
            extent: of.scope.extent,
            motion: Motion::new(alloc, of.profile),
        }
    }

    /// Writes the line of the command that was not obeyed for longest, where one was not.
    fn write_not_obeyed(&mut self) -> Result<(), JudgeError> {
        self.motion.end_part()?;
        match self.motion.not_obeyed() {
            Some(not_obeyed) => Line::not_obeyed(self.alloc, &not_obeyed).write(self.writer),
            None => Ok(()),
        }
    }
}

/// Writes an object for each line that a run has: for a yes one for each exchange, with the state after it, and then the verdict; for
/// a no the verdict alone.
pub fn write_json_run<W: Write>(
    alloc: Global,
    writer: &mut W,
    run: &RunVerdict,
    profile: &Profile,
) -> Result<(), JudgeError> {
    match run {
        RunVerdict::Yes {
            past,
            records,
            tail,
            exchanges,
            states,
        } => {
            let mut last = u64::from(*past);
            for (exchange, state) in exchanges.iter().zip(states.iter()) {
                last = last.saturating_add(exchange.records() as u64);
                let mut line = Line::new(alloc, "state");
                line.put("record", Told::Count(last));
                line.put_fields(profile, &known_state(state), Field::told(profile.hands));
                line.write(writer)?;
            }
            Line::yes(alloc, *records, exchanges.len() as u64, *tail).write(writer)
        }
        RunVerdict::No { at, reason } => Line::no(alloc, *at, *reason).write(writer),
    }
}

/// The line of an exchange, told so.
fn exchange_line<'e>(
    alloc: Global,
    profile: &'e Profile,
    detail: Detail,
    seen: &SeenExchange<'_>,
) -> Line<'e> {
    let exchange = seen.exchange;
    let mut line = Line::new(alloc, "exchange");
    line.put("record", Told::Count(u64::from(seen.last)));
    line.put_called(profile, exchange);
    line.put("delay_us", Told::Count(exchange.delay_us));
    line.put_fields(profile, &seen.after, Field::told(profile.hands));
    line.put_going(seen.going);
    if detail == Detail::Bytes {
        line.put("first_record", Told::Count(u64::from(seen.first)));
        line.put("time_us", Told::Count(exchange.time_us));
        line.put_blocks(profile.rate, exchange);
        line.put_says(exchange);
    }
    line
}

impl<W: Write> View for Json<'_, W> {
    fn exchange(&mut self, seen: &SeenExchange<'_>) -> Result<(), JudgeError> {
        let Some(detail) = self.detail else {
            return Ok(());
        };
        self.motion.exchange(seen)?;
        if !seen.is_shown {
            return Ok(());
        }
        exchange_line(self.alloc, self.profile, detail, seen).write(self.writer)
    }

    fn late(&mut self, late: &SeenBreak) -> Result<(), JudgeError> {
        if !late.is_shown {
            return Ok(());
        }
        Line::late(self.alloc, late.at).write(self.writer)
    }

    fn broken(&mut self, broken: &SeenBreak) -> Result<(), JudgeError> {
        self.motion.end_part()?;
        // The first break is the verdict, which is told at the end.
        if self.extent == Extent::FirstBreak || !broken.is_shown {
            return Ok(());
        }
        Line::no(self.alloc, broken.at, broken.reason).write(self.writer)
    }

    fn end(&mut self, ending: &Ending) -> Result<(), JudgeError> {
        self.write_not_obeyed()?;
        let alloc = self.alloc;
        let line = match ending {
            Ending::Verdict(Verdict::No { at, reason }) => Line::no(alloc, *at, *reason),
            Ending::Verdict(
                Verdict::Yes {
                    records,
                    exchanges,
                    tail,
                },
            ) => Line::yes(alloc, *records, u64::from(*exchanges), *tail),
            Ending::Totals(totals) => Line::totals(alloc, totals),
        };
        line.write(self.writer)
    }
}
