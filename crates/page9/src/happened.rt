//! What happened: each command, each query that changed what is known of the deck or what it may do by itself, and each break, in a fold
//! for each stretch of time.

use crate::again::Again;
use crate::folds::{Counted, Folds};
use crate::html::{
    BreakId, begin_line, begin_link, end_line, end_link, put_note, put_reason, put_run,
};
use crate::shown::Shown;
use block9::Reason;
use deck9::Profile;
use report9::{put_command, put_reply};
use seen9::{SeenBreak, SeenExchange};
use std::alloc::{AllocError, Global};
use text9::{Done, Markup, Text};
use view9::{BreakRun, Change, Changes, FIELDS, Field, Tally, Value};

/// What happened in a session.
#[derive(Drop)]
pub(crate) struct Happened<'a> {
    alloc: Global,
    profile: &'a Profile,
    /// Room for the text of a line.
    text: Text,
    /// The queries since the last line that are not told.
    queries: Tally<'a>,
    /// The equal breaks since the last line. Where there are some, no query is counted.
    run: Option<Run>,
    changes: Changes,
    /// What a register was known to be before the last break, where since then it is known only to be set. Else unknown.
    before: [Value; FIELDS],
    folds: Folds,
}

/// Equal breaks in a row.
#[derive(Clone, Copy)]
struct Run {
    breaks: BreakRun,
    /// The place of the first one on the page, where it is listed.
    id: Option<BreakId>,
}

impl<'a> Happened<'a> {
    /// Nothing yet.
    pub(crate) fn new(alloc: Global, profile: &'a Profile) -> Happened<'a> {
        Happened {
            alloc,
            profile,
            text: Text::new(alloc),
            queries: Tally::new(alloc, profile),
            run: None,
            changes: Changes::new(alloc, profile.hands),
            before: [Value::Unknown; FIELDS],
            folds: Folds::new(alloc),
        }
    }

    /// Takes the next exchange.
    pub(crate) fn exchange(&mut self, seen: &SeenExchange<'_>) -> Result<(), AllocError> {
        self.changes.take(seen)?;
        if !seen.is_shown {
            return Ok(());
        }
        self.open_fold(seen.end_us)?;
        let asks = seen.exchange.only_asks();
        self.folds.count(if asks {
            Counted::Query
        } else {
            Counted::Command
        });
        if asks && !self.changes.is_news() {
            self.put_run()?;
            return self.queries.count(seen.exchange);
        }
        self.put_since()?;
        self.put_exchange(seen, asks)?;
        self.keep_before();
        Ok(())
    }

    /// Takes the next break. After a late reply all that is known stays known.
    pub(crate) fn broken(&mut self, broken: &SeenBreak, id: Option<BreakId>) -> Done {
        self.open_fold(broken.time_us)?;
        self.folds.count(Counted::Break);
        let is_late = broken.reason == Reason::LateReply;
        if !is_late {
            self.changes.forget();
        }
        if let Some(run) = &mut self.run {
            if run.breaks.take(broken) {
                return Ok(());
            }
        }
        self.put_since()?;
        self.run = Some(Run {
            breaks: BreakRun::new(broken),
            id,
        });
        if is_late {
            self.put_run()?; // late replies are told one by one
        }
        Ok(())
    }

    /// Takes a break that is not shown.
    pub(crate) fn forget(&mut self) {
        self.changes.forget();
    }

    /// Puts the section, after all of the session.
    pub(crate) fn put(&mut self, html: &mut Markup, extent: Shown, again: &Again<'_>) -> Done {
        self.put_since()?;
        html.put_mark("<section id=\"happened\"><h2>What happened</h2>\n");
        put_note(
            html,
            "Each command, and each query that changed what is known of the deck. The other queries are counted.",
        );
        self.folds.put(html, extent, again)?;
        html.put_mark("</section>\n");
        Ok(())
    }

    /// Goes on with the fold of this time, or begins it.
    fn open_fold(&mut self, us: u64) -> Done {
        if !self.folds.reaches(us) {
            self.put_since()?;
            self.folds.begin(us);
        }
        Ok(())
    }

    /// Puts the line of the queries or of the breaks since the last one.
    fn put_since(&mut self) -> Done {
        self.put_queries()?;
        self.put_run()
    }

    /// Puts the line that counts queries, where there are some.
    fn put_queries(&mut self) -> Done {
        self.text.clear();
        self.queries.put_counts(&mut self.text);
        if self.text.is_empty() || !self.folds.takes_line() {
            return Ok(());
        }
        let mut line = Markup::new(self.alloc);
        line.put_mark("<li class=\"counts\"><span>");
        put_with_arrows(&mut line, self.text.whole()?);
        end_line(&mut line);
        self.folds.keep(line);
        Ok(())
    }

    /// Puts the line of the breaks, where there are some.
    fn put_run(&mut self) -> Done {
        let Some(run) = self.run.take() else {
            return Ok(());
        };
        if !self.folds.takes_line() {
            return Ok(());
        }
        let mut line = Markup::new(self.alloc);
        run.put(&mut line);
        self.folds.keep(line);
        Ok(())
    }

    /// Puts the line of an exchange that is told.
    fn put_exchange(&mut self, seen: &SeenExchange<'_>, asks: bool) -> Done {
        if !self.folds.takes_line() {
            return Ok(());
        }
        self.text.clear();
        if asks && self.only_restores() {
            self.put_restored();
        } else {
            self.put_told(seen);
        }
        let mut line = Markup::new(self.alloc);
        begin_line(
            &mut line,
            if asks { "query" } else { "" },
            seen.end_us,
            seen.last,
        );
        put_with_arrows(&mut line, self.text.whole()?);
        end_line(&mut line);
        self.folds.keep(line);
        Ok(())
    }

    /// Puts the text of an exchange: the command, the reply, and what they change.
    fn put_told(&mut self, seen: &SeenExchange<'_>) {
        let (text, profile) = (&mut self.text, self.profile);
        text.put_with(|line| put_command(line, "", profile, seen.exchange))
            .put_with(|line| put_reply(line, " -> ", &seen.exchange.reply));
        self.changes.put(text, profile.rate);
    }

    /// Whether all that changed is known again as it was before the last break, or at least that a register is set. That goal or shown
    /// mode are no longer known is no change worth a line.
    fn only_restores(&self) -> bool {
        if self.changes.is_by_itself() {
            return false;
        }
        for change in self.changes.as_slice() {
            if !is_passing(change) && !is_restored(change, self.before_of(change)) {
                return false;
            }
        }
        true
    }

    /// What the field of a change was known to be before the last break; unknown where it has become known since.
    fn before_of(&self, change: &Change) -> Value {
        if change.is_forgotten {
            return change.from;
        }
        match self.before.get(change.field as usize) {
            Some(before) => *before,
            None => Value::Unknown,
        }
    }

    /// Puts the text of what is known again.
    fn put_restored(&mut self) {
        self.text.put("known again: ");
        let mut before = "";
        for change in self.changes.as_slice() {
            if !is_passing(change) {
                let (text, rate) = (&mut self.text, self.profile.rate);
                text.put(before).put(change.field.name()).put(" ");
                text.put_with(|line| change.to.put(line, rate));
                before = ", ";
            }
        }
    }

    /// Keeps what the registers that are only known to be set were before the last break.
    fn keep_before(&mut self) {
        for change in self.changes.as_slice() {
            if let Some(before) = self.before.get_mut(change.field as usize) {
                if change.to != Value::Set {
                    *before = Value::Unknown;
                } else if change.is_forgotten {
                    *before = change.from;
                }
            }
        }
    }
}

impl Run {
    /// Puts their line.
    fn put(&self, line: &mut Markup) {
        let first = &self.breaks.first;
        begin_line(line, "broken", first.time_us, first.at);
        begin_link(line, self.id);
        put_reason(line, first.reason);
        end_link(line, self.id);
        if self.breaks.breaks > 1 {
            line.put_mark(", ");
            put_run(line, &self.breaks);
        }
        end_line(line);
    }
}

/// Whether goal or shown mode are no longer known.
fn is_passing(change: &Change) -> bool {
    !change.to.is_known() && matches!(change.field, Field::Goal | Field::Shown)
}

/// Whether a field is known again as it was before, or at least that it is set.
fn is_restored(change: &Change, before: Value) -> bool {
    match change.to {
        Value::Unknown => false,
        Value::Set => matches!(before, Value::Set | Value::At(_)),
        to => to == before,
    }
}

/// Puts foreign text, in which the arrows of a report become arrows of the page.
fn put_with_arrows(html: &mut Markup, text: &[u8]) {
    let mut done = 0usize;
    for (at, word) in text.windows(4).enumerate() {
        let Some(arrow) = arrow_of(word) else {
            continue;
        };
        html.put_foreign(text.get(done..at).unwrap_or(&[]));
        html.put_mark(arrow);
        done = at.saturating_add(4);
    }
    html.put_foreign(text.get(done..).unwrap_or(&[]));
}

/// The arrow of the page for one of a report, between blanks.
fn arrow_of(word: &[u8]) -> Option<&'static str> {
    if word == b" -> ".as_slice() {
        Some(" &rarr; ")
    } else if word == b" => ".as_slice() {
        Some(" &rArr; ")
    } else {
        None
    }
}
