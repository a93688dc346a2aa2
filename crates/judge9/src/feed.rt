//! The rows of a capture that are still to come, and what follows their records.
ghost use Rattle.std.specs.Prelude.{◌≡◌, ◌≤◌, ℕ, IfOk, None, option_map};
ghost use Rattle.std.specs.Option.{ForSome};
ghost use Rattle.capture9.specs.Records.{GivesRecord, Progress};
ghost use Rattle.capture9.specs.Rows.{rows_within};
ghost use Rattle.judge9.specs.Standing.{IsFresh, KnowsNothing};
ghost use Rattle.judge9.specs.Verdict.{Terms, reply_limit_of, rows_allowed, terms_for};
ghost use Rattle.judge9.specs.Working.Beginnings.{BeginsAfter, ComesFirst, TakesUp};
ghost use Rattle.judge9.specs.Working.Turns.{ComesTo};

use crate::beginning::pass_over;
use crate::event::{Break, Event};
use crate::follower::Follower;
use block9::{ReplyLimit, begins_next_part};
use capture9::{GREATEST_LIMIT, LineByte, MOST_ROWS, Records};
use deck9::Profile;
use report9::{Beginning, Extent, JudgeError};
use std::alloc::{AllocError, Global};
use std::io::Read;

/// The rows of a capture that are still to come, and what follows their records.
#[derive(Drop)]
pub struct Feed<'a, R: Read + Drop> {
    /// The rows that are still to come.
    pub(crate) rows: Records<R>,
    /// What follows their records.
    pub(crate) follower: Follower<'a>,
}

/// How many rows a capture may have: one of which all parts are judged may have `GREATEST_LIMIT`.
fn rows_allowed(extent: Extent) -> u32
    ensures { result ≡ rows_allowed extent }
{
    match extent {
        Extent::FirstBreak => MOST_ROWS,
        Extent::WholeCapture => GREATEST_LIMIT,
    }
}

/// Whether the reply limit counts: where all parts are judged it is left aside.
fn reply_limit_of(extent: Extent) -> ReplyLimit
    ensures { result ≡ reply_limit_of extent }
{
    match extent {
        Extent::FirstBreak => ReplyLimit::Counts,
        Extent::WholeCapture => ReplyLimit::LeftAside,
    }
}

impl<'a, R: Read + Drop> Feed<'a, R> {
    /// Of what the reader gives. It reads nothing yet; an error comes where memory is refused.
    pub(crate) fn new(
        alloc: Global,
        reader: R,
        extent: Extent,
        profile: &'a Profile,
    ) -> Result<Feed<'a, R>, AllocError>
        ensures fresh { IfOk result (IsFresh (rows_allowed extent) (terms_for extent profile.now)) }
        ensures rows { IfOk result (λ j. j.rows.rows ≡ option_map (rows_within (rows_allowed extent)) (R.remaining reader)) }
    {
        let follower = Follower::of(alloc, reply_limit_of(extent), profile)?;
        Ok(Feed {
            rows: Records::new(alloc, reader, rows_allowed(extent)),
            follower,
        })
    }

    /// Reads on to the next exchange, the first record that breaks a rule, or the end of the rows. Errors are those of the
    /// rows, and `OutOfMemory` where the tracker finds no room; nothing is asked for after one, nor after a break or the end.
    #[inline(always)] // else each event would be handed on through memory
    pub(crate) fn next(&mut self) -> Result<Event, JudgeError>
        requires no_reason { self.old.follower.pairer.reason ≡ None }
        requires in_order { ForSome self.old.follower.pairer.last_time (λ time. time ≤ self.old.rows.last_time) }
        ensures { ComesTo self.old result self.new }
    {
        'open: loop {
            // by arms, since `?` would put each record aside
            let line_byte = match self.rows.next() {
                Ok(Some(line_byte)) => line_byte,
                Ok(None) => return Ok(Event::End),
                Err(error) => return Err(JudgeError::from(error)),
            };
            match self.follower.take(line_byte) {
                Ok(None) => {}
                Ok(Some(event)) => return Ok(event),
                Err(_) => return Err(JudgeError::OutOfMemory),
            }
        }
    }

    /// As `next`, at the beginning of a part.
    #[inline(never)] // so that the loop over rows stands once in `Judging::next`, which else is too large to be inlined
    fn next_apart(&mut self) -> Result<Event, JudgeError>
        requires no_reason { self.old.follower.pairer.reason ≡ None }
        requires in_order { ForSome self.old.follower.pairer.last_time (λ time. time ≤ self.old.rows.last_time) }
        ensures { ComesTo self.old result self.new }
    {
        self.next()
    }

    /// Comes to the first event of a capture of which nothing was judged yet, from this beginning on. Errors are those of `next`.
    pub(crate) fn first(&mut self, beginning: Beginning) -> Result<Event, JudgeError>
        requires { (limit : ℕ) × (terms : Terms) × IsFresh limit terms self.old }
        ensures { (limit : ℕ) (terms : Terms) → IsFresh limit terms self.old → ComesFirst terms beginning self.old result self.new }
    {
        match beginning {
            Beginning::FirstRecord => self.next_apart(),
            Beginning::FirstCommand => match pass_over(&mut self.rows, None)? {
                Some(first) => self.begin(first),
                None => Ok(Event::End),
            },
        }
    }

    /// Takes up where the next part of the capture begins, after a record that was read last broke a rule. What it comes to there
    /// is as for `next`, and so are the errors.
    pub(crate) fn take_up(
        &mut self,
        alloc: Global,
        extent: Extent,
        profile: &'a Profile,
        broken: Break,
    ) -> Result<Event, JudgeError>
        requires { (before : Progress R) × GivesRecord before broken.record self.old.rows }
        ensures { TakesUp (terms_for extent profile.now) broken self.old result self.new }
    {
        self.follower
            .begin_anew(alloc, reply_limit_of(extent), profile)?;
        if begins_next_part(broken.reason, broken.record) {
            return self.begin(broken.record);
        }
        match pass_over(&mut self.rows, Some(broken.record))? {
            Some(first) => self.begin(first),
            None => Ok(Event::End),
        }
    }

    /// What the first record of a part comes to, the one that was read last, with those after it.
    fn begin(&mut self, first: LineByte) -> Result<Event, JudgeError>
        requires begins { (terms : Terms) × KnowsNothing terms self.old.follower }
        requires read { (before : Progress R) × GivesRecord before first self.old.rows }
        ensures { BeginsAfter self.old first result self.new }
    {
        match self.follower.take(first)? {
            Some(event) => Ok(event),
            None => self.next_apart(),
        }
    }
}
