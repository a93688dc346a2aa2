//! What is told of a judging, event by event.
ghost use Rattle.std.specs.Prelude.{◌≡◌, ◌++◌, ◌∷◌, [], IfOk, IsTrue, List, None, OnOk, Some, ℕ};
ghost use Rattle.block9.specs.declared.exchange.Exchange.{Exchange as AnExchange};
ghost use Rattle.judge9.specs.Standing.{ShowsExchange};
ghost use Rattle.judge9.specs.Working.Telling.{IsKept, IsTextOf, IsTold};
ghost use Rattle.judge9.specs.declared.event.Break.{Break as ABreak};
ghost use Rattle.judge9.specs.declared.event.Event.TheVariants as AnEvent;
ghost use Rattle.report9.specs.Lines.{line_of};
ghost use Rattle.report9.specs.declared.verdict.Verdict.TheVariants as AVerdict;
ghost use Rattle.report9.specs.declared.verdict.View.TheVariants as AView;
ghost use Rattle.why9.specs.Contradiction.{BreaksAtLast};

use crate::event::{Break, Event};
use crate::judging::Judging;
use crate::kept::Kept;
use crate::why::{why_late, why_of};
use block9::Reason;
use capture9::LineByte;
use deck9::Profile;
use report9::{
    Detail, JudgeError, Verdict, View, put_exchange_line_for, put_verdict_line, put_why_for,
    write_all,
};
use std::alloc::{AllocError, Global};
use std::io::{Read, Write};
use std::mem::replace;

/// What is told of a judging.
#[derive(Drop)]
pub(crate) struct Telling<'a> {
    alloc: Global,
    /// What is written.
    pub(crate) view: View,
    /// What the deck is taken for.
    pub(crate) profile: &'a Profile,
    /// Room for a text, whose content is not kept.
    pub(crate) line: Vec<u8>,
    /// The exchanges of the part so far, where it is told why a part breaks.
    pub(crate) kept: Kept,
}

impl<'a> Telling<'a> {
    /// Before the first event.
    pub(crate) fn new(alloc: Global, view: View, profile: &'a Profile) -> Telling<'a>
        ensures { (result.view ≡ view) × (result.profile.now ≡ profile.now) × (result.kept.exchanges.items ≡ []) × (result.kept.end_us ≡ None) }
    {
        Telling {
            alloc,
            view,
            profile,
            line: Vec::new(alloc),
            kept: Kept::new(alloc),
        }
    }

    /// Whether nothing is told of this event, nor kept: an exchange, for a verdict. Most captures are judged for one.
    #[inline(always)]
    pub(crate) fn is_silent(&self, event: Event) -> bool
        ensures { IsTrue result → (self.now.view ≡ AView.Verdict) × (event ≡ AnEvent.Exchange) }
    {
        matches!((self.view, event), (View::Verdict, Event::Exchange))
    }

    /// Tells of the event that the judging came to last. Its text is made before any of it is written.
    #[inline(always)] // it is done with every exchange, and most captures are judged for a verdict alone
    pub(crate) fn tell<R: Read + Drop, W: Write>(
        &mut self,
        judging: &Judging<R>,
        event: Event,
        writer: &mut W,
    ) -> Result<(), JudgeError>
        requires shows { event ≡ AnEvent.Exchange → ShowsExchange judging.now.feed }
        requires breaks { (b : ABreak) → event ≡ AnEvent.Break b → self.old.view ≡ AView.Why → b.reason ≡ Reason.NoRun
            → (e : AnExchange) × (judging.now.feed.follower.pairer.exchange ≡ Some e) × BreaksAtLast judging.now.profile.now (self.old.kept.exchanges.items ++ e ∷ []) }
        requires same { judging.now.profile.now ≡ self.old.profile.now }
        ensures told { IsTold self.old.view self.old.profile.now judging.now.feed self.old.kept.exchanges.items self.old.kept.end_us event result
            (W.contents writer.old) (W.contents writer.new) }
        ensures kept { self.old.view ≡ AView.Why → OnOk result (IsKept judging.now.feed event self.old.kept self.new.kept) }
        ensures same { (self.new.view ≡ self.old.view) × (self.new.profile.now ≡ self.old.profile.now) }
    {
        match event {
            Event::Exchange => self.tell_exchange(judging, writer),
            Event::LateReply(first) => self.tell_late(judging, first, writer),
            Event::Break(broken) => self.tell_break(judging, broken, writer),
            Event::End => Ok(()),
        }
    }

    /// Tells of an exchange: for a verdict nothing is told, for an explanation its line is written, and to say why its part breaks it
    /// is kept.
    #[inline(always)]
    fn tell_exchange<R: Read + Drop, W: Write>(
        &mut self,
        judging: &Judging<R>,
        writer: &mut W,
    ) -> Result<(), JudgeError>
        requires { ShowsExchange judging.now.feed }
        ensures told { IsTold self.old.view self.old.profile.now judging.now.feed self.old.kept.exchanges.items self.old.kept.end_us AnEvent.Exchange result
            (W.contents writer.old) (W.contents writer.new) }
        ensures kept { self.old.view ≡ AView.Why → OnOk result (IsKept judging.now.feed AnEvent.Exchange self.old.kept self.new.kept) }
        ensures same { (self.new.view ≡ self.old.view) × (self.new.profile.now ≡ self.old.profile.now) }
    {
        match self.view {
            View::Verdict => Ok(()),
            View::Explain(detail) => self.explain(judging, detail, writer),
            View::Why => Ok(self.kept.keep(judging)?),
        }
    }

    /// Writes the line of an exchange, told so.
    fn explain<R: Read + Drop, W: Write>(
        &mut self,
        judging: &Judging<R>,
        detail: Detail,
        writer: &mut W,
    ) -> Result<(), JudgeError>
        requires { ShowsExchange judging.now.feed }
        ensures told { IsTold (AView.Explain detail) self.old.profile.now judging.now.feed self.old.kept.exchanges.items self.old.kept.end_us AnEvent.Exchange result
            (W.contents writer.old) (W.contents writer.new) }
        ensures same { (self.new.view ≡ self.old.view) × (self.new.profile.now ≡ self.old.profile.now) }
    {
        let knowledge = judging.knowledge();
        self.line.clear();
        put_exchange_line_for(
            &mut self.line,
            detail,
            self.profile,
            judging.at(),
            judging.exchange(),
            &knowledge,
            judging.going(),
        )?;
        write_all(writer, self.line.as_slice())?;
        Ok(())
    }

    /// Tells of a late reply, which begins with this record.
    fn tell_late<R: Read + Drop, W: Write>(
        &mut self,
        judging: &Judging<R>,
        first: LineByte,
        writer: &mut W,
    ) -> Result<(), JudgeError>
        ensures told { IsTold self.old.view self.old.profile.now judging.now.feed self.old.kept.exchanges.items self.old.kept.end_us (AnEvent.LateReply first) result
            (W.contents writer.old) (W.contents writer.new) }
        ensures kept { OnOk result (IsKept judging.now.feed (AnEvent.LateReply first) self.old.kept self.new.kept) }
        ensures same { (self.new.view ≡ self.old.view) × (self.new.profile.now ≡ self.old.profile.now) }
    {
        self.line.clear();
        self.put_late(judging, first)?;
        write_all(writer, self.line.as_slice())?;
        Ok(())
    }

    /// Puts what is told of a late reply.
    fn put_late<R: Read + Drop>(
        &mut self,
        judging: &Judging<R>,
        first: LineByte,
    ) -> Result<(), AllocError>
        requires { self.old.line.items ≡ [] }
        ensures text { OnOk result (IsTextOf self.old.view self.old.profile.now judging.now.feed self.old.kept.exchanges.items self.old.kept.end_us (AnEvent.LateReply first) self.new.line.items) }
        ensures same { (self.new.view ≡ self.old.view) × (self.new.profile.now ≡ self.old.profile.now) × (self.new.kept ≡ self.old.kept) }
    {
        match self.view {
            View::Why => {
                let why = why_late(self.alloc, judging, first)?;
                put_why_for(&mut self.line, self.profile, &why)
            }
            _ => put_no(&mut self.line, judging.at(), Reason::LateReply),
        }
    }

    /// Tells of a break.
    fn tell_break<R: Read + Drop, W: Write>(
        &mut self,
        judging: &Judging<R>,
        broken: Break,
        writer: &mut W,
    ) -> Result<(), JudgeError>
        requires breaks { self.old.view ≡ AView.Why → broken.reason ≡ Reason.NoRun
            → (e : AnExchange) × (judging.now.feed.follower.pairer.exchange ≡ Some e) × BreaksAtLast judging.now.profile.now (self.old.kept.exchanges.items ++ e ∷ []) }
        requires same { judging.now.profile.now ≡ self.old.profile.now }
        ensures told { IsTold self.old.view self.old.profile.now judging.now.feed self.old.kept.exchanges.items self.old.kept.end_us (AnEvent.Break broken) result
            (W.contents writer.old) (W.contents writer.new) }
        ensures kept { OnOk result (IsKept judging.now.feed (AnEvent.Break broken) self.old.kept self.new.kept) }
        ensures same { (self.new.view ≡ self.old.view) × (self.new.profile.now ≡ self.old.profile.now) }
    {
        let kept = replace(&mut self.kept, Kept::new(self.alloc));
        self.line.clear();
        self.put_break(judging, kept, broken)?;
        write_all(writer, self.line.as_slice())?;
        Ok(())
    }

    /// Puts what is told of a break, where these exchanges of its part were kept.
    fn put_break<R: Read + Drop>(
        &mut self,
        judging: &Judging<R>,
        kept: Kept,
        broken: Break,
    ) -> Result<(), AllocError>
        requires empty { self.old.line.items ≡ [] }
        requires breaks { self.old.view ≡ AView.Why → broken.reason ≡ Reason.NoRun
            → (e : AnExchange) × (judging.now.feed.follower.pairer.exchange ≡ Some e) × BreaksAtLast judging.now.profile.now (kept.exchanges.items ++ e ∷ []) }
        requires same { judging.now.profile.now ≡ self.old.profile.now }
        ensures text { OnOk result (IsTextOf self.old.view self.old.profile.now judging.now.feed kept.exchanges.items kept.end_us (AnEvent.Break broken) self.new.line.items) }
        ensures same { (self.new.view ≡ self.old.view) × (self.new.profile.now ≡ self.old.profile.now) × (self.new.kept ≡ self.old.kept) }
    {
        match self.view {
            View::Why => {
                let why = why_of(self.alloc, judging, kept, broken)?;
                put_why_for(&mut self.line, self.profile, &why)
            }
            _ => put_no(&mut self.line, judging.at(), broken.reason),
        }
    }
}

/// Puts the line of a no at this record.
fn put_no(line: &mut Vec<u8>, at: u32, reason: Reason) -> Result<(), AllocError>
    ensures { OnOk result (line.new.items ≡ line.old.items ++ line_of (AVerdict.No at reason)) }
{
    put_verdict_line(line, Verdict::No { at, reason })
}
