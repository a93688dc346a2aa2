//! What follows a capture, one record at a time: what is open on the line, and what is known of the deck.
ghost use Rattle.std.specs.Prelude.{◌≡◌, ◌≤◌, IfOk, None, OnOk};
ghost use Rattle.std.specs.Option.{ForSome};
ghost use Rattle.block9.specs.declared.exchange.Exchange.{Exchange as AnExchange};
ghost use Rattle.judge9.specs.Verdict.{line_rules, terms_of};
ghost use Rattle.judge9.specs.Standing.{KnowsNothing, Observes};
ghost use Rattle.judge9.specs.Working.Turns.{IsObserved, Took};

use crate::event::{Break, Event};
use block9::{Exchange, LineRules, Pairer, Reason, ReplyLimit, Step};
use capture9::LineByte;
use deck9::Profile;
use sets25::SpanSet;
use std::alloc::{AllocError, Global};
use std::mem::replace;
use track9::Tracker;

/// What follows a capture, for a deck that is taken for one profile, where the reply limit counts or is left aside.
#[derive(Drop)]
pub(crate) struct Follower<'a> {
    /// The records that are open, and the exchange that the last one completed.
    pub(crate) pairer: Pairer<'a>,
    /// The states that the deck could be in.
    pub(crate) tracker: Tracker<'a, SpanSet>,
}

/// What the records of a line are judged by.
fn line_rules<'a>(reply_limit: ReplyLimit, profile: &'a Profile) -> LineRules<'a>
    ensures { result ≡ line_rules (terms_of reply_limit profile.entry.now) }
{
    LineRules {
        rate: profile.rate,
        reply_limit,
        replies: profile.deck_ref().replies(),
    }
}

/// Takes an exchange, and answers whether a state of the deck remains. An error comes where memory is refused.
#[inline(never)] // else the loop over rows grows too large to be inlined where it is called
fn take_exchange(
    tracker: &mut Tracker<'_, SpanSet>,
    exchange: &Exchange,
) -> Result<bool, AllocError>
    ensures { IfOk result (λ b. Observes tracker.old tracker.new exchange.now b) }
{
    tracker.take(exchange)
}

impl<'a> Follower<'a> {
    /// Before the first record: nothing is open, and nothing is known of the deck. An error comes where memory is refused.
    pub(crate) fn of(
        alloc: Global,
        reply_limit: ReplyLimit,
        profile: &'a Profile,
    ) -> Result<Follower<'a>, AllocError>
        ensures { IfOk result (KnowsNothing (terms_of reply_limit profile.now)) }
    {
        let tracker = Tracker::of(alloc, profile)?;
        Ok(Follower {
            pairer: Pairer::by(line_rules(reply_limit, profile)),
            tracker,
        })
    }

    /// Takes the next record, and answers what it comes to, if it does: an exchange, a late reply, or a break. An error comes
    /// where the tracker finds no room. Nothing is taken after an error, nor after a break.
    #[inline(always)] // else each answer is handed on through memory
    pub(crate) fn take(&mut self, line_byte: LineByte) -> Result<Option<Event>, AllocError>
        requires no_reason { self.old.pairer.reason ≡ None }
        requires in_order { ForSome self.old.pairer.last_time (λ time. time ≤ line_byte.time_us) }
        ensures { Took self.old line_byte result self.new }
    {
        match self.pairer.feed(line_byte) {
            Ok(Step::Waiting) | Ok(Step::Command) => Ok(None),
            Ok(Step::LateReply) => Ok(Some(Event::LateReply(line_byte))),
            Ok(Step::Exchange) => self.observe(line_byte),
            Err(refusal) => Ok(Some(Event::Break(Break {
                reason: refusal.reason,
                record: line_byte,
                late: refusal.late,
            }))),
        }
    }

    /// What the exchange comes to that the last record, this one, completed: it is a break where no state of the deck remains.
    #[inline(always)] // else each answer is handed on through memory
    fn observe(&mut self, last: LineByte) -> Result<Option<Event>, AllocError>
        requires { (e : AnExchange) × (self.old.pairer.exchange ≡ Some e) }
        ensures pairer { self.new.pairer ≡ self.old.pairer }
        ensures observed { (e : AnExchange) → self.old.pairer.exchange ≡ Some e → IsObserved self.old.tracker e last result self.new.tracker }
    {
        let exchange = self.pairer.completed_exchange();
        if take_exchange(&mut self.tracker, exchange)? {
            return Ok(Some(Event::Exchange));
        }
        let reason = Reason::NoRun;
        Ok(Some(Event::Break(Break {
            reason,
            record: last,
            late: false,
        })))
    }

    /// The exchange that the last record completed.
    #[inline(always)]
    pub(crate) fn exchange(&self) -> &Exchange
        requires { (e : AnExchange) × (self.now.pairer.exchange ≡ Some e) }
        ensures { self.now.pairer.exchange ≡ Some result.now }
    {
        self.pairer.completed_exchange()
    }

    /// Begins anew: nothing is open from here on, and nothing is known of the deck. An error comes where memory is refused.
    pub(crate) fn begin_anew(
        &mut self,
        alloc: Global,
        reply_limit: ReplyLimit,
        profile: &'a Profile,
    ) -> Result<(), AllocError>
        ensures { OnOk result (KnowsNothing (terms_of reply_limit profile.now) self.new) }
    {
        let tracker = Tracker::of(alloc, profile)?;
        drop(replace(&mut self.tracker, tracker));
        self.pairer = Pairer::by(line_rules(reply_limit, profile));
        Ok(())
    }
}
