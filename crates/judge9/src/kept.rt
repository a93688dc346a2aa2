//! The exchanges of a part, where they are kept.
ghost use Rattle.std.specs.Prelude.{◌≡◌, ◌++◌, ◌∷◌, [], IfOk, None, OnOk, Option};
ghost use Rattle.block9.specs.declared.exchange.Exchange.{Exchange as AnExchange};
ghost use Rattle.capture9.specs.Rows.{Rows};
ghost use Rattle.deck9.specs.declared.profile.Profile.{Profile as AProfile};
ghost use Rattle.judge9.specs.History.{History};
ghost use Rattle.judge9.specs.Keeping.{KeepsPart, TellsWhy};
ghost use Rattle.judge9.specs.Standing.{Advances, ShowsExchange};
ghost use Rattle.judge9.specs.Verdict.{terms_for};
ghost use Rattle.judge9.specs.declared.event.Event.TheVariants as AnEvent;
ghost use Rattle.report9.specs.declared.verdict.Scope.{Scope as AScope};

use crate::event::Event;
use crate::judging::Judging;
use crate::why::{why_late, why_of};
use block9::Exchange;
use report9::WhyNo;
use std::alloc::{AllocError, Global};
use std::io::Read;
use std::mem::replace;

/// The exchanges of a part so far. It follows a judging event by event, and says why records break rules.
#[derive(Drop)]
pub struct Kept {
    /// The exchanges.
    pub(crate) exchanges: Vec<Exchange>,
    /// The time of the last one's last record, in microseconds.
    pub(crate) end_us: Option<u64>,
}

impl Kept {
    /// Of a part that has no exchange yet.
    pub fn new(alloc: Global) -> Kept
        ensures { (result.exchanges.items ≡ []) × (result.end_us ≡ None) }
    {
        Kept {
            exchanges: Vec::new(alloc),
            end_us: None,
        }
    }

    /// Follows the judging to the event that it came to last, which is not the end: keeps an exchange, and answers why a reply is
    /// late or why a part breaks, after which nothing is kept. An error comes where memory is refused; it follows no further then.
    pub fn follow<R: Read + Drop>(
        &mut self,
        alloc: Global,
        judging: &Judging<R>,
        event: Event,
    ) -> Result<Option<WhyNo>, AllocError>
        requires shows { event ≡ AnEvent.Exchange → ShowsExchange judging.now.feed }
        requires advances { (scope : AScope) × (profile : AProfile) × (rows : Option Rows) × (h : History) × KeepsPart h self.old × Advances scope profile rows h event judging.now }
        ensures keeps { (scope : AScope) (profile : AProfile) (rows : Option Rows) (h : History) → KeepsPart h self.old → (a : Advances scope profile rows h event judging.now)
            → OnOk result (KeepsPart a.next self.new) }
        ensures why { (scope : AScope) (profile : AProfile) (rows : Option Rows) (h : History) → KeepsPart h self.old → (a : Advances scope profile rows h event judging.now)
            → IfOk result (TellsWhy (terms_for scope.extent profile) event a.next judging.now.feed) }
    {
        match event {
            Event::Exchange => {
                self.keep(judging)?;
                Ok(None)
            }
            Event::LateReply(first) => Ok(Some(why_late(alloc, judging, first)?)),
            Event::Break(broken) => {
                let kept = replace(self, Kept::new(alloc));
                Ok(Some(why_of(alloc, judging, kept, broken)?))
            }
            Event::End => Ok(None),
        }
    }

    /// Keeps the exchange that the judging shows. An error comes where memory is refused.
    pub(crate) fn keep<R: Read + Drop>(&mut self, judging: &Judging<R>) -> Result<(), AllocError>
        requires { ShowsExchange judging.now.feed }
        ensures kept { (e : AnExchange) → judging.now.feed.follower.pairer.exchange ≡ Some e → OnOk result (self.new.exchanges.items ≡ self.old.exchanges.items ++ e ∷ []) }
        ensures end { OnOk result (self.new.end_us ≡ judging.now.feed.follower.pairer.last_time) }
    {
        self.exchanges.push(judging.exchange().copy())?;
        self.end_us = judging.time_us();
        Ok(())
    }
}
