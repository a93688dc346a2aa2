//! The judging of a capture, as a reading of events.
ghost use Rattle.std.specs.Prelude.{◌≡◌};
ghost use Rattle.judge9.specs.Working.Marking.{late_besides};

use crate::counts::Counts;
use crate::event::{Break, Event};
use crate::feed::Feed;
use crate::stage::Stage;
use block9::{Exchange, Open};
use capture9::LineByte;
use deck9::{Going, Knowledge, ModeSet, Profile};
use report9::{Extent, JudgeError, Scope, Totals, Verdict};
use std::alloc::{AllocError, Global};
use std::io::Read;

/// The judging of a capture. It reads the rows one after another and keeps no list of them: only what is open on the line, the
/// states that the deck could be in, and a few counts.
///
/// [`next`](Judging::next) comes to one event after another. At an event the other calls show what is known of it. There is no
/// other way to judge: a report, a run and a view are each a loop over these events.
#[derive(Drop)]
pub struct Judging<'a, R: Read + Drop> {
    /// The rows that are still to come, and what follows their records.
    pub(crate) feed: Feed<'a, R>,
    alloc: Global,
    /// How much of the capture is judged.
    pub(crate) scope: Scope,
    /// What the deck is taken for.
    pub(crate) profile: &'a Profile,
    /// Where it stands.
    pub(crate) stage: Stage,
    /// What was counted.
    pub(crate) counts: Counts,
}

impl<'a, R: Read + Drop> Judging<'a, R> {
    ghost use Rattle.std.specs.Prelude.{◌≡◌, ◌⊎◌, ◌<◌, ◌+◌, ◌^◌, ◌↔◌, IfOk, IfSome, None, Ok, OnOk, Some, true, Option, length, option_map};
    ghost use Rattle.capture9.specs.Rows.{Rows, rows_within};
    ghost use Rattle.block9.specs.Pairer.{IsOpenAfter};
    ghost use Rattle.deck9.specs.Knowledge.{IsKnowledge};
    ghost use Rattle.deck9.specs.ModeSet.{has};
    ghost use Rattle.deck9.specs.declared.mode.Mode.{Mode as AMode};
    ghost use Rattle.deck9.specs.declared.state.State.{State as AState};
    ghost use Rattle.track9.specs.Tracker.{Possible};
    ghost use Rattle.judge9.specs.History.{History, nothing_told};
    ghost use Rattle.judge9.specs.Standing.{CanGoOn, Next, ShowsExchange, Stands, left_of, totals_of, verdict_of};
    ghost use Rattle.judge9.specs.Verdict.{rows_allowed, terms_for};
    ghost use Rattle.judge9.specs.Working.Marking.{GrowsBy, IsMarked, IsToldOf};
    ghost use Rattle.judge9.specs.declared.event.Break.{Break as ABreak};
    ghost use Rattle.judge9.specs.declared.event.Event.TheVariants as AnEvent;
    ghost use Rattle.judge9.specs.declared.stage.Stage.TheVariants as AStage;
    ghost use Rattle.report9.specs.declared.verdict.Extent.TheVariants as AnExtent;
    ghost use Rattle.report9.specs.declared.verdict.Scope.{Scope as AScope};
    ghost use Rattle.deck9.specs.declared.profile.Profile.{Profile as AProfile};

    /// The judging of the capture that the reader gives, so much of it as the scope says, of a deck that is taken for this. With
    /// `Extent::FirstBreak` a capture may have 4,000,000 rows, and the reply limit counts; with `Extent::WholeCapture` it may have
    /// 4,294,967,294, and the reply limit is left aside. It reads nothing yet. An error comes where memory is refused.
    pub fn new(
        alloc: Global,
        reader: R,
        scope: Scope,
        profile: &'a Profile,
    ) -> Result<Judging<'a, R>, AllocError>
        ensures stands { IfOk result (Stands scope profile.now (option_map (rows_within (rows_allowed scope.extent)) (R.remaining reader)) nothing_told) }
        ensures ready { IfOk result (λ j. CanGoOn j.stage j.feed) }
        ensures rows { IfOk result (λ j. j.feed.rows.rows ≡ option_map (rows_within (rows_allowed scope.extent)) (R.remaining reader)) }
    {
        Ok(Judging {
            feed: Feed::new(alloc, reader, scope.extent, profile)?,
            alloc,
            scope,
            profile,
            stage: Stage::Fresh,
            counts: Counts {
                breaks: 0,
                exchanges: 0,
                records: 0,
            },
        })
    }

    /// Comes to the next event: an exchange, a late reply, a record that breaks a rule, or the end. After a break it takes up the
    /// next part, or ends, as the scope says. Where the record that breaks a rule begins a late reply besides, that comes first.
    ///
    /// The errors are:
    ///
    /// * `Capture(e)` with the fault of the first bad row, or of the header; of the kind `Read` where the reader fails or is
    ///   interrupted at row `e.row`. All records before that row were judged or passed over.
    /// * `OutOfMemory` where a growth of memory is refused.
    ///
    /// Nothing may be asked for after an error. After the end it answers the end again.
    #[inline(always)] // else each event would be handed on through memory
    pub fn next(&mut self) -> Result<Event, JudgeError>
        requires { CanGoOn self.old.stage self.old.feed }
        ensures told { (scope : AScope) (profile : AProfile) (rows : Option Rows) (h : History) → Stands scope profile rows h self.old
            → Next scope profile rows h result self.new }
        ensures ready { OnOk result (CanGoOn self.new.stage self.new.feed) }
        ensures shows { result ≡ Ok AnEvent.Exchange → ShowsExchange self.new.feed }
        ensures broke { (b : ABreak) → result ≡ Ok (AnEvent.Break b) → self.new.stage ≡ AStage.Broken b }
        ensures closer { IfOk result (λ e. (e ≡ AnEvent.End) ⊎ (left_of self.new < left_of self.old)) }
        ensures ended { self.old.stage ≡ AStage.Ended → (result ≡ Ok AnEvent.End) × (self.new ≡ self.old) }
        ensures over { (b : ABreak) → self.old.scope.extent ≡ AnExtent.FirstBreak → self.old.stage ≡ AStage.Broken b
            → (result ≡ Ok AnEvent.End) × (self.new ≡ self.old) }
        ensures same { (self.new.scope ≡ self.old.scope) × (self.new.profile.now ≡ self.old.profile.now) }
    {
        match self.stage {
            Stage::Going => {
                let came = self.feed.next();
                self.tell(came)
            }
            Stage::Fresh => {
                let came = self.feed.first(self.scope.beginning);
                self.tell(came)
            }
            Stage::LateTold(broken) => Ok(self.mark_break(broken)),
            Stage::Broken(broken) => match self.scope.extent {
                Extent::FirstBreak => Ok(Event::End),
                Extent::WholeCapture => {
                    let (alloc, extent) = (self.alloc, Extent::WholeCapture);
                    let came = self.feed.take_up(alloc, extent, self.profile, broken);
                    self.tell(came)
                }
            },
            Stage::Ended => Ok(Event::End),
        }
    }

    /// What is told of what the feed came to: the judging is marked with an event, and an error is handed on.
    #[inline(always)] // it is done with every exchange
    fn tell(&mut self, came: Result<Event, JudgeError>) -> Result<Event, JudgeError>
        requires shows { came ≡ Ok AnEvent.Exchange → ShowsExchange self.old.feed }
        ensures { IsToldOf self.old came result self.new }
    {
        match came {
            Ok(event) => Ok(self.mark(event)),
            Err(error) => Err(error),
        }
    }

    /// Marks where the judging stands, and counts, with what the feed came to; the event that is told of it.
    #[inline(always)] // it is done with every exchange
    fn mark(&mut self, event: Event) -> Event
        requires shows { event ≡ AnEvent.Exchange → ShowsExchange self.old.feed }
        ensures { IsMarked self.old event result self.new }
    {
        match event {
            Event::Exchange => {
                let records = self.feed.follower.exchange().records();
                self.counts.exchanges = self.counts.exchanges.saturating_add(1);
                self.counts.records = self.counts.records.saturating_add(records as u32);
                self.stage = Stage::Going;
            }
            Event::LateReply(_) => {
                self.counts.breaks = self.counts.breaks.saturating_add(1);
                self.stage = Stage::Going;
            }
            Event::Break(broken) => return self.mark_first(broken),
            Event::End => self.stage = Stage::Ended,
        }
        event
    }

    /// The same with a record that breaks a rule: the late reply comes first that it may begin besides.
    fn mark_first(&mut self, broken: Break) -> Event
        ensures { IsMarked self.old (AnEvent.Break broken) result self.new }
    {
        if late_besides(self.scope.extent, broken) {
            self.counts.breaks = self.counts.breaks.saturating_add(1);
            self.stage = Stage::LateTold(broken);
            return Event::LateReply(broken.record);
        }
        self.mark_break(broken)
    }

    /// The same with the break itself.
    fn mark_break(&mut self, broken: Break) -> Event
        ensures told { (result ≡ AnEvent.Break broken) × (self.new.stage ≡ AStage.Broken broken) }
        ensures breaks { GrowsBy (2 ^ 64) 1 self.old.counts.breaks self.new.counts.breaks }
        ensures counts { (self.new.counts.exchanges ≡ self.old.counts.exchanges) × (self.new.counts.records ≡ self.old.counts.records) }
        ensures same { (self.new.feed ≡ self.old.feed) × (self.new.scope ≡ self.old.scope) × (self.new.profile ≡ self.old.profile) }
    {
        self.counts.breaks = self.counts.breaks.saturating_add(1);
        self.stage = Stage::Broken(broken);
        Event::Break(broken)
    }

    /// The number of the record that was read last, counted from 1: at an exchange its last one, at a late reply its first one, at a
    /// break the one that breaks a rule. 0 before the first.
    pub fn at(&self) -> u32
        ensures { result ≡ self.now.feed.rows.given }
    {
        self.feed.rows.given()
    }

    /// The time of that record in microseconds, if it was judged.
    pub fn time_us(&self) -> Option<u64>
        ensures { result ≡ self.now.feed.follower.pairer.last_time }
    {
        self.feed.follower.pairer.last_time()
    }

    /// The exchange, at an exchange.
    #[inline(always)]
    pub fn exchange(&self) -> &Exchange
        requires { ShowsExchange self.now.feed }
        ensures { self.now.feed.follower.pairer.exchange ≡ Some result.now }
    {
        self.feed.follower.exchange()
    }

    /// What is known of the deck after the exchange, at an exchange. Takes no memory.
    #[inline(always)] // else it is handed on through memory
    pub fn knowledge(&self) -> Knowledge
        requires { ShowsExchange self.now.feed }
        ensures { IsKnowledge (Possible self.now.feed.follower.tracker.states) result }
    {
        self.feed.follower.tracker.knowledge()
    }

    /// What the deck may do by itself from here on: after the exchange, at an exchange. Takes no memory.
    #[inline(always)]
    pub fn going(&self) -> Going
        ensures { result ≡ self.now.feed.follower.tracker.going }
    {
        self.feed.follower.tracker.going()
    }

    /// The modes that the deck may show after the exchange, at an exchange. Takes no memory.
    pub fn shown(&self) -> ModeSet
        ensures ten { result.0 < 2 ^ 10 }
        ensures modes { (m : AMode) → (has result.0 m ≡ true) ↔ ((s : AState) × Possible self.now.feed.follower.tracker.states s × (s.shown ≡ m)) }
    {
        self.feed.follower.tracker.shown()
    }

    /// The records that are open on the line: those since the last complete exchange. At a break those before the record that
    /// breaks a rule, and none where no run remains.
    pub fn tail(&self) -> &[LineByte]
        ensures { result.now ≡ self.now.feed.follower.pairer.tail }
    {
        self.feed.follower.pairer.tail()
    }

    /// What these records are.
    pub fn open(&self) -> Open
        ensures { IsOpenAfter self.now.feed.follower.pairer.rules self.now.feed.follower.pairer.tail result }
    {
        self.feed.follower.pairer.open()
    }

    /// What was counted so far: the breaks and late replies that were told, the records that were read, the exchanges that were
    /// told, and the records that are open. The others count as passed over: those before a part, and those of a part that broke
    /// which are in no exchange.
    pub fn totals(&self) -> Totals
        ensures { result ≡ totals_of self.now }
    {
        let records = self.feed.rows.given();
        let tail = self.feed.follower.pairer.tail_len() as u32;
        Totals {
            breaks: self.counts.breaks,
            records,
            exchanges: self.counts.exchanges,
            passed_over: records
                .saturating_sub(self.counts.records)
                .saturating_sub(tail),
            tail,
        }
    }

    /// The record at which the last part broke, where no other was begun since.
    pub fn broken(&self) -> Option<Break>
        ensures { (b : ABreak) → (result ≡ Some b) ↔ (self.now.stage ≡ AStage.Broken b) }
    {
        match self.stage {
            Stage::Broken(broken) => Some(broken),
            _ => None,
        }
    }

    /// The verdict, of a judging up to the first break that has ended.
    pub fn verdict(&self) -> Verdict
        ensures { result ≡ verdict_of self.now }
    {
        let totals = self.totals();
        match self.broken() {
            Some(broken) => Verdict::No {
                at: totals.records,
                reason: broken.reason,
            },
            None => Verdict::Yes {
                records: totals.records.saturating_sub(totals.passed_over),
                exchanges: totals.exchanges,
                tail: totals.tail,
            },
        }
    }
}

/// Whether a late reply is told of a record that breaks a rule, besides its break: where the reply limit is left aside, and the record
/// begins one.
fn late_besides(extent: Extent, broken: Break) -> bool
    ensures { result ≡ late_besides extent broken }
{
    match extent {
        Extent::FirstBreak => false,
        Extent::WholeCapture => broken.late,
    }
}
