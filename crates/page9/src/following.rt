//! What the page takes of each event of the judging.

use crate::bins::LateDot;
use crate::breaks::{Breaks, asked_at};
use crate::delay_table::DelayTable;
use crate::happened::Happened;
use crate::look::Look;
use crate::session::Session;
use crate::shown::Shown;
use crate::span::Window;
use crate::touches::Touches;
use block9::Reason;
use deck9::Profile;
use report9::{JudgeError, Totals, WhyNo};
use seen9::{Ending, ExplainedView, MoveSearch, SeenBreak, SeenExchange, View, ViewOf};
use std::alloc::Global;
use text9::Done;
use view9::Strength;

/// What the sections of the page have so far.
#[derive(Drop)]
pub(crate) struct Following<'a, S: MoveSearch> {
    pub(crate) profile: &'a Profile,
    pub(crate) session: Session,
    pub(crate) breaks: Breaks<'a>,
    pub(crate) happened: Happened<'a>,
    pub(crate) delays: DelayTable<'a>,
    pub(crate) look: Look<'a>,
    pub(crate) touches: Touches<'a, S>,
    pub(crate) strength: Strength<'a>,
    pub(crate) totals: Totals,
    /// Why the break came that is told next.
    why: Option<WhyNo>,
}

/// Before anything was counted.
const NOTHING: Totals = Totals {
    breaks: 0,
    records: 0,
    exchanges: 0,
    passed_over: 0,
    tail: 0,
};

impl<'a, S: MoveSearch> Following<'a, S> {
    /// Of nothing yet, of what is shown in this window.
    pub(crate) fn new(
        alloc: Global,
        window: Window,
        of: ViewOf<'a>,
        search: &'a S,
    ) -> Following<'a, S> {
        let profile = of.profile;
        Following {
            profile,
            session: Session::new(alloc, window, Shown::of(of.stretch), profile),
            breaks: Breaks::new(alloc, profile, of.scope.beginning),
            happened: Happened::new(alloc, profile),
            delays: DelayTable::new(alloc, profile),
            look: Look::new(alloc, profile),
            touches: Touches::new(alloc, window, of.stretch, profile, search),
            strength: Strength::new(alloc, profile),
            totals: NOTHING,
            why: None,
        }
    }

    /// Takes the end of the capture, whose last record came at this time, in microseconds.
    pub(crate) fn end_capture(&mut self, last_us: u64) -> Done {
        self.session.end_part(last_us);
        self.touches.end_part()?;
        self.look.end_part()
    }

    /// Takes a break or a late reply that is shown.
    fn take_break(&mut self, broken: &SeenBreak) -> Done {
        let Some(why) = self.why.take() else {
            return Ok(());
        };
        let id = self.breaks.take(why, broken)?;
        let (at, time_us, reason) = (broken.at, broken.time_us, broken.reason);
        self.session.marks.take(reason, time_us, at, id);
        if reason == Reason::NoRun {
            let replies_us = self.breaks.contradiction_times();
            self.session.marks.take_contradiction(replies_us, time_us);
        }
        if let Some(delay_us) = broken.delay_us {
            self.session.late(LateDot {
                delay_us,
                time_us,
                at,
                id,
            });
        }
        self.happened.broken(broken, id)
    }
}

impl<S: MoveSearch> ExplainedView for Following<'_, S> {
    fn why(&mut self, why: WhyNo, _is_shown: bool) -> Result<(), JudgeError> {
        self.why = Some(why);
        Ok(())
    }
}

impl<S: MoveSearch> View for Following<'_, S> {
    fn exchange(&mut self, seen: &SeenExchange<'_>) -> Result<(), JudgeError> {
        self.session.exchange(seen);
        self.breaks.exchange();
        self.happened.exchange(seen)?;
        self.look.exchange(seen)?;
        self.touches.exchange(seen)?;
        if seen.is_shown {
            self.delays.exchange(seen)?;
            self.strength.count(seen)?;
        }
        Ok(())
    }

    fn late(&mut self, late: &SeenBreak) -> Result<(), JudgeError> {
        if !late.is_shown {
            self.breaks.pass(late);
            return Ok(());
        }
        if let (Some(why), Some(delay_us)) = (&self.why, late.delay_us) {
            let asked = asked_at(self.profile, why);
            self.delays.late(asked, delay_us)?;
        }
        Ok(self.take_break(late)?)
    }

    fn broken(&mut self, broken: &SeenBreak) -> Result<(), JudgeError> {
        self.session.end_part(broken.time_us);
        self.look.end_part()?;
        self.touches.end_part()?;
        if broken.is_shown {
            return Ok(self.take_break(broken)?);
        }
        self.breaks.pass(broken);
        self.happened.forget();
        Ok(())
    }

    fn end(&mut self, ending: &Ending) -> Result<(), JudgeError> {
        if let Ending::Totals(totals) = ending {
            self.totals = *totals;
        }
        Ok(())
    }
}
