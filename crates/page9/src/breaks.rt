//! The section of the breaks: which reasons there are and what they mean, and each break with the lines of `why` and its picture.

mod contradiction;
mod disputed;
mod listed;
mod outside;
mod reasons;
mod section;
mod sentences;
mod why;

use crate::html::BreakId;
use block9::Reason;
use capture9::LineByte;
use contradiction::put_list;
use deck9::Profile;
use listed::Listed;
pub(crate) use outside::Outside;
use picture9::BreakPictures;
pub(crate) use reasons::ReasonCount;
use reasons::Reasons;
use report9::{Beginning, WhyNo};
use seen9::SeenBreak;
pub(crate) use sentences::asked_at;
use sentences::put_sentence;
use std::alloc::{AllocError, Global};
use text9::{Done, Markup};
use view9::BreakRun;
use why::put_why;

/// How many breaks are listed at most: the first.
const MOST_LISTED: usize = 1_000;

/// How many bytes they may take: a break is listed while those before it take fewer. So the page stays small.
const MOST_BYTES: usize = 1_500_000;

/// How many replies of one contradiction are listed before the last.
const MOST_REPLIES: usize = 200;

/// How many are once those of the breaks before take many bytes.
const FEWER_REPLIES: usize = 10;

/// How many bytes are many.
const MANY_BYTES: usize = 750_000;

/// The first break or late reply of a capture, as the head of the page tells it.
#[derive(Clone, Copy)]
pub(crate) struct FirstBreak<'b> {
    pub(crate) id: BreakId,
    /// The number of the record.
    pub(crate) at: u32,
    /// Its time, in microseconds.
    pub(crate) time_us: u64,
    pub(crate) reason: Reason,
    /// What happened, as HTML.
    pub(crate) sentence: &'b Markup,
}

/// The breaks and late replies of a capture, of those that are listed with what is told of them. Equal breaks in a row are one entry
/// of the list.
#[derive(Drop)]
pub(crate) struct Breaks<'a> {
    alloc: Global,
    profile: &'a Profile,
    reasons: Reasons<'a>,
    listed: Vec<Listed>,
    /// How many breaks and late replies are shown.
    count: u64,
    outside: Outside,
    /// How many of them are in no entry.
    unlisted: u64,
    /// The last ones that came, as far as they are equal.
    run: Option<BreakRun>,
    /// Whether no exchange came since.
    is_in_a_row: bool,
    /// Whether it is in an entry.
    is_last_listed: bool,
    /// How many bytes the entries take.
    bytes: usize,
    /// The times of those of the last break.
    times: Vec<u64>,
    pictures: BreakPictures<'a>,
}

impl<'a> Breaks<'a> {
    /// Of no break, of a capture whose first part begins so.
    pub(crate) fn new(alloc: Global, profile: &'a Profile, beginning: Beginning) -> Breaks<'a> {
        Breaks {
            alloc,
            profile,
            reasons: Reasons::new(alloc),
            listed: Vec::new(alloc),
            count: 0,
            outside: Outside::NONE,
            unlisted: 0,
            run: None,
            is_in_a_row: false,
            is_last_listed: false,
            bytes: 0,
            times: Vec::new(alloc),
            pictures: BreakPictures::new(alloc, profile, beginning),
        }
    }

    /// Takes the break or the late reply that comes next, and why it came: under which place of the page it is listed, where it is.
    pub(crate) fn take(
        &mut self,
        why: WhyNo,
        broken: &SeenBreak,
    ) -> Result<Option<BreakId>, AllocError> {
        self.count = self.count.saturating_add(1);
        self.times.clear();
        self.reasons
            .count(broken.reason, asked_at(self.profile, &why))?;
        let is_second = match &self.run {
            Some(run) => run.last_at == broken.at,
            None => false,
        };
        let id = BreakId {
            at: broken.at,
            is_second,
        };
        if self.is_equal(broken) {
            self.pictures.pass(broken.at, broken.reason);
            return Ok(self.join());
        }
        self.run = Some(BreakRun::new(broken));
        self.is_in_a_row = true;
        self.pictures.ask(broken.at, broken.reason)?;
        self.is_last_listed = self.listed.len() < MOST_LISTED && self.bytes < MOST_BYTES;
        if !self.is_last_listed {
            self.unlisted = self.unlisted.saturating_add(1);
            return Ok(None);
        }
        self.list(&why, broken, id)?;
        Ok(Some(id))
    }

    /// Takes a break or a late reply that is not shown.
    pub(crate) fn pass(&mut self, broken: &SeenBreak) {
        self.is_in_a_row = false;
        self.outside.take(broken);
        self.pictures.pass(broken.at, broken.reason);
    }

    /// Takes an exchange: the break that comes next follows none in a row.
    pub(crate) fn exchange(&mut self) {
        self.is_in_a_row = false;
    }

    /// Takes the next record of the capture, in the second reading.
    pub(crate) fn record(&mut self, number: u32, record: LineByte) -> Done {
        self.pictures.take(number, record)
    }

    /// Takes the end of the capture, in the second reading.
    pub(crate) fn end_records(&mut self) -> Done {
        self.pictures.end()
    }

    /// Whether a break is equal to the last ones, and follows them in a row: then it is one of them. Late replies are each told by
    /// themselves.
    fn is_equal(&mut self, next: &SeenBreak) -> bool {
        match &mut self.run {
            Some(run) if self.is_in_a_row && next.reason != Reason::LateReply => run.take(next),
            _ => false,
        }
    }

    /// Joins the break that came last to the last entry, where the breaks before it in its row are there: where that is listed.
    fn join(&mut self) -> Option<BreakId> {
        if !self.is_last_listed {
            self.unlisted = self.unlisted.saturating_add(1);
            return None;
        }
        let entry = self.listed.as_mut_slice().last_mut()?;
        entry.run = self.run?;
        Some(entry.id)
    }

    /// Lists a break.
    fn list(&mut self, why: &WhyNo, broken: &SeenBreak, id: BreakId) -> Done {
        let most = if self.bytes < MANY_BYTES {
            MOST_REPLIES
        } else {
            FEWER_REPLIES
        };
        let mut entry = Listed::new(self.alloc, id, broken);
        let time_us = broken.time_us;
        put_sentence(&mut entry.sentence, self.profile, why, time_us)?;
        put_why(&mut entry.why, self.profile, why, most)?;
        put_list(&mut entry.replies, &mut self.times, self.profile, why, most)?;
        self.bytes = self.bytes.saturating_add(entry.len());
        Ok(self.listed.push(entry)?)
    }

    /// How many breaks and late replies are shown.
    pub(crate) fn count(&self) -> u64 {
        self.count
    }

    /// Those that are not.
    pub(crate) fn outside(&self) -> Outside {
        self.outside
    }

    /// The reasons with their counts, the most frequent first.
    pub(crate) fn reasons(&self) -> Result<Vec<ReasonCount>, AllocError> {
        self.reasons.ordered()
    }

    /// The first break or late reply that is shown.
    pub(crate) fn first(&self) -> Option<FirstBreak<'_>> {
        let first = self.listed.first()?;
        let broken = &first.run.first;
        Some(FirstBreak {
            id: first.id,
            at: broken.at,
            time_us: broken.time_us,
            reason: broken.reason,
            sentence: &first.sentence,
        })
    }

    /// The times of the replies that contradict one another at the last break that was taken, in microseconds: those that are listed,
    /// and none where it is another break.
    pub(crate) fn contradiction_times(&self) -> &[u64] {
        self.times.as_slice()
    }
}
