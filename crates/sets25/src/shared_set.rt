//! A set of times that shares with its copies what they have in common.

ghost use Rattle.std.specs.FinSet as set;
ghost use Rattle.std.specs.Prelude.{◌≡◌, ◌↔◌, ℕ, MatchOption, Some};
ghost use Rattle.sets25.specs.Times.{Times, IsLeast};
ghost use Rattle.sets25.specs.SharedDay.{SharesDay, SharesDay-prop};

use crate::span_set::SpanSet;
use crate::time_set::TimeSet;
use std::alloc::{AllocError, Global};
use std::rc::Rc;
use tc25::{Rate, TimeCode};

/// A copy keeps the base of a set that has at most so many spans beside it. Else it gets a new base, which has all
/// members.
const MOST_COPIED: usize = 512;

/// A set of times as a base, which it shares with its copies, and what it has besides.
///
/// A copy costs little where few times were added since the base was made. Where there are many, or there is
/// no base yet, the copy gets a new base, and the set itself stays as it is. So a caller that copies often changes
/// the copy, whose next copy is cheap, and leaves the set itself as it is.
#[derive(Drop)]
pub struct SharedSet {
    base: Option<Rc<SpanSet, Global>>,
    own: SpanSet,
    ghost same_day: { SharesDay own.rate base } by { SharesDay-prop own.rate base },
}

impl SharedSet {
    ghost use Rattle.std.specs.Prelude.{◌≡◌, IfOk, OnOk, None};
    ghost use Rattle.std.specs.FinSet as set;
    ghost use Rattle.sets25.specs.SharedSet.{members_of, shared_members};
    ghost use Rattle.sets25.specs.SpanSet as spans;

    /// The set of these members, with no base.
    fn alone(own: SpanSet) -> SharedSet
        ensures base { result.base ≡ None }
        ensures rate { result.own.rate ≡ own.rate }
        ensures members { members_of result ≡ spans.members_of own }
    {
        SharedSet { base: None, own }
    }

    /// Whether a time is a member of the base.
    fn shares(&self, time: TimeCode) -> bool
        ensures { result ≡ set.contains (shared_members self.now.base) time }
    {
        match &self.base {
            Some(base) => base.contains(time),
            None => false,
        }
    }

    /// How many spans beside the base a copy takes over at most. It gets a new base where there are more.
    fn most_copied(&self) -> usize {
        match self.base {
            Some(_) => MOST_COPIED,
            None => 0,
        }
    }

    /// All members in one set of spans.
    fn gathered(&self) -> Result<SpanSet, AllocError>
        ensures members { IfOk result (λ s. spans.members_of s ≡ members_of self.now) }
        ensures rate { IfOk result (λ s. s.rate ≡ self.now.own.rate) }
    {
        let Some(base) = &self.base else {
            return self.own.copy();
        };
        base.copy()?.with_all(&self.own)
    }

    /// Takes the members of the base over, and lets the base go.
    fn gather(&mut self) -> Result<(), AllocError>
        ensures same { members_of self.new ≡ members_of self.old }
        ensures rate { self.new.own.rate ≡ self.old.own.rate }
        ensures alone { OnOk result (self.new.base ≡ None) }
    {
        if self.base.is_some() {
            *self = SharedSet::alone(self.gathered()?);
        }
        Ok(())
    }
}

impl TimeSet for SharedSet {
    ghost use Rattle.std.specs.Prelude.{◌≡◌, ◌<◌, ℕ, true};
    ghost use Rattle.std.specs.FinSet as set;
    ghost use Rattle.tc25.specs.Day.{day};
    ghost use Rattle.sets25.specs.SharedSet.{members_of};
    ghost use Rattle.sets25.specs.Working.SharedSets.{shared_set_below};

    ghost members = { members_of };

    ghost own_rate = { λ s. s.own.rate };

    fn none_at(alloc: Global, rate: Rate) -> Self {
        SharedSet::alone(SpanSet::none_at(alloc, rate))
    }

    fn all_at(alloc: Global, rate: Rate) -> Result<Self, AllocError> {
        Ok(SharedSet::alone(SpanSet::all_at(alloc, rate)?))
    }

    fn one_at(alloc: Global, rate: Rate, time: TimeCode) -> Result<Self, AllocError> {
        Ok(SharedSet::alone(SpanSet::one_at(alloc, rate, time)?))
    }

    fn rate(&self) -> Rate {
        self.own.rate()
    }

    fn contains(&self, time: TimeCode) -> bool {
        self.shares(time) || self.own.contains(time)
    }

    fn is_empty(&self) -> bool {
        match &self.base {
            Some(base) => base.is_empty() && self.own.is_empty(),
            None => self.own.is_empty(),
        }
    }

    fn only(&self) -> Option<TimeCode> {
        let Some(base) = &self.base else {
            return self.own.only();
        };
        if base.is_empty() {
            return self.own.only();
        }
        if self.own.is_empty() {
            return base.only();
        }
        common(base.only(), self.own.only())
    }

    fn least(&self) -> Option<TimeCode> {
        match &self.base {
            Some(base) => earlier(base.least(), self.own.least()),
            None => self.own.least(),
        }
    }

    fn shift_next(&mut self) -> Result<(), AllocError> {
        self.gather()?;
        self.own.shift_next()
    }

    fn shift_prev(&mut self) -> Result<(), AllocError> {
        self.gather()?;
        self.own.shift_prev()
    }

    fn widen_next(&mut self) -> Result<(), AllocError> {
        self.gather()?;
        self.own.widen_next()
    }

    fn widen_prev(&mut self) -> Result<(), AllocError> {
        self.gather()?;
        self.own.widen_prev()
    }

    fn add(&mut self, time: TimeCode) -> Result<(), AllocError> {
        if self.shares(time) {
            return Ok(());
        }
        self.own.add(time)
    }

    fn keep_only(&mut self, time: TimeCode) -> Result<(), AllocError> {
        let alloc = self.own.allocator();
        let rate = self.own.rate();
        *self = if self.contains(time) {
            SharedSet::one_at(alloc, rate, time)?
        } else {
            SharedSet::none_at(alloc, rate)
        };
        Ok(())
    }

    fn copy(&self) -> Result<Self, AllocError> {
        let alloc = self.own.allocator();
        if self.own.spans() > self.most_copied() {
            let Ok(base) = Rc::new(alloc, self.gathered()?) else {
                return Err(AllocError);
            };
            return Ok(SharedSet {
                base: Some(base),
                own: SpanSet::none_at(alloc, self.own.rate()),
            });
        }
        let base = match &self.base {
            Some(base) => Some(base.clone()?),
            None => None,
        };
        Ok(SharedSet {
            base,
            own: self.own.copy()?,
        })
    }

    ghost below_day = { shared_set_below };
}

/// The time that both are, if they are the same.
fn common(first: Option<TimeCode>, second: Option<TimeCode>) -> Option<TimeCode>
    ensures { (t : ℕ) → (result ≡ Some t) ↔ ((first ≡ Some t) × (second ≡ Some t)) }
{
    if first == second { first } else { None }
}

/// The least member of two sets together, from that of each.
fn earlier(first: Option<TimeCode>, second: Option<TimeCode>) -> Option<TimeCode>
    ensures { (s t : Times) → MatchOption first (s ≡ set.empty) (IsLeast s) → MatchOption second (t ≡ set.empty) (IsLeast t) → MatchOption result (set.union s t ≡ set.empty) (IsLeast (set.union s t)) }
{
    let Some(first) = first else {
        return second;
    };
    let Some(second) = second else {
        return Some(first);
    };
    Some(first.min(second))
}
