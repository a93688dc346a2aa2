//! A set of times of the day, however it is kept.

ghost use Rattle.std.specs.Prelude.{◌≡◌, ◌↔◌, ◌<◌, ℕ, true, IsTrue, IfOk, OnOk, OnErr, MatchOption, Some};
ghost use Rattle.std.specs.FinSet as set;
ghost use Rattle.tc25.specs.Day.{day, next_frame, prev_frame};
ghost use Rattle.tc25.specs.declared.rate.Rate.{Rate as ARate};
ghost use Rattle.sets25.specs.Times.{Times, every_time, just, just_of, image, IsLeast, with_time};

use std::alloc::{AllocError, Global};
use tc25::{Rate, TimeCode};

/// A set of times of the day.
///
/// A contract sees it as the finite set of its members, `members`, and the rate, `own_rate`, at which they are counted. Each
/// member is a time of that rate's day, and adding a time outside the day changes nothing. Each call has one contract for every
/// implementation: the set operation that it names. A call that may need memory answers an `AllocError` where memory was
/// refused, and its set is then as it was before.
pub trait TimeSet: Drop + Sized {
    /// The members, as frame numbers.
    ghost members: { Self → Times };

    /// The rate whose times the members are.
    ghost own_rate: { Self → ARate };

    /// The empty set, of times of a rate. Takes no memory.
    fn none_at(alloc: Global, rate: Rate) -> Self
        ensures members { members result ≡ set.empty }
        ensures rate { own_rate result ≡ rate };

    /// Every time of a rate's day.
    fn all_at(alloc: Global, rate: Rate) -> Result<Self, AllocError>
        ensures members { IfOk result (λ s. members s ≡ every_time rate) }
        ensures rate { IfOk result (λ s. own_rate s ≡ rate) };

    /// The set of one time, or the empty set where the time is outside the rate's day.
    fn one_at(alloc: Global, rate: Rate, time: TimeCode) -> Result<Self, AllocError>
        ensures members { IfOk result (λ s. members s ≡ just_of rate time) }
        ensures rate { IfOk result (λ s. own_rate s ≡ rate) };

    /// [`TimeSet::none_at`] at 25 frames a second. Takes no memory.
    fn none(alloc: Global) -> Self
        ensures members { members result ≡ set.empty }
        ensures rate { own_rate result ≡ Rate.Fps25 }
    {
        Self::none_at(alloc, Rate::Fps25)
    }

    /// [`TimeSet::all_at`] at 25 frames a second.
    fn all(alloc: Global) -> Result<Self, AllocError>
        ensures members { IfOk result (λ s. members s ≡ every_time Rate.Fps25) }
        ensures rate { IfOk result (λ s. own_rate s ≡ Rate.Fps25) }
    {
        Self::all_at(alloc, Rate::Fps25)
    }

    /// [`TimeSet::one_at`] at 25 frames a second.
    fn one(alloc: Global, time: TimeCode) -> Result<Self, AllocError>
        ensures members { IfOk result (λ s. members s ≡ just_of Rate.Fps25 time) }
        ensures rate { IfOk result (λ s. own_rate s ≡ Rate.Fps25) }
    {
        Self::one_at(alloc, Rate::Fps25, time)
    }

    /// The rate whose times the members are. Takes no memory.
    fn rate(&self) -> Rate
        ensures { result ≡ own_rate self.now };

    /// Whether a time is a member. Takes no memory.
    fn contains(&self, time: TimeCode) -> bool
        ensures { result ≡ set.contains (members self.now) time };

    /// Whether there is no member. Takes no memory.
    fn is_empty(&self) -> bool
        ensures { IsTrue result ↔ (members self.now ≡ set.empty) };

    /// The member, where there is exactly one. Takes no memory.
    fn only(&self) -> Option<TimeCode>
        ensures { (t : ℕ) → (result ≡ Some t) ↔ (members self.now ≡ just t) };

    /// The earliest member, or `None` of the empty set. Takes no memory.
    fn least(&self) -> Option<TimeCode>
        ensures { MatchOption result (members self.now ≡ set.empty) (IsLeast (members self.now)) };

    /// Each member becomes the next frame, round the day.
    fn shift_next(&mut self) -> Result<(), AllocError>
        ensures ok { OnOk result (members self.new ≡ image (next_frame (own_rate self.old)) (members self.old)) }
        ensures err { OnErr result (members self.new ≡ members self.old) }
        ensures rate { own_rate self.new ≡ own_rate self.old };

    /// Each member becomes the frame before, round the day.
    fn shift_prev(&mut self) -> Result<(), AllocError>
        ensures ok { OnOk result (members self.new ≡ image (prev_frame (own_rate self.old)) (members self.old)) }
        ensures err { OnErr result (members self.new ≡ members self.old) }
        ensures rate { own_rate self.new ≡ own_rate self.old };

    /// Adds the next frame of each member, round the day.
    fn widen_next(&mut self) -> Result<(), AllocError>
        ensures ok { OnOk result (members self.new ≡ set.union (members self.old) (image (next_frame (own_rate self.old)) (members self.old))) }
        ensures err { OnErr result (members self.new ≡ members self.old) }
        ensures rate { own_rate self.new ≡ own_rate self.old };

    /// Adds the frame before each member, round the day.
    fn widen_prev(&mut self) -> Result<(), AllocError>
        ensures ok { OnOk result (members self.new ≡ set.union (members self.old) (image (prev_frame (own_rate self.old)) (members self.old))) }
        ensures err { OnErr result (members self.new ≡ members self.old) }
        ensures rate { own_rate self.new ≡ own_rate self.old };

    /// Adds a time. One outside the day changes nothing.
    fn add(&mut self, time: TimeCode) -> Result<(), AllocError>
        ensures ok { OnOk result (members self.new ≡ with_time (own_rate self.old) (members self.old) time) }
        ensures err { OnErr result (members self.new ≡ members self.old) }
        ensures rate { own_rate self.new ≡ own_rate self.old };

    /// Keeps what the set has in common with one time: that time alone, or nothing.
    fn keep_only(&mut self, time: TimeCode) -> Result<(), AllocError>
        ensures ok { OnOk result (members self.new ≡ set.intersection (members self.old) (just time)) }
        ensures err { OnErr result (members self.new ≡ members self.old) }
        ensures rate { own_rate self.new ≡ own_rate self.old };

    /// An equal set.
    fn copy(&self) -> Result<Self, AllocError>
        ensures members { IfOk result (λ s. members s ≡ members self.now) }
        ensures rate { IfOk result (λ s. own_rate s ≡ own_rate self.now) };

    /// Each member is a time of the day.
    ghost below_day: { (s : Self) (t : ℕ) → set.contains (members s) t ≡ true → t < day (own_rate s) };
}
