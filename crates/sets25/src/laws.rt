//! Laws of the definitions: each function does nothing, and its contract is the law.

ghost use Rattle.std.specs.FinSet as set;
ghost use Rattle.std.specs.Prelude.{◌≡◌, ◌↔◌, ℕ, ◌+◌, ◌/◌, ◌≤◌, ◌==◌, ◌&&◌, nat_lt, true};
ghost use Rattle.tc25.specs.Day.{day, next_frame, prev_frame};
ghost use Rattle.tc25.specs.declared.rate.Rate.{Rate};
ghost use Rattle.sets25.specs.Times.{Times, BelowDay, every_time, just, image, span_count, begin_count};

/// The members of the sets that the calls of a `TimeSet` name, one time at a time.
pub fn memberships()
    ensures every_time { (rate : Rate) (f : ℕ) → set.contains (every_time rate) f ≡ nat_lt f (day rate) }
    ensures just { (t f : ℕ) → set.contains (just t) f ≡ (f == t) }
    ensures image { (h : ℕ → ℕ) (s : Times) (f : ℕ) → (set.contains (image h s) f ≡ true) ↔ ((g : ℕ) × (set.contains s g ≡ true) × (f ≡ h g)) }
    ensures next { (rate : Rate) (s : Times) (f : ℕ) → BelowDay rate s → set.contains (image (next_frame rate) s) f ≡ (nat_lt f (day rate) && set.contains s (prev_frame rate f)) }
    ensures prev { (rate : Rate) (s : Times) (f : ℕ) → BelowDay rate s → set.contains (image (prev_frame rate) s) f ≡ (nat_lt f (day rate) && set.contains s (next_frame rate f)) }
{}

/// How many spans a set of times has, over all sets of times of the day.
///
/// A time begins a set where it is a member and the time before, round the day, is not. A shift
/// keeps the number of these, a widening does not raise it, and a time that is added raises it by
/// one at most. A set has as many spans or one more, and no set has more than half as many as its day has frames.
pub fn span_counts()
    ensures shift_next { (rate : Rate) (s : Times) → BelowDay rate s → begin_count rate (image (next_frame rate) s) ≡ begin_count rate s }
    ensures shift_prev { (rate : Rate) (s : Times) → BelowDay rate s → begin_count rate (image (prev_frame rate) s) ≡ begin_count rate s }
    ensures widen_next { (rate : Rate) (s : Times) → BelowDay rate s → begin_count rate (set.union s (image (next_frame rate) s)) ≤ begin_count rate s }
    ensures widen_prev { (rate : Rate) (s : Times) → BelowDay rate s → begin_count rate (set.union s (image (prev_frame rate) s)) ≤ begin_count rate s }
    ensures add { (rate : Rate) (s : Times) (t : ℕ) → begin_count rate (set.insert s t) ≤ begin_count rate s + 1 }
    ensures keep_only { (rate : Rate) (s : Times) (t : ℕ) → begin_count rate (set.intersection s (just t)) ≤ 1 }
    ensures none { (rate : Rate) → begin_count rate set.empty ≡ 0 }
    ensures all { (rate : Rate) → begin_count rate (every_time rate) ≡ 0 }
    ensures one { (rate : Rate) (t : ℕ) → begin_count rate (just t) ≤ 1 }
    ensures spans { (rate : Rate) (s : Times) → span_count s ≤ begin_count rate s + 1 }
    ensures begins { (rate : Rate) (s : Times) → begin_count rate s ≤ span_count s }
    ensures greatest { (rate : Rate) (s : Times) → BelowDay rate s → span_count s ≤ day rate / 2 }
{}
