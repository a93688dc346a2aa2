//! Sets of entries of one register.
ghost use Rattle.std.specs.Prelude.{◌≡◌, ◌↔◌, IfNone, IfOk, IfSome, IsTrue, OnErr, OnOk, Some, true, ℕ};
ghost use Rattle.sets25.specs.Times.{BelowDay, just, span_count};
ghost use Rattle.track9.specs.Tracker.{Allows};
ghost use Rattle.track9.specs.Working.Pattern.{Is};
ghost use Rattle.track9.specs.Working.Knowing.{KnowsOf};
ghost use Rattle.track9.specs.Working.Starts.{entries_known};
ghost use Rattle.track9.specs.Working.Entries.{agreeing, all_entries, changed, lost_entries, no_entries, set_entries, some_entry, widened};
ghost use Rattle.track9.specs.Working.Touched.{touched_entries};
ghost use Rattle.deck9.specs.declared.state.Entry.{Entry as AEntry};

use deck9::{Change, Entry, KnownEntry};
use sets25::{SpanSet, TimeSet};
use std::alloc::{AllocError, Global};
use std::marker::Model;
use tc25::{Rate, TimeCode};

/// The entries that a register may have.
#[derive(Drop)]
pub(crate) struct Entries<S: TimeSet> {
    may_clear: bool,
    times: S,
}

impl<S: TimeSet> Model for Entries<S> {
    ghost use Rattle.track9.specs.Tracker.{Entries};
    ghost use Rattle.track9.specs.Working.Codes.{stored};

    ghost Value = { Entries };

    ghost coded = { Prim.hlevel stored };

    ghost use Rattle.sets25.specs.Times.{BelowDay};

    ghost view = { λ r. record { may_clear = r.may_clear; times = S.members r.times; rate = S.own_rate r.times } };

    ghost invariant = { λ r. BelowDay (S.own_rate r.times) (S.members r.times) };
}

impl<S: TimeSet> Entries<S> {
    /// No entry. Takes no memory.
    pub(crate) fn none(alloc: Global, rate: Rate) -> Entries<S>
        ensures { result ≡ no_entries rate }
    {
        Entries {
            may_clear: false,
            times: S::none_at(alloc, rate),
        }
    }

    /// Every entry.
    pub(crate) fn all(alloc: Global, rate: Rate) -> Result<Entries<S>, AllocError>
        ensures { IfOk result (λ r. r ≡ all_entries rate) }
    {
        Ok(Entries {
            may_clear: true,
            times: S::all_at(alloc, rate)?,
        })
    }

    /// The rate whose times these are.
    pub(crate) fn rate(&self) -> Rate
        ensures { result ≡ self.now.rate }
    {
        self.times.rate()
    }

    /// The entry that is known, or every one where none is.
    pub(crate) fn known_to_be(
        alloc: Global,
        rate: Rate,
        known: &Option<Entry>,
    ) -> Result<Entries<S>, AllocError>
        ensures { IfOk result (λ r. r ≡ entries_known rate known.now) }
    {
        match known {
            Some(Entry::Clear) => Ok(Entries {
                may_clear: true,
                times: S::none_at(alloc, rate),
            }),
            Some(Entry::At(time)) => Ok(Entries {
                may_clear: false,
                times: S::one_at(alloc, rate, *time)?,
            }),
            None => Entries::all(alloc, rate),
        }
    }

    /// An equal set where a hand keeps it, and else every entry.
    pub(crate) fn touched(&self, alloc: Global, keep: bool) -> Result<Entries<S>, AllocError>
        ensures { IfOk result (λ r. r ≡ touched_entries keep self.now) }
    {
        if keep {
            self.copy()
        } else {
            Entries::all(alloc, self.rate())
        }
    }

    /// An equal set.
    pub(crate) fn copy(&self) -> Result<Entries<S>, AllocError>
        ensures { IfOk result (λ r. r ≡ self.now) }
    {
        Ok(Entries {
            may_clear: self.may_clear,
            times: self.times.copy()?,
        })
    }

    /// Its times are times of the day. Does nothing.
    pub(crate) fn below_day(&self)
        ensures { BelowDay self.now.rate self.now.times }
    {
        let _ = &self.times;
    }

    /// Whether one of them is Clear.
    pub(crate) fn may_clear(&self) -> bool
        ensures { result ≡ self.now.may_clear }
    {
        self.may_clear
    }

    /// Whether one of them is Clear is this from here on.
    pub(crate) fn set_clear(&mut self, may_clear: bool)
        ensures { self.new ≡ record self.old { may_clear = may_clear } }
    {
        self.may_clear = may_clear;
    }

    /// One of them may have been lost. Takes no memory.
    pub(crate) fn lose(&mut self, lost: bool)
        ensures { self.new ≡ lost_entries lost self.old }
    {
        self.may_clear |= lost;
    }

    /// Whether there is an entry.
    pub(crate) fn is_some(&self) -> bool
        ensures { result ≡ some_entry self.now }
    {
        self.may_clear || !self.times.is_empty()
    }

    /// Some entry, of which there is one: the earliest time, or else Clear.
    pub(crate) fn first(&self) -> Entry
        requires { some_entry self.now ≡ true }
        ensures { Allows self.now result }
    {
        match self.times.least() {
            Some(time) => Entry::At(time),
            None => Entry::Clear,
        }
    }

    /// An entry that is wanted, or some entry where none is: None exactly where there is none.
    pub(crate) fn pick(&self, wanted: &Option<Entry>) -> Option<Entry>
        ensures some { IfSome result (λ e. Allows self.now e × Is wanted.now e) }
        ensures none { IfNone result (¬ ((e : AEntry) × Allows self.now e × Is wanted.now e)) }
    {
        match wanted {
            Some(entry) => { if self.has(entry) { Some(*entry) } else { None } }
            None => {
                if self.is_some() {
                    Some(self.first())
                } else {
                    None
                }
            }
        }
    }

    /// Whether this is one of the entries.
    fn has(&self, entry: &Entry) -> bool
        ensures { IsTrue result ↔ Allows self.now entry.now }
    {
        match entry {
            Entry::Clear => self.may_clear,
            Entry::At(time) => self.times.contains(*time),
        }
    }

    /// What all entries agree on, of which there is one.
    pub(crate) fn known(&self) -> KnownEntry
        requires { some_entry self.now ≡ true }
        ensures { KnowsOf (Allows self.now) result }
    {
        if self.times.is_empty() {
            return KnownEntry::Clear;
        }
        if self.may_clear {
            return KnownEntry::Unknown;
        }
        match self.times.only() {
            Some(time) => KnownEntry::At(time),
            None => KnownEntry::SetSomewhere,
        }
    }

    /// The entries after a change, in a set of their own.
    pub(crate) fn changed(&self, alloc: Global, change: &Change) -> Result<Entries<S>, AllocError>
        ensures { IfOk result (λ r. r ≡ changed change.now self.now) }
    {
        let rate = self.rate();
        match change {
            Change::SetSomewhere => Ok(Entries {
                may_clear: false,
                times: S::all_at(alloc, rate)?,
            }),
            Change::SetAt(time) => Ok(Entries {
                may_clear: false,
                times: S::one_at(alloc, rate, *time)?,
            }),
            Change::Next => {
                let mut times = self.times.copy()?;
                times.shift_next()?;
                Ok(Entries {
                    may_clear: self.may_clear,
                    times,
                })
            }
            Change::Prev => {
                let mut times = self.times.copy()?;
                times.shift_prev()?;
                Ok(Entries {
                    may_clear: self.may_clear,
                    times,
                })
            }
            Change::Reset => Ok(Entries {
                may_clear: true,
                times: S::none_at(alloc, rate),
            }),
            Change::Recall => Entries::all(alloc, rate),
        }
    }

    /// The entries after a change, with those before it, in place.
    pub(crate) fn widen(&mut self, alloc: Global, change: &Change) -> Result<(), AllocError>
        ensures ok { OnOk result (self.new ≡ widened change.now self.old) }
        ensures err { OnErr result (self.new ≡ self.old) }
    {
        match change {
            Change::SetSomewhere => self.times = S::all_at(alloc, self.times.rate())?,
            Change::SetAt(time) => self.times.add(*time)?,
            Change::Next => self.times.widen_next()?,
            Change::Prev => self.times.widen_prev()?,
            Change::Reset => self.may_clear = true,
            Change::Recall => {
                self.times = S::all_at(alloc, self.times.rate())?;
                self.may_clear = true;
            }
        }
        Ok(())
    }

    /// The entries after a change, with those before it, in a set of their own.
    pub(crate) fn widened(&self, alloc: Global, change: &Change) -> Result<Entries<S>, AllocError>
        ensures { IfOk result (λ r. r ≡ widened change.now self.now) }
    {
        let mut copy = self.copy()?;
        copy.widen(alloc, change)?;
        Ok(copy)
    }

    /// Whether the time that was read is the only one among them.
    pub(crate) fn has_only(&self, time: &Option<TimeCode>) -> bool
        ensures { IsTrue result ↔ ((t : ℕ) × (time.now ≡ Some t) × (self.now.times ≡ just t)) }
    {
        time.is_some() && self.times.only() == *time
    }

    /// The entries that agree with a time that was read, in a set of their own: None where it was not valid,
    /// which only a Clear register gives. Copies no times.
    pub(crate) fn agreeing(
        &self,
        alloc: Global,
        time: &Option<TimeCode>,
    ) -> Result<Entries<S>, AllocError>
        ensures { IfOk result (λ r. r ≡ agreeing time.now self.now) }
    {
        let rate = self.rate();
        let times = match time {
            Some(time) if self.times.contains(*time) => S::one_at(alloc, rate, *time)?,
            _ => S::none_at(alloc, rate),
        };
        Ok(Entries {
            may_clear: self.may_clear,
            times,
        })
    }

    /// Keeps the entries that are Set, or those that are Clear.
    pub(crate) fn keep_set(&mut self, alloc: Global, is_set: bool)
        ensures { self.new ≡ set_entries is_set self.old }
    {
        if is_set {
            self.may_clear = false;
        } else {
            self.times = S::none_at(alloc, self.times.rate());
        }
    }
}

impl Entries<SpanSet> {
    /// The number of spans of its times.
    pub(crate) fn spans(&self) -> usize
        ensures { result ≡ span_count self.now.times }
    {
        self.times.spans()
    }
}
