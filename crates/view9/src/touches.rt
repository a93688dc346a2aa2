//! Where somebody must have touched the deck's front panel, as seldom as possible, and what changed.

use crate::changes::Change;
use crate::field::Field;
use crate::put_ending::put_ending;
use block9::Exchange;
use deck9::{HandMove, Profile, State};
use report9::{JudgeError, Verdict, known_state, write_all};
use seen9::{Ending, MoveSearch, SeenExchange, View};
use std::alloc::{AllocError, Global};
use std::io::Write;
use tc25::Rate;
use text9::Text;

/// A touch of the panel: it comes between two exchanges.
#[derive(Clone, Copy, PartialEq, Eq)]
pub struct Touch {
    /// The last record of the exchange before it.
    pub after: Moment,
    /// The first record of the exchange behind it.
    pub before: Moment,
    /// The deck before it.
    pub from: State,
    /// The deck behind it.
    pub to: State,
}

/// A record, and when it came.
#[derive(Clone, Copy, PartialEq, Eq)]
pub struct Moment {
    /// Its number, counted from 1.
    pub record: u32,
    /// Its time, in microseconds.
    pub time_us: u64,
}

/// The exchanges of a part so far, and where their records lie.
#[derive(Drop)]
pub struct Touched<'a, S: MoveSearch> {
    /// What finds the moves of a hand.
    search: &'a S,
    exchanges: Vec<Exchange>,
    /// The last record of each.
    ends: Vec<Moment>,
}

impl<'a, S: MoveSearch> Touched<'a, S> {
    /// Of a part that has no exchange yet. Its touches are found by this search.
    pub fn new(alloc: Global, search: &'a S) -> Touched<'a, S> {
        Touched {
            search,
            exchanges: Vec::new(alloc),
            ends: Vec::new(alloc),
        }
    }

    /// Takes the next exchange of the part. An error comes where memory is refused.
    pub fn take(&mut self, seen: &SeenExchange<'_>) -> Result<(), AllocError> {
        self.exchanges.push(seen.exchange.copy())?;
        self.ends.push(Moment {
            record: seen.last,
            time_us: seen.end_us,
        })?;
        Ok(())
    }

    /// Where somebody must have touched the panel, in a run with the fewest touches, or none where no run was found. An error comes
    /// where memory is refused.
    pub fn touches(
        &self,
        alloc: Global,
        profile: &Profile,
    ) -> Result<Option<Vec<Touch>>, AllocError> {
        let exchanges = self.exchanges.as_slice();
        let Some(moves) = self.search.fewest_moves(alloc, profile, exchanges)? else {
            return Ok(None);
        };
        let mut touches = Vec::new(alloc);
        for moved in moves.iter() {
            if let Some(touch) = self.touch(moved) {
                touches.push(touch)?;
            }
        }
        Ok(Some(touches))
    }

    /// The touch that a move of a hand is. One comes before it and behind it, so there always is one.
    fn touch(&self, moved: &HandMove) -> Option<Touch> {
        let after = self.ends.get(moved.place.checked_sub(1)?)?;
        let behind = self.exchanges.get(moved.place)?;
        Some(Touch {
            after: *after,
            before: Moment {
                record: after.record.saturating_add(1),
                time_us: behind.time_us,
            },
            from: moved.before,
            to: moved.behind,
        })
    }
}

impl Touch {
    /// Puts what it changed, with times at this rate.
    pub fn put_changes(&self, line: &mut Text, rate: Rate) {
        let (from, to) = (known_state(&self.from), known_state(&self.to));
        let mut separator = "";
        for field in Field::ALL {
            let change = Change {
                field,
                from: field.value_in(&from),
                is_forgotten: false,
                to: field.value_in(&to),
            };
            if change.from != change.to {
                line.put(separator);
                change.put(line, rate);
                separator = ", ";
            }
        }
    }

    /// Puts its line.
    fn put(&self, line: &mut Text, rate: Rate) {
        self.after.put(line, "between record ");
        self.before.put(line, ", and record ");
        line.put(": ");
        self.put_changes(line, rate);
        line.put("\n");
    }
}

impl Moment {
    /// Puts it behind a label, with its time in seconds.
    fn put(&self, line: &mut Text, label: &str) {
        line.put_count(label, u64::from(self.record))
            .put_seconds(", ", self.time_us)
            .put(" s");
    }
}

/// Where somebody must have touched the panel in a capture that is judged to its first break, where it is a yes, and then the verdict. The
/// profile has to allow hands. All is written at the end. The writer is not flushed.
#[derive(Drop)]
pub struct Touches<'a, W: Write, S: MoveSearch> {
    alloc: Global,
    writer: &'a mut W,
    profile: &'a Profile,
    touched: Touched<'a, S>,
}

impl<'a, W: Write, S: MoveSearch> Touches<'a, W, S> {
    /// None yet, of a deck that is taken for this, to be found by this search and written there.
    pub fn new(
        alloc: Global,
        writer: &'a mut W,
        profile: &'a Profile,
        search: &'a S,
    ) -> Touches<'a, W, S> {
        Touches {
            alloc,
            writer,
            profile,
            touched: Touched::new(alloc, search),
        }
    }
}

impl<W: Write, S: MoveSearch> View for Touches<'_, W, S> {
    fn exchange(&mut self, seen: &SeenExchange<'_>) -> Result<(), JudgeError> {
        Ok(self.touched.take(seen)?)
    }

    fn end(&mut self, ending: &Ending) -> Result<(), JudgeError> {
        let mut lines = Text::new(self.alloc);
        if let Ending::Verdict(Verdict::Yes { .. }) = ending {
            let touches = self.touched.touches(self.alloc, self.profile)?;
            put_touches(&mut lines, touches.as_deref(), self.profile.rate);
        }
        put_ending(&mut lines, ending);
        Ok(write_all(self.writer, lines.whole()?)?)
    }
}

/// Puts the lines of the touches, or that no run was found, and how many there are.
fn put_touches(lines: &mut Text, touches: Option<&[Touch]>, rate: Rate) {
    let Some(touches) = touches else {
        lines.put("touches unknown: the search found no run\n");
        return;
    };
    for touch in touches {
        touch.put(lines, rate);
    }
    let few = match touches {
        [] => ": nobody need have touched the panel\n",
        _ => ", as few as possible\n",
    };
    lines.put_count("touches ", touches.len() as u64).put(few);
}
