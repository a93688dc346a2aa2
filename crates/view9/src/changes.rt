//! What an exchange changes of what is known of the deck, and of what the deck may do by itself.

use crate::by_itself::ByItself;
use crate::field::{FIELDS, Field, Value};
use deck9::Hands;
use seen9::SeenExchange;
use std::alloc::{AllocError, Global};
use tc25::Rate;
use text9::Text;

/// A field of which something else is known than before.
#[derive(Clone, Copy, PartialEq, Eq)]
pub struct Change {
    /// The field.
    pub field: Field,
    /// What it was last known to be; unknown where it never was known.
    pub from: Value,
    /// Whether a break made it unknown since.
    pub is_forgotten: bool,
    /// What is known now.
    pub to: Value,
}

/// What a field was last known to be.
#[derive(Clone, Copy)]
struct LastKnown {
    value: Value,
    /// Whether that is known still.
    is_known: bool,
    /// Whether a break made it unknown.
    is_forgotten: bool,
    /// Whether it was told that it is known no more.
    is_lapse_told: bool,
}

/// Nothing was known of a field yet.
const NEVER_KNOWN: LastKnown = LastKnown {
    value: Value::Unknown,
    is_known: false,
    is_forgotten: false,
    is_lapse_told: false,
};

/// Follows what is known of the deck and what it may do by itself, from one exchange to the next.
#[derive(Drop)]
pub struct Changes {
    hands: Hands,
    last: [LastKnown; FIELDS],
    changes: Vec<Change>,
    by_itself: ByItself,
    is_news: bool,
}

impl Changes {
    /// Before the first exchange.
    pub fn new(alloc: Global, hands: Hands) -> Changes {
        Changes {
            hands,
            last: [NEVER_KNOWN; FIELDS],
            changes: Vec::new(alloc),
            by_itself: ByItself::NOTHING,
            is_news: false,
        }
    }

    /// A break came: nothing is known from here on.
    pub fn forget(&mut self) {
        for last in self.last.iter_mut() {
            *last = LastKnown {
                value: last.value,
                is_forgotten: true,
                ..NEVER_KNOWN
            };
        }
    }

    /// Takes what is known after the next exchange, and what the deck may do by itself then.
    pub fn take(&mut self, seen: &SeenExchange<'_>) -> Result<(), AllocError> {
        self.changes.clear();
        self.by_itself = ByItself::of(seen);
        self.is_news = self.by_itself.is_change();
        if seen.before == Some(seen.after) {
            return Ok(()); // which is so of most queries
        }
        for field in Field::told(self.hands) {
            self.take_field(*field, field.value_in(&seen.after))?;
        }
        Ok(())
    }

    /// Takes what is known of a field.
    fn take_field(&mut self, field: Field, now: Value) -> Result<(), AllocError> {
        let last = &mut self.last[field as usize];
        let change = Change {
            field,
            from: last.value,
            is_forgotten: last.is_forgotten,
            to: now,
        };
        if !now.is_known() {
            if last.is_known {
                last.is_known = false;
                self.is_news |= !field.is_mode() && !last.is_lapse_told;
                last.is_lapse_told |= !field.is_mode();
                self.changes.push(change)?;
            }
        } else if last.is_forgotten || now != last.value {
            *last = LastKnown {
                value: now,
                is_known: true,
                ..NEVER_KNOWN
            };
            self.is_news = true;
            self.changes.push(change)?;
        } else {
            last.is_known = true;
        }
        Ok(())
    }

    /// What the last exchange changed of what is known.
    pub fn as_slice(&self) -> &[Change] {
        self.changes.as_slice()
    }

    /// Whether it changed what the deck may do by itself.
    pub fn is_by_itself(&self) -> bool {
        self.by_itself.is_change()
    }

    /// Whether what it changed is told by itself, though the exchange only asked.
    pub fn is_news(&self) -> bool {
        self.is_news
    }

    /// Puts all that it changed, with times at this rate: what is known otherwise first, and the fields that are known again as before a
    /// break by their names last.
    pub fn put(&self, line: &mut Text, rate: Rate) {
        for change in self.as_slice() {
            if !change.is_restored() {
                line.put(", ");
                change.put(line, rate);
            }
        }
        self.by_itself.put_changes(line);
        self.put_restored(line);
    }

    /// Puts the names of the fields that are known again as before a break, where there are some.
    fn put_restored(&self, line: &mut Text) {
        let mut before = ", known again as before: ";
        for change in self.as_slice() {
            if change.is_restored() {
                line.put(before).put(change.field.name());
                before = ", ";
            }
        }
    }
}

impl Change {
    /// Whether a break made the field unknown, and it is known again as it was.
    fn is_restored(&self) -> bool {
        self.is_forgotten && self.to.is_known() && self.to == self.from
    }

    /// Puts it, with times at this rate.
    pub(crate) fn put(&self, line: &mut Text, rate: Rate) {
        line.put(self.field.name()).put(": ");
        line.put_with(|text| self.from.put(text, rate));
        if self.is_forgotten && self.from.is_known() {
            line.put(", unknown");
        }
        line.put(" => ");
        line.put_with(|text| self.to.put(text, rate));
    }
}
