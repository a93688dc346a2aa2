//! Silences: the longest of a wire, and commands in a row without a reply.

use crate::place::Place;
use crate::sign::{Seeming, Sign};

/// How many commands without a reply are a silence.
const FEWEST_COMMANDS: u32 = 2;

/// How long it lasts at least, in microseconds: longer than any adapter collects bytes.
const SHORTEST_US: u64 = 100_000;

/// A time without a byte on a wire.
#[derive(Clone, Copy, Default, PartialEq, Eq)]
pub(crate) struct Silence {
    /// How long it is, in microseconds.
    pub(crate) us: u64,
    /// The record that ends it.
    pub(crate) to: Place,
}

/// The three longest silences of a wire, the longest first.
#[derive(Clone, Copy, Default)]
pub(crate) struct Silences {
    last_us: Option<u64>,
    pub(crate) longest: [Silence; 3],
}

impl Silences {
    /// Takes the wire's next record, and answers how long after the one before it it comes, in microseconds; none of the first.
    pub(crate) fn take(&mut self, to: Place) -> Option<u64> {
        let since_us = self
            .last_us
            .map(|last_us| to.time_us.saturating_sub(last_us));
        let us = since_us.unwrap_or(0);
        self.last_us = Some(to.time_us);
        let [first, second, third] = self.longest;
        let silence = Silence { us, to };
        if us > first.us {
            self.longest = [silence, first, second];
        } else if us > second.us {
            self.longest = [first, silence, second];
        } else if us > third.us {
            self.longest = [first, second, silence];
        }
        since_us
    }
}

/// A run of commands without a reply.
#[derive(Clone, Copy)]
struct Unanswered {
    /// How many.
    commands: u32,
    /// The first record of the first of them.
    from: Place,
    /// The first record of the command after them.
    to: Place,
}

/// The commands since the deck's last byte, and the longest run of those without a reply.
#[derive(Clone, Copy)]
pub(crate) struct Awaited {
    open: Option<Unanswered>,
    longest: Unanswered,
}

impl Awaited {
    /// Of no command.
    pub(crate) const NONE: Awaited = Awaited {
        open: None,
        longest: Unanswered {
            commands: 0,
            from: Place::NONE,
            to: Place::NONE,
        },
    };

    /// Takes a command that begins with this record.
    pub(crate) fn take_command(&mut self, first: Place) {
        self.open = Some(match self.open {
            Some(open) => Unanswered {
                commands: open.commands.saturating_add(1),
                from: open.from,
                to: first,
            },
            None => Unanswered {
                commands: 0,
                from: first,
                to: first,
            },
        });
    }

    /// Takes a byte of the deck.
    pub(crate) fn take_deck(&mut self) {
        self.longest = self.longest_unanswered();
        self.open = None;
    }

    /// The longest run of commands without a reply that is a silence. A reply to the last command may still come.
    fn longest_unanswered(&self) -> Unanswered {
        match self.open {
            Some(open) if open.is_silence() && open.commands > self.longest.commands => open,
            _ => self.longest,
        }
    }

    /// The sign that commands in a row have no reply.
    pub(crate) fn sign(&self) -> Option<Sign> {
        let run = self.longest_unanswered();
        let what = Seeming::Silence {
            commands: run.commands,
            from_us: run.from.time_us,
            to_us: run.to.time_us,
        };
        run.is_silence().then_some(Sign { at: run.from, what })
    }
}

impl Unanswered {
    /// Whether they are so many, and last so long, that it is a silence.
    fn is_silence(&self) -> bool {
        let us = self.to.time_us.saturating_sub(self.from.time_us);
        self.commands >= FEWEST_COMMANDS && us >= SHORTEST_US
    }
}
