//! Which command a reply fits: its own, or the one before.

use crate::place::Place;
use crate::sign::{Seeming, Sign};
use block9::{Block, Command};

/// How many replies must fit only the command before theirs for that to be told.
const FEWEST: u64 = 6;

/// The replies that fit only one of the two: their own command, or the one before it.
#[derive(Clone, Copy)]
pub(crate) struct Fits {
    /// Those that fit their own.
    own: u64,
    /// Those that fit the one before.
    before: u64,
    /// The first of these.
    first: Option<Place>,
}

impl Fits {
    /// Of no reply.
    pub(crate) const NONE: Fits = Fits {
        own: 0,
        before: 0,
        first: None,
    };

    /// Takes a reply to a command, with the command before. A NAK fits every command, and a command that is not listed takes any reply:
    /// these say nothing.
    pub(crate) fn take(&mut self, at: Place, reply: &Block, own: &Command, before: &Command) {
        if takes_any(own) || takes_any(before) || reply.is_nak() {
            return;
        }
        match (own.fits(reply), before.fits(reply)) {
            (true, false) => self.own = self.own.saturating_add(1),
            (false, true) => {
                self.before = self.before.saturating_add(1);
                self.first = self.first.or(Some(at));
            }
            _ => {}
        }
    }

    /// The sign that most replies fit the command before theirs.
    pub(crate) fn sign(&self) -> Option<Sign> {
        if self.before < FEWEST || self.before <= self.own {
            return None;
        }
        let what = Seeming::OneBehind {
            replies: self.before,
            of: self.before.saturating_add(self.own),
        };
        Some(Sign {
            at: self.first?,
            what,
        })
    }
}

/// Whether a command takes any reply.
fn takes_any(command: &Command) -> bool {
    matches!(command, Command::Unlisted { .. })
}
