//! Whether both wires share a clock: how the least delay moves over the session, and up to where replies and commands cross.
ghost use Rattle.std.specs.Prelude.{◌≡◌, IsSome};

use crate::delays::Delays;
use crate::place::Place;
use crate::sign::Sign;

/// The least delays over the session.
#[derive(Drop)]
pub(crate) struct Clocks {
    /// Of all replies.
    all: Delays,
    /// Of those since a reply and a command crossed last.
    since: Delays,
    /// What was seen before a crossing.
    before: Option<Sign>,
}

impl Clocks {
    /// Of no reply.
    pub(crate) fn new() -> Clocks {
        Clocks {
            all: Delays::new(),
            since: Delays::new(),
            before: None,
        }
    }

    /// Takes the first record of the next reply, and the time of its command's last. One that begins before that has crossed it.
    pub(crate) fn take(&mut self, reply: Place, asked_us: u64) {
        self.all.take(reply, asked_us);
        if reply.time_us < asked_us {
            self.cross();
        } else {
            self.since.take(reply, asked_us);
        }
    }

    /// Notes that a reply and a command crossed: there are two commands or two replies in a row.
    pub(crate) fn cross(&mut self)
        ensures { IsSome self.old.before → self.new.before ≡ self.old.before }
    {
        self.before = self.before.or(self.since.sign());
        self.since = Delays::new();
    }

    /// The sign that the least delay moves steadily over the whole session, or up to a crossing. A crossing says something only where the
    /// times are those of the line.
    pub(crate) fn sign(&self, is_timed: bool) -> Option<Sign> {
        self.all.sign().or(self.before.filter(|_| is_timed))
    }
}
