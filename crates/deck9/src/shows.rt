//! What a reply shows of one state.
ghost use Rattle.std.specs.Prelude.{◌↔◌, IsTrue};
ghost use Rattle.deck9.specs.Shows.{AreSet, ShowsStatus, Tells};

use crate::sense::Sense;
use crate::state::{Entry, State};
use crate::status::{RegistersSet, Status};
use block9::{Block, Command};
use tc25::Rate;

impl State {
    ghost use Rattle.deck9.specs.Shows.{Shows};

    /// Whether a reply to a command agrees with the state, where times are counted at a rate.
    pub fn shows(&self, rate: Rate, command: &Command, reply: &Block) -> bool
        ensures { IsTrue result ↔ Shows rate self.now command.now reply.now }
    {
        match Sense::shown_by(command, reply) {
            Sense::Register(register) => tells(rate, self.entry(register), reply),
            Sense::Status(asked) => shows_status(self, &Status::of(asked, reply)),
            Sense::Nothing => true,
        }
    }
}

/// Whether a register with this entry may give these data: a Clear one gives any.
fn tells(rate: Rate, entry: &Entry, reply: &Block) -> bool
    ensures { IsTrue result ↔ Tells rate entry.now reply.now.bytes.items }
{
    match entry {
        Entry::Clear => true,
        Entry::At(time) => reply.time_at(rate) == Some(*time),
    }
}

/// Whether what a status reports is so of the state.
fn shows_status(state: &State, status: &Status) -> bool
    ensures { IsTrue result ↔ ShowsStatus state.now status.now }
{
    let local = match status.local {
        Some(local) => state.local == local,
        None => true,
    };
    let shown = match status.shown {
        Some(modes) => modes.has(state.shown),
        None => true,
    };
    let registers = match status.registers {
        Some(set) => are_set(state, &set),
        None => true,
    };
    local && shown && registers
}

/// Whether each register is Set exactly where these say so.
fn are_set(state: &State, set: &RegistersSet) -> bool
    ensures { IsTrue result ↔ AreSet state.now set.now }
{
    let edit = state.ins.is_set() == set.ins && state.outs.is_set() == set.outs;
    let sound = state.ains.is_set() == set.ains && state.aouts.is_set() == set.aouts;
    edit && sound
}
