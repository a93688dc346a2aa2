//! The turns of the line: which command a reply comes to, how long it takes, and what both tell.

use crate::clocks::Clocks;
use crate::cutter::WholeBlock;
use crate::fits::Fits;
use crate::label::{Label, command_in, tells_label};
use crate::running::Running;
use crate::silence::Awaited;
use crate::told::Told;
use block9::Command;
use tc25::Rate;

/// What is followed of commands and replies.
#[derive(Drop)]
pub(crate) struct Turns {
    rate: Rate,
    /// The last command.
    asked: Option<Command>,
    /// The one before it.
    before: Option<Command>,
    /// When the last byte of the last command came, in microseconds; none once it is answered.
    asked_us: Option<u64>,
    pub(crate) awaited: Awaited,
    pub(crate) clocks: Clocks,
    pub(crate) fits: Fits,
    /// The times in commands.
    pub(crate) set: Told,
    /// Those that the deck told.
    pub(crate) told: Told,
    pub(crate) running: Running,
}

impl Turns {
    /// Of no command.
    pub(crate) fn new(rate: Rate) -> Turns {
        Turns {
            rate,
            asked: None,
            before: None,
            asked_us: None,
            awaited: Awaited::NONE,
            clocks: Clocks::new(),
            fits: Fits::NONE,
            set: Told::NONE,
            told: Told::NONE,
            running: Running::NONE,
        }
    }

    /// Takes a whole block of the controller.
    pub(crate) fn take_command(&mut self, whole: &WholeBlock) {
        if self.asked_us.is_some() {
            self.clocks.cross();
        }
        self.before = self.asked;
        self.asked = command_in(&whole.block);
        self.asked_us = Some(whole.last.time_us);
        self.awaited.take_command(whole.first);
        if self.asked.is_some_and(|command| command.time().is_some()) {
            if let Some(label) = self.label_of(whole) {
                self.set.take(&label, false);
            }
        }
    }

    /// Takes a whole block of the deck. Only the first after a command is its reply.
    pub(crate) fn take_reply(&mut self, whole: &WholeBlock) {
        let Some(asked_us) = self.asked_us else {
            self.clocks.cross();
            return;
        };
        self.asked_us = None;
        self.clocks.take(whole.first, asked_us);
        let Some(command) = self.asked else {
            return;
        };
        if let Some(before) = self.before {
            let reply = &whole.block;
            self.fits.take(whole.first, reply, &command, &before);
        }
        if tells_label(&command, &whole.block) {
            let is_clock = matches!(command, Command::CurrentTimeSense { .. });
            if let Some(label) = self.label_of(whole) {
                self.tell(label, is_clock);
            }
        }
    }

    /// The time that a block tells.
    fn label_of(&self, whole: &WholeBlock) -> Option<Label> {
        Label::of(self.rate, &whole.block, whole.first)
    }

    /// Takes a time that the deck tells: of its clock, or of a register.
    fn tell(&mut self, label: Label, is_clock: bool) {
        self.told.take(&label, is_clock);
        if is_clock {
            self.running.take(label);
        }
    }
}
