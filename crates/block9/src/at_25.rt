//! The calls at 25 frames a second, each beside one that takes a rate.
ghost use Rattle.std.specs.Prelude.{◌≡◌};
ghost use Rattle.block9.specs.Command.{is_reply_time_valid};

use crate::block::Block;
use crate::command::Command;
use crate::line_rules::ReplyLimit;
use crate::pairer::Pairer;
use crate::reply::reply_time_valid_at;
use tc25::{Rate, TimeCode};

impl Block {
    ghost use Rattle.std.specs.Prelude.{◌≡◌};
    ghost use Rattle.tc25.specs.Day.{time_of};

    /// [`Block::time_at`] at 25 frames a second.
    pub fn time(&self) -> Option<TimeCode>
        ensures { result ≡ time_of Rate.Fps25 self.now.bytes.items }
    {
        self.time_at(Rate::Fps25)
    }
}

impl Command {
    ghost use Rattle.std.specs.Prelude.{◌≡◌};
    ghost use Rattle.block9.specs.Command.{command_of};

    /// [`Command::of_at`] at 25 frames a second.
    pub fn of(block: &Block) -> Option<Command>
        ensures { result ≡ command_of Rate.Fps25 block.now }
    {
        Command::of_at(Rate::Fps25, block)
    }
}

impl<'a> Pairer<'a> {
    ghost use Rattle.std.specs.Prelude.{◌≡◌, None, []};

    /// [`Pairer::at`] at 25 frames a second.
    pub fn new() -> Pairer<'a>
        ensures { result ≡ record { rules = record { rate = Rate.Fps25; reply_limit = ReplyLimit.Counts; replies = None }; tail = []; last_time = None; reason = None; exchange = None } }
    {
        Pairer::at(Rate::Fps25)
    }
}

impl<'a> Default for Pairer<'a> {
    ghost use Rattle.std.specs.Prelude.{◌≡◌, None, []};

    /// [`Pairer::new`].
    fn default() -> Pairer<'a>
        ensures { result ≡ record { rules = record { rate = Rate.Fps25; reply_limit = ReplyLimit.Counts; replies = None }; tail = []; last_time = None; reason = None; exchange = None } }
    {
        Pairer::new()
    }
}

/// [`reply_time_valid_at`] at 25 frames a second.
pub fn reply_time_valid(command: &Command, reply: &Block) -> bool
    ensures { result ≡ is_reply_time_valid Rate.Fps25 command.now reply.now }
{
    reply_time_valid_at(Rate::Fps25, command, reply)
}
