//! A command with its reply, both complete.
ghost use Rattle.std.specs.Prelude.{◌≡◌};
ghost use Rattle.block9.specs.Exchange.{records_in};

use crate::block::Block;
use crate::command::Command;

/// A complete command and its complete reply.
#[derive(Drop, PartialEq, Eq)]
pub struct Exchange {
    /// What the command's block means.
    pub command: Command,
    /// The command's block.
    pub block: Block,
    /// The reply's block.
    pub reply: Block,
    /// The time of the command's first record, in microseconds.
    pub time_us: u64,
    /// The time from the command's last record to the reply's first one, in microseconds: at most
    /// [`crate::REPLY_LIMIT_US`] where the reply limit counts.
    pub delay_us: u64,
}

impl Exchange {
    ghost use Rattle.std.specs.Prelude.{◌≡◌, ◌≤◌};
    ghost use Rattle.block9.specs.Exchange.{only_asks, records_of};

    /// An equal exchange.
    pub fn copy(&self) -> Exchange
        ensures { result ≡ self.now }
    {
        Exchange {
            command: self.command,
            block: self.block.copy(),
            reply: self.reply.copy(),
            time_us: self.time_us,
            delay_us: self.delay_us,
        }
    }

    /// What stands in a pairer in the place of an exchange before the first command.
    pub(crate) fn blank() -> Exchange {
        Exchange {
            command: Command::Stop,
            block: Block::blank(),
            reply: Block::blank(),
            time_us: 0,
            delay_us: 0,
        }
    }

    /// How many records the exchange has: those of its two blocks, at most 36.
    pub fn records(&self) -> usize
        ensures records { result ≡ records_of self.now }
        ensures few { result ≤ 36 }
    {
        self.block.bytes.len() + 3 + self.reply.bytes.len() + 3
    }

    /// Whether the exchange only asks: a command of group 6 does, and so do DEVICE TYPE and a command that is not listed, where the
    /// deck answers it with data.
    pub fn only_asks(&self) -> bool
        ensures { result ≡ only_asks self.now }
    {
        let is_sense = self.block.group == 6;
        match self.command {
            Command::DeviceType => true,
            Command::Unlisted { .. } => {
                is_sense || !(self.reply.is_ack() || self.reply.is_nak())
            }
            _ => is_sense,
        }
    }
}

/// How many records these exchanges have.
pub fn records_in(exchanges: &[Exchange]) -> u128
    ensures { result ≡ records_in exchanges.now }
{
    let mut records = 0u128;
    for exchange in exchanges.iter() {
        records += exchange.records() as u128;
    }
    records
}
