//! The label of a time: hours, minutes, seconds and frames as four bytes spell them, whatever the rate.

use crate::place::Place;
use arrayvec::ArrayVec;
use block9::{Block, Command, reply_time_valid_at};
use tc25::Rate;

/// The rate at which labels are read: it has those of every rate.
const WIDEST: Rate = Rate::Fps30;

/// The labels of a second at that rate.
const IN_SECOND: u32 = 30;

/// The flag of drop frame in the frames of a time.
const DROP_FRAME: u8 = 0x40;

/// A time that was told.
#[derive(Clone, Copy)]
pub(crate) struct Label {
    /// The first record of the block that tells it.
    pub(crate) place: Place,
    /// The seconds of the day.
    pub(crate) seconds: u32,
    /// The frame of the second.
    pub(crate) frame: u32,
    /// Whether the flag of drop frame is set.
    pub(crate) is_flagged: bool,
    /// Whether drop frame has it.
    pub(crate) is_drop: bool,
    /// Whether the rate that is asked with has it.
    pub(crate) is_asked: bool,
}

impl Label {
    /// The one that a block's data spell, if they do at some rate.
    pub(crate) fn of(rate: Rate, block: &Block, place: Place) -> Option<Label> {
        let frames = block.time_at(WIDEST)?.frames();
        let first = block.bytes.as_slice().first().copied().unwrap_or(0);
        Some(Label {
            place,
            seconds: frames / IN_SECOND,
            frame: frames % IN_SECOND,
            is_flagged: first & DROP_FRAME != 0,
            is_drop: block.time_at(Rate::DropFrame).is_some(),
            is_asked: block.time_at(rate).is_some(),
        })
    }
}

/// The command that a block is, with its time if that is one at some rate.
pub(crate) fn command_in(block: &Block) -> Option<Command> {
    Command::of_at(WIDEST, block)
}

/// Whether a reply to a command tells a time code: LTC, VITC, or a register.
pub(crate) fn tells_label(command: &Command, reply: &Block) -> bool {
    match command {
        Command::CurrentTimeSense { .. } => command.fits(reply) && is_judged(command, reply),
        Command::InDataSense
        | Command::OutDataSense
        | Command::AudioInDataSense
        | Command::AudioOutDataSense => command.fits(reply),
        _ => false,
    }
}

/// Whether the time in a reply has to be valid, so that it is no timer's: one that no clock shows is refused in its place.
fn is_judged(command: &Command, reply: &Block) -> bool {
    let mut bytes = ArrayVec::new();
    for _ in 0..4 {
        let _ = bytes.try_push(0xFF);
    }
    let wrong = Block {
        group: reply.group,
        code: reply.code,
        bytes,
    };
    !reply_time_valid_at(WIDEST, command, &wrong)
}
