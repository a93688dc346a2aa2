//! What a controller's block means: the commands, by the first two bytes of their blocks, and their names.
//!
//! To add a command, write its variant, its name, its arm in its group's table (`command/tables.rt`) and, where it has data that
//! are not free, its arm in `with_data`, and where its reply is no acknowledgement, its arm in `fits`. The definitions have a row
//! and a line for it in `specs/Command.antt`.
mod tables;

use crate::block::Block;
use crate::reply::{is_status, is_time};
use tables::listed;
use tc25::{Rate, TimeCode};

/// What a block on the controller's wire is.
///
/// There is a variant for each name in the protocol manual's tables that the rules list, and one for
/// all other commands.
#[derive(Clone, Copy, PartialEq, Eq)]
pub enum Command {
    /// LOCAL DISABLE: the deck's panel is switched off.
    LocalDisable,
    /// DEVICE TYPE: asks what the deck is.
    DeviceType,
    /// LOCAL ENABLE: the deck's panel is switched on.
    LocalEnable,
    /// STOP: the tape stops.
    Stop,
    /// PLAY: plays.
    Play,
    /// RECORD: records.
    Record,
    /// STANDBY OFF: the deck leaves standby.
    StandbyOff,
    /// STANDBY ON: the deck goes to standby.
    StandbyOn,
    /// EJECT: the cassette is put out.
    Eject,
    /// FAST FWD: winds on.
    FastForward,
    /// JOG FWD: jogs on. Its one or two speed bytes are free.
    JogForward,
    /// VAR FWD: plays on at a variable speed. Its one or two speed bytes are free.
    VarForward,
    /// SHUTTLE FWD: shuttles on. Its one or two speed bytes are free.
    ShuttleForward,
    /// REWIND: winds back.
    Rewind,
    /// JOG REV: jogs back. Its one or two speed bytes are free.
    JogReverse,
    /// VAR REV: plays back at a variable speed. Its one or two speed bytes are free.
    VarReverse,
    /// SHUTTLE REV: shuttles back. Its one or two speed bytes are free.
    ShuttleReverse,
    /// PREROLL: cues up ahead of the register IN.
    Preroll,
    /// CUE UP WITH DATA: cues up at a time.
    CueUpWithData {
        /// The time to go to.
        time: TimeCode,
    },
    /// SYNC PLAY: plays in step with the reference.
    SyncPlay,
    /// IN ENTRY: the register IN takes the deck's time.
    InEntry,
    /// OUT ENTRY: the register OUT takes the deck's time.
    OutEntry,
    /// AUDIO IN ENTRY: the register audio IN takes the deck's time.
    AudioInEntry,
    /// AUDIO OUT ENTRY: the register audio OUT takes the deck's time.
    AudioOutEntry,
    /// IN DATA PRESET: the register IN takes this time.
    InDataPreset {
        /// The register's new time.
        time: TimeCode,
    },
    /// OUT DATA PRESET: the register OUT takes this time.
    OutDataPreset {
        /// The register's new time.
        time: TimeCode,
    },
    /// AUDIO IN DATA PRESET: the register audio IN takes this time.
    AudioInDataPreset {
        /// The register's new time.
        time: TimeCode,
    },
    /// AUDIO OUT DATA PRESET: the register audio OUT takes this time.
    AudioOutDataPreset {
        /// The register's new time.
        time: TimeCode,
    },
    /// IN SHIFT +: the register IN moves to the next frame.
    InShiftPlus,
    /// IN SHIFT -: the register IN moves to the frame before.
    InShiftMinus,
    /// OUT SHIFT +: the register OUT moves to the next frame.
    OutShiftPlus,
    /// OUT SHIFT -: the register OUT moves to the frame before.
    OutShiftMinus,
    /// AUDIO IN SHIFT +: the register audio IN moves to the next frame.
    AudioInShiftPlus,
    /// AUDIO IN SHIFT -: the register audio IN moves to the frame before.
    AudioInShiftMinus,
    /// AUDIO OUT SHIFT +: the register audio OUT moves to the next frame.
    AudioOutShiftPlus,
    /// AUDIO OUT SHIFT -: the register audio OUT moves to the frame before.
    AudioOutShiftMinus,
    /// IN FLAG RESET: the register IN is cleared.
    InFlagReset,
    /// OUT FLAG RESET: the register OUT is cleared.
    OutFlagReset,
    /// AUDIO IN FLAG RESET: the register audio IN is cleared.
    AudioInFlagReset,
    /// AUDIO OUT FLAG RESET: the register audio OUT is cleared.
    AudioOutFlagReset,
    /// IN RECALL: the register IN takes an earlier entry.
    InRecall,
    /// OUT RECALL: the register OUT takes an earlier entry.
    OutRecall,
    /// AUDIO IN RECALL: the register audio IN takes an earlier entry.
    AudioInRecall,
    /// AUDIO OUT RECALL: the register audio OUT takes an earlier entry.
    AudioOutRecall,
    /// EDIT PRESET: chooses what is edited. Its one or two bytes are free.
    EditPreset,
    /// PREROLL PRESET: sets the length of a preroll. Its four bytes are free.
    PrerollPreset,
    /// TIMER MODE SELECT: chooses the timer. Its byte is free.
    TimerModeSelect,
    /// AUTO MODE OFF: switches the automatic mode off.
    AutoModeOff,
    /// AUTO MODE ON: switches the automatic mode on.
    AutoModeOn,
    /// CURRENT TIME SENSE: asks for the time.
    CurrentTimeSense {
        /// Which of the deck's times: 01, 02, 03, 04 or 08.
        selector: u8,
    },
    /// IN DATA SENSE: asks for the register IN.
    InDataSense,
    /// OUT DATA SENSE: asks for the register OUT.
    OutDataSense,
    /// AUDIO IN DATA SENSE: asks for the register audio IN.
    AudioInDataSense,
    /// AUDIO OUT DATA SENSE: asks for the register audio OUT.
    AudioOutDataSense,
    /// STATUS SENSE: asks for status data.
    StatusSense {
        /// The first status datum in the high four bits, how many data in the low four.
        asked: u8,
    },
    /// A command that the tables do not list, by its code, its number of data bytes or its selector. It
    /// takes any reply.
    Unlisted {
        /// The first two bytes of its block as one number, as [`Block::head`] has them.
        head: u32,
    },
}

impl Command {
    ghost use Rattle.std.specs.Prelude.{◌≡◌, option_map};
    ghost use Rattle.block9.specs.Command.{command_of, fits, is_listed_head, name_of, time_in};
    ghost use Rattle.block9.specs.Block.{head_of};
    ghost use Rattle.block9.specs.Replies.{is_own};
    ghost use Rattle.block9.specs.Working.Row.{with_data};

    /// The command that a block of the controller is, by its first two bytes, and of CURRENT TIME SENSE by
    /// its selector too.
    ///
    /// `None` exactly where the block is CUE UP WITH DATA or a DATA PRESET and its time is not valid.
    #[tactic(auto, unfolding(crate::specs::Command::command_of))]
    #[inline(always)] // it is asked of every exchange
    pub fn of_at(rate: Rate, block: &Block) -> Option<Command>
        ensures { result ≡ command_of rate block.now }
    {
        let head = block.head();
        match listed(u32::from(block.group), head) {
            Some(command) => command.with_data(rate, block),
            None => Some(Command::Unlisted { head }),
        }
    }

    /// The command that a table has for a block, with what the block's data say in the place of the blank: `None` where they have
    /// to be a time and are none. A request for a time with an unknown selector is not listed.
    #[inline(always)] // it is asked of every exchange
    fn with_data(self, rate: Rate, block: &Block) -> Option<Command>
        ensures { result ≡ with_data rate (head_of block.now) block.now self }
    {
        match self {
            Command::CueUpWithData { .. } => Some(Command::CueUpWithData {
                time: block.time_at(rate)?,
            }),
            Command::InDataPreset { .. } => Some(Command::InDataPreset {
                time: block.time_at(rate)?,
            }),
            Command::OutDataPreset { .. } => Some(Command::OutDataPreset {
                time: block.time_at(rate)?,
            }),
            Command::AudioInDataPreset { .. } => Some(Command::AudioInDataPreset {
                time: block.time_at(rate)?,
            }),
            Command::AudioOutDataPreset { .. } => Some(Command::AudioOutDataPreset {
                time: block.time_at(rate)?,
            }),
            Command::CurrentTimeSense { .. } => match block.first_datum() {
                selector @ (0x01..=0x04 | 0x08) => Some(Command::CurrentTimeSense { selector }),
                _ => Some(Command::Unlisted { head: block.head() }),
            },
            Command::StatusSense { .. } => Some(Command::StatusSense {
                asked: block.first_datum(),
            }),
            command => Some(command),
        }
    }

    /// Whether the tables list a command with these first two bytes of its block, as [`Block::head`] has them.
    pub fn is_listed_head(head: u32) -> bool
        ensures { result ≡ is_listed_head head }
    {
        listed(head / 0x10_00, head).is_some()
    }

    /// The name that the protocol manual gives to the command, and `None` for one that is not listed.
    #[tactic(auto, unfolding(crate::specs::Command::name_of))]
    pub fn name<'a>(&self) -> Option<&'a str>
        ensures { option_map (λ name. name.now) result ≡ name_of self.now }
    {
        match self {
            Command::LocalDisable => Some("LOCAL DISABLE"),
            Command::DeviceType => Some("DEVICE TYPE"),
            Command::LocalEnable => Some("LOCAL ENABLE"),
            Command::Stop => Some("STOP"),
            Command::Play => Some("PLAY"),
            Command::Record => Some("RECORD"),
            Command::StandbyOff => Some("STANDBY OFF"),
            Command::StandbyOn => Some("STANDBY ON"),
            Command::Eject => Some("EJECT"),
            Command::FastForward => Some("FAST FWD"),
            Command::JogForward => Some("JOG FWD"),
            Command::VarForward => Some("VAR FWD"),
            Command::ShuttleForward => Some("SHUTTLE FWD"),
            Command::Rewind => Some("REWIND"),
            Command::JogReverse => Some("JOG REV"),
            Command::VarReverse => Some("VAR REV"),
            Command::ShuttleReverse => Some("SHUTTLE REV"),
            Command::Preroll => Some("PREROLL"),
            Command::CueUpWithData { .. } => Some("CUE UP WITH DATA"),
            Command::SyncPlay => Some("SYNC PLAY"),
            Command::InEntry => Some("IN ENTRY"),
            Command::OutEntry => Some("OUT ENTRY"),
            Command::AudioInEntry => Some("AUDIO IN ENTRY"),
            Command::AudioOutEntry => Some("AUDIO OUT ENTRY"),
            Command::InDataPreset { .. } => Some("IN DATA PRESET"),
            Command::OutDataPreset { .. } => Some("OUT DATA PRESET"),
            Command::AudioInDataPreset { .. } => Some("AUDIO IN DATA PRESET"),
            Command::AudioOutDataPreset { .. } => Some("AUDIO OUT DATA PRESET"),
            Command::InShiftPlus => Some("IN SHIFT +"),
            Command::InShiftMinus => Some("IN SHIFT -"),
            Command::OutShiftPlus => Some("OUT SHIFT +"),
            Command::OutShiftMinus => Some("OUT SHIFT -"),
            Command::AudioInShiftPlus => Some("AUDIO IN SHIFT +"),
            Command::AudioInShiftMinus => Some("AUDIO IN SHIFT -"),
            Command::AudioOutShiftPlus => Some("AUDIO OUT SHIFT +"),
            Command::AudioOutShiftMinus => Some("AUDIO OUT SHIFT -"),
            Command::InFlagReset => Some("IN FLAG RESET"),
            Command::OutFlagReset => Some("OUT FLAG RESET"),
            Command::AudioInFlagReset => Some("AUDIO IN FLAG RESET"),
            Command::AudioOutFlagReset => Some("AUDIO OUT FLAG RESET"),
            Command::InRecall => Some("IN RECALL"),
            Command::OutRecall => Some("OUT RECALL"),
            Command::AudioInRecall => Some("AUDIO IN RECALL"),
            Command::AudioOutRecall => Some("AUDIO OUT RECALL"),
            Command::EditPreset => Some("EDIT PRESET"),
            Command::PrerollPreset => Some("PREROLL PRESET"),
            Command::TimerModeSelect => Some("TIMER MODE SELECT"),
            Command::AutoModeOff => Some("AUTO MODE OFF"),
            Command::AutoModeOn => Some("AUTO MODE ON"),
            Command::CurrentTimeSense { .. } => Some("CURRENT TIME SENSE"),
            Command::InDataSense => Some("IN DATA SENSE"),
            Command::OutDataSense => Some("OUT DATA SENSE"),
            Command::AudioInDataSense => Some("AUDIO IN DATA SENSE"),
            Command::AudioOutDataSense => Some("AUDIO OUT DATA SENSE"),
            Command::StatusSense { .. } => Some("STATUS SENSE"),
            Command::Unlisted { .. } => None,
        }
    }

    /// The time that is in the command: `None` where it has none.
    #[tactic(auto, unfolding(crate::specs::Command::time_in))]
    pub fn time(&self) -> Option<TimeCode>
        ensures { result ≡ time_in self.now }
    {
        match self {
            Command::CueUpWithData { time }
            | Command::InDataPreset { time }
            | Command::OutDataPreset { time }
            | Command::AudioInDataPreset { time }
            | Command::AudioOutDataPreset { time } => Some(*time),
            _ => None,
        }
    }

    /// Whether a reply is one of the command's own: a NAK, and where the command is listed what the tables say.
    #[tactic(auto, unfolding(crate::specs::Command::fits))]
    #[inline(always)] // it is asked of every exchange
    pub fn is_own(&self, reply: &Block) -> bool
        ensures { result ≡ is_own self.now reply.now }
    {
        match self {
            Command::Unlisted { .. } => reply.is_nak(),
            _ => self.fits(reply),
        }
    }

    /// Whether a reply is of a kind that the command may have.
    ///
    /// A NAK may come to every command, and any block to one that is not listed. Otherwise the deck
    /// answers DEVICE TYPE and the senses with what they ask for, and every other command with an
    /// acknowledgement. The time in a reply is not judged here, but by [`crate::reply_time_valid`].
    #[tactic(auto, unfolding(crate::specs::Command::fits))]
    #[inline(always)] // it is asked of every exchange
    pub fn fits(&self, reply: &Block) -> bool
        ensures { result ≡ fits self.now reply.now }
    {
        if reply.is_nak() {
            return true;
        }
        let head = reply.head();
        match self {
            Command::DeviceType => head == 0x12_11,
            Command::CurrentTimeSense { .. } => is_time(reply),
            Command::InDataSense => head == 0x74_10,
            Command::OutDataSense => head == 0x74_11,
            Command::AudioInDataSense => head == 0x74_12,
            Command::AudioOutDataSense => head == 0x74_13,
            Command::StatusSense { asked } => is_status(reply, asked % 16),
            Command::Unlisted { .. } => true,
            _ => reply.is_ack(),
        }
    }
}
