//! What commands ask for of the deck's state.
use crate::state::Register;
use block9::{Block, Command};

/// What a command asks for of the deck's state.
#[derive(Clone, Copy, PartialEq, Eq)]
pub enum Sense {
    /// The time of a register.
    Register(Register),
    /// Status data: the number of the first one in the high four bits, and how many in the low four.
    Status(u8),
    /// Nothing of the state.
    Nothing,
}

impl Sense {
    ghost use Rattle.std.specs.Prelude.{◌≡◌};
    ghost use Rattle.deck9.specs.Shows.{sense_of, shown_by};

    /// What a reply shows of the state: what its command asks for, where the reply is one of the command's own; and nothing where
    /// only a sheet lets the command take it.
    #[inline(always)] // it is asked of every exchange
    pub fn shown_by(command: &Command, reply: &Block) -> Sense
        ensures { result ≡ shown_by command.now reply.now }
    {
        match Sense::of(command) {
            Sense::Nothing => Sense::Nothing,
            sense if command.is_own(reply) => sense,
            _ => Sense::Nothing,
        }
    }

    /// What a command asks for.
    #[inline(always)] // it is asked of every exchange
    pub fn of(command: &Command) -> Sense
        ensures { result ≡ sense_of command.now }
    {
        match command {
            Command::InDataSense => Sense::Register(Register::RegIn),
            Command::OutDataSense => Sense::Register(Register::RegOut),
            Command::AudioInDataSense => Sense::Register(Register::RegAudioIn),
            Command::AudioOutDataSense => Sense::Register(Register::RegAudioOut),
            Command::StatusSense { asked } => Sense::Status(*asked),
            Command::LocalDisable
            | Command::DeviceType
            | Command::LocalEnable
            | Command::Stop
            | Command::Play
            | Command::Record
            | Command::StandbyOff
            | Command::StandbyOn
            | Command::Eject
            | Command::FastForward
            | Command::JogForward
            | Command::VarForward
            | Command::ShuttleForward
            | Command::Rewind
            | Command::JogReverse
            | Command::VarReverse
            | Command::ShuttleReverse
            | Command::Preroll
            | Command::CueUpWithData { .. }
            | Command::SyncPlay
            | Command::InEntry
            | Command::OutEntry
            | Command::AudioInEntry
            | Command::AudioOutEntry
            | Command::InDataPreset { .. }
            | Command::OutDataPreset { .. }
            | Command::AudioInDataPreset { .. }
            | Command::AudioOutDataPreset { .. }
            | Command::InShiftPlus
            | Command::InShiftMinus
            | Command::OutShiftPlus
            | Command::OutShiftMinus
            | Command::AudioInShiftPlus
            | Command::AudioInShiftMinus
            | Command::AudioOutShiftPlus
            | Command::AudioOutShiftMinus
            | Command::InFlagReset
            | Command::OutFlagReset
            | Command::AudioInFlagReset
            | Command::AudioOutFlagReset
            | Command::InRecall
            | Command::OutRecall
            | Command::AudioInRecall
            | Command::AudioOutRecall
            | Command::EditPreset
            | Command::PrerollPreset
            | Command::TimerModeSelect
            | Command::AutoModeOff
            | Command::AutoModeOn
            | Command::CurrentTimeSense { .. }
            | Command::Unlisted { .. } => Sense::Nothing,
        }
    }
}
