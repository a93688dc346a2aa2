//! What each command does to a deck, in small steps.

use super::{Sheet, Small};
use block9::Command;
use deck9::{Change, Forgotten, Hands, Mode, Register};

/// The register that a command changes, and how.
pub(in crate::tests) fn change_of(command: &Command) -> Option<(Register, Change)> {
    let change = match command {
        Command::InEntry => (Register::RegIn, Change::SetSomewhere),
        Command::OutEntry => (Register::RegOut, Change::SetSomewhere),
        Command::AudioInEntry => (Register::RegAudioIn, Change::SetSomewhere),
        Command::AudioOutEntry => (Register::RegAudioOut, Change::SetSomewhere),
        Command::InDataPreset { time } => (Register::RegIn, Change::SetAt(*time)),
        Command::OutDataPreset { time } => (Register::RegOut, Change::SetAt(*time)),
        Command::AudioInDataPreset { time } => (Register::RegAudioIn, Change::SetAt(*time)),
        Command::AudioOutDataPreset { time } => (Register::RegAudioOut, Change::SetAt(*time)),
        Command::InShiftPlus => (Register::RegIn, Change::Next),
        Command::InShiftMinus => (Register::RegIn, Change::Prev),
        Command::OutShiftPlus => (Register::RegOut, Change::Next),
        Command::OutShiftMinus => (Register::RegOut, Change::Prev),
        Command::AudioInShiftPlus => (Register::RegAudioIn, Change::Next),
        Command::AudioInShiftMinus => (Register::RegAudioIn, Change::Prev),
        Command::AudioOutShiftPlus => (Register::RegAudioOut, Change::Next),
        Command::AudioOutShiftMinus => (Register::RegAudioOut, Change::Prev),
        Command::InFlagReset => (Register::RegIn, Change::Reset),
        Command::OutFlagReset => (Register::RegOut, Change::Reset),
        Command::AudioInFlagReset => (Register::RegAudioIn, Change::Reset),
        Command::AudioOutFlagReset => (Register::RegAudioOut, Change::Reset),
        Command::InRecall => (Register::RegIn, Change::Recall),
        Command::OutRecall => (Register::RegOut, Change::Recall),
        Command::AudioInRecall => (Register::RegAudioIn, Change::Recall),
        Command::AudioOutRecall => (Register::RegAudioOut, Change::Recall),
        _ => return None,
    };
    Some(change)
}

/// The code of the reply to a register's sense, and the register.
pub(in crate::tests) fn sensed_by(command: &Command) -> Option<(u8, Register)> {
    match command {
        Command::InDataSense => Some((0x10, Register::RegIn)),
        Command::OutDataSense => Some((0x11, Register::RegOut)),
        Command::AudioInDataSense => Some((0x12, Register::RegAudioIn)),
        Command::AudioOutDataSense => Some((0x13, Register::RegAudioOut)),
        _ => None,
    }
}

/// The goal that a transport command gives, where it gives one.
fn goal_of(command: &Command) -> Option<Mode> {
    let goal = match command {
        Command::Stop => Mode::Stop,
        Command::Play | Command::SyncPlay => Mode::Play,
        Command::Record => Mode::Rec,
        Command::Eject => Mode::Eject,
        Command::FastForward => Mode::FastForward,
        Command::Rewind => Mode::Rewind,
        Command::JogForward | Command::JogReverse => Mode::Jog,
        Command::VarForward | Command::VarReverse => Mode::Var,
        Command::ShuttleForward | Command::ShuttleReverse => Mode::Shuttle,
        Command::Preroll | Command::CueUpWithData { .. } => Mode::Cued,
        _ => return None,
    };
    Some(goal)
}

/// The first two bytes of listed commands that a sheet may name.
pub(in crate::tests) const LISTED_HEADS: [u32; 7] = [
    0x00_0C, 0x00_11, 0x20_0F, 0x44_14, 0x44_15, 0x44_16, 0x44_17,
];

/// The first two bytes of a transport command's block.
fn transport_head(command: &Command) -> Option<u32> {
    let head = match command {
        Command::Stop => 0x20_00,
        Command::Play => 0x20_01,
        Command::Record => 0x20_02,
        Command::StandbyOff => 0x20_04,
        Command::StandbyOn => 0x20_05,
        Command::Eject => 0x20_0F,
        Command::FastForward => 0x20_10,
        Command::Rewind => 0x20_20,
        Command::Preroll => 0x20_30,
        Command::SyncPlay => 0x20_34,
        Command::JogForward => 0x21_11,
        Command::VarForward => 0x21_12,
        Command::ShuttleForward => 0x21_13,
        Command::JogReverse => 0x21_21,
        Command::VarReverse => 0x21_22,
        Command::ShuttleReverse => 0x21_23,
        Command::CueUpWithData { .. } => 0x24_31,
        _ => return None,
    };
    Some(head)
}

/// The first two bytes of a command's block, where a sheet may name it; otherwise of none that is named.
pub(in crate::tests) fn head_of(command: &Command) -> u32 {
    if let Some(head) = transport_head(command) {
        return head;
    }
    match command {
        Command::Unlisted { head } => *head,
        Command::LocalDisable => 0x00_0C,
        Command::DeviceType => 0x00_11,
        Command::InDataPreset { .. } => 0x44_14,
        Command::OutDataPreset { .. } => 0x44_15,
        Command::AudioInDataPreset { .. } => 0x44_16,
        Command::AudioOutDataPreset { .. } => 0x44_17,
        _ => 0x60_00,
    }
}

/// What may be forgotten.
pub(in crate::tests) const FORGETTABLE: [Small; 8] = [
    Small::AnyGoal,
    Small::AnyShown,
    Small::Change(Register::RegIn, Change::Recall),
    Small::Change(Register::RegOut, Change::Recall),
    Small::Change(Register::RegAudioIn, Change::Recall),
    Small::Change(Register::RegAudioOut, Change::Recall),
    Small::AnyLocal,
    Small::AnyPanel,
];

/// What a command does where it is done, beside what is forgotten.
pub(in crate::tests) fn small_of(sheet: &Sheet, command: &Command, hands: Hands) -> Small {
    if sheet.has_goals(command) {
        return Small::GoAsNamed(head_of(command));
    }
    if let Some((register, change)) = change_of(command) {
        return Small::Change(register, change);
    }
    if let Some(goal) = goal_of(command) {
        return Small::Go(goal);
    }
    match command {
        Command::StandbyOff | Command::StandbyOn => Small::GoOrKeep(Mode::Stop),
        Command::LocalEnable if hands == Hands::Allowed => Small::Panel(true),
        Command::LocalDisable if hands == Hands::Allowed => Small::Panel(false),
        _ => Small::Nothing,
    }
}

/// Whether what is named for a command makes the deck forget this.
fn forgets_named(named: Forgotten, hands: Hands, forgotten: &Small) -> bool {
    match (named, forgotten) {
        (Forgotten::Nothing, _) => false,
        (Forgotten::Everything, Small::AnyPanel) => hands == Hands::Allowed,
        (Forgotten::Everything, _) => true,
        (_, Small::AnyGoal | Small::AnyShown) => named != Forgotten::Registers,
        (_, Small::Change(_, _)) => named != Forgotten::Motion,
        _ => false,
    }
}

/// Whether a command makes the deck forget this: one that is listed where a sheet names it.
pub(in crate::tests) fn forgets(
    sheet: &Sheet,
    command: &Command,
    hands: Hands,
    forgotten: &Small,
) -> bool {
    match sheet.named_for(command) {
        Some(named) => forgets_named(named, hands, forgotten),
        None if sheet.has_goals(command) => false,
        None => forgets_by_group(command, hands, forgotten),
    }
}

/// Whether a command for which nothing is named makes the deck forget this.
fn forgets_by_group(command: &Command, hands: Hands, forgotten: &Small) -> bool {
    match (command, forgotten) {
        (
            Command::Unlisted {
                head: 0x60_00..=0x6F_FF,
            },
            _,
        ) => false,
        (Command::Unlisted { .. }, Small::Change(_, _)) => true,
        (
            Command::Unlisted {
                head: 0x40_00..=0x4F_FF,
            },
            _,
        ) => false,
        (Command::Unlisted { .. }, Small::AnyGoal | Small::AnyShown) => true,
        (
            Command::Unlisted {
                head: 0x20_00..=0x2F_FF,
            },
            _,
        ) => false,
        (Command::Unlisted { .. }, Small::AnyPanel) => hands == Hands::Allowed,
        (Command::Unlisted { .. }, _) => true,
        _ => false,
    }
}

/// Whether a deck in LOCAL may ignore a command: a transport command, or one that changes a register.
pub(in crate::tests) fn is_free_in_local(command: &Command) -> bool {
    goal_of(command).is_some()
        || change_of(command).is_some()
        || matches!(command, Command::StandbyOff | Command::StandbyOn)
}
