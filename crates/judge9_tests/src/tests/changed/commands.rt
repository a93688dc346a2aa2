//! What commands do, and which fields an exchange keeps.

use block9::{Command, Exchange};
use deck9::{Mode, Register};
use tc25::TimeCode;

/// What a command does to a register.
#[derive(Clone, Copy, PartialEq, Eq)]
pub(super) enum Deed {
    /// It captures a time.
    Enters,
    /// It sets it to the command's time.
    Presets,
    /// It moves it by a frame.
    Shifts,
    /// It clears it.
    Resets,
    /// It makes it anything.
    Recalls,
}

/// Not acknowledged: the deck does nothing.
pub(super) fn is_refused(exchange: &Exchange) -> bool {
    let reply = &exchange.reply;
    reply.group == 1 && reply.code == 0x12 && reply.bytes.len() == 1
}

/// The goal that a transport command gives.
pub(super) fn goal_of(command: &Command) -> Option<Mode> {
    match command {
        Command::Stop => Some(Mode::Stop),
        Command::Play | Command::SyncPlay => Some(Mode::Play),
        Command::Record => Some(Mode::Rec),
        Command::Eject => Some(Mode::Eject),
        Command::FastForward => Some(Mode::FastForward),
        Command::Rewind => Some(Mode::Rewind),
        Command::JogForward | Command::JogReverse => Some(Mode::Jog),
        Command::VarForward | Command::VarReverse => Some(Mode::Var),
        Command::ShuttleForward | Command::ShuttleReverse => Some(Mode::Shuttle),
        Command::Preroll | Command::CueUpWithData { .. } => Some(Mode::Cued),
        _ => None,
    }
}

/// The time of a preset.
pub(super) fn preset_of(command: &Command) -> Option<TimeCode> {
    match command {
        Command::InDataPreset { time }
        | Command::OutDataPreset { time }
        | Command::AudioInDataPreset { time }
        | Command::AudioOutDataPreset { time } => Some(*time),
        _ => None,
    }
}

/// What an exchange does to a register.
pub(super) fn deed_to(exchange: &Exchange, register: Register) -> Option<Deed> {
    if is_refused(exchange) {
        return None;
    }
    match register {
        Register::RegIn => deed_to_in(&exchange.command),
        Register::RegOut => deed_to_out(&exchange.command),
        Register::RegAudioIn => deed_to_audio_in(&exchange.command),
        Register::RegAudioOut => deed_to_audio_out(&exchange.command),
    }
}

fn deed_to_in(command: &Command) -> Option<Deed> {
    match command {
        Command::InEntry => Some(Deed::Enters),
        Command::InDataPreset { .. } => Some(Deed::Presets),
        Command::InShiftPlus | Command::InShiftMinus => Some(Deed::Shifts),
        Command::InFlagReset => Some(Deed::Resets),
        Command::InRecall => Some(Deed::Recalls),
        _ => None,
    }
}

fn deed_to_out(command: &Command) -> Option<Deed> {
    match command {
        Command::OutEntry => Some(Deed::Enters),
        Command::OutDataPreset { .. } => Some(Deed::Presets),
        Command::OutShiftPlus | Command::OutShiftMinus => Some(Deed::Shifts),
        Command::OutFlagReset => Some(Deed::Resets),
        Command::OutRecall => Some(Deed::Recalls),
        _ => None,
    }
}

fn deed_to_audio_in(command: &Command) -> Option<Deed> {
    match command {
        Command::AudioInEntry => Some(Deed::Enters),
        Command::AudioInDataPreset { .. } => Some(Deed::Presets),
        Command::AudioInShiftPlus | Command::AudioInShiftMinus => Some(Deed::Shifts),
        Command::AudioInFlagReset => Some(Deed::Resets),
        Command::AudioInRecall => Some(Deed::Recalls),
        _ => None,
    }
}

fn deed_to_audio_out(command: &Command) -> Option<Deed> {
    match command {
        Command::AudioOutEntry => Some(Deed::Enters),
        Command::AudioOutDataPreset { .. } => Some(Deed::Presets),
        Command::AudioOutShiftPlus | Command::AudioOutShiftMinus => Some(Deed::Shifts),
        Command::AudioOutFlagReset => Some(Deed::Resets),
        Command::AudioOutRecall => Some(Deed::Recalls),
        _ => None,
    }
}

/// The group of a command that is not listed and was taken: it makes the deck forget.
fn forgetting(exchange: &Exchange) -> Option<u32> {
    match &exchange.command {
        Command::Unlisted { head } if !is_refused(exchange) => Some(*head / 0x10_00),
        _ => None,
    }
}

/// Whether goal and shown mode are not forgotten.
pub(super) fn keeps_modes(exchange: &Exchange) -> bool {
    matches!(forgetting(exchange), None | Some(4 | 6))
}

/// Whether registers are not forgotten.
pub(super) fn keeps_registers(exchange: &Exchange) -> bool {
    matches!(forgetting(exchange), None | Some(6))
}

/// Whether local is not forgotten.
pub(super) fn keeps_local(exchange: &Exchange) -> bool {
    matches!(forgetting(exchange), None | Some(2 | 4 | 6))
}

/// Whether the panel is neither switched nor forgotten.
pub(super) fn keeps_panel(exchange: &Exchange) -> bool {
    keeps_local(exchange) && !switches_panel(exchange)
}

/// Whether the panel is switched on or off.
pub(super) fn switches_panel(exchange: &Exchange) -> bool {
    let is_switch = matches!(
        &exchange.command,
        Command::LocalEnable | Command::LocalDisable
    );
    is_switch && !is_refused(exchange)
}
