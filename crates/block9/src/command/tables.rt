//! The tables of commands: which command the first two bytes of a block spell, a function for each group. What the data of the
//! block say is not in a table: there a blank stands in its place.
//!
//! Each is inlined into [`listed`], so that its match and the one which reads the data become one.
ghost use Rattle.std.specs.Prelude.{◌≡◌, ◌==◌, is_some};
ghost use Rattle.tc25.specs.declared.rate.Rate.{Rate as ARate};
ghost use Rattle.block9.specs.declared.block.Block.{Block as ABlock};
ghost use Rattle.block9.specs.Command.{has_row, meaning_in, preset_control, sense_requests, system_control, table_of, transport_control};
ghost use Rattle.block9.specs.Working.Row.{read_off};

use crate::command::Command;
use tc25::{Rate, TimeCode};

/// The command that a group's table has for the first two bytes of a block, and `None` where it has none.
#[inline(always)] // it is asked of every exchange
pub(super) fn listed(group: u32, head: u32) -> Option<Command>
    ensures meaning { (rate : ARate) (b : ABlock) → meaning_in (table_of rate group) head b ≡ read_off rate head b result }
    ensures listed { is_some result ≡ has_row (table_of Rate.Fps25 group) head }
{
    match group {
        0 => system_control(head),
        2 => transport_control(head),
        4 => preset_control(head),
        6 => sense_requests(head),
        _ => None,
    }
}

/// The system control commands: group 0.
#[inline(always)] // it is asked of every exchange
fn system_control(head: u32) -> Option<Command>
    ensures meaning { (rate : ARate) (b : ABlock) → meaning_in system_control head b ≡ read_off rate head b result }
    ensures listed { is_some result ≡ has_row system_control head }
{
    match head {
        0x00_0C => Some(Command::LocalDisable),
        0x00_11 => Some(Command::DeviceType),
        0x00_1D => Some(Command::LocalEnable),
        _ => None,
    }
}

/// The transport control commands: group 2.
#[inline(always)] // it is asked of every exchange
fn transport_control(head: u32) -> Option<Command>
    ensures meaning { (rate : ARate) (b : ABlock) → meaning_in (transport_control rate) head b ≡ read_off rate head b result }
    ensures listed { is_some result ≡ has_row (transport_control Rate.Fps25) head }
{
    let time = TimeCode::default();
    match head {
        0x20_00 => Some(Command::Stop),
        0x20_01 => Some(Command::Play),
        0x20_02 => Some(Command::Record),
        0x20_04 => Some(Command::StandbyOff),
        0x20_05 => Some(Command::StandbyOn),
        0x20_0F => Some(Command::Eject),
        0x20_10 => Some(Command::FastForward),
        0x21_11 | 0x22_11 => Some(Command::JogForward),
        0x21_12 | 0x22_12 => Some(Command::VarForward),
        0x21_13 | 0x22_13 => Some(Command::ShuttleForward),
        0x20_20 => Some(Command::Rewind),
        0x21_21 | 0x22_21 => Some(Command::JogReverse),
        0x21_22 | 0x22_22 => Some(Command::VarReverse),
        0x21_23 | 0x22_23 => Some(Command::ShuttleReverse),
        0x20_30 => Some(Command::Preroll),
        0x24_31 => Some(Command::CueUpWithData { time }),
        0x20_34 => Some(Command::SyncPlay),
        _ => None,
    }
}

/// The preset and select control commands: group 4.
#[inline(always)] // it is asked of every exchange
fn preset_control(head: u32) -> Option<Command>
    ensures meaning { (rate : ARate) (b : ABlock) → meaning_in (preset_control rate) head b ≡ read_off rate head b result }
    ensures listed { is_some result ≡ has_row (preset_control Rate.Fps25) head }
{
    let time = TimeCode::default();
    match head {
        0x40_10 => Some(Command::InEntry),
        0x40_11 => Some(Command::OutEntry),
        0x40_12 => Some(Command::AudioInEntry),
        0x40_13 => Some(Command::AudioOutEntry),
        0x44_14 => Some(Command::InDataPreset { time }),
        0x44_15 => Some(Command::OutDataPreset { time }),
        0x44_16 => Some(Command::AudioInDataPreset { time }),
        0x44_17 => Some(Command::AudioOutDataPreset { time }),
        0x40_18 => Some(Command::InShiftPlus),
        0x40_19 => Some(Command::InShiftMinus),
        0x40_1A => Some(Command::OutShiftPlus),
        0x40_1B => Some(Command::OutShiftMinus),
        0x40_1C => Some(Command::AudioInShiftPlus),
        0x40_1D => Some(Command::AudioInShiftMinus),
        0x40_1E => Some(Command::AudioOutShiftPlus),
        0x40_1F => Some(Command::AudioOutShiftMinus),
        0x40_20 => Some(Command::InFlagReset),
        0x40_21 => Some(Command::OutFlagReset),
        0x40_22 => Some(Command::AudioInFlagReset),
        0x40_23 => Some(Command::AudioOutFlagReset),
        0x40_24 => Some(Command::InRecall),
        0x40_25 => Some(Command::OutRecall),
        0x40_26 => Some(Command::AudioInRecall),
        0x40_27 => Some(Command::AudioOutRecall),
        0x41_30 | 0x42_30 => Some(Command::EditPreset),
        0x44_31 => Some(Command::PrerollPreset),
        0x41_36 => Some(Command::TimerModeSelect),
        0x40_40 => Some(Command::AutoModeOff),
        0x40_41 => Some(Command::AutoModeOn),
        _ => None,
    }
}

/// The sense requests: group 6.
#[inline(always)] // it is asked of every exchange
fn sense_requests(head: u32) -> Option<Command>
    ensures meaning { (rate : ARate) (b : ABlock) → meaning_in sense_requests head b ≡ read_off rate head b result }
    ensures listed { is_some result ≡ has_row sense_requests head }
{
    match head {
        0x61_0C => Some(Command::CurrentTimeSense { selector: 0 }),
        0x60_10 => Some(Command::InDataSense),
        0x60_11 => Some(Command::OutDataSense),
        0x60_12 => Some(Command::AudioInDataSense),
        0x60_13 => Some(Command::AudioOutDataSense),
        0x61_20 => Some(Command::StatusSense { asked: 0 }),
        _ => None,
    }
}
