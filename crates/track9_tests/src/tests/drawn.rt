//! Exchanges that are drawn: commands of each kind, and replies that a deck in a given state may give.

use super::plain_deck::{
    Day, MODES, PlainGoing, PlainState, Sheet, Small, datum_of, done, sensed_by, time_of,
};
use block9::{Block, Command};
use deck9::Mode;
use std::process::Abort;
use tc25::TimeCode;

/// Numbers that look like drawn ones, and are the same in each run.
#[derive(Drop)]
pub(super) struct Draw(u32);

impl Draw {
    pub(super) fn new(seed: u32) -> Draw {
        Draw(seed)
    }

    /// A number below 16,777,216.
    fn number(&mut self) -> u32 {
        self.0 = self.0.wrapping_mul(1_664_525).wrapping_add(1_013_904_223);
        self.0 >> 8
    }

    /// A number below that one, which is not 0.
    pub(super) fn below(&mut self, most: u32) -> u32 {
        self.number().checked_rem(most).unwrap_or(0)
    }

    /// Whether one of that many, which are not 0, is drawn.
    pub(super) fn one_in(&mut self, most: u32) -> bool {
        self.below(most) == 0
    }

    fn byte(&mut self) -> u8 {
        (self.number() % 256) as u8
    }

    /// One of the times.
    pub(super) fn time(&mut self, times: &[TimeCode]) -> TimeCode {
        let count = u32::try_from(times.len()).unwrap_or(0);
        let place = self.below(count) as usize;
        times.get(place).copied().unwrap_or_default()
    }

    /// Any mode.
    pub(super) fn mode(&mut self) -> Mode {
        let place = self.below(10) as usize;
        MODES.get(place).copied().unwrap_or(Mode::Stop)
    }

    /// One of the ways in which the small steps of a deck can be done.
    pub(super) fn way(&mut self, sheet: &Sheet) -> usize {
        let most = u32::try_from(sheet.most_ways()).unwrap_or(1);
        self.below(most) as usize
    }

    /// One of the commands.
    fn command(&mut self, commands: &[Command]) -> Command {
        let count = u32::try_from(commands.len()).unwrap_or(0);
        let place = self.below(count) as usize;
        commands.get(place).copied().unwrap_or(Command::Stop)
    }
}

const SENSES: [Command; 4] = [
    Command::InDataSense,
    Command::OutDataSense,
    Command::AudioInDataSense,
    Command::AudioOutDataSense,
];

const SHIFTS: [Command; 8] = [
    Command::InShiftPlus,
    Command::InShiftMinus,
    Command::OutShiftPlus,
    Command::OutShiftMinus,
    Command::AudioInShiftPlus,
    Command::AudioInShiftMinus,
    Command::AudioOutShiftPlus,
    Command::AudioOutShiftMinus,
];

/// All other listed commands that carry nothing which counts.
const OTHERS: [Command; 37] = [
    Command::LocalDisable,
    Command::DeviceType,
    Command::LocalEnable,
    Command::Stop,
    Command::Play,
    Command::Record,
    Command::StandbyOff,
    Command::StandbyOn,
    Command::Eject,
    Command::FastForward,
    Command::JogForward,
    Command::VarForward,
    Command::ShuttleForward,
    Command::Rewind,
    Command::JogReverse,
    Command::VarReverse,
    Command::ShuttleReverse,
    Command::Preroll,
    Command::SyncPlay,
    Command::InEntry,
    Command::OutEntry,
    Command::AudioInEntry,
    Command::AudioOutEntry,
    Command::InFlagReset,
    Command::OutFlagReset,
    Command::AudioInFlagReset,
    Command::AudioOutFlagReset,
    Command::InRecall,
    Command::OutRecall,
    Command::AudioInRecall,
    Command::AudioOutRecall,
    Command::EditPreset,
    Command::PrerollPreset,
    Command::TimerModeSelect,
    Command::AutoModeOff,
    Command::AutoModeOn,
    Command::CurrentTimeSense { selector: 1 },
];

/// A command that is not listed, mostly of a group of the protocol.
fn unlisted(draw: &mut Draw) -> Command {
    let drawn = u32::from(draw.byte() % 16);
    let group = if draw.one_in(4) { drawn } else { drawn & 0x06 };
    Command::Unlisted {
        head: group * 0x10_00 + 0xFF,
    }
}

/// A command whose time, if it has one, is one of these.
pub(super) fn command(draw: &mut Draw, times: &[TimeCode]) -> Command {
    let time = draw.time(times);
    match draw.below(32) {
        0 | 1 => Command::InDataPreset { time },
        2 | 3 => Command::OutDataPreset { time },
        4 | 5 => Command::AudioInDataPreset { time },
        6 | 7 => Command::AudioOutDataPreset { time },
        8 => Command::CueUpWithData { time },
        9 | 10 => Command::StatusSense { asked: draw.byte() },
        11 => Command::StatusSense { asked: 0x12 },
        12 => Command::StatusSense { asked: 0x04 },
        13 => unlisted(draw),
        14..=17 => draw.command(&SENSES),
        18..=22 => draw.command(&SHIFTS),
        _ => draw.command(&OTHERS),
    }
}

/// The state after up to three moves that are drawn, where this may be going on.
pub(super) fn moved(
    draw: &mut Draw,
    day: &Day,
    sheet: &Sheet,
    going: PlainGoing,
    state: &PlainState,
) -> PlainState {
    let mut moved = *state;
    for _ in 0..3 {
        let way = draw.way(sheet);
        if let Some(after) = done(day, sheet, &moved, &Small::Move(going), way) {
            moved = after;
        }
    }
    moved
}

/// The block with this first byte and code, and as many of these data as the first byte says.
pub(super) fn block(rt: &impl Abort, first: u8, code: u8, data: [u8; 15]) -> Block {
    let count = usize::from(first % 16);
    let mut bytes = [0u8; 18];
    bytes[0] = first;
    bytes[1] = code;
    let mut sum = first.wrapping_add(code);
    for place in 0..count {
        let byte = data[place];
        bytes[place + 2] = byte;
        sum = sum.wrapping_add(byte);
    }
    bytes[count + 2] = sum;
    Block::from_bytes(&bytes[..count + 3]).expect(rt, "a block")
}

/// Fifteen data that begin with these four.
fn data([a, b, c, d]: [u8; 4]) -> [u8; 15] {
    [a, b, c, d, 0, 0, 0, 0, 0, 0, 0, 0, 0, 0, 0]
}

/// The bytes of a time, with any flag bits.
fn time_data(draw: &mut Draw, time: TimeCode) -> [u8; 15] {
    let [frames, seconds, minutes, hours] = time.to_bytes();
    data([
        frames | (draw.byte() & 0xC0),
        seconds | (draw.byte() & 0x80),
        minutes | (draw.byte() & 0x80),
        hours | (draw.byte() & 0xC0),
    ])
}

/// What a register's sense gives: its time, and of a Clear one any of the times or no valid time.
fn register_data(draw: &mut Draw, held: Option<TimeCode>, times: &[TimeCode]) -> [u8; 15] {
    let is_invalid = draw.one_in(3);
    let other = draw.time(times);
    match held {
        Some(time) => time_data(draw, time),
        None if is_invalid => data([0xFF, draw.byte(), 0xFF, draw.byte()]),
        None => time_data(draw, other),
    }
}

/// What STATUS SENSE gives: no more data than were asked for.
fn status(rt: &impl Abort, draw: &mut Draw, state: &PlainState, asked: u8) -> Block {
    let count = if draw.one_in(4) {
        draw.byte() % (asked % 16 + 1)
    } else {
        asked % 16
    };
    let second = draw.one_in(3);
    let mut data = [0u8; 15];
    let mut number = asked >> 4;
    for datum in data.iter_mut() {
        *datum = datum_of(state, number, draw.byte(), second);
        number = number.wrapping_add(1);
    }
    block(rt, 0x70 | count, 0x20, data)
}

/// A reply to CURRENT TIME SENSE.
fn current_time(rt: &impl Abort, draw: &mut Draw, times: &[TimeCode]) -> Block {
    let time = draw.time(times);
    match draw.below(6) {
        0 => block(rt, 0x74, 0x00, [0xFF; 15]),
        1 => block(rt, 0x74, 0x01, [0x99; 15]),
        2 => block(rt, 0x74, 0x04, time_data(draw, time)),
        3 => block(rt, 0x74, 0x06, time_data(draw, time)),
        4 => block(rt, 0x74, 0x14, time_data(draw, time)),
        _ => block(rt, 0x74, 0x16, time_data(draw, time)),
    }
}

/// A reply that a deck in this state may give, or a NAK. A Clear register gives no other valid times than these.
pub(super) fn reply(
    rt: &impl Abort,
    draw: &mut Draw,
    state: &PlainState,
    command: &Command,
    times: &[TimeCode],
) -> Block {
    if draw.one_in(12) {
        return block(rt, 0x11, 0x12, data([draw.byte(), 0, 0, 0]));
    }
    if let Some((code, register)) = sensed_by(command) {
        let data = register_data(draw, time_of(state, register), times);
        return block(rt, 0x74, code, data);
    }
    match command {
        Command::StatusSense { asked } => status(rt, draw, state, *asked),
        Command::CurrentTimeSense { .. } => current_time(rt, draw, times),
        Command::DeviceType => block(rt, 0x12, 0x11, data([draw.byte(), draw.byte(), 0, 0])),
        Command::Unlisted { .. } if draw.one_in(4) => {
            block(rt, 0x70 | (draw.byte() % 16), draw.byte(), [0xAA; 15])
        }
        _ => block(rt, 0x10, 0x01, [0; 15]),
    }
}
