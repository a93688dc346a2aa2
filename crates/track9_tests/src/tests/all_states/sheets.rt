//! Decks that do things of their own, by sheets that are drawn.

use super::{Course, NOON, agree_from_first};
use crate::tests::drawn::Draw;
use crate::tests::own_deck::profile_of;
use crate::tests::plain_deck::{LISTED_HEADS, Sheet};
use crate::tests::same;
use block9::Command;
use deck9::{Forgotten, Hands, Lost, Mode, Register};
use std::alloc::{AllocError, Global};
use std::ops::Range;
use std::process::Abort;
use std::test::Fail;
use tc25::TimeCode;

/// Commands that are not listed, of which a sheet may name each: two of group 2 that differ in the last bit, and one at least of
/// every group that has a rule of its own.
const HEADS: [u32; 8] = [
    0x00_50, 0x20_42, 0x20_61, 0x20_62, 0x40_50, 0x41_50, 0x60_50, 0x80_00,
];

/// A command that a sheet may name.
pub(super) fn unlisted(draw: &mut Draw) -> Command {
    let place = draw.below(8) as usize;
    let head = HEADS.get(place).copied().unwrap_or(0x00_50);
    Command::Unlisted { head }
}

/// A listed command that a sheet may name, with this time if it has one.
pub(super) fn listed(draw: &mut Draw, time: TimeCode) -> Command {
    match draw.below(7) {
        0 => Command::LocalDisable,
        1 => Command::DeviceType,
        2 => Command::Eject,
        3 => Command::InDataPreset { time },
        4 => Command::OutDataPreset { time },
        5 => Command::AudioInDataPreset { time },
        _ => Command::AudioOutDataPreset { time },
    }
}

/// Commands of which a sheet may say what the deck may do by itself: two that are not listed, and STOP, PLAY, STANDBY ON and EJECT.
const ACTING_HEADS: [u32; 6] = [0x20_42, 0x20_61, 0x20_00, 0x20_01, 0x20_05, 0x20_0F];

/// A command that may begin or end what a deck does by itself, or leave it as it is, or that asks for what shows it.
pub(super) fn acting(draw: &mut Draw) -> Command {
    match draw.below(16) {
        0..=2 => Command::Unlisted { head: 0x20_42 },
        3 => Command::Unlisted { head: 0x20_61 },
        4 => Command::Stop,
        5 => Command::Play,
        6 => Command::StandbyOn,
        7 => Command::Eject,
        8 => Command::CueUpWithData {
            time: TimeCode::default(),
        },
        9..=11 => Command::StatusSense { asked: 0x31 },
        _ => Command::StatusSense { asked: 0x12 },
    }
}

/// What a sheet names for a command, if it names something.
fn drawn_forgotten(draw: &mut Draw) -> Option<Forgotten> {
    match draw.below(6) {
        0 => Some(Forgotten::Nothing),
        1 => Some(Forgotten::Motion),
        2 => Some(Forgotten::Registers),
        3 => Some(Forgotten::Tape),
        4 => Some(Forgotten::Everything),
        _ => None,
    }
}

/// Whether what is named to be forgotten at a command goes with goals that are named for it.
fn goes_with_goals(forgotten: Forgotten) -> bool {
    matches!(forgotten, Forgotten::Nothing | Forgotten::Registers)
}

fn drawn_names(
    alloc: Global,
    draw: &mut Draw,
    heads: &[u32],
    goals: &[(u32, Mode)],
) -> Result<Vec<(u32, Forgotten)>, AllocError> {
    let mut named = Vec::new(alloc);
    for head in heads {
        let has_goals = goals.iter().any(|(other, _)| other == head);
        match drawn_forgotten(draw) {
            Some(forgotten) if !has_goals || goes_with_goals(forgotten) => {
                named.push((*head, forgotten))?;
            }
            _ => {}
        }
    }
    Ok(named)
}

/// Up to three modes for some of these commands, those of group 2 that are not listed, each of which may become the goal there.
fn drawn_goals(
    alloc: Global,
    draw: &mut Draw,
    heads: &[u32],
) -> Result<Vec<(u32, Mode)>, AllocError> {
    let mut goals = Vec::new(alloc);
    for head in heads {
        let may_have_some = *head / 0x10_00 == 2 && !LISTED_HEADS.contains(head);
        if may_have_some && draw.one_in(2) {
            for _ in 0..draw.below(4) {
                goals.push((*head, draw.mode()))?;
            }
        }
    }
    Ok(goals)
}

/// A goal, STOP more often than each other one.
fn drawn_goal(draw: &mut Draw) -> Mode {
    if draw.one_in(3) {
        Mode::Stop
    } else {
        draw.mode()
    }
}

/// Up to six modes, each on the way to a goal.
fn drawn_ways(alloc: Global, draw: &mut Draw) -> Result<Vec<(Mode, Mode)>, AllocError> {
    let mut ways = Vec::new(alloc);
    for _ in 0..draw.below(7) {
        let goal = drawn_goal(draw);
        ways.push((goal, draw.mode()))?;
    }
    Ok(ways)
}

/// Up to three modes for some of the commands at which the deck may begin something, which it may show by itself.
fn drawn_runs(alloc: Global, draw: &mut Draw) -> Result<Vec<(u32, Mode)>, AllocError> {
    let mut runs = Vec::new(alloc);
    let heads: &[u32] = if draw.one_in(2) { &ACTING_HEADS } else { &[] };
    for head in heads {
        if draw.one_in(3) {
            for _ in 0..draw.below(4) {
                runs.push((*head, draw.mode()))?;
            }
        }
    }
    Ok(runs)
}

/// The registers that the deck may clear by itself, for some of these commands.
fn drawn_loses(alloc: Global, draw: &mut Draw) -> Result<Vec<(u32, Lost)>, AllocError> {
    let mut loses = Vec::new(alloc);
    for head in ACTING_HEADS {
        match draw.below(8) {
            0 => loses.push((head, Lost::Points))?,
            1 => loses.push((head, Lost::AllRegisters))?,
            _ => {}
        }
    }
    Ok(loses)
}

/// A sheet that was drawn.
#[derive(Drop)]
struct DrawnSheet {
    named: Vec<(u32, Forgotten)>,
    goals: Vec<(u32, Mode)>,
    ways: Vec<(Mode, Mode)>,
    runs: Vec<(u32, Mode)>,
    loses: Vec<(u32, Lost)>,
}

impl DrawnSheet {
    /// A sheet that may name these commands.
    fn new(alloc: Global, draw: &mut Draw, heads: &[u32]) -> Result<DrawnSheet, AllocError> {
        let goals = drawn_goals(alloc, draw, heads)?;
        Ok(DrawnSheet {
            named: drawn_names(alloc, draw, heads, goals.as_slice())?,
            goals,
            ways: drawn_ways(alloc, draw)?,
            runs: drawn_runs(alloc, draw)?,
            loses: drawn_loses(alloc, draw)?,
        })
    }

    fn sheet(&self) -> Sheet {
        Sheet {
            named: self.named.as_slice(),
            goals: self.goals.as_slice(),
            ways: self.ways.as_slice(),
            runs: self.runs.as_slice(),
            loses: self.loses.as_slice(),
        }
    }
}

/// How many exchanges a course has at most.
const TURNS: u32 = 12;

/// Takes a course with a deck whose sheet is drawn, and may name these commands.
fn agree_with_sheet(
    rt: &impl Abort,
    alloc: Global,
    hands: Hands,
    registers: &'static [Register],
    heads: &[u32],
    seed: u32,
) -> Result<u32, AllocError> {
    let mut draw = Draw::new(seed);
    let drawn = DrawnSheet::new(alloc, &mut draw, heads)?;
    let profile = profile_of(alloc, hands, &drawn.sheet())?;
    let mut course = Course::new(&profile, NOON, registers, draw);
    course.sheet = drawn.sheet();
    course.turns = TURNS;
    agree_from_first(rt, alloc, &mut course)
}

/// Takes as many courses as these seeds, each with a sheet of its own.
fn agree_on_sheets(
    rt: &impl Abort,
    alloc: Global,
    hands: Hands,
    registers: &'static [Register],
    heads: &[u32],
    seeds: Range<u32>,
) -> Result<(), AllocError> {
    let courses = seeds.end.saturating_sub(seeds.start);
    let mut left = 0u32;
    for seed in seeds {
        let turns = agree_with_sheet(rt, alloc, hands, registers, heads, seed)?;
        left = left.saturating_add(turns);
    }
    // The draws have to leave states.
    same(rt, left / 6 >= courses, true, ("exchanges", left));
    Ok(())
}

// There are 1,000 courses with sheets that name commands that are not listed, and 100 with sheets that name listed ones.

#[test]
fn modes(rt: HostRuntime) -> Result<(), Fail> {
    agree_on_sheets(&rt, rt.alloc(), Hands::None, &[], &HEADS, 0..300)?;
    Ok(())
}

#[test]
fn modes_with_hands(rt: HostRuntime) -> Result<(), Fail> {
    agree_on_sheets(&rt, rt.alloc(), Hands::Allowed, &[], &HEADS, 300..600)?;
    Ok(())
}

#[test]
fn ins(rt: HostRuntime) -> Result<(), Fail> {
    let registers = &[Register::RegIn];
    agree_on_sheets(&rt, rt.alloc(), Hands::None, registers, &HEADS, 600..700)?;
    Ok(())
}

#[test]
fn audio_outs(rt: HostRuntime) -> Result<(), Fail> {
    let registers = &[Register::RegAudioOut];
    agree_on_sheets(&rt, rt.alloc(), Hands::None, registers, &HEADS, 700..800)?;
    Ok(())
}

#[test]
fn outs_with_hands(rt: HostRuntime) -> Result<(), Fail> {
    let registers = &[Register::RegOut];
    agree_on_sheets(&rt, rt.alloc(), Hands::Allowed, registers, &HEADS, 800..900)?;
    Ok(())
}

#[test]
fn audio_ins_with_hands(rt: HostRuntime) -> Result<(), Fail> {
    let registers = &[Register::RegAudioIn];
    agree_on_sheets(
        &rt,
        rt.alloc(),
        Hands::Allowed,
        registers,
        &HEADS,
        900..1_000,
    )?;
    Ok(())
}

#[test]
fn listed_modes(rt: HostRuntime) -> Result<(), Fail> {
    agree_on_sheets(&rt, rt.alloc(), Hands::None, &[], &LISTED_HEADS, 0..40)?;
    Ok(())
}

#[test]
fn listed_modes_with_hands(rt: HostRuntime) -> Result<(), Fail> {
    agree_on_sheets(&rt, rt.alloc(), Hands::Allowed, &[], &LISTED_HEADS, 40..80)?;
    Ok(())
}

#[test]
fn listed_ins(rt: HostRuntime) -> Result<(), Fail> {
    let registers = &[Register::RegIn];
    agree_on_sheets(
        &rt,
        rt.alloc(),
        Hands::None,
        registers,
        &LISTED_HEADS,
        80..90,
    )?;
    Ok(())
}

#[test]
fn listed_ins_with_hands(rt: HostRuntime) -> Result<(), Fail> {
    let registers = &[Register::RegIn];
    agree_on_sheets(
        &rt,
        rt.alloc(),
        Hands::Allowed,
        registers,
        &LISTED_HEADS,
        90..100,
    )?;
    Ok(())
}
