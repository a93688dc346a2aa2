//! The tracker beside a deck of which each state stands in a list, on exchanges that are drawn.
//!
//! The listed deck's day has three frames, round midnight or noon, and it has two registers, one or none; the others
//! are always Clear. The exchanges have those times and change those registers alone, and shift none that may be known to be
//! at the edge of the day. So both give the same answers: a register that may be Set at any time has the three.

mod back;
mod edges;
mod joined;
mod listed;
mod sheets;

use super::drawn::{Draw, command, moved, reply};
use super::plain_deck::{Day, NO_SHEET, Sheet};
use super::{complete, known, named_block, observe, same};
use back::{Way, go_back};
use block9::{Block, Command};
use deck9::{Hands, Knowledge, KnownEntry, Profile, Register};
use edges::Edges;
use listed::ListedDeck;
use sets25::SpanSet;
use std::alloc::{AllocError, Global};
use std::fmt::Debug;
use std::process::Abort;
use std::test::Fail;
use tc25::TimeCode;
use track9::Tracker;

/// What both decks take next.
enum Turn {
    Exchange,
    /// An exchange, of which the reply is not believed.
    Unknown,
    Drift,
}

/// What is drawn, and the registers' places in the day that follow from it.
#[derive(Drop)]
struct Course<'a> {
    draw: Draw,
    profile: &'a Profile,
    /// What the profile's deck does of its own, plainly.
    sheet: Sheet<'a>,
    /// How many exchanges are drawn at most.
    turns: u32,
    times: [TimeCode; 3],
    registers: &'static [Register],
    edges: Edges,
}

impl<'a> Course<'a> {
    /// Up to forty exchanges with a deck that does nothing of its own.
    fn new(
        profile: &'a Profile,
        middle: u32,
        registers: &'static [Register],
        draw: Draw,
    ) -> Course<'a> {
        let middle = TimeCode::from_frames(middle).unwrap_or_default();
        let times = [middle.prev(), middle, middle.next()];
        Course {
            draw,
            profile,
            sheet: NO_SHEET,
            turns: 40,
            times,
            registers,
            edges: Edges::new(times),
        }
    }

    fn turn(&mut self) -> Turn {
        match self.draw.below(16) {
            0 => Turn::Drift,
            1 => Turn::Unknown,
            _ => Turn::Exchange,
        }
    }

    /// A command of any kind. Where the deck does something by itself, every second begins it, ends it, or may show it. Where its sheet
    /// names some else, every third is not listed and may be named, and so may some that are.
    fn any_command(&mut self) -> Command {
        if self.sheet.acts() && self.draw.one_in(2) {
            sheets::acting(&mut self.draw)
        } else if !self.sheet.named.is_empty() && self.draw.one_in(3) {
            sheets::unlisted(&mut self.draw)
        } else if self.sheet.names_listed() && self.draw.one_in(3) {
            let time = self.draw.time(&self.times);
            sheets::listed(&mut self.draw, time)
        } else {
            command(&mut self.draw, &self.times)
        }
    }

    /// A command that both decks can take.
    fn command(&mut self) -> Command {
        for _ in 0..100 {
            let drawn = self.any_command();
            if self.edges.allow(&drawn, self.registers) {
                return drawn;
            }
        }
        Command::Stop
    }

    /// A reply that mostly some possible state gives.
    fn reply(&mut self, rt: &impl Abort, deck: &ListedDeck, command: &Command) -> Block {
        let state = deck.drawn_state(&mut self.draw).expect(rt, "a state");
        let day = Day {
            times: &self.times,
            is_round: true,
        };
        let state = moved(&mut self.draw, &day, &self.sheet, deck.going(), &state);
        reply(rt, &mut self.draw, &state, command, &self.times)
    }
}

/// What is known, where the registers that a listed deck has not count as Clear.
fn known_of(rt: &impl Abort, tracker: &Tracker<SpanSet>, registers: &[Register]) -> Knowledge {
    let mut knowledge = known(rt, tracker);
    if !registers.contains(&Register::RegIn) {
        knowledge.ins = KnownEntry::Clear;
    }
    if !registers.contains(&Register::RegOut) {
        knowledge.outs = KnownEntry::Clear;
    }
    if !registers.contains(&Register::RegAudioIn) {
        knowledge.ains = KnownEntry::Clear;
    }
    if !registers.contains(&Register::RegAudioOut) {
        knowledge.aouts = KnownEntry::Clear;
    }
    knowledge
}

/// Both answer the same: whether a state remains, which modes may be shown, and what is known.
fn agree_now<C: Debug + Drop + Copy>(
    rt: &impl Abort,
    deck: &ListedDeck,
    tracker: &Tracker<SpanSet>,
    registers: &[Register],
    remains: bool,
    case: C,
) {
    let listed = deck.knowledge();
    let answers = (tracker.remains(), listed.is_some());
    same(rt, answers, (remains, remains), case);
    same(rt, tracker.shown(), deck.shown(), case);
    if let Some(listed) = listed {
        same(rt, known_of(rt, tracker, registers), listed, case);
    }
}

/// Both take an exchange and answer the same, now and then on the way back too. Answers whether a state remains.
fn agree(
    rt: &impl Abort,
    deck: &mut ListedDeck,
    tracker: &mut Tracker<SpanSet>,
    course: &mut Course,
) -> Result<bool, AllocError> {
    let command = course.command();
    let reply = course.reply(rt, deck, &command);
    if course.draw.one_in(8) {
        go_back(rt, deck, tracker, course, Way::Exchange(&command, &reply))?;
    }
    let remains = observe(rt, tracker, &command, &reply)?;
    deck.observe(&command, &reply)?;
    let case = (command.name(), reply.head());
    agree_now(rt, deck, tracker, course.registers, remains, case);
    course.edges.follow(&course.sheet, &command, &reply);
    Ok(remains)
}

/// The same of an exchange, of which the reply is not believed.
fn agree_on_unknown(
    rt: &impl Abort,
    deck: &mut ListedDeck,
    tracker: &mut Tracker<SpanSet>,
    course: &mut Course,
) -> Result<bool, AllocError> {
    let command = course.command();
    let reply = course.reply(rt, deck, &command);
    let exchange = complete(&command, named_block(rt, &command), &reply);
    tracker.take_unknown(&exchange)?;
    deck.take_unknown(&command)?;
    let case = (command.name(), reply.head());
    agree_now(rt, deck, tracker, course.registers, true, case);
    course.edges.follow_unknown(&course.sheet, &command);
    Ok(true)
}

/// The same of a drift alone, and of the way back before it.
fn agree_on_drift(
    rt: &impl Abort,
    deck: &mut ListedDeck,
    tracker: &mut Tracker<SpanSet>,
    course: &mut Course,
) -> Result<bool, AllocError> {
    go_back(rt, deck, tracker, course, Way::Drift)?;
    tracker.drift()?;
    deck.drift()?;
    agree_now(rt, deck, tracker, course.registers, true, "a drift");
    Ok(true)
}

/// Both take what is drawn of a course, until no state remains. Answers how many turns left one.
fn agree_on(
    rt: &impl Abort,
    deck: &mut ListedDeck,
    tracker: &mut Tracker<SpanSet>,
    course: &mut Course,
) -> Result<u32, AllocError> {
    for turn in 0..course.turns {
        let remains = match course.turn() {
            Turn::Exchange => agree(rt, deck, tracker, course)?,
            Turn::Unknown => agree_on_unknown(rt, deck, tracker, course)?,
            Turn::Drift => agree_on_drift(rt, deck, tracker, course)?,
        };
        if !remains {
            return Ok(turn);
        }
    }
    Ok(course.turns)
}

fn agree_beside_list(
    rt: &impl Abort,
    alloc: Global,
    deck: &mut ListedDeck,
    course: &mut Course,
) -> Result<u32, AllocError> {
    let mut tracker: Tracker<SpanSet> = Tracker::of(alloc, course.profile)?;
    let result = agree_on(rt, deck, &mut tracker, course);
    drop(tracker);
    result
}

fn agree_from_first(
    rt: &impl Abort,
    alloc: Global,
    course: &mut Course,
) -> Result<u32, AllocError> {
    let hands = course.profile.hands;
    let mut deck = ListedDeck::new(alloc, hands, course.sheet, course.times, course.registers)?;
    let result = agree_beside_list(rt, alloc, &mut deck, course);
    drop(deck);
    result
}

/// Takes that many courses, which differ.
fn agree_on_courses(
    rt: &impl Abort,
    alloc: Global,
    hands: Hands,
    registers: &'static [Register],
    middle: u32,
    courses: u32,
) -> Result<(), AllocError> {
    let profile = Profile::of(hands);
    let mut left = 0u32;
    for seed in 0..courses {
        let mut course = Course::new(&profile, middle, registers, Draw::new(seed));
        let turns = agree_from_first(rt, alloc, &mut course)?;
        left = left.saturating_add(turns);
    }
    // The draws have to leave states.
    same(rt, left / 8 >= courses, true, ("exchanges", left));
    Ok(())
}

const MIDNIGHT: u32 = 0;

const NOON: u32 = 1_080_000;

#[test]
fn modes(rt: HostRuntime) -> Result<(), Fail> {
    agree_on_courses(&rt, rt.alloc(), Hands::None, &[], NOON, 80)?;
    Ok(())
}

#[test]
fn modes_with_hands(rt: HostRuntime) -> Result<(), Fail> {
    agree_on_courses(&rt, rt.alloc(), Hands::Allowed, &[], NOON, 40)?;
    Ok(())
}

#[test]
fn registers(rt: HostRuntime) -> Result<(), Fail> {
    let registers = &[Register::RegIn, Register::RegAudioOut];
    agree_on_courses(&rt, rt.alloc(), Hands::None, registers, MIDNIGHT, 3)?;
    Ok(())
}

#[test]
fn registers_with_hands(rt: HostRuntime) -> Result<(), Fail> {
    let registers = &[Register::RegOut, Register::RegAudioIn];
    agree_on_courses(&rt, rt.alloc(), Hands::Allowed, registers, NOON, 3)?;
    Ok(())
}
