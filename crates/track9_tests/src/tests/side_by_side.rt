//! Both kinds of sets of times beside each other, on exchanges that are drawn with a deck that gives most of them.

use super::drawn::{Draw, command, moved, reply};
use super::plain_deck::{
    Day, FORGETTABLE, NO_SHEET, NOTHING, PlainState, REGISTERS, Small, done, forgets,
    is_free_in_local, small_of,
};
use super::{known, observe, same};
use block9::{Block, Command, NakBits};
use deck9::Hands;
use sets25::{ListSet, SpanSet};
use std::alloc::{AllocError, Global};
use std::process::Abort;
use std::test::Fail;
use tc25::TimeCode;
use track9::Tracker;

/// Frames round midnight and noon, some of them neighbours.
const FRAMES: [u32; 12] = [
    0, 1, 2, 4, 1_079_998, 1_079_999, 1_080_000, 1_080_003, 2_159_995, 2_159_997, 2_159_998,
    2_159_999,
];

/// A deck, and the exchanges that are drawn with it.
#[derive(Drop)]
struct Run {
    draw: Draw,
    times: [TimeCode; 12],
    hands: Hands,
    state: PlainState,
}

/// Any state, with the panel on where it says so.
fn drawn_state(draw: &mut Draw, times: &[TimeCode], panel: bool) -> PlainState {
    let mut held = [None; 4];
    for time in held.iter_mut() {
        let drawn = draw.time(times);
        *time = if draw.one_in(3) { None } else { Some(drawn) };
    }
    PlainState {
        goal: draw.mode(),
        shown: draw.mode(),
        times: held,
        local: draw.one_in(2),
        panel,
    }
}

impl Run {
    fn new(hands: Hands, seed: u32) -> Run {
        let times = FRAMES.map(|frame| TimeCode::from_frames(frame).unwrap_or_default());
        let mut draw = Draw::new(seed);
        let state = drawn_state(&mut draw, &times, hands == Hands::Allowed);
        Run {
            draw,
            times,
            hands,
            state,
        }
    }

    /// A command, and a reply after a drift. Now and then another deck gives it.
    fn exchange(&mut self, rt: &impl Abort) -> (Command, Block) {
        let command = command(&mut self.draw, &self.times);
        let is_touched = self.hands == Hands::Allowed && self.state.panel && self.draw.one_in(4);
        if is_touched || self.draw.one_in(256) {
            self.state = drawn_state(&mut self.draw, &self.times, self.state.panel);
        }
        let day = Day {
            times: &self.times,
            is_round: false,
        };
        self.state = moved(&mut self.draw, &day, &NO_SHEET, NOTHING, &self.state);
        let reply = reply(rt, &mut self.draw, &self.state, &command, &self.times);
        (command, reply)
    }

    /// Does a small step, in a way that is drawn.
    fn step(&mut self, small: &Small) {
        let day = Day {
            times: &self.times,
            is_round: false,
        };
        let way = self.draw.way(&NO_SHEET);
        let after = match done(&day, &NO_SHEET, &self.state, small, way) {
            Some(after) => Some(after),
            None => done(&day, &NO_SHEET, &self.state, small, 0),
        };
        if let Some(after) = after {
            self.state = after;
        }
    }

    /// Whether the command is left undone: it was not acknowledged, or the deck is in LOCAL.
    fn leaves(&mut self, command: &Command, reply: &Block) -> bool {
        let is_left = self.draw.one_in(2);
        NakBits::of(reply).is_some() || (is_left && self.state.local && is_free_in_local(command))
    }

    /// Forgets what the command makes it forget.
    fn forget(&mut self, command: &Command) {
        for small in FORGETTABLE.iter() {
            if forgets(&NO_SHEET, command, self.hands, small) {
                self.step(small);
            }
        }
    }

    /// Does what the command does, in ways that are drawn.
    fn follow(&mut self, command: &Command, reply: &Block) {
        if !self.leaves(command, reply) {
            self.step(&small_of(&NO_SHEET, command, self.hands));
            self.forget(command);
        }
    }
}

/// How much was compared.
#[derive(Drop)]
struct Tally {
    /// Exchanges that left a state.
    left: u32,
    /// The most spans of a register.
    spans: usize,
}

impl Tally {
    /// Counts the spans of each register, which are at most two more than its presets.
    fn count(&mut self, rt: &impl Abort, tracker: &Tracker<SpanSet>) {
        self.left = self.left.saturating_add(1);
        for register in REGISTERS {
            let spans = tracker.spans(register);
            let most = u64::from(tracker.presets(register)) + 2;
            same(
                rt,
                spans as u64 <= most,
                true,
                (register as u8, spans, most),
            );
            self.spans = self.spans.max(spans);
        }
    }
}

/// Both trackers take an exchange and answer the same: whether a state remains, and what is known.
pub(super) fn agree(
    rt: &impl Abort,
    lists: &mut Tracker<ListSet>,
    spans: &mut Tracker<SpanSet>,
    command: &Command,
    reply: &Block,
) -> Result<bool, AllocError> {
    let remains = observe(rt, spans, command, reply)?;
    let listed = observe(rt, lists, command, reply)?;
    let answers = (listed, spans.remains(), lists.remains());
    same(
        rt,
        answers,
        (remains, remains, remains),
        (command.name(), reply.head()),
    );
    if remains {
        same(
            rt,
            known(rt, spans),
            known(rt, lists),
            (command.name(), reply.head()),
        );
    }
    Ok(remains)
}

/// Both take the exchanges of a run, until no state remains.
fn agree_on(
    rt: &impl Abort,
    lists: &mut Tracker<ListSet>,
    spans: &mut Tracker<SpanSet>,
    run: &mut Run,
    tally: &mut Tally,
) -> Result<(), AllocError> {
    for _ in 0..200 {
        let (command, reply) = run.exchange(rt);
        if !agree(rt, lists, spans, &command, &reply)? {
            return Ok(());
        }
        tally.count(rt, spans);
        run.follow(&command, &reply);
    }
    Ok(())
}

fn agree_beside_lists(
    rt: &impl Abort,
    alloc: Global,
    lists: &mut Tracker<ListSet>,
    run: &mut Run,
    tally: &mut Tally,
) -> Result<(), AllocError> {
    let mut spans: Tracker<SpanSet> = Tracker::new(alloc, run.hands)?;
    let result = agree_on(rt, lists, &mut spans, run, tally);
    drop(spans);
    result
}

fn agree_from_first(
    rt: &impl Abort,
    alloc: Global,
    run: &mut Run,
    tally: &mut Tally,
) -> Result<(), AllocError> {
    let mut lists: Tracker<ListSet> = Tracker::new(alloc, run.hands)?;
    let result = agree_beside_lists(rt, alloc, &mut lists, run, tally);
    drop(lists);
    result
}

/// Takes runs that differ.
fn agree_on_runs(rt: &impl Abort, alloc: Global, hands: Hands) -> Result<(), AllocError> {
    let mut tally = Tally { left: 0, spans: 0 };
    for seed in 0..30 {
        agree_from_first(rt, alloc, &mut Run::new(hands, seed), &mut tally)?;
    }
    // The draws have to leave states, and some with times that lie apart.
    let are_enough = (tally.left >= 2_000, tally.spans >= 3);
    same(rt, are_enough, (true, true), (tally.left, tally.spans));
    Ok(())
}

#[test]
fn untouched(rt: HostRuntime) -> Result<(), Fail> {
    agree_on_runs(&rt, rt.alloc(), Hands::None)?;
    Ok(())
}

#[test]
fn with_hands(rt: HostRuntime) -> Result<(), Fail> {
    agree_on_runs(&rt, rt.alloc(), Hands::Allowed)?;
    Ok(())
}
