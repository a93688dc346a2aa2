//! A deck one state at a time, written from the rules with no sets: its moves, what its replies show, and what commands do to it.
//!
//! It is for the calls of a `Tracker`: after each of them all states of a small day are compared, for each kind of sets and with
//! sheets. Another plain deck, `tests/lib/deck`, is for the answers of the built program on whole captures. The two share no
//! line, so that a rule that one misreads shows in the other.

mod commands;
mod going;
mod replies;
mod sheet;

pub(super) use commands::{
    FORGETTABLE, LISTED_HEADS, change_of, forgets, head_of, is_free_in_local, sensed_by, small_of,
};
use deck9::{Change, Mode, Register};
pub(super) use going::{NOTHING, PlainGoing};
pub(super) use replies::{datum_of, shows};
pub(super) use sheet::{NO_SHEET, Sheet};
use tc25::TimeCode;

pub(super) const MODES: [Mode; 10] = [
    Mode::Stop,
    Mode::Play,
    Mode::Rec,
    Mode::FastForward,
    Mode::Rewind,
    Mode::Shuttle,
    Mode::Jog,
    Mode::Var,
    Mode::Cued,
    Mode::Eject,
];

pub(super) const REGISTERS: [Register; 4] = [
    Register::RegIn,
    Register::RegOut,
    Register::RegAudioIn,
    Register::RegAudioOut,
];

/// A state: of each register, in their order, its time where it is Set.
#[derive(Clone, Copy)]
pub(super) struct PlainState {
    pub(super) goal: Mode,
    pub(super) shown: Mode,
    pub(super) times: [Option<TimeCode>; 4],
    pub(super) local: bool,
    pub(super) panel: bool,
}

/// The times of a deck's day, in order.
#[derive(Clone, Copy)]
pub(super) struct Day<'a> {
    pub(super) times: &'a [TimeCode],
    /// After the last of the times comes the first one.
    pub(super) is_round: bool,
}

impl<'a> Day<'a> {
    /// A time in place of one that is not of the day, or the time itself.
    fn wrapped(&self, time: TimeCode, otherwise: Option<&TimeCode>) -> TimeCode {
        if self.is_round && !self.times.contains(&time) {
            otherwise.copied().unwrap_or_default()
        } else {
            time
        }
    }

    fn next(&self, time: TimeCode) -> TimeCode {
        self.wrapped(time.next(), self.times.first())
    }

    fn prev(&self, time: TimeCode) -> TimeCode {
        self.wrapped(time.prev(), self.times.last())
    }
}

/// A small step of a deck: a move by itself, or a part of what a command does.
#[derive(Clone, Copy)]
pub(super) enum Small {
    /// By itself, where this may be going on.
    Move(PlainGoing),
    Nothing,
    Go(Mode),
    GoOrKeep(Mode),
    /// To one of the modes that the sheet names for the command with this head, or the goal is kept.
    GoAsNamed(u32),
    Change(Register, Change),
    Panel(bool),
    AnyGoal,
    AnyShown,
    AnyLocal,
    AnyPanel,
}

/// No small step of a deck that does nothing of its own can be done in more ways.
const WAYS: usize = 10;

/// The modes that every deck may show on the way to a goal.
fn on_the_way<'a>(goal: Mode) -> &'a [Mode] {
    match goal {
        Mode::Rec => &[Mode::Stop, Mode::Play],
        Mode::Cued => &[
            Mode::Stop,
            Mode::Play,
            Mode::FastForward,
            Mode::Rewind,
            Mode::Shuttle,
            Mode::Jog,
            Mode::Var,
        ],
        _ => &[Mode::Stop],
    }
}

/// The mode at a place, counted from 0, of those that may be shown on the way to a goal: those of every deck, and then this one's.
fn way_at(sheet: &Sheet, goal: Mode, place: usize) -> Option<Mode> {
    let modes = on_the_way(goal);
    match place.checked_sub(modes.len()) {
        Some(further) => sheet.way_at(goal, further),
        None => modes.get(place).copied(),
    }
}

/// How many modes may be shown on the way to a goal.
fn count_ways(sheet: &Sheet, goal: Mode) -> usize {
    on_the_way(goal)
        .len()
        .saturating_add(sheet.count_ways(goal))
}

/// The state after a move of a deck by itself: one to the goal, one to each mode on the way, those of what may be going on, and one
/// to STOP.
fn moved(sheet: &Sheet, going: &PlainGoing, state: &PlainState, way: usize) -> Option<PlainState> {
    let mut after = *state;
    let Some(place) = way.checked_sub(1) else {
        after.shown = state.goal;
        return Some(after);
    };
    if let Some(mode) = way_at(sheet, state.goal, place) {
        after.shown = mode;
        return Some(after);
    }
    let further = place.saturating_sub(count_ways(sheet, state.goal));
    if let Some(after) = going.moved(state, further) {
        return Some(after);
    }
    after.goal = Mode::Stop;
    after.shown = Mode::Stop;
    if further == going.count_moves() && state.shown == state.goal {
        Some(after)
    } else {
        None
    }
}

/// The time of a register, where it is Set.
pub(super) fn time_of(state: &PlainState, register: Register) -> Option<TimeCode> {
    state.times.get(register as usize).copied().flatten()
}

/// The state with this in a register, and all else as it was.
fn with_time(state: &PlainState, register: Register, time: Option<TimeCode>) -> PlainState {
    let mut changed = *state;
    if let Some(old) = changed.times.get_mut(register as usize) {
        *old = time;
    }
    changed
}

/// The state after what a command does to a register is done in one of its ways, counted from 0, if it has that many.
fn changed(
    day: &Day,
    state: &PlainState,
    register: Register,
    change: &Change,
    way: usize,
) -> Option<PlainState> {
    let old = time_of(state, register);
    let time = match (change, way) {
        (Change::SetSomewhere, _) => Some(*day.times.get(way)?),
        (Change::SetAt(time), 0) => Some(*time),
        (Change::Next, 0) => old.map(|time| day.next(time)),
        (Change::Prev, 0) => old.map(|time| day.prev(time)),
        (Change::Reset | Change::Recall, 0) => None,
        (Change::Recall, _) => Some(*day.times.get(way.wrapping_sub(1))?),
        _ => return None,
    };
    Some(with_time(state, register, time))
}

/// The state after a small step that is done in one of its ways, counted from 0, if it has that many.
pub(super) fn done(
    day: &Day,
    sheet: &Sheet,
    state: &PlainState,
    small: &Small,
    way: usize,
) -> Option<PlainState> {
    let mut after = *state;
    match (*small, way) {
        (Small::Move(going), _) => return moved(sheet, &going, state, way),
        (Small::Nothing, 0) | (Small::GoOrKeep(_), 0) | (Small::GoAsNamed(_), 0) => {}
        (Small::GoAsNamed(head), _) => after.goal = sheet.goal_at(head, way.wrapping_sub(1))?,
        (Small::Go(goal), 0) | (Small::GoOrKeep(goal), 1) => after.goal = goal,
        (Small::Change(register, change), _) => {
            return changed(day, state, register, &change, way);
        }
        (Small::Panel(on), 0) => after.panel = on,
        (Small::AnyGoal, _) => after.goal = *MODES.get(way)?,
        (Small::AnyShown, _) => after.shown = *MODES.get(way)?,
        (Small::AnyLocal, 0 | 1) => after.local = way == 1,
        (Small::AnyPanel, 0 | 1) => after.panel = way == 1,
        _ => return None,
    }
    Some(after)
}
