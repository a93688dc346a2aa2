//! Changes against the state before or after, where no hand can have been between.

use super::Place;
use super::commands::{
    Deed, deed_to, goal_of, is_refused, keeps_local, keeps_modes, keeps_panel, keeps_registers,
    preset_of,
};
use super::entries::{entry_of, far_from, turned_entry, with_entry};
use super::fields::{with_goal, with_other_local, with_other_panel, with_shown};
use block9::Exchange;
use deck9::{Hands, Mode, Register, State};

/// The state before, if its panel was off.
fn untouched_before<'a>(place: &Place<'a>) -> Option<&'a State> {
    let before = place.before?;
    if before.panel {
        return None;
    }
    Some(before)
}

/// What comes next, if the panel was off until then.
fn untouched_next<'a>(place: &Place<'a>) -> Option<(&'a Exchange, &'a State)> {
    if place.state.panel {
        return None;
    }
    place.next
}

/// Local is not what it was before, or will be.
pub(super) fn strayed_local(place: &Place) -> Option<State> {
    let was_kept = untouched_before(place).is_some() && keeps_local(place.exchange);
    let is_kept = match untouched_next(place) {
        Some((exchange, _)) => keeps_local(exchange),
        None => false,
    };
    if !was_kept && !is_kept {
        return None;
    }
    Some(with_other_local(place.state))
}

/// The panel, which a hand can't switch, is not what it was before, or will be.
pub(super) fn strayed_panel(place: &Place) -> Option<State> {
    let was_kept = place.before.is_some() && keeps_panel(place.exchange);
    let is_kept = match place.next {
        Some((exchange, _)) => keeps_panel(exchange),
        None => false,
    };
    if place.hands == Hands::None || !was_kept && !is_kept {
        return None;
    }
    Some(with_other_panel(place.state))
}

/// The first of some modes that is neither of two.
fn neither(modes: &[Mode], first: Mode, second: Mode) -> Option<Mode> {
    for mode in modes {
        if *mode != first && *mode != second {
            return Some(*mode);
        }
    }
    None
}

/// The goal is neither that of the state before, nor STOP, nor the command's.
pub(super) fn strayed_goal(place: &Place) -> Option<State> {
    let before = untouched_before(place)?;
    if !keeps_modes(place.exchange) {
        return None;
    }
    let asked = goal_of(&place.exchange.command).unwrap_or(Mode::Stop);
    let others = [Mode::Play, Mode::Rec, Mode::Rewind];
    let goal = neither(&others, before.goal, asked)?;
    Some(with_goal(place.state, goal))
}

/// The goal is another one than that of the state after, which was not given to it since, and is not the STOP at the end
/// of the tape.
pub(super) fn lost_goal(place: &Place) -> Option<State> {
    let (exchange, next) = untouched_next(place)?;
    let is_given = goal_of(&exchange.command).is_some() && !is_refused(exchange);
    if !keeps_modes(exchange) || is_given || next.goal == Mode::Stop {
        return None;
    }
    let goal = neither(&[Mode::Play, Mode::Rec], next.goal, Mode::Stop)?;
    Some(with_goal(place.state, goal))
}

/// The mode that is shown is neither that of the state before, nor its goal, nor on a way: these three are on none.
pub(super) fn strayed_shown(place: &Place) -> Option<State> {
    let before = untouched_before(place)?;
    if !keeps_modes(place.exchange) {
        return None;
    }
    let others = [Mode::Rec, Mode::Cued, Mode::Eject];
    let shown = neither(&others, before.goal, before.shown)?;
    Some(with_shown(place.state, shown))
}

/// Whether a deck with this goal may come to show a mode: the goal, or one on the way to it.
fn may_come_to(goal: Mode, shown: Mode) -> bool {
    shown == goal
        || match goal {
            Mode::Rec => matches!(shown, Mode::Stop | Mode::Play),
            Mode::Cued => !matches!(shown, Mode::Rec | Mode::Eject),
            _ => shown == Mode::Stop,
        }
}

/// The mode that is shown is another one than that of the state after, to which the deck can't have come since.
pub(super) fn lost_shown(place: &Place) -> Option<State> {
    let (exchange, next) = untouched_next(place)?;
    if !keeps_modes(exchange) || may_come_to(place.state.goal, next.shown) {
        return None;
    }
    let shown = neither(&[Mode::Play, Mode::Rec], next.shown, Mode::Stop)?;
    Some(with_shown(place.state, shown))
}

/// A register holds a time that is neither that of the state before, nor next to it, nor the command's.
pub(super) fn strayed_register(place: &Place, register: Register) -> Option<State> {
    let before = untouched_before(place)?;
    let is_any = matches!(
        deed_to(place.exchange, register),
        Some(Deed::Enters | Deed::Recalls)
    );
    if is_any || !keeps_registers(place.exchange) {
        return None;
    }
    let preset = preset_of(&place.exchange.command);
    let entry = far_from(entry_of(before, register), preset);
    Some(with_entry(place.state, register, &entry))
}

/// Whether an exchange leaves a register Set or Clear as it was: it does nothing to it, or moves it.
fn keeps_set(exchange: &Exchange, register: Register) -> bool {
    let is_kept = matches!(deed_to(exchange, register), None | Some(Deed::Shifts));
    is_kept && keeps_registers(exchange)
}

/// A register is Set, and was Clear before or will be, or the other way about.
pub(super) fn turned(place: &Place, register: Register) -> Option<State> {
    let was_kept = untouched_before(place).is_some() && keeps_set(place.exchange, register);
    let is_kept = match untouched_next(place) {
        Some((exchange, _)) => keeps_set(exchange, register),
        None => false,
    };
    if !was_kept && !is_kept {
        return None;
    }
    let entry = turned_entry(entry_of(place.state, register));
    Some(with_entry(place.state, register, &entry))
}

/// A register holds a time that is neither that of the state after nor next to it, and nothing else happened to it since.
pub(super) fn lost_register(place: &Place, register: Register) -> Option<State> {
    let (exchange, next) = untouched_next(place)?;
    if !keeps_set(exchange, register) {
        return None;
    }
    let entry = far_from(entry_of(next, register), None);
    Some(with_entry(place.state, register, &entry))
}
