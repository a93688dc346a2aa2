//! Changes against what a deck did, or can't have done.

use super::Place;
use super::commands::{Deed, deed_to, goal_of, is_refused, switches_panel};
use super::entries::{entry_of, one_on, with_entry};
use super::fields::{with_goal, with_other_panel};
use deck9::{Entry, Hands, Mode, Register, State};
use tc25::TimeCode;

/// The panel is on, though nobody touches it.
pub(super) fn touched(place: &Place) -> Option<State> {
    if place.hands == Hands::Allowed {
        return None;
    }
    Some(State {
        panel: true,
        ..*place.state
    })
}

/// After LOCAL ENABLE and LOCAL DISABLE where hands are allowed: the panel is what it was not switched to, in LOCAL or not.
pub(super) fn switched(place: &Place) -> Option<State> {
    if place.hands == Hands::None || !switches_panel(place.exchange) {
        return None;
    }
    Some(with_other_panel(place.state))
}

/// After a transport command that a deck in REMOTE acknowledged: it goes for another mode.
pub(super) fn redirected(place: &Place) -> Option<State> {
    if place.state.local || is_refused(place.exchange) {
        return None;
    }
    let goal = if goal_of(&place.exchange.command)? == Mode::Stop {
        Mode::Play
    } else {
        Mode::Stop
    };
    Some(with_goal(place.state, goal))
}

/// What a deck in REMOTE did to a register.
fn deed_in_remote(place: &Place, register: Register) -> Option<Deed> {
    if place.state.local {
        return None;
    }
    deed_to(place.exchange, register)
}

/// After a preset that a deck in REMOTE acknowledged: the register holds another time.
pub(super) fn replaced(place: &Place, register: Register) -> Option<State> {
    if deed_in_remote(place, register)? != Deed::Presets {
        return None;
    }
    let other = one_on(entry_of(place.state, register));
    Some(with_entry(place.state, register, &other))
}

/// After a preset or an entry that a deck in REMOTE acknowledged: the register is Clear.
pub(super) fn cleared(place: &Place, register: Register) -> Option<State> {
    match deed_in_remote(place, register)? {
        Deed::Presets | Deed::Enters => { Some(with_entry(place.state, register, &Entry::Clear)) }
        _ => None,
    }
}

/// After a reset that a deck in REMOTE acknowledged: the register is Set.
pub(super) fn set_again(place: &Place, register: Register) -> Option<State> {
    if deed_in_remote(place, register)? != Deed::Resets {
        return None;
    }
    let midnight = Entry::At(TimeCode::default());
    Some(with_entry(place.state, register, &midnight))
}
