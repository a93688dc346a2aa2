//! States with one field changed that is no register.

use deck9::{Mode, State};

/// The state with this goal.
pub(super) fn with_goal(state: &State, goal: Mode) -> State {
    let mut changed = *state;
    changed.goal = goal;
    changed
}

/// The state with this mode shown.
pub(super) fn with_shown(state: &State, shown: Mode) -> State {
    let mut changed = *state;
    changed.shown = shown;
    changed
}

/// The state in LOCAL where it was not, and the other way about.
pub(super) fn with_other_local(state: &State) -> State {
    let mut changed = *state;
    changed.local = !state.local;
    changed
}

/// The state with the panel off where it was on, and the other way about.
pub(super) fn with_other_panel(state: &State) -> State {
    let mut changed = *state;
    changed.panel = !state.panel;
    changed
}
