//! What exchanges do to the panel where hands are allowed, and states with the panel filled in.

use block9::Exchange;
use deck9::{Effect, Forgotten, Profile, State};

/// What a command that is acknowledged, and what is forgotten besides, make of the panel.
#[derive(Clone, Copy)]
enum Switch {
    /// It is on.
    On,
    /// It is off.
    Off,
    /// It is on or off: the deck may have forgotten everything.
    Free,
}

/// What an exchange makes of the panel, or `None` where it leaves it as it is.
fn switch_of(profile: &Profile, exchange: &Exchange) -> Option<Switch> {
    if exchange.reply.is_nak() {
        return None;
    }
    let deck = profile.deck_ref();
    if deck.forgotten_with(exchange) == Forgotten::Everything {
        return Some(Switch::Free);
    }
    match deck.effect(&exchange.command) {
        Effect::Panel(true) => Some(Switch::On),
        Effect::Panel(false) => Some(Switch::Off),
        Effect::Forget(Forgotten::Everything) => Some(Switch::Free),
        _ => None,
    }
}

/// Whether the panel may be on after an exchange, by whether it may be on before it.
pub(crate) fn may_be_on_after(profile: &Profile, exchange: &Exchange, may_be_on: bool) -> bool {
    match switch_of(profile, exchange) {
        Some(Switch::Off) => false,
        Some(Switch::On | Switch::Free) => true,
        None => may_be_on,
    }
}

/// Switches the panel on in the states after these exchanges, for a hand that moves after the last of them: in that
/// state and in those before it, back to the exchange that left the panel free.
pub(crate) fn switch_on_for_hand(profile: &Profile, exchanges: &[Exchange], states: &mut [State]) {
    for at in (0..exchanges.len()).rev() {
        if !switch_on(profile, &exchanges[at], states.get_mut(at)) {
            return;
        }
    }
}

/// Switches the panel on in the state after an exchange, and tells whether it has to be switched on before the exchange
/// too: not where it was on already, and not where the exchange switched it or left it free.
fn switch_on(profile: &Profile, exchange: &Exchange, state: Option<&mut State>) -> bool {
    match state {
        Some(state) if !state.panel => {
            state.panel = true;
            switch_of(profile, exchange).is_none()
        }
        _ => false,
    }
}

/// Switches the panel in the states after each of the exchanges on and off, as the commands do. Where a command leaves it
/// free, it stays as it is in that state, and as it is in the first one before all of them.
pub(crate) fn switch_panels(profile: &Profile, exchanges: &[Exchange], states: &mut [State]) {
    let mut is_on = match states.first() {
        Some(state) => state.panel,
        None => false,
    };
    for (exchange, state) in exchanges.iter().zip(states.iter_mut()) {
        is_on = is_on_after(profile, exchange, is_on, state.panel);
        state.panel = is_on;
    }
}

/// Whether the panel is on after an exchange: by whether it is on before it, and, where the command leaves it free, by
/// `where_free`.
fn is_on_after(profile: &Profile, exchange: &Exchange, is_on: bool, where_free: bool) -> bool {
    match switch_of(profile, exchange) {
        Some(Switch::On) => true,
        Some(Switch::Off) => false,
        Some(Switch::Free) => where_free,
        None => is_on,
    }
}
