//! Exchanges with a deck that acts by itself, and with one that rests.

use super::ActingRow;
use super::Taken::{self, Exchange, Throughout, Unknown};
use crate::tests::sent::*;
use deck9::Hands;

const STOP: &[u8] = &[0x20, 0x00, 0x20];

const STOPPED: Sent = (STOP, ACK);

const AUTO_EDIT: &[u8] = &[0x20, 0x42, 0x62];

const AUTO_EDITED: Sent = (AUTO_EDIT, ACK);

const FULL_EE_ON: Sent = (&[0x20, 0x61, 0x81], ACK);

const SHOWS_SHUTTLE: Sent = (STATUS_1_2, &[0x72, 0x20, 0x00, 0x20, 0xB2]);

const SHOWS_JOG: Sent = (STATUS_1_2, &[0x72, 0x20, 0x00, 0x10, 0xA2]);

/// The deck in REMOTE stops, and is told to run an edit.
const EDITS: &[Taken] = &[
    Exchange(REMOTE),
    Exchange(STOPPED),
    Exchange(SHOWS_STOP),
    Exchange(AUTO_EDITED),
];

/// Modes of the edit.
pub(super) const RUNS: &[ActingRow] = &[
    (Hands::None, EDITS, SHOWS_SHUTTLE, true, false),
    (
        Hands::None,
        &[
            Exchange(REMOTE),
            Exchange(STOPPED),
            Exchange(SHOWS_STOP),
            Exchange(AUTO_EDITED),
            Exchange(SHOWS_SHUTTLE),
            Exchange(SHOWS_JOG),
            Exchange(SHOWS_PLAY),
            Exchange(SHOWS_RECORD),
        ],
        SHOWS_STOP,
        true,
        false,
    ),
    // FF is none of them.
    (Hands::None, EDITS, SHOWS_FAST_FORWARD, false, false),
    // STOP ends the edit, while REC may still be shown; once STOP was shown it is not again.
    (
        Hands::None,
        &[
            Exchange(REMOTE),
            Exchange(STOPPED),
            Exchange(SHOWS_STOP),
            Exchange(AUTO_EDITED),
            Exchange(SHOWS_SHUTTLE),
            Exchange(STOPPED),
            Exchange(SHOWS_RECORD),
        ],
        SHOWS_STOP,
        true,
        false,
    ),
    (
        Hands::None,
        &[
            Exchange(REMOTE),
            Exchange(STOPPED),
            Exchange(SHOWS_STOP),
            Exchange(AUTO_EDITED),
            Exchange(SHOWS_SHUTTLE),
            Exchange(STOPPED),
            Exchange(SHOWS_RECORD),
            Exchange(SHOWS_STOP),
        ],
        SHOWS_RECORD,
        false,
        false,
    ),
    // A STOP that is refused ends nothing, nor do STANDBY ON, a command that is not listed, and a sense.
    (
        Hands::None,
        &[
            Exchange(REMOTE),
            Exchange(STOPPED),
            Exchange(SHOWS_STOP),
            Exchange(AUTO_EDITED),
            Exchange((STOP, NAK)),
            Exchange(SHOWS_RECORD),
            Exchange(SHOWS_STOP),
        ],
        SHOWS_RECORD,
        true,
        false,
    ),
    (
        Hands::None,
        &[
            Exchange(REMOTE),
            Exchange(STOPPED),
            Exchange(SHOWS_STOP),
            Exchange(AUTO_EDITED),
            Exchange(STOOD_BY),
            Exchange(FULL_EE_ON),
            Exchange(SENSED_5),
            Exchange(PRESET_10),
            Exchange(SHOWS_RECORD),
            Exchange(SHOWS_STOP),
        ],
        SHOWS_RECORD,
        true,
        false,
    ),
    // What such a command makes the deck forget plays no part.
    (
        Hands::None,
        &[
            Exchange(REMOTE),
            Exchange(AUTO_EDITED),
            Exchange(UNLISTED_0),
            Exchange(UNLISTED_2),
            Exchange(SHOWS_RECORD),
            Exchange(SHOWS_JOG),
        ],
        SHOWS_RECORD,
        true,
        false,
    ),
    (
        Hands::None,
        &[
            Exchange(REMOTE),
            Exchange(PLAYED),
            Exchange(UNLISTED_0),
            Exchange(UNLISTED_2),
            Exchange(SHOWS_RECORD),
            Exchange(SHOWS_JOG),
        ],
        SHOWS_RECORD,
        false,
        false,
    ),
    // An AUTO EDIT that is refused begins nothing.
    (
        Hands::None,
        &[
            Exchange(REMOTE),
            Exchange(STOPPED),
            Exchange(SHOWS_STOP),
            Exchange((AUTO_EDIT, NAK)),
        ],
        SHOWS_SHUTTLE,
        false,
        false,
    ),
    // A deck in LOCAL may have left PLAY undone: it ends the edit all the same.
    (
        Hands::None,
        &[
            Exchange(LOCAL),
            Exchange(PLAYED),
            Exchange(SHOWS_FAST_FORWARD),
            Exchange(SHOWS_STOP),
            Exchange(SHOWS_FAST_FORWARD),
            Exchange(AUTO_EDITED),
            Exchange(SHOWS_RECORD),
            Exchange(SHOWS_PLAY),
        ],
        SHOWS_RECORD,
        true,
        false,
    ),
    (
        Hands::None,
        &[
            Exchange(LOCAL),
            Exchange(PLAYED),
            Exchange(SHOWS_FAST_FORWARD),
            Exchange(SHOWS_STOP),
            Exchange(SHOWS_FAST_FORWARD),
            Exchange(AUTO_EDITED),
            Exchange(PLAYED),
            Exchange(SHOWS_RECORD),
            Exchange(SHOWS_PLAY),
        ],
        SHOWS_RECORD,
        false,
        false,
    ),
];

/// Registers that are cleared after EJECT.
pub(super) const LOSES: &[ActingRow] = &[
    // STOP keeps no cassette in; PLAY does, and may find IN cleared.
    (
        Hands::None,
        &[
            Exchange(REMOTE),
            Exchange(PRESET_10),
            Exchange(EJECTED),
            Exchange(IN_SET),
            Exchange(STOPPED),
            Exchange(IN_SET),
        ],
        NONE_SET,
        true,
        false,
    ),
    (
        Hands::None,
        &[
            Exchange(REMOTE),
            Exchange(PRESET_10),
            Exchange(EJECTED),
            Exchange(IN_SET),
            Exchange(PLAYED),
        ],
        NONE_SET,
        true,
        false,
    ),
    (
        Hands::None,
        &[
            Exchange(REMOTE),
            Exchange(PRESET_10),
            Exchange(EJECTED),
            Exchange(IN_SET),
            Exchange(PLAYED),
            Exchange(IN_SET),
        ],
        NONE_SET,
        false,
        false,
    ),
    // A command that has a key leaves exactly what its keys say.
    (
        Hands::None,
        &[
            Exchange(REMOTE),
            Exchange(PRESET_10),
            Exchange(EJECTED),
            Exchange(AUTO_EDITED),
            Exchange(IN_SET),
        ],
        NONE_SET,
        false,
        false,
    ),
    // Before a capture there may have been an EJECT.
    (
        Hands::None,
        &[Exchange(REMOTE), Exchange(PRESET_10), Exchange(IN_SET)],
        NONE_SET,
        true,
        false,
    ),
    (
        Hands::None,
        &[
            Exchange(REMOTE),
            Exchange(PLAYED),
            Exchange(PRESET_10),
            Exchange(IN_SET),
        ],
        NONE_SET,
        false,
        false,
    ),
    // The sound's registers stay.
    (
        Hands::None,
        &[
            Exchange(REMOTE),
            Exchange(AUDIO_IN_PRESET_10),
            Exchange(EJECTED),
        ],
        NONE_SET,
        false,
        false,
    ),
];

/// What goes on where a reply is not believed, where hands are allowed, and where it is said that it lasts.
pub(super) const GOES_ON: &[ActingRow] = &[
    (
        Hands::None,
        &[
            Exchange(REMOTE),
            Exchange(STOPPED),
            Exchange(SHOWS_STOP),
            Exchange(AUTO_EDITED),
            Unknown(STOPPED),
            Exchange(SHOWS_RECORD),
            Exchange(SHOWS_STOP),
        ],
        SHOWS_RECORD,
        true,
        false,
    ),
    (
        Hands::None,
        &[
            Exchange(REMOTE),
            Exchange(STOPPED),
            Exchange(SHOWS_STOP),
            Unknown((AUTO_EDIT, NAK)),
        ],
        SHOWS_SHUTTLE,
        true,
        false,
    ),
    (
        Hands::None,
        &[
            Exchange(REMOTE),
            Exchange(PRESET_10),
            Exchange(EJECTED),
            Unknown(AUTO_EDITED),
            Exchange(SHOWS_SHUTTLE),
            Exchange(IN_SET),
        ],
        NONE_SET,
        true,
        false,
    ),
    (
        Hands::None,
        &[
            Exchange(REMOTE),
            Throughout(STOPPED),
            Throughout(PLAYED),
            Exchange(SHOWS_STOP),
        ],
        SHOWS_SHUTTLE,
        true,
        false,
    ),
    // A hand may have begun the edit, before the panel was switched off.
    (
        Hands::Allowed,
        &[
            Exchange(PANEL_OFF),
            Exchange(REMOTE),
            Exchange(STOPPED),
            Exchange(SHOWS_STOP),
            Exchange(PLAYED),
            Exchange(SHOWS_PLAY),
        ],
        SHOWS_SHUTTLE,
        true,
        false,
    ),
    (
        Hands::None,
        &[
            Exchange(PANEL_OFF),
            Exchange(REMOTE),
            Exchange(STOPPED),
            Exchange(SHOWS_STOP),
            Exchange(PLAYED),
            Exchange(SHOWS_PLAY),
        ],
        SHOWS_SHUTTLE,
        false,
        false,
    ),
    (
        Hands::Allowed,
        &[
            Exchange(PANEL_OFF),
            Exchange(REMOTE),
            Exchange(PRESET_10),
            Exchange(PLAYED),
            Exchange(IN_SET),
        ],
        NONE_SET,
        true,
        false,
    ),
];
