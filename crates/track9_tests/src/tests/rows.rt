//! Exchanges that some deck gives, and exchanges whose last reply no deck gives.

use super::sent::*;

/// Exchanges, and whether a deck that nobody touches gives all of them; all but the last it gives.
pub(super) type Row = (&'static [Sent], bool);

/// An IN DATA reply of 10:00:00:00 with flag bits.
const SENSED_10_FLAGGED: Sent = (IN_SENSE, &[0x74, 0x10, 0xC0, 0x80, 0x80, 0xD0, 0x14]);

/// Registers: what a deck in REMOTE holds, and what a deck in LOCAL may have left undone.
pub(super) const REGISTERS: &[Row] = &[
    // A deck in REMOTE enters one time, which nobody knows; one in LOCAL may have left it.
    (&[IN_ENTERED, SENSED_5, SENSED_5], true),
    (
        &[
            REMOTE,
            IN_ENTERED,
            SENSED_5,
            (IN_SENSE, &[0x74, 0x10, 0x01, 0x00, 0x00, 0x05, 0x8A]),
        ],
        false,
    ),
    (
        &[
            IN_ENTERED,
            SENSED_5,
            (IN_SENSE, &[0x74, 0x10, 0x01, 0x00, 0x00, 0x05, 0x8A]),
        ],
        true,
    ),
    // The time that a deck enters need not be the last that it gave.
    (
        &[
            REMOTE,
            (
                &[0x61, 0x0C, 0x01, 0x6E],
                &[0x74, 0x04, 0x00, 0x00, 0x00, 0x01, 0x79],
            ),
            IN_ENTERED,
            (IN_SENSE, &[0x74, 0x10, 0x03, 0x00, 0x00, 0x01, 0x88]),
        ],
        true,
    ),
    // Only a Clear register gives what is no time.
    (&[SENSED_NO_TIME, IN_SET], false),
    (&[SENSED_NO_TIME, NONE_SET], true),
    // A Clear one may give a time as well.
    (&[REMOTE, IN_RESET, SENSED_10, SENSED_11, NONE_SET], true),
    (&[REMOTE, IN_RESET, IN_SET], false),
    (&[LOCAL, IN_RESET, IN_SET], true),
    (&[REMOTE, IN_RESET, IN_SHIFTED_ON, NONE_SET], true),
    (&[REMOTE, PRESET_10, IN_RECALLED, SENSED_11], true),
    (&[REMOTE, PRESET_10, IN_RECALLED, NONE_SET], true),
    (&[REMOTE, PRESET_10, NONE_SET], false),
    (&[REMOTE, PRESET_10, SENSED_10_FLAGGED], true),
    // A preset that was left undone tells that the deck is in LOCAL.
    (
        &[
            PRESET_10,
            (IN_SENSE, &[0x74, 0x10, 0x00, 0x00, 0x00, 0x09, 0x8D]),
            REMOTE,
        ],
        false,
    ),
    (
        &[
            PRESET_10,
            (IN_SENSE, &[0x74, 0x10, 0x00, 0x00, 0x00, 0x09, 0x8D]),
            LOCAL,
        ],
        true,
    ),
    // A preset that got a NAK.
    (&[REMOTE, PRESET_10, (IN_PRESET_11, NAK), SENSED_10], true),
    (&[REMOTE, PRESET_10, (IN_PRESET_11, NAK), SENSED_11], false),
];

/// Shifts, round midnight and in LOCAL.
pub(super) const SHIFTS: &[Row] = &[
    (
        &[
            REMOTE,
            PRESET_LAST,
            IN_SHIFTED_ON,
            (IN_SENSE, &[0x74, 0x10, 0x00, 0x00, 0x00, 0x00, 0x84]),
        ],
        true,
    ),
    (&[REMOTE, PRESET_LAST, IN_SHIFTED_ON, SENSED_LAST], false),
    (&[REMOTE, PRESET_0, IN_SHIFTED_BACK, SENSED_LAST], true),
    // Of three shifts a deck in LOCAL may do any number.
    (
        &[
            LOCAL_WITH_IN,
            SENSED_10,
            IN_SHIFTED_ON,
            IN_SHIFTED_ON,
            IN_SHIFTED_ON,
            (IN_SENSE, &[0x74, 0x10, 0x02, 0x00, 0x00, 0x10, 0x96]),
        ],
        true,
    ),
    (
        &[
            LOCAL_WITH_IN,
            SENSED_10,
            IN_SHIFTED_ON,
            IN_SHIFTED_ON,
            IN_SHIFTED_ON,
            (IN_SENSE, &[0x74, 0x10, 0x04, 0x00, 0x00, 0x10, 0x98]),
        ],
        false,
    ),
    (
        &[
            LOCAL_WITH_IN,
            SENSED_10,
            IN_SHIFTED_BACK,
            (IN_SENSE, &[0x74, 0x10, 0x24, 0x59, 0x59, 0x09, 0x63]),
        ],
        true,
    ),
    (
        &[
            LOCAL_WITH_IN,
            SENSED_10,
            IN_SHIFTED_BACK,
            (IN_SENSE, &[0x74, 0x10, 0x01, 0x00, 0x00, 0x10, 0x95]),
        ],
        false,
    ),
];

/// Transport: what a deck may show on the way to its goal.
pub(super) const TRANSPORT: &[Row] = &[
    (
        &[CUED_UP, SHOWS_FAST_FORWARD, SHOWS_REWIND, SHOWS_CUED],
        true,
    ),
    (
        &[
            CUED_UP,
            SHOWS_FAST_FORWARD,
            SHOWS_REWIND,
            SHOWS_CUED,
            PLAYED,
            SHOWS_RECORD,
        ],
        false,
    ),
    // A deck without a cassette may clear every bit of motion.
    (&[REMOTE, EJECTED, SHOWS_NOTHING], true),
    (&[REMOTE, PLAYED, SHOWS_STOP, SHOWS_PLAY, SHOWS_STOP], true),
    // PLAY is no step to EJECT; a deck in LOCAL that was playing may go on.
    (
        &[REMOTE, SHOWS_PLAY, EJECTED, SHOWS_STOP, SHOWS_PLAY],
        false,
    ),
    (&[LOCAL, SHOWS_PLAY, EJECTED, SHOWS_STOP, SHOWS_PLAY], true),
    // At the end of the tape a deck stops, and stays so.
    (
        &[REMOTE, PLAYED, SHOWS_PLAY, STOOD_BY, SHOWS_STOP, SHOWS_PLAY],
        true,
    ),
    (
        &[REMOTE, RECORDED, SHOWS_RECORD, SHOWS_STOP, SHOWS_PLAY],
        true,
    ),
    (&[REMOTE, RECORDED, SHOWS_RECORD, SHOWS_FAST_FORWARD], false),
    // A transport command that got a NAK.
    (&[REMOTE, EJECTED, (PLAY, NAK), SHOWS_PLAY], true),
    (
        &[REMOTE, EJECTED, (PLAY, NAK), SHOWS_STOP, SHOWS_PLAY],
        false,
    ),
    // Both data of a reply show one mode: no mode has RECORD and SHUTTLE.
    (&[(STATUS_1_2, &[0x72, 0x20, 0x02, 0x20, 0xB4])], false),
];

/// STATUS SENSE of data 0 to 2.
const STATUS_0_2: &[u8] = &[0x61, 0x20, 0x03, 0x84];

const SHOWS_PLAY_IN_REMOTE: Sent = (STATUS_0_2, &[0x73, 0x20, 0x00, 0x01, 0x00, 0x94]);

const SHOWS_REWIND_IN_REMOTE: Sent = (STATUS_0_2, &[0x73, 0x20, 0x00, 0x08, 0x00, 0x9B]);

/// Commands that are not listed, and what they make the deck forget.
pub(super) const FORGOTTEN: &[Row] = &[
    (
        &[
            PLAYED,
            SHOWS_PLAY_IN_REMOTE,
            UNLISTED_2,
            SHOWS_REWIND_IN_REMOTE,
        ],
        true,
    ),
    (
        &[PLAYED, SHOWS_PLAY_IN_REMOTE, SHOWS_REWIND_IN_REMOTE],
        false,
    ),
    (&[REMOTE, PRESET_10, UNLISTED_2, SENSED_11], true),
    (&[REMOTE, UNLISTED_2, LOCAL], false),
    // Group 4: the registers alone, also in LOCAL, whatever the reply.
    (
        &[
            LOCAL,
            NONE_SET,
            (
                &[0x40, 0x50, 0x90],
                &[0x74, 0x10, 0xFF, 0xFF, 0xFF, 0xFF, 0x80],
            ),
            IN_SET,
        ],
        true,
    ),
    (
        &[LOCAL, NONE_SET, (&[0x40, 0x50, 0x90], NAK), IN_SET],
        false,
    ),
    (
        &[
            REMOTE,
            PLAYED,
            SHOWS_PLAY,
            (&[0x40, 0x50, 0x90], ACK),
            SHOWS_REWIND,
        ],
        false,
    ),
    // Group 6: nothing.
    (
        &[REMOTE, PRESET_10, (&[0x60, 0x50, 0xB0], ACK), SENSED_11],
        false,
    ),
    // Any other group: local too.
    (&[REMOTE, PRESET_10, UNLISTED_0, LOCAL], true),
    (
        &[REMOTE, PRESET_10, (&[0x30, 0x50, 0x80], ACK), SENSED_11],
        true,
    ),
];

const AUDIO_IN_SENSED_10: Sent = (AUDIO_IN_SENSE, &[0x74, 0x12, 0x00, 0x00, 0x00, 0x10, 0x96]);

const AUDIO_IN_SET: Sent = (STATUS_3, &[0x71, 0x20, 0x04, 0x95]);

/// The registers of the sound.
pub(super) const AUDIO: &[Row] = &[
    (&[REMOTE, AUDIO_IN_PRESET_10, AUDIO_IN_SENSED_10], true),
    (
        &[
            REMOTE,
            AUDIO_IN_PRESET_10,
            (AUDIO_IN_SENSE, &[0x74, 0x12, 0x00, 0x00, 0x00, 0x11, 0x97]),
        ],
        false,
    ),
    (
        &[REMOTE, AUDIO_IN_PRESET_10, AUDIO_IN_SENSED_10, NONE_SET],
        false,
    ),
    (
        &[REMOTE, AUDIO_IN_PRESET_10, AUDIO_IN_SENSED_10, AUDIO_IN_SET],
        true,
    ),
    // AUDIO IN ENTRY leaves IN as it is.
    (&[REMOTE, PRESET_10, AUDIO_IN_ENTERED, SENSED_11], false),
    (&[REMOTE, PRESET_10, AUDIO_IN_ENTERED, SENSED_10], true),
];

/// Exchanges, and whether a deck gives them where nobody touches the panel, and where somebody may touch it.
pub(super) type HandsRow = (&'static [Sent], bool, bool);

/// Hands on the panel.
pub(super) const HANDS: &[HandsRow] = &[
    (&[REMOTE, PRESET_10, SENSED_11], false, true),
    (&[REMOTE, LOCAL], false, true),
    // With the panel off nobody changes anything.
    (&[PANEL_OFF, REMOTE, PRESET_10, SENSED_11], false, false),
    (&[PANEL_OFF, REMOTE, LOCAL], false, false),
    // With the panel on anything may be changed, and not LOCAL alone.
    (
        &[PANEL_OFF, REMOTE, PRESET_10, PANEL_ON, SENSED_11],
        false,
        true,
    ),
    (
        &[PANEL_OFF, REMOTE, PRESET_10, PANEL_ON, LOCAL],
        false,
        true,
    ),
    (
        &[PANEL_ON, REMOTE, PRESET_10, PANEL_OFF, SENSED_11],
        false,
        true,
    ),
    (
        &[PANEL_OFF, LOCAL, PRESET_10, PANEL_OFF, REMOTE],
        false,
        false,
    ),
    // A NAK leaves the panel as it is.
    (
        &[PANEL_OFF, REMOTE, PRESET_10, (LOCAL_ENABLE, NAK), SENSED_11],
        false,
        false,
    ),
    (
        &[PANEL_ON, (LOCAL_DISABLE, NAK), REMOTE, PRESET_10, SENSED_11],
        false,
        true,
    ),
    // What is forgotten with everything is the panel too.
    (
        &[PANEL_OFF, UNLISTED_0, REMOTE, PRESET_10, SENSED_11],
        false,
        true,
    ),
    (
        &[PANEL_OFF, UNLISTED_2, REMOTE, PRESET_10, SENSED_11],
        false,
        false,
    ),
];
