//! Exchanges as the bytes on the line.

/// A command and its reply.
pub(super) type Sent = (&'static [u8], &'static [u8]);

pub(super) const ACK: &[u8] = &[0x10, 0x01, 0x11];
/// Not acknowledged: undefined.
pub(super) const NAK: &[u8] = &[0x11, 0x12, 0x01, 0x24];

// ---- System control.

pub(super) const LOCAL_DISABLE: &[u8] = &[0x00, 0x0C, 0x0C];

pub(super) const LOCAL_ENABLE: &[u8] = &[0x00, 0x1D, 0x1D];

pub(super) const PANEL_OFF: Sent = (LOCAL_DISABLE, ACK);

pub(super) const PANEL_ON: Sent = (LOCAL_ENABLE, ACK);

// ---- Transport control.

pub(super) const PLAY: &[u8] = &[0x20, 0x01, 0x21];

pub(super) const PLAYED: Sent = (PLAY, ACK);

pub(super) const RECORDED: Sent = (&[0x20, 0x02, 0x22], ACK);

pub(super) const STOOD_BY: Sent = (&[0x20, 0x05, 0x25], ACK);

pub(super) const EJECTED: Sent = (&[0x20, 0x0F, 0x2F], ACK);

/// CUE UP WITH DATA 01:02:03:04.
pub(super) const CUED_UP: Sent = (&[0x24, 0x31, 0x04, 0x03, 0x02, 0x01, 0x5F], ACK);

// ---- Presets.

pub(super) const IN_ENTERED: Sent = (&[0x40, 0x10, 0x50], ACK);

pub(super) const IN_SHIFTED_ON: Sent = (&[0x40, 0x18, 0x58], ACK);

pub(super) const IN_SHIFTED_BACK: Sent = (&[0x40, 0x19, 0x59], ACK);

pub(super) const IN_RESET: Sent = (&[0x40, 0x20, 0x60], ACK);

pub(super) const IN_RECALLED: Sent = (&[0x40, 0x24, 0x64], ACK);
/// IN DATA PRESET 00:00:00:00.
pub(super) const PRESET_0: Sent = (&[0x44, 0x14, 0x00, 0x00, 0x00, 0x00, 0x58], ACK);
/// IN DATA PRESET 10:00:00:00.
pub(super) const PRESET_10: Sent = (&[0x44, 0x14, 0x00, 0x00, 0x00, 0x10, 0x68], ACK);
/// IN DATA PRESET 11:00:00:00.
pub(super) const IN_PRESET_11: &[u8] = &[0x44, 0x14, 0x00, 0x00, 0x00, 0x11, 0x69];
/// IN DATA PRESET 12:00:00:00.
pub(super) const IN_PRESET_12: &[u8] = &[0x44, 0x14, 0x00, 0x00, 0x00, 0x12, 0x6A];
/// IN DATA PRESET 23:59:59:24.
pub(super) const PRESET_LAST: Sent = (&[0x44, 0x14, 0x24, 0x59, 0x59, 0x23, 0x51], ACK);

pub(super) const AUDIO_IN_ENTERED: Sent = (&[0x40, 0x12, 0x52], ACK);
/// AUDIO IN DATA PRESET 10:00:00:00.
pub(super) const AUDIO_IN_PRESET_10: Sent = (&[0x44, 0x16, 0x00, 0x00, 0x00, 0x10, 0x6A], ACK);

// ---- Senses of registers.

pub(super) const IN_SENSE: &[u8] = &[0x60, 0x10, 0x70];
/// The deck says that IN is 05:00:00:00.
pub(super) const SENSED_5: Sent = (IN_SENSE, &[0x74, 0x10, 0x00, 0x00, 0x00, 0x05, 0x89]);
/// The deck says that IN is 10:00:00:00.
pub(super) const SENSED_10: Sent = (IN_SENSE, &[0x74, 0x10, 0x00, 0x00, 0x00, 0x10, 0x94]);
/// The deck says that IN is 11:00:00:00.
pub(super) const SENSED_11: Sent = (IN_SENSE, &[0x74, 0x10, 0x00, 0x00, 0x00, 0x11, 0x95]);
/// The deck says that IN is 23:59:59:24.
pub(super) const SENSED_LAST: Sent = (IN_SENSE, &[0x74, 0x10, 0x24, 0x59, 0x59, 0x23, 0x7D]);
/// An IN DATA reply that is no valid time.
pub(super) const SENSED_NO_TIME: Sent = (IN_SENSE, &[0x74, 0x10, 0xFF, 0xFF, 0xFF, 0xFF, 0x80]);

pub(super) const AUDIO_IN_SENSE: &[u8] = &[0x60, 0x12, 0x72];

// ---- Senses of the status.

/// STATUS SENSE of datum 0.
pub(super) const STATUS_0: &[u8] = &[0x61, 0x20, 0x01, 0x82];
/// STATUS SENSE of data 1 and 2.
pub(super) const STATUS_1_2: &[u8] = &[0x61, 0x20, 0x12, 0x93];
/// STATUS SENSE of datum 3.
pub(super) const STATUS_3: &[u8] = &[0x61, 0x20, 0x31, 0xB2];
/// The deck says that it is not in LOCAL.
pub(super) const REMOTE: Sent = (STATUS_0, &[0x71, 0x20, 0x00, 0x91]);
/// The deck says that it is in LOCAL.
pub(super) const LOCAL: Sent = (STATUS_0, &[0x71, 0x20, 0x01, 0x92]);
/// The deck says that it is in LOCAL and shows STOP, and that IN alone is Set.
pub(super) const LOCAL_WITH_IN: Sent = (
    &[0x61, 0x20, 0x04, 0x85],
    &[0x74, 0x20, 0x01, 0x20, 0x00, 0x01, 0xB6],
);

pub(super) const NONE_SET: Sent = (STATUS_3, &[0x71, 0x20, 0x00, 0x91]);

pub(super) const IN_SET: Sent = (STATUS_3, &[0x71, 0x20, 0x01, 0x92]);

pub(super) const SHOWS_NOTHING: Sent = (STATUS_1_2, &[0x72, 0x20, 0x00, 0x00, 0x92]);

pub(super) const SHOWS_STOP: Sent = (STATUS_1_2, &[0x72, 0x20, 0x20, 0x00, 0xB2]);

pub(super) const SHOWS_PLAY: Sent = (STATUS_1_2, &[0x72, 0x20, 0x01, 0x00, 0x93]);

pub(super) const SHOWS_RECORD: Sent = (STATUS_1_2, &[0x72, 0x20, 0x02, 0x00, 0x94]);

pub(super) const SHOWS_FAST_FORWARD: Sent = (STATUS_1_2, &[0x72, 0x20, 0x04, 0x00, 0x96]);

pub(super) const SHOWS_REWIND: Sent = (STATUS_1_2, &[0x72, 0x20, 0x08, 0x00, 0x9A]);

pub(super) const SHOWS_CUED: Sent = (STATUS_1_2, &[0x72, 0x20, 0x00, 0x01, 0x93]);

// ---- Commands that are not listed.

pub(super) const UNLISTED_0: Sent = (&[0x00, 0x50, 0x50], ACK);

pub(super) const UNLISTED_2: Sent = (&[0x20, 0x40, 0x60], ACK);
