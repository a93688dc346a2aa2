//! Exchanges as they stand on the line: wire letters, each before the bytes that it brings.

/// STATUS SENSE, and the answer that the deck is not in LOCAL.
pub(super) const REMOTE: &str = "C 61 20 01 82 D 71 20 00 91";
/// STATUS SENSE, and the answer that the deck is in LOCAL.
pub(super) const LOCAL: &str = "C 61 20 01 82 D 71 20 01 92";
/// LOCAL DISABLE and LOCAL ENABLE, acknowledged: the panel is off, and on; and LOCAL DISABLE, not acknowledged.
pub(super) const DISABLE: &str = "C 00 0C 0C D 10 01 11";

pub(super) const ENABLE: &str = "C 00 1D 1D D 10 01 11";

pub(super) const REFUSED_DISABLE: &str = "C 00 0C 0C D 11 12 01 24";
/// IN DATA PRESET to 00:00:00:00, to 10:00:00:00 and to 23:59:59:24, acknowledged, and to 11:00:00:00, not
/// acknowledged.
pub(super) const PRESET_FIRST: &str = "C 44 14 00 00 00 00 58 D 10 01 11";

pub(super) const PRESET_10: &str = "C 44 14 00 00 00 10 68 D 10 01 11";

pub(super) const PRESET_LAST: &str = "C 44 14 24 59 59 23 51 D 10 01 11";

pub(super) const REFUSED_11: &str = "C 44 14 00 00 00 11 69 D 11 12 01 24";
/// IN ENTRY and IN FLAG RESET, acknowledged.
pub(super) const IN_ENTRY: &str = "C 40 10 50 D 10 01 11";

pub(super) const IN_RESET: &str = "C 40 20 60 D 10 01 11";

/// IN SHIFT + and IN SHIFT -, acknowledged.
pub(super) const SHIFT_MORE: &str = "C 40 18 58 D 10 01 11";

pub(super) const SHIFT_LESS: &str = "C 40 19 59 D 10 01 11";
/// IN DATA SENSE, answered with 05:00:00:00 and the frame after it, with 09:00:00:00, with 10:00:00:00 and the two frames
/// after it, and with 11:00:00:00.
pub(super) const IN_05: &str = "C 60 10 70 D 74 10 00 00 00 05 89";

pub(super) const IN_05_NEXT: &str = "C 60 10 70 D 74 10 01 00 00 05 8A";

pub(super) const IN_09: &str = "C 60 10 70 D 74 10 00 00 00 09 8D";

pub(super) const IN_10: &str = "C 60 10 70 D 74 10 00 00 00 10 94";

pub(super) const IN_10_NEXT: &str = "C 60 10 70 D 74 10 01 00 00 10 95";

pub(super) const IN_10_TWO_ON: &str = "C 60 10 70 D 74 10 02 00 00 10 96";

pub(super) const IN_11: &str = "C 60 10 70 D 74 10 00 00 00 11 95";
/// IN DATA SENSE, answered with the first and with the last frame of the day, and with no valid time.
pub(super) const IN_FIRST: &str = "C 60 10 70 D 74 10 00 00 00 00 84";

pub(super) const IN_LAST: &str = "C 60 10 70 D 74 10 24 59 59 23 7D";

pub(super) const IN_INVALID: &str = "C 60 10 70 D 74 10 FF FF FF FF 80";
/// STATUS SENSE of data 0 to 3, answered with STOP, IN set and local.
pub(super) const IN_SET_LOCAL: &str = "C 61 20 04 85 D 74 20 01 20 00 01 B6";
/// STATUS SENSE of datum 3, answered with no register set, and with IN set.
pub(super) const NONE_SET: &str = "C 61 20 31 B2 D 71 20 00 91";

pub(super) const IN_SET: &str = "C 61 20 31 B2 D 71 20 01 92";
/// AUDIO IN ENTRY, acknowledged.
pub(super) const AUDIO_IN_ENTRY: &str = "C 40 12 52 D 10 01 11";
/// AUDIO IN DATA PRESET to 10:00:00:00, acknowledged, and the sense with that time and with 11:00:00:00.
pub(super) const AUDIO_PRESET_10: &str = "C 44 16 00 00 00 10 6A D 10 01 11";

pub(super) const AUDIO_IN_10: &str = "C 60 12 72 D 74 12 00 00 00 10 96";

pub(super) const AUDIO_IN_11: &str = "C 60 12 72 D 74 12 00 00 00 11 97";
/// STOP, PLAY, RECORD, FAST FORWARD, CUE UP WITH DATA 01:02:03:04, EJECT and a command that is not listed, acknowledged.
pub(super) const STOP: &str = "C 20 00 20 D 10 01 11";

pub(super) const PLAY: &str = "C 20 01 21 D 10 01 11";

pub(super) const RECORD: &str = "C 20 02 22 D 10 01 11";

pub(super) const FAST_FORWARD: &str = "C 20 10 30 D 10 01 11";

pub(super) const CUE_UP: &str = "C 24 31 04 03 02 01 5F D 10 01 11";

pub(super) const EJECT: &str = "C 20 0F 2F D 10 01 11";

pub(super) const UNLISTED: &str = "C 20 40 60 D 10 01 11";
/// IN SHIFT +, not acknowledged.
pub(super) const REFUSED_SHIFT: &str = "C 40 18 58 D 11 12 01 24";
/// STATUS SENSE of the mode, answered as STOP, PLAY, REC, FF, REW, CUED, with no motion bit and as no mode at all.
pub(super) const SHOWS_STOP: &str = "C 61 20 12 93 D 72 20 20 00 B2";

pub(super) const SHOWS_PLAY: &str = "C 61 20 12 93 D 72 20 01 00 93";

pub(super) const SHOWS_REC: &str = "C 61 20 12 93 D 72 20 02 00 94";

pub(super) const SHOWS_FF: &str = "C 61 20 12 93 D 72 20 04 00 96";

pub(super) const SHOWS_REW: &str = "C 61 20 12 93 D 72 20 08 00 9A";

pub(super) const SHOWS_CUED: &str = "C 61 20 12 93 D 72 20 00 01 93";

pub(super) const SHOWS_NOTHING: &str = "C 61 20 12 93 D 72 20 00 00 92";

pub(super) const SHOWS_NO_MODE: &str = "C 61 20 12 93 D 72 20 02 20 B4";
/// In a deck in REMOTE FAST FORWARD and PLAY, each with the mode that is shown after it.
pub(super) const WOUND_AND_PLAYED: [&str; 5] = [REMOTE, FAST_FORWARD, SHOWS_FF, PLAY, SHOWS_STOP];
