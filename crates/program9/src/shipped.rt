//! The sheets that the program has in itself, as they stand in decks/: make/decks.sh writes this file.
ghost use Rattle.std.specs.Prelude.{◌≡◌, is_some};
ghost use Rattle.program9.specs.Shipped.{is_shipped};

/// The text of the sheet with this short name, if the program has it.
pub fn shipped_sheet(name: &str) -> Option<&'static str>
    ensures { is_some result ≡ is_shipped name.now }
{
    match name {
        "9pin" => Some(NINE_PIN_COMMANDS),
        "edit" => Some(POINTS_LOST_AFTER_EDIT),
        "eject" => Some(POINTS_LOST_AFTER_EJECT),
        "jog" => Some(JOG_FOR_VAR),
        "no-bit" => Some(NO_MOTION_BIT),
        "rewind" => Some(REWIND_AT_THE_END),
        "standby" => Some(STANDBY_OFF),
        "user-bits" => Some(USER_BITS),
        "var-play" => Some(PLAY_FOR_VAR),
        _ => None,
    }
}

/// decks/nine-pin-commands.toml
const NINE_PIN_COMMANDS: &str =
    r#"# The 9-pin commands that ninecheck does not list: their names, the replies to them, and what they are commonly taken to touch.
#
# This was written from what is commonly published of the protocol. It is no maker's manual. Each line is a claim about a deck, and
# ninecheck holds the deck to it. To check a line, look the command up in your deck's protocol manual, or send it and look at what
# comes back (docs/DECKS.md, "How to find out what a deck does"). Take out or change what is not so.
#
# At EDIT ON a deck goes on as it was, or records; at EDIT OFF it goes on as it was, or plays: [goals] says so. An edit that the deck runs
# by itself forgets nothing at its command; what the deck may show while it runs is in [runs].
#
# A deck that loses its points when it ejects wants a sheet of its own: decks/points-lost-after-eject.toml has the line for it.

# What each command is called in reports.
[names]
"20 14" = "FRAME STEP FWD"
"20 24" = "FRAME STEP REV"
"20 40" = "PREVIEW"
"20 41" = "REVIEW"
"20 42" = "AUTO EDIT"
"20 43" = "OUTPOINT PREVIEW"
"20 54" = "ANTI-CLOG TIMER DISABLE"
"20 55" = "ANTI-CLOG TIMER ENABLE"
"20 60" = "FULL EE OFF"
"20 61" = "FULL EE ON"
"20 63" = "SELECT EE ON"
"20 64" = "EDIT OFF"
"20 65" = "EDIT ON"
"20 6A" = "FREEZE OFF"
"20 6B" = "FREEZE ON"
"21 38" = "PROG SPEED PLAY +"
"21 39" = "PROG SPEED PLAY -"
"22 5C" = "DMC SET FWD"
"22 5D" = "DMC SET REV"
"40 08" = "TIMER-1 RESET"
"40 2D" = "LOST LOCK RESET"
"40 42" = "SPOT ERASE OFF"
"40 43" = "SPOT ERASE ON"
"40 44" = "AUDIO SPLIT OFF"
"40 45" = "AUDIO SPLIT ON"
"41 32" = "TAPE/AUDIO SELECT"
"41 33" = "SERVO REF SELECT"
"41 34" = "HEAD SELECT"
"41 35" = "COLOR FRAME SELECT"
"41 37" = "INPUT CHECK"
"41 3A" = "EDIT FIELD SELECT"
"41 3B" = "FREEZE MODE SELECT"
"42 32" = "TAPE/AUDIO SELECT"
"42 3E" = "RECORD INHIBIT"
"44 00" = "TIMER-1 PRESET"
"44 04" = "TIME CODE PRESET"
"44 05" = "USER BIT PRESET"
"60 28" = "LOCAL KEY MAP SENSE"
"60 2B" = "REMAINING TIME SENSE"
"60 2E" = "COMMAND SPEED SENSE"
"60 31" = "PREROLL TIME SENSE"
"60 36" = "TIMER MODE SENSE"
"60 3E" = "RECORD INHIBIT SENSE"
"61 0A" = "TC GEN SENSE"
"61 2A" = "HEAD METER SENSE"
"61 30" = "EDIT PRESET SENSE"
"62 21" = "EXTENDED STATUS SENSE"
"62 23" = "SIGNAL CONTROL SENSE"

# The replies to each, beside a NAK: an acknowledgement is "10 01". The line of 61 0C holds for every selector that has none of its own.
# With one of 01, 02, 03, 04 and 08 it has its own replies besides.
[replies]
"20 14" = ["10 01"]   # FRAME STEP FWD
"20 24" = ["10 01"]   # FRAME STEP REV
"20 40" = ["10 01"]   # PREVIEW
"20 41" = ["10 01"]   # REVIEW
"20 42" = ["10 01"]   # AUTO EDIT
"20 43" = ["10 01"]   # OUTPOINT PREVIEW
"20 54" = ["10 01"]   # ANTI-CLOG TIMER DISABLE
"20 55" = ["10 01"]   # ANTI-CLOG TIMER ENABLE
"20 60" = ["10 01"]   # FULL EE OFF
"20 61" = ["10 01"]   # FULL EE ON
"20 63" = ["10 01"]   # SELECT EE ON
"20 64" = ["10 01"]   # EDIT OFF
"20 65" = ["10 01"]   # EDIT ON
"20 6A" = ["10 01"]   # FREEZE OFF
"20 6B" = ["10 01"]   # FREEZE ON
"21 38" = ["10 01"]   # PROG SPEED PLAY +
"21 39" = ["10 01"]   # PROG SPEED PLAY -
"22 5C" = ["10 01"]   # DMC SET FWD
"22 5D" = ["10 01"]   # DMC SET REV
"40 08" = ["10 01"]   # TIMER-1 RESET
"40 2D" = ["10 01"]   # LOST LOCK RESET
"40 42" = ["10 01"]   # SPOT ERASE OFF
"40 43" = ["10 01"]   # SPOT ERASE ON
"40 44" = ["10 01"]   # AUDIO SPLIT OFF
"40 45" = ["10 01"]   # AUDIO SPLIT ON
"41 32" = ["10 01"]   # TAPE/AUDIO SELECT
"41 33" = ["10 01"]   # SERVO REF SELECT
"41 34" = ["10 01"]   # HEAD SELECT
"41 35" = ["10 01"]   # COLOR FRAME SELECT
"41 37" = ["10 01"]   # INPUT CHECK
"41 3A" = ["10 01"]   # EDIT FIELD SELECT
"41 3B" = ["10 01"]   # FREEZE MODE SELECT
"42 32" = ["10 01"]   # TAPE/AUDIO SELECT
"42 3E" = ["10 01"]   # RECORD INHIBIT
"44 00" = ["10 01"]   # TIMER-1 PRESET
"44 04" = ["10 01"]   # TIME CODE PRESET
"44 05" = ["10 01"]   # USER BIT PRESET
"60 28" = ["7* 28"]   # LOCAL KEY MAP SENSE
"60 2B" = ["76 2B"]   # REMAINING TIME SENSE
"60 2E" = ["7* 2E"]   # COMMAND SPEED SENSE
"60 31" = ["74 31"]   # PREROLL TIME SENSE
"60 36" = ["71 36"]   # TIMER MODE SENSE
"60 3E" = ["7* 3E"]   # RECORD INHIBIT SENSE
"61 0A" = ["74 08", "74 09", "78 08"]  # TC GEN SENSE
"61 0C" = [ # CURRENT TIME SENSE
    "74 00", "74 01", "74 04", "74 05", "74 06", "74 07",
    "74 14", "74 15", "74 16", "74 17", "78 04", "78 06",
    "78 14", "78 16",
]
"61 0C 01" = ["74 04", "74 06"]  # with 01, 02 and 03: a time, no user bits
"61 0C 02" = ["74 04", "74 06"]
"61 0C 03" = ["74 04", "74 06"]
"61 0C 04" = ["74 00", "74 01"]  # with 04 and 08: the timers
"61 0C 08" = ["74 00", "74 01"]
"61 0C 10" = ["74 05", "74 15"]  # with 10, 20 and 30: user bits
"61 0C 11" = ["78 04", "78 14"]  # with 11, 22 and 33: a time and user bits
"61 0C 20" = ["74 07", "74 17"]
"61 0C 22" = ["78 06", "78 16"]
"61 0C 30" = ["74 05", "74 07", "74 15", "74 17"]
"61 0C 33" = ["78 04", "78 06", "78 14", "78 16"]
"61 2A" = ["7* 2A"]   # HEAD METER SENSE
"61 30" = ["7* 30"]   # EDIT PRESET SENSE
"62 21" = ["7* 21"]   # EXTENDED STATUS SENSE
"62 23" = ["7* 23"]   # SIGNAL CONTROL SENSE

# What becomes anything at each. A sense request changes nothing by itself, so it needs no line here.
[forgets]
"20 14" = "motion"   # FRAME STEP FWD
"20 24" = "motion"   # FRAME STEP REV
"20 40" = "nothing"  # PREVIEW
"20 41" = "nothing"  # REVIEW
"20 42" = "nothing"  # AUTO EDIT
"20 43" = "nothing"  # OUTPOINT PREVIEW
"20 54" = "nothing"  # ANTI-CLOG TIMER DISABLE
"20 55" = "nothing"  # ANTI-CLOG TIMER ENABLE
"20 60" = "nothing"  # FULL EE OFF
"20 61" = "nothing"  # FULL EE ON
"20 63" = "nothing"  # SELECT EE ON
"20 6A" = "nothing"  # FREEZE OFF
"20 6B" = "nothing"  # FREEZE ON
"21 38" = "motion"   # PROG SPEED PLAY +
"21 39" = "motion"   # PROG SPEED PLAY -
"22 5C" = "nothing"  # DMC SET FWD
"22 5D" = "nothing"  # DMC SET REV
"40 08" = "nothing"  # TIMER-1 RESET
"40 2D" = "nothing"  # LOST LOCK RESET
"40 42" = "nothing"  # SPOT ERASE OFF
"40 43" = "nothing"  # SPOT ERASE ON
"40 44" = "nothing"  # AUDIO SPLIT OFF
"40 45" = "nothing"  # AUDIO SPLIT ON
"41 32" = "nothing"  # TAPE/AUDIO SELECT
"41 33" = "nothing"  # SERVO REF SELECT
"41 34" = "nothing"  # HEAD SELECT
"41 35" = "nothing"  # COLOR FRAME SELECT
"41 37" = "nothing"  # INPUT CHECK
"41 3A" = "nothing"  # EDIT FIELD SELECT
"41 3B" = "nothing"  # FREEZE MODE SELECT
"42 32" = "nothing"  # TAPE/AUDIO SELECT
"42 3E" = "nothing"  # RECORD INHIBIT
"44 00" = "nothing"  # TIMER-1 PRESET
"44 04" = "nothing"  # TIME CODE PRESET
"44 05" = "nothing"  # USER BIT PRESET

# To which modes each may lead, where the deck does not go on as it was. Such a command forgets nothing.
[goals]
"20 64" = ["PLAY"]   # EDIT OFF
"20 65" = ["REC"]    # EDIT ON

# The modes that the deck may show by itself after each, in any order, until a command sets a goal; STOP besides, which is on the way to
# every goal.
[runs]
"20 40" = ["CUED", "JOG", "PLAY", "SHUTTLE"]         # PREVIEW
"20 41" = ["CUED", "JOG", "PLAY", "SHUTTLE"]         # REVIEW
"20 42" = ["CUED", "JOG", "PLAY", "REC", "SHUTTLE"]  # AUTO EDIT
"20 43" = ["CUED", "JOG", "PLAY", "SHUTTLE"]         # OUTPOINT PREVIEW
"#;

/// decks/points-lost-after-edit.toml
const POINTS_LOST_AFTER_EDIT: &str =
    r#"# A deck that clears IN and OUT when an edit that it runs by itself is done. It may do so until a command sets another goal than STOP.
[loses]
"20 42" = "points"  # AUTO EDIT
"#;

/// decks/points-lost-after-eject.toml
const POINTS_LOST_AFTER_EJECT: &str =
    r#"# A deck that clears IN and OUT some time after EJECT, when the cassette is out. It may do so until a command sets another goal than STOP,
# and from the beginning of a capture on, since nobody knows whether an EJECT came before. Not every deck does this: compare yours.
[loses]
"20 0F" = "points"  # EJECT
"#;

/// decks/jog-for-var.toml
const JOG_FOR_VAR: &str = r#"# A deck that shows JOG when it was sent VAR.
[passes]
VAR = ["JOG"]
"#;

/// decks/no-motion-bit.toml
const NO_MOTION_BIT: &str = r#"# A deck that clears all its motion bits for a moment while it plays.
[passes]
PLAY = ["EJECT"]
"#;

/// decks/rewind-at-the-end.toml
const REWIND_AT_THE_END: &str = r#"# A deck that rewinds by itself at the end of the tape.
[passes]
STOP = ["REW"]
"#;

/// decks/standby-off.toml
const STANDBY_OFF: &str =
    r#"# A deck that clears all its motion bits while it stands in STANDBY OFF.
[passes]
STOP = ["EJECT"]
"#;

/// decks/user-bits.toml
const USER_BITS: &str =
    r#"# A deck that answers a request for a time with user bits, where it reads no time from the tape.
[replies]
"61 0C 01" = ["74 05"]  # CURRENT TIME SENSE, selector 01: LTC
"#;

/// decks/play-for-var.toml
const PLAY_FOR_VAR: &str = r#"# A deck that shows PLAY when it was sent VAR at the speed of PLAY.
[passes]
VAR = ["PLAY"]
"#;
