//! The files and options of the subcommands: what there is, with the lines of help, and a list for each verb of those that it takes.
//!
//! `--from`, `--to` and `--deck` are other options of an export or of a split than of a subcommand that judges, and so have other ids: a
//! time of an export is none of the capture, and `--deck` names an analyzer or a port and no sheet.
ghost use Rattle.std.specs.Prelude.{◌≡◌, map};
ghost use Rattle.words9.specs.Words.{RateNames, rules_of};
ghost use Rattle.words9.specs.Working.{rule_for};

use crate::task::Verb;

/// A file or an option of a subcommand.
#[derive(Clone, Copy)]
pub(crate) enum Argument<'a> {
    /// A file, which may be left out: its id and its line of help.
    File(&'a str, &'a str),
    /// An option that is there or not: its long name, which is its id too, and its line of help.
    Switch(&'a str, &'a str),
    /// An option that is there or not, and changes nothing here: its long name, which is its id too. Scripts that give each word the same
    /// options may give it; help does not offer it.
    Unoffered(&'a str),
    /// An option with a value.
    Value {
        /// By this its value is asked for.
        id: &'a str,
        /// It stands behind two hyphens among the words.
        long: &'a str,
        /// What help calls the value.
        value: &'a str,
        /// Its line of help.
        help: &'a str,
    },
    /// An option with a value that may be given more than once: the same.
    Values {
        /// By this its values are asked for.
        id: &'a str,
        /// It stands behind two hyphens among the words.
        long: &'a str,
        /// What help calls a value.
        value: &'a str,
        /// Its line of help.
        help: &'a str,
    },
    /// The option with the name of a rate: its line of help.
    Rate(&'a str),
}

/// The file of a capture.
const CAPTURE: Argument = Argument::File(
    "FILE",
    "The capture of both wires of the RS-422 line, as CSV; standard input if left out",
);

/// The option of the panel.
const HANDS: Argument = Argument::Switch(
    "hands",
    "Allow that somebody touched the deck's front panel during the capture",
);

/// The option of the capture's beginning.
const SYNC: Argument = Argument::Switch(
    "sync",
    "The capture may begin inside a command or a reply: judge it from the first record that may begin a command",
);

/// The option of the rate. Its line of help says what each name is also for, so `clap` lists the bare names only where it refuses
/// another.
const RATE: Argument = Argument::Rate(
    "The frame rate of the time code: 24 (also 23.976), 25 (if left out), 30 (also 29.97 without drop frame), 29.97df",
);

/// The option of the deck's sheets.
const DECK: Argument = Argument::Values {
    id: "deck",
    long: "deck",
    value: "FILE",
    help: "A sheet of what this deck does of its own, as TOML: what commands are called, which replies they take, what they make it forget, through which modes it passes, and what it does by itself. Several, each with an option of its own, are taken together. Inside the program: 9pin, edit, eject, jog, no-bit, rewind, standby, user-bits and var-play",
};

/// The option that goes on after a break.
const ALL: Argument = Argument::Switch(
    "all",
    "Go on after each break, and judge the whole capture",
);

/// The option that tells exchanges with their bytes.
const BYTES: Argument = Argument::Switch(
    "bytes",
    "Write each exchange with its bytes, as why does",
);

/// The option that goes on after a break, where judging always does.
const ALWAYS_ALL: Argument = Argument::Unoffered("all");

/// The option that tells exchanges with their bytes, where no exchange is told.
const NO_BYTES: Argument = Argument::Unoffered("bytes");

/// The option that hands each line on at once, where all is written at the end.
const AT_THE_END: Argument = Argument::Unoffered("line-buffered");

/// The option that hands each line on at once.
const AT_ONCE: Argument = Argument::Switch(
    "line-buffered",
    "Write each line as soon as it is complete, to watch a capture while it grows",
);

/// The option that says nothing of what to ask next.
const QUIET: Argument = Argument::Switch(
    "quiet",
    "Without the line on standard error that says what to ask next",
);

/// The option of the first time that is shown.
const FROM: Argument = Argument::Value {
    id: "from",
    long: "from",
    value: "TIME",
    help: "Show what comes at this time or later, in seconds or as a clock (hh:mm:ss.5); all is judged",
};

/// The option of the time at which what is shown ends.
const TO: Argument = Argument::Value {
    id: "to",
    long: "to",
    value: "TIME",
    help: "Show what comes before this time",
};

/// The option of the record whose break is drawn.
const AT: Argument = Argument::Value {
    id: "at",
    long: "at",
    value: "RECORD",
    help: "With --all the break at this record; the first if left out",
};

/// The option of a picture's width.
const WIDTH: Argument = Argument::Value {
    id: "width",
    long: "width",
    value: "PIXELS",
    help: "The greatest width in pixels, from 700 on; 1200 if left out",
};

/// The file and the option of `clock`.
const CLOCK: &[Argument] = &[
    Argument::File("FILE", "The text; standard input if left out"),
    Argument::Switch("seconds", "Write the times in seconds"),
];

/// The option of the first time of an export that is converted.
const EXPORT_FROM: Argument = Argument::Value {
    id: "export-from",
    long: "from",
    value: "SECONDS",
    help: "Leave out the bytes before this time of the export",
};

/// The option of the time from which on nothing is.
const EXPORT_TO: Argument = Argument::Value {
    id: "export-to",
    long: "to",
    value: "SECONDS",
    help: "Leave out the bytes from this time of the export on",
};

/// The file and the options of `convert sigrok`.
const SIGROK: &[Argument] = &[
    Argument::File(
        "FILE",
        "What sigrok-cli printed of both wires; standard input if left out",
    ),
    Argument::Value {
        id: "samplerate",
        long: "samplerate",
        value: "N",
        help: "The recording's number of samples a second",
    },
    EXPORT_FROM,
    EXPORT_TO,
];

/// The files and the options of `convert saleae`.
const SALEAE: &[Argument] = &[
    Argument::File(
        "FILE",
        "The export; of two files without names the controller's first; standard input if left out",
    ),
    Argument::File(
        "DECK-FILE",
        "The deck's export, where each wire has a file of its own",
    ),
    Argument::Value {
        id: "controller",
        long: "controller",
        value: "ANALYZER",
        help: "The name of the controller's analyzer",
    },
    Argument::Value {
        id: "export-deck",
        long: "deck",
        value: "ANALYZER",
        help: "The name of the deck's analyzer",
    },
    EXPORT_FROM,
    EXPORT_TO,
];

/// The file and the options of `convert log`.
const LOG: &[Argument] = &[
    Argument::File("FILE", "The log; standard input if left out"),
    Argument::Value {
        id: "controller",
        long: "controller",
        value: "PORT",
        help: "The controller's port, as the log names it",
    },
    Argument::Value {
        id: "export-deck",
        long: "deck",
        value: "PORT",
        help: "The deck's port",
    },
    Argument::Value {
        id: "unit",
        long: "unit",
        value: "UNIT",
        help: "The timestamps are a counter of milliseconds (ms) or microseconds (us)",
    },
    Argument::Switch(
        "live",
        "Write each row as soon as it can be, of a log that grows",
    ),
    Argument::Value {
        id: "export-from",
        long: "from",
        value: "SECONDS",
        help: "Leave out the bytes before this time of the log",
    },
    Argument::Value {
        id: "export-to",
        long: "to",
        value: "SECONDS",
        help: "Leave out the bytes from this time of the log on",
    },
];

/// The file and the options of `split`.
const SPLIT: &[Argument] = &[
    Argument::File("FILE", "The capture; standard input if left out"),
    Argument::Value {
        id: "part-name",
        long: "to",
        value: "NAME",
        help: "How the parts are called",
    },
    Argument::Value {
        id: "rows",
        long: "rows",
        value: "N",
        help: "The most rows of a part: 4000000 if left out",
    },
];

/// The files and options that the subcommand of a verb takes, in the order in which `help` lists them.
pub(crate) fn arguments_of<'a>(verb: Verb) -> &'a [Argument<'a>]
    ensures { (names : RateNames) → map (rule_for names) result.now ≡ rules_of names verb }
{
    match verb {
        Verb::Run | Verb::JsonRun => &[CAPTURE, HANDS, SYNC, RATE, DECK],
        Verb::Check => &[CAPTURE, HANDS, SYNC, RATE, DECK, ALL, AT_ONCE],
        Verb::Why => &[CAPTURE, HANDS, SYNC, RATE, DECK, ALL, AT_ONCE, QUIET],
        Verb::Explain => &[CAPTURE, HANDS, SYNC, RATE, DECK, BYTES, ALL, AT_ONCE],
        Verb::Json | Verb::JsonExplain => &[
            CAPTURE, HANDS, SYNC, RATE, DECK, BYTES, ALL, AT_ONCE, FROM, TO,
        ],
        Verb::Digest | Verb::Motion => &[
            CAPTURE, HANDS, SYNC, RATE, DECK, NO_BYTES, ALL, AT_ONCE, FROM, TO,
        ],
        Verb::Delays => &[
            CAPTURE, HANDS, SYNC, RATE, DECK, NO_BYTES, ALL, AT_THE_END, FROM, TO,
        ],
        Verb::Page => &[
            CAPTURE, HANDS, SYNC, RATE, DECK, NO_BYTES, ALWAYS_ALL, AT_THE_END, FROM, TO,
        ],
        Verb::JsonCheck | Verb::JsonWhy => &[
            CAPTURE, HANDS, SYNC, RATE, DECK, ALL, AT_ONCE, FROM, TO,
        ],
        Verb::Picture => &[CAPTURE, HANDS, SYNC, RATE, DECK, ALL, AT_THE_END, AT, WIDTH],
        Verb::Touches => &[CAPTURE, SYNC, RATE, DECK],
        Verb::Try => &[CAPTURE, SYNC, RATE, DECK, ALL],
        Verb::Info => &[CAPTURE, SYNC, RATE],
        Verb::Clock => CLOCK,
        Verb::ConvertSigrok => SIGROK,
        Verb::ConvertSaleae => SALEAE,
        Verb::ConvertLog => LOG,
        Verb::Split => SPLIT,
    }
}
