//! The task that the words of the command line give, and why they give none.

use clap::Error;
use deck9::Hands;
use report9::{Beginning, Extent, Stretch, TimeForm, View};
use std::fmt;
use tc25::Rate;

/// The program's name and version, with a line feed. The package and the man page take the number from this line.
pub const VERSION_LINE: &str = "ninecheck 2.0.0\n";

/// A subcommand.
#[derive(Clone, Copy, PartialEq, Eq)]
pub enum Verb {
    /// Answers the verdict alone: `check`.
    Check,
    /// Tells each exchange before the verdict: `explain`.
    Explain,
    /// Hands out a run of the deck before the verdict: `run`.
    Run,
    /// Says why the verdict is a no, before the verdict itself: `why`.
    Why,
    /// Tells each command and each change of what is known: `digest`.
    Digest,
    /// Counts how long the deck took to reply: `delays`.
    Delays,
    /// Tells what the deck did after each transport command: `motion`.
    Motion,
    /// A JSON object for each line of an explanation: `json`.
    Json,
    /// For each line of a check: `json check`.
    JsonCheck,
    /// As `json`: `json explain`.
    JsonExplain,
    /// For each line of a run: `json run`.
    JsonRun,
    /// For each line of a why: `json why`.
    JsonWhy,
    /// Writes the times of a text as a clock: `clock`.
    Clock,
    /// Tells what a capture says of itself: `info`.
    Info,
    /// Asks with each rate, without hands and with, and with a sheet: `try`.
    Try,
    /// Tells where somebody must have touched the panel: `touches`.
    Touches,
    /// Draws the record that breaks a rule: `picture`.
    Picture,
    /// Makes a page of the whole session: `page`.
    Page,
    /// Makes a capture of what sigrok-cli printed: `convert sigrok`.
    ConvertSigrok,
    /// Makes one of a table of Saleae Logic: `convert saleae`.
    ConvertSaleae,
    /// Makes one of a serial log: `convert log`.
    ConvertLog,
    /// Cuts a long capture into parts: `split`.
    Split,
}

/// What a capture is made of.
#[derive(Clone, Copy, PartialEq, Eq)]
pub enum Export {
    /// What sigrok-cli printed of both wires.
    Sigrok,
    /// The table of two Async Serial analyzers of Saleae Logic, or a table for each.
    Saleae,
    /// A serial log of two ports, with a timestamp on each line.
    Log,
}

/// What is made of a capture, of a text or of an export, beside the reports of a judging.
#[derive(Clone, Copy, PartialEq, Eq)]
pub enum Made {
    /// The commands and what changed, with times; the queries between them are counted. The judging goes so far.
    Digest(Extent),
    /// How long the deck took to reply, for each command and overall, of a judging that goes so far.
    Delays(Extent),
    /// What the deck did after each transport command that it acknowledged, of a judging that goes so far.
    Motion(Extent),
    /// A JSON object for each line of the report with this view, of a judging that goes so far.
    Json(View, Extent),
    /// A JSON object for each line of a run. The judging ends at the first break.
    JsonRun,
    /// A text, with its times in this form. Nothing is judged.
    Clock(TimeForm),
    /// What the capture says of itself. Nothing is judged.
    Info,
    /// The verdict or the totals of each judging with one of the rates, that of the task first, without hands and with, and without
    /// the sheet and with it, where there is one. Each goes so far.
    Try(Extent),
    /// Where somebody must have touched the panel, of a judging that ends at the first break.
    Touches,
    /// A picture of a break, of a judging that goes so far.
    Picture(Extent),
    /// A page of the whole session. The judging goes on after each break.
    Page,
    /// A capture of this export. Nothing is judged.
    Convert(Export),
    /// The parts of a capture, each a file of its own. Nothing is judged.
    Split,
}

/// What is asked for: a report of a judging, or something that is made of the capture.
#[derive(Clone, Copy, PartialEq, Eq)]
pub enum Report {
    /// A run of the deck, and the verdict. The judging ends at the first break.
    Run,
    /// What this view shows, and the verdict. The judging ends at the first break.
    ToBreak(View),
    /// What this view shows of each part, and the totals. The judging goes on after each break.
    Parts(View),
    /// This.
    Made(Made),
}

/// What is asked of a picture.
#[derive(Clone, Copy, PartialEq, Eq)]
pub struct Drawing {
    /// The number of the record whose break is drawn; none where the first break is.
    pub at: Option<u32>,
    /// How wide the picture may be, in pixels: 700 at least.
    pub width: u32,
}

/// What is asked of a capture, whatever its deck is taken for.
#[derive(Clone, Copy, PartialEq, Eq)]
pub struct Asked {
    /// What is made of it, and how far the judging goes.
    pub report: Report,
    /// With which record the judging begins.
    pub beginning: Beginning,
    /// What is shown of it.
    pub stretch: Stretch,
    /// What is asked of a picture, where one is drawn.
    pub drawing: Drawing,
    /// Whether each line is handed on as soon as it is complete.
    pub line_buffered: bool,
    /// Whether `why` says nothing of what to ask next.
    pub quiet: bool,
}

/// What the words of an export or of a split say, as they stand; what each may be is judged where it is read.
#[derive(Drop, PartialEq, Eq)]
pub struct ExportWords {
    /// The deck's file, where an export has a file for each wire.
    pub deck_file: Option<String>,
    /// The recording's number of samples a second.
    pub samplerate: Option<String>,
    /// The name of the controller's analyzer or port.
    pub controller: Option<String>,
    /// The name of the deck's.
    pub deck: Option<String>,
    /// What a log's counter counts.
    pub unit: Option<String>,
    /// The first time of the export that is converted.
    pub from: Option<String>,
    /// The time of the export from which on nothing is converted.
    pub to: Option<String>,
    /// What the parts of a split are called.
    pub name: Option<String>,
    /// The most rows of a part.
    pub rows: Option<String>,
    /// Whether each row is written as soon as it can be.
    pub live: bool,
}

/// What the words of the command line ask for.
#[derive(Drop, PartialEq, Eq)]
pub struct Task {
    /// What is asked of the capture.
    pub asked: Asked,
    /// The file that holds the capture or the export; standard input where there is none.
    pub file: Option<String>,
    /// The rate of the deck's time code.
    pub rate: Rate,
    /// Whether somebody may have touched the deck's panel during the capture.
    pub hands: Hands,
    /// The deck's sheets, in the order of the words, which say what this deck does of its own: each is a file. The profile alone where there
    /// are none.
    pub sheets: Vec<String>,
    /// What the words of an export or of a split say.
    pub export: ExportWords,
}

/// Why the words give no task.
#[derive(Drop)]
pub enum WordsFault {
    /// The words are no command, or they ask for help. The `Display` of the error, where there is one, is the
    /// text for the user.
    Usage(Option<Error>),
    /// The words ask for the program's version: [`VERSION_LINE`].
    Version,
    /// The value of `--from` or of `--to` is no time, that of `--to` is no later than that of `--from`, or that of `--at` or `--width` is
    /// no number that it may be.
    NoValue(NoValue),
    /// A growth of memory was refused.
    NoMemory,
}

/// An option with a value that it can't have. Its `Display` is the text for the user.
#[derive(Drop, PartialEq, Eq)]
pub struct NoValue {
    /// The option's name, without the hyphens.
    pub option: &'static str,
    /// What was given.
    pub value: String,
    /// Why it can't have that.
    pub unfit: Unfit,
}

/// Why an option can't have a value.
#[derive(Clone, Copy, PartialEq, Eq)]
pub enum Unfit {
    /// It is no time, or no number that it may be.
    Malformed,
    /// It is a time, and no later than that of `--from`, which is 0 where it is left out.
    NotLater,
}

impl fmt::Display for NoValue {
    fn fmt<W: fmt::Write>(&self, f: &mut fmt::Formatter<W>) -> fmt::Result {
        let (option, value) = (self.option, self.value.as_str());
        let wanted = wanted_of(option, self.unfit);
        write!(
            f,
            "error: invalid value '{value}' for '--{option} {wanted}\n\nFor more information, try '--help'."
        )
    }
}

/// What the value of an option is called, and what it has to be instead of one that is unfit so.
fn wanted_of(option: &str, unfit: Unfit) -> &'static str {
    match (option, unfit) {
        (_, Unfit::NotLater) => "<TIME>': it has to be later than --from, which is 0 if left out",
        ("at", _) => "<RECORD>': a record has a number from 1 on",
        ("width", _) => "<PIXELS>': a width is a number from 700 on",
        _ => "<TIME>': a time is seconds, such as 12.5, or a clock, such as 14:30:47.25",
    }
}
