//! How the program ends: its status, and what it says on standard error.
ghost use Rattle.std.specs.Prelude.{◌≡◌};
ghost use Rattle.program9.specs.Status.{usage_status};

use crate::no_header::NoHeader;
use crate::want::Kept;
use capture9::CaptureError;
use clap::Error;
use clap::error::ErrorKind;
use seen9::WhyNothing;
use sheet9::Refusal as SheetRefusal;
use words9::{Export, NoValue};

/// What is said on standard error, which its `Display` writes: two lines, without a line feed at the end, or nothing. The
/// first line says what happened; the second what was expected, or what to look at.
#[derive(Drop, PartialEq, Eq)]
pub enum Message {
    /// There is a verdict, or the version was told, and there is nothing more to say.
    Nothing,
    /// A row of the capture is bad, or its header. The kind is neither `Read` nor `OutOfMemory`.
    Unreadable(CaptureError),
    /// The same of a row in a file.
    BadRow(BadRow),
    /// The header of the capture is none, and this stands in its place.
    NoHeader(NoHeader),
    /// An export was refused, or a capture that was to be split, or the words for that.
    Refused(RefusedExport),
    /// A log was converted, and this is to be said of its times.
    Notice(Notice),
    /// These lines: what to look at besides the answers to several terms, what to ask next after a `why`, or what went wrong with a split
    /// and what it left behind.
    Lines(String),
    /// There is nothing to draw.
    NothingToDraw(WhyNothing),
    /// The reader failed or was interrupted at this data row, counted from 1; 0 is the header.
    ReadFault(u32),
    /// The same in a file.
    CannotRead(FileRow),
    /// The capture was not opened. No result of `judge` ends so.
    CannotOpen(Unopened),
    /// The deck's sheet is none.
    UnreadableSheet(UnreadSheet),
    /// Two of the deck's sheets say different things of one key.
    ClashingSheets(ClashingSheets),
    /// The deck's sheet was not opened, or its reader failed.
    CannotOpenSheet(Unopened),
    /// The text whose times are rewritten can't be read to its end.
    TextFault,
    /// The writer failed, was interrupted, or took no byte.
    WriteFault,
    /// A growth of memory was refused.
    NoMemory,
    /// It was refused to a word that keeps this, which may be too large.
    TooLarge(Kept),
}

/// A bad row of a capture.
#[derive(Drop, PartialEq, Eq)]
pub struct BadRow {
    /// The file, by the name that the words give.
    pub file: String,
    /// What is wrong, and where. It is not the header.
    pub fault: CaptureError,
}

/// A row of a file.
#[derive(Drop, PartialEq, Eq)]
pub struct FileRow {
    /// The file, by the name that the words give.
    pub file: String,
    /// The data row, counted from 1; 0 is the header.
    pub row: u32,
}

/// A file whose text is no deck sheet.
#[derive(Drop, PartialEq, Eq)]
pub struct UnreadSheet {
    /// The file, by the name that the words give.
    pub file: String,
    /// What is wrong with its text.
    pub refusal: SheetRefusal,
}

/// Two sheets that say different things of one key.
#[derive(Drop, PartialEq, Eq)]
pub struct ClashingSheets {
    /// The later one, by the name that the words give.
    pub file: String,
    /// The earlier one.
    pub earlier: String,
    /// The table and the key, as a text.
    pub key: String,
}

/// What was refused of an export, or of a split.
#[derive(Drop, PartialEq, Eq)]
pub struct RefusedExport {
    /// Which word refused it.
    pub by: Refuser,
    /// The file that is at fault, by the name that the words give, or the deck's where two were read; none where it is standard input, or
    /// where the words are at fault.
    pub file: Option<String>,
    /// The line of the export, or of the capture, where it is; 0 before the first.
    pub line: u64,
    /// What is wrong there.
    pub text: String,
}

/// What is said of the times of a log that was converted.
#[derive(Clone, Copy, PartialEq, Eq)]
pub enum Notice {
    /// All of them are whole numbers.
    WholeNumbers,
    /// They are coarse.
    Coarse,
}

/// A word that reads what is no capture, or is one that is cut.
#[derive(Clone, Copy, PartialEq, Eq)]
pub enum Refuser {
    /// `convert`, of this kind of export.
    Convert(Export),
    /// `split`.
    Split,
}

/// A capture or a deck's sheet that was not opened.
#[derive(Drop, PartialEq, Eq)]
pub struct Unopened {
    /// The file, by the name that the words give; standard input where there is none.
    pub file: Option<String>,
    /// Why not.
    pub why: WhyUnopened,
}

/// Why a file was not opened, by the kind of the error that its opener gave, or its reader.
#[derive(Clone, Copy, PartialEq, Eq)]
pub enum WhyUnopened {
    /// There is no such file.
    NotFound,
    /// The file may not be read.
    PermissionDenied,
    /// It is a directory. The system opens one, and refuses its first read, so the first line of a capture is that of such a
    /// read.
    IsADirectory,
    /// What should be a directory of the path is none.
    NotADirectory,
    /// Its symbolic links lead to one another.
    FilesystemLoop,
    /// Anything else.
    Other,
}

/// How the program ends where its words are a command.
#[derive(Drop, PartialEq, Eq)]
pub struct Outcome {
    /// The exit status: 0 yes, the version, or a capture that was made or cut; 1 no; 2 a picture of a record that breaks nothing, or a wrong
    /// word of an export or a split; 3 a capture, an export or a deck's sheet that can't be read; 4 a reader or a writer that failed, or a
    /// file that can't be opened or made; 5 out of memory. (Words that are no command end with 2, and have no outcome.)
    pub status: u8,
    /// What is said on standard error.
    pub message: Message,
}

impl Outcome {
    ghost use Rattle.std.specs.Prelude.{◌≡◌};

    /// The end with this status and this message.
    pub const fn new(status: u8, message: Message) -> Outcome
        ensures { result ≡ record { status = status; message = message } }
    {
        Outcome { status, message }
    }
}

/// How the program ends.
#[derive(Drop)]
pub enum End {
    /// The words are no command, or they ask for help. The `Display` of the error, where there is one, is the text for
    /// the user; there is none where a word is not UTF-8.
    Usage(Option<Error>),
    /// The words are a command, but for a value that an option can't have. The `Display` is the text for the user.
    NoValue(NoValue),
    /// A status, and what is said on standard error.
    Told(Outcome),
}

impl End {
    ghost use Rattle.std.specs.Prelude.{◌≡◌};
    ghost use Rattle.program9.specs.Status.{status_of};

    /// The exit status: 0 where the words ask for help, 2 where they are no command, and else that of the outcome.
    pub fn status(&self) -> u8
        ensures { result ≡ status_of self.now }
    {
        match self {
            End::Usage(text) => usage_status(text),
            End::NoValue(_) => 2,
            End::Told(outcome) => outcome.status,
        }
    }
}

/// The exit status of words that `clap` does not take: 0 where they ask for help, and 2 else.
fn usage_status(text: &Option<Error>) -> u8
    ensures { result ≡ usage_status text.now }
{
    match text {
        Some(text) => match text.kind() {
            ErrorKind::DisplayHelp => 0,
            _ => 2,
        },
        None => 2,
    }
}
