//! The text of an error.
ghost use Rattle.std.specs.Prelude.{◌≡◌};
ghost use Rattle.sheet9.specs.Text.{name_of, words_of, words_of_item};

use crate::quoted::Quoted;
use crate::refusal::{EntryFault, ItemFault, Refusal, SheetError, TableName};
use std::fmt;

impl fmt::Display for SheetError {
    ghost use Rattle.std.specs.Prelude.{Some};
    ghost use Rattle.sheet9.specs.Text.{error_text};

    ghost output = { λ error. Some (error_text error) };

    fn fmt<W: fmt::Write>(&self, f: &mut fmt::Formatter<W>) -> fmt::Result {
        match self {
            SheetError::Refused(refusal) => write!(f, "{refusal}"),
            SheetError::OutOfMemory => write!(f, "out of memory"),
        }
    }
}

impl fmt::Display for Refusal {
    ghost use Rattle.std.specs.Prelude.{Some};
    ghost use Rattle.sheet9.specs.Text.{text_of};

    ghost output = { λ refusal. Some (text_of refusal) };

    fn fmt<W: fmt::Write>(&self, f: &mut fmt::Formatter<W>) -> fmt::Result {
        match self {
            Refusal::NotToml { line } => {
                let line = *line;
                write!(f, "line {line}: not TOML")
            }
            Refusal::UnknownKey { key } => {
                let key = Quoted(key.as_str());
                write!(
                    f,
                    "{key}: unknown key: only [forgets], [goals], [loses], [names], [passes], [replies] and [runs] are read"
                )
            }
            Refusal::NoTable { table } => {
                let table = name_of(*table);
                write!(f, "\"{table}\": not a table")
            }
            Refusal::Entry { table, key, fault } => {
                let (table, key, words) = (name_of(*table), Quoted(key.as_str()), words_of(*fault));
                write!(f, "[{table}] {key}: {words}")
            }
            Refusal::Item {
                table,
                key,
                item,
                fault,
            } => {
                let (table, key) = (name_of(*table), Quoted(key.as_str()));
                let (item, words) = (Quoted(item.as_str()), words_of_item(*fault));
                write!(f, "[{table}] {key}: {item} is {words}")
            }
        }
    }
}

/// The name of a table.
pub(crate) fn name_of<'a>(table: TableName) -> &'a str
    ensures { result.now ≡ name_of table }
{
    match table {
        TableName::Forgets => "forgets",
        TableName::Goals => "goals",
        TableName::Loses => "loses",
        TableName::Names => "names",
        TableName::Passes => "passes",
        TableName::Replies => "replies",
        TableName::Runs => "runs",
    }
}

/// What is said of a text that is no name of a mode.
const NO_MODE: &str = "not STOP, PLAY, REC, FF, REW, SHUTTLE, JOG, VAR, CUED or EJECT";

/// What is wrong with an entry, in words.
fn words_of<'a>(fault: EntryFault) -> &'a str
    ensures { result.now ≡ words_of fault }
{
    match fault {
        EntryFault::NotTwoBytes => "not two bytes in hexadecimal, as \"20 61\"",
        EntryFault::Reply => "groups 1 and 7 are a deck's replies, not commands",
        EntryFault::Sense => "a listed sense request: it changes nothing",
        EntryFault::Listed => "a listed command: it has its name",
        EntryFault::HasEffect => "a listed command: the rules say where it leads",
        EntryFault::NotOfTransport => "a command of another group than 2 leads to no mode",
        EntryFault::BeginsNothing => "a command of another group than 2 begins nothing",
        EntryFault::NoGoal => NO_MODE,
        EntryFault::NotForgotten =>
            "not \"nothing\", \"motion\", \"registers\", \"tape\" or \"everything\"",
        EntryFault::NotLost => "not \"points\" or \"registers\"",
        EntryFault::NoText => "not a text, as \"FULL EE ON\"",
        EntryFault::NameCharacter => "a name has only A to Z, 0 to 9, blanks, +, - and /",
        EntryFault::NameStart => "a name begins with a letter",
        EntryFault::NameLength => "a name has no more than 24 characters",
        EntryFault::NameBlanks => "a name has no blank at its end, and no two together",
        EntryFault::NoModes => "not a list of modes, as [\"SHUTTLE\", \"JOG\"]",
        EntryFault::NoReplies => "not a list of replies, as [\"74 08\", \"7* 21\"]",
        EntryFault::EmptyModes => "an empty list: at least one mode is wanted",
        EntryFault::EmptyList => "an empty list: at least one reply is wanted",
        EntryFault::ForgetsMore =>
            "[forgets] has another word for it than \"nothing\" and \"registers\"",
        EntryFault::NamedTwice => "named twice",
    }
}

/// What is wrong with a text in a list, in words.
fn words_of_item<'a>(fault: ItemFault) -> &'a str
    ensures { result.now ≡ words_of_item fault }
{
    match fault {
        ItemFault::NoMode => NO_MODE,
        ItemFault::NoReply => "no reply, as \"74 08\" or \"7* 21\"",
        ItemFault::Command => "no reply: groups 0, 2, 4 and 6 are a controller's commands",
    }
}
