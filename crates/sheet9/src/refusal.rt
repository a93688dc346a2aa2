//! Why a text gives no deck.
ghost use Rattle.sheet9.specs.Refusal.{Entry, Item};
ghost use Rattle.sheet9.specs.Working.{Says};

use std::alloc::{AllocError, Global};
use std::error::Error;

/// Why [`read_sheet`](crate::read_sheet) gives no deck.
#[derive(Debug, Drop, PartialEq, Eq)]
pub enum SheetError {
    /// The text is not a sheet.
    Refused(Refusal),
    /// A growth of memory was refused, which says nothing of the text.
    OutOfMemory,
}

/// What is wrong with the text of a sheet, and where: the first thing, in the order of the tables' names and within a table in
/// the order of its keys. Its `Display` is one line of printable ASCII, without a line feed.
#[derive(Debug, Drop, PartialEq, Eq)]
pub enum Refusal {
    /// The text is not TOML, or not UTF-8.
    NotToml {
        /// The line, counted from 1, of the first byte that is not UTF-8; if there is none, of the fault that the toml library
        /// found.
        line: usize,
    },
    /// At the top stands a key that is no table's name.
    UnknownKey {
        /// The key.
        key: String,
    },
    /// A table's name has a value that is no table.
    NoTable {
        /// The table.
        table: TableName,
    },
    /// An entry of a table is not one.
    Entry {
        /// The table.
        table: TableName,
        /// The entry's key.
        key: String,
        /// What is wrong with it.
        fault: EntryFault,
    },
    /// The list that an entry has for its value has a text that it may not have.
    Item {
        /// The table.
        table: TableName,
        /// The entry's key.
        key: String,
        /// The text.
        item: String,
        /// What is wrong with it.
        fault: ItemFault,
    },
}

/// The tables of a sheet.
#[derive(Clone, Copy, Debug, PartialEq, Eq)]
pub enum TableName {
    /// What is forgotten at some commands.
    Forgets,
    /// To which modes some commands may lead that are not listed.
    Goals,
    /// Which registers a deck may clear by itself after some commands.
    Loses,
    /// What some commands are called.
    Names,
    /// Which modes a deck may show on the way to a goal.
    Passes,
    /// Which replies some commands take.
    Replies,
    /// Which modes a deck may show by itself after some commands.
    Runs,
}

/// What is wrong with an entry: the first that holds, in this order.
#[derive(Clone, Copy, Debug, PartialEq, Eq)]
pub enum EntryFault {
    /// The key is not two bytes of two hexadecimal digits each, with one blank between.
    NotTwoBytes,
    /// The key names a block of group 1 or 7, which is a deck's.
    Reply,
    /// The key of `[forgets]` names a listed command of group 6: that only asks.
    Sense,
    /// The key of `[names]` names a listed command: that has its name.
    Listed,
    /// The key of `[goals]` names a listed command: the rules say where that leads.
    HasEffect,
    /// The key of `[goals]` names a command of another group than 2.
    NotOfTransport,
    /// The key of `[loses]` or `[runs]` names a command of another group than 2.
    BeginsNothing,
    /// The key of `[passes]` is no name of a mode.
    NoGoal,
    /// The value is none of the five words for what is forgotten.
    NotForgotten,
    /// The value is neither of the two words for what is lost.
    NotLost,
    /// The value is no text, where a name is wanted.
    NoText,
    /// The name has another character than capital letters, digits, blanks, `+`, `-` and `/`.
    NameCharacter,
    /// The name does not begin with a letter.
    NameStart,
    /// The name is longer than 24 characters.
    NameLength,
    /// The name has a blank at its end, or two together.
    NameBlanks,
    /// The value is no list, or has an item that is no text, where a list of modes is wanted.
    NoModes,
    /// The list of modes is empty, where one at least is wanted.
    EmptyModes,
    /// The value is no list, or has an item that is no text, where a list of replies is wanted.
    NoReplies,
    /// The list of replies is empty.
    EmptyList,
    /// The entry of `[goals]` is right by itself, and `[forgets]` has another word for its command than `"nothing"` and `"registers"`.
    ForgetsMore,
    /// The entry is right by itself, and another key before it names the same command.
    NamedTwice,
}

/// What is wrong with a text in a list.
#[derive(Clone, Copy, Debug, PartialEq, Eq)]
pub enum ItemFault {
    /// It is no name of a mode.
    NoMode,
    /// It is no form of reply.
    NoReply,
    /// It is a form of group 0, 2, 4 or 6, which is a controller's.
    Command,
}

impl SheetError {
    /// The error that an entry is refused with.
    pub(crate) fn of_entry(
        alloc: Global,
        table: TableName,
        key: &str,
        fault: EntryFault,
    ) -> SheetError
        ensures { Says (Entry table key.now fault) result }
    {
        match String::from_str(alloc, key) {
            Ok(key) => SheetError::Refused(Refusal::Entry { table, key, fault }),
            Err(_) => SheetError::OutOfMemory,
        }
    }

    /// The error that an entry is refused with for a text in its list.
    pub(crate) fn of_item(
        alloc: Global,
        table: TableName,
        key: &str,
        item: &str,
        fault: ItemFault,
    ) -> SheetError
        ensures { Says (Item table key.now item.now fault) result }
    {
        match (String::from_str(alloc, key), String::from_str(alloc, item)) {
            (Ok(key), Ok(item)) => SheetError::Refused(Refusal::Item {
                table,
                key,
                item,
                fault,
            }),
            _ => SheetError::OutOfMemory,
        }
    }
}

impl Error for SheetError {}

impl Error for Refusal {}

impl From<AllocError> for SheetError {
    ghost use Rattle.std.specs.Prelude.{◌≡◌};
    ghost use Rattle.sheet9.specs.declared.refusal.SheetError.TheVariants.{OutOfMemory};

    ghost from_gives = { λ _ error. error ≡ OutOfMemory };

    fn from(_: AllocError) -> SheetError {
        SheetError::OutOfMemory
    }
}
