//! The table `[names]`: what some commands are called that are not listed.
ghost use Rattle.std.specs.Prelude.{◌≡◌, IfOk, IfErr, None, Some};
ghost use Rattle.std.specs.List.{list_all};
ghost use Rattle.sheet9.specs.Names.{begins_with_letter, has_blanks_apart, is_of_name, name_fault};

use crate::entries::EntryValue;
use crate::refusal::{EntryFault, SheetError, TableName};
use arrayvec::ArrayVec;
use block9::Command;
use std::alloc::Global;
use toml::Value;

/// A name, in ASCII.
pub(crate) type Name = ArrayVec<u8, 24>;

impl EntryValue for ArrayVec<u8, 24> {
    ghost use Rattle.std.specs.Prelude.{List, ℕ};
    ghost use Rattle.sheet9.specs.Names.{names_table};

    ghost Said = { List ℕ };

    ghost said = { λ name. name.items };

    ghost table = { names_table };

    fn table_name() -> TableName {
        TableName::Names
    }

    fn unfit(head: u32) -> Option<EntryFault> {
        Command::is_listed_head(head).then_some(EntryFault::Listed)
    }

    fn read(alloc: Global, key: &str, value: &Value) -> Result<Name, SheetError> {
        let Some(text) = value.as_str() else {
            return Err(SheetError::of_entry(alloc, TableName::Names, key, EntryFault::NoText));
        };
        match name_of(text.as_bytes()) {
            Ok(name) => Ok(name),
            Err(fault) => Err(SheetError::of_entry(alloc, TableName::Names, key, fault)),
        }
    }

    fn is_same(&self, other: &Name) -> bool {
        self.as_slice() == other.as_slice()
    }
}

/// The name that a text is, or what is wrong with it.
fn name_of(text: &[u8]) -> Result<Name, EntryFault>
    ensures ok { IfOk result (λ name. (name_fault text.now ≡ None) × (name.items ≡ text.now)) }
    ensures err { IfErr result (λ fault. name_fault text.now ≡ Some fault) }
{
    if !has_just_characters(text) {
        return Err(EntryFault::NameCharacter);
    }
    if !begins_with_letter(text) {
        return Err(EntryFault::NameStart);
    }
    let Ok(name) = Name::try_from(text) else {
        return Err(EntryFault::NameLength);
    };
    if !has_blanks_apart(text) {
        return Err(EntryFault::NameBlanks);
    }
    Ok(name)
}

/// Whether a text has no other characters than a name may have.
fn has_just_characters(text: &[u8]) -> bool
    ensures { result ≡ list_all is_of_name text.now }
{
    text.iter().all(|byte| is_of_name(*byte))
}

/// Whether a byte may stand in a name.
fn is_of_name(byte: u8) -> bool
    ensures { result ≡ is_of_name byte }
{
    byte.is_ascii_uppercase() || byte.is_ascii_digit() || matches!(byte, b' ' | b'+' | b'-' | b'/')
}

/// Whether a name begins with a letter.
fn begins_with_letter(name: &[u8]) -> bool
    ensures { result ≡ begins_with_letter name.now }
{
    match name {
        [first, ..] => first.is_ascii_uppercase(),
        [] => false,
    }
}

/// Whether a character that is no blank stands behind each blank.
fn has_blanks_apart(name: &[u8]) -> bool
    ensures { result ≡ has_blanks_apart name.now }
{
    let mut rest = name;
    'rest: while let [first, next @ ..] = rest {
        if *first == b' ' && matches!(next, [] | [b' ', ..]) {
            return false;
        }
        rest = next;
    }
    true
}
