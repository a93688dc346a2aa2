//! The table `[replies]`: which forms of reply some commands take, and some selectors of CURRENT TIME SENSE.
ghost use Rattle.std.specs.Prelude.{◌≡◌, IfOk, IfErr, Ok, []};
ghost use Rattle.toml.specs.Data.{as_str};
ghost use Rattle.toml.specs.View.{items_view, view};
ghost use Rattle.capture9.specs.declared.line_byte.Wire.TheVariants.{Deck};
ghost use Rattle.block9.specs.Line.{allows};
ghost use Rattle.sheet9.specs.Replies.{count_in, form_in, form_named, with_forms};
ghost use Rattle.sheet9.specs.Working.{ReportsWithoutLine};

use crate::entries::EntryValue;
use crate::head::{byte_of, hex_digit};
use crate::refusal::{EntryFault, ItemFault, SheetError, TableName};
use block9::ReplyForm;
use smallvec::SmallVec;
use std::alloc::Global;
use toml::Value;

/// The forms of reply that a command takes.
pub(crate) type Forms = SmallVec<ReplyForm, 4>;

impl EntryValue for SmallVec<ReplyForm, 4> {
    ghost use Rattle.std.specs.Prelude.{List};
    ghost use Rattle.block9.specs.declared.replies.ReplyForm.{ReplyForm as Form};
    ghost use Rattle.sheet9.specs.Replies.{replies_table};

    ghost Said = { List Form };

    ghost said = { λ forms. forms.items };

    ghost table = { replies_table };

    fn table_name() -> TableName {
        TableName::Replies
    }

    fn unfit(_head: u32) -> Option<EntryFault> {
        None
    }

    fn read(alloc: Global, key: &str, value: &Value) -> Result<Forms, SheetError> {
        let Some(items) = value.as_array() else {
            return Err(SheetError::of_entry(alloc, TableName::Replies, key, EntryFault::NoReplies));
        };
        match items.as_slice() {
            [] => Err(SheetError::of_entry(alloc, TableName::Replies, key, EntryFault::EmptyList)),
            items => forms_in(alloc, key, items),
        }
    }

    fn is_same(&self, other: &Forms) -> bool {
        self.as_slice() == other.as_slice()
    }
}

/// The forms of reply that the items of a list are, under a command's key.
fn forms_in(alloc: Global, key: &str, items: &[Value]) -> Result<Forms, SheetError>
    ensures ok { IfOk result (λ forms. with_forms key.now [] (items_view items.now) ≡ Ok forms.items) }
    ensures err { IfErr result (ReportsWithoutLine (with_forms key.now [] (items_view items.now))) }
{
    let mut forms = Forms::new(alloc);
    'items: for value in items {
        let form = form_in(alloc, key, value)?;
        if forms.push(form).is_err() {
            return Err(SheetError::OutOfMemory);
        }
    }
    Ok(forms)
}

/// The form of reply that an item of a list is, under a command's key.
fn form_in(alloc: Global, key: &str, value: &Value) -> Result<ReplyForm, SheetError>
    ensures ok { IfOk result (λ form. form_in key.now (as_str (view value.now)) ≡ Ok form) }
    ensures err { IfErr result (ReportsWithoutLine (form_in key.now (as_str (view value.now)))) }
{
    let Some(text) = value.as_str() else {
        return Err(SheetError::of_entry(alloc, TableName::Replies, key, EntryFault::NoReplies));
    };
    let fault = match form_named(text.as_bytes()) {
        None => ItemFault::NoReply,
        Some(form) if is_of_deck(form.group) => return Ok(form),
        Some(_) => ItemFault::Command,
    };
    Err(SheetError::of_item(alloc, TableName::Replies, key, text, fault))
}

/// The form of reply that a text is: group, number of data and code.
fn form_named(text: &[u8]) -> Option<ReplyForm>
    ensures { result ≡ form_named text.now }
{
    match text {
        [group, count, b' ', c, d] => Some(ReplyForm {
            group: hex_digit(*group)?,
            count: count_in(*count)?,
            code: byte_of(*c, *d)?,
        }),
        _ => None,
    }
}

/// How many data a form has: a hexadecimal digit, or `*` for any number.
fn count_in(byte: u8) -> Option<Option<u8>>
    ensures { result ≡ count_in byte }
{
    match byte {
        b'*' => Some(None),
        digit => Some(Some(hex_digit(digit)?)),
    }
}

/// Whether blocks of this group may come from a deck.
fn is_of_deck(group: u8) -> bool
    ensures { result ≡ allows Deck group }
{
    matches!(group, 1 | 3 | 5 | 7..=15)
}
