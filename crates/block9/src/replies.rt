//! The replies that are named for a deck's commands, beside those of the tables.
ghost use Rattle.std.specs.Prelude.{◌≡◌};
ghost use Rattle.block9.specs.Replies.{has_form, has_some_form, time_sense_with};

use crate::block::Block;
use crate::command::Command;
use smallvec::SmallVec;
use std::collections::BTreeMap;
use std::marker::Model;

/// A form of reply, by its first byte and its code.
#[derive(Clone, Copy, Default, PartialEq, Eq)]
pub struct ReplyForm {
    /// The group.
    pub group: u8,
    /// How many data bytes it has: any number where this is `None`.
    pub count: Option<u8>,
    /// The code.
    pub code: u8,
}

impl ReplyForm {
    /// Whether a reply is of this form.
    fn is_of(&self, reply: &Block) -> bool
        ensures { result ≡ has_form self.now reply.now }
    {
        let is_long = match self.count {
            Some(count) => reply.bytes.len() == usize::from(count),
            None => true,
        };
        reply.group == self.group && reply.code == self.code && is_long
    }
}

/// The forms of reply that are named for commands, by the first two bytes of the command's block as one number, or, for a selector of
/// CURRENT TIME SENSE, by the first three; or none are.
#[derive(Drop)]
pub struct NamedReplies<'a>(Option<&'a BTreeMap<u32, SmallVec<ReplyForm, 4>>>);

impl<'a> Model for NamedReplies<'a> {
    ghost use Rattle.std.specs.Prelude.{option_map};
    ghost use Rattle.std.specs.Coded.{codes};
    ghost use Rattle.block9.specs.Replies.{Named};
    ghost use Rattle.smallvec.specs.SmallVec.{small_vec_code};
    ghost use Rattle.std_collections.specs.Layout.BTreeMap.{btree_map_code};

    ghost Value = { Named };

    ghost coded = { Prim.hlevel (codes, btree_map_code, small_vec_code) };

    ghost view = { λ n. option_map (λ m. m.now) n.0 };
}

impl<'a> NamedReplies<'a> {
    ghost use Rattle.std.specs.Prelude.{◌≡◌, None, option_map};
    ghost use Rattle.block9.specs.Replies.{forms_at, forms_for, takes, takes_besides};

    /// No reply is named for any command.
    pub fn none() -> NamedReplies<'a>
        ensures { result ≡ None }
    {
        NamedReplies(None)
    }

    /// Those in this table, if there is one.
    pub fn of(table: Option<&'a BTreeMap<u32, SmallVec<ReplyForm, 4>>>) -> NamedReplies<'a>
        ensures { result ≡ option_map (λ m. m.now) table.entry }
    {
        NamedReplies(table)
    }

    /// Whether a command with this block takes a reply: one of its own, or one of those that are named for it; where none are, a
    /// command that is not listed takes any. What is named for a selector of CURRENT TIME SENSE takes the place of what is named
    /// for the command.
    #[inline(always)] // it is asked of every exchange
    pub fn takes(&self, block: &Block, command: &Command, reply: &Block) -> bool
        ensures { result ≡ takes self.now block.now command.now reply.now }
    {
        command.is_own(reply) || self.takes_besides(block, command, reply)
    }

    /// Whether a command with this block takes a reply that is none of its own.
    #[inline(never)] // as few exchanges have such a reply
    fn takes_besides(&self, block: &Block, command: &Command, reply: &Block) -> bool
        ensures { result ≡ takes_besides (forms_for self.now block.now) command.now reply.now }
    {
        match self.forms_for(block) {
            Some(forms) => has_some_form(forms, reply),
            None => command.fits(reply),
        }
    }

    /// The forms that are named for the command of a block, if some are.
    fn forms_for(&self, block: &Block) -> Option<&[ReplyForm]>
        ensures { option_map (λ forms. forms.now) result ≡ forms_for self.now block.now }
    {
        let head = block.head();
        if head == TIME_SENSE {
            let selected = time_sense_with(block.first_datum());
            if let Some(forms) = self.forms_at(selected) {
                return Some(forms);
            }
        }
        self.forms_at(head)
    }

    /// The forms that are named for these bytes, if some are.
    fn forms_at(&self, bytes: u32) -> Option<&[ReplyForm]>
        ensures { option_map (λ forms. forms.now) result ≡ forms_at self.now bytes }
    {
        match self.0?.get(&bytes) {
            Some(forms) => Some(forms.as_slice()),
            None => None,
        }
    }
}

/// The first two bytes of CURRENT TIME SENSE as one number. Its data byte is a selector: which of the deck's times it asks for.
pub const TIME_SENSE: u32 = 0x61_0C;

/// These two bytes and a selector as one number: 0x610C03 for `61 0C 03`.
pub fn time_sense_with(selector: u8) -> u32
    ensures { result ≡ time_sense_with selector }
{
    TIME_SENSE * 256 + u32::from(selector)
}

/// Whether a reply is of one of these forms.
fn has_some_form(forms: &[ReplyForm], reply: &Block) -> bool
    ensures { result ≡ has_some_form forms.now reply.now }
{
    forms.iter().any(|form| form.is_of(reply))
}
