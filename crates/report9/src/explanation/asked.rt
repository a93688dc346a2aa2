//! What was asked and what was answered, put to the end of a line.
ghost use Rattle.std.specs.Prelude.{◌≡◌, ◌++◌, OnOk, codes};
ghost use Rattle.block9.specs.Nak.{nak_bits};
ghost use Rattle.deck9.specs.Status.{has_bit};
ghost use Rattle.report9.specs.Bytes.{text_of_head};
ghost use Rattle.report9.specs.Explanation.{names_set, text_of_command, text_of_nak, text_of_reply};
ghost use Rattle.report9.specs.Row.{in_a_row};

use crate::buffer::TextBuffer;
use crate::pieces::{put_hex, put_text};
use crate::row::put_chosen;
use bitflags::Flags;
use block9::{Block, Exchange, NakBits};
use deck9::Profile;
use std::alloc::AllocError;

/// Puts a label and a command: its name, or the first two bytes of one that has none.
#[inline(always)] // so that the length of the label is known where it is put
#[tactic(auto, unfolding(crate::specs::Explanation::text_of_command))]
pub fn put_command(
    line: &mut Vec<u8>,
    label: &str,
    profile: &Profile,
    exchange: &Exchange,
) -> Result<(), AllocError>
    ensures { OnOk result (line.new.items ≡ line.old.items ++ (label.now ++ text_of_command profile.now exchange.now)) }
{
    put_text(line, label)?;
    match profile.name_of(&exchange.command) {
        Some(name) => line.put(name),
        None => put_head(line, exchange.block.head()),
    }
}

/// Puts a label and a reply: an acknowledgement, a NAK with its reasons, or the first two bytes of another block.
#[inline(always)] // so that the length of the label is known where it is put
#[tactic(auto, unfolding(crate::specs::Explanation::text_of_reply))]
pub fn put_reply(line: &mut Vec<u8>, label: &str, reply: &Block) -> Result<(), AllocError>
    ensures { OnOk result (line.new.items ≡ line.old.items ++ (label.now ++ text_of_reply reply.now)) }
{
    put_text(line, label)?;
    if reply.is_ack() {
        return put_text(line, "ACK");
    }
    match NakBits::of(reply) {
        Some(nak) => put_nak(line, nak),
        None => put_head(line, reply.head()),
    }
}

/// Puts a NAK: its byte, and the names of the bits that are set.
pub fn put_nak(line: &mut Vec<u8>, nak: NakBits) -> Result<(), AllocError>
    ensures { OnOk result (line.new.items ≡ line.old.items ++ text_of_nak nak.0) }
{
    put_text(line, "NAK ")?;
    put_hex(line, u32::from(nak.bits()))?;
    put_nak_names(line, nak)
}

/// Puts the names of the bits that are set: the first after a space, each other after a plus sign.
fn put_nak_names(line: &mut Vec<u8>, nak: NakBits) -> Result<(), AllocError>
    ensures { OnOk result (line.new.items ≡ line.old.items ++ in_a_row (codes " ") (codes "+") (names_set nak.0 nak_bits)) }
{
    let mut before = " ";
    for flag in NakBits::flags() {
        before = put_chosen(line, before, "+", flag.name, nak.contains(flag.value))?;
    }
    Ok(())
}

/// Puts the first two bytes of a block, which are given as one number.
pub fn put_head(line: &mut Vec<u8>, head: u32) -> Result<(), AllocError>
    ensures { OnOk result (line.new.items ≡ line.old.items ++ text_of_head head) }
{
    put_hex(line, head / 256)?;
    put_text(line, " ")?;
    put_hex(line, head % 256)
}
