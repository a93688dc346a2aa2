//! What a block is called: by its first two bytes.

use arrayvec::ArrayVec;
use block9::{Block, Command};
use capture9::Wire;
use deck9::Profile;
use report9::{TextBuffer, put_head, put_text};
use tc25::Rate;
use text9::Done;
use view9::Reply;

/// Puts the name of a block on this wire that begins with these two bytes: a command's or a reply's, or the bytes where it has none.
pub(crate) fn put_block_name(
    text: &mut Vec<u8>,
    profile: &Profile,
    wire: Wire,
    first: u8,
    code: u8,
) -> Done {
    let head = u32::from(first) * 256 + u32::from(code);
    match (wire, command_name(profile, first, code)) {
        (Wire::Deck, _) => put_reply_name(text, head),
        (Wire::Controller, Some(name)) => text.put(name),
        (Wire::Controller, None) => put_head(text, head),
    }
}

/// Puts the name of a reply with these first two bytes, or the bytes where it has none.
pub(crate) fn put_reply_name(text: &mut Vec<u8>, head: u32) -> Done {
    match Reply::of(head) {
        Some(reply) => put_text(text, reply.name()),
        None => put_head(text, head),
    }
}

/// The name of the command with these two bytes, of the rules or of a sheet, whatever its data are: it is asked for with data that each
/// command takes.
pub fn command_name(profile: &Profile, first: u8, code: u8) -> Option<&[u8]> {
    let mut bytes = ArrayVec::new();
    for place in 0..first % 16 {
        let _ = bytes.try_push(u8::from(place == 0));
    }
    let block = Block {
        group: first / 16,
        code,
        bytes,
    };
    profile.name_of(&Command::of_at(Rate::Fps25, &block)?)
}
