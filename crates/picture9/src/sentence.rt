//! What a break says, in a sentence.

use block9::Reason;
use report9::{put_hex, put_text};
use text9::Done;
use view9::ReasonWords;

/// Puts the sentence of a reason. The block's earlier bytes have this sum, and the byte that breaks is the last.
pub(crate) fn put_sentence(text: &mut Vec<u8>, reason: Reason, sum: u8, byte: u8) -> Done {
    put_text(text, ReasonWords::of(reason).sentence)?;
    if reason != Reason::WrongSum {
        return Ok(());
    }
    put_hex(text, u32::from(sum))?;
    put_text(text, ", and its last byte is ")?;
    put_hex(text, u32::from(byte))?;
    put_text(text, ".")
}
