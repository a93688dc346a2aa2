//! The pieces of a report's line, each put to the end of a buffer.
//!
//! An error comes where the buffer has no room and gets none.
ghost use Rattle.std.specs.Prelude.{◌≡◌, ◌++◌, OnOk};
ghost use Rattle.std.specs.Fmt.{decimal};
ghost use Rattle.report9.specs.Bytes.{hex_byte};

use crate::buffer::TextBuffer;
use itoa::Buffer;

/// The hexadecimal digits, in upper case.
const HEX_DIGITS: [u8; 16] = *b"0123456789ABCDEF";

/// Puts a text.
pub fn put_text<B: TextBuffer>(line: &mut B, text: &str) -> Result<(), B::Refusal>
    ensures { OnOk result (B.held line.new ≡ B.held line.old ++ text.now) }
{
    line.put(text.as_bytes())
}

/// Puts a number in decimal digits.
#[inline(always)] // a line of an explanation has three
pub fn put_number<B: TextBuffer>(line: &mut B, number: u64) -> Result<(), B::Refusal>
    ensures { OnOk result (B.held line.new ≡ B.held line.old ++ decimal number) }
{
    let mut buffer = Buffer::new();
    line.put(buffer.format(number).as_bytes())
}

/// Puts a byte in two hexadecimal digits; of a greater number, its low eight bits.
pub fn put_hex<B: TextBuffer>(line: &mut B, byte: u32) -> Result<(), B::Refusal>
    ensures { OnOk result (B.held line.new ≡ B.held line.old ++ hex_byte byte) }
{
    let high = HEX_DIGITS[(byte / 16 % 16) as usize];
    let low = HEX_DIGITS[(byte % 16) as usize];
    line.put(&[high, low])
}

/// Puts a label and a word.
pub fn put_word<B: TextBuffer>(line: &mut B, label: &str, word: &str) -> Result<(), B::Refusal>
    ensures { OnOk result (B.held line.new ≡ B.held line.old ++ (label.now ++ word.now)) }
{
    put_text(line, label)?;
    put_text(line, word)
}

/// Puts a label and a number.
#[inline(always)] // so that the length of the label is known where it is put
pub fn put_count<B: TextBuffer>(line: &mut B, label: &str, number: u64) -> Result<(), B::Refusal>
    ensures { OnOk result (B.held line.new ≡ B.held line.old ++ (label.now ++ decimal number)) }
{
    put_text(line, label)?;
    put_number(line, number)
}

/// Puts a label and a number that can be wider than 64 bits.
pub fn put_wide<B: TextBuffer>(line: &mut B, label: &str, number: u128) -> Result<(), B::Refusal>
    ensures { OnOk result (B.held line.new ≡ B.held line.old ++ (label.now ++ decimal number)) }
{
    let mut buffer = Buffer::new();
    put_word(line, label, buffer.format(number))
}
