//! The bytes of a block as they were captured, in hexadecimal digits.
ghost use Rattle.std.specs.Prelude.{◌≡◌, ◌++◌, OnOk, codes};
ghost use Rattle.report9.specs.Bytes.{hex_byte, hex_bytes, text_of_block};

use crate::pieces::{put_hex, put_text};
use block9::Block;
use std::alloc::AllocError;

/// Puts a block's bytes: the first one, the code, the data, and the sum.
pub fn put_block(line: &mut Vec<u8>, block: &Block) -> Result<(), AllocError>
    ensures { OnOk result (line.new.items ≡ line.old.items ++ text_of_block block.now) }
{
    put_hex(line, block.first_byte())?;
    put_next(line, u32::from(block.code))?;
    put_data(line, block.bytes.as_slice())?;
    put_next(line, u32::from(block.checksum()))
}

/// Puts data bytes, with a space before each.
fn put_data(line: &mut Vec<u8>, bytes: &[u8]) -> Result<(), AllocError>
    ensures { OnOk result (line.new.items ≡ line.old.items ++ hex_bytes (codes " ") bytes.now) }
{
    for byte in bytes {
        put_next(line, u32::from(*byte))?;
    }
    Ok(())
}

/// Puts a byte with a space before it.
fn put_next(line: &mut Vec<u8>, byte: u32) -> Result<(), AllocError>
    ensures { OnOk result (line.new.items ≡ line.old.items ++ (codes " " ++ hex_byte byte)) }
{
    put_text(line, " ")?;
    put_hex(line, byte)
}
