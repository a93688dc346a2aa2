//! A block of the protocol.
ghost use Rattle.std.specs.Prelude.{◌≡◌, ℕ, ◌%◌, ◌≤◌, IfSome, IfNone, length};
ghost use Rattle.std.specs.List.{sum};
ghost use Rattle.block9.specs.Block.{most_data};

use crate::reply::{ACK, NAK};
use arrayvec::ArrayVec;
use capture9::LineByte;
use tc25::{Rate, TimeCode};

/// The most data bytes of a block.
const MOST_DATA: usize = 15;

/// A block: a group, a code, and 0 to 15 data bytes.
///
/// Its bytes on the line are: the group and the number of data bytes in one byte, the code, the data, and the checksum,
/// which is the sum of all these bytes modulo 256 (the protocol manual).
#[derive(Drop, PartialEq, Eq)]
pub struct Block {
    /// The high four bits of the first byte, so below 16: what kind of message it is.
    pub group: u8,
    /// The second byte: which message of its group it is.
    pub code: u8,
    /// The data bytes, as many as the low four bits of the first byte say.
    pub bytes: ArrayVec<u8, MOST_DATA>,
}

impl Block {
    ghost use Rattle.std.specs.Prelude.{◌≡◌, ◌≤◌, IfSome, IfNone, length};
    ghost use Rattle.tc25.specs.Day.{time_of};
    ghost use Rattle.std.specs.Prelude.{◌%◌};
    ghost use Rattle.std.specs.List.{sum};
    ghost use Rattle.block9.specs.Block.{Spells, body_of, first_byte_of, first_datum, head_of};
    ghost use Rattle.block9.specs.Command.{is_ack, is_nak};
    ghost use Rattle.block9.specs.Line.{bytes_of};
    ghost use Rattle.block9.specs.Working.Body.{block_of, most_body};

    /// The block that these bytes spell, its checksum included.
    ///
    /// `None` exactly where they are not the spelling of one complete block: there are fewer or more of them
    /// than the first byte says, or the last one is not the checksum.
    pub fn from_bytes(bytes: &[u8]) -> Option<Block>
        ensures some { IfSome result (Spells bytes.now) }
        ensures none { IfNone result ((b : Block) → ¬ Spells bytes.now b) }
    {
        let (sum, body) = bytes.split_last()?;
        let first = body.first()?;
        if body.len() != usize::from(*first % 16) + 2 || sum_of(body) != *sum {
            return None;
        }
        Some(Block::of_body(body))
    }

    /// The first two bytes of the block as one number: 0x2001 for a block that begins with `20 01`.
    pub fn head(&self) -> u32
        ensures { result ≡ head_of self.now }
    {
        let (group, code) = (u32::from(self.group), u32::from(self.code));
        (group * 16 + self.bytes.len() as u32) * 256 + code
    }

    /// The first byte of the block on the line: its group in the high four bits, and how many data bytes it has in the low
    /// four.
    pub fn first_byte(&self) -> u32
        ensures { result ≡ first_byte_of self.now }
    {
        u32::from(self.group) * 16 + self.bytes.len() as u32
    }

    /// The last byte of the block on the line: the checksum, the sum of all bytes before it modulo 256.
    pub fn checksum(&self) -> u8
        ensures { result ≡ sum (body_of self.now) % 256 }
    {
        let first_byte = (self.first_byte() % 256) as u8;
        first_byte
            .wrapping_add(self.code)
            .wrapping_add(sum_of(self.bytes.as_slice()))
    }

    /// Whether the block is an acknowledgement: `10 01`, without data.
    pub fn is_ack(&self) -> bool
        ensures { result ≡ is_ack self.now }
    {
        self.head() == ACK
    }

    /// Whether the block is a NAK: `11 12`, with one byte that says why.
    pub fn is_nak(&self) -> bool
        ensures { result ≡ is_nak self.now }
    {
        self.head() == NAK
    }

    /// The first data byte, and 0 where there is none.
    pub(crate) fn first_datum(&self) -> u8
        ensures { result ≡ first_datum self.now }
    {
        self.bytes.as_slice().first().copied().unwrap_or(0)
    }

    /// The time that the data are at a rate, as the protocol manual spells times: `None` exactly where they are not the four
    /// bytes of a valid one.
    pub fn time_at(&self, rate: Rate) -> Option<TimeCode>
        ensures { result ≡ time_of rate self.now.bytes.items }
    {
        let bytes = self.bytes.as_slice().as_array()?;
        TimeCode::from_bytes_at(rate, *bytes)
    }

    /// The block with this body: the bytes before the checksum.
    pub(crate) fn of_body(body: &[u8]) -> Block
        requires code { 2 ≤ length body.now }
        requires data { length body.now ≤ most_body }
        ensures { result ≡ block_of body.now }
    {
        Block {
            group: body[0] / 16,
            code: body[1],
            bytes: data_of(&body[2..]),
        }
    }

    /// An equal block.
    pub fn copy(&self) -> Block
        ensures { result ≡ self.now }
    {
        Block {
            group: self.group,
            code: self.code,
            bytes: data_of(self.bytes.as_slice()),
        }
    }

    /// A block with nothing in it, which is filled later.
    pub(crate) fn blank() -> Block {
        Block {
            group: 0,
            code: 0,
            bytes: ArrayVec::new(),
        }
    }

    /// Makes it the block whose bytes before the checksum are those of these records.
    #[inline(always)] // else the block is built elsewhere and then copied
    pub(crate) fn fill_from(&mut self, records: &[LineByte])
        requires code { 2 ≤ length records.now }
        requires data { length records.now ≤ most_body }
        ensures { self.new ≡ block_of (bytes_of records.now) }
    {
        self.group = records[0].byte / 16;
        self.code = records[1].byte;
        self.bytes = ArrayVec::new();
        for record in &records[2..] {
            self.bytes.push(record.byte);
        }
    }
}

/// The sum of the bytes, modulo 256.
pub(crate) fn sum_of(bytes: &[u8]) -> u8
    ensures { result ≡ sum bytes.now % 256 }
{
    let mut total = 0u8;
    for byte in bytes {
        total = total.wrapping_add(*byte);
    }
    total
}

/// These bytes as the data of a block.
fn data_of(bytes: &[u8]) -> ArrayVec<u8, MOST_DATA>
    requires room { length bytes.now ≤ most_data }
    ensures { result.items ≡ bytes.now }
{
    let mut copied = ArrayVec::new();
    for byte in bytes {
        copied.push(*byte);
    }
    copied
}
