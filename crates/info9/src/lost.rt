//! Lost bytes: a block that ends early, whose sum is right with one byte more.
ghost use Rattle.std.specs.Prelude.{◌≡◌, ◌+◌, ◌%◌};

use crate::place::{Place, Seen, is_sent_by};
use crate::sign::{Seeming, Sign};
use block9::{BYTE_TIME_US, Block};
use capture9::Wire;

/// What a block begins with.
#[derive(Clone, Copy, PartialEq, Eq)]
pub(crate) struct Head {
    pub(crate) wire: Wire,
    pub(crate) first: u8,
    pub(crate) second: u8,
}

impl Head {
    /// That of a whole block.
    pub(crate) fn of(wire: Wire, block: &Block) -> Head {
        let data = u8::try_from(block.bytes.len()).unwrap_or(0);
        Head {
            wire,
            first: block.group.wrapping_mul(16) | data,
            second: block.code,
        }
    }
}

/// A block that lacks a byte.
#[derive(Clone, Copy, PartialEq, Eq)]
pub(crate) struct LostByte {
    /// The first record of what there is of the block.
    pub(crate) block: Place,
    /// The record after which the byte is missing; none where it is the first of the block.
    pub(crate) after: Option<Place>,
    /// The byte with which the sum is right.
    pub(crate) byte: u8,
    /// What the block begins with.
    pub(crate) head: Head,
    /// How many of its bytes come before the missing one.
    pub(crate) place: u8,
}

/// The blocks that lack a byte.
#[derive(Clone, Copy, PartialEq, Eq)]
pub(crate) struct LostBytes {
    pub(crate) first: Option<LostByte>,
    pub(crate) blocks: u64,
}

impl LostBytes {
    /// None of them.
    pub(crate) const NONE: LostBytes = LostBytes {
        first: None,
        blocks: 0,
    };

    /// Takes the next.
    pub(crate) fn take(&mut self, lost: LostByte) {
        self.blocks = self.blocks.saturating_add(1);
        self.first = match self.first {
            Some(first) if first.block.record < lost.block.record => Some(first),
            _ => Some(lost),
        };
    }

    /// With others.
    pub(crate) fn and(self, others: LostBytes) -> LostBytes {
        let first = match (self.first, others.first) {
            (Some(one), Some(another)) if another.block.record < one.block.record => Some(another),
            (one, another) => one.or(another),
        };
        LostBytes {
            first,
            blocks: self.blocks.saturating_add(others.blocks),
        }
    }

    /// The sign that blocks lack a byte.
    pub(crate) fn sign(&self) -> Option<Sign> {
        let first = self.first?;
        Some(Sign {
            at: first.block,
            what: Seeming::LostBytes {
                byte: first.byte,
                after: first.after,
                blocks: self.blocks,
            },
        })
    }
}

/// How many bytes a block has, by its first one.
pub(crate) fn block_len(first: u8) -> usize
    ensures { result ≡ first % 16 + 3 }
{
    usize::from(first % 16) + 3
}

/// The byte that is missing in what a wire carries of a block. None where not exactly one is missing, or where the block began before the
/// capture did. `usual_us`: the least time between bytes of whole blocks.
pub(crate) fn lost_in(piece: &[Seen], wire: Wire, usual_us: u64) -> Option<LostByte> {
    let (last, others) = piece.split_last()?;
    let first = others.first()?;
    if first.place.record == 1 {
        return None;
    }
    let sum = sum_of(others);
    let len = piece.len().saturating_add(1);
    if block_len(first.byte) == len && is_sent_by(wire, first.byte / 16) {
        let (after, byte) = match widest(piece, usual_us) {
            Some(before) => (before, completing(sum, last.byte)),
            None => (*last, sum.wrapping_add(last.byte)),
        };
        return Some(lost_after(piece, wire, after, byte));
    }
    let byte = completing(sum, last.byte);
    (block_len(byte) == len && is_sent_by(wire, byte / 16)).then_some(LostByte {
        block: first.place,
        after: None,
        byte,
        head: Head {
            wire,
            first: byte,
            second: first.byte,
        },
        place: 0,
    })
}

/// The byte that a piece lacks after one of its bytes.
fn lost_after(piece: &[Seen], wire: Wire, after: Seen, byte: u8) -> LostByte {
    let first = piece.first().copied().unwrap_or_default();
    let place = piece
        .iter()
        .filter(|seen| seen.place.record <= after.place.record)
        .count();
    let second = if place == 1 {
        byte
    } else {
        piece.get(1).map_or(0, |seen| seen.byte)
    };
    LostByte {
        block: first.place,
        after: Some(after.place),
        byte,
        head: Head {
            wire,
            first: first.byte,
            second,
        },
        place: u8::try_from(place).unwrap_or(u8::MAX),
    }
}

/// The byte before the widest time between two neighbours, where that has room for a byte more: half as much again as a byte takes.
fn widest(piece: &[Seen], usual_us: u64) -> Option<Seen> {
    let mut before = None;
    let mut widest_us = usual_us.max(BYTE_TIME_US).saturating_mul(3) / 2;
    for pair in piece.windows(2) {
        if let [earlier, later] = pair {
            let us = later.since(*earlier);
            if us >= widest_us {
                before = Some(*earlier);
                widest_us = us.saturating_add(1);
            }
        }
    }
    before
}

/// The sum of the bytes, modulo 256.
fn sum_of(piece: &[Seen]) -> u8 {
    piece
        .iter()
        .fold(0, |sum: u8, seen| sum.wrapping_add(seen.byte))
}

/// The byte that makes this sum the wanted one.
fn completing(sum: u8, wanted: u8) -> u8
    ensures { (sum + result) % 256 ≡ wanted }
{
    wanted.wrapping_sub(sum)
}
