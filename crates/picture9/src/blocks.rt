//! The block that a record belongs to. Each wire is read by itself, since a block on the one may come inside a block on the other, where
//! the sides do not wait for one another.

use block9::BYTE_GAP_US;
use capture9::{LineByte, Wire};

/// A record, and where it stands in the blocks of its part.
#[derive(Clone, Copy)]
pub(crate) struct Seen {
    /// Its number.
    pub(crate) number: u32,
    pub(crate) record: LineByte,
    /// The number of the first record of its block.
    pub(crate) block: u32,
    /// Whether it ends its block.
    pub(crate) is_last: bool,
    /// Whether it is the second of its block.
    pub(crate) is_second: bool,
    /// The number of the first record of the command that is open after it.
    pub(crate) open_command: Option<u32>,
    /// Whether no block is open after it.
    pub(crate) none_open: bool,
}

impl Seen {
    /// Whether it begins its block.
    pub(crate) fn is_first(&self) -> bool {
        self.block == self.number
    }
}

/// The last block of a wire.
#[derive(Clone, Copy)]
struct WireBlock {
    /// The number of its first record.
    begun: u32,
    /// How many bytes came.
    held: u8,
    /// How many it has.
    length: u8,
    /// The sum of those that came, modulo 256.
    sum: u8,
    /// When the last of them came.
    latest_us: u64,
}

/// The last block of each wire.
#[derive(Clone, Copy)]
pub(crate) struct Blocks {
    controller: WireBlock,
    deck: WireBlock,
}

impl WireBlock {
    /// Before the first block of a wire.
    const NONE: WireBlock = WireBlock {
        begun: 0,
        held: 0,
        length: 0,
        sum: 0,
        latest_us: 0,
    };

    /// Whether its block is open.
    fn is_open(self) -> bool {
        self.held < self.length
    }

    /// The block after one more record, which belongs to it while it is open, and else begins the next.
    fn after(self, number: u32, record: LineByte) -> WireBlock {
        let block = if self.is_open() {
            self
        } else {
            WireBlock {
                begun: number,
                length: record.byte % 16 + 3,
                ..WireBlock::NONE
            }
        };
        WireBlock {
            held: block.held.saturating_add(1),
            sum: block.sum.wrapping_add(record.byte),
            latest_us: record.time_us,
            ..block
        }
    }

    /// Whether the open block's sum may still come right with the records of its wire that follow, so far as they are known.
    fn may_come_right(self, wire: Wire, rest: &[LineByte]) -> bool {
        let mut missing = self.length.saturating_sub(self.held);
        let mut sum = self.sum;
        for next in rest {
            if next.wire != wire {
                continue;
            }
            if missing == 1 {
                return next.byte == sum;
            }
            missing = missing.saturating_sub(1);
            sum = sum.wrapping_add(next.byte);
        }
        true
    }
}

impl Blocks {
    /// Before the first record of a part.
    pub(crate) const NONE: Blocks = Blocks {
        controller: WireBlock::NONE,
        deck: WireBlock::NONE,
    };

    /// Takes the part's next record.
    pub(crate) fn take(&mut self, number: u32, record: LineByte) -> Seen {
        let block = self.on(record.wire).after(number, record);
        self.set(record.wire, block);
        let is_last = !block.is_open();
        let is_closed = is_last && record.wire == Wire::Deck;
        let has_command = self.controller.held > 0 && !is_closed;
        Seen {
            number,
            record,
            block: block.begun,
            is_last,
            is_second: block.held == 2,
            open_command: has_command.then_some(self.controller.begun),
            none_open: !self.controller.is_open() && !self.deck.is_open(),
        }
    }

    /// Ends the open block of the first record's wire, where it does not go on with that record, as nothing is judged there: where the
    /// wire has rested longer than a block may, or where the other wire came between and the sum would be wrong.
    pub(crate) fn end_unless_goes_on(&mut self, last: Wire, first: LineByte, rest: &[LineByte]) {
        let block = self.on(first.wire);
        let has_rested = first.time_us.saturating_sub(block.latest_us) > BYTE_GAP_US;
        let goes_on = last == first.wire || block.may_come_right(first.wire, rest);
        if has_rested || !goes_on {
            self.set(
                first.wire,
                WireBlock {
                    length: block.held,
                    ..block
                },
            );
        }
    }

    /// The last block of a wire.
    fn on(&self, wire: Wire) -> WireBlock {
        match wire {
            Wire::Controller => self.controller,
            Wire::Deck => self.deck,
        }
    }

    /// Sets it.
    fn set(&mut self, wire: Wire, block: WireBlock) {
        match wire {
            Wire::Controller => self.controller = block,
            Wire::Deck => self.deck = block,
        }
    }
}
