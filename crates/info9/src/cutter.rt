//! The bytes of one wire, cut into blocks by the wire alone: the first byte says how many there are, and the sum whether they are right.
//! A silence, or a whole block of the other wire, ends the block that is open, unless its sum comes right across that end: a tap that
//! collects bytes may hand on a block in two parts.

use crate::damage::{Damage, Piece};
use crate::lost::{Head, block_len, lost_in};
use crate::place::{Place, Seen, is_sent_by};
use crate::twice::{Again, CLOSE_US, again_in, is_again};
use arrayvec::ArrayVec;
use block9::{BYTE_GAP_US, BYTE_TIME_US, Block};
use capture9::Wire;

/// The most bytes of a block.
const MOST_BYTES: usize = 18;

/// How many bytes are kept: those of two blocks.
const KEPT: usize = 36;

/// A whole block with a right sum.
#[derive(Drop)]
pub(crate) struct WholeBlock {
    pub(crate) block: Block,
    pub(crate) first: Place,
    pub(crate) last: Place,
    /// The least time between two neighbouring bytes, in microseconds.
    pub(crate) least_us: u64,
}

/// What is kept of a wire's bytes.
#[derive(Drop)]
pub(crate) struct Cutter {
    wire: Wire,
    /// The bytes that are in no block yet.
    kept: ArrayVec<Seen, KEPT>,
    /// How many of them came before such an end; 0 where there was none.
    ended: usize,
    /// Whether a block of the other wire came since the last byte.
    is_ending: bool,
    /// The least time between two bytes of what may be one block, in microseconds: of those no closer than a line carries them.
    usual_us: Option<u64>,
    /// The last byte of the last whole block.
    ending: Option<Seen>,
}

impl Cutter {
    /// Of a wire that carried nothing yet.
    pub(crate) fn new(wire: Wire) -> Cutter {
        Cutter {
            wire,
            kept: ArrayVec::new(),
            ended: 0,
            is_ending: false,
            usual_us: None,
            ending: None,
        }
    }

    /// Takes the wire's next byte, so long after the one before it in microseconds, and answers the block that it completes, if it does.
    /// What is no block is told as damage.
    pub(crate) fn take(
        &mut self,
        seen: Seen,
        since_us: u64,
        damage: &mut Damage,
    ) -> Option<WholeBlock> {
        if !self.kept.is_empty() {
            self.note_time(since_us);
            if self.is_ending || since_us > BYTE_GAP_US {
                self.end(damage);
            }
        }
        if self.kept.is_full() {
            self.drop_first(1);
        }
        let _ = self.kept.try_push(seen);
        self.settle(damage)
    }

    /// Notes how long after another byte of what may be one block one comes.
    fn note_time(&mut self, us: u64) {
        if us >= CLOSE_US && self.usual_us.is_none_or(|usual_us| us < usual_us) {
            self.usual_us = Some(us);
        }
    }

    /// Notes a whole block of the other wire, which begins with this record.
    pub(crate) fn take_other(&mut self, first: Place) {
        if let Some(last) = self.kept.as_slice().last() {
            self.is_ending = last.place.record < first.record;
        }
    }

    /// Whether a block that is begun with record 1 may still become whole.
    pub(crate) fn is_open_from_start(&self) -> bool {
        let kept = self.kept.as_slice();
        let ended = self.is_ending || self.ended > 0;
        match kept.first() {
            Some(first) => first.place.record == 1 && kept.len() < block_len(first.byte) && !ended,
            None => false,
        }
    }

    /// How many bytes the block that is open lacks after this record; 0 where none breaks off there, as where one byte is missing in its
    /// middle.
    pub(crate) fn lacking_after(&self, at: Place) -> usize {
        let open = self.kept.as_slice().get(self.ended..).unwrap_or_default();
        let (Some(first), Some(last)) = (open.first(), open.last()) else {
            return 0;
        };
        if last.place.record != at.record || !is_sent_by(self.wire, first.byte / 16) {
            return 0;
        }
        let lost = lost_in(open, self.wire, self.usual_us.unwrap_or(BYTE_TIME_US));
        if lost.is_some_and(|lost| lost.after != Some(at)) {
            return 0;
        }
        block_len(first.byte).saturating_sub(open.len())
    }

    /// What ended before the end of the capture, and is no block.
    pub(crate) fn last_piece(&self) -> Option<Piece> {
        let ended = if self.is_ending && self.ended == 0 {
            self.kept.len()
        } else {
            self.ended
        };
        self.piece(ended)
    }

    /// Ends the block that is open. What came before an earlier end is given up.
    fn end(&mut self, damage: &mut Damage) {
        self.is_ending = false;
        if self.ended > 0 {
            self.give_up(damage);
        }
        self.ended = self.kept.len();
    }

    /// The block that the kept bytes begin with, once those that are none are given up.
    fn settle(&mut self, damage: &mut Damage) -> Option<WholeBlock> {
        for _ in 0..KEPT {
            let len = self.front_len()?;
            let whole = self.front(len, damage);
            if whole.is_some() {
                self.drop_block(len);
                return whole;
            }
            let whole = self.front_without(len, damage);
            if whole.is_some() {
                self.drop_block(len.saturating_add(1));
                return whole;
            }
            if self.ended == 0 {
                return None;
            }
            self.give_up(damage);
        }
        None
    }

    /// How many bytes the block has that the kept ones begin with, once there are so many.
    fn front_len(&self) -> Option<usize> {
        let len = block_len(self.kept.as_slice().first()?.byte);
        (self.kept.len() >= len).then_some(len)
    }

    /// The whole block that so many kept bytes are.
    fn front(&self, len: usize, damage: &Damage) -> Option<WholeBlock> {
        let bytes = self.kept.as_slice().get(..len)?;
        whole_of(bytes, None).filter(|whole| self.may_come(whole, damage))
    }

    /// The one that they are with one more of which one is left out, as it was written twice.
    fn front_without(&self, len: usize, damage: &mut Damage) -> Option<WholeBlock> {
        let bytes = self.kept.as_slice().get(..len.saturating_add(1))?;
        let again = again_in(bytes)?;
        let whole = whole_of(bytes, Some(again))?;
        if !self.may_come(&whole, damage) {
            return None;
        }
        damage.twice.take(again);
        Some(whole)
    }

    /// Drops the bytes of a whole block.
    fn drop_block(&mut self, len: usize) {
        self.ending = self.kept.as_slice().get(len.saturating_sub(1)).copied();
        self.drop_first(len);
    }

    /// Whether a block that comes right is one.
    fn may_come(&self, whole: &WholeBlock, damage: &Damage) -> bool {
        self.ended == 0 || self.may_come_across(whole, damage)
    }

    /// Whether a block that comes right across an end is one. One of another sender would come right by chance alone, and so would one
    /// that came short before, with a byte of the next.
    fn may_come_across(&self, whole: &WholeBlock, damage: &Damage) -> bool {
        let head = Head::of(self.wire, &whole.block);
        is_sent_by(self.wire, whole.block.group) && !damage.shorts.has(head)
    }

    /// Gives up what came before the end.
    fn give_up(&mut self, damage: &mut Damage) {
        if let Some(piece) = self.piece(self.ended) {
            damage.take_piece(&piece);
        }
        self.drop_first(self.ended);
        self.ended = 0;
    }

    /// The first `ended` of the kept bytes, which are no block.
    fn piece(&self, ended: usize) -> Option<Piece> {
        let usual_us = self.usual_us.unwrap_or(BYTE_TIME_US);
        let bytes = self.kept.as_slice().get(..ended)?;
        let first = bytes.first()?;
        let again = self.ending.and_then(|ending| is_again(ending, *first));
        Some(Piece {
            first: first.place,
            last: bytes.last()?.place,
            lost: lost_in(bytes, self.wire, usual_us),
            again: again.filter(|_| bytes.len() == 1),
        })
    }

    /// Drops the first `count` of the kept bytes.
    fn drop_first(&mut self, count: usize) {
        self.ended = self.ended.saturating_sub(count);
        if count >= self.kept.len() {
            self.kept.clear();
            return;
        }
        for _ in 0..count {
            let _ = self.kept.pop_at(0);
        }
    }
}

/// The whole block that these bytes are, without one that was written twice, if their sum is right.
fn whole_of(seen: &[Seen], again: Option<Again>) -> Option<WholeBlock> {
    let left_out = again.map(|again| again.place.record);
    let mut bytes = ArrayVec::<u8, MOST_BYTES>::new();
    let mut least_us = u64::MAX;
    let mut before = None;
    for next in seen {
        if left_out == Some(next.place.record) {
            continue;
        }
        let _ = bytes.try_push(next.byte);
        if let Some(earlier) = before {
            least_us = least_us.min(next.since(earlier));
        }
        before = Some(*next);
    }
    Some(WholeBlock {
        block: Block::from_bytes(bytes.as_slice())?,
        first: seen.first()?.place,
        last: seen.last()?.place,
        least_us,
    })
}
