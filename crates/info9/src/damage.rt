//! What is damaged: what a wire carries that is no block, and what it looks like.

use crate::cutter::WholeBlock;
use crate::holes::Holes;
use crate::lost::{Head, LostByte};
use crate::place::{Place, is_sent_by};
use crate::shorts::Shorts;
use crate::twice::{Again, WrittenTwice};
use capture9::Wire;

/// Bytes of a wire that are no block.
#[derive(Clone, Copy)]
pub(crate) struct Piece {
    pub(crate) first: Place,
    pub(crate) last: Place,
    /// The byte that they lack, if one more makes them a block.
    pub(crate) lost: Option<LostByte>,
    /// The byte that they are, if it is the last of the block before it again.
    pub(crate) again: Option<Again>,
}

/// The damage so far, of both wires.
#[derive(Clone, Copy)]
pub(crate) struct Damage {
    pub(crate) shorts: Shorts,
    pub(crate) holes: Holes,
    pub(crate) twice: WrittenTwice,
}

impl Damage {
    /// None.
    pub(crate) const NONE: Damage = Damage {
        shorts: Shorts::NONE,
        holes: Holes::NONE,
        twice: WrittenTwice::NONE,
    };

    /// Takes bytes that are no block.
    pub(crate) fn take_piece(&mut self, piece: &Piece) {
        if let Some(again) = piece.again {
            self.twice.take(again);
        }
        let lost = self.holes.take_piece(piece);
        self.take_lost(lost);
    }

    /// Takes a whole block of a wire.
    pub(crate) fn take_whole(&mut self, wire: Wire, whole: &WholeBlock) {
        let is_own = is_sent_by(wire, whole.block.group);
        let lost = self.holes.take_whole(whole, is_own);
        self.take_lost(lost);
        if !self.shorts.is_none() {
            self.shorts.take_block(Head::of(wire, &whole.block), None);
        }
    }

    /// Takes a silence of both wires that breaks off a block, which lacks so many bytes.
    pub(crate) fn take_silence(&mut self, from: Place, to: Place, lacking: usize) {
        let lost = self.holes.take(from, to, lacking);
        self.take_lost(lost);
    }

    /// Ends what is open with the capture.
    pub(crate) fn end(&mut self) {
        let lost = self.holes.end();
        self.take_lost(lost);
    }

    /// Takes a byte that was lost, if one was.
    fn take_lost(&mut self, lost: Option<LostByte>) {
        if let Some(lost) = lost {
            self.shorts.take(lost);
        }
    }
}
