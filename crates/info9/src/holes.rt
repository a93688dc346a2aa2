//! Holes: for a time neither wire carries a byte, from inside one block to inside another. Only what records the wires can do that.
ghost use Rattle.std.specs.Prelude.{◌↔◌, IfSome, IsNone, IsTrue};

use crate::cutter::WholeBlock;
use crate::damage::Piece;
use crate::lost::LostByte;
use crate::place::Place;
use crate::sign::{Seeming, Sign};

/// So many records after a silence it is known by then whether it is a hole: those of two blocks.
const NEAR: u32 = 36;

/// A silence of both wires that breaks off a block.
#[derive(Clone, Copy)]
struct Cut {
    /// The last record before it.
    from: Place,
    /// The first record after it.
    to: Place,
    /// Whether the block before it lacks one byte alone, which a tap may have lost.
    lacks_one: bool,
    /// The byte that the block before it lacks, if it is one.
    lost: Option<LostByte>,
}

/// The holes so far.
#[derive(Clone, Copy)]
pub(crate) struct Holes {
    /// The last silence that broke off a block, until it is known whether it ends inside of one.
    open: Option<Cut>,
    longest: Option<Cut>,
    holes: u64,
    /// The record that the last hole came after.
    from: u32,
}

impl Holes {
    /// None of them.
    pub(crate) const NONE: Holes = Holes {
        open: None,
        longest: None,
        holes: 0,
        from: 0,
    };

    /// Takes a silence of both wires that breaks off a block, which lacks so many bytes. What it answers here and below is a byte that was lost elsewhere.
    pub(crate) fn take(&mut self, from: Place, to: Place, lacking: usize) -> Option<LostByte> {
        // The rest of a block may break off itself: the silence before it is still to be known.
        if self
            .open
            .is_some_and(|cut| from.record < cut.to.record.saturating_add(NEAR))
        {
            return None;
        }
        let lost = self.end();
        self.open = Some(Cut {
            from,
            to,
            lacks_one: lacking == 1,
            lost: None,
        });
        lost
    }

    /// Takes bytes that are no block.
    pub(crate) fn take_piece(&mut self, piece: &Piece) -> Option<LostByte> {
        if piece.last.record == self.from {
            return None;
        }
        match self.open {
            Some(cut)
                if piece.first.record == cut.to.record && (is_rest(piece) || !cut.lacks_one) => {
                self.count(cut);
                None
            }
            Some(cut) if piece.last.record == cut.from.record => {
                self.open = Some(Cut {
                    lost: piece.lost,
                    ..cut
                });
                None
            }
            _ => piece.lost,
        }
    }

    /// Takes a whole block, which is one of its wire's sender or only looks like a block.
    pub(crate) fn take_whole(&mut self, whole: &WholeBlock, is_own: bool) -> Option<LostByte> {
        let cut = self.open?;
        let to = cut.to.record;
        if whole.first.record == to && !is_own {
            self.count(cut);
            None
        } else if whole.first.record <= to && to <= whole.last.record {
            self.end()
        } else {
            None
        }
    }

    /// Ends a silence that is no hole.
    pub(crate) fn end(&mut self) -> Option<LostByte> {
        let lost = self.open?.lost;
        self.open = None;
        lost
    }

    /// Counts a hole.
    fn count(&mut self, cut: Cut) {
        self.open = None;
        self.from = cut.from.record;
        self.holes = self.holes.saturating_add(1);
        let longest = self.longest;
        self.longest = match longest {
            Some(longest) if longest.us() >= cut.us() => Some(longest),
            _ => Some(cut),
        };
    }

    /// The sign that there is a hole: the longest.
    pub(crate) fn sign(&self) -> Option<Sign> {
        let longest = self.longest?;
        Some(Sign {
            at: longest.to,
            what: Seeming::Hole {
                us: longest.us(),
                holes: self.holes,
            },
        })
    }
}

impl Cut {
    /// How long it is, in microseconds.
    fn us(&self) -> u64 {
        self.to.time_us.saturating_sub(self.from.time_us)
    }
}

/// Whether bytes are the rest of a block, and do not begin one.
fn is_rest(piece: &Piece) -> bool
    ensures { IfSome piece.now.lost (λ lost. IsTrue result ↔ IsNone lost.after) }
{
    piece.lost.is_none_or(|lost| lost.after.is_none())
}
