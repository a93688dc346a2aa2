//! Blocks that lack a byte, by their kind. A tap loses bytes at random; the same block short at the same place most times is sent so.
ghost use Rattle.std.specs.Prelude.{◌↔◌, ◌≤◌, IsTrue};

use crate::lost::{Head, LostByte, LostBytes};
use crate::sign::{Seeming, ShortSeen, Sign};
use capture9::Wire;

/// How many kinds are followed at once.
const KINDS: usize = 8;

/// So often a kind has to be short before its sender is named.
const FEWEST: u64 = 3;

/// A kind of block that lacks a byte at one place.
#[derive(Clone, Copy)]
struct Short {
    head: Head,
    place: u8,
    lost: LostBytes,
    /// How often the block came otherwise since.
    otherwise: u64,
}

/// The blocks that lack a byte.
#[derive(Clone, Copy)]
pub(crate) struct Shorts {
    kinds: [Option<Short>; KINDS],
    /// Those of kinds that are followed no more.
    others: LostBytes,
}

impl Shorts {
    /// None of them.
    pub(crate) const NONE: Shorts = Shorts {
        kinds: [None; KINDS],
        others: LostBytes::NONE,
    };

    /// Takes a block that lacks a byte.
    pub(crate) fn take(&mut self, lost: LostByte) {
        self.take_block(lost.head, Some(lost.place));
        for short in self.kinds.iter_mut().flatten() {
            if short.is_of(lost.head, lost.place) {
                short.lost.take(lost);
                return;
            }
        }
        self.follow(lost);
    }

    /// Whether no block lacks a byte.
    pub(crate) fn is_none(&self) -> bool {
        self.kinds[0].is_none()
    }

    /// Takes a block that begins so, and counts it where it does not lack the byte at this place.
    pub(crate) fn take_block(&mut self, head: Head, place: Option<u8>) {
        for short in self.kinds.iter_mut().flatten() {
            if short.head == head && place != Some(short.place) {
                short.otherwise = short.otherwise.saturating_add(1);
            }
        }
    }

    /// Follows a kind that is new, in the place of the one that came otherwise most often.
    fn follow(&mut self, lost: LostByte) {
        let most = self.most_otherwise();
        let mut first = LostBytes::NONE;
        first.take(lost);
        let new = Short {
            head: lost.head,
            place: lost.place,
            lost: first,
            otherwise: 0,
        };
        for slot in self.kinds.iter_mut() {
            match slot {
                Some(short) if short.otherwise < most => {}
                Some(short) => {
                    self.others = self.others.and(short.lost);
                    *slot = Some(new);
                    return;
                }
                None => {
                    *slot = Some(new);
                    return;
                }
            }
        }
    }

    /// How often the kind came otherwise that did so most often; more than any where one more can be followed.
    fn most_otherwise(&self) -> u64 {
        let mut most = 0;
        for slot in self.kinds.iter() {
            match slot {
                Some(short) => most = most.max(short.otherwise),
                None => return u64::MAX,
            }
        }
        most
    }

    /// The sign that a sender sends a block short: that of the kind which is short most often.
    pub(crate) fn sign(&self) -> Option<Sign> {
        let mut worst: Option<Short> = None;
        for short in self.kinds.iter().flatten() {
            let most = worst.map_or(0, |worst| worst.lost.blocks);
            if short.is_sent_so() && short.lost.blocks > most {
                worst = Some(*short);
            }
        }
        let short = worst?;
        let what = Seeming::SentShort(ShortSeen {
            wire: short.head.wire,
            head: [short.head.first, short.head.second],
            place: short.place,
            blocks: short.lost.blocks,
            of: short.lost.blocks.saturating_add(short.otherwise),
        });
        Some(Sign {
            at: short.lost.first?.block,
            what,
        })
    }

    /// Whether a block that begins so came short.
    pub(crate) fn has(&self, head: Head) -> bool {
        self.kinds.iter().flatten().any(|short| short.head == head)
    }

    /// Whether the sender of this wire sends a block short.
    pub(crate) fn is_sent_on(&self, wire: Wire) -> bool {
        self.kinds
            .iter()
            .flatten()
            .any(|short| short.head.wire == wire && short.is_sent_so())
    }

    /// The blocks that lack a byte which the tap or the line lost.
    pub(crate) fn lost(&self) -> LostBytes {
        let mut lost = self.others;
        for short in self.kinds.iter().flatten() {
            if !short.is_sent_so() {
                lost = lost.and(short.lost);
            }
        }
        lost
    }
}

impl Short {
    /// Whether it is the kind of a block that begins so and lacks the byte at this place.
    fn is_of(&self, head: Head, place: u8) -> bool {
        self.head == head && self.place == place
    }

    /// Whether its sender sends it short: most times that it comes.
    fn is_sent_so(&self) -> bool
        ensures { IsTrue result ↔ ((3 ≤ self.now.lost.blocks) × (self.now.otherwise ≤ self.now.lost.blocks)) }
    {
        self.lost.blocks >= FEWEST && self.lost.blocks >= self.otherwise
    }
}
