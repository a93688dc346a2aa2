//! The records since the last complete exchange.
ghost use Rattle.std.specs.Prelude.{◌≡◌, ◌≤◌, ◌<◌, length, [], ◌∷◌, ◌++◌};

use capture9::{LineByte, Wire};
use std::marker::Model;

/// The most records since the last complete exchange: a command of 18, and all of its reply but the last.
const MOST_OPEN: usize = 35;

/// The records since the last complete exchange.
///
/// Not an `ArrayVec`: its `clear` overwrites every element, and an exchange comes every few records.
#[derive(Drop)]
pub(crate) struct Tail {
    records: [LineByte; MOST_OPEN],
    len: usize,
}

impl Model for Tail {
    ghost use Rattle.std.specs.Prelude.{◌≡◌, ◌≤◌, List, length, take};
    ghost use Rattle.capture9.specs.declared.line_byte.LineByte.{LineByte};
    ghost use Rattle.block9.specs.Working.Inside.{most_open};

    ghost Value = { List LineByte };

    ghost view = { λ t. take t.len t.records };

    ghost invariant = { λ t. (t.len ≤ most_open) × (length t.records ≡ most_open) };
}

impl Tail {
    ghost use Rattle.std.specs.Prelude.{◌≡◌, ◌≤◌, ◌<◌, length, [], ◌∷◌, ◌++◌};
    ghost use Rattle.block9.specs.Working.Inside.{most_open};

    /// No record.
    pub(crate) fn new() -> Tail
        ensures { result ≡ [] }
    {
        let blank = LineByte {
            time_us: 0,
            wire: Wire::Controller,
            byte: 0,
        };
        Tail {
            records: [blank; MOST_OPEN],
            len: 0,
        }
    }

    /// The records.
    pub(crate) fn as_slice(&self) -> &[LineByte]
        ensures { result.now ≡ self.now }
    {
        &self.records[..self.len]
    }

    /// How many records there are.
    pub(crate) fn len(&self) -> usize
        ensures len { result ≡ length self.now }
        ensures bound { result ≤ most_open }
    {
        self.len
    }

    /// Puts a record at the end.
    pub(crate) fn push(&mut self, line_byte: LineByte)
        requires { length self.old < most_open }
        ensures { self.new ≡ self.old ++ line_byte ∷ [] }
    {
        self.records[self.len] = line_byte;
        self.len += 1;
    }

    /// Takes all records out.
    pub(crate) fn clear(&mut self)
        ensures { self.new ≡ [] }
    {
        self.len = 0;
    }
}
