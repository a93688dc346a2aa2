//! A text that is put together piece by piece.
ghost use Rattle.std.specs.Prelude.{◌≡◌, IfOk, IfErr, Some, None};

use crate::numbers::{put_hundredths, put_seconds, put_tenths};
use report9::{TextBuffer, put_count, put_text};
use std::alloc::{AllocError, Global};
use std::marker::Model;

/// Lines, or a part of one. It remembers whether memory was refused, so that no call has to be checked by itself: `whole` tells.
#[derive(Drop)]
pub struct Text {
    bytes: Vec<u8>,
    /// Whether memory was refused, so that a piece is missing.
    is_short: bool,
}

impl Model for Text {
    ghost use Rattle.std.specs.Prelude.{List, ℕ, Option, Some, None, if◌then◌else◌};

    ghost Value = { Option (List ℕ) };

    ghost view = { λ t. if t.is_short then None else Some t.bytes.items };
}

impl Text {
    /// Nothing yet.
    pub fn new(alloc: Global) -> Text {
        Text {
            bytes: Vec::new(alloc),
            is_short: false,
        }
    }

    /// Puts words.
    pub fn put(&mut self, words: &str) -> &mut Text {
        self.is_short |= put_text(&mut self.bytes, words).is_err();
        self
    }

    /// Puts bytes.
    pub fn put_bytes(&mut self, bytes: &[u8]) -> &mut Text {
        self.is_short |= self.bytes.put(bytes).is_err();
        self
    }

    /// Puts a label and a number.
    pub fn put_count(&mut self, label: &str, number: u64) -> &mut Text {
        self.is_short |= put_count(&mut self.bytes, label, number).is_err();
        self
    }

    /// Puts a label and microseconds as seconds, with six decimals.
    pub fn put_seconds(&mut self, label: &str, us: u64) -> &mut Text {
        self.put(label);
        self.is_short |= put_seconds(&mut self.bytes, us).is_err();
        self
    }

    /// Puts a number with a point before its last digit.
    pub fn put_tenths(&mut self, number: u64) -> &mut Text {
        self.is_short |= put_tenths(&mut self.bytes, number).is_err();
        self
    }

    /// Puts a number with a point before its last two digits.
    pub fn put_hundredths(&mut self, number: u64) -> &mut Text {
        self.is_short |= put_hundredths(&mut self.bytes, number).is_err();
        self
    }

    /// Puts a number at the right of a column that is so many characters wide. One with more digits is wider.
    pub fn put_right(&mut self, number: u64, width: u32) -> &mut Text {
        self.put_blanks(number, width);
        self.put_count("", number)
    }

    /// Puts the blanks before a number that stands at the right of such a column.
    pub fn put_blanks(&mut self, number: u64, width: u32) -> &mut Text {
        let digits = number.checked_ilog10().unwrap_or(0) + 1;
        for _ in digits..width {
            self.put(" ");
        }
        self
    }

    /// Puts a piece that somebody else writes.
    pub fn put_with<F: FnOnce(&mut Vec<u8>) -> Result<(), AllocError>>(
        &mut self,
        write: F,
    ) -> &mut Text
        requires { F.IsAlwaysCallable write }
    {
        self.is_short |= write(&mut self.bytes).is_err();
        self
    }

    /// Begins anew, with the room that it has. Where a piece was missing, the text stays short.
    pub fn clear(&mut self) {
        self.bytes.clear();
    }

    /// Whether it has no byte.
    pub fn is_empty(&self) -> bool {
        self.bytes.is_empty()
    }

    /// The bytes; an error where memory was refused for one of them.
    pub fn whole(&self) -> Result<&[u8], AllocError>
        ensures whole { IfOk result (λ text. self.now ≡ Some text.now) }
        ensures short { IfErr result (λ refused. self.now ≡ None) }
    {
        if self.is_short {
            return Err(AllocError);
        }
        Ok(self.bytes.as_slice())
    }
}
