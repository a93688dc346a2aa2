//! A law of what a buffer holds back, the contract of a function that does nothing.
ghost use Rattle.std.specs.Prelude.{◌≡◌, ◌++◌, ◌∷◌, ℕ, List, None, Some, [], true};
ghost use Rattle.program9.specs.Output.{held_contents};

use crate::buffered::Buffered;
use std::io::Write;

/// Once what was written ends a line, a line-buffered writer holds nothing back, unless a write failed.
pub fn nothing_waits_behind_a_line<W: Write + Drop>()
    ensures { (b : Buffered W) (text : List ℕ) → b.held.line_buffered ≡ true → b.held.failed ≡ None
        → held_contents W.contents b ≡ Some (text ++ 0x0A ∷ []) → b.held.bytes.items ≡ [] }
{}
