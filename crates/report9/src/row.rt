//! Words in a row: one text before the first of them, another between two.
ghost use Rattle.std.specs.Prelude.{◌≡◌, ◌++◌, codes, if◌then◌else◌, IfOk, OnOk};

use crate::buffer::TextBuffer;
use crate::pieces::put_word;

/// Puts a word of a row after what comes before it, and answers what comes before the next one.
pub fn put_in_row<'a, B: TextBuffer>(
    line: &mut B,
    before: &str,
    between: &'a str,
    word: &str,
) -> Result<&'a str, B::Refusal>
    ensures text { OnOk result (B.held line.new ≡ B.held line.old ++ (before.now ++ word.now)) }
    ensures next { IfOk result (λ s. s.now ≡ between.entry.now) }
{
    put_word(line, before, word)?;
    Ok(between)
}

/// Puts a word of a row where it is chosen, and answers what comes before the next one.
pub fn put_chosen<'a, B: TextBuffer>(
    line: &mut B,
    before: &'a str,
    between: &'a str,
    word: &str,
    is_chosen: bool,
) -> Result<&'a str, B::Refusal>
    ensures text { OnOk result (B.held line.new
        ≡ B.held line.old ++ (if is_chosen then before.entry.now ++ word.now else codes "")) }
    ensures next { IfOk result (λ s. s.now ≡ (if is_chosen then between.entry.now else before.entry.now)) }
{
    if !is_chosen {
        return Ok(before);
    }
    put_in_row(line, before, between, word)
}
