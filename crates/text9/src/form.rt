//! A form: the program's own markup with places, in which numbers and foreign texts are put.
//!
//! `{` begins a place and `}` ends it. In it each letter takes what is next of the numbers or of the texts:
//!
//! | Letter | What is put |
//! |---|---|
//! | `t` | a text, escaped |
//! | `n` | a number in decimal digits |
//! | `c` | a number with a comma before each three of its last digits |
//! | `d` | the last two digits of a number |
//! | `1`, `2`, `3`, `6` | a number with a point before so many of its last digits |
//! | `p` | thousandths of a pixel, as pixels to a tenth |
//! | `x` | a byte in two hexadecimal digits |
//! | `h` | microseconds as hours, minutes and seconds, cut to the millisecond |
ghost use Rattle.std.specs.Prelude.{◌≡◌, ◌++◌, drop, false, map, OnOk};
ghost use Rattle.text9.specs.Form.{filled, number_by, next_number, next_text};

use crate::markup::{Done, put_escaped};
use crate::numbers::{
    digit, put_clock, put_hundredths, put_millionths, put_px, put_tenths, put_thousands,
    put_thousandths,
};
use report9::{TextBuffer, put_count, put_hex};

/// Puts a form with these numbers and texts in its places. Nothing is put where none is left. What stands outside of places is put in
/// one piece up to the next place.
#[tactic(auto, unfolding(crate::specs::Form::filled))]
pub(crate) fn put_form(text: &mut Vec<u8>, form: &[u8], numbers: &[u64], texts: &[&[u8]]) -> Done
    ensures { OnOk result (text.new.items ≡ text.old.items ++ filled false form.now numbers.now (map (λ t. t.now) texts.now)) }
{
    let mut is_inside = false;
    let mut from = 0;
    let (mut numbers, mut texts) = (numbers, texts);
    for (at, byte) in form.iter().enumerate() {
        match byte {
            b'{' | b'}' => {
                text.put(&form[from..at])?;
                is_inside = *byte == b'{';
                from = at + 1;
            }
            _ if !is_inside => {}
            b't' => {
                put_next_text(text, texts)?;
                texts = but_first(texts);
                from = at + 1;
            }
            letter => {
                put_next_number(text, *letter, numbers)?;
                numbers = but_first(numbers);
                from = at + 1;
            }
        }
    }
    text.put(&form[from..])
}

/// All but the first.
fn but_first<T>(items: &[T]) -> &[T]
    ensures { result.now ≡ drop 1 items.now }
{
    items.get(1..).unwrap_or(&[])
}

/// Puts the first of these texts, escaped.
fn put_next_text(text: &mut Vec<u8>, texts: &[&[u8]]) -> Done
    ensures { OnOk result (text.new.items ≡ text.old.items ++ next_text (map (λ t. t.now) texts.now)) }
{
    match texts {
        [first, ..] => put_escaped(text, first),
        [] => Ok(()),
    }
}

/// Puts the first of these numbers, as the letter of its place says.
fn put_next_number(text: &mut Vec<u8>, letter: u8, numbers: &[u64]) -> Done
    ensures { OnOk result (text.new.items ≡ text.old.items ++ next_number letter numbers.now) }
{
    match numbers {
        [first, ..] => put_number_by(text, letter, *first),
        [] => Ok(()),
    }
}

/// Puts a number as the letter of its place says.
#[tactic(auto, unfolding(crate::specs::Form::number_by))]
fn put_number_by(text: &mut Vec<u8>, letter: u8, number: u64) -> Done
    ensures { OnOk result (text.new.items ≡ text.old.items ++ number_by letter number) }
{
    match letter {
        b'c' => put_thousands(text, number),
        b'd' => text.put(&[digit(number / 10), digit(number)]),
        b'1' => put_tenths(text, number),
        b'2' => put_hundredths(text, number),
        b'3' => put_thousandths(text, number),
        b'6' => put_millionths(text, number),
        b'p' => put_px(text, number),
        b'x' => put_hex(text, (number % 256) as u32),
        b'h' => put_clock(text, number),
        _ => put_count(text, "", number),
    }
}
