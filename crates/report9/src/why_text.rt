//! The text of why a verdict is a no: the records that are open before the one that breaks a rule, or the replies that
//! contradict one another and what the deck could show before the last of them.
pub(crate) mod break_lines;

ghost use Rattle.std.specs.Prelude.{◌≡◌, ◌-◌, ◌++◌, [], OnOk};
ghost use Rattle.block9.specs.Exchange.{records_in};
ghost use Rattle.report9.specs.WhyText.{line_of_could_show, lines_at, text_of_shown, text_of_why};

use crate::exchange_bytes::modes::put_modes;
use crate::exchange_bytes::put_exchange;
use crate::explanation::known::put_fields_for;
use crate::pieces::put_text;
use crate::verdict_line::put_no_line;
use crate::why_no::WhyNo;
use block9::{Exchange, Reason, records_in};
use break_lines::put_break;
use deck9::{Knowledge, ModeSet, Profile};
use std::alloc::AllocError;

/// Puts why a record breaks a rule to the end of a buffer: where no run of the deck remains a line for each of the replies that
/// contradict one another, then what the deck could show when it gave the last of them; where a rule of blocks, pairing or timing is
/// broken a line for the records of the open command and one for those of its reply, or one for the exchange before where
/// none is open, and one for the record that breaks; and in each case the line of the no.
///
/// A line of open records tells their numbers, the time of the first of them in microseconds, the command's name and time
/// where it is complete, their bytes, and how many of the block's bytes came where more are missing than the one that breaks.
/// The line of the record that breaks tells its number, time, wire and byte, how many microseconds it comes after the record
/// before it, the limit where the rule is one of time, and the right checksum where it is a wrong one. A line of a reply tells the
/// numbers of its exchange's records, the time of the first of them in microseconds, what was asked and what was answered,
/// with the bytes of both blocks, and what the reply says of the deck. With `Hands::Allowed` it is told whether the panel is
/// on.
///
/// An error comes where the buffer has to grow and is refused; then a part of the text may be there.
pub fn put_why_for(text: &mut Vec<u8>, profile: &Profile, why: &WhyNo) -> Result<(), AllocError>
    ensures { OnOk result (text.new.items ≡ text.old.items ++ text_of_why profile.now why.now) }
{
    match why {
        WhyNo::Break { at, reason, .. } => {
            put_break(text, profile, why)?;
            put_no_line(text, *at, *reason)
        }
        WhyNo::Contradiction {
            at,
            exchanges,
            places,
            known,
            shown,
        } => {
            put_lines(text, profile, *at, places.as_slice(), exchanges.as_slice())?;
            put_could_show(text, profile, known, *shown)?;
            put_no_line(text, *at, Reason::NoRun)
        }
    }
}

/// Puts a line for each exchange at one of these places. The last exchange ends with the record of the number `last`.
fn put_lines(
    text: &mut Vec<u8>,
    profile: &Profile,
    last: u32,
    places: &[usize],
    exchanges: &[Exchange],
) -> Result<(), AllocError>
    ensures { OnOk result (text.new.items ≡ text.old.items
        ++ lines_at profile.now places.now 0 (last - records_in exchanges.now) exchanges.now) }
{
    let mut at = u128::from(last).saturating_sub(records_in(exchanges));
    for (place, exchange) in exchanges.iter().enumerate() {
        at += exchange.records() as u128;
        if places.contains(&place) {
            put_exchange(text, profile, at, exchange)?;
            put_text(text, "\n")?;
        }
    }
    Ok(())
}

/// Puts the line of what the deck could show.
fn put_could_show(
    text: &mut Vec<u8>,
    profile: &Profile,
    known: &Knowledge,
    shown: ModeSet,
) -> Result<(), AllocError>
    ensures { OnOk result (text.new.items ≡ text.old.items ++ line_of_could_show profile.now known.now shown) }
{
    put_text(text, "could show: shown ")?;
    put_shown(text, shown)?;
    put_fields_for(text, profile, known)?;
    put_text(text, "\n")
}

/// Puts the modes that the deck could show, and `any` where that is every one.
#[tactic(auto, unfolding(crate::specs::WhyText::text_of_shown))]
fn put_shown(text: &mut Vec<u8>, shown: ModeSet) -> Result<(), AllocError>
    ensures { OnOk result (text.new.items ≡ text.old.items ++ text_of_shown shown) }
{
    if shown.is_every() {
        return put_text(text, "any");
    }
    put_modes(text, shown)
}
