//! A picture of a capture, as it is asked for and written.

use crate::around::{TALL, draw_around};
use crate::choice::Choice;
use crate::contradiction::{Columns, draw_rows, known_line};
use crate::exchange_row::rows_of;
use crate::layout::lay_out;
use crate::look::Look;
use crate::reading::{Asked, read_around};
use crate::sentence::put_sentence;
use crate::shapes::{MARGIN, draw_text};
use block9::Reason;
use deck9::Profile;
use report9::{Extent, JudgeError, Scope, WhyNo, put_no_line, write_all};
use seen9::WhyNothing;
use std::alloc::Global;
use std::io::{Read, Write};
use text9::{Done, Markup};

/// What is asked of a picture.
#[derive(Clone, Copy)]
pub struct Wanted<'a> {
    /// How far the capture is judged, and from where on.
    pub scope: Scope,
    /// What the deck is taken for.
    pub profile: &'a Profile,
    /// How wide the picture may be, in pixels. It is 700 at least, and wider where what breaks the rule would not fit.
    pub width: u32,
}

/// Draws the record of a capture that breaks a rule, as an SVG: both wires over time, each byte a box, and what stands before and
/// after it; and where no run of the deck remains the replies that contradict one another, a row for each: none where the picture was
/// written, or why there is nothing to draw. The reader gives the whole capture, of which this break was chosen, and it was judged as is
/// wanted, for a deck of this profile. Where all parts are judged, a late reply ends no part.
///
/// Nothing is written where there is an error that is not `Write`. Errors are those of the reading.
pub fn write_picture<R: Read + Drop, W: Write>(
    alloc: Global,
    reader: R,
    writer: &mut W,
    choice: &Choice,
    wanted: &Wanted<'_>,
) -> Result<Option<WhyNothing>, JudgeError> {
    let Some(svg) = draw(alloc, reader, wanted, choice)? else {
        return Ok(Some(why_nothing(choice, wanted)));
    };
    write_all(writer, svg.whole()?)?;
    Ok(None)
}

/// Why there is nothing to draw.
fn why_nothing(choice: &Choice, wanted: &Wanted<'_>) -> WhyNothing {
    match (choice.is_broken, wanted.scope.extent, choice.wanted) {
        (false, Extent::FirstBreak, _) => WhyNothing::Yes,
        (true, _, Some(at)) => WhyNothing::NoBreakAt(at),
        _ => WhyNothing::NoPartBreaks,
    }
}

/// Draws the break that was chosen, where one was.
fn draw<R: Read + Drop>(
    alloc: Global,
    reader: R,
    wanted: &Wanted<'_>,
    choice: &Choice,
) -> Result<Option<Markup>, JudgeError> {
    let Some(why) = &choice.why else {
        return Ok(None);
    };
    let WhyNo::Break { at, reason, .. } = why else {
        return draw_contradiction(alloc, reader, wanted.profile, why);
    };
    let asked = Asked {
        at: *at,
        judged_to: choice.judged_to(wanted.scope.extent, *at, *reason),
        before: choice.before,
        beginning: wanted.scope.beginning,
    };
    draw_break(alloc, reader, &asked, why, wanted)
}

/// Draws the records around one that breaks a rule; nothing of a contradiction.
fn draw_break<R: Read + Drop>(
    alloc: Global,
    reader: R,
    asked: &Asked,
    why: &WhyNo,
    wanted: &Wanted<'_>,
) -> Result<Option<Markup>, JudgeError> {
    let WhyNo::Break {
        reason,
        open,
        breaking,
        ..
    } = why
    else {
        return Ok(None);
    };
    let seen = read_around(alloc, reader, asked)?;
    let limit_us = reason.limit_us();
    let Some(layout) = lay_out(alloc, seen.as_slice(), asked, limit_us, wanted.width)? else {
        return Ok(None);
    };
    let mut below = Vec::new(alloc);
    put_sentence(&mut below, *reason, open.sum, breaking.byte)?;
    let mut svg = Markup::new(alloc);
    let verdict = (asked.at, *reason);
    put_head(&mut svg, (layout.wide, TALL), verdict, below.as_slice())?;
    draw_around(&mut svg, wanted.profile, &layout)?;
    svg.put_mark("</svg>\n");
    Ok(Some(svg))
}

/// Draws the replies that contradict one another; nothing of a break.
fn draw_contradiction<R: Read + Drop>(
    alloc: Global,
    reader: R,
    profile: &Profile,
    why: &WhyNo,
) -> Result<Option<Markup>, JudgeError> {
    let WhyNo::Contradiction {
        at,
        known,
        shown,
        ..
    } = why
    else {
        return Ok(None);
    };
    let rows = rows_of(alloc, reader, profile, why)?;
    let below = known_line(alloc, profile, known, *shown)?;
    let columns = Columns::of(rows.as_slice(), below.as_slice());
    let size = (columns.wide, columns.tall.saturating_add(44));
    let mut svg = Markup::new(alloc);
    let verdict = (*at, Reason::NoRun);
    let sentence = b"No deck can have given all of these replies.";
    put_head(&mut svg, size, verdict, sentence)?;
    draw_rows(&mut svg, rows.as_slice(), &columns, below.as_slice());
    svg.put_mark("</svg>\n");
    Ok(Some(svg))
}

/// Puts the head of a picture of this size: the line of the verdict, with its record and its reason, and a sentence below it.
fn put_head(
    svg: &mut Markup,
    (wide, tall): (u64, u64),
    (at, reason): (u32, Reason),
    below: &[u8],
) -> Done {
    let mut line = Vec::new(svg.alloc());
    put_no_line(&mut line, at, reason)?;
    let verdict = line.as_slice().strip_suffix(b"\n").unwrap_or(&[]);
    svg.put_woven(
        "<svg xmlns=\"http://www.w3.org/2000/svg\" width=\"{p}\" height=\"{n}\" viewBox=\"0 0 {p} {n}\" \
        style=\"max-width:100%;height:auto\" font-family=\"DejaVu Sans Mono, Menlo, Consolas, monospace\" \
        font-size=\"12\">\n<title>{t}</title>\n<rect width=\"100%\" height=\"100%\" fill=\"#ffffff\"/>\n",
        &[wide, tall, wide, tall],
        &[verdict],
    );
    draw_text(svg, (MARGIN, 28), Look::Headline, verdict);
    draw_text(svg, (MARGIN, 48), Look::Time, below);
    Ok(())
}
