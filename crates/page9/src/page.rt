//! The page as it is asked for, judged and written.

use crate::again::Again;
use crate::command::Words;
use crate::doubts::Doubts;
use crate::following::Following;
use crate::footer::put_footer;
use crate::head::{Told, put_head, put_title};
use crate::known::put_known;
use crate::shown::Shown;
use crate::span::{Span, Window};
use capture9::{CaptureError, GREATEST_LIMIT, Records};
use deck9::Profile;
use info9::{MOST_SIGNS, Sign, Signs};
use report9::{Beginning, JudgeError, Stretch, WhyNo, write_all};
use seen9::{Ending, ExplainedView, MoveSearch, SeenBreak, SeenExchange, View, ViewOf};
use std::alloc::Global;
use std::io::{Read, Write};
use text9::{Done, Markup};

/// What a page is made of, beside the judging.
#[derive(Clone, Copy)]
pub struct PageOf<'a> {
    /// The text of the capture.
    pub text: &'a [u8],
    /// Its file; none where it came on the standard input.
    pub file: Option<&'a [u8]>,
    /// The files of the deck's sheets.
    pub sheets: &'a [String],
    /// The program's name and version, as a line.
    pub version: &'a [u8],
    /// With which record the judging begins.
    pub beginning: Beginning,
    /// What is shown of the capture, in the whole width.
    pub stretch: Stretch,
    /// What to ask next after one of its breaks, if there is something.
    pub advice: Option<Advice<'a>>,
}

/// What to ask next after a break.
#[derive(Clone, Copy)]
pub struct Advice<'a> {
    /// The number of its record.
    pub at: u32,
    /// What it is, as `why` says it.
    pub line: &'a [u8],
}

/// What the last reading of a capture finds.
#[derive(Clone, Copy)]
struct Found {
    signs: [Option<Sign>; MOST_SIGNS],
    /// The time of the first record, in microseconds; none where there is none.
    first_us: Option<u64>,
    /// That of the last.
    last_us: Option<u64>,
}

/// The page of a session, as a view that is also told why records break rules: what is followed of the judging.
#[derive(Drop)]
pub struct Page<'a, S: MoveSearch> {
    following: Following<'a, S>,
}

impl<'a, S: MoveSearch> Page<'a, S> {
    /// The page of a capture before it is judged, of which the reader gives the first record. The capture is judged over all parts. An
    /// error is what is wrong with that record.
    pub fn new<R: Read + Drop>(
        alloc: Global,
        reader: R,
        of: ViewOf<'a>,
        search: &'a S,
    ) -> Result<Page<'a, S>, JudgeError> {
        let window = window_of(first_time(alloc, reader)?, of.stretch);
        let following = Following::new(alloc, window, of, search);
        Ok(Page { following })
    }

    /// Writes the page of the capture that was judged. The reader gives all of it once more. Nothing is written where there is an error
    /// that is not `Write`. Errors are those of the reading.
    pub fn write<R: Read + Drop, W: Write>(
        &mut self,
        alloc: Global,
        reader: R,
        writer: &mut W,
        page: &PageOf<'_>,
    ) -> Result<(), JudgeError> {
        write_followed(alloc, reader, writer, page, &mut self.following)
    }
}

impl<S: MoveSearch> ExplainedView for Page<'_, S> {
    fn why(&mut self, why: WhyNo, is_shown: bool) -> Result<(), JudgeError> {
        self.following.why(why, is_shown)
    }
}

impl<S: MoveSearch> View for Page<'_, S> {
    fn exchange(&mut self, seen: &SeenExchange<'_>) -> Result<(), JudgeError> {
        self.following.exchange(seen)
    }

    fn late(&mut self, late: &SeenBreak) -> Result<(), JudgeError> {
        self.following.late(late)
    }

    fn broken(&mut self, broken: &SeenBreak) -> Result<(), JudgeError> {
        self.following.broken(broken)
    }

    fn end(&mut self, ending: &Ending) -> Result<(), JudgeError> {
        self.following.end(ending)
    }
}

/// The time that is shown of a capture whose first record came then, where it has one.
fn window_of(first_us: Option<u64>, stretch: Stretch) -> Window {
    Window {
        from_us: first_us.unwrap_or(0).max(stretch.from_us),
        to_us: stretch.to_us,
    }
}

/// The time of the first record of a capture, in microseconds; none where it has none. What is wrong with it, the judging says.
fn first_time<R: Read + Drop>(alloc: Global, reader: R) -> Result<Option<u64>, CaptureError> {
    let mut records = Records::new(alloc, reader, GREATEST_LIMIT);
    let first = records.next()?;
    Ok(first.map(|record| record.time_us))
}

/// Reads the records a second time, for the pictures of breaks and for what the capture says of itself.
fn read_again<R: Read + Drop, S: MoveSearch>(
    alloc: Global,
    reader: R,
    beginning: Beginning,
    following: &mut Following<'_, S>,
) -> Result<Found, JudgeError> {
    let mut records = Records::new(alloc, reader, GREATEST_LIMIT);
    let mut signs = Signs::new(following.profile.rate, beginning);
    let (mut first_us, mut last_us) = (None, None);
    for number in 1..=u32::MAX {
        let Some(record) = records.next()? else {
            break;
        };
        signs.take(&record);
        following.breaks.record(number, record)?;
        first_us = first_us.or(Some(record.time_us));
        last_us = Some(record.time_us);
    }
    following.breaks.end_records()?;
    Ok(Found {
        signs: signs.signs(),
        first_us,
        last_us,
    })
}

impl Found {
    /// From when to when the capture is shown in a window; none where it has no record, or lies before the window or behind it.
    fn span_in(&self, window: Window) -> Option<Span> {
        let (first_us, last_us) = (self.first_us?, self.last_us?);
        let is_behind = window.to_us.is_some_and(|to_us| to_us <= first_us);
        if window.from_us > last_us || is_behind {
            return None;
        }
        Some(Span {
            from_us: first_us.max(window.from_us),
            to_us: last_us.min(window.to_us.unwrap_or(last_us)),
        })
    }
}

/// Writes the page of what was followed of a capture, in one piece.
fn write_followed<R: Read + Drop, W: Write, S: MoveSearch>(
    alloc: Global,
    reader: R,
    writer: &mut W,
    page: &PageOf<'_>,
    following: &mut Following<'_, S>,
) -> Result<(), JudgeError> {
    let found = read_again(alloc, reader, page.beginning, following)?;
    following.end_capture(found.last_us.unwrap_or(0))?;
    let mut html = Markup::new(alloc);
    put_page(&mut html, page, following, &found)?;
    Ok(write_all(writer, html.whole()?)?)
}

/// Puts the page.
fn put_page<S: MoveSearch>(
    html: &mut Markup,
    page: &PageOf<'_>,
    following: &mut Following<'_, S>,
    found: &Found,
) -> Done {
    let profile = following.profile;
    let extent = Shown::of(page.stretch);
    let shown = found.span_in(window_of(found.first_us, page.stretch));
    let words = Words::of(html.alloc(), page, profile)?;
    let again = Again {
        options: words.options.as_slice(),
        stretch: words.stretch.as_slice(),
        file: words.file.as_slice(),
    };
    let doubts = Doubts::of(&found.signs);
    let reasons = following.breaks.reasons()?;
    let told = Told {
        totals: &following.totals,
        breaks: &following.breaks,
        strength: &following.strength,
        reasons: reasons.as_slice(),
        signs: &found.signs,
        whole: found.span_in(Window::ALL),
        shown,
        not_obeyed: following.look.not_obeyed(),
    };
    put_title(html, page, &following.breaks);
    put_head(html, page, profile, &told, again.options);
    let touches = &following.touches;
    following
        .session
        .put(html, shown, reasons.as_slice(), touches)?;
    following.breaks.put(html, &again, &doubts, page.advice)?;
    following.happened.put(html, extent, &again)?;
    following.touches.put(html);
    following.delays.put(html, extent, &again)?;
    following.look.put(html, extent, &again)?;
    put_known(html, &following.strength, extent, &again)?;
    put_footer(html, page, &following.totals, &again)
}
