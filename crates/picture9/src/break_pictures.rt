//! The pictures of the first breaks of a capture, for a page: the records around each, drawn in a second reading in which several of
//! them may be open at a time.

use crate::around::{TALL, draw_around};
use crate::choice::PartEnd;
use crate::layout::lay_out;
use crate::measure::PIXEL;
use crate::reading::{Asked, RECORDS_AFTER, RECORDS_BEFORE, Reading};
use block9::Reason;
use capture9::LineByte;
use deck9::Profile;
use report9::{Beginning, put_no_line};
use std::alloc::{AllocError, Global};
use text9::{Done, Markup};

/// How many breaks are drawn at most: the first.
const MOST_PICTURES: usize = 100;

/// How many bytes their pictures may take: one is drawn while those before it take fewer.
const MOST_BYTES: usize = 1_000_000;

/// How wide a picture may be, in pixels.
const WIDEST: u32 = 1_200;

/// How much of a picture is left out above, in pixels: the page has its headline.
const HEAD: u64 = 60;

/// A break that is drawn.
#[derive(Clone, Copy)]
struct Break {
    asked: Asked,
    reason: Reason,
}

/// A picture whose records are read.
#[derive(Drop)]
struct Window {
    reading: Reading,
    /// The records after the one that breaks.
    after: Vec<LineByte>,
}

/// The pictures of the first breaks of a capture that is judged over all parts.
///
/// It is told of each break and each late reply in the order in which they come ([`BreakPictures::ask`] and [`BreakPictures::pass`]).
/// Then it takes each record of the capture once more, from the first one on ([`BreakPictures::take`]), and the end.
#[derive(Drop)]
pub struct BreakPictures<'a> {
    alloc: Global,
    /// What the deck is taken for.
    profile: &'a Profile,
    beginning: Beginning,
    /// The break that ended the part before.
    before: Option<PartEnd>,
    /// Whether the part of a late reply that is drawn goes on.
    is_late: bool,
    /// The breaks that are drawn, in their order.
    breaks: Vec<Break>,
    /// A window for each of them whose records are being read or were read. One that was drawn is empty.
    windows: Vec<Window>,
    /// What was drawn: nothing of a break whose record never came, or whose picture would be one too many.
    drawn: Vec<Option<Markup>>,
    /// How many bytes that takes.
    bytes: usize,
    /// The record at which the next window begins.
    begins_at: u32,
    /// The last record of the first window that is open.
    ends_at: u32,
}

impl Window {
    /// Takes the next record of a window about the record of the number `at`.
    fn take(&mut self, at: u32, number: u32, record: LineByte) -> Done {
        if number <= at {
            return self.reading.take_inside(number, record);
        }
        Ok(self.after.push(record)?)
    }
}

impl Break {
    /// The first record of its window.
    fn from(&self) -> u32 {
        self.asked.at.saturating_sub(RECORDS_BEFORE).max(1)
    }

    /// The last record of its window.
    fn to(&self) -> u32 {
        self.asked.at.saturating_add(RECORDS_AFTER)
    }
}

impl<'a> BreakPictures<'a> {
    /// Before the first break of a capture whose first part begins so, of a deck that is taken for this.
    pub fn new(alloc: Global, profile: &'a Profile, beginning: Beginning) -> BreakPictures<'a> {
        BreakPictures {
            alloc,
            profile,
            beginning,
            before: None,
            is_late: false,
            breaks: Vec::new(alloc),
            windows: Vec::new(alloc),
            drawn: Vec::new(alloc),
            bytes: 0,
            begins_at: u32::MAX,
            ends_at: u32::MAX,
        }
    }

    /// Takes the break or the late reply that comes next, at this record. It is drawn where it is among the first.
    pub fn ask(&mut self, at: u32, reason: Reason) -> Done {
        if self.breaks.len() < MOST_PICTURES {
            let is_late = reason == Reason::LateReply;
            let next = Break {
                asked: Asked {
                    at,
                    judged_to: if is_late { u32::MAX } else { at },
                    before: self.before,
                    beginning: self.beginning,
                },
                reason,
            };
            self.begins_at = self.begins_at.min(next.from());
            self.breaks.push(next)?;
            self.is_late = self.is_late || is_late;
        }
        self.pass(at, reason);
        Ok(())
    }

    /// Takes the break or the late reply that comes next, which is not drawn.
    pub fn pass(&mut self, at: u32, reason: Reason) {
        if reason == Reason::LateReply {
            return;
        }
        self.before = Some(PartEnd { at, reason });
        if self.is_late {
            self.end_late(at);
        }
    }

    /// Ends the parts of late replies at a break: nothing after it was judged.
    fn end_late(&mut self, at: u32) {
        self.is_late = false;
        for late in self.breaks.as_mut_slice() {
            late.asked.judged_to = late.asked.judged_to_or(at);
        }
    }

    /// Takes the next record of the capture, in the second reading.
    #[inline]
    pub fn take(&mut self, number: u32, record: LineByte) -> Done {
        if number >= self.begins_at {
            self.begin(number)?;
        }
        if self.drawn.len() < self.windows.len() {
            self.read(number, record)?;
        }
        if number >= self.ends_at {
            self.draw_to(number)?;
        }
        Ok(())
    }

    /// Takes the end of the capture: the windows that are open get no more records.
    pub fn end(&mut self) -> Done {
        self.begin(u32::MAX)?;
        self.draw_to(u32::MAX)
    }

    /// How many pictures were drawn.
    pub fn count(&self) -> usize {
        self.drawn.iter().filter(|drawn| drawn.is_some()).count()
    }

    /// The picture at this place among those that are drawn.
    pub fn svg(&self, place: usize) -> Option<&Markup> {
        self.drawn.get(place)?.as_ref()
    }

    /// Begins the windows that have this record or one before it.
    fn begin(&mut self, number: u32) -> Done {
        self.begins_at = u32::MAX;
        for next in self.breaks.as_slice().iter().skip(self.windows.len()) {
            if next.from() > number {
                self.begins_at = next.from();
                break;
            }
            self.windows.push(Window {
                reading: Reading::new(self.alloc, &next.asked),
                after: Vec::new(self.alloc),
            })?;
        }
        self.find_end();
        Ok(())
    }

    /// Finds the last record of the first window that is open.
    fn find_end(&mut self) {
        let open = self.drawn.len();
        self.ends_at = match self.breaks.get(open) {
            Some(first) if open < self.windows.len() => first.to(),
            _ => u32::MAX,
        };
    }

    /// Hands a record to each window that is open.
    fn read(&mut self, number: u32, record: LineByte) -> Done {
        let open = self.drawn.len();
        let breaks = self.breaks.as_slice().iter();
        for (next, window) in breaks.zip(self.windows.as_mut_slice()).skip(open) {
            window.take(next.asked.at, number, record)?;
        }
        Ok(())
    }

    /// Draws the windows that have all their records up to this one.
    fn draw_to(&mut self, number: u32) -> Done {
        let open = self.drawn.len();
        let breaks = self.breaks.as_slice().iter();
        for (next, window) in breaks.zip(self.windows.as_mut_slice()).skip(open) {
            if next.to() > number {
                break;
            }
            let drawn = draw_window(self.alloc, self.profile, next, window)?;
            let has_room = self.bytes < MOST_BYTES;
            let drawn = drawn.filter(|_| has_room);
            self.bytes = self
                .bytes
                .saturating_add(drawn.as_ref().map_or(0, |svg| svg.len()));
            self.drawn.push(drawn)?;
        }
        self.find_end();
        Ok(())
    }
}

impl Asked {
    /// The last record that was judged; `at`, where the part went on until then.
    fn judged_to_or(&self, at: u32) -> u32 {
        if self.judged_to == u32::MAX {
            at
        } else {
            self.judged_to
        }
    }
}

/// Draws a window, and empties it; nothing where the record that breaks never came.
fn draw_window(
    alloc: Global,
    profile: &Profile,
    about: &Break,
    window: &mut Window,
) -> Result<Option<Markup>, AllocError> {
    window.reading.take_after(window.after.as_slice())?;
    let seen = window.reading.seen.as_slice();
    let limit_us = about.reason.limit_us();
    let layout = lay_out(alloc, seen, &about.asked, limit_us, WIDEST)?;
    window.reading = Reading::new(alloc, &about.asked);
    window.after = Vec::new(alloc);
    let Some(layout) = layout else {
        return Ok(None);
    };
    let mut svg = Markup::on_page(alloc);
    put_page_head(&mut svg, layout.wide, about)?;
    draw_around(&mut svg, profile, &layout)?;
    svg.put_mark("</svg>");
    Ok(Some(svg))
}

/// Puts the head of a picture that is so wide, with its title.
fn put_page_head(svg: &mut Markup, wide: u64, about: &Break) -> Done {
    let pixels = wide.saturating_add(PIXEL - 10) / PIXEL;
    let tall = TALL - HEAD;
    let mut line = Vec::new(svg.alloc());
    put_no_line(&mut line, about.asked.at, about.reason)?;
    svg.put_woven(
        "<svg role=\"img\" width=\"{n}\" height=\"{n}\" viewBox=\"0 {n} {n} {n}\"><title>{t}</title>\n",
        &[pixels, tall, HEAD, pixels, tall],
        &[line.as_slice().strip_suffix(b"\n").unwrap_or(&[])],
    );
    Ok(())
}
