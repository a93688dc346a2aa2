//! Small captures and what stands on their pages, by hand.

use deck9::{Hands, Profile};
use page9::{Page, PageOf};
use report9::{Beginning, Extent, JudgeError, Scope, Stretch};
use seen9::ViewOf;
use show9::{FewestMoves, show_explained};
use std::alloc::{AllocError, Global};
use std::process::Abort;
use std::test::Fail;
use tc25::Rate;

/// A status that the deck is in REMOTE, and PLAY with its acknowledgement, 10 milliseconds later.
const PLAYED: &str = "time_us,wire,byte\n\
    0,C,61\n400,C,20\n800,C,01\n1200,C,82\n1600,D,71\n2000,D,20\n2400,D,00\n2800,D,91\n\
    10000,C,20\n10400,C,01\n10800,C,21\n11200,D,10\n11600,D,01\n12000,D,11\n";

/// PLAY three times, 20 milliseconds apart, without a reply.
const SILENT: &str = "time_us,wire,byte\n\
    400,C,20\n800,C,01\n1200,C,21\n21200,C,20\n21600,C,01\n22000,C,21\n42000,C,20\n42400,C,01\n42800,C,21\n";

/// What a page says of the capture with this text.
fn named_page<'p>(text: &'p [u8], sheets: &'p [String], stretch: Stretch) -> PageOf<'p> {
    PageOf {
        text,
        file: Some(b"a <b>.csv"),
        sheets,
        version: b"ninecheck 1.1.0\n",
        beginning: Beginning::FirstRecord,
        stretch,
        advice: None,
    }
}

/// The page of a capture, of which this stretch is shown.
fn page_of(alloc: Global, text: &str, stretch: Stretch) -> Result<Vec<u8>, JudgeError> {
    let text = text.as_bytes();
    let mut sheets = Vec::new(alloc);
    sheets
        .push(String::from_str(alloc, "\"deck\" & co")?)
        .map_err(|_| AllocError)?;
    let page = named_page(text, sheets.as_slice(), stretch);
    let profile = Profile::at(Rate::Fps30, Hands::None);
    let of = ViewOf {
        scope: Scope {
            extent: Extent::WholeCapture,
            beginning: Beginning::FirstRecord,
        },
        stretch,
        profile: &profile,
    };
    let mut html = Vec::new(alloc);
    let mut shown = Page::new(alloc, text, of, &FewestMoves)?;
    show_explained(alloc, text, &mut shown, of)?;
    shown.write(alloc, text, &mut html, &page)?;
    Ok(html)
}

/// Holds that a page has each of these pieces, which stand on lines of their own here.
fn has(rt: &impl Abort, html: &[u8], pieces: &str) -> Result<(), Fail> {
    let html = str::from_utf8(html)?;
    for piece in pieces.lines() {
        assert!(rt; html.contains(piece), "{piece}");
    }
    Ok(())
}

#[test]
fn escapes_names(rt: HostRuntime) -> Result<(), Fail> {
    let html = page_of(rt.alloc(), PLAYED, Stretch::ALL)?;
    let pieces = "<title>0 breaks: a &lt;b&gt;.csv</title>\n\
        <p class=\"file\">a &lt;b&gt;.csv</p>\n\
        , deck sheet &quot;deck&quot; &amp; co <code>--all --rate 30 --deck '&quot;deck&quot; &amp; co'</code>\n\
        <code>ninecheck page --rate 30 --deck '&quot;deck&quot; &amp; co' 'a &lt;b&gt;.csv'</code>, ninecheck 1.1.0, from\n";
    has(&rt, html.as_slice(), pieces)
}

#[test]
fn tells_equal_breaks_as_one(rt: HostRuntime) -> Result<(), Fail> {
    let html = page_of(rt.alloc(), SILENT, Stretch::ALL)?;
    let pieces = "<h1 class=\"bad\">2 breaks</h1>\n\
        No reply 2. The first is <a href=\"#r4\">record 4</a> at 00:00:00.021.\n\
        PLAY got no reply; the next command came 20,000 &#181;s after it. 2 in a row, the last at record 7, 00:00:00.042.</span>\n";
    has(&rt, html.as_slice(), pieces)
}

#[test]
fn shows_a_stretch_in_the_whole_width(rt: HostRuntime) -> Result<(), Fail> {
    let stretch = Stretch {
        from_us: 2_000,
        to_us: Some(7_000),
    };
    let html = page_of(rt.alloc(), PLAYED, stretch)?;
    let pieces = "<dt>Shown from</dt><dd>00:00:00.002</dd>\n\
        <dt>Shown to</dt><dd>00:00:00.007</dd>\n\
        <path class=\"clear\" d=\"M160.00 14h840.00v2h-840.00z\"/>\n";
    has(&rt, html.as_slice(), pieces)
}
