//! The head of the page: how many breaks there are and which, of what capture, judged with what, and what the capture says of itself.

use crate::breaks::{Breaks, FirstBreak, ReasonCount};
use crate::html::{begin_link, put_counted, put_lasting};
use crate::name::put_name;
use crate::page::PageOf;
use crate::span::Span;
use crate::style::put_style;
use deck9::{Hands, Profile};
use info9::Sign;
use report9::{Beginning, Totals};
use tc25::Rate;
use text9::{Markup, Text};
use view9::{Field, NotObeyed, Strength};

/// What the head tells of the capture.
#[derive(Clone, Copy)]
pub(crate) struct Told<'a> {
    pub(crate) totals: &'a Totals,
    pub(crate) breaks: &'a Breaks<'a>,
    pub(crate) strength: &'a Strength<'a>,
    /// The reasons, the most frequent first.
    pub(crate) reasons: &'a [ReasonCount],
    /// The signs of what is wrong with the tap, the rate or the wires.
    pub(crate) signs: &'a [Option<Sign>],
    /// From when to when the capture is, where it has a record.
    pub(crate) whole: Option<Span>,
    /// From when to when it is shown; none where nothing of it is.
    pub(crate) shown: Option<Span>,
    /// The command that was not obeyed for longest.
    pub(crate) not_obeyed: Option<NotObeyed<'a>>,
}

/// Puts the title of the page and how it looks.
pub(crate) fn put_title(html: &mut Markup, page: &PageOf<'_>, breaks: &Breaks<'_>) {
    html.put_mark(
        "<!DOCTYPE html>\n<html lang=\"en\">\n<head>\n<meta charset=\"utf-8\">\n\
        <meta name=\"viewport\" content=\"width=device-width, initial-scale=1\">\n\
        <meta name=\"color-scheme\" content=\"light dark\">\n<title>",
    );
    put_count(html, breaks);
    html.put_mark(": ");
    put_file(html, page);
    html.put_mark("</title>\n");
    put_style(html);
    html.put_mark("</head>\n<body>\n<main>\n");
}

/// Puts how many breaks there are, and where some come outside of the stretch that is shown, how many on each side of its bounds.
fn put_count(html: &mut Markup, breaks: &Breaks<'_>) {
    put_counted(html, breaks.count(), "break", "breaks");
    let outside = breaks.outside().count();
    if outside > 0 {
        html.put_filled(" in this stretch, {c} outside of it", &[outside]);
    }
}

/// Puts what the capture is called.
fn put_file(html: &mut Markup, page: &PageOf<'_>) {
    match page.file {
        Some(file) => put_name(html, file),
        None => html.put_mark("standard input"),
    }
}

/// Puts the head.
pub(crate) fn put_head(
    html: &mut Markup,
    page: &PageOf<'_>,
    profile: &Profile,
    told: &Told<'_>,
    options: &[u8],
) {
    let is_broken = told.breaks.count() > 0 || told.breaks.outside().count() > 0;
    html.put_mark("<header>\n<p class=\"file\">");
    put_file(html, page);
    html.put_mark(if is_broken {
        "</p>\n<h1 class=\"bad\">"
    } else {
        "</p>\n<h1>"
    });
    put_count(html, told.breaks);
    html.put_mark("</h1>\n<p class=\"lead\">");
    put_lead(html, told);
    html.put_mark("</p>\n");
    put_not_obeyed(html, told);
    put_signs(html, told.signs);
    put_facts(html, told);
    put_judged_with(html, page, profile, options);
    html.put_mark(
        "<nav aria-label=\"Sections\">\n\
        <a href=\"#session\">Session</a> <a href=\"#breaks\">Breaks</a> <a href=\"#happened\">What happened</a>\n",
    );
    if profile.hands == Hands::Allowed {
        html.put_mark("<a href=\"#touches\">Touches</a>\n");
    }
    html.put_mark(
        "<a href=\"#delays\">Delays</a> <a href=\"#look\">What to look at</a> <a href=\"#known\">How much was known</a>\n\
        </nav>\n</header>\n",
    );
}

/// Puts the first thing to know.
fn put_lead(html: &mut Markup, told: &Told<'_>) {
    if told.totals.records == 0 {
        html.put_mark("The capture has no records.");
        return;
    }
    let outside = told.breaks.outside();
    let is_clean = outside.count() == 0;
    match told.breaks.first() {
        Some(first) => put_first(html, told, &first),
        None if is_clean => put_clean(html, told),
        None => html.put_mark("No record of this stretch breaks a rule."),
    }
    outside.put(html);
}

/// Puts the first break that is shown, or where there are several their reasons and which is the first.
fn put_first(html: &mut Markup, told: &Told<'_>, first: &FirstBreak<'_>) {
    if told.breaks.count() > 1 {
        put_reasons(html, told.reasons);
        html.put_mark(". The first is ");
        begin_link(html, Some(first.id));
        html.put_filled(
            "record {c}</a> at {h}.",
            &[u64::from(first.at), first.time_us],
        );
        return;
    }
    html.put_mark("Record ");
    begin_link(html, Some(first.id));
    html.put_filled("{c}</a> at {h}: ", &[u64::from(first.at), first.time_us]);
    html.put_marks(&[first.reason.name(), " ", first.reason.text(), ". "]);
    html.put_piece(first.sentence);
}

/// Puts the command that was not obeyed for longest, where one was not.
fn put_not_obeyed(html: &mut Markup, told: &Told<'_>) {
    let Some(not_obeyed) = told.not_obeyed else {
        return;
    };
    html.put_mark("<p class=\"lead\"><a href=\"#look\">");
    let mut text = Text::new(html.alloc());
    not_obeyed.put(&mut text);
    html.put_text(&text);
    let place = not_obeyed.place;
    html.put_filled(
        "</a>, from record {c} at {h} on. No rule says how soon a deck obeys.</p>\n",
        &[u64::from(place.record), place.time_us],
    );
}

/// Puts the reasons with their counts.
fn put_reasons(html: &mut Markup, reasons: &[ReasonCount]) {
    for (place, counted) in reasons.iter().enumerate() {
        if place == 0 {
            put_capital(html, counted.reason.text().as_bytes());
        } else {
            html.put_marks(&["; ", counted.reason.text()]);
        }
        html.put_filled(" {c}", &[counted.breaks]);
    }
}

/// Puts a text that begins a sentence.
fn put_capital(html: &mut Markup, text: &[u8]) {
    let Some((first, rest)) = text.split_first() else {
        return;
    };
    let capital = [first.to_ascii_uppercase()];
    html.put_woven("{tt}", &[], &[&capital, rest]);
}

/// Puts that there is no break. What stands first then is how much that says.
fn put_clean(html: &mut Markup, told: &Told<'_>) {
    html.put_mark(if told.totals.passed_over > 0 {
        "Every record that was judged keeps the rules"
    } else {
        "Every record keeps the rules"
    });
    if told.totals.exchanges == 0 {
        html.put_mark(". No exchange is complete, so of the deck nothing was tested.");
        return;
    }
    if told.strength.exchanges() == 0 {
        html.put_mark(
            ", and a deck can have given these replies. No exchange ends in this stretch.",
        );
        return;
    }
    let known = [Field::Shown, Field::In, Field::Out, Field::Local].map(|field| told
        .strength
        .tenths(told.strength.times_known(field)));
    html.put_filled(
        ", and a deck can have given these replies. <a href=\"#known\">What was not known</a> was not tested: \
        shown mode known at {1} % of the exchanges, IN at {1} %, OUT at {1} %, local at {1} %.",
        &known,
    );
}

/// Puts the signs of the capture, which say what to look at before anybody is blamed; nothing where there is none.
fn put_signs(html: &mut Markup, signs: &[Option<Sign>]) {
    let mut is_begun = false;
    for sign in signs {
        let Some(sign) = sign else {
            continue;
        };
        if !is_begun {
            html.put_mark("<div class=\"signs\"><p><b>Look at the capture first:</b></p>\n<ul>\n");
            is_begun = true;
        }
        html.put_mark("<li>");
        html.put_with(|line| sign.put_told(line));
        html.put_mark("</li>\n");
    }
    html.put_mark(if is_begun { "</ul></div>\n" } else { "" });
}

/// Puts when the capture is, and how much there is of it.
fn put_facts(html: &mut Markup, told: &Told<'_>) {
    html.put_mark("<div class=\"facts\">\n");
    if let Some(whole) = told.whole {
        html.put_filled(
            "<dl><dt>Begins</dt><dd>{h}</dd></dl>\n<dl><dt>Ends</dt><dd>{h}</dd></dl>\n<dl><dt>Lasts</dt><dd>",
            &[whole.from_us, whole.to_us],
        );
        put_lasting(html, whole.lasts_us());
        html.put_mark("</dd></dl>\n");
    }
    let totals = told.totals;
    let counts = [
        totals.records,
        totals.exchanges,
        totals.passed_over,
        totals.tail,
    ];
    html.put_filled(
        "<dl><dt>Records</dt><dd>{c}</dd></dl>\n<dl><dt>Exchanges</dt><dd>{c}</dd></dl>\n\
        <dl><dt>Passed over</dt><dd>{c}</dd></dl>\n<dl><dt>Open at the end</dt><dd>{c}</dd></dl>\n</div>\n",
        &counts.map(u64::from),
    );
    if told.shown == told.whole {
        return;
    }
    html.put_mark("<div class=\"facts\">\n");
    match told.shown {
        Some(shown) => html.put_filled(
            "<dl><dt>Shown from</dt><dd>{h}</dd></dl>\n<dl><dt>Shown to</dt><dd>{h}</dd></dl>\n",
            &[shown.from_us, shown.to_us],
        ),
        None => html.put_mark(
            "<dl><dt>Shown</dt><dd>nothing: the stretch misses the capture</dd></dl>\n",
        ),
    }
    html.put_mark("</div>\n");
}

/// Puts what was assumed of the deck, in words and as the options that say so.
fn put_judged_with(html: &mut Markup, page: &PageOf<'_>, profile: &Profile, options: &[u8]) {
    let (rate, frames) = match profile.rate {
        Rate::DropFrame => ("29.97", " frames a second, drop frame"),
        rate => (rate.word(), " frames a second"),
    };
    let hands = match profile.hands {
        Hands::Allowed => ", somebody may have touched the panel",
        Hands::None => ", nobody at the panel",
    };
    html.put_marks(&[
        "<div class=\"facts\">\n<dl><dt>Judged with</dt><dd>",
        rate,
        frames,
        hands,
    ]);
    put_sheets(html, page.sheets);
    if page.beginning != Beginning::FirstRecord {
        html.put_mark(", from the first record that may begin a command");
    }
    let form = if options.is_empty() {
        " <code>--all</code></dd></dl>\n</div>\n"
    } else {
        " <code>--all {t}</code></dd></dl>\n</div>\n"
    };
    html.put_woven(form, &[], &[options]);
}

/// Puts the files of the deck's sheets.
fn put_sheets(html: &mut Markup, sheets: &[String]) {
    let Some((first, others)) = sheets.split_first() else {
        html.put_mark(", no deck sheet");
        return;
    };
    html.put_mark(", deck sheet ");
    put_name(html, first.as_bytes());
    for sheet in others {
        html.put_mark(" and ");
        put_name(html, sheet.as_bytes());
    }
}
