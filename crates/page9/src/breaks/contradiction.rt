//! The replies that contradict one another, as a list: each with its time, the command that it answers and what it says, and between
//! two how long after the one the other begins, and which commands between them touch what they disagree on.

use crate::breaks::disputed::Disputed;
use crate::breaks::sentences::put_called;
use crate::html::put_lasting;
use block9::{Block, Exchange};
use deck9::{Knowledge, ModeSet, Profile};
use picture9::{answered_of, asked_of, put_known_before, says_of};
use report9::{WhyNo, put_block};
use text9::{Done, Markup};
use view9::Called;

/// How many commands between two replies are named.
const MOST_NAMED: u64 = 3;

/// The list, as far as it is written.
#[derive(Drop)]
struct List<'a> {
    profile: &'a Profile,
    disputed: Disputed,
    /// How many replies are listed from the first on.
    most: usize,
    /// The places of the replies among the exchanges.
    places: &'a [usize],
    /// How many of them came.
    taken: usize,
    /// The number of the last record that came.
    at: u32,
    /// The time and the last record of the reply before.
    before: (u64, u32),
    /// The commands since then that touch what is disputed: how many, and the names of the first.
    touching: u64,
    named: Markup,
}

/// Puts the list of a contradiction's replies, and the times of those that are listed, in microseconds, to `times`. Of more replies
/// than so many and one, the first are listed and the last. Nothing is put of another break.
pub(super) fn put_list(
    html: &mut Markup,
    times: &mut Vec<u64>,
    profile: &Profile,
    why: &WhyNo,
    most: usize,
) -> Done {
    let WhyNo::Contradiction {
        at,
        exchanges,
        places,
        known,
        shown,
    } = why
    else {
        return Ok(());
    };
    let disputed = Disputed::of(why);
    put_head(html, places.len(), disputed);
    let exchanges = exchanges.as_slice();
    let first = first_before(*at, exchanges);
    let mut list = List {
        profile,
        disputed,
        most,
        places: places.as_slice(),
        taken: 0,
        at: first,
        before: (0, first),
        touching: 0,
        named: Markup::new(html.alloc()),
    };
    list.put_all(html, times, exchanges)?;
    put_known(html, profile, known, *shown);
    Ok(())
}

/// The number of the record before the first exchange, of which the last ends with the record of the number `at`.
fn first_before(at: u32, exchanges: &[Exchange]) -> u32 {
    let mut before = at;
    for exchange in exchanges {
        before = before.saturating_sub(exchange.records() as u32);
    }
    before
}

/// Puts what so many replies contradict, and the head of their list.
fn put_head(html: &mut Markup, replies: usize, disputed: Disputed) {
    html.put_marks(&["<p>", what_contradicts(replies)]);
    if !disputed.is_none() {
        html.put_mark(" What they disagree on is ");
        disputed.put(html);
        html.put_mark(", and its bytes are marked.");
    }
    html.put_mark("</p>\n<ol class=\"replies\">\n");
}

/// What so many replies contradict.
fn what_contradicts(replies: usize) -> &'static str {
    match replies {
        1 => "No deck can have given this reply, whatever it was sent before.",
        2 => {
            "No deck can have given these two replies. It can have given either of them without the other."
        }
        _ => {
            "No deck can have given these replies together. Without any one of them, a deck can have given the others."
        }
    }
}

/// Puts the end of the list, and what was known of the deck before the last reply.
fn put_known(html: &mut Markup, profile: &Profile, known: &Knowledge, shown: ModeSet) {
    html.put_mark("</ol>\n<p>Known before the last reply: ");
    html.put_with(|text| put_known_before(text, profile, known, shown));
    html.put_mark(".</p>\n");
}

impl List<'_> {
    /// Puts the replies among these exchanges.
    fn put_all(&mut self, html: &mut Markup, times: &mut Vec<u64>, exchanges: &[Exchange]) -> Done {
        for (place, exchange) in exchanges.iter().enumerate() {
            let first = self.at.saturating_add(1);
            self.at = self.at.saturating_add(exchange.records() as u32);
            if self.places.get(self.taken).copied() == Some(place) {
                self.put_reply(html, times, exchange, first)?;
            } else if self.disputed.is_touched_by(self.profile, exchange) {
                self.name(exchange);
            }
        }
        html.put_mark(if self.taken > 0 { "</li>\n" } else { "" });
        Ok(())
    }

    /// Names a command that touches what is disputed.
    fn name(&mut self, exchange: &Exchange) {
        self.touching = self.touching.saturating_add(1);
        if self.touching > MOST_NAMED {
            return;
        }
        self.named
            .put_mark(if self.touching > 1 { ", " } else { "" });
        put_called(&mut self.named, Called::of(self.profile, exchange));
        self.named.put_filled(" at {h}", &[exchange.time_us]);
    }

    /// Puts a reply whose exchange begins with this record, where it is listed, behind what stands between it and the one before.
    fn put_reply(
        &mut self,
        html: &mut Markup,
        times: &mut Vec<u64>,
        exchange: &Exchange,
        first: u32,
    ) -> Done {
        self.taken = self.taken.saturating_add(1);
        if self.taken <= self.most || self.taken == self.places.len() {
            if self.taken > 1 {
                self.put_between(html, exchange, first);
                html.put_mark("</li>\n");
            }
            times.push(exchange.time_us)?;
            html.put_mark("<li>");
            self.put_item(html, exchange, first);
        }
        self.before = (exchange.time_us, self.at);
        self.touching = 0;
        self.named = Markup::new(html.alloc());
        Ok(())
    }

    /// Puts what stands between a reply and the one before it.
    fn put_between(&self, html: &mut Markup, exchange: &Exchange, first: u32) {
        let more = self.taken.saturating_sub(self.most).saturating_sub(1);
        if more > 0 {
            html.put_filled(
                "<p class=\"between\">{c} more replies are not listed</p>",
                &[more as u64],
            );
            return;
        }
        html.put_mark("<p class=\"between\">");
        let (before_us, before_ends) = self.before;
        put_lasting(html, exchange.time_us.saturating_sub(before_us));
        html.put_mark(" later, ");
        let records = first.saturating_sub(before_ends).saturating_sub(1);
        put_records_between(html, records);
        if records > 0 {
            self.put_touching(html);
        }
        html.put_mark("</p>");
    }

    /// Puts which commands between two replies touch what is disputed.
    fn put_touching(&self, html: &mut Markup) {
        if self.touching == 0 {
            let is_kept = self.disputed.is_kept();
            html.put_mark(if is_kept {
                "; no command between touches it"
            } else {
                ""
            });
            return;
        }
        html.put_mark("; what touches it between: ");
        html.put_piece(&self.named);
        let more = self.touching.saturating_sub(MOST_NAMED);
        if more > 0 {
            html.put_filled(" and {c} more", &[more]);
        }
    }

    /// Puts a reply: its time, its records, what was asked and answered, what it says, and the bytes.
    fn put_item(&self, html: &mut Markup, exchange: &Exchange, first: u32) {
        let alloc = html.alloc();
        html.put_filled(
            "<span>{h}</span> <span class=\"soft\">records {c} to {c}</span> <span><b>",
            &[exchange.time_us, u64::from(first), u64::from(self.at)],
        );
        html.put_made(asked_of(alloc, self.profile, exchange));
        html.put_mark(" &#8594; ");
        html.put_made(answered_of(alloc, self.profile, exchange));
        html.put_mark("</b>");
        match says_of(alloc, self.profile, exchange) {
            Ok(says) if says.is_empty() => {}
            says => {
                html.put_mark(" ");
                html.put_made(says);
            }
        }
        html.put_mark("<br><span class=\"bytes\">");
        html.put_with(|text| put_block(text, &exchange.block));
        html.put_mark(" &#8594; ");
        self.put_reply_bytes(html, exchange, &exchange.reply);
        html.put_mark("</span></span>");
    }

    /// Puts the bytes of an exchange's reply, with marks about those in which stands what is disputed.
    fn put_reply_bytes(&self, html: &mut Markup, exchange: &Exchange, reply: &Block) {
        let code = u64::from(reply.code);
        html.put_filled("{x} {x}", &[u64::from(reply.first_byte()), code]);
        for (place, byte) in reply.bytes.as_slice().iter().enumerate() {
            let form = if self.disputed.stands_in(exchange, place) {
                " <b class=\"bad\">{x}</b>"
            } else {
                " {x}"
            };
            html.put_filled(form, &[u64::from(*byte)]);
        }
        html.put_filled(" {x}", &[u64::from(reply.checksum())]);
    }
}

/// Puts how many records stand between two exchanges.
fn put_records_between(html: &mut Markup, records: u32) {
    match records {
        0 => html.put_mark("nothing between"),
        1 => html.put_mark("1 record between"),
        _ => html.put_filled("{c} records between", &[u64::from(records)]),
    }
}
