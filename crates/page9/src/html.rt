//! The pieces that the sections of the page share: numbers, times, links and the heads of tables.

use block9::Reason;
use text9::Markup;
use view9::BreakRun;

/// Puts a number with its noun.
pub(crate) fn put_counted(
    html: &mut Markup,
    number: u64,
    noun: &'static str,
    plural: &'static str,
) {
    html.put_filled("{c} ", &[number]);
    html.put_mark(if number == 1 { noun } else { plural });
}

/// Puts the last digits of a number, so many.
pub(crate) fn put_padded(html: &mut Markup, number: u64, digits: u32) {
    for place in (0..digits).rev() {
        let power = 10u64.checked_pow(place).unwrap_or(u64::MAX);
        let digit = number.checked_div(power).unwrap_or(0) % 10;
        html.put_filled("{n}", &[digit]);
    }
}

/// Puts a time on the capture's clock as hours and minutes.
pub(crate) fn put_hours_and_minutes(html: &mut Markup, us: u64) {
    let hours = us / 3_600_000_000;
    let form = if hours < 10 { "0{n}:{d}" } else { "{n}:{d}" };
    html.put_filled(form, &[hours, us / 60_000_000 % 60]);
}

/// Puts how long something lasts in words of hours, minutes and seconds, cut to a tenth.
pub(crate) fn put_lasting(html: &mut Markup, us: u64) {
    let (minutes, tenths) = (us / 60_000_000, us % 60_000_000 / 100_000);
    match us {
        0..1_000_000 => html.put_filled("{1} ms", &[us / 100]),
        1_000_000..60_000_000 => html.put_filled("{1} s", &[tenths]),
        60_000_000..3_600_000_000 => html.put_filled("{n} min {1} s", &[minutes, tenths]),
        _ => html.put_filled("{n} h {n} min {1} s", &[minutes / 60, minutes % 60, tenths]),
    }
}

/// Puts a reason, by its name and its words.
pub(crate) fn put_reason(html: &mut Markup, reason: Reason) {
    html.put_marks(&["<b>", reason.name(), "</b> ", reason.text()]);
}

/// Puts a note above a section's lists.
pub(crate) fn put_note(html: &mut Markup, note: &'static str) {
    html.put_marks(&["<p class=\"note\">", note, "</p>\n"]);
}

/// What leads to a break that is listed: its place on the page.
#[derive(Clone, Copy, PartialEq, Eq)]
pub(crate) struct BreakId {
    /// The number of its record.
    pub(crate) at: u32,
    /// Whether the break before was at the same record.
    pub(crate) is_second: bool,
}

impl BreakId {
    /// Puts it.
    pub(crate) fn put(self, html: &mut Markup) {
        let form = if self.is_second { "r{n}-2" } else { "r{n}" };
        html.put_filled(form, &[u64::from(self.at)]);
    }
}

/// Puts how many equal breaks in a row there are, and which record is the last, with its time.
pub(crate) fn put_run(html: &mut Markup, run: &BreakRun) {
    html.put_filled(
        "{c} in a row, the last at record {c}, {h}",
        &[u64::from(run.breaks), u64::from(run.last_at), run.last_us],
    );
}

/// Puts the head of a link to a break, where it is listed.
pub(crate) fn begin_link(html: &mut Markup, id: Option<BreakId>) {
    let Some(id) = id else {
        return;
    };
    html.put_mark("<a href=\"#");
    id.put(html);
    html.put_mark("\">");
}

/// Puts the end of a link to a break, where it is listed.
pub(crate) fn end_link(html: &mut Markup, id: Option<BreakId>) {
    html.put_mark(if id.is_some() { "</a>" } else { "" });
}

/// Puts a line of a list up to what is said in it: the look of it, its time and its record.
pub(crate) fn begin_line(html: &mut Markup, look: &'static str, us: u64, record: u32) {
    if look.is_empty() {
        html.put_mark("<li>");
    } else {
        html.put_marks(&["<li class=\"", look, "\">"]);
    }
    html.put_filled(
        "<span>{h}</span><span class=\"soft\">record {c}</span><span>",
        &[us, u64::from(record)],
    );
}

/// Puts the end of a line of a list.
pub(crate) fn end_line(html: &mut Markup) {
    html.put_mark("</span></li>\n");
}

/// Puts a path of a chart up to its steps.
pub(crate) fn begin_path(html: &mut Markup, look: &'static str) {
    html.put_marks(&["<path class=\"", look, "\" d=\""]);
}

/// Puts the end of a path.
pub(crate) fn end_path(html: &mut Markup) {
    html.put_mark("\"/>");
}

/// Puts the head of a chart that is as wide as there is room and so many pixels tall, up to its title's words. It is stretched to the
/// width, so it holds no text.
pub(crate) fn begin_chart(html: &mut Markup, tall: u64) {
    html.put_filled(
        "<svg viewBox=\"0 0 1000 {n}\" height=\"{n}\" preserveAspectRatio=\"none\" role=\"img\"><title>",
        &[tall, tall],
    );
}
