//! How much was known: what is not known of the deck can't contradict a later reply.

use crate::again::Again;
use crate::html::{begin_chart, put_note};
use crate::shown::Shown;
use crate::table::put_table_head;
use text9::{Done, Markup, Text};
use view9::{Field, Strength};

/// How many commands are listed after which a field was known no more. The others are counted.
const MOST_LISTED: usize = 40;

/// Puts the section, of the exchanges that are shown.
pub(crate) fn put_known(
    html: &mut Markup,
    strength: &Strength<'_>,
    extent: Shown,
    again: &Again<'_>,
) -> Done {
    html.put_mark("<section id=\"known\"><h2>How much was known</h2>\n");
    if strength.exchanges() == 0 {
        html.put_marks(&["<p>No ", extent.exchange_missing(), ".</p></section>\n"]);
        return Ok(());
    }
    put_note(
        html,
        "What is not known can&rsquo;t contradict a later reply. So a field that was seldom known was seldom tested. Shares are of the exchanges.",
    );
    put_table_head(
        html,
        "Field|0 to 100 % of the exchanges|Known|Set, time not known",
        true,
    );
    put_row(html, strength, Field::Shown, "shown mode");
    put_row(html, strength, Field::In, "IN");
    put_row(html, strength, Field::Out, "OUT");
    put_row(html, strength, Field::Local, "local");
    put_row(html, strength, Field::AudioIn, "audio IN");
    put_row(html, strength, Field::AudioOut, "audio OUT");
    html.put_mark("</tbody></table></div>\n");
    put_ignored(html, strength)?;
    put_lapses(html, strength, again);
    html.put_mark("</section>\n");
    Ok(())
}

/// Puts the row of a field.
fn put_row(html: &mut Markup, strength: &Strength<'_>, field: Field, words: &'static str) {
    let (known, set) = (strength.times_known(field), strength.times_set(field));
    let share = strength.tenths(known);
    html.put_marks(&[
        "<tr><th scope=\"row\">",
        words,
        "</th><td class=\"picture\">",
    ]);
    begin_chart(html, 18);
    html.put_mark(words);
    html.put_filled(": known at {1} %</title>", &[share]);
    put_bars(html, strength, known, set);
    if matches!(field, Field::Shown | Field::Local) {
        html.put_filled("<td>{1} %</td><td>&ndash;</td></tr>\n", &[share]);
    } else {
        html.put_filled(
            "<td>{1} %</td><td>{1} %</td></tr>\n",
            &[share, strength.tenths(set)],
        );
    }
}

/// Puts the bars of a field: at how many exchanges it was known, and beside that at how many more a register was known to be set.
fn put_bars(html: &mut Markup, strength: &Strength<'_>, known: u32, set: u32) {
    let exchanges = strength.exchanges();
    let known_x = x_of(known, exchanges);
    let either_x = x_of(known.saturating_add(set), exchanges);
    html.put_filled(
        "<path class=\"state\" d=\"M0 2H{2}V14H0z\"/><path class=\"half\" d=\"M{2} 8H{2}V14H{2}z\"/>\
        <path class=\"row\" d=\"M0 15.5H1000\"/></svg></td>",
        &[known_x, known_x, either_x, known_x],
    );
}

/// Where a part of a whole stands in a chart that is 1,000 wide, to the nearest hundredth.
fn x_of(part: u32, whole: u32) -> u64 {
    let whole = u64::from(whole);
    u64::from(part)
        .saturating_mul(100_000)
        .saturating_add(whole / 2)
        .checked_div(whole)
        .unwrap_or(0)
}

/// Puts what a deck in LOCAL may have done to the presets, where local was never known.
fn put_ignored(html: &mut Markup, strength: &Strength<'_>) -> Done {
    if !strength.may_have_ignored() {
        return Ok(());
    }
    let mut text = Text::new(html.alloc());
    strength.put_ignored(&mut text);
    html.put_mark("<p>");
    if let [first, others @ ..] = text.whole()? {
        let capital = [first.to_ascii_uppercase()];
        html.put_woven("{tt}", &[], &[&capital, others]);
    }
    html.put_mark(".</p>\n");
    Ok(())
}

/// Puts after which commands fields were known no more, where there are some.
fn put_lapses(html: &mut Markup, strength: &Strength<'_>, again: &Again<'_>) {
    let lapses = strength.lapses();
    if lapses.is_empty() {
        return;
    }
    html.put_mark("<ul class=\"lapses\">\n");
    for (called, fields) in lapses.iter().take(MOST_LISTED) {
        html.put_mark("<li>");
        let mut text = Text::new(html.alloc());
        view9::put_lapses(&mut text, *called, fields);
        html.put_text(&text);
        html.put_mark("</li>\n");
    }
    html.put_mark("</ul>\n");
    let others = lapses.len().saturating_sub(MOST_LISTED) as u64;
    again.put_rest(
        html,
        others,
        ("more command is", "more commands are"),
        "digest --all",
    );
}
