//! How a command of the program is asked again of the capture that the page shows.

use crate::html::put_counted;
use text9::Markup;

/// What stands behind a command of the program, as a shell takes it.
#[derive(Clone, Copy)]
pub(crate) struct Again<'a> {
    /// The options with which the capture was judged; nothing where it was judged without.
    pub(crate) options: &'a [u8],
    /// The options of the stretch that the page shows, which other commands may not have; nothing where it shows all.
    pub(crate) stretch: &'a [u8],
    /// The capture's name; nothing where it came on the standard input.
    pub(crate) file: &'a [u8],
}

impl Again<'_> {
    /// Puts a command that judges the same capture with the same options.
    pub(crate) fn put(&self, html: &mut Markup, subcommand: &'static str) {
        html.put_marks(&["ninecheck ", subcommand]);
        put_word(html, self.options);
        put_word(html, self.file);
    }

    /// Puts a command that judges it so too, and shows the same stretch.
    pub(crate) fn put_shown(&self, html: &mut Markup, subcommand: &'static str) {
        html.put_marks(&["ninecheck ", subcommand]);
        put_word(html, self.options);
        put_word(html, self.stretch);
        put_word(html, self.file);
    }

    /// Puts how many of something are not listed, and which command has them all; nothing where all are.
    pub(crate) fn put_rest(
        &self,
        html: &mut Markup,
        number: u64,
        (noun, plural): (&'static str, &'static str),
        subcommand: &'static str,
    ) {
        if number == 0 {
            return;
        }
        html.put_mark("<p class=\"note\">");
        put_counted(html, number, noun, plural);
        html.put_mark(" not listed: <code>");
        self.put_shown(html, subcommand);
        html.put_mark("</code> has all.</p>\n");
    }
}

/// Puts a blank and words, where there are some.
fn put_word(html: &mut Markup, words: &[u8]) {
    if words.is_empty() {
        return;
    }
    html.put_woven(" {t}", &[], &[words]);
}
