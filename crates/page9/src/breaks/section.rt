//! The section of the breaks, as it stands on the page.

use crate::again::Again;
use crate::breaks::Breaks;
use crate::doubts::Doubts;
use crate::page::Advice;
use block9::Reason;
use text9::{Done, Markup};

impl Breaks<'_> {
    /// Puts the section. A command is asked again so, and signs of the capture put reasons in doubt so; what to ask next stands at its
    /// break.
    pub(crate) fn put(
        &self,
        html: &mut Markup,
        again: &Again<'_>,
        doubts: &Doubts,
        advice: Option<Advice<'_>>,
    ) -> Done {
        html.put_mark("<section id=\"breaks\">\n<h2>Breaks</h2>\n");
        if self.count == 0 {
            self.put_none(html);
        } else {
            self.reasons.put(html, doubts)?;
            self.put_advice(html, doubts);
            self.put_entries(html, advice);
            self.put_unlisted(html, again);
        }
        html.put_mark("</section>\n");
        Ok(())
    }

    /// Puts that no break is shown.
    fn put_none(&self, html: &mut Markup) {
        html.put_mark(if self.outside.count() > 0 {
            "<p>No record of this stretch breaks a rule."
        } else {
            "<p>No record breaks a rule."
        });
        self.outside.put(html);
        html.put_mark("</p>\n");
    }

    /// Puts what to look at first, and what to think of several breaks.
    fn put_advice(&self, html: &mut Markup, doubts: &Doubts) {
        self.put_suspicion(html, doubts);
        if self.count > 1 {
            html.put_mark("<p>");
            self.put_what_follows(html);
            html.put_mark("</p>\n");
        }
    }

    /// Puts the signs that blame the tap or the wires, of those that bear on a break; nothing where there is none.
    fn put_suspicion(&self, html: &mut Markup, doubts: &Doubts) {
        let mut is_begun = false;
        for sign in doubts.signs() {
            let Some(sign) = sign else {
                continue;
            };
            if !sign.what.blames_tap() || !self.reasons.has_one_doubted_by(sign) {
                continue;
            }
            let (name, _) = sign.what.words();
            html.put_mark(if is_begun {
                ", "
            } else {
                "<p><b>Suspect the tap first:</b> "
            });
            html.put_mark(name);
            is_begun = true;
        }
        html.put_mark(if is_begun {
            ". What that means stands at the head of the page.</p>\n"
        } else {
            ""
        });
    }

    /// Puts what to think of several breaks. A late reply ends nothing.
    fn put_what_follows(&self, html: &mut Markup) {
        let late = self.reasons.breaks_by(Reason::LateReply);
        if late == self.count {
            html.put_mark("After a late reply everything known of the deck stays known.");
            return;
        }
        let unless = if late > 0 {
            ", unless it is a late reply,"
        } else {
            ""
        };
        html.put_marks(&[
            "The number of breaks is not the number of faults: one lost byte can break two parts. After a break",
            unless,
            " nothing is known of the deck until it is asked again.",
        ]);
    }

    /// Puts the breaks that are listed.
    fn put_entries(&self, html: &mut Markup, advice: Option<Advice<'_>>) {
        for (place, entry) in self.listed.as_slice().iter().enumerate() {
            let advice = advice.filter(|advice| entry.is_of(advice.at));
            entry.put(html, self.pictures.svg(place), place == 0, advice);
        }
    }

    /// Puts what has no lines or no picture here, and how to get it.
    fn put_unlisted(&self, html: &mut Markup, again: &Again<'_>) {
        if self.unlisted > 0 {
            html.put_filled(
                "<p>{c} more breaks are not listed. <code>",
                &[self.unlisted],
            );
            again.put(html, "why --all");
            html.put_mark("</code> lists them.</p>\n");
        }
        let pictures = self.pictures.count();
        if self.listed.len() > pictures {
            html.put_filled(
                "<p class=\"soft\">The first {n} breaks have a picture. <code>",
                &[pictures as u64],
            );
            again.put(html, "picture --all --at RECORD");
            html.put_mark("</code> draws any other.</p>\n");
        }
    }
}
