//! An entry of the list of breaks.

use crate::html::{BreakId, put_reason, put_run};
use crate::page::Advice;
use block9::Reason;
use seen9::SeenBreak;
use std::alloc::Global;
use text9::Markup;
use view9::BreakRun;

/// A break or a late reply that is listed, with the equal ones that follow it in a row.
#[derive(Drop)]
pub(super) struct Listed {
    pub(super) id: BreakId,
    pub(super) run: BreakRun,
    /// What happened at the first, in one sentence.
    pub(super) sentence: Markup,
    /// The lines of `why` for the first.
    pub(super) why: Markup,
    /// The list of the replies that contradict one another; nothing of another break.
    pub(super) replies: Markup,
}

impl Listed {
    /// Of one break, without what is told of it.
    pub(super) fn new(alloc: Global, id: BreakId, first: &SeenBreak) -> Listed {
        Listed {
            id,
            run: BreakRun::new(first),
            sentence: Markup::new(alloc),
            why: Markup::new(alloc),
            replies: Markup::new(alloc),
        }
    }

    /// How many bytes it takes, without what every entry has.
    pub(super) fn len(&self) -> usize {
        let told = self.sentence.len().saturating_add(self.why.len());
        told.saturating_add(self.replies.len())
    }

    /// Whether it tells first of the break at this record that is no late reply.
    pub(super) fn is_of(&self, at: u32) -> bool {
        let first = &self.run.first;
        first.at == at && first.reason != Reason::LateReply
    }

    /// Puts the entry, with its picture where it has one, and with what to ask next. Of the first of all its parts are open.
    pub(super) fn put(
        &self,
        html: &mut Markup,
        picture: Option<&Markup>,
        is_first: bool,
        advice: Option<Advice<'_>>,
    ) {
        html.put_mark("<details class=\"break\" id=\"");
        self.id.put(html);
        html.put_mark(if is_first { "\" open>" } else { "\">" });
        self.put_summary(html);
        if let Some(advice) = advice {
            html.put_mark("<p><b>Ask next:</b> ");
            html.put_foreign(advice.line);
            html.put_mark("</p>\n");
        }
        self.put_why(html);
        if let Some(picture) = picture {
            html.put_mark(if is_first {
                "<details open>"
            } else {
                "<details>"
            });
            self.put_picture(html, picture);
        }
        html.put_mark("</details>\n");
    }

    /// Puts the line that always stands there.
    fn put_summary(&self, html: &mut Markup) {
        let first = &self.run.first;
        html.put_filled(
            "<summary><span class=\"break-line\"><span>{h}</span> <span class=\"soft\">record {c}</span> <span>",
            &[first.time_us, u64::from(first.at)],
        );
        put_reason(html, first.reason);
        html.put_mark("</span> <span>");
        html.put_piece(&self.sentence);
        self.put_row(html);
        html.put_mark("</span></span></summary>\n");
    }

    /// Puts how many breaks there are and up to which record and time, where there are several.
    fn put_row(&self, html: &mut Markup) {
        if self.run.breaks == 1 {
            return;
        }
        html.put_mark(" ");
        put_run(html, &self.run);
        html.put_mark(".");
    }

    /// Puts why it came: of a contradiction the list of its replies, and the lines folded.
    fn put_why(&self, html: &mut Markup) {
        let has_list = !self.replies.is_empty();
        if has_list {
            html.put_piece(&self.replies);
            html.put_mark("<details><summary>As <code>why</code> prints it</summary>\n");
        }
        html.put_mark("<pre>");
        html.put_piece(&self.why);
        html.put_mark("</pre>\n");
        html.put_mark(if has_list { "</details>\n" } else { "" });
    }

    /// Puts its picture.
    fn put_picture(&self, html: &mut Markup, picture: &Markup) {
        let record = u64::from(self.run.first.at);
        html.put_filled(
            "<summary>Picture of record {c}</summary>\n\
            <figure><figcaption>Both wires around record {c}, the controller above and the deck below</figcaption>\n\
            <div class=\"wires\" tabindex=\"0\" role=\"region\" aria-label=\"Picture of record {c}\">\n",
            &[record, record, record],
        );
        html.put_piece(picture);
        html.put_mark("\n</div></figure>\n</details>\n");
    }
}
