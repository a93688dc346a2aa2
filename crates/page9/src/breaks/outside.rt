//! The breaks that the page does not show, since they come outside of the stretch that it shows.

use seen9::SeenBreak;
use text9::Markup;

/// The breaks and late replies of a capture that come outside of the stretch that is shown.
#[derive(Clone, Copy)]
pub(crate) struct Outside {
    /// How many there are.
    count: u64,
    first: Option<SeenBreak>,
}

impl Outside {
    /// No break.
    pub(super) const NONE: Outside = Outside {
        count: 0,
        first: None,
    };

    /// Takes the next one.
    pub(super) fn take(&mut self, broken: &SeenBreak) {
        self.count = self.count.saturating_add(1);
        self.first = self.first.or(Some(*broken));
    }

    /// How many there are.
    pub(crate) fn count(&self) -> u64 {
        self.count
    }

    /// Puts how many there are and which is the first, behind a sentence on the stretch; nothing where there is none.
    pub(crate) fn put(&self, html: &mut Markup) {
        let Some(first) = &self.first else {
            return;
        };
        let (at, time_us) = (u64::from(first.at), first.time_us);
        let count = self.count;
        if count == 1 {
            html.put_filled(
                " Outside of this stretch, record {c} at {h} breaks a rule: ",
                &[at, time_us],
            );
        } else {
            html.put_filled(
                " Outside of this stretch there are {c} breaks. The first is record {c} at {h}: ",
                &[count, at, time_us],
            );
        }
        html.put_marks(&[first.reason.name(), " ", first.reason.text(), "."]);
    }
}
