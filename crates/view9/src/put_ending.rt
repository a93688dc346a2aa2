//! The line of what a judging comes to in the end.

use report9::{put_totals_line, put_verdict_line};
use seen9::Ending;
use text9::Text;

/// Puts its line.
pub(crate) fn put_ending(line: &mut Text, ending: &Ending) {
    line.put_with(|text| match ending {
        Ending::Verdict(verdict) => put_verdict_line(text, *verdict),
        Ending::Totals(totals) => put_totals_line(text, totals),
    });
}
