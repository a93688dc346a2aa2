//! The lines of `why`, with the verdict as the last one.

use deck9::Profile;
use report9::{WhyNo, put_why_for};
use text9::{Done, Markup};

/// How many replies contradict one another; none where the break is another one.
fn replies_of(why: &WhyNo) -> usize {
    match why {
        WhyNo::Contradiction { places, .. } => places.len(),
        WhyNo::Break { .. } => 0,
    }
}

/// Puts the lines. Of more replies than so many and one, the first are put and the last.
pub(super) fn put_why(html: &mut Markup, profile: &Profile, why: &WhyNo, most: usize) -> Done {
    let mut text = Vec::new(html.alloc());
    put_why_for(&mut text, profile, why)?;
    let lines = text.as_slice();
    let lines = lines.strip_suffix(b"\n").unwrap_or(lines);
    let replies = replies_of(why);
    if replies <= most.saturating_add(1) {
        html.put_foreign(lines);
    } else {
        put_cut(html, lines, most, replies);
    }
    Ok(())
}

/// Puts lines, of which so many are replies: of these the first, how many more there are, and the last.
pub(super) fn put_cut(html: &mut Markup, lines: &[u8], most: usize, replies: usize) {
    let mut number = 0usize;
    for line in lines.split(|byte| *byte == b'\n') {
        number = number.saturating_add(1);
        if number > most && number < replies {
            continue;
        }
        if number == replies {
            let more = replies.saturating_sub(most).saturating_sub(1);
            html.put_filled("\n... {c} more replies", &[more as u64]);
        }
        html.put_mark(if number > 1 { "\n" } else { "" });
        html.put_foreign(line);
    }
}
