//! Bytes of a wire that have one stamp. Their boxes stand side by side, where they can't have come: a line joins them.
ghost use Rattle.std.specs.Prelude.{◌≤◌};

use crate::around::top_of;
use crate::layout::Layout;
use crate::look::Look;
use crate::shapes::{BOX_TALL, draw_line};
use crate::spot::Spot;
use capture9::Wire;
use text9::Markup;

/// Draws the lines of both wires, and answers whether there is one.
pub(crate) fn draw_ties(svg: &mut Markup, layout: &Layout) -> bool {
    let has_commands = draw_ties_of(svg, layout, Wire::Controller);
    let has_replies = draw_ties_of(svg, layout, Wire::Deck);
    has_commands || has_replies
}

/// Draws the lines of a wire, and answers whether there is one.
fn draw_ties_of(svg: &mut Markup, layout: &Layout, wire: Wire) -> bool {
    let mut has_ties = false;
    let mut tied: Option<(Spot, Spot)> = None;
    for spot in layout.drawn.as_slice() {
        if spot.seen.record.wire != wire {
            continue;
        }
        tied = match tied {
            Some((first, last)) if spot.since(&last) == 0 => Some((first, *spot)),
            ended => {
                has_ties |= draw_tie(svg, ended);
                Some((*spot, *spot))
            }
        };
    }
    let is_last_drawn = draw_tie(svg, tied);
    has_ties || is_last_drawn
}

/// Draws a line from the first to the last of the boxes with one stamp, where these are two at least, and answers whether they are.
fn draw_tie(svg: &mut Markup, tied: Option<(Spot, Spot)>) -> bool {
    let Some((first, last)) = tied else {
        return false;
    };
    if first.seen.number == last.seen.number {
        return false;
    }
    let wire = first.seen.record.wire;
    let y = match wire {
        Wire::Controller => top_of(wire) + BOX_TALL + 3,
        Wire::Deck => top_of(wire) - 3,
    };
    draw_line(svg, (first.x, y), (last.end(), y), Look::Line);
    true
}
