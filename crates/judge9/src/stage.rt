//! Where a judging stands between two events.

use crate::event::Break;

/// Where a judging stands between two events.
#[derive(Clone, Copy, PartialEq, Eq)]
pub enum Stage {
    /// Nothing was judged yet.
    Fresh,
    /// A part goes on.
    Going,
    /// This record begins a late reply, which was told, and breaks the part, which is told next.
    LateTold(Break),
    /// A part broke.
    Broken(Break),
    /// The rows came to their end.
    Ended,
}
