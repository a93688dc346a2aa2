//! What the drawing of a break comes to.

use crate::seen::Ending;

/// Why there is nothing to draw.
#[derive(Clone, Copy, PartialEq, Eq)]
pub enum WhyNothing {
    /// The verdict is a yes.
    Yes,
    /// No part breaks.
    NoPartBreaks,
    /// There is no break at this record.
    NoBreakAt(u32),
}

/// What the drawing of a break comes to.
#[derive(Clone, Copy, PartialEq, Eq)]
pub enum Drawn {
    /// The picture was written. The judging ended so.
    Picture(Ending),
    /// There is nothing to draw, and nothing was written.
    Nothing(WhyNothing),
}
