//! How the times of a text are written.

/// How the times of a text are written.
#[derive(Clone, Copy, PartialEq, Eq)]
pub enum TimeForm {
    /// As a clock, whose hours go on past 23.
    Clock,
    /// In seconds.
    Seconds,
}
