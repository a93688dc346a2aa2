//! How much of a capture the page shows.

use report9::Stretch;

/// How much of a capture the page shows.
#[derive(Clone, Copy, PartialEq, Eq)]
pub(crate) enum Shown {
    /// All of it.
    Whole,
    /// What comes in a stretch of it.
    Stretch,
}

impl Shown {
    /// How much a page of this stretch shows.
    pub(crate) fn of(stretch: Stretch) -> Shown {
        if stretch == Stretch::ALL {
            Shown::Whole
        } else {
            Shown::Stretch
        }
    }

    /// What is said behind a "no" where no exchange is shown.
    pub(crate) fn exchange_missing(self) -> &'static str {
        match self {
            Shown::Whole => "exchange is complete",
            Shown::Stretch => "exchange ends in this stretch",
        }
    }

    /// What is said behind something that is missing, where it may be in another stretch.
    pub(crate) fn in_what(self) -> &'static str {
        match self {
            Shown::Whole => "",
            Shown::Stretch => " in this stretch",
        }
    }
}
