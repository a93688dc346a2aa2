//! Small captures and their pages, with values by hand.
mod page;
