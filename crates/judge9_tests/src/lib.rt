//! Tests of what `judge9` answers and writes, of the texts of `report9`, and of the runs that the one hands out and `is_run` of
//! `deck9` checks, by their public calls alone.
//!
//! They stand in a crate of their own, so that judging is proved, and its must-fail edits are tried, without waiting
//! for them. Nothing but tests is here.
#![tactic(auto)]

#[cfg(test)]
mod tests;
