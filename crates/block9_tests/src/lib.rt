//! Tests of times (`tc25`) and sets of them (`sets25`), of rows (`capture9`), and of blocks and their pairing (`block9`), by
//! their public calls alone: those that need a reader of their own, compare two implementations, or make a call that no command
//! line reaches. What the built program can show is in `tests/cases/`.
//!
//! They stand in a crate of their own, so that each of the four is proved once, and its must-fail edits are tried, without
//! waiting for them. Nothing but tests is here.
#![tactic(auto)]

#[cfg(test)]
mod tests;
