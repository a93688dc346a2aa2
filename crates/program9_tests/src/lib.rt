//! Tests of the program from its words to its end (`program9`), and of its words (`words9`), by their public calls alone.
//!
//! They stand in a crate of their own, so that both are proved once, and their must-fail edits are tried, without waiting for
//! them. Nothing but tests is here.
#![tactic(auto)]

#[cfg(test)]
mod tests;
