//! Tests of the states that `track9` keeps, by its public calls and those of `deck9` alone.
//!
//! They stand in a crate of their own, so that the machine is proved, and its must-fail edits are tried, without
//! waiting for them. Nothing but tests is here.
#![tactic(auto)]

#[cfg(test)]
mod tests;
