//! Tests of what reads a text without judging it, by its public calls alone: deck sheets (`sheet9`), converters (`convert9`), and what a
//! capture says of itself (`info9`).
//!
//! They stand in a crate of their own, so that each of the three is proved once, and its must-fail edits are tried, without waiting
//! for them. Nothing but tests is here.
#![tactic(auto)]

#[cfg(test)]
mod tests;
