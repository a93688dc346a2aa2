//! Tests of the page (`page9`), over the judging of `show9`, by public calls alone. They stand in a crate of their own, so that `page9` is
//! proved once, and beside the judging. Nothing but tests is here.
#![tactic(auto)]

#[cfg(test)]
mod tests;
