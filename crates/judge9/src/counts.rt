//! What is counted of the events of a judging.

/// What was counted of the events so far.
#[derive(Clone, Copy, PartialEq, Eq)]
pub struct Counts {
    /// How many breaks and late replies there were.
    pub breaks: u64,
    /// How many exchanges.
    pub exchanges: u32,
    /// How many records these exchanges have.
    pub records: u32,
}
