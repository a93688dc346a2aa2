//! One captured byte of the line.

/// The wire that a byte was captured on.
#[derive(Clone, Copy, Default, PartialEq, Eq)]
pub enum Wire {
    /// From the controller to the deck.
    #[default]
    Controller,
    /// From the deck to the controller.
    Deck,
}

/// One captured byte, with its time and wire: a data row of a capture.
#[derive(Clone, Copy, Default, PartialEq, Eq)]
pub struct LineByte {
    /// When the byte was captured, in microseconds from a start of the tap's choice. Below 10^15 in a
    /// record that was read.
    pub time_us: u64,
    /// The wire that it was captured on.
    pub wire: Wire,
    /// The byte.
    pub byte: u8,
}
