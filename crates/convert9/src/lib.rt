//! From an export of both wires to a capture, and from a long capture to parts: what is written can be read.
//!
//! An export is read line by line. Its bytes are kept until it was read whole, so that a refused export leaves no part of a capture
//! behind; only a log that is converted while it grows is written line by line. All captures are written by `CaptureWriter`, which
//! takes no record that a capture can't have.
#![tactic(auto)]

mod digits;
mod fault;
mod kept;
pub mod laws;
mod lines;
mod log;
mod range;
mod saleae;
mod seconds;
mod sigrok;
mod split;
mod write;

pub use fault::{ConvertFault, Refusal, Wrong};
pub use log::{LogWords, Notice, convert_log};
pub use saleae::{SaleaeWords, convert_saleae};
pub use sigrok::{SigrokWords, convert_sigrok};
pub use split::{Split, SplitFault, SplitWords, part_name, split_capture};
pub use write::{CaptureWriter, RowFault, write_capture};
