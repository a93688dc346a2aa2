//! The words of the program's command line: which subcommands and options there are, and the task that the words give.
//!
//! Whatever is done with a capture, the words say what its deck is taken for: at which frame rate its times are counted, and
//! whether somebody may have touched its panel.
//!
//! `clap` reads the words. They stand in a crate of their own, so that what `clap` costs to prove is paid beside
//! judging and not after it.
#![tactic(auto)]

mod arguments;
mod hint;
mod stretch;
mod task;
mod times;
mod usage;
mod verbs;
mod words;

pub use hint::hint_for;
pub use task::{
    Asked, Drawing, Export, ExportWords, Made, NoValue, Report, Task, Unfit, VERSION_LINE, Verb,
    WordsFault,
};
pub use words::read_words;
