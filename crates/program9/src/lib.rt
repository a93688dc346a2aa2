//! The program from the words of the command line to its end, without the files and without the views: what opens a capture is handed
//! in, and so are the writer of the report and the [`Maker`] of all that is no report. `ninecheck` hands in those of the machine.
#![tactic(auto)]

mod again;
mod buffered;
mod ending;
mod first_bytes;
mod held;
mod judging;
pub mod laws;
mod maker;
mod message;
mod next;
mod no_header;
mod program;
mod sheet;
mod shipped;
mod status;
mod version;
mod want;

pub use again::{Again, Cut, Followed, Keeping, read_whole, text_again};
pub use buffered::Buffered;
pub use ending::{
    BadRow, End, FileRow, Message, Notice, Outcome, RefusedExport, Refuser, Unopened, UnreadSheet,
    WhyUnopened,
};
pub use judging::{Job, Named, ended, judge_and_flush, verdict_of};
pub use maker::{AskedWith, Broken, Maker, Told};
pub use message::word_of;
pub use next::is_worth_asking;
pub use no_header::{FoundHeader, LooksLike, NoHeader};
pub use program::run_program;
pub use shipped::shipped_sheet;
pub use status::{outcome, outcome_in_parts, outcome_refused};
pub use want::Kept;
