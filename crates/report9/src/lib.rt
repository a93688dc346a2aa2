//! What a judging answers, and how it is told.
//!
//! An answer is a verdict, alone, with a run of the deck or with why it is a no; or why there is none. The crate `judge9` finds
//! them. What is told of them stands here, whoever found them: the line that explains an exchange, the line of a verdict and
//! that of the totals over all parts of a capture, the text of a run, and the text of why a verdict is a no.
//!
//! A call that begins with `put_` puts text to the end of a buffer. It ends with an error where the buffer has no room and gets
//! none; a part of what it puts may be there then. A call that begins with `write_` writes to a writer. It ends with an error
//! where the writer fails, is interrupted or takes no byte; the writer then has a first part of the bytes, and no call is tried
//! again. Which words a report has is a choice of these rules.
#![tactic(auto)]

mod at_25;
mod buffer;
mod detail;
mod error;
mod exchange_bytes;
mod explanation;
mod pieces;
mod row;
mod run_text;
mod run_verdict;
mod stretch;
mod time_form;
mod totals;
mod verdict;
mod verdict_line;
mod why_no;
mod why_text;
mod writing;

pub use at_25::write_run;
pub use buffer::TextBuffer;
pub use detail::Detail;
pub use error::JudgeError;
pub use exchange_bytes::block_bytes::put_block;
pub use exchange_bytes::modes::put_modes;
pub use exchange_bytes::said::status_in;
pub use exchange_bytes::{
    put_command_sent, put_exchange, put_exchange_records, put_records, put_reply_sent, put_words,
    time_told,
};
pub use explanation::asked::{put_command, put_head, put_nak, put_reply};
pub use explanation::known::{put_fields_for, put_knowledge};
pub use explanation::put_exchange_line_for;
pub use pieces::{put_count, put_hex, put_text, put_wide, put_word};
pub use row::{put_chosen, put_in_row};
pub use run_text::{known_state, write_run_for};
pub use run_verdict::RunVerdict;
pub use stretch::Stretch;
pub use time_form::TimeForm;
pub use totals::{Totals, put_totals_line};
pub use verdict::{Beginning, Extent, Scope, Verdict, View};
pub use verdict_line::{put_no_line, put_verdict_line, put_yes_line};
pub use why_no::{EndedExchange, WhyNo};
pub use why_text::break_lines::{end_before, put_bytes, still_wanted};
pub use why_text::put_why_for;
pub use writing::{WriteFault, write_all, write_some};
