//! The line that explains an exchange, put to the end of a buffer.
pub(crate) mod asked;
pub(crate) mod by_itself;
pub(crate) mod known;

ghost use Rattle.std.specs.Prelude.{◌≡◌, ◌++◌, OnOk, codes};
ghost use Rattle.std.specs.Fmt.{decimal};
ghost use Rattle.report9.specs.Explanation.{line_of_exchange, text_in, text_of_command, text_of_reply};

use crate::detail::Detail;
use crate::exchange_bytes::put_exchange;
use crate::pieces::{put_count, put_text};
use asked::{put_command, put_reply};
use block9::Exchange;
use by_itself::put_going;
use deck9::{Going, Knowledge, Profile};
use known::put_knowledge;
use std::alloc::AllocError;

/// Puts the line of an exchange to the end of the buffer: what was asked, what was answered and after how long, what is known of the
/// deck after it, and what the deck may do by itself from then on. `at` is the number of the reply's last record, counted from 1.
///
/// The panel is told where hands are allowed. An error comes where the buffer has to grow and is refused; then a
/// part of the line may be there.
pub fn put_exchange_line_for(
    line: &mut Vec<u8>,
    detail: Detail,
    profile: &Profile,
    at: u32,
    exchange: &Exchange,
    knowledge: &Knowledge,
    going: Going,
) -> Result<(), AllocError>
    ensures { OnOk result (line.new.items ≡ line.old.items
        ++ line_of_exchange detail profile.now at exchange.now knowledge.now going) }
{
    put_in(line, detail, profile, at, exchange)?;
    put_count(line, ", delay ", exchange.delay_us)?;
    put_knowledge(line, ", ", profile, knowledge)?;
    put_going(line, going)?;
    put_text(line, "\n")
}

/// Puts an exchange by its names, or with its bytes.
#[tactic(auto, unfolding(crate::specs::Explanation::text_in))]
fn put_in(
    line: &mut Vec<u8>,
    detail: Detail,
    profile: &Profile,
    at: u32,
    exchange: &Exchange,
) -> Result<(), AllocError>
    ensures { OnOk result (line.new.items ≡ line.old.items ++ text_in detail profile.now at exchange.now) }
{
    match detail {
        Detail::Names => put_names(line, profile, at, exchange),
        Detail::Bytes => put_exchange(line, profile, u128::from(at), exchange),
    }
}

/// Puts an exchange by its names.
fn put_names(
    line: &mut Vec<u8>,
    profile: &Profile,
    at: u32,
    exchange: &Exchange,
) -> Result<(), AllocError>
    ensures { OnOk result (line.new.items ≡ line.old.items ++ ((codes "record " ++ decimal at)
        ++ (codes ": " ++ text_of_command profile.now exchange.now) ++ (codes " -> " ++ text_of_reply exchange.now.reply))) }
{
    put_count(line, "record ", u64::from(at))?;
    put_command(line, ": ", profile, exchange)?;
    put_reply(line, " -> ", &exchange.reply)
}
