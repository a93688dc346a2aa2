//! Why a record breaks a rule: what is open where it is one of blocks, pairing or timing, and which replies contradict one another
//! where no run of the deck remains.
ghost use Rattle.std.specs.Prelude.{◌≡◌, ◌≢◌, ◌⊎◌, ◌++◌, ◌∷◌, [], IfOk, List, Some};
ghost use Rattle.block9.specs.Exchange.{BeginsLate};
ghost use Rattle.block9.specs.declared.exchange.Exchange.{Exchange as AnExchange};
ghost use Rattle.capture9.specs.declared.line_byte.LineByte.{LineByte as ALineByte};
ghost use Rattle.judge9.specs.Standing.{ShowsExchange};
ghost use Rattle.judge9.specs.Why.{SaysLate};
ghost use Rattle.judge9.specs.Keeping.{IsEnd};
ghost use Rattle.judge9.specs.Working.Telling.{SaysNoRun, SaysWhy};
ghost use Rattle.report9.specs.OpenRecords.{IsBefore};
ghost use Rattle.why9.specs.Contradiction.{BreaksAtLast};

use crate::event::Break;
use crate::judging::Judging;
use crate::kept::Kept;
use block9::{Exchange, Open, Reason};
use capture9::LineByte;
use deck9::Profile;
use report9::{EndedExchange, WhyNo};
use std::alloc::{AllocError, Global};
use std::io::Read;
use why9::{contradicting_for, could_show_for};

/// Why the record that a judging read last breaks a rule, after the exchanges of its part that were kept. An error comes where
/// memory is refused.
pub(crate) fn why_of<R: Read + Drop>(
    alloc: Global,
    judging: &Judging<R>,
    kept: Kept,
    broken: Break,
) -> Result<WhyNo, AllocError>
    requires { broken.reason ≡ Reason.NoRun → (e : AnExchange) × (judging.now.feed.follower.pairer.exchange ≡ Some e) × BreaksAtLast judging.now.profile.now (kept.exchanges.items ++ e ∷ []) }
    ensures { IfOk result (SaysWhy judging.now.profile.now judging.now.feed.rows.given broken judging.now.feed.follower.pairer kept.exchanges.items kept.end_us) }
{
    match broken.reason {
        Reason::NoRun => {
            let last = judging.feed.follower.exchange();
            why_no_run(alloc, judging.profile, judging.at(), kept.exchanges, last)
        }
        _ => why_broken(alloc, judging, kept, broken),
    }
}

/// Why the record that a judging read last breaks a rule of blocks, pairing or timing, after these exchanges. An error comes where
/// memory is refused.
fn why_broken<R: Read + Drop>(
    alloc: Global,
    judging: &Judging<R>,
    kept: Kept,
    broken: Break,
) -> Result<WhyNo, AllocError>
    requires { broken.reason ≢ Reason.NoRun }
    ensures { IfOk result (SaysWhy judging.now.profile.now judging.now.feed.rows.given broken judging.now.feed.follower.pairer kept.exchanges.items kept.end_us) }
{
    let tail = copy_of(alloc, judging.tail())?;
    let before = ended_before(kept, tail.as_slice());
    Ok(WhyNo::Break {
        at: judging.at(),
        reason: broken.reason,
        tail,
        open: judging.open(),
        before,
        breaking: broken.record,
    })
}

/// Why a reply is late that begins with this record, which a judging read last: the records of its command are open. An error comes
/// where memory is refused.
pub(crate) fn why_late<R: Read + Drop>(
    alloc: Global,
    judging: &Judging<R>,
    first: LineByte,
) -> Result<WhyNo, AllocError>
    ensures { (asked : List ALineByte) → BeginsLate judging.now.feed.follower.pairer.rules asked first
        → (judging.now.feed.follower.pairer.tail ≡ asked) ⊎ (judging.now.feed.follower.pairer.tail ≡ asked ++ first ∷ [])
        → IfOk result (SaysLate judging.now.feed.follower.pairer.rules judging.now.feed.rows.given asked first) }
{
    let open = judging.open();
    let tail = copy_of(alloc, &judging.tail()[..open.asked])?;
    Ok(WhyNo::Break {
        at: judging.at(),
        reason: Reason::LateReply,
        tail,
        open: Open {
            command: open.command,
            asked: open.asked,
            answered: 0,
            wanted: 0,
            sum: 0,
        },
        before: None,
        breaking: first,
    })
}

/// Why no run remains with this exchange after the others, which ends with the record of this number: which replies contradict one
/// another, and what the deck could show. An error comes where memory is refused.
fn why_no_run(
    alloc: Global,
    profile: &Profile,
    at: u32,
    before: Vec<Exchange>,
    last: &Exchange,
) -> Result<WhyNo, AllocError>
    requires { BreaksAtLast profile.now (before.items ++ last.now ∷ []) }
    ensures { IfOk result (SaysNoRun profile.now at (before.items ++ last.now ∷ [])) }
{
    let mut exchanges = before;
    exchanges.push(last.copy())?;
    let places = contradicting_for(alloc, profile, &exchanges)?;
    let (known, shown) = could_show_for(alloc, profile, &exchanges)?;
    Ok(WhyNo::Contradiction {
        at,
        exchanges,
        places,
        known,
        shown,
    })
}

/// These records, in memory of their own.
fn copy_of(alloc: Global, records: &[LineByte]) -> Result<Vec<LineByte>, AllocError>
    ensures { IfOk result (λ copy. copy.items ≡ records.now) }
{
    let mut copy = Vec::new(alloc);
    copy.extend_from_slice(records)?;
    Ok(copy)
}

/// The last of the exchanges that were kept, with the time at which it ended, where no record is open after it.
fn ended_before(kept: Kept, tail: &[LineByte]) -> Option<EndedExchange>
    ensures { (records : List ALineByte) → (tail.now ≡ [] → IsEnd records kept.exchanges.items kept.end_us) → IsBefore records kept.exchanges.items tail.now result }
{
    let mut exchanges = kept.exchanges;
    let last = exchanges.pop();
    drop(exchanges);
    match (last, kept.end_us) {
        (Some(exchange), Some(end_us)) if tail.is_empty() => Some(EndedExchange {
            exchange,
            end_us,
        }),
        _ => None,
    }
}
