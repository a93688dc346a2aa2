//! Judges a capture as it is read, and writes the report of it.
ghost use Rattle.std.specs.Prelude.{◌≡◌, ◌≢◌, [], IfSome, option_map, Err, None};
ghost use Rattle.capture9.specs.Fields.{greatest_limit};
ghost use Rattle.capture9.specs.Rows.{HasHeader, rows_of, rows_within};
ghost use Rattle.judge9.specs.History.{nothing_told};
ghost use Rattle.judge9.specs.Judging.{Answers};
ghost use Rattle.judge9.specs.Report.{Told, by_totals, by_verdict};
ghost use Rattle.judge9.specs.Standing.{CanGoOn, Stands};
ghost use Rattle.judge9.specs.Working.Reporting.{IsAllTold, Judged};
ghost use Rattle.report9.specs.declared.verdict.Extent.TheVariants as AnExtent;

use crate::event::Event;
use crate::judging::Judging;
use crate::telling::Telling;
use capture9::{CaptureError, CaptureKind};
use deck9::Profile;
use report9::{
    Beginning, Extent, JudgeError, Scope, Totals, Verdict, View, put_totals_line, put_verdict_line,
    write_all,
};
use std::alloc::Global;
use std::io::{Read, Write};

/// Judges the capture that the reader gives up to its first break, and writes the report that the view asks for.
///
/// It reads row by row, up to the end, the first bad row or the first record that breaks a rule. With `View::Verdict` and
/// `View::Explain(_)` it keeps no list of records; with `View::Why` it keeps all exchanges. With `View::Explain(_)` each exchange has a
/// line, written in one piece once the exchange is complete; with `View::Why` it is told why a record breaks a rule: what is open, or
/// which replies contradict one another. The line of the verdict is written last. The writer is not flushed.
///
/// With `Beginning::FirstCommand` judging begins at the first record that may begin a command: one on the controller's wire that
/// comes after a record of the deck or after the byte gap; record 1 never is one. The records before it are passed over. Below,
/// "records" are those that are judged; n is the record's number in the whole capture. That is a choice of these rules.
///
/// The profile says what the deck is taken for: its rate, whether somebody may have touched its panel, and what it does of its own.
///
/// Where the reader tells its bytes, they are the text, and the result is the one that is right for it:
///
/// * `Ok(Yes)` exactly where no row of the text is bad, all its records keep the rules of blocks, pairing and timing,
///   and some run of the deck gives exactly the replies of its exchanges. It counts the records, the complete exchanges
///   that they are cut into, and the open records after the last of these.
/// * `Ok(No)` at record n with reason r exactly where the records before it do so, and with it do not, and r is the
///   first rule, in the order in which they count, that record n breaks. Rows after it have no part in this, not even
///   bad ones.
/// * `Err(Capture(e))` with a fault of the text exactly where e is the fault of its first bad row, or of the
///   header, and all records before that row do so.
///
/// The other results come where something outside the text fails:
///
/// * `Err(Capture(e))` of the kind `Read` where the reader fails or is interrupted, while it reads data row
///   `e.row`, or the header at 0. All records before that row keep the rules, and after row 0 the text has
///   its header.
/// * `Err(Write)` where the writer fails, is interrupted or takes no byte. No call is tried again.
/// * `Err(OutOfMemory)` where a growth of memory is refused, for a row, for the deck's states or for a text. That is
///   never told as a `Capture`.
///
/// No contract can say that reader, writer and memory do not fail: that these three come only then is tested.
///
/// What was written is, with a verdict, what the view shows of all exchanges before the end or the break, and the line of the
/// verdict. On `Err(Capture)` it is what it shows of all exchanges before the row. On `Err(OutOfMemory)` it is what it shows of
/// the first exchanges, and on `Err(Write)` a first part of these, or of a whole report.
///
/// Where the reader does not tell its bytes, as standard input and files do not, all this still holds of the rows of some
/// text, and:
///
/// * A yes has counts that a capture can have: at most 4,000,000 records, of which a complete exchange has 6 to 36
///   and the open tail at most 35.
/// * A no is at record 1 to 4,000,000.
/// * A fault of the text is at row 0 exactly where it is the header's, at row 4,000,001 exactly where that is a
///   row too many, and else between; a read fault is at row 4,000,001 at most. No `Capture` has the kind
///   `OutOfMemory`.
#[inline(never)] // else its loop is compiled with what else a program does with a capture in one function, and worse
pub fn judge_for<R: Read + Drop, W: Write>(
    alloc: Global,
    reader: R,
    writer: &mut W,
    view: View,
    beginning: Beginning,
    profile: &Profile,
) -> Result<Verdict, JudgeError>
    ensures answers { Answers beginning profile.now (R.remaining reader) result }
    ensures told { Told view (record { extent = AnExtent.FirstBreak; beginning = beginning }) profile.now (option_map rows_of (R.remaining reader)) (by_verdict result)
        (W.contents writer.old) (W.contents writer.new) }
{
    let scope = Scope {
        extent: Extent::FirstBreak,
        beginning,
    };
    let mut judging = Judging::new(alloc, reader, scope, profile)?;
    let mut telling = Telling::new(alloc, view, profile);
    let verdict = tell_verdict(&mut judging, &mut telling, writer);
    drop(telling);
    drop(judging);
    verdict
}

/// Judges the capture that the reader gives, part by part, and writes what the view asks for.
///
/// Each part is judged as [`judge_for`] judges a capture: nothing is known of the deck where it begins. A late reply
/// breaks a rule and ends no part: it is told at its first record, and judged as if it had come in time. The part ends with the
/// first record that breaks another rule, and the next part begins with the first record that may begin a command: with the one
/// that breaks, where it comes on the controller's wire and a reply is missing or unfinished, or the block before
/// it did not end; else after it, with the first on the controller's wire that comes after a record of the deck's wire or after
/// the byte gap. Where there is none, the rest is passed over. That is a choice of these rules. With `Beginning::FirstCommand` the
/// first part begins as `judge_for` does then; the records before it count as passed over. A capture may have 4,294,967,294 rows.
///
/// For each part it writes what `judge_for` writes for a capture that breaks there, with the numbers that the records have in the
/// whole capture, and where a late reply begins what that writes of this break; for a part that does not break what stands before a
/// break; and the line of the totals last. It keeps no list of records or parts, and the exchanges of a part only to say why it
/// breaks. The writer is not flushed.
///
/// `Ok(totals)` comes exactly where no row of the text is bad: no break ends the reading. Errors come as with `judge_for`, and the
/// line of the totals is then missing:
///
/// * `Err(Capture(e))` with a fault of the text exactly where e is the fault of its first bad row, or of the header; of the kind
///   `Read` where the reader fails or is interrupted at row `e.row`. What was written tells all records before that row.
/// * `Err(Write)` where the writer fails, is interrupted or takes no byte. No call is tried again, and what was written is a
///   first part of the report.
/// * `Err(OutOfMemory)` where a growth of memory is refused: what was written tells the first of the records.
pub fn judge_parts_for<R: Read + Drop, W: Write>(
    alloc: Global,
    reader: R,
    writer: &mut W,
    view: View,
    beginning: Beginning,
    profile: &Profile,
) -> Result<Totals, JudgeError>
    ensures told { Told view (record { extent = AnExtent.WholeCapture; beginning = beginning }) profile.now (option_map (rows_within greatest_limit) (R.remaining reader)) (by_totals result)
        (W.contents writer.old) (W.contents writer.new) }
    ensures kind { (e : CaptureError) → result ≡ Err (JudgeError.Capture e)
        → e.kind ≢ CaptureKind.OutOfMemory }
    ensures header { IfSome (R.remaining reader) (λ text. (e : CaptureError)
        → result ≡ Err (JudgeError.Capture e) → e.row ≢ 0 → HasHeader (rows_within greatest_limit text)) }
{
    let scope = Scope {
        extent: Extent::WholeCapture,
        beginning,
    };
    let mut judging = Judging::new(alloc, reader, scope, profile)?;
    let mut telling = Telling::new(alloc, view, profile);
    let totals = tell_totals(&mut judging, &mut telling, writer);
    drop(telling);
    drop(judging);
    totals
}

/// Tells of all events of a judging, one after another, up to the end. This is the one loop that writes a report.
#[inline(always)] // so that the loop is made for what each caller tells
fn tell_all<'a, R: Read + Drop, W: Write>(
    judging: &mut Judging<'a, R>,
    telling: &mut Telling<'a>,
    writer: &mut W,
) -> Result<(), JudgeError>
    requires stands { Stands judging.old.scope judging.old.profile.now judging.old.feed.rows.rows nothing_told judging.old }
    requires ready { CanGoOn judging.old.stage judging.old.feed }
    requires same { telling.old.profile.now ≡ judging.old.profile.now }
    requires none_kept { (telling.old.kept.exchanges.items ≡ []) × (telling.old.kept.end_us ≡ None) }
    ensures { IsAllTold telling.old.view judging.old.scope judging.old.profile.now judging.old.feed.rows.rows result judging.new (W.contents writer.old) (W.contents writer.new) }
{
    'events: loop {
        match judging.next()? {
            Event::End => return Ok(()),
            event => {
                if !telling.is_silent(event) {
                    telling.tell(judging, event, writer)?;
                }
            }
        }
    }
}

/// Tells of all events up to the first break, and then the verdict.
fn tell_verdict<'a, R: Read + Drop, W: Write>(
    judging: &mut Judging<'a, R>,
    telling: &mut Telling<'a>,
    writer: &mut W,
) -> Result<Verdict, JudgeError>
    requires first { judging.old.scope.extent ≡ AnExtent.FirstBreak }
    requires stands { Stands judging.old.scope judging.old.profile.now judging.old.feed.rows.rows nothing_told judging.old }
    requires ready { CanGoOn judging.old.stage judging.old.feed }
    requires same { telling.old.profile.now ≡ judging.old.profile.now }
    requires none_kept { (telling.old.kept.exchanges.items ≡ []) × (telling.old.kept.end_us ≡ None) }
    ensures { Judged telling.old.view judging.old.scope judging.old.profile.now judging.old.feed.rows.rows (by_verdict result) (W.contents writer.old) (W.contents writer.new) }
{
    tell_all(judging, telling, writer)?;
    let verdict = judging.verdict();
    if let Verdict::Yes { .. } = verdict {
        telling.line.clear();
        put_verdict_line(&mut telling.line, verdict)?;
        write_all(writer, telling.line.as_slice())?;
    }
    Ok(verdict)
}

/// Tells of all events, and then the totals.
fn tell_totals<'a, R: Read + Drop, W: Write>(
    judging: &mut Judging<'a, R>,
    telling: &mut Telling<'a>,
    writer: &mut W,
) -> Result<Totals, JudgeError>
    requires whole { judging.old.scope.extent ≡ AnExtent.WholeCapture }
    requires stands { Stands judging.old.scope judging.old.profile.now judging.old.feed.rows.rows nothing_told judging.old }
    requires ready { CanGoOn judging.old.stage judging.old.feed }
    requires same { telling.old.profile.now ≡ judging.old.profile.now }
    requires none_kept { (telling.old.kept.exchanges.items ≡ []) × (telling.old.kept.end_us ≡ None) }
    ensures { Judged telling.old.view judging.old.scope judging.old.profile.now judging.old.feed.rows.rows (by_totals result) (W.contents writer.old) (W.contents writer.new) }
{
    tell_all(judging, telling, writer)?;
    let totals = judging.totals();
    telling.line.clear();
    put_totals_line(&mut telling.line, &totals)?;
    write_all(writer, telling.line.as_slice())?;
    Ok(totals)
}
