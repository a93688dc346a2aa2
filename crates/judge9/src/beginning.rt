//! Where the judging of a capture begins, and where its next part does after a break.
ghost use Rattle.judge9.specs.Working.Beginnings.{PassesOver};

use block9::may_begin;
use capture9::{LineByte, Records};
use report9::JudgeError;
use std::io::Read;

/// Passes over the records after `last` that can't begin a command, up to the first that may, and gives that, or none where there
/// is none. With no `last` the first record of the capture comes next. Errors are those of the rows.
pub(crate) fn pass_over<R: Read + Drop>(
    rows: &mut Records<R>,
    last: Option<LineByte>,
) -> Result<Option<LineByte>, JudgeError>
    ensures { PassesOver rows.old last result rows.new }
{
    let mut last = last;
    'passed: loop {
        let Some(next) = rows.next()? else {
            return Ok(None);
        };
        if may_begin(last, next) {
            return Ok(Some(next));
        }
        last = Some(next);
    }
}
