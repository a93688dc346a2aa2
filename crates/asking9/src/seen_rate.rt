//! Which frame rates the capture itself tells.

use capture9::Records;
use info9::{Fitting, Seeming, Signs};
use program9::text_again;
use report9::Beginning;
use std::alloc::Global;
use std::io::Read;
use tc25::Rate;

/// So many records are looked at for signs: enough for all that bear on the answers, and quickly read.
const MOST_LOOKED_AT: u32 = 200_000;

/// What the first records of a capture show, where times are read at this rate.
pub fn signs_of<R: Read + Drop>(
    alloc: Global,
    text: &[u8],
    beginning: Beginning,
    rate: Rate,
) -> Signs {
    let mut signs = Signs::new(rate, beginning);
    let mut records = Records::new(alloc, text_again::<R>(text), MOST_LOOKED_AT);
    for _ in 0..MOST_LOOKED_AT {
        match records.next() {
            Ok(Some(record)) => signs.take(&record),
            _ => break,
        }
    }
    drop(records);
    signs
}

/// The rates that fit in place of this one; none where nothing in the capture speaks against it.
pub(crate) fn fitting_instead<R: Read + Drop>(
    alloc: Global,
    text: &[u8],
    beginning: Beginning,
    rate: Rate,
) -> Option<Fitting> {
    let signs = signs_of::<R>(alloc, text, beginning, rate);
    for sign in signs.signs() {
        if let Some(sign) = sign {
            if let Seeming::WrongRate { fits, .. } = sign.what {
                return Some(fits);
            }
        }
    }
    None
}
