//! Lists of records: the block that they begin, and the time at which they end.
ghost use Rattle.std.specs.Prelude.{◌≡◌};
ghost use Rattle.block9.specs.Line.{block_len, last_time};

use capture9::LineByte;

/// How many records the block has that begins with these: 0 where there is none.
pub(crate) fn block_len(records: &[LineByte]) -> usize
    ensures { result ≡ block_len records.now }
{
    match records.first() {
        Some(first) => usize::from(first.byte % 16) + 3,
        None => 0,
    }
}

/// The time of the last record, and 0 where there is none.
pub(crate) fn last_time(records: &[LineByte]) -> u64
    ensures { result ≡ last_time records.now }
{
    match records.last() {
        Some(last) => last.time_us,
        None => 0,
    }
}
