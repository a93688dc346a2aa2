//! Readers and what is read of them, by hand. Which texts can be read is in `tests/program/program.sh` and `tests/cases/`.

mod readers;

use crate::tests::same;
use capture9::{
    CaptureError, CaptureKind, GREATEST_LIMIT, LineByte, MOST_ROWS, Records, ShownField, Wire,
    read_capture,
};
use readers::{Cut, Repeated};
use std::alloc::Global;
use std::io::Read;
use std::process::Abort;

/// Holds that a text is read whole, as these records.
fn read_whole<R: Read + Drop>(rt: &impl Abort, alloc: Global, reader: R, records: &[LineByte]) {
    let capture = read_capture(alloc, reader);
    same(rt, capture.fault, None, records.len());
    same(rt, capture.rows.as_slice(), records, "the records");
}

/// Holds that the reading of a text ends with this fault, after the records before its row.
fn read_until<R: Read + Drop>(rt: &impl Abort, alloc: Global, reader: R, fault: CaptureError) {
    let capture = read_capture(alloc, reader);
    same(rt, capture.fault, Some(fault), fault);
    let count = fault.row.saturating_sub(1) as usize;
    same(rt, capture.rows.len(), count, fault);
}

/// Six records: a command of the controller and the deck's reply.
const SIX: &[u8] =
    b"time_us,wire,byte\n400,C,20\n800,C,01\n1200,C,21\n1600,D,10\n2000,D,01\n2400,D,11\n";

/// The records of `SIX`.
const SIX_RECORDS: [LineByte; 6] = [
    LineByte {
        time_us: 400,
        wire: Wire::Controller,
        byte: 0x20,
    },
    LineByte {
        time_us: 800,
        wire: Wire::Controller,
        byte: 0x01,
    },
    LineByte {
        time_us: 1200,
        wire: Wire::Controller,
        byte: 0x21,
    },
    LineByte {
        time_us: 1600,
        wire: Wire::Deck,
        byte: 0x10,
    },
    LineByte {
        time_us: 2000,
        wire: Wire::Deck,
        byte: 0x01,
    },
    LineByte {
        time_us: 2400,
        wire: Wire::Deck,
        byte: 0x11,
    },
];

/// The header alone.
const HEADER: &[u8] = b"time_us,wire,byte\n";

fn from_controller(time_us: u64, byte: u8) -> LineByte {
    LineByte {
        time_us,
        wire: Wire::Controller,
        byte,
    }
}

/// A fault that is not that of one field.
fn error(kind: CaptureKind, row: u32) -> CaptureError {
    CaptureError {
        kind,
        row,
        field: None,
    }
}

#[test]
fn readers_that_fail(rt: HostRuntime) {
    // The header takes 18 bytes, the first three rows 28; the text up to `1600,D` is of 52 bytes, and all
    // of it of 76.
    for (given, row) in [
        (0, 0),
        (1, 0),
        (17, 0),
        (18, 1),
        (26, 1),
        (27, 2),
        (45, 3),
        (46, 4),
        (52, 4),
        (76, 7),
    ] {
        read_until(
            &rt,
            rt.alloc(),
            Cut::new(SIX, given),
            error(CaptureKind::Read, row),
        );
    }
}

#[test]
fn a_reader_of_single_bytes(rt: HostRuntime) {
    read_whole(&rt, rt.alloc(), Cut::new(SIX, 1000), SIX_RECORDS.as_slice());
}

#[test]
fn the_end_is_told_again(rt: HostRuntime) {
    let mut records = Records::new(rt.alloc(), SIX, MOST_ROWS);
    for record in SIX_RECORDS {
        same(&rt, records.next(), Ok(Some(record)), record.time_us);
    }
    same(&rt, records.next(), Ok(None), "the end");
    same(&rt, records.next(), Ok(None), "the end, told again");
}

#[test]
fn a_refusal_is_told_again(rt: HostRuntime) {
    let refusal = CaptureError {
        field: Some(ShownField::of(b"G1")),
        ..error(CaptureKind::Byte, 7)
    };
    let mut records = Records::new(rt.alloc(), Repeated::new(SIX, b"2800,C,G1\n", 3), MOST_ROWS);
    for record in SIX_RECORDS {
        same(&rt, records.next(), Ok(Some(record)), record.time_us);
    }
    same(&rt, records.next(), Err(refusal), "the refusal");
    same(&rt, records.next(), Err(refusal), "the refusal, told again");
}

#[test]
fn a_read_fault_is_told_again(rt: HostRuntime) {
    let refusal = error(CaptureKind::Read, 2);
    let mut records = Records::new(rt.alloc(), Cut::new(SIX, 30), MOST_ROWS);
    let record = from_controller(400, 0x20);
    same(&rt, records.next(), Ok(Some(record)), record.time_us);
    same(&rt, records.next(), Err(refusal), "the refusal");
    same(&rt, records.next(), Err(refusal), "the refusal, told again");
}

#[test]
fn as_many_records_as_there_may_be(rt: HostRuntime) {
    let record = from_controller(400, 0x20);
    for (limit, rows, given) in [
        (0, 0, 0),
        (0, u64::MAX, 0),
        (6, 6, 6),
        (6, 7, 6),
        (MOST_ROWS, 4_000_000, 4_000_000),
        (MOST_ROWS, u64::MAX, 4_000_000),
        (5_000_000, u64::MAX, 5_000_000),
        (GREATEST_LIMIT, 5_000_001, 5_000_001),
    ] {
        let after = if rows > u64::from(limit) {
            Err(error(CaptureKind::TooMany, given + 1))
        } else {
            Ok(None)
        };
        let text = Repeated::new(HEADER, b"400,C,20\n", rows);
        let mut records = Records::new(rt.alloc(), text, limit);
        for _ in 0..given {
            same(&rt, records.next(), Ok(Some(record)), rows);
        }
        same(&rt, records.next(), after, rows);
        same(&rt, records.next(), after, rows);
    }
}

/// How often a reader is asked in so many calls of `next`.
fn reads_in(alloc: Global, mut reader: Repeated<'_>, calls: u32) -> u32 {
    let mut records = Records::new(alloc, &mut reader, MOST_ROWS);
    for _ in 0..calls {
        let _ = records.next();
    }
    drop(records);
    reader.reads()
}

#[test]
fn a_call_reads_one_row_and_none_behind_the_last(rt: HostRuntime) {
    // The reader gives a row a read, and the header in two: `csv` asks for its first byte alone, which may begin a
    // byte order mark. So one read more in a call would be one CSV record more.
    let good = b"2400,C,20\n".as_slice();
    let bad = b"400,C,01\n".as_slice();
    for (head, line, times, calls, reads) in [
        (HEADER, good, 6, 0, 0),
        (HEADER, good, 6, 1, 3),
        (HEADER, good, 6, 6, 8),
        // The end is one more read, which gives no byte.
        (HEADER, good, 6, 7, 9),
        (HEADER, good, 6, 8, 9),
        (HEADER, good, 6, 20, 9),
        (HEADER, good, 0, 1, 3),
        (HEADER, good, 0, 20, 3),
        // Row 7 is below the time of row 6, which came with the head.
        (SIX, bad, 9, 6, 2),
        (SIX, bad, 9, 7, 3),
        (SIX, bad, 9, 20, 3),
        // The first record is no header.
        (good, good, 9, 1, 2),
        (good, good, 9, 20, 2),
        // The text is empty.
        (b"".as_slice(), good, 0, 1, 2),
        (b"".as_slice(), good, 0, 20, 2),
    ] {
        let asked = reads_in(rt.alloc(), Repeated::new(head, line, times), calls);
        same(&rt, asked, reads, (calls, times));
    }
}

#[test]
fn four_million_rows_and_one_more_are_read(rt: HostRuntime) {
    // Two reads for the header, and one a row; of a text of 4,000,000 rows the last one gives no byte.
    for (rows, calls, reads) in [
        (4_000_000, 4_000_001, 4_000_003),
        (u64::MAX, 4_000_000, 4_000_002),
        (u64::MAX, 4_000_001, 4_000_003),
        (u64::MAX, 4_000_020, 4_000_003),
    ] {
        let reader = Repeated::new(HEADER, b"400,C,20\n", rows);
        same(&rt, reads_in(rt.alloc(), reader, calls), reads, calls);
    }
}

/// Writes the row at which memory was refused, or `whole` where it was not: `tests/program/growths.sh` reads it.
fn tell(rt: &HostRuntime, refused: Option<CaptureError>) {
    let _ = match refused {
        Some(refused) => println!(rt; "refused at row {}", refused.row),
        None => println!(rt; "whole"),
    };
}

/// A out of memory, if it is one.
fn refused(fault: Option<CaptureError>) -> Option<CaptureError> {
    fault.filter(|fault| fault.kind == CaptureKind::OutOfMemory)
}

#[test]
fn a_growth_refused_while_csv_reads(rt: HostRuntime) {
    // Row 1 is longer than the header, so that `csv` asks for more room at each. It is no record.
    let text =
        b"time_us,wire,byte\n1234567890123456789012345678901234567890123456789012345678901234567890\n";
    let mut records = Records::new(rt.alloc(), text.as_slice(), MOST_ROWS);
    let first = records.next();
    let memory = refused(first.err());
    if memory.is_none() {
        same(&rt, first, Err(error(CaptureKind::Fields, 1)), "row 1");
    }
    same(&rt, records.next(), first, "row 1, told again");
    tell(&rt, memory);
}

#[test]
fn a_growth_refused_while_a_record_is_kept(rt: HostRuntime) {
    let capture = read_capture(rt.alloc(), b"time_us,wire,byte\n400,C,20\n".as_slice());
    let memory = refused(capture.fault);
    if memory.is_none() {
        same(&rt, capture.fault, None, "no growth refused");
    }
    let record = [from_controller(400, 0x20)];
    let kept = if memory.is_none() {
        record.as_slice()
    } else {
        &[]
    };
    same(&rt, capture.rows.as_slice(), kept, memory);
    tell(&rt, memory);
}

#[test]
fn errors_in_words(rt: HostRuntime) {
    for (kind, row, text) in [
        (
            CaptureKind::Header,
            0,
            "the header is not time_us,wire,byte",
        ),
        (
            CaptureKind::Wire,
            12,
            "the wire of row 12 is neither C nor D",
        ),
        (CaptureKind::Read, 0, "the reader failed at row 0"),
    ] {
        let words = error(kind, row).to_string(rt.alloc());
        let is_text = words.is_ok_and(|words| words.as_str() == text);
        same(&rt, is_text, true, kind);
    }
}

#[test]
fn a_default_record_is_zero(rt: HostRuntime) {
    same(&rt, LineByte::default(), from_controller(0, 0), "a default");
}
