//! Times of day: their bytes and their frames, by hand. What else a line of the program shows of them is in `tests/cases/`.

use crate::tests::same;
use tc25::{Rate, TimeCode};

#[test]
fn bytes_and_frames(rt: HostRuntime) {
    let rows = [
        (0, [0x00, 0x00, 0x00, 0x00]),
        (93_079, [0x04, 0x03, 0x02, 0x01]),
        (900_000, [0x00, 0x00, 0x00, 0x10]),
        (2_159_999, [0x24, 0x59, 0x59, 0x23]),
    ];
    for (frames, bytes) in rows {
        let written = TimeCode::from_frames(frames).map(|t| t.to_bytes());
        same(&rt, written, Some(bytes), frames);
        let read = TimeCode::from_bytes(bytes).map(|t| t.frames());
        same(&rt, read, Some(frames), bytes);
    }
    same(&rt, TimeCode::from_frames(2_160_000), None, "midnight");
    same(&rt, TimeCode::default().frames(), 0, "the default");
}

/// A rate, the bytes of a time of its day, the frame that they read as, and its text.
type Row<'a> = (Rate, [u8; 4], u32, &'a str);

const ROWS: [Row; 16] = [
    (Rate::Fps24, [0x23, 0x59, 0x00, 0x00], 1_439, "00:00:59:23"),
    (Rate::Fps24, [0x00, 0x00, 0x00, 0x01], 86_400, "01:00:00:00"),
    (
        Rate::Fps24,
        [0x23, 0x59, 0x59, 0x23],
        2_073_599,
        "23:59:59:23",
    ),
    (Rate::Fps25, [0x24, 0x59, 0x00, 0x00], 1_499, "00:00:59:24"),
    (
        Rate::Fps25,
        [0x24, 0x59, 0x59, 0x23],
        2_159_999,
        "23:59:59:24",
    ),
    (Rate::Fps30, [0x29, 0x59, 0x00, 0x00], 1_799, "00:00:59:29"),
    (Rate::Fps30, [0x00, 0x00, 0x01, 0x00], 1_800, "00:01:00:00"),
    (
        Rate::Fps30,
        [0x29, 0x59, 0x59, 0x23],
        2_591_999,
        "23:59:59:29",
    ),
    (Rate::DropFrame, [0x00, 0x00, 0x00, 0x00], 0, "00:00:00;00"),
    (
        Rate::DropFrame,
        [0x29, 0x59, 0x00, 0x00],
        1_799,
        "00:00:59;29",
    ),
    (
        Rate::DropFrame,
        [0x02, 0x00, 0x01, 0x00],
        1_800,
        "00:01:00;02",
    ),
    (
        Rate::DropFrame,
        [0x00, 0x01, 0x01, 0x00],
        1_828,
        "00:01:01;00",
    ),
    (
        Rate::DropFrame,
        [0x29, 0x59, 0x09, 0x00],
        17_981,
        "00:09:59;29",
    ),
    (
        Rate::DropFrame,
        [0x00, 0x00, 0x10, 0x00],
        17_982,
        "00:10:00;00",
    ),
    (
        Rate::DropFrame,
        [0x02, 0x00, 0x11, 0x00],
        19_782,
        "00:11:00;02",
    ),
    (
        Rate::DropFrame,
        [0x29, 0x59, 0x59, 0x23],
        2_589_407,
        "23:59:59;29",
    ),
];

/// Whether this is the text of a frame's time.
fn is_spelled(rate: Rate, frame: u32, text: &str) -> bool {
    let Some(time) = TimeCode::from_frames_at(rate, frame) else {
        return false;
    };
    let spelled = time.text_at(rate);
    spelled.as_slice() == text.as_bytes()
}

#[test]
fn reads_and_writes_at_each_rate(rt: HostRuntime) {
    for (rate, bytes, frame, text) in ROWS {
        let read = TimeCode::from_bytes_at(rate, bytes);
        same(
            &rt,
            read.map(|t| t.frames()),
            Some(frame),
            (rate.word(), bytes),
        );
        let made = TimeCode::from_frames_at(rate, frame);
        let written = made.map(|t| t.to_bytes_at(rate));
        same(&rt, written, Some(bytes), (rate.word(), frame));
        same(
            &rt,
            is_spelled(rate, frame, text),
            true,
            (rate.word(), frame),
        );
    }
}

#[test]
fn tells_what_is_no_time_of_the_day(rt: HostRuntime) {
    for (rate, bytes) in [
        (Rate::Fps24, [0x24, 0x00, 0x00, 0x00]),
        (Rate::Fps25, [0x25, 0x00, 0x00, 0x00]),
        (Rate::Fps30, [0x30, 0x00, 0x00, 0x00]),
        (Rate::DropFrame, [0x30, 0x00, 0x00, 0x00]),
        (Rate::DropFrame, [0x00, 0x00, 0x01, 0x00]),
        (Rate::DropFrame, [0x01, 0x00, 0x01, 0x00]),
        (Rate::DropFrame, [0x40, 0x00, 0x59, 0x23]),
    ] {
        same(
            &rt,
            TimeCode::from_bytes_at(rate, bytes),
            None,
            (rate.word(), bytes),
        );
    }
}

#[test]
fn ignores_the_drop_frame_flag(rt: HostRuntime) {
    for (rate, frame) in [
        (Rate::Fps24, None),
        (Rate::Fps25, None),
        (Rate::Fps30, Some(2_591_999)),
        (Rate::DropFrame, Some(2_589_407)),
    ] {
        let read = TimeCode::from_bytes_at(rate, [0x69, 0x59, 0x59, 0x23]);
        same(&rt, read.map(|t| t.frames()), frame, rate.word());
    }
}

#[test]
fn goes_round_each_day(rt: HostRuntime) {
    for (rate, day) in [
        (Rate::Fps24, 2_073_600),
        (Rate::Fps25, 2_160_000),
        (Rate::Fps30, 2_592_000),
        (Rate::DropFrame, 2_589_408),
    ] {
        same(&rt, rate.frames_in_day(), day, rate.word());
        same(&rt, TimeCode::from_frames_at(rate, day), None, rate.word());
        let first = TimeCode::default();
        let last = first.prev_at(rate);
        same(&rt, last.frames().saturating_add(1), day, rate.word());
        same(&rt, rate.last_frame(), last.frames(), rate.word());
        same(&rt, last.next_at(rate), first, rate.word());
    }
}

#[test]
fn leaves_out_two_frames(rt: HostRuntime) {
    for (before, after) in [
        ([0x29, 0x59, 0x00, 0x00], [0x02, 0x00, 0x01, 0x00]),
        ([0x29, 0x59, 0x58, 0x23], [0x02, 0x00, 0x59, 0x23]),
        ([0x29, 0x59, 0x09, 0x00], [0x00, 0x00, 0x10, 0x00]),
        ([0x29, 0x00, 0x01, 0x00], [0x00, 0x01, 0x01, 0x00]),
    ] {
        let time = TimeCode::from_bytes_at(Rate::DropFrame, before).expect(&rt, "a time");
        let next = time.next_at(Rate::DropFrame);
        same(&rt, next.to_bytes_at(Rate::DropFrame), after, before);
        same(&rt, next.prev_at(Rate::DropFrame), time, after);
    }
}
