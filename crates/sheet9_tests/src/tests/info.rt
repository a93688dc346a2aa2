//! Small captures, and the facts and signs that each has, by hand.

use info9::write_info;
use report9::{Beginning, JudgeError};
use std::alloc::{AllocError, Global};
use std::fmt::Write;
use std::process::Abort;
use std::test::Fail;
use tc25::Rate;

/// The text of a capture, whose first record is at 1 second. Its records are so far apart.
#[derive(Drop)]
struct Tap {
    text: String,
    time_us: u64,
    step_us: u64,
    is_deck: bool,
}

impl Tap {
    /// Without records.
    fn new(alloc: Global, step_us: u64) -> Result<Tap, AllocError> {
        Ok(Tap {
            text: String::from_str(alloc, "time_us,wire,byte\n")?,
            time_us: 1_000_000,
            step_us,
            is_deck: false,
        })
    }

    /// Puts bytes to the end, each after the letter of its wire, where that is another. A pause in microseconds begins with `+`.
    fn put(&mut self, words: &str) -> Result<(), AllocError> {
        for word in words.split_whitespace() {
            if word == "C" || word == "D" {
                self.is_deck = word == "D";
            } else if let Some(pause) = word.strip_prefix("+") {
                let pause_us: u64 = pause.parse().unwrap_or(0);
                self.time_us = self.time_us.saturating_add(pause_us);
            } else {
                self.put_byte(word)?;
            }
        }
        Ok(())
    }

    /// Puts a byte to the end.
    fn put_byte(&mut self, byte: &str) -> Result<(), AllocError> {
        let (time, wire) = (self.time_us, if self.is_deck { "D" } else { "C" });
        self.time_us = self.time_us.saturating_add(self.step_us);
        writeln!(self.text, "{time},{wire},{byte}")
    }
}

/// The lines that are written of a capture.
fn lines_of(
    alloc: Global,
    tap: &Tap,
    rate: Rate,
    beginning: Beginning,
) -> Result<Vec<u8>, JudgeError> {
    let mut lines = Vec::new(alloc);
    write_info(alloc, tap.text.as_bytes(), &mut lines, rate, beginning)?;
    Ok(lines)
}

/// Holds that a capture has these signs, as they are written at 25 frames a second, and no others.
fn holds(rt: &impl Abort, alloc: Global, tap: &Tap, signs: &str) -> Result<(), Fail> {
    holds_at(rt, alloc, tap, Rate::Fps25, signs)
}

/// The same at a rate.
fn holds_at(
    rt: &impl Abort,
    alloc: Global,
    tap: &Tap,
    rate: Rate,
    signs: &str,
) -> Result<(), Fail> {
    let lines = lines_of(alloc, tap, rate, Beginning::FirstRecord)?;
    let mut found = String::new(alloc);
    let text = str::from_utf8(lines.as_slice())?;
    for line in text.lines().filter(|line| line.starts_with("look at: ")) {
        found.push_str(line)?;
        found.push_str("\n")?;
    }
    assert_eq!(rt; found.as_str(), signs);
    Ok(())
}

/// PLAY and its acknowledgement.
const PLAY: &str = "C 20 01 21 D 10 01 11 ";

#[test]
fn tells_facts(rt: HostRuntime) -> Result<(), Fail> {
    let mut tap = Tap::new(rt.alloc(), 300)?;
    tap.put("C 61 0C 01 6E +2000 D 74 04 52 34 56 10 64")?;
    tap.put("+10000 C 44 14 00 00 01 10 69 +1000 D 10 01 11")?;
    let lines = lines_of(rt.alloc(), &tap, Rate::Fps25, Beginning::FirstRecord)?;
    let wanted = "records: 21, controller 11, deck 10\n\
        first time: 1.000000 s\n\
        last time: 1.019000 s\n\
        length: 0.019000 s\n\
        step of the times: 100 us\n\
        blocks with right checksums: 4, controller 2, deck 2\n\
        commands: 2\n\
        replies: 2\n\
        times told: 2, greatest frame 12, with the drop frame flag 1, with a label that drop frame has not 1\n\
        longest silences of the controller: 0.014400 s before record 12, 0.000300 s before record 2, 0.000300 s before record 3\n\
        longest silences of the deck: 0.013400 s before record 19, 0.000300 s before record 6, 0.000300 s before record 7\n";
    assert_eq!(rt; str::from_utf8(lines.as_slice())?, wanted);
    Ok(())
}

#[test]
fn tells_frames_that_elapse(rt: HostRuntime) -> Result<(), Fail> {
    let mut tap = Tap::new(rt.alloc(), 400)?;
    for second in ["00", "01", "02", "03"] {
        for frame in ["00", "12"] {
            tap.put("C 61 0C 01 6E D 74 04")?;
            let sum = match (second, frame) {
                ("00", "00") => "78",
                ("00", _) => "8A",
                ("01", "00") => "79",
                ("01", _) => "8B",
                ("02", "00") => "7A",
                ("02", _) => "8C",
                (_, "00") => "7B",
                _ => "8D",
            };
            for byte in [frame, second, "00", "00", sum] {
                tap.put(byte)?;
            }
            tap.put("+475600")?;
        }
    }
    let lines = lines_of(rt.alloc(), &tap, Rate::Fps25, Beginning::FirstRecord)?;
    let text = str::from_utf8(lines.as_slice())?;
    let wanted = "frames told to frames elapsed: 24 to 24.0 at --rate 25, in seconds that run: 2\n";
    assert!(rt; text.contains(wanted), "{text}");
    Ok(())
}

#[test]
fn sees_swapped_wires(rt: HostRuntime) -> Result<(), Fail> {
    let mut swapped = Tap::new(rt.alloc(), 300)?;
    swapped.put("D 20 01 21 C 10 01 11")?;
    holds(
        &rt,
        rt.alloc(),
        &swapped,
        "look at: the wires are swapped, at record 1: blocks of a deck on the controller's wire: 1, of a controller on the deck's: 1; swap C and D before anything is judged\n",
    )?;
    let mut echo = Tap::new(rt.alloc(), 300)?;
    echo.put("C 20 01 21 D 20 01 21")?;
    holds(&rt, rt.alloc(), &echo, "")
}

#[test]
fn sees_a_beginning_inside_traffic(rt: HostRuntime) -> Result<(), Fail> {
    let mut inside = Tap::new(rt.alloc(), 300)?;
    inside.put("C 01 21 D 10 01 11")?;
    inside.put(PLAY)?;
    holds(
        &rt,
        rt.alloc(),
        &inside,
        "look at: begins inside traffic, at record 1: no command with a right checksum begins there; ask with --sync\n",
    )?;
    let lines = lines_of(rt.alloc(), &inside, Rate::Fps25, Beginning::FirstCommand)?;
    assert!(rt; !str::from_utf8(lines.as_slice())?.contains("look at"));
    let mut open = Tap::new(rt.alloc(), 300)?;
    open.put("C 20 01")?;
    holds(&rt, rt.alloc(), &open, "")
}

#[test]
fn sees_a_tap_that_collects(rt: HostRuntime) -> Result<(), Fail> {
    for (step_us, plays, signs) in [
        (
            100,
            3,
            "look at: the tap collects bytes, at record 1: bytes of one block come 100 us apart, where one lasts 287 us on the line, in 6 blocks; L1, L2, P3 and B3 say nothing here\n",
        ),
        (
            100,
            2,
            "look at: bytes too close, at record 2: a byte comes 100 us after the one before it on its wire, where one lasts 287 us on the line, the closest of 8; no line carries them so, and what breaks there is not the sender's\n",
        ),
        (143, 3, ""),
        (
            1000,
            1,
            "look at: coarse times, at record 1: all times come in steps of 1000 us after it; limits near 9 and 10 ms say nothing here\n",
        ),
        (900, 1, ""),
    ] {
        let mut tap = Tap::new(rt.alloc(), step_us)?;
        for _ in 0..plays {
            tap.put(PLAY)?;
        }
        holds(&rt, rt.alloc(), &tap, signs)?;
    }
    Ok(())
}

#[test]
fn sees_another_rate(rt: HostRuntime) -> Result<(), Fail> {
    let mut thirty = Tap::new(rt.alloc(), 300)?;
    thirty.put("C 44 14 29 00 00 10 91 D 10 01 11")?;
    holds(
        &rt,
        rt.alloc(),
        &thirty,
        "look at: rate, at record 1: a time has frame 29, asked with --rate 25; ask with --rate 29.97df, or without drop frame --rate 30\n",
    )?;
    holds_at(&rt, rt.alloc(), &thirty, Rate::Fps30, "")?;
    holds_at(&rt, rt.alloc(), &thirty, Rate::DropFrame, "")?;
    thirty.put("C 44 14 00 00 01 10 69 D 10 01 11")?;
    holds_at(
        &rt,
        rt.alloc(),
        &thirty,
        Rate::DropFrame,
        "look at: rate, at record 11: times that drop frame has not: 1, asked with --rate 29.97df; ask with --rate 30\n",
    )?;
    let mut flagged = Tap::new(rt.alloc(), 300)?;
    for _ in 0..3 {
        holds(&rt, rt.alloc(), &flagged, "")?;
        flagged.put("C 44 14 50 00 00 10 B8 D 10 01 11")?;
    }
    holds(
        &rt,
        rt.alloc(),
        &flagged,
        "look at: rate, at record 1: times with the drop frame flag: 3, asked with --rate 25; ask with --rate 29.97df\n",
    )
}

#[test]
fn sees_a_silence(rt: HostRuntime) -> Result<(), Fail> {
    for (pause, signs) in [
        (
            "+100000",
            "look at: silence, at record 1: 2 commands in a row without a reply, from 1.000000 s to 1.201800 s; the deck is off or out of reach, or its wire is not tapped\n",
        ),
        ("+40000", ""),
    ] {
        let mut tap = Tap::new(rt.alloc(), 300)?;
        for _ in 0..2 {
            tap.put("C 20 01 21")?;
            tap.put(pause)?;
        }
        tap.put(PLAY)?;
        holds(&rt, rt.alloc(), &tap, signs)?;
    }
    let mut one = Tap::new(rt.alloc(), 300)?;
    one.put("C 20 01 21 +900000")?;
    one.put(PLAY)?;
    holds(&rt, rt.alloc(), &one, "")
}

#[test]
fn sees_a_lost_byte(rt: HostRuntime) -> Result<(), Fail> {
    for (block, signs) in [
        (
            "C 61 20 +300 82",
            "look at: lost bytes, at record 7: the block ends early, and its checksum is right with 01 after record 8, the first of 1; the tap or the line lost it, and what breaks there is not the sender's\n",
        ),
        (
            "C 61 20 01",
            "look at: lost bytes, at record 7: the block ends early, and its checksum is right with 82 after record 9, the first of 1; the tap or the line lost it, and what breaks there is not the sender's\n",
        ),
        (
            "C 20 01 82",
            "look at: lost bytes, at record 7: the block ends early, and its checksum is right with 61 before it, the first of 1; the tap or the line lost it, and what breaks there is not the sender's\n",
        ),
        ("C 61 20", ""),
        ("C 61 20 01 82", ""),
    ] {
        let mut tap = Tap::new(rt.alloc(), 300)?;
        tap.put(PLAY)?;
        tap.put(block)?;
        tap.put("D 71 20 01 92")?;
        tap.put(PLAY)?;
        holds(&rt, rt.alloc(), &tap, signs)?;
    }
    Ok(())
}

#[test]
fn sees_two_clocks(rt: HostRuntime) -> Result<(), Fail> {
    for (by_us, signs) in [
        (
            20,
            "look at: two clocks, at record 4: the least delay of a reply moves steadily from 1000 to 2440 us; the wires do not share a clock, so L1, L2 and P3 say nothing here\n",
        ),
        (10, ""),
    ] {
        let mut tap = Tap::new(rt.alloc(), 300)?;
        for turn in 0..80u64 {
            tap.put("C 20 01 21")?;
            tap.time_us = tap
                .time_us
                .saturating_add(turn.saturating_mul(by_us).saturating_add(700));
            tap.put("D 10 01 11")?;
        }
        holds(&rt, rt.alloc(), &tap, signs)?;
    }
    Ok(())
}

#[test]
fn sees_two_clocks_before_replies_and_commands_cross(rt: HostRuntime) -> Result<(), Fail> {
    let mut tap = Tap::new(rt.alloc(), 300)?;
    for turn in 0..80u64 {
        tap.put("C 20 01 21")?;
        tap.time_us = tap
            .time_us
            .saturating_add(turn.saturating_mul(20).saturating_add(700));
        tap.put("D 10 01 11")?;
    }
    tap.put("C 61 20 01 82")?;
    for _ in 0..4 {
        tap.put("C 00 11 11 D 71 20 01 92 C 61 20 01 82 D 12 11 70 01 94")?;
    }
    holds(
        &rt,
        rt.alloc(),
        &tap,
        "look at: two clocks, at record 4: the least delay of a reply moves steadily from 1000 to 2440 us; the wires do not share a clock, so L1, L2 and P3 say nothing here\n",
    )
}

#[test]
fn sees_replies_one_command_behind(rt: HostRuntime) -> Result<(), Fail> {
    let mut tap = Tap::new(rt.alloc(), 300)?;
    for _ in 0..3 {
        tap.put("C 61 20 01 82 D 12 11 70 01 94 C 00 11 11 D 71 20 01 92")?;
    }
    holds(&rt, rt.alloc(), &tap, "")?;
    tap.put("C 61 20 01 82 D 12 11 70 01 94")?;
    holds(
        &rt,
        rt.alloc(),
        &tap,
        "look at: replies one command behind, at record 13: 6 of 6 replies that tell fit the command before theirs and not their own; a reply was lost or is one too many, and P5 follows from that\n",
    )
}
