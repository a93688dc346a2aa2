//! Each converter once, and a split, with values by hand. The tables of exports are the program's own tests.

use capture9::{LineByte, Wire};
use convert9::{
    ConvertFault, LogWords, Notice, SaleaeWords, SigrokWords, SplitFault, SplitWords, convert_log,
    convert_saleae, convert_sigrok, part_name, split_capture, write_capture,
};
use std::alloc::Global;
use std::io;
use std::process::Abort;
use std::test::Fail;

/// PLAY, its acknowledgement, and STOP.
const TWO: &str = "time_us,wire,byte
1,C,20
2,C,01
3,C,21
4,D,10
5,D,01
6,D,11
11,C,20
12,C,00
13,C,20
";

/// Holds that this was written.
fn holds(rt: &impl Abort, written: &[u8], wanted: &str) -> Result<(), Fail> {
    assert_eq!(rt; str::from_utf8(written)?, wanted);
    Ok(())
}

#[test]
fn makes_a_capture_of_what_sigrok_prints(rt: HostRuntime) -> Result<(), Fail> {
    let words = SigrokWords {
        samplerate: Some(b"1000000"),
        from: None,
        to: None,
    };
    let mut written = Vec::new(rt.alloc());
    let export = "1626-1834 uart-2: 10\n426-634 uart-1: 2a\n";
    let told = convert_sigrok(rt.alloc(), export.as_bytes(), &mut written, words);
    assert!(&rt; told.is_ok());
    holds(
        &rt,
        written.as_slice(),
        "time_us,wire,byte\n426,C,2A\n1626,D,10\n",
    )
}

#[test]
fn makes_a_capture_of_a_table_of_saleae(rt: HostRuntime) -> Result<(), Fail> {
    let words = SaleaeWords {
        controller: Some(b"A"),
        deck: Some(b"B"),
        from: None,
        to: None,
    };
    let mut written = Vec::new(rt.alloc());
    let export =
        "name,type,start_time,duration,data,error\nA,data,-0.5,1,0x20,\n\"B\",data,1.5E+1,1,0x10,\n";
    let told = convert_saleae(rt.alloc(), export.as_bytes(), &mut written, words);
    assert!(&rt; told.is_ok());
    holds(
        &rt,
        written.as_slice(),
        "time_us,wire,byte\n500000,C,20\n16000000,D,10\n",
    )
}

#[test]
fn makes_a_capture_of_a_log(rt: HostRuntime) -> Result<(), Fail> {
    let words = LogWords {
        controller: Some(b"A"),
        deck: Some(b"B"),
        unit: None,
        live: false,
        from: None,
        to: None,
    };
    let log = "0.001 A 20 01 21\n0.0015 B 10\n";
    for live in [false, true] {
        let words = LogWords { live, ..words };
        let mut written = Vec::new(rt.alloc());
        let told = convert_log(rt.alloc(), log.as_bytes(), &mut written, words);
        assert!(&rt; matches!(told, Ok(Some(Notice::Coarse))));
        let rows = "time_us,wire,byte\n1000,C,20\n1287,C,01\n1500,C,21\n1500,D,10\n";
        holds(&rt, written.as_slice(), rows)?;
    }
    Ok(())
}

#[test]
fn writes_nothing_of_a_refused_export(rt: HostRuntime) -> Result<(), Fail> {
    let words = SigrokWords {
        samplerate: Some(b"1000000"),
        from: None,
        to: None,
    };
    let mut written = Vec::new(rt.alloc());
    let export = "5-213 uart-2: 20\n5-9 uart-2: Parity error\n";
    match convert_sigrok(rt.alloc(), export.as_bytes(), &mut written, words) {
        Err(ConvertFault::Refused(refusal)) => {
            let wanted = "a damaged byte: 5-9 uart-2: Parity error";
            assert_eq!(&rt; (refusal.line, refusal.text.as_str()), (2, wanted));
        }
        _ => assert!(&rt; false),
    }
    holds(&rt, written.as_slice(), "")
}

#[test]
fn writes_no_record_that_a_capture_cannot_have(rt: HostRuntime) -> Result<(), Fail> {
    let table = [(2, 1), (0, 1_000_000_000_000_000)];
    for (first_us, second_us) in table {
        let records = [first_us, second_us].map(|time_us| LineByte {
            time_us,
            wire: Wire::Deck,
            byte: 0xA0,
        });
        let mut written = Vec::new(rt.alloc());
        assert!(&rt; write_capture(&mut written, &records).is_err());
        assert!(&rt; write_capture(&mut written, &records[..1]).is_ok());
    }
    Ok(())
}

/// A part that can be made, unless its name is this one.
fn part(alloc: Global, name: &str, absent: &str) -> io::Result<Vec<u8>> {
    if name == absent {
        Err(io::Error::from(io::ErrorKind::AlreadyExists))
    } else {
        Ok(Vec::new(alloc))
    }
}

#[test]
fn cuts_a_capture(rt: HostRuntime) -> Result<(), Fail> {
    let alloc = rt.alloc();
    for (rows, absent, parts, line) in [
        ("6", "", 2, 0),
        ("9", "", 1, 0),
        ("5", "", 0, 7),
        ("6", "a-002.csv", 1, 10),
    ] {
        let words = SplitWords {
            name: Some("a"),
            rows: Some(rows),
        };
        let split = split_capture(
            alloc,
            TWO.as_bytes(),
            words,
            &|name: &str| part(alloc, name, absent),
        );
        let refused_at = match &split.fault {
            Some(SplitFault::Refused(refusal)) => refusal.line,
            _ => 0,
        };
        assert_eq!(&rt; (split.parts, refused_at), (parts, line), "{rows} {absent}");
    }
    assert_eq!(&rt; part_name(alloc, "a", 12)?.as_str(), "a-012.csv");
    Ok(())
}
