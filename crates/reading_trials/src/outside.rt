//! Files and sinks, in memory and real, by tables that were worked by hand.

use crate::listed::memory;
use crate::stutter::{End, Stutter, StutterFiles};
use mg_outside::{FailAt, Files, MemorySink, PutAnswer, ReadAnswer, Sink, StdFiles, StdSink};
use std::fs;
use std::test::Fail;

#[test]
fn takes_by_the_rule(rt: HostRuntime) -> Result<(), Fail> {
    let alloc = rt.alloc();
    let failing = [
        FailAt { call: 2, taken: 1 },
        FailAt { call: 2, taken: 3 },
        FailAt { call: 4, taken: 9 },
    ];
    let mut sink = MemorySink::new(alloc, 10, failing.to_vec(alloc)?)?;
    // The piece, the answer and all that is held then.
    for (piece, answer, held) in [
        ("abc", PutAnswer::Done, "abc"),
        ("def", PutAnswer::Failed, "abcd"),
        ("ef", PutAnswer::Done, "abcdef"),
        ("gh", PutAnswer::Failed, "abcdefgh"),
        ("ijk", PutAnswer::Failed, "abcdefghij"),
        ("", PutAnswer::Done, "abcdefghij"),
        ("z", PutAnswer::Failed, "abcdefghij"),
    ] {
        assert_eq!(rt; sink.put(piece.as_bytes()), answer, "at {piece}");
        assert!(rt; sink.held() == held.as_bytes(), "after {piece}");
    }
    Ok(())
}

#[test]
fn answers_by_the_rule(rt: HostRuntime) -> Result<(), Fail> {
    let alloc = rt.alloc();
    let listed = [("a.p", "abc"), ("empty.p", ""), ("a.p", "second")];
    let mut files = memory(alloc, &listed, &[3])?;
    let mut into = b"%".to_vec(alloc)?;
    // The name, the limit, the answer and all that was read so far. The third call is listed.
    for (name, limit, answer, read) in [
        ("a.p", 3, ReadAnswer::Done, "%abc"),
        ("a.p", 2, ReadAnswer::TooLong, "%abc"),
        ("a.p", 3, ReadAnswer::Failed, "%abc"),
        ("b.p", 3, ReadAnswer::Absent, "%abc"),
        ("empty.p", 0, ReadAnswer::Done, "%abc"),
        ("a.p", u64::MAX, ReadAnswer::Done, "%abcabc"),
    ] {
        assert_eq!(rt;
            files.read(name, limit, &mut into),
            answer,
            "at {name} and {limit}"
        );
        assert!(rt;
            into.as_slice() == read.as_bytes(),
            "after {name} and {limit}"
        );
    }
    Ok(())
}

const FOLDER: &str = "mg_outside_files.tmp";

const GOOD: &str = "mg_outside_files.tmp/good.p";

#[test]
fn reads_real_files(rt: HostRuntime) -> Result<(), Fail> {
    let alloc = rt.alloc();
    let _ = fs::remove_dir_all(&rt, FOLDER);
    fs::create_dir(&rt, FOLDER)?;
    fs::write(&rt, GOOD, vec![in alloc; 7u8; 40_000]?)?;
    let mut files = StdFiles::new(&rt);
    let mut into = b"%".to_vec(alloc)?;
    // The path, the limit, the answer and how many bytes were read so far.
    for (path, limit, answer, read) in [
        (GOOD, 39_999, ReadAnswer::TooLong, 1),
        (GOOD, 40_000, ReadAnswer::Done, 40_001),
        (
            "mg_outside_files.tmp/none.p",
            40_000,
            ReadAnswer::Absent,
            40_001,
        ),
        (FOLDER, 40_000, ReadAnswer::Failed, 40_001),
        (
            "mg_outside_files.tmp/good.p/in.p",
            40_000,
            ReadAnswer::Failed,
            40_001,
        ),
        (GOOD, u64::MAX, ReadAnswer::Done, 80_001),
    ] {
        assert_eq!(rt;
            files.read(path, limit, &mut into),
            answer,
            "at {path} and {limit}"
        );
        assert_eq!(rt; into.len(), read, "after {path} and {limit}");
    }
    assert!(rt; into.iter().skip(1).all(|byte| *byte == 7));
    fs::remove_dir_all(&rt, FOLDER)?;
    Ok(())
}

#[test]
fn goes_on_after_an_interruption(rt: HostRuntime) -> Result<(), Fail> {
    // How many bytes come, how they end, the limit, the answer and how many bytes were read then.
    for (left, end, limit, answer, read) in [
        (8, End::Quiet, 8, ReadAnswer::Done, 8),
        (8, End::Quiet, 7, ReadAnswer::TooLong, 0),
        (8, End::Refuses, 9, ReadAnswer::Failed, 0),
        (0, End::Quiet, 0, ReadAnswer::Done, 0),
    ] {
        let system = (StutterFiles { left, end }, rt.alloc());
        let mut files = StdFiles::new(&system);
        let mut into = Vec::new(rt.alloc());
        assert_eq!(rt;
            files.read("any.p", limit, &mut into),
            answer,
            "at {left} and {limit}"
        );
        assert_eq!(rt; into.len(), read, "after {left} and {limit}");
    }
    Ok(())
}

#[test]
fn fails_in_mid_stream(rt: HostRuntime) {
    // How many bytes the writer takes, its end, the piece, the answer and the room left then.
    for (left, end, piece, answer, left_then) in [
        (9, End::Quiet, "eight by", PutAnswer::Done, 1),
        (9, End::RefusesFlush, "eight by", PutAnswer::Failed, 1),
        (5, End::Quiet, "eight by", PutAnswer::Failed, 0),
        (5, End::Refuses, "eight by", PutAnswer::Failed, 0),
        (0, End::Refuses, "", PutAnswer::Done, 0),
    ] {
        let mut writer = Stutter::new(left, end);
        let mut sink = StdSink::new(&mut writer);
        assert_eq!(rt; sink.put(piece.as_bytes()), answer, "at {left} and {piece}");
        drop(sink);
        assert_eq!(rt; writer.left(), left_then, "after {left} and {piece}");
    }
}

const FILE: &str = "mg_outside_sink.tmp";

#[test]
fn writes_a_real_file(rt: HostRuntime) -> Result<(), Fail> {
    let mut sink = StdSink::new(fs::create(&rt, FILE)?);
    assert_eq!(rt; sink.put(b"% one\n"), PutAnswer::Done);
    assert_eq!(rt; sink.put(b"% two\n"), PutAnswer::Done);
    drop(sink);
    assert!(rt; fs::read(&rt, FILE)?.as_slice() == b"% one\n% two\n".as_slice());
    fs::remove_file(&rt, FILE)?;
    Ok(())
}
