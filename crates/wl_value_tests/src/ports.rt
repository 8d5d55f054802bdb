//! What no clause says: that calls that want memory succeed, and that the real ends pass bytes on.
use std::fs;
use std::test::Fail;
use wl_ports::{
    MemorySink, MemorySource, NoLedger, Sink, Source, StdSink, StdSource, Work, is_name,
};

#[test]
fn source_in_memory(rt: HostRuntime) -> Result<(), Fail> {
    let bytes = b"1 + 2\n";
    let mut source = MemorySource::new(rt.alloc(), Some("sums"), bytes, 4, &[2])?;
    assert!(rt; source.open(None).is_err(), "another name");
    assert!(rt; source.open(Some("sums")).is_ok(), "the served name");
    assert_eq!(rt; source.hits(), 1);
    assert_eq!(rt; source.strays(), 1);
    let mut piece = [0u8; 8];
    assert!(rt; source.read(&mut piece).is_err(), "call number 2 is listed");
    assert!(rt; source.read(&mut piece) == Ok(4), "a read gives one piece");
    assert_eq!(rt; piece, *b"1 + \0\0\0\0");
    assert!(rt; source.read(&mut piece) == Ok(2), "the rest");
    assert_eq!(rt; piece, *b"2\n+ \0\0\0\0");
    assert!(rt; source.read(&mut piece) == Ok(0), "the end");
    Ok(())
}

#[test]
fn repeated_bytes(rt: HostRuntime) -> Result<(), Fail> {
    let mut source = MemorySource::repeat(rt.alloc(), b'7', 5)?;
    assert!(rt; source.open(None).is_ok(), "standard input is served");
    let mut piece = [0u8; 3];
    assert!(rt; source.read(&mut piece) == Ok(3), "as many as fit");
    assert_eq!(rt; piece, *b"777");
    assert!(rt; source.read(&mut piece) == Ok(2), "the rest");
    assert!(rt; source.read(&mut piece) == Ok(0), "the end");
    Ok(())
}

#[test]
fn sink_in_memory(rt: HostRuntime) -> Result<(), Fail> {
    let mut sink = MemorySink::new(rt.alloc(), 5, &[1, 4])?;
    assert!(rt; sink.write(b"abc") == Ok(3), "a piece is taken whole");
    assert!(rt; sink.write(b"d").is_err(), "call number 1 is listed");
    assert!(rt; sink.write(b"def").is_err(), "there is no room");
    assert!(rt; sink.flush().is_ok(), "call number 3 is not listed");
    assert!(rt; sink.flushed(), "a flush that answers Ok");
    assert!(rt; sink.flush().is_err(), "call number 4 is listed");
    assert!(rt; sink.write(b"de") == Ok(2), "the room that is left");
    assert!(rt; !sink.flushed(), "a byte was written since");
    assert_eq!(rt; sink.bytes(), b"abcde".as_slice());
    Ok(())
}

#[test]
fn named_file(rt: HostRuntime) -> Result<(), Fail> {
    fs::write(&rt, "cells.wl", "4 + 5\n")?;
    let mut source = StdSource::new(&rt);
    let mut piece = [0u8; 8];
    assert!(rt; source.read(&mut piece).is_err(), "nothing is open yet");
    assert!(rt;
        source.open(Some("missing.wl")).is_err(),
        "there is no such file"
    );
    assert!(rt; source.open(Some("cells.wl")).is_ok(), "the file is there");
    assert!(rt; source.read(&mut piece) == Ok(6), "its bytes");
    assert_eq!(rt; piece, *b"4 + 5\n\0\0");
    assert!(rt; source.read(&mut piece) == Ok(0), "its end");
    Ok(())
}

#[test]
fn standard_streams(rt: HostRuntime) {
    for mut sink in [StdSink::out(&rt), StdSink::err(&rt)] {
        assert!(rt; sink.write(b"tested\n") == Ok(7), "the bytes are passed on");
        assert!(rt; sink.flush().is_ok(), "and flushed");
    }
}

#[test]
fn names(rt: HostRuntime) {
    let rows = [
        ("a", true),
        ("Plus", true),
        ("$Aborted", true),
        ("x$2", true),
        ("\u{3b1}2", true),
        ("", false),
        ("2a", false),
        ("a_b", false),
        ("a b", false),
        ("a`b", false),
    ];
    for (text, is) in rows {
        assert_eq!(rt; is_name(text), is, "{text}");
    }
}

#[test]
fn work_has_no_bytes(rt: HostRuntime) {
    assert_eq!(rt; size_of::<Work<NoLedger>>(), 0);
}
