//! The program over real files, with sinks in memory.
use super::*;
use std::alloc::Global;
use std::fs;
use std::process::Abort;
use std::test::Fail;
use wl_ports::{MemorySink, Source};

/// What these words write to `out` and `err`, and the status.
fn ends(
    rt: &impl Abort,
    alloc: Global,
    words: Result<Vec<String>, Unread>,
    source: &mut impl Source,
    expected: (&[u8], &[u8], u8),
) -> Result<(), Fail> {
    let mut out = MemorySink::new(alloc, 100, &[])?;
    let mut err = MemorySink::new(alloc, 100, &[])?;
    let status = play(alloc, words, source, &mut out, &mut err);
    assert_eq!(rt; out.bytes(), expected.0);
    assert_eq!(rt; err.bytes(), expected.1);
    assert_eq!(rt; status, ExitCode::from(expected.2));
    Ok(())
}

#[test]
fn statuses(rt: HostRuntime) -> Result<(), Fail> {
    fs::write(&rt, "cells.wl", "1.5\n)\n")?;
    let alloc = rt.alloc();
    let usage = b"usage: wl [--steps N] [--form input|full] [--demo N] [FILE]\n";
    let rows: [(&str, &[u8], &[u8], u8); 3] = [
        (
            "cells.wl",
            b"Refused: real number at byte 1.\nRefused: unexpected input at byte 1.\n",
            b"",
            1,
        ),
        ("missing.wl", b"", b"wl: read failed\n", 3),
        ("-x", b"", usage, 2),
    ];
    for (word, out, err, status) in rows {
        let words = vec![in alloc; String::from_str(alloc, word)?]?;
        let mut source = StdSource::new(&rt);
        ends(&rt, alloc, Ok(words), &mut source, (out, err, status))?;
    }
    let mut source = StdSource::new(&rt);
    let unread = b"wl: a word of the command line is not UTF-8\n";
    ends(
        &rt,
        alloc,
        Err(Unread::NotText),
        &mut source,
        (b"", unread, 2),
    )?;
    let wanting = b"wl: out of memory\n";
    ends(
        &rt,
        alloc,
        Err(Unread::Memory),
        &mut source,
        (b"", wanting, 5),
    )
}
