//! How runs end: faults of source and sink, words, too much input.
use std::alloc::Global;
use std::process::Abort;
use std::test::Fail;
use wl_ports::{MemorySink, MemorySource, NoLedger, Work};
use wl_session::run;

const READ_FAILED: &[u8] = b"wl: read failed\n";

const USAGE: &[u8] = b"usage: wl [--steps N] [--form input|full] [--demo N] [FILE]\n";

/// What is written for `)`.
const REFUSED: &[u8] = b"Refused: unexpected input at byte 1.\n";

const REFUSED_TWICE: &[u8] =
    b"Refused: unexpected input at byte 1.\nRefused: unexpected input at byte 1.\n";

/// One run, with the calls of source and `out` that fail.
fn ends(
    rt: &impl Abort,
    alloc: Global,
    words: &[String],
    source: &mut MemorySource,
    out_fails: &[u64],
    expected: (&[u8], &[u8], u8),
) -> Result<(), Fail> {
    let mut out = MemorySink::new(alloc, 100, out_fails)?;
    let mut err = MemorySink::new(alloc, 100, &[])?;
    let mut work = Work::new(NoLedger);
    let ended = run(alloc, words, source, &mut out, &mut err, &mut work);
    assert_eq!(rt; out.bytes(), expected.0);
    assert_eq!(rt; err.bytes(), expected.1);
    assert_eq!(rt; ended.status, expected.2);
    assert_eq!(rt; ended.session.is_none(), expected.2 == 2);
    Ok(())
}

#[test]
fn faults(rt: HostRuntime) -> Result<(), Fail> {
    let alloc = rt.alloc();
    let mut cells = MemorySource::new(alloc, None, b")\n)\n)\n", 4_096, &[])?;
    ends(
        &rt,
        alloc,
        &[],
        &mut cells,
        &[2],
        (REFUSED_TWICE, b"wl: write failed\n", 4),
    )?;
    let mut closed = MemorySource::new(alloc, None, b")\n", 4_096, &[0])?;
    ends(&rt, alloc, &[], &mut closed, &[], (b"", READ_FAILED, 3))?;
    let mut broken = MemorySource::new(alloc, None, b")\n)\n", 2, &[2])?;
    ends(&rt, alloc, &[], &mut broken, &[], (REFUSED, READ_FAILED, 3))?;
    Ok(())
}

#[test]
fn words(rt: HostRuntime) -> Result<(), Fail> {
    let alloc = rt.alloc();
    let word = [String::from_str(alloc, "sums")?];
    let mut served = MemorySource::new(alloc, Some("sums"), b")", 4_096, &[])?;
    ends(&rt, alloc, &word, &mut served, &[], (REFUSED, b"", 1))?;
    assert_eq!(rt; (served.hits(), served.strays()), (1, 0));
    let mut other = MemorySource::new(alloc, Some("sums"), b")", 4_096, &[])?;
    ends(&rt, alloc, &[], &mut other, &[], (b"", READ_FAILED, 3))?;
    assert_eq!(rt; (other.hits(), other.strays()), (0, 1));
    for word in ["-x", "--steps"] {
        let dashed = [String::from_str(alloc, word)?];
        ends(&rt, alloc, &dashed, &mut other, &[], (b"", USAGE, 2))?;
    }
    assert_eq!(rt;
        (other.hits(), other.strays()),
        (0, 1),
        "nothing was opened"
    );
    Ok(())
}

#[test]
fn too_much_input(rt: HostRuntime) -> Result<(), Fail> {
    let mut spaces = MemorySource::repeat(rt.alloc(), b' ', 1_073_741_825)?;
    let line = b"wl: input longer than 1073741824 bytes\n";
    ends(&rt, rt.alloc(), &[], &mut spaces, &[], (b"", line, 6))
}
