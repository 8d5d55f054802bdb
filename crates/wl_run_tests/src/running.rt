//! A run over a source and sinks in memory.
use std::alloc::Global;
use std::process::Abort;
use std::test::Fail;
use wl_ports::{MemorySink, MemorySource, NoLedger, Work};
use wl_session::run;

/// How many bytes a read gives at most: all, one, or seven.
const PIECES: [usize; 3] = [usize::MAX, 1, 7];

/// A text on standard input gives these bytes and this status, whatever the pieces.
pub(crate) fn answers(
    rt: &impl Abort,
    alloc: Global,
    text: &[u8],
    expected: &str,
    status: u8,
) -> Result<(), Fail> {
    for piece in PIECES {
        let mut source = MemorySource::new(alloc, None, text, piece, &[])?;
        let mut out = MemorySink::new(alloc, expected.len() + 100, &[])?;
        let mut err = MemorySink::new(alloc, 100, &[])?;
        let mut work = Work::new(NoLedger);
        let ended = run(alloc, &[], &mut source, &mut out, &mut err, &mut work);
        assert!(rt; out.bytes() == expected.as_bytes(), "{expected}");
        assert_eq!(rt; ended.status, status, "{expected}");
        assert!(rt; err.bytes().is_empty(), "{expected}");
        assert!(rt; out.flushed(), "{expected}");
    }
    Ok(())
}
