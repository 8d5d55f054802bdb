//! What the program does behind its words.
ghost use Rattle.std.specs.Prelude.{◌≡◌, ◌≤◌, ◌↔◌, Ok, Err, IfOk, IsNone};
ghost use Rattle.std.specs.Process.{exit_status};
ghost use Rattle.wl_session.specs.Ends.{IsReported};
ghost use Rattle.wl_session.specs.Transcript.{line_for};
ghost use Rattle.wl_session.specs.Words.{asked, words_of};

use std::alloc::Global;
use std::process::ExitCode;
use wl_ports::{NoLedger, Sink, Source, Work};
use wl_session::run;

/// Why there are no words to read.
#[derive(Drop, Clone, Copy)]
pub(crate) enum Unread {
    Memory,
    NotText,
}

/// Plays the notebook that the words ask for, and hands out the status that the program ends with.
pub(crate) fn play<S: Source, K: Sink, E: Sink>(
    alloc: Global,
    words: Result<Vec<String>, Unread>,
    source: &mut S,
    out: &mut K,
    err: &mut E,
) -> ExitCode
    ensures known { exit_status result ≤ 6 }
    ensures usage { IfOk words (λ ws. (exit_status result ≡ 2) ↔ IsNone (asked (words_of ws.items))) }
    ensures reported { IfOk words (λ ws. IsReported (line_for (exit_status result)) (E.held err.old) (E.held err.new) (E.faults err.old) (E.faults err.new)) }
    ensures wanting { words ≡ Err Unread.Memory → exit_status result ≡ 5 }
    ensures not_text { words ≡ Err Unread.NotText → exit_status result ≡ 2 }
{
    let status = match words {
        Ok(words) => {
            let mut work = Work::new(NoLedger);
            run(alloc, words.as_slice(), source, out, err, &mut work).status
        }
        Err(Unread::Memory) => {
            let _ = err.write(b"wl: out of memory\n");
            5
        }
        Err(Unread::NotText) => {
            let _ = err.write(b"wl: a word of the command line is not UTF-8\n");
            2
        }
    };
    ExitCode::from(status)
}
