//! The top call: a notebook is read from a source, and what its cells answer is written to a sink.
ghost use Rattle.std.specs.Prelude.{◌≡◌, ◌≢◌, ◌≤◌, ◌<◌, ◌+◌, ◌↔◌, ◌⊎◌, ℕ, true, Option, Some, None, IsSome, IsNone, IfSome, OnOk, length, map, option_copied, string_bytes, Result, Ok, Err};
ghost use Rattle.wl_ports.specs.Causes.{Rose, next_count};
ghost use Rattle.wl_scan.specs.Cells.{start};
ghost use Rattle.wl_session.specs.Counting.{HasBegun};
ghost use Rattle.wl_session.specs.Ends.{IsReported, IsTranscript, IsCutShort, IsBrokenOff, IsLeftOff, IsFaultless, IsReadToEnd, HasTaken, HasTakenFew, HasRisen, status_of};
ghost use Rattle.wl_session.specs.SessionView.{state_of};
ghost use Rattle.wl_session.specs.Stopping.{Played};
ghost use Rattle.wl_session.specs.Streaming.{IsBlamed};
ghost use Rattle.wl_session.specs.Transcript.{line_for, input_limit, cells_read};
ghost use Rattle.wl_session.specs.Words.{asked, words_of};

use crate::options::run_options;
use crate::session::Session;
use crate::streaming::{Stop, stream, write_whole};
use crate::words::asked;
use std::alloc::Global;
use wl_ports::{Failed, Ledger, Sink, Source, Work};
use wl_scan::Cells;

/// How a run ended: its status, from 0 to 6, and its session. There is none where the words were refused, or memory was
/// wanting before it was made.
#[derive(Drop)]
pub struct Ended {
    pub status: u8,
    pub session: Option<Session>,
}

/// Opens the source, answers its cells, and flushes what was written.
fn play<S: Source, K: Sink, L: Ledger>(
    name: Option<&str>,
    cells: &mut Cells,
    session: &mut Session,
    source: &mut S,
    out: &mut K,
    work: &mut Work<L>,
) -> Result<(), Stop>
    requires { cells.old ≡ start }
    ensures blamed { IsBlamed result (S.faults source.old) (S.faults source.new) (K.faults out.old) (K.faults out.new) }
    ensures played { Played result (S.left source.old) (S.left source.new) (state_of session.old) (state_of session.new)
        (K.held out.old) (K.held out.new) work.old work.new }
    ensures hit { IsSome (S.left source.old) → option_copied name.entry ≡ S.served source.old
        → (S.hits source.new ≡ next_count (S.hits source.old)) × (S.strays source.new ≡ S.strays source.old) }
    ensures stray { IsSome (S.left source.old) → option_copied name.entry ≢ S.served source.old
        → (S.hits source.new ≡ S.hits source.old) × (S.strays source.new ≡ next_count (S.strays source.old)) }
    ensures flushed { OnOk result (IsSome (K.held out.old) → K.flushed out.new ≡ Some true) }
{
    match source.open(name) {
        Ok(()) => {}
        Err(Failed) => return Err(Stop::ReadFault),
    }
    stream(cells, session, source, out, work)?;
    match out.flush() {
        Ok(()) => Ok(()),
        Err(Failed) => Err(Stop::WriteFault),
    }
}

/// The line on `err` for a status.
fn line_for(status: u8) -> &'static str
    ensures { result.now ≡ line_for status }
{
    match status {
        2 => "usage: wl [--steps N] [--form input|full] [--demo N] [FILE]\n",
        3 => "wl: read failed\n",
        4 => "wl: write failed\n",
        5 => "wl: out of memory\n",
        6 => "wl: input longer than 1073741824 bytes\n",
        _ => "",
    }
}

/// Tries the line for a status once.
fn report<E: Sink>(err: &mut E, status: u8)
    ensures { IsReported (line_for status) (E.held err.old) (E.held err.new) (E.faults err.old) (E.faults err.new) }
{
    let _ = write_whole(err, line_for(status).as_bytes());
}

/// The status of a run whose words were read.
fn status_of(played: &Result<(), Stop>, session: &Session) -> u8
    ensures { result ≡ status_of played.now session.now.flawed }
{
    match played {
        Ok(()) => { if session.is_flawed() { 1 } else { 0 } }
        Err(Stop::ReadFault) => 3,
        Err(Stop::WriteFault) => 4,
        Err(Stop::OutOfMemory) => 5,
        Err(Stop::TooLong) => 6,
    }
}

/// Answers the notebook that the words ask for.
///
/// The words are those after the program's name: none for standard input, or the name of a file. The bytes of a cell
/// are written before more is read; at the end `out` is flushed. The line of a status of 2 to 6 is tried once on `err`.
pub fn run<S: Source, K: Sink, E: Sink, L: Ledger>(
    alloc: Global,
    words: &[String],
    source: &mut S,
    out: &mut K,
    err: &mut E,
    work: &mut Work<L>,
) -> Ended
    ensures known { result.status ≤ 6 }

    // What is written and kept is the transcript's, whatever the pieces.
    ensures transcript { IfSome (S.left source.old) (λ bytes.
        ¬ Rose (S.faults source.old) (S.faults source.new) → ¬ Rose (K.faults out.old) (K.faults out.new) → result.status ≢ 5
        → IsTranscript (asked (words_of words.now)) bytes result (K.held out.old) (K.held out.new)) }
    ensures reported { IsReported (line_for result.status) (E.held err.old) (E.held err.new) (E.faults err.old) (E.faults err.new) }
    ensures flushed { result.status ≤ 1 → IsSome (K.held out.old) → K.flushed out.new ≡ Some true }
    ensures taken { HasTakenFew (S.left source.old) (S.left source.new) }

    // A count for each cell that was begun; those before stay as they were.
    ensures counts_kept { (cells : ℕ) × HasBegun cells work.old work.new }
    ensures counted { (result.status ≤ 1) ⊎ (result.status ≡ 6) → IfSome (S.left source.old) (λ bytes.
        HasBegun (length (cells_read (asked (words_of words.now)) bytes)) work.old work.new) }
    ensures uncounted { result.status ≡ 2 → work.new ≡ work.old }

    // After a failure it is that of the first cells.
    ensures cut_short { result.status ≡ 3 → IsCutShort result (S.left source.old) (S.left source.new)
        (K.held out.old) (K.held out.new) work.old work.new }
    ensures broken_off { result.status ≡ 4 → IfSome (S.left source.old) (λ bytes.
        IsBrokenOff (cells_read (asked (words_of words.now)) bytes) result (K.held out.old) (K.held out.new) work.old work.new) }
    ensures left_off { result.status ≡ 5 → IfSome (S.left source.old) (λ bytes.
        IsLeftOff (cells_read (asked (words_of words.now)) bytes) result (K.held out.old) (K.held out.new) work.old work.new) }

    // When each status comes.
    ensures usage { (result.status ≡ 2) ↔ IsNone (asked (words_of words.now)) }
    ensures read_fault_only { result.status ≡ 3 → Rose (S.faults source.old) (S.faults source.new) }
    ensures read_fault_when { S.faults source.old < S.faults source.new → result.status ≡ 3 }
    ensures write_fault_only { result.status ≡ 4 → Rose (K.faults out.old) (K.faults out.new) }
    ensures write_fault_when { K.faults out.old < K.faults out.new → result.status ≡ 4 }
    ensures too_long_only { result.status ≡ 6 → HasTaken (input_limit + 1) (S.left source.old) (S.left source.new) }
    ensures too_long_when { IsSome (asked (words_of words.now)) → IsSome (S.left source.old)
        → HasTaken (input_limit + 1) (S.left source.old) (S.left source.new)
        → IsFaultless (K.faults out.old) (K.faults out.new) → (result.status ≡ 6) ⊎ (result.status ≡ 5) }
    ensures read_to_end_only { result.status ≤ 1 → IsReadToEnd (S.left source.old) (S.left source.new) }
    ensures read_to_end_when { IsSome (asked (words_of words.now)) → IsSome (S.left source.old)
        → IsReadToEnd (S.left source.old) (S.left source.new) → IsFaultless (S.faults source.old) (S.faults source.new)
        → IsFaultless (K.faults out.old) (K.faults out.new) → (result.status ≤ 1) ⊎ (result.status ≡ 5) }

    ensures complete { IsSome (asked (words_of words.now)) → IfSome (S.left source.old) (λ bytes. length bytes ≤ input_limit
        → ¬ Rose (S.faults source.old) (S.faults source.new) → ¬ Rose (K.faults out.old) (K.faults out.new)
        → (result.status ≤ 1) ⊎ (result.status ≡ 5)) }

    // Which source is opened.
    ensures hit { IsSome (S.left source.old) → asked (words_of words.now) ≡ Some (S.served source.old)
        → HasRisen result.status (S.hits source.old) (S.hits source.new) × (S.strays source.new ≡ S.strays source.old) }
    ensures stray { IsSome (S.left source.old)
        → IfSome (asked (words_of words.now)) (λ name. name ≢ S.served source.old
        → (S.hits source.new ≡ S.hits source.old) × HasRisen result.status (S.strays source.old) (S.strays source.new)) }
    ensures unopened { result.status ≡ 2
        → (S.hits source.new ≡ S.hits source.old) × (S.strays source.new ≡ S.strays source.old) × (S.left source.new ≡ S.left source.old) }

    ensures no_session_only { IsNone result.session
        → (result.status ≡ 2) ⊎ ((result.status ≡ 5) × (work.new ≡ work.old) × (S.left source.new ≡ S.left source.old)) }
    ensures no_session_when { result.status ≡ 2 → IsNone result.session }
{
    let Some(name) = asked(words) else {
        report(err, 2);
        return Ended {
            status: 2,
            session: None,
        };
    };
    let Ok(mut session) = Session::new(alloc, run_options()) else {
        report(err, 5);
        return Ended {
            status: 5,
            session: None,
        };
    };
    let Ok(mut cells) = Cells::new(alloc) else {
        report(err, 5);
        return Ended {
            status: 5,
            session: Some(session),
        };
    };
    let played = play(name, &mut cells, &mut session, source, out, work);
    let status = status_of(&played, &session);
    report(err, status);
    Ended {
        status,
        session: Some(session),
    }
}
