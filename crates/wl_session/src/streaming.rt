//! A source is read in pieces, its bytes are cut into cells, and each cell is answered before more is read.
ghost use Rattle.std.specs.Prelude.{◌≡◌, ◌≤◌, ◌<◌, ◌+◌, ◌^◌, ◌++◌, ℕ, List, [], ◌∷◌, length, take, IfOk, IfErr, OnOk, OnErr, IsTrue, MatchResult, Result, Ok, Err};
ghost use Rattle.std.specs.Io.KnownBytes.{Appends, Consumes, Keeps, IsAtEnd};
ghost use Rattle.wl_ports.specs.Causes.{HasCause};
ghost use Rattle.wl_scan.specs.Cells.{start, ended, remainder, text_of};
ghost use Rattle.wl_session.specs.Transcript.{texts};
ghost use Rattle.wl_session.specs.Pieces.{IsWrittenInPart};
ghost use Rattle.wl_session.specs.SessionView.{state_of};
ghost use Rattle.wl_session.specs.Stopping.{HasStopped, Played};
ghost use Rattle.wl_session.specs.Streaming.{HasAnswered, HasFed, OutIsBlamed, IsBlamed};

use crate::session::Session;
use wl_ports::{Failed, Ledger, Memory, Sink, Source, Work};
use wl_scan::Cells;

/// The longest input that is read, in bytes.
const INPUT_LIMIT: u64 = 1_073_741_824;

/// The longest piece that is asked for, in bytes.
const PIECE: usize = 4_096;

const _: () = prove!(PIECE <= 4_096);

/// Why a run stops before all its cells are answered.
#[derive(Drop, Clone, Copy)]
pub(crate) enum Stop {
    ReadFault,
    WriteFault,
    OutOfMemory,
    TooLong,
}

/// Writes on until all of the piece is taken.
pub(crate) fn write_whole<K: Sink>(out: &mut K, piece: &[u8]) -> Result<(), Failed>
    ensures cause { HasCause (K.faults out.old) (K.faults out.new) result }
    ensures whole { OnOk result (Appends (K.held out.old) (K.held out.new) piece.now) }
    ensures part { OnErr result (IsWrittenInPart piece.now (K.held out.old) (K.held out.new)) }
{
    let mut at = 0;
    while at < piece.len() {
        match out.write(&piece[at..]) {
            Ok(count) => at += count,
            Err(Failed) => return Err(Failed),
        }
    }
    Ok(())
}

/// One read of at most `room` bytes. All reads of a run are made here.
pub(crate) fn read_piece<S: Source>(
    source: &mut S,
    piece: &mut [u8],
    room: u64,
) -> Result<usize, Failed>
    requires space { 0 < length piece.old }
    requires piece { length piece.old ≤ 4096 }
    requires room { 0 < room }
    ensures cause { HasCause (S.faults source.old) (S.faults source.new) result }
    ensures within { IfOk result (λ n. n ≤ room) }
    ensures bound { IfOk result (λ n. n ≤ length piece.new) }
    ensures bytes { MatchResult result (λ n. Consumes (S.left source.old) (S.left source.new) (take n piece.new))
        (λ _. Keeps (S.left source.old) (S.left source.new)) }
    ensures end { IfOk result (λ n. n ≡ 0 → IsAtEnd (S.left source.new)) }
    ensures hits { S.hits source.new ≡ S.hits source.old }
    ensures strays { S.strays source.new ≡ S.strays source.old }
{
    let most = if room < piece.len() as u64 {
        room as usize
    } else {
        piece.len()
    };
    source.read(&mut piece[..most])
}

/// Answers the cell that was just told of, and writes its bytes.
fn answer_cell<K: Sink, L: Ledger>(
    cells: &Cells,
    session: &mut Session,
    out: &mut K,
    work: &mut Work<L>,
) -> Result<(), Stop>
    requires { IsTrue cells.now.told }
    ensures blamed { OutIsBlamed result (K.faults out.old) (K.faults out.new) }
    ensures answered { OnOk result (HasAnswered (state_of session.old) (state_of session.new)
        (K.held out.old) (K.held out.new) work.old work.new (text_of cells.now ∷ [])) }
    ensures stopped { IfErr result (λ stop. HasStopped stop (state_of session.old) (state_of session.new)
        (K.held out.old) (K.held out.new) work.old work.new (text_of cells.now ∷ [])) }
{
    work.mark();
    match session.line(cells.cell(), work) {
        Ok(_) => {}
        Err(Memory) => return Err(Stop::OutOfMemory),
    }
    match write_whole(out, session.pending()) {
        Ok(()) => Ok(()),
        Err(Failed) => Err(Stop::WriteFault),
    }
}

/// Cuts a piece, and answers each cell that ends within it.
fn feed<K: Sink, L: Ledger>(
    cells: &mut Cells,
    session: &mut Session,
    piece: &[u8],
    out: &mut K,
    work: &mut Work<L>,
) -> Result<(), Stop>
    requires { cells.old.taken + length piece.now ≤ 2 ^ 62 }
    ensures blamed { OutIsBlamed result (K.faults out.old) (K.faults out.new) }
    ensures fed { OnOk result (HasFed cells.old cells.new (state_of session.old) (state_of session.new)
        (K.held out.old) (K.held out.new) work.old work.new piece.now) }
    ensures stopped { IfErr result (λ stop. HasStopped stop (state_of session.old) (state_of session.new)
        (K.held out.old) (K.held out.new) work.old work.new (texts (ended cells.old piece.now))) }
{
    let mut at = 0;
    while at < piece.len() {
        let fed = cells.feed(&piece[at..]);
        at += fed.used;
        if fed.cell {
            answer_cell(cells, session, out, work)?;
        }
    }
    Ok(())
}

/// Ends the text, and answers its rest where that is a cell.
fn answer_rest<K: Sink, L: Ledger>(
    cells: &mut Cells,
    session: &mut Session,
    out: &mut K,
    work: &mut Work<L>,
) -> Result<(), Stop>
    ensures blamed { OutIsBlamed result (K.faults out.old) (K.faults out.new) }
    ensures answered { OnOk result (HasAnswered (state_of session.old) (state_of session.new)
        (K.held out.old) (K.held out.new) work.old work.new (texts (remainder cells.old))) }
    ensures stopped { IfErr result (λ stop. HasStopped stop (state_of session.old) (state_of session.new)
        (K.held out.old) (K.held out.new) work.old work.new (texts (remainder cells.old))) }
{
    if !cells.finish() {
        return Ok(());
    }
    answer_cell(cells, session, out, work)
}

/// Reads the source to its end, and answers each cell before more is read.
pub(crate) fn stream<S: Source, K: Sink, L: Ledger>(
    cells: &mut Cells,
    session: &mut Session,
    source: &mut S,
    out: &mut K,
    work: &mut Work<L>,
) -> Result<(), Stop>
    requires { cells.old ≡ start }
    ensures blamed { IsBlamed result (S.faults source.old) (S.faults source.new) (K.faults out.old) (K.faults out.new) }
    ensures hits { S.hits source.new ≡ S.hits source.old }
    ensures strays { S.strays source.new ≡ S.strays source.old }
    ensures played { Played result (S.left source.old) (S.left source.new) (state_of session.old) (state_of session.new)
        (K.held out.old) (K.held out.new) work.old work.new }
{
    let mut piece = [0u8; PIECE];
    let mut room = INPUT_LIMIT + 1;
    'pieces: loop {
        let count = match read_piece(source, &mut piece, room) {
            Ok(0) => return answer_rest(cells, session, out, work),
            Ok(count) => count,
            Err(Failed) => return Err(Stop::ReadFault),
        };
        if count as u64 == room {
            feed(cells, session, &piece[..count - 1], out, work)?;
            return Err(Stop::TooLong);
        }
        feed(cells, session, &piece[..count], out, work)?;
        room -= count as u64;
    }
}
