//! Laws over the definitions of a transcript, each proved as the contract of a function that does nothing.
ghost use Rattle.wl_session.specs.Laws.{OneTranscript};
ghost use Rattle.wl_session.specs.WorkedLines.{WorkedLines};

use wl_syntax::laws::one_answer;

/// A command line and the bytes of its source have one transcript.
pub fn one_transcript()
    ensures { OneTranscript }
{
    one_answer();
}

/// What is written for the cells of a few sessions.
pub fn worked_lines()
    ensures { WorkedLines }
{}
