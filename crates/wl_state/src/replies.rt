//! What a row of loops and branches is told, and what comes of its questions.
ghost use Rattle.std.specs.Prelude.{◌≡◌, List};
ghost use Rattle.wl_control.specs.Places.{LastIsFrom, told};
ghost use Rattle.wl_expr.specs.Stamped.{Stamped};
ghost use Rattle.wl_state.specs.Replies.{IsCaught, ReplyIsFrom, is_memory, stops_by_memory, told_by};

use crate::ends::{End, Stop};
use wl_control::Last;
use wl_expr::Expr;

/// The answer to a question, or the first call.
#[derive(Drop)]
pub enum Reply {
    Start,
    Value(Expr),
    Matched(bool),
    Went,
    Broke,
    Continued,
}

/// What comes of a question.
#[derive(Drop)]
pub enum Outcome {
    /// The row goes on with this answer.
    Goes(Reply),
    /// The row ends, with a result or none.
    Ends(Option<Expr>),
}

/// The answer, lent to the row.
pub(crate) fn lent(reply: &Reply) -> Last<'_>
    ensures value { told result ≡ told_by reply.now }
    ensures passed { (ms : List Stamped) → ReplyIsFrom ms reply.now → LastIsFrom ms result }
{
    match reply {
        Reply::Start => Last::Start,
        Reply::Value(value) => Last::Value(value),
        Reply::Matched(matched) => Last::Matched(*matched),
        Reply::Went => Last::Went,
        Reply::Broke => Last::Broke,
        Reply::Continued => Last::Continued,
    }
}

/// The answer that an end is, where Break and Continue are caught.
pub fn caught(end: End) -> Result<Reply, Stop>
    ensures { IsCaught end result }
{
    match end {
        End::Value(value) => Ok(Reply::Value(value)),
        End::Thrown(value, tag) => Err(Stop::Thrown(value, tag)),
        End::Aborted => Err(Stop::Aborted),
        End::BudgetEnded => Err(Stop::BudgetEnded),
        End::Broke => Ok(Reply::Broke),
        End::Continued => Ok(Reply::Continued),
    }
}

/// Whether memory ran out.
pub fn stops_by_memory<X>(answer: &Result<X, Stop>) -> bool
    ensures { result ≡ stops_by_memory answer.now }
{
    match answer {
        Err(stop) => is_memory(stop),
        Ok(_) => false,
    }
}

/// Whether it is that memory ran out.
fn is_memory(stop: &Stop) -> bool
    ensures { result ≡ is_memory stop.now }
{
    match stop {
        Stop::Memory => true,
        _ => false,
    }
}
