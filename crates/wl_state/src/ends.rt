//! How evaluations, parts of turns and turns end.
ghost use Rattle.std.specs.Prelude.{◌≡◌};
ghost use Rattle.wl_state.specs.Played.{Stops, Valued};
ghost use Rattle.wl_state.specs.declared.ends.Stop.TheVariants.{Memory};

use std::alloc::{AllocError, AllocFailed};
use wl_expr::Expr;

/// How an evaluation ends.
#[derive(Drop)]
pub enum End {
    Value(Expr),
    /// A Throw that was not caught, and its tag where it has one.
    Thrown(Expr, Option<Expr>),
    Aborted,
    BudgetEnded,
    Broke,
    Continued,
}

/// Why a part of a turn stops.
#[derive(Drop)]
pub enum Stop {
    Memory,
    Thrown(Expr, Option<Expr>),
    Aborted,
    BudgetEnded,
    Broke,
    Continued,
}

impl From<wl_ports::Memory> for Stop {
    ghost from_gives = { λ _ e. e ≡ Memory };

    fn from(_: wl_ports::Memory) -> Stop {
        Stop::Memory
    }
}

impl From<AllocError> for Stop {
    ghost from_gives = { λ _ e. e ≡ Memory };

    fn from(_: AllocError) -> Stop {
        Stop::Memory
    }
}

impl<T: Drop> From<AllocFailed<T>> for Stop {
    ghost from_gives = { λ _ e. e ≡ Memory };

    fn from(_: AllocFailed<T>) -> Stop {
        Stop::Memory
    }
}

/// What a turn gives.
#[derive(Drop)]
pub enum Turned {
    /// The final expression, and whether head and evaluated elements came back settled.
    Final(Expr, bool),
    /// The subject of the next turn.
    Next(Expr),
}

/// The value of an end, or the end as a stop.
pub fn valued(end: End) -> Result<Expr, Stop>
    ensures { Valued end result }
{
    match end {
        End::Value(v) => Ok(v),
        End::Thrown(v, t) => Err(Stop::Thrown(v, t)),
        End::Aborted => Err(Stop::Aborted),
        End::BudgetEnded => Err(Stop::BudgetEnded),
        End::Broke => Err(Stop::Broke),
        End::Continued => Err(Stop::Continued),
    }
}

/// The end of an evaluation of which a turn stopped.
pub fn ended(stop: Stop) -> Result<End, Stop>
    ensures { Stops stop result }
{
    match stop {
        Stop::Memory => Err(Stop::Memory),
        Stop::Thrown(v, t) => Ok(End::Thrown(v, t)),
        Stop::Aborted => Ok(End::Aborted),
        Stop::BudgetEnded => Ok(End::BudgetEnded),
        Stop::Broke => Ok(End::Broke),
        Stop::Continued => Ok(End::Continued),
    }
}
