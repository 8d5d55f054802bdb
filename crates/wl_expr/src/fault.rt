//! Why an expression wasn't made.
use std::alloc::{AllocError, AllocFailed};
use thiserror::Error;
use wl_ports::Memory;

/// Why an expression wasn't made.
#[derive(Debug, Drop, Error)]
pub enum ExprFault {
    /// Want of memory.
    #[error("Memory")]
    Memory,
    /// The expression would pass the greatest weight or the greatest depth.
    #[error("Large")]
    Large,
}

impl From<Memory> for ExprFault {
    ghost use Rattle.std.specs.Prelude.{◌≡◌};
    ghost use Rattle.wl_expr.specs.declared.fault.ExprFault.TheVariants as fault;

    ghost from_gives = { λ _ e. e ≡ fault.Memory };

    fn from(_: Memory) -> ExprFault {
        ExprFault::Memory
    }
}

impl From<AllocError> for ExprFault {
    ghost use Rattle.std.specs.Prelude.{◌≡◌};
    ghost use Rattle.wl_expr.specs.declared.fault.ExprFault.TheVariants as fault;

    ghost from_gives = { λ _ e. e ≡ fault.Memory };

    fn from(_: AllocError) -> ExprFault {
        ExprFault::Memory
    }
}

impl<T: Drop> From<AllocFailed<T>> for ExprFault {
    ghost use Rattle.std.specs.Prelude.{◌≡◌};
    ghost use Rattle.wl_expr.specs.declared.fault.ExprFault.TheVariants as fault;

    ghost from_gives = { λ _ e. e ≡ fault.Memory };

    fn from(_: AllocFailed<T>) -> ExprFault {
        ExprFault::Memory
    }
}
