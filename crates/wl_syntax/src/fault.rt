//! Why a cell has no expression.
use std::alloc::{AllocError, AllocFailed};
use thiserror::Error;
use wl_ports::Memory;
use wl_scan::ScanFault;

/// Why a cell has no expression; of several the first of these.
#[derive(Debug, Drop, Error)]
pub enum SyntaxFault {
    /// The bytes aren't UTF-8.
    #[error("NotUtf8")]
    NotUtf8,
    /// A token is at fault.
    #[error("Scan")]
    Scan(ScanFault),
    /// The tokens are the beginning of a right text.
    #[error("Unclosed")]
    Unclosed,
    /// No right text begins with the tokens up to the one at this byte, counted from 1.
    #[error("Unexpected")]
    Unexpected(u32),
    /// The tree is deeper than 400.
    #[error("TooDeep")]
    TooDeep,
    /// Want of memory.
    #[error("Memory")]
    Memory,
}

impl From<AllocError> for SyntaxFault {
    ghost use Rattle.std.specs.Prelude.{◌≡◌};
    ghost use Rattle.wl_syntax.specs.declared.fault.SyntaxFault.TheVariants as fault;

    ghost from_gives = { λ _ e. e ≡ fault.Memory };

    fn from(_: AllocError) -> SyntaxFault {
        SyntaxFault::Memory
    }
}

impl<T: Drop> From<AllocFailed<T>> for SyntaxFault {
    ghost use Rattle.std.specs.Prelude.{◌≡◌};
    ghost use Rattle.wl_syntax.specs.declared.fault.SyntaxFault.TheVariants as fault;

    ghost from_gives = { λ _ e. e ≡ fault.Memory };

    fn from(_: AllocFailed<T>) -> SyntaxFault {
        SyntaxFault::Memory
    }
}
