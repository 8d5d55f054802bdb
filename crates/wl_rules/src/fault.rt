//! Why the store refused a change.
use thiserror::Error;
use wl_ports::Memory;

/// Why the store refused a change.
#[derive(Debug, Drop, Error)]
pub enum StoreFault {
    /// Want of memory.
    #[error("Memory")]
    Memory,
    /// The symbol has the attribute Protected.
    #[error("Protected")]
    Protected,
}

impl From<Memory> for StoreFault {
    ghost use Rattle.std.specs.Prelude.{◌≡◌};
    ghost use Rattle.wl_rules.specs.declared.fault.StoreFault.TheVariants as fault;

    ghost from_gives = { λ _ e. e ≡ fault.Memory };

    fn from(_: Memory) -> StoreFault {
        StoreFault::Memory
    }
}
