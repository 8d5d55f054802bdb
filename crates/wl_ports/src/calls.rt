//! The calls of an object in memory, counted so that listed ones can fail.
ghost use Rattle.std.specs.Prelude.{◌≡◌, ◌↔◌, Contains, IsTrue};
ghost use Rattle.wl_ports.specs.Memory.{next_call};

/// Past every number of a call that a list can have.
const PAST: u128 = 18_446_744_073_709_551_616;

pub(crate) fn is_listed(fails: &[u64], call: u128) -> bool
    ensures { IsTrue result ↔ Contains fails.now call }
{
    for number in fails {
        if *number as u128 == call {
            return true;
        }
    }
    false
}

pub(crate) fn after(call: u128) -> u128
    ensures { result ≡ next_call call }
{
    if call < PAST { call + 1 } else { PAST }
}
