//! What a session counts.
ghost use Rattle.std.specs.Prelude.{◌≡◌};
ghost use Rattle.wl_session.specs.Line.{counted};

/// The cells that were answered or refused, those that were refused, and the steps of all. Each stands still at its greatest value.
#[derive(Clone, Copy)]
pub struct Counts {
    pub cells: u64,
    pub refused: u64,
    pub steps: u64,
}

/// So many more, up to the greatest number.
pub(crate) fn counted(count: u64, more: u64) -> u64
    ensures { result ≡ counted count more }
{
    count.saturating_add(more)
}
