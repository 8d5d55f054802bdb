//! What a call did, counted in proofs alone: it takes no bytes, and its calls do nothing at run time.
ghost use Rattle.std.specs.Prelude.{◌≡◌, ℕ, List, [], ◌∷◌, ◌++◌};
ghost use Rattle.std.specs.Borrow.{ftrue};
ghost use Rattle.wl_ports.specs.Counted.{add_to_last};

use std::marker::Model;

/// The counts themselves. They exist only in proofs.
#[derive(Drop)]
struct Counts {
    ghost list: { List ℕ },
}

impl Model for Counts {
    ghost also_owns = { λ _. ftrue };
}

impl Counts {
    fn start() -> Counts
        ensures { result.list ≡ 0 ∷ [] }
    {
        Counts {}
    }

    fn ticked(&self) -> Counts
        ensures { result.list ≡ add_to_last 1 self.now.list }
    {
        Counts {}
    }

    fn marked(&self) -> Counts
        ensures { result.list ≡ self.now.list ++ 0 ∷ [] }
    {
        Counts {}
    }
}

/// Whose work is counted.
pub trait Ledger {}

/// The ledger of a caller that counts nothing.
#[derive(Drop)]
pub struct NoLedger;

impl Ledger for NoLedger {}

/// A list of counts. `tick` adds to the last one, `mark` begins the next.
#[derive(Drop)]
pub struct Work<L> {
    ledger: L,
    counts: Counts,
}

impl<L> Model for Work<L> {
    ghost Value = { List ℕ };

    ghost view = { λ w. w.counts.list };
}

impl<L: Ledger> Work<L> {
    /// One count, which is 0.
    pub fn new(ledger: L) -> Work<L>
        ensures { result ≡ 0 ∷ [] }
    {
        Work {
            ledger,
            counts: Counts::start(),
        }
    }

    /// One more on the last count.
    pub fn tick(&mut self)
        ensures { self.new ≡ add_to_last 1 self.old }
    {
        self.counts = self.counts.ticked();
    }

    /// Begins the next count, at 0.
    pub fn mark(&mut self)
        ensures { self.new ≡ self.old ++ 0 ∷ [] }
    {
        self.counts = self.counts.marked();
    }
}
