//! What a stamp holds: the names that an evaluation read, and what it cost.
ghost use Rattle.std.specs.Prelude.{◌≡◌, [], ◌∷◌, ◌++◌, length, slice_get, OnOk, OnErr};

use std::alloc::Global;
use std::marker::Model;
use wl_ports::Memory;

/// Reads in order, each a name's index and the version that was read.
#[derive(Debug, Drop)]
pub struct ReadList {
    items: Vec<(u64, u64)>,
}

impl Model for ReadList {
    ghost use Rattle.std.specs.Prelude.{List, ℕ};

    ghost Value = { List (ℕ × ℕ) };

    ghost view = { λ r. r.items.items };
}

impl ReadList {
    /// No read.
    pub fn new(alloc: Global) -> ReadList
        ensures { result ≡ [] }
    {
        ReadList {
            items: Vec::new(alloc),
        }
    }

    /// Puts a read behind the others: the name of this index was read at this version.
    pub fn push(&mut self, index: u64, version: u64) -> Result<(), Memory>
        ensures ok { OnOk result (self.new ≡ self.old ++ (index, version) ∷ []) }
        ensures err { OnErr result (self.new ≡ self.old) }
    {
        self.items.push((index, version))?;
        Ok(())
    }

    /// How many reads there are.
    pub fn len(&self) -> usize
        ensures { result ≡ length self.now }
    {
        self.items.len()
    }

    /// The k-th read, from 0 on: its name's index and its version.
    pub fn at(&self, k: usize) -> Option<(u64, u64)>
        ensures { result ≡ slice_get self.now k }
    {
        self.items.get(k).copied()
    }
}

/// What an evaluation that changed nothing read, and the steps, the depth and the turns that it took.
#[derive(Debug, Drop)]
pub struct Stamp {
    pub reads: ReadList,
    /// Steps of the budget.
    pub steps: u64,
    /// The greatest number of evaluations within one another.
    pub depth: u32,
    /// The most turns of one evaluation.
    pub turns: u32,
}
