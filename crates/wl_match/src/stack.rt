//! What is to be done, as lists that share what follows.
ghost use Rattle.std.specs.Prelude.{◌≡◌, ◌++◌, ◌∷◌, [], length, take, IfOk, MatchResult};
ghost use Rattle.wl_match.specs.Means.{Firsts};

use crate::taken::Goal;
use std::alloc::Global;
use wl_ports::Memory;

/// A goal, and how many cells there are up to the one of the next goal.
#[derive(Drop)]
pub(crate) struct Cell {
    pub goal: Goal,
    pub next: usize,
}

/// Lists of goals. A list is named by how many cells there are up to its first.
#[derive(Drop)]
pub(crate) struct Stack {
    pub cells: Vec<Cell>,
}

impl Stack {
    pub fn new(alloc: Global) -> Stack
        ensures { result.cells.items ≡ [] }
    {
        Stack {
            cells: Vec::new(alloc),
        }
    }

    pub fn len(&self) -> usize
        ensures { result ≡ length self.now.cells.items }
    {
        self.cells.len()
    }

    /// A list with this goal before another list.
    pub fn put(&mut self, goal: Goal, next: usize) -> Result<usize, Memory>
        ensures { MatchResult result
            (λ n. (self.new.cells.items ≡ self.old.cells.items ++ record { goal = goal; next = next } ∷ []) × (n ≡ length self.new.cells.items))
            (λ _. self.new.cells.items ≡ self.old.cells.items) }
    {
        self.cells.push(Cell { goal, next })?;
        Ok(self.cells.len())
    }

    /// The first goal of a list, and the list of the others.
    pub fn first(&self, list: usize) -> Result<Option<(Goal, usize)>, Memory>
        ensures { IfOk result (λ o. Firsts self.now.cells.items list o) }
    {
        let cells = self.cells.as_slice();
        let count = list.min(cells.len());
        if count == 0 {
            return Ok(None);
        }
        let cell = &cells[count - 1];
        Ok(Some((cell.goal.copy()?, cell.next.min(count - 1))))
    }

    /// Only the oldest cells stay.
    pub fn cut(&mut self, len: usize)
        ensures { self.new.cells.items ≡ take len self.old.cells.items }
    {
        self.cells.truncate(len);
    }
}
