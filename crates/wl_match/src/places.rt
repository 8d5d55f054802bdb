//! Short lists of places.
ghost use Rattle.std.specs.Prelude.{◌≡◌, ◌∷◌, ◌++◌, [], IfOk};

use smallvec::SmallVec;
use std::alloc::Global;
use std::marker::Model;
use wl_ports::Memory;

/// A list of places, without an allocation while it is short.
#[derive(Drop)]
pub(crate) struct Places {
    items: SmallVec<u32, 6>,
}

impl Model for Places {
    ghost use Rattle.std.specs.Prelude.{List, ℕ};

    ghost Value = { List ℕ };

    ghost view = { λ p. p.items.items };
}

impl Places {
    pub fn new(alloc: Global) -> Places
        ensures { result ≡ [] }
    {
        Places {
            items: SmallVec::new(alloc),
        }
    }

    pub fn of(alloc: Global, places: &[u32]) -> Result<Places, Memory>
        ensures { IfOk result (λ p. p ≡ places.now) }
    {
        Ok(Places {
            items: SmallVec::from_slice(alloc, places)?,
        })
    }

    pub fn copy(&self) -> Result<Places, Memory>
        ensures { IfOk result (λ p. p ≡ self.now) }
    {
        Places::of(*self.items.allocator(), self.items.as_slice())
    }

    /// The list with one more place behind.
    pub fn with(&self, place: u32) -> Result<Places, Memory>
        ensures { IfOk result (λ p. p ≡ self.now ++ place ∷ []) }
    {
        let mut all = self.copy()?;
        all.push(place)?;
        Ok(all)
    }

    pub fn push(&mut self, place: u32) -> Result<(), Memory>
        ensures { IfOk result (λ _. self.new ≡ self.old ++ place ∷ []) }
    {
        self.items.push(place)?;
        Ok(())
    }

    pub fn as_slice(&self) -> &[u32]
        ensures { result.now ≡ self.now }
    {
        self.items.as_slice()
    }
}
