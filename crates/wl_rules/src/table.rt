//! Entries by name, each at a place that stays.
ghost use Rattle.std.specs.Prelude.{◌≡◌, ◌<◌, ◌++◌, ◌^◌, [], ◌∷◌, None, Some, IfOk, OnOk, OnErr, MatchOption, length, slice_get};
ghost use Rattle.std.specs.Borrow.{sem};
ghost use Rattle.wl_rules.specs.Changes.{AreDistinct};
ghost use Rattle.wl_rules.specs.Entries.{value_at};
ghost use Rattle.wl_rules.specs.Lending.{LendsEntry};
ghost use Rattle.wl_rules.specs.Starting.{with_row};
ghost use Rattle.wl_rules.specs.Stored.{new_slot, row_at};

use crate::entry::Entry;
use indexmap::IndexMap;
use std::alloc::Global;
use std::marker::Model;
use wl_ports::Memory;

/// Entries by name, in the order in which they came.
#[derive(Drop)]
pub(crate) struct Table {
    entries: IndexMap<String, Entry>,
}

impl Model for Table {
    ghost use Rattle.std.specs.Prelude.{List};
    ghost use Rattle.wl_expr.specs.Words.{Name};
    ghost use Rattle.wl_rules.specs.Stored.{Slot};
    ghost use Rattle.wl_rules.specs.StoredCodes.{rows_code};

    ghost Value = { List (Name × Slot) };

    ghost coded = { rows_code };

    ghost use Rattle.wl_rules.specs.TableInside.{rows_of};

    ghost view = { rows_of };
}

impl Table {
    pub(crate) fn new(alloc: Global) -> Table
        ensures { result ≡ [] }
    {
        Table {
            entries: IndexMap::new(alloc),
        }
    }

    /// The place and the entry of a name.
    pub(crate) fn find(&self, name: &str) -> Option<(usize, &Entry)>
        ensures found { MatchOption result (value_at name.now self.now ≡ None)
            (λ p. (slice_get self.now p.0 ≡ Some (name.now, p.1.now)) × (value_at name.now self.now ≡ Some p.1.now)) }
        ensures small { length self.now < 2 ^ 63 }
    {
        let _len = self.entries.len();
        match self.entries.get_full(name) {
            None => None,
            Some((at, _, entry)) => Some((at, entry)),
        }
    }

    pub(crate) fn at(&self, at: usize) -> &Entry
        requires { at < length self.now }
        ensures { result.now ≡ (row_at at self.now).1 }
    {
        &self.entries[at]
    }

    pub(crate) fn at_mut(&mut self, at: usize) -> &mut Entry
        requires { at < length self.old }
        ensures* writes_back { sem 𝓛 (LendsEntry self.entry at result) }
        ensures value { result.now ≡ (row_at at self.old).1 }
        ensures distinct { AreDistinct self.old }
    {
        let _len = self.entries.len();
        &mut self.entries[at]
    }

    /// Puts an entry in the place of a name's own, or behind the others where the name is new.
    pub(crate) fn put(&mut self, alloc: Global, name: &str, entry: Entry) -> Result<(), Memory>
        ensures { OnOk result (self.new ≡ with_row name.now entry self.old) }
    {
        let name = String::from_str(alloc, name)?;
        self.entries.insert(name, entry)?;
        Ok(())
    }

    /// Adds an empty entry behind the others, and gives its place.
    pub(crate) fn add(&mut self, alloc: Global, name: &str) -> Result<usize, Memory>
        requires { value_at name.now self.old ≡ None }
        ensures place { IfOk result (λ at. at ≡ length self.old) }
        ensures ok { OnOk result (self.new ≡ self.old ++ (name.now, new_slot) ∷ []) }
        ensures err { OnErr result (self.new ≡ self.old) }
    {
        let at = self.entries.len();
        let name = String::from_str(alloc, name)?;
        self.entries.insert(name, Entry::empty(alloc))?;
        Ok(at)
    }
}
