//! What stands for names where they are filled.
ghost use Rattle.std.specs.Prelude.{◌≡◌, ◌↔◌, ◌&&◌, [], IfOk, IfSome, IsTrue, List, OnOk, is_some, not, option_map, true};
ghost use Rattle.wl_expr.specs.Passed.{IsFrom};
ghost use Rattle.wl_expr.specs.Stamped.{Stamped, plain};
ghost use Rattle.wl_expr.specs.Words.{Name};
ghost use Rattle.wl_shape.specs.Held.{IsKnown, IsReady, ValuesFrom, found, put_value, value_tree, values_in};
ghost use Rattle.wl_shape.specs.Names.{has_name, has_tree};

use crate::names::{Names, add_names, has, put, put_all};
use indexmap::{IndexMap, IndexSet};
use std::alloc::Global;
use std::rc::Rc;
use wl_expr::Expr;
use wl_ports::Memory;

/// A tree that stands for a name.
#[derive(Drop)]
pub(crate) struct Value {
    pub tree: Expr,
    /// The names in the tree, where they are looked at.
    pub names: Names,
}

/// What stands for each name.
#[derive(Drop)]
pub(crate) struct Values {
    map: IndexMap<Expr, Rc<Value>>,
    /// The names that have a value or stand in one.
    near: Names,
}

/// The tree as a value. Its names are looked at where they are to be known.
pub(crate) fn value_of(alloc: Global, tree: Expr, known: bool) -> Result<Rc<Value>, Memory>
    ensures tree { IfOk result (λ v. v.value.tree ≡ tree) }
    ensures known { known ≡ true → IfOk result (λ v. IsKnown v.value) }
{
    let mut names = IndexSet::new(alloc);
    if known {
        add_names(&tree, &mut names)?;
    }
    Ok(Rc::new(alloc, Value { tree, names })?)
}

impl Values {
    pub fn new(alloc: Global) -> Values
        ensures { result.map.entries ≡ [] }
    {
        Values {
            map: IndexMap::new(alloc),
            near: IndexSet::new(alloc),
        }
    }

    pub fn is_empty(&self) -> bool
        ensures { IsTrue result ↔ (self.now.map.entries ≡ []) }
    {
        self.map.is_empty()
    }

    /// What stands for the symbol.
    pub fn get(&self, symbol: &Expr) -> Option<&Rc<Value>>
        ensures tree { option_map (λ r. value_tree r.now) result ≡ found self.now.map.entries (plain symbol.now) }
        ensures known { IsReady self.now → IfSome result (λ r. IsKnown r.now.value) }
        ensures passed { (ms : List Stamped) → ValuesFrom ms self.now → IfSome result (λ r. IsFrom ms r.now.value.tree) }
    {
        self.map.get(symbol)
    }

    /// Whether the name has a value or stands in one. It may be said of others too.
    pub fn is_near(&self, symbol: &Expr) -> bool
        ensures { result ≡ has_tree self.now.near.keys (plain symbol.now) }
    {
        has(&self.near, symbol)
    }

    /// Puts the value in the place of another.
    pub fn put(&mut self, symbol: &Expr, value: Rc<Value>) -> Result<(), Memory>
        ensures value { OnOk result ((x : Name)
            → values_in self.new x ≡ put_value (values_in self.old) (plain symbol.now) (value_tree value) x) }
        ensures ready { IsReady self.old → IsKnown value.value → OnOk result (IsReady self.new) }
        ensures passed { (ms : List Stamped) → ValuesFrom ms self.old → IsFrom ms value.value.tree
            → OnOk result (ValuesFrom ms self.new) }
    {
        put(&mut self.near, symbol)?;
        put_all(&mut self.near, value.names.as_slice())?;
        self.map.insert(symbol.copy()?, value)?;
        Ok(())
    }

    /// The names that have a value, but for these.
    pub fn names_but(&self, alloc: Global, shadowed: &Names) -> Result<Names, Memory>
        ensures { IfOk result (λ s. (x : Name) → has_name s.keys x
            ≡ (is_some (values_in self.now x) && not (has_name shadowed.now.keys x))) }
    {
        let mut names = IndexSet::new(alloc);
        for at in 0..self.map.len() {
            let Some((symbol, _)) = self.map.get_index(at) else {
                break;
            };
            if !has(shadowed, symbol) {
                put(&mut names, symbol)?;
            }
        }
        Ok(names)
    }
}
