//! Sets of names: those that stand in an expression.
ghost use Rattle.std.specs.Prelude.{◌≡◌, ◌||◌, IfOk, OnOk};
ghost use Rattle.std.specs.List.{list_any};
ghost use Rattle.wl_expr.specs.Stamped.{plain, plains, from_list};
ghost use Rattle.wl_expr.specs.Words.{Name};
ghost use Rattle.wl_shape.specs.Fill as fill;
ghost use Rattle.wl_shape.specs.Names.{has_name, has_tree, HasMore, HasOneMore};

use indexmap::IndexSet;
use std::alloc::Global;
use wl_expr::{Expr, Look};
use wl_ports::Memory;

/// Symbols, each once.
pub(crate) type Names = IndexSet<Expr>;

/// Whether the symbol is in the set.
pub(crate) fn has(names: &Names, symbol: &Expr) -> bool
    ensures { result ≡ has_tree names.now.keys (plain symbol.now) }
{
    names.contains(symbol)
}

/// Whether one of the symbols is in the set.
pub(crate) fn has_any(names: &Names, symbols: &[Expr]) -> bool
    ensures { result ≡ list_any (λ e. has_tree names.now.keys (plain e)) symbols.now }
{
    for symbol in symbols {
        if has(names, symbol) {
            return true;
        }
    }
    false
}

/// Adds the symbol.
pub(crate) fn put(names: &mut Names, symbol: &Expr) -> Result<(), Memory>
    ensures { OnOk result (HasOneMore names.old.keys names.new.keys (plain symbol.now)) }
{
    names.insert(symbol.copy()?)?;
    Ok(())
}

/// Adds the symbols.
pub(crate) fn put_all(names: &mut Names, symbols: &[Expr]) -> Result<(), Memory>
    ensures { OnOk result ((x : Name) → has_name names.new.keys x ≡ (has_name names.old.keys x || has_name symbols.now x)) }
{
    for symbol in symbols {
        put(names, symbol)?;
    }
    Ok(())
}

/// The symbols as a set.
pub(crate) fn set_of(alloc: Global, symbols: &[Expr]) -> Result<Names, Memory>
    ensures { IfOk result (λ s. (x : Name) → has_name s.keys x ≡ has_name symbols.now x) }
{
    let mut names = IndexSet::new(alloc);
    put_all(&mut names, symbols)?;
    Ok(names)
}

/// Adds the names in the expression.
#[cycle(names)]
pub(crate) fn add_names(e: &Expr, names: &mut Names) -> Result<(), Memory>
    ensures { OnOk result (HasMore names.old.keys names.new.keys (fill.names (plain e.now))) }
{
    match e.view() {
        Look::Symbol(_) => put(names, e),
        Look::Node(head, args) => {
            add_names(head, names)?;
            add_all_names(args, names)
        }
        _ => Ok(()),
    }
}

#[cycle(names)]
#[tactic(auto, using(wl_expr::proofs::Parts::depth_arg))]
fn add_all_names(args: &[Expr], names: &mut Names) -> Result<(), Memory>
    ensures { OnOk result (HasMore names.old.keys names.new.keys (fill.names_all (plains (from_list args.now)))) }
{
    for arg in args {
        add_names(arg, names)?;
    }
    Ok(())
}
