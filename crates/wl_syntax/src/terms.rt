//! Expressions of parts that are made here, without stamps. What is made is within the limits of an expression, so that
//! only want of memory is left to answer.
//!
//! Here and in `atoms.rt`, `lower.rt` and `build.rt` a call's answer is opened and closed again, by `Ok(f(..)?)`, where the
//! clause of the caller isn't that of the call: its proof is about the expression and not about the answer.
ghost use Rattle.std.specs.Prelude.{◌≡◌, ◌≤◌, ◌<◌, IfOk, List, Some, None, true, length};
ghost use Rattle.wl_expr.specs.Stamped.{Stamped, node as stamped_node, from_list, symbol as stamped_symbol, text as stamped_text, unstamped};
ghost use Rattle.wl_expr.specs.Tree as full;
ghost use Rattle.wl_expr.specs.Tree.{IsWithinLimits};
ghost use Rattle.wl_ports.specs.Name.{IsName};
ghost use Rattle.wl_syntax.specs.Atoms.{named};
ghost use Rattle.wl_syntax.specs.Built.{unstamped_all};
ghost use Rattle.wl_syntax.specs.Fits.{FitsOfAll};
ghost use Rattle.wl_syntax.specs.Table.{is_head};

use std::alloc::Global;
use wl_expr::{Expr, ExprFault};
use wl_ports::Memory;

pub(crate) fn symbol(alloc: Global, name: &str) -> Result<Expr, Memory>
    requires name { IsName name.now }
    requires short { length name.now < 4000000 }
    ensures { IfOk result (λ e. e ≡ stamped_symbol None name.now) }
{
    match Expr::symbol(alloc, name) {
        Ok(symbol) => Ok(symbol),
        Err(ExprFault::Memory) => Err(Memory),
        Err(ExprFault::Large) => unreachable!(),
    }
}

pub(crate) fn text(alloc: Global, text: &str) -> Result<Expr, Memory>
    requires { length text.now < 4000000 }
    ensures { IfOk result (λ e. e ≡ stamped_text text.now) }
{
    match Expr::text(alloc, text) {
        Ok(text) => Ok(text),
        Err(ExprFault::Memory) => Err(Memory),
        Err(ExprFault::Large) => unreachable!(),
    }
}

pub(crate) fn node(alloc: Global, head: &Expr, args: &[Expr]) -> Result<Expr, Memory>
    requires { (h : full.Tree) × (es : List full.Tree) × (head.now ≡ unstamped h) × (args.now ≡ unstamped_all es)
        × IsWithinLimits (full.node h (full.from_list es)) }
    ensures { IfOk result (λ e. (h : full.Tree) (es : List full.Tree) → head.now ≡ unstamped h → args.now ≡ unstamped_all es
        → e ≡ unstamped (full.node h (full.from_list es))) }
{
    match Expr::node(alloc, head, args) {
        Ok(node) => Ok(node),
        Err(ExprFault::Memory) => Err(Memory),
        Err(ExprFault::Large) => unreachable!(),
    }
}

/// A node by the name of its head.
pub(crate) fn named(alloc: Global, name: &str, args: &[Expr]) -> Result<Expr, Memory>
    requires head { is_head name.now ≡ true }
    requires fits { FitsOfAll args.now (named name.now) }
    ensures { IfOk result (λ e. (es : List full.Tree) → args.now ≡ unstamped_all es → e ≡ unstamped (named name.now es)) }
{
    let head = symbol(alloc, name)?;
    Ok(node(alloc, &head, args)?)
}
