//! The steps that all rows take: to ask for a value, to begin a pass, and to end.
ghost use Rattle.std.specs.Prelude.{◌≡◌, [], ◌∷◌, ◌++◌, IfOk, List, None};
ghost use Rattle.wl_control.specs.Asks.{gives, stays, eval, eval_catching, alone_or};
ghost use Rattle.wl_control.specs.Places.{IsAnswer, IsMade, IsPassed, AllFrom, trees, value_asks, ValuedIsFrom, end_asks, EndedIsFrom};
ghost use Rattle.wl_expr.specs.Passed.{IsFrom};
ghost use Rattle.wl_expr.specs.Stamped.{Stamped, plain, symbol as stamped_symbol};
ghost use Rattle.wl_expr.specs.Tree.{symbol as tree_symbol};
ghost use Rattle.wl_expr.specs.Words.{applied, is_the, list_of, null_symbol};
ghost use Rattle.wl_ports.specs.Name.{IsName};

use crate::place::{Ask, Ended, Place, Step, Valued};
use std::alloc::Global;
use wl_expr::{Expr, ExprFault, Look};
use wl_ports::Memory;

/// Whether the expression is the symbol of this name.
pub(crate) fn is_symbol(e: &Expr, name: &str) -> bool
    ensures { result ≡ is_the name.now (plain e.now) }
{
    match e.view() {
        Look::Symbol(s) => name == s,
        _ => false,
    }
}

/// Asks for the value of an expression.
pub(crate) fn evaluate(e: Expr, then: Valued) -> Result<Step, ExprFault>
    ensures answer { IsAnswer (eval (plain e) (value_asks then)) result }
    ensures passed { (ms : List Stamped) → IsFrom ms e → ValuedIsFrom ms then → IsPassed ms result }
{
    let _weight = e.weight();
    Ok(Step {
        ask: Ask::Eval(e),
        place: Place::Value(then),
    })
}

/// Asks for the value of an expression, and catches Break and Continue.
pub(crate) fn catch(e: Expr, then: Ended) -> Result<Step, ExprFault>
    ensures answer { IsAnswer (eval_catching (plain e) (end_asks then)) result }
    ensures passed { (ms : List Stamped) → IsFrom ms e → EndedIsFrom ms then → IsPassed ms result }
{
    let _weight = e.weight();
    Ok(Step {
        ask: Ask::Eval(e),
        place: Place::End(then),
    })
}

/// Ends with this result.
pub(crate) fn give(e: Expr) -> Result<Step, ExprFault>
    ensures answer { IsAnswer (gives (plain e)) result }
    ensures passed { (ms : List Stamped) → IsFrom ms e → IsPassed ms result }
{
    let _weight = e.weight();
    Ok(Step {
        ask: Ask::Done(e),
        place: Place::Over,
    })
}

/// Leaves the expression as it is.
pub(crate) fn stay() -> Result<Step, ExprFault>
    ensures answer { IsAnswer stays result }
    ensures passed { (ms : List Stamped) → IsPassed ms result }
{
    Ok(Step {
        ask: Ask::Unchanged,
        place: Place::Over,
    })
}

/// The symbol of a short name.
pub(crate) fn symbol(alloc: Global, name: &str) -> Result<Expr, Memory>
    requires { IsName name.now }
    ensures { IfOk result (λ e. e ≡ stamped_symbol None name.now) }
{
    match Expr::symbol(alloc, name) {
        Ok(symbol) => Ok(symbol),
        Err(_) => Err(Memory),
    }
}

/// Ends with the symbol of a short name.
pub(crate) fn give_symbol(alloc: Global, name: &str) -> Result<Step, ExprFault>
    requires { IsName name.now }
    ensures answer { IsAnswer (gives (tree_symbol name.now)) result }
    ensures passed { (ms : List Stamped) → IsPassed ms result }
{
    give(symbol(alloc, name)?)
}

/// Ends with Null.
pub(crate) fn give_null(alloc: Global) -> Result<Step, ExprFault>
    ensures answer { IsAnswer (gives null_symbol) result }
    ensures passed { (ms : List Stamped) → IsPassed ms result }
{
    give_symbol(alloc, "Null")
}

/// Ends with the list of these elements.
pub(crate) fn give_list(alloc: Global, elements: &[Expr]) -> Result<Step, ExprFault>
    ensures answer { IsAnswer (gives (list_of (trees elements.now))) result }
    ensures passed { (ms : List Stamped) → AllFrom ms elements.now → IsPassed ms result }
{
    give(node(alloc, &symbol(alloc, "List")?, elements)?)
}

/// The node of this head and these elements.
pub(crate) fn node(alloc: Global, head: &Expr, elements: &[Expr]) -> Result<Expr, ExprFault>
    ensures made { IsMade (applied (plain head.now) (trees elements.now)) result }
    ensures passed { (ms : List Stamped) → IsFrom ms head.now → AllFrom ms elements.now → IfOk result (λ e. IsFrom ms e) }
{
    Expr::node(alloc, head, elements)
}

/// The node of these elements, or one that is alone as itself.
pub(crate) fn alone_or(alloc: Global, name: &str, elements: &[Expr]) -> Result<Expr, ExprFault>
    requires { IsName name.now }
    ensures made { IsMade (alone_or name.now (trees elements.now)) result }
    ensures passed { (ms : List Stamped) → AllFrom ms elements.now → IfOk result (λ e. IsFrom ms e) }
{
    if elements.len() == 1 {
        let _weight = elements[0].weight();
        return Ok(elements[0].copy()?);
    }
    node(alloc, &symbol(alloc, name)?, elements)
}

/// These expressions and one more, which is shared.
pub(crate) fn one_more(mut all: Vec<Expr>, e: &Expr) -> Result<Vec<Expr>, Memory>
    ensures { IfOk result (λ v. v.items ≡ all.items ++ e.now ∷ []) }
{
    all.push(e.copy()?)?;
    Ok(all)
}
