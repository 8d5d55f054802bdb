//! The answers that rows give.
#![tactic(auto, using(crate::proofs::Faults::memory_answers))]

ghost use Rattle.std.specs.Prelude.{◌≡◌, IfOk, List, None};
ghost use Rattle.wl_algebra.specs.Answers.{AllFrom, IsAnswer, IsMade, IsPassed, NoticeIsFrom, overflowed, trees};
ghost use Rattle.wl_expr.specs.Applied.{gives, noticed, plain_notice, unchanged};
ghost use Rattle.wl_expr.specs.Passed.{IsFrom};
ghost use Rattle.wl_expr.specs.Stamped.{Stamped, plain, symbol as stamped_symbol};
ghost use Rattle.wl_expr.specs.Tree.{Tree, num, symbol as tree_symbol};
ghost use Rattle.wl_expr.specs.Words.{applied, form, truth};
ghost use Rattle.wl_ports.specs.Name.{IsName};

use std::alloc::Global;
use wl_exact::Num;
use wl_expr::{Applied, Expr, ExprFault, Notice};
use wl_ports::Memory;

/// The expression stays as it is.
pub(crate) fn stay() -> Result<Applied, ExprFault>
    ensures answer { IsAnswer unchanged result }
    ensures passed { (ms : List Stamped) → IsPassed ms result }
{
    Ok(Applied::Unchanged)
}

pub(crate) fn give(e: Expr) -> Result<Applied, ExprFault>
    ensures answer { IsAnswer (gives (plain e)) result }
    ensures passed { (ms : List Stamped) → IsFrom ms e → IsPassed ms result }
{
    // That an expression fits is a clause of `weight`.
    let _weight = e.weight();
    Ok(Applied::Gives(e))
}

pub(crate) fn give_number(alloc: Global, n: Num) -> Result<Applied, ExprFault>
    ensures answer { IsAnswer (gives (num n)) result }
    ensures passed { (ms : List Stamped) → IsPassed ms result }
{
    give(Expr::num(alloc, n)?)
}

/// The symbol of a short name.
pub(crate) fn symbol(alloc: Global, name: &str) -> Result<Expr, Memory>
    requires { IsName name.now }
    ensures { IfOk result (λ e. e ≡ stamped_symbol None name.now) }
{
    match Expr::symbol(alloc, name) {
        Ok(symbol) => Ok(symbol),
        Err(_) => Err(Memory),
    }
}

pub(crate) fn give_symbol(alloc: Global, name: &str) -> Result<Applied, ExprFault>
    requires { IsName name.now }
    ensures answer { IsAnswer (gives (tree_symbol name.now)) result }
    ensures passed { (ms : List Stamped) → IsPassed ms result }
{
    give(symbol(alloc, name)?)
}

/// The result, and a message that comes with it.
pub(crate) fn give_noticed(notice: Notice, e: Expr) -> Result<Applied, ExprFault>
    ensures answer { IsAnswer (noticed (plain_notice notice) (plain e)) result }
    ensures passed { (ms : List Stamped) → NoticeIsFrom ms notice → IsFrom ms e → IsPassed ms result }
{
    let _weight = e.weight();
    Ok(Applied::Notice(notice, e))
}

/// True or False.
pub(crate) fn give_truth(alloc: Global, holds: bool) -> Result<Applied, ExprFault>
    ensures answer { IsAnswer (gives (truth holds)) result }
    ensures passed { (ms : List Stamped) → IsPassed ms result }
{
    if holds {
        give_symbol(alloc, "True")
    } else {
        give_symbol(alloc, "False")
    }
}

/// `Overflow[]`, with its message.
pub(crate) fn overflow(alloc: Global) -> Result<Applied, ExprFault>
    ensures answer { IsAnswer overflowed result }
    ensures passed { (ms : List Stamped) → IsPassed ms result }
{
    let head = symbol(alloc, "Overflow")?;
    let form = Expr::node(alloc, &head, &[])?;
    give_noticed(Notice::Overflow, form)
}

/// The node of this head and these elements.
#[tactic(auto, using(crate::proofs::Faults::node_makes, crate::proofs::Faults::memory_makes))]
pub(crate) fn node(alloc: Global, head: &Expr, elements: &[Expr]) -> Result<Expr, ExprFault>
    ensures made { IsMade (applied (plain head.now) (trees elements.now)) result }
    ensures passed { (ms : List Stamped) → IsFrom ms head.now → AllFrom ms elements.now → IfOk result (IsFrom ms) }
{
    Expr::node(alloc, head, elements)
}

/// The node of this name and these elements.
#[tactic(auto, using(crate::proofs::Faults::memory_makes))]
pub(crate) fn form(alloc: Global, name: &str, elements: &[Expr]) -> Result<Expr, ExprFault>
    requires { IsName name.now }
    ensures made { IsMade (form name.now (trees elements.now)) result }
    ensures passed { (ms : List Stamped) → AllFrom ms elements.now → IfOk result (IsFrom ms) }
{
    node(alloc, &symbol(alloc, name)?, elements)
}

/// Gives what was made.
#[tactic(auto, using(crate::proofs::Faults::fault_gives))]
pub(crate) fn give_made(made: Result<Expr, ExprFault>) -> Result<Applied, ExprFault>
    ensures answer { (t : Tree) → IsMade t made → IsAnswer (gives t) result }
    ensures passed { (ms : List Stamped) → IfOk made (IsFrom ms) → IsPassed ms result }
{
    give(made?)
}
