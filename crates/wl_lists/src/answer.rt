//! The answers that rows give.
#![tactic(auto, using(crate::proofs::Faults::memory_answers))]

ghost use Rattle.std.specs.Prelude.{◌≡◌, ◌≢◌, ◌-◌, ◌^◌, negsuc, Err, IfOk, List, None};
ghost use Rattle.wl_exact.specs.Fraction.{of_int};
ghost use Rattle.wl_lists.specs.Answers.{AllFrom, IsAnswer, IsMade, IsPassed, NoticeIsFrom, overflowed, trees};
ghost use Rattle.wl_expr.specs.Applied.{gives, no_part, noticed, plain_notice, told, unchanged};
ghost use Rattle.wl_expr.specs.Passed.{IsFrom};
ghost use Rattle.wl_expr.specs.Stamped.{Stamped, plain, symbol as stamped_symbol};
ghost use Rattle.wl_expr.specs.Tree.{AreSmall, Tree, from_list, num, symbol as tree_symbol};
ghost use Rattle.wl_expr.specs.Words.{applied, form, list_of, truth, whole as tree_whole};
ghost use Rattle.wl_ports.specs.Name.{IsName};

use std::alloc::Global;
use wl_exact::Num;
use wl_expr::{Applied, Expr, ExprFault, Notice};
use wl_ports::Memory;

/// The expression stays as it is.
pub(crate) fn stay() -> Result<Applied, ExprFault>
    ensures answer { IsAnswer unchanged result }
    ensures passed { (ms : List Stamped) → IsPassed ms result }
{
    Ok(Applied::Unchanged)
}

pub(crate) fn give(e: Expr) -> Result<Applied, ExprFault>
    ensures answer { IsAnswer (gives (plain e)) result }
    ensures passed { (ms : List Stamped) → IsFrom ms e → IsPassed ms result }
{
    // That an expression fits is a clause of `weight`.
    let _weight = e.weight();
    Ok(Applied::Gives(e))
}

/// The symbol of a short name.
pub(crate) fn symbol(alloc: Global, name: &str) -> Result<Expr, Memory>
    requires { IsName name.now }
    ensures { IfOk result (λ e. e ≡ stamped_symbol None name.now) }
{
    match Expr::symbol(alloc, name) {
        Ok(symbol) => Ok(symbol),
        Err(_) => Err(Memory),
    }
}

pub(crate) fn give_symbol(alloc: Global, name: &str) -> Result<Applied, ExprFault>
    requires { IsName name.now }
    ensures answer { IsAnswer (gives (tree_symbol name.now)) result }
    ensures passed { (ms : List Stamped) → IsPassed ms result }
{
    give(symbol(alloc, name)?)
}

/// True or False.
pub(crate) fn give_truth(alloc: Global, holds: bool) -> Result<Applied, ExprFault>
    ensures answer { IsAnswer (gives (truth holds)) result }
    ensures passed { (ms : List Stamped) → IsPassed ms result }
{
    if holds {
        give_symbol(alloc, "True")
    } else {
        give_symbol(alloc, "False")
    }
}

/// The node of this head and these elements.
#[tactic(auto, using(crate::proofs::Faults::node_makes, crate::proofs::Faults::memory_makes))]
pub(crate) fn node(alloc: Global, head: &Expr, elements: &[Expr]) -> Result<Expr, ExprFault>
    ensures made { IsMade (applied (plain head.now) (trees elements.now)) result }
    ensures passed { (ms : List Stamped) → IsFrom ms head.now → AllFrom ms elements.now → IfOk result (IsFrom ms) }
{
    Expr::node(alloc, head, elements)
}

/// The node of this name and these elements.
#[tactic(auto, using(crate::proofs::Faults::memory_makes))]
pub(crate) fn form(alloc: Global, name: &str, elements: &[Expr]) -> Result<Expr, ExprFault>
    requires { IsName name.now }
    ensures made { IsMade (form name.now (trees elements.now)) result }
    ensures passed { (ms : List Stamped) → AllFrom ms elements.now → IfOk result (IsFrom ms) }
{
    node(alloc, &symbol(alloc, name)?, elements)
}

/// Gives what was made.
#[tactic(auto, using(crate::proofs::Faults::fault_gives))]
pub(crate) fn give_made(made: Result<Expr, ExprFault>) -> Result<Applied, ExprFault>
    ensures answer { (t : Tree) → IsMade t made → IsAnswer (gives t) result }
    ensures passed { (ms : List Stamped) → IfOk made (IsFrom ms) → IsPassed ms result }
{
    give(made?)
}

/// The whole number, which is in range.
pub(crate) fn whole(n: i128) -> Num
    requires { n ≢ negsuc (2 ^ 127 - 1) }
    ensures { result ≡ of_int n }
{
    match Num::int(n) {
        Some(whole) => whole,
        None => unreachable!(),
    }
}

pub(crate) fn give_whole(alloc: Global, n: i128) -> Result<Applied, ExprFault>
    requires { n ≢ negsuc (2 ^ 127 - 1) }
    ensures answer { IsAnswer (gives (tree_whole n)) result }
    ensures passed { (ms : List Stamped) → IsPassed ms result }
{
    give(Expr::num(alloc, whole(n))?)
}

/// Gives a copy, which shares the tree.
pub(crate) fn give_copy(e: &Expr) -> Result<Applied, ExprFault>
    ensures answer { IsAnswer (gives (plain e.now)) result }
    ensures passed { (ms : List Stamped) → IsFrom ms e.now → IsPassed ms result }
{
    give(e.copy()?)
}

/// Gives the node of this head and these elements.
pub(crate) fn give_node(alloc: Global, head: &Expr, elements: &[Expr]) -> Result<Applied, ExprFault>
    ensures answer { IsAnswer (gives (applied (plain head.now) (trees elements.now))) result }
    ensures passed { (ms : List Stamped) → IsFrom ms head.now → AllFrom ms elements.now → IsPassed ms result }
{
    give_made(node(alloc, head, elements))
}

/// Gives the node of this name and these elements.
pub(crate) fn give_form(alloc: Global, name: &str, elements: &[Expr]) -> Result<Applied, ExprFault>
    requires { IsName name.now }
    ensures answer { IsAnswer (gives (form name.now (trees elements.now))) result }
    ensures passed { (ms : List Stamped) → AllFrom ms elements.now → IsPassed ms result }
{
    give_made(form(alloc, name, elements))
}

/// Gives the node of this head and of the elements that were made.
#[tactic(auto, using(crate::proofs::Faults::elements_fault_gives))]
pub(crate) fn give_elements(
    alloc: Global,
    head: &Expr,
    made: Result<Vec<Expr>, ExprFault>,
) -> Result<Applied, ExprFault>
    ensures answer { (ts : List Tree) → IfOk made (λ v. trees v.items ≡ ts)
        → (made ≡ Err ExprFault.Large → ¬ AreSmall (from_list ts))
        → IsAnswer (gives (applied (plain head.now) ts)) result }
    ensures passed { (ms : List Stamped) → IsFrom ms head.now → IfOk made (λ v. AllFrom ms v.items)
        → IsPassed ms result }
{
    give_node(alloc, head, made?.as_slice())
}

/// Gives the list of the elements that were made.
#[tactic(auto, using(crate::proofs::Faults::elements_fault_gives))]
pub(crate) fn give_list(
    alloc: Global,
    made: Result<Vec<Expr>, ExprFault>,
) -> Result<Applied, ExprFault>
    ensures answer { (ts : List Tree) → IfOk made (λ v. trees v.items ≡ ts)
        → (made ≡ Err ExprFault.Large → ¬ AreSmall (from_list ts))
        → IsAnswer (gives (list_of ts)) result }
    ensures passed { (ms : List Stamped) → IfOk made (λ v. AllFrom ms v.items) → IsPassed ms result }
{
    give_form(alloc, "List", made?.as_slice())
}

/// The result, and a message that comes with it.
pub(crate) fn give_noticed(notice: Notice, e: Expr) -> Result<Applied, ExprFault>
    ensures answer { IsAnswer (noticed (plain_notice notice) (plain e)) result }
    ensures passed { (ms : List Stamped) → NoticeIsFrom ms notice → IsFrom ms e → IsPassed ms result }
{
    let _weight = e.weight();
    Ok(Applied::Notice(notice, e))
}

/// Tells that the index has no part in the expression, which stays.
pub(crate) fn tell_no_part(index: Expr, e: Expr) -> Result<Applied, ExprFault>
    ensures answer { IsAnswer (told (no_part (plain index) (plain e))) result }
    ensures passed { (ms : List Stamped) → IsFrom ms index → IsFrom ms e → IsPassed ms result }
{
    Ok(Applied::Told(Notice::NoPart(index, e)))
}

/// `Overflow[]`, with its message.
pub(crate) fn overflow(alloc: Global) -> Result<Applied, ExprFault>
    ensures answer { IsAnswer overflowed result }
    ensures passed { (ms : List Stamped) → IsPassed ms result }
{
    let head = symbol(alloc, "Overflow")?;
    let form = Expr::node(alloc, &head, &[])?;
    give_noticed(Notice::Overflow, form)
}
