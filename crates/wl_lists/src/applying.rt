//! `Apply`, `MapApply` and `Map`.
ghost use Rattle.std.specs.Prelude.{◌≡◌, Err, IfOk, List, map};
ghost use Rattle.wl_expr.specs.Passed.{IsFrom};
ghost use Rattle.wl_expr.specs.Stamped.{Stamped, plain};
ghost use Rattle.wl_expr.specs.Tree.{AreSmall, IsWithinLimits, from_list};
ghost use Rattle.wl_lists.specs.Answers.{AllFrom, IsAnswer, IsMade, IsPassed, trees};
ghost use Rattle.wl_lists.specs.Functions.{applied_to, apply_row, each_applied, each_with_head, image, map_apply_row, map_row, with_head};

use crate::answer::{give_copy, give_elements, give_node, node, stay};
use crate::element::{is_level_one, parts};
use std::alloc::Global;
use std::slice;
use wl_expr::{Applied, Expr, ExprFault};

/// The element with another head, where it is a node.
#[tactic(auto, using(crate::proofs::Faults::memory_makes))]
fn with_head(alloc: Global, head: &Expr, e: &Expr) -> Result<Expr, ExprFault>
    ensures made { IsMade (with_head (plain head.now) (plain e.now)) result }
    ensures passed { (ms : List Stamped) → IsFrom ms head.now → IsFrom ms e.now → IfOk result (IsFrom ms) }
{
    match parts(e) {
        Some((_, elements)) => node(alloc, head, elements),
        None => Ok(e.copy()?),
    }
}

/// The elements, those that are nodes with another head.
fn all_with_head(alloc: Global, head: &Expr, elements: &[Expr]) -> Result<Vec<Expr>, ExprFault>
    ensures value { IfOk result (λ v. trees v.items ≡ map (with_head (plain head.now)) (trees elements.now)) }
    ensures large { result ≡ Err ExprFault.Large
        → ¬ AreSmall (from_list (map (with_head (plain head.now)) (trees elements.now))) }
    ensures passed { (ms : List Stamped) → IsFrom ms head.now → AllFrom ms elements.now
        → IfOk result (λ v. AllFrom ms v.items) }
{
    let mut all = Vec::with_capacity(alloc, elements.len())?;
    for element in elements {
        let turned = with_head(alloc, head, element)?;
        all.push(turned)?;
    }
    Ok(all)
}

fn give_with_head(alloc: Global, head: &Expr, e: &Expr) -> Result<Applied, ExprFault>
    ensures answer { IsAnswer (each_with_head (plain head.now) (plain e.now)) result }
    ensures passed { (ms : List Stamped) → IsFrom ms head.now → IsFrom ms e.now → IsPassed ms result }
{
    match parts(e) {
        Some((outer, elements)) => give_elements(
            alloc,
            outer,
            all_with_head(alloc, head, elements),
        ),
        None => stay(),
    }
}

pub(crate) fn map_apply_row(alloc: Global, args: &[Expr]) -> Result<Applied, ExprFault>
    ensures answer { IsAnswer (map_apply_row (trees args.now)) result }
    ensures passed { (ms : List Stamped) → AllFrom ms args.now → IsPassed ms result }
{
    match args {
        [f, e] => give_with_head(alloc, f, e),
        _ => stay(),
    }
}

/// Gives the node of this head and of the elements of the expression, where it is a node.
fn give_applied(alloc: Global, head: &Expr, e: &Expr) -> Result<Applied, ExprFault>
    ensures answer { IsAnswer (applied_to (plain head.now) (plain e.now)) result }
    ensures passed { (ms : List Stamped) → IsFrom ms head.now → IsFrom ms e.now → IsPassed ms result }
{
    match parts(e) {
        Some((_, elements)) => give_node(alloc, head, elements),
        None => stay(),
    }
}

pub(crate) fn apply_row(alloc: Global, args: &[Expr]) -> Result<Applied, ExprFault>
    ensures answer { IsAnswer (apply_row (trees args.now)) result }
    ensures passed { (ms : List Stamped) → AllFrom ms args.now → IsPassed ms result }
{
    match args {
        [f, e] => give_applied(alloc, f, e),
        [f, e, level] if is_level_one(level) => give_with_head(alloc, f, e),
        _ => stay(),
    }
}

/// `f[t]`.
fn image(alloc: Global, f: &Expr, e: &Expr) -> Result<Expr, ExprFault>
    ensures made { IsMade (image (plain f.now) (plain e.now)) result }
    ensures passed { (ms : List Stamped) → IsFrom ms f.now → IsFrom ms e.now → IfOk result (IsFrom ms) }
{
    node(alloc, f, slice::from_ref(e))
}

fn each_applied(alloc: Global, f: &Expr, elements: &[Expr]) -> Result<Vec<Expr>, ExprFault>
    ensures value { IfOk result (λ v. trees v.items ≡ each_applied (plain f.now) (trees elements.now)) }
    ensures large { result ≡ Err ExprFault.Large
        → ¬ AreSmall (from_list (each_applied (plain f.now) (trees elements.now))) }
    ensures passed { (ms : List Stamped) → IsFrom ms f.now → AllFrom ms elements.now
        → IfOk result (λ v. AllFrom ms v.items) }
{
    let mut all = Vec::with_capacity(alloc, elements.len())?;
    for element in elements {
        let image = image(alloc, f, element)?;
        all.push(image)?;
    }
    Ok(all)
}

pub(crate) fn map_row(alloc: Global, args: &[Expr]) -> Result<Applied, ExprFault>
    ensures answer { IsAnswer (map_row (trees args.now)) result }
    ensures passed { (ms : List Stamped) → AllFrom ms args.now → IsPassed ms result }
{
    let [f, e] = args else {
        return stay();
    };
    match parts(e) {
        Some((head, elements)) => give_elements(alloc, head, each_applied(alloc, f, elements)),
        None => give_copy(e),
    }
}
