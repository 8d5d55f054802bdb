//! Nodes with corresponding elements.
ghost use Rattle.std.specs.Prelude.{◌≡◌, map, Err, IfOk, List};
ghost use Rattle.wl_expr.specs.Passed.{IsFrom};
ghost use Rattle.wl_expr.specs.Stamped.{Stamped, plain};
ghost use Rattle.wl_expr.specs.Tree.{AreSmall, from_list};
ghost use Rattle.wl_expr.specs.Words.{applied, list_of};
ghost use Rattle.wl_shape.specs.Answers.{AllFrom, IsMade, trees};
ghost use Rattle.wl_shape.specs.Shape.{corresponding, first_length, lists_have, threads};

use crate::element::{list_elements, node, symbol};
use std::alloc::Global;
use wl_expr::{Expr, ExprFault};
use wl_ports::Memory;

/// The greatest weight of an expression.
const MAX_WEIGHT: u64 = 4_000_000;

/// The length of the first list among the elements.
pub(crate) fn first_length(args: &[Expr]) -> Option<usize>
    ensures { result ≡ first_length (trees args.now) }
{
    for arg in args {
        if let Some(elements) = list_elements(arg) {
            return Some(elements.len());
        }
    }
    None
}

/// Whether the lists among the elements have this length.
pub(crate) fn lists_have(length: usize, args: &[Expr]) -> bool
    ensures { result ≡ lists_have length (trees args.now) }
{
    for arg in args {
        if let Some(elements) = list_elements(arg) {
            if elements.len() != length {
                return false;
            }
        }
    }
    true
}

/// Of a list its k-th element, of any other expression itself.
fn corresponding(e: &Expr, k: usize) -> &Expr
    ensures value { plain result.now ≡ corresponding k (plain e.now) }
    ensures passed { (ms : List Stamped) → IsFrom ms e.now → IsFrom ms result.now }
{
    match list_elements(e) {
        Some(elements) if k < elements.len() => &elements[k],
        _ => e,
    }
}

fn all_corresponding(alloc: Global, args: &[Expr], k: usize) -> Result<Vec<Expr>, Memory>
    ensures value { IfOk result (λ v. trees v.items ≡ map (corresponding k) (trees args.now)) }
    ensures passed { (ms : List Stamped) → AllFrom ms args.now → IfOk result (λ v. AllFrom ms v.items) }
{
    let mut all = Vec::with_capacity(alloc, args.len())?;
    for arg in args {
        all.push(corresponding(arg, k).copy()?)?;
    }
    Ok(all)
}

/// The k-th node.
#[tactic(auto, using(crate::proofs::Faults::memory_makes))]
fn node_at(alloc: Global, head: &Expr, args: &[Expr], k: usize) -> Result<Expr, ExprFault>
    ensures made { IsMade (applied (plain head.now) (map (corresponding k) (trees args.now))) result }
    ensures passed { (ms : List Stamped) → IsFrom ms head.now → AllFrom ms args.now → IfOk result (IsFrom ms) }
{
    let elements = all_corresponding(alloc, args, k)?;
    node(alloc, head, elements.as_slice())
}

/// As many nodes as are wanted. Where they come to weigh too much, no further one is made.
fn nodes(alloc: Global, head: &Expr, args: &[Expr], count: usize) -> Result<Vec<Expr>, ExprFault>
    ensures value { IfOk result (λ v. trees v.items ≡ threads (plain head.now) (trees args.now) 0 count) }
    ensures large { result ≡ Err ExprFault.Large
        → ¬ AreSmall (from_list (threads (plain head.now) (trees args.now) 0 count)) }
    ensures passed { (ms : List Stamped) → IsFrom ms head.now → AllFrom ms args.now
        → IfOk result (λ v. AllFrom ms v.items) }
{
    let mut all = Vec::new(alloc);
    let mut weight = 0;
    for k in 0..count {
        let node = node_at(alloc, head, args, k)?;
        weight += node.weight();
        if weight > MAX_WEIGHT {
            return Err(ExprFault::Large);
        }
        all.push(node)?;
    }
    Ok(all)
}

/// The list of the nodes.
#[tactic(auto, using(crate::proofs::Faults::memory_makes))]
pub(crate) fn threaded(
    alloc: Global,
    head: &Expr,
    args: &[Expr],
    count: usize,
) -> Result<Expr, ExprFault>
    ensures made { IsMade (list_of (threads (plain head.now) (trees args.now) 0 count)) result }
    ensures passed { (ms : List Stamped) → IsFrom ms head.now → AllFrom ms args.now → IfOk result (IsFrom ms) }
{
    let list = symbol(alloc, "List")?;
    let all = nodes(alloc, head, args, count)?;
    node(alloc, &list, all.as_slice())
}
