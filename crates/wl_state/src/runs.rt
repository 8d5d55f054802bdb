//! The expressions of a run that a match has bound.
ghost use Rattle.std.specs.Prelude.{◌≡◌, IfOk, List};
ghost use Rattle.std.specs.List.{All};
ghost use Rattle.wl_expr.specs.Passed.{IsFrom};
ghost use Rattle.wl_expr.specs.Stamped.{Stamped, plain};
ghost use Rattle.wl_expr.specs.Tree.{from_list, node};
ghost use Rattle.wl_match.specs.Runs as runs;
ghost use Rattle.wl_match.specs.Shown.{IsRunFrom};
ghost use Rattle.wl_state.specs.Played.{trees};

use std::alloc::Global;
use std::slice;
use wl_expr::{Expr, Look, copy_all};
use wl_match::Run;
use wl_ports::Memory;

/// The element at a place, from 0, or the expression itself where there is none.
fn element_at(e: &Expr, place: u32) -> &Expr
    ensures value { plain result.now ≡ runs.element_at (plain e.now) place }
    ensures passed { (ms : List Stamped) → IsFrom ms e.now → IsFrom ms result.now }
{
    let Look::Node(_, args) = e.view() else {
        return e;
    };
    let place = place as usize;
    if place < args.len() { &args[place] } else { e }
}

/// The head of a node, or the expression itself where it is none.
fn head_or_itself(e: &Expr) -> &Expr
    ensures value { plain result.now ≡ runs.child 0 (plain e.now) }
    ensures passed { (ms : List Stamped) → IsFrom ms e.now → IsFrom ms result.now }
{
    match e.view() {
        Look::Node(head, _) => head,
        _ => e,
    }
}

/// The elements at these places.
fn picked(alloc: Global, e: &Expr, places: &[u32]) -> Result<Vec<Expr>, Memory>
    ensures value { IfOk result (λ v. trees v.items ≡ runs.picked (plain e.now) places.now) }
    ensures passed { IfOk result (λ v. (ms : List Stamped) → IsFrom ms e.now → All (IsFrom ms) v.items) }
{
    let mut elements = Vec::with_capacity(alloc, places.len())?;
    for i in 0..places.len() {
        elements.push(element_at(e, places[i]).copy()?)?;
    }
    Ok(elements)
}

/// The elements at these places as one expression, under the head of the node. A search picks each of its elements once at most, so
/// what they make is no larger than the node, which fits.
fn wrapped(alloc: Global, e: &Expr, places: &[u32]) -> Result<Expr, Memory>
    ensures value { IfOk result (λ w. plain w
        ≡ node (runs.child 0 (plain e.now)) (from_list (runs.picked (plain e.now) places.now))) }
    ensures passed { IfOk result (λ w. (ms : List Stamped) → IsFrom ms e.now → IsFrom ms w) }
{
    let elements = picked(alloc, e, places)?;
    match Expr::node(alloc, head_or_itself(e), elements.as_slice()) {
        Ok(node) => Ok(node),
        Err(_) => Err(Memory),
    }
}

/// The expressions of a run.
pub fn elements_of_run(alloc: Global, run: Run<'_, '_>) -> Result<Vec<Expr>, Memory>
    ensures value { IfOk result (λ v. trees v.items ≡ runs.shown run.entry) }
    ensures passed { IfOk result (λ v. (ms : List Stamped) → IsRunFrom ms run.entry → All (IsFrom ms) v.items) }
{
    match run {
        Run::One(e) => copy_all(alloc, slice::from_ref(e)),
        Run::Slice(es) => copy_all(alloc, es),
        Run::Picked(e, places) => picked(alloc, e, places),
        Run::Wrapped(e, places) => {
            let node = wrapped(alloc, e, places)?;
            copy_all(alloc, slice::from_ref(&node))
        }
    }
}
