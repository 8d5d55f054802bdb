//! What stands for a bound run: the element of a run of one, a `Sequence` for another.
ghost use Rattle.std.specs.Prelude.{◌≡◌, IfOk, List};
ghost use Rattle.wl_expr.specs.Passed.{IsFrom};
ghost use Rattle.wl_expr.specs.Stamped.{Stamped, plain};
ghost use Rattle.wl_expr.specs.Tree as tree;
ghost use Rattle.wl_match.specs.Runs as runs;
ghost use Rattle.wl_match.specs.Shown.{IsRunFrom};
ghost use Rattle.wl_shape.specs.Answers.{AllFrom, IsMade, trees};
ghost use Rattle.wl_shape.specs.Fill as fill;

use crate::element::{node, symbol};
use std::alloc::Global;
use wl_expr::{Expr, ExprFault, Look};
use wl_match::Run;
use wl_ports::Memory;

/// The element of a node at this place, from 0; the expression itself where there is none.
fn element_at(t: &Expr, place: u32) -> &Expr
    ensures tree { plain result.now ≡ runs.element_at (plain t.now) place }
    ensures passed { (ms : List Stamped) → IsFrom ms t.now → IsFrom ms result.now }
{
    let Look::Node(_, args) = t.view() else {
        return t;
    };
    if (place as usize) < args.len() {
        &args[place as usize]
    } else {
        t
    }
}

/// Copies of the elements at these places.
fn picked(alloc: Global, t: &Expr, places: &[u32]) -> Result<Vec<Expr>, Memory>
    ensures trees { IfOk result (λ v. trees v.items ≡ runs.picked (plain t.now) places.now) }
    ensures passed { (ms : List Stamped) → IsFrom ms t.now → IfOk result (λ v. AllFrom ms v.items) }
{
    let mut elements = Vec::with_capacity(alloc, places.len())?;
    for place in places {
        elements.push(element_at(t, *place).copy()?)?;
    }
    Ok(elements)
}

/// The one element, or a `Sequence`.
fn in_sequence(alloc: Global, elements: &[Expr]) -> Result<Expr, ExprFault>
    ensures made { IsMade (fill.run_tree (trees elements.now)) result }
    ensures passed { (ms : List Stamped) → AllFrom ms elements.now → IfOk result (IsFrom ms) }
{
    match elements {
        [only] => Ok(only.copy()?),
        _ => node(alloc, &symbol(alloc, "Sequence")?, elements),
    }
}

/// The elements of a node at these places, under its head.
fn wrapped(alloc: Global, t: &Expr, places: &[u32]) -> Result<Expr, ExprFault>
    ensures made { IsMade (tree.node (runs.child 0 (plain t.now)) (tree.from_list (runs.picked (plain t.now) places.now))) result }
    ensures passed { (ms : List Stamped) → IsFrom ms t.now → IfOk result (IsFrom ms) }
{
    let elements = picked(alloc, t, places)?;
    match t.view() {
        Look::Node(head, _) => node(alloc, head, elements.as_slice()),
        _ => node(alloc, t, elements.as_slice()),
    }
}

/// What stands for a run.
pub(crate) fn run_tree(alloc: Global, run: Run<'_, '_>) -> Result<Expr, ExprFault>
    ensures made { IsMade (fill.run_tree (runs.shown run.entry)) result }
    ensures passed { (ms : List Stamped) → IsRunFrom ms run.entry → IfOk result (IsFrom ms) }
{
    match run {
        Run::One(t) => Ok(t.copy()?),
        Run::Slice(elements) => in_sequence(alloc, elements),
        Run::Picked(t, places) => in_sequence(alloc, picked(alloc, t, places)?.as_slice()),
        Run::Wrapped(t, places) => wrapped(alloc, t, places),
    }
}
