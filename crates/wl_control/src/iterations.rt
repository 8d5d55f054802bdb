//! `Do` and `Table` before their first question: their iterator.
ghost use Rattle.std.specs.Prelude.{◌≡◌, IfOk, IfSome, List, is_some, option_map};
ghost use Rattle.wl_control.specs.Iterators.{iterator, iterator_of};
ghost use Rattle.wl_control.specs.Places.{AllFrom, FoundIsFrom, RowIsFrom, iterated_row, plain_iterator, row_asks, trees};
ghost use Rattle.wl_expr.specs.Passed.{IsFrom};
ghost use Rattle.wl_expr.specs.Stamped.{Stamped, plain};
ghost use Rattle.wl_expr.specs.Words.{name_of};

use crate::found::Found;
use crate::place::{Bounds, Iteration, Row};
use crate::rows::queue;
use crate::step::is_symbol;
use std::alloc::Global;
use wl_expr::{Expr, Look};
use wl_ports::Memory;

/// Whether an expression is a symbol.
fn is_name(e: &Expr) -> bool
    ensures { result ≡ is_some (name_of (plain e.now)) }
{
    match e.view() {
        Look::Symbol(_) => true,
        _ => false,
    }
}

/// The iterator of these parts of a list: `{n}`, `{i, n}`, `{i, a, b}` or `{i, a, b, s}`.
fn iterator_of(alloc: Global, parts: &[Expr]) -> Result<Option<Iteration>, Memory>
    ensures iterator { IfOk result (λ i. option_map plain_iterator i ≡ iterator_of (trees parts.now)) }
    ensures passed { IfOk result (λ i. IfSome i (λ i. (ms : List Stamped) → AllFrom ms parts.now → AllFrom ms i.bounds.items)) }
{
    let mut bounds = queue(alloc, parts)?;
    if parts.len() == 1 {
        let named = false;
        return Ok(Some(Iteration { named, bounds }));
    }
    let Some(name) = bounds.pop_front() else {
        return Ok(None);
    };
    if parts.len() > 4 {
        return Ok(None);
    }
    let named = is_name(&name);
    if !named {
        return Ok(None);
    }
    Ok(Some(Iteration { named, bounds }))
}

/// The iterator that an expression is.
fn iterator(alloc: Global, e: &Expr) -> Result<Option<Iteration>, Memory>
    ensures iterator { IfOk result (λ i. option_map plain_iterator i ≡ iterator (plain e.now)) }
    ensures passed { IfOk result (λ i. IfSome i (λ i. (ms : List Stamped) → IsFrom ms e.now → AllFrom ms i.bounds.items)) }
{
    match e.view() {
        Look::Node(head, parts) => {
            if is_symbol(head, "List") {
                iterator_of(alloc, parts)
            } else {
                Ok(None)
            }
        }
        _ => Ok(None),
    }
}

/// `Table` where this is what it has collected, or else `Do`.
pub(crate) fn iterated_row(
    alloc: Global,
    args: &[Expr],
    found: Option<Found>,
) -> Result<Row, Memory>
    ensures row { IfOk result (λ r. row_asks r ≡ iterated_row found (trees args.now)) }
    ensures passed { IfOk result (λ r. (ms : List Stamped) → AllFrom ms args.now → FoundIsFrom ms found → RowIsFrom ms r) }
{
    let mut args = queue(alloc, args)?;
    let Some(first) = args.pop_front() else {
        return Ok(Row::Stays);
    };
    let Some(second) = args.pop_front() else {
        return Ok(Row::Stays);
    };
    let Some(Iteration { named, bounds }) = iterator(alloc, &second)? else {
        return Ok(Row::Stays);
    };
    args.push_front(first)?;
    Ok(Row::Iterate(Bounds {
        named,
        body: Vec::from(args),
        found,
        known: Vec::new(alloc),
        rest: bounds,
    }))
}
