//! `Apply` and its kin, `Total`, and the rows that give an expression back.
ghost use Rattle.std.specs.Prelude.{◌≡◌, List};
ghost use Rattle.wl_expr.specs.Stamped.{Stamped, plain};
ghost use Rattle.wl_lists.specs.Answers.{AllFrom, IsAnswer, IsPassed, trees};
ghost use Rattle.wl_lists.specs.Functions.{evaluate_row, identity_row, is_hold, release_hold_row, total_row};

use crate::answer::{give_copy, give_form, stay};
use crate::element::{is_symbol, list_elements, parts};
use std::alloc::Global;
use wl_expr::{Applied, Expr, ExprFault};

pub(crate) fn total_row(alloc: Global, args: &[Expr]) -> Result<Applied, ExprFault>
    ensures answer { IsAnswer (total_row (trees args.now)) result }
    ensures passed { (ms : List Stamped) → AllFrom ms args.now → IsPassed ms result }
{
    let [e] = args else {
        return stay();
    };
    match list_elements(e) {
        Some(elements) => give_form(alloc, "Plus", elements),
        None => stay(),
    }
}

pub(crate) fn evaluate_row(alloc: Global, args: &[Expr]) -> Result<Applied, ExprFault>
    ensures answer { IsAnswer (evaluate_row (trees args.now)) result }
    ensures passed { (ms : List Stamped) → AllFrom ms args.now → IsPassed ms result }
{
    match args {
        [e] => give_copy(e),
        _ => give_form(alloc, "Sequence", args),
    }
}

fn is_hold(head: &Expr) -> bool
    ensures { result ≡ is_hold (plain head.now) }
{
    is_symbol(head, "Hold") || is_symbol(head, "HoldComplete") || is_symbol(head, "HoldPattern")
}

pub(crate) fn release_hold_row(args: &[Expr]) -> Result<Applied, ExprFault>
    ensures answer { IsAnswer (release_hold_row (trees args.now)) result }
    ensures passed { (ms : List Stamped) → AllFrom ms args.now → IsPassed ms result }
{
    let [e] = args else {
        return stay();
    };
    match parts(e) {
        Some((head, [held])) if is_hold(head) => give_copy(held),
        _ => give_copy(e),
    }
}

pub(crate) fn identity_row(args: &[Expr]) -> Result<Applied, ExprFault>
    ensures answer { IsAnswer (identity_row (trees args.now)) result }
    ensures passed { (ms : List Stamped) → AllFrom ms args.now → IsPassed ms result }
{
    match args {
        [e] => give_copy(e),
        _ => stay(),
    }
}
