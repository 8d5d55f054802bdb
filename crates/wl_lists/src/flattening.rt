//! `Flatten`.
ghost use Rattle.std.specs.Prelude.{◌≡◌, ◌++◌, List, OnOk};
ghost use Rattle.wl_expr.specs.Passed.{IsFrom};
ghost use Rattle.wl_expr.specs.Stamped.{Stamped, from_list, plain, plains};
ghost use Rattle.wl_lists.specs.Answers.{AllFrom, IsAnswer, IsPassed, trees};
ghost use Rattle.wl_lists.specs.Flattening.{flatten_by, flatten_row, flatten_to, flattened, flattened_in, may_splice, one_less};

use crate::answer::{give_node, stay};
use crate::arrays::count_of;
use std::alloc::Global;
use wl_expr::{Applied, Expr, ExprFault, Look};
use wl_ports::Memory;

/// The levels that are left one further in; none is a bound.
fn one_less(levels: Option<u128>) -> Option<u128>
    ensures { result ≡ one_less levels }
{
    match levels {
        Some(n) => Some(n.saturating_sub(1)),
        None => None,
    }
}

fn may_splice(levels: Option<u128>) -> bool
    ensures { result ≡ may_splice levels }
{
    match levels {
        Some(n) => n > 0,
        None => true,
    }
}

/// Puts the element behind, or what it has in it where it is spliced.
#[cycle(flatten)]
fn put(all: &mut Vec<Expr>, head: &Expr, levels: Option<u128>, e: &Expr) -> Result<(), Memory>
    ensures value { OnOk result (trees all.new.items ≡ trees all.old.items ++ flattened (plain head.now) levels (plain e.now)) }
    ensures passed { (ms : List Stamped) → AllFrom ms all.old.items → IsFrom ms e.now → OnOk result (AllFrom ms all.new.items) }
{
    match e.view() {
        Look::Node(other, elements) if may_splice(levels) && head == other => {
            put_all(all, head, one_less(levels), elements)
        }
        _ => {
            all.push(e.copy()?)?;
            Ok(())
        }
    }
}

#[cycle(flatten)]
#[tactic(auto, using(wl_expr::proofs::Parts::depth_arg))]
fn put_all(
    all: &mut Vec<Expr>,
    head: &Expr,
    levels: Option<u128>,
    elements: &[Expr],
) -> Result<(), Memory>
    ensures value { OnOk result (trees all.new.items ≡ trees all.old.items ++ flattened_in (plain head.now) levels (plains (from_list elements.now))) }
    ensures passed { (ms : List Stamped) → AllFrom ms all.old.items → AllFrom ms elements.now → OnOk result (AllFrom ms all.new.items) }
{
    for element in elements {
        put(all, head, levels, element)?;
    }
    Ok(())
}

/// Gives the node with its elements flattened.
fn give_flattened(alloc: Global, levels: Option<u128>, e: &Expr) -> Result<Applied, ExprFault>
    ensures answer { IsAnswer (flatten_by levels (plain e.now)) result }
    ensures passed { (ms : List Stamped) → IsFrom ms e.now → IsPassed ms result }
{
    match e.view() {
        Look::Node(head, elements) => {
            let mut all = Vec::new(alloc);
            put_all(&mut all, head, levels, elements)?;
            give_node(alloc, head, all.as_slice())
        }
        _ => stay(),
    }
}

pub(crate) fn flatten_row(alloc: Global, args: &[Expr]) -> Result<Applied, ExprFault>
    ensures answer { IsAnswer (flatten_row (trees args.now)) result }
    ensures passed { (ms : List Stamped) → AllFrom ms args.now → IsPassed ms result }
{
    match args {
        [e] => give_flattened(alloc, None, e),
        [e, n] => match count_of(n) {
            Some(levels) => give_flattened(alloc, Some(levels), e),
            None => stay(),
        },
        _ => stay(),
    }
}
