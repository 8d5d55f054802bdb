//! Rows on an expression and on the elements of a node.
ghost use Rattle.std.specs.Prelude.{◌≡◌, ◌++◌, IfOk, List, OnOk, length, reverse, slice_get};
ghost use Rattle.wl_expr.specs.Passed.{IsFrom};
ghost use Rattle.wl_expr.specs.Sorted.{is_sorted};
ghost use Rattle.wl_expr.specs.Stamped.{Stamped, plain};
ghost use Rattle.wl_expr.specs.Words.{elements, head_of};
ghost use Rattle.wl_lists.specs.Answers.{AllFrom, IsAnswer, IsPassed, trees};
ghost use Rattle.wl_lists.specs.Elements.{append_row, depth_row, first_row, head_row, last_row, length_row, most_row, order_row, ordered_row, prepend_row, rest_row, reverse_row};
ghost use Rattle.wl_lists.specs.Nodes.{given};

use crate::answer::{give, give_copy, give_node, give_truth, give_whole, stay, symbol};
use crate::element::parts;
use std::alloc::Global;
use std::cmp::Ordering;
use wl_expr::{Applied, Expr, ExprFault, Look, copy_all};
use wl_ports::Memory;

/// The head; of numbers, texts and symbols the head of their kind.
fn head(alloc: Global, e: &Expr) -> Result<Expr, Memory>
    ensures value { IfOk result (λ h. plain h ≡ head_of (plain e.now)) }
    ensures passed { (ms : List Stamped) → IsFrom ms e.now → IfOk result (IsFrom ms) }
{
    match e.view() {
        Look::Num(n) => {
            if n.den() == 1 {
                symbol(alloc, "Integer")
            } else {
                symbol(alloc, "Rational")
            }
        }
        Look::Text(_) => symbol(alloc, "String"),
        Look::Symbol(_) => symbol(alloc, "Symbol"),
        Look::Node(head, _) => head.copy(),
    }
}

pub(crate) fn head_row(alloc: Global, args: &[Expr]) -> Result<Applied, ExprFault>
    ensures answer { IsAnswer (head_row (trees args.now)) result }
    ensures passed { (ms : List Stamped) → AllFrom ms args.now → IsPassed ms result }
{
    match args {
        [e] => give(head(alloc, e)?),
        _ => stay(),
    }
}

/// How many elements there are; an atom has none.
#[tactic(auto, using(wl_expr::proofs::Parts::length_to_list_plains))]
fn count(e: &Expr) -> usize
    ensures { result ≡ length (elements (plain e.now)) }
{
    match e.view() {
        Look::Node(_, elements) => elements.len(),
        _ => 0,
    }
}

pub(crate) fn length_row(alloc: Global, args: &[Expr]) -> Result<Applied, ExprFault>
    ensures answer { IsAnswer (length_row (trees args.now)) result }
    ensures passed { (ms : List Stamped) → AllFrom ms args.now → IsPassed ms result }
{
    match args {
        [e] => give_whole(alloc, count(e) as i128),
        _ => stay(),
    }
}

pub(crate) fn depth_row(alloc: Global, args: &[Expr]) -> Result<Applied, ExprFault>
    ensures answer { IsAnswer (depth_row (trees args.now)) result }
    ensures passed { (ms : List Stamped) → AllFrom ms args.now → IsPassed ms result }
{
    match args {
        [e] => give_whole(alloc, e.depth() as i128),
        _ => stay(),
    }
}

pub(crate) fn order_row(alloc: Global, args: &[Expr]) -> Result<Applied, ExprFault>
    ensures answer { IsAnswer (order_row (trees args.now)) result }
    ensures passed { (ms : List Stamped) → AllFrom ms args.now → IsPassed ms result }
{
    let [a, b] = args else {
        return stay();
    };
    match a.order(b) {
        Ordering::Less => give_whole(alloc, 1),
        Ordering::Equal => give_whole(alloc, 0),
        Ordering::Greater => give_whole(alloc, -1),
    }
}

/// Whether each element comes no later than the next.
fn are_ordered(elements: &[Expr]) -> bool
    ensures { result ≡ is_sorted (trees elements.now) }
{
    let [first, rest @ ..] = elements else {
        return true;
    };
    let mut previous = first;
    for element in rest {
        if element.order(previous).is_lt() {
            return false;
        }
        previous = element;
    }
    true
}

pub(crate) fn ordered_row(alloc: Global, args: &[Expr]) -> Result<Applied, ExprFault>
    ensures answer { IsAnswer (ordered_row (trees args.now)) result }
    ensures passed { (ms : List Stamped) → AllFrom ms args.now → IsPassed ms result }
{
    let [e] = args else {
        return stay();
    };
    match parts(e) {
        Some((_, elements)) => give_truth(alloc, are_ordered(elements)),
        None => stay(),
    }
}

/// Gives the element at the place, where it is there.
fn give_at(elements: &[Expr], place: usize) -> Result<Applied, ExprFault>
    ensures answer { IsAnswer (given (slice_get (trees elements.now) place)) result }
    ensures passed { (ms : List Stamped) → AllFrom ms elements.now → IsPassed ms result }
{
    match elements.get(place) {
        Some(element) => give_copy(element),
        None => stay(),
    }
}

pub(crate) fn first_row(args: &[Expr]) -> Result<Applied, ExprFault>
    ensures answer { IsAnswer (first_row (trees args.now)) result }
    ensures passed { (ms : List Stamped) → AllFrom ms args.now → IsPassed ms result }
{
    let [e] = args else {
        return stay();
    };
    match parts(e) {
        Some((_, elements)) => give_at(elements, 0),
        None => stay(),
    }
}

pub(crate) fn last_row(args: &[Expr]) -> Result<Applied, ExprFault>
    ensures answer { IsAnswer (last_row (trees args.now)) result }
    ensures passed { (ms : List Stamped) → AllFrom ms args.now → IsPassed ms result }
{
    let [e] = args else {
        return stay();
    };
    match parts(e) {
        Some((_, elements)) => give_at(elements, elements.len().saturating_sub(1)),
        None => stay(),
    }
}

pub(crate) fn rest_row(alloc: Global, args: &[Expr]) -> Result<Applied, ExprFault>
    ensures answer { IsAnswer (rest_row (trees args.now)) result }
    ensures passed { (ms : List Stamped) → AllFrom ms args.now → IsPassed ms result }
{
    let [e] = args else {
        return stay();
    };
    match parts(e) {
        Some((head, [_, rest @ ..])) => give_node(alloc, head, rest),
        _ => stay(),
    }
}

pub(crate) fn most_row(alloc: Global, args: &[Expr]) -> Result<Applied, ExprFault>
    ensures answer { IsAnswer (most_row (trees args.now)) result }
    ensures passed { (ms : List Stamped) → AllFrom ms args.now → IsPassed ms result }
{
    let [e] = args else {
        return stay();
    };
    match parts(e) {
        Some((head, [most @ .., _])) => give_node(alloc, head, most),
        _ => stay(),
    }
}

/// Turns the order round.
fn turn(elements: &mut Vec<Expr>)
    ensures { elements.new.items ≡ reverse elements.old.items }
{
    elements.as_mut_slice().reverse();
}

/// Copies in the opposite order, which share their trees and their stamps.
fn reversed(alloc: Global, elements: &[Expr]) -> Result<Vec<Expr>, Memory>
    ensures value { IfOk result (λ v. trees v.items ≡ reverse (trees elements.now)) }
    ensures passed { (ms : List Stamped) → AllFrom ms elements.now → IfOk result (λ v. AllFrom ms v.items) }
{
    let mut turned = copy_all(alloc, elements)?;
    turn(&mut turned);
    Ok(turned)
}

pub(crate) fn reverse_row(alloc: Global, args: &[Expr]) -> Result<Applied, ExprFault>
    ensures answer { IsAnswer (reverse_row (trees args.now)) result }
    ensures passed { (ms : List Stamped) → AllFrom ms args.now → IsPassed ms result }
{
    let [e] = args else {
        return stay();
    };
    let Some((head, elements)) = parts(e) else {
        return stay();
    };
    give_node(alloc, head, reversed(alloc, elements)?.as_slice())
}

pub(crate) fn append_row(alloc: Global, args: &[Expr]) -> Result<Applied, ExprFault>
    ensures answer { IsAnswer (append_row (trees args.now)) result }
    ensures passed { (ms : List Stamped) → AllFrom ms args.now → IsPassed ms result }
{
    let [e, x] = args else {
        return stay();
    };
    let Some((head, elements)) = parts(e) else {
        return stay();
    };
    let mut longer = copy_all(alloc, elements)?;
    longer.push(x.copy()?)?;
    give_node(alloc, head, longer.as_slice())
}

/// Puts copies behind, which share their trees and their stamps.
pub(crate) fn extend(all: &mut Vec<Expr>, elements: &[Expr]) -> Result<(), Memory>
    ensures { OnOk result (all.new.items ≡ all.old.items ++ elements.now) }
{
    for element in elements {
        all.push(element.copy()?)?;
    }
    Ok(())
}

pub(crate) fn prepend_row(alloc: Global, args: &[Expr]) -> Result<Applied, ExprFault>
    ensures answer { IsAnswer (prepend_row (trees args.now)) result }
    ensures passed { (ms : List Stamped) → AllFrom ms args.now → IsPassed ms result }
{
    let [e, x] = args else {
        return stay();
    };
    let Some((head, elements)) = parts(e) else {
        return stay();
    };
    let mut longer = Vec::new(alloc);
    longer.push(x.copy()?)?;
    extend(&mut longer, elements)?;
    give_node(alloc, head, longer.as_slice())
}
