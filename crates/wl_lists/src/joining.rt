//! `Sort`, `Join`, `Union` and `DeleteDuplicates`.
ghost use Rattle.std.specs.Prelude.{◌≡◌, [], IfOk, List};
ghost use Rattle.std.specs.List.{list_all};
ghost use Rattle.wl_expr.specs.Passed.{IsFrom};
ghost use Rattle.wl_expr.specs.Same.{first_of_each};
ghost use Rattle.wl_expr.specs.Sorted.{sorted};
ghost use Rattle.wl_expr.specs.Stamped.{Stamped, plain};
ghost use Rattle.wl_expr.specs.Words.{elements, is_list};
ghost use Rattle.wl_lists.specs.Answers.{AllFrom, IsAnswer, IsPassed, trees};
ghost use Rattle.wl_lists.specs.Joining.{delete_duplicates_row, elements_of_all, has_head, join_row, sort_row, union_row};

use crate::answer::{give_form, give_node, stay};
use crate::element::{list_elements, parts};
use crate::elements::extend;
use indexmap::IndexSet;
use std::alloc::Global;
use wl_expr::{Applied, Expr, ExprFault, Look, copy_all, sort};
use wl_ports::Memory;

/// Copies in the canonical order.
fn sorted(alloc: Global, elements: &[Expr]) -> Result<Vec<Expr>, Memory>
    ensures value { IfOk result (λ v. trees v.items ≡ sorted (trees elements.now)) }
    ensures passed { (ms : List Stamped) → AllFrom ms elements.now → IfOk result (λ v. AllFrom ms v.items) }
{
    let mut ordered = copy_all(alloc, elements)?;
    sort(&mut ordered)?;
    Ok(ordered)
}

pub(crate) fn sort_row(alloc: Global, args: &[Expr]) -> Result<Applied, ExprFault>
    ensures answer { IsAnswer (sort_row (trees args.now)) result }
    ensures passed { (ms : List Stamped) → AllFrom ms args.now → IsPassed ms result }
{
    let [e] = args else {
        return stay();
    };
    match parts(e) {
        Some((head, elements)) => give_node(alloc, head, sorted(alloc, elements)?.as_slice()),
        None => stay(),
    }
}

/// Copies of the first of each, in order.
pub(crate) fn distinct(alloc: Global, elements: &[Expr]) -> Result<Vec<Expr>, Memory>
    ensures value { IfOk result (λ v. trees v.items ≡ first_of_each [] (trees elements.now)) }
    ensures passed { (ms : List Stamped) → AllFrom ms elements.now → IfOk result (λ v. AllFrom ms v.items) }
{
    let mut met = IndexSet::new(alloc);
    let mut firsts = Vec::new(alloc);
    for element in elements {
        let is_new = met.insert(element.copy()?)?;
        if !is_new {
            continue;
        }
        firsts.push(element.copy()?)?;
    }
    Ok(firsts)
}

pub(crate) fn delete_duplicates_row(alloc: Global, args: &[Expr]) -> Result<Applied, ExprFault>
    ensures answer { IsAnswer (delete_duplicates_row (trees args.now)) result }
    ensures passed { (ms : List Stamped) → AllFrom ms args.now → IsPassed ms result }
{
    let [e] = args else {
        return stay();
    };
    match parts(e) {
        Some((head, elements)) => give_node(alloc, head, distinct(alloc, elements)?.as_slice()),
        None => stay(),
    }
}

/// The elements of a node; an atom has none.
#[tactic(auto, using(wl_expr::proofs::Parts::to_list_plains))]
pub(crate) fn elements(e: &Expr) -> &[Expr]
    ensures value { trees result.now ≡ elements (plain e.now) }
    ensures passed { (ms : List Stamped) → IsFrom ms e.now → AllFrom ms result.now }
{
    match e.view() {
        Look::Node(_, elements) => elements,
        _ => &[],
    }
}

fn all_elements(alloc: Global, args: &[Expr]) -> Result<Vec<Expr>, Memory>
    ensures value { IfOk result (λ v. trees v.items ≡ elements_of_all (trees args.now)) }
    ensures passed { (ms : List Stamped) → AllFrom ms args.now → IfOk result (λ v. AllFrom ms v.items) }
{
    let mut all = Vec::new(alloc);
    for arg in args {
        extend(&mut all, elements(arg))?;
    }
    Ok(all)
}

/// Whether the expression is a node with this head.
fn has_head(head: &Expr, e: &Expr) -> bool
    ensures { result ≡ has_head (plain head.now) (plain e.now) }
{
    match e.view() {
        Look::Node(other, _) => head == other,
        _ => false,
    }
}

fn all_have_head(head: &Expr, args: &[Expr]) -> bool
    ensures { result ≡ list_all (has_head (plain head.now)) (trees args.now) }
{
    for arg in args {
        if !has_head(head, arg) {
            return false;
        }
    }
    true
}

pub(crate) fn join_row(alloc: Global, args: &[Expr]) -> Result<Applied, ExprFault>
    ensures answer { IsAnswer (join_row (trees args.now)) result }
    ensures passed { (ms : List Stamped) → AllFrom ms args.now → IsPassed ms result }
{
    let [first, ..] = args else {
        return stay();
    };
    match parts(first) {
        Some((head, _)) if all_have_head(head, args) => {
            give_node(alloc, head, all_elements(alloc, args)?.as_slice())
        }
        _ => stay(),
    }
}

fn is_list(e: &Expr) -> bool
    ensures { result ≡ is_list (plain e.now) }
{
    list_elements(e).is_some()
}

fn are_lists(args: &[Expr]) -> bool
    ensures { result ≡ list_all is_list (trees args.now) }
{
    for arg in args {
        if !is_list(arg) {
            return false;
        }
    }
    true
}

/// The elements of all, without repeats and in the canonical order.
fn united(alloc: Global, args: &[Expr]) -> Result<Vec<Expr>, Memory>
    ensures value { IfOk result (λ v. trees v.items ≡ sorted (first_of_each [] (elements_of_all (trees args.now)))) }
    ensures passed { (ms : List Stamped) → AllFrom ms args.now → IfOk result (λ v. AllFrom ms v.items) }
{
    let all = all_elements(alloc, args)?;
    let firsts = distinct(alloc, all.as_slice())?;
    sorted(alloc, firsts.as_slice())
}

pub(crate) fn union_row(alloc: Global, args: &[Expr]) -> Result<Applied, ExprFault>
    ensures answer { IsAnswer (union_row (trees args.now)) result }
    ensures passed { (ms : List Stamped) → AllFrom ms args.now → IsPassed ms result }
{
    if args.is_empty() || !are_lists(args) {
        return stay();
    }
    give_form(alloc, "List", united(alloc, args)?.as_slice())
}
