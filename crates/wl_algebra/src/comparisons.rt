//! `Equal` and its relatives, `Less` and its relatives, `SameQ`, `UnsameQ` and `Not`.
ghost use Rattle.std.specs.Prelude.{◌≡◌, IfOk, List, option_map};
ghost use Rattle.wl_exact.specs.Arithmetic.{fraction_cmp};
ghost use Rattle.wl_algebra.specs.Answers.{IsAnswer, IsPassed, trees};
ghost use Rattle.wl_algebra.specs.Comparisons.{all_differ, all_neighbours, some_neighbours, are_apart, some_apart, equal_row, unequal_row, comparison_row, relation_of, inequality_row, same_row, unsame_row, not_row};
ghost use Rattle.wl_algebra.specs.Kinds.{relation_by};
ghost use Rattle.wl_expr.specs.Same.{same};
ghost use Rattle.wl_expr.specs.Stamped.{Stamped, from_list, plain, plains};

use crate::answer::{give_truth, stay};
use crate::element::{are_same, is_symbol, number};
use indexmap::IndexSet;
use std::alloc::Global;
use wl_exact::Num;
use wl_expr::{Applied, Expr, ExprFault, Look};
use wl_ports::Memory;

/// How two numbers may stand to each other.
#[derive(Clone, Copy)]
pub enum Relation {
    Less,
    LessEqual,
    Greater,
    GreaterEqual,
    Equal,
    Unequal,
}

/// Whether each element is the same as the next.
fn all_same(args: &[Expr]) -> bool
    ensures { result ≡ all_neighbours same (trees args.now) }
{
    let [first, rest @ ..] = args else {
        return true;
    };
    let mut previous = first;
    for arg in rest {
        if !are_same(previous, arg) {
            return false;
        }
        previous = arg;
    }
    true
}

/// Whether an element is apart from the next.
fn some_neighbours_apart(args: &[Expr]) -> bool
    ensures { result ≡ some_neighbours are_apart (trees args.now) }
{
    let [first, rest @ ..] = args else {
        return false;
    };
    let mut previous = first;
    for arg in rest {
        if are_apart(previous, arg) {
            return true;
        }
        previous = arg;
    }
    false
}

/// Whether the two can't be equal: numbers and texts that differ, or lists of other lengths or with elements that are apart.
#[cycle(apart)]
fn are_apart(a: &Expr, b: &Expr) -> bool
    ensures { result ≡ are_apart (plain a.now) (plain b.now) }
{
    match a.view() {
        Look::Num(n) => match b.view() {
            Look::Num(m) => n != m,
            Look::Text(_) => true,
            _ => false,
        },
        Look::Text(s) => match b.view() {
            Look::Num(_) => true,
            Look::Text(t) => s != t,
            _ => false,
        },
        Look::Symbol(_) => false,
        Look::Node(head, args) => match b.view() {
            Look::Node(other, others) => {
                is_symbol(head, "List") && is_symbol(other, "List") && some_apart(args, others)
            }
            _ => false,
        },
    }
}

#[cycle(apart)]
#[tactic(auto, using(wl_expr::proofs::Parts::depth_arg, crate::proofs::Apartness::lengths_apart))]
fn some_apart(xs: &[Expr], ys: &[Expr]) -> bool
    ensures { result ≡ some_apart (plains (from_list xs.now)) (plains (from_list ys.now)) }
{
    if xs.len() != ys.len() {
        return true;
    }
    for i in 0..xs.len() {
        if are_apart(&xs[i], &ys[i]) {
            return true;
        }
    }
    false
}

pub(crate) fn equal_row(alloc: Global, args: &[Expr]) -> Result<Applied, ExprFault>
    ensures answer { IsAnswer (equal_row (trees args.now)) result }
    ensures passed { (ms : List Stamped) → IsPassed ms result }
{
    if all_same(args) {
        return give_truth(alloc, true);
    }
    if some_neighbours_apart(args) {
        return give_truth(alloc, false);
    }
    stay()
}

pub(crate) fn unequal_row(alloc: Global, args: &[Expr]) -> Result<Applied, ExprFault>
    ensures answer { IsAnswer (unequal_row (trees args.now)) result }
    ensures passed { (ms : List Stamped) → IsPassed ms result }
{
    let [a, b] = args else {
        return stay();
    };
    if are_same(a, b) {
        return give_truth(alloc, false);
    }
    if are_apart(a, b) {
        return give_truth(alloc, true);
    }
    stay()
}

pub(crate) fn same_row(alloc: Global, args: &[Expr]) -> Result<Applied, ExprFault>
    ensures answer { IsAnswer (same_row (trees args.now)) result }
    ensures passed { (ms : List Stamped) → IsPassed ms result }
{
    give_truth(alloc, all_same(args))
}

/// Whether no two are the same.
#[tactic(auto, using(crate::proofs::FirstTimes::met_already, crate::proofs::FirstTimes::met_newly))]
fn all_differ(alloc: Global, args: &[Expr]) -> Result<bool, Memory>
    ensures { IfOk result (λ b. b ≡ all_differ (trees args.now)) }
{
    let mut met = IndexSet::new(alloc);
    for arg in args {
        let is_new = met.insert(arg.copy()?)?;
        if !is_new {
            return Ok(false);
        }
    }
    Ok(true)
}

#[tactic(auto, using(crate::proofs::Faults::memory_answers))]
pub(crate) fn unsame_row(alloc: Global, args: &[Expr]) -> Result<Applied, ExprFault>
    ensures answer { IsAnswer (unsame_row (trees args.now)) result }
    ensures passed { (ms : List Stamped) → IsPassed ms result }
{
    give_truth(alloc, all_differ(alloc, args)?)
}

pub(crate) fn not_row(alloc: Global, args: &[Expr]) -> Result<Applied, ExprFault>
    ensures answer { IsAnswer (not_row (trees args.now)) result }
    ensures passed { (ms : List Stamped) → IsPassed ms result }
{
    let [e] = args else {
        return stay();
    };
    if is_symbol(e, "True") {
        return give_truth(alloc, false);
    }
    if is_symbol(e, "False") {
        return give_truth(alloc, true);
    }
    stay()
}

fn holds(relation: Relation, a: &Num, b: &Num) -> bool
    ensures { result ≡ relation_by relation (fraction_cmp a.now b.now) }
{
    let order = a.cmp(b);
    match relation {
        Relation::Less => order.is_lt(),
        Relation::LessEqual => order.is_le(),
        Relation::Greater => order.is_gt(),
        Relation::GreaterEqual => order.is_ge(),
        Relation::Equal => order.is_eq(),
        Relation::Unequal => order.is_ne(),
    }
}

#[tactic(auto, using(crate::proofs::Chains::comparison_begins, crate::proofs::Chains::comparison_stays))]
pub(crate) fn comparison_row(
    alloc: Global,
    relation: Relation,
    args: &[Expr],
) -> Result<Applied, ExprFault>
    ensures answer { IsAnswer (comparison_row (relation_by relation) (trees args.now)) result }
    ensures passed { (ms : List Stamped) → IsPassed ms result }
{
    let [first, rest @ ..] = args else {
        return give_truth(alloc, true);
    };
    let Some(mut previous) = number(first) else {
        return stay();
    };
    let mut all_hold = true;
    for arg in rest {
        let Some(n) = number(arg) else {
            return stay();
        };
        all_hold = all_hold && holds(relation, &previous, &n);
        previous = n;
    }
    give_truth(alloc, all_hold)
}

/// The relation that a sign names.
fn relation_of(sign: &Expr) -> Option<Relation>
    ensures { option_map relation_by result ≡ relation_of (plain sign.now) }
{
    match sign.view() {
        Look::Symbol(name) => match name {
            "Less" => Some(Relation::Less),
            "LessEqual" => Some(Relation::LessEqual),
            "Greater" => Some(Relation::Greater),
            "GreaterEqual" => Some(Relation::GreaterEqual),
            "Equal" => Some(Relation::Equal),
            "Unequal" => Some(Relation::Unequal),
            _ => None,
        },
        _ => None,
    }
}

#[tactic(auto, using(crate::proofs::Chains::inequality_stays, crate::proofs::Chains::inequality_alone))]
pub(crate) fn inequality_row(alloc: Global, args: &[Expr]) -> Result<Applied, ExprFault>
    ensures answer { IsAnswer (inequality_row (trees args.now)) result }
    ensures passed { (ms : List Stamped) → IsPassed ms result }
{
    let [first, rest @ ..] = args else {
        return stay();
    };
    if rest.len() == 0 {
        return stay();
    }
    let Some(mut previous) = number(first) else {
        return stay();
    };
    let mut all_hold = true;
    let mut left = rest;
    while let [sign, operand, others @ ..] = left {
        let Some(relation) = relation_of(sign) else {
            return stay();
        };
        let Some(n) = number(operand) else {
            return stay();
        };
        all_hold = all_hold && holds(relation, &previous, &n);
        previous = n;
        left = others;
    }
    if left.len() == 0 {
        give_truth(alloc, all_hold)
    } else {
        stay()
    }
}
